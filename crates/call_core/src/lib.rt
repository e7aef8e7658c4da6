//! The decision of any call: CORBLK here, another by the crate that serves it (docs/CALLS.md). The
//! name of a call chooses; for OPEN the device, and for CLOSE, `.IOT` and SIOT what the channel is
//! on. A decision is found from the world as it is, and changes nothing. Also the byte that SIOT
//! moves next, and whether a call needs a page first.
//!
//! SIOT on anything but an inferior answers a `NextByte`, the small value of one byte that is
//! moved, or a `Stop`, why none is; `decision_of` makes the `Decision` of either. What changes
//! outside the job is a `Moved`, which has six of the variants of `Change` (`change_of`). `part`
//! gives the part exactly if the decision of SIOT is one, its decoding gave no error, no close is
//! half made and the call reaches nobody (`next_part` in `specs/Parts`).
//!
//! The clause of `decide` is that its result is the definition's
//! (`its_plain/specs/Call/Step.decision`) on the world's plain machine. One premise is `Forest`,
//! which the monitor keeps: a channel on an inferior names a slot that has a job.
//!
//! A call is decided in `call_core`, at one place: by its name, and for OPEN, CLOSE, `.IOT` and
//! SIOT by the device or what the channel is on, it is left to the function of the crate that has
//! it, and these crates know nothing of that choice. For decisions `its_tick` uses only
//! `call_core`; it takes from `call_file` whether a call is on files, and from `call_basic` into
//! which job a call reaches.
//!
//! CORBLK tests the operation before the job, and the page before what is there. On a page of its
//! own it changes core under its own call: its pending steps are in its registers and at its error
//! address, which the decoding has tested; for a page that is dropped or made read only no store is
//! pending. A page is reserved and made ready whatever the arguments are, as long as the decoding
//! gave no error: a call that then fails has cleared a page in vain, and gives it back after the
//! `*`.
//!
//! Tests: test_calls/src/pages.rt, test_calls/src/calls.rt.
#![tactic(auto)]

// The files:
// - `calls.rt`: the choice by the name of a call; the byte that SIOT moves next; which call needs a
//   page first
// - `devices.rt`: the choice by the device, or by what a channel is on
// - `pages.rt`: CORBLK
mod calls;
mod devices;
mod pages;

pub use calls::{decide, is_siot, part, reserves};
