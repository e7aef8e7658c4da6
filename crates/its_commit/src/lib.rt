//! The decision of a call carried out: its changes, and what is pending after it. The changes are
//! made at once; what is pending is steps of the frame of the call. Also the removal of a job with
//! all below it. Nothing here can be refused, and nothing here unwinds.
//!
//! Proved:
//! - `carry_out` is exactly the commit of a decision (`row`), and `carry_part` that of a part of
//!   SIOT. `apply` performs its changes (`row`), and `owed_steps` lists what is pending;
//!   `first_owed` is the first pending word, and `owns_mark` says whose call the half made close
//!   is.
//! - `remove_tree` is the removal of a job with all below it: their cores are given up, their
//!   consoles passed on, and their ends of links closed (`removed`, `pages`, `cores`).
//! - The readers of each file remain the channels that read it, each draft remains that of one
//!   channel, and a slot without a job keeps an empty core (`tidy`).
//! - Each page stays in its page frame, except for what the changes map, drop and remove (`pages`,
//!   `frames`).
//!
//! In `proofs/`: what the tick of a slot finds whose call is tried. The jobs that the call reaches
//! are unwound, it is decided there, and its decision can be carried out (`TriesLaws`).
//!
//! A job is removed with all jobs below it in one sweep over the slots. What is left of the root's
//! own call is dropped; the jobs below have been unwound, and a page that the root has reserved has
//! been given back before. So `remove_tree` unwinds nobody itself: its caller has done so. UCLOSE
//! has unwound the root, and LOGOUT's caller has nothing pending. `remove_tree` does not promise
//! soundness: in a world in which the root was in the middle of a close its mark would remain, and
//! no caller makes such a world.
//!
//! A change that names a slot past the last changes nothing, and unwinding such a slot does
//! nothing. So no bound is needed on the slot that a channel or a superior names, neither in the
//! state nor in a contract.
//!
//! Tests: test_decisions/src/removals.rt, test_hostile/src/disturbed.rt.
#![tactic(auto)]

// The files:
// - `committing.rt`: a decision and a byte of SIOT carried out
// - `changes.rt`: the changes of a call
// - `carrying.rt`: what is pending, as steps of a frame
// - `owed.rt`: the first pending word, and whose the half made close is
// - `removal.rt`: the removal of jobs
mod carrying;
mod changes;
mod committing;
mod owed;
mod removal;

pub use carrying::owed_steps;
pub use changes::apply;
pub use committing::{carry_out, carry_part, standing};
pub use owed::{first_owed, owns_mark};
pub use removal::remove_tree;
