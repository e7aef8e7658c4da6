//! The call in progress of a slot, kept in one place from its entry to its end. A tick writes what
//! it changes, and copies nothing else. Contracts see the frame of the call, or None in user mode.
//!
//! Proved: the clause of each change names the frame after it, as a function of the frame before it
//! and of what the change is given; `view` shows the frame. That the stepped machine has the same
//! frame after the tick is proved in its_monitor (`tick`).
//!
//! A job's call in progress has a site, a block, what it asks for, and steps that are pending:
//! together 2 KB. Each slot has a place for all of them (`its_in_call::Call`), which is made at the
//! opening. A tick writes what it changes, above all the stage, and moves nothing. A list is
//! cleared and filled in its place, because a new `ArrayVec` writes all its places. Contracts see
//! the frame: the model of `Call` is `Option Frame`, so no definition and no clause of another
//! crate speaks of places.
//!
//! Tests: test_decisions/src/places.rt, test_calls/src/places.rt.
#![tactic(auto)]

mod call;
mod owed;
mod values;

pub use call::{Call, Next, View};
