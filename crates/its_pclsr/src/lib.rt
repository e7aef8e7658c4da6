//! Unwinding: a job is brought to user mode, one small step at a time. It is done to a job that
//! another one or the operator stops, examines or changes. Nothing here can be refused.
//! `remove_tree` is that of its_commit.
//!
//! Proved:
//! - `unwind_one` is its row: one step fewer is left, at most one small thing changes, and the
//!   plain machine does not change (`row`, `fewer`, `change`, `same`, `sound`).
//! - `unwind` is all of these steps (`unwinds`, `few`, `none`, `left`, `same`, `others`, `sound`).
//! - `unwind_below` unwinds all jobs below a job and leaves the plain machine unchanged (`unwinds`,
//!   `same`, `sound`).
//! - The readers of each file remain the channels that read it, each draft remains that of one
//!   channel, and a slot without a job keeps an empty core (`tidy`).
//! - Each page stays in its page frame, except for what unwinding gives back (`cores`, `pages`).
//!
//! Tests: test_decisions/src/removals.rt, test_hostile/src/disturbed.rt, test_calls/src/places.rt.
#![tactic(auto)]

// The files:
// - `unwinding.rt`: one step, and all steps of a job
// - `below.rt`: all jobs below one
mod below;
mod unwinding;

pub use below::unwind_below;
pub use its_commit::remove_tree;
pub use unwinding::{unwind, unwind_one};
