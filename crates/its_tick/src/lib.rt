//! The tick of a slot: a delivery of an interrupt, a unit, or one step of a call. The tick is a
//! function of the whole state.
//!
//! Proved:
//! - `tick` is the tick of the stepped machine (`state`, `pace`). So the plain machine takes its
//!   step exactly with `*`, and the letter is licensed (`licensed`; the count of `.` is part of the
//!   transcript theorem instead).
//! - The letter of a call that was found not ready is `w` exactly if the slot is on a wait list,
//!   even if it is there wrongly (`waits`, `list`).
//! - What a tick leaves of other slots is `others`; in which page frames pages are after it, and
//!   which are free, is `pages`.
//! - `steps` leaves the state of so many ticks (`state`), each with the letter `*` (`paces`). They
//!   are no more than were asked (`few`), and if they are fewer, no unit is due (`most`).
//! - `running` is true exactly if the slot has a job that is not stopped, on the raw and on the
//!   plain machine (`raw`, `plain`), and changes nothing.
//! - What holds of a world between two calls is kept (`kept`): `specs/Kept`, of which the wait
//!   lists are `specs/Waits`.
//!
//! `specs/Kept.Kept` is what holds of a world between two calls: the state is sound (`Sound`), the
//! jobs of its plain machine are a forest (`Forest`), channels and files fit and the core of an
//! empty slot is that of no job (`Tidy`), and the PC of each job of the plain machine is an
//! address, its console one of eight, and the clock below its end. Each function here has the row
//! of `its_stepped/specs/Tick` as its clause; what the public tick says of the plain machine, of
//! other slots and of soundness follows from that row by laws, without the code.
//!
//! A TICK line gives a slot up to 512 ticks. Half of what a tick of SIOT took was the way to its
//! call and back: the loop over ticks, the dispatch by the frame, and the calls of functions. So
//! `its_tick` has one loop that moves a byte for each tick (`bytes_row`), like the loop of units in
//! user mode, and `steps` uses it inside a call. It asks before each byte all that a tick asks:
//! nothing is known from the byte before. That the tests of arguments hold for the next byte too
//! could be proved, and then be left out; it would save more, but each store outside the call would
//! have to keep it.
//!
//! From the loop to the tests of SIOT each large function has one caller, so the compiler inlines
//! all of them. A second copy of the loop's body in the tick made both slower, because small
//! functions that each copy calls were then kept apart.
//!
//! `TICK` executes ticks by `Monitor::steps`, many units in one call, and falls back to `tick` for
//! all else. So the tick has one place in which it looks for a job, its stopped mark and its frame,
//! and the loop of units has none of that: a unit changes neither. The letters are kept as runs
//! from there to the printing. `steps` is tried only after two steps in a row: after the one step
//! of a call the job is inside the call.
//!
//! A tick has a clause `others`, on what it leaves of all other slots, beside the equation of
//! states. It follows from that equation by laws alone, but it is the promise that a reader looks
//! for: a job that is not disturbed keeps its call, and a job that is disturbed is in user mode.
//!
//! Whom a call reaches is an enum in the code (nobody, one job, a job and all below it for UCLOSE,
//! or the tree of LOGOUT), whose list of slots is a definition: no list is built at a tick.
//!
//! Tests: test_hostile/src/misfiled.rt, test_calls/src/waits.rt, test_lines/src/turns.rt.
#![tactic(auto)]

// The files:
// - `ticks.rt`: the tick, many units in one call, and whether a slot runs
// - `user_mode.rt`: user mode: a delivery, a unit, or the entry of a call
// - `calls.rt`: one step of a call
// - `bytes.rt`: the bytes that SIOT moves
// - `reach.rt`: the jobs that a call reaches are unwound
// - `ready.rt`: all that has to be done before a call is decided
mod bytes;
mod calls;
mod reach;
mod ready;
mod ticks;
mod user_mode;

pub use its_records::Pace;
pub use its_world::World;
pub use ticks::{running, steps, tick, waits_on};
