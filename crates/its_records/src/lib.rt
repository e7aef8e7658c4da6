//! The records that other crates share: events, calls, jobs, links, and what is shown.
//!
//! Proved: the reason of a refusal (`Refusal::reason`), by its definition.
//!
//! Tests: test_lines, test_calls.
#![tactic(auto)]

// The files:
// - `calls.rt`: what a call asks for, and what is pending of it
// - `jobs.rt`: a job and its channels
// - `link.rt`: links between jobs and their ends
// - `session.rt`: the events of a session, and why a line is refused
// - `show.rt`: what is shown of a job, a file or a call in progress
// - `state_line.rt`: the lines of the state part of a session
mod calls;
mod jobs;
mod link;
mod session;
mod show;
mod state_line;

pub use calls::{Arg, Ask, Block, Exit, Kind, Operand, Owed, Pace, Placed, Site, Source};
pub use jobs::{CHANNELS, Channel, Job};
pub use link::{End, LINK_WORDS, LINKS, Link};
pub use session::{Bad, Event, Place, Reason, Refusal};
pub use show::{FileShow, JobShow, Peek, PeekState};
pub use state_line::{Registers, StateLine};
