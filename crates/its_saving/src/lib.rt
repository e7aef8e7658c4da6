//! The lines of the state part that a world is saved in, written to a sink one by one. The machine
//! that they build is the one that the world has, with all that it has (its_saved); no job is
//! inside a call and no close is half made.
//!
//! Proved:
//! - `write_system` writes the text of `its_saved`'s `saved_lines` and nothing else; if a write
//!   fails, what was written is the first part of it, and the failure is counted. It asks for a
//!   settled world that the monitor keeps; types are enough to write a line.
//! - The plain machine of such a world can be saved, and if its numbers are those of a run
//!   (`its_saved`'s `Narrow`), the grammar reads its lines (`can_be_saved`).
//!
//! How: each function has one clause, that it writes these lines (`Written.Writes`), and a loop
//! writes those of one number after another (`WritingLaws.each_next`). While the words of a core
//! are written, the last line may be open (`Rows.Taken`).
//!
//! Nothing is kept and no memory is taken: each line is made in an array of its own and written.
//!
//! Tests: test_lines.
#![tactic(auto)]

// The files:
// - `saving.rt`: all lines of a world, in their order
// - `line.rt`: one line
// - `files.rt`: files with their words
// - `jobs.rt`: jobs with their symbols and registers; their superiors and alarms
// - `cores.rt`: the words of a core, and its read-only pages
// - `channels.rt`: the channels of jobs, and drafts with their words
// - `links.rt`: the words in links, and ends that are closed
// - `consoles.rt`: the bytes that wait at consoles, and who holds each
// - `keeping.rt`: what the types of a world's parts keep
mod channels;
mod consoles;
mod cores;
mod files;
mod jobs;
mod keeping;
mod line;
mod links;
mod saving;

pub use keeping::can_be_saved;
pub use saving::write_system;
