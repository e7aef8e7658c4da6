//! The lines of a session: grammar, reader and printer; the generated session (docs/SESSION.md).
//! `read_line` reads a line as an event, `print_event` writes one that is read as a given event,
//! and `generated` gives the lines of the generated session. None takes memory.
//!
//! Proved: `read_line` is the grammar, in both directions, and an event that was read fits the
//! table of lines (`fits`). Version 2 reads what `print_event` writes as the same event.
//! `generated` gives line k of the generated session, and None exactly past its end.
//!
//! The lines of the state part have a table of their own: `read_state_line` reads one from its
//! words, exactly by that table, and `write_state_line` writes one (`StateTrip`, `StateFitsLaws`).
//!
//! A text of lines that are read so, each at its place, has these events and no others
//! (`TextLaws`).
//!
//! `its_session` keeps the words of a line as slices in an `ArrayVec`. An if-chain and no `match`
//! distinguishes the kinds of line: the default arm of a match on twenty byte strings has no
//! generated proof.
//!
//! `print_event` gives the line without its LF, so that `read_line` reads what it gives.
//!
//! The record of a session's events has three kinds: a line that is read, a line that is not (with
//! its reason, CUT among them), and a line past the most. The machine's walk needs no place in a
//! block then.
//!
//! Tests: test_text/src/lines.rt, test_lines.
#![tactic(auto)]

mod few;
mod fields;
mod generator;
mod kind;
mod limits;
mod print;
mod put;
mod read;
mod rows;
mod state_kind;
mod state_print;
mod state_read;
mod state_rows;

pub use generator::generated;
pub use limits::MOST_LINES;
pub use print::print_event;
pub use read::read_line;
pub use state_print::write_state_line;
pub use state_read::read_state_line;
