//! The lines of a transcript as values (`Reply`), and their text (docs/SESSION.md). `print_reply`
//! writes a line with its LF into an empty array, which always has room. It takes no memory.
//!
//! Proved: exactly the text of the line is written, and no line has more than 1543 bytes
//! (`longest_line`).
//!
//! A `T` line (`Reply::Ticks`) has its letters as runs (`Run`: a tick, and how many more follow it
//! with the same letter). A list of up to 512 letters would be another form. The line itself shows
//! runs (`2* 1-`), the monitor executes many units in one call, and the judge takes as many in one,
//! so nothing keeps letters one by one. The clause of `print_reply` is about the letters
//! (`paces_in`).
//!
//! Tests: test_lines, test_calls.
#![tactic(auto)]

mod lines;
mod names;
mod put;
mod replies;
mod runs;

pub use lines::{longest_line, print_reply};
pub use replies::{ROW_WORDS, Reply};
pub use runs::Run;
