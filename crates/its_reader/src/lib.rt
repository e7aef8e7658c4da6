//! The lines of a source of bytes, one by one, and the items of a session. What reads lines shares
//! this: it takes no memory, and a line is given as soon as its LF was read.
//!
//! Proved: `Items::next` finds the next item of a session's bytes, by the definition of its events,
//! whatever bytes follow (`finds`), and `Lines::next` the next line (`reads`). `Texts::next` gives
//! the next line with its LF, or says that the line has more bytes before its LF than a line may
//! have (`reads`). If a read fails, nothing more is found in the whole lines that were read.
//!
//! The facts of a loop over items are equations with no machine in them: whatever bytes follow, the
//! items of the session are those that were found and then those that are still ahead
//! (`specs/Items.FoundSoFar`); so it is with the lines of `Texts` (`specs/Texts.ReadsText`).
//! `Texts` gives lines with the LF that ends each (`specs/TextLines.lines_in`), because the lines
//! of a transcript are judged with it. The limit on the bytes of a line is one of its fields, since
//! a session and a transcript can be in one source.
//!
//! The bytes of a source become lines, and these the items of a session, in a crate of their own
//! (`its_reader`), which knows no machine: `run` and `check` take items from it, and other commands
//! can take lines.
//!
//! Tests: test_text/src/reading.rt.
#![tactic(auto)]

mod buffer;
mod items;
mod lines;
mod texts;

pub use items::{Found, Items};
pub use lines::{Lines, Next};
pub use texts::Texts;
