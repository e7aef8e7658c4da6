//! The command `asm`: the session of an assembly text, or its refused line (docs/ASM.md, "The
//! command"). The text is read from a source to its end.
//!
//! Proved: `assemble_source` reads the text of a source, and gives the session of its image, or the
//! `?` line of the first line that is refused. Each line of the session is read as it was meant
//! (`ends`). A line of more than 255 bytes ends the reading, and a line past the most is reported
//! exactly if it begins.
//!
//! The reader's `Lines` takes the lines of the text. An over-long line is stored as 256 blanks,
//! which the assembler treats identically (`proofs/LongLaws`).
//!
//! What `its asm` writes is made in memory and written by one call, so that nothing is written
//! before all that may be refused, including memory, is known; and a contract mentions only bytes,
//! with nothing about a sink between two lines.
//!
//! If memory is refused, a text is read on, and no more of it is kept: a text of too many lines has
//! status 6 with any memory. Otherwise a clause could not say that status 5 comes only for want of
//! memory, since a contract does not see the memory.
//!
//! A text is kept line by line, each with its LF, and a line of more than 255 bytes as 256 blanks:
//! so a text whose last line never ends takes no more memory than one that does.
//!
//! Tests: test_text/src/sources.rt, test_lines/src/commands.rt.
#![tactic(auto)]

mod row;
mod session;
mod source;
mod text;

pub use source::{Made, Unmade, assemble_source};
