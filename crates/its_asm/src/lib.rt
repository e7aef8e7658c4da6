//! The assembler: the image of a text, and the word of a single line (docs/ASM.md). `assemble`
//! gives the image of a text, `statement` the word of one line, and `type_out` writes a word as a
//! line from which `statement` makes it again.
//!
//! Proved:
//! - `assemble` gives the image of a text, or its first refused line with the reason, exactly by
//!   the definition of the language. It may also end for lack of memory (`image`, `refused`).
//! - `statement` is the word of a line without symbols, literals and `.`, and None exactly if the
//!   line is not such a line of one word.
//! - `type_out` writes the text of a word as `its_chart` does, and `statement` of that text is the
//!   word, for every word (`read_back`).
//! - The names of opcodes are those of `its_chart`, for `assemble` and for `type_out`.
//!
//! Its definitions are in `specs`, because they name no machine. The names of opcodes and words as
//! text are in a crate below it, `its_chart`, so that the lines of a transcript do not use the
//! assembler; `its_asm` has its own `type_out`, whose contract adds that the statement of the text
//! is the word. Its reasons are a type of their own (`AsmReason`), which has UNDEF and TWICE in
//! addition to those of a session.
//!
//! A byte below 40 or above 176 is SYNTAX in a comment also, as in a session.
//!
//! Tests: test_text/src/assemblies.rt, test_text/src/words.rt.
#![tactic(auto)]

mod assembly;
mod cells;
mod expression;
mod instruction;
mod layout;
mod reason;
mod single;
mod statements;
mod symbols;
mod words;

pub use assembly::{Image, assemble};
pub use cells::Cells;
pub use its_chart::each_opcode_named;
pub use reason::{AsmFault, AsmReason};
pub use single::{statement, type_out};
pub use symbols::Symbols;
