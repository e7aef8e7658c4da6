//! The chart of mnemonics, and words typed out (docs/ASM.md). `opcode_named` gives the opcode of a
//! name, and `type_out` writes a word as a line.
//!
//! Proved:
//! - `type_out` writes exactly the text of a word. That the assembler reads this text as the word
//!   again is proved in `its_asm`.
//! - The name of an opcode is that of its instruction, by one rule for each family
//!   (`Mnemonic.name_of`), for `opcode_named` and for `type_out`. The opcodes with names are those
//!   of the instruction tables, and no name occurs twice (`each_opcode_named`).
//! - `cut` and `up_to` cut a text at its first mark.
//!
//! The name of an opcode is that of the instruction that the decoder finds in it, by one rule for
//! each family. The code keeps a chart of all names, and it is proved to be what these rules give.
//! So no name can be swapped in the chart unnoticed, and the assembler and LIST cannot differ.
//!
//! Tests: test_text/src/mnemonics.rt, test_text/src/words.rt.
#![tactic(auto)]

mod mnemonic;
mod text;
mod typing;

pub use mnemonic::{each_opcode_named, opcode_named};
pub use text::{cut, up_to};
pub use typing::type_out;
