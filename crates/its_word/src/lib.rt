//! Words of 36 bits, the text of numbers and names, and the instruction tables.
//!
//! Proved, each by its definition:
//! - words: `Word::new`, `value`, `left`, `right`, `pair`, `signed`, `from_signed` and `octal12`;
//! - numbers and names in text: `read_octal` and `read_sixbit` accept exactly the texts that they
//!   should; a number that was printed is read back (`digits_read_back`);
//! - the words of a line (`words`), and the opcode table (`decode`).
//!
//! `ReadyWords` makes words ready from the first on; only its `open` takes memory.
//!
//! One file of laws at the bottom (`proofs/NamesLaws`) says what follows if two names of files are
//! the same, for each other and against any third name. Laws of the definitions and of the store of
//! files both use it.
//!
//! Tests: test_text/src/words.rt, test_pdp.
#![tactic(auto)]

mod access;
mod console_number;
mod digits;
mod filling;
mod flags;
mod instruction;
mod limits;
mod location;
mod memory;
mod opcode;
mod pending;
mod plan;
pub mod pointer;
mod ready;
mod result2;
mod runs;
mod slot;
mod text;
mod word;

pub use access::{Address, Fault, NoAccess};
pub use console_number::ConsoleNumber;
pub use digits::{digits_read_back, octal, octal6};
pub use filling::filled;
pub use flags::{
    BYTE_HALF, CARRY_0, CARRY_1, FLOATING_OVERFLOW, NAMED_FLAGS, NO_DIVIDE, OVERFLOW, USER,
    flags_in, pc_word,
};
pub use instruction::{
    ArithmeticOp, BooleanOp, BranchOp, ByteOp, CompareOp, Condition, Instruction, MaskOp, Mode,
    Modify, MoveOp, ShiftOp, SkipWhen, StackOp,
};
pub use limits::{
    ADDRESSES, BIT_0, BUDGET, CONSOLES, MAPPED_PAGES, MOST_SYMBOLS, MOST_WAITING, SLOTS, WORDS,
};
pub use location::Location;
pub use memory::NoMemory;
pub use opcode::{BOOLEANS, CONDITIONS, MODIFIES, SKIPS, decode};
pub use pending::{ALR, BRK, FATAL, ILO, INF, IOC, MPV, PDL, TBL, WRO};
pub use plan::{ChainStep, Context, Plan, Reached, Store};
pub use ready::ReadyWords;
pub use result2::Result2;
pub use runs::words;
pub use slot::{Slot, within};
pub use text::{BadName, BadOctal, read_octal, read_sixbit};
pub use word::Word;
