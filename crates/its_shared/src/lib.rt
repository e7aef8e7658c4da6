//! The plain machine of given stores, and what else both machines share. Definitions in `specs/`
//! and laws in `proofs/` give the machine of given cores, jobs, consoles, files and links. The code
//! is what both machines have at their beginning, the table of the symbols of a job, and what both
//! write in the same way: what STATE shows and the values of variables, an alarm that goes, and
//! what a removal does to channels and holders.
//!
//! Proved:
//! - The contents of either form of the machine at its beginning.
//! - A `SymbolTable` keeps up to 512 symbols in the order in which they are given, and only its
//!   `open` takes memory. `nearest` is the symbol that STATE shows.
//! - What STATE shows of a job (`shown`), and the value of a variable (`variable_of`), are the
//!   definition's; so are ALR and the next time of an alarm that goes (`with_alr`, `time_after`),
//!   and channels and holders after a removal (`leave_each`, `pass_on`).
//! - The words that SIOT reads are apart if one look at all of them says so (`are_apart`).
//! - What a call decides is possible (`CallCanLaws`).
//! - A delivery and a unit do the same to registers with and without their channels
//!   (`delivered_bare`, `unit_bare`).
//! - A channel is on a file or a draft that exists (`reading_file`, `writing_draft`), a file is the
//!   one with its names (`named_self`), and the room for words is that of the machine (`full_on`).
//!
//! A `SymbolTable` has memory for 512 symbols from its opening on; a symbol is first written when
//! SYM gives it.
//!
//! CLOCK sets ALR once in a job, however many of its periods have gone by, because bits of pending
//! words are set and not counted; the next time is found by one division (`time_after`).
//!
//! Tests: test_judge, test_lines/src/versions.rt, test_lines/src/alarms.rt.
#![tactic(auto)]

// The files:
// - `opening.rt`: what either machine has at its beginning
// - `symbols.rt`: the table of the symbols of a job, and the one nearest to a PC
// - `readings.rt`: what STATE shows of a job, and the values of variables
// - `alarms.rt`: an alarm that goes
// - `removal.rt`: channels and holders after a removal
// - `apart.rt`: whether the words that SIOT reads are apart
mod alarms;
mod apart;
mod opening;
mod readings;
mod removal;
mod symbols;

pub use alarms::{time_after, with_alr};
pub use apart::are_apart;
pub use opening::{no_alarms, no_symbols, quiet_consoles};
pub use readings::{shown, variable_of};
pub use removal::{is_removed, leave_each, pass_on};
pub use symbols::{SymbolTable, nearest};
