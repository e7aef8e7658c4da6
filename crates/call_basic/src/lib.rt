//! The decisions of SLEEP, REALT, DISMIS, USRVAR and LOGOUT, and tests of all calls
//! (docs/CALLS.md). What the calls of several devices have in common is here: the ways in which any
//! call ends, what each OPEN asks, and the tests of transfers; also into which job a call reaches.
//! A decision is found from the world as it is, and changes nothing.
//!
//! Proved: SLEEP, REALT, DISMIS, USRVAR and LOGOUT decide by their definitions, with every error
//! and fault. `target_of` says into which job a call reaches.
//!
//! A decision is a value of 208 bytes, and a long SIOT would make, merge and copy one for each of
//! its bytes. So what SIOT does on a console, a file, a draft or a link is a `NextByte` (one
//! change, the byte that is held, and the new pointer and count) or a `Stop` (why no byte is
//! moved). One form of each function serves the tick, which carries a part out as it is (`moves`,
//! `carry_part`), and `decide`, which makes the decision of it (`decision_of`). SIOT through an
//! inferior makes up to two changes and disturbs that job, so it decides like any other call.
//!
//! The change of a part is a type of its own (`Moved`), with the six changes that SIOT makes. A
//! `Change` has 48 bytes, and its variants have their values in places that overlap, so the
//! compiler keeps it in memory and copies it. The values of a `Moved` stay in registers, and what a
//! byte does is chosen once.
//!
//! The tests of the words that SIOT reads are one pass: `are_apart` compares each decode word with
//! the words of pointer and count and with the next byte's word at once. If it says that they are
//! apart, no test of them holds; else each test is made in its place in the order. It knows calls
//! of two or three argument words, and looks at six decode words without a loop.
//!
//! Tests: test_decisions/src/basic.rt, test_calls/src/calls.rt.
#![tactic(auto)]

// The files:
// - `sleeping.rt`: SLEEP
// - `arming.rt`: REALT
// - `returning.rt`: DISMIS
// - `setting.rt`, `variables.rt`: USRVAR
// - `calls.rt`: LOGOUT, and into which job a call reaches
// - `arguments.rt`: the arguments of a call
// - `ends.rt`: the ways in which a call ends
// - `opening.rt`: the control argument of any OPEN, and the test that its channel is closed
// - `party.rt`: the job that a call is on
// - `transfer.rt`: the tests of any transfer
mod arguments;
mod arming;
mod calls;
mod ends;
mod opening;
mod party;
mod returning;
mod setting;
mod sleeping;
mod transfer;
mod variables;

pub use arguments::{has_input, in_footprint, input, place_of_input};
pub use arming::realt;
pub use calls::{logout, target_of};
pub use ends::{exit_after, fails, faults, finishes, finishes_with, ioc, output, store_at};
pub use opening::{control, is_free};
pub use party::{channel, is_oneself, is_superior};
pub use returning::dismiss;
pub use setting::usrvar;
pub use sleeping::{is_negative, is_read_only, is_shared_place, sleep};
pub use transfer::{
    Moved, NextByte, Stop, bar_of_store, change_of, decision_of, iot_ends, moves, moves_with,
    next_byte, next_pointer, one_less, part_in, stopped,
};
