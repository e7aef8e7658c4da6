//! The decision of each call for the second machine, made anew (docs/CALLS.md). It is a second
//! implementation beside that of the monitor. A decision is found from the machine as it is, and
//! changes nothing. A call is a method of its `Caller`, which borrows the parts of the machine
//! (`Seen`): its tests in the order of the definitions, and then its end.
//!
//! Proved: `decide` is exactly the definition's decision of any call, if the parts of the machine
//! fit each other (`Fits`), and `disturbed_by` says whom its commit disturbs: at most one job, or
//! those of whom `disturbs` asks slot by slot. `next_move` is exactly what the decision of SIOT
//! moves, if the call reaches no other job (`Moving`).
//!
//! Tests: test_judge.
#![tactic(auto)]

// The files:
// - `choice.rt`: the choice by name, device and channel
// - `basic.rt`, `variables.rt`: SLEEP, REALT, DISMIS, LOGOUT and USRVAR
// - `consoles.rt`: calls on consoles
// - `files.rt`, `directory.rt`, `words.rt`: calls on files: their channels, the directory (DELETE
//   and RENAME), and words
// - `inferiors.rt`: calls on inferiors
// - `links.rt`: calls on links
// - `pages.rt`: CORBLK
// - `opening.rt`, `transfers.rt`: the tests of any OPEN and of any transfer
// - `moving.rt`: the byte that SIOT moves next, as a small value
// - `reach.rt`: whom a commit disturbs
// - `caller.rt`, `arguments.rt`, `ends.rt`: the caller, the arguments of its call, and the ways in
//   which a call ends
mod arguments;
mod basic;
mod caller;
mod choice;
mod consoles;
mod directory;
mod ends;
mod files;
mod inferiors;
mod links;
mod moving;
mod opening;
mod pages;
mod reach;
mod transfers;
mod variables;
mod words;

pub use caller::Seen;
pub use choice::decide;
pub use moving::{NextMove, Shift, change_of, next_move};
pub use reach::{Disturbed, disturbed_by, disturbs};
