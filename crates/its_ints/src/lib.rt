//! Software interrupts: their delivery, and the return from a handler (docs/MACHINE.md,
//! "Interrupts").
//!
//! Proved: `deliverable`, `deliver` and `dismiss` are the definitions of interrupts.
//!
//! Tests: test_decisions/src/interrupts.rt.
#![tactic(auto)]

mod delivery;
mod table;

pub use delivery::{deliver, deliverable, dismiss, popped};
