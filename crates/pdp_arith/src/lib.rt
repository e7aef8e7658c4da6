//! Integer arithmetic and comparisons, one function for each family (processor reference manual,
//! "Fixed point arithmetic" and "Arithmetic testing").
//!
//! Proved: each function gives exactly the result of its family's definition in the instruction
//! tables. A refused division is None exactly if the definition refuses it.
//!
//! Tests: test_pdp/src/arithmetic.rt.
#![tactic(auto)]

mod compare;
mod product;
mod quotient;
mod sums;

pub use compare::compares;
pub use product::{imul, mul};
pub use quotient::{div, idiv};
pub use sums::{add, magnitude, neg, sub};

/// Bits 1 to 35 of a word.
const LOW_35: u64 = 0o377777777777;
