//! Boolean functions, half words, tests, shifts and rotations, by their families (processor
//! reference manual, "Logic", "Half word data transmission", "Logical testing and modification" and
//! "Fixed point arithmetic").
//!
//! Proved: each function gives exactly the result of its family's definition in the instruction
//! tables.
//!
//! Tests: test_pdp/src/booleans.rt.
#![tactic(auto)]

mod arithmetic;
mod booleans;
mod count;
mod halves;
mod masked;
mod shifts;

pub use arithmetic::{ash, ashc};
pub use booleans::boolean;
pub use halves::half;
pub use masked::{changed, tested};
pub use shifts::{lsh, lshc, rot, rotc, zeros};
