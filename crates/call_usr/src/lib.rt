//! The decisions of calls on inferiors: OPEN, .IOT, SIOT, USRMEM and UCLOSE (docs/CALLS.md,
//! "Inferiors"). A decision is found from the world as it is, and changes nothing.
//!
//! Proved: OPEN of USR, `.IOT` and SIOT on inferiors, USRMEM and UCLOSE decide by their
//! definitions, with every error and fault in their order.
//!
//! Tests: test_calls/src/inferiors.rt, test_calls/src/targets.rt.
#![tactic(auto)]

mod memory;
mod open;
mod transfer;

pub use memory::{uclose, usrmem};
pub use open::{is_usr, open_usr};
pub use transfer::{iot_through, siot_through};
