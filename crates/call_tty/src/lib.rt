//! The decisions of calls on consoles: OPEN, .IOT, SIOT, FINISH, LISTEN and TTYLND (docs/CALLS.md,
//! "Consoles"). A decision is found from the world as it is, and changes nothing.
//!
//! Proved: OPEN of TTY, `.IOT` and SIOT on consoles, FINISH, LISTEN and TTYLND decide by their
//! definitions, with every error, fault and wait in their order.
//!
//! Tests: test_decisions/src/consoles.rt, test_lines/src/consoles.rt, test_calls/src/waits.rt.
#![tactic(auto)]

mod consoles;
mod open;
mod transfer;
mod waiting;

pub use open::open_tty;
pub use transfer::{iot_in, iot_out, siot_in, siot_out};
pub use waiting::{finish, listen, ttylnd};
