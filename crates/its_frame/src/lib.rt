//! Calls in progress as data: frames, changes and decisions; the table of calls. A frame says how
//! far a job is inside a call of the monitor, a decision what the call does at its commit, and a
//! change is one small effect outside its own words and registers. Also the names of variables and
//! the error numbers.
//!
//! Proved: `CallName::row` is the table of calls; `CallName::named` gives the call of a name,
//! `CallName::is_siot` says whether it is SIOT, and `Variable::named` gives the variable of a name.
//! The error numbers are those of the definitions (the law `errors_are`).
//!
//! `CallName::named` compares a number with the twenty names in a `match`, and not one after the
//! other: a tick that tries a call asks for the name several times. Proved equal to the search
//! through the table of calls.
//!
//! Tests: test_decisions/src/basic.rt, test_calls.
#![tactic(auto)]

// The files:
// - `name.rt`: the names of calls, and the row of each in the table of calls
// - `variable.rt`: the names of variables
// - `error.rt`: the error numbers
// - `frame.rt`: frames
// - `change.rt`: changes
// - `decision.rt`: decisions, and the reasons to wait
mod change;
mod decision;
pub mod error;
mod frame;
mod name;
mod variable;

pub use change::{Change, Opened};
pub use decision::{Decision, Held, Wait};
pub use frame::{Asked, Ending, Entered, Frame, Holding, Moving, Parsed, Waiting};
pub use its_records::{Ask, Exit, Owed, Site};
pub use its_word::Store;
pub use name::{CallName, CallRow, OnFiles};
pub use variable::Variable;
