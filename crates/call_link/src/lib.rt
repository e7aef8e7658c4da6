//! The decisions of calls on links between jobs: OPEN, CLOSE, .IOT and SIOT (docs/CALLS.md,
//! "Links"). A decision is found from the world as it is, and changes nothing.
//!
//! Proved: OPEN of LNK, CLOSE of an end, and `.IOT` and SIOT on links decide by their definitions,
//! with every error, fault and wait in their order.
//!
//! An end that was closed is not opened again as long as its link exists, so the words of two
//! writers are never mixed. If no end is open the link goes with its words: if an unopened end kept
//! a link, links that nobody comes for would stay for ever, and 16 of them would shut out all
//! others. If the reading end alone is closed, the words stay until the writing end is closed,
//! because nobody can see them, and a rule that drops them would be one more place at which words
//! go. To refuse both ends in one job would need a reason and an error, and would not keep two jobs
//! from waiting for each other.
//!
//! A byte of SIOT is one word of the link, so the writer does not fill words for the reader. Error
//! 26 is in the place of 10, the error of a draft without room. Nobody waits at a link whose
//! reading end is closed, so the order of 26 and of the wait makes no difference; the wait is last
//! because the laws on calls that wait need it there. OPEN may have a directory argument, so that a
//! program can open a file and a link by the same block but for the device.
//!
//! Tests: test_hostile/src/disturbed.rt, test_calls/src/inferiors.rt.
#![tactic(auto)]

// The files:
// - `open.rt`: OPEN of LNK, and CLOSE of an end
// - `transfer.rt`: `.IOT` and SIOT on links
mod open;
mod transfer;

pub use open::{close_end, is_link, open_link};
pub use transfer::{iot_link, siot_link};
