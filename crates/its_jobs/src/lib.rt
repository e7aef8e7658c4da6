//! The jobs by slot, and the tree that their superiors make.
//!
//! Proved:
//! - `create` takes the least empty slot below the limit, and is refused exactly if there is none.
//!   The limit is 64 at the opening, and only `set_limit` changes it.
//! - `remove` removes a job, `remove_tree` a job and all jobs below it, and no others.
//! - `below`, `is_below`, `superior`, `job`, `numbered` and `job_mut` are exact.
//! - No job is reached from itself through superiors (`tree`).
//!
//! There are places for 96 jobs, in both versions of the session text: `SLOTS` in the code, `slots`
//! in the definitions (`its_word/specs/Limits`). How many of them jobs may use is a number beside
//! the table: a job is made in the least empty slot below this limit, which `set_limit` changes
//! while no slot past it has a job. The machine has the version, which determines the limit
//! (`limit_of`).
//!
//! Tests: test_stores/src/jobs.rt.
#![tactic(auto)]

mod table;

pub use its_records::{Channel, Job};
pub use its_word::NoMemory;
pub use table::{Jobs, NoSlot, limit_of};
