//! The step of a job: user mode, a call decoded and decided, and parts of one call after another.

pub mod asking;
pub mod in_place;
pub mod moved;
pub mod parts;
pub mod series;
pub mod sorting;
pub mod stepping;
pub mod steps;
pub mod user_mode;
pub mod waiting;
