//! Letters of a `T` line that are alike in a row.

use its_records::Pace;

/// A tick, and how many more follow it with the same letter.
#[derive(Clone, Copy, Debug, Default, PartialEq, Eq)]
pub struct Run {
    pub pace: Pace,
    pub more: u32,
}
