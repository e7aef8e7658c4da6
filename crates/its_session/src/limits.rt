//! The number that bounds a session.

/// The most lines that a session may have, and a transcript.
pub const MOST_LINES: u32 = 0o4000000;
