//! What is said of a session and a transcript.
/// What is said of an input.
#[derive(Clone, Copy, Debug, PartialEq, Eq)]
pub enum Outcome {
    /// The transcript, of n lines, is one of the session.
    Yes(u32),
    /// Line n of the transcript is the first that is not licensed; if one is missing, it is one
    /// more than there are.
    No(u32),
    /// Line n of the session is the first that is too long.
    Long(u32),
    /// There is no END line, and line n would be the next.
    Cut(u32),
    /// A line past the most that an input may have begins, and nothing is said before.
    TooLong,
}
