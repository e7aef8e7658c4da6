//! The exit statuses of the program.
/// How a run of the program ended; `as u8` is its exit status.
#[derive(Clone, Copy, Debug, PartialEq, Eq)]
pub enum Status {
    /// The command was done: the session was read to END or to the end of the input, or it was a
    /// generated one; all lines were written.
    Done,
    /// The words are no command; the usage line was written.
    Usage,
    /// A line was refused; all lines up to and with its `?` line were written.
    Refused,
    /// The source failed.
    ReadFault,
    /// The sink failed.
    WriteFault,
    /// Memory was refused, before anything was written.
    NoMemory,
    /// A line past the most that a session may have began.
    TooLong,
}
