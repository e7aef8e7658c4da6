//! Whether a session goes on after a line.
ghost use Rattle.std.specs.Prelude.{◌≡◌};
ghost use Rattle.its_top.specs.Telling.{goes_on};
ghost use Rattle.its_top.specs.Conclusion.{status_of};

use crate::commands::status::Status;

/// What a part of a session did: the session goes on, it is over by END, by a refused line or since
/// a line past the most that it may have begins, or a write failed.
#[derive(Clone, Copy, Debug, PartialEq, Eq)]
pub enum Flow {
    On,
    Ended,
    Refused,
    TooLong,
    Fault,
}

impl Flow {
    /// Whether the session goes on.
    pub fn goes_on(self) -> bool
        ensures { result ≡ goes_on self }
    {
        match self {
            Flow::On => true,
            Flow::Ended => false,
            Flow::Refused => false,
            Flow::TooLong => false,
            Flow::Fault => false,
        }
    }

    /// The status of a session that this ended.
    pub fn status(self) -> Status
        ensures { result ≡ status_of self }
    {
        match self {
            Flow::On => Status::Done,
            Flow::Ended => Status::Done,
            Flow::Refused => Status::Refused,
            Flow::TooLong => Status::TooLong,
            Flow::Fault => Status::WriteFault,
        }
    }
}
