//! What an event shows, and why a session is over.
use its_print::Reply;
use its_records::Refusal;
use its_word::{Slot, Word};

/// What an event shows after which the session goes on: most often one line.
#[derive(Drop)]
pub enum Shown<'a> {
    Nothing,
    Line(Reply<'a>),
    /// Words of a slot from an address on, typed out, each in a line of its own.
    Listed { s: Slot, a: u32, words: &'a [Word] },
    /// The files of a directory, and how many there are: they are read while they are printed.
    Files { d: Word, count: u32 },
    /// The words of a file with this number and these names: they are read while they are printed.
    File { id: u32, d: Word, x: Word, y: Word },
}

/// Why a session is over after an event: by END, or since the monitor refuses it.
#[derive(Clone, Copy, Debug, PartialEq, Eq)]
pub enum Over {
    Ended,
    Refused(Refusal),
}
