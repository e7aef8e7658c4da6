//! `Reply`: a line of a transcript as a value.

use super::runs::Run;
use its_records::{FileShow, JobShow, Peek, Reason};
use its_word::{ConsoleNumber, Slot, Word};

/// How many words a line of SHOW has at most.
pub const ROW_WORDS: u32 = 8;

/// A line of a transcript. What takes more than a few words is lent.
#[derive(Drop)]
pub enum Reply<'a> {
    /// LOAD made a job in a slot.
    Loaded {
        s: Slot,
    },
    /// What the ticks of a slot did, 512 at most, as runs of equal letters.
    Ticks {
        s: Slot,
        runs: &'a [Run],
    },
    /// TYPE on a console, when some bytes found no room.
    Typed {
        c: ConsoleNumber,
        dropped: u32,
    },
    /// The bytes that DRAIN took from a console, 64 at most.
    Drained {
        c: ConsoleNumber,
        bytes: &'a [u8],
    },
    /// The words of a slot from an address on, 8 at most.
    Words {
        s: Slot,
        a: u32,
        words: &'a [Word],
    },
    /// The word of a slot at an address, typed out.
    Listed {
        s: Slot,
        a: u32,
        word: Word,
    },
    /// What STATE shows of a slot in a session of a version.
    State {
        version: u8,
        s: Slot,
        show: &'a JobShow,
    },
    /// What PEEK shows of a slot.
    Peeked {
        s: Slot,
        peek: &'a Peek,
    },
    /// A directory has `n` files.
    Dir {
        d: Word,
        n: u32,
    },
    /// One of these files.
    Filed {
        show: &'a FileShow,
    },
    /// The file of SHOW has `k` words.
    Shown {
        d: Word,
        x: Word,
        y: Word,
        k: u32,
    },
    /// Some of its words, 8 at most.
    Row {
        words: &'a [Word],
    },
    /// Line `n` of the session, from 1, is refused.
    Refused {
        n: u32,
        reason: Reason,
    },
}
