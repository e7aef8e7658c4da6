//! Decisions: what a call results in, and for what it may wait.

use super::change::Change;
use arrayvec::ArrayVec;
use its_records::Exit;
use its_word::{Store, Word};

/// Why a call cannot go on: it is HANG; its time has not come; the input of a console is empty or
/// held by another; 64 bytes wait in its output, or another holds it; output bytes wait that have
/// to be taken first; or a link has no word to be read, or no room for one more.
#[derive(Clone, Copy, Debug, PartialEq, Eq)]
pub enum Wait {
    Hang,
    Clock,
    Input(u8),
    Output(u8),
    Drained(u8),
    Empty(u8),
    Room(u8),
}

/// A byte or word that was taken and is not yet stored, in the form in which it was taken, and the
/// address of its word.
#[derive(Clone, Copy, Debug, PartialEq, Eq)]
pub struct Held {
    pub place: u32,
    pub byte: Word,
}

/// What a call does at its commit. All values are found before anything changes.
#[derive(Debug, PartialEq, Eq, Drop)]
pub enum Decision {
    /// It cannot go on.
    Waits(Wait),
    /// A part of it is done: these changes; for input the byte or word that is held; and the new
    /// values of its last arguments. PC stays.
    Goes {
        changes: ArrayVec<Change, 2>,
        held: Option<Held>,
        values: ArrayVec<Word, 2>,
    },
    /// It finishes, fails or faults: these changes, then stores into its own core, then the
    /// registers that it leaves its job with.
    Ends {
        changes: ArrayVec<Change, 2>,
        stores: ArrayVec<Store, 2>,
        exit: Exit,
    },
    /// The caller is removed, with all jobs below it; then these changes.
    Gone {
        changes: ArrayVec<Change, 2>,
    },
}
