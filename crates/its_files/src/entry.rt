//! What a number of the store names, the mark of a half made close, and why a call is refused.

use its_word::Word;

/// A file, or a draft: its directory and its two names, and how many channels read a file.
#[derive(Clone, Copy, Debug)]
pub enum Entry {
    File { names: [Word; 3], readers: u32 },
    Draft { names: [Word; 3] },
}

/// The pending parts of a close, with the number of the draft that becomes a file and that of the
/// file that it replaces, if there is one.
#[derive(Clone, Copy, Debug)]
pub enum Parts {
    /// The old file is to be unlinked, the draft linked, and the old file's blocks freed.
    Replace { old: u32, draft: u32 },
    /// The draft is to be linked, and the blocks of an old file freed.
    Link { old: Option<u32>, draft: u32 },
    /// The blocks of the old file are to be freed.
    Free { old: u32 },
}

/// A close that is half made: the slot that is in it, and what is pending.
#[derive(Clone, Copy, Debug)]
pub struct Mark {
    pub owner: u8,
    pub parts: Parts,
}

/// Why a draft is not closed: a channel reads the file that it would replace, or there are 256
/// files and it replaces none.
#[derive(Clone, Copy, Debug, PartialEq, Eq)]
pub enum CloseFault {
    Locked,
    NoRoom,
}

/// Why a file is not renamed: a channel reads it, or a file has the new names.
#[derive(Clone, Copy, Debug, PartialEq, Eq)]
pub enum RenameFault {
    Locked,
    Exists,
}

/// A channel reads the file.
#[derive(Clone, Copy, Debug, PartialEq, Eq)]
pub struct Locked;
