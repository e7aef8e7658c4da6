//! Links between jobs: how many there are, how many words one holds, and its two ends.

use its_word::Word;

/// How many links there can be. Links go by the numbers below it.
pub const LINKS: usize = 16;

/// How many words a link holds at most.
pub const LINK_WORDS: usize = 64;

/// One end of a link: nobody has opened it yet, it is open at a channel of the job of a slot, or it
/// was open and is closed.
#[derive(Clone, Copy, Debug, PartialEq, Eq)]
pub enum End {
    Unopened,
    Opened { slot: u8, channel: u8 },
    Closed,
}

/// A link between jobs: its two names in SIXBIT, and its two ends. The words in it are elsewhere.
#[derive(Clone, Copy, Debug, PartialEq, Eq)]
pub struct Link {
    pub x: Word,
    pub y: Word,
    pub reader: End,
    pub writer: End,
}
