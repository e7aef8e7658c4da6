//! A job: its registers, and its channels.

use its_word::Word;

/// What a channel of a job is on. `at` is a position in words; `file` and `draft` are the numbers
/// of a file and of a draft; `slot` is that of an inferior, which may be written if `write` holds;
/// `link` is the number of a link, to whose writing end the channel belongs if `write` holds, else
/// to its reading end.
#[derive(Clone, Copy, Debug, PartialEq, Eq)]
pub enum Channel {
    Closed,
    TtyIn,
    TtyOut,
    Reading { file: u32, at: u32 },
    Writing { draft: u32 },
    Usr { slot: u8, write: bool, at: u32 },
    Link { link: u8, write: bool },
}

/// How many channels a job has; they go by the numbers below it.
pub const CHANNELS: u8 = 16;

/// The registers of a job: PC, flags (bits of the left half of a PC word), the stopped mark,
/// pending words, masks and deferrals of its interrupts, its two names in SIXBIT, its console and
/// its channels. Its core and its place in the tree of jobs are elsewhere.
#[derive(Clone, Copy, Debug, PartialEq, Eq)]
pub struct Job {
    pub pc: u32,
    pub flags: u32,
    pub stopped: bool,
    pub pend1: Word,
    pub pend2: Word,
    pub mask1: Word,
    pub mask2: Word,
    pub defer1: Word,
    pub defer2: Word,
    pub uname: Word,
    pub jname: Word,
    pub console: Option<u8>,
    pub channels: [Channel; 16],
}
