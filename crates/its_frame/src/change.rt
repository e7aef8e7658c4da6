//! Changes: the small effects of a call outside its own words and registers.

ghost use Rattle.std.specs.Prelude.{◌≡◌};
ghost use Rattle.its_frame.specs.declared.change.Change.TheVariants.{Inform};

use super::variable::Variable;
use its_word::Word;

/// What a channel is opened on: a console for input or for output; a file that is read from its
/// first word on; a draft of no words with these names; or an inferior from position 0 on, with
/// leave to write or without.
#[derive(Clone, Copy, Debug, PartialEq, Eq)]
pub enum Opened {
    TtyIn,
    TtyOut,
    Reading { d: Word, x: Word, y: Word },
    Writing { d: Word, x: Word, y: Word },
    Usr { slot: u8, write: bool },
}

/// One small thing that a call does outside its caller's own words and registers. Channels are the
/// caller's, by number; files go by their names, jobs by slot, consoles and links by number.
#[derive(Clone, Copy, Debug, PartialEq, Eq)]
pub enum Change {
    /// A closed channel is opened.
    Open {
        channel: u8,
        on: Opened,
    },
    /// A channel is closed; a draft on it is dropped.
    Shut {
        channel: u8,
    },
    /// The position of a channel is set, in words.
    Move {
        channel: u8,
        at: u32,
    },
    /// A word is appended to the draft of a channel.
    Append {
        channel: u8,
        word: Word,
    },
    /// The draft of a channel becomes a file, in place of one with its names; the channel is
    /// closed.
    Close {
        channel: u8,
    },
    /// The first byte of a console's input is taken.
    Take {
        console: u8,
    },
    /// A byte is put at the end of a console's output.
    Put {
        console: u8,
        byte: u8,
    },
    /// A job becomes the holder of a console.
    Hold {
        console: u8,
        slot: u8,
    },
    /// A word of another job is stored.
    Poke {
        slot: u8,
        at: u32,
        word: Word,
    },
    /// A variable of an inferior is set.
    Set {
        slot: u8,
        variable: Variable,
        value: Word,
    },
    /// A page of zeros is made, which can be stored to.
    Map {
        slot: u8,
        page: u8,
    },
    /// A page is dropped.
    Unmap {
        slot: u8,
        page: u8,
    },
    /// A page is made writable or read only.
    Protect {
        slot: u8,
        page: u8,
        writable: bool,
    },
    /// An inferior of the caller is made in a free slot, with these names and the caller's console.
    Make {
        slot: u8,
        u: Word,
        j: Word,
    },
    /// A job and all jobs below it are removed.
    Remove {
        slot: u8,
    },
    /// INF is set in a job.
    Inform {
        slot: u8,
    },
    /// The caller has this alarm from now on, or none: its period and its next time, in thirtieths.
    Arm {
        alarm: Option<(u64, u64)>,
    },
    /// An end of a link is opened at a closed channel: the writing end or the reading end of the
    /// link of this number, which is made with these names if there is none.
    Join {
        channel: u8,
        link: u8,
        write: bool,
        x: Word,
        y: Word,
    },
    /// A channel on an end of a link is closed, and the end with it. A link without an open end is
    /// gone with its words.
    CloseEnd {
        channel: u8,
        link: u8,
        write: bool,
    },
    /// A word is put at the end of a link.
    Send {
        link: u8,
        word: Word,
    },
    /// The first word of a link is taken.
    Receive {
        link: u8,
    },
    /// A file is deleted.
    Delete {
        d: Word,
        x: Word,
        y: Word,
    },
    /// A file gets other names in its directory, and keeps its place.
    Rename {
        d: Word,
        x: Word,
        y: Word,
        new_x: Word,
        new_y: Word,
    },
}

impl Default for Change {
    ghost is_default = { λ c. c ≡ Inform 0 };

    fn default() -> Change {
        Change::Inform { slot: 0 }
    }
}
