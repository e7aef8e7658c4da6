//! The lines of the state part of a session, each of which says one thing that a system has.

use arrayvec::ArrayVec;
use its_word::{ConsoleNumber, Slot, Word};

/// The registers of a job that a line REGS has, and that STATE shows: whether the job runs, its PC
/// word, and its pending words, masks and deferrals.
#[derive(Clone, Copy, Debug, PartialEq, Eq)]
pub struct Registers {
    pub run: bool,
    pub pc: Word,
    pub p1: Word,
    pub p2: Word,
    pub m1: Word,
    pub m2: Word,
    pub d1: Word,
    pub d2: Word,
}

/// A line of the state part of a session, from `SYSTEM v` to `READY`. Slots are below 64 in version
/// 1 of the session text and below 96 in version 2, and channels `n` and links `l` below 16. The
/// words of a file are added to that of the last FILE, and the words of a core, RO, SYM and REGS
/// are about the job of the last JOB.
#[derive(Debug, PartialEq, Eq, Drop)]
pub enum StateLine {
    /// Line 1 alone: the state part begins, of this version of the session text, 1 or 2.
    System {
        v: u8,
    },
    Clock {
        n: u64,
    },
    File {
        d: Word,
        x: Word,
        y: Word,
    },
    FileWords {
        words: ArrayVec<Word, 16>,
    },
    /// A stopped job in a slot, with these names and this console.
    Job {
        s: Slot,
        u: Word,
        j: Word,
        console: Option<ConsoleNumber>,
    },
    CoreWords {
        a: u32,
        words: ArrayVec<Word, 16>,
    },
    ReadOnly {
        page: u8,
    },
    Symbol {
        name: Word,
        a: u32,
    },
    Regs {
        registers: Registers,
    },
    /// The alarm of a slot's job: its period and its next time, in thirtieths of a second.
    Alarm {
        s: Slot,
        period: u64,
        next: u64,
    },
    /// The job of slot t is the superior of that of slot s.
    Under {
        s: Slot,
        t: Slot,
    },
    /// A channel on the console of a slot's job, for output if `write` holds.
    Tty {
        s: Slot,
        n: u8,
        write: bool,
    },
    /// A channel that reads a file, from a word on.
    Disk {
        s: Slot,
        n: u8,
        d: Word,
        x: Word,
        y: Word,
        at: u32,
    },
    /// A channel that writes a draft, which has no words.
    Draft {
        s: Slot,
        n: u8,
        d: Word,
        x: Word,
        y: Word,
    },
    /// Words after those of the draft of a channel.
    Wrote {
        s: Slot,
        n: u8,
        words: ArrayVec<Word, 16>,
    },
    /// A channel on the inferior in slot t, which may be written if `write` holds, at a position.
    Usr {
        s: Slot,
        n: u8,
        t: Slot,
        write: bool,
        at: u32,
    },
    /// A channel on a link with these names, at its writing end if `write` holds.
    Join {
        s: Slot,
        n: u8,
        l: u8,
        write: bool,
        x: Word,
        y: Word,
    },
    /// Words after those in a link.
    Sent {
        l: u8,
        words: ArrayVec<Word, 16>,
    },
    /// An end of a link is closed that nobody has opened, its writing end if `write` holds.
    EndShut {
        l: u8,
        write: bool,
    },
    /// Bytes that were typed at a console and that no job has taken.
    Input {
        c: ConsoleNumber,
        bytes: ArrayVec<u8, 32>,
    },
    /// Bytes that were put out at a console and that were not drained.
    Output {
        c: ConsoleNumber,
        bytes: ArrayVec<u8, 32>,
    },
    /// The job of a slot holds a console.
    Hold {
        c: ConsoleNumber,
        s: Slot,
    },
    /// A slot had the last turn of RUN.
    Turn {
        s: Slot,
    },
    /// The state part ends.
    Ready,
}
