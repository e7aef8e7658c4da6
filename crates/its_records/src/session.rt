//! The events of a session, and why a line is refused.

ghost use Rattle.std.specs.Prelude.{◌≡◌};
ghost use Rattle.its_records.specs.Refusals.{reason_of};

use super::state_line::StateLine;
use arrayvec::ArrayVec;
use its_word::{ConsoleNumber, Slot, Word};

/// A line of a session, read. Addresses `a` are below 2^18, slots `s` are below 64 in version 1 of
/// the session text and below 96 in version 2; docs/SESSION.md has the numbers of each line.
#[derive(Debug, PartialEq, Eq, Drop)]
pub enum Event {
    Nothing,
    /// Line 1 alone: the version of the session text, 1 or 2.
    Version {
        v: u8,
    },
    Load {
        u: Word,
        j: Word,
        console: Option<ConsoleNumber>,
    },
    Words {
        a: u32,
        words: ArrayVec<Word, 16>,
    },
    /// In version 2: a page of the job becomes read only.
    ReadOnly {
        page: u8,
    },
    /// In version 2: the job keeps a symbol.
    Symbol {
        name: Word,
        a: u32,
    },
    Go {
        a: u32,
    },
    File {
        d: Word,
        x: Word,
        y: Word,
    },
    Append {
        words: ArrayVec<Word, 16>,
    },
    EndFile,
    Tick {
        s: Slot,
        n: u32,
    },
    /// In version 2: up to n turns of q ticks, in a circle, to the jobs that run.
    Run {
        n: u32,
        q: u32,
    },
    TypeIn {
        c: ConsoleNumber,
        bytes: ArrayVec<u8, 32>,
    },
    Drain {
        c: ConsoleNumber,
        n: u32,
    },
    Clock {
        n: u64,
    },
    Int {
        s: Slot,
        v: Word,
        w: Word,
    },
    Exam {
        s: Slot,
        a: u32,
        n: u32,
    },
    /// In version 2: n words of a slot from address a on, typed out.
    List {
        s: Slot,
        a: u32,
        n: u32,
    },
    State {
        s: Slot,
    },
    Deposit {
        s: Slot,
        a: u32,
        w: Word,
    },
    Stop {
        s: Slot,
    },
    Cont {
        s: Slot,
    },
    Peek {
        s: Slot,
    },
    Dir {
        d: Word,
    },
    Show {
        d: Word,
        x: Word,
        y: Word,
    },
    /// A line of the state part, which restores one thing of a system that was saved.
    Restore {
        line: StateLine,
    },
    End,
}

/// The place of a line in a session: it is line 1, which may have the version or begin the state
/// part; or in the state part, after SYSTEM and before READY; or outside any block, after LOAD and
/// before its GO, or after FILE and before its EOF.
#[derive(Clone, Copy, Debug, PartialEq, Eq)]
pub enum Place {
    First,
    System,
    Plain,
    Load,
    File,
}

/// Why a line is no event: it has more than 255 bytes, it is no line of the table or none that may
/// occur at its place, one of its numbers is outside its range, or its console is above 7.
#[derive(Clone, Copy, Debug, PartialEq, Eq)]
pub enum Bad {
    Long,
    Syntax,
    Range,
    NoConsole,
}

/// Why a session ends early, as its `?` line says it.
#[derive(Clone, Copy, Debug, PartialEq, Eq)]
pub enum Reason {
    Long,
    Syntax,
    Range,
    NoCons,
    NoJob,
    NoPage,
    ReadOnly,
    NoFile,
    Exists,
    Full,
    Unfit,
    Cut,
}

/// Why a call of the monitor is refused.
#[derive(Clone, Copy, Debug, PartialEq, Eq)]
pub enum Refusal {
    NoJob,
    NoPage,
    ReadOnly,
    NoFile,
    Exists,
    Full,
    Unfit,
    Range,
}

impl Refusal {
    /// The reason of a `?` line.
    pub fn reason(self) -> Reason
        ensures { result ≡ reason_of self }
    {
        match self {
            Refusal::NoJob => Reason::NoJob,
            Refusal::NoPage => Reason::NoPage,
            Refusal::ReadOnly => Reason::ReadOnly,
            Refusal::NoFile => Reason::NoFile,
            Refusal::Exists => Reason::Exists,
            Refusal::Full => Reason::Full,
            Refusal::Unfit => Reason::Unfit,
            Refusal::Range => Reason::Range,
        }
    }
}
