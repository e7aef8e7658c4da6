//! Room for what a line shows, which a session makes once: to make it costs more than a line.
ghost use Rattle.std.specs.Prelude.{◌≡◌, []};

use arrayvec::ArrayVec;
use its_print::Run;
use its_records::{JobShow, Peek, PeekState};
use its_word::Word;

/// Room for the letters of a line, as runs.
pub type Runs = ArrayVec<Run, 512>;

/// Room for the bytes of a line.
pub type Bytes = ArrayVec<u8, 2048>;

/// Room for the parts of a line that take more than a few words, which the line lends.
#[derive(Debug, Drop)]
pub struct Parts {
    pub runs: Runs,
    pub words: ArrayVec<Word, 8>,
    pub bytes: ArrayVec<u8, 64>,
    pub show: JobShow,
    pub peek: Peek,
}

impl Parts {
    /// Parts of which no line is made yet.
    pub fn new() -> Parts
        ensures runs { result.runs.items ≡ [] }
    {
        Parts {
            runs: ArrayVec::new(),
            words: ArrayVec::new(),
            bytes: ArrayVec::new(),
            show: no_show(),
            peek: no_peek(),
        }
    }
}

/// What STATE shows of no job.
fn no_show() -> JobShow {
    JobShow {
        u: Word::ZERO,
        j: Word::ZERO,
        sup: None,
        con: None,
        run: false,
        pc: Word::ZERO,
        p1: Word::ZERO,
        p2: Word::ZERO,
        m1: Word::ZERO,
        m2: Word::ZERO,
        d1: Word::ZERO,
        d2: Word::ZERO,
        symbol: None,
    }
}

/// What PEEK shows of no job.
fn no_peek() -> Peek {
    Peek {
        state: PeekState::User,
        name: None,
        left: 0,
        a: None,
        b: None,
        h: None,
    }
}

/// Room for the parts of a line and for its bytes.
#[derive(Debug, Drop)]
pub struct Room {
    pub parts: Parts,
    pub line: Bytes,
}

impl Room {
    /// Room in which nothing is.
    pub fn new() -> Room
        ensures runs { result.parts.runs.items ≡ [] }
        ensures line { result.line.items ≡ [] }
    {
        Room {
            parts: Parts::new(),
            line: ArrayVec::new(),
        }
    }
}
