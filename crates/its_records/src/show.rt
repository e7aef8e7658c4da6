//! What the lines STATE, SHOW and PEEK show.

use its_word::Word;

/// What STATE shows of a job: its names, superior and console, whether it runs, its PC word, its
/// pending words, masks and deferrals; and of its symbols the one nearest to its PC, if there is
/// one at an address at most the PC: its name, and how far the PC is past it.
#[derive(Clone, Copy, Debug, PartialEq, Eq)]
pub struct JobShow {
    pub u: Word,
    pub j: Word,
    pub sup: Option<u8>,
    pub con: Option<u8>,
    pub run: bool,
    pub pc: Word,
    pub p1: Word,
    pub p2: Word,
    pub m1: Word,
    pub m2: Word,
    pub d1: Word,
    pub d2: Word,
    pub symbol: Option<(Word, u32)>,
}

/// What DIR shows of a file: its two names and its length in words.
#[derive(Clone, Copy, Debug, PartialEq, Eq)]
pub struct FileShow {
    pub x: Word,
    pub y: Word,
    pub length: u32,
}

/// How far a job is inside a call; `User` if it is in none.
#[derive(Clone, Copy, Debug, PartialEq, Eq)]
pub enum PeekState {
    User,
    Entered,
    Parsed,
    Asked,
    Holding,
    Waiting,
    Moving,
    Ending,
}

/// What PEEK shows of a job: its state, the name of its call, the number of unwinding steps to user
/// mode, the raw words at the places of up to two arguments, and the held byte or word.
#[derive(Clone, Copy, Debug, PartialEq, Eq)]
pub struct Peek {
    pub state: PeekState,
    pub name: Option<Word>,
    pub left: u8,
    pub a: Option<Word>,
    pub b: Option<Word>,
    pub h: Option<Word>,
}
