//! Frames: how far a job is inside a call, as contracts see it. The code keeps the call itself as
//! `its_in_call::Call`.

use arrayvec::ArrayVec;
use its_records::{Ask, Owed, Site};
use its_word::Word;

/// The job has entered the monitor at a site.
#[derive(Drop)]
pub struct Entered {
    pub site: Site,
}

/// The call's block is read: its first word, the name of the call, and its argument words.
#[derive(Drop)]
pub struct Parsed {
    pub site: Site,
    pub block: ArrayVec<Word, 10>,
}

/// The addresses and values of its arguments are found.
#[derive(Drop)]
pub struct Asked {
    pub site: Site,
    pub ask: Ask,
}

/// The call is ready to be tried. `page` is the number of clear quarters of a reserved page; `owes`
/// is how many of the last arguments have values that are not yet in core, at most 2.
#[derive(Drop)]
pub struct Holding {
    pub site: Site,
    pub ask: Ask,
    pub page: Option<u8>,
    pub owes: u8,
}

/// The call was found not ready.
#[derive(Drop)]
pub struct Waiting {
    pub site: Site,
    pub ask: Ask,
    pub owes: u8,
}

/// A byte or word is taken, and not yet stored in the word at `place`.
#[derive(Drop)]
pub struct Moving {
    pub site: Site,
    pub ask: Ask,
    pub place: u32,
    pub byte: Word,
}

/// The call is decided, and these steps are pending, in order.
#[derive(Drop)]
pub struct Ending {
    pub site: Site,
    pub ask: Ask,
    pub owed: ArrayVec<Owed, 4>,
}

/// How far a job is inside a call of the monitor. Contracts speak of frames; `its_in_call` keeps
/// them.
#[derive(Drop)]
pub enum Frame {
    Entered(Entered),
    Parsed(Parsed),
    Asked(Asked),
    Holding(Holding),
    Waiting(Waiting),
    Moving(Moving),
    Ending(Ending),
}
