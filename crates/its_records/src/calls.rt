//! What a call asks for: its site, its argument block and its arguments; what is pending of a call;
//! and the letters of ticks.

ghost use Rattle.std.specs.Prelude.{◌≡◌, None};
ghost use Rattle.its_records.specs.declared.calls.Owed.TheVariants.{GiveBack};
ghost use Rattle.its_records.specs.declared.calls.Pace.TheVariants.{Off};
ghost use Rattle.its_records.specs.declared.calls.Arg.TheVariants.{Output};

use arrayvec::ArrayVec;
use its_word::{Location, Word};

/// The first word of a call's block, the call's name, and its argument words, of which at most 8
/// are read.
pub type Block = ArrayVec<Word, 10>;

/// What an argument word is, by its bits 6 to 8; `Other` is no argument.
#[derive(Clone, Copy, Debug, PartialEq, Eq)]
pub enum Kind {
    Input,
    Immediate,
    Output,
    ErrorAt,
    Control,
    ImmediateControl,
    Other,
}

/// The source of a value: a word of core, or the argument itself, `0,,E`.
#[derive(Clone, Copy, Debug, PartialEq, Eq)]
pub enum Source {
    Held(Location),
    Immediate(Word),
}

/// An argument whose address is found.
#[derive(Clone, Copy, Debug, PartialEq, Eq)]
pub enum Arg {
    Input(Source),
    Output(Location),
    ErrorAt(Location),
    Control(Source),
}

impl Default for Arg {
    ghost is_default = { λ a. a ≡ Output 0 };

    fn default() -> Arg {
        Arg::Output(Location::ZERO)
    }
}

/// An argument that is found, and how much of the budget of indirect words is used after it.
#[derive(Clone, Copy, Debug, PartialEq, Eq)]
pub struct Placed {
    pub argument: Arg,
    pub used: u32,
}

/// An input argument of a call: its value, and the address of its word if it is no immediate.
#[derive(Clone, Copy, Debug, PartialEq, Eq)]
pub struct Operand {
    pub value: Word,
    pub place: Option<u32>,
}

impl Default for Operand {
    ghost is_default = { λ o. o ≡ record { value = 0; place = None } };

    fn default() -> Operand {
        Operand {
            value: Word::ZERO,
            place: None,
        }
    }
}

/// A decoded call: its name, 0 or the number 1 to 3 of an error of its decoding, its arguments, the
/// places of its decode words in the order of reading, and the places of its input and control
/// words.
#[derive(Debug, PartialEq, Eq, Drop)]
pub struct Ask {
    pub name: Word,
    pub fail: u8,
    pub inputs: ArrayVec<Operand, 8>,
    pub outputs: ArrayVec<u32, 8>,
    pub error: Option<u32>,
    pub control: Option<Word>,
    pub decode: ArrayVec<u32, 160>,
    pub operand: ArrayVec<u32, 16>,
}

/// The site at which a job enters the monitor: the PC of the call or of the XCT that began the
/// chain, the effective address, the channel of `.IOT`, the budget of indirect words that is used,
/// and the places of the decode words so far.
#[derive(Debug, PartialEq, Eq, Drop)]
pub struct Site {
    pub pc: u32,
    pub e: u32,
    pub channel: Option<u8>,
    pub used: u32,
    pub decode: ArrayVec<u32, 160>,
}

/// The registers that a job leaves a call with.
#[derive(Clone, Copy, Debug, PartialEq, Eq)]
pub struct Exit {
    pub pc: u32,
    pub flags: u32,
    pub pend1: Word,
    pub pend2: Word,
    pub mask1: Word,
    pub mask2: Word,
    pub defer1: Word,
    pub defer2: Word,
}

/// A step of a call that is pending after its commit.
#[derive(Clone, Copy, Debug, PartialEq, Eq)]
pub enum Owed {
    Store(u32, Word),
    GiveBack,
    Unlink,
    Link,
    Free,
    Leave(Exit),
}

impl Default for Owed {
    ghost is_default = { λ o. o ≡ GiveBack };

    fn default() -> Owed {
        Owed::GiveBack
    }
}

/// What a tick of a job did: a step of the plain machine (`*`), work that the plain machine does
/// not see (`.`), a wait (`w`), or nothing, because the slot is empty or its job is stopped (`-`).
#[derive(Clone, Copy, Debug, PartialEq, Eq)]
pub enum Pace {
    Step,
    Work,
    Wait,
    Off,
}

impl Default for Pace {
    ghost is_default = { λ p. p ≡ Off };

    fn default() -> Pace {
        Pace::Off
    }
}
