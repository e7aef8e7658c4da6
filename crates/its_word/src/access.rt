//! Addresses that a chain of address words reaches, and why a word is not accessible.

ghost use Rattle.std.specs.Prelude.{◌≡◌};
ghost use Rattle.its_word.specs.Flags.{bit_of};

use super::pending::{ILO, MPV, WRO};
use super::word::Word;

/// An effective address, from 0 to 777777 (octal), and the last index register or indirect word
/// that its calculation used, from which JRST 2 takes its flags.
#[derive(Clone, Copy, Debug, PartialEq, Eq)]
pub struct Address {
    pub e: u32,
    pub flags_word: Option<Word>,
}

/// Why a unit or a call faults: a page that is absent, a store to a page that is read only, or an
/// illegal operation.
#[derive(Clone, Copy, Debug, PartialEq, Eq)]
pub enum Fault {
    Mpv,
    Wro,
    Ilo,
}

impl Fault {
    /// The bit of pending word 1 that it sets.
    pub fn bit(self) -> Word
        ensures { result ≡ bit_of self }
    {
        match self {
            Fault::Mpv => Word::new(MPV),
            Fault::Wro => Word::new(WRO),
            Fault::Ilo => Word::new(ILO),
        }
    }
}

/// Why a word cannot be read or stored: its page is absent, or it is read only.
#[derive(Clone, Copy, Debug, PartialEq, Eq)]
pub enum NoAccess {
    Absent,
    ReadOnly,
}
