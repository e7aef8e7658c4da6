//! The result of an instruction of two words.

ghost use Rattle.std.specs.Prelude.{◌≡◌};
ghost use Rattle.its_word.specs.Result2.{one_word};

use super::word::Word;

/// What a row of the instruction tables gives: its first result, its second (0 if it has none) and
/// the flags that it sets, as bits of the left half of a PC word.
#[derive(Clone, Copy, Debug, PartialEq, Eq)]
pub struct Result2 {
    pub first: Word,
    pub second: Word,
    pub flags: u32,
}

impl Result2 {
    /// One result, and flags.
    pub fn one_word(first: Word, flags: u32) -> Result2
        ensures { result ≡ one_word first flags }
    {
        Result2 {
            first,
            second: Word::ZERO,
            flags,
        }
    }
}
