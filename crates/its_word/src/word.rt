//! The word of 36 bits (processor reference manual, "Number system").
ghost use Rattle.std.specs.Prelude.{◌≡◌, ℕ, ◌+◌, ◌*◌, ◌/◌, ◌%◌, ◌^◌, ◌<◌, ◌≤◌, nat_eq, unsigned_abs, bit_and, bit_or, bit_xor};
ghost use Rattle.its_word.specs.Word.{left_of, right_of, pair_of, signed_of, word_of, complement_of};
ghost use Rattle.std.proofs.Common.{rules};
ghost use Rattle.std.specs.Cmp.Rules.{comparing};

use std::marker::Model;
use std::ops::{BitAnd, BitOr, BitXor, Not};

/// A word of 36 bits. Contracts see it as its number, from 0 to 2^36 - 1.
#[derive(Clone, Copy, Debug, Eq, PartialOrd, Ord, Hash)]
pub struct Word {
    bits: u64,
}

impl Model for Word {
    ghost Value = { ℕ };

    ghost view = { λ w. w.bits };

    ghost invariant = { λ w. w.bits < 2 ^ 36 };

    ghost inverse = { λ n. record { bits = n } };
}

impl PartialEq for Word {
    ghost eq = { nat_eq };

    ghost laws = { Prim.search (comparing, rules) };

    fn eq(&self, other: &Word) -> bool {
        self.bits == other.bits
    }
}

impl Default for Word {
    ghost is_default = { λ w. w ≡ 0 };

    fn default() -> Word {
        Word { bits: 0 }
    }
}

impl Word {
    /// The word of all zeros.
    pub const ZERO: Word = Word { bits: 0 };
    /// The word of all ones.
    pub const ONES: Word = Word {
        bits: 0o777777777777,
    };

    /// The low 36 bits of a number.
    pub fn new(v: u64) -> Word
        ensures { result ≡ v % 2 ^ 36 }
    {
        Word {
            bits: v & 0o777777777777,
        }
    }

    /// The word as a number without sign.
    pub fn value(self) -> u64
        ensures value { result ≡ self }
        ensures below { result < 2 ^ 36 }
    {
        self.bits
    }

    /// Bits 0 to 17.
    pub fn left(self) -> u32
        ensures value { result ≡ left_of self }
        ensures below { result < 2 ^ 18 }
    {
        (self.bits >> 18) as u32
    }

    /// Bits 18 to 35.
    pub fn right(self) -> u32
        ensures value { result ≡ right_of self }
        ensures below { result < 2 ^ 18 }
    {
        (self.bits & 0o777777) as u32
    }

    /// The word of two halves, each taken modulo 2^18.
    pub fn pair(l: u32, r: u32) -> Word
        ensures { result ≡ pair_of l r }
    {
        Word {
            bits: u64::from(l & 0o777777) << 18 | u64::from(r & 0o777777),
        }
    }

    /// The word as a number in two's complement.
    pub fn signed(self) -> i64
        ensures value { result ≡ signed_of self }
        ensures range { unsigned_abs result ≤ 2 ^ 35 }
    {
        (self.bits << 28).cast_signed() >> 28
    }

    /// The word of a number in two's complement, modulo 2^36.
    pub fn from_signed(v: i64) -> Word
        ensures { result ≡ word_of v }
    {
        Word::new(v.cast_unsigned())
    }
}

impl BitAnd for Word {
    type Output = Word;

    ghost bitand_gives = { λ a b r. r ≡ bit_and a b };

    fn bitand(self, other: Word) -> Word {
        Word {
            bits: self.bits & other.bits,
        }
    }
}

impl BitOr for Word {
    type Output = Word;

    ghost bitor_gives = { λ a b r. r ≡ bit_or a b };

    #[tactic(auto, using(crate::proofs::WordLaws::or_of_36))]
    fn bitor(self, other: Word) -> Word {
        Word {
            bits: self.bits | other.bits,
        }
    }
}

impl BitXor for Word {
    type Output = Word;

    ghost bitxor_gives = { λ a b r. r ≡ bit_xor a b };

    #[tactic(auto, using(crate::proofs::WordLaws::xor_of_36))]
    fn bitxor(self, other: Word) -> Word {
        Word {
            bits: self.bits ^ other.bits,
        }
    }
}

impl Not for Word {
    type Output = Word;

    ghost not_gives = { λ a r. r ≡ complement_of a };

    fn not(self) -> Word {
        Word {
            bits: 0o777777777777 - self.bits,
        }
    }
}
