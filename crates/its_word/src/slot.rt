//! The place of a job.
ghost use Rattle.std.specs.Prelude.{◌≡◌, ℕ, ◌<◌, nat_eq};
ghost use Rattle.std.proofs.Common.{rules};
ghost use Rattle.std.specs.Cmp.Rules.{comparing};
ghost use Rattle.its_word.specs.Limits.{slots};

use std::marker::Model;

/// The place of a job, from 0 to 137 (octal). Contracts see it as its number.
#[derive(Clone, Copy, Debug, Eq)]
pub struct Slot {
    number: u8,
}

impl Model for Slot {
    ghost Value = { ℕ };

    ghost view = { λ s. s.number };

    ghost invariant = { λ s. s.number < slots };

    ghost inverse = { λ n. record { number = n } };
}

impl PartialEq for Slot {
    ghost eq = { nat_eq };

    ghost laws = { Prim.search (comparing, rules) };

    fn eq(&self, other: &Slot) -> bool {
        self.number == other.number
    }
}

impl Slot {
    /// Slot 0.
    pub const FIRST: Slot = Slot { number: 0 };

    /// The last slot.
    pub const LAST: Slot = Slot { number: 0o137 };

    /// The slot of a number.
    pub fn new(number: u8) -> Slot
        requires { number < slots }
        ensures { result ≡ number }
    {
        Slot { number }
    }

    /// The slot as a number.
    pub fn number(self) -> u8
        ensures value { result ≡ self }
        ensures below { result < slots }
    {
        self.number
    }

    /// The slot as an index into a table of all slots.
    pub fn index(self) -> usize
        ensures value { result ≡ self }
        ensures below { result < slots }
    {
        usize::from(self.number)
    }
}

/// Does nothing: a slot has one of the numbers that there are, which a caller learns here.
#[inline(always)]
pub fn within(slot: Slot)
    ensures { slot < slots }
{
    let _ = slot.number();
}
