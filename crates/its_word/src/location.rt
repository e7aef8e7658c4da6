//! An address of core.
ghost use Rattle.std.specs.Prelude.{◌≡◌, ℕ, ◌%◌, ◌^◌, ◌<◌, nat_eq};
ghost use Rattle.std.proofs.Common.{rules};
ghost use Rattle.std.specs.Cmp.Rules.{comparing};

use std::marker::Model;

/// An address of core, from 0 to 777777 (octal). Contracts see it as its number.
#[derive(Clone, Copy, Debug, Eq)]
pub struct Location {
    number: u32,
}

impl Model for Location {
    ghost Value = { ℕ };

    ghost view = { λ l. l.number };

    ghost invariant = { λ l. l.number < 2 ^ 18 };

    ghost inverse = { λ n. record { number = n } };
}

impl PartialEq for Location {
    ghost eq = { nat_eq };

    ghost laws = { Prim.search (comparing, rules) };

    fn eq(&self, other: &Location) -> bool {
        self.number == other.number
    }
}

impl Location {
    /// Address 0.
    pub const ZERO: Location = Location { number: 0 };

    /// A number modulo 2^18.
    pub fn new(number: u32) -> Location
        ensures { result ≡ number % 2 ^ 18 }
    {
        Location {
            number: number % 0o1000000,
        }
    }

    /// The address as a number.
    pub fn number(self) -> u32
        ensures value { result ≡ self }
        ensures below { result < 2 ^ 18 }
    {
        self.number
    }
}
