//! The number of a console.
ghost use Rattle.std.specs.Prelude.{◌≡◌, ℕ, ◌<◌, IfSome, nat_eq};
ghost use Rattle.std.proofs.Common.{rules};
ghost use Rattle.std.specs.Cmp.Rules.{comparing};
ghost use Rattle.its_word.specs.Limits.{consoles};

use std::marker::Model;

/// The number of a console, from 0 to 7. Contracts see it as its number.
#[derive(Clone, Copy, Debug, Eq)]
pub struct ConsoleNumber {
    number: u8,
}

impl Model for ConsoleNumber {
    ghost Value = { ℕ };

    ghost view = { λ c. c.number };

    ghost invariant = { λ c. c.number < consoles };

    ghost inverse = { λ n. record { number = n } };
}

impl PartialEq for ConsoleNumber {
    ghost eq = { nat_eq };

    ghost laws = { Prim.search (comparing, rules) };

    fn eq(&self, other: &ConsoleNumber) -> bool {
        self.number == other.number
    }
}

impl ConsoleNumber {
    /// The console of a number.
    pub fn new(number: u8) -> ConsoleNumber
        requires { number < consoles }
        ensures { result ≡ number }
    {
        ConsoleNumber { number }
    }

    /// The console as a number.
    pub fn number(self) -> u8
        ensures value { result ≡ self }
        ensures below { result < consoles }
    {
        self.number
    }

    /// The console as an index into a table of all consoles.
    pub fn index(self) -> usize
        ensures value { result ≡ self }
        ensures below { result < consoles }
    {
        usize::from(self.number)
    }

    /// A console as a number, if there is one.
    pub fn numbered(console: &Option<ConsoleNumber>) -> Option<u8>
        ensures value { result ≡ console.now }
        ensures below { IfSome result (λ c. c < consoles) }
    {
        match console {
            Some(c) => Some(c.number()),
            None => None,
        }
    }
}
