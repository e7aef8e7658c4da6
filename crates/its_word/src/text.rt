//! The text of numbers and names (docs/SESSION.md, "Numbers and names").
ghost use Rattle.std.specs.Prelude.{◌≡◌, ℕ, IsTrue, OkIff};
ghost use Rattle.its_word.specs.Text.{is_name, is_octal, octal12_of, octal_value, sixbit_of};

use super::word::Word;
use thiserror::Error;

/// The text is not 1 to 12 octal digits.
#[derive(Clone, Copy, Debug, PartialEq, Eq, Error)]
#[error("not a number of 1 to 12 octal digits")]
pub struct BadOctal;

/// The text is not 1 to 6 characters of SIXBIT, from 41 to 137 (octal).
#[derive(Clone, Copy, Debug, PartialEq, Eq, Error)]
#[error("not a name of 1 to 6 characters")]
pub struct BadName;

impl Word {
    /// The word's twelve octal digits, as ASCII.
    #[tactic(auto, unfolding(crate::specs::Text::octal12_of))]
    pub fn octal12(self) -> [u8; 12]
        ensures { result ≡ octal12_of self }
    {
        let mut digits = [b'0'; 12];
        for i in 0..12 {
            digits[i] = b'0' + ((self.value() >> (33 - 3 * i)) % 8) as u8;
        }
        digits
    }
}

/// The number that 1 to 12 octal digits write; `BadOctal` for any other text.
#[tactic(auto, using(crate::proofs::TextLaws::below_8), unfolding(crate::specs::Text::is_octal, crate::specs::Text::octal_value))]
pub fn read_octal(text: &[u8]) -> Result<Word, BadOctal>
    ensures { OkIff result (IsTrue (is_octal text.now)) (octal_value text.now) }
{
    if text.is_empty() || text.len() > 12 {
        return Err(BadOctal);
    }
    let mut number = 0;
    for &byte in text {
        if !(b'0'..=b'7').contains(&byte) {
            return Err(BadOctal);
        }
        number = number * 8 + u64::from(byte - b'0');
    }
    Ok(Word::new(number))
}

/// The SIXBIT word of a name, left-justified; `BadName` for text that is no name.
#[tactic(auto, using(crate::proofs::TextLaws::below_64), unfolding(crate::specs::Text::is_name, crate::specs::Text::sixbit_of))]
pub fn read_sixbit(text: &[u8]) -> Result<Word, BadName>
    ensures { OkIff result (IsTrue (is_name text.now)) (sixbit_of text.now) }
{
    if text.is_empty() || text.len() > 6 {
        return Err(BadName);
    }
    let mut codes = 0;
    for &byte in text {
        if !(0o41..=0o137).contains(&byte) {
            return Err(BadName);
        }
        codes = codes * 64 + u64::from(byte - 0o40);
    }
    Ok(Word::new(codes << (6 * (6 - text.len()))))
}
