//! Numbers as octal digits (docs/SESSION.md, "Numbers and names").
ghost use Rattle.std.specs.Prelude.{◌≡◌, ℕ, ◌^◌, ◌<◌, IsTrue};
ghost use Rattle.its_word.specs.Text.{digits_of, is_octal, octal6_of, octal_value};

use arrayvec::ArrayVec;

/// The six octal digits of an address, as ASCII.
#[tactic(auto, unfolding(crate::specs::Text::octal6_of))]
pub fn octal6(a: u32) -> [u8; 6]
    ensures { result ≡ octal6_of a }
{
    let digit = |k: u32| b'0' + ((a >> k) % 8) as u8;
    [digit(15), digit(12), digit(9), digit(6), digit(3), digit(0)]
}

/// A number's octal digits, as ASCII, without leading zeros.
#[tactic(auto, using(crate::proofs::DigitLaws::digits_below_8, crate::proofs::DigitLaws::digits_from_8, crate::proofs::DigitLaws::digits_fit))]
pub fn octal(n: u64) -> ArrayVec<u8, 22>
    ensures { result.items ≡ digits_of n }
{
    let mut digits = if n < 8 { ArrayVec::new() } else { octal(n / 8) };
    digits.push(b'0' + (n % 8) as u8);
    digits
}

/// Reading the digits of a number of 36 bits gives the number.
#[tactic(auto, using(crate::proofs::DigitLaws::digits_are_octal, crate::proofs::DigitLaws::digits_value))]
pub fn digits_read_back()
    ensures { (n : ℕ) → n < 2 ^ 36 → IsTrue (is_octal (digits_of n)) × (octal_value (digits_of n) ≡ n) }
{}
