//! Sums and negation.
ghost use Rattle.std.specs.Prelude.{◌≡◌, ◌≤◌};
ghost use Rattle.its_word.specs.Arith.{add_of, magnitude_of, neg_of, sub_of, sum_of};

use crate::LOW_35;
use its_word::{CARRY_0, CARRY_1, OVERFLOW, Result2, Word};

/// The sum of two words and a carry, with the carries out of bits 0 and 1, and overflow if these
/// differ.
fn sum(a: Word, b: Word, carry: u64) -> Result2
    requires { carry ≤ 1 }
    ensures { result ≡ sum_of a b carry }
{
    let (a, b) = (a.value(), b.value());
    let total = a + b + carry;
    let carry_0 = total >> 36 != 0;
    let carry_1 = ((a & LOW_35) + (b & LOW_35) + carry) >> 35 != 0;
    let flags = match (carry_0, carry_1) {
        (true, true) => CARRY_0 | CARRY_1,
        (true, false) => OVERFLOW | CARRY_0,
        (false, true) => OVERFLOW | CARRY_1,
        (false, false) => 0,
    };
    Result2::one_word(Word::new(total), flags)
}

/// ADD: AC plus the source, with the carries and overflow of the sum.
#[tactic(auto, unfolding(its_word::specs::Arith::add_of))]
pub fn add(a: Word, s: Word) -> Result2
    ensures { result ≡ add_of a s }
{
    sum(a, s, 0)
}

/// SUB: AC less the source, as the sum of AC, the source's complement and 1.
#[tactic(auto, unfolding(its_word::specs::Arith::sub_of))]
pub fn sub(a: Word, s: Word) -> Result2
    ensures { result ≡ sub_of a s }
{
    sum(a, !s, 1)
}

/// MOVN: the source negated, as the sum of its complement and 1.
#[tactic(auto, unfolding(its_word::specs::Arith::neg_of))]
pub fn neg(s: Word) -> Result2
    ensures { result ≡ neg_of s }
{
    sum(Word::ZERO, !s, 1)
}

/// MOVM: the source, negated with the flags of the negation if it is negative.
#[tactic(auto, unfolding(its_word::specs::Arith::magnitude_of))]
pub fn magnitude(s: Word) -> Result2
    ensures { result ≡ magnitude_of s }
{
    if s.signed() < 0 {
        neg(s)
    } else {
        Result2::one_word(s, 0)
    }
}
