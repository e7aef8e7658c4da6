//! Quotients.
ghost use Rattle.std.specs.Prelude.{◌≡◌, ◌<◌, ◌≤◌, ◌^◌, int_div, int_rem, unsigned_abs};
ghost use Rattle.its_word.specs.Arith.{div_of, divided, dividend_of, idiv_of};

use crate::LOW_35;
use crate::product::as_word;
use its_word::{Result2, Word};

/// The quotient towards 0.
fn quotient(dividend: i128, divisor: i128) -> i128
    requires dividend { unsigned_abs dividend ≤ 2 ^ 70 }
    requires divisor { 0 < unsigned_abs divisor }
    ensures { result ≡ int_div dividend divisor }
{
    dividend / divisor
}

/// The remainder of that, with the dividend's sign.
fn remainder(dividend: i128, divisor: i128) -> i64
    requires dividend { unsigned_abs dividend ≤ 2 ^ 70 }
    requires divisor { 0 < unsigned_abs divisor }
    requires small { unsigned_abs divisor ≤ 2 ^ 35 }
    ensures { result ≡ int_rem dividend divisor }
{
    (dividend % divisor) as i64
}

/// Quotient and remainder; none if the divisor is 0 or the quotient does not fit a word.
#[tactic(auto, unfolding(its_word::specs::Arith::divided))]
fn divided(dividend: i128, divisor: i128) -> Option<Result2>
    requires dividend_fits { unsigned_abs dividend ≤ 2 ^ 70 }
    requires divisor_fits { unsigned_abs divisor ≤ 2 ^ 35 }
    ensures { result ≡ divided dividend divisor }
{
    if divisor == 0 {
        return None;
    }
    let first = as_word(quotient(dividend, divisor))?;
    Some(Result2 {
        first,
        second: Word::from_signed(remainder(dividend, divisor)),
        flags: 0,
    })
}

/// AC, and the low 35 bits of AC+1 after it, as one number.
#[tactic(auto, unfolding(its_word::specs::Arith::dividend_of))]
fn dividend(a: Word, low: Word) -> i128
    ensures value { result ≡ dividend_of a low }
    ensures bound { unsigned_abs result ≤ 2 ^ 70 }
{
    i128::from(a.signed()) * (1 << 35) + i128::from(low.value() & LOW_35)
}

/// IDIV: the quotient of AC by the source towards 0, and the remainder with the sign of AC. None,
/// which means overflow and no divide, if the source is 0 or the quotient does not fit.
#[tactic(auto, unfolding(its_word::specs::Arith::idiv_of))]
pub fn idiv(a: Word, s: Word) -> Option<Result2>
    ensures { result ≡ idiv_of a s }
{
    divided(i128::from(a.signed()), i128::from(s.signed()))
}

/// DIV: as IDIV, of the number that AC and the low 35 bits of AC+1 are.
#[tactic(auto, unfolding(its_word::specs::Arith::div_of))]
pub fn div(a: Word, low: Word, s: Word) -> Option<Result2>
    ensures { result ≡ div_of a low s }
{
    divided(dividend(a, low), i128::from(s.signed()))
}
