//! Arithmetic shifts.
ghost use Rattle.std.specs.Prelude.{if◌then◌else◌, ◌==◌, ◌≡◌, ◌<◌, ◌≤◌, ◌+◌, ◌*◌, ◌/◌, ◌^◌, not};
ghost use Rattle.its_word.specs.Shift.{arithmetic, arithmetic_flags, ash_of, ashc_of, double_35, is_left, low_35, moved_right, places, sign, sign_copies};

use crate::count::{Count, count_for};
use crate::shifts::left;
use its_word::{OVERFLOW, Result2, Word};

/// k copies of a sign bit.
#[tactic(auto, using(crate::proofs::SignLaws::copies_in))]
fn copies(sign: u128, k: u32) -> u128
    requires bit { sign ≤ 1 }
    requires few { k ≤ 72 }
    ensures value { result ≡ sign_copies sign k }
    ensures below { result < 2 ^ k }
{
    sign * ((1 << k) - 1)
}

/// The n bits after a sign bit, k places to the right, with copies of the sign coming in.
#[tactic(auto, using(crate::proofs::SignLaws::right_in, crate::proofs::SignLaws::right_past))]
fn right(n: u32, sign: u128, m: u128, k: u32) -> u128
    requires width { n ≤ 72 }
    requires bit { sign ≤ 1 }
    requires fits { m < 2 ^ n }
    ensures value { result ≡ moved_right (sign_copies sign k * 2 ^ n + m) k }
    ensures below { result < 2 ^ n }
{
    if k <= n {
        copies(sign, k) << (n - k) | m >> k
    } else {
        copies(sign, n)
    }
}

/// Whether a bit that differs from the sign leaves at the left, when the n bits after it go k
/// places.
#[tactic(auto, using(crate::proofs::SignLaws::lost, crate::proofs::SignLaws::lost_past))]
fn loses_bits(n: u32, sign: u128, m: u128, k: u32) -> bool
    requires width { n ≤ 72 }
    requires bit { sign ≤ 1 }
    requires fits { m < 2 ^ n }
    ensures { result ≡ not (m * 2 ^ k / 2 ^ n == sign_copies sign k) }
{
    if k <= n {
        m >> (n - k) != copies(sign, k)
    } else {
        sign != 0 || m != 0
    }
}

/// The n bits after a sign bit shifted by the count of an effective address, and the flags.
fn shift(n: u32, e: u32, sign: u128, m: u128) -> (u128, u32)
    requires width { n ≤ 72 }
    requires address { e < 2 ^ 18 }
    requires bit { sign ≤ 1 }
    requires fits { m < 2 ^ n }
    ensures value { result.0 ≡ arithmetic n e sign m }
    ensures below { result.0 < 2 ^ n }
    ensures flags { result.1 ≡ arithmetic_flags n e sign m }
{
    match count_for(e) {
        Count::Left(k) if loses_bits(n, sign, m, k) => (left(n, m, k), OVERFLOW),
        Count::Left(k) => (left(n, m, k), 0),
        Count::Right(k) => (right(n, sign, m, k), 0),
    }
}

/// Bit 0 of a word.
fn sign(a: Word) -> u128
    ensures value { result ≡ sign a }
    ensures bit { result ≤ 1 }
{
    u128::from(a.value() >> 35)
}

/// Bits 1 to 35 of a word.
fn low_35(a: Word) -> u128
    ensures value { result ≡ low_35 a }
    ensures below { result < 2 ^ 35 }
{
    u128::from(a.value() % (1 << 35))
}

/// Bits 1 to 35 of two words.
fn join(a: Word, b: Word) -> u128
    ensures value { result ≡ double_35 a b }
    ensures below { result < 2 ^ 70 }
{
    low_35(a) << 35 | low_35(b)
}

/// The word of a sign bit and 35 bits.
fn signed(sign: u128, m: u128) -> Word
    requires bit { sign ≤ 1 }
    requires fits { m < 2 ^ 35 }
    ensures { result ≡ sign * 2 ^ 35 + m }
{
    Word::new((sign << 35 | m) as u64)
}

/// ASH: bits 1 to 35 of AC shifted by the count that E gives; bit 0 is unchanged. Overflow, if a
/// bit that differs from bit 0 leaves at the left.
#[tactic(auto, unfolding(its_word::specs::Shift::ash_of))]
pub fn ash(e: u32, a: Word) -> Result2
    requires { e < 2 ^ 18 }
    ensures { result ≡ ash_of e a }
{
    let (m, flags) = shift(35, e, sign(a), low_35(a));
    Result2::one_word(signed(sign(a), m), flags)
}

/// ASHC: bits 1 to 35 of AC and of AC+1 shifted as by ASH; bit 0 of AC is unchanged, and goes also
/// to bit 0 of AC+1. A count of 0 changes nothing.
#[tactic(auto, unfolding(its_word::specs::Shift::ashc_of))]
pub fn ashc(e: u32, a: Word, b: Word) -> Result2
    requires { e < 2 ^ 18 }
    ensures { result ≡ ashc_of e a b }
{
    if e % 256 == 0 {
        return Result2 {
            first: a,
            second: b,
            flags: 0,
        };
    }
    let (m, flags) = shift(70, e, sign(a), join(a, b));
    Result2 {
        first: signed(sign(a), m >> 35),
        second: signed(sign(a), m % (1 << 35)),
        flags,
    }
}
