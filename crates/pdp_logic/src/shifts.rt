//! Logical shifts, rotations and the count of leading zeros.
ghost use Rattle.std.specs.Prelude.{if◌then◌else◌, ◌≡◌, ◌<◌, ◌≤◌, ◌^◌};
ghost use Rattle.its_word.specs.Result2.{one_word};
ghost use Rattle.its_word.specs.Shift.{double, lsh_of, lshc_of, moved_left, moved_right, rot_of, rotated, rotated_by, rotc_of, shifted, two_words, zeros_of};

use crate::count::{Count, count_for};
use its_word::{Result2, Word};

/// The low n bits of w, k places to the left.
#[tactic(auto, using(crate::proofs::ShiftLaws::left_in, crate::proofs::ShiftLaws::left_out))]
pub(crate) fn left(n: u32, w: u128, k: u32) -> u128
    requires { n ≤ 72 }
    ensures value { result ≡ moved_left n w k }
    ensures below { result < 2 ^ n }
{
    if k < n { (w << k) % (1 << n) } else { 0 }
}

/// Bits k places to the right.
#[tactic(auto, using(crate::proofs::ShiftLaws::right_out))]
fn right(w: u128, k: u32) -> u128
    ensures { result ≡ moved_right w k }
{
    if k < 128 { w >> k } else { 0 }
}

/// The n bits of w, k places round to the left.
#[tactic(auto, using(crate::proofs::ShiftLaws::rotated_whole))]
fn rotate(n: u32, w: u128, k: u32) -> u128
    requires some { 0 < n }
    requires width { n ≤ 72 }
    requires fits { w < 2 ^ n }
    ensures value { result ≡ rotated n w k }
    ensures below { result < 2 ^ n }
{
    let k = k % n;
    left(n, w, k) | right(w, n - k)
}

/// n bits shifted by the count of an effective address.
fn shift_by(n: u32, e: u32, w: u128) -> u128
    requires width { n ≤ 72 }
    requires address { e < 2 ^ 18 }
    requires fits { w < 2 ^ n }
    ensures value { result ≡ shifted n e w }
    ensures below { result < 2 ^ n }
{
    match count_for(e) {
        Count::Left(k) => left(n, w, k),
        Count::Right(k) => right(w, k),
    }
}

/// n bits rotated by the count of an effective address.
fn rotate_by(n: u32, e: u32, w: u128) -> u128
    requires some { 0 < n }
    requires width { n ≤ 72 }
    requires address { e < 2 ^ 18 }
    requires fits { w < 2 ^ n }
    ensures value { result ≡ rotated_by n e w }
    ensures below { result < 2 ^ n }
{
    match count_for(e) {
        Count::Left(k) => rotate(n, w, k),
        Count::Right(k) => rotate(n, w, n - k % n),
    }
}

/// The bits of a word.
fn bits(a: Word) -> u128
    ensures value { result ≡ a }
    ensures below { result < 2 ^ 36 }
{
    u128::from(a.value())
}

/// Two words as 72 bits.
fn join(a: Word, b: Word) -> u128
    ensures value { result ≡ double a b }
    ensures below { result < 2 ^ 72 }
{
    bits(a) << 36 | bits(b)
}

/// A word, as the result of a row with no flags.
fn whole(bits: u128) -> Result2
    requires { bits < 2 ^ 36 }
    ensures { result ≡ one_word bits 0 }
{
    Result2::one_word(Word::new(bits as u64), 0)
}

/// 72 bits as two words.
fn split(bits: u128) -> Result2
    requires { bits < 2 ^ 72 }
    ensures { result ≡ two_words bits }
{
    Result2 {
        first: Word::new((bits >> 36) as u64),
        second: Word::new((bits % (1 << 36)) as u64),
        flags: 0,
    }
}

/// LSH: AC shifted by the count that E gives, to the left if it is positive. No flags.
#[tactic(auto, unfolding(its_word::specs::Shift::lsh_of))]
pub fn lsh(e: u32, a: Word) -> Result2
    requires { e < 2 ^ 18 }
    ensures { result ≡ lsh_of e a }
{
    whole(shift_by(36, e, bits(a)))
}

/// ROT: AC rotated by the count that E gives. No flags.
#[tactic(auto, unfolding(its_word::specs::Shift::rot_of))]
pub fn rot(e: u32, a: Word) -> Result2
    requires { e < 2 ^ 18 }
    ensures { result ≡ rot_of e a }
{
    whole(rotate_by(36, e, bits(a)))
}

/// LSHC: the 72 bits of AC and AC+1 shifted by the count that E gives. No flags.
#[tactic(auto, unfolding(its_word::specs::Shift::lshc_of))]
pub fn lshc(e: u32, a: Word, b: Word) -> Result2
    requires { e < 2 ^ 18 }
    ensures { result ≡ lshc_of e a b }
{
    split(shift_by(72, e, join(a, b)))
}

/// ROTC: the 72 bits of AC and AC+1 rotated by the count that E gives. No flags.
#[tactic(auto, unfolding(its_word::specs::Shift::rotc_of))]
pub fn rotc(e: u32, a: Word, b: Word) -> Result2
    requires { e < 2 ^ 18 }
    ensures { result ≡ rotc_of e a b }
{
    split(rotate_by(72, e, join(a, b)))
}

/// JFFO: how many zeros are before the first one of AC; 0 if there is no one.
#[tactic(auto, using(crate::proofs::CountLaws::leading_in_64), unfolding(its_word::specs::Shift::zeros_of))]
pub fn zeros(a: Word) -> u32
    ensures { result ≡ zeros_of a }
{
    if a == Word::ZERO {
        0
    } else {
        a.value().leading_zeros() - 28
    }
}
