//! Products.
ghost use Rattle.std.specs.Prelude.{◌≡◌, ◌≤◌, ◌^◌, IsTrue, SomeIff, unsigned_abs};
ghost use Rattle.its_word.specs.Arith.{fits, high_of, imul_of, low_of, low_word_of, mul_of, product_of};
ghost use Rattle.its_word.specs.Word.{modulo, word_of};

use crate::LOW_35;
use its_word::{OVERFLOW, Result2, Word};

/// The word of -2^35.
const LEAST: u64 = 0o400000000000;

/// The product of two words as signed numbers.
#[tactic(auto, unfolding(its_word::specs::Arith::product_of))]
fn product(a: Word, s: Word) -> i128
    ensures value { result ≡ product_of a s }
    ensures bound { unsigned_abs result ≤ 2 ^ 70 }
{
    i128::from(a.signed()) * i128::from(s.signed())
}

/// The high word of a product.
#[tactic(auto, unfolding(its_word::specs::Arith::high_of))]
fn high(product: i128) -> Word
    requires { unsigned_abs product ≤ 2 ^ 70 }
    ensures { result ≡ high_of product }
{
    Word::from_signed((product >> 35) as i64)
}

/// The low 35 bits of a product.
fn low_35(product: i128) -> u64
    ensures { result ≡ modulo product (2 ^ 35) }
{
    product.rem_euclid(1 << 35) as u64
}

/// The low 35 bits of a number, after bit 0 of a word.
fn behind_sign(first: Word, low: u64) -> Word
    ensures { result ≡ low_word_of first low }
{
    Word::new(first.value() >> 35 << 35 | low & LOW_35)
}

/// The high and the low word of a product.
#[tactic(auto, unfolding(its_word::specs::Arith::low_of))]
fn product_words(product: i128) -> (Word, Word)
    requires { unsigned_abs product ≤ 2 ^ 70 }
    ensures first { result.0 ≡ high_of product }
    ensures second { result.1 ≡ low_of product }
{
    let first = high(product);
    (first, behind_sign(first, low_35(product)))
}

/// The word of a number that is one of 36 bits in two's complement, else none.
pub(crate) fn as_word(z: i128) -> Option<Word>
    ensures { SomeIff result (IsTrue (fits z)) (word_of z) }
{
    if (-(1 << 35)..1 << 35).contains(&z) {
        Some(Word::from_signed(z as i64))
    } else {
        None
    }
}

/// MUL: both words of the product of AC and the source; overflow if both are -2^35.
#[tactic(auto, unfolding(its_word::specs::Arith::mul_of))]
pub fn mul(a: Word, s: Word) -> Result2
    ensures { result ≡ mul_of a s }
{
    let (first, second) = product_words(product(a, s));
    let both_least = a.value() == LEAST && s.value() == LEAST;
    Result2 {
        first,
        second,
        flags: if both_least { OVERFLOW } else { 0 },
    }
}

/// IMUL: the product of AC and the source; if it does not fit, overflow and the low word of MUL.
#[tactic(auto, unfolding(its_word::specs::Arith::imul_of))]
pub fn imul(a: Word, s: Word) -> Result2
    ensures { result ≡ imul_of a s }
{
    let product = product(a, s);
    match as_word(product) {
        Some(word) => Result2::one_word(word, 0),
        None => Result2::one_word(product_words(product).1, OVERFLOW),
    }
}
