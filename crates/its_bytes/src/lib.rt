//! Byte pointers of the PDP-10 (processor reference manual, "Byte manipulation"). P is in bits 0 to
//! 5, S in bits 6 to 11, and an address word in bits 13 to 35.
//!
//! Proved: each function is exactly the definition of byte pointers.
//!
//! Tests: test_pdp/src/pointers.rt.
#![tactic(auto)]

ghost use Rattle.std.specs.Prelude.{◌≡◌, ◌<◌, ◌≤◌, ◌+◌, ◌*◌, ◌/◌, ◌%◌, ◌^◌, IsTrue};
ghost use Rattle.its_word.specs.Byte.{deposit_of, has_size, increment_of, load_of, position, size};

use its_word::Word;

/// P, how many bits are at the right of the byte.
fn position(p: Word) -> u32
    ensures value { result ≡ position p }
    ensures below { result < 64 }
{
    (p.value() >> 30) as u32
}

/// S, how many bits the byte has.
fn size(p: Word) -> u32
    ensures value { result ≡ size p }
    ensures below { result < 64 }
{
    (p.value() >> 24) as u32 % 64
}

/// Whether S is from 1 to 36. A pointer with any other size is an illegal operation.
pub fn has_size(p: Word) -> bool
    ensures { result ≡ has_size p }
{
    (1..=36).contains(&size(p))
}

/// The pointer to the next byte, at the right in the same word, or leftmost in the next word; Y
/// wraps within 18 bits. None exactly if S is 0 or above 36.
#[tactic(auto, unfolding(its_word::specs::Byte::increment_of))]
pub fn increment(p: Word) -> Option<Word>
    ensures { result ≡ increment_of p }
{
    if !has_size(p) {
        return None;
    }
    let (position, size) = (position(p), size(p));
    let next = if position >= size {
        Word::new(p.value() - (u64::from(size) << 30))
    } else {
        Word::pair((36 - size) << 12 | p.left() & 0o7777, p.right() + 1)
    };
    Some(next)
}

/// The byte that the pointer shows in a word: S bits, of which the lowest has value 2^P. Bits left
/// of bit 0 read as 0.
#[tactic(auto, unfolding(its_word::specs::Byte::load_of))]
pub fn load(p: Word, w: Word) -> u64
    requires { IsTrue (has_size p) }
    ensures { result ≡ load_of p w }
{
    (w.value() >> position(p)) % (1 << size(p))
}

/// A number whose `size` bits from value 2^`position` on are those of a byte.
#[tactic(auto, using(crate::proofs::ByteLaws::spliced))]
fn splice(w: u128, position: u32, size: u32, byte: u128) -> u128
    requires position { position < 64 }
    requires size { size ≤ 36 }
    requires byte { byte < 2 ^ size }
    ensures { result ≡ w / 2 ^ (position + size) * 2 ^ (position + size) + byte * 2 ^ position + w % 2 ^ position }
{
    let end = position + size;
    w >> end << end | (byte << position | w % (1 << position))
}

/// The word with the low S bits of v as the byte that the pointer shows. Bits left of bit 0 are not
/// stored.
#[tactic(auto, unfolding(its_word::specs::Byte::deposit_of))]
pub fn deposit(p: Word, w: Word, v: u64) -> Word
    requires { IsTrue (has_size p) }
    ensures { result ≡ deposit_of p w v }
{
    let size = size(p);
    let byte = u128::from(v % (1 << size));
    let word = splice(u128::from(w.value()), position(p), size, byte);
    Word::new((word % (1 << 36)) as u64)
}
