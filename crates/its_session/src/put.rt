//! The words of a line that is written: each call writes a space and a word at the end, or one for
//! each of a list.
ghost use Rattle.std.specs.Prelude.{◌≡◌, ◌+◌, ◌*◌, ◌<◌, ◌≤◌, ◌^◌, ◌==◌, ◌&&◌, ℕ, [], ◌∷◌, length, map, slice_index};
ghost use Rattle.arrayvec.specs.ArrayVec.{array_vec_len};
ghost use Rattle.its_word.specs.Text.{digits_of, is_name, octal6_of, octal12_of, sixbit_of, spaced};
ghost use Rattle.its_session.specs.Names.{characters, console_text, name_of};
ghost use Rattle.its_session.specs.StateWriting.{flag_text, is_name_word, tag_of};

use arrayvec::ArrayVec;
use its_word::{ConsoleNumber, Word, octal, octal6, read_sixbit};

/// A word as it is.
#[tactic(auto, unfolding(its_word::specs::Text::spaced))]
pub fn put(out: &mut ArrayVec<u8, 256>, word: &[u8])
    requires { array_vec_len out.old + length word.now < 256 }
    ensures text { out.new.items ≡ spaced out.old.items (word.now ∷ []) }
    ensures len { array_vec_len out.new ≡ array_vec_len out.old + 1 + length word.now }
{
    out.push(b' ');
    let _fits = out.try_extend_from_slice(word);
}

/// A number below 2^36.
#[tactic(auto, using(crate::proofs::PutLaws::twelve_digits))]
pub fn put_number(out: &mut ArrayVec<u8, 256>, n: u64)
    requires number { n < 2 ^ 36 }
    requires room { array_vec_len out.old + 12 < 256 }
    ensures text { out.new.items ≡ spaced out.old.items (digits_of n ∷ []) }
    ensures len { array_vec_len out.new ≤ array_vec_len out.old + 13 }
{
    put(out, octal(n).as_slice());
}

/// A number, however great.
pub fn put_long(out: &mut ArrayVec<u8, 256>, n: u64)
    requires room { array_vec_len out.old + 22 < 256 }
    ensures text { out.new.items ≡ spaced out.old.items (digits_of n ∷ []) }
    ensures len { array_vec_len out.new ≤ array_vec_len out.old + 23 }
{
    put(out, octal(n).as_slice());
}

/// An address of six digits.
pub fn put_address(out: &mut ArrayVec<u8, 256>, a: u32)
    requires { array_vec_len out.old + 6 < 256 }
    ensures text { out.new.items ≡ spaced out.old.items (octal6_of a ∷ []) }
    ensures len { array_vec_len out.new ≤ array_vec_len out.old + 7 }
{
    put(out, &octal6(a));
}

/// A machine word of twelve digits.
pub fn put_word(out: &mut ArrayVec<u8, 256>, w: Word)
    requires { array_vec_len out.old + 12 < 256 }
    ensures text { out.new.items ≡ spaced out.old.items (octal12_of w ∷ []) }
    ensures len { array_vec_len out.new ≤ array_vec_len out.old + 13 }
    ensures word { w < 2 ^ 36 }
{
    put(out, &w.octal12());
}

/// A console, or `-`.
pub fn put_console(out: &mut ArrayVec<u8, 256>, console: Option<ConsoleNumber>)
    requires { array_vec_len out.old + 12 < 256 }
    ensures text { out.new.items ≡ spaced out.old.items (console_text console ∷ []) }
    ensures len { array_vec_len out.new ≤ array_vec_len out.old + 13 }
{
    match console {
        Some(c) => put_number(out, u64::from(c.number())),
        None => put(out, b"-"),
    }
}

/// A name.
pub fn put_name(out: &mut ArrayVec<u8, 256>, w: Word)
    requires { array_vec_len out.old + 6 < 256 }
    ensures text { out.new.items ≡ spaced out.old.items (name_of w ∷ []) }
    ensures len { array_vec_len out.new ≤ array_vec_len out.old + 7 }
{
    put(out, name(w).as_slice());
}

/// The characters of a name's word.
#[tactic(auto, using(crate::proofs::PutLaws::characters_end, crate::proofs::PutLaws::characters_turn, crate::proofs::PutLaws::no_more))]
fn name(w: Word) -> ArrayVec<u8, 6>
    ensures { result.items ≡ name_of w }
{
    let mut characters = ArrayVec::new();
    let mut rest = w;
    for _turn in 0..6u8 {
        let code = (rest.value() >> 30) as u8;
        if code == 0 {
            break;
        }
        characters.push(b' ' + code);
        rest = Word::new(rest.value() * 0o100);
    }
    characters
}

/// Whether a word is that of a name: its characters are a name, which has this word.
#[tactic(auto, using(crate::proofs::TagLaws::is_named_word))]
fn is_name_word(w: Word) -> bool
    ensures value { result ≡ is_name_word w }
    ensures word { w < 2 ^ 36 }
{
    w.value() != 0 && is_name_of(name(w).as_slice(), w)
}

/// Whether this text is a name, and has this word.
fn is_name_of(text: &[u8], w: Word) -> bool
    ensures { result ≡ is_name text.now && (sixbit_of text.now == w) }
{
    match read_sixbit(text) {
        Ok(named) => named == w,
        Err(_) => false,
    }
}

/// A tag: the name, if the word is that of one, else its twelve digits.
pub fn put_tag(out: &mut ArrayVec<u8, 256>, w: Word)
    requires { array_vec_len out.old + 12 < 256 }
    ensures text { out.new.items ≡ spaced out.old.items (tag_of w ∷ []) }
    ensures len { array_vec_len out.new ≤ array_vec_len out.old + 13 }
    ensures word { w < 2 ^ 36 }
{
    if is_name_word(w) {
        put_name(out, w);
    } else {
        put_word(out, w);
    }
}

/// 1 for yes, 0 for no.
pub fn put_flag(out: &mut ArrayVec<u8, 256>, yes: bool)
    requires { array_vec_len out.old + 12 < 256 }
    ensures text { out.new.items ≡ spaced out.old.items (flag_text yes ∷ []) }
    ensures len { array_vec_len out.new ≤ array_vec_len out.old + 13 }
{
    put(out, if yes { b"1" } else { b"0" });
}

/// Machine words of twelve digits, at most 16.
#[tactic(auto, using(its_word::proofs::SpacedLaws::spaced_none, its_word::proofs::SpacedLaws::spaced_more))]
pub fn put_words(out: &mut ArrayVec<u8, 256>, words: &[Word])
    requires few { length words.now ≤ 16 }
    requires room { array_vec_len out.old + 208 < 256 }
    ensures text { out.new.items ≡ spaced out.old.items (map octal12_of words.now) }
    ensures bound { (k : ℕ) → k < length words.now → slice_index words.now k < 2 ^ 36 }
{
    for w in words {
        put_word(out, *w);
    }
}

/// Bytes as numbers, at most 32.
#[tactic(auto, using(its_word::proofs::SpacedLaws::spaced_none, its_word::proofs::SpacedLaws::spaced_more, crate::proofs::PutLaws::three_digits))]
pub fn put_bytes(out: &mut ArrayVec<u8, 256>, bytes: &[u8])
    requires few { length bytes.now ≤ 32 }
    requires room { array_vec_len out.old + 128 < 256 }
    ensures { out.new.items ≡ spaced out.old.items (map digits_of bytes.now) }
{
    for b in bytes {
        put(out, octal(u64::from(*b)).as_slice());
    }
}
