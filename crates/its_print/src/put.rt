//! The words of a line: each call writes a space and a word at the end, or one for each of a list.
ghost use Rattle.std.specs.Prelude.{◌≡◌, ◌+◌, ◌*◌, ◌<◌, ◌≤◌, [], ◌∷◌, ◌++◌, length, map};
ghost use Rattle.arrayvec.specs.ArrayVec.{array_vec_len};
ghost use Rattle.its_word.specs.Text.{digits_of, octal12_of, octal6_of, spaced};
ghost use Rattle.its_chart.specs.TypeOut.{typed};
ghost use Rattle.its_print.specs.Printing.{number_or_dash, run_of, runs_of, symbol_fields, symbol_or_dashes, word_or_dash};
ghost use Rattle.its_print.specs.Runs.{paces_in};

use super::names::letter;
use super::runs::Run;
use arrayvec::ArrayVec;
use its_chart::type_out;
use its_word::{Word, octal6};

/// A word as it is.
#[tactic(auto, unfolding(its_word::specs::Text::spaced))]
pub fn put(out: &mut ArrayVec<u8, 2048>, word: &[u8])
    requires { array_vec_len out.old + length word.now < 2048 }
    ensures text { out.new.items ≡ spaced out.old.items (word.now ∷ []) }
    ensures len { array_vec_len out.new ≡ array_vec_len out.old + 1 + length word.now }
{
    out.push(b' ');
    let _fits = out.try_extend_from_slice(word);
}

/// A number without leading zeros.
#[tactic(auto, using(crate::proofs::PutLaws::number_fits, crate::proofs::PutLaws::digits_text), unfolding(its_word::specs::Text::spaced))]
pub fn put_number(out: &mut ArrayVec<u8, 2048>, n: u64)
    requires { array_vec_len out.old + 22 < 2048 }
    ensures text { out.new.items ≡ spaced out.old.items (digits_of n ∷ []) }
    ensures len { array_vec_len out.new ≤ array_vec_len out.old + 23 }
{
    out.push(b' ');
    put_digits(out, n);
}

/// The digits of a number, without leading zeros and with no space before them. Most numbers have
/// one or two.
#[inline]
#[tactic(auto, using(its_word::proofs::DigitLaws::digits_below_8, crate::proofs::PutLaws::one_digit, crate::proofs::PutLaws::two_digits, crate::proofs::PutLaws::two_counted))]
fn put_digits(out: &mut ArrayVec<u8, 2048>, n: u64)
    requires room { array_vec_len out.old + length (digits_of n) ≤ 2048 }
    ensures text { out.new.items ≡ out.old.items ++ digits_of n }
    ensures len { array_vec_len out.new ≡ array_vec_len out.old + length (digits_of n) }
{
    if n < 8 {
        out.push(b'0' + n as u8);
    } else if n < 64 {
        out.push(b'0' + (n / 8) as u8);
        out.push(b'0' + (n % 8) as u8);
    } else {
        put_all_digits(out, n);
    }
}

/// The digits of any number, without leading zeros.
#[tactic(auto, using(its_word::proofs::DigitLaws::digits_below_8, crate::proofs::PutLaws::one_digit, crate::proofs::PutLaws::more_digits, crate::proofs::PutLaws::last_digit))]
fn put_all_digits(out: &mut ArrayVec<u8, 2048>, n: u64)
    requires room { array_vec_len out.old + length (digits_of n) ≤ 2048 }
    ensures text { out.new.items ≡ out.old.items ++ digits_of n }
    ensures len { array_vec_len out.new ≡ array_vec_len out.old + length (digits_of n) }
{
    if n < 8 {
        out.push(b'0' + n as u8);
    } else {
        put_all_digits(out, n / 8);
        out.push(b'0' + (n % 8) as u8);
    }
}

/// A word of 12 digits.
pub fn put_word(out: &mut ArrayVec<u8, 2048>, w: Word)
    requires { array_vec_len out.old + 12 < 2048 }
    ensures text { out.new.items ≡ spaced out.old.items (octal12_of w ∷ []) }
    ensures len { array_vec_len out.new ≤ array_vec_len out.old + 13 }
{
    put(out, &w.octal12());
}

/// An address of 6 digits.
pub fn put_address(out: &mut ArrayVec<u8, 2048>, a: u32)
    requires { array_vec_len out.old + 6 < 2048 }
    ensures text { out.new.items ≡ spaced out.old.items (octal6_of a ∷ []) }
    ensures len { array_vec_len out.new ≤ array_vec_len out.old + 7 }
{
    put(out, &octal6(a));
}

/// A word typed out.
pub fn put_typed(out: &mut ArrayVec<u8, 2048>, w: Word)
    requires { array_vec_len out.old + 64 < 2048 }
    ensures text { out.new.items ≡ spaced out.old.items (typed w ∷ []) }
    ensures len { array_vec_len out.new ≤ array_vec_len out.old + 65 }
{
    let mut text = ArrayVec::new();
    type_out(w, &mut text);
    put(out, &text);
}

/// A word of 12 digits, or `-`.
pub fn put_word_or_dash(out: &mut ArrayVec<u8, 2048>, w: Option<Word>)
    requires { array_vec_len out.old + 12 < 2048 }
    ensures text { out.new.items ≡ spaced out.old.items (word_or_dash w ∷ []) }
    ensures len { array_vec_len out.new ≤ array_vec_len out.old + 13 }
{
    match w {
        Some(w) => put_word(out, w),
        None => put(out, b"-"),
    }
}

/// A number, or `-`.
pub fn put_number_or_dash(out: &mut ArrayVec<u8, 2048>, n: Option<u8>)
    requires { array_vec_len out.old + 22 < 2048 }
    ensures text { out.new.items ≡ spaced out.old.items (number_or_dash n ∷ []) }
    ensures len { array_vec_len out.new ≤ array_vec_len out.old + 23 }
{
    match n {
        Some(n) => put_number(out, u64::from(n)),
        None => put(out, b"-"),
    }
}

/// In version 2 the symbol, and else nothing.
#[tactic(auto, using(its_word::proofs::SpacedLaws::spaced_none))]
pub fn put_symbol(out: &mut ArrayVec<u8, 2048>, version: u8, symbol: Option<(Word, u32)>)
    requires { array_vec_len out.old + 36 < 2048 }
    ensures text { out.new.items ≡ spaced out.old.items (symbol_fields version symbol) }
    ensures len { array_vec_len out.new ≤ array_vec_len out.old + 36 }
{
    if version == 2 {
        put_symbol_or_dashes(out, symbol);
    }
}

/// The name of a symbol and how far the PC is past it, or two `-`.
#[tactic(auto, unfolding(its_word::specs::Text::spaced))]
fn put_symbol_or_dashes(out: &mut ArrayVec<u8, 2048>, symbol: Option<(Word, u32)>)
    requires { array_vec_len out.old + 36 < 2048 }
    ensures text { out.new.items ≡ spaced out.old.items (symbol_or_dashes symbol) }
    ensures len { array_vec_len out.new ≤ array_vec_len out.old + 36 }
{
    match symbol {
        Some((name, past)) => {
            put_word(out, name);
            put_number(out, u64::from(past));
        }
        None => {
            put(out, b"-");
            put(out, b"-");
        }
    }
}

/// Words of 12 digits, at most eight.
#[tactic(auto, using(its_word::proofs::SpacedLaws::spaced_none, its_word::proofs::SpacedLaws::spaced_more))]
pub fn put_words(out: &mut ArrayVec<u8, 2048>, words: &[Word])
    requires few { length words.now ≤ 8 }
    requires room { array_vec_len out.old + 104 < 2048 }
    ensures text { out.new.items ≡ spaced out.old.items (map octal12_of words.now) }
    ensures len { array_vec_len out.new ≤ array_vec_len out.old + 104 }
{
    for w in words {
        put_word(out, *w);
    }
}

/// Bytes as numbers, at most 64.
#[tactic(auto, using(its_word::proofs::SpacedLaws::spaced_none, its_word::proofs::SpacedLaws::spaced_more))]
pub fn put_bytes(out: &mut ArrayVec<u8, 2048>, bytes: &[u8])
    requires few { length bytes.now ≤ 64 }
    requires room { array_vec_len out.old + 1472 < 2048 }
    ensures text { out.new.items ≡ spaced out.old.items (map digits_of bytes.now) }
    ensures len { array_vec_len out.new ≤ array_vec_len out.old + 1472 }
{
    for b in bytes {
        put_number(out, u64::from(*b));
    }
}

/// A run of `n` of one letter, in at most `3 * n` bytes.
#[tactic(auto, using(its_word::proofs::DigitLaws::few_for_count, crate::proofs::PutLaws::digits_text, crate::proofs::PutLaws::run_text), unfolding(its_word::specs::Text::spaced))]
fn put_run(out: &mut ArrayVec<u8, 2048>, n: u32, letter: u8)
    requires some { 1 ≤ n }
    requires room { array_vec_len out.old + 3 * n < 2048 }
    ensures text { out.new.items ≡ spaced out.old.items (run_of n letter ∷ []) }
    ensures len { array_vec_len out.new ≤ array_vec_len out.old + 3 * n }
{
    out.push(b' ');
    put_digits(out, u64::from(n));
    out.push(letter);
}

/// The runs of equal letters of at most 512 ticks. Adjacent runs with the same letter are one.
#[tactic(auto, using(crate::proofs::PutLaws::runs_none, crate::proofs::PutLaws::runs_length))]
pub fn put_runs(out: &mut ArrayVec<u8, 2048>, runs: &[Run])
    requires few { length (paces_in runs.now) ≤ 512 }
    requires room { array_vec_len out.old + 1536 < 2048 }
    ensures text { out.new.items ≡ spaced out.old.items (runs_of (paces_in runs.now)) }
    ensures len { array_vec_len out.new ≤ array_vec_len out.old + 1536 }
{
    let [first, rest @ ..] = runs else { return };
    let mut count = 1 + first.more;
    let mut last = letter(first.pace);
    for run in rest {
        let next = letter(run.pace);
        if next == last {
            count += 1 + run.more;
        } else {
            put_run(out, count, last);
            count = 1 + run.more;
            last = next;
        }
    }
    put_run(out, count, last);
}
