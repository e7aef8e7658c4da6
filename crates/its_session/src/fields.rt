//! The fields of a line: each of these reads one, or gives the reason against it.
ghost use Rattle.std.specs.Prelude.{◌≡◌, ◌≤◌, ◌&&◌, ◌-◌, ◌^◌, if◌then◌else◌, map, nat_le};
ghost use Rattle.its_session.specs.Grammar.{last_slot};
ghost use Rattle.its_session.specs.Reading.{bytes_in, channel_in, console_at, console_in, flag_in, link_end_in, name_in, number_in, numbers_in, period_in, ranged_to, run_in, tag_in, three_tags_in, two_numbers_in, two_tags_in};

use arrayvec::ArrayVec;
use its_records::Bad;
use its_word::{ConsoleNumber, Slot, Word, read_octal, read_sixbit};

/// A number.
pub fn number(word: &[u8]) -> Result<Word, Bad>
    ensures { result ≡ number_in word.now }
{
    read_octal(word).map_err(|_| Bad::Syntax)
}

/// A name.
pub fn name(word: &[u8]) -> Result<Word, Bad>
    ensures { result ≡ name_in word.now }
{
    read_sixbit(word).map_err(|_| Bad::Syntax)
}

/// The last slot of a session of this version: 77 in version 1, 137 in version 2.
#[tactic(auto, unfolding(crate::specs::Grammar::last_slot))]
fn last_slot(version: u8) -> Slot
    ensures { result ≡ last_slot version }
{
    if version == 2 {
        Slot::LAST
    } else {
        Slot::new(0o77)
    }
}

/// A slot of a session of this version.
pub fn slot(version: u8, n: Word) -> Result<Slot, Bad>
    ensures { result ≡ ranged_to (last_slot version) n }
{
    let last = last_slot(version).number();
    if n.value() <= u64::from(last) {
        Ok(Slot::new(n.value() as u8))
    } else {
        Err(Bad::Range)
    }
}

/// A page of a job.
pub fn page(n: Word) -> Result<u8, Bad>
    ensures { result ≡ ranged_to 255 n }
{
    match n.value() {
        n @ ..=0o377 => Ok(n as u8),
        _ => Err(Bad::Range),
    }
}

/// A number of at most this much.
pub fn at_most(most: u32, n: Word) -> Result<u32, Bad>
    ensures { result ≡ ranged_to most n }
{
    if n.value() <= u64::from(most) {
        Ok(n.value() as u32)
    } else {
        Err(Bad::Range)
    }
}

/// A number from 1 to this much.
pub fn count(most: u32, n: Word) -> Result<u32, Bad>
    ensures { result ≡ (if nat_le 1 n && nat_le n most then Ok n else Err Bad.Range) }
{
    if n == Word::ZERO {
        Err(Bad::Range)
    } else {
        at_most(most, n)
    }
}

/// A console.
pub fn console(n: Word) -> Result<ConsoleNumber, Bad>
    ensures { result ≡ console_at n }
{
    match n.value() {
        n @ ..=7 => Ok(ConsoleNumber::new(n as u8)),
        _ => Err(Bad::NoConsole),
    }
}

/// A console, or `-` for none.
pub fn console_or_dash(word: &[u8]) -> Result<Option<ConsoleNumber>, Bad>
    ensures { result ≡ console_in word.now }
{
    match word {
        b"-" => Ok(None),
        _ => Ok(Some(console(number(word)?)?)),
    }
}

/// A tag: a name, or the 12 octal digits of a word.
#[tactic(auto, using(crate::proofs::TagLaws::too_long), unfolding(crate::specs::Fields::is_tag, crate::specs::Fields::word_of_tag))]
pub fn tag(word: &[u8]) -> Result<Word, Bad>
    ensures { result ≡ tag_in word.now }
{
    if word.len() == 12 {
        number(word)
    } else {
        name(word)
    }
}

/// Two numbers.
pub fn two_numbers(a: &[u8], b: &[u8]) -> Result<(Word, Word), Bad>
    ensures { result ≡ two_numbers_in a.now b.now }
{
    let (a, b) = (number(a)?, number(b)?);
    Ok((a, b))
}

/// Two tags.
pub fn two_tags(x: &[u8], y: &[u8]) -> Result<(Word, Word), Bad>
    ensures { result ≡ two_tags_in x.now y.now }
{
    let (x, y) = (tag(x)?, tag(y)?);
    Ok((x, y))
}

/// Three tags.
pub fn three_tags(d: &[u8], x: &[u8], y: &[u8]) -> Result<(Word, Word, Word), Bad>
    ensures { result ≡ three_tags_in d.now x.now y.now }
{
    let (d, x, y) = (tag(d)?, tag(x)?, tag(y)?);
    Ok((d, x, y))
}

/// RUN or STOP.
pub fn run_or_stop(word: &[u8]) -> Result<bool, Bad>
    ensures { result ≡ run_in word.now }
{
    match word {
        b"RUN" => Ok(true),
        b"STOP" => Ok(false),
        _ => Err(Bad::Syntax),
    }
}

/// 0 for no, or 1 for yes.
pub fn flag(n: Word) -> Result<bool, Bad>
    ensures { result ≡ flag_in n }
{
    match n.value() {
        0 => Ok(false),
        1 => Ok(true),
        _ => Err(Bad::Range),
    }
}

/// The number of a channel or of a link.
pub fn below_sixteen(n: Word) -> Result<u8, Bad>
    ensures { result ≡ ranged_to 15 n }
{
    match n.value() {
        n @ ..=0o17 => Ok(n as u8),
        _ => Err(Bad::Range),
    }
}

/// A slot and a channel of its job.
pub fn channel(version: u8, s: Word, n: Word) -> Result<(Slot, u8), Bad>
    ensures { result ≡ channel_in version s n }
{
    let (s, n) = (slot(version, s)?, below_sixteen(n)?);
    Ok((s, n))
}

/// A link, and whether its writing end is meant.
pub fn link_end(l: Word, w: Word) -> Result<(u8, bool), Bad>
    ensures { result ≡ link_end_in l w }
{
    let (l, write) = (below_sixteen(l)?, flag(w)?);
    Ok((l, write))
}

/// The period of an alarm, in thirtieths of a second.
pub fn period(n: Word) -> Result<u64, Bad>
    ensures { result ≡ period_in n }
{
    match n.value() {
        n @ 1..=0o200000000000 => Ok(n),
        _ => Err(Bad::Range),
    }
}

/// A position in words.
pub fn position(n: Word) -> Result<u32, Bad>
    ensures { result ≡ ranged_to (2 ^ 32 - 1) n }
{
    at_most(u32::MAX, n)
}

/// The numbers of 1 to 16 words.
pub fn numbers(words: &[&[u8]]) -> Result<ArrayVec<Word, 16>, Bad>
    ensures { result ≡ numbers_in (map (λ w. w.now) words.now) }
{
    if words.is_empty() || words.len() > 16 {
        return Err(Bad::Syntax);
    }
    let mut numbers = ArrayVec::new();
    for word in words {
        numbers.push(number(word)?);
    }
    Ok(numbers)
}

/// The bytes of 7 bits of 1 to 32 words.
pub fn bytes(words: &[&[u8]]) -> Result<ArrayVec<u8, 32>, Bad>
    ensures { result ≡ bytes_in (map (λ w. w.now) words.now) }
{
    if words.is_empty() || words.len() > 32 {
        return Err(Bad::Syntax);
    }
    let mut bytes = ArrayVec::new();
    let mut all = true;
    for word in words {
        let n = number(word)?.value();
        all = all && n <= 0o177;
        bytes.push((n & 0o177) as u8);
    }
    if all { Ok(bytes) } else { Err(Bad::Range) }
}
