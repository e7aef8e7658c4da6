//! The rows of the table of lines: each of these reads the words that follow a first word.
ghost use Rattle.std.specs.Prelude.{◌≡◌, map};
ghost use Rattle.its_session.specs.Grammar.{append_line, bare_line, clock_line, deposit_line, dir_line, drain_line, file_line, go_line, int_line, load_line, read_only_line, run_line, show_line, slot_line, span_line, symbol_line, tick_line, type_line, version_line, words_line};

use super::fields::{
    at_most, bytes, console, console_or_dash, count, name, number, numbers, page, slot,
};
use its_records::{Bad, Event};
use its_word::Slot;

/// `LOAD u j c`
#[tactic(auto, using(crate::proofs::RowLaws::three_words), unfolding(crate::specs::Grammar::load_line))]
pub fn load(words: &[&[u8]]) -> Result<Event, Bad>
    ensures { result ≡ load_line (map (λ w. w.now) words.now) }
{
    let [u, j, c] = words else {
        return Err(Bad::Syntax);
    };
    let (u, j) = (name(u)?, name(j)?);
    let console = console_or_dash(c)?;
    Ok(Event::Load { u, j, console })
}

/// `VERSION v`
#[tactic(auto, unfolding(crate::specs::Grammar::version_line))]
pub fn version(words: &[&[u8]]) -> Result<Event, Bad>
    ensures { result ≡ version_line (map (λ w. w.now) words.now) }
{
    let [v] = words else {
        return Err(Bad::Syntax);
    };
    let v = count(2, number(v)?)? as u8;
    Ok(Event::Version { v })
}

/// `RO p`
#[tactic(auto, unfolding(crate::specs::Grammar::read_only_line))]
pub fn read_only(words: &[&[u8]]) -> Result<Event, Bad>
    ensures { result ≡ read_only_line (map (λ w. w.now) words.now) }
{
    let [p] = words else {
        return Err(Bad::Syntax);
    };
    let page = page(number(p)?)?;
    Ok(Event::ReadOnly { page })
}

/// `SYM name a`
#[tactic(auto, unfolding(crate::specs::Grammar::symbol_line))]
pub fn symbol(words: &[&[u8]]) -> Result<Event, Bad>
    ensures { result ≡ symbol_line (map (λ w. w.now) words.now) }
{
    let [x, a] = words else {
        return Err(Bad::Syntax);
    };
    let (name, a) = (name(x)?, number(a)?);
    let a = at_most(0o777777, a)?;
    Ok(Event::Symbol { name, a })
}

/// `GO a`
#[tactic(auto, unfolding(crate::specs::Grammar::go_line))]
pub fn go(words: &[&[u8]]) -> Result<Event, Bad>
    ensures { result ≡ go_line (map (λ w. w.now) words.now) }
{
    let [a] = words else {
        return Err(Bad::Syntax);
    };
    let a = at_most(0o777777, number(a)?)?;
    Ok(Event::Go { a })
}

/// `FILE d x y`
#[tactic(auto, unfolding(crate::specs::Grammar::file_line))]
pub fn file(words: &[&[u8]]) -> Result<Event, Bad>
    ensures { result ≡ file_line (map (λ w. w.now) words.now) }
{
    let [d, x, y] = words else {
        return Err(Bad::Syntax);
    };
    let (d, x, y) = (name(d)?, name(x)?, name(y)?);
    Ok(Event::File { d, x, y })
}

/// `TICK s n`
#[tactic(auto, unfolding(crate::specs::Grammar::tick_line))]
pub fn tick(version: u8, words: &[&[u8]]) -> Result<Event, Bad>
    ensures { result ≡ tick_line version (map (λ w. w.now) words.now) }
{
    let [s, n] = words else {
        return Err(Bad::Syntax);
    };
    let (s, n) = (number(s)?, number(n)?);
    let (s, n) = (slot(version, s)?, count(0o1000, n)?);
    Ok(Event::Tick { s, n })
}

/// `RUN n q`
#[tactic(auto, unfolding(crate::specs::Grammar::run_line))]
pub fn run(words: &[&[u8]]) -> Result<Event, Bad>
    ensures { result ≡ run_line (map (λ w. w.now) words.now) }
{
    let [n, q] = words else {
        return Err(Bad::Syntax);
    };
    let (n, q) = (number(n)?, number(q)?);
    let (n, q) = (count(0o1000, n)?, count(0o100, q)?);
    Ok(Event::Run { n, q })
}

/// `DRAIN c n`
#[tactic(auto, unfolding(crate::specs::Grammar::drain_line))]
pub fn drain(words: &[&[u8]]) -> Result<Event, Bad>
    ensures { result ≡ drain_line (map (λ w. w.now) words.now) }
{
    let [c, n] = words else {
        return Err(Bad::Syntax);
    };
    let (c, n) = (number(c)?, number(n)?);
    let n = count(0o100, n)?;
    let c = console(c)?;
    Ok(Event::Drain { c, n })
}

/// `CLOCK n`
#[tactic(auto, unfolding(crate::specs::Grammar::clock_line))]
pub fn clock(words: &[&[u8]]) -> Result<Event, Bad>
    ensures { result ≡ clock_line (map (λ w. w.now) words.now) }
{
    let [n] = words else {
        return Err(Bad::Syntax);
    };
    let n = number(n)?.value();
    Ok(Event::Clock { n })
}

/// `INT s p q`
#[tactic(auto, using(crate::proofs::RowLaws::three_words), unfolding(crate::specs::Grammar::int_line))]
pub fn int(version: u8, words: &[&[u8]]) -> Result<Event, Bad>
    ensures { result ≡ int_line version (map (λ w. w.now) words.now) }
{
    let [s, v, w] = words else {
        return Err(Bad::Syntax);
    };
    let (s, v, w) = (number(s)?, number(v)?, number(w)?);
    let s = slot(version, s)?;
    Ok(Event::Int { s, v, w })
}

/// The slot, the first address and the count of the words of `EXAM s a n` and `LIST s a n`.
#[tactic(auto, using(crate::proofs::RowLaws::three_words), unfolding(crate::specs::Grammar::span_line))]
pub fn span(version: u8, words: &[&[u8]]) -> Result<(Slot, u32, u32), Bad>
    ensures { result ≡ span_line version (map (λ w. w.now) words.now) }
{
    let [s, a, n] = words else {
        return Err(Bad::Syntax);
    };
    let (s, a, n) = (number(s)?, number(a)?, number(n)?);
    let (s, n) = (slot(version, s)?, count(0o10, n)?);
    let a = at_most(0o1000000 - n, a)?;
    Ok((s, a, n))
}

/// `DEPOSIT s a w`
#[tactic(auto, using(crate::proofs::RowLaws::three_words), unfolding(crate::specs::Grammar::deposit_line))]
pub fn deposit(version: u8, words: &[&[u8]]) -> Result<Event, Bad>
    ensures { result ≡ deposit_line version (map (λ w. w.now) words.now) }
{
    let [s, a, w] = words else {
        return Err(Bad::Syntax);
    };
    let (s, a, w) = (number(s)?, number(a)?, number(w)?);
    let (s, a) = (slot(version, s)?, at_most(0o777777, a)?);
    Ok(Event::Deposit { s, a, w })
}

/// The slot of `STATE s`, `STOP s`, `CONT s` and `PEEK s`.
#[tactic(auto, unfolding(crate::specs::Grammar::slot_line))]
pub fn only_slot(version: u8, words: &[&[u8]]) -> Result<Slot, Bad>
    ensures { result ≡ slot_line version (map (λ w. w.now) words.now) }
{
    let [s] = words else {
        return Err(Bad::Syntax);
    };
    slot(version, number(s)?)
}

/// `DIR d`
#[tactic(auto, unfolding(crate::specs::Grammar::dir_line))]
pub fn dir(words: &[&[u8]]) -> Result<Event, Bad>
    ensures { result ≡ dir_line (map (λ w. w.now) words.now) }
{
    let [d] = words else {
        return Err(Bad::Syntax);
    };
    let d = name(d)?;
    Ok(Event::Dir { d })
}

/// `SHOW d x y`
#[tactic(auto, using(crate::proofs::RowLaws::three_words), unfolding(crate::specs::Grammar::show_line))]
pub fn show(words: &[&[u8]]) -> Result<Event, Bad>
    ensures { result ≡ show_line (map (λ w. w.now) words.now) }
{
    let [d, x, y] = words else {
        return Err(Bad::Syntax);
    };
    let (d, x, y) = (name(d)?, name(x)?, name(y)?);
    Ok(Event::Show { d, x, y })
}

/// `EOF` or `END`
#[tactic(auto, unfolding(crate::specs::Grammar::bare_line))]
pub fn bare(event: Event, words: &[&[u8]]) -> Result<Event, Bad>
    ensures { result ≡ bare_line event (map (λ w. w.now) words.now) }
{
    if words.is_empty() {
        Ok(event)
    } else {
        Err(Bad::Syntax)
    }
}

/// `a/` and 1 to 16 words
#[tactic(auto, using(crate::proofs::Groups::words_laws), unfolding(crate::specs::Grammar::words_line))]
pub fn words(a: &[u8], words: &[&[u8]]) -> Result<Event, Bad>
    ensures { result ≡ words_line a.now (map (λ w. w.now) words.now) }
{
    let a = number(a)?;
    let values = numbers(words)?;
    let a = at_most(0o1000000 - words.len() as u32, a)?;
    Ok(Event::Words { a, words: values })
}

/// `/` and 1 to 16 words
#[tactic(auto, using(crate::proofs::RowLaws::numbers_formed, crate::proofs::RowLaws::numbers_ranged, crate::proofs::RowLaws::numbers_consoles), unfolding(crate::specs::Grammar::append_line))]
pub fn append(words: &[&[u8]]) -> Result<Event, Bad>
    ensures { result ≡ append_line (map (λ w. w.now) words.now) }
{
    let words = numbers(words)?;
    Ok(Event::Append { words })
}

/// `TYPE c` and 1 to 32 bytes
#[tactic(auto, using(crate::proofs::Groups::type_in_laws), unfolding(crate::specs::Grammar::type_line))]
pub fn type_in(words: &[&[u8]]) -> Result<Event, Bad>
    ensures { result ≡ type_line (map (λ w. w.now) words.now) }
{
    let [c, rest @ ..] = words else {
        return Err(Bad::Syntax);
    };
    let c = number(c)?;
    let bytes = bytes(rest)?;
    let c = console(c)?;
    Ok(Event::TypeIn { c, bytes })
}
