//! The rows of the table of the state part: each of these reads the words that follow a first word.
ghost use Rattle.std.specs.Prelude.{◌≡◌, map};
ghost use Rattle.its_session.specs.StateGrammar.{alarm_row, bytes_row, clock_row, core_words_row, disk_row, draft_row, end_shut_row, file_row, file_words_row, hold_row, job_row, join_row, read_only_row, ready_row, regs_row, sent_row, symbol_row, system_row, tty_row, turn_row, under_row, usr_row, wrote_row};
ghost use Rattle.its_session.specs.Reading.{bytes_read};

use super::fields::{
    at_most, below_sixteen, bytes, channel, console, console_or_dash, count, flag, link_end,
    number, numbers, page, period, position, run_or_stop, slot, tag, three_tags, two_numbers,
    two_tags,
};
use arrayvec::ArrayVec;
use its_records::{Bad, Registers, StateLine};
use its_word::ConsoleNumber;

/// `SYSTEM v`
#[tactic(auto, unfolding(crate::specs::StateGrammar::system_row))]
pub fn system(words: &[&[u8]]) -> Result<StateLine, Bad>
    ensures { result ≡ system_row (map (λ w. w.now) words.now) }
{
    let [v] = words else {
        return Err(Bad::Syntax);
    };
    let v = count(2, number(v)?)? as u8;
    Ok(StateLine::System { v })
}

/// `CLOCK n`
#[tactic(auto, unfolding(crate::specs::StateGrammar::clock_row))]
pub fn clock(words: &[&[u8]]) -> Result<StateLine, Bad>
    ensures { result ≡ clock_row (map (λ w. w.now) words.now) }
{
    let [n] = words else {
        return Err(Bad::Syntax);
    };
    let n = number(n)?.value();
    Ok(StateLine::Clock { n })
}

/// `FILE d x y`
#[tactic(auto, using(crate::proofs::RowLaws::three_words), unfolding(crate::specs::StateGrammar::file_row))]
pub fn file(words: &[&[u8]]) -> Result<StateLine, Bad>
    ensures { result ≡ file_row (map (λ w. w.now) words.now) }
{
    let [d, x, y] = words else {
        return Err(Bad::Syntax);
    };
    let (d, x, y) = three_tags(d, x, y)?;
    Ok(StateLine::File { d, x, y })
}

/// `/` and 1 to 16 words
#[tactic(auto, using(crate::proofs::RowLaws::numbers_formed, crate::proofs::RowLaws::numbers_ranged, crate::proofs::RowLaws::numbers_consoles), unfolding(crate::specs::StateGrammar::file_words_row))]
pub fn file_words(words: &[&[u8]]) -> Result<StateLine, Bad>
    ensures { result ≡ file_words_row (map (λ w. w.now) words.now) }
{
    let words = numbers(words)?;
    Ok(StateLine::FileWords { words })
}

/// `JOB s u j c`
#[tactic(auto, using(crate::proofs::RowLaws::four_words), unfolding(crate::specs::StateGrammar::job_row))]
pub fn job(version: u8, words: &[&[u8]]) -> Result<StateLine, Bad>
    ensures { result ≡ job_row version (map (λ w. w.now) words.now) }
{
    let [s, u, j, c] = words else {
        return Err(Bad::Syntax);
    };
    let (u, j) = two_tags(u, j)?;
    let s = number(s)?;
    let console = console_or_dash(c);
    if let Err(Bad::Syntax) = console {
        return Err(Bad::Syntax);
    }
    let s = slot(version, s)?;
    let console = console?;
    Ok(StateLine::Job { s, u, j, console })
}

/// `a/` and 1 to 16 words
#[tactic(auto, using(crate::proofs::Groups::words_laws), unfolding(crate::specs::StateGrammar::core_words_row))]
pub fn core_words(a: &[u8], words: &[&[u8]]) -> Result<StateLine, Bad>
    ensures { result ≡ core_words_row a.now (map (λ w. w.now) words.now) }
{
    let a = number(a)?;
    let values = numbers(words)?;
    let a = at_most(0o1000000 - words.len() as u32, a)?;
    Ok(StateLine::CoreWords { a, words: values })
}

/// `RO p`
#[tactic(auto, unfolding(crate::specs::StateGrammar::read_only_row))]
pub fn read_only(words: &[&[u8]]) -> Result<StateLine, Bad>
    ensures { result ≡ read_only_row (map (λ w. w.now) words.now) }
{
    let [p] = words else {
        return Err(Bad::Syntax);
    };
    let page = page(number(p)?)?;
    Ok(StateLine::ReadOnly { page })
}

/// `SYM name a`
#[tactic(auto, unfolding(crate::specs::StateGrammar::symbol_row))]
pub fn symbol(words: &[&[u8]]) -> Result<StateLine, Bad>
    ensures { result ≡ symbol_row (map (λ w. w.now) words.now) }
{
    let [x, a] = words else {
        return Err(Bad::Syntax);
    };
    let (name, a) = (tag(x)?, number(a)?);
    let a = at_most(0o777777, a)?;
    Ok(StateLine::Symbol { name, a })
}

/// `REGS r pc p1 p2 m1 m2 d1 d2`
#[tactic(auto, using(crate::proofs::RowLaws::eight_words), unfolding(crate::specs::StateGrammar::regs_row))]
pub fn regs(words: &[&[u8]]) -> Result<StateLine, Bad>
    ensures { result ≡ regs_row (map (λ w. w.now) words.now) }
{
    let [r, pc, p1, p2, m1, m2, d1, d2] = words else {
        return Err(Bad::Syntax);
    };
    let run = run_or_stop(r)?;
    let pc = number(pc)?;
    let (p1, p2) = two_numbers(p1, p2)?;
    let (m1, m2) = two_numbers(m1, m2)?;
    let (d1, d2) = two_numbers(d1, d2)?;
    let registers = Registers {
        run,
        pc,
        p1,
        p2,
        m1,
        m2,
        d1,
        d2,
    };
    Ok(StateLine::Regs { registers })
}

/// `ALARM s period next`
#[tactic(auto, using(crate::proofs::RowLaws::three_words), unfolding(crate::specs::StateGrammar::alarm_row))]
pub fn alarm(version: u8, words: &[&[u8]]) -> Result<StateLine, Bad>
    ensures { result ≡ alarm_row version (map (λ w. w.now) words.now) }
{
    let [s, p, n] = words else {
        return Err(Bad::Syntax);
    };
    let s = number(s)?;
    let (p, n) = two_numbers(p, n)?;
    let (s, period, next) = (slot(version, s)?, period(p)?, n.value());
    Ok(StateLine::Alarm { s, period, next })
}

/// `UNDER s t`
#[tactic(auto, unfolding(crate::specs::StateGrammar::under_row))]
pub fn under(version: u8, words: &[&[u8]]) -> Result<StateLine, Bad>
    ensures { result ≡ under_row version (map (λ w. w.now) words.now) }
{
    let [s, t] = words else {
        return Err(Bad::Syntax);
    };
    let (s, t) = (number(s)?, number(t)?);
    let (s, t) = (slot(version, s)?, slot(version, t)?);
    Ok(StateLine::Under { s, t })
}

/// `TTY s n w`
#[tactic(auto, using(crate::proofs::RowLaws::three_words), unfolding(crate::specs::StateGrammar::tty_row))]
pub fn tty(version: u8, words: &[&[u8]]) -> Result<StateLine, Bad>
    ensures { result ≡ tty_row version (map (λ w. w.now) words.now) }
{
    let [s, n, w] = words else {
        return Err(Bad::Syntax);
    };
    let (s, n) = two_numbers(s, n)?;
    let w = number(w)?;
    let (s, n) = channel(version, s, n)?;
    let write = flag(w)?;
    Ok(StateLine::Tty { s, n, write })
}

/// `DSK s n d x y at`
#[tactic(auto, using(crate::proofs::RowLaws::six_words), unfolding(crate::specs::StateGrammar::disk_row))]
pub fn disk(version: u8, words: &[&[u8]]) -> Result<StateLine, Bad>
    ensures { result ≡ disk_row version (map (λ w. w.now) words.now) }
{
    let [s, n, d, x, y, at] = words else {
        return Err(Bad::Syntax);
    };
    let (s, n) = two_numbers(s, n)?;
    let (d, x, y) = three_tags(d, x, y)?;
    let at = number(at)?;
    let (s, n) = channel(version, s, n)?;
    let at = position(at)?;
    Ok(StateLine::Disk { s, n, d, x, y, at })
}

/// `DRAFT s n d x y`
#[tactic(auto, using(crate::proofs::RowLaws::five_words), unfolding(crate::specs::StateGrammar::draft_row))]
pub fn draft(version: u8, words: &[&[u8]]) -> Result<StateLine, Bad>
    ensures { result ≡ draft_row version (map (λ w. w.now) words.now) }
{
    let [s, n, d, x, y] = words else {
        return Err(Bad::Syntax);
    };
    let (s, n) = two_numbers(s, n)?;
    let (d, x, y) = three_tags(d, x, y)?;
    let (s, n) = channel(version, s, n)?;
    Ok(StateLine::Draft { s, n, d, x, y })
}

/// `WROTE s n` and 1 to 16 words
#[tactic(auto, using(crate::proofs::Groups::wrote_laws), unfolding(crate::specs::StateGrammar::wrote_row))]
pub fn wrote(version: u8, words: &[&[u8]]) -> Result<StateLine, Bad>
    ensures { result ≡ wrote_row version (map (λ w. w.now) words.now) }
{
    let [s, n, rest @ ..] = words else {
        return Err(Bad::Syntax);
    };
    let (s, n) = two_numbers(s, n)?;
    let words = numbers(rest)?;
    let (s, n) = channel(version, s, n)?;
    Ok(StateLine::Wrote { s, n, words })
}

/// `USR s n t w at`
#[tactic(auto, using(crate::proofs::RowLaws::five_words), unfolding(crate::specs::StateGrammar::usr_row))]
pub fn usr(version: u8, words: &[&[u8]]) -> Result<StateLine, Bad>
    ensures { result ≡ usr_row version (map (λ w. w.now) words.now) }
{
    let [s, n, t, w, at] = words else {
        return Err(Bad::Syntax);
    };
    let (s, n) = two_numbers(s, n)?;
    let t = number(t)?;
    let (w, at) = two_numbers(w, at)?;
    let (s, n) = channel(version, s, n)?;
    let (t, write, at) = (slot(version, t)?, flag(w)?, position(at)?);
    Ok(StateLine::Usr { s, n, t, write, at })
}

/// `LNK s n l w x y`
#[tactic(auto, using(crate::proofs::RowLaws::six_words), unfolding(crate::specs::StateGrammar::join_row))]
pub fn join(version: u8, words: &[&[u8]]) -> Result<StateLine, Bad>
    ensures { result ≡ join_row version (map (λ w. w.now) words.now) }
{
    let [s, n, l, w, x, y] = words else {
        return Err(Bad::Syntax);
    };
    let (s, n) = two_numbers(s, n)?;
    let (l, w) = two_numbers(l, w)?;
    let (x, y) = two_tags(x, y)?;
    let (s, n) = channel(version, s, n)?;
    let (l, write) = link_end(l, w)?;
    Ok(StateLine::Join {
        s,
        n,
        l,
        write,
        x,
        y,
    })
}

/// `SENT l` and 1 to 16 words
#[tactic(auto, using(crate::proofs::Groups::sent_laws), unfolding(crate::specs::StateGrammar::sent_row))]
pub fn sent(words: &[&[u8]]) -> Result<StateLine, Bad>
    ensures { result ≡ sent_row (map (λ w. w.now) words.now) }
{
    let [l, rest @ ..] = words else {
        return Err(Bad::Syntax);
    };
    let (l, words) = (number(l)?, numbers(rest)?);
    let l = below_sixteen(l)?;
    Ok(StateLine::Sent { l, words })
}

/// `SHUT l w`
#[tactic(auto, unfolding(crate::specs::StateGrammar::end_shut_row))]
pub fn end_shut(words: &[&[u8]]) -> Result<StateLine, Bad>
    ensures { result ≡ end_shut_row (map (λ w. w.now) words.now) }
{
    let [l, w] = words else {
        return Err(Bad::Syntax);
    };
    let (l, w) = two_numbers(l, w)?;
    let (l, write) = link_end(l, w)?;
    Ok(StateLine::EndShut { l, write })
}

/// The console and the bytes of `IN c` and `OUT c`, each with 1 to 32 bytes.
#[tactic(auto, using(crate::proofs::Groups::type_in_laws), unfolding(crate::specs::StateGrammar::bytes_row))]
pub fn console_bytes(words: &[&[u8]]) -> Result<(ConsoleNumber, ArrayVec<u8, 32>), Bad>
    ensures { bytes_read result ≡ bytes_row (map (λ w. w.now) words.now) }
{
    let [c, rest @ ..] = words else {
        return Err(Bad::Syntax);
    };
    let c = number(c)?;
    let bytes = bytes(rest)?;
    let c = console(c)?;
    Ok((c, bytes))
}

/// `HOLD c s`
#[tactic(auto, unfolding(crate::specs::StateGrammar::hold_row))]
pub fn hold(version: u8, words: &[&[u8]]) -> Result<StateLine, Bad>
    ensures { result ≡ hold_row version (map (λ w. w.now) words.now) }
{
    let [c, s] = words else {
        return Err(Bad::Syntax);
    };
    let (c, s) = two_numbers(c, s)?;
    let s = slot(version, s)?;
    let c = console(c)?;
    Ok(StateLine::Hold { c, s })
}

/// `TURN s`
#[tactic(auto, unfolding(crate::specs::StateGrammar::turn_row))]
pub fn turn(version: u8, words: &[&[u8]]) -> Result<StateLine, Bad>
    ensures { result ≡ turn_row version (map (λ w. w.now) words.now) }
{
    let [s] = words else {
        return Err(Bad::Syntax);
    };
    let s = slot(version, number(s)?)?;
    Ok(StateLine::Turn { s })
}

/// `READY`
#[tactic(auto, unfolding(crate::specs::StateGrammar::ready_row))]
pub fn ready(words: &[&[u8]]) -> Result<StateLine, Bad>
    ensures { result ≡ ready_row (map (λ w. w.now) words.now) }
{
    if words.is_empty() {
        Ok(StateLine::Ready)
    } else {
        Err(Bad::Syntax)
    }
}
