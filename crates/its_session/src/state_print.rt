//! Writing the line of a line of the state part.
ghost use Rattle.std.specs.Prelude.{◌≡◌, ◌<◌, ◌≤◌, ◌^◌, [], ◌∷◌, length, map};
ghost use Rattle.its_word.specs.Text.{digits_of, spaced};
ghost use Rattle.its_records.specs.declared.state_line.StateLine.TheVariants as states;
ghost use Rattle.its_session.specs.StateWriting.{AreWords, RegistersAreWords, StateHasWords, text_of_state_line};

use super::print::{append, first, number, two_numbers, words_from};
use super::put::{
    put, put_address, put_bytes, put_console, put_flag, put_long, put_number, put_tag, put_word,
    put_words,
};
use arrayvec::ArrayVec;
use its_records::{Registers, StateLine};
use its_word::{ConsoleNumber, Slot, Word};

/// Writes a line of the state part, without LF: addresses with six digits, machine words with
/// twelve, and in the place of a name a word that is none with twelve too. The types of its fields
/// are enough for that; `read_state_line` reads what is written if its numbers are in the ranges of
/// its row.
#[inline(never)]
pub fn write_state_line(line: &StateLine, out: &mut ArrayVec<u8, 256>)
    requires empty { out.old.items ≡ [] }
    ensures text { out.new.items ≡ text_of_state_line line.now }
    ensures words { StateHasWords line.now }
{
    match line {
        StateLine::System { v } => number(out, b"SYSTEM", u64::from(*v)),
        StateLine::Clock { n } => number(out, b"CLOCK", *n),
        StateLine::File { d, x, y } => file(out, *d, *x, *y),
        StateLine::FileWords { words } => append(out, words.as_slice()),
        StateLine::Job { s, u, j, console } => job(out, *s, *u, *j, *console),
        StateLine::CoreWords { a, words } => words_from(out, *a, words.as_slice()),
        StateLine::ReadOnly { page } => number(out, b"RO", u64::from(*page)),
        StateLine::Symbol { name, a } => symbol(out, *name, *a),
        StateLine::Regs { registers } => regs(out, registers),
        StateLine::Alarm { s, period, next } => alarm(out, *s, *period, *next),
        StateLine::Under { s, t } => {
            two_numbers(out, b"UNDER", u64::from(s.number()), u64::from(t.number()));
        }
        StateLine::Tty { s, n, write } => tty(out, *s, *n, *write),
        StateLine::Disk { s, n, d, x, y, at } => disk(out, *s, *n, *d, *x, *y, *at),
        StateLine::Draft { s, n, d, x, y } => draft(out, *s, *n, *d, *x, *y),
        StateLine::Wrote { s, n, words } => wrote(out, *s, *n, words.as_slice()),
        StateLine::Usr { s, n, t, write, at } => usr(out, *s, *n, *t, *write, *at),
        StateLine::Join {
            s,
            n,
            l,
            write,
            x,
            y,
        } => join(out, *s, *n, *l, *write, *x, *y),
        StateLine::Sent { l, words } => sent(out, *l, words.as_slice()),
        StateLine::EndShut { l, write } => end_shut(out, *l, *write),
        StateLine::Input { c, bytes } => bytes_at(out, b"IN", *c, bytes.as_slice()),
        StateLine::Output { c, bytes } => bytes_at(out, b"OUT", *c, bytes.as_slice()),
        StateLine::Hold { c, s } => {
            two_numbers(out, b"HOLD", u64::from(c.number()), u64::from(s.number()));
        }
        StateLine::Turn { s } => number(out, b"TURN", u64::from(s.number())),
        StateLine::Ready => first(out, b"READY"),
    }
}

/// `FILE d x y`
#[tactic(auto, unfolding(its_word::specs::Text::spaced))]
fn file(out: &mut ArrayVec<u8, 256>, d: Word, x: Word, y: Word)
    requires empty { out.old.items ≡ [] }
    ensures text { out.new.items ≡ text_of_state_line (states.File d x y) }
    ensures words { (d < 2 ^ 36) × (x < 2 ^ 36) × (y < 2 ^ 36) }
{
    first(out, b"FILE");
    put_tag(out, d);
    put_tag(out, x);
    put_tag(out, y);
}

/// `JOB s u j c`
#[tactic(auto, unfolding(its_word::specs::Text::spaced))]
fn job(out: &mut ArrayVec<u8, 256>, s: Slot, u: Word, j: Word, console: Option<ConsoleNumber>)
    requires empty { out.old.items ≡ [] }
    ensures text { out.new.items ≡ text_of_state_line (states.Job s u j console) }
    ensures words { (u < 2 ^ 36) × (j < 2 ^ 36) }
{
    first(out, b"JOB");
    put_number(out, u64::from(s.number()));
    put_tag(out, u);
    put_tag(out, j);
    put_console(out, console);
}

/// `SYM name a`
#[tactic(auto, unfolding(its_word::specs::Text::spaced))]
fn symbol(out: &mut ArrayVec<u8, 256>, name: Word, a: u32)
    requires empty { out.old.items ≡ [] }
    ensures text { out.new.items ≡ text_of_state_line (states.Symbol name a) }
    ensures words { name < 2 ^ 36 }
{
    first(out, b"SYM");
    put_tag(out, name);
    put_address(out, a);
}

/// `REGS r pc p1 p2 m1 m2 d1 d2`
#[tactic(auto, unfolding(its_word::specs::Text::spaced))]
fn regs(out: &mut ArrayVec<u8, 256>, r: &Registers)
    requires empty { out.old.items ≡ [] }
    ensures text { out.new.items ≡ text_of_state_line (states.Regs r.now) }
    ensures words { RegistersAreWords r.now }
{
    first(out, b"REGS");
    put(out, if r.run { b"RUN" } else { b"STOP" });
    put_word(out, r.pc);
    put_word(out, r.p1);
    put_word(out, r.p2);
    put_word(out, r.m1);
    put_word(out, r.m2);
    put_word(out, r.d1);
    put_word(out, r.d2);
}

/// `ALARM s period next`
#[tactic(auto, unfolding(its_word::specs::Text::spaced))]
fn alarm(out: &mut ArrayVec<u8, 256>, s: Slot, period: u64, next: u64)
    requires empty { out.old.items ≡ [] }
    ensures text { out.new.items ≡ text_of_state_line (states.Alarm s period next) }
{
    first(out, b"ALARM");
    put_number(out, u64::from(s.number()));
    put_long(out, period);
    put_long(out, next);
}

/// `TTY s n w`
#[tactic(auto, unfolding(its_word::specs::Text::spaced))]
fn tty(out: &mut ArrayVec<u8, 256>, s: Slot, n: u8, write: bool)
    requires empty { out.old.items ≡ [] }
    ensures text { out.new.items ≡ text_of_state_line (states.Tty s n write) }
{
    first(out, b"TTY");
    put_number(out, u64::from(s.number()));
    put_number(out, u64::from(n));
    put_flag(out, write);
}

/// `DSK s n d x y at`
#[tactic(auto, unfolding(its_word::specs::Text::spaced))]
fn disk(out: &mut ArrayVec<u8, 256>, s: Slot, n: u8, d: Word, x: Word, y: Word, at: u32)
    requires empty { out.old.items ≡ [] }
    ensures text { out.new.items ≡ text_of_state_line (states.Disk s n d x y at) }
    ensures words { (d < 2 ^ 36) × (x < 2 ^ 36) × (y < 2 ^ 36) }
{
    first(out, b"DSK");
    put_number(out, u64::from(s.number()));
    put_number(out, u64::from(n));
    put_tag(out, d);
    put_tag(out, x);
    put_tag(out, y);
    put_number(out, u64::from(at));
}

/// `DRAFT s n d x y`
#[tactic(auto, unfolding(its_word::specs::Text::spaced))]
fn draft(out: &mut ArrayVec<u8, 256>, s: Slot, n: u8, d: Word, x: Word, y: Word)
    requires empty { out.old.items ≡ [] }
    ensures text { out.new.items ≡ text_of_state_line (states.Draft s n d x y) }
    ensures words { (d < 2 ^ 36) × (x < 2 ^ 36) × (y < 2 ^ 36) }
{
    first(out, b"DRAFT");
    put_number(out, u64::from(s.number()));
    put_number(out, u64::from(n));
    put_tag(out, d);
    put_tag(out, x);
    put_tag(out, y);
}

/// `WROTE s n` and words
#[tactic(auto, unfolding(its_word::specs::Text::spaced))]
fn wrote(out: &mut ArrayVec<u8, 256>, s: Slot, n: u8, words: &[Word])
    requires empty { out.old.items ≡ [] }
    requires few { length words.now ≤ 16 }
    ensures text { out.new.items ≡ text_of_state_line (states.Wrote s n (record { items = words.now })) }
    ensures words { AreWords words.now }
{
    first(out, b"WROTE");
    put_number(out, u64::from(s.number()));
    put_number(out, u64::from(n));
    put_words(out, words);
}

/// `USR s n t w at`
#[tactic(auto, unfolding(its_word::specs::Text::spaced))]
fn usr(out: &mut ArrayVec<u8, 256>, s: Slot, n: u8, t: Slot, write: bool, at: u32)
    requires empty { out.old.items ≡ [] }
    ensures text { out.new.items ≡ text_of_state_line (states.Usr s n t write at) }
{
    first(out, b"USR");
    put_number(out, u64::from(s.number()));
    put_number(out, u64::from(n));
    put_number(out, u64::from(t.number()));
    put_flag(out, write);
    put_number(out, u64::from(at));
}

/// `LNK s n l w x y`
#[tactic(auto, unfolding(its_word::specs::Text::spaced))]
fn join(out: &mut ArrayVec<u8, 256>, s: Slot, n: u8, l: u8, write: bool, x: Word, y: Word)
    requires empty { out.old.items ≡ [] }
    ensures text { out.new.items ≡ text_of_state_line (states.Join s n l write x y) }
    ensures words { (x < 2 ^ 36) × (y < 2 ^ 36) }
{
    first(out, b"LNK");
    put_number(out, u64::from(s.number()));
    put_number(out, u64::from(n));
    put_number(out, u64::from(l));
    put_flag(out, write);
    put_tag(out, x);
    put_tag(out, y);
}

/// `SENT l` and words
#[tactic(auto, unfolding(its_word::specs::Text::spaced))]
fn sent(out: &mut ArrayVec<u8, 256>, l: u8, words: &[Word])
    requires empty { out.old.items ≡ [] }
    requires few { length words.now ≤ 16 }
    ensures text { out.new.items ≡ text_of_state_line (states.Sent l (record { items = words.now })) }
    ensures words { AreWords words.now }
{
    first(out, b"SENT");
    put_number(out, u64::from(l));
    put_words(out, words);
}

/// `SHUT l w`
#[tactic(auto, unfolding(its_word::specs::Text::spaced))]
fn end_shut(out: &mut ArrayVec<u8, 256>, l: u8, write: bool)
    requires empty { out.old.items ≡ [] }
    ensures text { out.new.items ≡ text_of_state_line (states.EndShut l write) }
{
    first(out, b"SHUT");
    put_number(out, u64::from(l));
    put_flag(out, write);
}

/// `IN c` or `OUT c`, and bytes
#[tactic(auto, using(its_word::proofs::SpacedLaws::after_field))]
fn bytes_at(out: &mut ArrayVec<u8, 256>, word: &[u8], c: ConsoleNumber, bytes: &[u8])
    requires empty { out.old.items ≡ [] }
    requires short { length word.now ≤ 16 }
    requires few { length bytes.now ≤ 32 }
    ensures { out.new.items ≡ spaced word.now (digits_of c ∷ map digits_of bytes.now) }
{
    first(out, word);
    put_number(out, u64::from(c.number()));
    put_bytes(out, bytes);
}
