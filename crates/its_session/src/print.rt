//! Writing the line of an event.
ghost use Rattle.std.specs.Prelude.{◌≡◌, ◌<◌, ◌≤◌, ◌^◌, [], ◌∷◌, ◌++◌, length, map, codes};
ghost use Rattle.arrayvec.specs.ArrayVec.{array_vec_len};
ghost use Rattle.its_word.specs.Text.{digits_of, octal6_of, octal12_of, spaced};
ghost use Rattle.its_records.specs.declared.session.Place.{Place};
ghost use Rattle.its_session.specs.Fits.{EventFits, place_of};
ghost use Rattle.its_session.specs.Grammar.{line_event};
ghost use Rattle.its_session.specs.Writing.{AreWords, HasWords, console_text, name_of, text_of_event};

use super::put::{
    put_address, put_bytes, put_console, put_long, put_name, put_number, put_word, put_words,
};
use super::state_print::write_state_line;
use arrayvec::ArrayVec;
use its_records::Event;
use its_word::{ConsoleNumber, Slot, Word, octal6};

/// Writes the line of an event of version 2, without LF: addresses with six digits, machine words
/// with twelve. `read_line` reads it in version 2 as that event at the event's place, and `Nothing`
/// at any place. The event's numbers and names are in the ranges of its line.
#[tactic(auto, using(crate::proofs::RoundTrip::reads_back, crate::proofs::RoundTrip::reads_anywhere))]
pub fn print_event(e: &Event, out: &mut ArrayVec<u8, 256>)
    requires empty { out.old.items ≡ [] }
    requires fits { EventFits 2 e.now }
    ensures text { out.new.items ≡ text_of_event e.now }
    ensures read { line_event (place_of e.now) 2 out.new.items ≡ Ok e.now }
    ensures anywhere { e.now ≡ Event.Nothing → (place : Place) → line_event place 2 out.new.items ≡ Ok e.now }
{
    write(e, out);
}

fn write(e: &Event, out: &mut ArrayVec<u8, 256>)
    requires empty { out.old.items ≡ [] }
    requires fits { EventFits 2 e.now }
    ensures text { out.new.items ≡ text_of_event e.now }
    ensures words { HasWords e.now }
{
    match e {
        Event::Nothing => {}
        Event::Version { v } => number(out, b"VERSION", u64::from(*v)),
        Event::Load { u, j, console } => load(out, *u, *j, *console),
        Event::Words { a, words } => words_from(out, *a, words.as_slice()),
        Event::ReadOnly { page } => number(out, b"RO", u64::from(*page)),
        Event::Symbol { name, a } => symbol(out, *name, *a),
        Event::Go { a } => go(out, *a),
        Event::File { d, x, y } => names(out, b"FILE", *d, *x, *y),
        Event::Append { words } => append(out, words.as_slice()),
        Event::EndFile => first(out, b"EOF"),
        Event::Tick { s, n } => two_numbers(out, b"TICK", u64::from(s.number()), u64::from(*n)),
        Event::Run { n, q } => two_numbers(out, b"RUN", u64::from(*n), u64::from(*q)),
        Event::TypeIn { c, bytes } => type_in(out, *c, bytes.as_slice()),
        Event::Drain { c, n } => two_numbers(out, b"DRAIN", u64::from(c.number()), u64::from(*n)),
        Event::Clock { n } => number(out, b"CLOCK", *n),
        Event::Int { s, v, w } => interrupt(out, *s, *v, *w),
        Event::Exam { s, a, n } => span(out, b"EXAM", *s, *a, *n),
        Event::List { s, a, n } => span(out, b"LIST", *s, *a, *n),
        Event::State { s } => number(out, b"STATE", u64::from(s.number())),
        Event::Deposit { s, a, w } => deposit(out, *s, *a, *w),
        Event::Stop { s } => number(out, b"STOP", u64::from(s.number())),
        Event::Cont { s } => number(out, b"CONT", u64::from(s.number())),
        Event::Peek { s } => number(out, b"PEEK", u64::from(s.number())),
        Event::Dir { d } => name(out, b"DIR", *d),
        Event::Show { d, x, y } => names(out, b"SHOW", *d, *x, *y),
        Event::Restore { line } => write_state_line(line, out),
        Event::End => first(out, b"END"),
    }
}

/// A first word.
pub fn first(out: &mut ArrayVec<u8, 256>, word: &[u8])
    requires empty { out.old.items ≡ [] }
    requires short { length word.now ≤ 16 }
    ensures text { out.new.items ≡ word.now }
    ensures len { array_vec_len out.new ≤ 16 }
{
    let _fits = out.try_extend_from_slice(word);
}

/// A first word and a number.
pub fn number(out: &mut ArrayVec<u8, 256>, word: &[u8], n: u64)
    requires empty { out.old.items ≡ [] }
    requires short { length word.now ≤ 16 }
    ensures { out.new.items ≡ spaced word.now (digits_of n ∷ []) }
{
    first(out, word);
    put_long(out, n);
}

/// A first word and two numbers.
#[tactic(auto, unfolding(its_word::specs::Text::spaced))]
pub fn two_numbers(out: &mut ArrayVec<u8, 256>, word: &[u8], m: u64, n: u64)
    requires empty { out.old.items ≡ [] }
    requires short { length word.now ≤ 16 }
    requires first_number { m < 2 ^ 36 }
    requires second_number { n < 2 ^ 36 }
    ensures { out.new.items ≡ spaced word.now (digits_of m ∷ digits_of n ∷ []) }
{
    first(out, word);
    put_number(out, m);
    put_number(out, n);
}

/// `GO a`
fn go(out: &mut ArrayVec<u8, 256>, a: u32)
    requires { out.old.items ≡ [] }
    ensures { out.new.items ≡ spaced (codes "GO") (octal6_of a ∷ []) }
{
    first(out, b"GO");
    put_address(out, a);
}

/// `INT s v w`
#[tactic(auto, unfolding(its_word::specs::Text::spaced))]
fn interrupt(out: &mut ArrayVec<u8, 256>, s: Slot, v: Word, w: Word)
    requires { out.old.items ≡ [] }
    ensures text { out.new.items ≡ spaced (codes "INT") (digits_of s ∷ octal12_of v ∷ octal12_of w ∷ []) }
    ensures words { (v < 2 ^ 36) × (w < 2 ^ 36) }
{
    first(out, b"INT");
    put_number(out, u64::from(s.number()));
    put_word(out, v);
    put_word(out, w);
}

/// A first word, a slot, an address and a count.
#[tactic(auto, unfolding(its_word::specs::Text::spaced))]
fn span(out: &mut ArrayVec<u8, 256>, word: &[u8], s: Slot, a: u32, n: u32)
    requires empty { out.old.items ≡ [] }
    requires short { length word.now ≤ 16 }
    ensures { out.new.items ≡ spaced word.now (digits_of s ∷ octal6_of a ∷ digits_of n ∷ []) }
{
    first(out, word);
    put_number(out, u64::from(s.number()));
    put_address(out, a);
    put_number(out, u64::from(n));
}

/// `DEPOSIT s a w`
#[tactic(auto, unfolding(its_word::specs::Text::spaced))]
fn deposit(out: &mut ArrayVec<u8, 256>, s: Slot, a: u32, w: Word)
    requires { out.old.items ≡ [] }
    ensures text { out.new.items ≡ spaced (codes "DEPOSIT") (digits_of s ∷ octal6_of a ∷ octal12_of w ∷ []) }
    ensures word { w < 2 ^ 36 }
{
    first(out, b"DEPOSIT");
    put_number(out, u64::from(s.number()));
    put_address(out, a);
    put_word(out, w);
}

/// A first word and a name.
fn name(out: &mut ArrayVec<u8, 256>, word: &[u8], d: Word)
    requires empty { out.old.items ≡ [] }
    requires short { length word.now ≤ 16 }
    ensures { out.new.items ≡ spaced word.now (name_of d ∷ []) }
{
    first(out, word);
    put_name(out, d);
}

/// A first word and three names.
#[tactic(auto, unfolding(its_word::specs::Text::spaced))]
fn names(out: &mut ArrayVec<u8, 256>, word: &[u8], d: Word, x: Word, y: Word)
    requires empty { out.old.items ≡ [] }
    requires short { length word.now ≤ 16 }
    ensures { out.new.items ≡ spaced word.now (name_of d ∷ name_of x ∷ name_of y ∷ []) }
{
    first(out, word);
    put_name(out, d);
    put_name(out, x);
    put_name(out, y);
}

/// `LOAD u j c`
#[tactic(auto, unfolding(its_word::specs::Text::spaced))]
fn load(out: &mut ArrayVec<u8, 256>, u: Word, j: Word, console: Option<ConsoleNumber>)
    requires { out.old.items ≡ [] }
    ensures { out.new.items ≡ spaced (codes "LOAD") (name_of u ∷ name_of j ∷ console_text console ∷ []) }
{
    first(out, b"LOAD");
    put_name(out, u);
    put_name(out, j);
    put_console(out, console);
}

/// `SYM name a`
#[tactic(auto, unfolding(its_word::specs::Text::spaced))]
fn symbol(out: &mut ArrayVec<u8, 256>, name: Word, a: u32)
    requires { out.old.items ≡ [] }
    ensures { out.new.items ≡ spaced (codes "SYM") (name_of name ∷ octal6_of a ∷ []) }
{
    first(out, b"SYM");
    put_name(out, name);
    put_address(out, a);
}

/// `a/` and words
pub fn words_from(out: &mut ArrayVec<u8, 256>, a: u32, words: &[Word])
    requires empty { out.old.items ≡ [] }
    requires few { length words.now ≤ 16 }
    ensures text { out.new.items ≡ spaced (octal6_of a ++ codes "/") (map octal12_of words.now) }
    ensures words { AreWords words.now }
{
    first(out, &octal6(a));
    out.push(b'/');
    put_words(out, words);
}

/// `/` and words
pub fn append(out: &mut ArrayVec<u8, 256>, words: &[Word])
    requires empty { out.old.items ≡ [] }
    requires few { length words.now ≤ 16 }
    ensures text { out.new.items ≡ spaced (codes "/") (map octal12_of words.now) }
    ensures words { AreWords words.now }
{
    first(out, b"/");
    put_words(out, words);
}

/// `TYPE c` and bytes
#[tactic(auto, using(its_word::proofs::SpacedLaws::after_field))]
fn type_in(out: &mut ArrayVec<u8, 256>, c: ConsoleNumber, bytes: &[u8])
    requires empty { out.old.items ≡ [] }
    requires few { length bytes.now ≤ 32 }
    ensures { out.new.items ≡ spaced (codes "TYPE") (digits_of c ∷ map digits_of bytes.now) }
{
    first(out, b"TYPE");
    put_number(out, u64::from(c.number()));
    put_bytes(out, bytes);
}
