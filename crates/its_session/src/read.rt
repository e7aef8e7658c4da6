//! Reading a line.
ghost use Rattle.std.specs.Prelude.{◌≡◌, ◌≤◌, length, map, IfOk};
ghost use Rattle.std.specs.List.{list_all};
ghost use Rattle.its_word.specs.Text.{is_code, words_of};
ghost use Rattle.its_session.specs.Fits.{EventFits, Stands};
ghost use Rattle.its_session.specs.Grammar.{event_of_words, is_comment, kind_of, line_at, line_event, line_of_first, line_of_kind};
ghost use Rattle.its_session.specs.StateGrammar.{restores};

use super::few::few_words;
use super::kind::{Kind, before_slash, kind_of, may_stand};
use super::state_read::read_state_line;
use super::{rows, state_rows};
use arrayvec::ArrayVec;
use its_records::{Bad, Event, Place, StateLine};
use its_word::words;

/// The event of a line (without its LF) at a place of a session of this version, or the first
/// reason why it is none: `Long` for more than 255 bytes, `Syntax` for a line that may not occur
/// there, `Range` for a number outside its range, `NoConsole` for a console above 7. What is read
/// fits the table of lines, and may occur there.
#[tactic(auto, using(crate::proofs::FitsLaws::words_fit, crate::proofs::FitsLaws::words_stand), unfolding(crate::specs::Grammar::line_event))]
pub fn read_line(line: &[u8], place: Place, version: u8) -> Result<Event, Bad>
    ensures event { result ≡ line_event place version line.now }
    ensures fits { IfOk result (EventFits version) }
    ensures stands { IfOk result (Stands place) }
{
    if line.len() > 255 {
        return Err(Bad::Long);
    }
    if !is_printable(line) {
        return Err(Bad::Syntax);
    }
    let mut few = ArrayVec::new();
    if few_words(line, &mut few) {
        event_of_words(place, version, &few)
    } else {
        event_of_many(line, place, version)
    }
}

/// The event of a line of many words. Its array for them is made here alone, since most lines have
/// few.
#[inline(never)]
fn event_of_many(line: &[u8], place: Place, version: u8) -> Result<Event, Bad>
    requires { length line.now ≤ 255 }
    ensures { result ≡ event_of_words place version (words_of line.now) }
{
    event_of_words(place, version, words(line).as_slice())
}

/// Whether all bytes are from 40 to 176.
fn is_printable(line: &[u8]) -> bool
    ensures { result ≡ list_all (is_code 32 126) line.now }
{
    line.iter().all(|b| 0o40 <= *b && *b <= 0o176)
}

/// The event of a line's words.
#[tactic(auto, unfolding(crate::specs::Grammar::event_of_words))]
fn event_of_words(place: Place, version: u8, words: &[&[u8]]) -> Result<Event, Bad>
    ensures { result ≡ event_of_words place version (map (λ w. w.now) words.now) }
{
    let [first, rest @ ..] = words else {
        return Ok(Event::Nothing);
    };
    if is_comment(first) {
        return Ok(Event::Nothing);
    }
    line_at(place, version, first, rest)
}

/// The line of a first word at a place: in the state part it is one of the table of that part.
fn line_at(place: Place, version: u8, first: &[u8], words: &[&[u8]]) -> Result<Event, Bad>
    ensures { result ≡ line_at place version first.now (map (λ w. w.now) words.now) }
{
    match place {
        Place::System => restored(read_state_line(version, first, words)),
        _ => session_line(place, version, first, words),
    }
}

/// The line of a first word outside the state part.
fn session_line(place: Place, version: u8, first: &[u8], words: &[&[u8]]) -> Result<Event, Bad>
    ensures { result ≡ line_of_first place version (kind_of first.now) first.now (map (λ w. w.now) words.now) }
{
    match kind_of(first) {
        Some(kind) if may_stand(kind, place, version) => line_of_kind(version, kind, first, words),
        _ => Err(Bad::Syntax),
    }
}

/// The event of a line of the state part.
fn restored(line: Result<StateLine, Bad>) -> Result<Event, Bad>
    ensures { result ≡ restores line }
{
    match line {
        Ok(line) => Ok(Event::Restore { line }),
        Err(bad) => Err(bad),
    }
}

/// Whether a line's first word makes it a comment.
fn is_comment(first: &[u8]) -> bool
    ensures { result ≡ is_comment first.now }
{
    match first {
        [b';', ..] => true,
        _ => false,
    }
}

/// The line of a kind, with its first word and those that follow.
fn line_of_kind(version: u8, kind: Kind, first: &[u8], words: &[&[u8]]) -> Result<Event, Bad>
    ensures { result ≡ line_of_kind version kind first.now (map (λ w. w.now) words.now) }
{
    match kind {
        Kind::Version => rows::version(words),
        Kind::System => restored(state_rows::system(words)),
        Kind::Load => rows::load(words),
        Kind::Words => rows::words(before_slash(first), words),
        Kind::ReadOnly => rows::read_only(words),
        Kind::Symbol => rows::symbol(words),
        Kind::Go => rows::go(words),
        Kind::File => rows::file(words),
        Kind::Append => rows::append(words),
        Kind::EndFile => rows::bare(Event::EndFile, words),
        Kind::Tick => rows::tick(version, words),
        Kind::Run => rows::run(words),
        Kind::TypeIn => rows::type_in(words),
        Kind::Drain => rows::drain(words),
        Kind::Clock => rows::clock(words),
        Kind::Int => rows::int(version, words),
        Kind::Exam => rows::span(version, words).map(|(s, a, n)| Event::Exam { s, a, n }),
        Kind::List => rows::span(version, words).map(|(s, a, n)| Event::List { s, a, n }),
        Kind::State => rows::only_slot(version, words).map(|s| Event::State { s }),
        Kind::Deposit => rows::deposit(version, words),
        Kind::Stop => rows::only_slot(version, words).map(|s| Event::Stop { s }),
        Kind::Cont => rows::only_slot(version, words).map(|s| Event::Cont { s }),
        Kind::Peek => rows::only_slot(version, words).map(|s| Event::Peek { s }),
        Kind::Dir => rows::dir(words),
        Kind::Show => rows::show(words),
        Kind::End => rows::bare(Event::End, words),
    }
}
