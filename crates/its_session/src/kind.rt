//! The kinds of line, and the place in which each may occur.
ghost use Rattle.std.specs.Prelude.{◌≡◌, bytes_eq};
ghost use Rattle.its_session.specs.Grammar.{before_slash, is_at, is_place, kind_of, may_stand, place_of_kind, version_of_kind};

use its_records::Place;
use its_word::read_octal;

/// The kinds of line, by their first word: an address and `/` for `Words`, `/` alone for `Append`,
/// and for the others a name of their own.
#[derive(Clone, Copy, Debug, PartialEq, Eq)]
pub enum Kind {
    Version,
    System,
    Load,
    Words,
    ReadOnly,
    Symbol,
    Go,
    File,
    Append,
    EndFile,
    Tick,
    Run,
    TypeIn,
    Drain,
    Clock,
    Int,
    Exam,
    List,
    State,
    Deposit,
    Stop,
    Cont,
    Peek,
    Dir,
    Show,
    End,
}

/// The kind of line that a first word begins, if any.
#[tactic(auto, unfolding(crate::specs::Grammar::kind_of))]
pub fn kind_of(first: &[u8]) -> Option<Kind>
    ensures { result ≡ kind_of first.now }
{
    if is(first, b"VERSION") {
        Some(Kind::Version)
    } else if is(first, b"SYSTEM") {
        Some(Kind::System)
    } else if is(first, b"LOAD") {
        Some(Kind::Load)
    } else if is(first, b"RO") {
        Some(Kind::ReadOnly)
    } else if is(first, b"SYM") {
        Some(Kind::Symbol)
    } else if is(first, b"GO") {
        Some(Kind::Go)
    } else if is(first, b"FILE") {
        Some(Kind::File)
    } else if is(first, b"/") {
        Some(Kind::Append)
    } else if is(first, b"EOF") {
        Some(Kind::EndFile)
    } else if is(first, b"TICK") {
        Some(Kind::Tick)
    } else if is(first, b"RUN") {
        Some(Kind::Run)
    } else if is(first, b"TYPE") {
        Some(Kind::TypeIn)
    } else if is(first, b"DRAIN") {
        Some(Kind::Drain)
    } else if is(first, b"CLOCK") {
        Some(Kind::Clock)
    } else if is(first, b"INT") {
        Some(Kind::Int)
    } else if is(first, b"EXAM") {
        Some(Kind::Exam)
    } else if is(first, b"LIST") {
        Some(Kind::List)
    } else if is(first, b"STATE") {
        Some(Kind::State)
    } else if is(first, b"DEPOSIT") {
        Some(Kind::Deposit)
    } else if is(first, b"STOP") {
        Some(Kind::Stop)
    } else if is(first, b"CONT") {
        Some(Kind::Cont)
    } else if is(first, b"PEEK") {
        Some(Kind::Peek)
    } else if is(first, b"DIR") {
        Some(Kind::Dir)
    } else if is(first, b"SHOW") {
        Some(Kind::Show)
    } else if is(first, b"END") {
        Some(Kind::End)
    } else if is_place(first) {
        Some(Kind::Words)
    } else {
        None
    }
}

/// Whether a word is this one. Most words have another length, which is seen at once.
#[tactic(auto, using(crate::proofs::KindLaws::other_length))]
#[inline]
pub fn is(word: &[u8], name: &[u8]) -> bool
    ensures { result ≡ bytes_eq word.now name.now }
{
    if word.len() != name.len() {
        return false;
    }
    word == name
}

/// Whether a first word is a number directly followed by `/`.
pub fn is_place(first: &[u8]) -> bool
    ensures { result ≡ is_place first.now }
{
    match first {
        [digits @ .., b'/'] => read_octal(digits).is_ok(),
        _ => false,
    }
}

/// A first word without its last byte, the `/`.
pub fn before_slash(first: &[u8]) -> &[u8]
    ensures { result.now ≡ before_slash first.now }
{
    match first {
        [digits @ .., _] => digits,
        [] => first,
    }
}

/// The place in which a line of this kind occurs.
fn place_of_kind(kind: Kind) -> Place
    ensures { result ≡ place_of_kind kind }
{
    match kind {
        Kind::Version | Kind::System => Place::First,
        Kind::Words | Kind::ReadOnly | Kind::Symbol | Kind::Go => Place::Load,
        Kind::Append | Kind::EndFile => Place::File,
        _ => Place::Plain,
    }
}

/// Whether one place is the other; line 1 is outside any block.
fn is_at(place: Place, at: Place) -> bool
    ensures { result ≡ is_at place at }
{
    match (place, at) {
        (Place::First, Place::First) => true,
        (Place::First, Place::Plain) => true,
        (Place::System, Place::System) => true,
        (Place::Plain, Place::Plain) => true,
        (Place::Load, Place::Load) => true,
        (Place::File, Place::File) => true,
        _ => false,
    }
}

/// The version of the session text from which on there is this kind of line.
fn version_of_kind(kind: Kind) -> u8
    ensures { result ≡ version_of_kind kind }
{
    match kind {
        Kind::ReadOnly | Kind::Symbol | Kind::Run | Kind::List => 2,
        _ => 1,
    }
}

/// Whether a line of this kind may occur at this place of a session of this version.
pub fn may_stand(kind: Kind, place: Place, version: u8) -> bool
    ensures { result ≡ may_stand place version kind }
{
    is_at(place, place_of_kind(kind)) && version_of_kind(kind) <= version
}
