//! The items of a session: its lines, parsed.
ghost use Rattle.std.specs.Prelude.{◌≡◌, ◌≤◌, ◌+◌, [], false, IfOk};
ghost use Rattle.its_io.specs.Bytes.{HasCause};
ghost use Rattle.its_session.specs.Events.{most_lines, place_after, unread_reason, version_after};
ghost use Rattle.its_reader.specs.Bytes.{pending, BufferFits, Onward};
ghost use Rattle.its_reader.specs.Lines.{BetweenLines};
ghost use Rattle.its_session.specs.Grammar.{line_event};
ghost use Rattle.its_reader.specs.Items.{Finds, end_found, found_fits, found_of, found_stands, is_last, place_found, version_found};

use super::lines::{Lines, Next};
use its_io::{Failed, Source};
use its_records::{Bad, Event, Place, Reason, StateLine};
use its_session::read_line;

/// What is found next in a session.
#[derive(Debug, PartialEq, Eq, Drop)]
pub enum Found {
    /// A line that is read.
    Line(Event),
    /// A line that is not read, or the end of the input inside a block: the session ends with a `?`
    /// line.
    Bad(Reason),
    /// A line past the most that a session may have begins.
    Beyond,
    /// The end of the input.
    End,
}

/// The items of a session.
#[derive(Debug, Drop)]
pub struct Items {
    /// Its lines.
    pub lines: Lines,
    /// The place of the line to come.
    pub place: Place,
    /// The version of the session text: 1, unless line 1 says 2.
    pub version: u8,
}

impl Items {
    /// The items of a session of which nothing was read.
    pub fn new() -> Items
        ensures number { result.lines.number ≡ 0 }
        ensures fits { BufferFits result.lines.buffer }
        ensures empty { pending result.lines.buffer ≡ [] }
        ensures open { result.lines.ended ≡ false }
        ensures first { result.place ≡ Place.First }
        ensures version { result.version ≡ 1 }
    {
        Items {
            lines: Lines::new(),
            place: Place::First,
            version: 1,
        }
    }

    /// What comes next; `lines.number` is then the number of its line. The end of the input inside
    /// a block is refused as CUT. Nothing is to be asked for after END or after what is no line.
    #[tactic(auto, using(crate::proofs::Groups::next_laws))]
    pub fn next<S: Source>(&mut self, src: &mut S) -> Result<Found, Failed>
        requires ready { BetweenLines self.old.lines (S.left src.old) }
        requires onward { Onward self.old.lines.ended (S.readable src.old) }
        requires few { self.old.lines.number ≤ most_lines }
        ensures finds { Finds result self.old self.new (S.left src.old) (S.left src.new) }
        ensures fits { IfOk result (found_fits self.old.version) }
        ensures stands { IfOk result (found_stands self.old.place) }
        ensures place { IfOk result (λ f. self.new.place ≡ place_found self.old.place f) }
        ensures ready { IfOk result (λ _. BetweenLines self.new.lines (S.left src.new)) }
        ensures onward { IfOk result (λ _. Onward self.new.lines.ended (S.readable src.new)) }
        ensures number { self.new.lines.number ≡ self.old.lines.number + 1 }
        ensures few { IfOk result (λ f. is_last f ≡ false → self.new.lines.number ≤ most_lines) }
        ensures cause { HasCause (S.faults src.old) (S.faults src.new) result }
    {
        match self.lines.next(src)? {
            Next::Line => Ok(self.read()),
            Next::Long => Ok(Found::Bad(Reason::Long)),
            Next::Beyond => Ok(Found::Beyond),
            Next::End => Ok(at_end(self.place)),
        }
    }

    /// The item of the line that was given last.
    fn read(&mut self) -> Found
        ensures read { result ≡ found_of (line_event self.old.place self.old.version self.old.lines.line.items) }
        ensures place { self.new.place ≡ place_found self.old.place result }
        ensures version { self.new.version ≡ version_found self.old.version result }
        ensures lines { self.new.lines ≡ self.old.lines }
        ensures fits { found_fits self.old.version result }
        ensures stands { found_stands self.old.place result }
    {
        match read_line(&self.lines.line, self.place, self.version) {
            Ok(event) => {
                self.place = place_after(self.place, &event);
                self.version = version_after(self.version, &event);
                Found::Line(event)
            }
            Err(bad) => Found::Bad(unread_reason(bad)),
        }
    }
}

/// What the end of the input means at a place: in the state part and inside a block it is refused
/// as CUT.
fn at_end(place: Place) -> Found
    ensures { result ≡ end_found place }
{
    match place {
        Place::First => Found::End,
        Place::Plain => Found::End,
        Place::System => Found::Bad(Reason::Cut),
        Place::Load => Found::Bad(Reason::Cut),
        Place::File => Found::Bad(Reason::Cut),
    }
}

/// The place of the line after an event.
fn place_after(place: Place, event: &Event) -> Place
    ensures { result ≡ place_after place event.now }
{
    match event {
        Event::Restore { line } => place_after_state_line(place, line),
        Event::Load { .. } => Place::Load,
        Event::File { .. } => Place::File,
        Event::Go { .. } => Place::Plain,
        Event::EndFile => Place::Plain,
        _ => next_place(place),
    }
}

/// The place of the line after one of the state part: SYSTEM begins it, and READY ends it.
fn place_after_state_line(place: Place, line: &StateLine) -> Place
    ensures { result ≡ place_after place (Event.Restore line.now) }
{
    match line {
        StateLine::System { .. } => Place::System,
        StateLine::Ready => Place::Plain,
        _ => next_place(place),
    }
}

/// The place after a line that begins no block and ends none: line 1 is over.
fn next_place(place: Place) -> Place
    ensures { result ≡ place_after place Event.Nothing }
{
    match place {
        Place::First => Place::Plain,
        _ => place,
    }
}

/// The version of the session text after an event.
fn version_after(version: u8, event: &Event) -> u8
    ensures { result ≡ version_after version event.now }
{
    match event {
        Event::Version { v } => *v,
        Event::Restore {
            line: StateLine::System { v },
        } => *v,
        _ => version,
    }
}

/// The reason of a line that is not read.
fn unread_reason(bad: Bad) -> Reason
    ensures { result ≡ unread_reason bad }
{
    match bad {
        Bad::Long => Reason::Long,
        Bad::Syntax => Reason::Syntax,
        Bad::Range => Reason::Range,
        Bad::NoConsole => Reason::NoCons,
    }
}
