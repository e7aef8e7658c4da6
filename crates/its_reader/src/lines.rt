//! The lines of a source, each within the bytes that a session line may have.
ghost use Rattle.std.specs.Prelude.{◌≡◌, ◌≢◌, ◌≤◌, ◌<◌, ◌+◌, [], true, false, Ok, length, IfOk};
ghost use Rattle.its_io.specs.Bytes.{HasCause};
ghost use Rattle.its_session.specs.Events.{most_lines};
ghost use Rattle.its_reader.specs.Bytes.{pending, BufferFits, Onward, TookPlain};
ghost use Rattle.its_reader.specs.Lines.{BetweenLines, Reads, Pushed, last_of};

use super::buffer::Buffer;
use arrayvec::ArrayVec;
use its_io::{Failed, Source};
use its_session::MOST_LINES;

/// What comes next of the lines of a source.
#[derive(Clone, Copy, Debug, PartialEq, Eq)]
pub enum Next {
    /// A line.
    Line,
    /// A line of too many bytes, as soon as the first of them that is too many was read.
    Long,
    /// A line past number 1048576 (decimal) begins.
    Beyond,
    /// The end of the source.
    End,
}

/// The lines of a source.
#[derive(Debug, Drop)]
pub struct Lines {
    /// What was read of the source and is not taken yet.
    pub buffer: Buffer,
    /// The line that was given last, without its LF.
    pub line: ArrayVec<u8, 255>,
    /// Its number, from 1.
    pub number: u32,
    /// Whether the source has ended.
    pub ended: bool,
}

impl Lines {
    /// The lines of a source of which nothing was read.
    pub fn new() -> Lines
        ensures number { result.number ≡ 0 }
        ensures fits { BufferFits result.buffer }
        ensures pending { pending result.buffer ≡ [] }
        ensures ended { result.ended ≡ false }
    {
        Lines {
            buffer: Buffer::new(),
            line: ArrayVec::new(),
            number: 0,
            ended: false,
        }
    }

    /// What comes next: if it is a line, this is `line`, and `number` is its number. LF ends a
    /// line, and so does the end of the source, if a line has begun.
    #[tactic(auto, using(crate::proofs::LinesLaws::reads_ended, crate::proofs::LinesLaws::reads_from))]
    pub fn next<S: Source>(&mut self, src: &mut S) -> Result<Next, Failed>
        requires ready { BetweenLines self.old (S.left src.old) }
        requires onward { Onward self.old.ended (S.readable src.old) }
        requires few { self.old.number ≤ most_lines }
        ensures reads { Reads result self.old self.new (S.left src.old) (S.left src.new) }
        ensures ready { IfOk result (λ _. BetweenLines self.new (S.left src.new)) }
        ensures onward { IfOk result (λ _. Onward self.new.ended (S.readable src.new)) }
        ensures number { self.new.number ≡ self.old.number + 1 }
        ensures few { result ≡ Ok Next.Line → self.new.number ≤ most_lines }
        ensures short { length self.new.line.items ≤ 255 }
        ensures cause { HasCause (S.faults src.old) (S.faults src.new) result }
    {
        self.line.clear();
        self.number += 1;
        if self.ended {
            return Ok(Next::End);
        }
        self.read_on(src)
    }

    /// Reads up to the end of a line, or of the source.
    #[tactic(auto, using(crate::proofs::Groups::lines_read_on_laws))]
    fn read_on<S: Source>(&mut self, src: &mut S) -> Result<Next, Failed>
        requires fits { BufferFits self.old.buffer }
        requires empty { self.old.line.items ≡ [] }
        requires open { self.old.ended ≡ false }
        requires readable { S.readable src.old ≡ true }
        requires most { self.old.number ≤ most_lines + 1 }
        ensures reads { Reads result self.old self.new (S.left src.old) (S.left src.new) }
        ensures ready { IfOk result (λ _. BetweenLines self.new (S.left src.new)) }
        ensures onward { IfOk result (λ _. Onward self.new.ended (S.readable src.new)) }
        ensures number { self.new.number ≡ self.old.number }
        ensures few { result ≡ Ok Next.Line → self.new.number ≤ most_lines }
        ensures short { length self.new.line.items ≤ 255 }
        ensures cause { HasCause (S.faults src.old) (S.faults src.new) result }
    {
        loop {
            self.take_plain();
            match self.buffer.next(src) {
                Err(e) => return Err(e),
                Ok(None) => {
                    self.ended = true;
                    return Ok(last(&self.line));
                }
                Ok(Some(b)) => {
                    if let Some(next) = push(&mut self.line, self.number, b) {
                        return Ok(next);
                    }
                }
            }
        }
    }

    /// Takes what was read of the line already: up to LF, or as much as it may have. It takes
    /// nothing of a line past the last.
    #[inline]
    #[tactic(auto, using(crate::proofs::BufferLaws::took_no_plain, crate::proofs::BufferLaws::plain_grows))]
    fn take_plain(&mut self)
        requires fits { BufferFits self.old.buffer }
        requires short { length self.old.line.items ≤ 255 }
        requires begun { 0 < length self.old.line.items → self.old.number ≤ most_lines }
        ensures plain { TookPlain self.old.line.items self.new.line.items self.old.buffer self.new.buffer }
        ensures grows { length self.old.line.items ≤ length self.new.line.items }
        ensures fits { BufferFits self.new.buffer }
        ensures short { length self.new.line.items ≤ 255 }
        ensures begun { 0 < length self.new.line.items → self.new.number ≤ most_lines }
        ensures number { self.new.number ≡ self.old.number }
        ensures ended { self.new.ended ≡ self.old.ended }
    {
        if self.number <= MOST_LINES {
            self.buffer.take_plain(&mut self.line, 255);
        }
    }
}

/// What the end of the source means, if these bytes of a line were read.
pub(super) fn last(line: &[u8]) -> Next
    ensures { result ≡ last_of line.now }
{
    if line.is_empty() {
        Next::End
    } else {
        Next::Line
    }
}

/// Takes a byte of the line with this number; the result if the line is over with it.
fn push(line: &mut ArrayVec<u8, 255>, number: u32, b: u8) -> Option<Next>
    requires short { length line.old.items ≤ 255 }
    ensures pushed { Pushed result number line.old.items b line.new.items }
    ensures short { length line.new.items ≤ 255 }
{
    if number > MOST_LINES {
        return Some(Next::Beyond);
    }
    if b == b'\n' {
        return Some(Next::Line);
    }
    if line.is_full() {
        return Some(Next::Long);
    }
    line.push(b);
    None
}
