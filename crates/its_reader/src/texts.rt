//! The lines of a source, each with its LF, within a number of bytes that the caller gives.
ghost use Rattle.std.specs.Prelude.{◌≡◌, ◌≤◌, ◌<◌, ◌+◌, [], true, false, Ok, length, IfOk};
ghost use Rattle.its_io.specs.Bytes.{HasCause};
ghost use Rattle.its_session.specs.Events.{most_lines};
ghost use Rattle.its_reader.specs.Bytes.{pending, BufferFits, Onward, TookPlain};
ghost use Rattle.its_reader.specs.Lines.{last_of};
ghost use Rattle.its_reader.specs.TextLines.{before_lf};
ghost use Rattle.its_reader.specs.Texts.{PushedText, ReadsText, ReadyTexts};

use super::buffer::Buffer;
use super::lines::{Next, last};
use arrayvec::ArrayVec;
use its_io::{Failed, Source};
use its_session::MOST_LINES;

/// The lines of a source, each with the LF that ends it.
#[derive(Debug, Drop)]
pub struct Texts {
    /// What was read of the source and is not taken yet.
    pub buffer: Buffer,
    /// The line that was given last; only the last line of the source may have no LF.
    pub text: ArrayVec<u8, 1544>,
    /// Its number, from 1.
    pub number: u32,
    /// The most bytes of a line before its LF, from here on: 1543 at most.
    pub most: usize,
    /// Whether the source has ended.
    pub ended: bool,
}

impl Texts {
    /// The lines of a source of which nothing was read, when each has so many bytes at most before
    /// its LF.
    pub fn new(most: usize) -> Texts
        ensures fits { BufferFits result.buffer }
        ensures pending { pending result.buffer ≡ [] }
        ensures number { result.number ≡ 0 }
        ensures most { result.most ≡ most }
        ensures ended { result.ended ≡ false }
    {
        Texts {
            buffer: Buffer::new(),
            text: ArrayVec::new(),
            number: 0,
            most,
            ended: false,
        }
    }

    /// What comes next: if it is a line, this is `text`, and `number` is its number. It is too long
    /// as soon as one byte too many was read and is no LF.
    #[tactic(auto, using(crate::proofs::TextsLaws::reads_ended, crate::proofs::TextsLaws::reads_from))]
    pub fn next<S: Source>(&mut self, src: &mut S) -> Result<Next, Failed>
        requires ready { ReadyTexts self.old (S.left src.old) }
        requires onward { Onward self.old.ended (S.readable src.old) }
        requires few { self.old.number ≤ most_lines }
        requires most { self.old.most ≤ 1543 }
        ensures reads { ReadsText result self.old self.new (S.left src.old) (S.left src.new) }
        ensures ready { IfOk result (λ _. ReadyTexts self.new (S.left src.new)) }
        ensures onward { IfOk result (λ _. Onward self.new.ended (S.readable src.new)) }
        ensures number { self.new.number ≡ self.old.number + 1 }
        ensures most { self.new.most ≡ self.old.most }
        ensures few { result ≡ Ok Next.Line → self.new.number ≤ most_lines }
        ensures short { result ≡ Ok Next.Line → length (before_lf self.new.text.items) ≤ self.old.most }
        ensures room { result ≡ Ok Next.Line → length self.new.text.items ≤ self.old.most + 1 }
        ensures cause { HasCause (S.faults src.old) (S.faults src.new) result }
    {
        self.text.clear();
        self.number += 1;
        if self.ended {
            return Ok(Next::End);
        }
        self.read_on(src)
    }

    /// Reads up to the end of a line, or of the source.
    #[tactic(auto, using(crate::proofs::Groups::texts_read_on_laws))]
    fn read_on<S: Source>(&mut self, src: &mut S) -> Result<Next, Failed>
        requires fits { BufferFits self.old.buffer }
        requires empty { self.old.text.items ≡ [] }
        requires open { self.old.ended ≡ false }
        requires readable { S.readable src.old ≡ true }
        requires first { self.old.number ≤ most_lines + 1 }
        requires most { self.old.most ≤ 1543 }
        ensures reads { ReadsText result self.old self.new (S.left src.old) (S.left src.new) }
        ensures ready { IfOk result (λ _. ReadyTexts self.new (S.left src.new)) }
        ensures onward { IfOk result (λ _. Onward self.new.ended (S.readable src.new)) }
        ensures number { self.new.number ≡ self.old.number }
        ensures most { self.new.most ≡ self.old.most }
        ensures few { result ≡ Ok Next.Line → self.new.number ≤ most_lines }
        ensures short { result ≡ Ok Next.Line → length (before_lf self.new.text.items) ≤ self.old.most }
        ensures room { result ≡ Ok Next.Line → length self.new.text.items ≤ self.old.most + 1 }
        ensures cause { HasCause (S.faults src.old) (S.faults src.new) result }
    {
        loop {
            self.take_plain();
            match self.buffer.next(src) {
                Err(e) => return Err(e),
                Ok(None) => {
                    self.ended = true;
                    return Ok(last(&self.text));
                }
                Ok(Some(b)) => {
                    if let Some(next) = push(&mut self.text, self.number, self.most, b) {
                        return Ok(next);
                    }
                }
            }
        }
    }

    /// Takes what was read of the line already: up to LF, or as much as it may have. It takes
    /// nothing of a line past the last.
    #[inline]
    #[tactic(auto, using(crate::proofs::BufferLaws::took_no_plain, crate::proofs::BufferLaws::plain_grows))]
    fn take_plain(&mut self)
        requires fits { BufferFits self.old.buffer }
        requires short { length self.old.text.items ≤ self.old.most }
        requires most { self.old.most ≤ 1543 }
        requires begun { 0 < length self.old.text.items → self.old.number ≤ most_lines }
        ensures plain { TookPlain self.old.text.items self.new.text.items self.old.buffer self.new.buffer }
        ensures grows { length self.old.text.items ≤ length self.new.text.items }
        ensures fits { BufferFits self.new.buffer }
        ensures short { length self.new.text.items ≤ self.new.most }
        ensures most { self.new.most ≡ self.old.most }
        ensures begun { 0 < length self.new.text.items → self.new.number ≤ most_lines }
        ensures number { self.new.number ≡ self.old.number }
        ensures ended { self.new.ended ≡ self.old.ended }
    {
        if self.number <= MOST_LINES {
            self.buffer.take_plain(&mut self.text, self.most);
        }
    }
}

/// Takes a byte of the line with this number; the result if the line is over with it.
fn push(text: &mut ArrayVec<u8, 1544>, number: u32, most: usize, b: u8) -> Option<Next>
    requires short { length text.old.items ≤ most }
    requires most { most ≤ 1543 }
    ensures pushed { PushedText result number most text.old.items b text.new.items }
{
    if number > MOST_LINES {
        return Some(Next::Beyond);
    }
    if b == b'\n' {
        text.push(b);
        return Some(Next::Line);
    }
    if text.len() == most {
        return Some(Next::Long);
    }
    text.push(b);
    None
}
