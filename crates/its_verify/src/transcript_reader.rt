//! The reader of a transcript: its lines, one by one, and whether each is licensed.
ghost use Rattle.std.specs.Prelude.{◌≡◌, ◌<◌, ◌≤◌, ◌∷◌, [], None, Ok, IfOk, length};
ghost use Rattle.its_io.specs.Bytes.{HasCause};
ghost use Rattle.its_print.specs.Printing.{Refused, text_of_line};
ghost use Rattle.its_print.specs.Replies.{FewParts, line_of};
ghost use Rattle.its_reader.specs.Bytes.{Onward};

use super::outcome::Outcome;
use super::peeks::is_peek;
use super::room::Bytes;
use its_io::{Failed, Source};
use its_print::{Reply, print_reply};
use its_reader::{Next, Texts};
use its_records::Reason;

/// The lines of a transcript, how many of them are licensed, and for how many there is room.
#[derive(Drop)]
pub struct TranscriptReader {
    pub texts: Texts,
    pub passed: u32,
    pub room: u32,
}

impl TranscriptReader {
    ghost use Rattle.its_verify.specs.Finds.{ReadsOut};
    ghost use Rattle.its_verify.specs.TranscriptReader.{Beside, Concludes, AtLine, Reads, ReadsOn, PassedIf, Says, Stays, same_as};
    ghost use Rattle.its_verify.specs.Rulings.{Ruling, at_end, led, peeking, expects};

    /// Reads the next line, if one is wanted. It is not judged yet.
    #[tactic(auto, using(crate::proofs::Groups::read_laws))]
    pub fn read<S: Source>(&mut self, src: &mut S) -> Result<Option<Outcome>, Failed>
        requires at_line { AtLine self.old (S.left src.old) }
        requires onward { Onward self.old.texts.ended (S.readable src.old) }
        ensures reads { ReadsOn result self.old self.new (S.left src.old) (S.left src.new) }
        ensures beside { Beside self.old self.new }
        ensures onward { result ≡ Ok None → Onward self.new.texts.ended (S.readable src.new) }
        ensures cause { HasCause (S.faults src.old) (S.faults src.new) result }
    {
        match self.texts.next(src)? {
            Next::Line => Ok(None),
            Next::Long => Ok(Some(Outcome::No(self.passed + 1))),
            Next::End => Ok(Some(Outcome::No(self.passed + 1))),
            Next::Beyond => Ok(Some(Outcome::TooLong)),
        }
    }

    /// Passes the line that was read, if it is licensed; else it is the first that is not.
    pub fn pass_if(&mut self, licensed: bool) -> Option<Outcome>
        requires few { self.old.passed < self.old.room }
        ensures { PassedIf result licensed self.old self.new }
    {
        if licensed {
            self.passed += 1;
            None
        } else {
            Some(Outcome::No(self.passed + 1))
        }
    }

    /// This line is next.
    pub fn expect<S: Source>(
        &mut self,
        src: &mut S,
        reply: &Reply,
        line: &mut Bytes,
    ) -> Result<Option<Outcome>, Failed>
        requires few { FewParts reply.now }
        requires at_line { AtLine self.old (S.left src.old) }
        requires onward { Onward self.old.texts.ended (S.readable src.old) }
        ensures says { (next : Ruling) → Says result self.old self.new (S.left src.old) (S.left src.new) (led (same_as (text_of_line (line_of reply.now))) (λ t. next)) next }
        ensures stays { Stays result self.new (S.left src.new) }
        ensures onward { result ≡ Ok None → Onward self.new.texts.ended (S.readable src.new) }
        ensures cause { HasCause (S.faults src.old) (S.faults src.new) result }
    {
        line.clear();
        print_reply(reply, line);
        self.expect_text(src, line)
    }

    /// A line with this text is next.
    #[tactic(auto, using(crate::proofs::Groups::expect_text_laws))]
    fn expect_text<S: Source>(
        &mut self,
        src: &mut S,
        line: &[u8],
    ) -> Result<Option<Outcome>, Failed>
        requires short { length line.now ≤ 1543 }
        requires at_line { AtLine self.old (S.left src.old) }
        requires onward { Onward self.old.texts.ended (S.readable src.old) }
        ensures says { (next : Ruling) → Says result self.old self.new (S.left src.old) (S.left src.new) (led (same_as line.now) (λ t. next)) next }
        ensures stays { Stays result self.new (S.left src.new) }
        ensures onward { result ≡ Ok None → Onward self.new.texts.ended (S.readable src.new) }
        ensures cause { HasCause (S.faults src.old) (S.faults src.new) result }
    {
        if let Some(outcome) = self.read(src)? {
            return Ok(Some(outcome));
        }
        let same = self.texts.text.as_slice() == line;
        Ok(self.pass_if(same))
    }

    /// A line of PEEK is next.
    #[tactic(auto, using(crate::proofs::Groups::peek_laws))]
    pub fn peek<S: Source>(&mut self, src: &mut S) -> Result<Option<Outcome>, Failed>
        requires at_line { AtLine self.old (S.left src.old) }
        requires onward { Onward self.old.texts.ended (S.readable src.old) }
        ensures says { (next : Ruling) → Says result self.old self.new (S.left src.old) (S.left src.new) (led peeking (λ t. next)) next }
        ensures stays { Stays result self.new (S.left src.new) }
        ensures onward { result ≡ Ok None → Onward self.new.texts.ended (S.readable src.new) }
        ensures cause { HasCause (S.faults src.old) (S.faults src.new) result }
    {
        if let Some(outcome) = self.read(src)? {
            return Ok(Some(outcome));
        }
        let may_stand = is_peek(&self.texts.text);
        Ok(self.pass_if(may_stand))
    }

    /// No line is next: one byte more is a line too many.
    #[tactic(auto, using(crate::proofs::Groups::finish_laws))]
    pub fn finish<S: Source>(&mut self, src: &mut S) -> Result<Outcome, Failed>
        requires at_line { AtLine self.old (S.left src.old) }
        requires onward { Onward self.old.texts.ended (S.readable src.old) }
        ensures ends { Concludes result self.old (S.left src.old) (S.left src.new) at_end }
        ensures out { IfOk result (λ f. ReadsOut f (S.left src.old) (S.left src.new)) }
        ensures cause { HasCause (S.faults src.old) (S.faults src.new) result }
    {
        self.texts.most = 0;
        match self.texts.next(src)? {
            Next::End => Ok(Outcome::Yes(self.passed)),
            Next::Line => Ok(Outcome::No(self.passed + 1)),
            Next::Long => Ok(Outcome::No(self.passed + 1)),
            Next::Beyond => Ok(Outcome::TooLong),
        }
    }

    /// The `?` line of a line of the session with this number is next, and is the last one.
    #[tactic(auto, using(crate::proofs::TranscriptReaderLaws::refused_fails))]
    pub fn refused<S: Source>(
        &mut self,
        src: &mut S,
        number: u32,
        reason: Reason,
        room: &mut Bytes,
    ) -> Result<Outcome, Failed>
        requires at_line { AtLine self.old (S.left src.old) }
        requires onward { Onward self.old.texts.ended (S.readable src.old) }
        ensures ends { Concludes result self.old (S.left src.old) (S.left src.new) (expects (Refused number reason ∷ []) at_end) }
        ensures out { IfOk result (λ f. ReadsOut f (S.left src.old) (S.left src.new)) }
        ensures cause { HasCause (S.faults src.old) (S.faults src.new) result }
    {
        let line = Reply::Refused { n: number, reason };
        if let Some(outcome) = self.expect(src, &line, room)? {
            return Ok(outcome);
        }
        self.finish(src)
    }
}
