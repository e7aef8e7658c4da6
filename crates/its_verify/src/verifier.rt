//! A verifier: a judge and the lines of a transcript together, along a session.
ghost use Rattle.std.specs.Prelude.{◌≡◌, ◌≤◌, ◌∷◌, [], false, None, Ok};
ghost use Rattle.its_io.specs.Bytes.{HasCause};
ghost use Rattle.its_print.specs.Printing.{Refused};
ghost use Rattle.its_reader.specs.Bytes.{Onward};
ghost use Rattle.its_session.specs.Events.{place_after};
ghost use Rattle.its_session.specs.Fits.{EventFits};
ghost use Rattle.its_direct.specs.Events.{IsTold, MayStand, spot_place};
ghost use Rattle.its_verify.specs.Going.{is_end};

use super::judge::Judge;
use super::outcome::Outcome;
use super::room::Room;
use super::showing::show_answer;
use super::transcript_reader::TranscriptReader;
use its_direct::{Answer, Spot};
use its_io::{Failed, Source};
use its_records::{Event, Reason};
use its_robin::turn_after;
use its_word::Slot;

/// The judge of a session, the lines of its transcript, and the slot of the last turn of a RUN line
/// (before the first one the highest slot); and room for what a line says.
#[derive(Drop)]
pub struct Verifier {
    pub judge: Judge,
    pub reader: TranscriptReader,
    pub last: Slot,
    pub room: Room,
}

impl Verifier {
    ghost use Rattle.its_verify.specs.Finds.{ReadsOutIf};
    ghost use Rattle.its_verify.specs.TranscriptReader.{Says};
    ghost use Rattle.its_verify.specs.Rulings.{Ruling, at_end, expects};
    ghost use Rattle.its_verify.specs.Going.{LineSays, SaysEnd};
    ghost use Rattle.its_direct.specs.Events.{CanShow};
    ghost use Rattle.its_verify.specs.Showing.{shown_ruling};
    ghost use Rattle.its_verify.specs.Verifier.{StaysAtItem, TicksSay, AtItem, TurnsSay};

    /// A `T` line of so many letters of a slot is next, and each is licensed in its turn.
    #[tactic(auto, using(crate::proofs::VerifierLaws::ticks_lack, crate::proofs::VerifierLaws::ticks_fail, crate::proofs::VerifierLaws::ticks_passed, crate::proofs::VerifierLaws::ticks_stay))]
    pub fn ticks<S: Source>(
        &mut self,
        src: &mut S,
        slot: Slot,
        count: u32,
    ) -> Result<Option<Outcome>, Failed>
        requires few { count ≤ 512 }
        requires outside { self.old.judge.plain.place ≡ Spot.Plain }
        requires at_item { AtItem self.old (S.left src.old) }
        requires onward { Onward self.old.reader.texts.ended (S.readable src.old) }
        ensures says { TicksSay result self.old self.new (S.left src.old) (S.left src.new) slot count }
        ensures stays { StaysAtItem result self.new (S.left src.new) }
        ensures onward { result ≡ Ok None → Onward self.new.reader.texts.ended (S.readable src.new) }
        ensures last { self.new.last ≡ self.old.last }
        ensures place { self.new.judge.plain.place ≡ self.old.judge.plain.place }
        ensures cause { HasCause (S.faults src.old) (S.faults src.new) result }
    {
        if let Some(outcome) = self.reader.read(src)? {
            return Ok(Some(outcome));
        }
        let licensed = self
            .judge
            .says_ticks(&self.reader.texts.text, slot, count, &mut self.room);
        Ok(self.reader.pass_if(licensed))
    }

    /// The turns of a RUN line are next: up to n turns, each a `T` line of q letters of the slot
    /// whose turn it is. They end early if no job runs.
    #[tactic(auto, using(crate::proofs::VerifierLaws::turns_start))]
    pub fn turns<S: Source>(
        &mut self,
        src: &mut S,
        n: u32,
        q: u32,
    ) -> Result<Option<Outcome>, Failed>
        requires few { q ≤ 512 }
        requires outside { self.old.judge.plain.place ≡ Spot.Plain }
        requires at_item { AtItem self.old (S.left src.old) }
        requires onward { Onward self.old.reader.texts.ended (S.readable src.old) }
        ensures says { TurnsSay result self.old self.new (S.left src.old) (S.left src.new) n q }
        ensures stays { StaysAtItem result self.new (S.left src.new) }
        ensures onward { result ≡ Ok None → Onward self.new.reader.texts.ended (S.readable src.new) }
        ensures place { self.new.judge.plain.place ≡ self.old.judge.plain.place }
        ensures cause { HasCause (S.faults src.old) (S.faults src.new) result }
    {
        for _k in 0..n {
            let Some(slot) = turn_after(&self.judge, self.last) else {
                return Ok(None);
            };
            if let Some(outcome) = self.ticks(src, slot, q)? {
                return Ok(Some(outcome));
            }
            self.last = slot;
        }
        Ok(None)
    }

    /// A line of the session with this number. None if it led on; else the verdict is known.
    #[tactic(auto, using(crate::proofs::Groups::line_laws))]
    pub fn line<S: Source>(
        &mut self,
        src: &mut S,
        number: u32,
        event: &Event,
    ) -> Result<Option<Outcome>, Failed>
        requires fits { EventFits 2 event.now }
        requires stands { MayStand (spot_place self.old.judge.plain.place) event.now }
        requires at_item { AtItem self.old (S.left src.old) }
        requires onward { Onward self.old.reader.texts.ended (S.readable src.old) }
        ensures says { LineSays result self.old self.new (S.left src.old) (S.left src.new) number event.now }
        ensures out { ReadsOutIf result (S.left src.old) (S.left src.new) }
        ensures stays { StaysAtItem result self.new (S.left src.new) }
        ensures onward { result ≡ Ok None → Onward self.new.reader.texts.ended (S.readable src.new) }
        ensures last { self.new.last ≡ self.old.last }
        ensures place { result ≡ Ok None → spot_place self.new.judge.plain.place ≡ place_after (spot_place self.old.judge.plain.place) event.now }
        ensures going { result ≡ Ok None → is_end event.now ≡ false }
        ensures cause { HasCause (S.faults src.old) (S.faults src.new) result }
    {
        match event {
            Event::Tick { s, n } => self.ticks(src, *s, *n),
            Event::Run { .. } => Ok(None),
            Event::End => self.finish(src),
            _ => self.told(src, number, event),
        }
    }

    /// END: no line is next, and all is said.
    pub(crate) fn finish<S: Source>(&mut self, src: &mut S) -> Result<Option<Outcome>, Failed>
        requires at_item { AtItem self.old (S.left src.old) }
        requires onward { Onward self.old.reader.texts.ended (S.readable src.old) }
        ensures ends { SaysEnd result self.old.reader (S.left src.old) (S.left src.new) at_end }
        ensures out { ReadsOutIf result (S.left src.old) (S.left src.new) }
        ensures last { self.new.last ≡ self.old.last }
        ensures cause { HasCause (S.faults src.old) (S.faults src.new) result }
    {
        Ok(Some(self.reader.finish(src)?))
    }

    /// The `?` line of a line of the session is next, and all is said.
    pub(crate) fn refused<S: Source>(
        &mut self,
        src: &mut S,
        number: u32,
        reason: Reason,
    ) -> Result<Option<Outcome>, Failed>
        requires at_item { AtItem self.old (S.left src.old) }
        requires onward { Onward self.old.reader.texts.ended (S.readable src.old) }
        ensures ends { SaysEnd result self.old.reader (S.left src.old) (S.left src.new) (expects (Refused number reason ∷ []) at_end) }
        ensures out { ReadsOutIf result (S.left src.old) (S.left src.new) }
        ensures last { self.new.last ≡ self.old.last }
        ensures cause { HasCause (S.faults src.old) (S.faults src.new) result }
    {
        Ok(Some(
            self.reader
                .refused(src, number, reason, &mut self.room.line)?,
        ))
    }

    /// A line other than TICK and END.
    #[tactic(auto, using(crate::proofs::Groups::told_laws))]
    fn told<S: Source>(
        &mut self,
        src: &mut S,
        number: u32,
        event: &Event,
    ) -> Result<Option<Outcome>, Failed>
        requires told { IsTold event.now }
        requires fits { EventFits 2 event.now }
        requires stands { MayStand (spot_place self.old.judge.plain.place) event.now }
        requires at_item { AtItem self.old (S.left src.old) }
        requires onward { Onward self.old.reader.texts.ended (S.readable src.old) }
        ensures says { LineSays result self.old self.new (S.left src.old) (S.left src.new) number event.now }
        ensures out { ReadsOutIf result (S.left src.old) (S.left src.new) }
        ensures stays { StaysAtItem result self.new (S.left src.new) }
        ensures onward { result ≡ Ok None → Onward self.new.reader.texts.ended (S.readable src.new) }
        ensures last { self.new.last ≡ self.old.last }
        ensures place { result ≡ Ok None → spot_place self.new.judge.plain.place ≡ place_after (spot_place self.old.judge.plain.place) event.now }
        ensures cause { HasCause (S.faults src.old) (S.faults src.new) result }
    {
        match self.judge.event(event) {
            Ok(answer) => self.shown(src, &answer),
            Err(e) => self.refused(src, number, e.reason()),
        }
    }

    /// What a line shows that was obeyed with this answer is next.
    #[tactic(auto, using(crate::proofs::GoingLaws::at_item_on))]
    fn shown<S: Source>(&mut self, src: &mut S, answer: &Answer) -> Result<Option<Outcome>, Failed>
        requires can { CanShow answer.now self.old.judge.plain }
        requires at_item { AtItem self.old (S.left src.old) }
        requires onward { Onward self.old.reader.texts.ended (S.readable src.old) }
        ensures says { (next : Ruling) → Says result self.old.reader self.new.reader (S.left src.old) (S.left src.new) (shown_ruling answer.now self.old.judge.plain next) next }
        ensures stays { StaysAtItem result self.new (S.left src.new) }
        ensures onward { result ≡ Ok None → Onward self.new.reader.texts.ended (S.readable src.new) }
        ensures judge { self.new.judge ≡ self.old.judge }
        ensures last { self.new.last ≡ self.old.last }
        ensures cause { HasCause (S.faults src.old) (S.faults src.new) result }
    {
        show_answer(
            &mut self.reader,
            src,
            &self.judge.plain,
            answer,
            &mut self.room.line,
        )
    }
}
