//! A session and its transcript in one input: the session is kept, and then gone along with the
//! lines of its transcript.
ghost use Rattle.std.specs.Prelude.{◌≡◌, ◌≢◌, ◌≤◌, ◌-◌, ℕ, true, false, None, IfOk, Ok, Err};
ghost use Rattle.its_io.specs.Bytes.{HasCause, next_fault};
ghost use Rattle.its_reader.specs.Bytes.{Onward};
ghost use Rattle.its_reader.specs.Items.{found_fits, is_last, place_found};
ghost use Rattle.its_reader.specs.Texts.{ReadyTexts};
ghost use Rattle.its_session.specs.Events.{events_of, most_lines, place_after};
ghost use Rattle.its_session.specs.Fits.{EventFits};
ghost use Rattle.its_plain.specs.Operator.{Block, no_block};
ghost use Rattle.its_plain.specs.Transcript.{Walk};
ghost use Rattle.its_plain.specs.Transcript.Turns.{ticks_asked, turn_kept, turns_asked};
ghost use Rattle.its_direct.specs.Events.{MayStand, spot_place};
ghost use Rattle.its_verify.specs.Finds.{Found as IsFound, Judges, ReadsOut};

use super::judge::Judge;
use super::keeping::{Broken, Part, keep};
use super::outcome::Outcome;
use super::peeks::MOST_BYTES;
use super::room::Room;
use super::transcript_reader::TranscriptReader;
use super::verifier::Verifier;
use its_direct::Spot;
use its_io::{Failed, SafeSource, Source};
use its_reader::{Found, Items, Texts};
use its_records::{Event, StateLine};
use its_session::MOST_LINES;
use its_word::Slot;
use std::alloc::Global;

/// The most bytes of a line of a session before its LF.
const SESSION_BYTES: usize = 255;

/// The slot of the last turn, before the first one of a session.
const HIGHEST: Slot = Slot::LAST;

/// What is said of a session and its transcript, which a source gives one after the other. The
/// session is kept in memory; the transcript is not.
#[tactic(auto, using(crate::proofs::VerifyLaws::finds_session, crate::proofs::VerifyLaws::finds_long, crate::proofs::VerifyLaws::finds_cut, crate::proofs::VerifyLaws::finds_beyond))]
pub fn verify<S: Source>(alloc: Global, src: &mut S) -> Result<Outcome, Broken>
    requires readable { S.readable src.old ≡ true }
    ensures finds { IsFound result (S.left src.old) (S.left src.new) }
    ensures input { IfOk result (λ f. ReadsOut f (S.left src.old) (S.left src.new)) }
    ensures unfailed { result ≢ Err Broken.Source → S.faults src.new ≡ S.faults src.old }
    ensures fault { result ≡ Err Broken.Source → S.faults src.new ≡ next_fault (S.faults src.old) }
{
    let mut texts = Texts::new(SESSION_BYTES);
    let mut session = Vec::new(alloc);
    match keep(&mut texts, src, &mut session)? {
        Part::Session => judge_transcript(alloc, src, texts, session),
        Part::Long(n) => Ok(Outcome::Long(n)),
        Part::Cut(n) => Ok(Outcome::Cut(n)),
        Part::Beyond => Ok(Outcome::TooLong),
    }
}

/// The verdict on the transcript that the source has left, when a session of these bytes was read.
#[tactic(auto, using(crate::proofs::VerifyLaws::judges_so, crate::proofs::VerifyLaws::judges_fail))]
fn judge_transcript<S: Source>(
    alloc: Global,
    src: &mut S,
    mut texts: Texts,
    session: Vec<u8>,
) -> Result<Outcome, Broken>
    requires ready { ReadyTexts texts (S.left src.old) }
    requires onward { Onward texts.ended (S.readable src.old) }
    requires few { texts.number ≤ most_lines }
    ensures judged { Judges result texts session.items (S.left src.old) (S.left src.new) }
    ensures out { IfOk result (λ f. ReadsOut f (S.left src.old) (S.left src.new)) }
    ensures unfailed { result ≢ Err Broken.Source → S.faults src.new ≡ S.faults src.old }
    ensures fault { result ≡ Err Broken.Source → S.faults src.new ≡ next_fault (S.faults src.old) }
{
    let Ok(judge) = Judge::open(alloc) else {
        return Err(Broken::Memory);
    };
    let room = MOST_LINES - texts.number;
    let lines = Room::new();
    texts.most = MOST_BYTES;
    let mut verifier = Verifier {
        judge,
        reader: TranscriptReader {
            texts,
            passed: 0,
            room,
        },
        last: HIGHEST,
        room: lines,
    };
    let mut session = SafeSource::of(session);
    match verifier.go(src, &mut session) {
        Ok(outcome) => Ok(outcome),
        Err(_) => Err(Broken::Source),
    }
}

impl Verifier {
    ghost use Rattle.its_verify.specs.Finds.{ReadsOutIf};
    ghost use Rattle.its_verify.specs.Going.{FoundStands, ItemSays, is_end, judge_from};
    ghost use Rattle.its_verify.specs.TranscriptReader.{Concludes, Says};
    ghost use Rattle.its_verify.specs.Rulings.{Ruling, turned};
    ghost use Rattle.its_verify.specs.JudgeState.{walk_of};
    ghost use Rattle.its_verify.specs.Verifier.{RunsOutside, StaysAtItem, AtItem, TurnsSay};

    /// Takes the items of a session one by one, until all is said.
    #[tactic(auto, using(crate::proofs::GoneLaws::gone_start, crate::proofs::GoneLaws::stands_on, crate::proofs::GoneLaws::fits_on))]
    fn go<S: Source>(&mut self, src: &mut S, session: &mut SafeSource) -> Result<Outcome, Failed>
        requires at_item { AtItem self.old (S.left src.old) }
        requires onward { Onward self.old.reader.texts.ended (S.readable src.old) }
        requires place { self.old.judge.plain.place ≡ Spot.Plain }
        ensures ends { Concludes result self.old.reader (S.left src.old) (S.left src.new) (judge_from self.old no_block 1 (events_of session.old)) }
        ensures out { IfOk result (λ f. ReadsOut f (S.left src.old) (S.left src.new)) }
        ensures cause { HasCause (S.faults src.old) (S.faults src.new) result }
    {
        let mut items = Items::new();
        loop {
            let Ok(found) = items.next(session) else {
                unreachable!()
            };
            if let Some(outcome) = self.take(src, items.lines.number, &found)? {
                return Ok(outcome);
            }
        }
    }

    /// Takes an item of a session, whose line has this number. None if it led on; else the verdict
    /// is known.
    #[tactic(auto, using(crate::proofs::Groups::take_laws))]
    fn take<S: Source>(
        &mut self,
        src: &mut S,
        number: u32,
        found: &Found,
    ) -> Result<Option<Outcome>, Failed>
        requires fits { found_fits 2 found.now }
        requires stands { FoundStands (spot_place self.old.judge.plain.place) found.now }
        requires at_item { AtItem self.old (S.left src.old) }
        requires onward { Onward self.old.reader.texts.ended (S.readable src.old) }
        ensures says { ItemSays result self.old self.new (S.left src.old) (S.left src.new) number found.now }
        ensures out { ReadsOutIf result (S.left src.old) (S.left src.new) }
        ensures stays { StaysAtItem result self.new (S.left src.new) }
        ensures onward { result ≡ Ok None → Onward self.new.reader.texts.ended (S.readable src.new) }
        ensures place { result ≡ Ok None → spot_place self.new.judge.plain.place ≡ place_found (spot_place self.old.judge.plain.place) found.now }
        ensures going { result ≡ Ok None → is_last found.now ≡ false }
        ensures cause { HasCause (S.faults src.old) (S.faults src.new) result }
    {
        match found {
            Found::Line(event) => self.obey(src, number, event),
            Found::Bad(reason) => self.refused(src, number, *reason),
            Found::Beyond => self.finish(src),
            Found::End => self.finish(src),
        }
    }

    /// Takes a line of a session, with the turns that it asks for.
    fn obey<S: Source>(
        &mut self,
        src: &mut S,
        number: u32,
        event: &Event,
    ) -> Result<Option<Outcome>, Failed>
        requires fits { EventFits 2 event.now }
        requires stands { MayStand (spot_place self.old.judge.plain.place) event.now }
        requires at_item { AtItem self.old (S.left src.old) }
        requires onward { Onward self.old.reader.texts.ended (S.readable src.old) }
        ensures says { ItemSays result self.old self.new (S.left src.old) (S.left src.new) number (Found.Line event.now) }
        ensures out { ReadsOutIf result (S.left src.old) (S.left src.new) }
        ensures stays { StaysAtItem result self.new (S.left src.new) }
        ensures onward { result ≡ Ok None → Onward self.new.reader.texts.ended (S.readable src.new) }
        ensures place { result ≡ Ok None → spot_place self.new.judge.plain.place ≡ place_after (spot_place self.old.judge.plain.place) event.now }
        ensures going { result ≡ Ok None → is_end event.now ≡ false }
        ensures cause { HasCause (S.faults src.old) (S.faults src.new) result }
    {
        if let Some(outcome) = self.line(src, number, event)? {
            return Ok(Some(outcome));
        }
        self.last = turn_kept(self.last, event);
        self.turns_of(src, event)
    }

    /// The turns that a line asks for are next: those of RUN.
    #[tactic(auto, using(crate::proofs::VerifierLaws::no_turns))]
    fn turns_of<S: Source>(&mut self, src: &mut S, event: &Event) -> Result<Option<Outcome>, Failed>
        requires fits { EventFits 2 event.now }
        requires outside { RunsOutside event.now self.old.judge.plain.place }
        requires at_item { AtItem self.old (S.left src.old) }
        requires onward { Onward self.old.reader.texts.ended (S.readable src.old) }
        ensures says { TurnsSay result self.old self.new (S.left src.old) (S.left src.new) (turns_asked event.now) (ticks_asked event.now) }
        ensures stays { StaysAtItem result self.new (S.left src.new) }
        ensures onward { result ≡ Ok None → Onward self.new.reader.texts.ended (S.readable src.new) }
        ensures place { self.new.judge.plain.place ≡ self.old.judge.plain.place }
        ensures cause { HasCause (S.faults src.old) (S.faults src.new) result }
    {
        match event {
            Event::Run { n, q } => self.turns(src, *n, *q),
            _ => Ok(None),
        }
    }
}

/// The slot that counts as that of the last turn after a line: TURN names it.
fn turn_kept(last: Slot, event: &Event) -> Slot
    ensures { result ≡ turn_kept last event.now }
{
    match event {
        Event::Restore {
            line: StateLine::Turn { s },
        } => *s,
        _ => last,
    }
}
