//! The judge: the plain machine of a session, and how many `.` came for each slot.
ghost use Rattle.std.specs.Prelude.{◌≡◌, ◌<◌, ◌≤◌, ◌∷◌, replicate, true, false, not, Ok, IfOk, OnOk, OnErr};
ghost use Rattle.its_word.specs.Limits.{slots};
ghost use Rattle.its_session.specs.Events.{place_after};
ghost use Rattle.its_session.specs.Fits.{EventFits};
ghost use Rattle.its_plain.specs.Machine.{no_machine};
ghost use Rattle.its_direct.specs.Plain.{machine_of};
ghost use Rattle.its_direct.specs.Series.{unit_due};
ghost use Rattle.its_direct.specs.Events.{IsTold, MayStand, Told, spot_place};
ghost use Rattle.its_print.specs.Runs.{paces_in};
ghost use Rattle.its_plain.specs.Transcript.Turns.{runs};
ghost use Rattle.its_verify.specs.JudgeState.{Again, AllLed, at_once, dots_of, forgotten, Forgets, LedIf, RunLed, RunsLed, Sure};

use super::gathered::Gathered;
use super::room::Room;
use super::ticks::read_ticks;
use its_direct::{Answer, NoMemory, Plain, Spot};
use its_print::Run;
use its_records::{Event, Pace, Refusal};
use its_robin::Circle;
use its_word::{SLOTS, Slot};
use std::alloc::Global;

/// No more `.` than this come in a row.
pub(crate) const MOST_DOTS: u8 = 16;

/// The plain machine as the lines of a session and the letters of a transcript lead it; for each
/// slot how many `.` came since its last `*`, its last disturbance or its making; and whether a
/// letter came that was not licensed.
#[derive(Drop)]
pub struct Judge {
    pub plain: Plain,
    pub dots: [u8; 96],
    pub ended: bool,
}

impl Judge {
    /// The judge at the start of a session. Takes all the memory that it needs.
    #[tactic(auto, using(crate::proofs::JudgeStateLaws::no_dots))]
    pub fn open(alloc: Global) -> Result<Judge, NoMemory>
        ensures machine { IfOk result (λ j. machine_of j.plain ≡ no_machine) }
        ensures dots { IfOk result (λ j. dots_of j.dots ≡ (λ k. 0)) }
        ensures place { IfOk result (λ j. j.plain.place ≡ Spot.Plain) }
        ensures going { IfOk result (λ j. j.ended ≡ false) }
        ensures sure { IfOk result Sure }
    {
        let plain = Plain::open(alloc)?;
        Ok(Judge {
            plain,
            dots: [0; SLOTS],
            ended: false,
        })
    }

    /// The result of a line of a session other than TICK and END: what it shows, or why it is
    /// refused, and then nothing changes.
    #[tactic(auto, using(crate::proofs::JudgeStateLaws::sure_is))]
    pub fn event(&mut self, event: &Event) -> Result<Answer, Refusal>
        requires going { self.old.ended ≡ false }
        requires told { IsTold event.now }
        requires fits { EventFits 2 event.now }
        requires stands { MayStand (spot_place self.old.plain.place) event.now }
        requires sure { Sure self.old }
        ensures told { Told event.now self.old.plain self.new.plain result }
        ensures dots { OnOk result (Forgets self.new.plain self.old.dots self.new.dots) }
        ensures same { OnErr result (self.new ≡ self.old) }
        ensures place { OnOk result (spot_place self.new.plain.place ≡ place_after (spot_place self.old.plain.place) event.now) }
        ensures going { self.new.ended ≡ false }
        ensures sure { Sure self.new }
    {
        let answer = self.plain.event(event)?;
        self.forget_touched();
        Ok(answer)
    }

    /// Whether a letter of a slot is licensed: the machine moves accordingly. If it is not, nothing
    /// more is to be asked.
    pub fn licensed(&mut self, slot: Slot, pace: Pace) -> bool
        requires going { self.old.ended ≡ false }
        requires outside { self.old.plain.place ≡ Spot.Plain }
        requires sure { Sure self.old }
        ensures led { LedIf result self.old self.new slot pace }
        ensures ended { self.new.ended ≡ not result }
        ensures sure { result ≡ true → Sure self.new }
        ensures place { self.new.plain.place ≡ self.old.plain.place }
    {
        let licensed = self.takes(slot, pace);
        self.ended = !licensed;
        licensed
    }

    /// Whether a letter of a slot is licensed, and the machine moves accordingly; `ended` stays.
    fn takes(&mut self, slot: Slot, pace: Pace) -> bool
        requires outside { self.old.plain.place ≡ Spot.Plain }
        requires sure { Sure self.old }
        ensures led { LedIf result self.old self.new slot pace }
        ensures sure { result ≡ true → Sure self.new }
        ensures place { self.new.plain.place ≡ self.old.plain.place }
    {
        match pace {
            Pace::Step => self.takes_step(slot),
            Pace::Work => self.takes_dot(slot),
            Pace::Wait => self.waits(slot),
            Pace::Off => self.is_off(slot),
        }
    }

    /// Whether the letters of some runs of a slot are licensed, each in its turn.
    #[tactic(auto, using(crate::proofs::GatheredLaws::runs_start, crate::proofs::GatheredLaws::runs_on, crate::proofs::GatheredLaws::runs_stop, crate::proofs::GatheredLaws::runs_end))]
    pub fn runs_licensed(&mut self, slot: Slot, runs: &[Run]) -> bool
        requires going { self.old.ended ≡ false }
        requires outside { self.old.plain.place ≡ Spot.Plain }
        requires sure { Sure self.old }
        ensures led { RunsLed result self.old self.new slot (paces_in runs.now) }
        ensures ended { self.new.ended ≡ not result }
        ensures sure { result ≡ true → Sure self.new }
        ensures place { self.new.plain.place ≡ self.old.plain.place }
    {
        let mut rest = runs;
        while let Some((first, behind)) = rest.split_first() {
            let (gathered, left) = Gathered::with_next(*first, behind);
            if !self.gathered_led(slot, &gathered) {
                return false;
            }
            rest = left;
        }
        true
    }

    /// Whether the letters of one run of a slot are licensed. Each letter after the first that is
    /// not taken at once is taken alone.
    #[tactic(auto, using(crate::proofs::Groups::run_licensed_laws))]
    pub(crate) fn run_licensed(&mut self, slot: Slot, run: Run) -> bool
        requires going { self.old.ended ≡ false }
        requires outside { self.old.plain.place ≡ Spot.Plain }
        requires sure { Sure self.old }
        ensures led { RunLed result self.old self.new slot (run.pace ∷ replicate run.more run.pace) }
        ensures ended { self.new.ended ≡ not result }
        ensures sure { result ≡ true → Sure self.new }
        ensures place { self.new.plain.place ≡ self.old.plain.place }
    {
        if !self.licensed(slot, run.pace) {
            return false;
        }
        let taken = self.taken(slot, run);
        for _k in taken..run.more {
            if !self.licensed(slot, run.pace) {
                return false;
            }
        }
        true
    }

    /// Takes at once, of the letters of a run after its first, which is licensed, all that change
    /// nothing; how many.
    #[tactic(auto, using(crate::proofs::LettersLaws::waits_again, crate::proofs::LettersLaws::off_again))]
    fn taken(&mut self, slot: Slot, run: Run) -> u32
        requires going { self.old.ended ≡ false }
        requires again { Again run.pace self.old slot }
        requires outside { self.old.plain.place ≡ Spot.Plain }
        requires sure { Sure self.old }
        ensures all { result ≡ at_once run.pace run.more }
        ensures few { result ≤ run.more }
        ensures led { RunLed true self.old self.new slot (replicate result run.pace) }
        ensures going { self.new.ended ≡ false }
        ensures sure { Sure self.new }
        ensures place { self.new.plain.place ≡ self.old.plain.place }
    {
        match run.pace {
            Pace::Step => 0,
            Pace::Work => 0,
            Pace::Wait => run.more,
            Pace::Off => run.more,
        }
    }

    /// Takes as many `*` as are units of a slot's job in a row, or if there is none some that are
    /// parts of its call, n at most; how many.
    #[tactic(auto, using(crate::proofs::LettersLaws::run_then, crate::proofs::SeriesLaws::units_first))]
    pub(crate) fn steps(&mut self, slot: Slot, n: u32) -> u32
        requires going { self.old.ended ≡ false }
        requires outside { self.old.plain.place ≡ Spot.Plain }
        requires sure { Sure self.old }
        ensures few { result ≤ n }
        ensures units { unit_due (machine_of self.old.plain) slot ≡ true → result < n → unit_due (machine_of self.new.plain) slot ≡ false }
        ensures led { RunLed true self.old self.new slot (replicate result Pace.Step) }
        ensures going { self.new.ended ≡ false }
        ensures sure { Sure self.new }
        ensures place { self.new.plain.place ≡ self.old.plain.place }
    {
        let made = self.units(slot, n);
        if made == 0 {
            return self.parts(slot, n);
        }
        made
    }

    /// Takes some `*` that are parts of the call of a slot's job and disturb nobody, n at most; how
    /// many.
    #[tactic(auto, using(crate::proofs::SeriesLaws::parts_none, crate::proofs::SeriesLaws::parts_some, crate::proofs::JudgeStateLaws::sure_is, crate::proofs::JudgeStateLaws::sure_still))]
    fn parts(&mut self, slot: Slot, n: u32) -> u32
        requires going { self.old.ended ≡ false }
        requires outside { self.old.plain.place ≡ Spot.Plain }
        requires sure { Sure self.old }
        ensures few { result ≤ n }
        ensures led { RunLed true self.old self.new slot (replicate result Pace.Step) }
        ensures going { self.new.ended ≡ false }
        ensures sure { Sure self.new }
        ensures place { self.new.plain.place ≡ self.old.plain.place }
    {
        let made = self.plain.parts(slot, n);
        if made == 0 {
            return 0;
        }
        self.dots[slot.index()] = 0;
        made
    }

    /// Takes as many `*` as are units of a slot's job in a row, n at most; how many.
    #[tactic(auto, using(crate::proofs::SeriesLaws::units_none, crate::proofs::SeriesLaws::units_some, crate::proofs::JudgeStateLaws::sure_is, crate::proofs::JudgeStateLaws::sure_still))]
    fn units(&mut self, slot: Slot, n: u32) -> u32
        requires going { self.old.ended ≡ false }
        requires outside { self.old.plain.place ≡ Spot.Plain }
        requires sure { Sure self.old }
        ensures few { result ≤ n }
        ensures most { result < n → unit_due (machine_of self.new.plain) slot ≡ false }
        ensures none { result ≡ 0 → self.new.plain ≡ self.old.plain }
        ensures led { RunLed true self.old self.new slot (replicate result Pace.Step) }
        ensures going { self.new.ended ≡ false }
        ensures sure { Sure self.new }
        ensures place { self.new.plain.place ≡ self.old.plain.place }
    {
        let made = self.plain.steps(slot, n);
        if made == 0 {
            return 0;
        }
        self.dots[slot.index()] = 0;
        made
    }

    /// Whether a line says so many letters of a slot, and each is licensed in its turn.
    #[tactic(auto, using(crate::proofs::LettersLaws::all_led, crate::proofs::LettersLaws::not_read))]
    pub fn says_ticks(&mut self, line: &[u8], slot: Slot, count: u32, room: &mut Room) -> bool
        requires going { self.old.ended ≡ false }
        requires few { count ≤ 512 }
        requires outside { self.old.plain.place ≡ Spot.Plain }
        requires sure { Sure self.old }
        ensures led { AllLed result self.old self.new line.now slot count }
        ensures place { self.new.plain.place ≡ self.old.plain.place }
    {
        if !read_ticks(line, slot, count, room) {
            return false;
        }
        self.runs_licensed(slot, &room.runs)
    }

    /// `*`: the step of a slot's job, if it has one.
    #[tactic(auto, using(crate::proofs::JudgeStateLaws::step_led, crate::proofs::JudgeStateLaws::step_not_led, crate::proofs::JudgeStateLaws::sure_is, crate::proofs::JudgeStateLaws::makes_place))]
    fn takes_step(&mut self, slot: Slot) -> bool
        requires outside { self.old.plain.place ≡ Spot.Plain }
        requires sure { Sure self.old }
        ensures led { LedIf result self.old self.new slot Pace.Step }
        ensures sure { result ≡ true → Sure self.new }
        ensures place { self.new.plain.place ≡ self.old.plain.place }
    {
        if !self.plain.step(slot) {
            return false;
        }
        self.dots[slot.index()] = 0;
        self.forget_touched();
        true
    }

    /// `.`: one more of a slot whose job runs, if fewer than 16 came.
    #[tactic(auto, using(crate::proofs::JudgeStateLaws::dot_led, crate::proofs::JudgeStateLaws::dot_not_led, crate::proofs::JudgeStateLaws::dot_still, crate::proofs::JudgeStateLaws::sure_still))]
    fn takes_dot(&mut self, slot: Slot) -> bool
        requires sure { Sure self.old }
        ensures led { LedIf result self.old self.new slot Pace.Work }
        ensures sure { result ≡ true → Sure self.new }
        ensures place { self.new.plain.place ≡ self.old.plain.place }
    {
        let dots = self.dots[slot.index()];
        if !self.running(slot) {
            return false;
        }
        if dots >= MOST_DOTS {
            return false;
        }
        self.dots[slot.index()] = dots + 1;
        true
    }

    /// `w`: a slot's job runs, and has no step.
    #[tactic(auto, using(crate::proofs::JudgeStateLaws::wait_led, crate::proofs::JudgeStateLaws::wait_not_led, crate::proofs::JudgeStateLaws::wait_still, crate::proofs::JudgeStateLaws::makes_place))]
    fn waits(&mut self, slot: Slot) -> bool
        requires outside { self.old.plain.place ≡ Spot.Plain }
        requires sure { Sure self.old }
        ensures led { LedIf result self.old self.new slot Pace.Wait }
        ensures sure { result ≡ true → Sure self.new }
        ensures place { self.new.plain.place ≡ self.old.plain.place }
    {
        if !self.running(slot) {
            return false;
        }
        !self.plain.step(slot)
    }

    /// `-`: a slot has no job, or its job is stopped.
    #[tactic(auto, using(crate::proofs::JudgeStateLaws::off_led))]
    fn is_off(&mut self, slot: Slot) -> bool
        requires sure { Sure self.old }
        ensures led { LedIf result self.old self.new slot Pace.Off }
        ensures sure { result ≡ true → Sure self.new }
        ensures place { self.new.plain.place ≡ self.old.plain.place }
    {
        !self.running(slot)
    }

    /// No `.` came since for the slots that were touched.
    #[tactic(auto, using(crate::proofs::JudgeStateLaws::forget_start, crate::proofs::JudgeStateLaws::forget_one, crate::proofs::JudgeStateLaws::forget_end))]
    fn forget_touched(&mut self)
        ensures dots { Forgets self.old.plain self.old.dots self.new.dots }
        ensures plain { self.new.plain ≡ self.old.plain }
        ensures ended { self.new.ended ≡ self.old.ended }
    {
        for slot in 0..SLOTS {
            self.dots[slot] = forgotten(self.plain.touched[slot], self.dots[slot]);
        }
    }
}

/// A count, when its slot is touched or not.
fn forgotten(touched: bool, dots: u8) -> u8
    ensures { result ≡ forgotten touched dots }
{
    if touched { 0 } else { dots }
}

impl Circle for Judge {
    ghost who_runs = { λ j. runs (machine_of j.plain) };

    fn running(&self, slot: Slot) -> bool
        ensures runs { result ≡ runs (machine_of self.now.plain) slot }
    {
        self.plain.runs(slot)
    }
}
