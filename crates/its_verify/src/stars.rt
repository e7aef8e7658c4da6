//! The letters `*` of a run: as many as can be are taken at once, and each other one as a step of
//! its own.
ghost use Rattle.std.specs.Prelude.{◌≡◌, ◌≢◌, ◌≤◌, ◌∷◌, ◌+◌, replicate, true, false, not};
ghost use Rattle.its_direct.specs.Plain.{machine_of};
ghost use Rattle.its_verify.specs.JudgeState.{RunLed, Sure};

use super::judge::Judge;
use its_direct::Spot;
use its_print::Run;
use its_records::Pace;
use its_word::Slot;

impl Judge {
    /// Whether the letters of a run of a slot are licensed, each in its turn.
    #[tactic(auto, using(crate::proofs::StarsLaws::of_stars))]
    pub(crate) fn run_led(&mut self, slot: Slot, run: Run) -> bool
        requires going { self.old.ended ≡ false }
        requires outside { self.old.plain.place ≡ Spot.Plain }
        requires sure { Sure self.old }
        ensures led { RunLed result self.old self.new slot (run.pace ∷ replicate run.more run.pace) }
        ensures ended { self.new.ended ≡ not result }
        ensures sure { result ≡ true → Sure self.new }
        ensures place { self.new.plain.place ≡ self.old.plain.place }
    {
        match run.pace {
            Pace::Step => self.stars_licensed(slot, run.more),
            _ => self.run_licensed(slot, run),
        }
    }

    /// Whether so many `*` of a slot are licensed, and one more.
    #[tactic(auto, using(crate::proofs::StarsLaws::stars_start, crate::proofs::StarsLaws::stars_stop, crate::proofs::StarsLaws::stars_all, crate::proofs::StarsLaws::stars_on))]
    fn stars_licensed(&mut self, slot: Slot, more: u32) -> bool
        requires going { self.old.ended ≡ false }
        requires outside { self.old.plain.place ≡ Spot.Plain }
        requires sure { Sure self.old }
        ensures led { RunLed result self.old self.new slot (Pace.Step ∷ replicate more Pace.Step) }
        ensures ended { self.new.ended ≡ not result }
        ensures sure { result ≡ true → Sure self.new }
        ensures place { self.new.plain.place ≡ self.old.plain.place }
    {
        let mut left = more;
        loop {
            let taken = self.some_stars(slot, left);
            if taken == 0 {
                return false;
            }
            if taken > left {
                return true;
            }
            left -= taken;
        }
    }

    /// Takes at least one of so many `*` of a slot and one more, if the first is licensed; how
    /// many. If it is not, none is taken, and nothing more is to be asked.
    #[tactic(auto, using(crate::proofs::StarsLaws::stars_none, crate::proofs::StarsLaws::star_one))]
    fn some_stars(&mut self, slot: Slot, more: u32) -> u32
        requires going { self.old.ended ≡ false }
        requires outside { self.old.plain.place ≡ Spot.Plain }
        requires sure { Sure self.old }
        ensures few { result ≤ more + 1 }
        ensures none { result ≡ 0 → RunLed false self.old self.new slot (Pace.Step ∷ replicate more Pace.Step) }
        ensures some { result ≢ 0 → RunLed true self.old self.new slot (replicate result Pace.Step) }
        ensures going { result ≢ 0 → self.new.ended ≡ false }
        ensures ended { result ≡ 0 → self.new.ended ≡ true }
        ensures sure { result ≢ 0 → Sure self.new }
        ensures place { self.new.plain.place ≡ self.old.plain.place }
    {
        let made = self.steps(slot, more.saturating_add(1));
        if made > 0 {
            return made;
        }
        if self.licensed(slot, Pace::Step) {
            return 1;
        }
        0
    }
}
