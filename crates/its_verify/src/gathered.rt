//! Letters of a slot that are led together: runs of `*`, without the `.` between them. After a `*`
//! up to 16 `.` are licensed if one more `*` is, and that one sets their count to 0.
ghost use Rattle.std.specs.Prelude.{◌≡◌, ◌≤◌, ◌+◌, length, true, false, not};

use super::judge::{Judge, MOST_DOTS};
use its_direct::Spot;
use its_print::Run;
use its_records::Pace;
use its_word::Slot;

/// Letters that are not led yet: a run, and so many `.` after it.
#[derive(Drop)]
pub(crate) struct Gathered {
    pub run: Run,
    pub dots: u32,
}

impl Gathered {
    ghost use Rattle.its_verify.specs.Gathered.{Begins, dotted, gathered_by, joined, only_run, starred};

    /// The letters of a run and of as many after it as may be led with it, and the runs that are
    /// left.
    #[tactic(auto, using(crate::proofs::GatheredLaws::begins, crate::proofs::GatheredLaws::gathers_more, crate::proofs::GatheredLaws::gathers_stop, crate::proofs::GatheredLaws::gathers_end))]
    pub(crate) fn with_next(first: Run, behind: &[Run]) -> (Gathered, &[Run])
        ensures most { (result.0, result.1.now) ≡ gathered_by (only_run first) behind.now }
        ensures begins { Begins first behind.now result.0 result.1.now }
        ensures fewer { length result.1.now ≤ length behind.now }
    {
        let mut gathered = Gathered {
            run: first,
            dots: 0,
        };
        let mut rest = behind;
        while let Some((run, after)) = rest.split_first() {
            let Some(more) = gathered.with(*run) else {
                return (gathered, rest);
            };
            gathered = more;
            rest = after;
        }
        (gathered, rest)
    }

    /// These letters and a run after them, if that may be led with them: it is of `.` or of `*`,
    /// and these begin with `*`.
    fn with(&self, run: Run) -> Option<Gathered>
        ensures { result ≡ joined self.now run }
    {
        match (self.run.pace, run.pace) {
            (Pace::Step, Pace::Step) => self.with_stars(run),
            (Pace::Step, Pace::Work) => self.with_dots(run),
            _ => None,
        }
    }

    /// These letters and a run of `*` after them, if they may be led together: the `.` before it
    /// are left out.
    #[tactic(auto, using(crate::proofs::GatheredLaws::stars_fit, crate::proofs::GatheredLaws::stars_past))]
    fn with_stars(&self, run: Run) -> Option<Gathered>
        ensures { result ≡ starred (self.now.run.more + run.more + 1) }
    {
        let more = self.run.more.checked_add(run.more)?.checked_add(1)?;
        Some(Gathered {
            run: Run {
                pace: Pace::Step,
                more,
            },
            dots: 0,
        })
    }

    /// These letters and a run of `.` after them, if so many `.` are licensed in a row.
    #[tactic(auto, using(crate::proofs::GatheredLaws::dots_fit, crate::proofs::GatheredLaws::dots_past))]
    fn with_dots(&self, run: Run) -> Option<Gathered>
        ensures { result ≡ dotted self.now.run (self.now.dots + run.more + 1) }
    {
        let dots = self.dots.checked_add(run.more)?.checked_add(1)?;
        if dots > u32::from(MOST_DOTS) {
            return None;
        }
        Some(Gathered {
            run: self.run,
            dots,
        })
    }
}

impl Judge {
    ghost use Rattle.its_verify.specs.Gathered.{letters_of};
    ghost use Rattle.its_verify.specs.JudgeState.{RunLed, Sure};

    /// Whether the letters that were gathered of a slot are licensed, each in its turn.
    #[tactic(auto, using(crate::proofs::GatheredLaws::run_alone, crate::proofs::GatheredLaws::run_unled, crate::proofs::GatheredLaws::dots_then))]
    pub(crate) fn gathered_led(&mut self, slot: Slot, gathered: &Gathered) -> bool
        requires going { self.old.ended ≡ false }
        requires outside { self.old.plain.place ≡ Spot.Plain }
        requires sure { Sure self.old }
        ensures led { RunLed result self.old self.new slot (letters_of gathered.now) }
        ensures ended { self.new.ended ≡ not result }
        ensures sure { result ≡ true → Sure self.new }
        ensures place { self.new.plain.place ≡ self.old.plain.place }
    {
        if !self.run_led(slot, gathered.run) {
            return false;
        }
        if gathered.dots == 0 {
            return true;
        }
        self.run_licensed(
            slot,
            Run {
                pace: Pace::Work,
                more: gathered.dots - 1,
            },
        )
    }
}
