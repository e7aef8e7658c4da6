//! SLEEP, DISMIS, LOGOUT and REALT.
ghost use Rattle.std.specs.Prelude.{◌≡◌, ◌<◌};
ghost use Rattle.its_plain.specs.Call.Basic.{dismiss, logout, realt, sleep};
ghost use Rattle.its_plain.specs.Operator.Clock.{clock_end};
ghost use Rattle.its_decide.specs.Called.{looks};

use super::caller::Caller;
use super::ends::{ends, goes_on, store_at};
use arrayvec::ArrayVec;
use its_frame::{Change, Decision, Wait, error};
use its_ints::{dismiss as dismissed, popped};
use its_plain::{LONGEST_PERIOD, LONGEST_SLEEP};
use its_word::{BIT_0, Fault, WORDS, Word};

impl Caller<'_> {
    /// SLEEP n: for n above 0 its argument becomes minus the time of waking; for n below 0 it waits
    /// for that time. Errors 22 if n is too long, 17 if n is no word of its own, and WRO.
    #[tactic(auto, unfolding(its_plain::specs::Call::Basic::sleep, its_plain::specs::Machine::View::view))]
    pub(crate) fn sleep(&self) -> Decision
        ensures { result ≡ sleep (looks self.now) self.now.ask.now }
    {
        let n = self.input(0).value();
        if n == 0 {
            return self.finishes(ArrayVec::new());
        }
        if n >= BIT_0 && self.seen.clock < WORDS - n {
            return Decision::Waits(Wait::Clock);
        }
        if n >= BIT_0 {
            return self.finishes(ArrayVec::new());
        }
        if n > LONGEST_SLEEP {
            return self.fails(error::OUT_OF_RANGE);
        }
        if self.is_shared(0) {
            return self.fails(error::NO_WORD);
        }
        if self.is_read_only(0) {
            return self.faults(Fault::Wro);
        }
        let left = WORDS.saturating_sub(self.seen.clock).saturating_sub(n);
        goes_on(Word::new(left))
    }

    /// REALT n: the job has an alarm from now on, of period n, whose next time is n thirtieths from
    /// now; with 0 it has none. Error 22 if n is below 0 or longer than 2^34.
    #[tactic(auto, unfolding(its_plain::specs::Call::Basic::realt, its_plain::specs::Machine::View::view))]
    pub(crate) fn realt(&self) -> Decision
        requires clock { self.now.seen.now.clock < clock_end }
        ensures { result ≡ realt (looks self.now) self.now.ask.now }
    {
        let n = self.input(0).value();
        if n >= BIT_0 || n > LONGEST_PERIOD {
            return self.fails(error::OUT_OF_RANGE);
        }
        let alarm = if n == 0 {
            None
        } else {
            Some((n, self.seen.clock + n))
        };
        self.finishes_with(Change::Arm { alarm })
    }

    /// DISMIS p: PC, flags and deferrals come from the words that a delivery pushed, and 5 is taken
    /// from each half of the stack pointer word at p. Error 17 if p is immediate; MPV if one of the
    /// words is absent, else WRO if p is read only.
    #[tactic(auto, using(its_shared::proofs::BareLaws::dismissed_bare), unfolding(its_plain::specs::Call::Basic::dismiss, its_plain::specs::Machine::View::view))]
    pub(crate) fn dismiss(&self) -> Decision
        ensures { result ≡ dismiss (looks self.now) self.now.ask.now }
    {
        match self.place(0) {
            Some(p) => match dismissed(self.seen.core, self.job, self.slot, p) {
                Ok(exit) => ends(None, store_at(Some(p), popped(self.input(0))), exit),
                Err(fault) => self.faults(fault),
            },
            None => self.fails(error::NO_WORD),
        }
    }

    /// LOGOUT: the job and all jobs below it are removed, and INF is set in its superior.
    #[tactic(auto, unfolding(its_plain::specs::Machine::View::view))]
    pub(crate) fn logout(&self) -> Decision
        ensures { result ≡ logout (looks self.now) }
    {
        let mut changes = ArrayVec::new();
        if let Some(superior) = self.seen.jobs.superior(self.slot) {
            let number = superior.number();
            changes.push(Change::Inform { slot: number });
        }
        Decision::Gone { changes }
    }
}
