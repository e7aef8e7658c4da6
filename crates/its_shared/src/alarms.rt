//! An alarm that goes: its bit in the registers, and its next time.
ghost use Rattle.std.specs.Prelude.{◌≡◌, ◌<◌, ◌≤◌};
ghost use Rattle.its_plain.specs.Machine.Alarm.{time_after};
ghost use Rattle.its_plain.specs.Call.Basic.{longest_period};
ghost use Rattle.its_plain.specs.Machine.Registers.{ALR as ALR_BIT, with_pending};
ghost use Rattle.its_plain.specs.Operator.Clock.{clock_end};

use its_records::Job;
use its_word::{ALR, Word};

/// A job with ALR set.
pub fn with_alr(job: Job) -> Job
    ensures { result ≡ with_pending job ALR_BIT }
{
    Job {
        pend1: job.pend1 | Word::new(ALR),
        ..job
    }
}

/// The next time of an alarm with this period and next time that goes at a clock: it gains the
/// least multiple of the period that brings it above the clock.
#[tactic(auto, using(crate::proofs::TimeLaws::next_time, crate::proofs::TimeLaws::next_fits))]
pub fn time_after(period: u64, next: u64, clock: u64) -> u64
    requires some { 1 ≤ period }
    requires most { period ≤ longest_period }
    requires below { clock < clock_end }
    requires due { next ≤ clock }
    ensures { result ≡ time_after clock (period, next) }
{
    clock + period - (clock - next) % period
}
