//! The call REALT, which arms the alarm of a job.

ghost use Rattle.std.specs.Prelude.{◌≡◌};
ghost use Rattle.its_plain.specs.Call.Basic.{alarm_of, realt};
ghost use Rattle.its_world.specs.Tidy.{Tidy};
ghost use Rattle.call_basic.specs.Seen.{seen_by};

use super::arguments::input;
use super::ends::{fails, finishes_with};
use super::sleeping::is_negative;
use arrayvec::ArrayVec;
use its_frame::{Change, Decision, error};
use its_plain::LONGEST_PERIOD;
use its_records::{Ask, Job};
use its_word::Slot;
use its_world::World;

/// REALT n: the job has an alarm from now on, of period n, whose next time is n thirtieths from
/// now; with 0 it has none. Error 22 if n is below 0 or longer than 2^34.
#[tactic(auto, unfolding(its_plain::specs::Call::Basic::realt, its_plain::specs::Machine::View::view, its_world::specs::World::state_of))]
pub fn realt(w: &World, slot: Slot, job: &Job, ask: &Ask) -> Decision
    requires tidy { Tidy w.now }
    ensures { result ≡ realt (seen_by w.now slot job.now ask.now) ask.now }
{
    let n = input(ask, 0).value();
    if is_negative(n) || n > LONGEST_PERIOD {
        return fails(job, ask, error::OUT_OF_RANGE);
    }
    let alarm = if n == 0 { None } else { Some((n, w.clock + n)) };
    finishes_with(job, Change::Arm { alarm }, ArrayVec::new())
}
