//! OPEN of a console.

ghost use Rattle.std.specs.Prelude.{◌≡◌};
ghost use Rattle.its_plain.specs.Call.Tty.{opens, opens_on};
ghost use Rattle.call_basic.specs.Seen.{seen_by};

use arrayvec::ArrayVec;
use call_basic::{control, fails, finishes_with, input, is_free};
use its_frame::{Change, Decision, Opened, error};
use its_plain::TTY;
use its_records::{Ask, Job};
use its_word::Slot;
use its_world::World;

/// OPEN channel, device: input, or output with control 1. Errors 4, 5 if the device is not TTY, 22,
/// and 5 if the job has no console.
#[tactic(auto, using(call_basic::proofs::ChannelLaws::free), unfolding(its_plain::specs::Call::Tty::opens, its_plain::specs::Machine::View::view, its_world::specs::World::state_of))]
pub fn open_tty(w: &World, slot: Slot, job: &Job, ask: &Ask) -> Decision
    ensures { result ≡ opens (seen_by w.now slot job.now ask.now) ask.now }
{
    let number = input(ask, 0);
    let control = control(ask);
    if !is_free(job, number) {
        return fails(job, ask, error::BAD_CHANNEL);
    }
    if input(ask, 1).value() != TTY {
        return fails(job, ask, error::WRONG_DEVICE);
    }
    if control > 1 {
        return fails(job, ask, error::OUT_OF_RANGE);
    }
    if job.console.is_none() {
        return fails(job, ask, error::WRONG_DEVICE);
    }
    let change = Change::Open {
        channel: number.value() as u8,
        on: opened(control),
    };
    finishes_with(job, change, ArrayVec::new())
}

/// What the control argument opens a console for.
fn opened(control: u64) -> Opened
    ensures { result ≡ opens_on control }
{
    if control == 1 {
        Opened::TtyOut
    } else {
        Opened::TtyIn
    }
}
