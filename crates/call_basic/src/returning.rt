//! The call DISMIS, which returns from an interrupt.

ghost use Rattle.std.specs.Prelude.{◌≡◌};
ghost use Rattle.its_plain.specs.Call.Basic.{dismiss};
ghost use Rattle.call_basic.specs.Seen.{seen_by};

use super::arguments::{input, place_of_input};
use super::ends::{ends, fails, faults, store_at};
use its_frame::{Decision, error};
use its_ints::{dismiss as dismissed, popped};
use its_records::{Ask, Job};
use its_word::Slot;
use its_world::World;

/// DISMIS p: PC, flags and deferrals come from the words that a delivery pushed, and 5 is taken
/// from each half of the stack pointer word at p. Error 17 if p is immediate; MPV if one of the
/// words is absent, else WRO if p is read only.
#[tactic(auto, using(its_shared::proofs::BareLaws::dismissed_bare), unfolding(its_plain::specs::Call::Basic::dismiss, its_plain::specs::Machine::View::view, its_world::specs::World::state_of))]
pub fn dismiss(w: &World, slot: Slot, job: &Job, ask: &Ask) -> Decision
    ensures { result ≡ dismiss (seen_by w.now slot job.now ask.now) ask.now }
{
    match place_of_input(ask, 0) {
        Some(p) => match dismissed(&w.core, job, slot, p) {
            Ok(exit) => ends(store_at(Some(p), popped(input(ask, 0))), exit),
            Err(fault) => faults(job, fault),
        },
        None => fails(job, ask, error::NO_WORD),
    }
}
