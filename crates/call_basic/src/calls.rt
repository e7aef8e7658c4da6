//! The call LOGOUT, and the slot into which a call reaches.

ghost use Rattle.std.specs.Prelude.{◌≡◌, true, is_some, IfSome};
ghost use Rattle.its_frame.specs.declared.decision.Decision.TheVariants.{Gone};
ghost use Rattle.its_jobs.specs.Table.{job_at, superior_at};
ghost use Rattle.its_plain.specs.Call.Basic.{told_superior};
ghost use Rattle.its_plain.specs.Call.Decide.{reached_by, target};
ghost use Rattle.its_world.specs.World.{raw_in};
ghost use Rattle.call_basic.specs.Seen.{raw_with};

use super::arguments::input;
use super::party::{channel, is_oneself};
use arrayvec::ArrayVec;
use its_frame::{CallName, Change, Decision};
use its_records::{Ask, Channel, Job};
use its_word::{Slot, Word};
use its_world::World;

/// The slot of the job into which the call of a slot's job reaches, through an open channel on it.
#[tactic(auto, using(crate::proofs::RawLaws::target_here))]
pub fn target_of(w: &World, slot: Slot, ask: &Ask) -> Option<u8>
    requires job { is_some (job_at w.now.jobs slot) ≡ true }
    ensures { IfSome (raw_in w.now slot) (λ q. result ≡ target q ask.now) }
{
    match w.jobs.job(slot) {
        Some(job) => target(w, slot, job, ask),
        None => unreachable!(),
    }
}

/// Into which job a call reaches, by the registers of its caller.
#[tactic(auto, unfolding(its_plain::specs::Call::Decide::target))]
fn target(w: &World, slot: Slot, job: &Job, ask: &Ask) -> Option<u8>
    ensures { result ≡ target (raw_with w.now slot job.now) ask.now }
{
    if ask.fail != 0 {
        return None;
    }
    match CallName::named(ask.name) {
        Some(call) => match call.row().reaches {
            Some(k) => reached(w, slot, job, input(ask, k)),
            None => None,
        },
        None => None,
    }
}

/// The slot of the job that a job argument names, other than oneself.
#[tactic(auto, using(its_shared::proofs::NumberLaws::under))]
fn reached(w: &World, slot: Slot, job: &Job, party: Word) -> Option<u8>
    ensures { result ≡ reached_by (raw_with w.now slot job.now) party }
{
    if is_oneself(party) {
        return None;
    }
    match channel(job, party) {
        Channel::Usr { slot: inferior, .. } => Some(inferior),
        _ => None,
    }
}

/// LOGOUT: the job and all jobs below it are removed, and INF is set in its superior.
pub fn logout(w: &World, slot: Slot) -> Decision
    ensures { result ≡ Gone (record { items = told_superior (superior_at w.now.jobs slot) }) }
{
    let mut changes = ArrayVec::new();
    if let Some(superior) = w.jobs.superior(slot) {
        let number = superior.number();
        changes.push(Change::Inform { slot: number });
    }
    Decision::Gone { changes }
}
