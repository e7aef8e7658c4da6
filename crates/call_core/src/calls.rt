//! The choice of the crate that decides a call, by its name; and which call needs a page.

ghost use Rattle.std.specs.Prelude.{◌≡◌, true, is_some, IfSome, None, Some, []};
ghost use Rattle.its_frame.specs.declared.name.CallName.TheVariants.{Siot};
ghost use Rattle.its_jobs.specs.Table.{job_at};
ghost use Rattle.its_plain.specs.Call.Arguments.{input};
ghost use Rattle.its_plain.specs.Call.Step.{decision};
ghost use Rattle.its_plain.specs.Call.Decide.{call_named as call_named_by, decided, reach};
ghost use Rattle.its_stepped.specs.Forest.{Forest};
ghost use Rattle.its_stepped.specs.Tick.{helps, makes_page, reserves};
ghost use Rattle.its_world.specs.Tidy.{Tidy};
ghost use Rattle.its_world.specs.World.{state_of, raw_in};
ghost use Rattle.call_basic.specs.Parts.{going};
ghost use Rattle.call_basic.specs.Seen.{raw_with, seen_by};
ghost use Rattle.call_core.specs.Parts.{asks_siot, next_part};

use super::devices::{close, iot, open, siot, siot_part};
use super::pages::corblk;
use call_basic::{NextByte, dismiss, fails, input, logout, realt, sleep, usrvar};
use call_file::{access, delete, fillen, rename};
use call_tty::{finish, listen, ttylnd};
use call_usr::{uclose, usrmem};
use its_frame::{CallName, Decision, Wait, error};
use its_records::{Ask, Job};
use its_word::Slot;
use its_world::World;

/// The decision of the call of a slot's job.
pub fn decide(w: &World, slot: Slot, ask: &Ask) -> Decision
    requires job { is_some (job_at w.now.jobs slot) ≡ true }
    requires tidy { Tidy w.now }
    requires forest { Forest (state_of w.now).raw }
    requires unmarked { IfSome (raw_in w.now slot) (λ q. helps q ask.now ≡ true → w.now.files.mark ≡ None) }
    ensures { IfSome (raw_in w.now slot) (λ q. result ≡ decision (state_of w.now).raw slot q ask.now) }
{
    match w.jobs.job(slot) {
        Some(job) => decided(w, slot, job, ask),
        None => unreachable!(),
    }
}

/// The part of the call of a slot's job that is done next, if the call is SIOT and moves a byte by
/// one change. Then it reaches no other job, and no close is half made. None says that the call is
/// not SIOT or its decoding gave an error, that a close is half made, that the call reaches another
/// job, or that its decision is no such part.
#[tactic(auto, using(crate::proofs::PartLaws::part_other))]
pub fn part(w: &World, slot: Slot, ask: &Ask) -> Option<NextByte>
    requires job { is_some (job_at w.now.jobs slot) ≡ true }
    requires tidy { Tidy w.now }
    ensures goes { IfSome result (λ p. IfSome (raw_in w.now slot) (λ q. going p ≡ decision (state_of w.now).raw slot q ask.now)) }
    ensures alone { IfSome result (λ p. IfSome (raw_in w.now slot) (λ q. reach (state_of w.now).raw slot q ask.now ≡ [])) }
    ensures unmarked { IfSome result (λ p. w.now.files.mark ≡ None) }
    ensures name { IfSome result (λ p. call_named_by ask.now.name ≡ Some Siot) }
    ensures next { IfSome (raw_in w.now slot) (λ q. result ≡ next_part w.now.files.mark (state_of w.now).raw slot q ask.now) }
{
    if !is_siot(ask) {
        return None;
    }
    match w.files.owner() {
        Some(_) => None,
        None => unmarked_part(w, slot, ask),
    }
}

/// The part of a SIOT that is done next, if no close is half made.
fn unmarked_part(w: &World, slot: Slot, ask: &Ask) -> Option<NextByte>
    requires job { is_some (job_at w.now.jobs slot) ≡ true }
    requires fail { ask.now.fail ≡ 0 }
    requires name { call_named_by ask.now.name ≡ Some Siot }
    requires tidy { Tidy w.now }
    requires unmarked { w.now.files.mark ≡ None }
    ensures goes { IfSome result (λ p. IfSome (raw_in w.now slot) (λ q. going p ≡ decision (state_of w.now).raw slot q ask.now)) }
    ensures alone { IfSome result (λ p. IfSome (raw_in w.now slot) (λ q. reach (state_of w.now).raw slot q ask.now ≡ [])) }
    ensures unmarked { IfSome result (λ p. w.now.files.mark ≡ None) }
    ensures name { IfSome result (λ p. call_named_by ask.now.name ≡ Some Siot) }
    ensures next { IfSome (raw_in w.now slot) (λ q. result ≡ next_part w.now.files.mark (state_of w.now).raw slot q ask.now) }
{
    match w.jobs.job(slot) {
        Some(job) => siot_part(w, slot, job, ask),
        None => None,
    }
}

/// Whether a call is SIOT, whose decoding gave no error.
pub fn is_siot(ask: &Ask) -> bool
    ensures fail { result ≡ true → ask.now.fail ≡ 0 }
    ensures name { result ≡ true → call_named_by ask.now.name ≡ Some Siot }
    ensures siot { result ≡ asks_siot ask.now }
{
    ask.fail == 0 && CallName::is_siot(ask.name)
}

/// The decision of the call of a job with these registers: the one place that says which function,
/// of which crate, serves a call. An error of its decoding comes first.
#[tactic(auto, unfolding(its_plain::specs::Call::Decide::decided, its_plain::specs::Machine::View::view, its_world::specs::World::state_of))]
fn decided(w: &World, slot: Slot, job: &Job, ask: &Ask) -> Decision
    requires job { job_at w.now.jobs slot ≡ Some job.now }
    requires tidy { Tidy w.now }
    requires forest { Forest (state_of w.now).raw }
    requires unmarked { helps (raw_with w.now slot job.now) ask.now ≡ true → w.now.files.mark ≡ None }
    ensures { result ≡ decided (seen_by w.now slot job.now ask.now) ask.now }
{
    if ask.fail != 0 {
        return fails(job, ask, ask.fail);
    }
    match CallName::named(ask.name) {
        Some(CallName::Hang) => Decision::Waits(Wait::Hang),
        Some(CallName::Sleep) => sleep(w, slot, job, ask),
        Some(CallName::Dismis) => dismiss(w, slot, job, ask),
        Some(CallName::Usrvar) => usrvar(w, slot, job, ask),
        Some(CallName::Logout) => logout(w, slot),
        Some(CallName::Open) => open(w, slot, job, ask),
        Some(CallName::Close) => close(w, slot, job, ask),
        Some(CallName::Iot) => iot(w, slot, job, ask),
        Some(CallName::Siot) => siot(w, slot, job, ask),
        Some(CallName::Finish) => finish(w, slot, job, ask),
        Some(CallName::Listen) => listen(w, slot, job, ask),
        Some(CallName::Ttylnd) => ttylnd(w, slot, job, ask),
        Some(CallName::Access) => access(w, slot, job, ask),
        Some(CallName::Fillen) => fillen(w, slot, job, ask),
        Some(CallName::Delete) => delete(w, slot, job, ask),
        Some(CallName::Rename) => rename(w, slot, job, ask),
        Some(CallName::Usrmem) => usrmem(w, slot, job, ask),
        Some(CallName::Uclose) => uclose(w, slot, job, ask),
        Some(CallName::Corblk) => corblk(w, slot, job, ask),
        Some(CallName::Realt) => realt(w, slot, job, ask),
        None => fails(job, ask, error::NO_CALL),
    }
}

/// Whether a call reserves a page before it is tried: one that makes a page, whose decoding gave no
/// error.
#[tactic(auto, unfolding(its_stepped::specs::Tick::reserves))]
pub fn reserves(ask: &Ask) -> bool
    ensures { result ≡ reserves ask.now }
{
    ask.fail == 0 && makes_page(ask)
}

/// Whether a call makes a page, by its operation 1.
fn makes_page(ask: &Ask) -> bool
    ensures { result ≡ makes_page (call_named_by ask.now.name) (input ask.now 0) }
{
    match CallName::named(ask.name) {
        Some(call) => call.row().reserves && input(ask, 0).value() == 1,
        None => false,
    }
}
