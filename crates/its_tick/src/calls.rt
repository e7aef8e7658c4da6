//! Ticks of a job inside a call: its decoding in two steps, its preparation, its trials, and its
//! pending steps. The frame stays in its place: a tick reads what it needs, and writes what it
//! changes.
ghost use Rattle.std.specs.Prelude.{if◌then◌else◌, ◌≡◌, ◌<◌, ◌+◌, Some, None, IfSome, IfErr, is_some, true, false, length};
ghost use Rattle.its_in_call.specs.Calls.{entered_in, parsed_in};
ghost use Rattle.its_core.specs.Cores.{clear_at};
ghost use Rattle.its_jobs.specs.Table.{job_at};
ghost use Rattle.its_world.specs.Tidy.{Tidy};
ghost use Rattle.its_commit.specs.Carried.{standing_of};
ghost use Rattle.its_plain.specs.Call.Step.{decision, with_fault};
ghost use Rattle.its_stepped.specs.Forest.{Forest};
ghost use Rattle.its_stepped.specs.Duty.{IsTried};
ghost use Rattle.its_stepped.specs.State.{with_slot};
ghost use Rattle.its_stepped.specs.Tick.{helps, reserves, tick_in};
ghost use Rattle.its_stepped.specs.Unwind.{unwind_one as unwind_one_of};
ghost use Rattle.its_world.specs.World.{frames_after, state_of, PageBecomes, call_in, raw_in};
ghost use Rattle.its_tick.specs.Kept.{Kept};
ghost use Rattle.its_tick.specs.Pages.{pages_in};
ghost use Rattle.its_tick.specs.Ticks.{asked_in, pace_of, pace_decoded, state_decoded, ticked, IsClearing};

use super::bytes::bytes;
use super::ready::make_ready;
use call_core::{decide, reserves};
use its_commit::{carry_out, standing};
use its_frame::Decision;
use its_in_call::{Next, View};
use its_pclsr::unwind_one;
use its_records::Pace;
use its_word::{Fault, Slot};
use its_world::World;

/// The quarters of a page.
const QUARTERS: u8 = 4;

/// A tick of a slot's job that is inside a call.
#[inline(never)]
pub fn in_call(w: &mut World, slot: Slot) -> Pace
    requires kept { Kept w.old }
    requires running { IfSome (job_at w.old.jobs slot) (λ j. j.stopped ≡ false) }
    requires frame { is_some (call_in w.old slot) ≡ true }
    ensures row { IfSome (raw_in w.old slot) (λ q. tick_in (state_of w.old) slot q (call_in w.old slot) ≡ ticked (state_of w.new) result) }
    ensures pages { IfSome (raw_in w.old slot) (λ q. w.new.core.frames ≡ pages_in (state_of w.old) slot q (call_in w.old slot) w.old.core.frames) }
    ensures tidy { Tidy w.new }
{
    match w.frame(slot) {
        View::Holding { page, owes, .. } => match page {
            Some(clear) if clear < QUARTERS => clear_next(w, slot, clear, owes),
            _ => attempt_held(w, slot),
        },
        View::Waiting { .. } => attempt(w, slot),
        View::Moving { .. } => pay(w, slot),
        View::Ending { .. } => pay(w, slot),
        View::Entered { .. } => parse(w, slot),
        View::Parsed { .. } => fetch(w, slot),
        View::Asked { ask, .. } => {
            let page = reserves(ask);
            prepare(w, slot, page)
        }
        View::User => unreachable!(),
    }
}

/// One of the pending steps of a call.
#[inline(never)]
#[tactic(auto, using(crate::proofs::CallLaws::tidy_of))]
fn pay(w: &mut World, slot: Slot) -> Pace
    requires kept { Kept w.old }
    requires frame { is_some (call_in w.old slot) ≡ true }
    ensures row { state_of w.new ≡ unwind_one_of (state_of w.old) slot }
    ensures pace { result ≡ Pace.Work }
    ensures pages { w.new.core.frames ≡ frames_after ((state_of w.old).reserved slot) ((unwind_one_of (state_of w.old) slot).reserved slot) slot w.old.core.frames }
    ensures tidy { Tidy w.new }
{
    unwind_one(w, slot);
    Pace::Work
}

/// The block of a call is read.
#[inline(never)]
fn parse(w: &mut World, slot: Slot) -> Pace
    requires kept { Kept w.old }
    requires frame { is_some (entered_in (call_in w.old slot)) ≡ true }
    ensures row { IfSome (raw_in w.old slot) (λ q. tick_in (state_of w.old) slot q (call_in w.old slot) ≡ ticked (state_of w.new) result) }
    ensures pages { IfSome (raw_in w.old slot) (λ q. w.new.core.frames ≡ pages_in (state_of w.old) slot q (call_in w.old slot) w.old.core.frames) }
    ensures tidy { Tidy w.new }
{
    let answer = w.parse(slot);
    decoded(w, slot, answer)
}

/// The addresses and values of a call's arguments are found.
#[inline(never)]
fn fetch(w: &mut World, slot: Slot) -> Pace
    requires kept { Kept w.old }
    requires frame { is_some (parsed_in (call_in w.old slot)) ≡ true }
    ensures row { IfSome (raw_in w.old slot) (λ q. tick_in (state_of w.old) slot q (call_in w.old slot) ≡ ticked (state_of w.new) result) }
    ensures pages { IfSome (raw_in w.old slot) (λ q. w.new.core.frames ≡ pages_in (state_of w.old) slot q (call_in w.old slot) w.old.core.frames) }
    ensures tidy { Tidy w.new }
{
    let answer = w.fetch(slot);
    decoded(w, slot, answer)
}

/// The letter of a step of the decoding. At a fault the job, which is in user mode again, gets its
/// bit.
#[inline]
fn decoded(w: &mut World, slot: Slot, answer: Result<(), Fault>) -> Pace
    requires job { is_some (job_at w.old.jobs slot) ≡ true }
    requires frame { IfErr answer (λ f. call_in w.old slot ≡ None) }
    requires tidy { Tidy w.old }
    ensures row { state_of w.new ≡ state_decoded (state_of w.old) slot answer }
    ensures pace { result ≡ pace_decoded answer }
    ensures pages { w.new.core.frames ≡ w.old.core.frames }
    ensures tidy { Tidy w.new }
{
    match answer {
        Ok(()) => Pace::Work,
        Err(fault) => {
            set_fault(w, slot, fault);
            Pace::Step
        }
    }
}

/// Sets the bit of a fault in a slot's job.
#[inline(never)]
#[tactic(auto, using(its_commit::proofs::TidyLaws::becomes_pages, crate::proofs::CallLaws::fault_set))]
fn set_fault(w: &mut World, slot: Slot, fault: Fault)
    requires job { is_some (job_at w.old.jobs slot) ≡ true }
    requires frame { call_in w.old slot ≡ None }
    requires tidy { Tidy w.old }
    ensures row { state_of w.new ≡ with_slot (state_of w.old) slot (with_fault fault) None }
    ensures pages { w.new.core.frames ≡ w.old.core.frames }
    ensures tidy { Tidy w.new }
{
    if let Some(mut job) = w.registers(slot) {
        job.pend1 = job.pend1 | fault.bit();
        w.put_registers(slot, job);
    }
}

/// Prepares the call to be tried: one that makes a page reserves it.
#[inline(never)]
fn prepare(w: &mut World, slot: Slot, page: bool) -> Pace
    requires kept { Kept w.old }
    requires frame { is_some (asked_in (call_in w.old slot)) ≡ true }
    requires page { IfSome (asked_in (call_in w.old slot)) (λ a. page ≡ reserves a) }
    ensures row { IfSome (raw_in w.old slot) (λ q. tick_in (state_of w.old) slot q (call_in w.old slot) ≡ ticked (state_of w.new) result) }
    ensures pages { IfSome (raw_in w.old slot) (λ q. w.new.core.frames ≡ pages_in (state_of w.old) slot q (call_in w.old slot) w.old.core.frames) }
    ensures tidy { Tidy w.new }
{
    if page {
        reserve(w, slot);
        w.go_to(
            slot,
            Next::Holding {
                page: Some(0),
                owes: 0,
            },
        );
    } else {
        w.go_to(
            slot,
            Next::Holding {
                page: None,
                owes: 0,
            },
        );
    }
    Pace::Work
}

/// Reserves a page for a slot, none of whose quarters is clear.
#[tactic(auto, using(its_core::proofs::ZeroLaws::clear_unreserved))]
fn reserve(w: &mut World, slot: Slot)
    requires none { clear_at w.old.core slot ≡ None }
    ensures { PageBecomes w.old w.new slot (Some 0) }
{
    w.core.reserve(slot);
}

/// Clears the next quarter of the page that the call of a slot has reserved.
#[inline(never)]
fn clear_next(w: &mut World, slot: Slot, clear: u8, owes: u8) -> Pace
    requires kept { Kept w.old }
    requires quarter { clear < 4 }
    requires holds { IsClearing (call_in w.old slot) clear owes }
    ensures row { IfSome (raw_in w.old slot) (λ q. tick_in (state_of w.old) slot q (call_in w.old slot) ≡ ticked (state_of w.new) result) }
    ensures pages { IfSome (raw_in w.old slot) (λ q. w.new.core.frames ≡ pages_in (state_of w.old) slot q (call_in w.old slot) w.old.core.frames) }
    ensures tidy { Tidy w.new }
{
    clear_quarter(w, slot, clear);
    w.go_to(
        slot,
        Next::Holding {
            page: Some(clear + 1),
            owes,
        },
    );
    Pace::Work
}

/// Clears the next quarter of the page that a slot has reserved.
#[tactic(auto, using(its_world::proofs::WorldLaws::reserved_some, crate::proofs::PageLaws::quarter_cleared))]
fn clear_quarter(w: &mut World, slot: Slot, q: u8)
    requires quarter { q < 4 }
    requires page { clear_at w.old.core slot ≡ Some q }
    ensures { PageBecomes w.old w.new slot (Some (q + 1)) }
{
    w.core.clear_quarter(slot, q);
}

/// A call that is held is tried. If it is SIOT, most trials move one byte, and need neither a world
/// that is made ready nor a decision as a value.
#[inline]
fn attempt_held(w: &mut World, slot: Slot) -> Pace
    requires kept { Kept w.old }
    requires running { IfSome (job_at w.old.jobs slot) (λ j. j.stopped ≡ false) }
    requires stands { is_some (standing_of (call_in w.old slot)) ≡ true }
    requires clear { IfSome (standing_of (call_in w.old slot)) (λ f. IsTried f.page) }
    ensures row { IfSome (raw_in w.old slot) (λ q. tick_in (state_of w.old) slot q (call_in w.old slot) ≡ ticked (state_of w.new) result) }
    ensures pages { IfSome (raw_in w.old slot) (λ q. w.new.core.frames ≡ pages_in (state_of w.old) slot q (call_in w.old slot) w.old.core.frames) }
    ensures tidy { Tidy w.new }
{
    if bytes(w, slot, 1) == 1 {
        Pace::Step
    } else {
        attempt(w, slot)
    }
}

/// A call is tried: the world is made ready for it, it is decided, and that is carried out.
#[inline(never)]
fn attempt(w: &mut World, slot: Slot) -> Pace
    requires kept { Kept w.old }
    requires stands { is_some (standing_of (call_in w.old slot)) ≡ true }
    requires clear { IfSome (standing_of (call_in w.old slot)) (λ f. IsTried f.page) }
    ensures row { IfSome (raw_in w.old slot) (λ q. tick_in (state_of w.old) slot q (call_in w.old slot) ≡ ticked (state_of w.new) result) }
    ensures pages { IfSome (raw_in w.old slot) (λ q. w.new.core.frames ≡ pages_in (state_of w.old) slot q (call_in w.old slot) w.old.core.frames) }
    ensures tidy { Tidy w.new }
{
    make_ready(w, slot);
    let decision = decide_in(w, slot);
    let pace = pace_of(&decision);
    carry_out(w, slot, decision);
    pace
}

/// The decision of the call in the frame of a slot.
fn decide_in(w: &World, slot: Slot) -> Decision
    requires job { is_some (job_at w.now.jobs slot) ≡ true }
    requires stands { is_some (standing_of (call_in w.now slot)) ≡ true }
    requires tidy { Tidy w.now }
    requires forest { Forest (state_of w.now).raw }
    requires unmarked { IfSome (standing_of (call_in w.now slot)) (λ f. IfSome (raw_in w.now slot) (λ q. helps q f.ask ≡ true → w.now.files.mark ≡ None)) }
    ensures { IfSome (standing_of (call_in w.now slot)) (λ f. IfSome (raw_in w.now slot) (λ q. result ≡ decision (state_of w.now).raw slot q f.ask)) }
{
    let (ask, _) = standing(w, slot);
    decide(w, slot, ask)
}

/// The letter of a trial.
fn pace_of(decision: &Decision) -> Pace
    ensures { result ≡ pace_of decision.now }
{
    match decision {
        Decision::Waits(_) => Pace::Wait,
        Decision::Goes { .. } => Pace::Step,
        Decision::Ends { .. } => Pace::Step,
        Decision::Gone { .. } => Pace::Step,
    }
}
