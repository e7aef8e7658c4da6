//! The decision of a call carried out.
ghost use Rattle.std.specs.Prelude.{◌≡◌, ◌≤◌, ◌++◌, ◌∷◌, [], true, false, Some, is_some, IfSome, length, map};
ghost use Rattle.its_records.specs.declared.calls.Owed.TheVariants.{Leave};
ghost use Rattle.its_jobs.specs.Table.{job_at};
ghost use Rattle.its_plain.specs.Call.Arguments.{debts, with_new_values};
ghost use Rattle.its_plain.specs.Call.Decide.{call_named};
ghost use Rattle.its_plain.specs.Call.Tests.{goes};
ghost use Rattle.its_stepped.specs.Commit.{after_commit, after_going_on, owed_parts, owed_store, sleeps};
ghost use Rattle.its_stepped.specs.State.{ending, waiting};
ghost use Rattle.its_world.specs.Tidy.{Tidy};
ghost use Rattle.its_commit.specs.Built.{backed, CanMake};
ghost use Rattle.its_commit.specs.Pages.{pages_carried, pages_changed};
ghost use Rattle.its_commit.specs.Carried.{awake_next, standing_of, next_of, CanCommit, Endable};
ghost use Rattle.its_world.specs.World.{state_of, FrameBecomes, call_in};

use super::carrying::owed_steps;
use super::changes::{apply, apply_part};
use super::owed::owns_mark;
use super::removal::remove_tree;
use arrayvec::ArrayVec;
use its_frame::{CallName, Change, Decision, Held};
use its_in_call::{Next, View};
use its_records::{Ask, Exit, Owed};
use its_word::{Slot, Store, Word};
use its_world::World;

/// Carries out the decision of the call of a slot's job, which is in its frame: the changes at
/// once, and the rest as the frame that it leaves.
pub fn carry_out(w: &mut World, slot: Slot, decision: Decision)
    requires job { is_some (job_at w.old.jobs slot) ≡ true }
    requires stands { is_some (standing_of (call_in w.old slot)) ≡ true }
    requires ready { IfSome (standing_of (call_in w.old slot)) (λ f. CanCommit (state_of w.old) slot f decision) }
    requires tidy { Tidy w.old }
    ensures row { IfSome (standing_of (call_in w.old slot)) (λ f. state_of w.new ≡ after_commit (state_of w.old) slot f.site f.ask f.owes decision) }
    ensures pages { w.new.core.frames ≡ pages_carried decision slot (state_of w.old) w.old.core.frames }
    ensures tidy { Tidy w.new }
{
    match decision {
        Decision::Waits(_) => wait(w, slot),
        Decision::Goes {
            changes,
            held,
            values,
        } => {
            apply(w, slot, &changes);
            go_on(w, slot, held, &values);
        }
        Decision::Ends {
            changes,
            stores,
            exit,
        } => {
            apply(w, slot, &changes);
            end(w, slot, &stores, exit);
        }
        Decision::Gone { changes } => {
            remove_tree(w, slot);
            apply(w, slot, &changes);
        }
    }
}

/// Carries out the decision that a part of the call of a slot's job is done: one change at once,
/// then the new values of its last two arguments. The call is not SLEEP.
#[inline(always)]
pub fn carry_part(
    w: &mut World,
    slot: Slot,
    change: Change,
    held: Option<Held>,
    next: Word,
    left: Word,
)
    requires job { is_some (job_at w.old.jobs slot) ≡ true }
    requires stands { is_some (standing_of (call_in w.old slot)) ≡ true }
    requires awake { IfSome (standing_of (call_in w.old slot)) (λ f. sleeps (call_named f.ask.name) ≡ false) }
    requires ready { CanMake change slot (state_of w.old) }
    requires tidy { Tidy w.old }
    ensures row { IfSome (standing_of (call_in w.old slot)) (λ f. state_of w.new ≡ after_commit (state_of w.old) slot f.site f.ask f.owes (goes (change ∷ []) held (next ∷ left ∷ []))) }
    ensures pages { w.new.core.frames ≡ pages_changed change slot (state_of w.old) w.old.core.frames }
    ensures tidy { Tidy w.new }
{
    apply_part(w, slot, change);
    go_on_awake(w, slot, held, next, left);
}

/// The call of a slot that can be committed: what it asks for, and how many of its last arguments
/// are pending.
#[tactic(auto, using(crate::proofs::StandingLaws::stands_holding, crate::proofs::StandingLaws::stands_waiting))]
pub fn standing(w: &World, slot: Slot) -> (&Ask, u8)
    requires stands { is_some (standing_of (call_in w.now slot)) ≡ true }
    ensures { IfSome (standing_of (call_in w.now slot)) (λ f. (result.0.now ≡ f.ask) × (result.1 ≡ f.owes)) }
{
    match w.frame(slot) {
        View::Holding { ask, owes, .. } => (ask, owes),
        View::Waiting { ask, owes, .. } => (ask, owes),
        _ => unreachable!(),
    }
}

/// The call waits.
#[tactic(auto, using(crate::proofs::TidyLaws::becomes_pages))]
fn wait(w: &mut World, slot: Slot)
    requires stands { is_some (standing_of (call_in w.old slot)) ≡ true }
    requires tidy { Tidy w.old }
    ensures row { IfSome (standing_of (call_in w.old slot)) (λ f. FrameBecomes w.old w.new slot (Some (waiting f.site f.ask f.owes))) }
    ensures pages { w.new.core.frames ≡ w.old.core.frames }
    ensures tidy { Tidy w.new }
{
    let (_, owes) = standing(w, slot);
    w.go_to(slot, Next::Waiting { owes });
}

/// A part of the call is done: its last arguments have new values, whose stores are pending.
#[tactic(auto, using(crate::proofs::TidyLaws::becomes_pages))]
fn go_on(w: &mut World, slot: Slot, held: Option<Held>, values: &[Word])
    requires stands { is_some (standing_of (call_in w.old slot)) ≡ true }
    requires few { length values.now ≤ 2 }
    requires tidy { Tidy w.old }
    ensures row { IfSome (standing_of (call_in w.old slot)) (λ f. FrameBecomes w.old w.new slot (Some (after_going_on f.site (with_new_values f.ask values.now) (length values.now) held))) }
    ensures pages { w.new.core.frames ≡ w.old.core.frames }
    ensures tidy { Tidy w.new }
{
    let (ask, _) = standing(w, slot);
    let next = next_of(ask, values.len() as u8, held);
    w.go_on(slot, values, next);
}

/// A part of a call that is not SLEEP is done: its last two arguments have new values, whose stores
/// are pending.
#[inline(always)]
fn go_on_awake(w: &mut World, slot: Slot, held: Option<Held>, next: Word, left: Word)
    requires stands { is_some (standing_of (call_in w.old slot)) ≡ true }
    requires awake { IfSome (standing_of (call_in w.old slot)) (λ f. sleeps (call_named f.ask.name) ≡ false) }
    requires tidy { Tidy w.old }
    ensures row { IfSome (standing_of (call_in w.old slot)) (λ f. FrameBecomes w.old w.new slot (Some (after_going_on f.site (with_new_values f.ask (next ∷ left ∷ [])) 2 held))) }
    ensures pages { w.new.core.frames ≡ w.old.core.frames }
    ensures tidy { Tidy w.new }
{
    let stage = awake_next(held);
    w.go_on(slot, &[next, left], stage);
}

/// The next stage of a call that is not SLEEP and of which a part is done; the new values of two
/// arguments are pending.
fn awake_next(held: Option<Held>) -> Next
    ensures { result ≡ awake_next 2 held }
{
    match held {
        Some(held) => Next::Moving(held),
        None => Next::Holding {
            page: None,
            owes: 2,
        },
    }
}

/// The next stage of a call of which a part is done.
fn next_of(ask: &Ask, owes: u8, held: Option<Held>) -> Next
    ensures { result ≡ next_of ask.now owes held }
{
    if let Some(held) = held {
        return Next::Moving(held);
    }
    if is_sleep(ask) {
        return Next::Waiting { owes };
    }
    Next::Holding { page: None, owes }
}

/// Whether a call is SLEEP, whose part that is done leaves it waiting.
fn is_sleep(ask: &Ask) -> bool
    ensures { result ≡ sleeps (call_named ask.now.name) }
{
    matches!(CallName::named(ask.name), Some(CallName::Sleep))
}

/// The call ends: the parts of its close, its reserved page, its arguments, its stores and its
/// registers are pending.
#[tactic(auto, using(crate::proofs::CommittingLaws::page_reserved, crate::proofs::TidyLaws::becomes_pages))]
fn end(w: &mut World, slot: Slot, stores: &[Store], exit: Exit)
    requires stands { is_some (standing_of (call_in w.old slot)) ≡ true }
    requires room { IfSome (standing_of (call_in w.old slot)) (λ f. Endable (state_of w.old) slot f (length stores.now)) }
    requires tidy { Tidy w.old }
    ensures row { IfSome (standing_of (call_in w.old slot)) (λ f. FrameBecomes w.old w.new slot (Some (ending f.site f.ask (owed_parts (state_of w.old).mark slot ++ (backed (is_some ((state_of w.old).reserved slot)) ++ (map owed_store (debts f.ask f.owes ++ stores.now) ++ Leave exit ∷ [])))))) }
    ensures pages { w.new.core.frames ≡ w.old.core.frames }
    ensures tidy { Tidy w.new }
{
    let parts = owed_parts(w, slot);
    let reserved = w.core.has_reserved(slot);
    let (ask, owes) = standing(w, slot);
    let owed = owed_steps(&parts, reserved, ask, owes, stores, exit);
    w.end(slot, owed);
}

/// The pending parts of the close of a slot's call.
#[tactic(auto, using(crate::proofs::CommittingLaws::parts_mine, crate::proofs::CommittingLaws::parts_none))]
fn owed_parts(w: &World, slot: Slot) -> ArrayVec<Owed, 3>
    ensures { result.items ≡ owed_parts (state_of w.now).mark slot }
{
    if owns_mark(w, slot) {
        w.files.owed()
    } else {
        ArrayVec::new()
    }
}
