//! One step of unwinding, and all steps of a job.

ghost use Rattle.std.specs.Prelude.{◌≡◌, ◌≢◌, ◌≤◌, ◌+◌, ◌∷◌, [], ℕ, true, Some, None, is_some, IfSome, option_map};
ghost use Rattle.its_core.specs.Cores.{core_at, clear_at};
ghost use Rattle.its_jobs.specs.Table.{job_at};
ghost use Rattle.its_plain.specs.Call.Arguments.{input};
ghost use Rattle.its_plain.specs.Call.Step.{deposited};
ghost use Rattle.its_in_call.specs.Calls.{ending_in, gone_to, request_in};
ghost use Rattle.its_plain.specs.Machine.Own.{after_exit};
ghost use Rattle.its_word.specs.Core.{can_store};
ghost use Rattle.its_word.specs.Stores.{place, stored};
ghost use Rattle.its_stepped.specs.State.{UnlinkOld, LinkNew, FreeOld, asked, held_at, holding, plain, seen};
ghost use Rattle.its_stepped.specs.Unwind.{left, unwind_one as unwind_one_of, unwound};
ghost use Rattle.its_stepped.specs.OneChange.{OneChange};
ghost use Rattle.its_stepped.specs.SlotSame.{SlotSame};
ghost use Rattle.its_stepped.specs.Sound.{MovingPays, Sound};
ghost use Rattle.its_world.specs.World.{state_of, frames_after, Becomes, CoreBecomes, JobBecomes, call_in, plain_of};
ghost use Rattle.its_pclsr.specs.Apart.{CoresOff};
ghost use Rattle.its_pclsr.specs.Owed.{IsNext};
ghost use Rattle.its_pclsr.specs.Parts.{NextMade, Taken};
ghost use Rattle.its_world.specs.Tidy.{Tidy};

use its_bytes::deposit;
use its_commit::{first_owed, owns_mark};
use its_core::Core;
use its_in_call::{Next, View};
use its_records::{Ask, Exit, Job, Owed};
use its_word::{ADDRESSES, Slot, Store, Word};
use its_world::World;

/// One step of unwinding of a slot's job, which is inside a call: at most one word of core, one
/// page's place, one part of a close or the registers change, and the plain machine does not.
#[tactic(auto, using(crate::proofs::Groups::unwind_one_laws))]
pub fn unwind_one(w: &mut World, slot: Slot)
    requires frame { is_some (call_in w.old slot) ≡ true }
    requires sound { Sound (state_of w.old) }
    requires tidy { Tidy w.old }
    ensures row { state_of w.new ≡ unwind_one_of (state_of w.old) slot }
    ensures fewer { left (state_of w.new) slot + 1 ≡ left (state_of w.old) slot }
    ensures change { OneChange (state_of w.old) (state_of w.new) slot }
    ensures same { plain_of w.new ≡ plain_of w.old }
    ensures cores { CoresOff w.old w.new slot }
    ensures pages { w.new.core.frames ≡ frames_after ((state_of w.old).reserved slot) ((unwind_one_of (state_of w.old) slot).reserved slot) slot w.old.core.frames }
    ensures tidy { Tidy w.new }
    ensures sound { Sound (state_of w.new) }
{
    step(w, slot);
}

/// The row of a frame.
#[inline(always)]
#[tactic(auto, using(crate::proofs::ApartLaws::off_one, crate::proofs::ApartLaws::off_same))]
fn step(w: &mut World, slot: Slot)
    requires frame { is_some (call_in w.old slot) ≡ true }
    requires sound { Sound (state_of w.old) }
    requires tidy { Tidy w.old }
    ensures row { state_of w.new ≡ unwind_one_of (state_of w.old) slot }
    ensures cores { CoresOff w.old w.new slot }
    ensures tidy { Tidy w.new }
{
    match w.frame(slot) {
        View::User => {}
        View::Entered { .. } => w.leave_call(slot),
        View::Parsed { .. } => w.leave_call(slot),
        View::Asked { .. } => w.leave_call(slot),
        View::Holding {
            ask,
            page,
            owes,
            ..
        } => {
            if page.is_some() {
                back(w, slot);
            } else if owes == 0 {
                w.leave_call(slot);
            } else {
                let store = first_owed(ask, owes);
                pay_held(w, slot, store, owes - 1);
            }
        }
        View::Waiting { ask, owes, .. } => {
            if owes == 0 {
                w.leave_call(slot);
            } else {
                let store = first_owed(ask, owes);
                pay(w, slot, store, Next::Waiting { owes: owes - 1 });
            }
        }
        View::Moving {
            ask,
            place,
            byte,
            ..
        } => {
            let store = held_store(&w.core, slot, ask, place, byte);
            pay_held(w, slot, store, 2);
        }
        View::Ending { .. } => unwind_ending(w, slot),
    }
}

/// A call gives back the page that it has reserved, and is as before it was prepared.
#[tactic(auto, using(crate::proofs::ApartLaws::off_back))]
fn back(w: &mut World, slot: Slot)
    requires request { is_some (request_in (call_in w.old slot)) ≡ true }
    requires page { is_some (clear_at w.old.core slot) ≡ true }
    requires tidy { Tidy w.old }
    ensures row { IfSome (request_in (call_in w.old slot)) (λ r. Becomes w.old w.new slot (core_at w.old.core slot) (job_at w.old.jobs slot) (Some (asked r.site r.ask)) None) }
    ensures cores { CoresOff w.old w.new slot }
    ensures tidy { Tidy w.new }
{
    w.give_back(slot);
    w.go_to(slot, Next::Asked);
}

/// A store is performed for a call, and the call goes on.
#[inline(always)]
#[tactic(auto, using(crate::proofs::ApartLaws::off_one))]
fn pay(w: &mut World, slot: Slot, store: Store, next: Next)
    requires job { is_some (job_at w.old.jobs slot) ≡ true }
    requires request { is_some (request_in (call_in w.old slot)) ≡ true }
    requires can { can_store (core_at w.old.core slot) (place store) ≡ true }
    requires tidy { Tidy w.old }
    ensures row { IfSome (request_in (call_in w.old slot)) (λ r. Becomes w.old w.new slot (stored (core_at w.old.core slot) (store ∷ [])) (job_at w.old.jobs slot) (Some (gone_to next r)) (clear_at w.old.core slot)) }
    ensures cores { CoresOff w.old w.new slot }
    ensures tidy { Tidy w.new }
{
    make(w, slot, store);
    w.go_to(slot, next);
}

/// A store is performed for a call, which then holds no page, and of which this many arguments are
/// pending.
fn pay_held(w: &mut World, slot: Slot, store: Store, owes: u8)
    requires job { is_some (job_at w.old.jobs slot) ≡ true }
    requires request { is_some (request_in (call_in w.old slot)) ≡ true }
    requires can { can_store (core_at w.old.core slot) (place store) ≡ true }
    requires tidy { Tidy w.old }
    ensures row { IfSome (request_in (call_in w.old slot)) (λ r. Becomes w.old w.new slot (stored (core_at w.old.core slot) (store ∷ [])) (job_at w.old.jobs slot) (Some (holding r.site r.ask None owes)) (clear_at w.old.core slot)) }
    ensures cores { CoresOff w.old w.new slot }
    ensures tidy { Tidy w.new }
{
    pay(w, slot, store, Next::Holding { page: None, owes });
}

/// Makes a store that can be made. Its address is taken modulo 1000000 (octal).
#[tactic(auto, using(its_commit::proofs::OwedLaws::one_stored))]
fn make(w: &mut World, slot: Slot, store: Store)
    requires can { can_store (core_at w.old.core slot) (place store) ≡ true }
    ensures { CoreBecomes w.old w.new slot (stored (core_at w.old.core slot) (store ∷ [])) }
{
    w.store(slot, store.at % ADDRESSES, store.word);
}

/// A held byte in its word, as a store.
fn held_store(core: &Core, slot: Slot, ask: &Ask, at: u32, byte: Word) -> Store
    requires pays { MovingPays (core_at core.now slot) (clear_at core.now slot) ask.now at }
    ensures { result ≡ deposited (core_at core.now slot) (input ask.now 1) (held_at at byte) }
{
    let pointer = ask.inputs[1].value;
    match core.get(slot, at) {
        Ok(word) => Store {
            at,
            word: deposit(pointer, word, byte.value()),
        },
        Err(_) => unreachable!(),
    }
}

/// The first step that is still pending of a call that has ended is performed.
#[tactic(auto, using(crate::proofs::ApartLaws::off_one, crate::proofs::ApartLaws::off_back, crate::proofs::ApartLaws::off_alike, crate::proofs::ApartLaws::off_then))]
fn unwind_ending(w: &mut World, slot: Slot)
    requires ending { is_some (ending_in (call_in w.old slot)) ≡ true }
    requires sound { Sound (state_of w.old) }
    requires tidy { Tidy w.old }
    ensures row { state_of w.new ≡ unwind_one_of (state_of w.old) slot }
    ensures cores { CoresOff w.old w.new slot }
    ensures tidy { Tidy w.new }
{
    match take_step(w, slot) {
        Owed::Store(at, word) => make(w, slot, Store { at, word }),
        Owed::GiveBack => w.give_back(slot),
        Owed::Leave(exit) => {
            w.leave_call(slot);
            leave(w, slot, exit);
        }
        Owed::Unlink => unlink(w),
        Owed::Link => link(w),
        Owed::Free => free(w),
    }
}

/// Takes the first step that is still pending.
fn take_step(w: &mut World, slot: Slot) -> Owed
    requires ending { is_some (ending_in (call_in w.old slot)) ≡ true }
    requires sound { Sound (state_of w.old) }
    requires tidy { Tidy w.old }
    ensures taken { Taken w.old w.new slot result }
    ensures tidy { Tidy w.new }
{
    let mine = owns_mark(w, slot);
    w.next_step(slot, mine)
}

/// The old file of a close leaves the directory.
fn unlink(w: &mut World)
    requires next { IsNext (state_of w.old).mark UnlinkOld }
    requires tidy { Tidy w.old }
    ensures part { NextMade w.old w.new }
    ensures tidy { Tidy w.new }
{
    w.files.seen();
    w.files.unlink_old();
}

/// The draft of a close becomes the last file.
fn link(w: &mut World)
    requires next { IsNext (state_of w.old).mark LinkNew }
    requires tidy { Tidy w.old }
    ensures part { NextMade w.old w.new }
    ensures tidy { Tidy w.new }
{
    w.files.seen();
    w.files.link_new();
}

/// The blocks of the old file of a close become free.
fn free(w: &mut World)
    requires next { IsNext (state_of w.old).mark FreeOld }
    requires tidy { Tidy w.old }
    ensures part { NextMade w.old w.new }
    ensures tidy { Tidy w.new }
{
    w.files.seen();
    w.files.free_old();
}

/// A job gets the registers that it leaves a call with.
#[tactic(auto, using(crate::proofs::ApartLaws::off_one, crate::proofs::ApartLaws::off_same))]
fn leave(w: &mut World, slot: Slot, e: Exit)
    requires job { is_some (job_at w.old.jobs slot) ≡ true }
    requires tidy { Tidy w.old }
    ensures made { IfSome (job_at w.old.jobs slot) (λ j. JobBecomes w.old w.new slot (after_exit e j)) }
    ensures cores { CoresOff w.old w.new slot }
    ensures tidy { Tidy w.new }
{
    if let Some(job) = w.registers(slot) {
        w.put_registers(slot, left_with(job, &e));
    }
}

/// Registers with those of an exit.
fn left_with(job: Job, e: &Exit) -> Job
    ensures { result ≡ after_exit e.now job }
{
    Job {
        pc: e.pc,
        flags: e.flags,
        pend1: e.pend1,
        pend2: e.pend2,
        mask1: e.mask1,
        mask2: e.mask2,
        defer1: e.defer1,
        defer2: e.defer2,
        ..job
    }
}

/// A slot's job unwound to user mode, in at most four steps. The plain machine and every other slot
/// stay as they are. The job is left with what its frame says (`seen`): before the call is tried as
/// it was, with PC at the call (unstarted); then with the words of its last arguments stored, so
/// that the call does the rest when it is made again; once the call has ended with all of it done
/// (finished).
#[tactic(auto, using(crate::proofs::Groups::unwind_laws))]
pub fn unwind(w: &mut World, slot: Slot)
    requires sound { Sound (state_of w.old) }
    requires tidy { Tidy w.old }
    ensures unwinds { state_of w.new ≡ unwound (state_of w.old) slot }
    ensures few { left (state_of w.old) slot ≤ 4 }
    ensures none { (state_of w.new).frames slot ≡ None }
    ensures left { (state_of w.new).raw.jobs slot ≡ option_map (seen ((state_of w.old).frames slot)) ((state_of w.old).raw.jobs slot) }
    ensures same { plain_of w.new ≡ plain_of w.old }
    ensures others { (k : ℕ) → k ≢ slot → SlotSame (state_of w.old) (state_of w.new) k }
    ensures cores { CoresOff w.old w.new slot }
    ensures pages { w.new.core.frames ≡ frames_after ((state_of w.old).reserved slot) None slot w.old.core.frames }
    ensures tidy { Tidy w.new }
    ensures sound { Sound (state_of w.new) }
{
    run(w, slot);
}

/// Step after step, until the slot has no frame.
#[tactic(auto, using(crate::proofs::ApartLaws::off_same, crate::proofs::ApartLaws::off_then))]
fn run(w: &mut World, slot: Slot)
    requires sound { Sound (state_of w.old) }
    requires tidy { Tidy w.old }
    ensures row { state_of w.new ≡ unwound (state_of w.old) slot }
    ensures cores { CoresOff w.old w.new slot }
    ensures tidy { Tidy w.new }
{
    while w.has_frame(slot) {
        step(w, slot);
    }
}
