//! A tick of a job, with its letter; and many steps of a unit at once.
ghost use Rattle.std.specs.Prelude.{◌≡◌, ◌<◌, ◌≤◌, ◌⊎◌, ◌↔◌, ℕ, true, false, IsTrue, replicate};
ghost use Rattle.its_world.specs.Tidy.{Tidy};
ghost use Rattle.its_plain.specs.Transcript.Licence.{Licensed};
ghost use Rattle.its_plain.specs.Transcript.Turns.{runs};
ghost use Rattle.its_stepped.specs.State.{plain};
ghost use Rattle.its_stepped.specs.Tick.{tick as tick_of};
ghost use Rattle.its_stepped.specs.Lines.{paces_of, after_ticks as so_many};
ghost use Rattle.its_world.specs.Filed.{Blocked};
ghost use Rattle.its_world.specs.World.{state_of, call_in, plain_of};
ghost use Rattle.its_tick.specs.Kept.{Kept};
ghost use Rattle.its_tick.specs.Beside.{AllBeside};
ghost use Rattle.its_tick.specs.Bytes.{byte_due};
ghost use Rattle.its_tick.specs.Pages.{pages_ticked};
ghost use Rattle.its_tick.specs.Ticks.{OnWaitList, is_waiting, ticked, unit_due};

use super::bytes::bytes;
use super::calls::in_call;
use super::user_mode::{deliver_to, make_unit, units_in_place};
use its_in_call::View;
use its_ints::deliverable;
use its_records::Pace;
use its_word::Slot;
use its_world::World;

/// A tick of a slot, and its letter. A slot whose call was found not ready and that is on a wait
/// list waits on: its tick asks the list alone.
pub fn tick(w: &mut World, slot: Slot) -> Pace
    requires can { Kept w.old ⊎ OnWaitList w.old slot }
    ensures state { Kept w.old → state_of w.new ≡ (tick_of (state_of w.old) slot).state }
    ensures pace { Kept w.old → result ≡ (tick_of (state_of w.old) slot).pace }
    ensures licensed { Kept w.old → Licensed (plain_of w.old) slot result (plain_of w.new) }
    ensures others { Kept w.old → AllBeside (state_of w.old) (state_of w.new) slot result }
    ensures pages { Kept w.old → w.new.core.frames ≡ pages_ticked (state_of w.old) slot w.old.core.frames }
    ensures kept { Kept w.old → Kept w.new }
    ensures list { OnWaitList w.old slot → (result ≡ Pace.Wait) × (w.new ≡ w.old) }
    ensures waits { is_waiting (call_in w.old slot) ≡ true → ((result ≡ Pace.Wait) ↔ Blocked w.old slot) }
{
    if waits_on(w, slot) {
        return Pace::Wait;
    }
    go_on(w, slot)
}

/// Whether the call of a slot was found not ready, and the slot is on a wait list. Then each of its
/// ticks is `w`, and changes nothing.
#[inline]
pub fn waits_on(w: &World, slot: Slot) -> bool
    requires can { Kept w.now ⊎ OnWaitList w.now slot }
    ensures yes { IsTrue result → OnWaitList w.now slot }
    ensures no { result ≡ false → OnWaitList w.now slot → ⊥ }
{
    match w.frame(slot) {
        View::Waiting { .. } => w.is_blocked(slot),
        _ => false,
    }
}

/// A tick of a slot that is on the wait list to which it belongs, if any, and its letter. In user
/// mode an interrupt is delivered if one is deliverable, and else a unit is executed; inside a call
/// its next step is performed. Nothing is done if the slot is empty or its job is stopped (`Off`).
/// Split for its proof: `go_on_row` says what is done.
#[tactic(auto, using(crate::proofs::Groups::go_on_laws))]
fn go_on(w: &mut World, slot: Slot) -> Pace
    requires kept { Kept w.old }
    ensures state { state_of w.new ≡ (tick_of (state_of w.old) slot).state }
    ensures pace { result ≡ (tick_of (state_of w.old) slot).pace }
    ensures licensed { Licensed (plain_of w.old) slot result (plain_of w.new) }
    ensures others { AllBeside (state_of w.old) (state_of w.new) slot result }
    ensures pages { w.new.core.frames ≡ pages_ticked (state_of w.old) slot w.old.core.frames }
    ensures kept { Kept w.new }
{
    go_on_row(w, slot)
}

/// What a tick does, and its letter.
#[inline(always)]
#[tactic(auto, using(crate::proofs::Groups::go_on_row_laws))]
fn go_on_row(w: &mut World, slot: Slot) -> Pace
    requires kept { Kept w.old }
    ensures row { tick_of (state_of w.old) slot ≡ ticked (state_of w.new) result }
    ensures pages { w.new.core.frames ≡ pages_ticked (state_of w.old) slot w.old.core.frames }
    ensures tidy { Tidy w.new }
{
    let Some(job) = w.jobs.job(slot) else {
        return Pace::Off;
    };
    if job.stopped {
        return Pace::Off;
    }
    if w.has_frame(slot) {
        return in_call(w, slot);
    }
    if deliverable(job) {
        let job = *job;
        deliver_to(w, slot, job);
        return Pace::Step;
    }
    make_unit(w, slot)
}

/// As many units of a slot's job as are possible in user mode while nothing else is due, or as many
/// bytes of SIOT as can be moved, n at most; how many. The state is that of so many ticks, each
/// with the letter `*`. None is made if the slot is empty, its job is stopped or inside another
/// call, or an interrupt is deliverable in user mode.
#[tactic(auto, using(crate::proofs::Groups::steps_laws))]
pub fn steps(w: &mut World, slot: Slot, n: u32) -> u32
    requires kept { Kept w.old }
    ensures few { result ≤ n }
    ensures state { state_of w.new ≡ so_many (state_of w.old) slot result }
    ensures paces { paces_of (state_of w.old) slot result ≡ replicate result Pace.Step }
    ensures most { result < n → unit_due (state_of w.new) slot ≡ false }
    ensures most_bytes { result < n → byte_due w.new slot ≡ false }
    ensures pages { w.new.core.frames ≡ w.old.core.frames }
    ensures kept { Kept w.new }
{
    let Some(job) = w.jobs.job(slot) else {
        return 0;
    };
    if job.stopped {
        return 0;
    }
    if w.has_frame(slot) {
        return bytes(w, slot, n);
    }
    units_in_place(w, slot, n)
}

/// Whether a slot has a job that is not stopped. It disturbs nobody: nothing changes.
#[tactic(auto, using(crate::proofs::RunningLaws::job_runs, crate::proofs::RunningLaws::empty_rests, its_stepped::proofs::Running::SessionLaws::runs_plain))]
pub fn running(w: &World, slot: Slot) -> bool
    ensures raw { result ≡ runs (state_of w.now).raw slot }
    ensures plain { result ≡ runs (plain_of w.now) slot }
{
    match w.jobs.job(slot) {
        Some(job) => !job.stopped,
        None => false,
    }
}
