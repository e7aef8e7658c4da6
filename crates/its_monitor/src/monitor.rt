//! The monitor: how it is opened, its ticks, and who waits.
ghost use Rattle.std.specs.Prelude.{◌≡◌, ◌<◌, ◌≤◌, ◌⊎◌, ◌↔◌, ℕ, IsTrue, true, false, replicate, IfOk};
ghost use Rattle.its_core.specs.Cores.{IsEmpty};
ghost use Rattle.its_plain.specs.Machine.{no_machine};
ghost use Rattle.its_plain.specs.Promise.OneByte.{EachByte};
ghost use Rattle.its_plain.specs.Transcript.Turns.{runs};
ghost use Rattle.its_plain.specs.Transcript.Licence.{Licensed};
ghost use Rattle.its_stepped.specs.State.{plain, no_state};
ghost use Rattle.its_stepped.specs.Tick.{tick};
ghost use Rattle.its_stepped.specs.Lines.{paces_of, after_ticks};
ghost use Rattle.its_world.specs.Filed.{Blocked};
ghost use Rattle.its_world.specs.World.{state_of, call_in, plain_of};
ghost use Rattle.its_tick.specs.Kept.{Kept};
ghost use Rattle.its_tick.specs.Beside.{AllBeside};
ghost use Rattle.its_tick.specs.Bytes.{byte_due};
ghost use Rattle.its_tick.specs.Pages.{pages_ticked};
ghost use Rattle.its_tick.specs.Ticks.{OnWaitList, is_waiting, unit_due};

use its_records::Pace;
use its_robin::Circle;
use its_word::{NoMemory, Slot};
use its_world::World;
use std::alloc::Global;

/// The monitor: one world, with its jobs and cores, calls in progress, consoles, files and drafts,
/// and the clock.
#[derive(Drop)]
pub struct Monitor {
    pub world: World,
}

impl Monitor {
    /// The monitor at the start of a session: no slot has a job, and no page is in use. Takes all
    /// the memory that it needs.
    #[tactic(auto, using(crate::proofs::StartLaws::open_state, crate::proofs::StartLaws::open_kept))]
    pub fn open(alloc: Global) -> Result<Monitor, NoMemory>
        ensures state { IfOk result (λ m. state_of m.world ≡ no_state no_machine) }
        ensures pages { IfOk result (λ m. IsEmpty m.world.core) }
        ensures kept { IfOk result (λ m. Kept m.world) }
    {
        let world = World::open(alloc)?;
        Ok(Monitor { world })
    }

    /// A tick of a slot, and its letter. If the call of the slot was found not ready it is `w`
    /// exactly if the slot is on a wait list. It may also be called if the slot is there wrongly:
    /// then it is `w`, and nothing changes.
    #[tactic(auto, using(crate::proofs::OneByteLaws::tick_once))]
    pub fn tick(&mut self, slot: Slot) -> Pace
        requires can { Kept self.old.world ⊎ OnWaitList self.old.world slot }
        ensures state { Kept self.old.world → state_of self.new.world ≡ (tick (state_of self.old.world) slot).state }
        ensures pace { Kept self.old.world → result ≡ (tick (state_of self.old.world) slot).pace }
        ensures licensed { Kept self.old.world → Licensed (plain_of self.old.world) slot result (plain_of self.new.world) }
        ensures once { Kept self.old.world → result ≡ Pace.Step → EachByte (plain_of self.old.world) slot (plain_of self.new.world) }
        ensures others { Kept self.old.world → AllBeside (state_of self.old.world) (state_of self.new.world) slot result }
        ensures pages { Kept self.old.world → self.new.world.core.frames ≡ pages_ticked (state_of self.old.world) slot self.old.world.core.frames }
        ensures kept { Kept self.old.world → Kept self.new.world }
        ensures list { OnWaitList self.old.world slot → (result ≡ Pace.Wait) × (self.new.world ≡ self.old.world) }
        ensures waits { is_waiting (call_in self.old.world slot) ≡ true → ((result ≡ Pace.Wait) ↔ Blocked self.old.world slot) }
    {
        its_tick::tick(&mut self.world, slot)
    }

    /// As many units of a slot's job as can be made in user mode while nothing else is due, or as
    /// many bytes as can be moved by SIOT, n at most; how many. The state is that of so many ticks,
    /// each letter `*`.
    pub fn steps(&mut self, slot: Slot, n: u32) -> u32
        requires kept { Kept self.old.world }
        ensures few { result ≤ n }
        ensures state { state_of self.new.world ≡ after_ticks (state_of self.old.world) slot result }
        ensures paces { paces_of (state_of self.old.world) slot result ≡ replicate result Pace.Step }
        ensures most { result < n → unit_due (state_of self.new.world) slot ≡ false }
        ensures most_bytes { result < n → byte_due self.new.world slot ≡ false }
        ensures pages { self.new.world.core.frames ≡ self.old.world.core.frames }
        ensures kept { Kept self.new.world }
    {
        its_tick::steps(&mut self.world, slot, n)
    }

    /// Whether the call of a slot was found not ready, and the slot is on a wait list. Then each of
    /// its ticks is `w`, and none changes anything.
    #[inline]
    pub fn waits(&self, slot: Slot) -> bool
        requires kept { Kept self.now.world }
        ensures paces { IsTrue result → (n : ℕ) → paces_of (state_of self.now.world) slot n ≡ replicate n Pace.Wait }
        ensures state { IsTrue result → (n : ℕ) → after_ticks (state_of self.now.world) slot n ≡ state_of self.now.world }
        ensures no { result ≡ false → OnWaitList self.now.world slot → ⊥ }
    {
        its_tick::waits_on(&self.world, slot)
    }
}

impl Circle for Monitor {
    ghost who_runs = { λ m. runs (state_of m.world).raw };

    /// Whether a slot has a job that is not stopped. It disturbs nobody: nothing changes.
    fn running(&self, slot: Slot) -> bool
        ensures runs { result ≡ runs (state_of self.now.world).raw slot }
        ensures plain { result ≡ runs (plain_of self.now.world) slot }
    {
        its_tick::running(&self.world, slot)
    }
}
