//! What an operator does with a job's registers: GO, STOP, CONT, INT and STATE.
ghost use Rattle.std.specs.Prelude.{◌≡◌, ◌<◌, ◌^◌, true, false, Some, None, Ok, IfOk, OnOk, OnErr, IfErr};
ghost use Rattle.its_jobs.specs.Table.{job_at};
ghost use Rattle.its_plain.specs.Operator.Jobs.{on_registers, after_go, after_stop, after_cont, after_int, state_shown, shown};
ghost use Rattle.its_stepped.specs.State.{plain};
ghost use Rattle.its_stepped.specs.Unwind.{unwound};
ghost use Rattle.its_world.specs.World.{state_of, plain_of};
ghost use Rattle.its_pclsr.specs.Apart.{CoresOff};
ghost use Rattle.its_monitor.specs.Kept.{Kept, Lands, Refused, Calm};

use super::monitor::Monitor;
use super::symbols::near;
use its_pclsr::unwind;
use its_records::{Job, JobShow, Refusal};
use its_shared::shown;
use its_word::{FATAL, Slot, Word};
use its_world::World;

impl Monitor {
    /// GO: starts a slot's job at an address, with no flags. NoJob if the slot is empty.
    #[tactic(auto, using(crate::proofs::Groups::go_laws))]
    pub fn go(&mut self, slot: Slot, a: u32) -> Result<(), Refusal>
        requires address { a < 2 ^ 18 }
        requires kept { Kept self.old.world }
        ensures done { OnOk result (Lands (unwound (state_of self.old.world) slot) (state_of self.new.world) (on_registers (unwound (state_of self.old.world) slot).raw slot (after_go a))) }
        ensures plain { OnOk result (on_registers (plain_of self.old.world) slot (after_go a) ≡ Ok (plain_of self.new.world)) }
        ensures refused { IfErr result (λ e. Refused (state_of self.old.world) (unwound (state_of self.old.world) slot) (λ m. on_registers m slot (after_go a)) e) }
        ensures same { OnErr result (self.new ≡ self.old) }
        ensures cores { OnOk result (CoresOff self.old.world self.new.world slot) }
        ensures kept { Kept self.new.world }
    {
        let world = &mut self.world;
        let mut job = calmed(world, slot)?;
        job.pc = a;
        job.flags = 0;
        job.stopped = false;
        world.put_registers(slot, job);
        Ok(())
    }

    /// STOP: sets the stopped mark of a slot's job. NoJob if the slot is empty.
    #[tactic(auto, using(crate::proofs::Groups::stop_laws))]
    pub fn stop(&mut self, slot: Slot) -> Result<(), Refusal>
        requires kept { Kept self.old.world }
        ensures done { OnOk result (Lands (unwound (state_of self.old.world) slot) (state_of self.new.world) (on_registers (unwound (state_of self.old.world) slot).raw slot after_stop)) }
        ensures plain { OnOk result (on_registers (plain_of self.old.world) slot after_stop ≡ Ok (plain_of self.new.world)) }
        ensures refused { IfErr result (λ e. Refused (state_of self.old.world) (unwound (state_of self.old.world) slot) (λ m. on_registers m slot after_stop) e) }
        ensures same { OnErr result (self.new ≡ self.old) }
        ensures cores { OnOk result (CoresOff self.old.world self.new.world slot) }
        ensures kept { Kept self.new.world }
    {
        let world = &mut self.world;
        let mut job = calmed(world, slot)?;
        job.stopped = true;
        world.put_registers(slot, job);
        Ok(())
    }

    /// CONT: lets a slot's job run, with no fatal bit pending. NoJob if the slot is empty.
    #[tactic(auto, using(crate::proofs::Groups::cont_laws))]
    pub fn cont(&mut self, slot: Slot) -> Result<(), Refusal>
        requires kept { Kept self.old.world }
        ensures done { OnOk result (Lands (unwound (state_of self.old.world) slot) (state_of self.new.world) (on_registers (unwound (state_of self.old.world) slot).raw slot after_cont)) }
        ensures plain { OnOk result (on_registers (plain_of self.old.world) slot after_cont ≡ Ok (plain_of self.new.world)) }
        ensures refused { IfErr result (λ e. Refused (state_of self.old.world) (unwound (state_of self.old.world) slot) (λ m. on_registers m slot after_cont) e) }
        ensures same { OnErr result (self.new ≡ self.old) }
        ensures cores { OnOk result (CoresOff self.old.world self.new.world slot) }
        ensures kept { Kept self.new.world }
    {
        let world = &mut self.world;
        let job = calmed(world, slot)?;
        world.put_registers(slot, continued(job));
        Ok(())
    }

    /// INT: sets bits of the pending words of a slot's job in addition to those that are set. NoJob
    /// if the slot is empty.
    #[tactic(auto, using(crate::proofs::Groups::interrupt_laws))]
    pub fn interrupt(&mut self, slot: Slot, v: Word, w: Word) -> Result<(), Refusal>
        requires kept { Kept self.old.world }
        ensures done { OnOk result (Lands (unwound (state_of self.old.world) slot) (state_of self.new.world) (on_registers (unwound (state_of self.old.world) slot).raw slot (after_int v w))) }
        ensures plain { OnOk result (on_registers (plain_of self.old.world) slot (after_int v w) ≡ Ok (plain_of self.new.world)) }
        ensures refused { IfErr result (λ e. Refused (state_of self.old.world) (unwound (state_of self.old.world) slot) (λ m. on_registers m slot (after_int v w)) e) }
        ensures same { OnErr result (self.new ≡ self.old) }
        ensures cores { OnOk result (CoresOff self.old.world self.new.world slot) }
        ensures kept { Kept self.new.world }
    {
        let world = &mut self.world;
        let job = calmed(world, slot)?;
        world.put_registers(slot, interrupted(job, v, w));
        Ok(())
    }

    /// STATE: what is shown of a slot's job. NoJob if the slot is empty.
    #[tactic(auto, using(crate::proofs::Groups::state_laws))]
    pub fn state(&mut self, slot: Slot) -> Result<JobShow, Refusal>
        requires kept { Kept self.old.world }
        ensures shown { IfOk result (λ x. state_shown (unwound (state_of self.old.world) slot).raw slot ≡ Ok x) }
        ensures plain { IfOk result (λ x. state_shown (plain_of self.old.world) slot ≡ Ok x) }
        ensures unwinds { OnOk result (state_of self.new.world ≡ unwound (state_of self.old.world) slot) }
        ensures leaves { plain_of self.new.world ≡ plain_of self.old.world }
        ensures refused { IfErr result (λ e. Refused (state_of self.old.world) (unwound (state_of self.old.world) slot) (λ m. state_shown m slot) e) }
        ensures same { OnErr result (self.new ≡ self.old) }
        ensures cores { OnOk result (CoresOff self.old.world self.new.world slot) }
        ensures kept { Kept self.new.world }
    {
        let world = &mut self.world;
        let job = calmed(world, slot)?;
        let superior = world.jobs.superior(slot);
        let symbol = near(world, slot, job.pc);
        Ok(shown(&job, superior, symbol))
    }
}

/// The registers of a slot's job, which is unwound first. NoJob if the slot is empty.
#[tactic(auto, using(crate::proofs::KeptLaws::unwound_kept, crate::proofs::KeptLaws::unwound_missing))]
pub fn calmed(w: &mut World, slot: Slot) -> Result<Job, Refusal>
    requires kept { Kept w.old }
    ensures calm { IfOk result (λ j. Calm w.old w.new slot j) }
    ensures job { IfOk result (λ j. job_at w.new.jobs slot ≡ Some j) }
    ensures refused { IfErr result (λ e. (e ≡ Refusal.NoJob) × (job_at w.old.jobs slot ≡ None)) }
    ensures same { OnErr result (w.new ≡ w.old) }
{
    if w.registers(slot).is_none() {
        return Err(Refusal::NoJob);
    }
    unwind(w, slot);
    match w.registers(slot) {
        Some(job) => Ok(job),
        None => unreachable!(),
    }
}

/// A job that runs, with no fatal bit pending.
fn continued(job: Job) -> Job
    ensures { result ≡ after_cont job }
{
    Job {
        stopped: false,
        pend1: job.pend1 & !Word::new(FATAL),
        ..job
    }
}

/// A job with more bits pending.
fn interrupted(job: Job, v: Word, x: Word) -> Job
    ensures { result ≡ after_int v x job }
{
    Job {
        pend1: job.pend1 | v,
        pend2: job.pend2 | x,
        ..job
    }
}
