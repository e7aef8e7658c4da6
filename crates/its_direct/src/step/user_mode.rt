//! The step of a job in user mode: the delivery of an interrupt, else a unit.
ghost use Rattle.std.specs.Prelude.{◌≡◌, ◌<◌, ◌^◌, ℕ, true, false, Some, is_some, slice_set};
ghost use Rattle.its_jobs.specs.Table.{job_at, superior_at};
ghost use Rattle.its_plain.specs.Call.Step.{among, informs, informed_slots, transition};
ghost use Rattle.its_plain.specs.Machine.Change.{effects, in_job, with_inf};
ghost use Rattle.its_plain.specs.Unit.Interrupt.{deliverable};
ghost use Rattle.its_plain.specs.Machine.Registers.{with_pending};
ghost use Rattle.its_direct.specs.Plain.{machine_of, is_touched, no_slots, Tidy};
ghost use Rattle.its_direct.specs.Steps.{StepBegins, SteppedBy};

use crate::plain::Plain;
use its_ints::{deliver, deliverable};
use its_records::{Job, Site};
use its_word::{INF, Slot, Word};
use pdp_exec::site;

/// What the step of a slot's job begins with.
#[derive(Debug, PartialEq, Eq, Drop)]
pub enum Begun {
    /// There is no job, or it is stopped: it has no step.
    Still,
    /// The step was taken: a delivery, or a unit.
    Stepped,
    /// The step is that of a call of the monitor at this site, which is not decoded yet.
    Calls(Site),
}

impl Plain {
    /// Performs the step of a slot's job, if that is a delivery or a unit. If it is a call, or if
    /// there is none, nothing changes.
    #[tactic(auto, using(crate::proofs::UserLaws::absent, crate::proofs::UserLaws::stopped, crate::proofs::SlotLaws::placed_at))]
    pub fn begin(&mut self, slot: Slot) -> Begun
        requires tidy { Tidy self.old }
        ensures row { StepBegins result (transition (machine_of self.old) slot) self.old self.new slot }
        ensures tidy { Tidy self.new }
    {
        let Some(job) = self.job(slot) else {
            return Begun::Still;
        };
        if job.stopped {
            return Begun::Still;
        }
        if deliverable(&job) {
            self.deliver(slot, job);
            return Begun::Stepped;
        }
        self.make_unit(slot, job)
    }

    /// The unit of a slot's job that has these registers, unless it is a call.
    #[tactic(auto, using(crate::proofs::SeriesLaws::one_stepped, crate::proofs::SeriesLaws::none_called))]
    fn make_unit(&mut self, slot: Slot, job: Job) -> Begun
        requires job { job_at self.old.jobs slot ≡ Some job }
        requires runs { job.stopped ≡ false }
        requires quiet { deliverable job ≡ false }
        requires pc { job.pc < 2 ^ 18 }
        requires tidy { Tidy self.old }
        ensures row { StepBegins result (transition (machine_of self.old) slot) self.old self.new slot }
        ensures tidy { Tidy self.new }
    {
        if self.units(slot, job, 1) == 1 {
            Begun::Stepped
        } else {
            Begun::Calls(site(&self.core, slot, &job))
        }
    }

    /// The delivery of an interrupt to a slot's job that has these registers. If a fatal bit stops
    /// the job, INF is set in its superior, if it has one.
    fn deliver(&mut self, slot: Slot, job: Job)
        requires job { job_at self.old.jobs slot ≡ Some job }
        requires runs { job.stopped ≡ false }
        requires due { deliverable job ≡ true }
        requires tidy { Tidy self.old }
        ensures row { SteppedBy self.old self.new (transition (machine_of self.old) slot) }
        ensures tidy { Tidy self.new }
    {
        self.jobs.tree();
        let mut after = job;
        let stops = deliver(&mut self.core, slot, &mut after);
        self.put_job(slot, after);
        self.touch_none();
        if stops {
            self.inform_superior(slot);
        }
    }

    /// Sets INF in the superior of a slot's job, if it has one, which is then also touched.
    fn inform_superior(&mut self, slot: Slot)
        requires touched { self.old.touched ≡ no_slots }
        requires tidy { Tidy self.old }
        ensures row { machine_of self.new ≡ effects (informs true (superior_at self.old.jobs slot)) slot (machine_of self.old) }
        ensures touched { (k : ℕ) → is_touched self.new k ≡ among k (informed_slots true (superior_at self.old.jobs slot)) }
        ensures place { self.new.place ≡ self.old.place }
        ensures tidy { Tidy self.new }
    {
        if let Some(superior) = self.jobs.superior(slot) {
            self.inform(superior);
        }
    }

    /// Sets INF in a slot's job.
    fn inform(&mut self, slot: Slot)
        requires job { is_some (job_at self.old.jobs slot) ≡ true }
        requires tidy { Tidy self.old }
        ensures row { machine_of self.new ≡ in_job (machine_of self.old) slot with_inf }
        ensures touched { self.new.touched ≡ slice_set self.old.touched slot true }
        ensures place { self.new.place ≡ self.old.place }
        ensures tidy { Tidy self.new }
    {
        if let Some(job) = self.job(slot) {
            self.put_job(slot, with_bits(job, INF as u32));
            self.touch(slot);
        }
    }
}

/// Registers with more bits of pending word 1 set.
pub(crate) fn with_bits(job: Job, bits: u32) -> Job
    ensures { result ≡ with_pending job bits }
{
    Job {
        pend1: job.pend1 | Word::new(u64::from(bits)),
        ..job
    }
}
