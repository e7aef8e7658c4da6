//! The operator's lines that change a job: GO, STOP, CONT, INT and DEPOSIT.
ghost use Rattle.std.specs.Prelude.{◌≡◌, ◌<◌, ◌^◌, Some, Err, OnOk, OnErr, IfErr};
ghost use Rattle.its_jobs.specs.Table.{job_at};
ghost use Rattle.its_plain.specs.Operator.Jobs.{on_registers, after_go, after_stop, after_cont, after_int, after_deposit};
ghost use Rattle.its_shared.specs.Refusals.{refusal_of};
ghost use Rattle.its_direct.specs.Plain.{machine_of, Tidy};
ghost use Rattle.its_records.specs.Refusals.{reason_of};
ghost use Rattle.its_direct.specs.Lines.{one_slot, Operates, Rewritten};

use crate::plain::Plain;
use its_records::{Job, Refusal};
use its_word::{FATAL, NoAccess, Slot, Word, within};

impl Plain {
    /// GO: the job of a slot runs from an address, with no flags. NoJob if the slot is empty.
    #[tactic(auto, using(crate::proofs::LineLaws::go_done, crate::proofs::LineLaws::registers_refused, crate::proofs::LineLaws::kept_placed))]
    pub fn go(&mut self, slot: Slot, a: u32) -> Result<(), Refusal>
        requires address { a < 2 ^ 18 }
        requires tidy { Tidy self.old }
        ensures done { OnOk result (Operates self.old self.new slot (on_registers (machine_of self.old) slot (after_go a))) }
        ensures refused { IfErr result (λ e. on_registers (machine_of self.old) slot (after_go a) ≡ Err (reason_of e)) }
        ensures same { OnErr result (self.new ≡ self.old) }
        ensures tidy { Tidy self.new }
    {
        let Some(job) = self.job(slot) else {
            return Err(Refusal::NoJob);
        };
        let now = started(&job, a);
        self.rewrite(slot, &job, now);
        Ok(())
    }

    /// STOP: the job of a slot is stopped. NoJob if the slot is empty.
    #[tactic(auto, using(crate::proofs::LineLaws::stop_done, crate::proofs::LineLaws::registers_refused, crate::proofs::LineLaws::kept_placed))]
    pub fn stop(&mut self, slot: Slot) -> Result<(), Refusal>
        requires tidy { Tidy self.old }
        ensures done { OnOk result (Operates self.old self.new slot (on_registers (machine_of self.old) slot after_stop)) }
        ensures refused { IfErr result (λ e. on_registers (machine_of self.old) slot after_stop ≡ Err (reason_of e)) }
        ensures same { OnErr result (self.new ≡ self.old) }
        ensures tidy { Tidy self.new }
    {
        let Some(job) = self.job(slot) else {
            return Err(Refusal::NoJob);
        };
        let now = stopped(&job);
        self.rewrite(slot, &job, now);
        Ok(())
    }

    /// CONT: the job of a slot runs, with no fatal bit pending. NoJob if the slot is empty.
    #[tactic(auto, using(crate::proofs::LineLaws::cont_done, crate::proofs::LineLaws::registers_refused, crate::proofs::LineLaws::kept_placed))]
    pub fn cont(&mut self, slot: Slot) -> Result<(), Refusal>
        requires tidy { Tidy self.old }
        ensures done { OnOk result (Operates self.old self.new slot (on_registers (machine_of self.old) slot after_cont)) }
        ensures refused { IfErr result (λ e. on_registers (machine_of self.old) slot after_cont ≡ Err (reason_of e)) }
        ensures same { OnErr result (self.new ≡ self.old) }
        ensures tidy { Tidy self.new }
    {
        let Some(job) = self.job(slot) else {
            return Err(Refusal::NoJob);
        };
        let now = continued(&job);
        self.rewrite(slot, &job, now);
        Ok(())
    }

    /// INT: bits are pending in the job of a slot, in addition to those that were. NoJob if the
    /// slot is empty.
    #[tactic(auto, using(crate::proofs::LineLaws::interrupt_done, crate::proofs::LineLaws::registers_refused, crate::proofs::LineLaws::kept_placed))]
    pub fn interrupt(&mut self, slot: Slot, v: Word, w: Word) -> Result<(), Refusal>
        requires tidy { Tidy self.old }
        ensures done { OnOk result (Operates self.old self.new slot (on_registers (machine_of self.old) slot (after_int v w))) }
        ensures refused { IfErr result (λ e. on_registers (machine_of self.old) slot (after_int v w) ≡ Err (reason_of e)) }
        ensures same { OnErr result (self.new ≡ self.old) }
        ensures tidy { Tidy self.new }
    {
        let Some(job) = self.job(slot) else {
            return Err(Refusal::NoJob);
        };
        let now = interrupted(&job, v, w);
        self.rewrite(slot, &job, now);
        Ok(())
    }

    /// DEPOSIT: stores a word of a slot. NoJob if the slot is empty; NoPage if the page is absent,
    /// ReadOnly if it is read only.
    #[tactic(auto, using(crate::proofs::Groups::deposit_laws))]
    pub fn deposit(&mut self, slot: Slot, a: u32, w: Word) -> Result<(), Refusal>
        requires address { a < 2 ^ 18 }
        requires tidy { Tidy self.old }
        ensures done { OnOk result (Operates self.old self.new slot (after_deposit (machine_of self.old) slot a w)) }
        ensures refused { IfErr result (λ e. after_deposit (machine_of self.old) slot a w ≡ Err (reason_of e)) }
        ensures same { OnErr result (self.new ≡ self.old) }
        ensures tidy { Tidy self.new }
    {
        within(slot);
        let Some(_job) = self.job(slot) else {
            return Err(Refusal::NoJob);
        };
        match self.core.put(slot, a, w) {
            Ok(()) => {
                self.touch_only(slot);
                Ok(())
            }
            Err(e) => Err(refusal(e)),
        }
    }

    /// Writes the registers of a slot's job, with the channels that it has. The slot is touched.
    #[tactic(auto, using(crate::proofs::LineLaws::rewritten, crate::proofs::LineLaws::rewritten_tidy))]
    pub(crate) fn rewrite(&mut self, slot: Slot, was: &Job, now: Job)
        requires job { job_at self.old.jobs slot ≡ Some was.now }
        requires channels { now.channels ≡ was.now.channels }
        requires pc { now.pc < 2 ^ 18 }
        requires tidy { Tidy self.old }
        ensures done { Rewritten self.old self.new slot now }
        ensures tidy { Tidy self.new }
    {
        within(slot);
        self.put_job(slot, now);
        self.touch_only(slot);
    }

    /// A slot is touched, and no other.
    pub(crate) fn touch_only(&mut self, slot: Slot)
        ensures { self.new ≡ record self.old { touched = one_slot slot } }
    {
        self.touch_none();
        self.touch(slot);
    }
}

/// Registers from which a job runs at an address, with no flags.
fn started(job: &Job, a: u32) -> Job
    ensures { result ≡ after_go a job.now }
{
    Job {
        pc: a,
        flags: 0,
        stopped: false,
        ..*job
    }
}

/// Registers with the stopped mark.
fn stopped(job: &Job) -> Job
    ensures { result ≡ after_stop job.now }
{
    Job {
        stopped: true,
        ..*job
    }
}

/// Registers without the stopped mark and without a pending fatal bit.
fn continued(job: &Job) -> Job
    ensures { result ≡ after_cont job.now }
{
    Job {
        stopped: false,
        pend1: job.pend1 & !Word::new(FATAL),
        ..*job
    }
}

/// Registers with more bits pending.
fn interrupted(job: &Job, v: Word, w: Word) -> Job
    ensures { result ≡ after_int v w job.now }
{
    Job {
        pend1: job.pend1 | v,
        pend2: job.pend2 | w,
        ..*job
    }
}

/// Why the operator cannot have a word.
fn refusal(e: NoAccess) -> Refusal
    ensures { result ≡ refusal_of e }
{
    match e {
        NoAccess::Absent => Refusal::NoPage,
        NoAccess::ReadOnly => Refusal::ReadOnly,
    }
}
