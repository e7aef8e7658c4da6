//! Units of one job, one after another.
ghost use Rattle.std.specs.Prelude.{◌≡◌, ◌≢◌, ◌<◌, ◌≤◌, ◌^◌, ℕ, false, Some, None, is_some};
ghost use Rattle.its_core.specs.Cores.{core_at};
ghost use Rattle.its_jobs.specs.Table.{job_at};
ghost use Rattle.pdp_exec.specs.Units.{after_unit, left};
ghost use Rattle.its_direct.specs.Plain.{machine_of, is_touched, Tidy};
ghost use Rattle.its_direct.specs.Events.{Kept};
ghost use Rattle.its_direct.specs.Series.{Series, unit_due};

use crate::plain::{Plain, Spot};
use its_records::Job;
use its_word::Slot;
use pdp_exec::run_units;

impl Plain {
    /// Executes units of a slot's job, n at most, as long as no interrupt is deliverable and none
    /// is a call, and gives their number. Each is a step of the job alone, and if they are fewer
    /// than n, no other is due. None is executed if the slot is empty or its job is stopped; then
    /// nothing changes. No block of lines may be open.
    #[tactic(auto, using(crate::proofs::Groups::steps_laws))]
    pub fn steps(&mut self, slot: Slot, n: u32) -> u32
        requires outside { self.old.place ≡ Spot.Plain }
        requires kept { Kept self.old }
        ensures few { result ≤ n }
        ensures most { result < n → unit_due (machine_of self.new) slot ≡ false }
        ensures series { Series result (machine_of self.old) slot (machine_of self.new) }
        ensures jobs { (k : ℕ) → is_some ((machine_of self.new).jobs k) ≡ is_some ((machine_of self.old).jobs k) }
        ensures touched { result ≢ 0 → (k : ℕ) → is_touched self.new k ≡ false }
        ensures same { result ≡ 0 → self.new ≡ self.old }
        ensures place { self.new.place ≡ self.old.place }
        ensures kept { Kept self.new }
    {
        let Some(job) = self.jobs.job(slot) else {
            return 0;
        };
        if job.stopped {
            return 0;
        }
        self.units_made(slot, n)
    }

    /// Executes up to n units of the running job of a slot, whose registers these are, as long as
    /// no interrupt is deliverable and none is a call; how many were executed. If none was, nothing
    /// changes.
    pub(crate) fn units(&mut self, slot: Slot, job: Job, n: u32) -> u32
        requires job { job_at self.old.jobs slot ≡ Some job }
        requires runs { job.stopped ≡ false }
        requires pc { job.pc < 2 ^ 18 }
        requires tidy { Tidy self.old }
        ensures few { result ≤ n }
        ensures most { result < n → unit_due (machine_of self.new) slot ≡ false }
        ensures series { Series result (machine_of self.old) slot (machine_of self.new) }
        ensures jobs { (k : ℕ) → is_some ((machine_of self.new).jobs k) ≡ is_some ((machine_of self.old).jobs k) }
        ensures touched { result ≢ 0 → (k : ℕ) → is_touched self.new k ≡ false }
        ensures same { result ≡ 0 → self.new ≡ self.old }
        ensures first { result ≡ 0 → 0 < n → after_unit (Some (left (core_at self.old.core slot) job)) ≡ None }
        ensures place { self.new.place ≡ self.old.place }
        ensures tidy { Tidy self.new }
    {
        let mut after = job;
        let made = run_units(&mut self.core, slot, &mut after, n);
        if made == 0 {
            return 0;
        }
        self.put_job(slot, after);
        self.touch_none();
        made
    }
}
