//! Units of one job on its core and its registers, which are changed in place.
ghost use Rattle.std.specs.Prelude.{◌≡◌, ◌≢◌, ◌<◌, ◌≤◌, ◌^◌, ℕ, true, false, IfSome, is_some};
ghost use Rattle.its_jobs.specs.Table.{job_at};
ghost use Rattle.its_direct.specs.InPlace.{UnitsIn};
ghost use Rattle.its_direct.specs.Plain.{machine_of, is_touched, Tidy};
ghost use Rattle.its_direct.specs.Series.{Series, unit_due};

use crate::plain::Plain;
use its_word::Slot;
use pdp_exec::run_units;

impl Plain {
    /// Executes units of a job that runs, n at most, until an interrupt is deliverable or the next
    /// unit is a call. Says how many it executed, and if any, marks that they touched nobody.
    pub(crate) fn units_made(&mut self, slot: Slot, n: u32) -> u32
        requires job { is_some (job_at self.old.jobs slot) ≡ true }
        requires runs { IfSome (job_at self.old.jobs slot) (λ j. j.stopped ≡ false) }
        requires tidy { Tidy self.old }
        ensures few { result ≤ n }
        ensures most { result < n → unit_due (machine_of self.new) slot ≡ false }
        ensures series { Series result (machine_of self.old) slot (machine_of self.new) }
        ensures jobs { (k : ℕ) → is_some ((machine_of self.new).jobs k) ≡ is_some ((machine_of self.old).jobs k) }
        ensures touched { result ≢ 0 → (k : ℕ) → is_touched self.new k ≡ false }
        ensures same { result ≡ 0 → self.new ≡ self.old }
        ensures place { self.new.place ≡ self.old.place }
        ensures tidy { Tidy self.new }
    {
        let made = self.units_in_place(slot, n);
        if made == 0 {
            return 0;
        }
        self.touch_none();
        made
    }

    /// The loop of `units_made`, on the core and the registers of the job; marks are unchanged.
    fn units_in_place(&mut self, slot: Slot, n: u32) -> u32
        requires job { is_some (job_at self.old.jobs slot) ≡ true }
        requires pc { IfSome (job_at self.old.jobs slot) (λ j. j.pc < 2 ^ 18) }
        ensures few { result ≤ n }
        ensures made { UnitsIn self.old self.new slot result n }
        ensures same { result ≡ 0 → self.new ≡ self.old }
    {
        match self.jobs.job_mut(slot) {
            Some(job) => run_units(&mut self.core, slot, job, n),
            None => unreachable!(),
        }
    }
}
