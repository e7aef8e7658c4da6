//! Units of one job, one after another.
ghost use Rattle.std.specs.Prelude.{◌≡◌, ◌≢◌, ◌<◌, ◌≤◌, ◌^◌, ℕ, true, false, Some, None, if◌then◌else◌};
ghost use Rattle.its_core.specs.Cores.{core_at};
ghost use Rattle.its_plain.specs.Unit.{unit as unit_of};
ghost use Rattle.pdp_exec.specs.Units.{after_outcome, after_unit, after_units, left};

use super::units::{Ended, run};
use its_core::Core;
use its_ints::deliverable;
use its_records::Job;
use its_word::{Slot, Word};

/// Executes up to n units of a slot's job on its core and its registers in place, as long as no
/// interrupt is deliverable and none is a call; how many were executed. It is not inlined: its loop
/// is the one place in which every unit is.
#[inline(never)]
#[tactic(auto, using(crate::proofs::SeriesLaws::units_start, crate::proofs::SeriesLaws::none_left))]
pub fn run_units(core: &mut Core, slot: Slot, job: &mut Job, n: u32) -> u32
    requires pc { job.old.pc < 2 ^ 18 }
    ensures few { result ≤ n }
    ensures same { result ≡ 0 → (core.new ≡ core.old) × (job.new ≡ job.old) }
    ensures left { after_units result (Some (left (core_at core.old slot) job.old)) ≡ Some (left (core_at core.new slot) job.new) }
    ensures most { result < n → after_unit (Some (left (core_at core.new slot) job.new)) ≡ None }
    ensures others { (k : ℕ) → k ≢ slot → core_at core.new k ≡ core_at core.old k }
    ensures reserved { core.new.reserved ≡ core.old.reserved }
    ensures frames { core.new.frames ≡ core.old.frames }
    ensures pc { job.new.pc < 2 ^ 18 }
{
    for made in 0..n {
        if !run_next(core, slot, job) {
            return made;
        }
    }
    n
}

/// Runs the unit of a job, unless an interrupt is deliverable or it is a call (false).
#[inline(always)]
#[tactic(auto, using(crate::proofs::SeriesLaws::none_due, crate::proofs::SeriesLaws::unit_made))]
fn run_next(core: &mut Core, slot: Slot, job: &mut Job) -> bool
    requires pc { job.old.pc < 2 ^ 18 }
    ensures left { after_unit (Some (left (core_at core.old slot) job.old)) ≡ (if result then Some (left (core_at core.new slot) job.new) else None) }
    ensures others { (k : ℕ) → k ≢ slot → core_at core.new k ≡ core_at core.old k }
    ensures reserved { core.new.reserved ≡ core.old.reserved }
    ensures frames { core.new.frames ≡ core.old.frames }
    ensures same { result ≡ false → (core.new ≡ core.old) × (job.new ≡ job.old) }
    ensures pc { job.new.pc < 2 ^ 18 }
{
    if deliverable(job) {
        return false;
    }
    run_unit(core, slot, job)
}

/// Runs the unit of a job on its core and its registers. A fault sets its bit; a call is not made
/// (false).
#[inline(always)]
fn run_unit(core: &mut Core, slot: Slot, job: &mut Job) -> bool
    requires pc { job.old.pc < 2 ^ 18 }
    ensures left { after_outcome (unit_of (core_at core.old slot) job.old) (core_at core.old slot) job.old ≡ (if result then Some (left (core_at core.new slot) job.new) else None) }
    ensures others { (k : ℕ) → k ≢ slot → core_at core.new k ≡ core_at core.old k }
    ensures reserved { core.new.reserved ≡ core.old.reserved }
    ensures frames { core.new.frames ≡ core.old.frames }
    ensures same { result ≡ false → (core.new ≡ core.old) × (job.new ≡ job.old) }
    ensures pc { job.new.pc < 2 ^ 18 }
{
    match run(core, slot, job) {
        Ended::Done => true,
        Ended::Fault(bit) => {
            job.pend1 = job.pend1 | Word::new(u64::from(bit));
            true
        }
        Ended::Call => false,
    }
}
