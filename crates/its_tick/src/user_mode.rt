//! Ticks of a job in user mode.
ghost use Rattle.std.specs.Prelude.{◌≡◌, ◌≢◌, ◌<◌, ◌≤◌, ◌^◌, ℕ, true, false, Some, None, IfSome, is_some, if◌then◌else◌};
ghost use Rattle.its_core.specs.Cores.{core_at};
ghost use Rattle.its_jobs.specs.Table.{job_at, superior_at};
ghost use Rattle.its_world.specs.Tidy.{Tidy};
ghost use Rattle.its_plain.specs.Call.Step.{informs, informed_slots};
ghost use Rattle.its_plain.specs.Unit.Interrupt.{deliverable, delivered};
ghost use Rattle.its_plain.specs.Unit.{Called, unit as unit_of};
ghost use Rattle.its_stepped.specs.Commit.{effects_on};
ghost use Rattle.its_stepped.specs.Sound.{Sound};
ghost use Rattle.its_stepped.specs.Tick.{after_delivery, unit_on};
ghost use Rattle.its_stepped.specs.Unwind.{all_unwound};
ghost use Rattle.its_world.specs.World.{state_of, CoreBecomes, JobBecomes, call_in, raw_in};
ghost use Rattle.its_tick.specs.Kept.{Kept};
ghost use Rattle.its_pclsr.specs.Pages.{pages_unwound};
ghost use Rattle.pdp_exec.specs.Answer.{IsCalled};
ghost use Rattle.pdp_exec.specs.Near.{near_call, near_site};
ghost use Rattle.its_tick.specs.Ticks.{ticked, with_channels, UnitIn, UnitsMade};

use super::reach::calm;
use its_commit::apply;
use its_core::Core;
use its_frame::Change;
use its_ints::{deliver, deliverable};
use its_records::{Job, Pace, Site};
use its_word::Slot;
use its_world::World;
use pdp_exec::{Near, call_at_hand, run_units, site};

/// The delivery of an interrupt to a slot's job with these registers.
#[inline(never)]
pub fn deliver_to(w: &mut World, slot: Slot, job: Job)
    requires kept { Kept w.old }
    requires job { job_at w.old.jobs slot ≡ Some job }
    requires frame { call_in w.old slot ≡ None }
    requires deliverable { deliverable job ≡ true }
    ensures row { IfSome (raw_in w.old slot) (λ q. state_of w.new ≡ after_delivery (state_of w.old) slot q (delivered q.core q.job)) }
    ensures pages { IfSome (raw_in w.old slot) (λ q. w.new.core.frames ≡ pages_unwound (informed_slots (delivered q.core q.job).stops q.superior) (state_of w.old) w.old.core.frames) }
    ensures tidy { Tidy w.new }
{
    let mut after = job;
    if run_delivery(w, slot, &mut after) {
        tell_superior(w, slot);
    }
    put_back(w, slot, after);
}

/// Delivers on the core of a slot; says whether a fatal bit stopped the job.
fn run_delivery(w: &mut World, slot: Slot, job: &mut Job) -> bool
    requires some { is_some (job_at w.old.jobs slot) ≡ true }
    requires deliverable { deliverable job.old ≡ true }
    requires tidy { Tidy w.old }
    ensures core { CoreBecomes w.old w.new slot (delivered (core_at w.old.core slot) job.old).core }
    ensures job { job.new ≡ (delivered (core_at w.old.core slot) job.old).job }
    ensures stops { result ≡ (delivered (core_at w.old.core slot) job.old).stops }
    ensures tidy { Tidy w.new }
{
    deliver(&mut w.core, slot, job)
}

/// Writes the registers of a slot's job except its channels.
#[tactic(auto, using(its_commit::proofs::TidyLaws::becomes_pages, crate::proofs::UserLaws::written_back))]
fn put_back(w: &mut World, slot: Slot, job: Job)
    requires some { is_some (job_at w.old.jobs slot) ≡ true }
    requires tidy { Tidy w.old }
    ensures registers { IfSome (job_at w.old.jobs slot) (λ j. JobBecomes w.old w.new slot (with_channels j.channels job)) }
    ensures pages { w.new.core.frames ≡ w.old.core.frames }
    ensures tidy { Tidy w.new }
{
    if let Some(now) = w.registers(slot) {
        w.put_registers(slot, with_channels(now, job));
    }
}

/// Registers with the channels of others.
fn with_channels(now: Job, job: Job) -> Job
    ensures { result ≡ with_channels now.channels job }
{
    Job {
        pc: job.pc,
        flags: job.flags,
        stopped: job.stopped,
        pend1: job.pend1,
        pend2: job.pend2,
        mask1: job.mask1,
        mask2: job.mask2,
        defer1: job.defer1,
        defer2: job.defer2,
        uname: job.uname,
        jname: job.jname,
        console: job.console,
        ..now
    }
}

/// Sets INF in the superior of a slot's job, if it has one. It is unwound first.
#[tactic(auto, using(crate::proofs::FramesLaws::superior_frames, crate::proofs::FramesLaws::nobody_frames, crate::proofs::UserLaws::superior_told, crate::proofs::UserLaws::nobody_told))]
fn tell_superior(w: &mut World, slot: Slot)
    requires sound { Sound (state_of w.old) }
    requires tidy { Tidy w.old }
    ensures row { state_of w.new ≡ effects_on (informs true (superior_at w.old.jobs slot)) slot (all_unwound (informed_slots true (superior_at w.old.jobs slot)) (state_of w.old)) }
    ensures pages { w.new.core.frames ≡ pages_unwound (informed_slots true (superior_at w.old.jobs slot)) (state_of w.old) w.old.core.frames }
    ensures tidy { Tidy w.new }
{
    if let Some(superior) = w.jobs.superior(slot) {
        calm(w, superior);
        let number = superior.number();
        apply(w, slot, &[Change::Inform { slot: number }]);
    }
}

/// The unit of a slot's job. If it is a call of the monitor, the job enters it. Split for its
/// proof: `make_unit_row` says what is done.
#[tactic(auto, using(crate::proofs::UserLaws::user_addressed, crate::proofs::UserLaws::unit_row))]
pub fn make_unit(w: &mut World, slot: Slot) -> Pace
    requires kept { Kept w.old }
    requires job { is_some (job_at w.old.jobs slot) ≡ true }
    requires frame { call_in w.old slot ≡ None }
    requires quiet { IfSome (job_at w.old.jobs slot) (λ j. deliverable j ≡ false) }
    ensures row { IfSome (raw_in w.old slot) (λ q. unit_on (state_of w.old) slot (unit_of q.core q.job) ≡ ticked (state_of w.new) result) }
    ensures pages { w.new.core.frames ≡ w.old.core.frames }
    ensures tidy { Tidy w.new }
{
    match near_call(w, slot) {
        Some(call) => {
            enter_near(w, slot, call);
            Pace::Work
        }
        None => make_unit_row(w, slot),
    }
}

/// The unit of a slot's job, as one row: it is executed, or the job enters its call.
#[tactic(auto, using(crate::proofs::UserLaws::user_addressed, crate::proofs::UserLaws::unit_row))]
fn make_unit_row(w: &mut World, slot: Slot) -> Pace
    requires kept { Kept w.old }
    requires job { is_some (job_at w.old.jobs slot) ≡ true }
    requires frame { call_in w.old slot ≡ None }
    requires quiet { IfSome (job_at w.old.jobs slot) (λ j. deliverable j ≡ false) }
    ensures row { IfSome (raw_in w.old slot) (λ q. unit_on (state_of w.old) slot (unit_of q.core q.job) ≡ ticked (state_of w.new) result) }
    ensures pages { w.new.core.frames ≡ w.old.core.frames }
    ensures tidy { Tidy w.new }
{
    if unit_in_place(w, slot) {
        Pace::Step
    } else {
        enter(w, slot);
        Pace::Work
    }
}

/// The call at the PC of a slot's job, if the word there is `.IOT` or `.CALL` with neither I nor X;
/// then no other word is read on the way.
fn near_call(w: &World, slot: Slot) -> Option<Near>
    requires job { is_some (job_at w.now.jobs slot) ≡ true }
    requires pc { IfSome (job_at w.now.jobs slot) (λ j. j.pc < 2 ^ 18) }
    ensures near { IfSome (job_at w.now.jobs slot) (λ j. result ≡ near_call (core_at w.now.core slot) j.pc) }
    ensures call { IfSome result (λ n. IfSome (job_at w.now.jobs slot) (λ j. unit_of (core_at w.now.core slot) j ≡ Called (near_site j.pc n))) }
{
    match w.jobs.job(slot) {
        Some(job) => call_at_hand(&w.core, slot, job),
        None => unreachable!(),
    }
}

/// The job of a slot enters the monitor at a call at its PC.
#[tactic(auto, using(its_commit::proofs::TidyLaws::becomes_pages))]
fn enter_near(w: &mut World, slot: Slot, call: Near)
    requires job { is_some (job_at w.old.jobs slot) ≡ true }
    requires called { IfSome (job_at w.old.jobs slot) (λ j. unit_of (core_at w.old.core slot) j ≡ Called (near_site j.pc call)) }
    requires tidy { Tidy w.old }
    ensures row { IfSome (raw_in w.old slot) (λ q. unit_on (state_of w.old) slot (unit_of q.core q.job) ≡ ticked (state_of w.new) Pace.Work) }
    ensures pages { w.new.core.frames ≡ w.old.core.frames }
    ensures tidy { Tidy w.new }
{
    let pc = pc_of(w, slot);
    w.enter_near(slot, pc, call.e, call.channel);
}

/// The PC of a slot's job.
fn pc_of(w: &World, slot: Slot) -> u32
    requires { is_some (job_at w.now.jobs slot) ≡ true }
    ensures { IfSome (job_at w.now.jobs slot) (λ j. result ≡ j.pc) }
{
    match w.jobs.job(slot) {
        Some(job) => job.pc,
        None => unreachable!(),
    }
}

/// Runs the unit of a slot's job on its core and its registers in place. A call is not made
/// (false).
fn unit_in_place(w: &mut World, slot: Slot) -> bool
    requires job { is_some (job_at w.old.jobs slot) ≡ true }
    requires frame { call_in w.old slot ≡ None }
    requires pc { IfSome (job_at w.old.jobs slot) (λ j. j.pc < 2 ^ 18) }
    requires quiet { IfSome (job_at w.old.jobs slot) (λ j. deliverable j ≡ false) }
    ensures { UnitIn w.old w.new slot (λ j. unit_of (core_at w.old.core slot) j) result }
{
    units_in_place(w, slot, 1) == 1
}

/// Makes up to n units of a slot's job on its core and its registers in place, as long as no
/// interrupt is deliverable and none is a call; how many were made.
pub fn units_in_place(w: &mut World, slot: Slot, n: u32) -> u32
    requires job { is_some (job_at w.old.jobs slot) ≡ true }
    requires frame { call_in w.old slot ≡ None }
    requires pc { IfSome (job_at w.old.jobs slot) (λ j. j.pc < 2 ^ 18) }
    ensures few { result ≤ n }
    ensures made { UnitsMade w.old w.new slot result n }
    ensures same { result ≡ 0 → w.new ≡ w.old }
{
    match w.jobs.job_mut(slot) {
        Some(job) => run_units(&mut w.core, slot, job, n),
        None => unreachable!(),
    }
}

/// The job of a slot enters the monitor.
#[inline(never)]
#[tactic(auto, using(its_commit::proofs::TidyLaws::becomes_pages))]
fn enter(w: &mut World, slot: Slot)
    requires job { is_some (job_at w.old.jobs slot) ≡ true }
    requires pc { IfSome (job_at w.old.jobs slot) (λ j. j.pc < 2 ^ 18) }
    requires called { IfSome (job_at w.old.jobs slot) (λ j. IsCalled (unit_of (core_at w.old.core slot) j)) }
    requires tidy { Tidy w.old }
    ensures row { IfSome (raw_in w.old slot) (λ q. unit_on (state_of w.old) slot (unit_of q.core q.job) ≡ ticked (state_of w.new) Pace.Work) }
    ensures pages { w.new.core.frames ≡ w.old.core.frames }
    ensures tidy { Tidy w.new }
{
    let site = site_of(w, slot);
    w.enter(slot, site);
}

/// The place at which the job of a slot calls the monitor.
fn site_of(w: &World, slot: Slot) -> Site
    requires job { is_some (job_at w.now.jobs slot) ≡ true }
    requires pc { IfSome (job_at w.now.jobs slot) (λ j. j.pc < 2 ^ 18) }
    requires called { IfSome (job_at w.now.jobs slot) (λ j. IsCalled (unit_of (core_at w.now.core slot) j)) }
    ensures { IfSome (job_at w.now.jobs slot) (λ j. unit_of (core_at w.now.core slot) j ≡ Called result) }
{
    match w.jobs.job(slot) {
        Some(job) => site(&w.core, slot, job),
        None => unreachable!(),
    }
}
