//! The line CLOCK, and the alarms that it makes go.
ghost use Rattle.std.specs.Prelude.{◌≡◌, ◌<◌, ◌≤◌, ◌+◌, ℕ, true, Some, Ok, IfSome, OnOk, OnErr, IfErr, is_some, nat_lt};
ghost use Rattle.its_word.specs.Limits.{slots};
ghost use Rattle.its_jobs.specs.Table.{job_at};
ghost use Rattle.its_plain.specs.Machine.Alarm.{is_due, time_after};
ghost use Rattle.its_plain.specs.Machine.Registers.{ALR as ALR_BIT, with_pending};
ghost use Rattle.its_plain.specs.Operator.Clock.{after_clock, clock_end, due_slots};
ghost use Rattle.its_plain.specs.Machine.Own.{with_registers};
ghost use Rattle.its_stepped.specs.Alarmed.{Periodic};
ghost use Rattle.its_stepped.specs.Lines.{with_raw};
ghost use Rattle.its_stepped.specs.State.{plain};
ghost use Rattle.its_stepped.specs.Sound.{Sound};
ghost use Rattle.its_stepped.specs.Unwind.{all_unwound};
ghost use Rattle.its_world.specs.Tidy.{Tidy};
ghost use Rattle.its_world.specs.World.{alarm_at, state_of, in_raw, plain_of};
ghost use Rattle.its_pclsr.specs.Pages.{pages_unwound};
ghost use Rattle.its_monitor.specs.Kept.{Kept, Lands, Refused};
ghost use Rattle.its_monitor.specs.Rung.{roused, RangAt, RangBelow};

use super::monitor::Monitor;
use its_pclsr::unwind;
use its_plain::CLOCK_END;
use its_records::Refusal;
use its_shared::{time_after, with_alr};
use its_word::{SLOTS, Slot};
use its_world::World;

impl Monitor {
    /// CLOCK: the clock gains n thirtieths. The jobs whose alarm is due at the new clock are
    /// unwound, in the order of their slots; then ALR is set in each of them, once, and the next
    /// time of its alarm gains the least multiple of its period that brings it above the clock.
    /// Range if the clock would reach 2^34; then nothing changes.
    #[tactic(auto, using(crate::proofs::ClockLaws::clock_refused))]
    pub fn advance(&mut self, n: u64) -> Result<(), Refusal>
        requires kept { Kept self.old.world }
        ensures done { OnOk result (Lands (roused (state_of self.old.world) n) (state_of self.new.world) (after_clock (roused (state_of self.old.world) n).raw n)) }
        ensures plain { OnOk result (after_clock (plain_of self.old.world) n ≡ Ok (plain_of self.new.world)) }
        ensures refused { IfErr result (λ e. Refused (state_of self.old.world) (roused (state_of self.old.world) n) (λ m. after_clock m n) e) }
        ensures same { OnErr result (self.new ≡ self.old) }
        ensures pages { OnOk result (self.new.world.core.frames ≡ pages_unwound (due_slots (self.old.world.clock + n) (state_of self.old.world).raw.jobs) (state_of self.old.world) self.old.world.core.frames) }
        ensures kept { Kept self.new.world }
    {
        let world = &mut self.world;
        if in_time(world.clock, n) {
            let clock = world.clock + n;
            unwind_due(world, clock);
            set_clock(world, clock);
            alarms_go_off(world, clock);
            Ok(())
        } else {
            Err(Refusal::Range)
        }
    }
}

/// Whether a clock that gains n thirtieths stays below its end.
fn in_time(clock: u64, n: u64) -> bool
    ensures { result ≡ nat_lt (clock + n) clock_end }
{
    clock < CLOCK_END && n < CLOCK_END - clock
}

/// Unwinds the jobs whose alarm is due at a clock, by slot number.
#[tactic(auto, using(crate::proofs::RungLaws::rousing_start, crate::proofs::RungLaws::roused_all, crate::proofs::RungLaws::roused_pages))]
fn unwind_due(w: &mut World, clock: u64)
    requires sound { Sound (state_of w.old) }
    requires tidy { Tidy w.old }
    ensures unwinds { state_of w.new ≡ all_unwound (due_slots clock (state_of w.old).raw.jobs) (state_of w.old) }
    ensures same { plain_of w.new ≡ plain_of w.old }
    ensures pages { w.new.core.frames ≡ pages_unwound (due_slots clock (state_of w.old).raw.jobs) (state_of w.old) w.old.core.frames }
    ensures tidy { Tidy w.new }
{
    for slot in 0..SLOTS as u8 {
        let slot = Slot::new(slot);
        if is_due(w, slot, clock) {
            unwind(w, slot);
        }
    }
}

/// Whether the alarm of a slot's job is due at a clock.
fn is_due(w: &World, slot: Slot, clock: u64) -> bool
    ensures { result ≡ is_due clock (alarm_at w.now.alarms.items slot) }
{
    match w.alarm(slot) {
        Some((_, next)) => next <= clock,
        None => false,
    }
}

/// Sets the clock.
#[tactic(auto, using(crate::proofs::RungLaws::clock_tidy))]
fn set_clock(w: &mut World, clock: u64)
    requires later { w.old.clock ≤ clock }
    requires below { clock < clock_end }
    requires tidy { Tidy w.old }
    ensures row { state_of w.new ≡ with_raw (state_of w.old) (record (state_of w.old).raw { clock = clock }) }
    ensures alarms { w.new.alarms ≡ w.old.alarms }
    ensures pages { w.new.core.frames ≡ w.old.core.frames }
    ensures tidy { Tidy w.new }
{
    w.set_clock(clock);
}

/// The alarms that are due at a clock go.
#[tactic(auto, using(crate::proofs::RungLaws::rang_start))]
fn alarms_go_off(w: &mut World, clock: u64)
    requires below { clock < clock_end }
    requires periods { (k : ℕ) → IfSome (alarm_at w.old.alarms.items k) Periodic }
    requires tidy { Tidy w.old }
    ensures rang { RangBelow clock slots (state_of w.old) (state_of w.new) }
    ensures pages { w.new.core.frames ≡ w.old.core.frames }
    ensures tidy { Tidy w.new }
{
    for slot in 0..SLOTS as u8 {
        alarm_goes_off(w, Slot::new(slot), clock);
    }
}

/// The alarm of a slot's job goes, if it is due at a clock.
#[tactic(auto, using(crate::proofs::RungLaws::still_none, crate::proofs::RungLaws::still_some))]
fn alarm_goes_off(w: &mut World, slot: Slot, clock: u64)
    requires below { clock < clock_end }
    requires periods { (k : ℕ) → IfSome (alarm_at w.old.alarms.items k) Periodic }
    requires tidy { Tidy w.old }
    ensures rang { RangAt clock slot (state_of w.old) (state_of w.new) }
    ensures periods { (k : ℕ) → IfSome (alarm_at w.new.alarms.items k) Periodic }
    ensures pages { w.new.core.frames ≡ w.old.core.frames }
    ensures tidy { Tidy w.new }
{
    if let Some((period, next)) = w.alarm(slot) {
        if next <= clock {
            go_off(w, slot, period, next, clock);
        }
    }
}

/// The alarm of a slot's job goes: ALR is set in the job, and the alarm gets its next time.
#[tactic(auto, using(crate::proofs::RungLaws::went, crate::proofs::RungLaws::put_periods, crate::proofs::RungLaws::gone_tidy))]
fn go_off(w: &mut World, slot: Slot, period: u64, next: u64, clock: u64)
    requires alarm { Some (period, next) ≡ alarm_at w.old.alarms.items slot }
    requires below { clock < clock_end }
    requires due { next ≤ clock }
    requires periodic { Periodic (period, next) }
    requires periods { (k : ℕ) → IfSome (alarm_at w.old.alarms.items k) Periodic }
    requires tidy { Tidy w.old }
    ensures rang { RangAt clock slot (state_of w.old) (state_of w.new) }
    ensures periods { (k : ℕ) → IfSome (alarm_at w.new.alarms.items k) Periodic }
    ensures pages { w.new.core.frames ≡ w.old.core.frames }
    ensures tidy { Tidy w.new }
{
    set_alr(w, slot);
    w.put_alarm(slot, Some((period, time_after(period, next, clock))));
}

/// ALR is set in a slot's job, which is there as it has an alarm.
#[tactic(auto, using(crate::proofs::RungLaws::alr_set, crate::proofs::RungLaws::alarm_has, crate::proofs::RungLaws::alr_tidy, its_commit::proofs::TidyLaws::becomes_pages))]
fn set_alr(w: &mut World, slot: Slot)
    requires alarm { is_some (alarm_at w.old.alarms.items slot) ≡ true }
    requires tidy { Tidy w.old }
    ensures row { state_of w.new ≡ in_raw (state_of w.old) slot (with_registers (λ j. with_pending j ALR_BIT)) }
    ensures job { is_some (job_at w.new.jobs slot) ≡ true }
    ensures alarms { w.new.alarms ≡ w.old.alarms }
    ensures pages { w.new.core.frames ≡ w.old.core.frames }
    ensures tidy { Tidy w.new }
{
    match w.registers(slot) {
        Some(job) => w.put_registers(slot, with_alr(job)),
        None => unreachable!(),
    }
}
