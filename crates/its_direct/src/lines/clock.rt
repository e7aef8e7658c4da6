//! The line CLOCK, and the alarms that it makes go.
ghost use Rattle.std.specs.Prelude.{◌≡◌, ◌<◌, ◌≤◌, ◌+◌, ◌^◌, Some, Err, OnOk, OnErr, IfErr, nat_lt};
ghost use Rattle.its_word.specs.Limits.{slots};
ghost use Rattle.its_plain.specs.Machine.Alarm.{time_after};
ghost use Rattle.its_plain.specs.Operator.Clock.{after_clock, clock_end};
ghost use Rattle.its_stepped.specs.Alarmed.{Alarmed};
ghost use Rattle.its_shared.specs.Parts.{alarm_at};
ghost use Rattle.its_direct.specs.Plain.{machine_of, no_slots, Tidy};
ghost use Rattle.its_records.specs.Refusals.{reason_of};
ghost use Rattle.its_direct.specs.Clock.{Clocks, Periods, RangAt, RangBelow};

use crate::plain::Plain;
use its_plain::CLOCK_END;
use its_records::Refusal;
use its_shared::{time_after, with_alr};
use its_word::{SLOTS, Slot};

impl Plain {
    /// CLOCK: the clock gains n thirtieths, and the alarms that are then due go: ALR is set in
    /// their jobs, once, and each alarm has its next time. Range if the clock would reach 2^34.
    #[tactic(auto, using(crate::proofs::ClockLaws::clock_done, crate::proofs::ClockLaws::clock_refused))]
    pub fn advance(&mut self, n: u64) -> Result<(), Refusal>
        requires alarmed { Alarmed (machine_of self.old) }
        requires tidy { Tidy self.old }
        ensures done { OnOk result (Clocks self.old self.new n (after_clock (machine_of self.old) n)) }
        ensures refused { IfErr result (λ e. after_clock (machine_of self.old) n ≡ Err (reason_of e)) }
        ensures same { OnErr result (self.new ≡ self.old) }
        ensures tidy { Tidy self.new }
    {
        if in_time(self.clock, n) {
            let clock = self.clock + n;
            self.set_clock(clock);
            self.alarms_go_off(clock);
            Ok(())
        } else {
            Err(Refusal::Range)
        }
    }

    /// Sets the clock. No slot is touched.
    fn set_clock(&mut self, clock: u64)
        ensures { self.new ≡ record self.old { clock = clock; touched = no_slots } }
    {
        self.clock = clock;
        self.touch_none();
    }

    /// The alarms that are due at a clock go.
    #[tactic(auto, using(crate::proofs::ClockLaws::rang_starts))]
    fn alarms_go_off(&mut self, clock: u64)
        requires below { clock < clock_end }
        requires periods { Periods self.old }
        requires tidy { Tidy self.old }
        ensures rang { RangBelow clock slots self.old self.new }
        ensures tidy { Tidy self.new }
    {
        for slot in 0..SLOTS as u8 {
            self.alarm_goes_off(Slot::new(slot), clock);
        }
    }

    /// The alarm of a slot's job goes, if it is due at a clock.
    #[tactic(auto, using(crate::proofs::ClockLaws::still_none, crate::proofs::ClockLaws::still_some))]
    fn alarm_goes_off(&mut self, slot: Slot, clock: u64)
        requires below { clock < clock_end }
        requires periods { Periods self.old }
        requires tidy { Tidy self.old }
        ensures rang { RangAt clock slot self.old self.new }
        ensures periods { Periods self.new }
        ensures tidy { Tidy self.new }
    {
        if let Some((period, next)) = self.alarm(slot) {
            if next <= clock {
                self.go_off(slot, period, next, clock);
            }
        }
    }

    /// The alarm of a slot's job.
    fn alarm(&self, slot: Slot) -> Option<(u64, u64)>
        ensures { result ≡ alarm_at self.now.alarms.items slot }
    {
        self.alarms[slot.index()]
    }

    /// The alarm of a slot's job goes: ALR is set in the job, the alarm gets its next time, and the
    /// slot is touched.
    fn go_off(&mut self, slot: Slot, period: u64, next: u64, clock: u64)
        requires alarm { Some (period, next) ≡ alarm_at self.old.alarms.items slot }
        requires below { clock < clock_end }
        requires due { next ≤ clock }
        requires periods { Periods self.old }
        requires tidy { Tidy self.old }
        ensures rang { RangAt clock slot self.old self.new }
        ensures periods { Periods self.new }
        ensures tidy { Tidy self.new }
    {
        match self.job(slot) {
            Some(job) => self.put_job(slot, with_alr(job)),
            None => unreachable!(),
        }
        self.put_alarm(slot, Some((period, time_after(period, next, clock))));
        self.touch(slot);
    }
}

/// Whether a clock that gains n thirtieths stays below its end.
fn in_time(clock: u64, n: u64) -> bool
    ensures { result ≡ nat_lt (clock + n) clock_end }
{
    clock < CLOCK_END && n < CLOCK_END - clock
}
