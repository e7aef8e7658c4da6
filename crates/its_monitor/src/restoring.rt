//! The lines of the state part that restore jobs and consoles: JOB, REGS, ALARM, UNDER, TTY, IN,
//! OUT and HOLD. Those that are lines of the rest of a session too are in the files of their kinds.
ghost use Rattle.std.specs.Prelude.{◌≡◌, ◌≤◌, ◌<◌, ◌++◌, ◌∷◌, [], ◌&&◌, true, false, None, Some, Ok, Err, IfErr, OnErr, OnOk, is_some, length, nat_le, nat_lt};
ghost use Rattle.its_word.specs.Console.{most_waiting};
ghost use Rattle.its_word.specs.Limits.{limit_of, slots};
ghost use Rattle.its_records.specs.Refusals.{reason_of};
ghost use Rattle.its_records.specs.Tree.{climbs_to};
ghost use Rattle.its_files.specs.Files.{Store};
ghost use Rattle.its_jobs.specs.Table.{job_at};
ghost use Rattle.its_plain.specs.Machine.{Machine};
ghost use Rattle.its_plain.specs.Machine.Change.{console_in, on_console, superiors};
ghost use Rattle.its_plain.specs.Operator.Jobs.{on_registers};
ghost use Rattle.its_plain.specs.Operator.State.{after_registers, bytes_of, may_come, on_tty, with_alarm_set, with_bytes, with_bytes_waiting, with_holder_set, with_job_made, with_superior_set, with_tty};
ghost use Rattle.its_stepped.specs.Lines.{with_raw};
ghost use Rattle.its_stepped.specs.Unwind.{unwound};
ghost use Rattle.its_world.specs.Made.{JobMade};
ghost use Rattle.its_world.specs.Storage.{IsElsewhere};
ghost use Rattle.its_world.specs.Tidy.{Tidy};
ghost use Rattle.its_world.specs.World.{ConsoleBecomes, chan_of, console_at, holder_at, plain_of, state_of};
ghost use Rattle.its_monitor.specs.Kept.{Kept, Lands, Refused};
ghost use Rattle.its_monitor.specs.Restoring.{SuperiorBecomes};

use super::monitor::Monitor;
use super::registers::calmed;
use super::restoring_channels::closed;
use super::words::{calm, present};
use its_jobs::limit_of;
use its_plain::LONGEST_PERIOD;
use its_records::{Channel, Job, Refusal, Registers};
use its_word::{ConsoleNumber, MOST_WAITING, Slot, Word, flags_in};
use its_world::World;

impl Monitor {
    /// JOB: makes a stopped job with these names and this console in a slot. It becomes the holder
    /// of no console. Range if no job can have the slot, Exists if it has one.
    pub fn make_job(
        &mut self,
        s: Slot,
        u: Word,
        j: Word,
        console: Option<ConsoleNumber>,
    ) -> Result<(), Refusal>
        requires kept { Kept self.old.world }
        ensures done { OnOk result (Lands (state_of self.old.world) (state_of self.new.world) (with_job_made (state_of self.old.world).raw s u j console)) }
        ensures plain { OnOk result (with_job_made (plain_of self.old.world) s u j console ≡ Ok (plain_of self.new.world)) }
        ensures refused { IfErr result (λ e. Refused (state_of self.old.world) (state_of self.old.world) (λ m. with_job_made m s u j console) e) }
        ensures same { OnErr result (self.new ≡ self.old) }
        ensures kept { Kept self.new.world }
    {
        let world = &mut self.world;
        if !can_have(world, s) {
            return Err(Refusal::Range);
        }
        if has_job(world, s) {
            return Err(Refusal::Exists);
        }
        make_at(world, s, u, j, ConsoleNumber::numbered(&console));
        Ok(())
    }

    /// REGS: sets whether a slot's job runs, its PC and flags, and its pending words, masks and
    /// deferrals. NoJob if the slot is empty.
    #[tactic(auto, using(crate::proofs::RegisterLaws::registers_refused))]
    pub fn set_registers(&mut self, s: Slot, registers: &Registers) -> Result<(), Refusal>
        requires kept { Kept self.old.world }
        ensures done { OnOk result (Lands (unwound (state_of self.old.world) s) (state_of self.new.world) (on_registers (unwound (state_of self.old.world) s).raw s (after_registers registers.now))) }
        ensures plain { OnOk result (on_registers (plain_of self.old.world) s (after_registers registers.now) ≡ Ok (plain_of self.new.world)) }
        ensures refused { IfErr result (λ e. Refused (state_of self.old.world) (unwound (state_of self.old.world) s) (λ m. on_registers m s (after_registers registers.now)) e) }
        ensures same { OnErr result (self.new ≡ self.old) }
        ensures kept { Kept self.new.world }
    {
        let world = &mut self.world;
        let job = calmed(world, s)?;
        world.put_registers(s, restored(job, registers));
        Ok(())
    }

    /// ALARM: gives a slot's job an alarm of this period, which next goes at this time. Range if
    /// REALT allows no such period, or the time is not above the clock; NoJob if the slot is empty.
    pub fn set_alarm(&mut self, s: Slot, period: u64, next: u64) -> Result<(), Refusal>
        requires kept { Kept self.old.world }
        ensures done { OnOk result (Lands (unwound (state_of self.old.world) s) (state_of self.new.world) (with_alarm_set (unwound (state_of self.old.world) s).raw s period next)) }
        ensures plain { OnOk result (with_alarm_set (plain_of self.old.world) s period next ≡ Ok (plain_of self.new.world)) }
        ensures refused { IfErr result (λ e. Refused (state_of self.old.world) (unwound (state_of self.old.world) s) (λ m. with_alarm_set m s period next) e) }
        ensures same { OnErr result (self.new ≡ self.old) }
        ensures kept { Kept self.new.world }
    {
        let world = &mut self.world;
        if !may_come(world, period, next) {
            return Err(Refusal::Range);
        }
        if !has_job(world, s) {
            return Err(Refusal::NoJob);
        }
        calm(world, s);
        world.put_alarm(s, Some((period, next)));
        Ok(())
    }

    /// UNDER: a slot's job gets a superior, that of slot t. NoJob if one of the slots is empty;
    /// Exists if the job has a superior; Unfit if the superior would be the job itself or below it.
    pub fn set_superior(&mut self, s: Slot, t: Slot) -> Result<(), Refusal>
        requires kept { Kept self.old.world }
        ensures done { OnOk result (Lands (unwound (state_of self.old.world) s) (state_of self.new.world) (with_superior_set (unwound (state_of self.old.world) s).raw s t)) }
        ensures plain { OnOk result (with_superior_set (plain_of self.old.world) s t ≡ Ok (plain_of self.new.world)) }
        ensures refused { IfErr result (λ e. Refused (state_of self.old.world) (unwound (state_of self.old.world) s) (λ m. with_superior_set m s t) e) }
        ensures same { OnErr result (self.new ≡ self.old) }
        ensures kept { Kept self.new.world }
    {
        let world = &mut self.world;
        if !have_jobs(world, s, t) {
            return Err(Refusal::NoJob);
        }
        if has_superior(world, s) {
            return Err(Refusal::Exists);
        }
        if is_at_or_above(world, s, t) {
            return Err(Refusal::Unfit);
        }
        calm(world, s);
        give_superior(world, s, t);
        Ok(())
    }

    /// TTY: opens a channel on the console of a slot's job, for output if `write` holds. NoJob if
    /// the slot is empty, Exists if the channel is open, Unfit if the job has no console.
    pub fn open_tty(&mut self, s: Slot, n: u8, write: bool) -> Result<(), Refusal>
        requires channel { n < 16 }
        requires kept { Kept self.old.world }
        ensures done { OnOk result (Lands (unwound (state_of self.old.world) s) (state_of self.new.world) (with_tty (unwound (state_of self.old.world) s).raw s n write)) }
        ensures plain { OnOk result (with_tty (plain_of self.old.world) s n write ≡ Ok (plain_of self.new.world)) }
        ensures refused { IfErr result (λ e. Refused (state_of self.old.world) (unwound (state_of self.old.world) s) (λ m. with_tty m s n write) e) }
        ensures same { OnErr result (self.new ≡ self.old) }
        ensures kept { Kept self.new.world }
    {
        let world = &mut self.world;
        closed(world, s, n)?;
        if !has_console(world, s) {
            return Err(Refusal::Unfit);
        }
        calm(world, s);
        world.put_channel(s, n, tty(write));
        Ok(())
    }

    /// IN: bytes that were typed at a console and that no job has taken. Full if they have no room.
    pub fn put_input(&mut self, c: ConsoleNumber, bytes: &[u8]) -> Result<(), Refusal>
        requires few { length bytes.now ≤ 32 }
        requires kept { Kept self.old.world }
        ensures done { OnOk result (Lands (state_of self.old.world) (state_of self.new.world) (with_bytes_waiting (state_of self.old.world).raw c false bytes.now)) }
        ensures plain { OnOk result (with_bytes_waiting (plain_of self.old.world) c false bytes.now ≡ Ok (plain_of self.new.world)) }
        ensures refused { IfErr result (λ e. Refused (state_of self.old.world) (state_of self.old.world) (λ m. with_bytes_waiting m c false bytes.now) e) }
        ensures same { OnErr result (self.new ≡ self.old) }
        ensures kept { Kept self.new.world }
    {
        let world = &mut self.world;
        if !fits_input(world, c, bytes) {
            return Err(Refusal::Full);
        }
        type_all(world, c, bytes);
        Ok(())
    }

    /// OUT: bytes that were put out at a console and were not drained. Full if they have no room.
    pub fn put_output(&mut self, c: ConsoleNumber, bytes: &[u8]) -> Result<(), Refusal>
        requires few { length bytes.now ≤ 32 }
        requires kept { Kept self.old.world }
        ensures done { OnOk result (Lands (state_of self.old.world) (state_of self.new.world) (with_bytes_waiting (state_of self.old.world).raw c true bytes.now)) }
        ensures plain { OnOk result (with_bytes_waiting (plain_of self.old.world) c true bytes.now ≡ Ok (plain_of self.new.world)) }
        ensures refused { IfErr result (λ e. Refused (state_of self.old.world) (state_of self.old.world) (λ m. with_bytes_waiting m c true bytes.now) e) }
        ensures same { OnErr result (self.new ≡ self.old) }
        ensures kept { Kept self.new.world }
    {
        let world = &mut self.world;
        if !fits_output(world, c, bytes) {
            return Err(Refusal::Full);
        }
        put_all(world, c, bytes);
        Ok(())
    }

    /// HOLD: a slot's job holds a console. NoJob if the slot is empty, Exists if somebody holds it.
    #[tactic(auto, using(crate::proofs::ByteLineLaws::hold_none))]
    pub fn set_holder(&mut self, c: ConsoleNumber, s: Slot) -> Result<(), Refusal>
        requires kept { Kept self.old.world }
        ensures done { OnOk result (Lands (state_of self.old.world) (state_of self.new.world) (with_holder_set (state_of self.old.world).raw c s)) }
        ensures plain { OnOk result (with_holder_set (plain_of self.old.world) c s ≡ Ok (plain_of self.new.world)) }
        ensures refused { IfErr result (λ e. Refused (state_of self.old.world) (state_of self.old.world) (λ m. with_holder_set m c s) e) }
        ensures same { OnErr result (self.new ≡ self.old) }
        ensures kept { Kept self.new.world }
    {
        let world = &mut self.world;
        present(world, s)?;
        if is_held(world, c) {
            return Err(Refusal::Exists);
        }
        world.hold(c, Some(s.number()));
        Ok(())
    }
}

/// Whether a job can have a slot, in the version of the world.
fn can_have(w: &World, s: Slot) -> bool
    ensures { result ≡ nat_lt s (limit_of w.now.version) }
{
    s.number() < limit_of(w.version)
}

/// Whether a slot has a job.
fn has_job(w: &World, s: Slot) -> bool
    ensures { result ≡ is_some (job_at w.now.jobs s) }
{
    w.registers(s).is_some()
}

/// Makes a job in an empty slot that a job can have.
#[tactic(auto, using(its_world::proofs::StorageLaws::job_missing))]
fn make_at(w: &mut World, s: Slot, u: Word, j: Word, console: Option<u8>)
    requires empty { is_some (job_at w.old.jobs s) ≡ false }
    requires below { nat_lt s (limit_of w.old.version) ≡ true }
    ensures { JobMade w.old w.new s u j None console }
{
    w.jobs.tree();
    w.jobs.create_at(s, u, j, console);
}

/// The registers of a job as REGS says them; its names, its console and its channels stay.
fn restored(job: Job, r: &Registers) -> Job
    ensures { result ≡ after_registers r.now job }
{
    Job {
        stopped: !r.run,
        pc: r.pc.right(),
        flags: flags_in(r.pc),
        pend1: r.p1,
        pend2: r.p2,
        mask1: r.m1,
        mask2: r.m2,
        defer1: r.d1,
        defer2: r.d2,
        ..job
    }
}

/// Whether an alarm may have this period and this next time.
fn may_come(w: &World, period: u64, next: u64) -> bool
    ensures { result ≡ may_come w.now.clock period next }
{
    1 <= period && period <= LONGEST_PERIOD && w.clock < next
}

/// Whether two slots have jobs.
fn have_jobs(w: &World, s: Slot, t: Slot) -> bool
    ensures { result ≡ (is_some (job_at w.now.jobs s) && is_some (job_at w.now.jobs t)) }
{
    has_job(w, s) && has_job(w, t)
}

/// Whether the job of a slot has a superior.
fn has_superior(w: &World, s: Slot) -> bool
    ensures { result ≡ is_some (superiors (state_of w.now).raw s) }
{
    w.jobs.tree();
    w.jobs.superior(s).is_some()
}

/// Whether the job of a slot is that of slot t, or is above it.
fn is_at_or_above(w: &World, s: Slot, t: Slot) -> bool
    ensures { result ≡ climbs_to (superiors (state_of w.now).raw) s slots (Some t) }
{
    w.jobs.tree();
    w.jobs.is_at_or_above(s, t)
}

/// Gives the job of a slot a superior, that of slot t, which is neither the job itself nor below
/// it. It has none.
fn give_superior(w: &mut World, s: Slot, t: Slot)
    requires job { is_some (job_at w.old.jobs s) ≡ true }
    requires standing { is_some (job_at w.old.jobs t) ≡ true }
    requires none { superiors (state_of w.old).raw s ≡ None }
    requires apart { climbs_to (superiors (state_of w.old).raw) s slots (Some t) ≡ false }
    ensures { SuperiorBecomes w.old w.new s t }
{
    w.jobs.tree();
    w.jobs.set_superior(s, t);
}

/// Whether the job of a slot has a console.
fn has_console(w: &World, s: Slot) -> bool
    ensures { result ≡ is_some (console_in ((state_of w.now).raw.jobs s)) }
{
    match w.registers(s) {
        Some(job) => job.console.is_some(),
        None => false,
    }
}

/// What a channel on a console is on.
fn tty(write: bool) -> Channel
    ensures on { (files : Store) → chan_of files result ≡ on_tty write }
    ensures elsewhere { IsElsewhere result }
{
    if write {
        Channel::TtyOut
    } else {
        Channel::TtyIn
    }
}

/// Whether more bytes of input have room at a console.
#[tactic(auto, using(crate::proofs::ByteLineLaws::in_all))]
fn fits_input(w: &World, c: ConsoleNumber, bytes: &[u8]) -> bool
    requires { length bytes.now ≤ 32 }
    ensures { result ≡ nat_le (length (bytes_of false ((state_of w.now).raw.consoles c) ++ bytes.now)) most_waiting }
{
    let (typed, _) = w.consoles[c.index()].waiting();
    typed as usize + bytes.len() <= MOST_WAITING as usize
}

/// Whether more bytes of output have room at a console.
#[tactic(auto, using(crate::proofs::ByteLineLaws::out_all))]
fn fits_output(w: &World, c: ConsoleNumber, bytes: &[u8]) -> bool
    requires { length bytes.now ≤ 32 }
    ensures { result ≡ nat_le (length (bytes_of true ((state_of w.now).raw.consoles c) ++ bytes.now)) most_waiting }
{
    let (_, put) = w.consoles[c.index()].waiting();
    put as usize + bytes.len() <= MOST_WAITING as usize
}

/// More bytes of input at a console, in their order, if there is room for them.
#[tactic(auto, using(crate::proofs::ByteLineLaws::bytes_start, crate::proofs::ByteLineLaws::free_at))]
fn type_all(w: &mut World, c: ConsoleNumber, bytes: &[u8])
    requires room { length (bytes_of false ((state_of w.old).raw.consoles c) ++ bytes.now) ≤ most_waiting }
    requires tidy { Tidy w.old }
    ensures done { state_of w.new ≡ with_raw (state_of w.old) (on_console (state_of w.old).raw c (with_bytes false bytes.now)) }
    ensures tidy { Tidy w.new }
{
    for b in bytes {
        type_one(w, c, *b);
    }
}

/// One byte more of input at a console, which has room for it.
fn type_one(w: &mut World, c: ConsoleNumber, b: u8)
    requires { length (bytes_of false ((state_of w.old).raw.consoles c)) < most_waiting }
    ensures { ConsoleBecomes w.old w.new c (with_bytes false (b ∷ []) (console_at w.old.consoles.items c)) }
{
    let _ = w.type_in(c, b);
}

/// More bytes of output at a console, in their order, if there is room for them.
#[tactic(auto, using(crate::proofs::ByteLineLaws::bytes_start, crate::proofs::ByteLineLaws::free_at))]
fn put_all(w: &mut World, c: ConsoleNumber, bytes: &[u8])
    requires room { length (bytes_of true ((state_of w.old).raw.consoles c) ++ bytes.now) ≤ most_waiting }
    requires tidy { Tidy w.old }
    ensures done { state_of w.new ≡ with_raw (state_of w.old) (on_console (state_of w.old).raw c (with_bytes true bytes.now)) }
    ensures tidy { Tidy w.new }
{
    for b in bytes {
        put_one(w, c, *b);
    }
}

/// One byte more of output at a console, which has room for it.
fn put_one(w: &mut World, c: ConsoleNumber, b: u8)
    requires { length (bytes_of true ((state_of w.old).raw.consoles c)) < most_waiting }
    ensures { ConsoleBecomes w.old w.new c (with_bytes true (b ∷ []) (console_at w.old.consoles.items c)) }
{
    let _ = w.put(c, b);
}

/// Whether somebody holds a console.
fn is_held(w: &World, c: ConsoleNumber) -> bool
    ensures { result ≡ is_some (holder_at w.now.holders c) }
{
    w.holders[c.index()].is_some()
}
