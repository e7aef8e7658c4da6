//! The lines of jobs: each with its core, its symbols and its registers; then their superiors and
//! their alarms.
ghost use Rattle.std.specs.Prelude.{◌≡◌, ◌≤◌, ◌<◌, ◌^◌, ◌∷◌, [], IfSome, Some};
ghost use Rattle.its_word.specs.Limits.{slots};
ghost use Rattle.its_records.specs.declared.state_line.StateLine.TheVariants as states;
ghost use Rattle.its_jobs.specs.Table.{job_at, superior_at};
ghost use Rattle.its_shared.specs.Parts.{alarm_at, symbols_at};
ghost use Rattle.its_saved.specs.StateLine as state;
ghost use Rattle.its_saved.specs.Saving.{alarm_by, each, registers_of, symbol_lines, under_by};
ghost use Rattle.its_saving.specs.Parts.{job_part, jobs_lines};
ghost use Rattle.its_saved.specs.Text.{line_of};
ghost use Rattle.its_saving.specs.Writable.{Writable};
ghost use Rattle.its_saving.specs.Written.{Writes};

use super::cores::write_core;
use super::line::write_line;
use its_io::{Failed, Sink};
use its_records::{Job, Registers, StateLine};
use its_word::{ConsoleNumber, SLOTS, Slot, Word, pc_word};
use its_world::World;

/// Each job, by slot.
pub fn write_jobs<K: Sink>(w: &World, out: &mut K) -> Result<(), Failed>
    requires writable { Writable w.now }
    ensures { Writes K.written K.faults out.old out.new result (each (job_part w.now) slots) }
{
    for s in 0..SLOTS as u8 {
        write_slot(w, Slot::new(s), out)?;
    }
    Ok(())
}

/// The job of a slot, if it has one.
fn write_slot<K: Sink>(w: &World, s: Slot, out: &mut K) -> Result<(), Failed>
    requires writable { Writable w.now }
    ensures { Writes K.written K.faults out.old out.new result (job_part w.now s) }
{
    match w.registers(s) {
        Some(job) => write_job(w, s, &job, out),
        None => Ok(()),
    }
}

/// A job.
fn write_job<K: Sink>(w: &World, s: Slot, job: &Job, out: &mut K) -> Result<(), Failed>
    requires writable { Writable w.now }
    requires job { job_at w.now.jobs s ≡ Some job.now }
    ensures { Writes K.written K.faults out.old out.new result (jobs_lines w.now s (Some job.now)) }
{
    write_head(s, job, out)?;
    write_core(&w.core, s, out)?;
    write_symbols(w, s, out)?;
    write_registers(s, job, out)
}

/// The names of a job and its console.
fn write_head<K: Sink>(s: Slot, job: &Job, out: &mut K) -> Result<(), Failed>
    requires console { IfSome job.now.console (λ c. c ≤ 7) }
    ensures { Writes K.written K.faults out.old out.new result (state.Job s job.now.uname job.now.jname job.now.console ∷ []) }
{
    write_line(head_of(s, job), out)
}

/// The line of the names of a job and its console.
fn head_of(s: Slot, job: &Job) -> StateLine
    requires console { IfSome job.now.console (λ c. c ≤ 7) }
    ensures { result ≡ line_of (state.Job s job.now.uname job.now.jname job.now.console) }
{
    StateLine::Job {
        s,
        u: job.uname,
        j: job.jname,
        console: console_of(job),
    }
}

/// The console of a job.
fn console_of(job: &Job) -> Option<ConsoleNumber>
    requires console { IfSome job.now.console (λ c. c ≤ 7) }
    ensures { result ≡ job.now.console }
{
    match job.console {
        Some(c) => Some(ConsoleNumber::new(c)),
        None => None,
    }
}

/// The symbols of a job, in the order in which it got them.
fn write_symbols<K: Sink>(w: &World, s: Slot, out: &mut K) -> Result<(), Failed>
    ensures { Writes K.written K.faults out.old out.new result (symbol_lines s (symbols_at w.now.symbols.items s)) }
{
    write_each_symbol(symbols_of(w, s), s, out)
}

/// The symbols of a slot's job.
fn symbols_of(w: &World, s: Slot) -> &[(Word, u32)]
    ensures { result.now ≡ symbols_at w.now.symbols.items s }
{
    w.symbols[s.index()].as_slice()
}

/// These symbols of a job.
fn write_each_symbol<K: Sink>(symbols: &[(Word, u32)], s: Slot, out: &mut K) -> Result<(), Failed>
    ensures { Writes K.written K.faults out.old out.new result (symbol_lines s symbols.now) }
{
    for symbol in symbols {
        write_symbol(*symbol, s, out)?;
    }
    Ok(())
}

/// A symbol of a job.
fn write_symbol<K: Sink>(symbol: (Word, u32), s: Slot, out: &mut K) -> Result<(), Failed>
    ensures { Writes K.written K.faults out.old out.new result (state.Symbol s symbol.0 symbol.1 ∷ []) }
{
    let (name, a) = symbol;
    write_line(StateLine::Symbol { name, a }, out)
}

/// The registers of a job.
fn write_registers<K: Sink>(s: Slot, job: &Job, out: &mut K) -> Result<(), Failed>
    ensures { Writes K.written K.faults out.old out.new result (state.Regs s (registers_of job.now) ∷ []) }
{
    write_line(regs_of(job), out)
}

/// The line of the registers of a job.
fn regs_of(job: &Job) -> StateLine
    ensures { result ≡ states.Regs (registers_of job.now) }
{
    let registers = Registers {
        run: !job.stopped,
        pc: pc_word(job.flags, job.pc),
        p1: job.pend1,
        p2: job.pend2,
        m1: job.mask1,
        m2: job.mask2,
        d1: job.defer1,
        d2: job.defer2,
    };
    StateLine::Regs { registers }
}

/// The superior of each job that has one.
pub fn write_superiors<K: Sink>(w: &World, out: &mut K) -> Result<(), Failed>
    ensures { Writes K.written K.faults out.old out.new result (each (λ k. under_by k (superior_at w.now.jobs k)) slots) }
{
    for s in 0..SLOTS as u8 {
        write_superior(w, Slot::new(s), out)?;
    }
    Ok(())
}

/// The superior of a slot's job, if it has one.
fn write_superior<K: Sink>(w: &World, s: Slot, out: &mut K) -> Result<(), Failed>
    ensures { Writes K.written K.faults out.old out.new result (under_by s (superior_at w.now.jobs s)) }
{
    match w.jobs.superior(s) {
        Some(t) => write_under(s, t, out),
        None => Ok(()),
    }
}

/// The superior of a job.
fn write_under<K: Sink>(s: Slot, t: Slot, out: &mut K) -> Result<(), Failed>
    ensures { Writes K.written K.faults out.old out.new result (state.Under s t ∷ []) }
{
    write_line(StateLine::Under { s, t }, out)
}

/// The alarm of each job that has one.
pub fn write_alarms<K: Sink>(w: &World, out: &mut K) -> Result<(), Failed>
    ensures { Writes K.written K.faults out.old out.new result (each (λ k. alarm_by k (alarm_at w.now.alarms.items k)) slots) }
{
    for s in 0..SLOTS as u8 {
        write_alarm(w, Slot::new(s), out)?;
    }
    Ok(())
}

/// The alarm of a slot's job, if it has one.
fn write_alarm<K: Sink>(w: &World, s: Slot, out: &mut K) -> Result<(), Failed>
    ensures { Writes K.written K.faults out.old out.new result (alarm_by s (alarm_at w.now.alarms.items s)) }
{
    match w.alarm(s) {
        Some(alarm) => write_period(s, alarm, out),
        None => Ok(()),
    }
}

/// An alarm: its period and its next time.
fn write_period<K: Sink>(s: Slot, alarm: (u64, u64), out: &mut K) -> Result<(), Failed>
    ensures { Writes K.written K.faults out.old out.new result (state.Alarm s alarm ∷ []) }
{
    let (period, next) = alarm;
    write_line(StateLine::Alarm { s, period, next }, out)
}
