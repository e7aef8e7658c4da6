//! The unit of a job.
ghost use Rattle.std.specs.Prelude.{◌≡◌, ◌≢◌, ◌<◌, ◌≤◌, ◌^◌, ℕ, false, length, Ok, IfErr, IfOk, OnErr, OnOk};
ghost use Rattle.its_core.specs.Cores.{core_at};
ghost use Rattle.its_word.specs.Opcode.{IsRow};
ghost use Rattle.its_plain.specs.Machine.Registers.{bit_of};
ghost use Rattle.its_plain.specs.Unit.Plans.{ContextFits};
ghost use Rattle.its_plain.specs.Unit.{Called, Changed, Faulted, break_row, outcome_of, reached, row_of, site_of, unit as unit_of};
ghost use Rattle.pdp_exec.specs.Answer.{Answers, UnitEnds, EndsSame, InPlace, IsCalled, Unchanged};
ghost use Rattle.pdp_exec.specs.Ready.{IsReady, is_call};

use super::acting::frequent;
use super::arithmetic::{arithmetic, booleans, shifts};
use super::branches::{branches, stack};
use super::bytes::bytes;
use super::chain::{Places, find, reach};
use super::comparisons::{comparisons, tests_of};
use super::making::carry_out;
use super::moves::{exchange, halves, moves};
use super::plans::{Draft, next, with_pending};
use super::stores::none;
use its_core::Core;
use its_records::{Job, Site};
use its_word::{BRK, ChainStep, Context, Fault, ILO, Instruction, MPV, Reached, Slot, WRO, Word};

/// The result of a unit: it is done; or a fault, with its bit of pending word 1, which leaves no
/// part of it done; or a call of the monitor.
#[derive(Debug, PartialEq, Eq, Drop)]
pub enum Outcome {
    Done,
    Fault(u32),
    Call(Site),
}

/// `.BREAK 16,`.
#[tactic(auto, unfolding(its_plain::specs::Unit::break_row))]
fn breaks(x: &Context) -> Result<Draft, Fault>
    requires { ContextFits x.now }
    ensures { result ≡ break_row x.now }
{
    Ok(with_pending(next(x, none(), 0), Word::new(BRK)))
}

/// The row of an instruction.
#[tactic(auto, unfolding(its_plain::specs::Unit::row_of))]
fn row(core: &Core, slot: Slot, x: &Context, i: Instruction) -> Result<Draft, Fault>
    requires fits { ContextFits x.now }
    requires numbers { IsRow i }
    ensures { result ≡ row_of (core_at core.now slot) x.now i }
{
    match i {
        Instruction::Move { op, mode } => moves(core, slot, x, op, mode),
        Instruction::Exch => exchange(core, slot, x),
        Instruction::Arithmetic { op, mode } => arithmetic(core, slot, x, op, mode),
        Instruction::Shift { op } => shifts(core, slot, x, op),
        Instruction::Branch { op } => branches(core, slot, x, op),
        Instruction::Stack { op } => stack(core, slot, x, op),
        Instruction::Compare { op, condition } => comparisons(core, slot, x, op, condition),
        Instruction::Boolean { op, mode } => booleans(core, slot, x, op, mode),
        Instruction::Half { k, mode } => halves(core, slot, x, k, mode),
        Instruction::Test { mask, skip, modify } => tests_of(core, slot, x, mask, skip, modify),
        Instruction::Byte { op } => bytes(core, slot, x, op),
        Instruction::Break => breaks(x),
        Instruction::Xct | Instruction::Illegal => Err(Fault::Ilo),
        Instruction::Iot | Instruction::Call => Err(Fault::Ilo),
    }
}

/// The bit of pending word 1 of a fault.
pub fn fault_bit(f: Fault) -> u32
    ensures { result ≡ bit_of f }
{
    match f {
        Fault::Mpv => MPV as u32,
        Fault::Wro => WRO as u32,
        Fault::Ilo => ILO as u32,
    }
}

/// Plans what an instruction does, and does it.
fn act(core: &mut Core, slot: Slot, job: &mut Job, r: &Reached) -> Result<(), Fault>
    requires pc { job.old.pc < 2 ^ 18 }
    requires ready { IsReady (ChainStep.Found r.now) }
    ensures done { OnOk result (outcome_of (core_at core.old slot) job.old (row_of (core_at core.old slot) r.now.context r.now.instruction) ≡ Changed (core_at core.new slot) job.new) }
    ensures fault { IfErr result (λ f. outcome_of (core_at core.old slot) job.old (row_of (core_at core.old slot) r.now.context r.now.instruction) ≡ Faulted f) }
    ensures pc { job.new.pc < 2 ^ 18 }
    ensures others { (k : ℕ) → k ≢ slot → core_at core.new k ≡ core_at core.old k }
    ensures reserved { core.new.reserved ≡ core.old.reserved }
    ensures frames { core.new.frames ≡ core.old.frames }
    ensures same { OnErr result ((core.new ≡ core.old) × (job.new ≡ job.old)) }
{
    let plan = row(core, slot, &r.context, r.instruction)?;
    carry_out(core, slot, job, &plan)
}

/// The result of a unit: it is done; or a fault, with its bit of pending word 1; or a call of the
/// monitor, whose site `site` gives.
#[derive(Clone, Copy, Debug, PartialEq, Eq)]
pub enum Ended {
    Done,
    Fault(u32),
    Call,
}

/// Whether an instruction is a call of the monitor.
fn is_call(i: Instruction) -> bool
    ensures { result ≡ is_call i }
{
    matches!(i, Instruction::Iot | Instruction::Call)
}

/// The unit of a job, whichever instruction it has, and wherever the instruction is.
#[inline(never)]
#[tactic(auto, using(crate::proofs::ChainLaws::unit_by, crate::proofs::ChainLaws::unit_lost, crate::proofs::ChainLaws::is_called))]
pub fn rarely(core: &mut Core, slot: Slot, job: &mut Job) -> Ended
    requires pc { job.old.pc < 2 ^ 18 }
    ensures { InPlace result (unit_of (core_at core.old slot) job.old) core.old core.new slot job.old job.new }
{
    let r = match reach(core, slot, job) {
        Ok(r) => r,
        Err(f) => return Ended::Fault(fault_bit(f)),
    };
    if is_call(r.instruction) {
        return Ended::Call;
    }
    match act(core, slot, job, &r) {
        Ok(()) => Ended::Done,
        Err(f) => Ended::Fault(fault_bit(f)),
    }
}

/// One unit of the job of a slot, as `unit` makes it, without the site of a call. At a fault and at
/// a call the core and the job are as they were.
#[inline(always)]
pub fn run(core: &mut Core, slot: Slot, job: &mut Job) -> Ended
    requires pc { job.old.pc < 2 ^ 18 }
    ensures unit { UnitEnds result (unit_of (core_at core.old slot) job.old) (core_at core.new slot) job.new }
    ensures pc { job.new.pc < 2 ^ 18 }
    ensures others { (k : ℕ) → k ≢ slot → core_at core.new k ≡ core_at core.old k }
    ensures reserved { core.new.reserved ≡ core.old.reserved }
    ensures frames { core.new.frames ≡ core.old.frames }
    ensures same { EndsSame result core.old core.new job.old job.new }
{
    frequent(core, slot, job)
}

/// The site of a context, with these places that were read on the way to it.
fn site_at(x: &Context, channel: Option<u8>, decode: Places) -> Site
    ensures { result ≡ site_of x.now channel decode.items }
{
    Site {
        pc: x.pc,
        e: x.e,
        channel,
        used: x.used,
        decode,
    }
}

/// The site at which a job calls the monitor, whose unit is a call.
#[tactic(auto, using(crate::proofs::ChainLaws::unit_iot, crate::proofs::ChainLaws::unit_call, crate::proofs::ChainLaws::no_other, crate::proofs::ChainLaws::no_fault))]
pub fn site(core: &Core, slot: Slot, job: &Job) -> Site
    requires pc { job.now.pc < 2 ^ 18 }
    requires call { IsCalled (unit_of (core_at core.now slot) job.now) }
    ensures { unit_of (core_at core.now slot) job.now ≡ Called result }
{
    let mut reads = Places::new();
    match find(core, slot, job, &mut reads) {
        Ok(r) => match r.instruction {
            Instruction::Iot => site_at(&r.context, Some(r.context.a as u8), reads),
            Instruction::Call => site_at(&r.context, None, reads),
            _ => unreachable!(),
        },
        Err(_) => unreachable!(),
    }
}

/// One unit of the job of a slot. At a fault and at a call of the monitor the core and the job are
/// as they were; the caller sets the bit of the fault.
pub fn unit(core: &mut Core, slot: Slot, job: &mut Job) -> Outcome
    requires pc { job.old.pc < 2 ^ 18 }
    ensures unit { Answers result (unit_of (core_at core.old slot) job.old) (core_at core.new slot) job.new }
    ensures pc { job.new.pc < 2 ^ 18 }
    ensures others { (k : ℕ) → k ≢ slot → core_at core.new k ≡ core_at core.old k }
    ensures reserved { core.new.reserved ≡ core.old.reserved }
    ensures frames { core.new.frames ≡ core.old.frames }
    ensures same { Unchanged result core.old core.new job.old job.new }
{
    match run(core, slot, job) {
        Ended::Done => Outcome::Done,
        Ended::Fault(bit) => Outcome::Fault(bit),
        Ended::Call => Outcome::Call(site(core, slot, job)),
    }
}
