//! The units of frequent instructions. Each operation and mode has an arm of its own: there its row
//! is known, so its plan stays in registers, and its stores are made in place.
ghost use Rattle.std.specs.Prelude.{◌≡◌, ◌<◌, ◌^◌};
ghost use Rattle.its_core.specs.Cores.{core_at};
ghost use Rattle.its_plain.specs.Unit.{outcome_of, unit as unit_of};
ghost use Rattle.its_plain.specs.Unit.Arith.{arithmetic_row, boolean_row, shift_row};
ghost use Rattle.its_plain.specs.Unit.Bytes.{byte_row};
ghost use Rattle.its_plain.specs.Unit.Jumps.{branch_row, stack_row};
ghost use Rattle.its_plain.specs.Unit.Moves.{half_row, move_row};
ghost use Rattle.its_plain.specs.Unit.Plans.{ContextFits};
ghost use Rattle.its_plain.specs.Unit.Tests.{test_row};
ghost use Rattle.pdp_exec.specs.Answer.{InPlace};
ghost use Rattle.pdp_exec.specs.Ready.{Stands};

use super::arithmetic::{arithmetic, booleans, shifts};
use super::branches::{branches, stack};
use super::bytes::bytes;
use super::chain::{AtHand, at_hand};
use super::comparisons::{aoj, aos, cai, cam, jumps, skips, soj, sos, tests_of};
use super::making::carry_out;
use super::moves::{halves, moves};
use super::plans::Draft;
use super::units::{Ended, fault_bit, rarely};
use its_core::Core;
use its_records::Job;
use its_word::{
    ArithmeticOp, BooleanOp, BranchOp, ByteOp, Condition, Context, Fault, MaskOp, Mode, Modify,
    MoveOp, ShiftOp, SkipWhen, Slot, StackOp,
};

/// Does what is planned for the unit of a job.
#[inline(always)]
fn made(planned: Result<Draft, Fault>, core: &mut Core, slot: Slot, job: &mut Job) -> Ended
    requires pc { job.old.pc < 2 ^ 18 }
    requires unit { outcome_of (core_at core.old slot) job.old planned ≡ unit_of (core_at core.old slot) job.old }
    ensures { InPlace result (unit_of (core_at core.old slot) job.old) core.old core.new slot job.old job.new }
{
    let plan = match planned {
        Ok(plan) => plan,
        Err(f) => return Ended::Fault(fault_bit(f)),
    };
    match carry_out(core, slot, job, &plan) {
        Ok(()) => Ended::Done,
        Err(f) => Ended::Fault(fault_bit(f)),
    }
}

/// MOVE, MOVS, MOVN, MOVM.
#[inline(always)]
fn moving(core: &mut Core, slot: Slot, job: &mut Job, x: &Context, op: MoveOp, mode: Mode) -> Ended
    requires pc { job.old.pc < 2 ^ 18 }
    requires fits { ContextFits x.now }
    requires unit { outcome_of (core_at core.old slot) job.old (move_row (core_at core.old slot) x.now op mode) ≡ unit_of (core_at core.old slot) job.old }
    ensures { InPlace result (unit_of (core_at core.old slot) job.old) core.old core.new slot job.old job.new }
{
    made(moves(core, slot, x, op, mode), core, slot, job)
}

/// HLL to HLRE.
#[inline(always)]
fn halving(core: &mut Core, slot: Slot, job: &mut Job, x: &Context, k: u32, mode: Mode) -> Ended
    requires pc { job.old.pc < 2 ^ 18 }
    requires fits { ContextFits x.now }
    requires k { k < 16 }
    requires unit { outcome_of (core_at core.old slot) job.old (half_row (core_at core.old slot) x.now k mode) ≡ unit_of (core_at core.old slot) job.old }
    ensures { InPlace result (unit_of (core_at core.old slot) job.old) core.old core.new slot job.old job.new }
{
    made(halves(core, slot, x, k, mode), core, slot, job)
}

/// ADD, SUB, IMUL, MUL, IDIV, DIV.
#[inline(always)]
fn working(
    core: &mut Core,
    slot: Slot,
    job: &mut Job,
    x: &Context,
    op: ArithmeticOp,
    mode: Mode,
) -> Ended
    requires pc { job.old.pc < 2 ^ 18 }
    requires fits { ContextFits x.now }
    requires unit { outcome_of (core_at core.old slot) job.old (arithmetic_row (core_at core.old slot) x.now op mode) ≡ unit_of (core_at core.old slot) job.old }
    ensures { InPlace result (unit_of (core_at core.old slot) job.old) core.old core.new slot job.old job.new }
{
    made(arithmetic(core, slot, x, op, mode), core, slot, job)
}

/// ASH, ROT, LSH, JFFO, ASHC, ROTC, LSHC.
#[inline(always)]
fn shifting(core: &mut Core, slot: Slot, job: &mut Job, x: &Context, op: ShiftOp) -> Ended
    requires pc { job.old.pc < 2 ^ 18 }
    requires fits { ContextFits x.now }
    requires unit { outcome_of (core_at core.old slot) job.old (shift_row (core_at core.old slot) x.now op) ≡ unit_of (core_at core.old slot) job.old }
    ensures { InPlace result (unit_of (core_at core.old slot) job.old) core.old core.new slot job.old job.new }
{
    made(shifts(core, slot, x, op), core, slot, job)
}

/// SETZ to SETO.
#[inline(always)]
fn combining(
    core: &mut Core,
    slot: Slot,
    job: &mut Job,
    x: &Context,
    op: BooleanOp,
    mode: Mode,
) -> Ended
    requires pc { job.old.pc < 2 ^ 18 }
    requires fits { ContextFits x.now }
    requires unit { outcome_of (core_at core.old slot) job.old (boolean_row (core_at core.old slot) x.now op mode) ≡ unit_of (core_at core.old slot) job.old }
    ensures { InPlace result (unit_of (core_at core.old slot) job.old) core.old core.new slot job.old job.new }
{
    made(booleans(core, slot, x, op, mode), core, slot, job)
}

/// BLT, AOBJP, AOBJN, JRST, JFCL.
#[inline(always)]
fn jumping(core: &mut Core, slot: Slot, job: &mut Job, x: &Context, op: BranchOp) -> Ended
    requires pc { job.old.pc < 2 ^ 18 }
    requires fits { ContextFits x.now }
    requires unit { outcome_of (core_at core.old slot) job.old (branch_row (core_at core.old slot) x.now op) ≡ unit_of (core_at core.old slot) job.old }
    ensures { InPlace result (unit_of (core_at core.old slot) job.old) core.old core.new slot job.old job.new }
{
    made(branches(core, slot, x, op), core, slot, job)
}

/// PUSHJ, PUSH, POP, POPJ, JSR, JSP, JSA, JRA.
#[inline(always)]
fn stacking(core: &mut Core, slot: Slot, job: &mut Job, x: &Context, op: StackOp) -> Ended
    requires pc { job.old.pc < 2 ^ 18 }
    requires fits { ContextFits x.now }
    requires unit { outcome_of (core_at core.old slot) job.old (stack_row (core_at core.old slot) x.now op) ≡ unit_of (core_at core.old slot) job.old }
    ensures { InPlace result (unit_of (core_at core.old slot) job.old) core.old core.new slot job.old job.new }
{
    made(stack(core, slot, x, op), core, slot, job)
}

/// TRN to TSON.
#[inline(always)]
fn testing(
    core: &mut Core,
    slot: Slot,
    job: &mut Job,
    x: &Context,
    op: MaskOp,
    when: SkipWhen,
    modify: Modify,
) -> Ended
    requires pc { job.old.pc < 2 ^ 18 }
    requires fits { ContextFits x.now }
    requires unit { outcome_of (core_at core.old slot) job.old (test_row (core_at core.old slot) x.now op when modify) ≡ unit_of (core_at core.old slot) job.old }
    ensures { InPlace result (unit_of (core_at core.old slot) job.old) core.old core.new slot job.old job.new }
{
    made(tests_of(core, slot, x, op, when, modify), core, slot, job)
}

/// IBP, ILDB, LDB, IDPB, DPB.
#[inline(always)]
fn picking(core: &mut Core, slot: Slot, job: &mut Job, x: &Context, op: ByteOp) -> Ended
    requires pc { job.old.pc < 2 ^ 18 }
    requires fits { ContextFits x.now }
    requires unit { outcome_of (core_at core.old slot) job.old (byte_row (core_at core.old slot) x.now op) ≡ unit_of (core_at core.old slot) job.old }
    ensures { InPlace result (unit_of (core_at core.old slot) job.old) core.old core.new slot job.old job.new }
{
    made(bytes(core, slot, x, op), core, slot, job)
}

/// The unit at the PC of a job, by its opcode: the frequent operations, but not as frequent as
/// those of `frequent`. It takes its context by value: what is handed on by reference would be kept
/// in memory on the most used path.
#[inline(never)]
#[tactic(auto, using(crate::proofs::ChainLaws::stands, crate::proofs::ChainLaws::stands_call), unfolding(its_plain::specs::Unit::row_of, its_word::specs::Opcode::instruction_of, its_word::specs::Opcode::mode_of, its_word::specs::Opcode::full_word_opcode, its_word::specs::Opcode::shift_opcode, its_word::specs::Opcode::branch_opcode, its_word::specs::Opcode::stack_opcode, its_word::specs::Opcode::compare_opcode, its_word::specs::Opcode::test_opcode, its_word::specs::Opcode::mask_of, its_word::specs::Opcode::byte_opcode, its_word::specs::Opcode::monitor_opcode))]
fn often(core: &mut Core, slot: Slot, job: &mut Job, opcode: u32, context: Context) -> Ended
    requires pc { job.old.pc < 2 ^ 18 }
    requires stands { Stands (core_at core.old slot) job.old opcode context }
    requires fits { ContextFits context }
    ensures { InPlace result (unit_of (core_at core.old slot) job.old) core.old core.new slot job.old job.new }
{
    let x = &context;
    match opcode {
        0o205 => moving(core, slot, job, x, MoveOp::Swap, Mode::Immediate), // MOVSI
        0o554 => halving(core, slot, job, x, 11, Mode::Basic), // HLRZ
        0o242 => shifting(core, slot, job, x, ShiftOp::Lsh), // LSH
        0o400 => combining(core, slot, job, x, BooleanOp::Setz, Mode::Basic), // SETZ
        0o402 => combining(core, slot, job, x, BooleanOp::Setz, Mode::Memory), // SETZM
        0o404 => combining(core, slot, job, x, BooleanOp::And, Mode::Basic), // AND
        0o405 => combining(core, slot, job, x, BooleanOp::And, Mode::Immediate), // ANDI
        0o434 => combining(core, slot, job, x, BooleanOp::Ior, Mode::Basic), // IOR
        0o474 => combining(core, slot, job, x, BooleanOp::Seto, Mode::Basic), // SETO
        0o321 => made(jumps(core, slot, x, Condition::L), core, slot, job), // JUMPL
        0o323 => made(jumps(core, slot, x, Condition::Le), core, slot, job), // JUMPLE
        0o325 => made(jumps(core, slot, x, Condition::Ge), core, slot, job), // JUMPGE
        0o327 => made(jumps(core, slot, x, Condition::G), core, slot, job), // JUMPG
        0o340 => made(aoj(core, slot, x, Condition::Never), core, slot, job), // AOJ
        0o350 => made(aos(core, slot, x, Condition::Never), core, slot, job), // AOS
        0o360 => made(soj(core, slot, x, Condition::Never), core, slot, job), // SOJ
        0o364 => made(soj(core, slot, x, Condition::A), core, slot, job), // SOJA
        0o370 => made(sos(core, slot, x, Condition::Never), core, slot, job), // SOS
        0o301 => made(cai(core, slot, x, Condition::L), core, slot, job), // CAIL
        0o303 => made(cai(core, slot, x, Condition::Le), core, slot, job), // CAILE
        0o305 => made(cai(core, slot, x, Condition::Ge), core, slot, job), // CAIGE
        0o307 => made(cai(core, slot, x, Condition::G), core, slot, job), // CAIG
        0o311 => made(cam(core, slot, x, Condition::L), core, slot, job), // CAML
        0o312 => made(cam(core, slot, x, Condition::E), core, slot, job), // CAME
        0o313 => made(cam(core, slot, x, Condition::Le), core, slot, job), // CAMLE
        0o315 => made(cam(core, slot, x, Condition::Ge), core, slot, job), // CAMGE
        0o316 => made(cam(core, slot, x, Condition::N), core, slot, job), // CAMN
        0o317 => made(cam(core, slot, x, Condition::G), core, slot, job), // CAMG
        0o331 => made(skips(core, slot, x, Condition::L), core, slot, job), // SKIPL
        0o333 => made(skips(core, slot, x, Condition::Le), core, slot, job), // SKIPLE
        0o335 => made(skips(core, slot, x, Condition::Ge), core, slot, job), // SKIPGE
        0o337 => made(skips(core, slot, x, Condition::G), core, slot, job), // SKIPG
        0o602 => testing(
            core,
            slot,
            job,
            x,
            MaskOp::Tr,
            SkipWhen::AllZero,
            Modify::Unmodified,
        ), // TRNE
        0o606 => testing(
            core,
            slot,
            job,
            x,
            MaskOp::Tr,
            SkipWhen::NotAllZero,
            Modify::Unmodified,
        ), // TRNN
        0o620 => testing(
            core,
            slot,
            job,
            x,
            MaskOp::Tr,
            SkipWhen::NoSkip,
            Modify::Zeros,
        ), // TRZ
        0o621 => testing(
            core,
            slot,
            job,
            x,
            MaskOp::Tl,
            SkipWhen::NoSkip,
            Modify::Zeros,
        ), // TLZ
        0o660 => testing(
            core,
            slot,
            job,
            x,
            MaskOp::Tr,
            SkipWhen::NoSkip,
            Modify::Ones,
        ), // TRO
        0o661 => testing(
            core,
            slot,
            job,
            x,
            MaskOp::Tl,
            SkipWhen::NoSkip,
            Modify::Ones,
        ), // TLO
        0o253 => jumping(core, slot, job, x, BranchOp::Aobjn), // AOBJN
        0o261 => stacking(core, slot, job, x, StackOp::Push), // PUSH
        0o262 => stacking(core, slot, job, x, StackOp::Pop), // POP
        0o265 => stacking(core, slot, job, x, StackOp::Jsp), // JSP
        0o135 => picking(core, slot, job, x, ByteOp::Ldb), // LDB
        0o137 => picking(core, slot, job, x, ByteOp::Dpb), // DPB
        0o040 => Ended::Call, // .IOT
        0o043 if x.a == 0 => Ended::Call, // .CALL
        _ => rarely(core, slot, job),
    }
}

/// One unit of the job of a slot. Its arms are the most frequent opcodes, each with its operation,
/// mode and condition; `often` and `rarely` execute any other unit. It is meant to be in the loop
/// of units that calls it, since a call costs a fifth of a unit: all registers that it uses are
/// saved, and what the loop keeps in them is loaded again. For that it has to have one caller, and
/// not too many arms.
#[inline(always)]
#[tactic(auto, using(crate::proofs::ChainLaws::stands, crate::proofs::ChainLaws::stands_call), unfolding(its_plain::specs::Unit::row_of, its_word::specs::Opcode::instruction_of, its_word::specs::Opcode::mode_of, its_word::specs::Opcode::full_word_opcode, its_word::specs::Opcode::shift_opcode, its_word::specs::Opcode::branch_opcode, its_word::specs::Opcode::stack_opcode, its_word::specs::Opcode::compare_opcode, its_word::specs::Opcode::test_opcode, its_word::specs::Opcode::mask_of, its_word::specs::Opcode::byte_opcode, its_word::specs::Opcode::monitor_opcode))]
pub fn frequent(core: &mut Core, slot: Slot, job: &mut Job) -> Ended
    requires pc { job.old.pc < 2 ^ 18 }
    ensures { InPlace result (unit_of (core_at core.old slot) job.old) core.old core.new slot job.old job.new }
{
    let Some(AtHand { opcode, context }) = at_hand(core, slot, job) else {
        return rarely(core, slot, job);
    };
    let x = &context;
    match opcode {
        0o200 => moving(core, slot, job, x, MoveOp::Plain, Mode::Basic), // MOVE
        0o201 => moving(core, slot, job, x, MoveOp::Plain, Mode::Immediate), // MOVEI
        0o202 => moving(core, slot, job, x, MoveOp::Plain, Mode::Memory), // MOVEM
        0o550 => halving(core, slot, job, x, 10, Mode::Basic), // HRRZ
        0o270 => working(core, slot, job, x, ArithmeticOp::Add, Mode::Basic), // ADD
        0o271 => working(core, slot, job, x, ArithmeticOp::Add, Mode::Immediate), // ADDI
        0o274 => working(core, slot, job, x, ArithmeticOp::Sub, Mode::Basic), // SUB
        0o275 => working(core, slot, job, x, ArithmeticOp::Sub, Mode::Immediate), // SUBI
        0o322 => made(jumps(core, slot, x, Condition::E), core, slot, job), // JUMPE
        0o326 => made(jumps(core, slot, x, Condition::N), core, slot, job), // JUMPN
        0o344 => made(aoj(core, slot, x, Condition::A), core, slot, job), // AOJA
        0o365 => made(soj(core, slot, x, Condition::Ge), core, slot, job), // SOJGE
        0o367 => made(soj(core, slot, x, Condition::G), core, slot, job), // SOJG
        0o302 => made(cai(core, slot, x, Condition::E), core, slot, job), // CAIE
        0o306 => made(cai(core, slot, x, Condition::N), core, slot, job), // CAIN
        0o332 => made(skips(core, slot, x, Condition::E), core, slot, job), // SKIPE
        0o336 => made(skips(core, slot, x, Condition::N), core, slot, job), // SKIPN
        0o603 => testing(
            core,
            slot,
            job,
            x,
            MaskOp::Tl,
            SkipWhen::AllZero,
            Modify::Unmodified,
        ), // TLNE
        0o607 => testing(
            core,
            slot,
            job,
            x,
            MaskOp::Tl,
            SkipWhen::NotAllZero,
            Modify::Unmodified,
        ), // TLNN
        0o254 if x.a == 0 => jumping(core, slot, job, x, BranchOp::Jrst), // JRST
        0o255 => jumping(core, slot, job, x, BranchOp::Jfcl), // JFCL
        0o260 => stacking(core, slot, job, x, StackOp::Pushj), // PUSHJ
        0o263 => stacking(core, slot, job, x, StackOp::Popj), // POPJ
        0o134 => picking(core, slot, job, x, ByteOp::Ildb), // ILDB
        0o136 => picking(core, slot, job, x, ByteOp::Idpb), // IDPB
        _ => often(core, slot, job, opcode, context),
    }
}
