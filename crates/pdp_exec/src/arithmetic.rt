//! Integer arithmetic, shifts and Boolean functions (processor reference manual, "Fixed point
//! arithmetic" and "Logic").
ghost use Rattle.std.specs.Prelude.{◌≡◌};
ghost use Rattle.its_core.specs.Cores.{core_at};
ghost use Rattle.its_plain.specs.Unit.Plans.{ContextFits, two_to, worked_from, worked_to};
ghost use Rattle.pdp_exec.specs.Stores.{list_of};
ghost use Rattle.its_plain.specs.Unit.Arith.{arithmetic_row, boolean_row, is_constant, one_result, one_shifted, quotient as quotient_of, refused_to, shift_row, two_results, two_shifted, worked};

use super::plans::{Draft, jump, next, to};
use super::reads::{ac_word, next_ac_word, read};
use super::stores::{Stores, none, one, three, two};
use its_core::Core;
use its_word::{
    ArithmeticOp, BooleanOp, Context, Fault, Mode, NO_DIVIDE, OVERFLOW, Result2, ShiftOp, Slot,
    Word,
};
use pdp_arith::{add, div, idiv, imul, mul, sub};
use pdp_logic::{ash, ashc, boolean, lsh, lshc, rot, rotc, zeros};

/// The source of an arithmetic or Boolean instruction.
#[inline(always)]
#[tactic(auto, unfolding(its_plain::specs::Unit::Plans::worked_from))]
fn source(core: &Core, slot: Slot, x: &Context, mode: Mode) -> Result<Word, Fault>
    requires fits { ContextFits x.now }
    ensures { result ≡ worked_from (core_at core.now slot) x.now mode }
{
    match mode {
        Mode::Basic => read(core, slot, x.e),
        Mode::Immediate => Ok(Word::pair(0, x.e)),
        Mode::Memory => read(core, slot, x.e),
        Mode::Both => read(core, slot, x.e),
    }
}

/// The destination of its one result.
#[inline(always)]
#[tactic(auto, unfolding(its_plain::specs::Unit::Plans::worked_to))]
fn stores(x: &Context, mode: Mode, w: Word) -> Stores
    ensures { list_of result ≡ worked_to x.now mode w }
{
    match mode {
        Mode::Basic => one(to(x.a, w)),
        Mode::Immediate => one(to(x.a, w)),
        Mode::Memory => one(to(x.e, w)),
        Mode::Both => two(to(x.e, w), to(x.a, w)),
    }
}

/// The destinations of its two results.
#[inline(always)]
#[tactic(auto, unfolding(its_plain::specs::Unit::Plans::two_to))]
fn stores_of_two(x: &Context, mode: Mode, w: Word, v: Word) -> Stores
    requires { ContextFits x.now }
    ensures { list_of result ≡ two_to x.now mode w v }
{
    let after = (x.a + 1) % 16;
    match mode {
        Mode::Basic => two(to(x.a, w), to(after, v)),
        Mode::Immediate => two(to(x.a, w), to(after, v)),
        Mode::Memory => one(to(x.e, w)),
        Mode::Both => three(to(x.e, w), to(x.a, w), to(after, v)),
    }
}

#[inline(always)]
fn one_word(x: &Context, mode: Mode, r: &Result2) -> Draft
    requires { ContextFits x.now }
    ensures { result ≡ one_result x.now mode r.now }
{
    next(x, stores(x, mode, r.first), r.flags)
}

#[inline(always)]
fn two_words(x: &Context, mode: Mode, r: &Result2) -> Draft
    requires { ContextFits x.now }
    ensures { result ≡ two_results x.now mode r.now }
{
    next(x, stores_of_two(x, mode, r.first, r.second), r.flags)
}

/// What a refused division stores: C(E) as it was, if its mode stores there.
#[tactic(auto, unfolding(its_plain::specs::Unit::Arith::refused_to))]
fn refused(x: &Context, mode: Mode, s: Word) -> Stores
    ensures { list_of result ≡ refused_to x.now mode s }
{
    match mode {
        Mode::Basic => none(),
        Mode::Immediate => none(),
        Mode::Memory => one(to(x.e, s)),
        Mode::Both => one(to(x.e, s)),
    }
}

#[tactic(auto, unfolding(its_plain::specs::Unit::Arith::quotient))]
fn quotient(x: &Context, mode: Mode, s: Word, r: Option<Result2>) -> Draft
    requires { ContextFits x.now }
    ensures { result ≡ quotient_of x.now mode s r }
{
    match r {
        Some(r) => two_words(x, mode, &r),
        None => next(x, refused(x, mode, s), OVERFLOW | NO_DIVIDE),
    }
}

/// An operation on AC and the source.
#[inline(always)]
#[tactic(auto, unfolding(its_plain::specs::Unit::Arith::worked))]
fn work(core: &Core, slot: Slot, x: &Context, op: ArithmeticOp, mode: Mode, s: Word) -> Draft
    requires fits { ContextFits x.now }
    ensures { result ≡ worked (core_at core.now slot) x.now op mode s }
{
    let a = ac_word(core, slot, x);
    match op {
        ArithmeticOp::Add => one_word(x, mode, &add(a, s)), // ADD, ADDI, ADDM, ADDB
        ArithmeticOp::Sub => one_word(x, mode, &sub(a, s)), // SUB, SUBI, SUBM, SUBB
        ArithmeticOp::Imul => one_word(x, mode, &imul(a, s)), // IMUL, IMULI, IMULM, IMULB
        ArithmeticOp::Mul => two_words(x, mode, &mul(a, s)), // MUL, MULI, MULM, MULB
        ArithmeticOp::Idiv => quotient(x, mode, s, idiv(a, s)), // IDIV, IDIVI, IDIVM, IDIVB
        // DIV, DIVI, DIVM, DIVB
        ArithmeticOp::Div => quotient(x, mode, s, div(a, next_ac_word(core, slot, x), s)),
    }
}

/// ADD, SUB, IMUL, MUL, IDIV, DIV.
#[inline(always)]
#[tactic(auto, unfolding(its_plain::specs::Unit::Arith::arithmetic_row))]
pub fn arithmetic(
    core: &Core,
    slot: Slot,
    x: &Context,
    op: ArithmeticOp,
    mode: Mode,
) -> Result<Draft, Fault>
    requires fits { ContextFits x.now }
    ensures { result ≡ arithmetic_row (core_at core.now slot) x.now op mode }
{
    let s = source(core, slot, x, mode)?;
    Ok(work(core, slot, x, op, mode, s))
}

#[inline(always)]
fn one_place(x: &Context, r: &Result2) -> Draft
    requires { ContextFits x.now }
    ensures { result ≡ one_shifted x.now r.now }
{
    next(x, one(to(x.a, r.first)), r.flags)
}

fn two_places(x: &Context, r: &Result2) -> Draft
    requires { ContextFits x.now }
    ensures { result ≡ two_shifted x.now r.now }
{
    next(
        x,
        two(to(x.a, r.first), to((x.a + 1) % 16, r.second)),
        r.flags,
    )
}

/// ASH, ROT, LSH, JFFO, ASHC, ROTC, LSHC.
#[inline(always)]
#[tactic(auto, unfolding(its_plain::specs::Unit::Arith::shift_row))]
pub fn shifts(core: &Core, slot: Slot, x: &Context, op: ShiftOp) -> Result<Draft, Fault>
    requires fits { ContextFits x.now }
    ensures { result ≡ shift_row (core_at core.now slot) x.now op }
{
    let a = ac_word(core, slot, x);
    let b = next_ac_word(core, slot, x);
    Ok(match op {
        ShiftOp::Ash => one_place(x, &ash(x.e, a)), // ASH
        ShiftOp::Rot => one_place(x, &rot(x.e, a)), // ROT
        ShiftOp::Lsh => one_place(x, &lsh(x.e, a)), // LSH
        // JFFO
        ShiftOp::Jffo => jump(
            x,
            one(to((x.a + 1) % 16, Word::new(u64::from(zeros(a))))),
            0,
            a != Word::ZERO,
        ),
        ShiftOp::Ashc => two_places(x, &ashc(x.e, a, b)), // ASHC
        ShiftOp::Rotc => two_places(x, &rotc(x.e, a, b)), // ROTC
        ShiftOp::Lshc => two_places(x, &lshc(x.e, a, b)), // LSHC
    })
}

/// SETZ, SETA, SETCA and SETO do not use their source.
#[inline(always)]
fn is_fixed(op: BooleanOp) -> bool
    ensures { result ≡ is_constant op }
{
    matches!(
        op,
        BooleanOp::Setz | BooleanOp::Seta | BooleanOp::Setca | BooleanOp::Seto
    )
}

/// SETZ to SETO.
#[inline(always)]
#[tactic(auto, unfolding(its_plain::specs::Unit::Arith::boolean_row))]
pub fn booleans(
    core: &Core,
    slot: Slot,
    x: &Context,
    op: BooleanOp,
    mode: Mode,
) -> Result<Draft, Fault>
    requires fits { ContextFits x.now }
    ensures { result ≡ boolean_row (core_at core.now slot) x.now op mode }
{
    let a = ac_word(core, slot, x);
    let s = if is_fixed(op) && mode == Mode::Basic {
        Word::ZERO
    } else {
        source(core, slot, x, mode)?
    };
    Ok(next(x, stores(x, mode, boolean(op, a, s).first), 0))
}
