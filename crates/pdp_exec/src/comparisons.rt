//! Comparisons, counts and tests (processor reference manual, "Arithmetic testing" and "Logical
//! testing and modification").
ghost use Rattle.std.specs.Prelude.{◌≡◌, ◌^◌};
ghost use Rattle.its_core.specs.Cores.{core_at};
ghost use Rattle.its_plain.specs.Unit.Plans.{ContextFits};
ghost use Rattle.its_word.specs.declared.instruction.CompareOp.TheVariants.{Cai, Cam, Jump, Skip, Aoj, Aos, Soj, Sos};
ghost use Rattle.its_plain.specs.Unit.Tests.{compare_row, counts_jump, counts_skip, mask_for, test_row};

use super::moves::swap;
use super::plans::{Draft, ac_but_0, jump, skip, to};
use super::reads::{ac_word, read};
use super::stores::{none, one, two};
use its_core::Core;
use its_word::{
    CompareOp, Condition, Context, Fault, MaskOp, Modify, Result2, SkipWhen, Slot, Word,
};
use pdp_arith::{add, compares};
use pdp_logic::{changed, tested};

/// A sum to AC, and a jump if it compares so with 0.
#[inline(always)]
fn count_and_jump(x: &Context, c: Condition, r: &Result2) -> Draft
    requires fits { ContextFits x.now }
    ensures { result ≡ counts_jump x.now c r.now }
{
    jump(
        x,
        one(to(x.a, r.first)),
        r.flags,
        compares(c, r.first, Word::ZERO),
    )
}

/// A sum to C(E), and to AC if A is not 0, and a skip if it compares so with 0.
#[inline(always)]
fn count_and_skip(x: &Context, c: Condition, r: &Result2) -> Draft
    requires fits { ContextFits x.now }
    ensures { result ≡ counts_skip x.now c r.now }
{
    let memory = to(x.e, r.first);
    let stores = if x.a == 0 {
        one(memory)
    } else {
        two(memory, to(x.a, r.first))
    };
    skip(x, stores, r.flags, compares(c, r.first, Word::ZERO))
}

/// CAI, CAIL, CAIE, CAILE, CAIA, CAIGE, CAIN, CAIG: CAI with condition c.
#[inline(always)]
#[tactic(auto, unfolding(its_plain::specs::Unit::Tests::compare_row))]
pub fn cai(core: &Core, slot: Slot, x: &Context, c: Condition) -> Result<Draft, Fault>
    requires fits { ContextFits x.now }
    ensures { result ≡ compare_row (core_at core.now slot) x.now Cai c }
{
    let a = ac_word(core, slot, x);
    Ok(skip(x, none(), 0, compares(c, a, Word::pair(0, x.e))))
}

/// CAM, CAML, CAME, CAMLE, CAMA, CAMGE, CAMN, CAMG: CAM with condition c.
#[inline(always)]
#[tactic(auto, unfolding(its_plain::specs::Unit::Tests::compare_row))]
pub fn cam(core: &Core, slot: Slot, x: &Context, c: Condition) -> Result<Draft, Fault>
    requires fits { ContextFits x.now }
    ensures { result ≡ compare_row (core_at core.now slot) x.now Cam c }
{
    let w = read(core, slot, x.e)?;
    let a = ac_word(core, slot, x);
    Ok(skip(x, none(), 0, compares(c, a, w)))
}

/// JUMP, JUMPL, JUMPE, JUMPLE, JUMPA, JUMPGE, JUMPN, JUMPG: JUMP with condition c.
#[inline(always)]
#[tactic(auto, unfolding(its_plain::specs::Unit::Tests::compare_row))]
pub fn jumps(core: &Core, slot: Slot, x: &Context, c: Condition) -> Result<Draft, Fault>
    requires fits { ContextFits x.now }
    ensures { result ≡ compare_row (core_at core.now slot) x.now Jump c }
{
    let a = ac_word(core, slot, x);
    Ok(jump(x, none(), 0, compares(c, a, Word::ZERO)))
}

/// SKIP, SKIPL, SKIPE, SKIPLE, SKIPA, SKIPGE, SKIPN, SKIPG: SKIP with condition c.
#[inline(always)]
#[tactic(auto, unfolding(its_plain::specs::Unit::Tests::compare_row))]
pub fn skips(core: &Core, slot: Slot, x: &Context, c: Condition) -> Result<Draft, Fault>
    requires fits { ContextFits x.now }
    ensures { result ≡ compare_row (core_at core.now slot) x.now Skip c }
{
    let w = read(core, slot, x.e)?;
    Ok(skip(x, ac_but_0(x, w), 0, compares(c, w, Word::ZERO)))
}

/// AOJ, AOJL, AOJE, AOJLE, AOJA, AOJGE, AOJN, AOJG: AOJ with condition c.
#[inline(always)]
#[tactic(auto, unfolding(its_plain::specs::Unit::Tests::compare_row))]
pub fn aoj(core: &Core, slot: Slot, x: &Context, c: Condition) -> Result<Draft, Fault>
    requires fits { ContextFits x.now }
    ensures { result ≡ compare_row (core_at core.now slot) x.now Aoj c }
{
    let a = ac_word(core, slot, x);
    Ok(count_and_jump(x, c, &add(a, Word::new(1))))
}

/// AOS, AOSL, AOSE, AOSLE, AOSA, AOSGE, AOSN, AOSG: AOS with condition c.
#[inline(always)]
#[tactic(auto, unfolding(its_plain::specs::Unit::Tests::compare_row))]
pub fn aos(core: &Core, slot: Slot, x: &Context, c: Condition) -> Result<Draft, Fault>
    requires fits { ContextFits x.now }
    ensures { result ≡ compare_row (core_at core.now slot) x.now Aos c }
{
    let w = read(core, slot, x.e)?;
    Ok(count_and_skip(x, c, &add(w, Word::new(1))))
}

/// SOJ, SOJL, SOJE, SOJLE, SOJA, SOJGE, SOJN, SOJG: SOJ with condition c.
#[inline(always)]
#[tactic(auto, unfolding(its_plain::specs::Unit::Tests::compare_row))]
pub fn soj(core: &Core, slot: Slot, x: &Context, c: Condition) -> Result<Draft, Fault>
    requires fits { ContextFits x.now }
    ensures { result ≡ compare_row (core_at core.now slot) x.now Soj c }
{
    let a = ac_word(core, slot, x);
    Ok(count_and_jump(x, c, &add(a, Word::ONES)))
}

/// SOS, SOSL, SOSE, SOSLE, SOSA, SOSGE, SOSN, SOSG: SOS with condition c.
#[inline(always)]
#[tactic(auto, unfolding(its_plain::specs::Unit::Tests::compare_row))]
pub fn sos(core: &Core, slot: Slot, x: &Context, c: Condition) -> Result<Draft, Fault>
    requires fits { ContextFits x.now }
    ensures { result ≡ compare_row (core_at core.now slot) x.now Sos c }
{
    let w = read(core, slot, x.e)?;
    Ok(count_and_skip(x, c, &add(w, Word::ONES)))
}

/// CAI, CAM, JUMP, SKIP, AOJ, AOS, SOJ, SOS, with condition c.
pub fn comparisons(
    core: &Core,
    slot: Slot,
    x: &Context,
    op: CompareOp,
    c: Condition,
) -> Result<Draft, Fault>
    requires fits { ContextFits x.now }
    ensures { result ≡ compare_row (core_at core.now slot) x.now op c }
{
    match op {
        CompareOp::Cai => cai(core, slot, x, c),
        CompareOp::Cam => cam(core, slot, x, c),
        CompareOp::Jump => jumps(core, slot, x, c),
        CompareOp::Skip => skips(core, slot, x, c),
        CompareOp::Aoj => aoj(core, slot, x, c),
        CompareOp::Aos => aos(core, slot, x, c),
        CompareOp::Soj => soj(core, slot, x, c),
        CompareOp::Sos => sos(core, slot, x, c),
    }
}

/// The mask of a test.
#[inline(always)]
#[tactic(auto, unfolding(its_plain::specs::Unit::Tests::mask_for))]
fn mask(core: &Core, slot: Slot, x: &Context, op: MaskOp) -> Result<Word, Fault>
    requires fits { ContextFits x.now }
    ensures { result ≡ mask_for (core_at core.now slot) x.now op }
{
    match op {
        MaskOp::Tr => Ok(Word::pair(0, x.e)),
        MaskOp::Tl => Ok(Word::pair(x.e, 0)),
        MaskOp::Td => read(core, slot, x.e),
        MaskOp::Ts => Ok(swap(read(core, slot, x.e)?)),
    }
}

/// TRN to TSON: `when` says when it skips, `modify` what it does to the masked bits.
#[inline(always)]
#[tactic(auto, unfolding(its_plain::specs::Unit::Tests::test_row))]
pub fn tests_of(
    core: &Core,
    slot: Slot,
    x: &Context,
    op: MaskOp,
    when: SkipWhen,
    modify: Modify,
) -> Result<Draft, Fault>
    requires fits { ContextFits x.now }
    ensures { result ≡ test_row (core_at core.now slot) x.now op when modify }
{
    let a = ac_word(core, slot, x);
    let m = mask(core, slot, x, op)?;
    Ok(skip(
        x,
        one(to(x.a, changed(modify, a, m).first)),
        0,
        tested(when, a, m),
    ))
}
