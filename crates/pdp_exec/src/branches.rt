//! Block transfer, jumps, the stack and subroutines (processor reference manual, "Full word data
//! transmission", "Program control" and "Pushdown list").
ghost use Rattle.std.specs.Prelude.{◌≡◌, ◌<◌, ◌^◌, if◌then◌else◌, ◌==◌};
ghost use Rattle.its_core.specs.Cores.{core_at};
ghost use Rattle.its_plain.specs.Machine.Registers.{flags_of, pc_word};
ghost use Rattle.its_plain.specs.Unit.Plans.{ContextFits, both_down, both_up};
ghost use Rattle.its_plain.specs.Unit.Jumps.{branch_row, with_count, is_negative, named_by, restored, stack_row, transferred};

use super::plans::{
    Draft, any_on, complete, jump, next, stay, to, with_flags, with_pending, without,
};
use super::reads::{ac_word, read};
use super::stores::{none, one, two};
use its_core::Core;
use its_word::{BYTE_HALF, BranchOp, Context, Fault, PDL, Slot, StackOp, Word, flags_in, pc_word};

/// The count at which a push sets PDL.
const PUSHED_OUT: u32 = 0;

/// The count at which a pop sets PDL.
const POPPED_OUT: u32 = 0o777777;

/// A word with 1 added to each half.
#[inline(always)]
pub fn up(w: Word) -> Word
    ensures { result ≡ both_up w }
{
    Word::pair(w.left() + 1, w.right() + 1)
}

/// A word with 1 taken from each half.
#[inline(always)]
pub fn down(w: Word) -> Word
    ensures { result ≡ both_down w }
{
    Word::pair(w.left() + 0o777777, w.right() + 0o777777)
}

fn negative(w: Word) -> bool
    ensures { result ≡ is_negative w }
{
    w.value() >= 1 << 35
}

/// One word of BLT.
#[inline(always)]
fn transfer(x: &Context, pointer: Word, w: Word) -> Draft
    requires { ContextFits x.now }
    ensures { result ≡ transferred x.now pointer w }
{
    let word = to(pointer.right(), w);
    if x.e <= pointer.right() {
        return next(x, one(word), 0);
    }
    stay(x, two(word, to(x.a, up(pointer))), x.flags)
}

/// The flags that JRST 2 takes.
fn restore(x: &Context, w: Option<Word>) -> u32
    ensures { result ≡ restored x.now w }
{
    match w {
        Some(w) => flags_in(w),
        None => without(x.flags, BYTE_HALF),
    }
}

/// The flags that A names for JFCL.
fn named(a: u32) -> u32
    requires { a < 16 }
    ensures value { result ≡ named_by a }
    ensures below { result < 2 ^ 18 }
{
    a << 14
}

/// BLT, AOBJP, AOBJN, JRST, JFCL.
#[inline(always)]
#[tactic(auto, unfolding(its_plain::specs::Unit::Jumps::branch_row))]
pub fn branches(core: &Core, slot: Slot, x: &Context, op: BranchOp) -> Result<Draft, Fault>
    requires fits { ContextFits x.now }
    ensures { result ≡ branch_row (core_at core.now slot) x.now op }
{
    let a = ac_word(core, slot, x);
    match op {
        BranchOp::Blt => Ok(transfer(x, a, read(core, slot, a.left())?)), // BLT
        BranchOp::Aobjp => Ok(jump(x, one(to(x.a, up(a))), 0, !negative(up(a)))), // AOBJP
        BranchOp::Aobjn => Ok(jump(x, one(to(x.a, up(a))), 0, negative(up(a)))), // AOBJN
        // JRST
        BranchOp::Jrst => {
            let flags = if x.a == 2 {
                restore(x, x.flags_word)
            } else {
                without(x.flags, BYTE_HALF)
            };
            Ok(with_flags(complete(x, none(), 0, x.e), flags))
        }
        // JFCL
        BranchOp::Jfcl => {
            let mask = named(x.a);
            let plan = jump(x, none(), 0, any_on(x.flags, mask));
            Ok(with_flags(plan, without(x.flags, mask + BYTE_HALF)))
        }
    }
}

/// A plan with PDL set if the count in the left half of a stack pointer ran out.
#[inline(always)]
fn count(end: u32, pointer: Word, plan: Draft) -> Draft
    ensures { result ≡ with_count end pointer plan }
{
    let pending = if pointer.left() == end {
        Word::new(PDL)
    } else {
        Word::ZERO
    };
    with_pending(plan, pending)
}

/// PUSHJ, PUSH, POP, POPJ, JSR, JSP, JSA, JRA.
#[inline(always)]
#[tactic(auto, unfolding(its_plain::specs::Unit::Jumps::stack_row))]
pub fn stack(core: &Core, slot: Slot, x: &Context, op: StackOp) -> Result<Draft, Fault>
    requires fits { ContextFits x.now }
    ensures { result ≡ stack_row (core_at core.now slot) x.now op }
{
    let a = ac_word(core, slot, x);
    let after = x.pc + 1;
    Ok(match op {
        // PUSHJ
        StackOp::Pushj => {
            let stores = two(to(x.a, up(a)), to(up(a).right(), pc_word(x.flags, after)));
            count(PUSHED_OUT, up(a), complete(x, stores, 0, x.e))
        }
        // PUSH
        StackOp::Push => {
            let w = read(core, slot, x.e)?;
            count(
                PUSHED_OUT,
                up(a),
                next(x, two(to(x.a, up(a)), to(up(a).right(), w)), 0),
            )
        }
        // POP
        StackOp::Pop => {
            let w = read(core, slot, a.right())?;
            count(
                POPPED_OUT,
                down(a),
                next(x, two(to(x.a, down(a)), to(x.e, w)), 0),
            )
        }
        // POPJ
        StackOp::Popj => {
            let w = read(core, slot, a.right())?;
            count(
                POPPED_OUT,
                down(a),
                complete(x, one(to(x.a, down(a))), 0, w.right()),
            )
        }
        StackOp::Jsr => complete(x, one(to(x.e, pc_word(x.flags, after))), 0, x.e + 1), // JSR
        StackOp::Jsp => complete(x, one(to(x.a, pc_word(x.flags, after))), 0, x.e), // JSP
        // JSA
        StackOp::Jsa => complete(
            x,
            two(to(x.e, a), to(x.a, Word::pair(x.e, after))),
            0,
            x.e + 1,
        ),
        StackOp::Jra => complete(x, one(to(x.a, read(core, slot, a.left())?)), 0, x.e), // JRA
    })
}
