//! Moves and half moves (processor reference manual, "Full word data transmission" and "Half word
//! data transmission").
ghost use Rattle.std.specs.Prelude.{◌≡◌, ◌<◌};
ghost use Rattle.its_core.specs.Cores.{core_at};
ghost use Rattle.its_plain.specs.Unit.Plans.{ContextFits, moved_from, moved_to};
ghost use Rattle.pdp_exec.specs.Stores.{list_of};
ghost use Rattle.its_plain.specs.Unit.Moves.{exch_row, half_row, half_to, move_row, moved, swapped};

use super::plans::{Draft, next, to};
use super::reads::{ac_word, read};
use super::stores::{Stores, one, two};
use its_core::Core;
use its_word::{Context, Fault, Mode, MoveOp, Result2, Slot, Word};
use pdp_arith::{magnitude, neg};
use pdp_logic::half;

/// The source of a move or a half move.
#[inline(always)]
#[tactic(auto, unfolding(its_plain::specs::Unit::Plans::moved_from))]
fn source(core: &Core, slot: Slot, x: &Context, mode: Mode) -> Result<Word, Fault>
    requires fits { ContextFits x.now }
    ensures { result ≡ moved_from (core_at core.now slot) x.now mode }
{
    match mode {
        Mode::Basic => read(core, slot, x.e),
        Mode::Immediate => Ok(Word::pair(0, x.e)),
        Mode::Memory => Ok(ac_word(core, slot, x)),
        Mode::Both => read(core, slot, x.e),
    }
}

/// The destination of the result of a move or a half move.
#[inline(always)]
#[tactic(auto, unfolding(its_plain::specs::Unit::Plans::moved_to))]
fn stores(x: &Context, mode: Mode, w: Word) -> Stores
    ensures { list_of result ≡ moved_to x.now mode w }
{
    match mode {
        Mode::Basic => one(to(x.a, w)),
        Mode::Immediate => one(to(x.a, w)),
        Mode::Memory => one(to(x.e, w)),
        Mode::Both if x.a == 0 => one(to(x.e, w)),
        Mode::Both => two(to(x.e, w), to(x.a, w)),
    }
}

/// A word with its halves swapped.
#[inline(always)]
pub fn swap(w: Word) -> Word
    ensures { result ≡ swapped w }
{
    Word::pair(w.right(), w.left())
}

#[inline(always)]
#[tactic(auto, unfolding(its_plain::specs::Unit::Moves::moved))]
fn moved_by(op: MoveOp, s: Word) -> Result2
    ensures { result ≡ moved op s }
{
    match op {
        MoveOp::Plain => Result2::one_word(s, 0), // MOVE, MOVEI, MOVEM, MOVES
        MoveOp::Swap => Result2::one_word(swap(s), 0), // MOVS, MOVSI, MOVSM, MOVSS
        MoveOp::Negate => neg(s), // MOVN, MOVNI, MOVNM, MOVNS
        MoveOp::Magnitude => magnitude(s), // MOVM, MOVMI, MOVMM, MOVMS
    }
}

/// MOVE, MOVS, MOVN, MOVM.
#[inline(always)]
#[tactic(auto, unfolding(its_plain::specs::Unit::Moves::move_row))]
pub fn moves(core: &Core, slot: Slot, x: &Context, op: MoveOp, mode: Mode) -> Result<Draft, Fault>
    requires fits { ContextFits x.now }
    ensures { result ≡ move_row (core_at core.now slot) x.now op mode }
{
    let s = source(core, slot, x, mode)?;
    let r = moved_by(op, s);
    Ok(next(x, stores(x, mode, r.first), r.flags))
}

/// EXCH.
#[inline(always)]
#[tactic(auto, unfolding(its_plain::specs::Unit::Moves::exch_row))]
pub fn exchange(core: &Core, slot: Slot, x: &Context) -> Result<Draft, Fault>
    requires fits { ContextFits x.now }
    ensures { result ≡ exch_row (core_at core.now slot) x.now }
{
    let w = read(core, slot, x.e)?;
    let a = ac_word(core, slot, x);
    Ok(next(x, two(to(x.e, a), to(x.a, w)), 0))
}

/// The destination of a half move, whose other half may stay.
#[inline(always)]
#[tactic(auto, unfolding(its_plain::specs::Unit::Moves::half_to))]
fn destination(core: &Core, slot: Slot, x: &Context, mode: Mode) -> Result<Word, Fault>
    requires fits { ContextFits x.now }
    ensures { result ≡ half_to (core_at core.now slot) x.now mode }
{
    match mode {
        Mode::Basic => Ok(ac_word(core, slot, x)),
        Mode::Immediate => Ok(ac_word(core, slot, x)),
        Mode::Memory => read(core, slot, x.e),
        Mode::Both => read(core, slot, x.e),
    }
}

/// HLL to HLRE, by their place in the order of the opcodes.
#[inline(always)]
#[tactic(auto, unfolding(its_plain::specs::Unit::Moves::half_row))]
pub fn halves(core: &Core, slot: Slot, x: &Context, k: u32, mode: Mode) -> Result<Draft, Fault>
    requires fits { ContextFits x.now }
    requires k { k < 16 }
    ensures { result ≡ half_row (core_at core.now slot) x.now k mode }
{
    let s = source(core, slot, x, mode)?;
    let d = destination(core, slot, x, mode)?;
    let r = half(k, s, d);
    Ok(next(x, stores(x, mode, r.first), 0))
}
