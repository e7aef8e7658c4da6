//! Byte instructions (processor reference manual, "Byte manipulation").
ghost use Rattle.std.specs.Prelude.{◌≡◌, ◌<◌, ◌≤◌, ◌^◌, Ok, IfOk, OnOk};
ghost use Rattle.its_core.specs.Cores.{core_at};
ghost use Rattle.its_word.specs.Byte.{has_size, size};
ghost use Rattle.its_plain.specs.Unit.Plans.{ContextFits};
ghost use Rattle.its_plain.specs.Unit.Bytes.{byte_by, byte_row, deposits, first_half, incremented, loads, pointed_to};

use super::plans::{Draft, any_on, next, stay, to};
use super::reads::{ac_word, read};
use super::stores::one;
use its_bytes::{deposit, has_size, increment, load};
use its_core::Core;
use its_word::{Address, BYTE_HALF, ByteOp, Context, Fault, Slot, Word};

/// The pointer to the next byte; Ilo if its size is none of 1 to 36.
#[inline(always)]
#[tactic(auto, unfolding(its_plain::specs::Unit::Bytes::incremented))]
fn step(p: Word) -> Result<Word, Fault>
    ensures { result ≡ incremented p }
{
    increment(p).ok_or(Fault::Ilo)
}

/// The address of a pointer's word, under what is left of the budget; Ilo if its size is none of 1
/// to 36.
#[inline(always)]
#[tactic(auto, unfolding(its_plain::specs::Unit::Bytes::pointed_to))]
fn target(core: &Core, slot: Slot, x: &Context, p: Word) -> Result<u32, Fault>
    requires fits { ContextFits x.now }
    ensures address { result ≡ pointed_to (core_at core.now slot) x.now p }
    ensures below { IfOk result (λ b. b < 2 ^ 18) }
    ensures low { OnOk result (1 ≤ size p) }
    ensures high { OnOk result (size p ≤ 36) }
{
    if !has_size(p) {
        return Err(Fault::Ilo);
    }
    let mut used = x.used;
    let Address {
        e,
        flags_word: _last,
    } = core.effective(slot, p, &mut used)?;
    Ok(e)
}

/// The byte of a pointer to AC.
#[inline(always)]
#[tactic(auto, using(crate::proofs::ByteLaws::byte_is_word), unfolding(its_plain::specs::Unit::Bytes::loads))]
fn loads_byte(core: &Core, slot: Slot, x: &Context, p: Word) -> Result<Draft, Fault>
    requires fits { ContextFits x.now }
    ensures { result ≡ loads (core_at core.now slot) x.now p }
{
    let place = target(core, slot, x, p)?;
    let w = read(core, slot, place)?;
    Ok(next(x, one(to(x.a, Word::new(load(p, w)))), 0))
}

/// The low bits of AC to the byte of a pointer.
#[inline(always)]
#[tactic(auto, unfolding(its_plain::specs::Unit::Bytes::deposits))]
fn deposits_byte(core: &Core, slot: Slot, x: &Context, p: Word) -> Result<Draft, Fault>
    requires fits { ContextFits x.now }
    ensures { result ≡ deposits (core_at core.now slot) x.now p }
{
    let place = target(core, slot, x, p)?;
    let w = read(core, slot, place)?;
    let a = ac_word(core, slot, x);
    Ok(next(x, one(to(place, deposit(p, w, a.value()))), 0))
}

/// The first half of ILDB and IDPB.
#[inline(always)]
#[tactic(auto, unfolding(its_plain::specs::Unit::Bytes::first_half))]
fn first_part(x: &Context, p: Word) -> Result<Draft, Fault>
    ensures { result ≡ first_half x.now p }
{
    Ok(stay(x, one(to(x.e, step(p)?)), x.flags | BYTE_HALF))
}

#[inline(always)]
#[tactic(auto, unfolding(its_plain::specs::Unit::Bytes::byte_by))]
fn by_pointer(core: &Core, slot: Slot, x: &Context, op: ByteOp, p: Word) -> Result<Draft, Fault>
    requires fits { ContextFits x.now }
    ensures { result ≡ byte_by (core_at core.now slot) x.now op p }
{
    let second = any_on(x.flags, BYTE_HALF);
    match op {
        ByteOp::Ibp => Ok(next(x, one(to(x.e, step(p)?)), 0)), // IBP
        ByteOp::Ildb if second => loads_byte(core, slot, x, p), // ILDB
        ByteOp::Idpb if second => deposits_byte(core, slot, x, p), // IDPB
        ByteOp::Ildb | ByteOp::Idpb => first_part(x, p), // ILDB, IDPB
        ByteOp::Ldb => loads_byte(core, slot, x, p), // LDB
        ByteOp::Dpb => deposits_byte(core, slot, x, p), // DPB
    }
}

/// IBP, ILDB, LDB, IDPB, DPB.
#[inline(always)]
#[tactic(auto, unfolding(its_plain::specs::Unit::Bytes::byte_row))]
pub fn bytes(core: &Core, slot: Slot, x: &Context, op: ByteOp) -> Result<Draft, Fault>
    requires fits { ContextFits x.now }
    ensures { result ≡ byte_row (core_at core.now slot) x.now op }
{
    let p = read(core, slot, x.e)?;
    by_pointer(core, slot, x, op, p)
}
