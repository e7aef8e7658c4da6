//! What an instruction that completes does.
ghost use Rattle.std.specs.Prelude.{◌≡◌, ℕ, ◌+◌, ◌%◌, ◌^◌, if◌then◌else◌};
ghost use Rattle.its_plain.specs.Unit.Plans.{ContextFits, completes, is_on, jump as jump_of, next as next_of, skip as skip_of, to as to_place, to_ac_but_0, without as flags_without};
ghost use Rattle.pdp_exec.specs.Stores.{list_of};

use super::stores::{Stores, none, one};
use its_records::Job;
use its_word::{ADDRESSES, BYTE_HALF, Context, Store, Word};
use std::marker::Model;

/// What a unit does: its stores, the PC and the flags after it, and the bits of pending word 1 that
/// it sets. Contracts see it as a `Plan`; its stores are kept so that none of them has to be in
/// memory.
#[derive(Drop)]
pub struct Draft {
    stores: Stores,
    pc: u32,
    far: Option<u32>,
    flags: u32,
    pending: Word,
}

impl Model for Draft {
    ghost use Rattle.its_word.specs.declared.plan.Plan.{Plan};
    ghost use Rattle.std.specs.Prelude.{unwrap_or};
    ghost use Rattle.pdp_exec.specs.Stores.{list_of};

    ghost Value = { Plan };

    ghost view = { λ d. record { stores = record { items = list_of d.stores }; pc = unwrap_or d.far d.pc; flags = d.flags; pending = d.pending } };
}

impl Draft {
    /// Its stores.
    pub fn stores(&self) -> Stores
        ensures { list_of result ≡ self.now.stores.items }
    {
        self.stores
    }

    /// Sets the PC of registers to the one after it.
    #[inline(always)]
    pub fn set_pc(&self, job: &mut Job)
        ensures { job.new ≡ record job.old { pc = self.now.pc % 2 ^ 18 } }
    {
        match self.far {
            Some(a) => jump_to(job, a),
            None => job.pc = self.pc % ADDRESSES,
        }
    }

    /// The flags after it.
    pub fn flags(&self) -> u32
        ensures { result ≡ self.now.flags }
    {
        self.flags
    }

    /// The bits of pending word 1 that it sets.
    pub fn pending(&self) -> Word
        ensures { result ≡ self.now.pending }
    {
        self.pending
    }
}

/// Sets the PC of registers to a place. It is not inlined, so that the choice between this place
/// and the next one stays a branch, which the processor foresees: it would wait for a value that is
/// chosen.
#[inline(never)]
fn jump_to(job: &mut Job, a: u32)
    ensures { job.new ≡ record job.old { pc = a % 2 ^ 18 } }
{
    job.pc = a % ADDRESSES;
}

/// A word at a place.
#[inline(always)]
pub fn to(at: u32, word: Word) -> Store
    ensures { result ≡ to_place at word }
{
    Store { at, word }
}

/// The plan of an instruction that completes: its stores, the flags that it sets, and the PC after
/// it.
#[inline(always)]
pub fn complete(x: &Context, stores: Stores, set: u32, pc: u32) -> Draft
    ensures { result ≡ completes x.now (list_of stores) set pc }
{
    Draft {
        stores,
        pc,
        far: None,
        flags: without(x.flags, BYTE_HALF) | set,
        pending: Word::ZERO,
    }
}

/// The plan of an instruction that completes and goes to `far` if a jump or a skip is taken, else
/// to the next instruction.
#[inline(always)]
fn complete_or(x: &Context, stores: Stores, set: u32, taken: bool, far: u32) -> Draft
    requires { ContextFits x.now }
    ensures { result ≡ completes x.now (list_of stores) set (if taken then far else x.now.pc + 1) }
{
    Draft {
        stores,
        pc: x.pc + 1,
        far: if taken { Some(far) } else { None },
        flags: without(x.flags, BYTE_HALF) | set,
        pending: Word::ZERO,
    }
}

/// The plan of an instruction that completes and goes on to the next one.
#[inline(always)]
pub fn next(x: &Context, stores: Stores, set: u32) -> Draft
    requires { ContextFits x.now }
    ensures { result ≡ next_of x.now (list_of stores) set }
{
    complete(x, stores, set, x.pc + 1)
}

/// The plan of an instruction that completes and goes to E if a jump is taken.
#[inline(always)]
pub fn jump(x: &Context, stores: Stores, set: u32, taken: bool) -> Draft
    requires { ContextFits x.now }
    ensures { result ≡ jump_of x.now (list_of stores) set taken }
{
    complete_or(x, stores, set, taken, x.e)
}

/// The plan of an instruction that completes and passes over the next one if a skip is taken.
#[inline(always)]
pub fn skip(x: &Context, stores: Stores, set: u32, taken: bool) -> Draft
    requires { ContextFits x.now }
    ensures { result ≡ skip_of x.now (list_of stores) set taken }
{
    complete_or(x, stores, set, taken, x.pc + 2)
}

/// A plan that stays at the instruction, with these flags.
#[inline(always)]
pub fn stay(x: &Context, stores: Stores, flags: u32) -> Draft
    ensures { result ≡ record { stores = record { items = list_of stores }; pc = x.now.pc; flags = flags; pending = 0 } }
{
    Draft {
        stores,
        pc: x.pc,
        far: None,
        flags,
        pending: Word::ZERO,
    }
}

/// A plan with other flags.
#[inline(always)]
pub fn with_flags(plan: Draft, flags: u32) -> Draft
    ensures { result ≡ record plan { flags = flags } }
{
    Draft { flags, ..plan }
}

/// A plan with these bits of pending word 1.
#[inline(always)]
pub fn with_pending(plan: Draft, pending: Word) -> Draft
    ensures { result ≡ record plan { pending = pending } }
{
    Draft { pending, ..plan }
}

/// A word for AC, if A is not 0.
#[inline(always)]
pub fn ac_but_0(x: &Context, w: Word) -> Stores
    ensures { list_of result ≡ to_ac_but_0 x.now w }
{
    if x.a == 0 { none() } else { one(to(x.a, w)) }
}

/// Flags without those of a mask.
pub fn without(flags: u32, mask: u32) -> u32
    ensures { result ≡ flags_without flags mask }
{
    flags - (flags & mask)
}

/// Whether a flag of a mask is on.
pub fn any_on(flags: u32, mask: u32) -> bool
    ensures { result ≡ is_on flags mask }
{
    flags & mask != 0
}
