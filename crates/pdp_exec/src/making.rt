//! What a plan does to the core and the registers of a job.
ghost use Rattle.std.specs.Prelude.{◌≡◌, ◌<◌, ◌^◌, [], ◌∷◌, true, OnErr, OnOk};
ghost use Rattle.std.specs.Result.{result_err};
ghost use Rattle.its_core.specs.Cores.{core_at};
ghost use Rattle.its_word.specs.Only.{Only};
ghost use Rattle.its_word.specs.Core.{can_store, store};
ghost use Rattle.its_word.specs.Stores.{first_fault, place, stored};
ghost use Rattle.its_plain.specs.Unit.{after_plan};
ghost use Rattle.pdp_exec.specs.Stores.{list_of};

use super::plans::Draft;
use super::stores::Stores;
use its_core::Core;
use its_records::Job;
use its_word::{ADDRESSES, Fault, NAMED_FLAGS, NoAccess, Slot, Store};

/// Performs one store, if it is possible.
#[inline(always)]
#[tactic(auto, using(crate::proofs::Groups::make_one_laws), unfolding(its_word::specs::Stores::first_fault, its_word::specs::Stores::stored))]
fn make_one(core: &mut Core, slot: Slot, s: Store) -> Result<(), Fault>
    ensures made { result_err result ≡ first_fault (core_at core.old slot) (s ∷ []) }
    ensures stored { OnOk result (Only (core_at core.old) (core_at core.new) slot (stored (core_at core.old slot) (s ∷ []))) }
    ensures reserved { core.new.reserved ≡ core.old.reserved }
    ensures frames { core.new.frames ≡ core.old.frames }
    ensures same { OnErr result (core.new ≡ core.old) }
{
    match core.put(slot, s.at % ADDRESSES, s.word) {
        Ok(()) => Ok(()),
        Err(NoAccess::Absent) => Err(Fault::Mpv),
        Err(NoAccess::ReadOnly) => Err(Fault::Wro),
    }
}

/// Makes a store that can be made.
#[inline(always)]
fn put(core: &mut Core, slot: Slot, s: Store)
    requires allowed { can_store (core_at core.old slot) (place s) ≡ true }
    ensures stored { Only (core_at core.old) (core_at core.new) slot (store (core_at core.old slot) (place s) s.word) }
    ensures reserved { core.new.reserved ≡ core.old.reserved }
    ensures frames { core.new.frames ≡ core.old.frames }
{
    let _ = core.put(slot, s.at % ADDRESSES, s.word);
}

/// Makes two stores, in this order, or none of them.
#[inline(always)]
#[tactic(auto, using(crate::proofs::MakingLaws::storable, crate::proofs::MakingLaws::still_storable), unfolding(its_word::specs::Stores::first_fault))]
fn make_two(core: &mut Core, slot: Slot, s: Store, t: Store) -> Result<(), Fault>
    ensures made { result_err result ≡ first_fault (core_at core.old slot) (s ∷ t ∷ []) }
    ensures stored { OnOk result (Only (core_at core.old) (core_at core.new) slot (stored (core_at core.old slot) (s ∷ t ∷ []))) }
    ensures reserved { core.new.reserved ≡ core.old.reserved }
    ensures frames { core.new.frames ≡ core.old.frames }
    ensures same { OnErr result (core.new ≡ core.old) }
{
    if let Some(f) = core.refusal(slot, s.at % ADDRESSES) {
        return Err(f);
    }
    if let Some(f) = core.refusal(slot, t.at % ADDRESSES) {
        return Err(f);
    }
    put(core, slot, s);
    put(core, slot, t);
    Ok(())
}

/// Makes three stores, or none of them.
#[inline(never)]
fn make_three(core: &mut Core, slot: Slot, stores: [Store; 3]) -> Result<(), Fault>
    ensures made { result_err result ≡ first_fault (core_at core.old slot) stores }
    ensures stored { OnOk result (Only (core_at core.old) (core_at core.new) slot (stored (core_at core.old slot) stores)) }
    ensures reserved { core.new.reserved ≡ core.old.reserved }
    ensures frames { core.new.frames ≡ core.old.frames }
    ensures same { OnErr result (core.new ≡ core.old) }
{
    core.store_all(slot, &stores)
}

/// Makes the stores of a unit, or none of them.
#[inline(always)]
#[tactic(auto, unfolding(its_word::specs::Stores::first_fault, its_word::specs::Stores::stored))]
fn make(core: &mut Core, slot: Slot, stores: Stores) -> Result<(), Fault>
    ensures made { result_err result ≡ first_fault (core_at core.old slot) (list_of stores) }
    ensures stored { OnOk result (Only (core_at core.old) (core_at core.new) slot (stored (core_at core.old slot) (list_of stores))) }
    ensures reserved { core.new.reserved ≡ core.old.reserved }
    ensures frames { core.new.frames ≡ core.old.frames }
    ensures same { OnErr result (core.new ≡ core.old) }
{
    match stores {
        Stores::Zero => Ok(()),
        Stores::One(a) => make_one(core, slot, a),
        Stores::Two(a, b) => make_two(core, slot, a, b),
        Stores::Three(a, b, c) => make_three(core, slot, [a, b, c]),
    }
}

/// The registers after a plan.
#[inline(always)]
fn leave(job: &mut Job, plan: &Draft)
    ensures registers { job.new ≡ after_plan job.old plan.now }
    ensures pc { job.new.pc < 2 ^ 18 }
{
    job.flags = plan.flags() & NAMED_FLAGS;
    job.pend1 = job.pend1 | plan.pending();
    plan.set_pc(job);
}

/// Does what a plan says, or what it cannot.
#[inline(always)]
pub fn carry_out(core: &mut Core, slot: Slot, job: &mut Job, plan: &Draft) -> Result<(), Fault>
    ensures made { result_err result ≡ first_fault (core_at core.old slot) plan.now.stores.items }
    ensures stored { OnOk result (Only (core_at core.old) (core_at core.new) slot (stored (core_at core.old slot) plan.now.stores.items)) }
    ensures left { OnOk result (job.new ≡ after_plan job.old plan.now) }
    ensures pc { OnOk result (job.new.pc < 2 ^ 18) }
    ensures reserved { core.new.reserved ≡ core.old.reserved }
    ensures frames { core.new.frames ≡ core.old.frames }
    ensures same { OnErr result ((core.new ≡ core.old) × (job.new ≡ job.old)) }
{
    make(core, slot, plan.stores())?;
    leave(job, plan);
    Ok(())
}
