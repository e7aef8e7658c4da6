//! What is pending after a decision, as steps of the frame: stores, held bytes, parts of a close.

ghost use Rattle.std.specs.Prelude.{◌≡◌, ◌<◌, ◌≤◌, ◌+◌, ◌-◌, ◌∷◌, ◌++◌, [], ℕ, Bool, true, false, Some, None, is_some, length, map, if◌then◌else◌};
ghost use Rattle.its_records.specs.declared.calls.Owed.TheVariants.{GiveBack, Leave};
ghost use Rattle.its_plain.specs.Call.Arguments.{debts};
ghost use Rattle.its_stepped.specs.Commit.{owed_store};
ghost use Rattle.its_commit.specs.Built.{backed};

use super::owed::first_owed;
use arrayvec::ArrayVec;
use its_records::{Ask, Exit, Owed};
use its_word::Store;

/// The pending steps of a call that has ended: the parts of its close; its reserved page, if it has
/// one; the last `owes` of its arguments; its own stores; and its registers.
pub fn owed_steps(
    parts: &[Owed],
    reserved: bool,
    ask: &Ask,
    owes: u8,
    stores: &[Store],
    exit: Exit,
) -> ArrayVec<Owed, 4>
    requires read { length (debts ask.now owes) ≡ owes }
    requires few { length parts.now + (if reserved then 1 else 0) + owes + length stores.now ≤ 3 }
    ensures { result.items ≡ parts.now ++ (backed reserved ++ (map owed_store (debts ask.now owes ++ stores.now) ++ Leave exit ∷ [])) }
{
    let mut owed = ArrayVec::new();
    push_parts(&mut owed, parts);
    if reserved {
        owed.push(Owed::GiveBack);
    }
    push_debts(&mut owed, ask, owes);
    push_stores(&mut owed, stores);
    owed.push(Owed::Leave(exit));
    owed
}

/// Adds the parts of a close.
fn push_parts(owed: &mut ArrayVec<Owed, 4>, parts: &[Owed])
    requires room { length owed.old.items + length parts.now ≤ 3 }
    ensures { owed.new.items ≡ owed.old.items ++ parts.now }
{
    for part in parts {
        owed.push(*part);
    }
}

/// Adds the last arguments of a call, as stores.
#[tactic(auto, using(crate::proofs::CarryLaws::debt_pushed, crate::proofs::CarryLaws::debt_read, crate::proofs::CarryLaws::debts_pushed))]
fn push_debts(owed: &mut ArrayVec<Owed, 4>, ask: &Ask, owes: u8)
    requires read { length (debts ask.now owes) ≡ owes }
    requires room { length owed.old.items + owes ≤ 3 }
    ensures { owed.new.items ≡ owed.old.items ++ map owed_store (debts ask.now owes) }
{
    for k in 0..owes {
        let store = first_owed(ask, owes - k);
        owed.push(Owed::Store(store.at, store.word));
    }
}

/// Adds stores.
fn push_stores(owed: &mut ArrayVec<Owed, 4>, stores: &[Store])
    requires room { length owed.old.items + length stores.now ≤ 3 }
    ensures { owed.new.items ≡ owed.old.items ++ map owed_store stores.now }
{
    for store in stores {
        owed.push(Owed::Store(store.at, store.word));
    }
}
