//! What is pending of a call: the words of its arguments, and the parts of its close.
ghost use Rattle.std.specs.Prelude.{◌≡◌, ◌<◌, ◌∷◌, [], length};
ghost use Rattle.its_plain.specs.Call.Arguments.{debts};
ghost use Rattle.its_stepped.specs.Unwind.{first_debt};
ghost use Rattle.its_stepped.specs.State.{mine};
ghost use Rattle.its_world.specs.World.{state_of};

use its_records::Ask;
use its_word::{Slot, Store};
use its_world::World;

/// The first of the last n arguments of a call, all of which are words, as a store of its value.
#[tactic(auto, using(crate::proofs::OwedLaws::first_is, crate::proofs::OwedLaws::enough, crate::proofs::OwedLaws::never_none))]
pub fn first_owed(ask: &Ask, n: u8) -> Store
    requires some { 0 < n }
    requires read { length (debts ask.now n) ≡ n }
    ensures { first_debt (debts ask.now n) ≡ result ∷ [] }
{
    let k = ask.inputs.len() - usize::from(n);
    let operand = ask.inputs[k];
    match operand.place {
        Some(at) => Store {
            at,
            word: operand.value,
        },
        None => unreachable!(),
    }
}

/// Whether the close that is half made is that of a slot's call.
#[tactic(auto, using(crate::proofs::OwedLaws::owner_some, crate::proofs::OwedLaws::owner_none))]
pub fn owns_mark(w: &World, slot: Slot) -> bool
    ensures { result ≡ mine (state_of w.now).mark slot }
{
    match w.files.owner() {
        Some(owner) => owner == slot.number(),
        None => false,
    }
}
