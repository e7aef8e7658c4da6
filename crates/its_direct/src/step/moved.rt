//! A byte or word of SIOT is moved: what changes, the byte that is held, and the new pointer and
//! count.
ghost use Rattle.std.specs.Prelude.{◌≡◌, ◌<◌, ◌∷◌, [], None, length};
ghost use Rattle.its_word.specs.Stores.{first_fault};
ghost use Rattle.its_plain.specs.Call.Arguments.{debts, place_of_input, with_new_values};
ghost use Rattle.its_plain.specs.Call.Step.{after_moves};
ghost use Rattle.its_plain.specs.Machine.Change.{effect, effects, in_job};
ghost use Rattle.its_plain.specs.Machine.{core_of};
ghost use Rattle.its_plain.specs.Machine.Own.{with_stores};
ghost use Rattle.its_shared.specs.Can.{CanMake, HasJob};
ghost use Rattle.its_decide.specs.Moving.{change_of};
ghost use Rattle.its_direct.specs.Effects.{Becomes};
ghost use Rattle.its_direct.specs.Plain.{machine_of, Tidy};
ghost use Rattle.its_direct.specs.Ready.{Carries, GoesOn, core_behind};

use crate::plain::Plain;
use crate::step::steps::new_values;
use its_decide::{NextMove, Shift};
use its_records::Ask;
use its_word::{ConsoleNumber, Slot, Store, Word};

impl Plain {
    /// Carries out a part of a call of a slot's job that moves a byte or word, when the call has
    /// three inputs. The slots that are touched stay.
    #[inline(always)]
    pub(crate) fn move_one(&mut self, slot: Slot, ask: &Ask, moved: &NextMove)
        requires inputs { length ask.now.inputs.items ≡ 3 }
        requires carries { Carries (machine_of self.old) slot (change_of moved.now.shift ∷ []) }
        requires part { GoesOn (core_behind (machine_of self.old) slot (change_of moved.now.shift ∷ [])) ask.now moved.now.held (moved.now.next ∷ moved.now.left ∷ []) }
        requires tidy { Tidy self.old }
        ensures row { Becomes self.old self.new (in_job (effects (change_of moved.now.shift ∷ []) slot (machine_of self.old)) slot (after_moves ask.now moved.now.held (moved.now.next ∷ moved.now.left ∷ []))) }
        ensures tidy { Tidy self.new }
    {
        self.shift(slot, moved.shift);
        self.put_held(slot, ask, moved.held, &[moved.next, moved.left]);
        self.store_two(slot, ask, moved.next, moved.left);
    }

    /// Makes the change of such a part.
    #[inline(always)]
    #[tactic(auto, unfolding(its_plain::specs::Machine::Change::effect))]
    fn shift(&mut self, slot: Slot, shift: Shift)
        requires can { CanMake (change_of shift) slot (machine_of self.old) }
        requires tidy { Tidy self.old }
        ensures row { Becomes self.old self.new (effect (change_of shift) slot (machine_of self.old)) }
        ensures tidy { Tidy self.new }
    {
        match shift {
            Shift::Move { channel, at } => self.move_to(slot, channel, at),
            Shift::Append { channel, word } => self.append(slot, channel, word),
            Shift::Take { console } => self.take(ConsoleNumber::new(console)),
            Shift::Put { console, byte } => self.put(ConsoleNumber::new(console), byte),
            Shift::Send { link, word } => self.send(link, word),
            Shift::Receive { link } => self.receive(link),
        }
    }

    /// Stores the new values of the last two of three inputs of a call of a slot's job.
    #[inline(always)]
    fn store_two(&mut self, slot: Slot, ask: &Ask, next: Word, left: Word)
        requires inputs { length ask.now.inputs.items ≡ 3 }
        requires job { HasJob (machine_of self.old) slot }
        requires can { first_fault (core_of ((machine_of self.old).jobs slot)) (debts (with_new_values ask.now (next ∷ left ∷ [])) 2) ≡ None }
        requires tidy { Tidy self.old }
        ensures row { Becomes self.old self.new (in_job (machine_of self.old) slot (with_stores (debts (with_new_values ask.now (next ∷ left ∷ [])) 2))) }
        ensures tidy { Tidy self.new }
    {
        match (place_of(ask, 1), place_of(ask, 2)) {
            (Some(p), Some(k)) => {
                let pointer = Store { at: p, word: next };
                let count = Store { at: k, word: left };
                self.store(slot, &[pointer, count]);
            }
            _ => self.store(slot, &new_values(ask, &[next, left])),
        }
    }
}

/// The address of the word of an input of a call; None if it is immediate or there is none.
#[inline(always)]
fn place_of(ask: &Ask, k: usize) -> Option<u32>
    ensures { result ≡ place_of_input ask.now k }
{
    match ask.inputs.get(k) {
        Some(operand) => operand.place,
        None => None,
    }
}
