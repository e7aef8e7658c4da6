//! The effective address of an address word: index registers, indirect words, and the budget.

ghost use Rattle.std.specs.Prelude.{◌≡◌, ◌<◌, ◌≤◌, ◌+◌, ◌-◌, ◌*◌, ◌^◌, ◌++◌, length, IfOk};
ghost use Rattle.its_word.specs.Address.{address as address_of, indexed, index_of, index_places, is_indirect, last_used};
ghost use Rattle.its_word.specs.Limits.{budget};
ghost use Rattle.its_core.specs.Cores.{core_at};

use super::cores::Core;
use arrayvec::ArrayVec;
use its_word::{Address, BUDGET, Fault, Slot, Word};

/// I of an address word.
fn is_indirect(w: Word) -> bool
    ensures { result ≡ is_indirect w }
{
    w.value() >> 22 & 1 == 1
}

/// X of an address word.
fn index(w: Word) -> u32
    ensures number { result ≡ index_of w }
    ensures below { result < 16 }
{
    (w.value() >> 18 & 0o17) as u32
}

/// Notes the index register of an address word, if it has one.
#[tactic(auto, unfolding(its_word::specs::Address::index_places))]
fn note_index(w: Word, reads: &mut ArrayVec<u32, 160>)
    requires { length reads.old.items < 160 }
    ensures { reads.new.items ≡ reads.old.items ++ index_places w }
{
    let x = index(w);
    if x != 0 {
        reads.push(x);
    }
}

impl Core {
    /// The address that an address word gives before indirection, and the last index register or
    /// indirect word with it.
    #[tactic(auto, unfolding(its_word::specs::Address::indexed, its_word::specs::Address::last_used))]
    fn indexed(&self, slot: Slot, w: Word, last: Option<Word>) -> (u32, Option<Word>)
        ensures e { result.0 ≡ indexed (core_at self.now slot) w }
        ensures last { result.1 ≡ last_used (core_at self.now slot) w last }
        ensures below { result.0 < 2 ^ 18 }
    {
        let x = index(w);
        if x == 0 {
            return (w.right(), last);
        }
        let v = self.acc(slot, x);
        ((w.right() + v.right()) & 0o777777, Some(v))
    }

    /// The effective address of an address word. `used` is how much of the budget of 64 indirect
    /// words and XCT targets is used, and `reads` gets the places that are read, in their order.
    /// Mpv if an indirect word is absent, Ilo if the budget is at its end before an indirect word,
    /// which is then not read.
    pub fn address(
        &self,
        slot: Slot,
        w: Word,
        used: &mut u32,
        reads: &mut ArrayVec<u32, 160>,
    ) -> Result<Address, Fault>
        requires used { used.old ≤ budget }
        requires room { length reads.old.items + (129 - 2 * used.old) ≤ 160 }
        ensures answer { result ≡ (address_of (core_at self.now slot) w used.old).answer }
        ensures reads { reads.new.items ≡ reads.old.items ++ (address_of (core_at self.now slot) w used.old).reads }
        ensures used { used.new ≡ (address_of (core_at self.now slot) w used.old).used }
        ensures below { IfOk result (λ a. a.e < 2 ^ 18) }
        ensures more { (used.old ≤ used.new) × (used.new ≤ budget) }
        ensures few { length reads.new.items + 2 * used.old ≤ length reads.old.items + 2 * used.new + 1 }
    {
        let mut word = w;
        let mut last = None;
        loop {
            note_index(word, reads);
            let (e, flags_word) = self.indexed(slot, word, last);
            if !is_indirect(word) {
                return Ok(Address { e, flags_word });
            }
            if *used == BUDGET {
                return Err(Fault::Ilo);
            }
            *used += 1;
            reads.push(e);
            let Ok(next) = self.get(slot, e) else {
                return Err(Fault::Mpv);
            };
            word = next;
            last = Some(next);
        }
    }

    /// The effective address as `address` has it, for one who does not need the places that are
    /// read. Nearly all address words have I = 0: nothing but an index register is looked at then.
    #[inline(always)]
    #[tactic(auto, using(its_word::proofs::AddressLaws::direct_answer, its_word::proofs::AddressLaws::direct_used))]
    pub fn effective(&self, slot: Slot, w: Word, used: &mut u32) -> Result<Address, Fault>
        requires used { used.old ≤ budget }
        ensures answer { result ≡ (address_of (core_at self.now slot) w used.old).answer }
        ensures used { used.new ≡ (address_of (core_at self.now slot) w used.old).used }
        ensures below { IfOk result (λ a. a.e < 2 ^ 18) }
        ensures more { (used.old ≤ used.new) × (used.new ≤ budget) }
    {
        if is_indirect(w) {
            return self.indirect(slot, w, used);
        }
        let (e, flags_word) = self.indexed(slot, w, None);
        Ok(Address { e, flags_word })
    }

    /// The effective address of any address word; the places that are read are not noted.
    #[inline(never)]
    fn indirect(&self, slot: Slot, w: Word, used: &mut u32) -> Result<Address, Fault>
        requires used { used.old ≤ budget }
        ensures answer { result ≡ (address_of (core_at self.now slot) w used.old).answer }
        ensures used { used.new ≡ (address_of (core_at self.now slot) w used.old).used }
        ensures below { IfOk result (λ a. a.e < 2 ^ 18) }
        ensures more { (used.old ≤ used.new) × (used.new ≤ budget) }
    {
        let mut reads = ArrayVec::new();
        self.address(slot, w, used, &mut reads)
    }
}
