//! Stores of words in a slot's core, in their order.
ghost use Rattle.std.specs.Prelude.{◌≡◌, ◌<◌, ◌^◌, None, OnErr, OnOk, true};
ghost use Rattle.std.specs.Result.{result_err};
ghost use Rattle.its_word.specs.Core.{can_store, store};
ghost use Rattle.its_word.specs.Only.{Only};
ghost use Rattle.its_word.specs.Stores.{first_fault, place, refused, stored};
ghost use Rattle.its_core.specs.Cores.{core_at};

use super::cores::Core;
use its_word::{ADDRESSES, Fault, Slot, Store};

impl Core {
    /// Why a word cannot be stored at an address of a slot: Mpv if its page is absent, Wro if it is
    /// read only. None exactly if it can be stored.
    #[tactic(auto, using(crate::proofs::Groups::refusal_laws))]
    pub fn refusal(&self, slot: Slot, a: u32) -> Option<Fault>
        requires address { a < 2 ^ 18 }
        ensures { result ≡ refused (core_at self.now slot) a }
    {
        match self.get(slot, a) {
            Err(_) => Some(Fault::Mpv),
            Ok(_) if a < 16 => None,
            Ok(_) => match self.page(slot, (a / 1024) as u8) {
                Some(false) => Some(Fault::Wro),
                _ => None,
            },
        }
    }

    /// Why the first of these stores that is not possible is refused; None if all are possible.
    #[tactic(auto, using(its_word::proofs::StoreLaws::fault_here, its_word::proofs::StoreLaws::fault_further))]
    pub fn first_fault(&self, slot: Slot, stores: &[Store]) -> Option<Fault>
        ensures { result ≡ first_fault (core_at self.now slot) stores.now }
    {
        for s in stores {
            if let Some(f) = self.refusal(slot, s.at % ADDRESSES) {
                return Some(f);
            }
        }
        None
    }

    /// Makes a store that can be made.
    fn make(&mut self, slot: Slot, s: &Store)
        requires allowed { can_store (core_at self.old slot) (place s.now) ≡ true }
        ensures stored { Only (core_at self.old) (core_at self.new) slot (store (core_at self.old slot) (place s.now) s.now.word) }
        ensures reserved { self.new.reserved ≡ self.old.reserved }
        ensures frames { self.new.frames ≡ self.old.frames }
    {
        let _ = self.put(slot, s.at % ADDRESSES, s.word);
    }

    /// Makes stores that can be made, in their order.
    #[tactic(auto, using(its_word::proofs::StoreLaws::making_begins, its_word::proofs::StoreLaws::making_allows, its_word::proofs::StoreLaws::making_ends))]
    pub fn make_all(&mut self, slot: Slot, stores: &[Store])
        requires checked { first_fault (core_at self.old slot) stores.now ≡ None }
        ensures stored { Only (core_at self.old) (core_at self.new) slot (stored (core_at self.old slot) stores.now) }
        ensures reserved { self.new.reserved ≡ self.old.reserved }
        ensures frames { self.new.frames ≡ self.old.frames }
    {
        for s in stores {
            self.make(slot, s);
        }
    }

    /// Performs all of these stores, in their order, or none of them if one is not possible.
    pub fn store_all(&mut self, slot: Slot, stores: &[Store]) -> Result<(), Fault>
        ensures made { result_err result ≡ first_fault (core_at self.old slot) stores.now }
        ensures stored { OnOk result (Only (core_at self.old) (core_at self.new) slot (stored (core_at self.old slot) stores.now)) }
        ensures reserved { self.new.reserved ≡ self.old.reserved }
        ensures frames { self.new.frames ≡ self.old.frames }
        ensures same { OnErr result (self.new ≡ self.old) }
    {
        if let Some(f) = self.first_fault(slot, stores) {
            return Err(f);
        }
        self.make_all(slot, stores);
        Ok(())
    }
}
