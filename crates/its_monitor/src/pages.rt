//! Pages that the operator makes read only (RO), and the words that they bar.
ghost use Rattle.std.specs.Prelude.{◌≡◌, ◌<◌, ◌≤◌, ◌+◌, ◌^◌, true, false, Ok, OnOk, OnErr, IfErr, is_some};
ghost use Rattle.its_word.specs.Core.{page_of, with_page, marked};
ghost use Rattle.its_core.specs.Cores.{core_at};
ghost use Rattle.its_plain.specs.Operator.Jobs.{any_barred, is_barred, with_page_protected, words_barred};
ghost use Rattle.its_stepped.specs.State.{plain};
ghost use Rattle.its_stepped.specs.Unwind.{unwound};
ghost use Rattle.its_world.specs.World.{state_of, CoreBecomes, plain_of};
ghost use Rattle.its_pclsr.specs.Apart.{CoresOff};
ghost use Rattle.its_monitor.specs.Kept.{Kept, Lands, Refused};

use super::monitor::Monitor;
use super::words::{calm, present};
use its_records::Refusal;
use its_word::{Fault, Slot};
use its_world::World;

impl Monitor {
    /// RO: a page of a slot's job becomes read only. NoJob if the slot is empty, NoPage if the page
    /// is absent.
    #[tactic(auto, using(crate::proofs::Groups::read_only_laws))]
    pub fn read_only(&mut self, slot: Slot, page: u8) -> Result<(), Refusal>
        requires kept { Kept self.old.world }
        ensures done { OnOk result (Lands (unwound (state_of self.old.world) slot) (state_of self.new.world) (with_page_protected (unwound (state_of self.old.world) slot).raw slot page)) }
        ensures plain { OnOk result (with_page_protected (plain_of self.old.world) slot page ≡ Ok (plain_of self.new.world)) }
        ensures refused { IfErr result (λ e. Refused (state_of self.old.world) (unwound (state_of self.old.world) slot) (λ m. with_page_protected m slot page) e) }
        ensures same { OnErr result (self.new ≡ self.old) }
        ensures cores { OnOk result (CoresOff self.old.world self.new.world slot) }
        ensures kept { Kept self.new.world }
    {
        let world = &mut self.world;
        present(world, slot)?;
        if !has_page(world, slot, page) {
            return Err(Refusal::NoPage);
        }
        calm(world, slot);
        protect(world, slot, page);
        Ok(())
    }

    /// Whether any of n words of a slot from an address on is on a read-only page: then an `a/`
    /// line of n words there is refused, before any of them is stored. False if the slot is empty.
    #[tactic(auto, using(crate::proofs::ProtectLaws::calm_some, crate::proofs::ProtectLaws::calm_none, crate::proofs::ProtectLaws::plain_some, crate::proofs::ProtectLaws::plain_none))]
    pub fn barred(&self, slot: Slot, a: u32, n: u32) -> bool
        requires end { a + n ≤ 2 ^ 18 }
        requires kept { Kept self.now.world }
        ensures calmed { result ≡ words_barred (unwound (state_of self.now.world) slot).raw slot a n }
        ensures plain { result ≡ words_barred (plain_of self.now.world) slot a n }
    {
        let world = &self.world;
        match present(world, slot) {
            Ok(()) => any_barred(world, slot, a, n),
            Err(_) => false,
        }
    }
}

/// Whether an `a/` line would store a word on a read-only page of a slot's core.
#[tactic(auto, using(its_plain::proofs::BarredLaws::any_start, its_plain::proofs::BarredLaws::any_here, its_plain::proofs::BarredLaws::any_next, its_plain::proofs::BarredLaws::any_end))]
fn any_barred(w: &World, slot: Slot, a: u32, n: u32) -> bool
    requires end { a + n ≤ 2 ^ 18 }
    ensures { result ≡ any_barred (core_at w.now.core slot) a n }
{
    for k in 0..n {
        if is_barred(w, slot, a + k) {
            return true;
        }
    }
    false
}

/// Whether the word of a slot at an address is on a read-only page.
#[tactic(auto, using(crate::proofs::ProtectLaws::barred_read_only, crate::proofs::ProtectLaws::barred_absent, crate::proofs::ProtectLaws::barred_free))]
fn is_barred(w: &World, slot: Slot, a: u32) -> bool
    requires address { a < 2 ^ 18 }
    ensures { result ≡ is_barred (core_at w.now.core slot) a }
{
    match w.core.refusal(slot, a) {
        Some(Fault::Wro) => true,
        Some(_) => false,
        None => false,
    }
}

/// Whether a page of a slot is there.
#[tactic(auto, using(crate::proofs::ProtectLaws::marked_some))]
fn has_page(w: &World, slot: Slot, page: u8) -> bool
    ensures { result ≡ is_some (page_of (core_at w.now.core slot) page) }
{
    w.core.page(slot, page).is_some()
}

/// Makes a page of a slot read only that is there.
#[tactic(auto, using(its_world::proofs::WorldLaws::core_becomes))]
fn protect(w: &mut World, slot: Slot, page: u8)
    requires there { is_some (page_of (core_at w.old.core slot) page) ≡ true }
    ensures { CoreBecomes w.old w.new slot (with_page (core_at w.old.core slot) page (marked (page_of (core_at w.old.core slot) page) false)) }
{
    w.core.protect(slot, page, false);
}
