//! The symbols that SYM gives a job, and the version that a session sets.
ghost use Rattle.std.specs.Prelude.{◌≡◌, ◌≤◌, Ok, IfOk, OnOk, OnErr, IfErr, nat_lt, length};
ghost use Rattle.its_word.specs.Limits.{most_symbols};
ghost use Rattle.its_plain.specs.Operator.Symbols.{symbol_shown, with_symbol_kept};
ghost use Rattle.its_plain.specs.Operator.Version.{with_version};
ghost use Rattle.its_stepped.specs.State.{plain};
ghost use Rattle.its_world.specs.World.{state_of, symbols_at, plain_of};
ghost use Rattle.its_monitor.specs.Kept.{Kept, Lands, Refused};

use super::monitor::Monitor;
use super::words::present;
use its_records::Refusal;
use its_shared::nearest;
use its_word::{MOST_SYMBOLS, Slot, Word};
use its_world::World;

impl Monitor {
    /// VERSION: if no slot has a job, the machine becomes one of this version, which can have 64
    /// jobs, or 96 in version 2; else it stays as it is.
    #[tactic(auto, using(crate::proofs::SymbolLaws::version_plain, crate::proofs::SymbolLaws::version_kept, crate::proofs::SymbolLaws::version_stays, crate::proofs::SymbolLaws::version_same))]
    pub fn version(&mut self, v: u8)
        requires known { (1 ≤ v) × (v ≤ 2) }
        requires kept { Kept self.old.world }
        ensures done { Lands (state_of self.old.world) (state_of self.new.world) (Ok (with_version (state_of self.old.world).raw v)) }
        ensures plain { with_version (plain_of self.old.world) v ≡ plain_of self.new.world }
        ensures core { self.new.world.core ≡ self.old.world.core }
        ensures kept { Kept self.new.world }
    {
        let world = &mut self.world;
        if world.jobs.is_empty() {
            world.set_version(v);
        }
    }

    /// SYM: a slot's job keeps a symbol, the last. NoJob if the slot is empty, Full if the job has
    /// 512. The job is not disturbed.
    #[tactic(auto, using(crate::proofs::Groups::symbol_laws))]
    pub fn symbol(&mut self, slot: Slot, name: Word, a: u32) -> Result<(), Refusal>
        requires kept { Kept self.old.world }
        ensures done { OnOk result (Lands (state_of self.old.world) (state_of self.new.world) (with_symbol_kept (state_of self.old.world).raw slot name a)) }
        ensures plain { OnOk result (with_symbol_kept (plain_of self.old.world) slot name a ≡ Ok (plain_of self.new.world)) }
        ensures refused { IfErr result (λ e. Refused (state_of self.old.world) (state_of self.old.world) (λ m. with_symbol_kept m slot name a) e) }
        ensures same { OnErr result (self.new ≡ self.old) }
        ensures core { self.new.world.core ≡ self.old.world.core }
        ensures kept { Kept self.new.world }
    {
        let world = &mut self.world;
        present(world, slot)?;
        if has_room(world, slot) {
            world.keep_symbol(slot, name, a);
            Ok(())
        } else {
            Err(Refusal::Full)
        }
    }
}

/// Whether there is room for a symbol more of a slot.
fn has_room(w: &World, slot: Slot) -> bool
    ensures { result ≡ nat_lt (length (symbols_at w.now.symbols.items slot)) most_symbols }
{
    w.symbols[slot.index()].len() < MOST_SYMBOLS
}

/// The symbol of a slot's job that is nearest to a PC, and how far the PC is past it.
pub fn near(w: &World, slot: Slot, pc: u32) -> Option<(Word, u32)>
    ensures { result ≡ symbol_shown pc (symbols_at w.now.symbols.items slot) }
{
    nearest(w.symbols[slot.index()].as_slice(), pc)
}
