//! The words of a job's core: EXAM, DEPOSIT and the words of LOAD.
ghost use Rattle.std.specs.Prelude.{◌≡◌, ◌≤◌, ◌<◌, ◌/◌, ◌^◌, true, Some, None, Ok, Err, IfOk, OnOk, OnErr, IfErr, is_some, nat_lt};
ghost use Rattle.its_word.specs.Limits.{most_pages};
ghost use Rattle.its_word.specs.Core.{store, can_store, word_at, page_of, with_page, zero_page, pages_mapped};
ghost use Rattle.its_core.specs.Cores.{core_at, clear_at};
ghost use Rattle.its_core.specs.Frames.{frames_map, frames_reserve};
ghost use Rattle.its_jobs.specs.Table.{job_at};
ghost use Rattle.its_plain.specs.Operator.Jobs.{with_word_loaded, word_seen, after_deposit};
ghost use Rattle.its_plain.specs.Machine.{core_of};
ghost use Rattle.its_stepped.specs.State.{plain};
ghost use Rattle.its_stepped.specs.Unwind.{unwound};
ghost use Rattle.its_world.specs.World.{state_of, frames_after, with_frames, CoreBecomes, plain_of};
ghost use Rattle.its_pclsr.specs.Apart.{CoresOff};
ghost use Rattle.its_shared.specs.Refusals.{refusal_of};
ghost use Rattle.its_monitor.specs.Kept.{Kept, Lands, Refused, Calmed, undepositable, unloadable, frames_loaded};

use super::monitor::Monitor;
use its_pclsr::unwind;
use its_records::Refusal;
use its_word::{Fault, MAPPED_PAGES, NoAccess, Slot, Word};
use its_world::World;

impl Monitor {
    /// EXAM: the word at an address of a slot. NoJob if the slot is empty, NoPage if the page is
    /// absent.
    #[tactic(auto, using(crate::proofs::Groups::exam_laws))]
    pub fn exam(&mut self, slot: Slot, a: u32) -> Result<Word, Refusal>
        requires address { a < 2 ^ 18 }
        requires kept { Kept self.old.world }
        ensures word { IfOk result (λ x. word_seen (unwound (state_of self.old.world) slot).raw slot a ≡ Ok x) }
        ensures plain { IfOk result (λ x. word_seen (plain_of self.old.world) slot a ≡ Ok x) }
        ensures unwinds { OnOk result (state_of self.new.world ≡ unwound (state_of self.old.world) slot) }
        ensures leaves { plain_of self.new.world ≡ plain_of self.old.world }
        ensures refused { IfErr result (λ e. Refused (state_of self.old.world) (unwound (state_of self.old.world) slot) (λ m. word_seen m slot a) e) }
        ensures same { OnErr result (self.new ≡ self.old) }
        ensures cores { OnOk result (CoresOff self.old.world self.new.world slot) }
        ensures kept { Kept self.new.world }
    {
        let world = &mut self.world;
        present(world, slot)?;
        match world.core.get(slot, a) {
            Ok(_) => {}
            Err(e) => return Err(refusal(e)),
        }
        calm(world, slot);
        match world.core.get(slot, a) {
            Ok(word) => Ok(word),
            Err(_) => unreachable!(),
        }
    }

    /// DEPOSIT: stores a word of a slot. NoJob if the slot is empty; NoPage if the page is absent,
    /// ReadOnly if it is read only.
    #[tactic(auto, using(crate::proofs::Groups::deposit_laws))]
    pub fn deposit(&mut self, slot: Slot, a: u32, w: Word) -> Result<(), Refusal>
        requires address { a < 2 ^ 18 }
        requires kept { Kept self.old.world }
        ensures done { OnOk result (Lands (unwound (state_of self.old.world) slot) (state_of self.new.world) (after_deposit (unwound (state_of self.old.world) slot).raw slot a w)) }
        ensures plain { OnOk result (after_deposit (plain_of self.old.world) slot a w ≡ Ok (plain_of self.new.world)) }
        ensures refused { IfErr result (λ e. Refused (state_of self.old.world) (unwound (state_of self.old.world) slot) (λ m. after_deposit m slot a w) e) }
        ensures same { OnErr result (self.new ≡ self.old) }
        ensures cores { OnOk result (CoresOff self.old.world self.new.world slot) }
        ensures kept { Kept self.new.world }
    {
        let world = &mut self.world;
        present(world, slot)?;
        match undepositable(world, slot, a) {
            None => {}
            Some(e) => return Err(e),
        }
        calm(world, slot);
        world.store(slot, a, w);
        Ok(())
    }

    /// One word of an a/ line: an absent page is made, writable and of zeros. NoJob if the slot is
    /// empty; ReadOnly if the page is read only; Full if a page is needed and 1024 pages are
    /// mapped.
    #[tactic(auto, using(crate::proofs::Groups::load_word_laws))]
    pub fn load_word(&mut self, slot: Slot, a: u32, w: Word) -> Result<(), Refusal>
        requires address { a < 2 ^ 18 }
        requires kept { Kept self.old.world }
        ensures done { OnOk result (Lands (unwound (state_of self.old.world) slot) (state_of self.new.world) (with_word_loaded (unwound (state_of self.old.world) slot).raw slot a w)) }
        ensures plain { OnOk result (with_word_loaded (plain_of self.old.world) slot a w ≡ Ok (plain_of self.new.world)) }
        ensures refused { IfErr result (λ e. Refused (state_of self.old.world) (unwound (state_of self.old.world) slot) (λ m. with_word_loaded m slot a w) e) }
        ensures same { OnErr result (self.new ≡ self.old) }
        ensures pages { OnOk result (self.new.world.core.frames ≡ frames_loaded (is_some (word_at (core_of ((unwound (state_of self.old.world) slot).raw.jobs slot)) a)) slot (a / 1024) (frames_after (clear_at self.old.world.core slot) None slot self.old.world.core.frames)) }
        ensures kept { Kept self.new.world }
    {
        let world = &mut self.world;
        present(world, slot)?;
        match unloadable(world, slot, a) {
            None => {}
            Some(e) => return Err(e),
        }
        calm(world, slot);
        match world.put_word(slot, a, w) {
            Ok(()) => Ok(()),
            Err(NoAccess::ReadOnly) => unreachable!(),
            Err(NoAccess::Absent) => {
                load_page(world, slot, a, w);
                Ok(())
            }
        }
    }
}

/// Why a word cannot be deposited at an address of a slot that has a job, if it cannot.
#[tactic(auto, using(crate::proofs::WordLaws::bar_none, crate::proofs::WordLaws::bar_read_only, crate::proofs::WordLaws::bar_absent))]
fn undepositable(w: &World, slot: Slot, a: u32) -> Option<Refusal>
    requires address { a < 2 ^ 18 }
    ensures { result ≡ undepositable (can_store (core_at w.now.core slot) a) (is_some (word_at (core_at w.now.core slot) a)) }
{
    match w.core.refusal(slot, a) {
        None => None,
        Some(Fault::Wro) => Some(Refusal::ReadOnly),
        Some(_) => Some(Refusal::NoPage),
    }
}

/// Why a word cannot be loaded at an address of a slot that has a job, if it cannot.
fn unloadable(w: &World, slot: Slot, a: u32) -> Option<Refusal>
    requires address { a < 2 ^ 18 }
    ensures { result ≡ unloadable (can_store (core_at w.now.core slot) a) (is_some (word_at (core_at w.now.core slot) a)) (nat_lt (pages_mapped (core_at w.now.core)) most_pages) }
{
    match w.core.refusal(slot, a) {
        None => None,
        Some(Fault::Wro) => Some(Refusal::ReadOnly),
        Some(_) => {
            if w.core.mapped() < MAPPED_PAGES {
                None
            } else {
                Some(Refusal::Full)
            }
        }
    }
}

/// Makes the page of an address, and stores a word there.
#[tactic(auto, using(its_word::proofs::PageLaws::zero_stores))]
fn load_page(w: &mut World, slot: Slot, a: u32, word: Word)
    requires address { a < 2 ^ 18 }
    requires page { 16 ≤ a }
    requires absent { page_of (core_at w.old.core slot) (a / 1024) ≡ None }
    requires room { pages_mapped (core_at w.old.core) < most_pages }
    requires unreserved { clear_at w.old.core slot ≡ None }
    ensures loaded { CoreBecomes w.old (with_frames w.new w.old.core.frames) slot (store (with_page (core_at w.old.core slot) (a / 1024) (Some zero_page)) a word) }
    ensures frames { w.new.core.frames ≡ frames_map slot slot (a / 1024) (frames_reserve slot w.old.core.frames) }
{
    make_page(w, slot, (a / 1024) as u8);
    w.store(slot, a, word);
}

/// Makes a page of zeros of a slot.
fn make_page(w: &mut World, slot: Slot, page: u8)
    requires absent { page_of (core_at w.old.core slot) page ≡ None }
    requires room { pages_mapped (core_at w.old.core) < most_pages }
    requires unreserved { clear_at w.old.core slot ≡ None }
    ensures made { CoreBecomes w.old (with_frames w.new w.old.core.frames) slot (with_page (core_at w.old.core slot) page (Some zero_page)) }
    ensures frames { w.new.core.frames ≡ frames_map slot slot page (frames_reserve slot w.old.core.frames) }
    ensures there { page_of (core_at w.new.core slot) page ≡ Some zero_page }
{
    w.core.map_zeros(slot, page);
}

/// Unwinds the job of a slot.
#[tactic(auto, using(crate::proofs::KeptLaws::unwound_calm))]
pub fn calm(w: &mut World, slot: Slot)
    requires some { is_some (job_at w.old.jobs slot) ≡ true }
    requires kept { Kept w.old }
    ensures { Calmed w.old w.new slot }
{
    unwind(w, slot);
}

/// NoJob if a slot is empty.
pub fn present(w: &World, slot: Slot) -> Result<(), Refusal>
    ensures refused { IfErr result (λ e. (e ≡ Refusal.NoJob) × (job_at w.now.jobs slot ≡ None)) }
    ensures some { OnOk result (is_some (job_at w.now.jobs slot) ≡ true) }
{
    if w.registers(slot).is_none() {
        return Err(Refusal::NoJob);
    }
    Ok(())
}

/// Why the operator cannot have a word.
fn refusal(e: NoAccess) -> Refusal
    ensures { result ≡ refusal_of e }
{
    match e {
        NoAccess::Absent => Refusal::NoPage,
        NoAccess::ReadOnly => Refusal::ReadOnly,
    }
}
