//! The words of a LOAD block.
ghost use Rattle.std.specs.Prelude.{◌≡◌, ◌<◌, ◌≤◌, ◌+◌, ◌-◌, ◌/◌, ◌^◌, true, false, Some, None, Ok, Err, OnOk, OnErr, IsOk, IfErr, is_some, length};
ghost use Rattle.its_word.specs.Core.{can_store, page_of, pages_mapped, put as put_at, store, with_page, zero_page};
ghost use Rattle.its_word.specs.Limits.{most_pages};
ghost use Rattle.its_word.specs.Only.{Only, Same};
ghost use Rattle.its_core.specs.Cores.{clear_at, core_at};
ghost use Rattle.its_jobs.specs.Table.{job_at};
ghost use Rattle.its_plain.specs.Operator.Jobs.{any_barred, is_barred, with_word_loaded, with_words_loaded, with_words_stored};
ghost use Rattle.its_direct.specs.Plain.{machine_of, CoreBecomes, Tidy};
ghost use Rattle.its_records.specs.Refusals.{reason_of};
ghost use Rattle.its_direct.specs.Lines.{Operates, pages_absent, pages_made};

use crate::plain::Plain;
use its_core::Core;
use its_records::Refusal;
use its_word::{MAPPED_PAGES, NoAccess, Slot, Word, within};

impl Plain {
    /// The words of an a/ line of the job of a slot, from an address on: absent pages are made,
    /// writable and of zeros. NoJob if the slot is empty; ReadOnly if a word is on a read-only
    /// page; Full if more than 1024 pages would be mapped. A line that is refused stores none of
    /// its words.
    pub fn load_words(&mut self, slot: Slot, a: u32, words: &[Word]) -> Result<(), Refusal>
        requires some { 1 ≤ length words.now }
        requires end { a + length words.now ≤ 2 ^ 18 }
        requires tidy { Tidy self.old }
        ensures done { OnOk result (Operates self.old self.new slot (with_words_loaded (machine_of self.old) slot a words.now)) }
        ensures refused { IfErr result (λ e. with_words_loaded (machine_of self.old) slot a words.now ≡ Err (reason_of e)) }
        ensures same { OnErr result (self.new ≡ self.old) }
        ensures tidy { Tidy self.new }
    {
        within(slot);
        let n = words.len() as u32;
        let Some(_job) = self.job(slot) else {
            return Err(Refusal::NoJob);
        };
        if any_barred(&self.core, slot, a, n) {
            return Err(Refusal::ReadOnly);
        }
        if self.core.mapped() + pages_made(&self.core, slot, a, n) > MAPPED_PAGES {
            return Err(Refusal::Full);
        }
        self.store_words(slot, a, words);
        self.touch_only(slot);
        Ok(())
    }

    /// Stores words of a slot that has a job, from an address on, in their order, if there is room
    /// for the pages that they make.
    #[tactic(auto, using(crate::proofs::LoadedLaws::storing_starts, crate::proofs::LoadedLaws::storing_ends))]
    fn store_words(&mut self, slot: Slot, a: u32, words: &[Word])
        requires end { a + length words.now ≤ 2 ^ 18 }
        requires job { is_some (job_at self.old.jobs slot) ≡ true }
        requires room { IsOk (with_words_stored (machine_of self.old) slot a words.now) }
        requires tidy { Tidy self.old }
        ensures done { with_words_stored (machine_of self.old) slot a words.now ≡ Ok (machine_of self.new) }
        ensures place { self.new.place ≡ self.old.place }
        ensures tidy { Tidy self.new }
    {
        for k in 0..words.len() {
            self.load_word(slot, a + k as u32, words[k]);
        }
    }

    /// One word of an a/ line of a slot that has a job, if there is room for it: an absent page is
    /// made, writable and of zeros.
    fn load_word(&mut self, slot: Slot, a: u32, w: Word)
        requires address { a < 2 ^ 18 }
        requires job { is_some (job_at self.old.jobs slot) ≡ true }
        requires room { IsOk (with_word_loaded (machine_of self.old) slot a w) }
        requires tidy { Tidy self.old }
        ensures row { with_word_loaded (machine_of self.old) slot a w ≡ Ok (machine_of self.new) }
        ensures job { is_some (job_at self.new.jobs slot) ≡ true }
        ensures place { self.new.place ≡ self.old.place }
        ensures tidy { Tidy self.new }
    {
        match self.put_word(slot, a, w) {
            Ok(()) => {}
            Err(NoAccess::Absent) => self.load_page(slot, a, w),
            Err(NoAccess::ReadOnly) => unreachable!(),
        }
    }

    /// Stores a word of a slot, unless its page is absent or read only.
    #[tactic(auto, using(crate::proofs::SlotLaws::core_becomes))]
    fn put_word(&mut self, slot: Slot, a: u32, w: Word) -> Result<(), NoAccess>
        requires address { a < 2 ^ 18 }
        ensures stored { OnOk result (CoreBecomes self.old self.new slot (store (core_at self.old.core slot) a w)) }
        ensures allowed { OnOk result (can_store (core_at self.old.core slot) a ≡ true) }
        ensures refused { IfErr result (λ e. put_at (core_at self.old.core slot) a w ≡ Err e) }
        ensures absent { result ≡ Err NoAccess.Absent → (16 ≤ a) × (page_of (core_at self.old.core slot) (a / 1024) ≡ None) }
        ensures same { OnErr result (self.new ≡ self.old) }
    {
        match self.core.put(slot, a, w) {
            Ok(()) => Ok(()),
            Err(e) => Err(e),
        }
    }

    /// Makes the page of an address of a slot, and stores a word there.
    fn load_page(&mut self, slot: Slot, a: u32, w: Word)
        requires page { 16 ≤ a }
        requires address { a < 2 ^ 18 }
        requires absent { page_of (core_at self.old.core slot) (a / 1024) ≡ None }
        requires room { pages_mapped (core_at self.old.core) < most_pages }
        requires unreserved { clear_at self.old.core slot ≡ None }
        ensures { CoreBecomes self.old self.new slot (store (with_page (core_at self.old.core slot) (a / 1024) (Some zero_page)) a w) }
    {
        lay_word(&mut self.core, slot, a, w);
    }
}

/// Whether any of n words of a slot from an address on is on a read-only page.
#[tactic(auto, using(its_plain::proofs::BarredLaws::any_start, its_plain::proofs::BarredLaws::any_here, its_plain::proofs::BarredLaws::any_next, its_plain::proofs::BarredLaws::any_end))]
fn any_barred(core: &Core, slot: Slot, a: u32, n: u32) -> bool
    requires end { a + n ≤ 2 ^ 18 }
    ensures { result ≡ any_barred (core_at core.now slot) a n }
{
    for k in 0..n {
        if is_barred(core, slot, a + k) {
            return true;
        }
    }
    false
}

/// Whether the word of a slot at an address is on a read-only page.
fn is_barred(core: &Core, slot: Slot, a: u32) -> bool
    ensures { result ≡ is_barred (core_at core.now slot) a }
{
    core.word(slot, a).is_some() && !core.is_storable(slot, a)
}

/// How many pages are made for n words of a slot from an address on: those that are absent.
#[tactic(auto, using(crate::proofs::RoomLaws::made_accs, crate::proofs::RoomLaws::made_on_pages))]
fn pages_made(core: &Core, slot: Slot, a: u32, n: u32) -> u32
    requires some { 1 ≤ n }
    requires end { a + n ≤ 2 ^ 18 }
    ensures number { result ≡ pages_made (core_at core.now slot) a n }
    ensures few { result ≤ 256 }
{
    let last = a + n - 1;
    if last < 16 {
        return 0;
    }
    pages_absent(core, slot, a / 1024, last / 1024 + 1 - a / 1024)
}

/// How many of n pages of a slot, from a page on, are absent.
#[tactic(auto, using(crate::proofs::RoomLaws::counting_starts))]
fn pages_absent(core: &Core, slot: Slot, first: u32, n: u32) -> u32
    requires end { first + n ≤ 256 }
    ensures number { result ≡ pages_absent (core_at core.now slot) first n }
    ensures few { result ≤ n }
{
    let mut absent = 0;
    for k in 0..n {
        if !has_page(core, slot, (first + k) as u8) {
            absent += 1;
        }
    }
    absent
}

/// Whether a page of a slot is present.
#[tactic(auto, using(crate::proofs::RoomLaws::some_marked))]
fn has_page(core: &Core, slot: Slot, page: u8) -> bool
    ensures { result ≡ is_some (page_of (core_at core.now slot) page) }
{
    core.page(slot, page).is_some()
}

/// Makes the page of an address of a slot, of zeros, and stores a word there.
#[tactic(auto, using(its_word::proofs::PageLaws::zero_stores))]
fn lay_word(core: &mut Core, slot: Slot, a: u32, w: Word)
    requires page { 16 ≤ a }
    requires address { a < 2 ^ 18 }
    requires absent { page_of (core_at core.old slot) (a / 1024) ≡ None }
    requires room { pages_mapped (core_at core.old) < most_pages }
    requires unreserved { clear_at core.old slot ≡ None }
    ensures core { Only (core_at core.old) (core_at core.new) slot (store (with_page (core_at core.old slot) (a / 1024) (Some zero_page)) a w) }
    ensures reserved { Same (clear_at core.old) (clear_at core.new) }
{
    core.map_zeros(slot, (a / 1024) as u8);
    let _ = core.put(slot, a, w);
}
