//! The cores: pages and page frames, mapped, reserved, cleared, protected and given up.

ghost use Rattle.std.specs.Prelude.{◌≡◌, ◌<◌, ◌≤◌, ◌+◌, ◌-◌, ◌*◌, ◌/◌, ◌^◌, ℕ, List, length, is_some, slice_set, true, false, Some, None, IsSome, IsErr, OnOk, OnErr, IfOk, IfErr, IsOk, Ok, Err, count_by, slice_index_or, option_map, ◌↔◌, IfSome};
ghost use Rattle.its_word.specs.Core.{IsWhole, acc_at, get as got_at, put as put_at, word_at, can_store, store, page_of, pages_present, with_page, zero_page, marked, no_core, pages_mapped};
ghost use Rattle.its_word.specs.Limits.{slots, most_pages};
ghost use Rattle.its_word.specs.Only.{Only, Same};
ghost use Rattle.its_core.specs.Frames.{all_frames, free, numbers, row, emptied, Listed, frames_reserve, frames_give_back, frames_map, frames_unmap, frames_drop_all};
ghost use Rattle.its_links.specs.Lists.{no_lists, first};
ghost use Rattle.its_core.specs.Cores.{core_at, reserved_at, clear_at, clear_with, cleared, zeroed, mark_of, IsEmpty};

use its_links::Links;
use its_word::{
    ADDRESSES, MAPPED_PAGES, NoAccess, NoMemory, ReadyWords, SLOTS, Slot, Word, filled, within,
};
use std::alloc::Global;
use std::marker::Model;

/// How many words a page has.
const PAGE_WORDS: usize = 1024;

/// How many pages a slot may have.
const SLOT_PAGES: usize = 256;

/// How many accumulators a slot has.
const SLOT_ACCS: usize = 16;

/// How many page frames there are: one for each page that may be mapped, and one for each slot to
/// reserve.
const FRAMES: u32 = MAPPED_PAGES + SLOTS as u32;

/// The list of the free frames.
const FREE: u32 = 0;

/// A page of a slot: its frame, and whether it can be stored to.
#[derive(Clone, Copy)]
struct Mapped {
    frame: u32,
    writable: bool,
}

/// A reserved page: its frame, and how many of its quarters are clear.
#[derive(Clone, Copy)]
struct Held {
    frame: u32,
    clear: u8,
}

/// The cores of all slots. Contracts see for each slot its core and its reserved page; and which
/// page frame each page has, and the lists of the page frames.
#[derive(Drop)]
pub struct Core {
    accs: Vec<Word>,
    places: Vec<Option<Mapped>>,
    held: Vec<Option<Held>>,
    words: ReadyWords,
    lists: Links,
    mapped: u32,
}

impl Model for Core {
    ghost use Rattle.std.specs.Prelude.{◌≡◌};
    ghost use Rattle.its_core.specs.Cores.{Cores};
    ghost use Rattle.its_core.specs.Pool.{all_words, cores_in, IsPool};

    ghost Value = { Cores };

    ghost view = { λ c. cores_in c.accs.items c.places.items c.held.items c.words.words c.lists };

    ghost invariant = { λ c. IsPool c.accs.items c.places.items c.held.items c.words.words c.lists c.mapped × (c.words.most ≡ all_words) };
}

/// The place of an accumulator of a slot.
fn acc_index(slot: Slot, a: u32) -> usize
    requires a { a < 16 }
    ensures { result ≡ 16 * slot + a }
{
    slot.index() * SLOT_ACCS + a as usize
}

/// The place of a page of a slot in the map.
fn place_index(slot: Slot, page: u8) -> usize
    ensures { result ≡ 256 * slot + page }
{
    slot.index() * SLOT_PAGES + usize::from(page)
}

/// A page of a slot, if it is present.
fn mapped_in(places: &[Option<Mapped>], slot: Slot, page: u8) -> Option<Mapped>
    requires { 256 * slot + page < length places.now }
    ensures { result ≡ slice_index_or places.now (256 * slot + page) None }
{
    places[place_index(slot, page)]
}

/// A page of a slot that is present.
fn present_in(places: &[Option<Mapped>], slot: Slot, page: u8) -> Mapped
    requires place { 256 * slot + page < length places.now }
    requires present { IsSome (slice_index_or places.now (256 * slot + page) None) }
    ensures { slice_index_or places.now (256 * slot + page) None ≡ Some result }
{
    mapped_in(places, slot, page).unwrap()
}

/// How many of a slot's pages are present.
fn present_among(places: &[Option<Mapped>]) -> u16
    requires { length places.now ≤ 256 }
    ensures { result ≡ count_by is_some places.now }
{
    places.iter().filter(|p| p.is_some()).count() as u16
}

/// The page that a slot has reserved.
fn held_in(held: &[Option<Held>], slot: Slot) -> Held
    requires slot { slot < length held.now }
    requires some { IsSome (slice_index_or held.now slot None) }
    ensures { slice_index_or held.now slot None ≡ Some result }
{
    held[slot.index()].unwrap()
}

/// The place of a word of a page frame.
fn word_index(frame: u32, at: u32) -> usize
    requires { at < 1024 }
    ensures { result ≡ 1024 * frame + at }
{
    frame as usize * PAGE_WORDS + at as usize
}

/// The end of the words of a page frame.
fn frame_end(frame: u32) -> usize
    ensures { result ≡ 1024 * frame + 1024 }
{
    (frame as usize + 1) * PAGE_WORDS
}

/// The list of the frames of a slot's pages.
fn list_of(slot: Slot) -> u32
    ensures { result ≡ slot + 1 }
{
    u32::from(slot.number()) + 1
}

/// Lists for the free frames and for each slot, with all frames free in rising order.
fn all_free(alloc: Global) -> Result<Links, NoMemory>
    ensures { IfOk result (λ lists. lists ≡ record { nodes = all_frames; lists = slice_set (no_lists (slots + 1)) 0 (numbers all_frames) }) }
{
    let mut lists = Links::open(alloc, FRAMES, SLOTS as u32 + 1)?;
    for frame in 0..FRAMES {
        lists.push_back(FREE, frame);
    }
    Ok(lists)
}

/// Takes all pages of a slot out of the map. The number of pages that it had.
fn vacate(places: &mut Vec<Option<Mapped>>, slot: Slot) -> u32
    requires { 256 * slot + 256 ≤ length places.old.items }
    ensures number { result ≡ count_by is_some (row places.old.items slot) }
    ensures emptied { places.new.items ≡ emptied (256 * slot) 256 places.old.items }
{
    let mut number = 0;
    for page in 0..=255 {
        if places[place_index(slot, page)].take().is_some() {
            number += 1;
        }
    }
    number
}

/// Clears n words from one on.
#[tactic(auto, using(crate::proofs::ListLaws::zeroed_none, crate::proofs::ListLaws::zeroed_more))]
fn clear(words: &mut Vec<Word>, first: usize, n: usize)
    requires { first + n ≤ length words.old.items }
    ensures { words.new.items ≡ zeroed first n words.old.items }
{
    for k in 0..n {
        words[first + k] = Word::ZERO;
    }
}

/// Clears a quarter of a frame, whose words are ready.
#[tactic(auto, using(crate::proofs::ListLaws::zeroed_none, crate::proofs::ListLaws::zeroed_more))]
fn clear_frame_quarter(words: &mut ReadyWords, frame: u32, q: u8)
    requires quarter { q < 4 }
    requires ready { 1024 * frame + 1024 ≤ length words.old.words }
    ensures words { words.new.words ≡ zeroed (1024 * frame + 256 * q) 256 words.old.words }
    ensures most { words.new.most ≡ words.old.most }
{
    let first = word_index(frame, 256 * u32::from(q));
    for k in 0..256 {
        words.set(first + k, Word::ZERO);
    }
}

/// How many quarters are clear after quarter q was cleared.
fn quarters_clear(q: u8, clear: u8) -> u8
    requires { q < 4 }
    ensures { result ≡ clear_with q clear }
{
    if q == clear { q + 1 } else { clear }
}

/// 1024 pages are mapped already.
#[derive(Clone, Copy, Debug, PartialEq, Eq)]
pub struct Full;

impl Core {
    /// No slot has a page or a reserved page, all accumulators are 0, and all frames are free, in
    /// rising order. Takes all the memory that the pages of all slots need; no word of it is ready.
    pub fn open(alloc: Global) -> Result<Core, NoMemory>
        ensures { IfOk result IsEmpty }
    {
        Ok(Core {
            accs: filled(alloc, Word::ZERO, SLOTS * SLOT_ACCS)?,
            places: filled(alloc, None, SLOTS * SLOT_PAGES)?,
            held: filled(alloc, None, SLOTS)?,
            words: ReadyWords::open(alloc, FRAMES as usize * PAGE_WORDS)?,
            lists: all_free(alloc)?,
            mapped: 0,
        })
    }

    /// The word at an address of a slot: of an accumulator, or of a page that is present.
    #[inline(always)]
    #[tactic(auto, using(crate::proofs::Groups::get_laws))]
    pub fn get(&self, slot: Slot, a: u32) -> Result<Word, NoAccess>
        requires address { a < 2 ^ 18 }
        ensures word { result ≡ got_at (core_at self.now slot) a }
        ensures accumulators { (i : ℕ) → i < 16 → can_store (core_at self.now slot) i ≡ true }
    {
        within(slot);
        if a < 16 {
            return Ok(self.accs[acc_index(slot, a)]);
        }
        match mapped_in(&self.places, slot, (a / 1024) as u8) {
            Some(m) => Ok(self.words.get(word_index(m.frame, a % 1024))),
            None => Err(NoAccess::Absent),
        }
    }

    /// Stores a word, unless its page is absent or read only.
    #[inline(always)]
    #[tactic(auto, using(crate::proofs::Groups::put_laws))]
    pub fn put(&mut self, slot: Slot, a: u32, w: Word) -> Result<(), NoAccess>
        requires address { a < 2 ^ 18 }
        ensures stored { OnOk result (Only (core_at self.old) (core_at self.new) slot (store (core_at self.old slot) a w)) }
        ensures reserved { self.new.reserved ≡ self.old.reserved }
        ensures allowed { IsOk result ↔ (can_store (core_at self.old slot) a ≡ true) }
        ensures refused { IfErr result (λ e. put_at (core_at self.old slot) a w ≡ Err e) }
        ensures absent { result ≡ Err NoAccess.Absent → (16 ≤ a) × (page_of (core_at self.old slot) (a / 1024) ≡ None) }
        ensures same { OnErr result (self.new ≡ self.old) }
        ensures frames { self.new.frames ≡ self.old.frames }
    {
        within(slot);
        if a < 16 {
            self.accs[acc_index(slot, a)] = w;
            return Ok(());
        }
        match mapped_in(&self.places, slot, (a / 1024) as u8) {
            Some(m) if m.writable => {
                self.words.set(word_index(m.frame, a % 1024), w);
                Ok(())
            }
            Some(_) => Err(NoAccess::ReadOnly),
            None => Err(NoAccess::Absent),
        }
    }

    /// The word of an accumulator of a slot.
    #[tactic(auto, using(crate::proofs::ReadLaws::word_at_acc))]
    pub(crate) fn acc(&self, slot: Slot, a: u32) -> Word
        requires a { a < 16 }
        ensures { result ≡ acc_at (core_at self.now slot) a }
    {
        within(slot);
        self.accs[acc_index(slot, a)]
    }

    /// Whether a page of a slot is writable; None if it is absent.
    #[tactic(auto, using(crate::proofs::ReadLaws::page_at))]
    pub fn page(&self, slot: Slot, page: u8) -> Option<bool>
        ensures { result ≡ mark_of (page_of (core_at self.now slot) page) }
    {
        within(slot);
        mapped_in(&self.places, slot, page).map(|m| m.writable)
    }

    /// The word at an address of a slot; None if its page is absent, and past the last address.
    #[tactic(auto, using(crate::proofs::Groups::word_laws))]
    pub fn word(&self, slot: Slot, a: u32) -> Option<Word>
        ensures word { result ≡ word_at (core_at self.now slot) a }
        ensures within { IfSome result (λ w. a < 2 ^ 18) }
    {
        within(slot);
        if a < 16 {
            return Some(self.accs[acc_index(slot, a)]);
        }
        if a >= ADDRESSES {
            // as in `is_storable`, whose proof needs it; that of this function does not
            let _places = &self.places;
            return None;
        }
        let m = mapped_in(&self.places, slot, (a / 1024) as u8)?;
        Some(self.words.get(word_index(m.frame, a % 1024)))
    }

    /// Whether a word can be stored at an address of a slot: its page is present and writable. Past
    /// the last address none can.
    #[tactic(auto, using(crate::proofs::ReadLaws::can_store_acc, crate::proofs::ReadLaws::can_store_page, crate::proofs::ReadLaws::can_store_absent, crate::proofs::SlotLaws::store_past))]
    pub fn is_storable(&self, slot: Slot, a: u32) -> bool
        ensures { result ≡ can_store (core_at self.now slot) a }
    {
        within(slot);
        if a < 16 || a >= ADDRESSES {
            // for the proof alone: it sees `self` as made of its fields if one of them is named
            let _places = &self.places;
            return a < 16;
        }
        match mapped_in(&self.places, slot, (a / 1024) as u8) {
            Some(m) if m.writable => true,
            Some(_) => false,
            None => false,
        }
    }

    /// How many pages of a slot are present.
    pub fn pages(&self, slot: Slot) -> u16
        ensures { result ≡ pages_present (core_at self.now slot) }
    {
        within(slot);
        let first = place_index(slot, 0);
        present_among(&self.places[first..first + SLOT_PAGES])
    }

    /// How many pages all slots have together.
    pub fn mapped(&self) -> u32
        ensures number { result ≡ pages_mapped (core_at self.now) }
        ensures most { result ≤ most_pages }
        ensures listed { Listed self.now.frames }
        ensures whole { (s : ℕ) → s < slots → IsWhole (core_at self.now s) }
    {
        self.mapped
    }

    /// Reserves a page for a slot, in the first of the free frames, whose words are made ready.
    /// None of its quarters counts as clear.
    pub fn reserve(&mut self, slot: Slot)
        requires none { reserved_at self.old slot ≡ None }
        ensures reserved { (words : List ℕ) × Only (reserved_at self.old) (reserved_at self.new) slot (Some (record { clear = 0; words = words })) }
        ensures quarters { Only (clear_at self.old) (clear_at self.new) slot (Some 0) }
        ensures cores { self.new.cores ≡ self.old.cores }
        ensures first { IsSome (first (free self.old.frames)) }
        ensures frames { self.new.frames ≡ frames_reserve slot self.old.frames }
        ensures listed { Listed self.new.frames }
    {
        within(slot);
        let frame = self.lists.pop_front(FREE).unwrap();
        self.words.make_ready(frame_end(frame));
        self.held[slot.index()] = Some(Held { frame, clear: 0 });
    }

    /// Whether a slot has reserved a page.
    #[tactic(auto, using(crate::proofs::HeldLaws::held_clear))]
    pub fn has_reserved(&self, slot: Slot) -> bool
        ensures { result ≡ is_some (clear_at self.now slot) }
    {
        self.held[slot.index()].is_some()
    }

    /// Clears words 256q to 256q+255 of the page that a slot has reserved, with q below 4.
    pub fn clear_quarter(&mut self, slot: Slot, q: u8)
        requires quarter { q < 4 }
        requires some { IsSome (reserved_at self.old slot) }
        ensures reserved { Only (reserved_at self.old) (reserved_at self.new) slot (option_map (cleared q) (reserved_at self.old slot)) }
        ensures quarters { Only (clear_at self.old) (clear_at self.new) slot (option_map (clear_with q) (clear_at self.old slot)) }
        ensures cores { self.new.cores ≡ self.old.cores }
        ensures frames { self.new.frames ≡ self.old.frames }
    {
        within(slot);
        let h = held_in(&self.held, slot);
        clear_frame_quarter(&mut self.words, h.frame, q);
        self.held[slot.index()] = Some(Held {
            frame: h.frame,
            clear: quarters_clear(q, h.clear),
        });
    }

    /// Makes the page that a slot has reserved, whose four quarters are clear, a writable page of
    /// zeros of the target; its page frame becomes the last in the target's list. Full if 1024
    /// pages are mapped already; the reservation is then unchanged.
    pub fn map(&mut self, slot: Slot, target: Slot, page: u8) -> Result<(), Full>
        requires clear { clear_at self.old slot ≡ Some 4 }
        requires absent { page_of (core_at self.old target) page ≡ None }
        ensures full { IsErr result ↔ (pages_mapped (core_at self.old) ≡ most_pages) }
        ensures mapped { OnOk result (Only (core_at self.old) (core_at self.new) target (with_page (core_at self.old target) page (Some zero_page))) }
        ensures there { OnOk result (page_of (core_at self.new target) page ≡ Some zero_page) }
        ensures taken { OnOk result (Only (reserved_at self.old) (reserved_at self.new) slot None) }
        ensures quarters { OnOk result (Only (clear_at self.old) (clear_at self.new) slot None) }
        ensures same { OnErr result (self.new ≡ self.old) }
        ensures frames { OnOk result (self.new.frames ≡ frames_map slot target page self.old.frames) }
        ensures listed { OnOk result (Listed self.new.frames) }
    {
        within(slot);
        within(target);
        if self.mapped == MAPPED_PAGES {
            return Err(Full);
        }
        let h = held_in(&self.held, slot);
        self.held[slot.index()] = None;
        self.places[place_index(target, page)] = Some(Mapped {
            frame: h.frame,
            writable: true,
        });
        self.lists.push_back(list_of(target), h.frame);
        self.mapped += 1;
        Ok(())
    }

    /// Makes a page of zeros of a slot: one is reserved and cleared, and then mapped.
    #[tactic(auto, using(crate::proofs::ZeroLaws::mapped_cores, crate::proofs::ZeroLaws::mapped_clear, crate::proofs::CoresLaws::same_core_at, crate::proofs::CoresLaws::same_pages_mapped))]
    pub fn map_zeros(&mut self, slot: Slot, page: u8)
        requires absent { page_of (core_at self.old slot) page ≡ None }
        requires room { pages_mapped (core_at self.old) < most_pages }
        requires unreserved { clear_at self.old slot ≡ None }
        ensures made { Only (core_at self.old) (core_at self.new) slot (with_page (core_at self.old slot) page (Some zero_page)) }
        ensures there { page_of (core_at self.new slot) page ≡ Some zero_page }
        ensures reserved { Same (clear_at self.old) (clear_at self.new) }
        ensures frames { self.new.frames ≡ frames_map slot slot page (frames_reserve slot self.old.frames) }
    {
        self.reserve_zeros(slot);
        match self.map(slot, slot, page) {
            Ok(()) => {}
            Err(Full) => unreachable!(),
        }
    }

    /// Reserves a page of zeros for a slot.
    #[tactic(auto, using(crate::proofs::ZeroLaws::clear_unreserved))]
    fn reserve_zeros(&mut self, slot: Slot)
        requires none { clear_at self.old slot ≡ None }
        ensures clear { Only (clear_at self.old) (clear_at self.new) slot (Some 4) }
        ensures cores { self.new.cores ≡ self.old.cores }
        ensures frames { self.new.frames ≡ frames_reserve slot self.old.frames }
    {
        self.reserve(slot);
        self.clear_quarter(slot, 0);
        self.clear_quarter(slot, 1);
        self.clear_quarter(slot, 2);
        self.clear_quarter(slot, 3);
    }

    /// Gives the page back that a slot has reserved; its frame becomes the last of the free ones.
    pub fn give_back(&mut self, slot: Slot)
        requires some { IsSome (reserved_at self.old slot) }
        ensures reserved { Only (reserved_at self.old) (reserved_at self.new) slot None }
        ensures quarters { Only (clear_at self.old) (clear_at self.new) slot None }
        ensures cores { self.new.cores ≡ self.old.cores }
        ensures frames { self.new.frames ≡ frames_give_back slot self.old.frames }
        ensures listed { Listed self.new.frames }
    {
        within(slot);
        let h = held_in(&self.held, slot);
        self.held[slot.index()] = None;
        self.lists.push_back(FREE, h.frame);
    }

    /// Takes a page from a slot; its frame becomes the last of the free ones.
    pub fn unmap(&mut self, slot: Slot, page: u8)
        requires present { IsSome (page_of (core_at self.old slot) page) }
        ensures unmapped { Only (core_at self.old) (core_at self.new) slot (with_page (core_at self.old slot) page None) }
        ensures reserved { self.new.reserved ≡ self.old.reserved }
        ensures frames { self.new.frames ≡ frames_unmap slot page self.old.frames }
        ensures listed { Listed self.new.frames }
    {
        within(slot);
        let m = present_in(&self.places, slot, page);
        self.places[place_index(slot, page)] = None;
        self.lists.unlink(m.frame);
        self.lists.push_back(FREE, m.frame);
        self.mapped -= 1;
    }

    /// Makes a page of a slot writable or read only.
    pub fn protect(&mut self, slot: Slot, page: u8, writable: bool)
        requires present { IsSome (page_of (core_at self.old slot) page) }
        ensures marked { Only (core_at self.old) (core_at self.new) slot (with_page (core_at self.old slot) page (marked (page_of (core_at self.old slot) page) writable)) }
        ensures reserved { self.new.reserved ≡ self.old.reserved }
        ensures frames { self.new.frames ≡ self.old.frames }
    {
        within(slot);
        let m = present_in(&self.places, slot, page);
        self.places[place_index(slot, page)] = Some(Mapped {
            frame: m.frame,
            writable,
        });
    }

    /// Takes all pages from a slot and makes its accumulators 0. The frames become the last of the
    /// free ones, in the order of the slot's list.
    pub fn drop_all(&mut self, slot: Slot)
        ensures dropped { Only (core_at self.old) (core_at self.new) slot no_core }
        ensures reserved { self.new.reserved ≡ self.old.reserved }
        ensures frames { self.new.frames ≡ frames_drop_all slot self.old.frames }
        ensures listed { Listed self.new.frames }
    {
        within(slot);
        self.mapped -= vacate(&mut self.places, slot);
        self.lists.splice(list_of(slot), FREE);
        clear(&mut self.accs, acc_index(slot, 0), 16);
    }
}
