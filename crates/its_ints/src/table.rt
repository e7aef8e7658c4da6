//! The interrupt table of a job, whose length and place the word at 42 (octal) says.
ghost use Rattle.std.specs.Prelude.{◌≡◌, ◌≤◌, ◌<◌, ◌+◌, ◌^◌, IfSome, MatchOption};
ghost use Rattle.its_core.specs.Cores.{core_at};
ghost use Rattle.its_word.specs.Stores.{first_fault};
ghost use Rattle.its_plain.specs.Unit.Interrupt.{enabled_1, enabled_2, entry_at, meets, first_entry, entries_of, pushed, undelivered, by_stores, through_table};

use its_core::Core;
use its_records::Job;
use its_word::{ADDRESSES, Slot, TBL, Word};
use std::marker::Model;

/// An entry of the interrupt table: the pending bits that it takes, the deferrals of its handler,
/// and the address of that.
#[derive(Clone, Copy)]
pub(crate) struct TableEntry {
    mask1: Word,
    mask2: Word,
    defer1: Word,
    defer2: Word,
    handler: Word,
}

impl Model for TableEntry {
    ghost use Rattle.its_plain.specs.Unit.Interrupt.{Entry};

    ghost Value = { Entry };

    ghost view = { λ e. record { mask1 = e.mask1; mask2 = e.mask2; defer1 = e.defer1; defer2 = e.defer2; handler = e.handler } };

    ghost inverse = { λ e. record { mask1 = e.mask1; mask2 = e.mask2; defer1 = e.defer1; defer2 = e.defer2; handler = e.handler } };
}

impl TableEntry {
    /// The bits of pending word 1 that the entry takes.
    pub(crate) fn mask1(&self) -> Word
        ensures { result ≡ self.now.mask1 }
    {
        self.mask1
    }

    /// The bits of pending word 2 that the entry takes.
    pub(crate) fn mask2(&self) -> Word
        ensures { result ≡ self.now.mask2 }
    {
        self.mask2
    }

    /// The bits of word 1 that its handler defers.
    pub(crate) fn defer1(&self) -> Word
        ensures { result ≡ self.now.defer1 }
    {
        self.defer1
    }

    /// The bits of word 2 that its handler defers.
    pub(crate) fn defer2(&self) -> Word
        ensures { result ≡ self.now.defer2 }
    {
        self.defer2
    }

    /// The word of its handler.
    pub(crate) fn handler(&self) -> Word
        ensures { result ≡ self.now.handler }
    {
        self.handler
    }
}

/// The pending bits of word 1 that are enabled.
#[tactic(auto, unfolding(its_plain::specs::Unit::Interrupt::enabled_1))]
pub(crate) fn enabled_1(job: &Job) -> Word
    ensures { result ≡ enabled_1 job.now }
{
    job.pend1 & job.mask1 & (!job.defer1 & !Word::new(TBL))
}

/// The pending bits of word 2 that are enabled.
#[tactic(auto, unfolding(its_plain::specs::Unit::Interrupt::enabled_2))]
pub(crate) fn enabled_2(job: &Job) -> Word
    ensures { result ≡ enabled_2 job.now }
{
    job.pend2 & job.mask2 & !job.defer2
}

/// Whether an entry takes one of the enabled bits.
#[tactic(auto, unfolding(its_plain::specs::Unit::Interrupt::meets))]
fn is_met(job: &Job, entry: &TableEntry) -> bool
    ensures { result ≡ meets job.now entry.now }
{
    enabled_1(job) & entry.mask1 != Word::ZERO || enabled_2(job) & entry.mask2 != Word::ZERO
}

/// The entry of five words from an address on; None if a word is absent.
#[tactic(auto, unfolding(its_plain::specs::Unit::Interrupt::entry_at, its_plain::specs::Machine::words_at))]
fn entry_at(core: &Core, slot: Slot, a: u32) -> Option<TableEntry>
    requires address { a < 2 ^ 20 }
    ensures { result ≡ entry_at (core_at core.now slot) a }
{
    Some(TableEntry {
        mask1: core.word(slot, a % ADDRESSES)?,
        mask2: core.word(slot, (a + 1) % ADDRESSES)?,
        defer1: core.word(slot, (a + 2) % ADDRESSES)?,
        defer2: core.word(slot, (a + 3) % ADDRESSES)?,
        handler: core.word(slot, (a + 4) % ADDRESSES)?,
    })
}

/// How many entries a table has, by the word at 42: its left half is the negated length of the
/// table, which is 1 + 5k with k from 1 to 48.
#[tactic(auto, unfolding(its_plain::specs::Unit::Interrupt::entries_of))]
fn entries(word: Word) -> Option<u32>
    ensures number { result ≡ entries_of word }
    ensures most { IfSome result (λ k. k ≤ 48) }
{
    let length = ADDRESSES - word.left();
    if length % 5 == 1 && length >= 6 && length <= 241 {
        Some(length / 5)
    } else {
        None
    }
}

/// The first of so many entries from an address on that takes one of the enabled bits; None if none
/// does, or if a word up to it is absent.
#[tactic(auto, using(crate::proofs::TableLaws::first_entry_turn, crate::proofs::TableLaws::first_entry_spent))]
fn first_entry(core: &Core, slot: Slot, job: &Job, count: u32, a: u32) -> Option<TableEntry>
    requires count { count ≤ 48 }
    requires address { a ≤ 2 ^ 18 }
    ensures { result ≡ first_entry (core_at core.now slot) job.now count a }
{
    for k in 0..count {
        let entry = entry_at(core, slot, a + 5 * k)?;
        if is_met(job, &entry) {
            return Some(entry);
        }
    }
    None
}

/// What a delivery through the table needs: the entry that is taken, and the stack pointer word
/// with its address.
#[derive(Clone, Copy)]
pub(crate) struct Found {
    pub(crate) entry: TableEntry,
    pub(crate) place: u32,
    pub(crate) pointer: Word,
}

/// Looks the table up; None if the delivery is not possible, whatever can be stored.
#[tactic(auto, unfolding(its_plain::specs::Unit::Interrupt::through_table))]
pub(crate) fn look_up(core: &Core, slot: Slot, job: &Job) -> Option<Found>
    ensures outcome { MatchOption result
        (through_table (core_at core.now slot) job.now ≡ undelivered (core_at core.now slot) job.now)
        (λ f. through_table (core_at core.now slot) job.now
        ≡ (let ss = pushed job.now f.entry f.place f.pointer in by_stores (core_at core.now slot) job.now f.entry ss (first_fault (core_at core.now slot) ss))) }
    ensures place { IfSome result (λ f. f.place < 2 ^ 18) }
{
    let table = core.word(slot, 0o42)?;
    let count = entries(table)?;
    let place = core.word(slot, table.right())?.right();
    let entry = first_entry(core, slot, job, count, table.right() + 1)?;
    let pointer = core.word(slot, place)?;
    Some(Found {
        entry,
        place,
        pointer,
    })
}
