//! What the types of a world's parts keep, found of one part after another: nothing is changed, and
//! nothing is written. The plain machine of a settled world can be saved.
ghost use Rattle.std.specs.Prelude.{◌≡◌, ◌<◌, ◌≤◌, ◌*◌, ◌^◌, ℕ, true, None, IfSome, is_some, length, slice_get, slice_index_or};
ghost use Rattle.its_word.specs.Console.{most_waiting};
ghost use Rattle.its_word.specs.Limits.{slots, consoles, most_symbols};
ghost use Rattle.its_records.specs.Links.{most_links};
ghost use Rattle.its_records.specs.declared.jobs.Channel.TheVariants.{Closed};
ghost use Rattle.its_jobs.specs.Table.{job_at};
ghost use Rattle.its_files.specs.Blocks.{numbers};
ghost use Rattle.its_files.specs.Files.{entry_at, file_at, words_at};
ghost use Rattle.its_pipes.specs.Pipes.{piped};
ghost use Rattle.its_plain.specs.Call.Link.{words_in};
ghost use Rattle.its_stepped.specs.Address.{Addressed};
ghost use Rattle.its_shared.specs.Parts.{console_at, holder_at, symbols_at};
ghost use Rattle.its_world.specs.World.{plain_of, state_of};
ghost use Rattle.its_monitor.specs.Kept.{Kept};
ghost use Rattle.its_monitor.specs.Settled.{IsSettled};
ghost use Rattle.its_saved.specs.WellFormed.{FewBytes, KeptByTypes};
ghost use Rattle.its_saved.specs.Narrow.{Narrow};
ghost use Rattle.its_saved.specs.Readable.{AllBelow, FileWorded, PipeWorded, Worded};
ghost use Rattle.its_saving.specs.Keeping.{IsWord, TextTo, CoreTo, NamesTo, JobWords, PlacedOn, PlacesTo, JobKeeps, SymbolsKeep, SlotKeeps, SlotsTo, FilesTo, LinksTo, ConsolesTo, PartsKeep, WordsFrom};

use super::cores::{PAGE_WORDS, PAGES};
use its_core::Core;
use its_files::Files;
use its_pipes::Pipes;
use its_records::{CHANNELS, Channel, Job, LINKS, Link};
use its_word::{CONSOLES, SLOTS, Slot, Word};
use its_world::World;

/// How many numbers files and drafts have.
const NUMBERS: u32 = 1792;

/// Does nothing, and says of a settled world that its plain machine can be saved, as far as types
/// and the monitor keep it.
#[tactic(auto, using(crate::proofs::KeepingLaws::kept_types, crate::proofs::KeepingLaws::kept_addressed))]
pub fn can_be_saved(w: &World)
    requires kept { Kept w.now }
    requires settled { IsSettled (state_of w.now) }
    ensures types { KeptByTypes (plain_of w.now) }
    ensures addressed { Addressed (plain_of w.now) }
    ensures worded { Narrow (plain_of w.now) → Worded (plain_of w.now) }
{
    keep_parts(w);
}

/// What the types of all parts keep.
fn keep_parts(w: &World)
    ensures { PartsKeep w.now }
{
    let _pages = w.core.mapped();
    w.jobs.tree();
    w.files.seen();
    w.pipes.bounds();
    past_holders(w);
    keep_slots(w);
    keep_files(&w.files);
    keep_links(&w.pipes);
    keep_consoles(w);
}

/// Nobody holds a console past the last.
fn past_holders(w: &World)
    ensures { (c : ℕ) → consoles ≤ c → holder_at w.now.holders c ≡ None }
{
    keep_eight(&w.holders);
}

/// There are eight holders.
fn keep_eight(holders: &[Option<u8>; 8])
    ensures { length holders.now ≡ consoles }
{
    let _holders = holders;
}

/// A word that may be there has 36 bits.
fn keep_word(word: Option<Word>)
    ensures { IfSome word IsWord }
{
    match word {
        Some(w) => {
            let _value = w.value();
        }
        None => {}
    }
}

/// The words of a slot's core. Of its pages only those are looked at that are there; at the
/// addresses of page 0 there are accumulators too.
fn keep_core(core: &Core, s: Slot)
    ensures { CoreTo core.now s (2 ^ 18) }
{
    keep_words(core, s, 0);
    for page in 1..PAGES {
        keep_page(core, s, page as u8);
    }
}

/// The words of a page past the first, if it is there.
fn keep_page(core: &Core, s: Slot, page: u8)
    requires later { 1 ≤ page }
    ensures { WordsFrom core.now s (page * 1024) 1024 }
{
    match core.page(s, page) {
        Some(_) => keep_words(core, s, u32::from(page) * PAGE_WORDS),
        None => {}
    }
}

/// As many words as a page has, from an address on.
#[tactic(auto, using(crate::proofs::BoundLaws::words_start, crate::proofs::BoundLaws::words_next))]
fn keep_words(core: &Core, s: Slot, from: u32)
    requires within { from ≤ 2 ^ 18 }
    ensures { WordsFrom core.now s from 1024 }
{
    for k in 0..PAGE_WORDS {
        keep_word(core.word(s, from + k));
    }
}

/// The registers of a job that are words.
fn keep_registers(job: &Job)
    ensures { JobWords job.now }
{
    let _names = (job.uname.value(), job.jname.value());
    let _pending = (job.pend1.value(), job.pend2.value());
    let _masks = (job.mask1.value(), job.mask2.value());
    let _deferred = (job.defer1.value(), job.defer2.value());
}

/// A position has 32 bits.
fn keep_position(at: u32)
    ensures { at < 2 ^ 32 }
{
    let _at = at;
}

/// The position of a channel, if it has one.
fn keep_place(channel: Channel)
    ensures { PlacedOn channel }
{
    match channel {
        Channel::Reading { file: _, at } => keep_position(at),
        Channel::Usr {
            slot: _,
            write: _,
            at,
        } => keep_position(at),
        Channel::Closed => {}
        Channel::TtyIn => {}
        Channel::TtyOut => {}
        Channel::Writing { draft: _ } => {}
        Channel::Link { link: _, write: _ } => {}
    }
}

/// A channel of a job.
fn channel_of(job: &Job, n: u8) -> Channel
    requires channel { n < 16 }
    ensures { result ≡ slice_index_or job.now.channels n Closed }
{
    job.channels[usize::from(n)]
}

/// The position of a channel of a job.
fn keep_place_of(job: &Job, n: u8)
    requires channel { n < 16 }
    ensures { PlacedOn (slice_index_or job.now.channels n Closed) }
{
    keep_place(channel_of(job, n));
}

/// The positions of a job's channels.
#[tactic(auto, using(crate::proofs::BoundLaws::places_start, crate::proofs::BoundLaws::places_next))]
fn keep_places(job: &Job)
    ensures { PlacesTo job.now.channels 16 }
{
    for n in 0..CHANNELS {
        keep_place_of(job, n);
    }
}

/// A job.
fn keep_job(job: &Job)
    ensures { JobKeeps job.now }
{
    keep_registers(job);
    keep_places(job);
}

/// The job of a slot, if it has one.
fn keep_job_of(w: &World, s: Slot)
    ensures { IfSome (job_at w.now.jobs s) JobKeeps }
{
    match w.registers(s) {
        Some(job) => keep_job(&job),
        None => {}
    }
}

/// How many symbols a slot's job has.
fn symbol_count(w: &World, s: Slot) -> usize
    ensures count { result ≡ length (symbols_at w.now.symbols.items s) }
    ensures most { result ≤ most_symbols }
{
    w.symbols[s.index()].len()
}

/// A symbol of a slot's job; None past the last.
fn symbol_at(w: &World, s: Slot, k: usize) -> Option<(Word, u32)>
    ensures { result ≡ slice_get (symbols_at w.now.symbols.items s) k }
{
    w.symbols[s.index()].as_slice().get(k).copied()
}

/// The name of a symbol that may be there.
fn keep_name(symbol: Option<(Word, u32)>)
    ensures { IfSome symbol (λ x. x.0 < 2 ^ 36) }
{
    match symbol {
        Some((name, _)) => keep_word(Some(name)),
        None => {}
    }
}

/// The names of the symbols of a slot's job.
#[tactic(auto, using(crate::proofs::BoundLaws::names_start, crate::proofs::BoundLaws::names_next))]
fn keep_names(w: &World, s: Slot, count: usize)
    ensures { NamesTo (symbols_at w.now.symbols.items s) count }
{
    for k in 0..count {
        keep_name(symbol_at(w, s, k));
    }
}

/// The symbols of a slot's job.
fn keep_symbols(w: &World, s: Slot)
    ensures { SymbolsKeep (symbols_at w.now.symbols.items s) }
{
    keep_names(w, s, symbol_count(w, s));
}

/// A slot.
fn keep_slot(w: &World, s: Slot)
    ensures { SlotKeeps w.now s }
{
    keep_core(&w.core, s);
    keep_job_of(w, s);
    keep_symbols(w, s);
}

/// All slots.
#[tactic(auto, using(crate::proofs::BoundLaws::slots_start, crate::proofs::BoundLaws::slots_next))]
fn keep_slots(w: &World)
    ensures { SlotsTo w.now slots }
{
    for s in 0..SLOTS as u8 {
        keep_slot(w, Slot::new(s));
    }
}

/// The words of a file or a draft.
#[tactic(auto, using(crate::proofs::BoundLaws::text_start, crate::proofs::BoundLaws::text_next))]
fn keep_text(files: &Files, id: u32, count: u32)
    ensures { TextTo (words_at files.now id) count }
{
    for k in 0..count {
        keep_word(files.word_at(id, k));
    }
}

/// Three words.
fn keep_three(words: [Word; 3])
    ensures { AllBelow (2 ^ 36) words }
{
    let [d, x, y] = words;
    let _values = (d.value(), x.value(), y.value());
}

/// The names of a file or a draft, and its words.
fn keep_entry(files: &Files, id: u32)
    requires some { is_some (entry_at files.now id) ≡ true }
    ensures { FileWorded (file_at files.now id) }
{
    keep_three(files.names(id));
    keep_text(files, id, files.length(id));
}

/// A file or a draft, if the number has one.
#[tactic(auto, using(crate::proofs::BoundLaws::file_absent, its_files::proofs::EntryLaws::file_stands, its_files::proofs::EntryLaws::draft_stands))]
fn keep_file(files: &Files, id: u32)
    ensures { FileWorded (file_at files.now id) }
{
    if files.is_file(id) {
        keep_entry(files, id);
    } else if files.is_draft(id) {
        keep_entry(files, id);
    }
}

/// All files and drafts.
#[tactic(auto, using(crate::proofs::BoundLaws::files_start, crate::proofs::BoundLaws::files_next))]
fn keep_files(files: &Files)
    ensures { FilesTo files.now numbers }
{
    for id in 0..NUMBERS {
        keep_file(files, id);
    }
}

/// The words in a link.
#[tactic(auto, using(crate::proofs::BoundLaws::text_start, crate::proofs::BoundLaws::text_next))]
fn keep_sent(pipes: &Pipes, l: u8, count: u32)
    ensures { TextTo (words_in (piped pipes.now l)) count }
{
    for k in 0..count {
        keep_word(pipes.word_at(l, k));
    }
}

/// The names of a link.
fn keep_link_names(link: &Link)
    ensures x { link.now.x < 2 ^ 36 }
    ensures y { link.now.y < 2 ^ 36 }
{
    let _names = (link.x.value(), link.y.value());
}

/// A link, if the number has one.
fn keep_link(pipes: &Pipes, l: u8)
    ensures { IfSome (piped pipes.now l) PipeWorded }
{
    match pipes.link(l) {
        Some(link) => {
            keep_link_names(&link);
            keep_sent(pipes, l, pipes.words_waiting(l));
        }
        None => {}
    }
}

/// All links.
#[tactic(auto, using(crate::proofs::BoundLaws::links_start, crate::proofs::BoundLaws::links_next))]
fn keep_links(pipes: &Pipes)
    ensures { LinksTo pipes.now most_links }
{
    for l in 0..LINKS as u8 {
        keep_link(pipes, l);
    }
}

/// How many bytes wait at a console, of input and of output.
fn waiting_at(w: &World, c: u8) -> (u32, u32)
    ensures input { result.0 ≡ length (console_at w.now.consoles.items c).input }
    ensures output { result.1 ≡ length (console_at w.now.consoles.items c).output }
    ensures most { (result.0 ≤ most_waiting) × (result.1 ≤ most_waiting) }
{
    match w.consoles.get(usize::from(c)) {
        Some(console) => console.waiting(),
        None => (0, 0),
    }
}

/// At a console few bytes wait.
fn keep_console(w: &World, c: u8)
    ensures { FewBytes (console_at w.now.consoles.items c) }
{
    let _waiting = waiting_at(w, c);
}

/// All consoles.
#[tactic(auto, using(crate::proofs::BoundLaws::consoles_start, crate::proofs::BoundLaws::consoles_next))]
fn keep_consoles(w: &World)
    ensures { ConsolesTo w.now.consoles.items consoles }
{
    for c in 0..CONSOLES as u8 {
        keep_console(w, c);
    }
}
