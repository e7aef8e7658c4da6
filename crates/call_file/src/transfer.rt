//! `.IOT` and SIOT on files and drafts: whole words.
ghost use Rattle.std.specs.Prelude.{◌≡◌, ◌<◌, ◌-◌, ◌^◌, ◌∷◌, [], None, IfSome, true, slice_get, slice_index_or};
ghost use Rattle.its_word.specs.Byte.{has_size};
ghost use Rattle.its_files.specs.Files.{directory, entry_at, file_at, is_draft, is_file, names_at};
ghost use Rattle.its_plain.specs.Call.Arguments.{input};
ghost use Rattle.its_plain.specs.Call.File.{file_named, iot_reads, iot_writes, siot_read, siot_reads, siot_write, siot_writes, words_by, words_of};
ghost use Rattle.its_plain.specs.Call.Transfer.{next_pointer};
ghost use Rattle.its_world.specs.Tidy.{Tidy};
ghost use Rattle.call_basic.specs.Parts.{part_of};
ghost use Rattle.call_basic.specs.Seen.{seen_by};

use arrayvec::ArrayVec;
use call_basic::{
    Moved, NextByte, Stop, bar_of_store, faults, input, ioc, iot_ends, next_byte, one_less,
};
use its_bytes::load;
use its_frame::{Change, Decision, Held, Store, error};
use its_plain::END_OF_FILE;
use its_records::{Ask, Job};
use its_word::{Fault, Slot, Word};
use its_world::World;

/// The word of a file at a position; None at its end.
#[tactic(auto, using(its_shared::proofs::SeenLaws::seen_words, its_shared::proofs::SeenLaws::few_words))]
fn word_at(w: &World, file: u32, at: u32) -> Option<Word>
    requires { is_file (entry_at w.now.files file) ≡ true }
    ensures word { result ≡ slice_get (words_by (file_named (names_at w.now.files file) (directory w.now.files))) at }
    ensures few { IfSome result (λ w. at < 2 ^ 18) }
{
    w.files.seen();
    w.files.word_at(file, at)
}

/// `.IOT` from a file: the word at its position, which is then one more; 777777000003 at its end.
/// MPV or WRO by the word at E.
#[tactic(auto, unfolding(its_plain::specs::Machine::View::view, its_world::specs::World::state_of))]
pub fn iot_reads(w: &World, slot: Slot, job: &Job, ask: &Ask, file: u32, at: u32) -> Decision
    requires number { input ask.now 0 < 16 }
    requires file { is_file (entry_at w.now.files file) ≡ true }
    ensures { result ≡ iot_reads (seen_by w.now slot job.now ask.now) (slice_index_or ask.now.outputs.items 0 0) (input ask.now 0) (names_at w.now.files file) at }
{
    let e = ask.outputs.first().copied().unwrap_or(0);
    if let Some(fault) = bar_of_store(w, slot, e) {
        return faults(job, fault);
    }
    let channel = input(ask, 0).value() as u8;
    match word_at(w, file, at) {
        Some(word) => {
            let change = Change::Move {
                channel,
                at: at + 1,
            };
            iot_ends(job, Some(change), one_store(e, word))
        }
        None => iot_ends(job, None, one_store(e, Word::new(END_OF_FILE))),
    }
}

/// A store alone.
fn one_store(at: u32, word: Word) -> ArrayVec<Store, 2>
    ensures { result ≡ record { items = record { at = at; word = word } ∷ [] } }
{
    let mut stores = ArrayVec::new();
    stores.push(Store { at, word });
    stores
}

/// `.IOT` to a draft: the word at E is appended. MPV by that word; IOC if there is no room.
#[tactic(auto, using(crate::proofs::SeenLaws::seen_full, its_files::proofs::EntryLaws::draft_stands), unfolding(its_plain::specs::Machine::View::view, its_world::specs::World::state_of))]
pub fn iot_writes(w: &World, slot: Slot, job: &Job, ask: &Ask, draft: u32) -> Decision
    requires number { input ask.now 0 < 16 }
    requires draft { is_draft (entry_at w.now.files draft) ≡ true }
    requires unmarked { w.now.files.mark ≡ None }
    requires tidy { Tidy w.now }
    ensures { result ≡ iot_writes (seen_by w.now slot job.now ask.now) (slice_index_or ask.now.outputs.items 0 0) (input ask.now 0) (file_at w.now.files draft) }
{
    w.files.seen();
    let e = ask.outputs.first().copied().unwrap_or(0);
    let Some(word) = w.core.word(slot, e) else {
        return faults(job, Fault::Mpv);
    };
    if w.files.is_full(draft) {
        return ioc(job);
    }
    let change = Change::Append {
        channel: input(ask, 0).value() as u8,
        word,
    };
    iot_ends(job, Some(change), ArrayVec::new())
}

/// SIOT from a file: the word at its position is held, and stored by the next step.
#[inline(always)]
#[tactic(auto, unfolding(its_plain::specs::Machine::View::view, its_world::specs::World::state_of))]
pub fn siot_reads(
    w: &World,
    slot: Slot,
    job: &Job,
    ask: &Ask,
    file: u32,
    at: u32,
) -> Result<NextByte, Stop>
    requires number { input ask.now 0 < 16 }
    requires file { is_file (entry_at w.now.files file) ≡ true }
    ensures { part_of job.now ask.now result ≡ siot_reads (seen_by w.now slot job.now ask.now) ask.now (input ask.now 0) at (slice_get (words_of (seen_by w.now slot job.now ask.now) (names_at w.now.files file)) at) }
{
    let word = word_at(w, file, at);
    match next_byte(w, slot, ask, true, word.is_none()) {
        Ok(next) => siot_read(w, slot, job, ask, next, at, word.unwrap_or(Word::ZERO)),
        Err(stop) => Err(stop),
    }
}

/// SIOT from a file once no test stops it: the word at its position is held, with the pointer and
/// the count of the rest.
#[inline(always)]
#[tactic(auto, unfolding(its_plain::specs::Machine::View::view, its_world::specs::World::state_of))]
fn siot_read(
    w: &World,
    slot: Slot,
    job: &Job,
    ask: &Ask,
    next: Word,
    at: u32,
    word: Word,
) -> Result<NextByte, Stop>
    requires number { input ask.now 0 < 16 }
    requires few { at < 2 ^ 18 }
    ensures { part_of job.now ask.now result ≡ siot_read (seen_by w.now slot job.now ask.now) next (input ask.now 2) (input ask.now 0) at word }
{
    let place = next.right();
    if let Some(fault) = bar_of_store(w, slot, place) {
        return Err(Stop::Faults(fault));
    }
    Ok(NextByte {
        moved: Moved::Move {
            channel: input(ask, 0).value() as u8,
            at: at + 1,
        },
        held: Some(Held { place, byte: word }),
        next,
        left: one_less(input(ask, 2)),
    })
}

/// SIOT to a draft. Error 10 if there is no room.
#[inline(always)]
#[tactic(auto, using(its_plain::proofs::SizeLaws::next_sized), unfolding(its_plain::specs::Machine::View::view, its_world::specs::World::state_of))]
pub fn siot_writes(
    w: &World,
    slot: Slot,
    job: &Job,
    ask: &Ask,
    draft: u32,
) -> Result<NextByte, Stop>
    requires number { input ask.now 0 < 16 }
    requires draft { is_draft (entry_at w.now.files draft) ≡ true }
    requires unmarked { w.now.files.mark ≡ None }
    requires tidy { Tidy w.now }
    ensures { part_of job.now ask.now result ≡ siot_writes (seen_by w.now slot job.now ask.now) ask.now (input ask.now 0) (file_at w.now.files draft) }
{
    match next_byte(w, slot, ask, true, false) {
        Ok(next) => siot_write(w, slot, job, ask, next, draft),
        Err(stop) => Err(stop),
    }
}

/// SIOT to a draft once no test stops it: the byte becomes a word at its end. Error 10 if there is
/// no room.
#[inline(always)]
#[tactic(auto, using(crate::proofs::Groups::siot_write_laws), unfolding(its_plain::specs::Machine::View::view, its_world::specs::World::state_of))]
fn siot_write(
    w: &World,
    slot: Slot,
    job: &Job,
    ask: &Ask,
    next: Word,
    draft: u32,
) -> Result<NextByte, Stop>
    requires number { input ask.now 0 < 16 }
    requires size { has_size next ≡ true }
    requires draft { is_draft (entry_at w.now.files draft) ≡ true }
    requires unmarked { w.now.files.mark ≡ None }
    requires tidy { Tidy w.now }
    ensures { part_of job.now ask.now result ≡ siot_write (seen_by w.now slot job.now ask.now) ask.now next (input ask.now 2) (input ask.now 0) (file_at w.now.files draft) }
{
    w.files.seen();
    let Some(word) = w.core.word(slot, next.right()) else {
        return Err(Stop::Faults(Fault::Mpv));
    };
    if w.files.is_full(draft) {
        return Err(Stop::Fails(error::DEVICE_FULL));
    }
    Ok(NextByte {
        moved: Moved::Append {
            channel: input(ask, 0).value() as u8,
            word: Word::new(load(next, word)),
        },
        held: None,
        next,
        left: one_less(input(ask, 2)),
    })
}
