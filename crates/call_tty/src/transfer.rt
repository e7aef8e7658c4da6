//! `.IOT` and SIOT on consoles.

ghost use Rattle.std.specs.Prelude.{◌≡◌, true, false, slice_index_or, unwrap_or};
ghost use Rattle.its_word.specs.Byte.{has_size};
ghost use Rattle.its_plain.specs.Call.Arguments.{input};
ghost use Rattle.its_plain.specs.Call.Tty.{iot_in, iot_out, shown_byte, siot_in, siot_out};
ghost use Rattle.its_plain.specs.Call.Transfer.{next_pointer, siot_by};
ghost use Rattle.call_basic.specs.Parts.{part_of};
ghost use Rattle.call_basic.specs.Seen.{seen_by};

use super::consoles::{console_of, first_typed, input_waits, output_waits};
use arrayvec::ArrayVec;
use call_basic::{
    Moved, NextByte, Stop, bar_of_store, faults, input, iot_ends, next_byte, one_less,
};
use its_bytes::load;
use its_frame::{Change, Decision, Held, Store, Wait};
use its_plain::SHOWN;
use its_records::{Ask, Job};
use its_word::{Fault, Slot, Word};
use its_world::World;

/// `.IOT` from a console: its first byte becomes the word at E, right-justified. MPV or WRO by the
/// word.
#[tactic(auto, unfolding(its_plain::specs::Machine::View::view, its_world::specs::World::state_of))]
pub fn iot_in(w: &World, slot: Slot, job: &Job, ask: &Ask) -> Decision
    ensures { result ≡ iot_in (seen_by w.now slot job.now ask.now) (slice_index_or ask.now.outputs.items 0 0) (unwrap_or job.now.console 0) }
{
    let console = console_of(job);
    let e = ask.outputs.first().copied().unwrap_or(0);
    if let Some(fault) = bar_of_store(w, slot, e) {
        return faults(job, fault);
    }
    if input_waits(w, slot, console) {
        return Decision::Waits(Wait::Input(console));
    }
    let mut stores = ArrayVec::new();
    stores.push(Store {
        at: e,
        word: Word::new(u64::from(first_typed(w, console))),
    });
    iot_ends(job, Some(Change::Take { console }), stores)
}

/// `.IOT` to a console: the byte in the word at E is put out. MPV by the word.
#[tactic(auto, unfolding(its_plain::specs::Machine::View::view, its_world::specs::World::state_of))]
pub fn iot_out(w: &World, slot: Slot, job: &Job, ask: &Ask) -> Decision
    ensures { result ≡ iot_out (seen_by w.now slot job.now ask.now) (slice_index_or ask.now.outputs.items 0 0) (unwrap_or job.now.console 0) }
{
    let console = console_of(job);
    let e = ask.outputs.first().copied().unwrap_or(0);
    let Some(word) = w.core.word(slot, e) else {
        return faults(job, Fault::Mpv);
    };
    if output_waits(w, slot, console) {
        return Decision::Waits(Wait::Output(console));
    }
    let byte = shown(word);
    iot_ends(job, Some(Change::Put { console, byte }), ArrayVec::new())
}

/// What a console shows of a byte.
fn shown(word: Word) -> u8
    ensures { result ≡ shown_byte word }
{
    (word.value() & SHOWN) as u8
}

/// SIOT from a console: one byte, which is held and stored by the next step; pointer and count
/// become those of the rest.
#[inline(always)]
pub fn siot_in(w: &World, slot: Slot, job: &Job, ask: &Ask) -> Result<NextByte, Stop>
    ensures { part_of job.now ask.now result ≡ siot_by (seen_by w.now slot job.now ask.now) ask.now false false (siot_in (seen_by w.now slot job.now ask.now) ask.now (next_pointer (input ask.now 1)) (input ask.now 2) (unwrap_or job.now.console 0)) }
{
    match next_byte(w, slot, ask, false, false) {
        Ok(next) => takes_byte(w, slot, job, ask, next),
        Err(stop) => Err(stop),
    }
}

/// SIOT to a console: one byte; pointer and count become those of the rest.
#[inline(always)]
pub fn siot_out(w: &World, slot: Slot, job: &Job, ask: &Ask) -> Result<NextByte, Stop>
    ensures { part_of job.now ask.now result ≡ siot_by (seen_by w.now slot job.now ask.now) ask.now false false (siot_out (seen_by w.now slot job.now ask.now) ask.now (next_pointer (input ask.now 1)) (input ask.now 2) (unwrap_or job.now.console 0)) }
{
    match next_byte(w, slot, ask, false, false) {
        Ok(next) => puts_byte(w, slot, job, ask, next),
        Err(stop) => Err(stop),
    }
}

/// SIOT from a console if no test of its arguments stops it.
#[inline(always)]
#[tactic(auto, unfolding(its_plain::specs::Machine::View::view, its_world::specs::World::state_of))]
fn takes_byte(w: &World, slot: Slot, job: &Job, ask: &Ask, next: Word) -> Result<NextByte, Stop>
    ensures { part_of job.now ask.now result ≡ siot_in (seen_by w.now slot job.now ask.now) ask.now next (input ask.now 2) (unwrap_or job.now.console 0) }
{
    let console = console_of(job);
    let place = next.right();
    if let Some(fault) = bar_of_store(w, slot, place) {
        return Err(Stop::Faults(fault));
    }
    if input_waits(w, slot, console) {
        return Err(Stop::Waits(Wait::Input(console)));
    }
    let held = Held {
        place,
        byte: Word::new(u64::from(first_typed(w, console))),
    };
    Ok(NextByte {
        moved: Moved::Take { console },
        held: Some(held),
        next,
        left: one_less(input(ask, 2)),
    })
}

/// SIOT to a console if no test of its arguments stops it.
#[inline(always)]
#[tactic(auto, unfolding(its_plain::specs::Machine::View::view, its_world::specs::World::state_of))]
fn puts_byte(w: &World, slot: Slot, job: &Job, ask: &Ask, next: Word) -> Result<NextByte, Stop>
    requires size { has_size next ≡ true }
    ensures { part_of job.now ask.now result ≡ siot_out (seen_by w.now slot job.now ask.now) ask.now next (input ask.now 2) (unwrap_or job.now.console 0) }
{
    let console = console_of(job);
    let Some(word) = w.core.word(slot, next.right()) else {
        return Err(Stop::Faults(Fault::Mpv));
    };
    if output_waits(w, slot, console) {
        return Err(Stop::Waits(Wait::Output(console)));
    }
    let byte = shown(Word::new(load(next, word)));
    Ok(NextByte {
        moved: Moved::Put { console, byte },
        held: None,
        next,
        left: one_less(input(ask, 2)),
    })
}
