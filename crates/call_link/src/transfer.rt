//! `.IOT` and SIOT on links: whole words, or bytes that become words.
ghost use Rattle.std.specs.Prelude.{◌≡◌, true, slice_index_or};
ghost use Rattle.its_word.specs.Byte.{has_size};
ghost use Rattle.its_plain.specs.Call.Arguments.{input};
ghost use Rattle.its_plain.specs.Call.Link.{iot_linked, iot_receives, iot_sends, siot_linked, siot_receive, siot_receives, siot_send, siot_sends};
ghost use Rattle.its_plain.specs.Call.Transfer.{next_pointer};
ghost use Rattle.call_basic.specs.Parts.{part_of};
ghost use Rattle.call_basic.specs.Seen.{seen_by};

use arrayvec::ArrayVec;
use call_basic::{
    Moved, NextByte, Stop, bar_of_store, faults, input, ioc, iot_ends, next_byte, one_less,
    store_at,
};
use its_bytes::load;
use its_frame::{Change, Decision, Held, Wait, error};
use its_plain::END_OF_FILE;
use its_records::{Ask, Job};
use its_word::{Fault, Slot, Word};
use its_world::World;

/// `.IOT` through a channel on a link: to it, if the channel is on the writing end, else from it.
pub fn iot_link(w: &World, slot: Slot, job: &Job, ask: &Ask, link: u8, write: bool) -> Decision
    ensures { result ≡ iot_linked (seen_by w.now slot job.now ask.now) (slice_index_or ask.now.outputs.items 0 0) link write }
{
    if write {
        iot_sends(w, slot, job, ask, link)
    } else {
        iot_receives(w, slot, job, ask, link)
    }
}

/// `.IOT` from a link: its first word; 777777000003 at its end. MPV or WRO by the word at E.
#[tactic(auto, unfolding(its_plain::specs::Machine::View::view, its_world::specs::World::state_of))]
fn iot_receives(w: &World, slot: Slot, job: &Job, ask: &Ask, link: u8) -> Decision
    ensures { result ≡ iot_receives (seen_by w.now slot job.now ask.now) (slice_index_or ask.now.outputs.items 0 0) link }
{
    let e = ask.outputs.first().copied().unwrap_or(0);
    if let Some(fault) = bar_of_store(w, slot, e) {
        return faults(job, fault);
    }
    if w.pipes.is_dry(link) {
        return Decision::Waits(Wait::Empty(link));
    }
    match w.pipes.first_word(link) {
        Some(word) => iot_ends(job, Some(Change::Receive { link }), store_at(Some(e), word)),
        None => iot_ends(job, None, store_at(Some(e), Word::new(END_OF_FILE))),
    }
}

/// `.IOT` to a link: the word at E is sent. MPV by that word; IOC if the reading end is closed.
#[tactic(auto, unfolding(its_plain::specs::Machine::View::view, its_world::specs::World::state_of))]
fn iot_sends(w: &World, slot: Slot, job: &Job, ask: &Ask, link: u8) -> Decision
    ensures { result ≡ iot_sends (seen_by w.now slot job.now ask.now) (slice_index_or ask.now.outputs.items 0 0) link }
{
    let e = ask.outputs.first().copied().unwrap_or(0);
    let Some(word) = w.core.word(slot, e) else {
        return faults(job, Fault::Mpv);
    };
    if w.pipes.is_unread(link) {
        return ioc(job);
    }
    if w.pipes.is_crowded(link) {
        return Decision::Waits(Wait::Room(link));
    }
    iot_ends(job, Some(Change::Send { link, word }), ArrayVec::new())
}

/// SIOT through a channel on a link: to it, if the channel is on the writing end, else from it.
#[inline(always)]
pub fn siot_link(
    w: &World,
    slot: Slot,
    job: &Job,
    ask: &Ask,
    link: u8,
    write: bool,
) -> Result<NextByte, Stop>
    ensures { part_of job.now ask.now result ≡ siot_linked (seen_by w.now slot job.now ask.now) ask.now link write }
{
    if write {
        siot_sends(w, slot, job, ask, link)
    } else {
        siot_receives(w, slot, job, ask, link)
    }
}

/// SIOT from a link: its first word is held, and its low bits stored by the next step. At the end
/// of the link it finishes.
#[inline(always)]
#[tactic(auto, unfolding(its_plain::specs::Machine::View::view, its_world::specs::World::state_of))]
fn siot_receives(w: &World, slot: Slot, job: &Job, ask: &Ask, link: u8) -> Result<NextByte, Stop>
    ensures { part_of job.now ask.now result ≡ siot_receives (seen_by w.now slot job.now ask.now) ask.now link }
{
    match next_byte(w, slot, ask, false, w.pipes.is_ended(link)) {
        Ok(next) => siot_receive(w, slot, job, ask, next, link),
        Err(stop) => Err(stop),
    }
}

/// SIOT from a link once no test of its arguments stops it: the first word is held, if there is
/// one.
#[inline(always)]
#[tactic(auto, unfolding(its_plain::specs::Machine::View::view, its_world::specs::World::state_of))]
fn siot_receive(
    w: &World,
    slot: Slot,
    job: &Job,
    ask: &Ask,
    next: Word,
    link: u8,
) -> Result<NextByte, Stop>
    ensures { part_of job.now ask.now result ≡ siot_receive (seen_by w.now slot job.now ask.now) next (input ask.now 2) link }
{
    let place = next.right();
    if let Some(fault) = bar_of_store(w, slot, place) {
        return Err(Stop::Faults(fault));
    }
    if w.pipes.is_dry(link) {
        return Err(Stop::Waits(Wait::Empty(link)));
    }
    let held = Held {
        place,
        byte: w.pipes.first_word(link).unwrap_or(Word::ZERO),
    };
    Ok(NextByte {
        moved: Moved::Receive { link },
        held: Some(held),
        next,
        left: one_less(input(ask, 2)),
    })
}

/// SIOT to a link: the byte becomes a word, which is sent. Error 26 if the reading end is closed.
#[inline(always)]
#[tactic(auto, using(its_plain::proofs::SizeLaws::next_sized), unfolding(its_plain::specs::Machine::View::view, its_world::specs::World::state_of))]
fn siot_sends(w: &World, slot: Slot, job: &Job, ask: &Ask, link: u8) -> Result<NextByte, Stop>
    ensures { part_of job.now ask.now result ≡ siot_sends (seen_by w.now slot job.now ask.now) ask.now link }
{
    match next_byte(w, slot, ask, false, false) {
        Ok(next) => siot_send(w, slot, job, ask, next, link),
        Err(stop) => Err(stop),
    }
}

/// SIOT to a link once no test of its arguments stops it: the byte becomes a word, which is sent if
/// there is room. Error 26 if the reading end is closed.
#[inline(always)]
#[tactic(auto, using(its_shared::proofs::StopLaws::loaded_fits), unfolding(its_plain::specs::Machine::View::view, its_world::specs::World::state_of))]
fn siot_send(
    w: &World,
    slot: Slot,
    job: &Job,
    ask: &Ask,
    next: Word,
    link: u8,
) -> Result<NextByte, Stop>
    requires size { has_size next ≡ true }
    ensures { part_of job.now ask.now result ≡ siot_send (seen_by w.now slot job.now ask.now) ask.now next (input ask.now 2) link }
{
    let Some(word) = w.core.word(slot, next.right()) else {
        return Err(Stop::Faults(Fault::Mpv));
    };
    if w.pipes.is_unread(link) {
        return Err(Stop::Fails(error::NOBODY_READS));
    }
    if w.pipes.is_crowded(link) {
        return Err(Stop::Waits(Wait::Room(link)));
    }
    let word = Word::new(load(next, word));
    Ok(NextByte {
        moved: Moved::Send { link, word },
        held: None,
        next,
        left: one_less(input(ask, 2)),
    })
}
