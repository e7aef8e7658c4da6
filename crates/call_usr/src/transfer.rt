//! `.IOT` and SIOT on an inferior: whole words, from it or into it.
ghost use Rattle.std.specs.Prelude.{◌≡◌, ◌<◌, ◌+◌, ◌^◌, [], ◌∷◌, true, slice_index_or};
ghost use Rattle.its_word.specs.Byte.{has_size};
ghost use Rattle.its_frame.specs.declared.change.Change.TheVariants.{Move, Poke};
ghost use Rattle.its_plain.specs.Call.Arguments.{input};
ghost use Rattle.its_plain.specs.Call.Transfer.{next_pointer};
ghost use Rattle.its_plain.specs.Call.Usr.{at_end, iot_from, iot_into, iot_through, siot_from, siot_into, siot_peeks, siot_pokes, siot_through};
ghost use Rattle.call_basic.specs.Seen.{seen_by};
ghost use Rattle.call_usr.specs.Targets.{Targets};

use arrayvec::ArrayVec;
use call_basic::{
    bar_of_store, exit_after, fails, faults, input, ioc, iot_ends, moves, moves_with, next_pointer,
    stopped, store_at,
};
use its_bytes::load;
use its_frame::{Change, Decision, Held, error};
use its_plain::END_OF_FILE;
use its_records::{Ask, Job};
use its_word::{ADDRESSES, Fault, Slot, Word};
use its_world::World;

/// Whether a channel on an inferior is at its end.
fn at_end(at: u32) -> bool
    ensures { result ≡ at_end at }
{
    at >= ADDRESSES
}

/// `.IOT` through a channel on an inferior: into it, if the channel has leave to write, else from
/// it.
pub fn iot_through(
    w: &World,
    slot: Slot,
    job: &Job,
    ask: &Ask,
    inferior: u8,
    write: bool,
    at: u32,
) -> Decision
    requires targets { Targets w.now slot job.now ask.now inferior }
    ensures { result ≡ iot_through (seen_by w.now slot job.now ask.now) (slice_index_or ask.now.outputs.items 0 0) (input ask.now 0) inferior write at }
{
    if write {
        iot_into(w, slot, job, ask, inferior, at)
    } else {
        iot_from(w, slot, job, ask, inferior, at)
    }
}

/// `.IOT` from an inferior: the word at the channel's position, which is then one more;
/// 777777000003 at the end. MPV or WRO by the word at E; IOC if the inferior's word is absent.
#[tactic(auto, using(crate::proofs::OtherLaws::other_here), unfolding(its_plain::specs::Machine::View::view, its_world::specs::World::state_of))]
fn iot_from(w: &World, slot: Slot, job: &Job, ask: &Ask, inferior: u8, at: u32) -> Decision
    requires targets { Targets w.now slot job.now ask.now inferior }
    ensures { result ≡ iot_from (seen_by w.now slot job.now ask.now) (slice_index_or ask.now.outputs.items 0 0) (input ask.now 0) at }
{
    let e = ask.outputs.first().copied().unwrap_or(0);
    if let Some(fault) = bar_of_store(w, slot, e) {
        return faults(job, fault);
    }
    if at_end(at) {
        return iot_ends(job, None, store_at(Some(e), Word::new(END_OF_FILE)));
    }
    match w.core.word(Slot::new(inferior), at) {
        Some(word) => {
            let change = Change::Move {
                channel: input(ask, 0).value() as u8,
                at: at + 1,
            };
            iot_ends(job, Some(change), store_at(Some(e), word))
        }
        None => ioc(job),
    }
}

/// `.IOT` into an inferior: the word at E is stored at the channel's position, which is then one
/// more. MPV by the word at E; IOC at the end, and if the inferior's word cannot be stored.
#[tactic(auto, using(crate::proofs::OtherLaws::other_here), unfolding(its_plain::specs::Machine::View::view, its_world::specs::World::state_of))]
fn iot_into(w: &World, slot: Slot, job: &Job, ask: &Ask, inferior: u8, at: u32) -> Decision
    requires targets { Targets w.now slot job.now ask.now inferior }
    ensures { result ≡ iot_into (seen_by w.now slot job.now ask.now) (slice_index_or ask.now.outputs.items 0 0) (input ask.now 0) inferior at }
{
    let e = ask.outputs.first().copied().unwrap_or(0);
    let Some(word) = w.core.word(slot, e) else {
        return faults(job, Fault::Mpv);
    };
    if at_end(at) || !w.core.is_storable(Slot::new(inferior), at) {
        return ioc(job);
    }
    Decision::Ends {
        changes: poke_and_move(ask, inferior, at, word),
        stores: ArrayVec::new(),
        exit: exit_after(job, 1),
    }
}

/// A word of an inferior is stored, and the channel's position is one more.
fn poke_and_move(ask: &Ask, inferior: u8, at: u32, word: Word) -> ArrayVec<Change, 2>
    requires number { input ask.now 0 < 16 }
    requires below { at < 2 ^ 18 }
    ensures { result ≡ record { items = Poke inferior at word ∷ Move (input ask.now 0) (at + 1) ∷ [] } }
{
    let poke = Change::Poke {
        slot: inferior,
        at,
        word,
    };
    let moved = Change::Move {
        channel: input(ask, 0).value() as u8,
        at: at + 1,
    };
    ArrayVec::from([poke, moved])
}

/// SIOT through a channel on an inferior: into it, if the channel has leave to write, else from it.
pub fn siot_through(
    w: &World,
    slot: Slot,
    job: &Job,
    ask: &Ask,
    inferior: u8,
    write: bool,
    at: u32,
) -> Decision
    requires targets { Targets w.now slot job.now ask.now inferior }
    ensures { result ≡ siot_through (seen_by w.now slot job.now ask.now) ask.now (input ask.now 0) inferior write at }
{
    if write {
        siot_into(w, slot, job, ask, inferior, at)
    } else {
        siot_from(w, slot, job, ask, inferior, at)
    }
}

/// SIOT from an inferior: the word at the channel's position is held, and stored by the next step.
/// Error 16 if it is absent.
fn siot_from(w: &World, slot: Slot, job: &Job, ask: &Ask, inferior: u8, at: u32) -> Decision
    requires targets { Targets w.now slot job.now ask.now inferior }
    ensures { result ≡ siot_from (seen_by w.now slot job.now ask.now) ask.now (input ask.now 0) at }
{
    match stopped(w, slot, job, ask, true, at_end(at)) {
        Some(decision) => decision,
        None => siot_peeks(w, slot, job, ask, at, w.core.word(Slot::new(inferior), at)),
    }
}

/// SIOT from an inferior once no test of its arguments stops it: its word is held. Error 16 if it
/// is absent.
#[tactic(auto, unfolding(its_plain::specs::Machine::View::view, its_world::specs::World::state_of))]
fn siot_peeks(w: &World, slot: Slot, job: &Job, ask: &Ask, at: u32, word: Option<Word>) -> Decision
    requires number { input ask.now 0 < 16 }
    requires below { at < 2 ^ 18 }
    ensures { result ≡ siot_peeks (seen_by w.now slot job.now ask.now) ask.now (next_pointer (input ask.now 1)) (input ask.now 2) (input ask.now 0) at word }
{
    let next = next_pointer(input(ask, 1));
    let place = next.right();
    if let Some(fault) = bar_of_store(w, slot, place) {
        return faults(job, fault);
    }
    let Some(word) = word else {
        return fails(job, ask, error::BAD_PAGE);
    };
    let held = Held { place, byte: word };
    let change = Change::Move {
        channel: input(ask, 0).value() as u8,
        at: at + 1,
    };
    moves(change, Some(held), next, input(ask, 2))
}

/// SIOT into an inferior: the word is stored at the channel's position. Error 16 if it cannot be.
#[tactic(auto, using(its_plain::proofs::SizeLaws::next_sized), unfolding(its_plain::specs::Machine::View::view, its_world::specs::World::state_of))]
fn siot_into(w: &World, slot: Slot, job: &Job, ask: &Ask, inferior: u8, at: u32) -> Decision
    requires targets { Targets w.now slot job.now ask.now inferior }
    ensures { result ≡ siot_into (seen_by w.now slot job.now ask.now) ask.now (input ask.now 0) inferior at }
{
    match stopped(w, slot, job, ask, true, at_end(at)) {
        Some(decision) => decision,
        None => siot_pokes(w, slot, job, ask, inferior, at),
    }
}

/// SIOT into an inferior once no test of its arguments stops it: the word is stored. Error 16 if it
/// cannot be.
#[tactic(auto, using(its_shared::proofs::StopLaws::loaded_fits, crate::proofs::OtherLaws::other_here), unfolding(its_plain::specs::Machine::View::view, its_world::specs::World::state_of))]
fn siot_pokes(w: &World, slot: Slot, job: &Job, ask: &Ask, inferior: u8, at: u32) -> Decision
    requires below { at < 2 ^ 18 }
    requires targets { Targets w.now slot job.now ask.now inferior }
    requires size { has_size (next_pointer (input ask.now 1)) ≡ true }
    ensures { result ≡ siot_pokes (seen_by w.now slot job.now ask.now) ask.now (next_pointer (input ask.now 1)) (input ask.now 2) (input ask.now 0) inferior at }
{
    let next = next_pointer(input(ask, 1));
    let Some(word) = w.core.word(slot, next.right()) else {
        return faults(job, Fault::Mpv);
    };
    if !w.core.is_storable(Slot::new(inferior), at) {
        return fails(job, ask, error::BAD_PAGE);
    }
    let changes = poke_and_move(ask, inferior, at, Word::new(load(next, word)));
    moves_with(changes, None, next, input(ask, 2))
}
