//! The call SLEEP.

ghost use Rattle.std.specs.Prelude.{◌≡◌, ◌+◌, ◌∷◌, [], None};
ghost use Rattle.its_core.specs.Cores.{core_at};
ghost use Rattle.its_plain.specs.Call.Basic.{is_negative, negated, read_only, shared_place, sleep};
ghost use Rattle.its_plain.specs.Call.Tests.{goes};
ghost use Rattle.call_basic.specs.Seen.{seen_by};

use super::arguments::{input, is_shared, place_of_input};
use super::ends::{fails, faults, finishes};
use arrayvec::ArrayVec;
use its_frame::{Decision, Wait, error};
use its_plain::LONGEST_SLEEP;
use its_records::{Ask, Job};
use its_word::{Fault, Slot, WORDS, Word};
use its_world::World;

/// SLEEP n: for n above 0 its argument becomes minus the time of waking; for n below 0 it waits for
/// that time. Errors 22 if n is too long, 17 if n is no word of its own, and WRO.
#[tactic(auto, unfolding(its_plain::specs::Call::Basic::sleep, its_plain::specs::Machine::View::view, its_world::specs::World::state_of))]
pub fn sleep(w: &World, slot: Slot, job: &Job, ask: &Ask) -> Decision
    ensures { result ≡ sleep (seen_by w.now slot job.now ask.now) ask.now }
{
    let n = input(ask, 0).value();
    let place = place_of_input(ask, 0);
    if n == 0 {
        return finishes(job, ArrayVec::new());
    }
    if is_negative(n) && w.clock < WORDS - n {
        return Decision::Waits(Wait::Clock);
    }
    if is_negative(n) {
        return finishes(job, ArrayVec::new());
    }
    if n > LONGEST_SLEEP {
        return fails(job, ask, error::OUT_OF_RANGE);
    }
    if is_shared_place(ask, place) {
        return fails(job, ask, error::NO_WORD);
    }
    if is_read_only(w, slot, place) {
        return faults(job, Fault::Wro);
    }
    begins(w.clock, n)
}

/// Whether bit 0 of a word is on.
pub fn is_negative(word: u64) -> bool
    ensures { result ≡ is_negative word }
{
    word >= WORDS / 2
}

/// Whether the argument has no word of its own: it is immediate, or its word is a decode word or
/// that of another argument.
pub fn is_shared_place(ask: &Ask, place: Option<u32>) -> bool
    ensures { result ≡ shared_place ask.now place }
{
    match place {
        Some(p) => is_shared(p, ask),
        None => true,
    }
}

/// Whether the word of the argument cannot be stored.
#[inline(always)]
pub fn is_read_only(w: &World, slot: Slot, place: Option<u32>) -> bool
    ensures { result ≡ read_only (core_at w.now.core slot) place }
{
    match place {
        Some(p) => !w.core.is_storable(slot, p),
        None => false,
    }
}

/// A sleep of so many thirtieths begins: the argument becomes minus the time of waking.
fn begins(clock: u64, thirtieths: u64) -> Decision
    ensures { result ≡ goes [] None (negated (clock + thirtieths) ∷ []) }
{
    let left = WORDS.saturating_sub(clock).saturating_sub(thirtieths);
    let mut values = ArrayVec::new();
    values.push(Word::new(left));
    Decision::Goes {
        changes: ArrayVec::new(),
        held: None,
        values,
    }
}
