//! Bytes that SIOT moves, one after another.
ghost use Rattle.std.specs.Prelude.{◌≡◌, ◌<◌, ◌≤◌, true, false, IfSome, is_some};
ghost use Rattle.its_commit.specs.Carried.{standing_of};
ghost use Rattle.its_stepped.specs.Duty.{IsTried};
ghost use Rattle.its_world.specs.World.{call_in};
ghost use Rattle.its_tick.specs.Kept.{Kept};
ghost use Rattle.its_tick.specs.Bytes.{ByteMadeIf, BytesMade, CarriedIf, byte_due, holds_byte, part_due};

use call_basic::change_of;
use call_core::{is_siot, part};
use its_commit::{carry_part, standing};
use its_in_call::View;
use its_word::Slot;
use its_world::World;

/// As many bytes of SIOT as can be moved one after another, n at most; how many. Each is moved by a
/// tick with the letter `*`. None is moved if the call of the slot is another one, or if its next
/// tick does anything else. Split for its proof: `bytes_row` says what is done.
#[inline(always)]
pub fn bytes(w: &mut World, slot: Slot, n: u32) -> u32
    requires kept { Kept w.old }
    requires frame { is_some (call_in w.old slot) ≡ true }
    ensures few { result ≤ n }
    ensures made { BytesMade w.old w.new slot result }
    ensures most { result < n → byte_due w.new slot ≡ false }
{
    if holds_byte(w, slot) {
        return bytes_row(w, slot, n);
    }
    0
}

/// The loop that moves bytes of SIOT, n at most, as long as one can be moved; how many.
#[inline(never)]
fn bytes_row(w: &mut World, slot: Slot, n: u32) -> u32
    requires kept { Kept w.old }
    requires frame { is_some (call_in w.old slot) ≡ true }
    ensures few { result ≤ n }
    ensures made { BytesMade w.old w.new slot result }
    ensures most { result < n → byte_due w.new slot ≡ false }
{
    for k in 0..n {
        if !makes_byte(w, slot) {
            return k;
        }
    }
    n
}

/// A tick that moves a byte of SIOT, if the next tick of a slot's job does that by one change;
/// whether it does. If not, nothing changes.
fn makes_byte(w: &mut World, slot: Slot) -> bool
    requires kept { Kept w.old }
    ensures made { ByteMadeIf result w.old w.new slot }
    ensures due { result ≡ byte_due w.old slot }
{
    let Some(job) = w.jobs.job(slot) else {
        return false;
    };
    if job.stopped {
        return false;
    }
    if holds_byte(w, slot) {
        return moves(w, slot);
    }
    false
}

/// Whether the call of a slot is SIOT, and is held without a page.
#[inline(always)]
fn holds_byte(w: &World, slot: Slot) -> bool
    ensures stands { result ≡ true → is_some (standing_of (call_in w.now slot)) ≡ true }
    ensures clear { result ≡ true → IfSome (standing_of (call_in w.now slot)) (λ f. IsTried f.page) }
    ensures moving { result ≡ holds_byte (call_in w.now slot) }
{
    match w.frame(slot) {
        View::Holding {
            ask,
            page: None,
            ..
        } => is_siot(ask),
        _ => false,
    }
}

/// Moves the next byte of SIOT, if there is one that is moved by one change; whether it did. It
/// needs neither a world that is made ready nor a decision as a value.
#[tactic(auto, using(crate::proofs::TrialLaws::stands_job))]
fn moves(w: &mut World, slot: Slot) -> bool
    requires kept { Kept w.old }
    requires stands { is_some (standing_of (call_in w.old slot)) ≡ true }
    requires clear { IfSome (standing_of (call_in w.old slot)) (λ f. IsTried f.page) }
    ensures carried { CarriedIf result w.old w.new slot }
    ensures due { result ≡ part_due w.old slot }
{
    let (ask, _) = standing(w, slot);
    match part(w, slot, ask) {
        Some(part) => {
            carry_part(
                w,
                slot,
                change_of(part.moved),
                part.held,
                part.next,
                part.left,
            );
            true
        }
        None => false,
    }
}
