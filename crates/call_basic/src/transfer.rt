//! What `.IOT` and SIOT have in common, whatever their channel is on: SIOT's tests, and the ways in
//! which they move a byte or a word.
ghost use Rattle.std.specs.Prelude.{◌≡◌, ◌==◌, ◌||◌, ◌∷◌, ◌-◌, [], true, false, IfOk};
ghost use Rattle.std.specs.Option.{option_to_list};
ghost use Rattle.its_word.specs.Byte.{size};
ghost use Rattle.its_records.specs.declared.jobs.Job.{Job};
ghost use Rattle.its_core.specs.Cores.{core_at};
ghost use Rattle.its_frame.specs.declared.decision.Decision.TheVariants.{Ends, Goes};
ghost use Rattle.its_plain.specs.Call.Arguments.{input};
ghost use Rattle.its_plain.specs.Call.Basic.{shared_place};
ghost use Rattle.its_plain.specs.Call.Footprint.{in_footprint};
ghost use Rattle.its_plain.specs.Machine.Own.{with_advance, exit_of};
ghost use Rattle.its_plain.specs.Call.Tests.{goes};
ghost use Rattle.its_plain.specs.Call.Transfer.{is_indexed, next_pointer, siot_tests, word_bits};
ghost use Rattle.its_shared.specs.Called.{bar_of, first_of};
ghost use Rattle.call_basic.specs.Parts.{change_of, going, part_in, part_of, stop_in, stop_of};
ghost use Rattle.call_basic.specs.Seen.{seen_by};

use super::arguments::{in_footprint, input, place_of_input};
use super::ends::{exit_after, fails, faults, finishes};
use super::sleeping::{is_negative, is_read_only, is_shared_place};
use arrayvec::ArrayVec;
use its_bytes::{has_size, increment};
use its_frame::{Change, Decision, Held, Store, Wait, error};
use its_records::{Ask, Job};
use its_shared::are_apart;
use its_word::pointer::{INDEXED, SIZE, SIZES, WORD_BITS};
use its_word::{Fault, Slot, Word};
use its_world::World;

/// `.IOT` is done: at most one thing changes outside its job's words and registers, and PC is past
/// it.
pub fn iot_ends(job: &Job, change: Option<Change>, stores: ArrayVec<Store, 2>) -> Decision
    ensures { result ≡ Ends (record { items = option_to_list change }) stores (exit_of (with_advance 1 job.now)) }
{
    let mut changes = ArrayVec::new();
    if let Some(change) = change {
        changes.push(change);
    }
    Decision::Ends {
        changes,
        stores,
        exit: exit_after(job, 1),
    }
}

/// Why a word cannot be stored.
pub fn bar_of_store(w: &World, slot: Slot, at: u32) -> Option<Fault>
    ensures { result ≡ bar_of (core_at w.now.core slot) at }
{
    if w.core.word(slot, at).is_none() {
        return Some(Fault::Mpv);
    }
    if !w.core.is_storable(slot, at) {
        return Some(Fault::Wro);
    }
    None
}

/// Why SIOT moves no byte: it fails with a number; it faults; its bytes are moved, or its channel
/// is at its end; or it cannot go on.
#[derive(Clone, Copy, Debug, PartialEq, Eq)]
pub enum Stop {
    Fails(u8),
    Faults(Fault),
    Finishes,
    Waits(Wait),
}

/// What changes if SIOT moves a byte or a word, outside its job's own words and registers: the
/// position of a channel; the draft of a channel; the input or the output of a console; or the
/// words of a link. Each is a `Change`; this type has no other, and is small.
#[derive(Clone, Copy, Debug, PartialEq, Eq)]
pub enum Moved {
    Move { channel: u8, at: u32 },
    Append { channel: u8, word: Word },
    Take { console: u8 },
    Put { console: u8, byte: u8 },
    Send { link: u8, word: Word },
    Receive { link: u8 },
}

/// The change that is made.
#[inline(always)]
pub fn change_of(moved: Moved) -> Change
    ensures { result ≡ change_of moved }
{
    match moved {
        Moved::Move { channel, at } => Change::Move { channel, at },
        Moved::Append { channel, word } => Change::Append { channel, word },
        Moved::Take { console } => Change::Take { console },
        Moved::Put { console, byte } => Change::Put { console, byte },
        Moved::Send { link, word } => Change::Send { link, word },
        Moved::Receive { link } => Change::Receive { link },
    }
}

/// A part of SIOT that moves one byte: what changes, the byte that is held if it is input, and the
/// pointer and count of the rest.
#[derive(Clone, Copy, Debug, PartialEq, Eq)]
pub struct NextByte {
    pub moved: Moved,
    pub held: Option<Held>,
    pub next: Word,
    pub left: Word,
}

/// The pointer to the byte that SIOT moves next, whatever its channel is on; or the first of its
/// tests that holds: errors 17, WRO, 21, 22, the end with count 0 or if `ended` says that the
/// channel is at its end (of a file or of an inferior's core), and error 20. `words` says that its
/// device moves only whole words.
#[inline(always)]
#[tactic(auto, unfolding(its_plain::specs::Machine::View::view, its_world::specs::World::state_of))]
pub fn next_byte(w: &World, slot: Slot, ask: &Ask, words: bool, ended: bool) -> Result<Word, Stop>
    ensures stops { (j : Job) → stop_in j ask.now result ≡ first_of (siot_tests (seen_by w.now slot j ask.now) ask.now (input ask.now 1) (input ask.now 2) words ended) }
    ensures next { IfOk result (λ n. n ≡ next_pointer (input ask.now 1)) }
{
    let (pointer, count) = (input(ask, 1), input(ask, 2));
    let (p, k) = (place_of_input(ask, 1), place_of_input(ask, 2));
    let next = next_pointer(pointer);
    let apart = are_apart(ask, p, k, next.right());
    if is_one_shared(ask, p, k, apart) {
        return Err(Stop::Fails(error::NO_WORD));
    }
    if is_read_only(w, slot, p) || is_read_only(w, slot, k) {
        return Err(Stop::Faults(Fault::Wro));
    }
    if !has_size(pointer) || is_indexed(pointer) {
        return Err(Stop::Fails(error::BAD_POINTER));
    }
    if words && !is_word_sized(pointer) {
        return Err(Stop::Fails(error::BAD_POINTER));
    }
    if is_negative(count.value()) {
        return Err(Stop::Fails(error::OUT_OF_RANGE));
    }
    if count == Word::ZERO || ended {
        return Err(Stop::Finishes);
    }
    if is_read(ask, next.right(), apart) {
        return Err(Stop::Fails(error::WORD_IN_USE));
    }
    Ok(next)
}

/// Whether the word of pointer or count is an argument without a word of its own. `apart` may say
/// that neither is.
#[inline(always)]
fn is_one_shared(ask: &Ask, p: Option<u32>, k: Option<u32>, apart: bool) -> bool
    requires { apart ≡ true → (shared_place ask.now p || shared_place ask.now k) ≡ false }
    ensures { result ≡ (shared_place ask.now p || shared_place ask.now k) }
{
    if apart {
        return false;
    }
    is_shared_place(ask, p) || is_shared_place(ask, k)
}

/// Whether a word is one that a call reads. `apart` may say that it is not.
fn is_read(ask: &Ask, place: u32, apart: bool) -> bool
    requires { apart ≡ true → in_footprint place ask.now ≡ false }
    ensures { result ≡ in_footprint place ask.now }
{
    if apart {
        return false;
    }
    in_footprint(place, ask)
}

/// What SIOT decides if it moves no byte.
fn decision_of_stop(job: &Job, ask: &Ask, stop: Stop) -> Decision
    ensures { result ≡ stop_of job.now ask.now stop }
{
    match stop {
        Stop::Fails(number) => fails(job, ask, number),
        Stop::Faults(fault) => faults(job, fault),
        Stop::Finishes => finishes(job, ArrayVec::new()),
        Stop::Waits(wait) => Decision::Waits(wait),
    }
}

/// What SIOT decides: a part of it is done, or it moves no byte.
#[inline(never)]
pub fn decision_of(job: &Job, ask: &Ask, part: Result<NextByte, Stop>) -> Decision
    ensures { result ≡ part_of job.now ask.now part }
{
    match part {
        Ok(part) => going(part),
        Err(stop) => decision_of_stop(job, ask, stop),
    }
}

/// The part of SIOT that is done, if a byte is moved.
#[inline(always)]
pub fn part_in(part: Result<NextByte, Stop>) -> Option<NextByte>
    ensures { result ≡ part_in part }
{
    match part {
        Ok(part) => Some(part),
        Err(_) => None,
    }
}

/// The decision that a part of SIOT is done.
fn going(part: NextByte) -> Decision
    ensures { result ≡ going part }
{
    let mut changes = ArrayVec::new();
    changes.push(change_of(part.moved));
    goes_with(changes, part.held, part.next, part.left)
}

/// The first of SIOT's tests that holds, as a decision (`next_byte`).
pub fn stopped(
    w: &World,
    slot: Slot,
    job: &Job,
    ask: &Ask,
    words: bool,
    ended: bool,
) -> Option<Decision>
    ensures { result ≡ first_of (siot_tests (seen_by w.now slot job.now ask.now) ask.now (input ask.now 1) (input ask.now 2) words ended) }
{
    match next_byte(w, slot, ask, words, ended) {
        Ok(_) => None,
        Err(stop) => Some(decision_of_stop(job, ask, stop)),
    }
}

/// Whether the byte of a pointer has the 36 bits of a word.
fn is_word_sized(pointer: Word) -> bool
    ensures { result ≡ (size pointer == word_bits) }
{
    pointer.left() / SIZE % SIZES == WORD_BITS
}

/// Whether I or X of a byte pointer is not 0.
fn is_indexed(pointer: Word) -> bool
    ensures { result ≡ is_indexed pointer }
{
    pointer.left() % INDEXED != 0
}

/// The pointer to the next byte.
#[inline(always)]
pub fn next_pointer(pointer: Word) -> Word
    ensures { result ≡ next_pointer pointer }
{
    increment(pointer).unwrap_or(Word::ZERO)
}

/// The count of the rest, when a byte is moved.
#[inline(always)]
pub fn one_less(count: Word) -> Word
    ensures { result ≡ count - 1 }
{
    Word::new(count.value().saturating_sub(1))
}

/// A byte is moved: one thing changes, a byte may be held, and pointer and count become those of
/// the rest.
pub fn moves(change: Change, held: Option<Held>, next: Word, count: Word) -> Decision
    ensures { result ≡ goes (change ∷ []) held (next ∷ (count - 1) ∷ []) }
{
    let mut changes = ArrayVec::new();
    changes.push(change);
    moves_with(changes, held, next, count)
}

/// Several things change, a byte may be held, and pointer and count become those of the rest.
pub fn moves_with(
    changes: ArrayVec<Change, 2>,
    held: Option<Held>,
    next: Word,
    count: Word,
) -> Decision
    ensures { result ≡ Goes changes held (record { items = next ∷ (count - 1) ∷ [] }) }
{
    goes_with(changes, held, next, one_less(count))
}

/// A part of the call is done: these changes, a byte may be held, and its last two arguments have
/// new values.
fn goes_with(changes: ArrayVec<Change, 2>, held: Option<Held>, next: Word, left: Word) -> Decision
    ensures { result ≡ Goes changes held (record { items = next ∷ left ∷ [] }) }
{
    let mut values = ArrayVec::new();
    values.push(next);
    values.push(left);
    Decision::Goes {
        changes,
        held,
        values,
    }
}
