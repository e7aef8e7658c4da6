//! Which interrupt is deliverable, its delivery, and the return from its handler.

ghost use Rattle.std.specs.Prelude.{◌≡◌, ◌<◌, ◌≤◌, ◌^◌, true};
ghost use Rattle.its_word.specs.Only.{Only};
ghost use Rattle.its_core.specs.Cores.{core_at};
ghost use Rattle.its_plain.specs.Call.Basic.{popped};
ghost use Rattle.its_plain.specs.Machine.Registers.{pc_word};
ghost use Rattle.its_plain.specs.Unit.Interrupt.{unguarded, deliverable, pushed, at_handler, above, below, delivered, after_dismissal};

use super::table::{Found, TableEntry, enabled_1, enabled_2, look_up};
use its_core::Core;
use its_records::{Exit, Job};
use its_word::{ADDRESSES, FATAL, Fault, Slot, Store, TBL, Word, flags_in, pc_word};

/// How much is taken from each half of the stack pointer word, modulo 1000000 (octal).
const FIVE_LESS: u32 = 0o1000000 - 5;

/// The pending fatal bits that are not enabled.
#[tactic(auto, unfolding(its_plain::specs::Unit::Interrupt::unguarded))]
fn unguarded(job: &Job) -> Word
    ensures { result ≡ unguarded job.now }
{
    job.pend1 & Word::new(FATAL) & !enabled_1(job)
}

/// Whether an interrupt of a job can be delivered: a fatal bit is pending that is not enabled, or
/// an enabled bit is.
#[tactic(auto, using(crate::proofs::PendingLaws::none_pending), unfolding(its_plain::specs::Unit::Interrupt::deliverable))]
pub fn deliverable(job: &Job) -> bool
    ensures { result ≡ deliverable job.now }
{
    // nearly always nothing is pending
    if job.pend1 == Word::ZERO && job.pend2 == Word::ZERO {
        return false;
    }
    unguarded(job) != Word::ZERO || enabled_1(job) != Word::ZERO || enabled_2(job) != Word::ZERO
}

/// The k-th place above a stack pointer word.
fn above(pointer: Word, k: u32) -> u32
    requires { k < 2 ^ 18 }
    ensures place { result ≡ above pointer k }
    ensures below { result < 2 ^ 18 }
{
    (pointer.right() + k) % ADDRESSES
}

/// A store of a word at an address.
fn store(at: u32, word: Word) -> Store
    ensures { result ≡ record { at = at; word = word } }
{
    Store { at, word }
}

/// The stores of a delivery, in order.
#[tactic(auto, unfolding(its_plain::specs::Unit::Interrupt::pushed))]
fn pushes(job: &Job, found: &Found) -> [Store; 6]
    ensures { result ≡ pushed job.now found.now.entry found.now.place found.now.pointer }
{
    let pointer = found.pointer;
    let next = Word::pair(pointer.left() + 5, pointer.right() + 5);
    [
        store(above(pointer, 1), enabled_1(job) & found.entry.mask1()),
        store(above(pointer, 2), enabled_2(job) & found.entry.mask2()),
        store(above(pointer, 3), job.defer1),
        store(above(pointer, 4), job.defer2),
        store(above(pointer, 5), pc_word(job.flags, job.pc)),
        store(found.place, next),
    ]
}

/// Takes the job to the handler of an entry.
#[tactic(auto, unfolding(its_plain::specs::Unit::Interrupt::at_handler))]
fn enter(job: &mut Job, entry: &TableEntry)
    ensures { job.new ≡ at_handler job.old entry.now }
{
    let taken_1 = enabled_1(job) & entry.mask1();
    let taken_2 = enabled_2(job) & entry.mask2();
    job.pend1 = job.pend1 & !taken_1;
    job.pend2 = job.pend2 & !taken_2;
    job.defer1 = job.defer1 | entry.defer1();
    job.defer2 = job.defer2 | entry.defer2();
    job.pc = entry.handler().right();
    job.flags = 0;
}

/// Delivers an interrupt to a job, and says whether a fatal bit stopped the job; INF is then to be
/// set in its superior, if it has one. A delivery that is not possible sets TBL and changes nothing
/// else.
#[tactic(auto, unfolding(its_plain::specs::Unit::Interrupt::delivered))]
pub fn deliver(core: &mut Core, slot: Slot, job: &mut Job) -> bool
    requires deliverable { deliverable job.old ≡ true }
    ensures core { Only (core_at core.old) (core_at core.new) slot (delivered (core_at core.old slot) job.old).core }
    ensures reserved { core.new.reserved ≡ core.old.reserved }
    ensures frames { core.new.frames ≡ core.old.frames }
    ensures job { job.new ≡ (delivered (core_at core.old slot) job.old).job }
    ensures stops { result ≡ (delivered (core_at core.old slot) job.old).stops }
{
    if unguarded(job) != Word::ZERO {
        job.stopped = true;
        return true;
    }
    if let Some(found) = look_up(core, slot, job) {
        let stores = pushes(job, &found);
        if core.store_all(slot, &stores).is_ok() {
            enter(job, &found.entry);
            return false;
        }
    }
    job.pend1 = job.pend1 | Word::new(TBL);
    false
}

/// The registers that DISMIS leaves a job with, from the five words that a delivery pushed below
/// the stack pointer word at p. Mpv if one of the words is absent, else Wro if p is read only.
#[tactic(auto, unfolding(its_plain::specs::Unit::Interrupt::after_dismissal))]
pub fn dismiss(core: &Core, job: &Job, slot: Slot, p: u32) -> Result<Exit, Fault>
    ensures { result ≡ after_dismissal (core_at core.now slot) job.now p }
{
    let pointer = core.word(slot, p).ok_or(Fault::Mpv)?;
    let saved = core.word(slot, pointer.right()).ok_or(Fault::Mpv)?;
    let defer2 = core.word(slot, below(pointer, 1)).ok_or(Fault::Mpv)?;
    let defer1 = core.word(slot, below(pointer, 2)).ok_or(Fault::Mpv)?;
    if !core.is_storable(slot, p) {
        return Err(Fault::Wro);
    }
    Ok(Exit {
        pc: saved.right(),
        flags: flags_in(saved),
        pend1: job.pend1,
        pend2: job.pend2,
        mask1: job.mask1,
        mask2: job.mask2,
        defer1,
        defer2,
    })
}

/// The k-th place below that of a stack pointer word.
fn below(pointer: Word, k: u32) -> u32
    requires { k ≤ 2 ^ 18 }
    ensures { result ≡ below pointer k }
{
    (pointer.right() + (ADDRESSES - k)) % ADDRESSES
}

/// The stack pointer word without the five words of a delivery.
pub fn popped(pointer: Word) -> Word
    ensures { result ≡ popped pointer }
{
    Word::pair(pointer.left() + FIVE_LESS, pointer.right() + FIVE_LESS)
}
