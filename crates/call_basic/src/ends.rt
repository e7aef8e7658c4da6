//! The ways in which a call ends.
ghost use Rattle.std.specs.Prelude.{◌≡◌, ◌<◌, ◌+◌, ◌%◌, ◌^◌, [], ◌∷◌};
ghost use Rattle.its_frame.specs.declared.decision.Decision.TheVariants.{Ends};
ghost use Rattle.its_plain.specs.Machine.Registers.{bit_of, with_pending, IOC as IOC_BIT};
ghost use Rattle.its_plain.specs.Machine.Own.{with_advance, exit_of};
ghost use Rattle.its_plain.specs.Call.Tests.{number_at, out};

use arrayvec::ArrayVec;
use its_frame::{Change, Decision, Exit, Store};
use its_records::{Ask, Job};
use its_word::{ADDRESSES, BYTE_HALF, Fault, IOC, Word};

/// The registers of a job as they are.
pub(crate) fn exit_of(job: &Job) -> Exit
    ensures { result ≡ exit_of job.now }
{
    Exit {
        pc: job.pc,
        flags: job.flags,
        pend1: job.pend1,
        pend2: job.pend2,
        mask1: job.mask1,
        mask2: job.mask2,
        defer1: job.defer1,
        defer2: job.defer2,
    }
}

/// The PC so many words further.
fn pc_after(pc: u32, words: u32) -> u32
    requires { words < 2 ^ 18 }
    ensures { result ≡ (pc + words) % 2 ^ 18 }
{
    (pc % ADDRESSES + words) % ADDRESSES
}

/// The registers of a job whose call is over: PC some words further, first part done cleared.
pub fn exit_after(job: &Job, words: u32) -> Exit
    requires { words < 2 ^ 18 }
    ensures { result ≡ exit_of (with_advance words job.now) }
{
    Exit {
        pc: pc_after(job.pc, words),
        flags: job.flags - (job.flags & BYTE_HALF),
        ..exit_of(job)
    }
}

/// A store of a word, if there is an address for it.
pub fn store_at(place: Option<u32>, word: Word) -> ArrayVec<Store, 2>
    ensures { result ≡ record { items = number_at place word } }
{
    let mut stores = ArrayVec::new();
    if let Some(at) = place {
        stores.push(Store { at, word });
    }
    stores
}

/// The store of a value into the output, if there is one.
pub fn output(ask: &Ask, value: Word) -> ArrayVec<Store, 2>
    ensures { result ≡ record { items = out ask.now.outputs.items value } }
{
    store_at(ask.outputs.first().copied(), value)
}

/// The call ends with these stores and registers, and changes nothing else.
pub(crate) fn ends(stores: ArrayVec<Store, 2>, exit: Exit) -> Decision
    ensures { result ≡ Ends (record { items = [] }) stores exit }
{
    Decision::Ends {
        changes: ArrayVec::new(),
        stores,
        exit,
    }
}

/// The call finishes: PC past it and the instruction after it.
pub fn finishes(job: &Job, stores: ArrayVec<Store, 2>) -> Decision
    ensures { result ≡ Ends (record { items = [] }) stores (exit_of (with_advance 2 job.now)) }
{
    ends(stores, exit_after(job, 2))
}

/// The call finishes, and does one thing outside its job's words and registers.
pub fn finishes_with(job: &Job, change: Change, stores: ArrayVec<Store, 2>) -> Decision
    ensures { result ≡ Ends (record { items = change ∷ [] }) stores (exit_of (with_advance 2 job.now)) }
{
    let mut changes = ArrayVec::new();
    changes.push(change);
    Decision::Ends {
        changes,
        stores,
        exit: exit_after(job, 2),
    }
}

/// The call fails: the number is stored at its error address, if it has one, and PC is past the
/// call.
pub fn fails(job: &Job, ask: &Ask, number: u8) -> Decision
    ensures { result ≡ Ends (record { items = [] }) (record { items = number_at ask.now.error number }) (exit_of (with_advance 1 job.now)) }
{
    let stores = store_at(ask.error, Word::new(u64::from(number)));
    ends(stores, exit_after(job, 1))
}

/// The call faults: the bit is pending, and PC stays.
pub fn faults(job: &Job, fault: Fault) -> Decision
    ensures { result ≡ Ends (record { items = [] }) (record { items = [] }) (exit_of (with_pending job.now (bit_of fault))) }
{
    let exit = Exit {
        pend1: job.pend1 | fault.bit(),
        ..exit_of(job)
    };
    ends(ArrayVec::new(), exit)
}

/// `.IOT` fails: IOC is pending, and PC is past the call.
pub fn ioc(job: &Job) -> Decision
    ensures { result ≡ Ends (record { items = [] }) (record { items = [] }) (exit_of (with_pending (with_advance 1 job.now) IOC_BIT)) }
{
    let exit = Exit {
        pend1: job.pend1 | Word::new(IOC),
        ..exit_after(job, 1)
    };
    ends(ArrayVec::new(), exit)
}
