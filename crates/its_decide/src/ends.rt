//! The ways in which a call ends.
ghost use Rattle.std.specs.Prelude.{◌≡◌, ◌<◌, ◌^◌, ◌∷◌, [], None};
ghost use Rattle.std.specs.Option.{option_to_list};
ghost use Rattle.its_frame.specs.declared.decision.Decision.TheVariants.{Ends, Goes};
ghost use Rattle.its_plain.specs.Machine.Registers.{IOC as IOC_BIT, bit_of, with_pending};
ghost use Rattle.its_plain.specs.Machine.Own.{with_advance, exit_of};
ghost use Rattle.its_plain.specs.Call.Tests.{goes, number_at, out};

use super::caller::Caller;
use arrayvec::ArrayVec;
use its_frame::{Change, Decision, Exit, Held, Store};
use its_word::{ADDRESSES, BYTE_HALF, Fault, IOC, Word};

impl Caller<'_> {
    /// The registers of the caller as they are.
    fn registers(&self) -> Exit
        ensures { result ≡ exit_of self.now.job.now }
    {
        Exit {
            pc: self.job.pc,
            flags: self.job.flags,
            pend1: self.job.pend1,
            pend2: self.job.pend2,
            mask1: self.job.mask1,
            mask2: self.job.mask2,
            defer1: self.job.defer1,
            defer2: self.job.defer2,
        }
    }

    /// The registers of the caller whose call is over: PC some words further, first part done
    /// cleared.
    pub(crate) fn past(&self, words: u32) -> Exit
        requires { words < 2 ^ 18 }
        ensures { result ≡ exit_of (with_advance words self.now.job.now) }
    {
        Exit {
            pc: (self.job.pc % ADDRESSES + words) % ADDRESSES,
            flags: self.job.flags - (self.job.flags & BYTE_HALF),
            ..self.registers()
        }
    }

    /// The store of a value into the output, if there is one.
    pub(crate) fn output(&self, value: Word) -> ArrayVec<Store, 2>
        ensures { result ≡ record { items = out self.now.ask.now.outputs.items value } }
    {
        store_at(self.ask.outputs.first().copied(), value)
    }

    /// The call finishes: PC past it and the instruction after it.
    pub(crate) fn finishes(&self, stores: ArrayVec<Store, 2>) -> Decision
        ensures { result ≡ Ends (record { items = [] }) stores (exit_of (with_advance 2 self.now.job.now)) }
    {
        ends(None, stores, self.past(2))
    }

    /// The call finishes, and does one thing outside its job's words and registers.
    pub(crate) fn finishes_with(&self, change: Change) -> Decision
        ensures { result ≡ Ends (record { items = change ∷ [] }) (record { items = [] }) (exit_of (with_advance 2 self.now.job.now)) }
    {
        ends(Some(change), ArrayVec::new(), self.past(2))
    }

    /// The call fails: the number is stored at its error address, if it has one, and PC is past the
    /// call.
    pub(crate) fn fails(&self, number: u8) -> Decision
        ensures { result ≡ Ends (record { items = [] }) (record { items = number_at self.now.ask.now.error number }) (exit_of (with_advance 1 self.now.job.now)) }
    {
        let stores = store_at(self.ask.error, Word::new(u64::from(number)));
        ends(None, stores, self.past(1))
    }

    /// The call faults: the bit is pending, and PC stays.
    pub(crate) fn faults(&self, fault: Fault) -> Decision
        ensures { result ≡ Ends (record { items = [] }) (record { items = [] }) (exit_of (with_pending self.now.job.now (bit_of fault))) }
    {
        let mut exit = self.registers();
        exit.pend1 = exit.pend1 | fault.bit();
        ends(None, ArrayVec::new(), exit)
    }

    /// `.IOT` fails: IOC is pending, and PC is past the call.
    pub(crate) fn ioc(&self) -> Decision
        ensures { result ≡ Ends (record { items = [] }) (record { items = [] }) (exit_of (with_pending (with_advance 1 self.now.job.now) IOC_BIT)) }
    {
        let mut exit = self.past(1);
        exit.pend1 = exit.pend1 | Word::new(IOC);
        ends(None, ArrayVec::new(), exit)
    }
}

/// A part of the call is done: these changes, a byte or word may be held, and pointer and count
/// become those of the rest.
pub(crate) fn goes_with(
    changes: ArrayVec<Change, 2>,
    held: Option<Held>,
    next: Word,
    left: Word,
) -> Decision
    ensures { result ≡ Goes changes held (record { items = next ∷ left ∷ [] }) }
{
    let mut values = ArrayVec::new();
    values.push(next);
    values.push(left);
    Decision::Goes {
        values,
        held,
        changes,
    }
}

/// A part of the call is done: nothing changes outside its job's words and registers, and the last
/// argument becomes another.
pub(crate) fn goes_on(value: Word) -> Decision
    ensures { result ≡ goes [] None (value ∷ []) }
{
    let mut values = ArrayVec::new();
    values.push(value);
    Decision::Goes {
        values,
        held: None,
        changes: ArrayVec::new(),
    }
}

/// The call is over, and at most one thing changes outside its job's words and registers.
pub(crate) fn ends(change: Option<Change>, stores: ArrayVec<Store, 2>, exit: Exit) -> Decision
    ensures { result ≡ Ends (record { items = option_to_list change }) stores exit }
{
    let mut changes = ArrayVec::new();
    if let Some(change) = change {
        changes.push(change);
    }
    Decision::Ends {
        exit,
        stores,
        changes,
    }
}

/// A store of a word, if there is an address for it.
pub(crate) fn store_at(place: Option<u32>, word: Word) -> ArrayVec<Store, 2>
    ensures { result ≡ record { items = number_at place word } }
{
    let mut stores = ArrayVec::new();
    if let Some(at) = place {
        stores.push(Store { at, word });
    }
    stores
}
