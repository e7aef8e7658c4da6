//! The arguments of a call: values, places, and what a channel is on.
ghost use Rattle.std.specs.Prelude.{◌≡◌};
ghost use Rattle.its_plain.specs.Call.Arguments.{has_input, input, place_of_input};
ghost use Rattle.its_plain.specs.Call.Basic.{is_oneself, read_only, shared_place};
ghost use Rattle.its_plain.specs.Call.Footprint.{among, in_footprint, times};
ghost use Rattle.its_core.specs.Cores.{core_at};
ghost use Rattle.its_shared.specs.Called.{channel_under};

use super::caller::Caller;
use its_records::{Ask, Channel, Job};
use its_word::Word;

/// The address field of -1 in the right half, which names oneself.
const MINUS_ONE: u64 = 0o777777;

/// A word of ones, which names oneself too.
const ONES: u64 = 0o777777777777;

impl Caller<'_> {
    /// The value of an input; 0 if there is none.
    #[inline(always)]
    pub(crate) fn input(&self, k: usize) -> Word
        ensures { result ≡ input self.now.ask.now k }
    {
        input(self.ask, k)
    }

    /// The address of the word of an input; None if it is immediate or there is none.
    #[inline(always)]
    pub(crate) fn place(&self, k: usize) -> Option<u32>
        ensures { result ≡ place_of_input self.now.ask.now k }
    {
        match self.ask.inputs.get(k) {
            Some(operand) => operand.place,
            None => None,
        }
    }

    /// Whether there is such an input.
    pub(crate) fn has_input(&self, k: usize) -> bool
        ensures { result ≡ has_input self.now.ask.now k }
    {
        k < self.ask.inputs.len()
    }

    /// What a channel is on; one of a number above 17 (octal) is closed.
    #[inline(always)]
    pub(crate) fn channel(&self, number: Word) -> Channel
        ensures { result ≡ channel_under self.now.job.now number }
    {
        channel(self.job, number)
    }

    /// Whether the word of an input is none of its own: it is immediate, or a decode word, or that
    /// of another argument.
    #[inline(always)]
    #[tactic(auto, unfolding(its_plain::specs::Call::Footprint::is_shared, its_plain::specs::Call::Footprint::times))]
    pub(crate) fn is_shared(&self, k: usize) -> bool
        ensures { result ≡ shared_place self.now.ask.now (place_of_input self.now.ask.now k) }
    {
        match self.place(k) {
            Some(p) => {
                among(p, &self.ask.decode)
                    || self.ask.operand.iter().filter(|x| **x == p).count() > 1
            }
            None => true,
        }
    }

    /// Whether the word of an input is there and cannot be stored.
    #[inline(always)]
    pub(crate) fn is_read_only(&self, k: usize) -> bool
        ensures { result ≡ read_only (core_at self.now.seen.now.core.now self.now.slot) (place_of_input self.now.ask.now k) }
    {
        match self.place(k) {
            Some(p) => !self.seen.core.is_storable(self.slot, p),
            None => false,
        }
    }

    /// Whether a place is that of a decode word, or of the word of an input or of the control
    /// argument.
    #[inline(always)]
    #[tactic(auto, unfolding(its_plain::specs::Call::Footprint::in_footprint))]
    pub(crate) fn is_used(&self, place: u32) -> bool
        ensures { result ≡ in_footprint place self.now.ask.now }
    {
        among(place, &self.ask.decode) || among(place, &self.ask.operand)
    }
}

/// The value of an input; 0 if there is none.
#[inline(always)]
pub(crate) fn input(ask: &Ask, k: usize) -> Word
    ensures { result ≡ input ask.now k }
{
    match ask.inputs.get(k) {
        Some(operand) => operand.value,
        None => Word::ZERO,
    }
}

/// What a job's channel is on; one of a number above 17 (octal) is closed.
#[inline(always)]
pub(crate) fn channel(job: &Job, number: Word) -> Channel
    ensures { result ≡ channel_under job.now number }
{
    match job.channels.get(number.value() as usize) {
        Some(channel) => *channel,
        None => Channel::Closed,
    }
}

/// Whether an argument names the caller itself.
#[inline(always)]
pub(crate) fn is_oneself(party: Word) -> bool
    ensures { result ≡ is_oneself party }
{
    matches!(party.value(), MINUS_ONE | ONES)
}

/// Whether a place is among some.
#[inline(always)]
fn among(place: u32, places: &[u32]) -> bool
    ensures { result ≡ among place places.now }
{
    places.contains(&place)
}
