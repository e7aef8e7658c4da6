//! The transfers of bytes and words: what stops `.IOT` and SIOT, whatever their channel is on.
ghost use Rattle.std.specs.Prelude.{◌≡◌, ◌==◌, ◌||◌, true, false, IfOk, IfErr};
ghost use Rattle.its_word.specs.Byte.{has_size, size};
ghost use Rattle.its_core.specs.Cores.{core_at};
ghost use Rattle.its_frame.specs.declared.decision.Decision.{Decision as DecisionOf};
ghost use Rattle.its_plain.specs.Call.Arguments.{input, place_of_input};
ghost use Rattle.its_plain.specs.Call.Basic.{shared_place};
ghost use Rattle.its_plain.specs.Call.Footprint.{in_footprint};
ghost use Rattle.its_plain.specs.Call.Transfer.{is_indexed, next_pointer, siot_by, siot_tests, word_bits};
ghost use Rattle.its_shared.specs.Called.{bar_of, first_of};
ghost use Rattle.its_decide.specs.Called.{looks};
ghost use Rattle.its_decide.specs.Moving.{halted, halted_by};

use super::caller::Caller;
use super::moving::Halt;
use its_bytes::{has_size, increment};
use its_frame::error;
use its_shared::are_apart;
use its_word::pointer::{INDEXED, SIZE, SIZES, WORD_BITS};
use its_word::{BIT_0, Fault, Word};

impl Caller<'_> {
    /// The pointer to the next byte of SIOT, if no test of its arguments stops it; or what the
    /// first test that holds says.
    #[inline(always)]
    pub(crate) fn next_byte(&self, words: bool, at_end: bool) -> Result<Word, Halt>
        ensures next { IfOk result (λ p. (p ≡ next_pointer (input self.now.ask.now 1)) × (has_size p ≡ true)) }
        ensures left { IfOk result (λ p. at_end ≡ false) }
        ensures goes { IfOk result (λ p. (m : DecisionOf) → m ≡ siot_by (looks self.now) self.now.ask.now words at_end m) }
        ensures stops { IfErr result (λ h. (m : DecisionOf) → halted (looks self.now) self.now.ask.now h ≡ siot_by (looks self.now) self.now.ask.now words at_end m) }
    {
        match self.stop(words, at_end) {
            Some(halt) => Err(halt),
            None => Ok(next_pointer(self.input(1))),
        }
    }

    /// What the first of SIOT's tests says that holds: errors 17, WRO, 21, 22, the end with count 0
    /// or if its channel is at its end (of a file or of an inferior's core), and error 20. `words`
    /// says that the channel moves only whole words.
    #[tactic(auto, unfolding(its_plain::specs::Machine::View::view))]
    #[inline(always)]
    fn stop(&self, words: bool, at_end: bool) -> Option<Halt>
        ensures { halted_by (looks self.now) self.now.ask.now result ≡ first_of (siot_tests (looks self.now) self.now.ask.now (input self.now.ask.now 1) (input self.now.ask.now 2) words at_end) }
    {
        let (pointer, count) = (self.input(1), self.input(2));
        let next = next_pointer(pointer).right();
        let apart = are_apart(self.ask, self.place(1), self.place(2), next);
        if self.is_one_shared(apart) {
            return Some(Halt::Error(error::NO_WORD));
        }
        if self.is_read_only(1) || self.is_read_only(2) {
            return Some(Halt::Bit(Fault::Wro));
        }
        if !has_size(pointer) || is_indexed(pointer) {
            return Some(Halt::Error(error::BAD_POINTER));
        }
        if words && !is_word_sized(pointer) {
            return Some(Halt::Error(error::BAD_POINTER));
        }
        if count.value() >= BIT_0 {
            return Some(Halt::Error(error::OUT_OF_RANGE));
        }
        if count == Word::ZERO || at_end {
            return Some(Halt::Over);
        }
        if self.is_word_read(next, apart) {
            return Some(Halt::Error(error::WORD_IN_USE));
        }
        None
    }

    /// Whether the word of pointer or count is none of its own. `apart` may say that both are.
    #[inline(always)]
    fn is_one_shared(&self, apart: bool) -> bool
        requires { apart ≡ true → (shared_place self.now.ask.now (place_of_input self.now.ask.now 1) || shared_place self.now.ask.now (place_of_input self.now.ask.now 2)) ≡ false }
        ensures { result ≡ (shared_place self.now.ask.now (place_of_input self.now.ask.now 1) || shared_place self.now.ask.now (place_of_input self.now.ask.now 2)) }
    {
        if apart {
            return false;
        }
        self.is_shared(1) || self.is_shared(2)
    }

    /// Whether a word is one that the call reads. `apart` may say that it is not.
    #[inline(always)]
    fn is_word_read(&self, place: u32, apart: bool) -> bool
        requires { apart ≡ true → in_footprint place self.now.ask.now ≡ false }
        ensures { result ≡ in_footprint place self.now.ask.now }
    {
        if apart {
            return false;
        }
        self.is_used(place)
    }

    /// Why the caller cannot store a word.
    #[inline(always)]
    pub(crate) fn bar(&self, at: u32) -> Option<Fault>
        ensures { result ≡ bar_of (core_at self.now.seen.now.core.now self.now.slot) at }
    {
        match self.seen.core.word(self.slot, at) {
            None => Some(Fault::Mpv),
            Some(_) if self.seen.core.is_storable(self.slot, at) => None,
            Some(_) => Some(Fault::Wro),
        }
    }
}

/// The pointer to the next byte; 0 if there is none.
#[inline(always)]
fn next_pointer(pointer: Word) -> Word
    ensures { result ≡ next_pointer pointer }
{
    increment(pointer).unwrap_or(Word::ZERO)
}

/// Whether the byte of a pointer has the 36 bits of a word.
#[inline(always)]
fn is_word_sized(pointer: Word) -> bool
    ensures { result ≡ (size pointer == word_bits) }
{
    pointer.left() / SIZE % SIZES == WORD_BITS
}

/// Whether I or X of a byte pointer is not 0.
#[inline(always)]
fn is_indexed(pointer: Word) -> bool
    ensures { result ≡ is_indexed pointer }
{
    pointer.left() % INDEXED != 0
}
