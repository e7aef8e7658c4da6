//! `.IOT` and SIOT of whole words, on files and on inferiors: what they store, and how they end.
ghost use Rattle.std.specs.Prelude.{◌≡◌, ◌<◌, ◌∷◌, ◌^◌, [], slice_index_or};
ghost use Rattle.std.specs.Option.{option_to_list};
ghost use Rattle.its_frame.specs.declared.change.Change.TheVariants.{Move};
ghost use Rattle.its_frame.specs.declared.decision.Decision.TheVariants.{Ends};
ghost use Rattle.its_plain.specs.Call.Arguments.{input};
ghost use Rattle.its_plain.specs.Call.File.{siot_read};
ghost use Rattle.its_plain.specs.Machine.Own.{with_advance, exit_of};
ghost use Rattle.its_decide.specs.Called.{looks};
ghost use Rattle.its_decide.specs.Moving.{outcome};
ghost use Rattle.its_decide.specs.declared.moving.Shift.TheVariants.{Move as ShiftTo};

use super::caller::Caller;
use super::ends::{ends, store_at};
use super::moving::{Halt, NextMove, Shift, one_moved};
use its_frame::{Change, Decision, Held};
use its_word::Word;

impl Caller<'_> {
    /// The channel of a call has another position.
    pub(crate) fn moves_to(&self, at: u32) -> Change
        requires { input self.now.ask.now 0 < 16 }
        ensures { result ≡ Move (input self.now.ask.now 0) at }
    {
        Change::Move {
            channel: self.input(0).value() as u8,
            at,
        }
    }

    /// What SIOT changes outside the job if the channel has another position.
    #[inline(always)]
    fn shifts_to(&self, at: u32) -> Shift
        requires { input self.now.ask.now 0 < 16 }
        ensures { result ≡ ShiftTo (input self.now.ask.now 0) at }
    {
        Shift::Move {
            channel: self.input(0).value() as u8,
            at,
        }
    }

    /// E of `.IOT`: the address of the word that it stores or reads.
    pub(crate) fn address(&self) -> u32
        ensures { result ≡ slice_index_or self.now.ask.now.outputs.items 0 0 }
    {
        self.ask.outputs.first().copied().unwrap_or(0)
    }

    /// `.IOT` is done, and stores a word at E.
    pub(crate) fn iot_gets(&self, change: Option<Change>, word: Word) -> Decision
        ensures { result ≡ Ends (record { items = option_to_list change }) (record { items = record { at = slice_index_or self.now.ask.now.outputs.items 0 0; word = word } ∷ [] }) (exit_of (with_advance 1 self.now.job.now)) }
    {
        ends(change, store_at(Some(self.address()), word), self.past(1))
    }

    /// SIOT gets a word, which is held and stored by the next step, at the next byte of its
    /// pointer; the position that it came from is one more. MPV or WRO by the word that it will be
    /// stored in.
    #[inline(always)]
    #[tactic(auto, unfolding(its_plain::specs::Machine::View::view))]
    pub(crate) fn siot_gets(&self, next: Word, at: u32, word: Word) -> Result<NextMove, Halt>
        requires number { input self.now.ask.now 0 < 16 }
        requires few { at < 2 ^ 18 }
        ensures { outcome (looks self.now) self.now.ask.now result ≡ siot_read (looks self.now) next (input self.now.ask.now 2) (input self.now.ask.now 0) at word }
    {
        let place = next.right();
        if let Some(fault) = self.bar(place) {
            return Err(Halt::Bit(fault));
        }
        let held = Held { place, byte: word };
        Ok(one_moved(self.shifts_to(at + 1), Some(held), next, self.input(2)))
    }
}
