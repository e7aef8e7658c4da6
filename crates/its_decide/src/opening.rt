//! What all calls OPEN test, whatever their device.
ghost use Rattle.std.specs.Prelude.{◌≡◌, ◌&&◌, nat_lt, unwrap_or};
ghost use Rattle.its_plain.specs.Call.Basic.{channel_at, is_shut};
ghost use Rattle.its_decide.specs.Called.{looks};

use super::caller::Caller;
use its_records::Channel;
use its_word::Word;

impl Caller<'_> {
    /// The control argument; 0 if there is none.
    pub(crate) fn control(&self) -> u64
        ensures { result ≡ unwrap_or self.now.ask.now.control 0 }
    {
        match self.ask.control {
            Some(word) => word.value(),
            None => 0,
        }
    }

    /// Whether a number is that of a closed channel.
    #[tactic(auto, using(its_shared::proofs::NumberLaws::under), unfolding(its_plain::specs::Machine::View::view))]
    pub(crate) fn is_free(&self, number: Word) -> bool
        ensures { result ≡ (nat_lt number 16 && is_shut (channel_at (looks self.now).own.channels number)) }
    {
        number.value() < 16
            && match self.channel(number) {
                Channel::Closed => true,
                _ => false,
            }
    }
}
