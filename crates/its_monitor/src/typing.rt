//! TYPE and DRAIN, byte by byte.
ghost use Rattle.std.specs.Prelude.{◌≡◌, ◌<◌, ◌↔◌, ◌∷◌, [], Ok, IsTrue, length, slice_get};
ghost use Rattle.its_word.specs.Console.{most_waiting};
ghost use Rattle.its_plain.specs.Operator.Consoles.{with_typed, after_drain};
ghost use Rattle.its_stepped.specs.State.{plain};
ghost use Rattle.its_world.specs.World.{state_of, plain_of};
ghost use Rattle.its_monitor.specs.Kept.{Kept, Lands};

use super::monitor::Monitor;
use its_word::ConsoleNumber;

impl Monitor {
    /// One byte of a TYPE line, typed at a console. False if 64 typed bytes wait; the byte is then
    /// dropped.
    #[tactic(auto, using(crate::proofs::TypingLaws::type_room, crate::proofs::TypingLaws::type_lands, crate::proofs::TypingLaws::type_plain))]
    pub fn type_in(&mut self, console: ConsoleNumber, b: u8) -> bool
        requires kept { Kept self.old.world }
        ensures waits { IsTrue result ↔ (length ((state_of self.old.world).raw.consoles console).input < most_waiting) }
        ensures done { Lands (state_of self.old.world) (state_of self.new.world) (Ok (with_typed console (b ∷ []) (state_of self.old.world).raw)) }
        ensures plain { plain_of self.new.world ≡ with_typed console (b ∷ []) (plain_of self.old.world) }
        ensures core { self.new.world.core ≡ self.old.world.core }
        ensures kept { Kept self.new.world }
    {
        self.world.type_in(console, b)
    }

    /// One byte of a DRAIN line: the byte of a console that was put out first; None if none waits.
    #[tactic(auto, using(crate::proofs::TypingLaws::drain_first, crate::proofs::TypingLaws::drain_lands, crate::proofs::TypingLaws::drain_plain, crate::proofs::TypingLaws::drain_kept))]
    pub fn drain(&mut self, console: ConsoleNumber) -> Option<u8>
        requires kept { Kept self.old.world }
        ensures first { result ≡ slice_get ((state_of self.old.world).raw.consoles console).output 0 }
        ensures done { Lands (state_of self.old.world) (state_of self.new.world) (Ok (after_drain console 1 (state_of self.old.world).raw)) }
        ensures plain { plain_of self.new.world ≡ after_drain console 1 (plain_of self.old.world) }
        ensures core { self.new.world.core ≡ self.old.world.core }
        ensures kept { Kept self.new.world }
    {
        self.world.drain(console)
    }
}
