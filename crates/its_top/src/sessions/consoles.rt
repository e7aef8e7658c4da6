//! TYPE and DRAIN, byte by byte.
ghost use Rattle.std.specs.Prelude.{◌≡◌, ◌≤◌, Ok, length, take};
ghost use Rattle.its_plain.specs.Operator.Consoles.{with_typed, dropped, after_drain};
ghost use Rattle.its_world.specs.World.{state_of};
ghost use Rattle.its_monitor.specs.Kept.{Kept, Lands};

use arrayvec::ArrayVec;
use its_monitor::Monitor;
use its_word::ConsoleNumber;

/// Types bytes at a console, and counts those that find no room.
#[tactic(auto, using(crate::proofs::ConsoleLaws::typing_start, crate::proofs::ConsoleLaws::typing_room, crate::proofs::ConsoleLaws::typing_full, crate::proofs::ConsoleLaws::typing_end))]
pub fn type_bytes(m: &mut Monitor, c: ConsoleNumber, bytes: &[u8]) -> u32
    requires sound { Kept m.old.world }
    requires some { 1 ≤ length bytes.now }
    requires few { length bytes.now ≤ 32 }
    ensures dropped { result ≡ dropped ((state_of m.old.world).raw.consoles c) bytes.now }
    ensures done { Lands (state_of m.old.world) (state_of m.new.world) (Ok (with_typed c bytes.now (state_of m.old.world).raw)) }
    ensures sound { Kept m.new.world }
{
    let mut count = 0;
    for b in bytes {
        if !m.type_in(c, *b) {
            count += 1;
        }
    }
    count
}

/// Takes up to n bytes of output of a console.
#[tactic(auto, using(crate::proofs::ConsoleLaws::draining_start, crate::proofs::ConsoleLaws::draining_some, crate::proofs::ConsoleLaws::draining_stop, crate::proofs::ConsoleLaws::draining_end))]
pub fn drain_bytes(m: &mut Monitor, c: ConsoleNumber, n: u32) -> ArrayVec<u8, 64>
    requires sound { Kept m.old.world }
    requires few { n ≤ 64 }
    ensures bytes { result.items ≡ take n ((state_of m.old.world).raw.consoles c).output }
    ensures few { length result.items ≤ 64 }
    ensures done { Lands (state_of m.old.world) (state_of m.new.world) (Ok (after_drain c n (state_of m.old.world).raw)) }
    ensures sound { Kept m.new.world }
{
    let mut bytes = ArrayVec::new();
    for _k in 0..n {
        match m.drain(c) {
            Some(b) => bytes.push(b),
            None => return bytes,
        }
    }
    bytes
}
