//! Turns in a circle of slots: whose turn comes after that of the last slot.
//!
//! Proved: `turn_after` is the first slot that runs after the slot of the last turn, around the
//! circle (`turn`). This is the nearest one on that way, and it is None exactly if no slot runs
//! (`nearest`). Both machines are a `Circle`, and this is their only search.
//!
//! Tests: test_decisions/src/turns.rt, test_lines/src/turns.rt.
#![tactic(auto)]

ghost use Rattle.std.specs.Prelude.{◌≡◌, ◌≤◌, ◌<◌, ◌-◌, ℕ, Bool};
ghost use Rattle.its_word.specs.Limits.{slots};
ghost use Rattle.its_robin.specs.Robin.{Turn, first_running, robin};

use its_word::{SLOTS, Slot};

/// The circle of all slots, some of which run.
pub trait Circle {
    /// Whether a slot runs.
    ghost who_runs: { Self → ℕ → Bool };

    /// Whether a slot runs.
    fn running(&self, slot: Slot) -> bool
        ensures runs { result ≡ who_runs self.now slot };
}

/// The slot whose turn it is, after a turn of slot `last`: the first that runs of those after it,
/// around the circle, with `last` itself as the final one; None exactly if none runs.
#[tactic(auto, using(crate::proofs::RobinLaws::turn_behind, crate::proofs::RobinLaws::turn_around, crate::proofs::RobinLaws::next_behind, crate::proofs::RobinLaws::around_is))]
pub fn turn_after<C: Circle>(circle: &C, last: Slot) -> Option<Slot>
    ensures turn { result ≡ robin slots (C.who_runs circle.now) last }
    ensures nearest { Turn slots (C.who_runs circle.now) last result }
{
    let behind = last.number() + 1;
    match first_running(circle, behind, SLOTS as u8) {
        Some(slot) => Some(slot),
        None => first_running(circle, 0, behind),
    }
}

/// The first slot that runs of those from one on and before another.
#[tactic(auto, using(crate::proofs::RobinLaws::first_next, crate::proofs::RobinLaws::first_found, crate::proofs::RobinLaws::first_end))]
fn first_running<C: Circle>(circle: &C, from: u8, to: u8) -> Option<Slot>
    requires order { from ≤ to }
    requires within { to ≤ slots }
    ensures { result ≡ first_running (C.who_runs circle.now) (to - from) from }
{
    for slot in from..to {
        let slot = Slot::new(slot);
        if circle.running(slot) {
            return Some(slot);
        }
    }
    None
}
