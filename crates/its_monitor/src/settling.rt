//! A monitor settled: all jobs in user mode, and no close half made.
ghost use Rattle.std.specs.Prelude.{◌≡◌, ℕ, None};
ghost use Rattle.its_world.specs.World.{plain_of, state_of};
ghost use Rattle.its_monitor.specs.Kept.{Kept};
ghost use Rattle.its_monitor.specs.Settled.{IsSettled};

use super::filing::help;
use super::monitor::Monitor;
use its_pclsr::unwind;
use its_word::{SLOTS, Slot};
use its_world::World;

impl Monitor {
    /// Unwinds all jobs, and performs the pending parts of a close. The plain machine is unchanged.
    pub fn settle(&mut self)
        requires kept { Kept self.old.world }
        ensures plain { plain_of self.new.world ≡ plain_of self.old.world }
        ensures settled { IsSettled (state_of self.new.world) }
        ensures kept { Kept self.new.world }
    {
        unwind_all(&mut self.world);
        help(&mut self.world);
    }
}

/// Unwinds all jobs, by slot.
fn unwind_all(w: &mut World)
    requires kept { Kept w.old }
    ensures plain { plain_of w.new ≡ plain_of w.old }
    ensures frames { (k : ℕ) → (state_of w.new).frames k ≡ None }
    ensures kept { Kept w.new }
{
    for slot in 0..SLOTS as u8 {
        unwind(w, Slot::new(slot));
    }
}
