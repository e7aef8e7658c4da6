//! The alarms of jobs.

ghost use Rattle.std.specs.Prelude.{◌≡◌};
ghost use Rattle.its_world.specs.World.{alarm_at, AlarmBecomes};

use super::world::World;
use its_word::Slot;

impl World {
    /// The alarm of a slot's job, if it has one: its period and its next time, in thirtieths.
    pub fn alarm(&self, slot: Slot) -> Option<(u64, u64)>
        ensures { result ≡ alarm_at self.now.alarms.items slot }
    {
        self.alarms[slot.index()]
    }

    /// Gives a slot another alarm, or none.
    pub fn put_alarm(&mut self, slot: Slot, alarm: Option<(u64, u64)>)
        ensures { AlarmBecomes self.old self.new slot alarm }
    {
        self.alarms[slot.index()] = alarm;
    }
}
