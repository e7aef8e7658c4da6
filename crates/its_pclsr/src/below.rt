//! The jobs below one, unwound.
ghost use Rattle.std.specs.Prelude.{◌≡◌};
ghost use Rattle.its_records.specs.Tree.{slots_below};
ghost use Rattle.its_plain.specs.Machine.Change.{superiors};
ghost use Rattle.its_stepped.specs.Sound.{Sound};
ghost use Rattle.its_stepped.specs.Unwind.{all_unwound};
ghost use Rattle.its_world.specs.Tidy.{Tidy};
ghost use Rattle.its_world.specs.World.{state_of, plain_of};
ghost use Rattle.its_pclsr.specs.Pages.{pages_unwound};

use super::unwinding::unwind;
use its_word::Slot;
use its_world::World;

/// Unwinds every job below that of a slot, by slot number.
pub fn unwind_below(w: &mut World, slot: Slot)
    requires sound { Sound (state_of w.old) }
    requires tidy { Tidy w.old }
    ensures unwinds { state_of w.new ≡ all_unwound (slots_below (superiors (state_of w.old).raw) slot) (state_of w.old) }
    ensures same { plain_of w.new ≡ plain_of w.old }
    ensures sound { Sound (state_of w.new) }
    ensures pages { w.new.core.frames ≡ pages_unwound (slots_below (superiors (state_of w.old).raw) slot) (state_of w.old) w.old.core.frames }
    ensures tidy { Tidy w.new }
{
    let mut k = 0;
    while let Some(inferior) = w.jobs.below(slot, k) {
        unwind(w, inferior);
        k += 1;
    }
}
