//! How many bytes wait at a console at most, and a byte that is typed there.

ghost use Rattle.std.specs.Prelude.{◌≡◌, ◌<◌, ◌↔◌, length, IsTrue};
ghost use Rattle.its_word.specs.Console.{most_waiting};
ghost use Rattle.its_world.specs.World.{typed_at};

use its_console::Console;
use its_word::MOST_WAITING;

/// A byte is typed at this console, if it has room.
#[tactic(auto, using(crate::proofs::WorldLaws::typed_room, crate::proofs::WorldLaws::typed_full))]
pub fn type_at(console: &mut Console, b: u8) -> bool
    ensures kept { IsTrue result ↔ (length console.old.input < most_waiting) }
    ensures typed { console.new ≡ typed_at b console.old }
{
    let (typed, _) = console.waiting();
    typed < MOST_WAITING && console.type_in(b)
}
