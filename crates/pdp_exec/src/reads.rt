//! What the rows read.
ghost use Rattle.std.specs.Prelude.{◌≡◌, ◌<◌, ◌≤◌, ◌^◌};
ghost use Rattle.its_core.specs.Cores.{core_at};
ghost use Rattle.its_word.specs.Core.{acc_at};
ghost use Rattle.its_plain.specs.Unit.Plans.{ContextFits, ac, next_ac, read_of};

use its_core::Core;
use its_word::{Context, Fault, Slot, Word};

/// The word at an address; Mpv if its page is absent.
#[inline(always)]
#[tactic(auto, unfolding(its_plain::specs::Unit::Plans::read_of))]
pub fn read(core: &Core, slot: Slot, a: u32) -> Result<Word, Fault>
    requires address { a < 2 ^ 18 }
    ensures { result ≡ read_of (core_at core.now slot) a }
{
    core.get(slot, a).map_err(|_| Fault::Mpv)
}

/// An accumulator.
#[inline(always)]
fn acc(core: &Core, slot: Slot, a: u32) -> Word
    requires a { a < 16 }
    ensures { result ≡ acc_at (core_at core.now slot) a }
{
    core.get(slot, a).unwrap_or(Word::ZERO)
}

/// The accumulator that A names.
#[inline(always)]
#[tactic(auto, unfolding(its_plain::specs::Unit::Plans::ac))]
pub fn ac_word(core: &Core, slot: Slot, x: &Context) -> Word
    requires fits { ContextFits x.now }
    ensures { result ≡ ac (core_at core.now slot) x.now }
{
    acc(core, slot, x.a)
}

/// The accumulator after it.
#[inline(always)]
#[tactic(auto, unfolding(its_plain::specs::Unit::Plans::next_ac))]
pub fn next_ac_word(core: &Core, slot: Slot, x: &Context) -> Word
    requires fits { ContextFits x.now }
    ensures { result ≡ next_ac (core_at core.now slot) x.now }
{
    acc(core, slot, (x.a + 1) % 16)
}
