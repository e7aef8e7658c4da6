//! The arguments of a decoded call.
ghost use Rattle.std.specs.Prelude.{◌≡◌};
ghost use Rattle.its_plain.specs.Call.Arguments.{has_input, input, place_of_input};
ghost use Rattle.its_plain.specs.Call.Footprint.{among, in_footprint, is_shared, times};

use its_records::Ask;
use its_word::Word;

/// The value of an input; 0 if there is none.
pub fn input(ask: &Ask, k: usize) -> Word
    ensures { result ≡ input ask.now k }
{
    match ask.inputs.get(k) {
        Some(operand) => operand.value,
        None => Word::ZERO,
    }
}

/// The address of the word of an input; None if it is immediate or there is none.
pub fn place_of_input(ask: &Ask, k: usize) -> Option<u32>
    ensures { result ≡ place_of_input ask.now k }
{
    match ask.inputs.get(k) {
        Some(operand) => operand.place,
        None => None,
    }
}

/// Whether there is such an input.
pub fn has_input(ask: &Ask, k: usize) -> bool
    ensures { result ≡ has_input ask.now k }
{
    ask.inputs.get(k).is_some()
}

/// How often a place is among some.
#[tactic(auto, unfolding(its_plain::specs::Call::Footprint::times))]
fn times(place: u32, places: &[u32]) -> usize
    ensures { result ≡ times place places.now }
{
    places.iter().filter(|p| **p == place).count()
}

/// Whether a place is among some.
fn among(place: u32, places: &[u32]) -> bool
    ensures { result ≡ among place places.now }
{
    places.iter().any(|p| *p == place)
}

/// Whether the word of an input is a decode word too, or that of another input or control argument.
#[tactic(auto, unfolding(its_plain::specs::Call::Footprint::is_shared))]
pub(crate) fn is_shared(place: u32, ask: &Ask) -> bool
    ensures { result ≡ is_shared place ask.now }
{
    among(place, &ask.decode) || times(place, &ask.operand) > 1
}

/// Whether a place is in the footprint of a call: the place of a decode word, or of the word of an
/// input or of the control argument.
#[tactic(auto, unfolding(its_plain::specs::Call::Footprint::in_footprint))]
pub fn in_footprint(place: u32, ask: &Ask) -> bool
    ensures { result ≡ in_footprint place ask.now }
{
    among(place, &ask.decode) || among(place, &ask.operand)
}
