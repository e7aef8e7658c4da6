//! Comparisons.
ghost use Rattle.std.specs.Prelude.{◌≡◌};
ghost use Rattle.its_word.specs.Arith.{compares_of};

use its_word::{Condition, Word};

/// Whether a compares to b, as signed numbers, by the condition of CAI, CAM, JUMP, SKIP, AOJ, AOS,
/// SOJ or SOS.
#[tactic(auto, unfolding(its_word::specs::Arith::compares_of))]
pub fn compares(condition: Condition, a: Word, b: Word) -> bool
    ensures { result ≡ compares_of condition a b }
{
    let (a, b) = (a.signed(), b.signed());
    match condition {
        Condition::Never => false,
        Condition::L => a < b,
        Condition::E => a == b,
        Condition::Le => a <= b,
        Condition::A => true,
        Condition::Ge => a >= b,
        Condition::N => a != b,
        Condition::G => a > b,
    }
}
