//! The sixteen half moves.
ghost use Rattle.std.specs.Prelude.{◌≡◌, ◌<◌, ◌^◌};
ghost use Rattle.its_word.specs.Logic.{copies, half_of};
ghost use Rattle.its_word.specs.Result2.{one_word};

use its_word::{Result2, Word};

/// Eighteen ones.
const HALF_OF_ONES: u32 = 0o777777;

/// Eighteen copies of the leftmost bit of a half.
fn copies(half: u32) -> u32
    requires { half < 2 ^ 18 }
    ensures { result ≡ copies half }
{
    if half >= 0o400000 { HALF_OF_ONES } else { 0 }
}

/// The half move k of the source to the destination, in the order of their opcodes, four a row, one
/// of each mode. No flags.
///
/// ```text
/// HLL    HLLI   HLLM   HLLS   HRL    HRLI   HRLM   HRLS
/// HLLZ   HLLZI  HLLZM  HLLZS  HRLZ   HRLZI  HRLZM  HRLZS
/// HLLO   HLLOI  HLLOM  HLLOS  HRLO   HRLOI  HRLOM  HRLOS
/// HLLE   HLLEI  HLLEM  HLLES  HRLE   HRLEI  HRLEM  HRLES
/// HRR    HRRI   HRRM   HRRS   HLR    HLRI   HLRM   HLRS
/// HRRZ   HRRZI  HRRZM  HRRZS  HLRZ   HLRZI  HLRZM  HLRZS
/// HRRO   HRROI  HRROM  HRROS  HLRO   HLROI  HLROM  HLROS
/// HRRE   HRREI  HRREM  HRRES  HLRE   HLREI  HLREM  HLRES
/// ```
#[tactic(auto, unfolding(its_word::specs::Logic::half_of))]
pub fn half(k: u32, source: Word, dest: Word) -> Result2
    requires { k < 16 }
    ensures { result ≡ one_word (half_of k source dest) 0 }
{
    let moved = if k % 2 == u32::from(k >= 8) {
        source.left()
    } else {
        source.right()
    };
    let to_left = k < 8;
    let other = match k / 2 % 4 {
        0 if to_left => dest.right(),
        0 => dest.left(),
        1 => 0,
        2 => HALF_OF_ONES,
        _ => copies(moved),
    };
    let word = if to_left {
        Word::pair(moved, other)
    } else {
        Word::pair(other, moved)
    };
    Result2::one_word(word, 0)
}
