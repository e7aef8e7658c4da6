//! Why a text is not assembled.
ghost use Rattle.std.specs.Prelude.{◌≡◌};

use std::alloc::AllocError;
use thiserror::Error;

/// Why a line of an assembly text is refused, in the order in which the reasons are tested.
#[derive(Clone, Copy, Debug, PartialEq, Eq)]
pub enum AsmReason {
    /// The line has more than 255 bytes.
    Long,
    /// It is no statement, or none that may occur there.
    Syntax,
    /// An accumulator or index register above 17, or a word above the last address, 777777.
    Range,
    /// A symbol that is not defined, or not yet.
    Undef,
    /// A symbol or a location that is given twice.
    Twice,
    /// Symbol 513.
    Full,
    /// The text ends without GO.
    Cut,
}

/// Why there is no image.
#[derive(Clone, Copy, Debug, PartialEq, Eq, Error)]
pub enum AsmFault {
    /// Line `n` (from 1) is the first that is refused.
    #[error("line {n} is refused: {reason:?}")]
    Line { n: u32, reason: AsmReason },
    #[error("out of memory")]
    NoMemory,
}

impl From<AllocError> for AsmFault {
    ghost use Rattle.its_asm.specs.declared.reason.AsmFault.TheVariants.{NoMemory};

    ghost from_gives = { λ _ e. e ≡ NoMemory };

    fn from(_refused: AllocError) -> AsmFault {
        AsmFault::NoMemory
    }
}
