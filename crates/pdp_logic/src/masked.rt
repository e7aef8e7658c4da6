//! Tests of AC under a mask.
//!
//! ```text
//! TRN    TLN    TRNE   TLNE   TRNA   TLNA   TRNN   TLNN
//! TDN    TSN    TDNE   TSNE   TDNA   TSNA   TDNN   TSNN
//! TRZ    TLZ    TRZE   TLZE   TRZA   TLZA   TRZN   TLZN
//! TDZ    TSZ    TDZE   TSZE   TDZA   TSZA   TDZN   TSZN
//! TRC    TLC    TRCE   TLCE   TRCA   TLCA   TRCN   TLCN
//! TDC    TSC    TDCE   TSCE   TDCA   TSCA   TDCN   TSCN
//! TRO    TLO    TROE   TLOE   TROA   TLOA   TRON   TLON
//! TDO    TSO    TDOE   TSOE   TDOA   TSOA   TDON   TSON
//! ```
ghost use Rattle.std.specs.Prelude.{◌≡◌};
ghost use Rattle.its_word.specs.Logic.{changed_of, tested_of};
ghost use Rattle.its_word.specs.Result2.{one_word};

use its_word::{Modify, Result2, SkipWhen, Word};

/// Whether TR, TL, TD or TS skips, before AC is changed, as `skip` says.
#[tactic(auto, unfolding(its_word::specs::Logic::tested_of))]
pub fn tested(skip: SkipWhen, a: Word, mask: Word) -> bool
    ensures { result ≡ tested_of skip a mask }
{
    let all_zero = a & mask == Word::ZERO;
    match skip {
        SkipWhen::NoSkip => false,
        SkipWhen::AllZero => all_zero,
        SkipWhen::Always => true,
        SkipWhen::NotAllZero => !all_zero,
    }
}

/// What a test leaves in AC, with the masked bits as `modify` says. No flags.
#[tactic(auto, unfolding(its_word::specs::Logic::changed_of))]
pub fn changed(modify: Modify, a: Word, mask: Word) -> Result2
    ensures { result ≡ one_word (changed_of modify a mask) 0 }
{
    let word = match modify {
        Modify::Unmodified => a,
        Modify::Zeros => a & !mask,
        Modify::Complement => a ^ mask,
        Modify::Ones => a | mask,
    };
    Result2::one_word(word, 0)
}
