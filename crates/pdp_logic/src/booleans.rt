//! The sixteen Boolean functions.
ghost use Rattle.std.specs.Prelude.{◌≡◌};
ghost use Rattle.its_word.specs.Logic.{boolean_of};
ghost use Rattle.its_word.specs.Result2.{one_word};

use its_word::{BooleanOp, Result2, Word};

/// A Boolean function of AC and the source. No flags.
#[tactic(auto, unfolding(its_word::specs::Logic::boolean_of))]
pub fn boolean(op: BooleanOp, a: Word, m: Word) -> Result2
    ensures { result ≡ one_word (boolean_of op a m) 0 }
{
    let word = match op {
        BooleanOp::Setz => Word::ZERO, // SETZ, SETZI, SETZM, SETZB
        BooleanOp::And => a & m, // AND, ANDI, ANDM, ANDB
        BooleanOp::Andca => !a & m, // ANDCA, ANDCAI, ANDCAM, ANDCAB
        BooleanOp::Setm => m, // SETM, SETMI, SETMM, SETMB
        BooleanOp::Andcm => a & !m, // ANDCM, ANDCMI, ANDCMM, ANDCMB
        BooleanOp::Seta => a, // SETA, SETAI, SETAM, SETAB
        BooleanOp::Xor => a ^ m, // XOR, XORI, XORM, XORB
        BooleanOp::Ior => a | m, // IOR, IORI, IORM, IORB
        BooleanOp::Andcb => !a & !m, // ANDCB, ANDCBI, ANDCBM, ANDCBB
        BooleanOp::Eqv => !(a ^ m), // EQV, EQVI, EQVM, EQVB
        BooleanOp::Setca => !a, // SETCA, SETCAI, SETCAM, SETCAB
        BooleanOp::Orca => !a | m, // ORCA, ORCAI, ORCAM, ORCAB
        BooleanOp::Setcm => !m, // SETCM, SETCMI, SETCMM, SETCMB
        BooleanOp::Orcm => a | !m, // ORCM, ORCMI, ORCMM, ORCMB
        BooleanOp::Orcb => !a | !m, // ORCB, ORCBI, ORCBM, ORCBB
        BooleanOp::Seto => Word::ONES, // SETO, SETOI, SETOM, SETOB
    };
    Result2::one_word(word, 0)
}
