//! The word of one line on its own, and the line of a word.
ghost use Rattle.std.specs.Prelude.{◌≡◌, Some};
ghost use Rattle.arrayvec.specs.ArrayVec.{array_vec_len};
ghost use Rattle.its_chart.specs.TypeOut.{typed};
ghost use Rattle.its_asm.specs.Statement.{statement_of, word_of};

use super::expression::Names;
use super::statements::{Statement, body};
use super::words::{is_printable, statement_words};
use arrayvec::ArrayVec;
use its_word::Word;

/// The word that a statement gives, if it gives one without a literal.
fn word_of(statement: Option<Statement>) -> Option<Word>
    ensures { result ≡ word_of statement }
{
    match statement {
        Some(Statement::Gives { item: Ok(item) }) => match item.literal {
            None => Some(item.word),
            Some(_) => None,
        },
        _ => None,
    }
}

/// The word of a line without symbols, literals and the term `.`; None exactly if the line is not
/// such a line of one word.
#[tactic(auto, unfolding(crate::specs::Statement::statement_of))]
pub fn statement(line: &[u8]) -> Option<Word>
    ensures { result ≡ statement_of line.now }
{
    if line.len() > 255 || !is_printable(line) {
        return None;
    }
    let names = Names {
        symbols: None,
        here: None,
    };
    word_of(body(names, names, statement_words(line).as_slice()))
}

/// Writes a word as a line from which `statement` makes it again: the name of its opcode and its
/// operand; `WORD` and its halves if its opcode has no name.
#[tactic(auto, using(crate::proofs::TypeLaws::read_back))]
pub fn type_out(w: Word, out: &mut ArrayVec<u8, 64>)
    requires { array_vec_len out.old ≡ 0 }
    ensures text { out.new.items ≡ typed w }
    ensures read_back { statement_of (typed w) ≡ Some w }
{
    its_chart::type_out(w, out);
}
