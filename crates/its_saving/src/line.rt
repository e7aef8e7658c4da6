//! One line of the state part, written.
ghost use Rattle.std.specs.Prelude.{◌≡◌, ◌∷◌, []};
ghost use Rattle.its_saved.specs.Text.{state_text};
ghost use Rattle.its_saving.specs.Written.{Puts};

use arrayvec::ArrayVec;
use its_io::{Failed, Sink, write_all};
use its_records::StateLine;
use its_session::write_state_line;

/// The text of a line, with its LF.
#[tactic(auto, using(crate::proofs::WritingLaws::line_text))]
fn text_of(line: StateLine) -> ArrayVec<u8, 257>
    ensures { result.items ≡ state_text (line ∷ []) }
{
    let mut text = ArrayVec::new();
    write_state_line(&line, &mut text);
    let mut bytes = ArrayVec::new();
    let _fits = bytes.try_extend_from_slice(text.as_slice());
    bytes.push(b'\n');
    bytes
}

/// Writes a line. The types of its fields are enough for that.
pub fn write_line<K: Sink>(line: StateLine, out: &mut K) -> Result<(), Failed>
    ensures { Puts K.written K.faults out.old out.new result (state_text (line ∷ [])) }
{
    write_all(out, &text_of(line))
}
