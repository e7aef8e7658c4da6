//! The lines of LIST, which shows words of a job typed out.

ghost use Rattle.std.specs.Prelude.{◌≤◌, ◌<◌, ◌+◌, ◌^◌, length};
ghost use Rattle.its_print.specs.Printing.{Listed, listed, text_of_line, text};
ghost use Rattle.its_top.specs.Causes.{FlowCause};
ghost use Rattle.its_top.specs.Answer.{Tells};

use crate::sessions::flow::Flow;
use crate::sessions::room::Bytes;
use crate::sessions::writing::tell;
use its_io::Sink;
use its_print::Reply;
use its_word::{Slot, Word};

/// A line for each of some words, which are in a slot from an address on.
#[tactic(auto, using(crate::proofs::FilingLaws::writes_start))]
pub fn list_words<K: Sink>(s: Slot, a: u32, words: &[Word], line: &mut Bytes, out: &mut K) -> Flow
    requires start { a < 2 ^ 18 }
    requires few { length words.now ≤ 8 }
    ensures told { Tells result Flow.On (text (listed s a words.now)) (K.written out.old) (K.written out.new) }
    ensures cause { FlowCause result (K.faults out.old) (K.faults out.new) }
{
    let mut place = a;
    for w in words {
        let flow = list_word(s, place, *w, line, out);
        if !flow.goes_on() {
            return flow;
        }
        place += 1;
    }
    Flow::On
}

/// One of them.
fn list_word<K: Sink>(s: Slot, a: u32, word: Word, line: &mut Bytes, out: &mut K) -> Flow
    ensures told { Tells result Flow.On (text_of_line (Listed s a word)) (K.written out.old) (K.written out.new) }
    ensures cause { FlowCause result (K.faults out.old) (K.faults out.new) }
{
    tell(line, out, &Reply::Listed { s, a, word }, Flow::On)
}
