//! The result of an event is printed.
ghost use Rattle.std.specs.Prelude.{◌≡◌, ◌-◌, IfOk};
ghost use Rattle.its_world.specs.World.{state_of};
ghost use Rattle.its_monitor.specs.Kept.{Kept};
ghost use Rattle.its_print.specs.Printing.{text};
ghost use Rattle.its_top.specs.Causes.{FlowCause};
ghost use Rattle.its_top.specs.Answer.{Tells};
ghost use Rattle.its_top.specs.Performing.{CanShow, lines_of, lines_over, lines_shown, flow_of, flow_over};

use crate::sessions::filing::{print_files, print_words_of};
use crate::sessions::flow::Flow;
use crate::sessions::listing::list_words;
use crate::sessions::room::Bytes;
use crate::sessions::shown::{Over, Shown};
use crate::sessions::writing::{refuse_by, tell};
use its_io::Sink;
use its_monitor::Monitor;

/// Writes the lines of the result of line `number`. The monitor is unchanged, and files are read
/// from it.
#[tactic(auto, using(crate::proofs::WritingLaws::tells_nothing, crate::proofs::WritingLaws::tells_one))]
pub fn print<K: Sink>(
    m: &mut Monitor,
    number: u32,
    performed: &Result<Shown, Over>,
    line: &mut Bytes,
    out: &mut K,
) -> Flow
    requires sound { Kept m.old.world }
    requires ready { IfOk performed.now (λ s. CanShow s m.old.world) }
    ensures told { Tells result (flow_of performed.now) (text (lines_shown number performed.now m.old.world)) (K.written out.old) (K.written out.new) }
    ensures state { state_of m.new.world ≡ state_of m.old.world }
    ensures sound { Kept m.new.world }
    ensures cause { FlowCause result (K.faults out.old) (K.faults out.new) }
{
    match performed {
        Ok(shown) => print_shown(m, shown, line, out),
        Err(over) => print_over(*over, number, out),
    }
}

/// Writes the line of a refusal, if a refusal ended the session.
#[tactic(auto, using(crate::proofs::WritingLaws::tells_nothing, crate::proofs::WritingLaws::tells_one))]
fn print_over<K: Sink>(over: Over, number: u32, out: &mut K) -> Flow
    ensures told { Tells result (flow_over over) (text (lines_over number over)) (K.written out.old) (K.written out.new) }
    ensures cause { FlowCause result (K.faults out.old) (K.faults out.new) }
{
    match over {
        Over::Ended => Flow::Ended,
        Over::Refused(e) => refuse_by(out, number, e),
    }
}

/// Writes the lines that an event shows.
#[tactic(auto, using(crate::proofs::WritingLaws::tells_nothing, crate::proofs::WritingLaws::tells_one))]
fn print_shown<K: Sink>(m: &mut Monitor, shown: &Shown, line: &mut Bytes, out: &mut K) -> Flow
    requires sound { Kept m.old.world }
    requires ready { CanShow shown.now m.old.world }
    ensures told { Tells result Flow.On (text (lines_of shown.now m.old.world)) (K.written out.old) (K.written out.new) }
    ensures state { state_of m.new.world ≡ state_of m.old.world }
    ensures sound { Kept m.new.world }
    ensures cause { FlowCause result (K.faults out.old) (K.faults out.new) }
{
    match shown {
        Shown::Nothing => Flow::On,
        Shown::Line(reply) => tell(line, out, reply, Flow::On),
        Shown::Listed { s, a, words } => list_words(*s, *a, words, line, out),
        Shown::Files { d, count } => print_files(m, *d, *count, line, out),
        Shown::File { id, d, x, y } => print_words_of(m, *id, *d, *x, *y, line, out),
    }
}
