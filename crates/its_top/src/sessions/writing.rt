//! The lines of a transcript, written.
ghost use Rattle.std.specs.Prelude.{◌≡◌, ◌≢◌, ◌≤◌, ◌-◌};
ghost use Rattle.its_io.specs.Bytes.{next_fault};
ghost use Rattle.its_print.specs.Printing.{Refused, text_of_line};
ghost use Rattle.its_print.specs.Replies.{FewParts, line_of};
ghost use Rattle.its_records.specs.Refusals.{reason_of};
ghost use Rattle.its_top.specs.Causes.{FlowCause};
ghost use Rattle.its_top.specs.Answer.{Tells};

use crate::sessions::flow::Flow;
use crate::sessions::room::Bytes;
use arrayvec::ArrayVec;
use its_io::{Sink, write_all};
use its_print::{Reply, print_reply};
use its_records::{Reason, Refusal};

/// Writes a line. The session then goes on as `good` says, or is over if the write failed. The room
/// for its bytes loses what it had before.
#[tactic(auto, using(crate::proofs::WritingLaws::told_all, crate::proofs::WritingLaws::told_begun))]
pub fn tell<K: Sink>(line: &mut Bytes, out: &mut K, reply: &Reply, good: Flow) -> Flow
    requires few { FewParts reply.now }
    ensures told { Tells result good (text_of_line (line_of reply.now)) (K.written out.old) (K.written out.new) }
    ensures later { K.faults out.old ≤ K.faults out.new }
    ensures unfailed { result ≢ Flow.Fault → K.faults out.new ≡ K.faults out.old }
    ensures fault { good ≢ Flow.Fault → result ≡ Flow.Fault → K.faults out.new ≡ next_fault (K.faults out.old) }
{
    line.clear();
    print_reply(reply, line);
    match write_all(out, line) {
        Ok(()) => good,
        Err(_) => Flow::Fault,
    }
}

/// Writes the `?` line of a refusal.
pub fn refuse<K: Sink>(out: &mut K, number: u32, reason: Reason) -> Flow
    ensures told { Tells result Flow.Refused (text_of_line (Refused number reason)) (K.written out.old) (K.written out.new) }
    ensures cause { FlowCause result (K.faults out.old) (K.faults out.new) }
{
    let mut line = ArrayVec::new();
    tell(
        &mut line,
        out,
        &Reply::Refused { n: number, reason },
        Flow::Refused,
    )
}

/// Writes the `?` line of a refusal of the monitor.
pub fn refuse_by<K: Sink>(out: &mut K, number: u32, e: Refusal) -> Flow
    ensures told { Tells result Flow.Refused (text_of_line (Refused number (reason_of e))) (K.written out.old) (K.written out.new) }
    ensures cause { FlowCause result (K.faults out.old) (K.faults out.new) }
{
    refuse(out, number, e.reason())
}
