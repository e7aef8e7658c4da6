//! The command `verify`: a session and after it its transcript, and one line that says whether the
//! transcript is valid for the session. It is written once all is decided.
ghost use Rattle.std.specs.Prelude.{◌≡◌, ◌≢◌, ◌⊎◌, true};
ghost use Rattle.its_io.specs.Bytes.{next_fault};
ghost use Rattle.its_print.specs.Printing.{Refused, text_of_line};
ghost use Rattle.its_verify.specs.TranscriptReader.{answer_of};
ghost use Rattle.its_top.specs.Checking.{WroteText};
ghost use Rattle.its_top.specs.Verifying.{TellsAnswer, Verify};

use crate::commands::checking::write_text;
use crate::commands::counts::count_line;
use crate::commands::status::Status;
use arrayvec::ArrayVec;
use its_io::{Sink, Source};
use its_print::{Reply, print_reply};
use its_records::Reason;
use its_verify::{Broken, Outcome, verify};
use std::alloc::Global;

/// Judges the transcript that follows a session in what the source gives: writes `YES n` or `NO n`,
/// or the `?` line of a session that has no END line or one that is too long.
#[tactic(auto, using(crate::proofs::VerifyingLaws::verify_told, crate::proofs::VerifyingLaws::verify_failed, crate::proofs::VerifyingLaws::verify_unmade))]
pub fn judge<S: Source, K: Sink>(alloc: Global, src: &mut S, out: &mut K) -> Status
    requires readable { S.readable src.old ≡ true }
    ensures verify { Verify result (S.left src.old) (S.left src.new) (K.written out.old) (K.written out.new) }
    ensures read_once { result ≡ Status.ReadFault → S.faults src.new ≡ next_fault (S.faults src.old) }
    ensures write_once { result ≡ Status.WriteFault → K.faults out.new ≡ next_fault (K.faults out.old) }
    ensures read_unfailed { result ≢ Status.ReadFault → S.faults src.new ≡ S.faults src.old }
    ensures write_unfailed { result ≢ Status.WriteFault → K.faults out.new ≡ K.faults out.old }
{
    match verify(alloc, src) {
        Ok(outcome) => tell(outcome, out),
        Err(Broken::Source) => Status::ReadFault,
        Err(Broken::Memory) => Status::NoMemory,
    }
}

/// Writes what was found.
#[tactic(auto, using(crate::proofs::Groups::tell_laws))]
fn tell<K: Sink>(outcome: Outcome, out: &mut K) -> Status
    ensures tells { TellsAnswer result (answer_of outcome) (K.written out.old) (K.written out.new) }
    ensures once { result ≡ Status.WriteFault → K.faults out.new ≡ next_fault (K.faults out.old) }
    ensures unfailed { result ≢ Status.WriteFault → K.faults out.new ≡ K.faults out.old }
    ensures source { result ≢ Status.ReadFault }
{
    match outcome {
        Outcome::Yes(n) => write_text(out, &count_line(b"YES", u64::from(n)), Status::Done),
        Outcome::No(n) => write_text(out, &count_line(b"NO", u64::from(n)), Status::Refused),
        Outcome::Long(n) => refuse(n, Reason::Long, out),
        Outcome::Cut(n) => refuse(n, Reason::Cut, out),
        Outcome::TooLong => Status::TooLong,
    }
}

/// Writes the `?` line of line n.
fn refuse<K: Sink>(n: u32, reason: Reason, out: &mut K) -> Status
    ensures wrote { WroteText result Status.Refused (text_of_line (Refused n reason)) (K.written out.old) (K.written out.new) }
    ensures once { result ≡ Status.WriteFault → K.faults out.new ≡ next_fault (K.faults out.old) }
    ensures unfailed { result ≢ Status.WriteFault → K.faults out.new ≡ K.faults out.old }
    ensures status { (result ≡ Status.Refused) ⊎ (result ≡ Status.WriteFault) }
{
    let mut line = ArrayVec::new();
    print_reply(&Reply::Refused { n, reason }, &mut line);
    write_text(out, &line, Status::Refused)
}
