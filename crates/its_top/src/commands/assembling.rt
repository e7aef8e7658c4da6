//! The command `asm`: an assembly text becomes the session of its image, which is written once the
//! whole text was read.
ghost use Rattle.std.specs.Prelude.{◌≡◌, ◌≢◌, true};
ghost use Rattle.its_io.specs.Bytes.{next_fault};
ghost use Rattle.its_top.specs.Assembling.{Asm};

use crate::commands::checking::write_text;
use crate::commands::status::Status;
use its_asm_command::{Made, Unmade, assemble_source};
use its_io::{Sink, Source};
use std::alloc::Global;

/// Assembles the text that the source gives: writes the session of its image, or the `?` line of
/// its first line that is refused.
#[tactic(auto, using(crate::proofs::Groups::assemble_laws))]
pub fn assemble<S: Source, K: Sink>(alloc: Global, src: &mut S, out: &mut K) -> Status
    requires readable { S.readable src.old ≡ true }
    ensures asm { Asm result (S.left src.old) (S.left src.new) (K.written out.old) (K.written out.new) }
    ensures read_once { result ≡ Status.ReadFault → S.faults src.new ≡ next_fault (S.faults src.old) }
    ensures write_once { result ≡ Status.WriteFault → K.faults out.new ≡ next_fault (K.faults out.old) }
    ensures read_unfailed { result ≢ Status.ReadFault → S.faults src.new ≡ S.faults src.old }
    ensures write_unfailed { result ≢ Status.WriteFault → K.faults out.new ≡ K.faults out.old }
{
    match assemble_source(alloc, src) {
        Ok(Made::Session(session)) => write_text(out, &session, Status::Done),
        Ok(Made::Refusal(line)) => write_text(out, &line, Status::Refused),
        Err(Unmade::Failed) => Status::ReadFault,
        Err(Unmade::TooLong) => Status::TooLong,
        Err(Unmade::NoMemory) => Status::NoMemory,
    }
}
