//! The result of the text of a source.
ghost use Rattle.std.specs.Prelude.{◌≡◌, ◌≢◌, ◌≤◌, ◌^◌, [], true, length, Err, IfOk, IfErr, OnOk, OnErr};
ghost use Rattle.its_io.specs.Bytes.{next_fault};
ghost use Rattle.its_asm.specs.Assembly.{assembly};
ghost use Rattle.its_asm_command.specs.Written.{fault_line, reason_word};
ghost use Rattle.its_asm_command.specs.Made.{MadeFrom, MakesOf};

use super::session::session_text;
use super::text::{Unread, read_text};
use arrayvec::ArrayVec;
use its_asm::{AsmFault, AsmReason, assemble};
use its_io::Source;
use its_word::octal;
use std::alloc::Global;

/// The result of a text.
#[derive(Drop)]
pub enum Made {
    /// It is assembled: the session of its image.
    Session(Vec<u8>),
    /// A line is refused: its `?` line.
    Refusal(ArrayVec<u8, 64>),
}

/// Why a text has no result.
#[derive(Clone, Copy, Debug, PartialEq, Eq)]
pub enum Unmade {
    /// The source failed.
    Failed,
    /// A line past the most that a text may have begins, and no line before it has more than 255
    /// bytes.
    TooLong,
    /// Memory was refused.
    NoMemory,
}

/// Assembles the text that the source gives: it is read to its end, or to a line of more than 255
/// bytes.
#[tactic(auto, using(crate::proofs::MadeLaws::ends_made, crate::proofs::MadeLaws::ends_failed, crate::proofs::MadeLaws::ends_beyond, crate::proofs::MadeLaws::ends_refused))]
pub fn assemble_source<S: Source>(alloc: Global, src: &mut S) -> Result<Made, Unmade>
    requires readable { S.readable src.old ≡ true }
    ensures ends { MadeFrom result (S.left src.old) (S.left src.new) }
    ensures unfailed { result ≢ Err Unmade.Failed → S.faults src.new ≡ S.faults src.old }
    ensures failed { result ≡ Err Unmade.Failed → S.faults src.new ≡ next_fault (S.faults src.old) }
{
    let mut text = Vec::new(alloc);
    match read_text(&mut text, src) {
        Ok(()) => assembled(alloc, &text),
        Err(Unread::Failed) => Err(Unmade::Failed),
        Err(Unread::TooLong) => Err(Unmade::TooLong),
        Err(Unread::NoMemory) => Err(Unmade::NoMemory),
    }
}

/// The result of a text.
#[tactic(auto, using(crate::proofs::FitLaws::image_fits, crate::proofs::MadeLaws::makes_session, crate::proofs::MadeLaws::makes_refusal, crate::proofs::MadeLaws::makes_nothing))]
fn assembled(alloc: Global, text: &[u8]) -> Result<Made, Unmade>
    requires few { length text.now ≤ 2 ^ 28 }
    ensures makes { MakesOf result (assembly text.now) }
{
    match assemble(alloc, text) {
        Ok(image) => match session_text(alloc, &image) {
            Ok(session) => Ok(Made::Session(session)),
            Err(_) => Err(Unmade::NoMemory),
        },
        Err(AsmFault::Line { n, reason }) => Ok(Made::Refusal(fault_line(n, reason))),
        Err(AsmFault::NoMemory) => Err(Unmade::NoMemory),
    }
}

/// The word of a reason.
fn reason_word(reason: AsmReason) -> &'static [u8]
    ensures word { result.now ≡ reason_word reason }
    ensures short { length result.now ≤ 6 }
{
    match reason {
        AsmReason::Long => b"LONG",
        AsmReason::Syntax => b"SYNTAX",
        AsmReason::Range => b"RANGE",
        AsmReason::Undef => b"UNDEF",
        AsmReason::Twice => b"TWICE",
        AsmReason::Full => b"FULL",
        AsmReason::Cut => b"CUT",
    }
}

/// `? n reason`: line n of the text is refused.
#[tactic(auto, unfolding(its_word::specs::Text::spaced))]
fn fault_line(n: u32, reason: AsmReason) -> ArrayVec<u8, 64>
    ensures { result.items ≡ fault_line n reason }
{
    let mut line = ArrayVec::new();
    line.push(b'?');
    line.push(b' ');
    let _digits_fit = line.try_extend_from_slice(octal(u64::from(n)).as_slice());
    line.push(b' ');
    let _word_fits = line.try_extend_from_slice(reason_word(reason));
    line.push(b'\n');
    line
}
