//! The words of a transcript that name a case.
ghost use Rattle.std.specs.Prelude.{◌≡◌};
ghost use Rattle.its_print.specs.Printing.{letter_of, reason_name, run_or_stop, state_name};

use its_records::{Pace, PeekState, Reason};

/// The letter of a pace.
pub fn letter(pace: Pace) -> u8
    ensures { result ≡ letter_of pace }
{
    match pace {
        Pace::Step => b'*',
        Pace::Work => b'.',
        Pace::Wait => b'w',
        Pace::Off => b'-',
    }
}

/// Whether a job runs.
pub fn run_word(run: bool) -> &'static [u8]
    ensures { result.now ≡ run_or_stop run }
{
    if run { b"RUN" } else { b"STOP" }
}

/// How far a job is inside a call.
pub fn state_word(state: PeekState) -> &'static [u8]
    ensures { result.now ≡ state_name state }
{
    match state {
        PeekState::User => b"USER",
        PeekState::Entered => b"ENTERED",
        PeekState::Parsed => b"PARSED",
        PeekState::Asked => b"ASKED",
        PeekState::Holding => b"HOLDING",
        PeekState::Waiting => b"WAITING",
        PeekState::Moving => b"MOVING",
        PeekState::Ending => b"ENDING",
    }
}

/// Why a line of the session is refused.
pub fn reason_word(reason: Reason) -> &'static [u8]
    ensures { result.now ≡ reason_name reason }
{
    match reason {
        Reason::Long => b"LONG",
        Reason::Syntax => b"SYNTAX",
        Reason::Range => b"RANGE",
        Reason::NoCons => b"NOCONS",
        Reason::NoJob => b"NOJOB",
        Reason::NoPage => b"NOPAGE",
        Reason::ReadOnly => b"READONLY",
        Reason::NoFile => b"NOFILE",
        Reason::Exists => b"EXISTS",
        Reason::Full => b"FULL",
        Reason::Unfit => b"UNFIT",
        Reason::Cut => b"CUT",
    }
}
