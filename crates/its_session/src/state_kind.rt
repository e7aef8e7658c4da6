//! The kinds of line of the state part.
ghost use Rattle.std.specs.Prelude.{◌≡◌};
ghost use Rattle.its_session.specs.StateGrammar.{state_kind_of};

use super::kind::{is, is_place};

/// The kinds of line of the state part after SYSTEM, by their first word: an address and `/` for
/// `CoreWords`, `/` alone for `FileWords`, and for the others a name of their own.
#[derive(Clone, Copy, Debug, PartialEq, Eq)]
pub enum StateKind {
    Clock,
    File,
    FileWords,
    Job,
    CoreWords,
    ReadOnly,
    Symbol,
    Regs,
    Alarm,
    Under,
    Tty,
    Disk,
    Draft,
    Wrote,
    Usr,
    Join,
    Sent,
    EndShut,
    Input,
    Output,
    Hold,
    Turn,
    Ready,
}

/// The kind of line that a first word begins, if any.
#[tactic(auto, unfolding(crate::specs::StateGrammar::state_kind_of))]
pub fn state_kind_of(first: &[u8]) -> Option<StateKind>
    ensures { result ≡ state_kind_of first.now }
{
    if is(first, b"CLOCK") {
        Some(StateKind::Clock)
    } else if is(first, b"FILE") {
        Some(StateKind::File)
    } else if is(first, b"/") {
        Some(StateKind::FileWords)
    } else if is(first, b"JOB") {
        Some(StateKind::Job)
    } else if is(first, b"RO") {
        Some(StateKind::ReadOnly)
    } else if is(first, b"SYM") {
        Some(StateKind::Symbol)
    } else if is(first, b"REGS") {
        Some(StateKind::Regs)
    } else if is(first, b"ALARM") {
        Some(StateKind::Alarm)
    } else if is(first, b"UNDER") {
        Some(StateKind::Under)
    } else if is(first, b"TTY") {
        Some(StateKind::Tty)
    } else if is(first, b"DSK") {
        Some(StateKind::Disk)
    } else if is(first, b"DRAFT") {
        Some(StateKind::Draft)
    } else if is(first, b"WROTE") {
        Some(StateKind::Wrote)
    } else if is(first, b"USR") {
        Some(StateKind::Usr)
    } else if is(first, b"LNK") {
        Some(StateKind::Join)
    } else if is(first, b"SENT") {
        Some(StateKind::Sent)
    } else if is(first, b"SHUT") {
        Some(StateKind::EndShut)
    } else if is(first, b"IN") {
        Some(StateKind::Input)
    } else if is(first, b"OUT") {
        Some(StateKind::Output)
    } else if is(first, b"HOLD") {
        Some(StateKind::Hold)
    } else if is(first, b"TURN") {
        Some(StateKind::Turn)
    } else if is(first, b"READY") {
        Some(StateKind::Ready)
    } else if is_place(first) {
        Some(StateKind::CoreWords)
    } else {
        None
    }
}
