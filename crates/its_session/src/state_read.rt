//! Reading a line of the state part.
ghost use Rattle.std.specs.Prelude.{◌≡◌, map};
ghost use Rattle.its_session.specs.StateGrammar.{state_kind_of, state_line_of_first, state_line_of_kind};

use super::kind::before_slash;
use super::state_kind::{StateKind, state_kind_of};
use super::state_rows as rows;
use its_records::{Bad, StateLine};

/// The line of the state part with this first word and the words that follow, in a session of this
/// version, or the first reason why it is none.
#[inline(never)]
pub fn read_state_line(version: u8, first: &[u8], words: &[&[u8]]) -> Result<StateLine, Bad>
    ensures { result ≡ state_line_of_first version (state_kind_of first.now) first.now (map (λ w. w.now) words.now) }
{
    match state_kind_of(first) {
        Some(kind) => line_of_kind(version, kind, first, words),
        None => Err(Bad::Syntax),
    }
}

/// The line of a kind, with its first word and those that follow.
fn line_of_kind(
    version: u8,
    kind: StateKind,
    first: &[u8],
    words: &[&[u8]],
) -> Result<StateLine, Bad>
    ensures { result ≡ state_line_of_kind version kind first.now (map (λ w. w.now) words.now) }
{
    match kind {
        StateKind::Clock => rows::clock(words),
        StateKind::File => rows::file(words),
        StateKind::FileWords => rows::file_words(words),
        StateKind::Job => rows::job(version, words),
        StateKind::CoreWords => rows::core_words(before_slash(first), words),
        StateKind::ReadOnly => rows::read_only(words),
        StateKind::Symbol => rows::symbol(words),
        StateKind::Regs => rows::regs(words),
        StateKind::Alarm => rows::alarm(version, words),
        StateKind::Under => rows::under(version, words),
        StateKind::Tty => rows::tty(version, words),
        StateKind::Disk => rows::disk(version, words),
        StateKind::Draft => rows::draft(version, words),
        StateKind::Wrote => rows::wrote(version, words),
        StateKind::Usr => rows::usr(version, words),
        StateKind::Join => rows::join(version, words),
        StateKind::Sent => rows::sent(words),
        StateKind::EndShut => rows::end_shut(words),
        StateKind::Input => {
            rows::console_bytes(words).map(|(c, bytes)| StateLine::Input { c, bytes })
        }
        StateKind::Output => {
            rows::console_bytes(words).map(|(c, bytes)| StateLine::Output { c, bytes })
        }
        StateKind::Hold => rows::hold(version, words),
        StateKind::Turn => rows::turn(version, words),
        StateKind::Ready => rows::ready(words),
    }
}
