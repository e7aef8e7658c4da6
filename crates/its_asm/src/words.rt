//! The words of a line.
ghost use Rattle.std.specs.Prelude.{◌≡◌, ◌≤◌, ◌<◌, length, map, Some, None, IfNone, IfSome};
ghost use Rattle.its_chart.specs.Text.{is_printable};
ghost use Rattle.its_asm.specs.Text.{closed, statement_words};

use arrayvec::ArrayVec;
use its_chart::up_to;
use its_word::words;

/// A text without its last byte, if that is this one.
pub fn closed(text: &[u8], mark: u8) -> Option<&[u8]>
    requires { 0 < mark }
    ensures none { IfNone result (closed mark text.now ≡ None) }
    ensures some { IfSome result (λ t. closed mark text.now ≡ Some t.now) }
{
    match text {
        [rest @ .., last] if *last == mark => Some(rest),
        _ => None,
    }
}

/// The words of a line, which are before its comment.
#[tactic(auto, unfolding(crate::specs::Text::statement_words))]
pub fn statement_words(line: &[u8]) -> ArrayVec<&[u8], 128>
    requires { length line.now ≤ 255 }
    ensures { map (λ w. w.now) result.items ≡ statement_words line.now }
{
    words(up_to(line, b";"))
}

/// Whether all bytes are from 40 to 176.
pub fn is_printable(line: &[u8]) -> bool
    ensures { result ≡ is_printable line.now }
{
    line.iter().all(|b| 0o40 <= *b && *b <= 0o176)
}
