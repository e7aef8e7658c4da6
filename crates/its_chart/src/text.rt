//! Texts cut at marks.
ghost use Rattle.std.specs.Prelude.{◌≡◌, ◌≤◌, ◌<◌, ◌+◌, length, position, Some, None, IfNone, IfSome};
ghost use Rattle.its_chart.specs.Text.{cut, is_mark, up_to};

/// The place of the first mark.
fn first_mark(text: &[u8], marks: &[u8]) -> Option<usize>
    ensures { result ≡ position (is_mark marks.now) text.now }
{
    text.iter().position(|b| marks.contains(b))
}

/// The text before its first mark, that mark, and the text after it; None without a mark.
#[tactic(auto, using(crate::proofs::CutLaws::cut_found, crate::proofs::CutLaws::cut_none))]
pub fn cut<'a>(text: &'a [u8], marks: &[u8]) -> Option<(&'a [u8], u8, &'a [u8])>
    ensures none { IfNone result (cut marks.now text.entry.now ≡ None) }
    ensures some { IfSome result (λ p. cut marks.now text.entry.now ≡ Some (p.0.now, p.1, p.2.now)) }
    ensures shorter { IfSome result (λ p. length p.0.now + length p.2.now < length text.entry.now) }
{
    let place = first_mark(text, marks)?;
    Some((&text[..place], text[place], &text[place + 1..]))
}

/// A text up to its first mark.
pub fn up_to<'a>(text: &'a [u8], marks: &[u8]) -> &'a [u8]
    ensures value { result.now ≡ up_to marks.now text.entry.now }
    ensures shorter { length result.now ≤ length text.entry.now }
{
    match cut(text, marks) {
        Some((start, _mark, _rest)) => start,
        None => text,
    }
}
