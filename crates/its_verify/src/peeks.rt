//! The lines that may occur when PEEK shows a job.
ghost use Rattle.std.specs.Prelude.{◌≡◌, ◌==◌, ◌&&◌, codes, position};
ghost use Rattle.its_word.specs.Text.{words_of};
ghost use Rattle.its_verify.specs.Lines.{begins_with, is_peek};
ghost use Rattle.its_verify.specs.Reading.{ends_word};

/// The most bytes of a line of a transcript before its LF.
pub(crate) const MOST_BYTES: usize = 1543;

/// Whether a line, which has its LF, may occur when PEEK shows a job: its first word is `P`, and no
/// more than 1543 bytes are before the LF, which is nowhere else.
#[tactic(auto, using(crate::proofs::PeekLaws::no_end, crate::proofs::PeekLaws::at_end, crate::proofs::PeekLaws::before_end, crate::proofs::PeekLaws::past_end))]
pub fn is_peek(line: &[u8]) -> bool
    ensures { result ≡ is_peek line.now }
{
    match line_end(line) {
        None => false,
        Some(end) => {
            if end + 1 != line.len() {
                return false;
            }
            if end > MOST_BYTES {
                return false;
            }
            begins_with_p(&line[..end])
        }
    }
}

/// The place of the first LF.
pub(crate) fn line_end(line: &[u8]) -> Option<usize>
    ensures { result ≡ position (λ b. b == 10) line.now }
{
    line.iter().position(|b| *b == b'\n')
}

/// Whether the first word of some bytes is `P`.
#[tactic(auto, using(crate::proofs::PeekLaws::word_first, crate::proofs::PeekLaws::space_first, crate::proofs::PeekLaws::no_words))]
fn begins_with_p(line: &[u8]) -> bool
    ensures { result ≡ begins_with (codes "P") (words_of line.now) }
{
    let mut rest = line;
    while let Some((first, after)) = rest.split_first() {
        if *first != b' ' {
            return is_p(*first, after);
        }
        rest = after;
    }
    false
}

/// Whether a word that begins with this byte, before these, is `P`.
fn is_p(first: u8, after: &[u8]) -> bool
    ensures { result ≡ ((first == 80) && ends_word after.now) }
{
    first == b'P' && ends_word(after)
}

/// Whether a word ends if these bytes follow.
fn ends_word(after: &[u8]) -> bool
    ensures { result ≡ ends_word after.now }
{
    match after {
        [] => true,
        [b, ..] => *b == b' ',
    }
}
