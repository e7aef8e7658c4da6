//! The words of a line.
ghost use Rattle.std.specs.Prelude.{◌≡◌, ◌≤◌, ◌<◌, ◌+◌, ◌*◌, ◌++◌, ◌==◌, length, map, position, IfNone, IfSome};
ghost use Rattle.arrayvec.specs.ArrayVec.{array_vec_len};
ghost use Rattle.its_word.specs.Text.{word_of_run, words_of};

use arrayvec::ArrayVec;

/// The place of the first space.
fn first_space(line: &[u8]) -> Option<usize>
    ensures { result ≡ position (λ b. b == 32) line.now }
{
    line.iter().position(|b| *b == b' ')
}

/// The bytes before the first space and those after it, if there is one.
#[tactic(auto, using(crate::proofs::WordsLaws::words_cut, crate::proofs::WordsLaws::words_whole))]
fn cut(line: &[u8]) -> Option<(&[u8], &[u8])>
    ensures none { IfNone result (words_of line.now ≡ word_of_run line.now) }
    ensures some { IfSome result (λ p. words_of line.now ≡ word_of_run p.0.now ++ words_of p.1.now) }
    ensures shorter { IfSome result (λ p. length p.0.now + length p.1.now < length line.now) }
{
    let space = first_space(line)?;
    Some((&line[..space], &line[space + 1..]))
}

/// Adds a run of bytes, if it has any.
fn push<'a>(words: &mut ArrayVec<&'a [u8], 128>, run: &'a [u8])
    requires { array_vec_len words.old < 128 }
    ensures words { map (λ w. w.now) words.new.items ≡ map (λ w. w.now) words.old.items ++ word_of_run run.now }
    ensures len { 2 * array_vec_len words.new ≤ 2 * array_vec_len words.old + length run.now + 1 }
{
    if !run.is_empty() {
        words.push(run);
    }
}

/// The runs of bytes other than space; a line of 255 bytes has at most 128.
pub fn words(line: &[u8]) -> ArrayVec<&[u8], 128>
    requires { length line.now ≤ 255 }
    ensures { map (λ w. w.now) result.items ≡ words_of line.now }
{
    let mut words = ArrayVec::new();
    let mut rest = line;
    while let Some((run, after)) = cut(rest) {
        push(&mut words, run);
        rest = after;
    }
    push(&mut words, rest);
    words
}
