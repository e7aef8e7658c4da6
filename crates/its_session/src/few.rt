//! The words of a line that has few: an array for the words of any line costs more to make than all
//! else that is done to read one.
ghost use Rattle.std.specs.Prelude.{◌≡◌, ◌<◌, ◌+◌, ◌++◌, ◌==◌, [], true, length, map, position, IfNone, IfSome};
ghost use Rattle.its_word.specs.Text.{word_of_run, words_of};

use arrayvec::ArrayVec;

/// The words of a line that has few: an address, and the 16 words that may follow it.
pub type Few<'a> = ArrayVec<&'a [u8], 17>;

/// Puts the words of a line, its runs of bytes other than space, into an empty array; false if
/// there are too many.
pub fn few_words<'a>(line: &'a [u8], words: &mut Few<'a>) -> bool
    requires empty { words.old.items ≡ [] }
    ensures { result ≡ true → map (λ w. w.now) words.new.items ≡ words_of line.now }
{
    let mut rest = line;
    while let Some((run, after)) = cut(rest) {
        if !push(words, run) {
            return false;
        }
        rest = after;
    }
    push(words, rest)
}

/// Adds a run of bytes, if it has any; false if there is no room for it.
fn push<'a>(words: &mut Few<'a>, run: &'a [u8]) -> bool
    ensures { result ≡ true → map (λ w. w.now) words.new.items ≡ map (λ w. w.now) words.old.items ++ word_of_run run.now }
{
    if run.is_empty() {
        return true;
    }
    if words.is_full() {
        return false;
    }
    words.push(run);
    true
}

/// The bytes before the first space and those after it, if there is one.
#[tactic(auto, using(its_word::proofs::WordsLaws::words_cut, its_word::proofs::WordsLaws::words_whole))]
fn cut(line: &[u8]) -> Option<(&[u8], &[u8])>
    ensures none { IfNone result (words_of line.now ≡ word_of_run line.now) }
    ensures some { IfSome result (λ p. words_of line.now ≡ word_of_run p.0.now ++ words_of p.1.now) }
    ensures shorter { IfSome result (λ p. length p.0.now + length p.1.now < length line.now) }
{
    let space = first_space(line)?;
    Some((&line[..space], &line[space + 1..]))
}

/// The place of the first space.
fn first_space(line: &[u8]) -> Option<usize>
    ensures { result ≡ position (λ b. b == 32) line.now }
{
    line.iter().position(|b| *b == b' ')
}
