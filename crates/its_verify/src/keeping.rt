//! The session of an input: all up to and with the first line whose only word is END.
ghost use Rattle.std.specs.Prelude.{◌≡◌, ◌≢◌, ◌≤◌, ◌-◌, ◌==◌, ◌&&◌, [], Ok, Err, codes};
ghost use Rattle.std.specs.List.{list_all};
ghost use Rattle.its_io.specs.Bytes.{next_fault};
ghost use Rattle.its_session.specs.Events.{most_lines};
ghost use Rattle.its_word.specs.Text.{words_of};
ghost use Rattle.its_reader.specs.Bytes.{Onward};
ghost use Rattle.its_reader.specs.Texts.{ReadyTexts};
ghost use Rattle.its_verify.specs.Verified.{is_end_line, is_only};
ghost use Rattle.its_verify.specs.Keeping.{Keeps};
ghost use Rattle.its_verify.specs.Reading.{ends_with_d, is_space};

use super::peeks::line_end;
use its_io::Source;
use its_reader::{Next, Texts};

/// What the first part of an input is.
#[derive(Clone, Copy, Debug, PartialEq, Eq)]
pub enum Part {
    /// A session: its END line came.
    Session,
    /// Line n is too long.
    Long(u32),
    /// There is no END line, and line n would be the next.
    Cut(u32),
    /// A line past the most that are read begins.
    Beyond,
}

/// Why nothing is said: the source failed, or memory was refused.
#[derive(Clone, Copy, Debug, PartialEq, Eq)]
pub enum Broken {
    Source,
    Memory,
}

/// Whether the only word of a line is END. The line may have the LF that ends it.
#[tactic(auto, using(crate::proofs::EndLaws::before_found, crate::proofs::EndLaws::before_none), unfolding(crate::specs::Verified::is_end_line))]
pub fn is_end_line(line: &[u8]) -> bool
    ensures { result ≡ is_end_line line.now }
{
    match line_end(line) {
        Some(end) => is_end(&line[..end]),
        None => is_end(line),
    }
}

/// Whether the only word of a line without its LF is END.
#[tactic(auto, using(crate::proofs::EndLaws::end_first, crate::proofs::EndLaws::end_space, crate::proofs::EndLaws::end_none))]
fn is_end(line: &[u8]) -> bool
    ensures { result ≡ is_only (codes "END") (words_of line.now) }
{
    let mut rest = line;
    while let Some((first, after)) = rest.split_first() {
        if *first != b' ' {
            return is_end_word(*first, after);
        }
        rest = after;
    }
    false
}

/// Whether these bytes, the first of which is no space, are the word END, with only spaces after
/// it.
fn is_end_word(first: u8, after: &[u8]) -> bool
    ensures { result ≡ ((first == 69) && ends_with_d after.now) }
{
    first == b'E' && ends_with_d(after)
}

/// Whether these bytes are the rest of the word END, with only spaces after it.
fn ends_with_d(after: &[u8]) -> bool
    ensures { result ≡ ends_with_d after.now }
{
    match after {
        [b'N', b'D', behind @ ..] => is_blank(behind),
        _ => false,
    }
}

/// Whether these bytes are spaces.
fn is_blank(bytes: &[u8]) -> bool
    ensures { result ≡ list_all is_space bytes.now }
{
    bytes.iter().all(|b| *b == b' ')
}

/// Reads a session, and adds its bytes to those that are kept. No line of it has more than 255
/// bytes before its LF.
#[tactic(auto, using(crate::proofs::Groups::keep_laws))]
pub fn keep<S: Source>(
    texts: &mut Texts,
    src: &mut S,
    session: &mut Vec<u8>,
) -> Result<Part, Broken>
    requires ready { ReadyTexts texts.old (S.left src.old) }
    requires onward { Onward texts.old.ended (S.readable src.old) }
    requires first { texts.old.number ≡ 0 }
    requires most { texts.old.most ≡ 255 }
    requires empty { session.old.items ≡ [] }
    ensures keeps { Keeps result texts.old texts.new session.new.items (S.left src.old) (S.left src.new) }
    ensures ready { result ≡ Ok Part.Session → ReadyTexts texts.new (S.left src.new) }
    ensures onward { result ≡ Ok Part.Session → Onward texts.new.ended (S.readable src.new) }
    ensures some { result ≡ Ok Part.Session → 1 ≤ texts.new.number }
    ensures few { result ≡ Ok Part.Session → texts.new.number ≤ most_lines }
    ensures unfailed { result ≢ Err Broken.Source → S.faults src.new ≡ S.faults src.old }
    ensures fault { result ≡ Err Broken.Source → S.faults src.new ≡ next_fault (S.faults src.old) }
{
    loop {
        match texts.next(src) {
            Ok(Next::Line) => {
                if session.extend_from_slice(&texts.text).is_err() {
                    return Err(Broken::Memory);
                }
                if is_end_line(&texts.text) {
                    return Ok(Part::Session);
                }
            }
            Ok(Next::Long) => return Ok(Part::Long(texts.number)),
            Ok(Next::End) => return Ok(Part::Cut(texts.number)),
            Ok(Next::Beyond) => return Ok(Part::Beyond),
            Err(_) => return Err(Broken::Source),
        }
    }
}
