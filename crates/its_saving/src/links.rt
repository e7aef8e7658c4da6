//! The lines of links: the words in each, 16 in a line, and its ends that are closed.
ghost use Rattle.std.specs.Prelude.{◌≡◌, ◌<◌, ◌*◌, ◌∷◌, [], Some, length, take, drop, if◌then◌else◌};
ghost use Rattle.its_records.specs.Links.{most_links, is_closed};
ghost use Rattle.its_pipes.specs.Pipes.{link_in, piped};
ghost use Rattle.its_plain.specs.Call.Link.{words_in};
ghost use Rattle.its_saved.specs.StateLine as state;
ghost use Rattle.its_saved.specs.Saving.{each, in_rows, link_lines};
ghost use Rattle.its_saving.specs.Written.{Writes};

use super::files::rows_of;
use super::line::write_line;
use arrayvec::ArrayVec;
use its_io::{Failed, Sink};
use its_pipes::Pipes;
use its_records::{End, LINKS, Link, StateLine};
use its_word::Word;

/// Each link, by number.
pub fn write_links<K: Sink>(pipes: &Pipes, out: &mut K) -> Result<(), Failed>
    ensures { Writes K.written K.faults out.old out.new result (each (λ l. link_lines l (piped pipes.now l)) most_links) }
{
    for l in 0..LINKS as u8 {
        write_link(pipes, l, out)?;
    }
    Ok(())
}

/// A link, if there is one of this number.
fn write_link<K: Sink>(pipes: &Pipes, l: u8, out: &mut K) -> Result<(), Failed>
    ensures { Writes K.written K.faults out.old out.new result (link_lines l (piped pipes.now l)) }
{
    match pipes.link(l) {
        Some(link) => write_there(pipes, l, &link, out),
        None => Ok(()),
    }
}

/// A link that there is.
fn write_there<K: Sink>(pipes: &Pipes, l: u8, link: &Link, out: &mut K) -> Result<(), Failed>
    requires there { link_in pipes.now l ≡ Some link.now }
    ensures { Writes K.written K.faults out.old out.new result (link_lines l (piped pipes.now l)) }
{
    write_words(pipes, l, out)?;
    write_end(l, false, link.reader, out)?;
    write_end(l, true, link.writer, out)
}

/// The words in a link.
fn write_words<K: Sink>(pipes: &Pipes, l: u8, out: &mut K) -> Result<(), Failed>
    ensures { Writes K.written K.faults out.old out.new result (in_rows (state.Sent l) 16 4 (words_in (piped pipes.now l))) }
{
    for row in 0..rows_of(pipes.words_waiting(l)) {
        write_row(pipes, l, row, out)?;
    }
    Ok(())
}

/// A line of the words in a link.
fn write_row<K: Sink>(pipes: &Pipes, l: u8, row: u32, out: &mut K) -> Result<(), Failed>
    requires row { row * 16 < length (words_in (piped pipes.now l)) }
    ensures { Writes K.written K.faults out.old out.new result (state.Sent l (take 16 (drop (row * 16) (words_in (piped pipes.now l)))) ∷ []) }
{
    let words = words_from(pipes, l, row);
    write_line(StateLine::Sent { l, words }, out)
}

/// The words of a line of those in a link.
fn words_from(pipes: &Pipes, l: u8, row: u32) -> ArrayVec<Word, 16>
    requires row { row * 16 < length (words_in (piped pipes.now l)) }
    ensures { result.items ≡ take 16 (drop (row * 16) (words_in (piped pipes.now l))) }
{
    pipes.bounds();
    let mut words = ArrayVec::new();
    for k in 0..16u32 {
        match pipes.word_at(l, row * 16 + k) {
            Some(word) => words.push(word),
            None => return words,
        }
    }
    words
}

/// An end of a link, if it is closed.
fn write_end<K: Sink>(l: u8, write: bool, end: End, out: &mut K) -> Result<(), Failed>
    ensures { Writes K.written K.faults out.old out.new result (if is_closed end then state.EndShut l write ∷ [] else []) }
{
    match end {
        End::Closed => write_line(StateLine::EndShut { l, write }, out),
        End::Unopened => Ok(()),
        End::Opened { .. } => Ok(()),
    }
}
