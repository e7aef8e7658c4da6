//! The lines of files: each file, then its words, 16 in a line.
ghost use Rattle.std.specs.Prelude.{◌≡◌, ◌<◌, ◌≤◌, ◌+◌, ◌*◌, ◌/◌, ◌^◌, ◌∷◌, [], true, is_some, length, take, drop};
ghost use Rattle.its_files.specs.Files.{directory, entry_at, file_at, is_file, names_at, words_at};
ghost use Rattle.its_saved.specs.StateLine as state;
ghost use Rattle.its_saved.specs.Saving.{file_lines, files_lines, in_rows};
ghost use Rattle.its_saved.specs.Text.{line_of};
ghost use Rattle.its_saving.specs.Parts.{nth_lines};
ghost use Rattle.its_saving.specs.Written.{Writes};

use super::line::write_line;
use arrayvec::ArrayVec;
use its_files::{Files, MOST_FILES};
use its_io::{Failed, Sink};
use its_records::StateLine;
use its_word::Word;

/// How many words are in a line at most.
const LINE_WORDS: u32 = 16;

/// Each file, in their order.
pub fn write_files<K: Sink>(files: &Files, out: &mut K) -> Result<(), Failed>
    ensures { Writes K.written K.faults out.old out.new result (files_lines (directory files.now)) }
{
    files.seen();
    for k in 0..MOST_FILES {
        write_nth(files, k, out)?;
    }
    Ok(())
}

/// The k-th file in their order, from 0, if there are so many.
fn write_nth<K: Sink>(files: &Files, k: u32, out: &mut K) -> Result<(), Failed>
    ensures { Writes K.written K.faults out.old out.new result (nth_lines files.now k) }
{
    match files.file_at(k) {
        Some(id) => write_file(files, id, out),
        None => Ok(()),
    }
}

/// A file.
#[tactic(auto, using(its_files::proofs::EntryLaws::file_stands))]
fn write_file<K: Sink>(files: &Files, id: u32, out: &mut K) -> Result<(), Failed>
    requires file { is_file (entry_at files.now id) ≡ true }
    ensures { Writes K.written K.faults out.old out.new result (file_lines (file_at files.now id)) }
{
    write_line(file_of(files, id), out)?;
    write_words(files, id, out)
}

/// The line of a file.
#[tactic(auto, using(its_files::proofs::EntryLaws::file_stands))]
fn file_of(files: &Files, id: u32) -> StateLine
    requires file { is_file (entry_at files.now id) ≡ true }
    ensures { result ≡ line_of (state.File (names_at files.now id)) }
{
    let [d, x, y] = files.names(id);
    StateLine::File { d, x, y }
}

/// The words of a file.
fn write_words<K: Sink>(files: &Files, id: u32, out: &mut K) -> Result<(), Failed>
    requires some { is_some (entry_at files.now id) ≡ true }
    ensures { Writes K.written K.faults out.old out.new result (in_rows (state.FileWords (names_at files.now id)) 16 (length (words_at files.now id)) (words_at files.now id)) }
{
    for row in 0..rows_of(files.length(id)) {
        write_row(files, id, row, out)?;
    }
    Ok(())
}

/// A line of the words of a file.
fn write_row<K: Sink>(files: &Files, id: u32, row: u32, out: &mut K) -> Result<(), Failed>
    requires row { row * 16 < length (words_at files.now id) }
    requires few { length (words_at files.now id) < 2 ^ 32 }
    ensures { Writes K.written K.faults out.old out.new result (state.FileWords (names_at files.now id) (take 16 (drop (row * 16) (words_at files.now id))) ∷ []) }
{
    let words = words_from(files, id, row * LINE_WORDS);
    write_line(StateLine::FileWords { words }, out)
}

/// Up to 16 words of a file or a draft, from one on.
pub fn words_from(files: &Files, id: u32, from: u32) -> ArrayVec<Word, 16>
    requires within { from < length (words_at files.now id) }
    requires few { length (words_at files.now id) < 2 ^ 32 }
    ensures { result.items ≡ take 16 (drop from (words_at files.now id)) }
{
    let mut words = ArrayVec::new();
    for k in 0..LINE_WORDS {
        match files.word_at(id, from + k) {
            Some(word) => words.push(word),
            None => return words,
        }
    }
    words
}

/// How many lines so many words have.
pub fn rows_of(count: u32) -> u32
    ensures within { count ≤ result * 16 }
    ensures least { result * 16 < count + 16 }
{
    let whole = count / LINE_WORDS;
    if count % LINE_WORDS == 0 {
        whole
    } else {
        whole + 1
    }
}
