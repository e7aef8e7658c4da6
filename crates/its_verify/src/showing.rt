//! The lines that an event shows which was obeyed, one after another.
ghost use Rattle.std.specs.Prelude.{◌≡◌, ◌≤◌, ◌<◌, ◌+◌, ◌*◌, ◌/◌, ◌^◌, true, [], ◌∷◌, None, Ok, length, map, take, drop};
ghost use Rattle.std.specs.List.{list_all};
ghost use Rattle.its_io.specs.Bytes.{HasCause};
ghost use Rattle.its_files.specs.Files.{entry_at, is_file, file_at as file_of, words_at};
ghost use Rattle.its_print.specs.Printing.{Dir, Filed, Row, listed};
ghost use Rattle.its_reader.specs.Bytes.{Onward};
ghost use Rattle.its_plain.specs.Operator.Files.{files_in, filed_line, listing, rows};
ghost use Rattle.its_direct.specs.Plain.{machine_of};
ghost use Rattle.its_direct.specs.Events.{CanShow};
ghost use Rattle.its_verify.specs.TranscriptReader.{AtLine, Says, Stays};
ghost use Rattle.its_verify.specs.Rulings.{Ruling, expects};
ghost use Rattle.its_verify.specs.Showing.{names_line, shown_ruling, text_lines};

use super::outcome::Outcome;
use super::room::Bytes;
use super::transcript_reader::TranscriptReader;
use its_direct::{Answer, Plain};
use its_io::{Failed, Source};
use its_print::{ROW_WORDS, Reply};
use its_word::{Slot, Word};

/// The lines that an answer shows are next; files are read from the machine.
#[tactic(auto, using(crate::proofs::ShowingLaws::reply_says, crate::proofs::TranscriptReaderLaws::nothing_on))]
pub(crate) fn show_answer<S: Source>(
    reader: &mut TranscriptReader,
    src: &mut S,
    plain: &Plain,
    answer: &Answer,
    line: &mut Bytes,
) -> Result<Option<Outcome>, Failed>
    requires can { CanShow answer.now plain.now }
    requires at_line { AtLine reader.old (S.left src.old) }
    requires onward { Onward reader.old.texts.ended (S.readable src.old) }
    ensures says { (next : Ruling) → Says result reader.old reader.new (S.left src.old) (S.left src.new) (shown_ruling answer.now plain.now next) next }
    ensures stays { Stays result reader.new (S.left src.new) }
    ensures onward { result ≡ Ok None → Onward reader.new.texts.ended (S.readable src.new) }
    ensures cause { HasCause (S.faults src.old) (S.faults src.new) result }
{
    match answer {
        Answer::Nothing => Ok(None),
        Answer::Loaded { s } => reader.expect(src, &Reply::Loaded { s: *s }, line),
        Answer::Typed { c, dropped } => {
            let (c, dropped) = (*c, *dropped);
            reader.expect(src, &Reply::Typed { c, dropped }, line)
        }
        Answer::Drained { c, bytes } => reader.expect(src, &Reply::Drained { c: *c, bytes }, line),
        Answer::Words { s, a, words } => {
            let (s, a) = (*s, *a);
            reader.expect(src, &Reply::Words { s, a, words }, line)
        }
        Answer::State { version, s, show } => {
            let (version, s) = (*version, *s);
            reader.expect(src, &Reply::State { version, s, show }, line)
        }
        Answer::Peeked => reader.peek(src),
        Answer::Listed { s, a, words } => list_each(reader, src, *s, *a, words, line),
        Answer::Files { d } => show_files(reader, src, plain, *d, line),
        Answer::File { id, d, x, y } => show_text(reader, src, plain, *id, [*d, *x, *y], line),
    }
}

/// A line for each of some words, which are in a slot from an address on.
#[tactic(auto, using(crate::proofs::ShowingLaws::lines_start))]
fn list_each<S: Source>(
    reader: &mut TranscriptReader,
    src: &mut S,
    s: Slot,
    a: u32,
    words: &[Word],
    line: &mut Bytes,
) -> Result<Option<Outcome>, Failed>
    requires address { a < 2 ^ 18 }
    requires few { length words.now ≤ 8 }
    requires at_line { AtLine reader.old (S.left src.old) }
    requires onward { Onward reader.old.texts.ended (S.readable src.old) }
    ensures says { (next : Ruling) → Says result reader.old reader.new (S.left src.old) (S.left src.new) (expects (listed s a words.now) next) next }
    ensures stays { Stays result reader.new (S.left src.new) }
    ensures onward { result ≡ Ok None → Onward reader.new.texts.ended (S.readable src.new) }
    ensures cause { HasCause (S.faults src.old) (S.faults src.new) result }
{
    let mut place = a;
    for w in words {
        let word = Reply::Listed {
            s,
            a: place,
            word: *w,
        };
        if let Some(outcome) = reader.expect(src, &word, line)? {
            return Ok(Some(outcome));
        }
        place += 1;
    }
    Ok(None)
}

/// DIR shows how many files a directory has, and each of them.
fn show_files<S: Source>(
    reader: &mut TranscriptReader,
    src: &mut S,
    plain: &Plain,
    d: Word,
    line: &mut Bytes,
) -> Result<Option<Outcome>, Failed>
    requires at_line { AtLine reader.old (S.left src.old) }
    requires onward { Onward reader.old.texts.ended (S.readable src.old) }
    ensures says { (next : Ruling) → Says result reader.old reader.new (S.left src.old) (S.left src.new) (expects (listing d (files_in d (machine_of plain.now).files)) next) next }
    ensures stays { Stays result reader.new (S.left src.new) }
    ensures onward { result ≡ Ok None → Onward reader.new.texts.ended (S.readable src.new) }
    ensures cause { HasCause (S.faults src.old) (S.faults src.new) result }
{
    let ids = plain.listed(d);
    let n = ids.len() as u32;
    if let Some(outcome) = reader.expect(src, &Reply::Dir { d, n }, line)? {
        return Ok(Some(outcome));
    }
    show_each(reader, src, plain, ids.as_slice(), line)
}

/// A line for each of some files.
#[tactic(auto, using(crate::proofs::ShowingLaws::lines_start))]
fn show_each<S: Source>(
    reader: &mut TranscriptReader,
    src: &mut S,
    plain: &Plain,
    ids: &[u32],
    line: &mut Bytes,
) -> Result<Option<Outcome>, Failed>
    requires each { list_all (λ id. is_file (entry_at plain.now.files id)) ids.now ≡ true }
    requires at_line { AtLine reader.old (S.left src.old) }
    requires onward { Onward reader.old.texts.ended (S.readable src.old) }
    ensures says { (next : Ruling) → Says result reader.old reader.new (S.left src.old) (S.left src.new) (expects (map filed_line (map (file_of plain.now.files) ids.now)) next) next }
    ensures stays { Stays result reader.new (S.left src.new) }
    ensures onward { result ≡ Ok None → Onward reader.new.texts.ended (S.readable src.new) }
    ensures cause { HasCause (S.faults src.old) (S.faults src.new) result }
{
    for id in ids {
        if let Some(outcome) = show_entry(reader, src, plain, *id, line)? {
            return Ok(Some(outcome));
        }
    }
    Ok(None)
}

/// The line of a file.
#[tactic(auto, using(crate::proofs::ShowingLaws::reply_says, crate::proofs::ShowingLaws::filed_says))]
fn show_entry<S: Source>(
    reader: &mut TranscriptReader,
    src: &mut S,
    plain: &Plain,
    id: u32,
    line: &mut Bytes,
) -> Result<Option<Outcome>, Failed>
    requires file { is_file (entry_at plain.now.files id) ≡ true }
    requires at_line { AtLine reader.old (S.left src.old) }
    requires onward { Onward reader.old.texts.ended (S.readable src.old) }
    ensures says { (next : Ruling) → Says result reader.old reader.new (S.left src.old) (S.left src.new) (expects (filed_line (file_of plain.now.files id) ∷ []) next) next }
    ensures stays { Stays result reader.new (S.left src.new) }
    ensures onward { result ≡ Ok None → Onward reader.new.texts.ended (S.readable src.new) }
    ensures cause { HasCause (S.faults src.old) (S.faults src.new) result }
{
    let show = plain.show(id);
    reader.expect(src, &Reply::Filed { show: &show }, line)
}

/// SHOW shows the names of a file and how many words it has, and the words.
fn show_text<S: Source>(
    reader: &mut TranscriptReader,
    src: &mut S,
    plain: &Plain,
    id: u32,
    names: [Word; 3],
    line: &mut Bytes,
) -> Result<Option<Outcome>, Failed>
    requires file { is_file (entry_at plain.now.files id) ≡ true }
    requires at_line { AtLine reader.old (S.left src.old) }
    requires onward { Onward reader.old.texts.ended (S.readable src.old) }
    ensures says { (next : Ruling) → Says result reader.old reader.new (S.left src.old) (S.left src.new) (expects (text_lines names (words_at plain.now.files id)) next) next }
    ensures stays { Stays result reader.new (S.left src.new) }
    ensures onward { result ≡ Ok None → Onward reader.new.texts.ended (S.readable src.new) }
    ensures cause { HasCause (S.faults src.old) (S.faults src.new) result }
{
    let count = plain.show(id).length;
    if let Some(outcome) = show_names(reader, src, names, count, line)? {
        return Ok(Some(outcome));
    }
    show_rows(reader, src, plain, id, count, line)
}

/// The line of the names of a file and of how many words it has.
#[tactic(auto, using(crate::proofs::ShowingLaws::reply_says))]
fn show_names<S: Source>(
    reader: &mut TranscriptReader,
    src: &mut S,
    names: [Word; 3],
    count: u32,
    line: &mut Bytes,
) -> Result<Option<Outcome>, Failed>
    requires at_line { AtLine reader.old (S.left src.old) }
    requires onward { Onward reader.old.texts.ended (S.readable src.old) }
    ensures says { (next : Ruling) → Says result reader.old reader.new (S.left src.old) (S.left src.new) (expects (names_line names count ∷ []) next) next }
    ensures stays { Stays result reader.new (S.left src.new) }
    ensures onward { result ≡ Ok None → Onward reader.new.texts.ended (S.readable src.new) }
    ensures cause { HasCause (S.faults src.old) (S.faults src.new) result }
{
    let [d, x, y] = names;
    let k = count;
    reader.expect(src, &Reply::Shown { d, x, y, k }, line)
}

/// The words of a file, eight in a line.
#[tactic(auto, using(crate::proofs::ShowingLaws::lines_start))]
fn show_rows<S: Source>(
    reader: &mut TranscriptReader,
    src: &mut S,
    plain: &Plain,
    id: u32,
    count: u32,
    line: &mut Bytes,
) -> Result<Option<Outcome>, Failed>
    requires at_line { AtLine reader.old (S.left src.old) }
    requires onward { Onward reader.old.texts.ended (S.readable src.old) }
    ensures says { (next : Ruling) → Says result reader.old reader.new (S.left src.old) (S.left src.new) (expects (rows ((count + 7) / 8) (words_at plain.now.files id)) next) next }
    ensures stays { Stays result reader.new (S.left src.new) }
    ensures onward { result ≡ Ok None → Onward reader.new.texts.ended (S.readable src.new) }
    ensures cause { HasCause (S.faults src.old) (S.faults src.new) result }
{
    let lines = row_count(count);
    for k in 0..lines {
        if let Some(outcome) = show_row(reader, src, plain, id, k, line)? {
            return Ok(Some(outcome));
        }
    }
    Ok(None)
}

/// How many lines so many words of a file have.
#[tactic(auto, using(crate::proofs::ShowingLaws::rows_count))]
fn row_count(words: u32) -> u32
    ensures { result ≡ (words + 7) / 8 }
{
    words.div_ceil(ROW_WORDS)
}

/// One of these lines.
#[tactic(auto, using(crate::proofs::ShowingLaws::reply_says, crate::proofs::ShowingLaws::row_says))]
fn show_row<S: Source>(
    reader: &mut TranscriptReader,
    src: &mut S,
    plain: &Plain,
    id: u32,
    k: u32,
    line: &mut Bytes,
) -> Result<Option<Outcome>, Failed>
    requires few { 8 * k + 8 ≤ 2 ^ 32 }
    requires at_line { AtLine reader.old (S.left src.old) }
    requires onward { Onward reader.old.texts.ended (S.readable src.old) }
    ensures says { (next : Ruling) → Says result reader.old reader.new (S.left src.old) (S.left src.new) (expects (Row (take 8 (drop (8 * k) (words_at plain.now.files id))) ∷ []) next) next }
    ensures stays { Stays result reader.new (S.left src.new) }
    ensures onward { result ≡ Ok None → Onward reader.new.texts.ended (S.readable src.new) }
    ensures cause { HasCause (S.faults src.old) (S.faults src.new) result }
{
    let words = plain.row(id, k);
    let words = words.as_slice();
    reader.expect(src, &Reply::Row { words }, line)
}
