//! Rows: sessions together with what each of their lines shows.
//!
//! A line of a row is a line of its session, and after ` = ` what it shows. If it shows more lines,
//! they follow, each after `= `. A row that does not end with LF has a session that does not.
//! `!NAME` is the image of that name. A line `a: X | Y` is the `a/` line of the words that these
//! statements of the assembler give; a statement that begins with a digit is a `WORD`.

use super::images::IMAGES;
use super::running::shows;
use its_asm::statement;
use its_word::Word;
use std::alloc::Global;
use std::test::Fail;

/// Appends a line to a text.
pub fn line(text: &mut String, end: &str) -> Result<(), Fail> {
    text.push_str(end)?;
    text.push('\n')?;
    Ok(())
}

/// How many of these lines are rows, which have ` = `; the others are titles.
pub fn rows_in(lines: &str) -> u32 {
    let mut count = 0u32;
    for text in lines.lines() {
        if text.contains(" = ") {
            count = count.wrapping_add(1);
        }
    }
    count
}

/// Appends a text so many times, between two others.
pub fn times(text: &mut String, first: &str, part: &str, n: u32, last: &str) -> Result<(), Fail> {
    text.push_str(first)?;
    for _ in 0..n {
        text.push_str(part)?;
    }
    text.push_str(last)?;
    Ok(())
}

/// Appends digits as a word.
pub fn word(text: &mut String, digits: &str) -> Result<(), Fail> {
    for _ in digits.len()..12 {
        text.push('0')?;
    }
    text.push_str(digits)?;
    Ok(())
}

/// Appends the end of a line of STATE from these words: whether the job runs, its PC word and its
/// first pending word. The other registers are 0.
pub fn registers(text: &mut String, told: &str) -> Result<(), Fail> {
    let (runs, told) = told.split_once(" ").ok_or("RUN or STOP")?;
    let (pc, pending) = told.split_once(" ").ok_or("a PC word")?;
    text.push_str(runs)?;
    text.push(' ')?;
    word(text, pc)?;
    text.push(' ')?;
    word(text, pending)?;
    times(text, "", " 000000000000", 5, "\n")
}

/// The word of a statement.
fn stated(alloc: Global, text: &str) -> Result<Word, Fail> {
    match statement(text.as_bytes()) {
        Some(word) => Ok(word),
        None => {
            let text = format!(in alloc; "WORD {text}")?;
            Ok(statement(text.as_bytes()).ok_or("a statement")?)
        }
    }
}

/// Appends the line of the words of these statements from an address on.
fn assemble(alloc: Global, session: &mut String, at: &str, statements: &str) -> Result<(), Fail> {
    session.push_str(at)?;
    session.push('/')?;
    for text in statements.split(" | ") {
        let word = stated(alloc, text)?;
        let digits = format!(in alloc; " {:o}", word.value())?;
        session.push_str(&digits)?;
    }
    session.push('\n')?;
    Ok(())
}

/// Appends a line of a row to the session and to the transcript.
fn read_line(
    alloc: Global,
    text: &str,
    session: &mut String,
    shown: &mut String,
) -> Result<(), Fail> {
    if let Some((asked, told)) = text.split_once("= ") {
        line(shown, told)?;
        if !asked.is_empty() {
            line(session, asked.trim_end())?;
        }
        return Ok(());
    }
    match text.split_once(": ") {
        Some((at, statements)) => {
            if text.starts_with(";") {
                line(session, text)
            } else {
                assemble(alloc, session, at, statements)
            }
        }
        None => line(session, text),
    }
}

/// The lines of an image.
fn image(alloc: Global, name: &str) -> Result<&'static str, Fail> {
    let title = format!(in alloc; "!{name} ")?;
    let (_, rest) = IMAGES.split_once(title.as_str()).ok_or("an image")?;
    let (_, lines) = rest.split_once("\n").ok_or("lines")?;
    let (lines, _) = lines.split_once("!").unwrap_or((lines, ""));
    Ok(lines)
}

/// The session of a row has its transcript.
pub fn show_row(alloc: Global, row: &str) -> Result<(), Fail> {
    let mut session = String::new(alloc);
    let mut shown = String::new(alloc);
    for text in row.lines() {
        if let Some(name) = text.strip_prefix("!") {
            for text in image(alloc, name)?.lines() {
                read_line(alloc, text, &mut session, &mut shown)?;
            }
        } else {
            read_line(alloc, text, &mut session, &mut shown)?;
        }
    }
    if !row.ends_with("\n") {
        let _lf = session.pop();
    }
    shows(alloc, &session, &shown)
}

/// Each session of these rows has its transcript. Rows are divided by `#`, and each is put after a
/// text that all begin with.
pub fn compare(alloc: Global, before: &str, rows: &str) -> Result<(), Fail> {
    for row in rows.split('#') {
        show_row(alloc, &format!(in alloc; "{before}{row}")?)?;
    }
    Ok(())
}
