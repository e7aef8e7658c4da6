//! The lines of a core: its words that are not 0, and the first of each page, which makes the page;
//! then its read-only pages.
ghost use Rattle.std.specs.Prelude.{◌≡◌, ◌≤◌, ◌<◌, ◌+◌, ◌-◌, ◌*◌, ◌==◌, ◌&&◌, [], ◌∷◌, Some, not, length, ◌^◌};
ghost use Rattle.its_word.specs.Core.{page_of, word_at};
ghost use Rattle.its_core.specs.Cores.{core_at};
ghost use Rattle.its_saved.specs.Saving.{begins_page, cell_of, core_lines, is_next, read_only_line, read_only_lines, word_lines};
ghost use Rattle.its_saving.specs.Rows.{cells_from, first_of, mark_lines, rows_open, Takes};
ghost use Rattle.its_saving.specs.Written.{Writes};

use super::line::write_line;
use arrayvec::ArrayVec;
use its_core::Core;
use its_io::{Failed, Sink};
use its_records::StateLine;
use its_word::{Slot, Word};

/// How many pages a core can have.
pub const PAGES: u32 = 256;

/// How many words a page has.
pub const PAGE_WORDS: u32 = 1024;

/// The first address that is of page 0 and of no accumulator.
const FIRST_PLACE: u32 = 16;

/// The words of the line that is open: at most 16, at consecutive addresses.
#[derive(Drop)]
struct Row {
    a: u32,
    words: ArrayVec<Word, 16>,
}

/// The words of a core and its read-only pages.
pub fn write_core<K: Sink>(core: &Core, s: Slot, out: &mut K) -> Result<(), Failed>
    ensures { Writes K.written K.faults out.old out.new result (core_lines s (core_at core.now s)) }
{
    write_words(core, s, out)?;
    write_read_only(core, s, out)
}

/// The words of a core.
fn write_words<K: Sink>(core: &Core, s: Slot, out: &mut K) -> Result<(), Failed>
    ensures { Writes K.written K.faults out.old out.new result (word_lines s (core_at core.now s)) }
{
    let words = ArrayVec::new();
    let mut row = Row { a: 0, words };
    write_span(core, s, 0, FIRST_PLACE, &mut row, out)?;
    write_pages(core, s, &mut row, out)?;
    end_row(&mut row, out)
}

/// The words of the pages of a core, but not its accumulators.
fn write_pages<K: Sink>(core: &Core, s: Slot, row: &mut Row, out: &mut K) -> Result<(), Failed>
    requires end { row.old.a + length row.old.words.items ≤ 2 ^ 18 }
    ensures end { row.new.a + length row.new.words.items ≤ 2 ^ 18 }
    ensures takes { Takes K.written K.faults out.old out.new result row.old.a row.old.words.items (cells_from (core_at core.now s) 16 (2 ^ 18 - 16)) row.new.a row.new.words.items }
{
    for page in 0..PAGES {
        write_page(core, s, page as u8, row, out)?;
    }
    Ok(())
}

/// The words of a page of a core, if it has the page.
fn write_page<K: Sink>(
    core: &Core,
    s: Slot,
    page: u8,
    row: &mut Row,
    out: &mut K,
) -> Result<(), Failed>
    requires end { row.old.a + length row.old.words.items ≤ 2 ^ 18 }
    ensures end { row.new.a + length row.new.words.items ≤ 2 ^ 18 }
    ensures takes { Takes K.written K.faults out.old out.new result row.old.a row.old.words.items (cells_from (core_at core.now s) (first_of page) ((page + 1) * 1024 - first_of page)) row.new.a row.new.words.items }
{
    match core.page(s, page) {
        Some(_) => write_span(core, s, first_of(page), end_of(page), row, out),
        None => Ok(()),
    }
}

/// The first address of a page that is of no accumulator.
fn first_of(page: u8) -> u32
    ensures value { result ≡ first_of page }
    ensures within { result ≤ (page + 1) * 1024 }
{
    if page == 0 {
        FIRST_PLACE
    } else {
        u32::from(page) * PAGE_WORDS
    }
}

/// The address after the last of a page.
fn end_of(page: u8) -> u32
    ensures value { result ≡ (page + 1) * 1024 }
    ensures within { result ≤ 2 ^ 18 }
{
    (u32::from(page) + 1) * PAGE_WORDS
}

/// The words of a core from one address up to another.
fn write_span<K: Sink>(
    core: &Core,
    s: Slot,
    from: u32,
    end: u32,
    row: &mut Row,
    out: &mut K,
) -> Result<(), Failed>
    requires within { end ≤ 2 ^ 18 }
    requires onward { from ≤ end }
    requires end { row.old.a + length row.old.words.items ≤ 2 ^ 18 }
    ensures end { row.new.a + length row.new.words.items ≤ 2 ^ 18 }
    ensures takes { Takes K.written K.faults out.old out.new result row.old.a row.old.words.items (cells_from (core_at core.now s) from (end - from)) row.new.a row.new.words.items }
{
    for a in from..end {
        write_place(core, s, a, row, out)?;
    }
    Ok(())
}

/// The word at an address of a core, if its page is there.
fn write_place<K: Sink>(
    core: &Core,
    s: Slot,
    a: u32,
    row: &mut Row,
    out: &mut K,
) -> Result<(), Failed>
    requires address { a < 2 ^ 18 }
    requires end { row.old.a + length row.old.words.items ≤ 2 ^ 18 }
    ensures end { row.new.a + length row.new.words.items ≤ 2 ^ 18 }
    ensures takes { Takes K.written K.faults out.old out.new result row.old.a row.old.words.items (cell_of a (word_at (core_at core.now s) a)) row.new.a row.new.words.items }
{
    match core.word(s, a) {
        Some(w) => write_cell(a, w, row, out),
        None => Ok(()),
    }
}

/// A word of a core. A word that is 0 is left out, unless it makes its page.
fn write_cell<K: Sink>(a: u32, w: Word, row: &mut Row, out: &mut K) -> Result<(), Failed>
    requires address { a < 2 ^ 18 }
    requires end { row.old.a + length row.old.words.items ≤ 2 ^ 18 }
    ensures end { row.new.a + length row.new.words.items ≤ 2 ^ 18 }
    ensures takes { Takes K.written K.faults out.old out.new result row.old.a row.old.words.items (cell_of a (Some w)) row.new.a row.new.words.items }
{
    if is_left_out(a, w) {
        return Ok(());
    }
    write_kept(a, w, row, out)
}

/// Whether the word at an address is not written: it is 0, and does not make its page.
fn is_left_out(a: u32, w: Word) -> bool
    ensures { result ≡ ((w == 0) && not (begins_page a)) }
{
    w == Word::ZERO && !begins_page(a)
}

/// Whether the word at an address makes its page: it is the first, or of page 0 the first that is
/// of no accumulator.
fn begins_page(a: u32) -> bool
    ensures { result ≡ begins_page a }
{
    a == FIRST_PLACE || (a % PAGE_WORDS == 0 && a >= PAGE_WORDS)
}

/// A word of a core that is written: it is put after those of the open line, if it is next to them
/// and there is room, else into a new line.
fn write_kept<K: Sink>(a: u32, w: Word, row: &mut Row, out: &mut K) -> Result<(), Failed>
    requires address { a < 2 ^ 18 }
    requires end { row.old.a + length row.old.words.items ≤ 2 ^ 18 }
    ensures end { row.new.a + length row.new.words.items ≤ 2 ^ 18 }
    ensures takes { Takes K.written K.faults out.old out.new result row.old.a row.old.words.items ((a, w) ∷ []) row.new.a row.new.words.items }
{
    if goes_on(row, a) {
        row.words.push(w);
        return Ok(());
    }
    end_row(row, out)?;
    row.a = a;
    row.words.push(w);
    Ok(())
}

/// Whether the word at an address is next to those of the open line, which has room for it.
fn goes_on(row: &Row, a: u32) -> bool
    requires end { row.now.a + length row.now.words.items ≤ 2 ^ 18 }
    ensures { result ≡ is_next row.now.a row.now.words.items a }
{
    let count = row.words.len();
    a == row.a + count as u32 && count < 16
}

/// Writes the open line, if it has words, and empties it.
fn end_row<K: Sink>(row: &mut Row, out: &mut K) -> Result<(), Failed>
    requires end { row.old.a + length row.old.words.items ≤ 2 ^ 18 }
    ensures empty { row.new.words.items ≡ [] }
    ensures place { row.new.a ≡ row.old.a }
    ensures writes { Writes K.written K.faults out.old out.new result (rows_open row.old.a row.old.words.items []) }
{
    if row.words.is_empty() {
        return Ok(());
    }
    let words = copied(&row.words);
    row.words.clear();
    write_line(StateLine::CoreWords { a: row.a, words }, out)
}

/// A copy of the words of a line.
fn copied(words: &ArrayVec<Word, 16>) -> ArrayVec<Word, 16>
    ensures { result.items ≡ words.now.items }
{
    let mut copy = ArrayVec::new();
    let _fits = copy.try_extend_from_slice(words.as_slice());
    copy
}

/// The read-only pages of a core.
fn write_read_only<K: Sink>(core: &Core, s: Slot, out: &mut K) -> Result<(), Failed>
    ensures { Writes K.written K.faults out.old out.new result (read_only_lines s (core_at core.now s)) }
{
    for page in 0..PAGES {
        write_mark_of(core, s, page as u8, out)?;
    }
    Ok(())
}

/// A page of a core, if it has the page and it is read only.
fn write_mark_of<K: Sink>(core: &Core, s: Slot, page: u8, out: &mut K) -> Result<(), Failed>
    ensures { Writes K.written K.faults out.old out.new result (read_only_line s page (page_of (core_at core.now s) page)) }
{
    write_mark(s, page, core.page(s, page), out)
}

/// A page, if it is there and read only: whether it is writable is known if it is there.
fn write_mark<K: Sink>(s: Slot, page: u8, writable: Option<bool>, out: &mut K) -> Result<(), Failed>
    ensures { Writes K.written K.faults out.old out.new result (mark_lines s page writable) }
{
    match writable {
        Some(true) => Ok(()),
        Some(false) => write_line(StateLine::ReadOnly { page }, out),
        None => Ok(()),
    }
}
