//! The session of an image, as text.
ghost use Rattle.std.specs.Prelude.{◌≡◌, ◌≤◌, ◌<◌, ◌+◌, ◌^◌, ◌∷◌, ◌++◌, [], length, All, IfOk, OnOk};
ghost use Rattle.its_session.specs.Fits.{EventFits};
ghost use Rattle.its_asm_command.specs.Written.{image_events, rows, rows_from, symbol_lines};
ghost use Rattle.its_asm_command.specs.Image.{ImageFits, CellFits, SymbolFits};
ghost use Rattle.its_asm_command.specs.Made.{Adds, AddsRow, RowFits, IsSessionOf};
ghost use Rattle.its_records.specs.declared.session.Event.TheVariants as events;

use super::row::Row;
use arrayvec::ArrayVec;
use its_asm::{Image, Symbols};
use its_records::Event;
use its_session::print_event;
use its_word::{MOST_SYMBOLS, Word};
use std::alloc::{AllocError, Global};

/// The session of an image: its lines, each of which reads as its event.
#[tactic(auto, using(crate::proofs::AddsLaws::session_adds))]
pub fn session_text(alloc: Global, image: &Image) -> Result<Vec<u8>, AllocError>
    requires fits { ImageFits image.now }
    ensures session { IfOk result (λ t. IsSessionOf image.now t.items) }
{
    let (u, j, console) = (image.u, image.j, image.console);
    let mut text = Vec::new(alloc);
    add_line(&mut text, &Event::Version { v: 2 })?;
    add_line(&mut text, &Event::Load { u, j, console })?;
    add_words(&mut text, image.words.as_slice())?;
    add_symbols(&mut text, &image.symbols)?;
    add_line(&mut text, &Event::Go { a: image.start })?;
    add_line(&mut text, &Event::End)?;
    Ok(text)
}

/// Adds words at rising addresses in `a/` lines, each as long as consecutive words allow.
#[tactic(auto, using(crate::proofs::AddsLaws::none_added, crate::proofs::RowLaws::all_rows, crate::proofs::RowLaws::first_cell, crate::proofs::RowLaws::other_cells))]
fn add_words(text: &mut Vec<u8>, cells: &[(u32, Word)]) -> Result<(), AllocError>
    requires fits { All CellFits cells.now }
    ensures adds { OnOk result (Adds (rows cells.now) text.old.items text.new.items) }
{
    match cells {
        [] => Ok(()),
        [(a, w), rest @ ..] => add_rows(text, Row::new(*a, *w), rest),
    }
}

/// Adds a row with the words that follow it.
#[tactic(auto, using(crate::proofs::RowLaws::rows_start, crate::proofs::RowLaws::rows_next, crate::proofs::RowLaws::rows_end, crate::proofs::RowLaws::cell_below))]
fn add_rows(text: &mut Vec<u8>, first: Row, cells: &[(u32, Word)]) -> Result<(), AllocError>
    requires row { RowFits first }
    requires fits { All CellFits cells.now }
    ensures adds { OnOk result (Adds (rows_from first.start first.words.items cells.now) text.old.items text.new.items) }
{
    let mut row = first;
    for (a, w) in cells {
        row = add_word(text, row, *a, *w)?;
    }
    add_row(text, row)
}

/// Adds a word to the row that is open. If it does not go on there, the row is added, and the word
/// begins another one.
#[tactic(auto, using(crate::proofs::RowLaws::goes_on_here, crate::proofs::RowLaws::begins_row))]
fn add_word(text: &mut Vec<u8>, row: Row, a: u32, w: Word) -> Result<Row, AllocError>
    requires fits { RowFits row }
    requires within { a < 2 ^ 18 }
    ensures adds { IfOk result (λ r. AddsRow row r a w text.old.items text.new.items) }
    ensures fits { IfOk result RowFits }
{
    if row.goes_on(a) {
        return Ok(row.with(w));
    }
    add_row(text, row)?;
    Ok(Row::new(a, w))
}

/// Adds one `a/` line.
fn add_row(text: &mut Vec<u8>, row: Row) -> Result<(), AllocError>
    requires fits { RowFits row }
    ensures adds { OnOk result (Adds (events.Words row.start row.words ∷ []) text.old.items text.new.items) }
{
    let Row { start, words } = row;
    add_line(text, &Event::Words { a: start, words })
}

/// Adds a SYM line for each symbol.
#[tactic(auto, using(crate::proofs::Groups::add_symbols_laws))]
fn add_symbols(text: &mut Vec<u8>, symbols: &Symbols) -> Result<(), AllocError>
    requires fits { All SymbolFits symbols.now }
    requires few { length symbols.now ≤ 512 }
    ensures adds { OnOk result (Adds (symbol_lines symbols.now) text.old.items text.new.items) }
{
    for k in 0..MOST_SYMBOLS as u32 {
        let Some(symbol) = symbols.at(k) else {
            return Ok(());
        };
        add_symbol(text, symbol)?;
    }
    Ok(())
}

/// Adds one SYM line.
fn add_symbol(text: &mut Vec<u8>, symbol: (Word, u32)) -> Result<(), AllocError>
    requires fits { SymbolFits symbol }
    ensures adds { OnOk result (Adds (events.Symbol symbol.0 symbol.1 ∷ []) text.old.items text.new.items) }
{
    let (name, a) = symbol;
    add_line(text, &Event::Symbol { name, a })
}

/// Adds the line of an event.
#[tactic(auto, using(crate::proofs::AddsLaws::adds_line))]
fn add_line(text: &mut Vec<u8>, event: &Event) -> Result<(), AllocError>
    requires fits { EventFits 2 event.now }
    ensures adds { OnOk result (Adds (event.now ∷ []) text.old.items text.new.items) }
{
    let mut line = ArrayVec::new();
    print_event(event, &mut line);
    text.extend_from_slice(&line)?;
    text.push(b'\n')?;
    Ok(())
}
