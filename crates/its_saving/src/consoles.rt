//! The lines of consoles: the bytes that wait at each, 32 in a line, and who holds each.
ghost use Rattle.std.specs.Prelude.{◌≡◌, ◌<◌, ◌≤◌, ◌+◌, ◌*◌, ◌∷◌, [], IfSome, length, slice_get, take, drop};
ghost use Rattle.its_word.specs.Limits.{slots, consoles};
ghost use Rattle.its_word.specs.Console.{most_waiting};
ghost use Rattle.its_shared.specs.Parts.{console_at, holder_at};
ghost use Rattle.its_saved.specs.StateLine as state;
ghost use Rattle.its_saved.specs.Saving.{each, in_rows, console_lines, holder_line};
ghost use Rattle.its_saved.specs.Text.{line_of};
ghost use Rattle.its_saving.specs.Parts.{bytes_of};
ghost use Rattle.its_saving.specs.Writable.{Writable};
ghost use Rattle.its_saving.specs.Written.{Writes};

use super::line::write_line;
use arrayvec::ArrayVec;
use its_console::Console;
use its_io::{Failed, Sink};
use its_records::StateLine;
use its_word::{CONSOLES, ConsoleNumber, Slot};
use its_world::World;

/// How many bytes are in a line at most.
const LINE_BYTES: u32 = 32;

/// The bytes that wait at each console.
pub fn write_consoles<K: Sink>(w: &World, out: &mut K) -> Result<(), Failed>
    ensures { Writes K.written K.faults out.old out.new result (each (console_lines (console_at w.now.consoles.items)) consoles) }
{
    for c in 0..CONSOLES as u8 {
        write_console_at(w, ConsoleNumber::new(c), out)?;
    }
    Ok(())
}

/// The bytes that wait at a console of a world.
fn write_console_at<K: Sink>(w: &World, c: ConsoleNumber, out: &mut K) -> Result<(), Failed>
    ensures { Writes K.written K.faults out.old out.new result (console_lines (console_at w.now.consoles.items) c) }
{
    write_console(console_of(w, c), c, out)
}

/// A console of a world.
fn console_of(w: &World, c: ConsoleNumber) -> &Console
    ensures { result.now ≡ console_at w.now.consoles.items c }
{
    &w.consoles[c.index()]
}

/// The bytes that wait at a console: those that were typed, and those that were put out.
fn write_console<K: Sink>(console: &Console, c: ConsoleNumber, out: &mut K) -> Result<(), Failed>
    ensures { Writes K.written K.faults out.old out.new result (console_lines (λ k. console.now) c) }
{
    write_bytes(console, c, false, out)?;
    write_bytes(console, c, true, out)
}

/// The bytes that were typed at a console, or those that were put out, if `output` holds.
fn write_bytes<K: Sink>(
    console: &Console,
    c: ConsoleNumber,
    output: bool,
    out: &mut K,
) -> Result<(), Failed>
    ensures { Writes K.written K.faults out.old out.new result (in_rows (state.Bytes c output) 32 2 (bytes_of output console.now)) }
{
    for row in 0..rows_of_bytes(waiting(console, output)) {
        write_row(console, c, output, row, out)?;
    }
    Ok(())
}

/// How many lines so many bytes have.
fn rows_of_bytes(count: u32) -> u32
    ensures within { count ≤ result * 32 }
    ensures least { result * 32 < count + 32 }
{
    let whole = count / LINE_BYTES;
    if count % LINE_BYTES == 0 {
        whole
    } else {
        whole + 1
    }
}

/// How many bytes wait one way.
fn waiting(console: &Console, output: bool) -> u32
    ensures count { result ≡ length (bytes_of output console.now) }
    ensures most { result ≤ most_waiting }
{
    let counts = console.waiting();
    if output { counts.1 } else { counts.0 }
}

/// A line of the bytes that wait one way.
fn write_row<K: Sink>(
    console: &Console,
    c: ConsoleNumber,
    output: bool,
    row: u32,
    out: &mut K,
) -> Result<(), Failed>
    requires row { row * 32 < length (bytes_of output console.now) }
    ensures { Writes K.written K.faults out.old out.new result (state.Bytes c output (take 32 (drop (row * 32) (bytes_of output console.now))) ∷ []) }
{
    write_line(line_of(c, output, bytes_from(console, output, row)), out)
}

/// The line of bytes that wait one way.
fn line_of(c: ConsoleNumber, output: bool, bytes: ArrayVec<u8, 32>) -> StateLine
    ensures { result ≡ line_of (state.Bytes c output bytes.items) }
{
    if output {
        StateLine::Output { c, bytes }
    } else {
        StateLine::Input { c, bytes }
    }
}

/// The bytes of a line of those that wait one way.
fn bytes_from(console: &Console, output: bool, row: u32) -> ArrayVec<u8, 32>
    requires row { row * 32 < length (bytes_of output console.now) }
    ensures { result.items ≡ take 32 (drop (row * 32) (bytes_of output console.now)) }
{
    waiting(console, output);
    let mut bytes = ArrayVec::new();
    for k in 0..LINE_BYTES {
        match byte_at(console, output, row * LINE_BYTES + k) {
            Some(b) => bytes.push(b),
            None => return bytes,
        }
    }
    bytes
}

/// The k-th of the bytes that wait one way, from 0; None past the last.
fn byte_at(console: &Console, output: bool, k: u32) -> Option<u8>
    ensures { result ≡ slice_get (bytes_of output console.now) k }
{
    if output {
        console.output_at(k)
    } else {
        console.input_at(k)
    }
}

/// Who holds each console.
pub fn write_holders<K: Sink>(w: &World, out: &mut K) -> Result<(), Failed>
    requires writable { Writable w.now }
    ensures { Writes K.written K.faults out.old out.new result (each (λ c. holder_line c (holder_at w.now.holders c)) consoles) }
{
    for c in 0..CONSOLES as u8 {
        write_holder_at(w, ConsoleNumber::new(c), out)?;
    }
    Ok(())
}

/// Who holds a console of a world.
fn write_holder_at<K: Sink>(w: &World, c: ConsoleNumber, out: &mut K) -> Result<(), Failed>
    requires writable { Writable w.now }
    ensures { Writes K.written K.faults out.old out.new result (holder_line c (holder_at w.now.holders c)) }
{
    write_holder(c, holder_of(w, c), out)
}

/// Who holds a console of a world.
fn holder_of(w: &World, c: ConsoleNumber) -> Option<u8>
    ensures { result ≡ holder_at w.now.holders c }
{
    w.holders[c.index()]
}

/// Who holds a console, if there is one.
fn write_holder<K: Sink>(c: ConsoleNumber, holder: Option<u8>, out: &mut K) -> Result<(), Failed>
    requires slot { IfSome holder (λ s. s < slots) }
    ensures { Writes K.written K.faults out.old out.new result (holder_line c holder) }
{
    match holder {
        Some(s) => write_hold(c, Slot::new(s), out),
        None => Ok(()),
    }
}

/// The job of a slot holds a console.
fn write_hold<K: Sink>(c: ConsoleNumber, s: Slot, out: &mut K) -> Result<(), Failed>
    ensures { Writes K.written K.faults out.old out.new result (state.Hold c s ∷ []) }
{
    write_line(StateLine::Hold { c, s }, out)
}
