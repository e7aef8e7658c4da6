//! The text of a source.
ghost use Rattle.std.specs.Prelude.{◌≡◌, ◌≤◌, ◌+◌, ◌-◌, ◌^◌, ◌∷◌, ◌++◌, [], true, length, replicate, ◌≢◌, Err, OnOk};
ghost use Rattle.its_io.specs.Bytes.{next_fault};
ghost use Rattle.its_asm_command.specs.Text.{Gathered, read_whole};

use its_io::Source;
use its_reader::{Lines, Next};

/// The placeholder of a line of more than 255 bytes, the rest of which is not looked at.
const LONG: [u8; 256] = [b' '; 256];

/// Why there is no text.
#[derive(Clone, Copy, Debug, PartialEq, Eq)]
pub enum Unread {
    /// The source failed.
    Failed,
    /// A line past the most that a text may have begins.
    TooLong,
    /// Memory was refused.
    NoMemory,
}

/// Reads a text to its end, or to a line of more than 255 bytes: what is then kept is assembled as
/// the text is. If memory is refused, the text is still read on, because it may have too many
/// lines.
#[tactic(auto, using(crate::proofs::Groups::read_text_laws))]
pub fn read_text<S: Source>(text: &mut Vec<u8>, src: &mut S) -> Result<(), Unread>
    requires empty { text.old.items ≡ [] }
    requires readable { S.readable src.old ≡ true }
    ensures gathered { Gathered result text.new.items (S.left src.old) (S.left src.new) }
    ensures few { OnOk result (length text.new.items ≤ 2 ^ 28) }
    ensures unfailed { result ≢ Err Unread.Failed → S.faults src.new ≡ S.faults src.old }
    ensures failed { result ≡ Err Unread.Failed → S.faults src.new ≡ next_fault (S.faults src.old) }
{
    let mut lines = Lines::new();
    let mut kept = true;
    loop {
        match lines.next(src) {
            Ok(Next::Line) => kept = keep_line(kept, text, &lines.line),
            Ok(Next::Long) => return read_whole(keep_long(kept, text)),
            Ok(Next::Beyond) => return Err(Unread::TooLong),
            Ok(Next::End) => return read_whole(kept),
            Err(_) => return Err(Unread::Failed),
        }
    }
}

/// The result at the end of a text, by whether all of it is kept.
fn read_whole(kept: bool) -> Result<(), Unread>
    ensures { result ≡ read_whole kept }
{
    if kept { Ok(()) } else { Err(Unread::NoMemory) }
}

/// Adds a line and its LF, if all before it is kept; whether it is also kept.
fn keep_line(kept: bool, text: &mut Vec<u8>, line: &[u8]) -> bool
    ensures before { result ≡ true → kept ≡ true }
    ensures kept { result ≡ true → text.new.items ≡ text.old.items ++ (line.now ++ 10 ∷ []) }
{
    if !kept {
        return false;
    }
    if text.extend_from_slice(line).is_err() {
        return false;
    }
    if text.push(b'\n').is_err() {
        return false;
    }
    true
}

/// Adds 256 blanks for a line of more than 255 bytes, if all before it is kept; whether they are
/// also kept.
fn keep_long(kept: bool, text: &mut Vec<u8>) -> bool
    ensures before { result ≡ true → kept ≡ true }
    ensures kept { result ≡ true → text.new.items ≡ text.old.items ++ replicate 256 32 }
{
    if !kept {
        return false;
    }
    if text.extend_from_slice(&LONG).is_err() {
        return false;
    }
    true
}
