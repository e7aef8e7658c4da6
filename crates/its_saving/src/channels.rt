//! The lines of channels; after a draft its words, 16 in a line.
ghost use Rattle.std.specs.Prelude.{◌≡◌, ◌<◌, ◌*◌, ◌^◌, ◌∷◌, [], true, is_some, length, take, drop};
ghost use Rattle.its_word.specs.Limits.{slots};
ghost use Rattle.its_files.specs.Files.{entry_at, names_at, words_at};
ghost use Rattle.its_pipes.specs.Pipes.{piped};
ghost use Rattle.its_plain.specs.Machine.{Linked};
ghost use Rattle.its_shared.specs.Parts.{chan_of};
ghost use Rattle.its_world.specs.World.{state_of};
ghost use Rattle.its_saved.specs.StateLine as state;
ghost use Rattle.its_saved.specs.Saving.{channel_lines, each, end_names, in_rows};
ghost use Rattle.its_saved.specs.Text.{line_of};
ghost use Rattle.its_saving.specs.Parts.{channel_part};
ghost use Rattle.its_saving.specs.Writable.{Stands, Writable};
ghost use Rattle.its_saving.specs.Written.{Writes};

use super::files::{rows_of, words_from};
use super::line::write_line;
use its_files::Files;
use its_io::{Failed, Sink};
use its_pipes::Pipes;
use its_records::{CHANNELS, Channel, StateLine};
use its_word::{SLOTS, Slot, Word};
use its_world::World;

/// Each channel of each job, by slot.
pub fn write_channels<K: Sink>(w: &World, out: &mut K) -> Result<(), Failed>
    requires writable { Writable w.now }
    ensures { Writes K.written K.faults out.old out.new result (each (λ k. each (channel_part w.now k) 16) slots) }
{
    for s in 0..SLOTS as u8 {
        write_channels_of(w, Slot::new(s), out)?;
    }
    Ok(())
}

/// Each channel of a slot's job, if it has one.
fn write_channels_of<K: Sink>(w: &World, s: Slot, out: &mut K) -> Result<(), Failed>
    requires writable { Writable w.now }
    ensures { Writes K.written K.faults out.old out.new result (each (channel_part w.now s) 16) }
{
    for n in 0..CHANNELS {
        write_channel_at(w, s, n, out)?;
    }
    Ok(())
}

/// A channel of a slot's job, if it is open.
fn write_channel_at<K: Sink>(w: &World, s: Slot, n: u8, out: &mut K) -> Result<(), Failed>
    requires writable { Writable w.now }
    requires channel { n < 16 }
    ensures { Writes K.written K.faults out.old out.new result (channel_part w.now s n) }
{
    write_channel(w, s, n, w.channel(s, n), out)
}

/// A channel, if it is open.
fn write_channel<K: Sink>(
    w: &World,
    s: Slot,
    n: u8,
    channel: Channel,
    out: &mut K,
) -> Result<(), Failed>
    requires stands { Stands w.now.files channel }
    ensures { Writes K.written K.faults out.old out.new result (channel_lines (state_of w.now).raw s n (chan_of w.now.files channel)) }
{
    match channel {
        Channel::Closed => Ok(()),
        Channel::TtyIn => write_tty(s, n, false, out),
        Channel::TtyOut => write_tty(s, n, true, out),
        Channel::Reading { file, at } => write_disk(&w.files, s, n, file, at, out),
        Channel::Writing { draft } => write_draft(&w.files, s, n, draft, out),
        Channel::Usr { slot, write, at } => write_usr(s, n, slot, write, at, out),
        Channel::Link { link, write } => write_join(w, s, n, link, write, out),
    }
}

/// A channel on a console.
fn write_tty<K: Sink>(s: Slot, n: u8, write: bool, out: &mut K) -> Result<(), Failed>
    ensures { Writes K.written K.faults out.old out.new result (state.Tty s n write ∷ []) }
{
    write_line(StateLine::Tty { s, n, write }, out)
}

/// A channel that reads a file, from a word on.
fn write_disk<K: Sink>(
    files: &Files,
    s: Slot,
    n: u8,
    file: u32,
    at: u32,
    out: &mut K,
) -> Result<(), Failed>
    requires some { is_some (entry_at files.now file) ≡ true }
    ensures { Writes K.written K.faults out.old out.new result (state.Disk s n (names_at files.now file) at ∷ []) }
{
    write_line(disk_of(files, s, n, file, at), out)
}

/// The line of a channel that reads a file.
fn disk_of(files: &Files, s: Slot, n: u8, file: u32, at: u32) -> StateLine
    requires some { is_some (entry_at files.now file) ≡ true }
    ensures { result ≡ line_of (state.Disk s n (names_at files.now file) at) }
{
    let [d, x, y] = files.names(file);
    StateLine::Disk { s, n, d, x, y, at }
}

/// A channel on a slot below that of its job.
fn write_usr<K: Sink>(
    s: Slot,
    n: u8,
    slot: u8,
    write: bool,
    at: u32,
    out: &mut K,
) -> Result<(), Failed>
    requires inferior { slot < slots }
    ensures { Writes K.written K.faults out.old out.new result (state.Usr s n slot write at ∷ []) }
{
    write_line(usr_of(s, n, Slot::new(slot), write, at), out)
}

/// The line of a channel on a slot.
fn usr_of(s: Slot, n: u8, t: Slot, write: bool, at: u32) -> StateLine
    ensures { result ≡ line_of (state.Usr s n t write at) }
{
    StateLine::Usr { s, n, t, write, at }
}

/// A channel on a draft, and the words of the draft.
fn write_draft<K: Sink>(
    files: &Files,
    s: Slot,
    n: u8,
    draft: u32,
    out: &mut K,
) -> Result<(), Failed>
    requires some { is_some (entry_at files.now draft) ≡ true }
    ensures { Writes K.written K.faults out.old out.new result (state.Draft s n (names_at files.now draft) ∷ in_rows (state.Wrote s n) 16 (length (words_at files.now draft)) (words_at files.now draft)) }
{
    write_line(draft_of(files, s, n, draft), out)?;
    write_words(files, s, n, draft, out)
}

/// The line of a channel on a draft.
fn draft_of(files: &Files, s: Slot, n: u8, draft: u32) -> StateLine
    requires some { is_some (entry_at files.now draft) ≡ true }
    ensures { result ≡ line_of (state.Draft s n (names_at files.now draft)) }
{
    let [d, x, y] = files.names(draft);
    StateLine::Draft { s, n, d, x, y }
}

/// The words of the draft of a channel.
fn write_words<K: Sink>(
    files: &Files,
    s: Slot,
    n: u8,
    draft: u32,
    out: &mut K,
) -> Result<(), Failed>
    requires some { is_some (entry_at files.now draft) ≡ true }
    ensures { Writes K.written K.faults out.old out.new result (in_rows (state.Wrote s n) 16 (length (words_at files.now draft)) (words_at files.now draft)) }
{
    for row in 0..rows_of(files.length(draft)) {
        write_row(files, s, n, draft, row, out)?;
    }
    Ok(())
}

/// A line of the words of the draft of a channel.
fn write_row<K: Sink>(
    files: &Files,
    s: Slot,
    n: u8,
    draft: u32,
    row: u32,
    out: &mut K,
) -> Result<(), Failed>
    requires row { row * 16 < length (words_at files.now draft) }
    requires few { length (words_at files.now draft) < 2 ^ 32 }
    ensures { Writes K.written K.faults out.old out.new result (state.Wrote s n (take 16 (drop (row * 16) (words_at files.now draft))) ∷ []) }
{
    let words = words_from(files, draft, row * 16);
    write_line(StateLine::Wrote { s, n, words }, out)
}

/// A channel on an end of a link, with the names of the link.
fn write_join<K: Sink>(
    w: &World,
    s: Slot,
    n: u8,
    l: u8,
    write: bool,
    out: &mut K,
) -> Result<(), Failed>
    ensures { Writes K.written K.faults out.old out.new result (channel_lines (state_of w.now).raw s n (Linked l write)) }
{
    write_line(join_of(&w.pipes, s, n, l, write), out)
}

/// The line of a channel on an end of a link.
fn join_of(pipes: &Pipes, s: Slot, n: u8, l: u8, write: bool) -> StateLine
    ensures { result ≡ line_of (state.Join s n l write (end_names (piped pipes.now l)).0 (end_names (piped pipes.now l)).1) }
{
    let names = link_names(pipes, l);
    StateLine::Join {
        s,
        n,
        l,
        write,
        x: names.0,
        y: names.1,
    }
}

/// The names of a link; zeros if there is none of the number.
fn link_names(pipes: &Pipes, l: u8) -> (Word, Word)
    ensures { result ≡ end_names (piped pipes.now l) }
{
    match pipes.link(l) {
        Some(link) => (link.x, link.y),
        None => (Word::ZERO, Word::ZERO),
    }
}
