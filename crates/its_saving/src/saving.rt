//! All lines that a world is saved in.
ghost use Rattle.std.specs.Prelude.{◌≡◌, ◌==◌, ◌∷◌, [], OnOk, OnErr, ℕ, List};
ghost use Rattle.std.specs.Io.KnownBytes.{Appends};
ghost use Rattle.its_io.specs.Bytes.{HasCause, Wrote};
ghost use Rattle.its_plain.specs.Transcript.Turns.{highest};
ghost use Rattle.its_world.specs.World.{state_of};
ghost use Rattle.its_monitor.specs.Kept.{Kept};
ghost use Rattle.its_monitor.specs.Settled.{IsSettled};
ghost use Rattle.its_saved.specs.StateLine as state;
ghost use Rattle.its_saved.specs.Saving.{saved};
ghost use Rattle.its_saved.specs.Text.{saved_lines, state_text, turn_lines};
ghost use Rattle.its_saving.specs.Parts.{channels_part, files_part};
ghost use Rattle.its_saving.specs.Writable.{Writable};
ghost use Rattle.its_saving.specs.Written.{Puts, Writes};

use super::channels::write_channels;
use super::consoles::{write_consoles, write_holders};
use super::files::write_files;
use super::jobs::{write_alarms, write_jobs, write_superiors};
use super::line::write_line;
use super::links::write_links;
use its_io::{Failed, Sink};
use its_records::StateLine;
use its_word::Slot;
use its_world::World;

/// Writes all lines of a world, from SYSTEM to READY. Slot `last` had the last turn of RUN, and the
/// highest slot counts as none.
pub fn write_system<K: Sink>(w: &World, last: Slot, out: &mut K) -> Result<(), Failed>
    requires kept { Kept w.now }
    requires settled { IsSettled (state_of w.now) }
    ensures all { OnOk result (Appends (K.written out.old) (K.written out.new) (state_text (saved_lines (state_of w.now).raw last))) }
    ensures begun { OnErr result ((wrote : List ℕ) × Wrote (K.written out.old) (K.written out.new) wrote (state_text (saved_lines (state_of w.now).raw last))) }
    ensures cause { HasCause (K.faults out.old) (K.faults out.new) result }
{
    write_to_ready(w, last, out)
}

/// As `write_system`, of a world whose numbers are in the ranges of their lines.
fn write_to_ready<K: Sink>(w: &World, last: Slot, out: &mut K) -> Result<(), Failed>
    requires writable { Writable w.now }
    ensures { Puts K.written K.faults out.old out.new result (state_text (saved_lines (state_of w.now).raw last)) }
{
    write_world(w, out)?;
    write_turn(last, out)?;
    write_line(StateLine::Ready, out)
}

/// All lines of a world but its turn and READY.
fn write_world<K: Sink>(w: &World, out: &mut K) -> Result<(), Failed>
    requires writable { Writable w.now }
    ensures { Writes K.written K.faults out.old out.new result (saved (state_of w.now).raw) }
{
    w.jobs.tree();
    write_head(w, out)?;
    write_files_on(w, out)
}

/// The version and the clock.
fn write_head<K: Sink>(w: &World, out: &mut K) -> Result<(), Failed>
    requires writable { Writable w.now }
    ensures { Writes K.written K.faults out.old out.new result (state.System w.now.version ∷ state.Clock w.now.clock ∷ []) }
{
    write_line(StateLine::System { v: w.version }, out)?;
    write_line(StateLine::Clock { n: w.clock }, out)
}

/// The files, the jobs, and all lines after them.
fn write_files_on<K: Sink>(w: &World, out: &mut K) -> Result<(), Failed>
    requires writable { Writable w.now }
    ensures { Writes K.written K.faults out.old out.new result (files_part w.now) }
{
    write_files(&w.files, out)?;
    write_jobs(w, out)?;
    write_superiors(w, out)?;
    write_alarms(w, out)?;
    write_channels_on(w, out)
}

/// The channels, the links and the consoles.
fn write_channels_on<K: Sink>(w: &World, out: &mut K) -> Result<(), Failed>
    requires writable { Writable w.now }
    ensures { Writes K.written K.faults out.old out.new result (channels_part w.now) }
{
    write_channels(w, out)?;
    write_links(&w.pipes, out)?;
    write_consoles(w, out)?;
    write_holders(w, out)
}

/// The slot of the last turn, if RUN has given one.
fn write_turn<K: Sink>(last: Slot, out: &mut K) -> Result<(), Failed>
    ensures { Puts K.written K.faults out.old out.new result (state_text (turn_lines last)) }
{
    if is_none(last) {
        return Ok(());
    }
    write_line(StateLine::Turn { s: last }, out)
}

/// Whether a slot is the highest, which counts as none.
fn is_none(last: Slot) -> bool
    ensures { result ≡ (last == highest) }
{
    last == Slot::LAST
}
