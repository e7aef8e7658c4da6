//! What a call sees of a console.
ghost use Rattle.std.specs.Prelude.{◌≡◌, ◌==◌, ◌||◌, not, length, unwrap_or, slice_get};
ghost use Rattle.its_word.specs.Console.{most_waiting};
ghost use Rattle.its_plain.specs.Call.Tty.{is_empty, is_other};
ghost use Rattle.its_world.specs.World.{console_at, holder_at};
ghost use Rattle.call_tty.specs.Waiting.{cannot_put, cannot_take};

use its_records::Job;
use its_word::{MOST_WAITING, Slot};
use its_world::World;

/// The number of a job's console. A channel on a console is opened only if its job has one.
pub(crate) fn console_of(job: &Job) -> u8
    ensures { result ≡ unwrap_or job.now.console 0 }
{
    job.console.unwrap_or(0)
}

/// The numbers of bytes that wait at a console, as input and as output.
fn waiting(w: &World, console: u8) -> (u32, u32)
    ensures input { result.0 ≡ length (console_at w.now.consoles.items console).input }
    ensures output { result.1 ≡ length (console_at w.now.consoles.items console).output }
{
    match w.consoles.get(usize::from(console)) {
        Some(c) => c.waiting(),
        None => (0, 0),
    }
}

/// How many bytes of input wait at a console.
pub(crate) fn typed(w: &World, console: u8) -> u32
    ensures { result ≡ length (console_at w.now.consoles.items console).input }
{
    waiting(w, console).0
}

/// Who holds a console.
pub(crate) fn holder(w: &World, console: u8) -> Option<u8>
    ensures { result ≡ holder_at w.now.holders console }
{
    match w.holders.get(usize::from(console)) {
        Some(holder) => *holder,
        None => None,
    }
}

/// Whether another job holds a console.
fn is_other(w: &World, slot: Slot, console: u8) -> bool
    ensures { result ≡ is_other slot (holder_at w.now.holders console) }
{
    match holder(w, console) {
        Some(h) => h != slot.number(),
        None => false,
    }
}

/// Whether a job can take no byte from a console.
#[inline(always)]
pub(crate) fn input_waits(w: &World, slot: Slot, console: u8) -> bool
    ensures { result ≡ cannot_take (console_at w.now.consoles.items console) slot (holder_at w.now.holders console) }
{
    typed(w, console) == 0 || is_other(w, slot, console)
}

/// Whether a job can put no byte to a console.
#[inline(always)]
pub(crate) fn output_waits(w: &World, slot: Slot, console: u8) -> bool
    ensures { result ≡ cannot_put (console_at w.now.consoles.items console) slot (holder_at w.now.holders console) }
{
    waiting(w, console).1 >= MOST_WAITING || is_other(w, slot, console)
}

/// Whether output of a console is not drained yet.
pub(crate) fn output_left(w: &World, console: u8) -> bool
    ensures { result ≡ not (is_empty (console_at w.now.consoles.items console).output) }
{
    waiting(w, console).1 != 0
}

/// The first byte of a console's input; 0 if there is none.
pub(crate) fn first_typed(w: &World, console: u8) -> u8
    ensures { result ≡ unwrap_or (slice_get (console_at w.now.consoles.items console).input 0) 0 }
{
    match w.consoles.get(usize::from(console)) {
        Some(c) => c.first().unwrap_or(0),
        None => 0,
    }
}
