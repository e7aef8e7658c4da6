//! Whom a job argument names.
ghost use Rattle.std.specs.Prelude.{◌≡◌};
ghost use Rattle.its_plain.specs.Call.Basic.{is_oneself, is_superior};
ghost use Rattle.its_shared.specs.Called.{channel_under};
ghost use Rattle.call_basic.specs.Seen.{outline_at};

use its_records::{Channel, Job};
use its_word::{Slot, Word};
use its_world::World;

/// Whether an argument names the caller itself.
pub fn is_oneself(party: Word) -> bool
    ensures { result ≡ is_oneself party }
{
    party.value() == 0o777777 || party.value() == 0o777777777777
}

/// The channel of a number; above 17 (octal) there is none that is open.
pub fn channel(job: &Job, number: Word) -> Channel
    ensures { result ≡ channel_under job.now number }
{
    if number.value() < 16 {
        job.channels[number.value() as usize]
    } else {
        Channel::Closed
    }
}

/// Whether a job is the superior of the job of a slot.
pub fn is_superior(w: &World, slot: Slot, inferior: u8) -> bool
    ensures { result ≡ is_superior slot (outline_at w.now inferior) }
{
    match w.jobs.numbered(inferior) {
        Some(_) => w.jobs.superior(Slot::new(inferior)) == Some(slot),
        None => false,
    }
}
