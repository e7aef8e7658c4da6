//! The command `save`: a session is obeyed in silence, and the system that it has led to is written
//! as lines.
ghost use Rattle.std.specs.Prelude.{◌≡◌, ◌≢◌, true};
ghost use Rattle.its_io.specs.Bytes.{next_fault};
ghost use Rattle.its_plain.specs.Machine.{no_machine};
ghost use Rattle.its_stepped.specs.State.{no_state};
ghost use Rattle.its_world.specs.World.{plain_of, state_of};
ghost use Rattle.its_monitor.specs.Kept.{Kept};
ghost use Rattle.its_top.specs.Checking.{WroteText};
ghost use Rattle.its_top.specs.Saving.{Savable, Saves, system_text};

use crate::commands::status::Status;
use crate::sessions::flow::Flow;
use crate::sessions::silent::{Ending, obey_all};
use crate::sessions::writing::refuse;
use its_io::{Sink, Source};
use its_monitor::Monitor;
use its_saving::{can_be_saved, write_system};
use its_word::Slot;

/// Obeys the session that the source gives, and writes the lines of the system that it has led to;
/// if a line is refused, its `?` line alone. Nothing is written before the end of the session is
/// known. It takes no memory. The monitor is as `Monitor::open` gives it.
#[tactic(auto, using(crate::proofs::SavingLaws::saves_over, crate::proofs::SavingLaws::saves_refused, crate::proofs::SavingLaws::saves_too_long, crate::proofs::SavingLaws::saves_broken))]
pub fn save_session<S: Source, K: Sink>(m: &mut Monitor, src: &mut S, out: &mut K) -> Status
    requires machine { state_of m.old.world ≡ no_state no_machine }
    requires sound { Kept m.old.world }
    requires readable { S.readable src.old ≡ true }
    ensures saves { Saves result (S.left src.old) (S.left src.new) (K.written out.old) (K.written out.new) }
    ensures read_once { result ≡ Status.ReadFault → S.faults src.new ≡ next_fault (S.faults src.old) }
    ensures write_once { result ≡ Status.WriteFault → K.faults out.new ≡ next_fault (K.faults out.old) }
    ensures read_unfailed { result ≢ Status.ReadFault → S.faults src.new ≡ S.faults src.old }
    ensures write_unfailed { result ≢ Status.WriteFault → K.faults out.new ≡ K.faults out.old }
    ensures sound { Kept m.new.world }
{
    let Ok((ending, last)) = obey_all(m, src) else {
        return Status::ReadFault;
    };
    match ending {
        Ending::Over => write_saved(m, last, out),
        Ending::Refused(number, reason) => refuse(out, number, reason).status(),
        Ending::TooLong => Flow::TooLong.status(),
    }
}

/// Writes the lines of a monitor, whose jobs are unwound first. Slot `last` had the last turn.
fn write_saved<K: Sink>(m: &mut Monitor, last: Slot, out: &mut K) -> Status
    requires sound { Kept m.old.world }
    ensures savable { Savable (plain_of m.old.world) }
    ensures wrote { WroteText result Status.Done (system_text (plain_of m.old.world) last) (K.written out.old) (K.written out.new) }
    ensures once { result ≡ Status.WriteFault → K.faults out.new ≡ next_fault (K.faults out.old) }
    ensures unfailed { result ≢ Status.WriteFault → K.faults out.new ≡ K.faults out.old }
    ensures sound { Kept m.new.world }
{
    m.settle();
    can_be_saved(&m.world);
    match write_system(&m.world, last, out) {
        Ok(()) => Status::Done,
        Err(_) => Status::WriteFault,
    }
}
