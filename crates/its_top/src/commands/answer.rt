//! The answer to an event.
ghost use Rattle.std.specs.Prelude.{◌≡◌};
ghost use Rattle.its_session.specs.Fits.{EventFits};
ghost use Rattle.its_world.specs.World.{state_of};
ghost use Rattle.its_monitor.specs.Kept.{Kept};
ghost use Rattle.its_top.specs.Answer.{FindsStart, block_of, Answered};
ghost use Rattle.its_top.specs.Causes.{FlowCause};

use crate::sessions::flow::Flow;
use crate::sessions::performing::perform;
use crate::sessions::printing::print;
use crate::sessions::progress::Progress;
use crate::sessions::room::Room;
use its_io::Sink;
use its_monitor::Monitor;
use its_records::Event;

/// The answer to an event: what it does to the monitor and to the block, and what it shows.
#[tactic(auto, using(crate::proofs::AnswerLaws::answered_by))]
pub fn answer<K: Sink>(
    m: &mut Monitor,
    p: &mut Progress,
    event: &Event,
    room: &mut Room,
    out: &mut K,
) -> Flow
    requires sound { Kept m.old.world }
    requires fits { EventFits 2 event.now }
    requires start { FindsStart event.now (state_of m.old.world) }
    ensures answered { Answered result p.old.number (state_of m.old.world) (block_of p.old.slot p.old.file) event.now (state_of m.new.world) (block_of p.new.slot p.new.file) (K.written out.old) (K.written out.new) }
    ensures sound { Kept m.new.world }
    ensures kept { p.new.number ≡ p.old.number }
    ensures cause { FlowCause result (K.faults out.old) (K.faults out.new) }
{
    let number = p.number;
    let performed = perform(m, p, event, &mut room.parts);
    print(m, number, &performed, &mut room.line, out)
}
