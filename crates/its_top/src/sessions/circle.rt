//! RUN: turns in a circle of slots, after its line.
ghost use Rattle.std.specs.Prelude.{◌≡◌, ◌≤◌};
ghost use Rattle.its_session.specs.Fits.{EventFits};
ghost use Rattle.its_plain.specs.Transcript.Turns.{turn_kept};
ghost use Rattle.its_world.specs.World.{state_of};
ghost use Rattle.its_monitor.specs.Kept.{Kept};
ghost use Rattle.its_top.specs.Causes.{FlowCause};
ghost use Rattle.its_top.specs.Answer.{Circled, FindsStart, Follows, block_of};

use crate::commands::answer::answer;
use crate::sessions::flow::Flow;
use crate::sessions::progress::Progress;
use crate::sessions::room::Room;
use crate::sessions::ticking::tick_line;
use its_io::Sink;
use its_monitor::Monitor;
use its_records::{Event, StateLine};
use its_robin::turn_after;
use its_word::Slot;

/// The highest slot: before the first turn of a session it is the last one.
pub const HIGHEST: Slot = Slot::LAST;

/// A line, and after it the turns that it asks for, which only RUN does. Slot `last` had the last
/// turn before it, and has the slot of the last turn then.
#[tactic(auto, using(crate::proofs::CircleLaws::line_follows, crate::proofs::CircleLaws::run_follows))]
pub fn follow<K: Sink>(
    m: &mut Monitor,
    p: &mut Progress,
    last: &mut Slot,
    event: &Event,
    room: &mut Room,
    out: &mut K,
) -> Flow
    requires sound { Kept m.old.world }
    requires fits { EventFits 2 event.now }
    requires start { FindsStart event.now (state_of m.old.world) }
    ensures follows { Follows result p.old.number (state_of m.old.world) (block_of p.old.slot p.old.file) last.old event.now (state_of m.new.world) (block_of p.new.slot p.new.file) last.new (K.written out.old) (K.written out.new) }
    ensures sound { Kept m.new.world }
    ensures number { p.new.number ≡ p.old.number }
    ensures cause { FlowCause result (K.faults out.old) (K.faults out.new) }
{
    match event {
        Event::Run { n, q } => circle(m, last, *n, *q, room, out),
        _ => {
            *last = turn_kept(*last, event);
            answer(m, p, event, room, out)
        }
    }
}

/// The slot that counts as that of the last turn after a line: TURN names it.
pub fn turn_kept(last: Slot, event: &Event) -> Slot
    ensures { result ≡ turn_kept last event.now }
{
    match event {
        Event::Restore {
            line: StateLine::Turn { s },
        } => *s,
        _ => last,
    }
}

/// Up to n turns of q ticks: each is of the slot whose turn it is, and writes its `T` line. They
/// end early if no job runs.
#[tactic(auto, using(crate::proofs::Groups::circle_laws))]
fn circle<K: Sink>(
    m: &mut Monitor,
    last: &mut Slot,
    n: u32,
    q: u32,
    room: &mut Room,
    out: &mut K,
) -> Flow
    requires sound { Kept m.old.world }
    requires few { q ≤ 512 }
    ensures circled { Circled result (state_of m.old.world) last.old n q (state_of m.new.world) last.new (K.written out.old) (K.written out.new) }
    ensures sound { Kept m.new.world }
    ensures cause { FlowCause result (K.faults out.old) (K.faults out.new) }
{
    for _k in 0..n {
        let Some(slot) = turn_after(m, *last) else {
            return Flow::On;
        };
        *last = slot;
        let flow = tick_line(m, slot, q, room, out);
        if !flow.goes_on() {
            return flow;
        }
    }
    Flow::On
}
