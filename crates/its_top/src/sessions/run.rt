//! A session: its lines, obeyed in turn until END or the end of the source.
ghost use Rattle.std.specs.Prelude.{◌≡◌, ◌≢◌, ◌≤◌, ◌-◌, ◌*◌, ◌^◌, ◌⊎◌, true, IfSome};
ghost use Rattle.its_io.specs.Bytes.{Rose, next_fault};
ghost use Rattle.its_plain.specs.Machine.{no_machine};
ghost use Rattle.its_stepped.specs.State.{no_state};
ghost use Rattle.its_world.specs.World.{state_of};
ghost use Rattle.its_monitor.specs.Kept.{Kept};
ghost use Rattle.its_reader.specs.Items.{found_fits};
ghost use Rattle.its_top.specs.Causes.{FlowCause};
ghost use Rattle.its_top.specs.Answer.{FoundStart, block_of};
ghost use Rattle.its_top.specs.Conclusion.{Session, Takes};
ghost use Rattle.its_top.specs.Outcomes.{RunSays};

use crate::commands::status::Status;
use crate::sessions::circle::{HIGHEST, follow};
use crate::sessions::flow::Flow;
use crate::sessions::progress::Progress;
use crate::sessions::room::Room;
use crate::sessions::writing::refuse;
use its_io::{Sink, Source};
use its_monitor::Monitor;
use its_reader::{Found, Items};
use its_word::{Slot, Word};

/// Runs a session: takes its items one by one, and writes what each line shows before it looks at
/// the next. It takes no memory. The monitor is as `Monitor::open` gives it.
#[tactic(auto, using(crate::proofs::PromiseLaws::session_says))]
pub fn session<S: Source, K: Sink>(m: &mut Monitor, src: &mut S, out: &mut K) -> Status
    requires machine { state_of m.old.world ≡ no_state no_machine }
    requires sound { Kept m.old.world }
    requires readable { S.readable src.old ≡ true }
    ensures ended { Session result (S.left src.old) (S.left src.new) (K.written out.old) (K.written out.new) }
    ensures says { IfSome (S.left src.old) (λ bytes. RunSays result bytes (S.left src.new) (K.written out.old) (K.written out.new)) }
    ensures read_fault { result ≡ Status.ReadFault → Rose (S.faults src.old) (S.faults src.new) }
    ensures write_fault { result ≡ Status.WriteFault → Rose (K.faults out.old) (K.faults out.new) }
    ensures read_later { S.faults src.old ≤ S.faults src.new }
    ensures write_later { K.faults out.old ≤ K.faults out.new }
    ensures read_once { result ≡ Status.ReadFault → S.faults src.new ≡ next_fault (S.faults src.old) }
    ensures write_once { result ≡ Status.WriteFault → K.faults out.new ≡ next_fault (K.faults out.old) }
    ensures read_unfailed { result ≢ Status.ReadFault → S.faults src.new ≡ S.faults src.old }
    ensures write_unfailed { result ≢ Status.WriteFault → K.faults out.new ≡ K.faults out.old }
    ensures sound { Kept m.new.world }
{
    run_items(m, src, out)
}

/// Takes the items of a session one by one, until it is over.
#[tactic(auto, using(crate::proofs::Groups::run_items_laws))]
fn run_items<S: Source, K: Sink>(m: &mut Monitor, src: &mut S, out: &mut K) -> Status
    requires machine { state_of m.old.world ≡ no_state no_machine }
    requires sound { Kept m.old.world }
    requires readable { S.readable src.old ≡ true }
    ensures ended { Session result (S.left src.old) (S.left src.new) (K.written out.old) (K.written out.new) }
    ensures read_once { result ≡ Status.ReadFault → S.faults src.new ≡ next_fault (S.faults src.old) }
    ensures write_once { result ≡ Status.WriteFault → K.faults out.new ≡ next_fault (K.faults out.old) }
    ensures read_unfailed { result ≢ Status.ReadFault → S.faults src.new ≡ S.faults src.old }
    ensures write_unfailed { result ≢ Status.WriteFault → K.faults out.new ≡ K.faults out.old }
    ensures read_later { S.faults src.old ≤ S.faults src.new }
    ensures write_later { K.faults out.old ≤ K.faults out.new }
    ensures sound { Kept m.new.world }
{
    let mut items = Items::new();
    let file = [Word::ZERO; 3];
    let mut p = Progress {
        number: 0,
        slot: Slot::FIRST,
        file,
    };
    let mut last = HIGHEST;
    let mut room = Room::new();
    loop {
        let Ok(found) = items.next(src) else {
            return Status::ReadFault;
        };
        p.number = items.lines.number;
        let flow = take(m, &mut p, &mut last, &found, &mut room, out);
        if !flow.goes_on() {
            return flow.status();
        }
    }
}

/// Takes what was found next of a session; `p` has the number of its line, and slot `last` had the
/// last turn of a RUN.
#[tactic(auto, using(crate::proofs::ConclusionLaws::takes_line, crate::proofs::ConclusionLaws::takes_bad, crate::proofs::ConclusionLaws::takes_beyond, crate::proofs::ConclusionLaws::takes_end))]
fn take<K: Sink>(
    m: &mut Monitor,
    p: &mut Progress,
    last: &mut Slot,
    found: &Found,
    room: &mut Room,
    out: &mut K,
) -> Flow
    requires sound { Kept m.old.world }
    requires fits { found_fits 2 found.now }
    requires start { FoundStart found.now (state_of m.old.world) }
    ensures takes { Takes result p.old.number (state_of m.old.world) (block_of p.old.slot p.old.file) last.old found.now (state_of m.new.world) (block_of p.new.slot p.new.file) last.new (K.written out.old) (K.written out.new) }
    ensures sound { Kept m.new.world }
    ensures number { p.new.number ≡ p.old.number }
    ensures cause { FlowCause result (K.faults out.old) (K.faults out.new) }
{
    match found {
        Found::Line(event) => follow(m, p, last, event, room, out),
        Found::Bad(reason) => refuse(out, p.number, *reason),
        Found::Beyond => Flow::TooLong,
        Found::End => Flow::Ended,
    }
}
