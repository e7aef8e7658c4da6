//! A session obeyed line by line, of which nothing is written.
ghost use Rattle.std.specs.Prelude.{◌≡◌, ◌≤◌, true};
ghost use Rattle.its_io.specs.Bytes.{HasCause};
ghost use Rattle.its_plain.specs.Machine.{no_machine};
ghost use Rattle.its_stepped.specs.State.{no_state};
ghost use Rattle.its_world.specs.World.{state_of};
ghost use Rattle.its_monitor.specs.Kept.{Kept};
ghost use Rattle.its_reader.specs.Items.{found_fits};
ghost use Rattle.its_session.specs.Fits.{EventFits};
ghost use Rattle.its_top.specs.Answer.{FindsStart, FoundStart, block_of};
ghost use Rattle.its_top.specs.Silent.{Leads, LedTo, TurnsMade};

use crate::sessions::circle::{HIGHEST, turn_kept};
use crate::sessions::performing::perform;
use crate::sessions::progress::Progress;
use crate::sessions::room::{Parts, Runs};
use crate::sessions::shown::Over;
use crate::sessions::ticking::paces_of;
use its_io::{Failed, Source};
use its_monitor::Monitor;
use its_reader::{Found, Items};
use its_records::{Event, Reason};
use its_robin::turn_after;
use its_word::{Slot, Word};

/// How a session ended: at END or at the end of its lines, with a refused line of this number, or
/// as a line past the most that it may have began.
#[derive(Clone, Copy, Debug, PartialEq, Eq)]
pub enum Ending {
    Over,
    Refused(u32, Reason),
    TooLong,
}

/// Obeys a session to its end: how it ended, and the slot of the last turn of RUN, which is the
/// highest one before the first. It takes no memory, and writes nothing.
#[tactic(auto, using(crate::proofs::Groups::obey_all_laws))]
pub fn obey_all<S: Source>(m: &mut Monitor, src: &mut S) -> Result<(Ending, Slot), Failed>
    requires machine { state_of m.old.world ≡ no_state no_machine }
    requires sound { Kept m.old.world }
    requires readable { S.readable src.old ≡ true }
    ensures led { LedTo result (S.left src.old) (S.left src.new) m.new.world }
    ensures cause { HasCause (S.faults src.old) (S.faults src.new) result }
    ensures sound { Kept m.new.world }
{
    let mut items = Items::new();
    let file = [Word::ZERO; 3];
    let mut p = Progress {
        number: 0,
        slot: Slot::FIRST,
        file,
    };
    let mut last = HIGHEST;
    let mut parts = Parts::new();
    loop {
        let Ok(found) = items.next(src) else {
            return Err(Failed);
        };
        p.number = items.lines.number;
        match obey(m, &mut p, &mut last, &found, &mut parts) {
            None => {}
            Some(ending) => return Ok((ending, last)),
        }
    }
}

/// Obeys what was found next of a session. None if the session goes on.
#[tactic(auto, using(crate::proofs::SilentLaws::bad_leads, crate::proofs::SilentLaws::beyond_leads, crate::proofs::SilentLaws::end_leads))]
fn obey(
    m: &mut Monitor,
    p: &mut Progress,
    last: &mut Slot,
    found: &Found,
    parts: &mut Parts,
) -> Option<Ending>
    requires sound { Kept m.old.world }
    requires fits { found_fits 2 found.now }
    requires start { FoundStart found.now (state_of m.old.world) }
    ensures leads { Leads result p.old.number (state_of m.old.world) (block_of p.old.slot p.old.file) last.old found.now (state_of m.new.world) (block_of p.new.slot p.new.file) last.new }
    ensures sound { Kept m.new.world }
    ensures number { p.new.number ≡ p.old.number }
{
    match found {
        Found::Line(event) => obey_line(m, p, last, event, parts),
        Found::Bad(reason) => Some(Ending::Refused(p.number, *reason)),
        Found::Beyond => Some(Ending::TooLong),
        Found::End => Some(Ending::Over),
    }
}

/// Obeys a line, with the turns that it asks for.
#[tactic(auto, using(crate::proofs::SilentLaws::run_leads, crate::proofs::CircleLaws::asks_none))]
fn obey_line(
    m: &mut Monitor,
    p: &mut Progress,
    last: &mut Slot,
    event: &Event,
    parts: &mut Parts,
) -> Option<Ending>
    requires sound { Kept m.old.world }
    requires fits { EventFits 2 event.now }
    requires start { FindsStart event.now (state_of m.old.world) }
    ensures leads { Leads result p.old.number (state_of m.old.world) (block_of p.old.slot p.old.file) last.old (Found.Line event.now) (state_of m.new.world) (block_of p.new.slot p.new.file) last.new }
    ensures sound { Kept m.new.world }
    ensures number { p.new.number ≡ p.old.number }
{
    if let Event::Run { n, q } = event {
        make_turns(m, last, *n, *q, &mut parts.runs);
        return None;
    }
    *last = turn_kept(*last, event);
    let number = p.number;
    match perform(m, p, event, parts) {
        Ok(_) => None,
        Err(Over::Ended) => Some(Ending::Over),
        Err(Over::Refused(e)) => Some(Ending::Refused(number, e.reason())),
    }
}

/// Up to n turns of q ticks. They end early if no job runs.
#[tactic(auto, using(crate::proofs::Groups::make_turns_laws))]
fn make_turns(m: &mut Monitor, last: &mut Slot, n: u32, q: u32, runs: &mut Runs)
    requires sound { Kept m.old.world }
    requires few { q ≤ 512 }
    ensures turns { TurnsMade (state_of m.old.world) last.old n q (state_of m.new.world) last.new }
    ensures sound { Kept m.new.world }
{
    for _k in 0..n {
        let Some(slot) = turn_after(m, *last) else {
            return;
        };
        *last = slot;
        runs.clear();
        paces_of(m, slot, q, runs);
    }
}
