//! A slot that is put back into a wait list, though its call can go on: its tick asks the list
//! alone.

ghost use Rattle.std.specs.Prelude.{◌≡◌, ◌<◌, true, IsTrue, IfOk, length};
ghost use Rattle.its_links.specs.Lists.{list_at, count};
ghost use Rattle.its_monitor.specs.Kept.{Kept};
ghost use Rattle.its_world.specs.World.{call_in};
ghost use Rattle.its_tick.specs.Ticks.{OnWaitList, is_waiting};

use its_in_call::View;
use its_links::Links;
use its_monitor::Monitor;
use its_records::{Pace, Refusal};
use its_word::{ConsoleNumber, Slot, Word};
use its_world::World;
use std::process::Abort;
use std::test::Fail;

/// A job that opens its console for input and takes a byte: places and words.
const IMAGE: [(u32, u64); 8] = [
    (0o1000, 0o43000001020),
    (0o1001, 0o45700000000),
    (0o1002, 0o40040000003),
    (0o1020, 0o400000000000),
    (0o1021, 0o576045560000),
    (0o1022, 0o1000000001),
    (0o1023, 0o400000001050),
    (0o1050, 0o646471000000),
];

/// The list of those that wait for input of console 0.
const INPUT: u32 = 2;

/// Makes the job at console 0, and starts it.
fn started(rt: &impl Abort, m: &mut Monitor) -> Result<Slot, Refusal>
    requires kept { Kept m.old.world }
    ensures kept { Kept m.new.world }
{
    let slot = m.load_job(Word::new(7), Word::new(7), Some(ConsoleNumber::new(0)))?;
    for (a, word) in IMAGE {
        assert!(rt; a <= 0o777777);
        m.load_word(slot, a, Word::new(word))?;
    }
    m.go(slot, 0o1000)?;
    Ok(slot)
}

/// The letter of the last of n ticks.
fn last_of(m: &mut Monitor, slot: Slot, n: u32) -> Pace
    requires kept { Kept m.old.world }
    ensures { Kept m.new.world }
{
    let mut pace = Pace::Off;
    for _k in 0..n {
        pace = m.tick(slot);
    }
    pace
}

/// Puts a slot on the list of those that wait for input of console 0, wherever it was.
#[tactic(auto, using(crate::proofs::MisfiledLaws::at_end))]
fn put_in(wait_lists: &mut Links, slot: Slot)
    requires node { slot < wait_lists.old.nodes }
    requires head { 2 < length wait_lists.old.lists }
    ensures stands { 0 < count slot (list_at wait_lists.new.lists 2) }
    ensures nodes { wait_lists.new.nodes ≡ wait_lists.old.nodes }
    ensures heads { length wait_lists.new.lists ≡ length wait_lists.old.lists }
{
    let node = u32::from(slot.number());
    if wait_lists.linked(node) {
        wait_lists.unlink(node);
    }
    wait_lists.push_back(INPUT, node);
}

/// Whether the call of a slot was found not ready.
fn waits(w: &World, slot: Slot) -> bool
    ensures { IsTrue result → is_waiting (call_in w.now slot) ≡ true }
{
    matches!(w.frame(slot), View::Waiting { .. })
}

/// Puts a slot back into the list of those that wait for input of console 0; whether its call was
/// found not ready.
#[tactic(auto, using(crate::proofs::MisfiledLaws::on_wait_list))]
fn put_back(w: &mut World, slot: Slot) -> bool
    ensures { IsTrue result → OnWaitList w.new slot }
{
    put_in(&mut w.wait_lists, slot);
    waits(w, slot)
}

#[test]
fn a_slot_on_a_wrong_list(rt: HostRuntime) -> Result<(), Fail> {
    let mut m = Monitor::open(rt.alloc())?;
    let slot = started(&rt, &mut m)?;
    assert_eq!(rt; last_of(&mut m, slot, 11), Pace::Wait);
    assert!(rt; m.type_in(ConsoleNumber::new(0), 0o141));
    assert!(rt; put_back(&mut m.world, slot));
    assert_eq!(rt; m.tick(slot), Pace::Wait);
    assert_eq!(rt; m.world.consoles[0].waiting(), (1, 0));
    assert!(rt; waits(&m.world, slot));
    Ok(())
}
