//! The caller whose calls are tried: the job of slot 1, in a world of three jobs.
ghost use Rattle.std.specs.Prelude.{◌≡◌, true, None, IfSome, OnOk, is_some};
ghost use Rattle.its_core.specs.Cores.{reserved_at};
ghost use Rattle.its_jobs.specs.Table.{job_at};

use its_core::Core;
use its_frame::Exit;
use its_jobs::Jobs;
use its_records::Channel;
use its_word::{BYTE_HALF, SLOTS, Slot, Word};
use its_world::World;
use std::alloc::Global;
use std::process::Abort;
use std::test::Fail;

/// Five characters of 7 bits, 101 to 105, from the left.
const CHARACTERS: u64 = 0o406050_342212;

/// One character of 7 bits, 132, at the left.
const CHARACTER: u64 = 0o550000_000000;

/// Makes a page of a slot.
#[tactic(auto, unfolding(its_core::specs::Cores::core_at))]
pub(super) fn make_page(rt: &impl Abort, core: &mut Core, slot: Slot, page: u8) -> Result<(), Fail>
    requires { reserved_at core.old slot ≡ None }
    ensures { OnOk result (reserved_at core.new slot ≡ None) }
{
    assert!(rt; core.page(slot, page).is_none());
    core.reserve(slot);
    core.clear_quarter(slot, 0);
    core.clear_quarter(slot, 1);
    core.clear_quarter(slot, 2);
    core.clear_quarter(slot, 3);
    core.map(slot, slot, page)?;
    Ok(())
}

/// Cores of which that of slot 1 has pages 0 and 2, of which 2 is read only. There are characters
/// at 0, 310, 1001 and 4000, and a stack at 500 with what a delivery pushed.
fn cores(rt: &impl Abort, alloc: Global) -> Result<Core, Fail> {
    let mut core = Core::open(alloc)?;
    let slot = Slot::new(1);
    make_page(rt, &mut core, slot, 0)?;
    make_page(rt, &mut core, slot, 2)?;
    for (a, v) in [
        (0, CHARACTER),
        (0o310, CHARACTERS),
        (0o1001, CHARACTERS),
        (0o4000, CHARACTERS),
        (0o17, 0o777700_000505),
        (0o503, 0o1004),
        (0o504, 0o2000),
        (0o505, 0o410000_000202),
    ] {
        assert!(rt; a <= 0o777777);
        assert_eq!(rt; core.put(slot, a, Word::new(v)), Ok(()));
    }
    assert!(rt; core.page(slot, 2).is_some());
    core.protect(slot, 2, false);
    Ok(core)
}

/// The slot of a superior, which has a job; None if there is none.
pub(super) fn standing(rt: &impl Abort, jobs: &Jobs, superior: Option<u8>) -> Option<Slot>
    ensures { IfSome result (λ s. is_some (job_at jobs.now s) ≡ true) }
{
    let number = superior?;
    assert!(rt; usize::from(number) < SLOTS);
    let slot = Slot::new(number);
    assert!(rt; jobs.job(slot).is_some());
    Some(slot)
}

/// Jobs of slots 0, 1 and 2, each the superior of the next, at console 3. Of slot 1 channel 1 is
/// the console's input, channel 2 its output, and channels 3 and 4 are on slot 2, the first of them
/// with leave to write.
fn jobs(rt: &impl Abort, jobs: &mut Jobs) -> Result<(), Fail>
    ensures { jobs.new.limit ≡ jobs.old.limit }
{
    for (slot, superior) in [None, Some(0), Some(1)].into_iter().enumerate() {
        let superior = standing(rt, jobs, superior);
        let made = jobs.create(Word::new(7), Word::new(slot as u64), superior, Some(3))?;
        assert_eq!(rt; made.number(), slot as u8);
    }
    if let Some(job) = jobs.job_mut(Slot::new(1)) {
        job.pc = 0o200;
        job.flags = BYTE_HALF + 0o40;
        job.mask1 = Word::new(5);
        job.channels[1] = Channel::TtyIn;
        job.channels[2] = Channel::TtyOut;
        job.channels[3] = on_slot_2(true);
        job.channels[4] = on_slot_2(false);
    }
    Ok(())
}

/// A channel on slot 2, with leave to write or without.
fn on_slot_2(write: bool) -> Channel {
    Channel::Usr {
        slot: 2,
        write,
        at: 0,
    }
}

/// A world of these at clock 144.
pub(super) fn world(rt: &impl Abort, alloc: Global) -> Result<World, Fail> {
    let mut w = World::open(alloc)?;
    w.core = cores(rt, alloc)?;
    jobs(rt, &mut w.jobs)?;
    w.clock = 0o144;
    Ok(w)
}

/// The registers of slot 1 at a PC, with bits pending; first part done is off unless PC stayed.
pub(super) fn exit(pc: u32, pend1: u64) -> Exit {
    Exit {
        pc,
        flags: if pc == 0o200 { BYTE_HALF + 0o40 } else { 0o40 },
        pend1: Word::new(pend1),
        pend2: Word::ZERO,
        mask1: Word::new(5),
        mask2: Word::ZERO,
        defer1: Word::ZERO,
        defer2: Word::ZERO,
    }
}
