//! The table of jobs: trees, superiors and limits.
ghost use Rattle.std.specs.Prelude.{◌≡◌, true, IfSome, is_some};
ghost use Rattle.its_jobs.specs.Table.{job_at};

use its_jobs::{Jobs, NoSlot, limit_of};
use its_records::{Channel, Job};
use its_word::{SLOTS, Slot, Word};
use std::process::Abort;
use std::test::Fail;

/// The slot of a number.
fn at(rt: &impl Abort, number: u8) -> Slot
    ensures { result ≡ number }
{
    assert!(rt; usize::from(number) < SLOTS);
    Slot::new(number)
}

/// The slot of a superior, which has a job; None if there is none.
pub(super) fn standing(rt: &impl Abort, jobs: &Jobs, superior: Option<u8>) -> Option<Slot>
    ensures { IfSome result (λ s. is_some (job_at jobs.now s) ≡ true) }
{
    let number = superior?;
    assert!(rt; usize::from(number) < SLOTS);
    let slot = Slot::new(number);
    assert!(rt; jobs.job(slot).is_some());
    Some(slot)
}

/// Makes a job, below another if one is given. The number of its slot.
fn made(rt: &impl Abort, jobs: &mut Jobs, superior: Option<u8>) -> Result<u8, NoSlot> {
    let superior = standing(rt, jobs, superior);
    let slot = jobs.create(Word::new(7), Word::new(0o107), superior, Some(3))?;
    Ok(slot.number())
}

/// The number of a slot, if there is one.
fn numbered(slot: Option<Slot>) -> Option<u8> {
    slot.map(|s| s.number())
}

/// The superiors of five jobs, in the order in which they are made.
static SUPERIORS: [Option<u8>; 5] = [None, Some(0), Some(1), None, Some(0)];

/// Slots with the jobs right below each of these five, and no more.
static BELOW: [(u8, [Option<u8>; 4]); 5] = [
    (0, [Some(1), Some(2), Some(4), None]),
    (1, [Some(2), None, None, None]),
    (2, [None; 4]),
    (3, [None; 4]),
    (63, [None; 4]),
];

/// Makes the five jobs, in the least free slots.
fn five(rt: &impl Abort, jobs: &mut Jobs) -> Result<(), NoSlot> {
    for (slot, superior) in (0..5).zip(SUPERIORS) {
        assert_eq!(rt; made(rt, jobs, superior)?, slot);
    }
    Ok(())
}

/// Tests which job is the k-th one below a slot's.
fn is_kth(rt: &impl Abort, jobs: &Jobs, slot: u8, k: u32, want: Option<u8>) {
    let found = jobs.below(at(rt, slot), k);
    assert_eq!(rt; numbered(found), want, "{k} below {slot}");
}

/// The jobs of a tree are made in the least free slots, and found by number from above and from
/// below.
#[test]
fn tree(rt: HostRuntime) -> Result<(), Fail> {
    let mut jobs = Jobs::open(rt.alloc())?;
    five(&rt, &mut jobs)?;
    for (slot, superior) in (0..5).zip(SUPERIORS) {
        let found = jobs.superior(at(&rt, slot));
        assert_eq!(rt; numbered(found), superior, "above {slot}");
    }
    for (slot, below) in BELOW {
        for (k, want) in (0..4).zip(below) {
            is_kth(&rt, &jobs, slot, k, want);
        }
    }
    Ok(())
}

/// A job of console 3 that was just made.
fn fresh() -> Job {
    Job {
        pc: 0,
        flags: 0,
        stopped: true,
        pend1: Word::ZERO,
        pend2: Word::ZERO,
        mask1: Word::ZERO,
        mask2: Word::ZERO,
        defer1: Word::ZERO,
        defer2: Word::ZERO,
        uname: Word::new(7),
        jname: Word::new(0o107),
        console: Some(3),
        channels: [Channel::Closed; 16],
    }
}

/// A job is made with its names and its console, stopped, and can be changed.
#[test]
fn registers(rt: HostRuntime) -> Result<(), Fail> {
    let mut jobs = Jobs::open(rt.alloc())?;
    five(&rt, &mut jobs)?;
    assert_eq!(rt; jobs.job(Slot::new(4)).copied(), Some(fresh()));
    assert_eq!(rt; jobs.numbered(4).copied(), Some(fresh()));
    assert!(rt; jobs.numbered(96).is_none());
    if let Some(job) = jobs.job_mut(Slot::new(4)) {
        job.stopped = false;
    }
    assert_eq!(rt; jobs.job(Slot::new(4)).map(|job| job.stopped), Some(false));
    Ok(())
}

/// Removes job 2, below which there is none.
fn remove_two(rt: &impl Abort, jobs: &mut Jobs) {
    let two = Slot::new(2);
    assert!(rt; jobs.below(two, 0).is_none());
    assert!(rt; jobs.job(two).is_some());
    jobs.remove(two);
    assert!(rt; jobs.job(two).is_none());
    assert_eq!(rt; jobs.superior(two), None);
}

/// Jobs, each below another one or not.
static TREES: [(u8, u8, bool); 5] = [
    (0, 2, true),
    (4, 2, true),
    (2, 4, false),
    (4, 4, false),
    (0, 200, false),
];

/// The slots that have a job, and those that have none, when the tree of job 4 is gone.
static LEFT: [(u8, bool); 6] = [
    (0, true),
    (1, true),
    (2, false),
    (3, true),
    (4, false),
    (5, true),
];

/// Jobs are removed from below, one by one or as a tree, and their slots are free then.
#[test]
fn removal(rt: HostRuntime) -> Result<(), Fail> {
    let mut jobs = Jobs::open(rt.alloc())?;
    five(&rt, &mut jobs)?;
    remove_two(&rt, &mut jobs);
    is_kth(&rt, &jobs, 0, 1, Some(4));
    assert_eq!(rt; made(&rt, &mut jobs, Some(4))?, 2);
    for slot in 5..64 {
        assert_eq!(rt; made(&rt, &mut jobs, None)?, slot);
    }
    assert_eq!(rt; made(&rt, &mut jobs, None), Err(NoSlot));
    for (slot, job, want) in TREES {
        assert_eq!(rt; jobs.is_below(slot, job), want, "{job} below {slot}");
    }
    let four = at(&rt, 4);
    jobs.remove_tree(four);
    for (slot, want) in LEFT {
        assert_eq!(rt; jobs.numbered(slot).is_some(), want, "job {slot}");
    }
    Ok(())
}

/// Makes jobs in all slots below a limit; there are no more then.
fn fill(rt: &impl Abort, jobs: &mut Jobs, limit: u8) -> Result<(), NoSlot> {
    for slot in 0..limit {
        assert_eq!(rt; numbered(jobs.free()), Some(slot), "{slot} of {limit}");
        assert_eq!(rt; made(rt, jobs, None)?, slot, "{slot} of {limit}");
    }
    assert_eq!(rt; jobs.free(), None, "{limit}");
    assert_eq!(rt; made(rt, jobs, None), Err(NoSlot), "{limit}");
    Ok(())
}

/// There are as many jobs as the limit says, and no more.
#[test]
fn limits(rt: HostRuntime) -> Result<(), Fail> {
    let mut jobs = Jobs::open(rt.alloc())?;
    fill(&rt, &mut jobs, 64)?;
    let mut more = Jobs::open(rt.alloc())?;
    assert_eq!(rt; (limit_of(1), limit_of(2)), (64, 96));
    assert!(rt; more.is_empty());
    more.set_limit(96);
    fill(&rt, &mut more, 96)?;
    assert!(rt; !more.is_empty());
    Ok(())
}
