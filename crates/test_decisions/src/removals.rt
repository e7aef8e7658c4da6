//! Jobs that are made and removed, and trees of jobs.

ghost use Rattle.std.specs.Prelude.{◌≡◌, ◌<◌, ℕ, true, None, slice_set, IfOk};
ghost use Rattle.its_records.specs.declared.jobs.Channel.TheVariants.{Usr};
ghost use Rattle.its_stepped.specs.Sound.{Sound};
ghost use Rattle.its_world.specs.Tidy.{Tidy};
ghost use Rattle.its_world.specs.World.{state_of};
ghost use Rattle.its_commit.specs.Removal.{Elsewhere};

use super::caller::standing;
use its_commit::apply;
use its_frame::Change;
use its_jobs::{Job, Jobs};
use its_pclsr::unwind_below;
use its_records::Channel;
use its_word::{SLOTS, Slot, Word, within};
use its_world::World;
use std::alloc::Global;
use std::process::Abort;
use std::test::Fail;

/// The channel that each job of a test has open on one slot.
fn on(slot: u8) -> Channel
    ensures { result ≡ Usr slot true 16 }
{
    Channel::Usr {
        slot,
        write: true,
        at: 0o20,
    }
}

/// Jobs in slots 0 to 3 with these superiors; the first channel of each is open on a slot.
fn jobs(rt: &impl Abort, alloc: Global, superiors: [Option<u8>; 4], slot: u8) -> Result<Jobs, Fail>
    ensures jobs { IfOk result Elsewhere }
    ensures limit { IfOk result (λ t. t.limit ≡ 64) }
{
    let mut jobs = Jobs::open(alloc)?;
    for superior in superiors {
        add(rt, &mut jobs, superior, slot);
    }
    Ok(jobs)
}

/// A job more, whose first channel is open on a slot.
fn add(rt: &impl Abort, jobs: &mut Jobs, superior: Option<u8>, slot: u8)
    requires { Elsewhere jobs.old }
    ensures jobs { Elsewhere jobs.new }
    ensures limit { jobs.new.limit ≡ jobs.old.limit }
{
    let superior = standing(rt, jobs, superior);
    let made = jobs.create(Word::new(7), Word::new(0o107), superior, None);
    if let Ok(k) = made {
        open_on(jobs, k, slot);
    }
}

/// Opens the first channel of a job on a slot.
fn open_on(jobs: &mut Jobs, k: Slot, slot: u8)
    requires jobs { Elsewhere jobs.old }
    ensures jobs { Elsewhere jobs.new }
    ensures limit { jobs.new.limit ≡ jobs.old.limit }
{
    within(k);
    if let Some(job) = jobs.job_mut(k) {
        *job = opened(*job, slot);
    }
}

/// Registers whose first channel is open on a slot.
fn opened(job: Job, slot: u8) -> Job
    ensures { result ≡ record job { channels = slice_set job.channels 0 (Usr slot true 16) } }
{
    let mut changed = job;
    changed.channels[0] = on(slot);
    changed
}

/// The first channel of a slot's job, if there is one.
fn first(job: Option<&Job>) -> Option<Channel> {
    job.map(|j| j.channels[0])
}

/// A call removes a job and all below it. The caller is none of them.
fn removed(rt: &impl Abort, w: &mut World, caller: u8, root: u8)
    requires sound { Sound (state_of w.old) }
    requires frames { (k : ℕ) → (state_of w.old).frames k ≡ None }
    requires page { (k : ℕ) → (state_of w.old).reserved k ≡ None }
    requires tidy { Tidy w.old }
{
    assert!(rt; w.jobs.numbered(caller).is_some());
    assert!(rt; w.jobs.numbered(root).is_some());
    assert!(rt; caller != root);
    assert!(rt; !w.jobs.is_below(root, caller));
    w.jobs.tree();
    apply(w, Slot::new(caller), &[Change::Remove { slot: root }]);
}

/// A call makes an inferior in a slot, which is the least free one: it is below its maker, stopped,
/// and its channels are closed.
fn made(rt: &impl Abort, w: &mut World, maker: u8, slot: u8)
    requires tidy { Tidy w.old }
    ensures { Tidy w.new }
{
    assert!(rt; w.jobs.numbered(maker).is_some());
    assert!(rt; usize::from(slot) < SLOTS);
    let place = Slot::new(slot);
    assert!(rt; w.jobs.free() == Some(place));
    let (u, j) = (Word::new(7), Word::new(0o107));
    apply(w, Slot::new(maker), &[Change::Make { slot, u, j }]);
    assert_eq!(rt; w.jobs.superior(place), Some(Slot::new(maker)));
    assert_eq!(rt; w.jobs.job(place).map(|job| job.stopped), Some(true));
    assert_eq!(rt; first(w.jobs.job(place)), Some(Channel::Closed));
}

/// A call stores a word in an accumulator of a job, which then has it.
fn poked(rt: &impl Abort, w: &mut World, caller: Slot, slot: u8, at: u32)
    requires at { at < 16 }
    requires tidy { Tidy w.old }
    ensures { Tidy w.new }
{
    assert!(rt; w.jobs.numbered(slot).is_some());
    assert_eq!(rt; w.core.get(Slot::new(slot), at), Ok(Word::ZERO));
    let word = Word::new(7);
    apply(w, caller, &[Change::Poke { slot, at, word }]);
    assert_eq!(rt; w.core.get(Slot::new(slot), at), Ok(word));
}

/// Jobs make inferiors, each in the least free slot, and store words in them.
#[test]
#[tactic(auto, using(its_records::proofs::FreeLaws::limit_first))]
fn inferiors(rt: HostRuntime) -> Result<(), Fail> {
    let mut w = World::open(rt.alloc())?;
    w.jobs = jobs(&rt, rt.alloc(), [None, Some(0), Some(1), None], 1)?;
    made(&rt, &mut w, 0, 4);
    made(&rt, &mut w, 2, 5);
    made(&rt, &mut w, 4, 6);
    poked(&rt, &mut w, Slot::FIRST, 4, 0);
    poked(&rt, &mut w, Slot::new(2), 5, 0o17);
    Ok(())
}

/// A chain, two branches and a leaf: what is below goes too, all else stays, and channels on what
/// is gone are closed. Each of the first four consoles is held by the job with its number: those
/// that are gone leave it to the superior of the root, or to nobody.
#[test]
#[tactic(auto, using(crate::proofs::Groups::trees_laws))]
fn trees(rt: HostRuntime) -> Result<(), Fail> {
    let open = Some(on(1));
    let shut = Some(Channel::Closed);
    for (superiors, caller, root, left, holders) in [
        (
            [None, Some(0), Some(1), Some(2)],
            0,
            1,
            [shut, None, None, None],
            [Some(0), Some(0), Some(0), Some(0)],
        ),
        (
            [None, Some(0), Some(0), Some(1)],
            0,
            1,
            [shut, None, shut, None],
            [Some(0), Some(0), Some(2), Some(0)],
        ),
        (
            [None, Some(0), Some(1), Some(0)],
            0,
            2,
            [open, open, None, open],
            [Some(0), Some(1), Some(1), Some(3)],
        ),
        (
            [None, Some(0), Some(1), None],
            3,
            0,
            [None, None, None, shut],
            [None, None, None, Some(3)],
        ),
    ] {
        let mut w = World::open(rt.alloc())?;
        w.jobs = jobs(&rt, rt.alloc(), superiors, 1)?;
        w.holders = [Some(0), Some(1), Some(2), Some(3), None, None, None, None];
        removed(&rt, &mut w, caller, root);
        for (slot, want) in left.into_iter().enumerate() {
            assert_eq!(rt;
                first(w.jobs.numbered(slot as u8)),
                want,
                "{slot} of {root}"
            );
        }
        for (console, want) in holders.into_iter().enumerate() {
            assert_eq!(rt; w.holders.get(console), Some(&want), "{console} of {root}");
        }
    }
    Ok(())
}

/// Jobs that are in no call stay as they are, with those below them.
#[test]
#[tactic(auto, using(crate::proofs::Groups::nothing_to_unwind_laws))]
fn nothing_to_unwind(rt: HostRuntime) -> Result<(), Fail> {
    let mut w = World::open(rt.alloc())?;
    w.jobs = jobs(&rt, rt.alloc(), [None, Some(0), Some(1), None], 1)?;
    unwind_below(&mut w, Slot::FIRST);
    for slot in 0..4u8 {
        assert_eq!(rt; first(w.jobs.numbered(slot)), Some(on(1)));
    }
    Ok(())
}
