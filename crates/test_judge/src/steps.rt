//! The second machine: whole steps of a job.

ghost use Rattle.std.specs.Prelude.{◌≡◌};
ghost use Rattle.its_session.specs.Events.{place_after};
ghost use Rattle.its_session.specs.Fits.{EventFits};
ghost use Rattle.its_direct.specs.Events.{IsTold, Kept, MayStand, spot_place};

use its_direct::Plain;
use its_records::Event;
use its_word::{Slot, Word};
use std::process::Abort;
use std::test::Fail;

/// MOVEI 1,5; a `.CALL` of no name; `.CALL` of HANG; and the blocks of the two calls, whose last
/// words are controls.
const PROGRAM: [(u32, u64); 9] = [
    (2, 0o201040_000005),
    (3, 0o043000_000007),
    (4, 0o043000_000012),
    (7, 0o400000_000000),
    (0o10, 0),
    (0o11, 0o405000_000000),
    (0o12, 0o400000_000000),
    (0o13, 0o504156_470000),
    (0o14, 0o405000_000000),
];

/// Has the machine perform an event, which is not refused.
fn tell(rt: &impl Abort, p: &mut Plain, event: &Event)
    requires told { IsTold event.now }
    requires fits { EventFits 2 event.now }
    requires stands { MayStand (spot_place p.old.place) event.now }
    requires kept { Kept p.old }
    ensures place { spot_place p.new.place ≡ place_after (spot_place p.old.place) event.now }
    ensures kept { Kept p.new }
{
    let told = p.event(event);
    assert!(rt; told.is_ok());
}

/// A unit, a call that ends with an error, and one that waits: it is no step.
#[test]
#[tactic(auto, using(its_direct::proofs::ToldLaws::kept_starts))]
fn steps(rt: HostRuntime) -> Result<(), Fail> {
    let mut p = Plain::open(rt.alloc())?;
    let name = Word::new(0o410000_000000);
    tell(
        &rt,
        &mut p,
        &Event::Load {
            u: name,
            j: name,
            console: None,
        },
    );
    tell(&rt, &mut p, &Event::Go { a: 2 });
    for (a, w) in PROGRAM {
        tell(
            &rt,
            &mut p,
            &Event::Deposit {
                s: Slot::FIRST,
                a,
                w: Word::new(w),
            },
        );
    }
    assert_eq!(&rt;
        (
            p.step(Slot::FIRST),
            p.step(Slot::FIRST),
            p.step(Slot::FIRST)
        ),
        (true, true, false)
    );
    assert_eq!(&rt;
        (p.runs(Slot::FIRST), p.runs(Slot::new(1)), p.touched[0]),
        (true, false, false)
    );
    Ok(())
}
