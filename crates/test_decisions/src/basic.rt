//! The decisions of calls of slot 1 that need no device, and whom they reach into. Rows are
//! separated by `;`: the call | inputs | the decision | the slot that it reaches into.

use super::caller::{exit, world};
use super::rows::{ask, call, ends, slot_or_none, wanted};
use arrayvec::ArrayVec;
use call_basic::{dismiss, fails, logout, sleep, target_of, usrvar};
use its_frame::{CallName, Change, Decision, Exit, Variable, error};
use its_records::Ask;
use its_word::{Slot, Word};
use its_world::World;
use std::process::Abort;
use std::test::Fail;

/// Each call at its errors, in waiting and at its end.
static CALLS: &str = "SLEEP | 0 | finishes | -;
SLEEP | 62@320 | sleeps 777777777552 | -;
SLEEP | 200000000000@320 | sleeps 577777777634 | -;
SLEEP | 200000000001@320 | fails 22 | -;
SLEEP | 62 | fails 17 | -;
SLEEP | 62@330 | fails 17 | -;
SLEEP | 62@320 62@320 | fails 17 | -;
SLEEP | 62@4000 | faults 10 | -;
SLEEP | 62@1000000 | faults 10 | -;
SLEEP | 777777777634 | finishes | -;
SLEEP | 777777777633 | waits clock | -;
DISMIS | 0 | fails 17 | -;
DISMIS | 0@2000 | faults 4 | -;
DISMIS | 0@1000017 | faults 4 | -;
DISMIS | 0@4000 | faults 4 | -;
USRVAR | 777777 MASK | gives 5 | -;
USRVAR | 777777 PAGES | gives 2 | -;
USRVAR | 777777 SUPPRO | gives 0 | -;
USRVAR | 777777 UPC 7 | fails 22 | -;
USRVAR | 777777 USTQ | fails 22 | -;
USRVAR | 20 MASK | fails 4 | -;
USRVAR | 0 MASK | fails 4 | -;
USRVAR | 1 MASK | fails 5 | -;
USRVAR | 4 MASK 7 | fails 5 | 2;
USRVAR | 4 SUPPRO | gives 1 | 2;
USRVAR | 3 UIND 7 | fails 22 | 2";

/// The decision of a call of slot 1 whose decoding gave no error.
fn decision(rt: &impl Abort, w: &World, ask: &Ask) -> Decision {
    let slot = Slot::new(1);
    let job = w.jobs.job(Slot::new(1)).expect(rt, "slot 1 has a job");
    assert!(rt; ask.fail == 0);
    match CallName::named(ask.name) {
        Some(CallName::Sleep) => sleep(w, slot, job, ask),
        Some(CallName::Dismis) => dismiss(w, slot, job, ask),
        Some(CallName::Usrvar) => usrvar(w, slot, job, ask),
        Some(CallName::Logout) => logout(w, slot),
        _ => fails(job, ask, error::NO_CALL),
    }
}

/// A row's call of slot 1 decides what is wanted.
fn comes_to(rt: &impl Abort, w: &World, row: &str) {
    let mut fields = row.split('|');
    let mut name = fields.next().expect(rt, "a call").split_whitespace();
    let call = call(rt, name.next());
    let ask = ask(rt, call, fields.next().expect(rt, "inputs"));
    let wanted = wanted(rt, fields.next().expect(rt, "what it comes to"));
    let mut reached = fields.next().expect(rt, "a slot").split_whitespace();
    let target = slot_or_none(rt, reached.next());
    assert!(rt; w.jobs.job(Slot::new(1)).is_some());
    assert_eq!(rt; target_of(w, Slot::new(1), &ask), target, "{row}");
    assert_eq!(rt; decision(rt, w, &ask), wanted, "{row}");
}

#[test]
fn calls(rt: HostRuntime) -> Result<(), Fail> {
    let w = world(&rt, rt.alloc())?;
    for row in CALLS.split(';') {
        comes_to(&rt, &w, row);
    }
    let iot = ask(&rt, CallName::Iot, "3");
    assert!(rt; w.jobs.job(Slot::new(1)).is_some());
    assert_eq!(rt; target_of(&w, Slot::new(1), &iot), Some(2));
    Ok(())
}

/// A variable of an inferior that is set, and no output.
#[test]
fn sets(rt: HostRuntime) -> Result<(), Fail> {
    let w = world(&rt, rt.alloc())?;
    let mut set = ask(&rt, CallName::Usrvar, "3 USTP 0");
    set.outputs.clear();
    let change = Change::Set {
        slot: 2,
        variable: Variable::Ustp,
        value: Word::ZERO,
    };
    assert_eq!(rt;
        decision(&rt, &w, &set),
        ends(Some(change), None, exit(0o202, 0))
    );
    Ok(())
}

/// What leaves other registers: a variable of one's own that is set, the return from a handler, and
/// a removal.
#[test]
fn registers(rt: HostRuntime) -> Result<(), Fail> {
    let w = world(&rt, rt.alloc())?;
    let set = ask(&rt, CallName::Usrvar, "777777777777 MASK 6");
    let left = Exit {
        mask1: Word::new(6),
        ..exit(0o202, 0)
    };
    assert_eq!(rt;
        decision(&rt, &w, &set),
        ends(None, Some((0o310, Word::new(5))), left)
    );
    let back = ask(&rt, CallName::Dismis, "777700000505@17");
    let left = Exit {
        flags: 0o400000,
        defer1: Word::new(0o1004),
        defer2: Word::new(0o2000),
        ..exit(0o202, 0)
    };
    assert_eq!(rt;
        decision(&rt, &w, &back),
        ends(None, Some((0o17, Word::new(0o777673_000500))), left)
    );
    let out = ask(&rt, CallName::Logout, "");
    let mut changes = ArrayVec::new();
    changes.push(Change::Inform { slot: 0 });
    assert_eq!(rt; decision(&rt, &w, &out), Decision::Gone { changes });
    Ok(())
}
