//! The decisions of calls of slot 1, which has console 3. Rows are separated by `;`: the call, how
//! many bytes are typed and put out at the console, and its holder | inputs | the decision.

use super::caller::{exit, world};
use super::rows::{ask, call, ends, slot_or_none, small, wanted};
use call_basic::{channel, decision_of, input};
use call_tty::{finish, iot_in, iot_out, listen, open_tty, siot_in, siot_out, ttylnd};
use its_frame::{CallName, Change, Decision, Opened};
use its_records::{Ask, Channel, Job};
use its_word::{ConsoleNumber, Slot, Word};
use its_world::World;
use std::process::Abort;
use std::test::Fail;

/// SIOT's tests, in their order.
static TESTS: &str = "SIOT 1 0 - | 1 10700001000 3@321 | fails 17;
SIOT 1 0 - | 1 10700001000@320 3 | fails 17;
SIOT 1 0 - | 1 10700001000@320 10700001000@320 | fails 17;
SIOT 1 0 - | 2 10700001000@330 3@321 | fails 17;
SIOT 1 0 - | 1 10700001000@4001 3@321 | faults 10;
SIOT 1 0 - | 2 10700001000@320 0@4001 | faults 10;
SIOT 1 0 - | 1 440000001001@320 3@321 | fails 21;
SIOT 1 0 - | 1 444500001001@320 3@321 | fails 21;
SIOT 1 0 - | 2 440720001001@320 3@321 | fails 21;
SIOT 1 0 - | 2 440701001001@320 400000000000@321 | fails 21;
SIOT 1 0 - | 1 10700001000@320 400000000000@321 | fails 22;
SIOT 0 0 - | 1 10700001000@320 0@321 | finishes;
SIOT 1 0 - | 2 10700000317@320 0@321 | finishes;
SIOT 1 0 - | 1 10700000317@320 3@321 | fails 20;
SIOT 1 0 - | 2 10700000320@320 3@321 | fails 20;
SIOT 1 0 - | 2 10700000327@320 3@321 | fails 20;
SIOT 0 0 - | 1 10700001777@320 3@321 | faults 4;
SIOT 0 100 - | 2 10700001777@320 3@321 | faults 4;
SIOT 0 0 - | 1 10700003777@320 3@321 | faults 10";

/// Bytes from the console.
static INPUT: &str = "SIOT 1 0 - | 1 440100001001@320 3@321 | takes 1001 430100001001 2;
SIOT 2 0 - | 1 10700001000@320 3@321 | takes 1001 350700001001 2;
SIOT 3 0 1 | 1 441000001001@320 1@321 | takes 1001 341000001001 0;
SIOT 1 0 1 | 1 4400001000@320 3@321 | takes 1001 4400001001 2;
SIOT 1 0 - | 1 440740001001@320 3@321 | takes 1001 350740001001 2;
SIOT 1 0 - | 1 10700777777@320 3@321 | takes 0 350700000000 2;
SIOT 1 0 - | 1 10700000016@320 3@321 | takes 17 350700000017 2;
SIOT 0 0 1 | 1 10700001000@320 3@321 | waits input;
SIOT 1 0 2 | 1 10700001000@320 3@321 | waits input;
IOT 2 0 - | 1 | stores 310;
IOT 1 0 1 | 1 | stores 310;
IOT 0 0 - | 1 | waits input;
IOT 1 0 0 | 1 | waits input";

/// Bytes to the console.
static OUTPUT: &str = "SIOT 0 0 - | 2 440100001001@320 3@321 | puts 1 430100001001 2;
SIOT 0 77 - | 2 10700001000@320 3@321 | puts 101 350700001001 2;
SIOT 0 0 1 | 2 350700001001@320 1@321 | puts 102 260700001001 0;
SIOT 0 0 - | 2 441000001001@320 3@321 | puts 3 341000001001 2;
SIOT 0 0 - | 2 4400001000@320 3@321 | puts 12 4400001001 2;
SIOT 0 0 - | 2 10700777777@320 3@321 | puts 132 350700000000 2;
SIOT 0 0 - | 2 10700003777@320 3@321 | puts 101 350700004000 2;
SIOT 0 100 1 | 2 10700001000@320 3@321 | waits output;
SIOT 0 0 2 | 2 10700001000@320 3@321 | waits output;
IOT 0 0 - | 2 | shows 12;
IOT 0 77 1 | 2 | shows 12;
IOT 0 100 - | 2 | waits output;
IOT 0 0 2 | 2 | waits output";

/// Channels, waiting for the console, and who holds it.
static OTHERS: &str = "OPEN 0 0 - | 0 TTY | opens 0;
OPEN 0 0 - | 1 TTY | fails 4;
OPEN 0 0 - | 20 TTY | fails 4;
OPEN 0 0 - | 0 DSK | fails 5;
FINISH 0 0 - | 0 | fails 4;
FINISH 0 0 - | 1 | fails 5;
FINISH 0 1 - | 2 | waits drained;
FINISH 1 0 2 | 2 | finishes;
LISTEN 0 0 - | 0 | fails 4;
LISTEN 0 0 - | 3 | fails 5;
LISTEN 1 1 - | 1 | waits drained;
LISTEN 0 0 - | 1 | gives 0;
LISTEN 3 0 2 | 2 | gives 3;
TTYLND 0 0 - | 777777 | holds 1;
TTYLND 0 0 1 | 777777777777 | holds 1;
TTYLND 0 0 2 | 777777 | holds 1;
TTYLND 0 0 0 | 777777 | fails 13;
TTYLND 0 0 5 | 777777 | fails 13;
TTYLND 0 0 1 | 3 | holds 2;
TTYLND 0 0 - | 3 | fails 5;
TTYLND 0 0 2 | 3 | fails 5;
TTYLND 0 0 1 | 1 | fails 5;
TTYLND 0 0 1 | 0 | fails 4";

/// At console 3 the first of 301, 102 and 3 are typed, so many bytes are put out, and it gets a
/// holder.
fn prepare(rt: &impl Abort, w: &mut World, typed: u8, put: u8, holder: Option<u8>) {
    let console = ConsoleNumber::new(3);
    for b in [0o301, 0o102, 0o3].iter().take(usize::from(typed)) {
        assert!(rt; w.type_in(console, *b));
    }
    for _k in 0..put {
        assert!(rt; w.put(console, 0o101));
    }
    w.hold(console, holder);
}

/// Nothing waits any more at console 3.
fn clear(w: &mut World) {
    let console = ConsoleNumber::new(3);
    for _k in 0..64 {
        let _typed = w.take(console);
        let _put = w.drain(console);
    }
}

/// The decision of a call of slot 1 on a console.
fn decided(rt: &impl Abort, w: &World, job: &Job, ask: &Ask) -> Decision {
    let slot = Slot::new(1);
    let decision = match (CallName::named(ask.name), channel(job, input(ask, 0))) {
        (Some(CallName::Open), _) => Some(open_tty(w, slot, job, ask)),
        (Some(CallName::Iot), Channel::TtyIn) => Some(iot_in(w, slot, job, ask)),
        (Some(CallName::Iot), Channel::TtyOut) => Some(iot_out(w, slot, job, ask)),
        (Some(CallName::Siot), Channel::TtyIn) => {
            Some(decision_of(job, ask, siot_in(w, slot, job, ask)))
        }
        (Some(CallName::Siot), Channel::TtyOut) => {
            Some(decision_of(job, ask, siot_out(w, slot, job, ask)))
        }
        (Some(CallName::Finish), _) => Some(finish(w, slot, job, ask)),
        (Some(CallName::Listen), _) => Some(listen(w, slot, job, ask)),
        (Some(CallName::Ttylnd), _) => Some(ttylnd(w, slot, job, ask)),
        _ => None,
    };
    decision.expect(rt, "a channel on a console")
}

/// The call of slot 1 decides what is wanted.
fn comes_to(rt: &impl Abort, w: &World, ask: &Ask, wanted: &Decision, row: &str) {
    let job = w.jobs.job(Slot::new(1)).expect(rt, "a job");
    assert!(rt; decided(rt, w, job, ask) == *wanted, "{row}");
}

/// Performs the calls of rows.
fn make(rt: &impl Abort, w: &mut World, rows: &str) {
    for row in rows.split(';') {
        let mut fields = row.split('|');
        let mut start = fields.next().expect(rt, "a call").split_whitespace();
        let name = call(rt, start.next());
        let (typed, put) = (small(rt, start.next()), small(rt, start.next()));
        let holder = slot_or_none(rt, start.next());
        prepare(rt, w, typed, put, holder);
        let ask = ask(rt, name, fields.next().expect(rt, "inputs"));
        let wanted = wanted(rt, fields.next().expect(rt, "what it comes to"));
        comes_to(rt, w, &ask, &wanted, row);
        clear(w);
    }
}

#[test]
fn tests_of_siot(rt: HostRuntime) -> Result<(), Fail> {
    let mut w = world(&rt, rt.alloc())?;
    make(&rt, &mut w, TESTS);
    Ok(())
}

#[test]
fn bytes(rt: HostRuntime) -> Result<(), Fail> {
    let mut w = world(&rt, rt.alloc())?;
    make(&rt, &mut w, INPUT);
    make(&rt, &mut w, OUTPUT);
    Ok(())
}

#[test]
fn others(rt: HostRuntime) -> Result<(), Fail> {
    let mut w = world(&rt, rt.alloc())?;
    make(&rt, &mut w, OTHERS);
    Ok(())
}

/// The word of `.IOT` is looked at before the console.
#[test]
fn words_of_iot(rt: HostRuntime) -> Result<(), Fail> {
    let w = world(&rt, rt.alloc())?;
    for (channel, at, want) in [
        ("1", 0o2000, "faults 4"),
        ("1", 0o4000, "faults 10"),
        ("2", 0o2000, "faults 4"),
        ("2", 0o4000, "shows 12"),
    ] {
        let mut ask = ask(&rt, CallName::Iot, channel);
        ask.outputs.clear();
        assert!(rt; ask.outputs.try_push(at).is_ok());
        comes_to(&rt, &w, &ask, &wanted(&rt, want), want);
    }
    Ok(())
}

/// What is opened by the control argument, and calls of a job without a console.
#[test]
fn strays(rt: HostRuntime) -> Result<(), Fail> {
    let mut w = world(&rt, rt.alloc())?;
    let mut open = ask(&rt, CallName::Open, "0 TTY");
    open.control = Some(Word::new(1));
    let change = Change::Open {
        channel: 0,
        on: Opened::TtyOut,
    };
    comes_to(
        &rt,
        &w,
        &open,
        &ends(Some(change), None, exit(0o202, 0)),
        "control 1",
    );
    open.control = Some(Word::new(2));
    comes_to(&rt, &w, &open, &wanted(&rt, "fails 22"), "control 2");
    open.control = None;
    if let Some(job) = w.jobs.job_mut(Slot::new(1)) {
        job.console = None;
    }
    comes_to(&rt, &w, &open, &wanted(&rt, "fails 5"), "no console");
    let take = ask(&rt, CallName::Ttylnd, "777777");
    comes_to(
        &rt,
        &w,
        &take,
        &wanted(&rt, "fails 5"),
        "no console to take",
    );
    Ok(())
}
