//! Interrupts that are delivered through the table of slot 0, and the returns from their handlers.

use super::caller::make_page;
use its_core::Core;
use its_ints::{deliver, deliverable, dismiss};
use its_records::{Channel, Exit, Job};
use its_word::{BYTE_HALF, Fault, OVERFLOW, Slot, Word};
use std::alloc::Global;
use std::process::Abort;
use std::test::Fail;

/// A job at 202 with these bits of word 1 pending, masked and deferred.
fn job(pend: u64, mask: u64, defer: u64) -> Job {
    Job {
        pc: 0o202,
        flags: 0,
        stopped: false,
        pend1: Word::new(pend),
        pend2: Word::ZERO,
        mask1: Word::new(mask),
        mask2: Word::ZERO,
        defer1: Word::new(defer),
        defer2: Word::ZERO,
        uname: Word::ZERO,
        jname: Word::ZERO,
        console: None,
        channels: [Channel::Closed; 16],
    }
}

/// Stores words into slot 0.
fn load(rt: &impl Abort, core: &mut Core, words: &[(u32, u64)]) {
    for (a, w) in words {
        assert!(rt; *a <= 0o777777);
        assert_eq!(rt;
            core.put(Slot::FIRST, *a, Word::new(*w)),
            Ok(()),
            "at {a:o}"
        );
    }
}

/// Whether slot 0 has these words.
fn has(rt: &impl Abort, core: &Core, words: &[(u32, u64)]) {
    for (a, w) in words {
        assert!(rt; *a <= 0o777777);
        assert_eq!(rt; core.get(Slot::FIRST, *a), Ok(Word::new(*w)), "at {a:o}");
    }
}

/// A core whose slot 0 has page 0, with a stack at 500 and a table of one entry, which takes bits 4
/// and 1000 and defers them; its handler is at 300. Page 2 is read only. In addition the core has
/// these words.
fn core_with(rt: &impl Abort, alloc: Global, words: &[(u32, u64)]) -> Result<Core, Fail> {
    let mut core = Core::open(alloc)?;
    let slot = Slot::FIRST;
    make_page(rt, &mut core, slot, 0)?;
    make_page(rt, &mut core, slot, 2)?;
    load(
        rt,
        &mut core,
        &[
            (0o17, 0o777700_000500),
            (0o42, 0o777772_000100),
            (0o100, 0o17),
            (0o101, 0o1004),
            (0o103, 0o1004),
            (0o105, 0o300),
        ],
    );
    load(rt, &mut core, words);
    assert!(rt; core.page(slot, 2).is_some());
    core.protect(slot, 2, false);
    Ok(core)
}

/// A delivery: words that the core also has; the bits of word 1 that are pending, masked and
/// deferred, and the flags; then the bits that are pending and deferred, and the PC; and some
/// words.
struct Delivery {
    words: &'static [(u32, u64)],
    job: (u64, u64, u64, u32),
    left: (u64, u64, u32),
    after: &'static [(u32, u64)],
}

/// Deliveries that enter the handler.
static ENTERED: [Delivery; 4] = [
    // The image of a handler: the taken bits, the deferrals, the PC word, the stack pointer word.
    Delivery {
        words: &[],
        job: (0o1000, 0o1004, 0, 0),
        left: (0, 0o1004, 0o300),
        after: &[
            (0o501, 0o1000),
            (0o502, 0),
            (0o503, 0),
            (0o504, 0),
            (0o505, 0o10000_000202),
            (0o17, 0o777705_000505),
        ],
    },
    // A page fault in the second half of ILDB; the bit that no entry takes stays pending.
    Delivery {
        words: &[],
        job: (0o2004, 0o3004, 0o200, BYTE_HALF),
        left: (0o2000, 0o1204, 0o300),
        after: &[(0o501, 0o4), (0o503, 0o200), (0o505, 0o30000_000202)],
    },
    // The pushed words overlap the table, whose words were read before.
    Delivery {
        words: &[(0o17, 0o777700_000100)],
        job: (0o1000, 0o1004, 0, 0),
        left: (0, 0o1004, 0o300),
        after: &[(0o101, 0o1000), (0o103, 0), (0o105, 0o10000_000202)],
    },
    // The stack pointer word is one of the pushed places, and is stored last.
    Delivery {
        words: &[(0o100, 0o502), (0o502, 0o777700_000500)],
        job: (0o1000, 0o1004, 0, 0),
        left: (0, 0o1004, 0o300),
        after: &[
            (0o501, 0o1000),
            (0o502, 0o777705_000505),
            (0o505, 0o10000_000202),
        ],
    },
];

/// Words with which no handler is entered: a length of 5, no entry, a stack that runs into an
/// absent page, and into one that is read only.
static NOT_ENTERED: [(u32, u64); 5] = [
    (0o42, 0o777773_000100),
    (0o101, 0o4),
    (0o17, 0o777700_001775),
    (0o17, 0o777700_003775),
    (0o100, 0o4000),
];

/// Delivers an interrupt over a core that also has these words: the pending bits, the deferrals and
/// the PC that are left, and some words afterwards.
fn delivers(
    rt: &impl Abort,
    alloc: Global,
    words: &[(u32, u64)],
    mut job: Job,
    left: (u64, u64, u32),
    after: &[(u32, u64)],
) -> Result<(), Fail> {
    let mut core = core_with(rt, alloc, words)?;
    assert!(rt; deliverable(&job));
    assert!(rt; !deliver(&mut core, Slot::new(0), &mut job));
    assert!(rt; !job.stopped);
    assert_eq!(rt; (job.pend1.value(), job.defer1.value(), job.pc), left);
    has(rt, &core, after);
    Ok(())
}

/// Words are pushed and the handler is entered, or TBL is set and nothing else is changed.
#[test]
fn through_the_table(rt: HostRuntime) -> Result<(), Fail> {
    for row in &ENTERED {
        let (pend, mask, defer, flags) = row.job;
        let job = Job {
            flags,
            ..job(pend, mask, defer)
        };
        delivers(&rt, rt.alloc(), row.words, job, row.left, row.after)?;
    }
    for word in NOT_ENTERED {
        delivers(
            &rt,
            rt.alloc(),
            &[word],
            job(0o1000, 0o1004, 0),
            (0o1040, 0, 0o202),
            &[(0o501, 0), (0o1776, 0), word],
        )?;
    }
    Ok(())
}

/// Fatal bits that are not enabled stop the job, whatever the table says.
#[test]
fn stops(rt: HostRuntime) -> Result<(), Fail> {
    let mut core = core_with(&rt, rt.alloc(), &[])?;
    for (pend, mask, defer) in [(0o4, 0, 0), (0o1004, 0o1004, 0o4), (0o40, 0o40, 0)] {
        let mut job = job(pend, mask, defer);
        assert!(rt; deliverable(&job));
        assert!(rt; deliver(&mut core, Slot::new(0), &mut job));
        assert!(rt; job.stopped);
        assert_eq!(rt; (job.pend1.value(), job.pc), (pend, 0o202));
    }
    has(&rt, &core, &[(0o17, 0o777700_000500), (0o501, 0)]);
    for (pend, mask, defer) in [(0, 0o1004, 0), (0o1000, 0, 0), (0o1000, 0o1000, 0o1000)] {
        assert!(rt; !deliverable(&job(pend, mask, defer)));
    }
    Ok(())
}

/// Returns from a handler, as DISMIS does through the word at 17.
fn dismissed(rt: &impl Abort, core: &mut Core, job: &mut Job, pointer: u64) -> Result<(), Fail> {
    let Exit {
        pc,
        flags,
        defer1,
        defer2,
        ..
    } = dismiss(core, job, Slot::new(0), 0o17)?;
    job.pc = pc;
    job.flags = flags;
    job.defer1 = defer1;
    job.defer2 = defer2;
    load(rt, core, &[(0o17, pointer)]);
    Ok(())
}

/// Delivers an interrupt, after which the job has this PC and these flags.
fn enters(rt: &impl Abort, core: &mut Core, job: &mut Job, pc: u32, flags: u32) {
    assert!(rt; deliverable(job));
    assert!(rt; !deliver(core, Slot::new(0), job));
    assert_eq!(rt; (job.pc, job.flags), (pc, flags));
}

/// Words with which the table has a second entry, whose handler is at 400, and a stack pointer word
/// at the end of page 2.
static TWO_ENTRIES: [(u32, u64); 4] = [
    (0o42, 0o777765_000100),
    (0o107, 0o10),
    (0o112, 0o400),
    (0o5000, 0o777705_000505),
];

/// What two deliveries have pushed.
static PUSHED: [(u32, u64); 6] = [
    (0o505, 0o410000_000202),
    (0o506, 0),
    (0o507, 0o10),
    (0o510, 0o1004),
    (0o512, 0o10000_000300),
    (0o17, 0o777712_000512),
];

/// Two deliveries in a row, the second by another entry and in word 2, and the return from both.
#[test]
fn returns(rt: HostRuntime) -> Result<(), Fail> {
    let mut core = core_with(&rt, rt.alloc(), &TWO_ENTRIES)?;
    let mut job = Job {
        pend2: Word::new(0o10),
        mask2: Word::new(0o10),
        flags: OVERFLOW,
        ..job(0o1000, 0o1000, 0)
    };
    enters(&rt, &mut core, &mut job, 0o300, 0);
    enters(&rt, &mut core, &mut job, 0o400, 0);
    assert!(rt; !deliverable(&job));
    has(&rt, &core, &PUSHED);
    dismissed(&rt, &mut core, &mut job, 0o777705_000505)?;
    assert_eq!(rt; (job.pc, job.flags, job.defer1.value()), (0o300, 0, 0o1004));
    dismissed(&rt, &mut core, &mut job, 0o777700_000500)?;
    assert_eq!(rt;
        (job.pc, job.flags, job.defer1.value()),
        (0o202, OVERFLOW, 0)
    );
    Ok(())
}

/// A stack pointer word that is absent, or whose stack is, or that cannot be stored.
#[test]
fn no_returns(rt: HostRuntime) -> Result<(), Fail> {
    let core = core_with(&rt, rt.alloc(), &TWO_ENTRIES)?;
    for (a, fault) in [
        (0o2000, Fault::Mpv),
        (0o4000, Fault::Mpv),
        (0o5000, Fault::Wro),
    ] {
        assert_eq!(rt;
            dismiss(&core, &job(0, 0, 0), Slot::new(0), a),
            Err(fault),
            "at {a:o}"
        );
    }
    Ok(())
}
