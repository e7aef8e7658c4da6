//! The operator's calls of jobs, consoles and the clock.
ghost use Rattle.its_monitor.specs.Kept.{Kept};

use its_monitor::Monitor;
use its_records::{JobShow, PeekState, Refusal};
use its_word::{ConsoleNumber, SLOTS, Slot, Word};
use std::process::Abort;
use std::test::Fail;

/// A line of the operator. The slot of those that name one is given beside it.
#[derive(Clone, Copy, Debug)]
enum Line {
    Version(u8),
    Load(Option<u8>),
    Clock(u64),
    Type(u8, u8),
    Drain(u8),
    Making(Making),
    Of(OfJob),
}

/// A line that fills a job which LOAD made, or is asked when one is filled.
#[derive(Clone, Copy, Debug)]
enum Making {
    Word(u32, u64),
    Go(u32),
    ReadOnly(u8),
    Barred(u32),
    Symbol(u64, u32),
}

/// A line that changes or shows a job.
#[derive(Clone, Copy, Debug)]
enum OfJob {
    Int(u64, u64),
    Stop,
    Cont,
    Deposit(u32, u64),
    Exam(u32),
    State,
    Peek,
}

/// What it answers. STATE says of a job its console, whether it runs, its PC word, its pending
/// words and its nearest symbol.
#[derive(Clone, Copy, Debug, PartialEq, Eq)]
enum Answer {
    Done,
    Slot(u8),
    Word(u64),
    State(Option<u8>, bool, u64, (u64, u64), Option<(u64, u32)>),
    User,
    Waits(bool),
    Version(u8),
    Barred(bool),
    Byte(Option<u8>),
}

/// A slot of this number.
fn at(rt: &impl Abort, number: u8) -> Slot {
    assert!(rt; usize::from(number) < SLOTS);
    Slot::new(number)
}

/// A console of this number.
fn console(rt: &impl Abort, number: u8) -> ConsoleNumber {
    assert!(rt; number < 8);
    ConsoleNumber::new(number)
}

/// Performs the call of a line.
fn run_line(rt: &impl Abort, m: &mut Monitor, slot: Slot, line: Line) -> Result<Answer, Refusal>
    requires kept { Kept m.old.world }
    ensures { Kept m.new.world }
{
    match line {
        Line::Version(v) => {
            assert!(rt; 1 <= v);
            assert!(rt; v <= 2);
            m.version(v);
            Ok(Answer::Version(m.world.version))
        }
        Line::Load(number) => {
            let number = match number {
                Some(c) => Some(console(rt, c)),
                None => None,
            };
            let made = m.load_job(Word::new(7), Word::new(0o107), number)?;
            Ok(Answer::Slot(made.number()))
        }
        Line::Clock(n) => {
            m.advance(n)?;
            Ok(Answer::Done)
        }
        Line::Type(c, b) => {
            let c = console(rt, c);
            Ok(Answer::Waits(m.type_in(c, b)))
        }
        Line::Drain(c) => {
            let c = console(rt, c);
            Ok(Answer::Byte(m.drain(c)))
        }
        Line::Making(line) => making_line(rt, m, slot, line),
        Line::Of(line) => job_line(rt, m, slot, line),
    }
}

/// Performs the call of a line that fills a job.
fn making_line(
    rt: &impl Abort,
    m: &mut Monitor,
    slot: Slot,
    line: Making,
) -> Result<Answer, Refusal>
    requires kept { Kept m.old.world }
    ensures { Kept m.new.world }
{
    match line {
        Making::Word(a, word) => {
            assert!(rt; a <= 0o777777);
            m.load_word(slot, a, Word::new(word))?;
        }
        Making::Go(a) => {
            assert!(rt; a <= 0o777777);
            m.go(slot, a)?;
        }
        Making::ReadOnly(page) => m.read_only(slot, page)?,
        Making::Barred(a) => {
            assert!(rt; a < 0o777777);
            return Ok(Answer::Barred(m.barred(slot, a, 2)));
        }
        Making::Symbol(name, a) => m.symbol(slot, Word::new(name), a)?,
    }
    Ok(Answer::Done)
}

/// Performs the call of a line that changes or shows a job.
fn job_line(rt: &impl Abort, m: &mut Monitor, slot: Slot, line: OfJob) -> Result<Answer, Refusal>
    requires kept { Kept m.old.world }
    ensures { Kept m.new.world }
{
    match line {
        OfJob::Int(v, x) => m.interrupt(slot, Word::new(v), Word::new(x))?,
        OfJob::Stop => m.stop(slot)?,
        OfJob::Cont => m.cont(slot)?,
        OfJob::Deposit(a, word) => {
            assert!(rt; a <= 0o777777);
            m.deposit(slot, a, Word::new(word))?;
        }
        OfJob::Exam(a) => {
            assert!(rt; a <= 0o777777);
            return Ok(Answer::Word(m.exam(slot, a)?.value()));
        }
        OfJob::State => {
            let show = m.state(slot)?;
            return Ok(shown(rt, &show));
        }
        OfJob::Peek => {
            let show = m.peek(slot)?;
            assert_eq!(rt; (show.state, show.name), (PeekState::User, None));
            assert_eq!(rt; (show.left, show.a, show.b, show.h), (0, None, None, None));
            return Ok(Answer::User);
        }
    }
    Ok(Answer::Done)
}

/// What STATE shows of a job with the names 7 and 107 that has no superior, and masks and defers
/// nothing.
fn shown(rt: &impl Abort, show: &JobShow) -> Answer {
    assert_eq!(rt;
        (show.u.value(), show.j.value(), show.sup),
        (7, 0o107, None)
    );
    let others = [show.m1, show.m2, show.d1, show.d2];
    assert_eq!(rt; others, [Word::ZERO; 4]);
    Answer::State(
        show.con,
        show.run,
        show.pc.value(),
        (show.p1.value(), show.p2.value()),
        show.symbol.map(|(name, at)| (name.value(), at)),
    )
}

/// Lines, each with its slot, and what it answers or why it is refused. The job of slot 0 is
/// started at 2000.
static LINES: [(u8, Line, Result<Answer, Refusal>); 53] = [
    (0, Line::Version(2), Ok(Answer::Version(2))),
    (0, Line::Version(1), Ok(Answer::Version(1))),
    (0, Line::Version(2), Ok(Answer::Version(2))),
    (0, Line::Making(Making::Go(0o2000)), Err(Refusal::NoJob)),
    (0, Line::Load(Some(3)), Ok(Answer::Slot(0))),
    (0, Line::Version(1), Ok(Answer::Version(2))),
    (0, Line::Load(None), Ok(Answer::Slot(1))),
    (0, Line::Load(Some(3)), Ok(Answer::Slot(2))),
    (0, Line::Type(3, 0o101), Ok(Answer::Waits(true))),
    (0, Line::Drain(3), Ok(Answer::Byte(None))),
    (
        0,
        Line::Making(Making::Word(0o2000, 0o42)),
        Ok(Answer::Done),
    ),
    (0, Line::Making(Making::Go(0o2000)), Ok(Answer::Done)),
    (
        0,
        Line::Of(OfJob::State),
        Ok(Answer::State(Some(3), true, 0o10000_002000, (0, 0), None)),
    ),
    (0, Line::Of(OfJob::Int(0o4, 0o2)), Ok(Answer::Done)),
    (0, Line::Of(OfJob::Int(0o1000, 0o2)), Ok(Answer::Done)),
    (0, Line::Of(OfJob::Stop), Ok(Answer::Done)),
    (
        0,
        Line::Of(OfJob::State),
        Ok(Answer::State(Some(3), false, 0o10000_002000, (0o1004, 0o2), None)),
    ),
    (0, Line::Of(OfJob::Cont), Ok(Answer::Done)),
    (
        0,
        Line::Of(OfJob::State),
        Ok(Answer::State(Some(3), true, 0o10000_002000, (0o1000, 0o2), None)),
    ),
    (0, Line::Of(OfJob::Deposit(0o3777, 0o17)), Ok(Answer::Done)),
    (0, Line::Of(OfJob::Exam(0o3777)), Ok(Answer::Word(0o17))),
    (0, Line::Of(OfJob::Exam(0o2000)), Ok(Answer::Word(0o42))),
    (0, Line::Of(OfJob::Exam(0o4000)), Err(Refusal::NoPage)),
    (1, Line::Of(OfJob::Exam(0o2000)), Err(Refusal::NoPage)),
    (0, Line::Of(OfJob::Deposit(0o4000, 1)), Err(Refusal::NoPage)),
    (0, Line::Of(OfJob::Peek), Ok(Answer::User)),
    (0, Line::Clock(0o177777777777), Ok(Answer::Done)),
    (0, Line::Clock(1), Err(Refusal::Range)),
    (
        63,
        Line::Making(Making::Word(0o2000, 1)),
        Err(Refusal::NoJob),
    ),
    (63, Line::Of(OfJob::Int(1, 1)), Err(Refusal::NoJob)),
    (63, Line::Of(OfJob::Stop), Err(Refusal::NoJob)),
    (63, Line::Of(OfJob::Cont), Err(Refusal::NoJob)),
    (63, Line::Of(OfJob::Deposit(0o17, 1)), Err(Refusal::NoJob)),
    (63, Line::Of(OfJob::Exam(0o17)), Err(Refusal::NoJob)),
    (63, Line::Of(OfJob::State), Err(Refusal::NoJob)),
    (63, Line::Of(OfJob::Peek), Err(Refusal::NoJob)),
    (
        0,
        Line::Making(Making::Barred(0o1777)),
        Ok(Answer::Barred(false)),
    ),
    (0, Line::Making(Making::ReadOnly(2)), Err(Refusal::NoPage)),
    (0, Line::Making(Making::ReadOnly(1)), Ok(Answer::Done)),
    (
        0,
        Line::Making(Making::Barred(0o1777)),
        Ok(Answer::Barred(true)),
    ),
    (
        0,
        Line::Making(Making::Barred(0o4000)),
        Ok(Answer::Barred(false)),
    ),
    (
        95,
        Line::Making(Making::Barred(0o1777)),
        Ok(Answer::Barred(false)),
    ),
    (
        0,
        Line::Making(Making::Word(0o2000, 1)),
        Err(Refusal::ReadOnly),
    ),
    (
        0,
        Line::Of(OfJob::Deposit(0o2000, 1)),
        Err(Refusal::ReadOnly),
    ),
    (0, Line::Of(OfJob::Exam(0o2000)), Ok(Answer::Word(0o42))),
    (95, Line::Making(Making::ReadOnly(1)), Err(Refusal::NoJob)),
    (95, Line::Making(Making::Symbol(1, 0)), Err(Refusal::NoJob)),
    (1, Line::Making(Making::Symbol(1, 1)), Ok(Answer::Done)),
    (
        1,
        Line::Of(OfJob::State),
        Ok(Answer::State(None, false, 0o10000_000000, (0, 0), None)),
    ),
    (1, Line::Making(Making::Symbol(2, 0)), Ok(Answer::Done)),
    (
        1,
        Line::Of(OfJob::State),
        Ok(Answer::State(None, false, 0o10000_000000, (0, 0), Some((2, 0)))),
    ),
    (1, Line::Making(Making::Symbol(3, 0)), Ok(Answer::Done)),
    (
        1,
        Line::Of(OfJob::State),
        Ok(Answer::State(None, false, 0o10000_000000, (0, 0), Some((3, 0)))),
    ),
];

#[test]
fn lines(rt: HostRuntime) -> Result<(), Fail> {
    let mut m = Monitor::open(rt.alloc())?;
    for (slot, line, want) in LINES.iter() {
        let got = run_line(&rt, &mut m, at(&rt, *slot), *line);
        assert_eq!(rt; got, *want, "{slot}: {line:?}");
    }
    let holder = m.world.holders[3];
    assert_eq!(rt; holder, Some(0));
    Ok(())
}
