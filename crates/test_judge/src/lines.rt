//! The second machine: the lines of the operator, and the beginnings of steps.

ghost use Rattle.its_direct.specs.Plain.{Tidy};

use its_direct::{Begun, Plain, Spot};
use its_records::{Event, Refusal};
use its_shared::SymbolTable;
use its_word::{ConsoleNumber, ILO, MOST_SYMBOLS, Slot, Word};
use std::process::Abort;
use std::test::Fail;

/// A line of the operator, or the beginning of a step.
#[derive(Clone, Copy, Debug)]
enum Line {
    Deposit(u32, u64),
    Go(u32),
    Stop,
    Cont,
    Int(u64),
    State,
    Exam(u32, u32),
    Words(u32, u64),
    ReadOnly(u8),
    Step,
}

/// The result; for a call the address that it names.
#[derive(Clone, Copy, Debug, PartialEq, Eq)]
enum Came {
    Done,
    Still,
    Calls(u32),
}

/// Makes a line of a slot.
fn run_line(rt: &impl Abort, p: &mut Plain, slot: Slot, line: Line) -> Result<Came, Refusal>
    requires tidy { Tidy p.old }
    ensures { Tidy p.new }
{
    match line {
        Line::Deposit(a, w) => {
            assert!(rt; a <= 0o777777);
            p.deposit(slot, a, Word::new(w))?;
        }
        Line::Go(a) => {
            assert!(rt; a <= 0o777777);
            p.go(slot, a)?;
        }
        Line::Stop => p.stop(slot)?,
        Line::Cont => p.cont(slot)?,
        Line::Int(v) => p.interrupt(slot, Word::new(v), Word::ZERO)?,
        Line::State => {
            p.shown(slot)?;
        }
        Line::Exam(a, n) => {
            assert!(rt; a <= 0o777777);
            assert!(rt; n <= 8);
            p.words(slot, a, n)?;
        }
        Line::Words(a, w) => {
            assert!(rt; a < 0o777777);
            p.load_words(slot, a, &[Word::new(w), Word::ZERO])?;
        }
        Line::ReadOnly(page) => p.read_only(slot, page)?,
        Line::Step => match p.begin(slot) {
            Begun::Still => return Ok(Came::Still),
            Begun::Stepped => {}
            Begun::Calls(site) => return Ok(Came::Calls(site.e)),
        },
    }
    Ok(Came::Done)
}

/// Loads a job of console 3, which gets this slot.
fn load(rt: &impl Abort, p: &mut Plain, slot: Slot)
    requires tidy { Tidy p.old }
    ensures { Tidy p.new }
{
    let loaded = p.load(
        Word::new(0o42),
        Word::new(0o43),
        Some(ConsoleNumber::new(3)),
    );
    assert_eq!(&rt; loaded, Ok(slot));
}

/// Lines of slot 0, each with its result. A program in accumulators is run step by step: MOVEI 1,5
/// is at 2, and `.IOT 3,100` at 3, which then becomes an illegal word.
static LINES: [(Line, Result<Came, Refusal>); 17] = [
    (Line::Deposit(2, 0o201040_000005), Ok(Came::Done)),
    (Line::Deposit(3, 0o040140_000100), Ok(Came::Done)),
    (Line::Deposit(0o2000, 0), Err(Refusal::NoPage)),
    (Line::Exam(0o10, 8), Ok(Came::Done)),
    (Line::Exam(0o17, 2), Err(Refusal::NoPage)),
    (Line::Words(0o1777, 1), Ok(Came::Done)),
    (Line::ReadOnly(1), Ok(Came::Done)),
    (Line::Words(0o1777, 1), Err(Refusal::ReadOnly)),
    (Line::Step, Ok(Came::Still)),
    (Line::Go(2), Ok(Came::Done)),
    (Line::Step, Ok(Came::Done)),
    (Line::Step, Ok(Came::Calls(0o100))),
    (Line::Stop, Ok(Came::Done)),
    (Line::Step, Ok(Came::Still)),
    (Line::Cont, Ok(Came::Done)),
    (Line::Deposit(3, 0), Ok(Came::Done)),
    (Line::Step, Ok(Came::Done)),
];

/// Each line is refused or done, or is a step.
#[test]
fn lines_and_steps(rt: HostRuntime) -> Result<(), Fail> {
    let mut p = Plain::open(rt.alloc())?;
    let none = run_line(&rt, &mut p, Slot::FIRST, Line::State);
    assert_eq!(&rt; none, Err(Refusal::NoJob));
    load(&rt, &mut p, Slot::FIRST);
    for (line, came) in &LINES {
        let got = run_line(&rt, &mut p, Slot::FIRST, *line);
        assert_eq!(&rt; got, *came, "{line:?}");
    }
    if let Ok(words) = p.words(Slot::FIRST, 0o1777, 2) {
        assert_eq!(&rt; words.as_slice().first(), Some(&Word::new(1)));
    }
    Ok(())
}

/// The version changes as long as no job was made.
#[test]
fn versions(rt: HostRuntime) -> Result<(), Fail> {
    let mut p = Plain::open(rt.alloc())?;
    p.version(2);
    assert_eq!(&rt; p.version, 2);
    p.version(1);
    assert_eq!(&rt; p.version, 1);
    load(&rt, &mut p, Slot::FIRST);
    p.version(2);
    assert_eq!(&rt; p.version, 1);
    Ok(())
}

/// The first job of a console holds it.
#[test]
fn loads(rt: HostRuntime) -> Result<(), Fail> {
    let mut p = Plain::open(rt.alloc())?;
    load(&rt, &mut p, Slot::FIRST);
    assert_eq!(&rt; p.place, Spot::Load { slot: Slot::FIRST });
    assert_eq!(&rt;
        (p.holders[3], p.touched[0], p.touched[1]),
        (Some(0), true, false)
    );
    load(&rt, &mut p, Slot::new(1));
    assert_eq!(&rt;
        (p.holders[3], p.touched[0], p.touched[1]),
        (Some(0), false, true)
    );
    assert_eq!(&rt;
        (p.peek(Slot::new(1)), p.peek(Slot::new(2))),
        (Ok(()), Err(Refusal::NoJob))
    );
    Ok(())
}

/// Bytes wait at a console, and a job has a symbol and no page 2.
#[test]
fn consoles_and_symbols(rt: HostRuntime) -> Result<(), Fail> {
    let mut p = Plain::open(rt.alloc())?;
    load(&rt, &mut p, Slot::FIRST);
    assert_eq!(&rt; p.type_in(ConsoleNumber::new(3), b"AB"), 0);
    assert_eq!(&rt; p.consoles[3].waiting(), (2, 0));
    assert_eq!(&rt; p.drain(ConsoleNumber::new(3), 64).len(), 0);
    assert_eq!(&rt; p.read_only(Slot::FIRST, 2), Err(Refusal::NoPage));
    assert_eq!(&rt; p.go(Slot::FIRST, 3), Ok(()));
    assert_eq!(&rt; p.symbol(Slot::FIRST, Word::new(0o123), 2), Ok(()));
    if let Ok(show) = p.shown(Slot::FIRST) {
        assert_eq!(&rt;
            (show.symbol, show.con),
            (Some((Word::new(0o123), 1)), Some(3))
        );
    }
    Ok(())
}

/// A file is made, gains words, and is listed and shown; the clock does not reach its end.
#[test]
#[tactic(auto, using(its_direct::proofs::ToldLaws::alarmed_open))]
fn files_and_clock(rt: HostRuntime) -> Result<(), Fail> {
    let mut p = Plain::open(rt.alloc())?;
    let (d, x, y) = (Word::new(1), Word::new(2), Word::new(3));
    assert_eq!(&rt; p.advance(0o200000000000), Err(Refusal::Range));
    assert_eq!(&rt; p.make_file(d, x, y), Ok(()));
    assert_eq!(&rt; p.place, Spot::File { names: [d, x, y] });
    assert_eq!(&rt;
        p.append_words(d, x, y, &[d, x, y, d, x, y, d, x, y]),
        Ok(())
    );
    p.end_file();
    assert_eq!(&rt; p.make_file(d, x, y), Err(Refusal::Exists));
    assert_eq!(&rt;
        (p.place, p.listed(d).len(), p.listed(x).len()),
        (Spot::Plain, 1, 0)
    );
    if let Some(id) = p.file(d, x, y) {
        assert_eq!(&rt;
            (
                p.row(id, 0).len(),
                p.row(id, 1).as_slice().first() == Some(&y)
            ),
            (8, true)
        );
    }
    Ok(())
}

/// An event is a line of the operator.
#[test]
#[tactic(auto, using(its_direct::proofs::ToldLaws::kept_starts))]
fn events(rt: HostRuntime) -> Result<(), Fail> {
    let mut p = Plain::open(rt.alloc())?;
    assert_eq!(&rt; p.event(&Event::Clock { n: 5 }).is_ok(), true);
    assert_eq!(&rt; p.clock, 5);
    let mut q = Plain::open(rt.alloc())?;
    assert_eq!(&rt; q.event(&Event::State { s: Slot::FIRST }).is_ok(), false);
    Ok(())
}

/// A table takes 512 symbols, in the order in which they are given, and is empty after `clear`;
/// then it takes one again.
#[test]
fn symbols_in_order(rt: HostRuntime) -> Result<(), Fail> {
    let mut table = SymbolTable::open(rt.alloc())?;
    for a in 0..512_u32 {
        assert!(&rt; table.len() < MOST_SYMBOLS);
        table.push((Word::new(u64::from(a)), a));
    }
    assert_eq!(&rt; table.len(), 512);
    for a in 0..512_u32 {
        assert_eq!(&rt;
            table.as_slice().get(a as usize).copied(),
            Some((Word::new(u64::from(a)), a))
        );
    }
    table.clear();
    assert_eq!(&rt; table.len(), 0);
    table.push((Word::new(0o123), 2));
    assert_eq!(&rt;
        table.as_slice().first().copied(),
        Some((Word::new(0o123), 2))
    );
    Ok(())
}
