//! Calls that are disturbed at each tick: the job ends as it does undisturbed.

use super::running::{number, run};
use super::sessions::{CONSOLES, FILES, INFERIORS, LINKS};
use its_top::Status;
use std::alloc::Global;
use std::process::Abort;
use std::test::Fail;

/// Lines that disturb the job of a slot, `@`, parted by `#`. No session enables the bit of the INT.
static DISTURBANCES: &str = "EXAM @ 0 1
#STATE @
#STOP @
CONT @
#INT @ 0 400000
#PEEK @
STATE @
";

/// A session in four parts: its jobs, the lines with its ticks, its last lines, and what those
/// show.
#[derive(Clone, Copy)]
struct Session<'a> {
    jobs: &'a str,
    ticks: &'a str,
    last: &'a str,
    shown: &'a str,
}

/// The parts of a row.
fn parted<'a>(rt: &impl Abort, row: &'a str) -> Session<'a> {
    let (jobs, rest) = row.split_once("=").expect(rt, "ticks");
    let (ticks, rest) = rest.split_once("=").expect(rt, "last lines");
    let (last, shown) = rest.split_once("=").expect(rt, "what is shown");
    Session {
        jobs,
        ticks,
        last,
        shown,
    }
}

/// The place at which a session is disturbed: after so many of the ticks of a line, which is a
/// `TICK` line of this slot with so many ticks.
#[derive(Clone, Copy)]
struct Place<'a> {
    line: usize,
    slot: &'a str,
    ticks: u32,
    before: u32,
}

/// How many disturbed sessions were run, and how many of these were refused because the job was
/// gone.
#[derive(Clone, Copy)]
struct Counts {
    runs: u32,
    gone: u32,
}

const NONE: Counts = Counts { runs: 0, gone: 0 };

/// Appends lines that disturb the job of a slot.
fn push_for(text: &mut String, lines: &str, slot: &str) -> Result<(), Fail> {
    let mut is_first = true;
    for part in lines.split('@') {
        if !is_first {
            text.push_str(slot)?;
        }
        text.push_str(part)?;
        is_first = false;
    }
    Ok(())
}

/// The session with lines put in at a place.
fn with_lines(alloc: Global, s: &Session, at: &Place, lines: &str) -> Result<String, Fail> {
    let mut text = String::new(alloc);
    text.push_str(s.jobs)?;
    let mut k = 0usize;
    for line in s.ticks.split('\n') {
        if k == at.line {
            push_parted(alloc, &mut text, at, lines)?;
        } else {
            text.push_str(line)?;
            text.push('\n')?;
        }
        k = k.wrapping_add(1);
    }
    text.push_str(s.last)?;
    Ok(text)
}

/// Appends the `TICK` line of a place in two parts, with lines between them.
fn push_parted(alloc: Global, text: &mut String, at: &Place, lines: &str) -> Result<(), Fail> {
    let (slot, before) = (at.slot, at.before);
    let first = format!(in alloc; "TICK {slot} {before:o}\n")?;
    text.push_str(&first)?;
    push_for(text, lines, slot)?;
    let left = at.ticks.saturating_sub(before);
    if left > 0 {
        let second = format!(in alloc; "TICK {slot} {left:o}\n")?;
        text.push_str(&second)?;
    }
    Ok(())
}

/// The session with these lines put in at a place shows at its end what is wanted; or they are
/// refused, because the job is gone there. Both are counted.
fn shows(
    alloc: Global,
    rt: &impl Abort,
    s: &Session,
    at: &Place,
    lines: &str,
    wanted: &str,
    counts: &mut Counts,
) -> Result<(), Fail> {
    let session = with_lines(alloc, s, at, lines)?;
    let got = run(alloc, &session)?;
    let first = s
        .jobs
        .split('\n')
        .count()
        .wrapping_add(at.line)
        .wrapping_add(1);
    let gone = format!(in alloc; "\n? {first:o} NOJOB\n")?;
    counts.runs = counts.runs.wrapping_add(1);
    if got.wrote.ends_with(gone.as_bytes()) {
        counts.gone = counts.gone.wrapping_add(1);
        return Ok(());
    }
    assert!(rt; got.wrote.ends_with(wanted.as_bytes()), "in {session}");
    assert_eq!(rt; got.status, Status::Done, "in {session}");
    Ok(())
}

/// After each tick of a `TICK` line, and for each of the lines that disturb, the session shows at
/// its end what is wanted.
fn shows_after_each(
    alloc: Global,
    rt: &impl Abort,
    s: &Session,
    line: usize,
    text: &str,
    counts: &mut Counts,
) -> Result<(), Fail> {
    if let Some((_, rest)) = text.split_once("TICK ") {
        let (slot, count) = rest.split_once(" ").expect(rt, "ticks");
        let ticks = number(rt, count);
        for k in 0..ticks {
            let at = Place {
                line,
                slot,
                ticks,
                before: k + 1,
            };
            for lines in DISTURBANCES.split('#') {
                shows(alloc, rt, s, &at, lines, s.shown, counts)?;
            }
        }
    }
    Ok(())
}

/// Each session shows the same at its end, undisturbed and disturbed after each of its ticks. So
/// many are disturbed, and in so many of these the job is gone.
fn disturb_each(
    alloc: Global,
    rt: &impl Abort,
    rows: &str,
    runs: u32,
    gone: u32,
) -> Result<(), Fail> {
    let mut counts = NONE;
    for row in rows.split('#') {
        let s = parted(rt, row);
        let (jobs, ticks, last) = (s.jobs, s.ticks, s.last);
        let whole = format!(in alloc; "{jobs}{ticks}{last}")?;
        let got = run(alloc, &whole)?;
        assert!(rt; got.wrote.ends_with(s.shown.as_bytes()), "in {whole}");
        assert_eq!(rt; got.status, Status::Done, "in {whole}");
        let mut k = 0usize;
        for line in s.ticks.split('\n') {
            shows_after_each(alloc, rt, &s, k, line, &mut counts)?;
            k = k.wrapping_add(1);
        }
    }
    assert_eq!(rt; counts.runs, runs);
    assert_eq!(rt; counts.gone, gone);
    Ok(())
}

#[test]
fn calls_on_consoles(rt: HostRuntime) -> Result<(), Fail> {
    disturb_each(rt.alloc(), &rt, CONSOLES, 2815, 60)
}

#[test]
fn calls_on_files(rt: HostRuntime) -> Result<(), Fail> {
    disturb_each(rt.alloc(), &rt, FILES, 1430, 0)
}

#[test]
fn calls_on_links(rt: HostRuntime) -> Result<(), Fail> {
    disturb_each(rt.alloc(), &rt, LINKS, 865, 0)
}

#[test]
fn calls_on_inferiors(rt: HostRuntime) -> Result<(), Fail> {
    disturb_each(rt.alloc(), &rt, INFERIORS, 1735, 60)
}

/// A transfer of five bytes, of which ten are typed. Its count is set to 2 after these ticks, from
/// the first to the last number of a row, and it ends with the pointer and the count that the row
/// shows. The rows are for each of the 120 ticks.
static COUNTED: &str = "; SIOT
LOAD U X 0
100/ 43000000300 45700000000 43000000304 45700000000 43000000311
300/ 400000000000 576045560000 1000000001 400000000220 400000000000 635157640000 1000000001 200 400000000201 400000000000 504156470000 405000000000
200/ 440700001000 5
220/ 646471000000
1000/ 0 0
GO 100
TYPE 0 101 102 103 104 105 106 107 110 111 112
=TICK 0 120
=EXAM 0 200 2
=1 12 E 0 000200 260700001000 000000000000
13 14 E 0 000200 170700001000 000000000000
15 16 E 0 000200 100700001000 000000000000
17 20 E 0 000200 010700001000 000000000000
21 22 E 0 000200 350700001001 000000000000
23 24 E 0 000200 260700001001 000000000000
25 120 E 0 000200 010700001000 000000000002
";

#[test]
fn count_between_ticks(rt: HostRuntime) -> Result<(), Fail> {
    let alloc = rt.alloc();
    let s = parted(&rt, COUNTED);
    let mut counts = NONE;
    for row in s.shown.split('\n') {
        if let Some((first, rest)) = row.split_once(" ") {
            let (last, wanted) = rest.split_once(" ").expect(&rt, "what is shown");
            let wanted = format!(in alloc; "{wanted}\n")?;
            for before in number(&rt, first)..number(&rt, last).saturating_add(1) {
                let at = Place {
                    line: 0,
                    slot: "0",
                    ticks: 0o120,
                    before,
                };
                shows(
                    alloc,
                    &rt,
                    &s,
                    &at,
                    "DEPOSIT @ 201 2\n",
                    &wanted,
                    &mut counts,
                )?;
            }
        }
    }
    assert_eq!(rt; counts.runs, 0o120);
    assert_eq!(rt; counts.gone, 0);
    Ok(())
}
