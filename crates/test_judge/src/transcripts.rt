//! The checker of transcripts: how it reads lines, which of them end a session, and what decides at
//! the end of its input.

use its_io::MemSource;
use its_reader::Texts;
use its_records::Pace;
use its_verify::{Broken, Outcome, Part, Room, is_end_line, is_peek, keep, read_ticks, verify};
use its_word::{Slot, read_octal};
use std::alloc::Global;
use std::process::Abort;
use std::test::Fail;

/// What a line says of so many ticks of slot 5: these runs, each as a letter and how many of it, or
/// nothing.
fn says(rt: &impl Abort, line: &[u8], count: u32, runs: Option<&[(Pace, u32)]>) {
    let mut room = Room::new();
    let is_read = read_ticks(line, Slot::new(5), count.min(512), &mut room);
    match (is_read.then_some(&room.runs), runs) {
        (Some(read), Some(runs)) => {
            assert_eq!(rt; read.len(), runs.len(), "at {line:?}");
            for (run, (pace, number)) in read.iter().zip(runs) {
                assert_eq!(rt; run.pace, *pace, "at {line:?}");
                assert_eq!(rt; u64::from(run.more) + 1, u64::from(*number), "at {line:?}");
            }
        }
        (None, None) => {}
        _ => assert!(rt; false, "at {line:?}"),
    }
}

/// Lines that say nothing of so many ticks of slot 5, each after their number.
static UNREAD: &str =
    "5=T 5 2. 1* 1w 1-#5=T 5 1. 1. 1* 1w 1-\n#4=T 5 2. 1* 1w 1-\n#5=T 5 2. 1* 1w\n#5=T 6 2. 1* 1w 1-\n#5=T  5 2. 1* 1w 1-\n#5=T 5 02. 1* 1w 1-\n#5=T 5 0- 2. 1* 1w 1-\n#1000=T 5 777777777777777777777777777777.\n#1000=T 5 1001*\n#1=";

/// Lines of PEEK, and lines that are none.
static PEEKS: &str = "P 0 USER - 0 - - -\n#P\n#  P x\n";

static NO_PEEKS: &str = "P#PP\n#x P\n#P\nP\n#\n#";

#[test]
fn reads_lines(rt: HostRuntime) -> Result<(), Fail> {
    let runs = [
        (Pace::Work, 2),
        (Pace::Step, 1),
        (Pace::Wait, 1),
        (Pace::Off, 1),
    ];
    says(&rt, b"T 5 2. 1* 1w 1-\n", 5, Some(&runs));
    says(&rt, b"T 5 1000*\n", 512, Some(&[(Pace::Step, 512)]));
    for row in UNREAD.split('#') {
        let (count, line) = row.split_once("=").ok_or("a line")?;
        let count = read_octal(count.as_bytes())?.right();
        says(&rt, line.as_bytes(), count, None);
    }
    for line in PEEKS.split('#') {
        assert!(rt; is_peek(line.as_bytes()), "at {line:?}");
    }
    for line in NO_PEEKS.split('#') {
        assert!(rt; !is_peek(line.as_bytes()), "at {line:?}");
    }
    Ok(())
}

/// A line of PEEK has at most 1543 bytes before its LF.
#[test]
fn longest_peeks(rt: HostRuntime) {
    let mut line = [b'P'; 1545];
    line[1] = b' ';
    line[1543] = b'\n';
    assert!(rt; is_peek(&line[..1544]));
    line[1543] = b'P';
    line[1544] = b'\n';
    assert!(rt; !is_peek(&line));
}

/// Lines that end a session, and lines that do not.
static ENDS: &str = "END\n#END#  END  \n";

static NO_ENDS: &str = "END ;\n#ENDS\n#; END\n#EN D\n#\n#";

#[test]
fn ends_of_sessions(rt: HostRuntime) {
    for line in ENDS.split('#') {
        assert!(rt; is_end_line(line.as_bytes()), "at {line:?}");
    }
    for line in NO_ENDS.split('#') {
        assert!(rt; !is_end_line(line.as_bytes()), "at {line:?}");
    }
}

/// Inputs, each after the line that is the first not to be licensed.
static DECIDED: &str = "1=END\nx#1=END\n\n#2=STATE 0\nEND\n? 1 NOJOB\n?";

/// Inputs that may go on.
static UNDECIDED: &str = "END\n#STATE 0\nEND\n? 1 NOJOB#STATE 0\nEND\n? 1 NOJOB\n";

/// What is found of an input whose source then fails.
fn found(alloc: Global, input: &str) -> Result<Result<Outcome, Broken>, Fail> {
    let mut src = MemSource::open(alloc, input.as_bytes(), 512, &[1])?;
    Ok(verify(alloc, &mut src))
}

/// If all lines that the session has are licensed, the next byte decides, and that the source then
/// fails changes nothing. If there is no such byte, or a line lacks its LF, nothing is decided.
#[test]
fn one_byte_past_the_end(rt: HostRuntime) -> Result<(), Fail> {
    for row in DECIDED.split('#') {
        let (line, input) = row.split_once("=").ok_or("an input")?;
        let line = read_octal(line.as_bytes())?.right();
        assert_eq!(rt;
            found(rt.alloc(), input)?,
            Ok(Outcome::No(line)),
            "at {input:?}"
        );
    }
    for input in UNDECIDED.split('#') {
        assert_eq!(rt;
            found(rt.alloc(), input)?,
            Err(Broken::Source),
            "at {input:?}"
        );
    }
    Ok(())
}

/// Two lines are kept, and the transcript is left.
#[test]
fn a_session_is_kept(rt: HostRuntime) -> Result<(), Fail> {
    let input = b"STATE 0\nEND\nS 0\n";
    let mut src = MemSource::open(rt.alloc(), input, 7, &[])?;
    let mut texts = Texts::new(255);
    let mut session = Vec::new(rt.alloc());
    assert_eq!(rt; keep(&mut texts, &mut src, &mut session), Ok(Part::Session));
    assert_eq!(rt; session.as_slice(), b"STATE 0\nEND\n".as_slice());
    assert_eq!(rt; texts.number, 2);
    Ok(())
}

/// A job that opens its console, moves three bytes to it by SIOT, and stops.
static MOVES: &str =
    "VERSION 2\nLOAD U B 0\n100/ 43000000120 45700000000 43000000130 45700000000 45700000000\n120/ 400000000000 576045560000 5000000001 1000000001 400000000150\n130/ 400000000000 635157640000 1000000001 151 400000000153\n150/ 646471000000 440700000152 406050000000 3\nGO 100\nTICK 0 20\nDRAIN 0 10\nEND\nJ 0\nT 0 ";

/// What its ticks may show, and what they may not: as many `*` as OPEN, the bytes, the end of SIOT
/// and a unit are, and no more.
static LICENSED: &str = "4. 1* 5. 4* 2.#1* 1. 4* 12.#6* 12.#3. 4* 11.";

static UNLICENSED: &str = "4. 1* 5. 3* 1w 2.#7* 11.#10* 10.";

/// What is found of that session, if its ticks show this.
fn moved(alloc: Global, ticks: &str) -> Result<Result<Outcome, Broken>, Fail> {
    let mut input = Vec::new(alloc);
    input.extend_from_slice(MOVES.as_bytes())?;
    input.extend_from_slice(ticks.as_bytes())?;
    input.extend_from_slice(b"\nD 0 101 102 100\n")?;
    let mut src = MemSource::open(alloc, &input, 512, &[])?;
    Ok(verify(alloc, &mut src))
}

/// Parts of one call in a row are licensed as they are one by one.
#[test]
fn parts_in_a_row(rt: HostRuntime) -> Result<(), Fail> {
    for ticks in LICENSED.split('#') {
        assert_eq!(rt;
            moved(rt.alloc(), ticks)?,
            Ok(Outcome::Yes(3)),
            "at {ticks:?}"
        );
    }
    for ticks in UNLICENSED.split('#') {
        assert_eq!(rt;
            moved(rt.alloc(), ticks)?,
            Ok(Outcome::No(2)),
            "at {ticks:?}"
        );
    }
    Ok(())
}
