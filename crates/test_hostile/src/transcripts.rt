//! What `verify` says of transcripts that a run wrote, and of changed ones: in each byte, in each
//! letter, and cut before each line.

use super::broken::{CLOSE, ECHO};
use super::running::{number, obey};
use its_top::Status;
use std::alloc::Global;
use std::process::Abort;
use std::test::Fail;

/// A job that makes an inferior, moves words into it, starts it and reads it.
static STARTER: &str = "LOAD U X 0
100/ 43000000200 45700000000 43000000210 45700000000 43000000220 45700000000
106/ 43000000230 45700000000 43000000240 45700000000 43000000250 45700000000
114/ 43000000260 45700000000 45700000000
200/ 400000000000 576045560000 5000000001 1000000001 500 501 400000000502
210/ 400000000000 435762425453 1000000001 1000000001 401000000000
220/ 400000000000 414343456363 1000000001 401000000100
230/ 400000000000 635157640000 1000000001 300 400000000301
240/ 400000000000 656362664162 1000000001 503 401000000100
250/ 400000000000 656362664162 1000000001 504 401000000000
260/ 400000000000 656362554555 1000000001 1000000100 402000000005
300/ 444400000400 5
400/ 43000000102 45700000000 400000000000 504156470000 405000000000
500/ 656362000000 650000000000 530000000000 656043000000 656364600000
GO 100
TICK 0 57
TICK 1 6
TICK 0 7
TICK 1 6
EXAM 0 5 1
";

/// What the sessions show, with a letter for each tick, and what becomes of each change of a byte,
/// and then of each change of a letter: how many are accepted, how many are refused at the line
/// that was changed, and how many at a later one.
///
/// A change of a byte is accepted in a line of PEEK, after its first word. A change of a letter is
/// accepted if the other letter is also licensed and nothing shown later distinguishes the two.
static CLOSE_SHOWS: &str = "J 0
T 0 ....*.....*.
T 0 ....
R 440000000000 1
F 410000000000 420000000000 2
T 0 *
P 0 ENDING 435457634500 4 - - -
R 440000000000 1
F 410000000000 420000000000 1
P 0 ENDING 435457634500 1 - - -
W 440000000000 410000000000 420000000000 1
/ 000000000123
T 0 .
=71 388 89, 1 36 17";

static STARTER_SHOWS: &str = "J 0
T 0 ....*.........*.....*.....******.......*.....*.
T 1 ....ww
T 0 ....*..
T 1 ....ww
E 0 000005 043000000102
=0 238 12, 54 132 12";

static ECHO_SHOWS: &str = "J 0
T 0 ....*.....*.....ww
Y 0 0
T 0 *......*.*..
D 0 141
=1 137 10, 12 78 0";

/// A session, and how many lines its transcripts have.
#[derive(Clone, Copy)]
struct Trial<'a> {
    session: &'a str,
    lines: u32,
}

/// How many changed transcripts are accepted, refused at the line that was changed, and refused at
/// a later one.
#[derive(Clone, Copy)]
struct Counts {
    accepted: u32,
    here: u32,
    later: u32,
}

const NONE: Counts = Counts {
    accepted: 0,
    here: 0,
    later: 0,
};

/// What `verify` says of a transcript of a session: whether it is accepted, and a number of lines.
fn judged(
    alloc: Global,
    rt: &impl Abort,
    session: &str,
    transcript: &str,
) -> Result<(bool, u32), Fail> {
    let input = format!(in alloc; "{session}{transcript}")?;
    let got = obey(alloc, "verify", input.as_bytes(), 512, (&[], &[]))?;
    let wrote = str::from_utf8(&got.wrote).expect(rt, "text");
    let (word, rest) = wrote.split_once(" ").expect(rt, "a number");
    let accepted = got.status == Status::Done;
    assert!(rt; accepted || got.status == Status::Refused);
    assert_eq!(rt; word, if accepted { "YES" } else { "NO" });
    Ok((accepted, number(rt, rest.trim_end())))
}

/// Counts what is said of a transcript that was changed in a line.
fn count(
    alloc: Global,
    rt: &impl Abort,
    of: Trial,
    transcript: &str,
    line: u32,
    counts: &mut Counts,
) -> Result<(), Fail> {
    let (accepted, number) = judged(alloc, rt, of.session, transcript)?;
    if accepted {
        assert_eq!(rt; number, of.lines, "of {transcript}");
        counts.accepted = counts.accepted.wrapping_add(1);
    } else if number == line {
        counts.here = counts.here.wrapping_add(1);
    } else {
        assert!(rt; number > line, "of {transcript}");
        counts.later = counts.later.wrapping_add(1);
    }
    Ok(())
}

/// What is put in place of a byte in turn, parted by spaces: each other letter, another digit,
/// another byte; an LF is taken out.
fn others(byte: char) -> &'static str {
    match byte {
        '*' => ". w -",
        '.' => "* w -",
        'w' => "* . -",
        '-' => "* . w",
        '0' => "1",
        '1'..='7' => "0",
        '\n' => "",
        _ => "x",
    }
}

/// A text with this one in place of its byte at a place.
fn replaced(alloc: Global, text: &str, place: usize, put: &str) -> Result<String, Fail> {
    let mut changed = String::new(alloc);
    for (k, c) in text.chars().enumerate() {
        if k == place {
            changed.push_str(put)?;
        } else {
            changed.push(c)?;
        }
    }
    Ok(changed)
}

/// Appends the letters of a line as runs.
fn push_runs(alloc: Global, text: &mut String, letters: &str) -> Result<(), Fail> {
    let mut letter = ' ';
    let mut more = 0u32;
    for c in letters.chars() {
        if c != letter && more > 0 {
            let run = format!(in alloc; " {more:o}{letter}")?;
            text.push_str(&run)?;
            more = 0;
        }
        letter = c;
        more = more.wrapping_add(1);
    }
    let run = format!(in alloc; " {more:o}{letter}")?;
    text.push_str(&run)?;
    Ok(())
}

/// The transcript that has these lines with a letter for each tick.
fn printed(alloc: Global, rt: &impl Abort, lines: &str) -> Result<String, Fail> {
    let mut text = String::new(alloc);
    for line in lines.lines() {
        if line.starts_with("T") {
            let (slot, letters) = line.rsplit_once(" ").expect(rt, "letters");
            text.push_str(slot)?;
            push_runs(alloc, &mut text, letters)?;
        } else {
            text.push_str(line)?;
        }
        text.push('\n')?;
    }
    Ok(text)
}

/// Changes each byte of a transcript, and puts an LF in after it.
fn change_bytes(
    alloc: Global,
    rt: &impl Abort,
    of: Trial,
    transcript: &str,
) -> Result<Counts, Fail> {
    let mut counts = NONE;
    let mut line = 1u32;
    for (k, c) in transcript.chars().enumerate() {
        for put in others(c).split(' ') {
            let changed = replaced(alloc, transcript, k, put)?;
            count(alloc, rt, of, &changed, line, &mut counts)?;
        }
        let put = format!(in alloc; "{c}\n")?;
        let changed = replaced(alloc, transcript, k, &put)?;
        count(alloc, rt, of, &changed, line, &mut counts)?;
        if c == '\n' {
            line = line.wrapping_add(1);
        }
    }
    Ok(counts)
}

/// Changes each letter of a transcript that has one for each tick; no other line has such bytes.
fn change_letters(alloc: Global, rt: &impl Abort, of: Trial, lines: &str) -> Result<Counts, Fail> {
    let mut counts = NONE;
    let mut line = 1u32;
    for (k, c) in lines.chars().enumerate() {
        if matches!(c, '*' | '.' | 'w') {
            for put in others(c).split(' ') {
                let changed = replaced(alloc, lines, k, put)?;
                let changed = printed(alloc, rt, &changed)?;
                count(alloc, rt, of, &changed, line, &mut counts)?;
            }
        }
        if c == '\n' {
            line = line.wrapping_add(1);
        }
    }
    Ok(counts)
}

/// Cuts a transcript before each of its lines, which is then missing; and puts a line after it. It
/// has as many lines as is answered.
fn cut_lines(alloc: Global, rt: &impl Abort, session: &str, transcript: &str) -> Result<u32, Fail> {
    let mut cut = String::new(alloc);
    let mut before = 0u32;
    for line in transcript.lines() {
        before = before.wrapping_add(1);
        assert_eq!(rt;
            judged(alloc, rt, session, &cut)?,
            (false, before),
            "of {cut}"
        );
        cut.push_str(line)?;
        cut.push('\n')?;
    }
    assert_eq!(rt;
        judged(alloc, rt, session, &cut)?,
        (true, before),
        "of {cut}"
    );
    cut.push_str("T 0 1.\n")?;
    let missed = before.wrapping_add(1);
    assert_eq!(rt;
        judged(alloc, rt, session, &cut)?,
        (false, missed),
        "of {cut}"
    );
    Ok(before)
}

/// Changes the transcript of a session that ends there.
fn change(alloc: Global, rt: &impl Abort, session: &str, row: &str) -> Result<(), Fail> {
    let session = format!(in alloc; "{session}END\n")?;
    let (letters, wanted) = row.split_once("=").expect(rt, "counts");
    let transcript = printed(alloc, rt, letters)?;
    let ran = obey(alloc, "run", session.as_bytes(), 512, (&[], &[]))?;
    assert_eq!(rt; ran.wrote.as_slice(), transcript.as_bytes(), "of {session}");
    let lines = cut_lines(alloc, rt, &session, &transcript)?;
    let of = Trial {
        session: &session,
        lines,
    };
    let b = change_bytes(alloc, rt, of, &transcript)?;
    let l = change_letters(alloc, rt, of, letters)?;
    let counts = format!(in alloc;
        "{} {} {}, {} {} {}",
        b.accepted, b.here, b.later, l.accepted, l.here, l.later
    )?;
    assert_eq!(rt; counts.as_str(), wanted, "of {session}");
    Ok(())
}

#[test]
fn changed_transcripts(rt: HostRuntime) -> Result<(), Fail> {
    let alloc = rt.alloc();
    change(alloc, &rt, CLOSE, CLOSE_SHOWS)?;
    change(alloc, &rt, STARTER, STARTER_SHOWS)?;
    change(alloc, &rt, ECHO, ECHO_SHOWS)
}

/// Inputs, and what is said of each: a session ends at its first END line, whatever place it has
/// and whatever follows.
static ANSWERS: &str = "FILE D A B
END
? 2 SYNTAX
=YES 1
#FILE D A B
/ 1
END
=NO 1
#TICK 0 1
END 1
END
T 0 1-
? 2 SYNTAX
=YES 2
#END
END
=NO 1
#STATE 0
END
? 1 NOJOB
END
=NO 2
#LOAD U X -
GO 0
PEEK 0
END
J 0
  P
=YES 2
#LOAD U X -
GO 0
PEEK 0
END
J 0
PP
=NO 2
#LOAD U X -
GO 0
PEEK 0
END
J 0
P=NO 2
";

#[test]
fn answers(rt: HostRuntime) -> Result<(), Fail> {
    for row in ANSWERS.split('#') {
        let (input, wanted) = row.split_once("=").expect(&rt, "an answer");
        let got = obey(rt.alloc(), "verify", input.as_bytes(), 1, (&[], &[]))?;
        assert_eq!(rt; got.wrote.as_slice(), wanted.as_bytes(), "of {input}");
    }
    Ok(())
}
