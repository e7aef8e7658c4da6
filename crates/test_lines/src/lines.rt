//! Lines of all kinds, and the limits of a session: rows, many jobs, long lines, and sources and
//! sinks that fail.

ghost use Rattle.std.specs.Prelude.{◌≢◌, ◌≤◌};

use its_io::{SafeSink, SafeSource};
use its_top::{Status, its};
use std::alloc::Global;
use std::process::Abort;
use std::test::Fail;
use test_rows::{compare, line, obey, show_row, shows, times};

pub const FIRST: &str =
    "LOAD U J -\n100/ 201040000005 202040000200\nGO 100\nTICK 0 2\nEXAM 0 200 1\nEND\n";

const FIRST_OUT: &str = "J 0\nT 0 2*\nE 0 000200 000000000005\n";

/// Rows of all kinds of lines.
static ROWS: &str = "LOAD U J - = J 0
100: MOVEI 1,5 | MOVEM 1,200
GO 100
TICK 0 2 = T 0 2*
EXAM 0 200 1 = E 0 000200 000000000005
END
##END#LOAD U J - = J 0
100/ 2010 = ? 3 CUT#TICK 0 = ? 1 SYNTAX
#TICK 5 3 = T 5 3-
#LOAD U J - = J 0
100: .BREAK 16,
GO 100
TICK 0 4 = T 0 2* 2-
#LOAD U J - = J 0
100: MOVEI 1,5 | MOVEM 1,200
GO 100
TICK 0 2 = T 0 2*
EXAM 0 2000 1 = ? 5 NOPAGE
END
#STATE 0 = ? 1 NOJOB
#DRAIN 10 1 = ? 1 NOCONS
#DIR U = R 650000000000 0
#
; a comment
PEEK 0 = ? 3 NOJOB
#; a block transfer whose accumulator is its last destination
LOAD U X 0 = J 0
17/ 001000000000
100: BLT 17,17
1000/ 1 2 3 4 5 6 7 10 11 12 13 14 15 16 17 20
GO 100
TICK 0 3 = T 0 3*
EXAM 0 17 1 = E 0 000017 001003000003
TICK 0 15 = T 0 15*
EXAM 0 16 2 = E 0 000016 000000000017 000000000020
#; ILDB whose second half faults, twice: the pointer is incremented once
LOAD U J - = J 0
10/ 440700002000
100: ILDB 1,10
GO 100
TICK 0 4 = T 0 3* 1-
EXAM 0 10 1 = E 0 000010 350700002000
STATE 0 = S 0 650000000000 520000000000 - - STOP 030000000100 000000000004 000000000000 000000000000 000000000000 000000000000 000000000000
CONT 0
TICK 0 3 = T 0 2* 1-
EXAM 0 10 1 = E 0 000010 350700002000
#; what STATE shows, and an interrupt that stops the job
LOAD U J - = J 0
100: MOVEI 1,5 | MOVEM 1,200
GO 100
TICK 0 2 = T 0 2*
STATE 0 = S 0 650000000000 520000000000 - - RUN 010000000102 000000000000 000000000000 000000000000 000000000000 000000000000 000000000000
INT 0 4 0
TICK 0 2 = T 0 1* 1-
STATE 0 = S 0 650000000000 520000000000 - - STOP 010000000102 000000000004 000000000000 000000000000 000000000000 000000000000 000000000000
CONT 0
STATE 0 = S 0 650000000000 520000000000 - - RUN 010000000102 000000000000 000000000000 000000000000 000000000000 000000000000 000000000000
#; DEPOSIT changes a program that stands stopped
LOAD U J 3 = J 0
100/ 0
GO 100
STOP 0
TICK 0 1 = T 0 1-
DEPOSIT 0 100 201040000007
DEPOSIT 0 5 1
CONT 0
TICK 0 1 = T 0 1*
EXAM 0 1 1 = E 0 000001 000000000007
EXAM 0 5 1 = E 0 000005 000000000001
DEPOSIT 0 4000 1 = ? 15 NOPAGE
#; the last address, an a/ line that crosses a page, and the clean page behind it
LOAD U J - = J 0
777777/ 1
1777/ 2 3
GO 0
EXAM 0 777777 1 = E 0 777777 000000000001
EXAM 0 1777 2 = E 0 001777 000000000002 000000000003
EXAM 0 3777 1 = E 0 003777 000000000000
EXAM 0 3777 2 = ? 11 NOPAGE
#LOAD U J - = J 0
777777/ 1 2 = ? 2 RANGE
#; two jobs that take turns
LOAD A X - = J 0
100: ADDI 1,1 | JRST 100
GO 100
LOAD B X - = J 1
100: ADDI 1,2 | JRST 100
GO 100
TICK 0 3 = T 0 3*
TICK 1 5 = T 1 5*
TICK 0 1 = T 0 1*
EXAM 0 1 1 = E 0 000001 000000000002
EXAM 1 1 1 = E 1 000001 000000000006
TICK 2 1 = T 2 1-
#; a sort of eight words, 318 units and the stop by `.BREAK`
LOAD U J - = J 0
100: MOVEI 1,7 | MOVEI 2,0 | MOVE 3,200(2) | CAMG 3,201(2) | JRST 107 | EXCH 3,201(2) | MOVEM 3,200(2) | ADDI 2,1 | CAIGE 2,7 | JRST 102 | SOJG 1,101 | .BREAK 16,
200/ 5 3 7 1 777777777777 2 6 4
GO 100
TICK 0 1000 = T 0 477* 301-
EXAM 0 200 10 = E 0 000200 777777777777 000000000001 000000000002 000000000003 000000000004 000000000005 000000000006 000000000007
#GO 0 = ? 1 SYNTAX
#; the clock stays below 2^34
CLOCK 177777777777
CLOCK 1 = ? 3 RANGE
#; bytes beyond the 64 that wait are dropped; nothing waits as output
TYPE 0 101 101 101 101 101 101 101 101 101 101 101 101 101 101 101 101 101 101 101 101 101 101 101 101 101 101 101 101 101 101 101 101 = Y 0 0
TYPE 0 102 102 102 102 102 102 102 102 102 102 102 102 102 102 102 102 102 102 102 102 102 102 102 102 102 102 102 102 = Y 0 0
TYPE 0 103 103 103 103 103 103 103 103 103 103 103 103 103 103 103 103 103 103 103 103 103 103 103 103 103 103 103 103 103 103 103 103 = Y 0 34
TYPE 0 104 = Y 0 1
TYPE 7 0 177 = Y 7 0
DRAIN 0 100 = D 0
DRAIN 7 1 = D 7
DRAIN 10 1 = ? 11 NOCONS
#; jobs with the same console
LOAD A X 3 = J 0
GO 0
LOAD B X 3 = J 1
GO 0
STATE 0 = S 0 410000000000 700000000000 - 3 RUN 010000000000 000000000000 000000000000 000000000000 000000000000 000000000000 000000000000
STATE 1 = S 1 420000000000 700000000000 - 3 RUN 010000000000 000000000000 000000000000 000000000000 000000000000 000000000000 000000000000
TYPE 3 101 = Y 3 0
LOAD C X 10 = ? 11 NOCONS
";

#[test]
fn rows_of_all_kinds(rt: HostRuntime) -> Result<(), Fail> {
    compare(rt.alloc(), "", ROWS)
}

/// An echo of 64 bytes, which fill the input and then the output. A byte more that is typed is
/// dropped; one that is typed later is taken, and put out once a byte is drained.
#[test]
fn full_lists(rt: HostRuntime) -> Result<(), Fail> {
    let alloc = rt.alloc();
    let echoed = " 1* 6. 1* 1. 1* 4.";
    let mut row = "LOAD U X 0 = J 0\n!ECHO\n".to_string(alloc)?;
    for _ in 0..2u32 {
        times(&mut row, "TYPE 0", " 101", 32, " = Y 0 0\n")?;
    }
    let first = "TYPE 0 102 = Y 0 1\nTICK 0 1000 = T 0 4. 1* 5. 1* 5.";
    times(&mut row, first, echoed, 35, " 1* 5.\n")?;
    let second = "TICK 0 620 = T 0 1. 1* 1. 1* 4.";
    times(&mut row, second, echoed, 28, "\nTYPE 0 103 = Y 0 0\n")?;
    row.push_str("TICK 0 10 = T 0 1* 6. 1w\nDRAIN 0 1 = D 0 101\nTICK 0 1 = T 0 1*\n")?;
    times(&mut row, "DRAIN 0 100 = D 0", " 101", 63, " 103\n")?;
    show_row(alloc, &row)
}

#[test]
fn limits(rt: HostRuntime) -> Result<(), Fail> {
    let alloc = rt.alloc();
    // 64 jobs, and one more
    let mut jobs = String::new(alloc);
    for k in 0..64u32 {
        line(&mut jobs, &format!(in alloc; "LOAD U J - = J {k:o}\nGO 0")?)?;
    }
    jobs.push_str("LOAD U J - = ? 201 FULL\n")?;
    show_row(alloc, &jobs)?;
    // lines of 255 and of 256 bytes
    let mut long = String::new(alloc);
    times(&mut long, "", ";", 255, "")?;
    shows(alloc, &long, "")?;
    long.push(';')?;
    shows(alloc, &long, "? 1 LONG\n")?;
    // line 1048577 begins
    let mut lines = String::new(alloc);
    times(&mut lines, "", "\n", 1048576, "")?;
    let got = obey(alloc, " run", lines.as_bytes(), 512, (&[], &[]))?;
    assert_eq!(rt; (got.status, got.wrote.len()), (Status::Done, 0));
    lines.push('\n')?;
    let got = obey(alloc, " run", lines.as_bytes(), 512, (&[], &[]))?;
    assert_eq!(rt; (got.status, got.wrote.len()), (Status::TooLong, 0));
    Ok(())
}

/// A session is run from a source that gives so many bytes a call; these calls fail. It is answered
/// by this status, and this is written.
fn writes(
    alloc: Global,
    rt: &impl Abort,
    session: &[u8],
    piece: usize,
    fails: (&[u64], &[u64]),
    wanted: (&str, Status),
) -> Result<(), Fail>
    requires { 1 ≤ piece }
{
    let got = obey(alloc, " run", session, piece, fails)?;
    assert_eq!(rt; got.wrote.as_slice(), wanted.0.as_bytes());
    assert_eq!(rt; got.status, wanted.1);
    Ok(())
}

/// A session whose second read fails shows when its lines were answered: what was written is that
/// of the first read alone.
#[test]
fn moments(rt: HostRuntime) -> Result<(), Fail> {
    let alloc = rt.alloc();
    let first = FIRST.as_bytes();
    let mut long = String::new(alloc);
    times(&mut long, "", ";", 512, "")?;
    let long = long.as_bytes();
    let second = (&[1][..], &[][..]);
    // byte 256 of a line is LONG at once
    writes(
        alloc,
        &rt,
        long,
        256,
        second,
        ("? 1 LONG\n", Status::Refused),
    )?;
    writes(alloc, &rt, long, 255, second, ("", Status::ReadFault))?;
    // a line is answered at its LF; that of the TICK line is byte 58
    writes(
        alloc,
        &rt,
        first,
        58,
        second,
        ("J 0\nT 0 2*\n", Status::ReadFault),
    )?;
    writes(alloc, &rt, first, 57, second, ("J 0\n", Status::ReadFault))
}

/// However the source cuts the session, and whenever the source or the sink fails.
#[test]
fn objects(rt: HostRuntime) -> Result<(), Fail> {
    let alloc = rt.alloc();
    let first = FIRST.as_bytes();
    let done = (FIRST_OUT, Status::Done);
    writes(alloc, &rt, first, 1, (&[], &[]), done)?;
    writes(alloc, &rt, first, 2, (&[], &[]), done)?;
    writes(alloc, &rt, first, 3, (&[], &[]), done)?;
    writes(alloc, &rt, first, 511, (&[], &[]), done)?;
    writes(
        alloc,
        &rt,
        first,
        512,
        (&[], &[1]),
        ("J 0\n", Status::WriteFault),
    )?;
    writes(alloc, &rt, first, 512, (&[0], &[]), ("", Status::ReadFault))
}

/// Over objects that never fail, no fault is answered.
fn safely(alloc: Global, words: &[String], src: &mut SafeSource, out: &mut SafeSink) -> Status
    ensures read { result ≢ Status.ReadFault }
    ensures written { result ≢ Status.WriteFault }
{
    its(alloc, words, src, out)
}

#[test]
fn safe_objects(rt: HostRuntime) -> Result<(), Fail> {
    let alloc = rt.alloc();
    let mut words = Vec::new(alloc);
    words.push("run".to_string(alloc)?)?;
    let mut src = SafeSource::open(alloc, FIRST.as_bytes())?;
    assert_eq!(rt;
        safely(alloc, &words, &mut src, &mut SafeSink::new()),
        Status::Done
    );
    Ok(())
}
