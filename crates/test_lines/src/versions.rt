//! Sessions of both versions of the session text: how many jobs there can be, read-only pages,
//! symbols and LIST.

use std::alloc::Global;
use std::test::Fail;
use test_rows::{compare, line, show_row};

static VERSIONS: &str = "VERSION 2
LOAD U J - = J 0
100: MOVEM 1,200
RO 0
SYM START 100
GO 100
TICK 0 3 = T 0 2* 1-
STATE 0 = S 0 650000000000 520000000000 - - STOP 010000000100 000000000010 000000000000 000000000000 000000000000 000000000000 000000000000 636441626400 0
#VERSION 3 = ? 1 RANGE
#; line 1 alone has a version
VERSION 2 = ? 2 SYNTAX
#
VERSION 1 = ? 2 SYNTAX
#VERSION 1
TICK 77 1 = T 77 1-
LOAD U J - = J 0
GO 100
STATE 0 = S 0 650000000000 520000000000 - - RUN 010000000100 000000000000 000000000000 000000000000 000000000000 000000000000 000000000000
TICK 100 1 = ? 6 RANGE
#VERSION 1
LOAD U J - = J 0
100/ 1
RO 0 = ? 4 SYNTAX
#VERSION 2
TICK 137 1 = T 137 1-
STATE 137 = ? 3 NOJOB
#VERSION 2
PEEK 140 = ? 2 RANGE
#VERSION 2
; only a page that is there becomes read only
LOAD U J - = J 0
2000/ 1
RO 0 = ? 5 NOPAGE
#VERSION 2
; a read-only page is read, and not stored to by the program or by the operator; accumulators are in no page
LOAD U J - = J 0
5/ 7
100: MOVE 1,200 | MOVEM 1,201
200/ 123
RO 0
GO 100
EXAM 0 100 2 = E 0 000100 200040000200 202040000201
TICK 0 4 = T 0 3* 1-
STATE 0 = S 0 650000000000 520000000000 - - STOP 010000000101 000000000010 000000000000 000000000000 000000000000 000000000000 000000000000 - -
EXAM 0 200 2 = E 0 000200 000000000123 000000000000
DEPOSIT 0 1 5
EXAM 0 1 1 = E 0 000001 000000000005
DEPOSIT 0 100 0 = ? 17 READONLY
#VERSION 2
; a second line over it, whose first word is on a page that is writable
LOAD U J - = J 0
1776/ 1 2 3
RO 1
1775/ 4 5 6
1776/ 4 5 6 = ? 7 READONLY
#VERSION 2
; and one whose first word needs a page
LOAD U J - = J 0
4000/ 1
RO 2
3777/ 1 2 = ? 6 READONLY
#VERSION 2
; the last of equal symbols, one that is above the PC, and none at most the PC
LOAD U J - = J 0
100: JRST 77 | JRST 103
103: JRST 100
SYM ABOVE 104
SYM FIRST 100
SYM LAST 100
SYM SECOND 101
SYM LAST 101
GO 77
STATE 0 = S 0 650000000000 520000000000 - - RUN 010000000077 000000000000 000000000000 000000000000 000000000000 000000000000 000000000000 - -
DEPOSIT 0 77 254000000100
TICK 0 1 = T 0 1*
STATE 0 = S 0 650000000000 520000000000 - - RUN 010000000100 000000000000 000000000000 000000000000 000000000000 000000000000 000000000000 544163640000 0
DEPOSIT 0 100 254000000101
TICK 0 1 = T 0 1*
STATE 0 = S 0 650000000000 520000000000 - - RUN 010000000101 000000000000 000000000000 000000000000 000000000000 000000000000 000000000000 544163640000 0
TICK 0 1 = T 0 1*
STATE 0 = S 0 650000000000 520000000000 - - RUN 010000000103 000000000000 000000000000 000000000000 000000000000 000000000000 000000000000 544163640000 2
#VERSION 2
; a job that is made in the slot of one that is gone has none of its symbols
LOAD U J - = J 0
100: .CALL 120
120: SETZ | SIXBIT LOGOUT | 405000,,0
SYM START 100
GO 100
TICK 0 6 = T 0 4. 1* 1-
LOAD U J - = J 0
GO 100
STATE 0 = S 0 650000000000 520000000000 - - RUN 010000000100 000000000000 000000000000 000000000000 000000000000 000000000000 000000000000 - -
#VERSION 2
; words typed out, and none where one of their pages is absent
LOAD U J - = J 0
100: MOVEI 1,5 | MOVEM 1,200 | .BREAK 16,
SYM X 000200
GO 000100
TICK 0 2 = T 0 2*
LIST 0 100 2 = L 0 000100 MOVEI 1,5
= L 0 000101 MOVEM 1,200
LIST 0 200 2 = L 0 000200 WORD 0,,5
= L 0 000201 WORD 0,,0
LIST 0 16 4 = L 0 000016 WORD 0,,0
= L 0 000017 WORD 0,,0
= L 0 000020 WORD 0,,0
= L 0 000021 WORD 0,,0
LIST 0 1777 2 = ? 13 NOPAGE
#VERSION 2
LIST 0 0 1 = ? 2 NOJOB
#LIST 0 0 1 = ? 1 SYNTAX
#VERSION 2
; a job that sleeps: PEEK leaves it in its call, and LIST finds its new argument stored and the call left
LOAD U J - = J 0
100: .CALL 120
120: SETZ | SIXBIT SLEEP | SETZ 200
200/ 36
GO 100
TICK 0 6 = T 0 4. 1* 1w
PEEK 0 = P 0 WAITING 635445456000 2 000000000036 - -
CLOCK 12
LIST 0 200 1 = L 0 000200 WORD 777777,,777742
PEEK 0 = P 0 USER - 0 - - -
";

/// 96 jobs that are all in HANG, and one more.
fn many_jobs(alloc: Global) -> Result<(), Fail> {
    let mut row = "VERSION 2\n".to_string(alloc)?;
    for k in 0..96u32 {
        let job = format!(in alloc; "LOAD U J - = J {k:o}\n!HANGS\nTICK {k:o} 5 = T {k:o} 4. 1w")?;
        line(&mut row, &job)?;
    }
    row.push_str("PEEK 0 = P 0 WAITING 504156470000 1 - - -\n")?;
    row.push_str("PEEK 137 = P 137 WAITING 504156470000 1 - - -\nLOAD U J - = ? 604 FULL\n")?;
    show_row(alloc, &row)
}

/// 512 symbols of a job, of which the one at 177 is the nearest to the PC, and one more.
fn many_symbols(alloc: Global) -> Result<(), Fail> {
    let mut row = "VERSION 2\nLOAD U J - = J 0\n".to_string(alloc)?;
    for k in 0..512u32 {
        line(&mut row, &format!(in alloc; "SYM S{k:o} {k:o}")?)?;
    }
    let full = format!(in alloc; "{row}SYM S 0 = ? 1003 FULL\n")?;
    row.push_str(
        "GO 177\nSTATE 0 = S 0 650000000000 520000000000 - - RUN 010000000177 000000000000 000000000000 000000000000 000000000000 000000000000 000000000000 632127270000 0\n",
    )?;
    show_row(alloc, &row)?;
    show_row(alloc, &full)
}

/// 96 jobs that have 1023 pages: the CORBLK of the last one makes the last of all pages, and that
/// of another fails with error 15.
fn many_pages(alloc: Global) -> Result<(), Fail> {
    let mut row = "VERSION 2\n".to_string(alloc)?;
    for k in 0..96u32 {
        line(
            &mut row,
            &format!(in alloc; "LOAD U X - = J {k:o}\n!TAKER")?,
        )?;
        let count = if k < 63 { 11u32 } else { 10 };
        for page in 1..count {
            let at = page.wrapping_mul(1024);
            line(&mut row, &format!(in alloc; "{at:o}/ 0")?)?;
        }
        line(&mut row, "GO 100")?;
    }
    row.push_str("TICK 137 12 = T 137 10. 1* 1.\nEXAM 137 776000 1 = E 137 776000 000000000000\n")?;
    row.push_str("TICK 136 14 = T 136 10. 1* 3.\nEXAM 136 10 1 = E 136 000010 000000000015\n")?;
    show_row(alloc, &row)
}

#[test]
fn versions(rt: HostRuntime) -> Result<(), Fail> {
    compare(rt.alloc(), "", VERSIONS)?;
    many_jobs(rt.alloc())?;
    many_symbols(rt.alloc())?;
    many_pages(rt.alloc())
}
