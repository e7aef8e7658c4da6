//! Sessions of jobs that make, drop and protect pages, with their transcripts.

use super::inferiors::MAKER;
use super::targets::compare_ends;
use std::test::Fail;
use test_rows::{compare, line, registers, rows_in, show_row};

/// Calls of CORBLK and how each ends, as those on inferiors. `makes` is an end of operation 1,
/// which clears its page before, and `unmakes` such an end with an error number, whose page is
/// given back.
static ANSWERS: &str = "numbers of arguments: no page is reserved
SETZ | SIXBIT CORBLK | 1000,,1 | 1000,,777777 | 403000,,10 = fails 2
SETZ | SIXBIT CORBLK | 1000,,1 | 1000,,777777 | 1000,,100 | 1000,,0 | 403000,,10 = fails 3
SETZ | SIXBIT CORBLK | 1000,,1 | 1000,,777777 | 1000,,100 | 2000,,11 | 403000,,10 = fails 3
an operation above 3, before the channel; a bad channel; a device, and no leave to write, before the page; the page
SETZ | SIXBIT CORBLK | 1000,,4 | 1000,,5 | 1000,,400 | 403000,,10 = fails 22
SETZ | SIXBIT CORBLK | 164 | 1000,,777777 | 1000,,0 | 403000,,10 = fails 22
SETZ | SIXBIT CORBLK | 1000,,0 | 1000,,5 | 1000,,400 | 403000,,10 = fails 4
SETZ | SIXBIT CORBLK | 1000,,1 | 1000,,5 | 1000,,400 | 403000,,10 = unmakes 4
SETZ | SIXBIT CORBLK | 1000,,2 | 1000,,20 | 1000,,0 | 403000,,10 = fails 4
SETZ | SIXBIT CORBLK | 1000,,2 | 1000,,3 | 1000,,400 | 403000,,10 = fails 5
SETZ | SIXBIT CORBLK | 1000,,1 | 1000,,3 | 1000,,0 | 403000,,10 = unmakes 5
SETZ | SIXBIT CORBLK | 1000,,0 | 1000,,2 | 1000,,400 | 403000,,10 = fails 5
SETZ | SIXBIT CORBLK | 1000,,1 | 1000,,2 | 1000,,400 | 403000,,10 = unmakes 5
SETZ | SIXBIT CORBLK | 1000,,3 | 1000,,2 | 1000,,0 | 403000,,10 = fails 5
SETZ | SIXBIT CORBLK | 1000,,0 | 1000,,777777 | 1000,,400 | 403000,,10 = fails 22
SETZ | SIXBIT CORBLK | 1000,,1 | 1000,,777777 | 166 | 403000,,10 = unmakes 22
SETZ | SIXBIT CORBLK | 1000,,2 | 1000,,1 | 1000,,400 | 403000,,10 = fails 22
SETZ | SIXBIT CORBLK | 1000,,3 | 1000,,1 | 164 | 403000,,10 = fails 22
SETZ | SIXBIT CORBLK | 1000,,1 | 1000,,1 | 164 | 403000,,10 = unmakes 22
a page that is there, and pages that are not
SETZ | SIXBIT CORBLK | 1000,,1 | 1000,,777777 | 1000,,0 | 403000,,10 = unmakes 16
SETZ | SIXBIT CORBLK | 1000,,0 | 164 | 1000,,376 | 403000,,10 = fails 16
SETZ | SIXBIT CORBLK | 1000,,2 | 164 | 1000,,376 | 403000,,10 = fails 16
SETZ | SIXBIT CORBLK | 1000,,3 | 164 | 1000,,376 | 403000,,10 = fails 16
SETZ | SIXBIT CORBLK | 1000,,0 | 1000,,1 | 1000,,0 | 403000,,10 = fails 16
SETZ | SIXBIT CORBLK | 1000,,2 | 1000,,1 | 1000,,0 | 403000,,10 = fails 16
SETZ | SIXBIT CORBLK | 1000,,3 | 1000,,1 | 1000,,0 | 403000,,10 = fails 16
all four operations on oneself, and how many pages there are
SETZ | SIXBIT USRVAR | 1000,,777777 | 605 | 402000,,10 = gives 2
SETZ | SIXBIT CORBLK | 1000,,1 | 1000,,777777 | 1000,,376 | 403000,,10 = makes
SETZ | SIXBIT USRVAR | 1000,,777777 | 605 | 402000,,10 = gives 3
SETZ | SIXBIT CORBLK | 1000,,1 | 164 | 1000,,376 | 403000,,10 = unmakes 16
SETZ | SIXBIT CORBLK | 1000,,2 | 164 | 1000,,376 | 403000,,10 = done
SETZ | SIXBIT CORBLK | 1000,,2 | 1000,,777777 | 1000,,376 | 403000,,10 = done
SETZ | SIXBIT CORBLK | 1000,,3 | 1000,,777777 | 1000,,376 | 403000,,10 = done
SETZ | SIXBIT CORBLK | 1000,,0 | 1000,,777777 | 1000,,376 | 403000,,10 = done
SETZ | SIXBIT CORBLK | 1000,,0 | 1000,,777777 | 1000,,376 | 403000,,10 = fails 16
SETZ | SIXBIT USRVAR | 1000,,777777 | 605 | 402000,,10 = gives 2
the same through a channel: a read-only page is read, and not stored in; one that is dropped and made again is zeros
SETZ | SIXBIT CORBLK | 1000,,1 | 1000,,1 | 1000,,0 | 403000,,10 = makes
SETZ | SIXBIT USRVAR | 1000,,2 | 605 | 402000,,10 = gives 1
SETZ | SIXBIT USRMEM | 1000,,1 | 1000,,100 | 165 | 402000,,10 = gives 0
SETZ | SIXBIT CORBLK | 1000,,2 | 1000,,1 | 1000,,0 | 403000,,10 = done
SETZ | SIXBIT USRMEM | 1000,,1 | 1000,,100 | 1000,,0 | 403000,,10 = fails 16
SETZ | SIXBIT USRMEM | 1000,,2 | 1000,,100 | 402000,,10 = gives 777777000123
SETZ | SIXBIT CORBLK | 1000,,1 | 1000,,1 | 1000,,0 | 403000,,10 = unmakes 16
SETZ | SIXBIT CORBLK | 1000,,3 | 1000,,1 | 1000,,0 | 403000,,10 = done
SETZ | SIXBIT USRMEM | 1000,,1 | 1000,,100 | 1000,,5 | 402000,,10 = gives 777777000123
SETZ | SIXBIT CORBLK | 1000,,0 | 1000,,1 | 1000,,0 | 403000,,10 = done
SETZ | SIXBIT USRMEM | 1000,,2 | 1000,,100 | 403000,,10 = fails 16
SETZ | SIXBIT USRVAR | 1000,,2 | 605 | 402000,,10 = gives 0
SETZ | SIXBIT CORBLK | 1000,,1 | 1000,,1 | 1000,,0 | 403000,,10 = makes
SETZ | SIXBIT USRMEM | 1000,,2 | 1000,,100 | 402000,,10 = gives 0";

#[test]
fn pages(rt: HostRuntime) -> Result<(), Fail> {
    assert_eq!(rt; rows_in(ANSWERS), 49);
    compare_ends(rt.alloc(), ANSWERS)
}

/// What a job does to its page 1, which is read only: the instruction and a block for it at 150;
/// then the letters of eight ticks, whether the job runs, its PC word and its first pending word.
static PROTECTED: &str = "a store, a load, and an instruction that is there
MOVEM 1,2000 | 0 = 2* 6- = STOP 10000000104 10
MOVE 1,2000 | 0 = 10* = RUN 10000000114 0
XCT 2005 | 0 = 10* = RUN 10000000114 0
SLEEP for some time, which is a word there, and for none
.CALL 150 | SETZ | SIXBIT SLEEP | SETZ 2002 = 4. 1* 1. 1* 1- = STOP 10000000104 10
.CALL 150 | SETZ | SIXBIT SLEEP | SETZ 2006 = 4. 1* 1. 2* = RUN 10000000110 0
an output, an error address and an input there
.CALL 150 | SETZ | SIXBIT USRVAR | 1000,,777777 | 141 | 402000,,2000 = 2. 2* 4- = STOP 10000000104 10
.CALL 150 | SETZ | SIXBIT HANG | 403000,,2000 = 2. 2* 4- = STOP 10000000104 10
.CALL 150 | SETZ | SIXBIT USRVAR | 1000,,777777 | 2007 | 402000,,10 = 4. 1* 2. 1* = RUN 10000000107 0
.IOT of a byte that waits; SIOT with its pointer, its count or its byte there; DISMIS
.IOT 1,2000 | 0 = 4. 1* 1. 1* 1- = STOP 10000000104 10
.CALL 150 | SETZ | SIXBIT SIOT | 1000,,1 | 2000 | SETZ 143 = 4. 1* 1. 1* 1- = STOP 10000000104 10
.CALL 150 | SETZ | SIXBIT SIOT | 1000,,1 | 144 | SETZ 2001 = 4. 1* 1. 1* 1- = STOP 10000000104 10
.CALL 150 | SETZ | SIXBIT SIOT | 1000,,1 | 142 | SETZ 143 = 4. 1* 1. 1* 1- = STOP 10000000104 10
.CALL 150 | SETZ | SIXBIT DISMIS | SETZ 2004 = 4. 1* 1. 1* 1- = STOP 10000000104 10";

/// The session of a row, before its instruction and after its block.
const BEFORE: &str = "LOAD U X 0 = J 0
105: JFCL | JFCL | JFCL | JFCL | JFCL | JFCL | JFCL
120: SETZ | SIXBIT CORBLK | 1000,,2 | 1000,,777777 | 401000,,1
130: SETZ | SIXBIT OPEN | 1000,,1 | SETZ 140
140: SIXBIT TTY | SIXBIT MASK | 440700,,2000 | 1 | 440700,,300
2000: 440700,,300 | 1 | 36 | 0 | 777777,,503 | JFCL | 0 | SIXBIT MASK
";

const BEHIND: &str = "GO 100
TYPE 0 101 = Y 0 0
TICK 0 14 = T 0 4. 1* 5. 1* 1.
TICK 0 10 = T 0 ";

const LEFT: &str = "
EXAM 0 2000 4 = E 0 002000 440700000300 000000000001 000000000036 000000000000
STATE 0 = S 0 650000000000 700000000000 - 0 ";

#[test]
fn protected_page(rt: HostRuntime) -> Result<(), Fail> {
    let alloc = rt.alloc();
    assert_eq!(rt; rows_in(PROTECTED), 13);
    for row in PROTECTED.split('\n') {
        if let Some((call, told)) = row.split_once(" = ") {
            let (at, block) = call.split_once(" | ").expect(&rt, "a block");
            let (letters, told) = told.split_once(" = ").expect(&rt, "registers");
            let mut row = format!(in alloc;
                "{BEFORE}100: .CALL 120 | 0 | .CALL 130 | 0 | {at}\n150: {block}\n{BEHIND}{letters}{LEFT}"
            )?;
            registers(&mut row, told)?;
            show_row(alloc, &row)?;
        }
    }
    Ok(())
}

static PAGES: &str =
    "; a handler makes the page that the job lacked; later it finds the page there, which it does not look at
LOAD U X 0 = J 0
!PAGE_HANDLER
TICK 0 33 = T 0 4. 1* 1. 3* 10. 1* 5. 1* 2. 1*
EXAM 0 10 1 = E 0 000010 350700002000
EXAM 0 1 1 = E 0 000001 000000000000
EXAM 0 505 1 = E 0 000505 030000000202
TICK 0 6 = T 0 4. 2w
INT 0 1000 0
TICK 0 1 = T 0 1*
EXAM 0 505 1 = E 0 000505 010000000203
TICK 0 30 = T 0 10. 1* 2. 1* 4. 1* 6. 1w
EXAM 0 17 1 = E 0 000017 777700000500
#; CORBLK disturbed with none to four quarters clear: the page is given back, and the call is made again from its start
LOAD U X 0 = J 0
100: .CALL 110 | 0 | .CALL 120 | 0 | JRST 100
110: SETZ | SIXBIT CORBLK | 1000,,1 | 1000,,777777 | 401000,,100
120: SETZ | SIXBIT CORBLK | 1000,,0 | 1000,,777777 | 401000,,100
GO 100
TICK 0 4 = T 0 4.
PEEK 0 = P 0 HOLDING 435762425453 2 - - -
EXAM 0 0 1 = E 0 000000 000000000000
PEEK 0 = P 0 USER - 0 - - -
TICK 0 12 = T 0 10. 1* 1.
DEPOSIT 0 200000 7
TICK 0 7 = T 0 4. 1* 1. 1*
TICK 0 5 = T 0 5.
PEEK 0 = P 0 HOLDING 435762425453 2 - - -
STATE 0 = S 0 650000000000 700000000000 - 0 RUN 010000000100 000000000000 000000000000 000000000000 000000000000 000000000000 000000000000
PEEK 0 = P 0 USER - 0 - - -
TICK 0 12 = T 0 10. 1* 1.
EXAM 0 200000 1 = E 0 200000 000000000000
TICK 0 7 = T 0 4. 1* 1. 1*
TICK 0 6 = T 0 6.
PEEK 0 = P 0 HOLDING 435762425453 2 - - -
DEPOSIT 0 0 0
PEEK 0 = P 0 USER - 0 - - -
TICK 0 12 = T 0 10. 1* 1.
TICK 0 7 = T 0 4. 1* 1. 1*
TICK 0 7 = T 0 7.
PEEK 0 = P 0 HOLDING 435762425453 2 - - -
INT 0 0 0
PEEK 0 = P 0 USER - 0 - - -
TICK 0 12 = T 0 10. 1* 1.
TICK 0 7 = T 0 4. 1* 1. 1*
TICK 0 10 = T 0 10.
PEEK 0 = P 0 HOLDING 435762425453 2 - - -
STOP 0
PEEK 0 = P 0 USER - 0 - - -
CONT 0
TICK 0 12 = T 0 10. 1* 1.
TICK 0 7 = T 0 4. 1* 1. 1*
TICK 0 10 = T 0 10.
EXAM 0 200000 1 = ? 51 NOPAGE
#; CORBLK that is decided: a page that is made is owed no more; one that finds its page there owes to give its own back
LOAD U X 0 = J 0
100: .CALL 110 | 0 | .CALL 120 | 0
110: SETZ | SIXBIT CORBLK | 1000,,1 | 1000,,777777 | 401000,,100
120: SETZ | SIXBIT CORBLK | 1000,,1 | 1000,,777777 | 1000,,100 | 403000,,10
GO 100
TICK 0 11 = T 0 10. 1*
PEEK 0 = P 0 ENDING 435762425453 1 - - -
EXAM 0 200000 1 = E 0 200000 000000000000
PEEK 0 = P 0 USER - 0 - - -
TICK 0 11 = T 0 10. 1*
PEEK 0 = P 0 ENDING 435762425453 3 - - -
TICK 0 1 = T 0 1.
PEEK 0 = P 0 ENDING 435762425453 2 - - -
EXAM 0 10 1 = E 0 000010 000000000016
STATE 0 = S 0 650000000000 700000000000 - 0 RUN 010000000103 000000000000 000000000000 000000000000 000000000000 000000000000 000000000000
";

/// A superior and the last page of its inferior, in sessions that follow those that make one.
static LAST_PAGE: &str =
    "; SIOT stores in the last word, and finishes there; once the page is read only, SIOT and USRMEM fail, .IOT is stopped
114: .CALL 300 | 0 | .CALL 305 | 0 | .CALL 311 | 0 | .CALL 305 | 0 | .CALL 316 | 0 | .CALL 323 | .CALL 331 | .CALL 337 | 0 | .IOT 1,360
246/ 0
300: SETZ | SIXBIT CORBLK | 1000,,1 | 1000,,1 | 401000,,377
305: SETZ | SIXBIT ACCESS | 1000,,1 | 401000,,777777
311: SETZ | SIXBIT SIOT | 1000,,1 | 350 | SETZ 351
316: SETZ | SIXBIT CORBLK | 1000,,2 | 1000,,1 | 401000,,377
323: SETZ | SIXBIT SIOT | 1000,,1 | 352 | 353 | 403000,,354
331: SETZ | SIXBIT USRMEM | 1000,,1 | 1000,,777777 | 1000,,1 | 403000,,355
337: SETZ | SIXBIT USRMEM | 1000,,1 | 1000,,777777 | 402000,,356
350/ 444400000360 2 444400000360 1 0 0 0
360/ 123 321
GO 100
TICK 0 50 = T 0 4. 1* 11. 1* 5. 1* 5. 1* 5. 1* 5. 1* 1.
TICK 0 12 = T 0 10. 1* 1.
TICK 0 6 = T 0 4. 1* 1.
TICK 0 11 = T 0 4. 2* 3.
EXAM 0 350 2 = E 0 000350 004400000360 000000000001
EXAM 1 777777 1 = E 1 777777 000000000123
TICK 0 6 = T 0 4. 1* 1.
TICK 0 6 = T 0 4. 1* 1.
TICK 0 7 = T 0 4. 1* 2.
TICK 0 7 = T 0 4. 1* 2.
TICK 0 7 = T 0 4. 1* 2.
EXAM 0 352 5 = E 0 000352 444400000360 000000000001 000000000016 000000000016 000000000123
TICK 0 10 = T 0 4. 1* 1. 1* 1-
STATE 0 = S 0 650000000000 700000000000 - 0 STOP 010000000133 000000000020 000000000000 000000000000 000000000000 000000000000 000000000000
DEPOSIT 1 777777 5 = ? 45 READONLY
";

#[test]
fn sessions(rt: HostRuntime) -> Result<(), Fail> {
    compare(rt.alloc(), "", PAGES)?;
    compare(rt.alloc(), MAKER, LAST_PAGE)
}

/// Jobs that lack page 377 make it, after five that have 1023 pages of all together.
///
/// Both jobs hold a page. The first that commits gets the last one, and the other fails with error
/// 15 and gives its page back. A job that has page 377 fails with 16. In the second row the first
/// is disturbed before, so that the other gets the page, and the first comes too late.
static LAST_OF_ALL: &str = "TICK 0 10 = T 0 10.
TICK 1 10 = T 1 10.
TICK 0 2 = T 0 1* 1.
TICK 1 4 = T 1 1* 3.
EXAM 0 776000 1 = E 0 776000 000000000000
EXAM 1 10 1 = E 1 000010 000000000015
TICK 2 14 = T 2 10. 1* 3.
EXAM 2 10 1 = E 2 000010 000000000016
LOAD V X - = J 5
0/ 1
100/ 1 = ? 2031 FULL
#TICK 0 10 = T 0 10.
TICK 1 10 = T 1 10.
STATE 0 = S 0 650000000000 700000000000 - - RUN 010000000100 000000000000 000000000000 000000000000 000000000000 000000000000 000000000000
TICK 1 2 = T 1 1* 1.
TICK 0 14 = T 0 10. 1* 3.
EXAM 1 776000 1 = E 1 776000 000000000000
EXAM 0 10 1 = E 0 000010 000000000015
LOAD V X - = J 5
0/ 1
100/ 1 = ? 2030 FULL
";

/// Five jobs that have 1023 pages, of which the first two lack page 377 and make it.
#[test]
fn last_of_all_pages(rt: HostRuntime) -> Result<(), Fail> {
    let alloc = rt.alloc();
    let mut jobs = String::new(alloc);
    let mut slot = 0u32;
    for count in [255u32, 255, 256, 256, 1] {
        line(
            &mut jobs,
            &format!(in alloc; "LOAD U X - = J {slot}\n!TAKER")?,
        )?;
        for page in 1..count {
            let at = page.wrapping_mul(1024);
            line(&mut jobs, &format!(in alloc; "{at:o}/ 0")?)?;
        }
        line(&mut jobs, "GO 100")?;
        slot = slot.wrapping_add(1);
    }
    compare(alloc, &jobs, LAST_OF_ALL)
}
