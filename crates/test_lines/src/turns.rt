//! Turns in a circle: who has them, when they end, and what is written if an object fails among
//! them.

use its_top::Status;
use std::alloc::Global;
use std::process::Abort;
use std::test::Fail;
use test_rows::{compare, line, obey, show_row};

static CIRCLES: &str = "VERSION 2
LOAD U J - = J 0
!LOOP
LOAD U J - = J 1
!LOOP
RUN 3 2 = T 0 2*
= T 1 2*
= T 0 2*
STOP 0
RUN 2 1 = T 1 1*
= T 1 1*
STOP 1
RUN 5 1
STATE 2 = ? 15 NOJOB
#VERSION 2
; no job; and a job alone, between whose turns TICK does not count
RUN 1000 100
LOAD U J - = J 0
!LOOP
RUN 2 100 = T 0 100*
= T 0 100*
LOAD U J - = J 1
!LOOP
TICK 0 1 = T 0 1*
RUN 1 1 = T 1 1*
TICK 1 1 = T 1 1*
RUN 2 1 = T 0 1*
= T 1 1*
#VERSION 2
; a job that waits has its turns, and one that is stopped in its turn has none any more, until it is started
LOAD U J - = J 0
100: .CALL 102 | 0 | SETZ | SIXBIT HANG | 405000,,0
GO 100
LOAD U J - = J 1
100: JRST 101 | .BREAK 16,
GO 100
LOAD U J - = J 2
!LOOP
RUN 6 5 = T 0 4. 1w
= T 1 3* 2-
= T 2 5*
= T 0 5w
= T 2 5*
= T 0 5w
PEEK 0 = P 0 WAITING 504156470000 1 - - -
CONT 1
RUN 2 2 = T 1 2*
= T 2 2*
#VERSION 2
; an inferior is made and started in a turn of its superior, has its turns, and is stopped in another; a job logs out in its turn
LOAD U J - = J 0
100: .CALL 200 | .BREAK 16, | .IOT 1,300 | .CALL 250 | .BREAK 16, | .CALL 260 | .BREAK 16, | JRST 107
200: SETZ | SIXBIT OPEN | 5000,,1 | 1000,,1 | 500 | 501 | SETZ 502
250: SETZ | SIXBIT USRVAR | 1000,,1 | 504 | 401000,,0
260: SETZ | SIXBIT USRVAR | 1000,,1 | 504 | 401000,,1
300: JRST 0
500: SIXBIT USR | SIXBIT U | SIXBIT K | 0 | SIXBIT USTP
GO 100
RUN 7 4 = T 0 4.
= T 0 1* 3.
= T 0 2. 1* 1.
= T 0 4.
= T 0 1* 3.
= T 1 4*
= T 0 2. 1* 1.
RUN 2 4 = T 0 4*
= T 0 4*
LOAD V J - = J 2
100: .CALL 102 | 0 | SETZ | SIXBIT LOGOUT | 405000,,0
GO 100
RUN 3 6 = T 2 4. 1* 1-
= T 0 6*
= T 0 6*
";

#[test]
fn turns_in_a_circle(rt: HostRuntime) -> Result<(), Fail> {
    let alloc = rt.alloc();
    compare(alloc, "", CIRCLES)?;
    many_turns(alloc)?;
    cut_anywhere(alloc, &rt)
}

/// 96 jobs in 512 turns, five times around the circle and on.
fn many_turns(alloc: Global) -> Result<(), Fail> {
    let mut row = "VERSION 2\n".to_string(alloc)?;
    for k in 0..96u32 {
        line(&mut row, &format!(in alloc; "LOAD U J - = J {k:o}\n!LOOP")?)?;
    }
    row.push_str("RUN 1000 1\n")?;
    for k in 0..512u32 {
        line(&mut row, &format!(in alloc; "= T {:o} 1*", k % 96)?)?;
    }
    show_row(alloc, &row)
}

/// Lines of a session with what each shows.
static LINES: &str = "VERSION 2
= #LOAD U J -
= J 0
#100/ 254000000100
= #GO 100
= #RUN 3 2
= T 0 2*
T 0 2*
T 0 2*
#RUN 1 1
= T 0 1*
";

/// The whole session.
const WHOLE: &str = "VERSION 2\nLOAD U J -\n100/ 254000000100\nGO 100\nRUN 3 2\nRUN 1 1\n";

/// The read after any byte of the session fails: its whole lines were answered. The write of any
/// line fails: those before it were written.
fn cut_anywhere(alloc: Global, rt: &impl Abort) -> Result<(), Fail> {
    let session = WHOLE.as_bytes();
    let mut transcript = String::new(alloc);
    let mut piece = 0usize;
    for row in LINES.split('#') {
        let (text, shown) = row.split_once("= ").ok_or("what is shown")?;
        for _b in text.as_bytes() {
            if 1 <= piece {
                let got = obey(alloc, " run", session, piece, (&[1], &[]))?;
                assert_eq!(rt; got.status, Status::ReadFault);
                assert_eq!(rt; got.wrote.as_slice(), transcript.as_bytes());
            }
            piece = piece.saturating_add(1);
        }
        transcript.push_str(shown)?;
    }
    for k in 0..5u64 {
        let got = obey(alloc, " run", session, 512, (&[], &[k]))?;
        assert_eq!(rt; got.status, Status::WriteFault);
        assert_eq!(rt;
            got.wrote.len() as u64,
            if k == 0 { 0 } else { 4 + 7 * (k - 1) }
        );
    }
    Ok(())
}
