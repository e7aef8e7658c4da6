//! Jobs that wait, and what lets them go on.

use std::test::Fail;
use test_rows::compare;

static WAITS: &str =
    "; two jobs at a console that nobody holds, and one byte: who is ticked first takes it, and the other waits on
LOAD U H 0 = J 0
!LEAVER
LOAD U A 0 = J 1
!READER
LOAD U B 0 = J 2
!READER
TICK 1 13 = T 1 4. 1* 5. 1w
TICK 2 13 = T 2 4. 1* 5. 1w
TICK 0 5 = T 0 4. 1*
TICK 1 1 = T 1 1w
TYPE 0 101 = Y 0 0
TICK 1 1 = T 1 1*
TICK 2 1 = T 2 1w
PEEK 2 = P 2 WAITING 515764000000 1 - - -
EXAM 1 3 1 = E 1 000003 000000000101
#; three jobs wait for a console that another holds, with two bytes there; as it goes, two of them take a byte, and one waits
LOAD U H 0 = J 0
!LEAVER
LOAD U A 0 = J 1
!READER
LOAD U B 0 = J 2
!READER
LOAD U C 0 = J 3
!READER
TICK 1 13 = T 1 4. 1* 5. 1w
TICK 2 13 = T 2 4. 1* 5. 1w
TICK 3 13 = T 3 4. 1* 5. 1w
TYPE 0 101 102 = Y 0 0
TICK 1 1 = T 1 1w
TICK 2 1 = T 2 1w
TICK 3 1 = T 3 1w
TICK 0 5 = T 0 4. 1*
TICK 3 1 = T 3 1*
TICK 1 1 = T 1 1*
TICK 2 2 = T 2 2w
EXAM 3 3 1 = E 3 000003 000000000101
EXAM 1 3 1 = E 1 000003 000000000102
TYPE 0 103 = Y 0 0
TICK 2 1 = T 2 1*
#; sleepers with equal and with different times: one CLOCK wakes those whose time has come, and no other
LOAD U A - = J 0
!SLEEPER
200/ 10
GO 100
LOAD U B - = J 1
!SLEEPER
200/ 10
GO 100
LOAD U C - = J 2
!SLEEPER
200/ 20
GO 100
TICK 0 6 = T 0 4. 1* 1w
TICK 1 6 = T 1 4. 1* 1w
TICK 2 5 = T 2 4. 1*
CLOCK 7
TICK 0 1 = T 0 1w
TICK 1 1 = T 1 1w
TICK 2 1 = T 2 1w
CLOCK 1
TICK 0 1 = T 0 1*
TICK 2 1 = T 2 1w
CLOCK 10
TICK 1 1 = T 1 1*
TICK 2 1 = T 2 1*
#; FINISH and LISTEN of two jobs wait for the last byte of their console; a job that was looked at as it waited waits again
LOAD U H 0 = J 0
1000: .CALL 1020 | .BREAK 16, | .IOT 1,1060 | .CALL 1030 | .BREAK 16,
1020: SETZ | SIXBIT OPEN | 5000,,1 | 1000,,1 | SETZ 1050
1030: SETZ | SIXBIT FINISH | 401000,,1
1050: SIXBIT TTY
1060/ 101
GO 1000
LOAD U L - = J 1
GO 1000
LOAD U K 1 = J 2
1000: .CALL 1020 | .BREAK 16, | .IOT 1,1060 | .CALL 1030 | .BREAK 16,
1020: SETZ | SIXBIT OPEN | 5000,,1 | 1000,,1 | SETZ 1050
1030: SETZ | SIXBIT LISTEN | 1000,,1 | 402000,,1061
1050: SIXBIT TTY
1060/ 102
GO 1000
TICK 0 21 = T 0 4. 1* 5. 1* 5. 1w
TICK 2 21 = T 2 4. 1* 5. 1* 5. 1w
DRAIN 1 1 = D 1 102
TICK 0 1 = T 0 1w
TICK 2 1 = T 2 1*
PEEK 0 = P 0 WAITING 465156516350 1 - - -
STATE 0 = S 0 650000000000 500000000000 - 0 RUN 010000001003 000000000000 000000000000 000000000000 000000000000 000000000000 000000000000
TICK 0 5 = T 0 4. 1w
DRAIN 0 1 = D 0 101
PEEK 0 = P 0 WAITING 465156516350 1 - - -
TICK 0 1 = T 0 1*
#; a job that waits is unwound and stopped: it is on no list, and a byte that comes is for the other
LOAD U H 0 = J 0
!LEAVER
LOAD U A 0 = J 1
!READER
LOAD U B 0 = J 2
!READER
TICK 1 13 = T 1 4. 1* 5. 1w
TICK 2 13 = T 2 4. 1* 5. 1w
TICK 0 5 = T 0 4. 1*
STOP 1
TYPE 0 101 = Y 0 0
TICK 1 1 = T 1 1-
TICK 2 1 = T 2 1*
CONT 1
TICK 1 5 = T 1 4. 1w
";

#[test]
fn waits(rt: HostRuntime) -> Result<(), Fail> {
    compare(rt.alloc(), "", WAITS)
}
