//! Sessions that are cut, lines at the limits of the grammar, and objects that fail at each of
//! their calls.

use super::running::{Outcome, obey};
use its_top::Status;
use std::alloc::Global;
use std::process::Abort;
use std::test::Fail;

/// A CLOSE that replaces a file, with each line on files.
pub static CLOSE: &str = "FILE D A B
/ 1 2
EOF
LOAD U X 0
100/ 43000000120 45700000000 40040000210 43000000140 45700000000 45700000000
120/ 400000000000 576045560000 5000000001 1000000001 150 151 152 400000000153
140/ 400000000000 435457634500 401000000001
150/ 446353000000 410000000000 420000000000 440000000000
210/ 123
GO 100
TICK 0 14
TICK 0 4
DIR D
TICK 0 1
PEEK 0
DIR D
PEEK 0
SHOW D A B
TICK 0 1
";

/// The result of a run of these bytes: it is done or refused, and if the check refuses them, the
/// run is refused with the same last line. No session here has a line that a run alone refuses
/// before one that the check refuses.
fn run_and_check(alloc: Global, rt: &impl Abort, session: &[u8]) -> Result<Outcome, Fail> {
    let ran = obey(alloc, "run", session, 512, (&[], &[]))?;
    let checked = obey(alloc, "check", session, 512, (&[], &[]))?;
    let is_refused = ran.status == Status::Refused;
    assert!(rt; is_refused || ran.status == Status::Done);
    if checked.status == Status::Refused {
        assert!(rt; is_refused);
        assert!(rt; ran.wrote.ends_with(checked.wrote.as_slice()));
    } else {
        assert_eq!(rt; checked.status, Status::Done);
    }
    Ok(ran)
}

/// The session ends after any of its bytes.
#[test]
fn cut_after_each_byte(rt: HostRuntime) -> Result<(), Fail> {
    let whole = CLOSE.as_bytes();
    for length in 0..whole.len() {
        run_and_check(rt.alloc(), &rt, &whole[..length + 1])?;
    }
    Ok(())
}

/// An echo as a user types it.
pub static ECHO: &str = "LOAD U X 0
1000/ 43000001020 45700000000 43000001030 45700000000 40040000003 40100000003 254000001004
1020/ 400000000000 576045560000 1000000001 400000001050
1030/ 400000000000 576045560000 5000000001 1000000002 400000001050
1050/ 646471000000
GO 1000
TICK 0 22
TYPE 0 141
TICK 0 14
DRAIN 0 100
";

static ECHOED: &str = "J 0
T 0 4. 1* 5. 1* 5. 2w
Y 0 0
T 0 1* 6. 1* 1. 1* 2.
D 0 141
";

/// A job whose inferior reads a file, which can be deleted once the inferior is removed.
static PARENT: &str = "LOAD U X 0
100/ 43000000200 45700000000 43000000207 45700000000 43000000214 45700000000 43000000220 45700000000 43000000225 45700000000 43000000232 45700000000
200/ 400000000000 576045560000 5000000001 1000000001 240 241 400000000242
207/ 400000000000 435762425453 1000000001 1000000001 401000000000
214/ 400000000000 414343456363 1000000001 401000000100
220/ 400000000000 635157640000 1000000001 245 400000000246
225/ 400000000000 656362664162 1000000001 243 401000000100
232/ 400000000000 656362664162 1000000001 244 401000000000
240/ 656362000000 650000000000 530000000000 656043000000 656364600000 444400000400
; an inferior that reads a file is removed: the file is then read by nobody, and can be deleted
114/ 43000000300 43000000320 0 43000000300 0 0
246/ 22
300/ 400000000000 444554456445 330 331 332 333 403000000010
320/ 400000000000 654354576345 401000000001
330/ 446353000000 410000000000 420000000000 440000000000
400/ 43000000104 0 43000000113 0 400000000000 576045560000 1000000001 116 117 120 400000000121 400000000000 504156470000 405000000000 446353000000 410000000000
420/ 420000000000 440000000000
GO 100
FILE D A B
/ 1 2
EOF
TICK 0 74
TICK 1 14
TICK 0 7
EXAM 0 10 1
TICK 0 6
TICK 1 1
TICK 0 6
DIR D
";

static PARENT_SHOWS: &str = "J 0
T 0 4. 1* 11. 1* 5. 1* 5. 23* 7. 1* 5. 1* 1.
T 1 4. 1* 5. 2w
T 0 4. 1* 2.
E 0 000010 000000000011
T 0 4. 1* 1.
T 1 1-
T 0 4. 1* 1.
R 440000000000 0
";

/// Whatever call of the source or of the sink fails, that fault is answered, and what was written
/// begins what the session writes. Calls of any size give the same.
fn each_call_fails(alloc: Global, rt: &impl Abort, session: &str, shown: &str) -> Result<(), Fail> {
    let bytes = session.as_bytes();
    for piece in [1, 2, 3, 511] {
        let got = obey(alloc, "run", bytes, piece, (&[], &[]))?;
        assert_eq!(rt; got.wrote.as_slice(), shown.as_bytes(), "by {piece}");
        assert_eq!(rt; got.status, Status::Done, "by {piece}");
    }
    let mut call = 0u64;
    for _ in 0..bytes.len().div_ceil(7) {
        let got = obey(alloc, "run", bytes, 7, (&[call], &[]))?;
        assert!(rt;
            shown.as_bytes().starts_with(got.wrote.as_slice()),
            "at read {call}"
        );
        assert_eq!(rt; got.status, Status::ReadFault, "at read {call}");
        call = call.wrapping_add(1);
    }
    // the last read finds the end
    let got = obey(alloc, "run", bytes, 7, (&[call], &[]))?;
    assert_eq!(rt; got.wrote.as_slice(), shown.as_bytes());
    assert_eq!(rt; got.status, Status::ReadFault);
    call = 0;
    for _ in shown.split('\n').skip(1) {
        let got = obey(alloc, "run", bytes, 512, (&[], &[call]))?;
        assert!(rt;
            shown.as_bytes().starts_with(got.wrote.as_slice()),
            "at write {call}"
        );
        assert_eq!(rt; got.status, Status::WriteFault, "at write {call}");
        call = call.wrapping_add(1);
    }
    Ok(())
}

#[test]
fn failing_objects(rt: HostRuntime) -> Result<(), Fail> {
    each_call_fails(rt.alloc(), &rt, ECHO, ECHOED)?;
    each_call_fails(rt.alloc(), &rt, PARENT, PARENT_SHOWS)
}

/// Sessions at the limits of the grammar, and what each shows.
static TEXTS: &str = "; a\u{1f}b
=? 1 SYNTAX
#; a\u{7f}b
=? 1 SYNTAX
#TICK\u{1f}0 1
=? 1 SYNTAX
#TICK 0 1\u{7f}
=? 1 SYNTAX
#CLOCK 000000000001
=#CLOCK 0000000000001
=? 1 SYNTAX
#DIR ABCDEF
=R 414243444546 0
#DIR ABCDEFG
=? 1 SYNTAX
#TICK 0 1000
TICK 77 1
=T 0 1000-
T 77 1-
#TICK 0 1001
=? 1 RANGE
#TICK 0 0
=? 1 RANGE
#TICK 100 1
=? 1 RANGE
#TYPE 7 1 2 3 4 5 6 7 10 11 12 13 14 15 16 17 20 21 22 23 24 25 26 27 30 31 32 33 34 35 36 37 177
DRAIN 7 100
=Y 7 0
D 7
#TYPE 7 1 2 3 4 5 6 7 10 11 12 13 14 15 16 17 20 21 22 23 24 25 26 27 30 31 32 33 34 35 36 37 40 41
=? 1 SYNTAX
#TYPE 7 200
=? 1 RANGE
#DRAIN 7 101
=? 1 RANGE
#DRAIN 10 100
=? 1 NOCONS
#LOAD U X 10
=? 1 NOCONS
#EXAM 0 777777 2
=? 1 RANGE
#LOAD U X -
777776/ 1 2
GO 777777
EXAM 0 777777 1
=J 0
E 0 777777 000000000002
#LOAD U X -
777777/ 1 2
=J 0
? 2 RANGE
#LOAD U X -
0/ 1 2 3 4 5 6 7 10 11 12 13 14 15 16 17 20
GO 0
EXAM 0 7 10
=J 0
E 0 000007 000000000010 000000000011 000000000012 000000000013 000000000014 000000000015 000000000016 000000000017
#LOAD U X -
0/ 1 2 3 4 5 6 7 10 11 12 13 14 15 16 17 20 21
=J 0
? 2 SYNTAX
#CLOCK 177777777777
CLOCK 1
=? 2 RANGE
#VERSION 1
TICK 100 1
=? 2 RANGE
#VERSION 2
TICK 137 1
TICK 140 1
=T 137 1-
? 3 RANGE
#VERSION 3
=? 1 RANGE
#
VERSION 2
=? 2 SYNTAX
#LOAD U X -
RO 0
=J 0
? 2 SYNTAX
#VERSION 2
LOAD U X -
100/ 0
SYM ABCDEF 777777
RO 0
RO 377
GO 0
=J 0
? 6 NOPAGE
#VERSION 2
LOAD U X -
RO 400
=J 0
? 3 RANGE
#VERSION 2
LOAD U X -
SYM ABCDEFG 0
=J 0
? 3 SYNTAX
#VERSION 2
LOAD U X -
SYM A 1000000
=J 0
? 3 RANGE
";

#[test]
fn texts_at_the_limits(rt: HostRuntime) -> Result<(), Fail> {
    for row in TEXTS.split('#') {
        let (session, shown) = row.split_once("=").expect(&rt, "what is shown");
        let got = run_and_check(rt.alloc(), &rt, session.as_bytes())?;
        assert_eq!(rt; got.wrote.as_slice(), shown.as_bytes(), "of {session}");
        assert_eq!(rt;
            got.status == Status::Refused,
            shown.contains('?'),
            "of {session}"
        );
    }
    Ok(())
}
