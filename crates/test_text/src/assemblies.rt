//! Assembly texts with their results, over a source that cuts them and fails.

use its_asm_command::{Made, Unmade, assemble_source};
use its_io::MemSource;
use std::alloc::Global;
use std::test::Fail;

/// Texts, and the result of each: a session, or the `?` line.
static TEXTS: &str = "JOB U J -
LOC 100
MOVEI 1,5
MOVEM 1,X
.BREAK 16,
X = 200
GO 100
=
VERSION 2
LOAD U J -
000100/ 201040000005 202040000200 045700000000
SYM X 000200
GO 000100
END
%JOB U J -
LOC 100
MOVEI 1,5
MOVEM 1,Y
.BREAK 16,
X = 200
GO 100
=
? 4 UNDEF
%; the job that echoes
JOB U E 0
LOC 1000
START: .CALL 1020
.BREAK 16,
.CALL 1030
.BREAK 16,
LOOP: .IOT 1,3
.IOT 2,3
JRST LOOP
LOC 1020
WORD 400000,,0
SIXBIT OPEN
WORD 1000,,1
WORD 400000,,TTY
LOC 1030
WORD 400000,,0
SIXBIT OPEN
WORD 5000,,1
WORD 1000,,2
WORD 400000,,TTY
LOC 1050
TTY: SIXBIT TTY
GO START
=
VERSION 2
LOAD U E 0
001000/ 043000001020 045700000000 043000001030 045700000000 040040000003 040100000003 254000001004
001020/ 400000000000 576045560000 001000000001 400000001050
001030/ 400000000000 576045560000 005000000001 001000000002 400000001050
001050/ 646471000000
SYM START 001000
SYM LOOP 001004
SYM TTY 001050
GO 001000
END
%; words in any order, lines of 16 words, literals, and the symbols in their order
JOB U J 7
LOC 777777
WORD 7
LOC 20
Z = 5
MOVE 1,[5]
MOVE 2,[1,,2]
MOVE 3,[5]
WORD 1
WORD 2
WORD 3
WORD 4
WORD 5
WORD 6
WORD 7
WORD 10
WORD 11
WORD 12
WORD 13
WORD 14
WORD 15
LOC 0
A: WORD 1
LOC 41
GO A
=
VERSION 2
LOAD U J 7
000000/ 000000000001
000020/ 200040000041 200100000042 200140000041 000000000001 000000000002 000000000003 000000000004 000000000005 000000000006 000000000007 000000000010 000000000011 000000000012 000000000013 000000000014 000000000015
000041/ 000000000005 000001000002
777777/ 000000000007
SYM Z 000005
SYM A 000000
GO 000000
END
%JOB U J -
GO 0
=
VERSION 2
LOAD U J -
GO 000000
END
%JOB U J -
LOC 100
MOVE 1,[5]
LOC 100
GO 100
=
? 5 TWICE
%JOB U J -
GO 0
GO 0
=
? 3 SYNTAX
%=
? 1 CUT
";

/// The result of a text, from a source that gives 7 bytes a read, when these reads fail.
fn shown(alloc: Global, text: &[u8], fails: &[u64]) -> Result<Vec<u8>, Fail> {
    let mut src = MemSource::open(alloc, text, 7, fails)?;
    match assemble_source(alloc, &mut src) {
        Ok(Made::Session(session)) => Ok(session),
        Ok(Made::Refusal(line)) => Ok(line.as_slice().to_vec(alloc)?),
        Err(Unmade::Failed) => Ok(b"failed".to_vec(alloc)?),
        Err(Unmade::TooLong) => Ok(b"beyond".to_vec(alloc)?),
        Err(Unmade::NoMemory) => Ok(b"no memory".to_vec(alloc)?),
    }
}

#[test]
fn texts(rt: HostRuntime) -> Result<(), Fail> {
    let alloc = rt.alloc();
    for row in TEXTS.split('%') {
        let (text, wanted) = row.split_once("=\n").expect(&rt, "what it comes to");
        let made = shown(alloc, text.as_bytes(), &[])?;
        assert_eq!(rt; made.as_slice(), wanted.as_bytes(), "at {text}");
    }
    Ok(())
}

/// A source that fails at its first read, and at a later one; a long line before and after what is
/// refused.
#[test]
fn ends(rt: HostRuntime) -> Result<(), Fail> {
    let alloc = rt.alloc();
    let text = b"JOB U J -\nWORD 1\nGO 0\n";
    for fails in [&[0][..], &[3][..]] {
        let made = shown(alloc, text, fails)?;
        assert_eq!(rt; made.as_slice(), b"failed".as_slice());
    }
    let mut long = b"JOB U J -\n".to_vec(alloc)?;
    for _ in 0..300 {
        long.push(b' ')?;
    }
    assert_eq!(rt;
        shown(alloc, &long, &[])?.as_slice(),
        b"? 2 LONG\n".as_slice()
    );
    let refused = format!(in alloc;
        "JOB U J -\nFOO\n{}\nGO 0\n",
        str::from_utf8(&long).unwrap_or("")
    )?;
    assert_eq!(rt;
        shown(alloc, refused.as_bytes(), &[])?.as_slice(),
        b"? 2 SYNTAX\n".as_slice()
    );
    Ok(())
}
