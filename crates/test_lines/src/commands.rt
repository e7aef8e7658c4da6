//! The commands of the program: which words are one, and what `check`, `gen`, `verify`, `asm` and
//! `save` write.

use super::lines::FIRST;
use its_top::Status;
use its_word::read_octal;
use std::alloc::Global;
use std::test::Fail;
use test_rows::{obey, times};

const USAGE: &str = "usage: its run | its check | its gen N | its verify | its asm | its save\n";

/// Words that are no command, a row each; the first has none, and the second one without a letter.
static NO_COMMANDS: &str = "
 
 run x
 run 1
 check 1
 verify 1
 asm 1
 -run
 -- run
 run -
 --help
 -V
 help
 Run
 gen
 gen 
 gen 0
 gen 8
 gen 10001
 gen -1
 gen 1 1
 gen 0000000000001";

/// Words, a session and what is written. `@` is the first session.
static COMMANDS: &str = " run = TICK 0 1
= T 0 1-
# gen 1 = TICK 0 1
= LINES 134
STEPS 50
DRAINED 10
# gen 000000000001 = END= LINES 134
STEPS 50
DRAINED 10
# gen 101 = END= LINES 3406
STEPS 3050
DRAINED 1010
# check = @= OK 6
# check = = OK 0
# check = STATE 0
PEEK 77
END
x
= OK 3
# check = END= OK 1
# check = ; all
TICK 0
= ? 2 SYNTAX
# check = CLOCK 777777777777
TYPE 10 200
= ? 2 RANGE
# check = LOAD U J -
100/ 2010= ? 3 CUT
# verify = @J 0
T 0 2*
E 0 000200 000000000005
= YES 3
# verify = @J 0
T 0 2-
E 0 000200 000000000005
= NO 2
# verify = @J 0
T 0 2.
E 0 000200 000000000005
= NO 3
# verify = @J 0
T 0 2*
= NO 3
# verify = @J 0
T 0 2*
E 0 000200 000000000005= NO 3
# verify = LOAD U J -
100/ 201040000005 202040000200
GO 100
TICK 0 2
EXAM 0 200 1
= ? 6 CUT
# verify = = ? 1 CUT
# verify = LOAD U J -
  END 
J 0
? 2 SYNTAX
= YES 2
# save = = SYSTEM 1
CLOCK 0
READY
# save = VERSION 2
CLOCK 5
END
x
= SYSTEM 2
CLOCK 5
READY
# save = @= SYSTEM 1
CLOCK 0
JOB 0 U J -
000001/ 000000000005
000020/ 000000000000
000100/ 201040000005 202040000200
000200/ 000000000005
REGS RUN 010000000102 000000000000 000000000000 000000000000 000000000000 000000000000 000000000000
READY
# save = SYSTEM 2
CLOCK 5
READY
TICK 0
= ? 4 SYNTAX
# save = LOAD U J -
100/ 2010= ? 3 CUT
";

/// Assembly texts, and what is written of each.
static TEXTS: &str = "JOB U J -
LOC 100
MOVEI 1,5
MOVEM 1,X
.BREAK 16,
X = 200
GO 100
=
VERSION 2
LOAD U J -
000100/ 201040000005 202040000200 045700000000
SYM X 000200
GO 000100
END
%JOB U J -
LOC 100
MOVEI 1,5
MOVEM 1,Y
.BREAK 16,
X = 200
GO 100
=
? 4 UNDEF
%JOB U J -

LOC 100

MOVEI 1,5
GO 100

=
VERSION 2
LOAD U J -
000100/ 201040000005
GO 000100
END
%
=
? 2 CUT
%JOB U J -
LOC 100
FOO 1,5
GO 100
=
? 3 SYNTAX
%JOB U J -
MOVEI 20,1
GO 100
=
? 2 RANGE
%JOB U J -
A = 1
A = 2
GO 100
=
? 3 TWICE
%=
? 1 CUT
";

#[test]
fn no_commands(rt: HostRuntime) -> Result<(), Fail> {
    for words in NO_COMMANDS.split('\n') {
        let got = obey(rt.alloc(), words, b"TICK 0 1\n", 512, (&[], &[]))?;
        assert_eq!(rt; got.wrote.as_slice(), USAGE.as_bytes(), "at {words}");
        assert_eq!(rt;
            (got.status, got.is_left),
            (Status::Usage, true),
            "at {words}"
        );
    }
    Ok(())
}

/// A session of a row.
fn session_of(alloc: Global, text: &str) -> Result<String, Fail> {
    let first = if text.starts_with("@") { FIRST } else { "" };
    let rest = text.strip_prefix("@").unwrap_or(text);
    Ok(format!(in alloc; "{first}{rest}")?)
}

#[test]
fn commands(rt: HostRuntime) -> Result<(), Fail> {
    let alloc = rt.alloc();
    for row in COMMANDS.split('#') {
        let (words, rest) = row.split_once(" = ").expect(&rt, "a session");
        let (session, wanted) = rest.split_once("= ").expect(&rt, "what is written");
        let session = session_of(alloc, session)?;
        let got = obey(alloc, words, session.as_bytes(), 512, (&[], &[]))?;
        assert_eq!(rt; got.wrote.as_slice(), wanted.as_bytes(), "at {row}");
        let refused = wanted.contains('?') || wanted.starts_with("NO");
        assert_eq!(rt; got.status == Status::Refused, refused, "at {row}");
        assert_eq!(rt; got.status == Status::Done, !refused, "at {row}");
        let reads = !words.starts_with(" gen");
        assert_eq!(rt; got.is_left, !reads || session.is_empty(), "at {row}");
    }
    Ok(())
}

#[test]
fn texts(rt: HostRuntime) -> Result<(), Fail> {
    for row in TEXTS.split('%') {
        let (text, wanted) = row.split_once("=\n").expect(&rt, "what is written");
        let got = obey(rt.alloc(), " asm", text.as_bytes(), 512, (&[], &[]))?;
        assert_eq!(rt; got.wrote.as_slice(), wanted.as_bytes(), "at {row}");
        let refused = wanted.starts_with("?");
        assert_eq!(rt; got.status == Status::Refused, refused, "at {row}");
        assert_eq!(rt; got.status == Status::Done, !refused, "at {row}");
    }
    Ok(())
}

/// Texts of 3000 words: one without its last line, and a whole one.
#[test]
fn long_texts(rt: HostRuntime) -> Result<(), Fail> {
    let alloc = rt.alloc();
    let mut text = "JOB U J -\nLOC 100\n".to_string(alloc)?;
    for _ in 0..3000 {
        text.push_str("WORD 1\n")?;
    }
    let cut = obey(alloc, " asm", text.as_bytes(), 512, (&[], &[]))?;
    assert_eq!(rt; cut.status, Status::Refused);
    assert_eq!(rt; cut.wrote.as_slice(), b"? 5673 CUT\n".as_slice());
    text.push_str("GO 100\n")?;
    let made = obey(alloc, " asm", text.as_bytes(), 512, (&[], &[]))?;
    assert_eq!(rt; made.status, Status::Done);
    assert!(rt;
        made.wrote
            .starts_with(b"VERSION 2\nLOAD U J -\n000100/ 000000000001 ")
    );
    assert!(rt; made.wrote.ends_with(b"\nGO 000100\nEND\n"));
    Ok(())
}

/// How many bytes are put between the beginning of a line and its LF, what `verify` writes, and the
/// input up to that line's beginning. A transcript's line of PEEK may have 1543 bytes before its
/// LF; and a session's line of 256 bytes is too long.
static LONGEST: &str = "3005 = YES 2
= LOAD U J -
GO 100
PEEK 0
END
J 0
P #3006 = NO 2
= LOAD U J -
GO 100
PEEK 0
END
J 0
P #376 = ? 3 CUT
= TICK 0 1
;#377 = ? 2 LONG
= TICK 0 1
;";

#[test]
fn long_lines(rt: HostRuntime) -> Result<(), Fail> {
    let alloc = rt.alloc();
    for row in LONGEST.split('#') {
        let (count, rest) = row.split_once(" = ").ok_or("what is written")?;
        let (wanted, before) = rest.split_once("= ").ok_or("a line")?;
        let mut input = String::new(alloc);
        let count = read_octal(count.as_bytes())?.right();
        times(&mut input, before, "x", count, "\n")?;
        let got = obey(alloc, " verify", input.as_bytes(), 512, (&[], &[]))?;
        assert_eq!(rt; got.wrote.as_slice(), wanted.as_bytes(), "at {row}");
    }
    Ok(())
}

/// The longest generated session, twice: it ends well, and writes the same.
#[test]
fn longest(rt: HostRuntime) -> Result<(), Fail> {
    let alloc = rt.alloc();
    let first = obey(alloc, " gen 10000", b"END", 512, (&[], &[]))?;
    let second = obey(alloc, " gen 10000", b"END", 512, (&[], &[]))?;
    assert_eq!(rt; (first.status, second.status), (Status::Done, Status::Done));
    assert_eq!(rt; first.wrote.as_slice(), second.wrote.as_slice());
    assert!(rt; first.wrote.starts_with(b"LINES 325"));
    Ok(())
}

/// Words, the call of the source that fails, that of the sink, the answer, a session and what is
/// written: a sink that fails at each of its calls in turn, and a source that fails. `@` is the
/// first session.
static FAULTS: &str =
    " gen 1 = 0 = 0 = WriteFault = END= # gen 1 = 0 = 1 = WriteFault = END= LINES 134
# gen 1 = 0 = 2 = WriteFault = END= LINES 134
STEPS 50
# check = 2 = - = ReadFault = @= # check = - = 0 = WriteFault = @= # verify = 2 = - = ReadFault = @= # verify = 1 = - = Refused = END
x= NO 1
# verify = - = 0 = WriteFault = @= # save = 2 = - = ReadFault = @= # save = - = 0 = WriteFault = @= # save = - = 1 = WriteFault = @= SYSTEM 1
";

/// The number of a call that fails; if none does, one that is never made.
fn failing(text: &str) -> Result<u64, Fail> {
    if text == "-" {
        Ok(u64::MAX)
    } else {
        Ok(read_octal(text.as_bytes())?.value())
    }
}

#[test]
fn faults(rt: HostRuntime) -> Result<(), Fail> {
    let alloc = rt.alloc();
    for row in FAULTS.split('#') {
        let (words, rest) = row.split_once(" = ").ok_or("a read")?;
        let (read, rest) = rest.split_once(" = ").ok_or("a write")?;
        let (write, rest) = rest.split_once(" = ").ok_or("an answer")?;
        let (answer, rest) = rest.split_once(" = ").ok_or("a session")?;
        let (session, wanted) = rest.split_once("= ").ok_or("what is written")?;
        let session = session_of(alloc, session)?;
        let fails = (&[failing(read)?][..], &[failing(write)?][..]);
        let got = obey(alloc, words, session.as_bytes(), 16, fails)?;
        let status = format!(in alloc; "{:?}", got.status)?;
        assert_eq!(rt; got.wrote.as_slice(), wanted.as_bytes(), "at {row}");
        assert_eq!(rt; status.as_str(), answer, "at {row}");
    }
    Ok(())
}
