//! Lines of a session: what each is read as and how it is printed again, and which are refused.

use arrayvec::ArrayVec;
use its_records::{Bad, Event, Place};
use its_session::{print_event, read_line};
use its_word::{ConsoleNumber, Slot, Word};
use std::process::Abort;

/// A line is read as this event at this place of a session of version 2.
fn is_read(rt: &impl Abort, place: Place, line: &str, event: Event) {
    assert_eq!(rt;
        read_line(line.as_bytes(), place, 2),
        Ok(event),
        "at {line}"
    );
}

/// A line is read at this place of a session of version 2, and its event is printed so.
fn is_printed(rt: &impl Abort, place: Place, line: &[u8], printed: &[u8]) {
    let mut out = ArrayVec::new();
    let event = read_line(line, place, 2);
    assert!(rt; event.is_ok());
    if let Ok(event) = event {
        print_event(&event, &mut out);
    }
    assert_eq!(rt; out.as_slice(), printed);
}

/// Each row of a text is such a line, and is read as the same event in a session of this version.
/// After ` > ` there is how the event is printed, if that is not the line itself.
fn reads(rt: &impl Abort, place: Place, version: u8, rows: &str) {
    for row in rows.split('\n') {
        let (line, printed) = row.split_once(" > ").unwrap_or((row, row));
        is_printed(rt, place, line.as_bytes(), printed.as_bytes());
        let (one, two) = (
            read_line(line.as_bytes(), place, version),
            read_line(line.as_bytes(), place, 2),
        );
        assert!(rt; one == two, "{line}");
    }
}

/// Each line of a text is refused at this place of a session of this version for this reason.
fn refuses(rt: &impl Abort, place: Place, version: u8, lines: &str, bad: Bad) {
    for line in lines.as_bytes().split(|b| *b == b'\n') {
        assert_eq!(rt; read_line(line, place, version), Err(bad), "at {line:?}");
    }
}

/// The words 201040000005 and 1.
fn two_words() -> ArrayVec<Word, 16> {
    let mut words = ArrayVec::new();
    let _fits = words.try_push(Word::new(0o201040000005));
    let _fits = words.try_push(Word::new(1));
    words
}

/// The bytes 101 and 177.
fn two_bytes() -> ArrayVec<u8, 32> {
    let mut bytes = ArrayVec::new();
    let _fits = bytes.try_push(0o101);
    let _fits = bytes.try_push(0o177);
    bytes
}

/// Words and bytes of a line are those of its event, in their order.
#[test]
fn words_and_bytes(rt: HostRuntime) {
    let (a, words) = (0o100, two_words());
    is_read(
        &rt,
        Place::Load,
        "100/ 201040000005 1",
        Event::Words { a, words },
    );
    let words = two_words();
    is_read(
        &rt,
        Place::File,
        "/ 201040000005 1",
        Event::Append { words },
    );
    let (c, bytes) = (ConsoleNumber::new(7), two_bytes());
    is_read(
        &rt,
        Place::Plain,
        "TYPE 7 101 177",
        Event::TypeIn { c, bytes },
    );
}

/// Each number and name of a line is in its field of the event.
#[test]
fn fields(rt: HostRuntime) {
    let (u, j, s) = (
        Word::new(0o017741722031),
        Word::new(0o737576000000),
        Slot::new(0o137),
    );
    is_read(
        &rt,
        Place::Plain,
        "LOAD !_AZ09 []^ 007",
        Event::Load {
            u,
            j,
            console: Some(ConsoleNumber::new(7)),
        },
    );
    is_read(
        &rt,
        Place::Plain,
        "LOAD !_AZ09 []^ -",
        Event::Load {
            u,
            j,
            console: None,
        },
    );
    is_read(
        &rt,
        Place::Load,
        "SYM !_AZ09 777777",
        Event::Symbol {
            name: u,
            a: 0o777777,
        },
    );
    is_read(
        &rt,
        Place::Plain,
        "SHOW !_AZ09 []^ !_AZ09",
        Event::Show { d: u, x: j, y: u },
    );
    is_read(
        &rt,
        Place::Plain,
        "TICK 137 1000",
        Event::Tick { s, n: 0o1000 },
    );
    is_read(&rt, Place::Plain, "RUN 7 10", Event::Run { n: 7, q: 8 });
    is_read(
        &rt,
        Place::Plain,
        "INT 137 777777777777 1",
        Event::Int {
            s,
            v: Word::ONES,
            w: Word::new(1),
        },
    );
    is_read(
        &rt,
        Place::Plain,
        "EXAM 137 200 3",
        Event::Exam { s, a: 0o200, n: 3 },
    );
    is_read(
        &rt,
        Place::Plain,
        "DEPOSIT 137 202 254000000203",
        Event::Deposit {
            s,
            a: 0o202,
            w: Word::new(0o254000000203),
        },
    );
}

/// Lines of a session of version 1, outside of blocks.
const PLAIN: &str = "LOAD U J -
LOAD U J 0
LOAD U J 007 > LOAD U J 7
FILE D A B
DIR D
SHOW D A B
TICK 0 1
TICK 77 1000
  TICK 000   00000000010  > TICK 0 10
TYPE 0 0
TYPE 7 101 177
TYPE 0 1 1 1 1 1 1 1 1 1 1 1 1 1 1 1 1 1 1 1 1 1 1 1 1 1 1 1 1 1 1 1 1
DRAIN 0 1
DRAIN 7 100
CLOCK 0
CLOCK 777777777777
INT 0 1000 0 > INT 0 000000001000 000000000000
INT 77 777777777777 1 > INT 77 777777777777 000000000001
EXAM 0 200 1 > EXAM 0 000200 1
EXAM 77 777770 10
EXAM 0 777777 1
STATE 77
DEPOSIT 0 202 254000000203 > DEPOSIT 0 000202 254000000203
DEPOSIT 77 777777 777777777777
STOP 0
CONT 77
PEEK 1
END
; none > ";

/// Lines of a session of version 1 in a LOAD block.
const IN_LOAD: &str = "100/ 201040000005 202040000200 > 000100/ 201040000005 202040000200
0/ 0 > 000000/ 000000000000
777777/ 1 > 777777/ 000000000001
777776/ 01 777777777777 > 777776/ 000000000001 777777777777
GO 0 > GO 000000
GO 777777";

/// Lines with the most words that a line can have.
const FULL_IN_LOAD: &str =
    "777760/ 1 2 3 4 5 6 7 10 11 12 13 14 15 16 17 777777777777 > 777760/ 000000000001 000000000002 000000000003 000000000004 000000000005 000000000006 000000000007 000000000010 000000000011 000000000012 000000000013 000000000014 000000000015 000000000016 000000000017 777777777777";

/// Lines of a session of version 1 in a FILE block.
const IN_FILE: &str = "/ 1 2 > / 000000000001 000000000002
/ 1 1 1 1 1 1 1 1 1 1 1 1 1 1 1 7 > / 000000000001 000000000001 000000000001 000000000001 000000000001 000000000001 000000000001 000000000001 000000000001 000000000001 000000000001 000000000001 000000000001 000000000001 000000000001 000000000007
EOF  > EOF";

#[test]
fn reads_lines(rt: HostRuntime) {
    reads(&rt, Place::Plain, 1, PLAIN);
    reads(&rt, Place::Load, 1, IN_LOAD);
    reads(&rt, Place::Load, 1, FULL_IN_LOAD);
    reads(&rt, Place::File, 1, IN_FILE);
}

/// First lines of a session.
const FIRST: &str = "VERSION 1
 VERSION  002 > VERSION 2
TICK 77 1";

/// Lines of a session of version 2, outside of blocks.
const PLAIN_IN_TWO: &str = "TICK 137 1
RUN 1 1
RUN 1000 100
INT 137 1 0 > INT 137 000000000001 000000000000
EXAM 100 0 1 > EXAM 100 000000 1
LIST 0 100 2 > LIST 0 000100 2
LIST 137 777770 10
DEPOSIT 137 0 1 > DEPOSIT 137 000000 000000000001
STATE 137
STOP 137
CONT 137
PEEK 137";

/// Lines of a session of version 2 in a LOAD block.
const IN_LOAD_IN_TWO: &str = "RO 0
RO 0377 > RO 377
SYM FOO 777777
SYM FOO 100 > SYM FOO 000100";

#[test]
fn reads_version_two(rt: HostRuntime) {
    reads(&rt, Place::First, 1, FIRST);
    reads(&rt, Place::Plain, 2, PLAIN_IN_TWO);
    reads(&rt, Place::Load, 2, IN_LOAD_IN_TWO);
}

/// Lines of version 2, or of its first line, that are none, or have a number outside its range.
#[test]
fn refuses_version_two(rt: HostRuntime) {
    refuses(
        &rt,
        Place::First,
        1,
        "VERSION\nVERSION 1 2\nVERSION A\nGO 1\n1/ 1\n/ 1\nEOF\nRO 1",
        Bad::Syntax,
    );
    refuses(
        &rt,
        Place::First,
        1,
        "VERSION 0\nVERSION 3\nVERSION 777777777777\nTICK 100 1",
        Bad::Range,
    );
    refuses(
        &rt,
        Place::Plain,
        1,
        "VERSION 1\nVERSION 2\nRUN 1 1\nLIST 0 0 1",
        Bad::Syntax,
    );
    refuses(
        &rt,
        Place::Plain,
        2,
        "VERSION 2\nRO 1\nSYM A 1\nRUN\nRUN 1\nRUN 1 1 1\nRUN 1 8\nRUNS 1 1\nLIST\nLIST 0 0\nLIST 0 0 1 1\nLISTS 0 0 1",
        Bad::Syntax,
    );
    refuses(
        &rt,
        Place::Plain,
        2,
        "TICK 140 1\nINT 140 0 0\nEXAM 140 0 1\nLIST 140 0 1\nLIST 0 0 0\nLIST 0 0 11\nLIST 0 777777 2\nDEPOSIT 140 0 0\nSTATE 140\nSTOP 140\nCONT 140\nPEEK 140\nRUN 0 1\nRUN 1001 1\nRUN 1 0\nRUN 1 101",
        Bad::Range,
    );
    refuses(&rt, Place::Load, 1, "VERSION 1\nRO 1\nSYM A 1", Bad::Syntax);
    refuses(
        &rt,
        Place::Load,
        2,
        "VERSION 2\nRO\nRO 1 2\nRO A\nSYM A\nSYM a 1\nSYM A 1 1\nSYM A 8\nSYM ABCDEFG 1\nRUN 1 1",
        Bad::Syntax,
    );
    refuses(&rt, Place::Load, 2, "RO 400\nSYM A 1000000", Bad::Range);
    refuses(&rt, Place::File, 2, "VERSION 2\nRO 1\nSYM A 1", Bad::Syntax);
}

#[test]
fn reads_empty_lines(rt: HostRuntime) {
    for place in [Place::First, Place::Plain, Place::Load, Place::File] {
        for line in [
            b"".as_slice(),
            b" ",
            b"    ",
            b";",
            b"; END",
            b"  ;x ~",
            b";TICK 0",
        ] {
            assert_eq!(rt;
                read_line(line, place, 1),
                Ok(Event::Nothing),
                "at {line:?}"
            );
        }
    }
}

#[test]
fn refuses_long_lines(rt: HostRuntime) {
    for (byte, short) in [
        (b';', Ok(Event::Nothing)),
        (b' ', Ok(Event::Nothing)),
        (b'A', Err(Bad::Syntax)),
        (0o177, Err(Bad::Syntax)),
    ] {
        let mut line: ArrayVec<u8, 256> = ArrayVec::new();
        for _turn in 0..255u8 {
            let _fits = line.try_push(byte);
        }
        assert_eq!(rt;
            read_line(line.as_slice(), Place::Plain, 1),
            short,
            "255 of {byte}"
        );
        let _fits = line.try_push(byte);
        assert_eq!(rt;
            read_line(line.as_slice(), Place::Plain, 1),
            Err(Bad::Long),
            "256 of {byte}"
        );
    }
}

/// Lines that are none of the table, or have a word that is no number or name, or too many or too
/// few.
const SYNTAX: &str = "LOAD U J\n\
LOAD U J - -\n\
LOAD u J -\n\
LOAD ABCDEFG J -\n\
LOAD U J 8\n\
LOAD U J --\n\
LOAD U J 0000000000000\n\
GO 100\n\
100/ 1\n\
/ 1\n\
EOF\n\
FILE D A\n\
FILE D A B C\n\
FILE D A b\n\
TICK\n\
TICK 0\n\
TICK 0 1 1\n\
TICK 8 1\n\
TICK 0 -1\n\
tick 0 1\n\
TICKS 0 1\n\
TIC 0 1\n\
TYPE 0\n\
TYPE 0 8\n\
TYPE 0 1 1 1 1 1 1 1 1 1 1 1 1 1 1 1 1 1 1 1 1 1 1 1 1 1 1 1 1 1 1 1 1 1\n\
DRAIN 0\n\
DRAIN 0 1 1\n\
CLOCK\n\
CLOCK -\n\
CLOCK 1 2\n\
CLOCK 0000000000001\n\
INT 0 1\n\
INT 0 1 2 3\n\
EXAM 0 0\n\
EXAM 0 0 1 1\n\
STATE\n\
STATE 0 0\n\
DEPOSIT 0 0\n\
DEPOSIT 0 0 8\n\
STOP\n\
CONT 0 0\n\
PEEK\n\
DIR\n\
DIR a\n\
DIR A B\n\
SHOW D A\n\
SHOW D A B C\n\
END 1\n\
END;\n\
HELLO\n\
8\n\
-";

/// Lines that are none after LOAD.
const SYNTAX_IN_LOAD: &str = "LOAD U J -\n\
END\n\
EOF\n\
/ 1\n\
TICK 0 1\n\
GO\n\
GO 1 2\n\
GO -\n\
100/\n\
100/ 8\n\
8/ 1\n\
100 / 1\n\
100/1\n\
/100 1\n\
100// 1\n\
0000000000100/ 1\n\
100/ 1 1 1 1 1 1 1 1 1 1 1 1 1 1 1 1 1\n\
100/ 0000000000001";

/// Lines that are none after FILE.
const SYNTAX_IN_FILE: &str = "GO 1\n\
/\n\
/1 2\n\
1/ 2\n\
/ 8\n\
EOF 1\n\
FILE D A B\n\
END\n\
/ 1 1 1 1 1 1 1 1 1 1 1 1 1 1 1 1 1";

#[test]
fn refuses_syntax(rt: HostRuntime) {
    refuses(&rt, Place::Plain, 1, SYNTAX, Bad::Syntax);
    refuses(&rt, Place::Load, 1, SYNTAX_IN_LOAD, Bad::Syntax);
    refuses(&rt, Place::File, 1, SYNTAX_IN_FILE, Bad::Syntax);
    for line in [
        b"GO\t100".as_slice(),
        b";\t",
        b"; \x7f",
        b"END\r",
        b"END\x80",
    ] {
        assert_eq!(rt;
            read_line(line, Place::Plain, 1),
            Err(Bad::Syntax),
            "at {line:?}"
        );
    }
}

/// Lines with a number outside its range, some of which also have a console above 7.
const RANGE: &str = "TICK 100 1\n\
TICK 0 0\n\
TICK 0 1001\n\
TYPE 0 200\n\
TYPE 0 1 777777777777\n\
DRAIN 0 0\n\
DRAIN 0 101\n\
INT 100 0 0\n\
EXAM 100 0 1\n\
EXAM 0 0 0\n\
EXAM 0 0 11\n\
EXAM 0 1000000 1\n\
EXAM 0 777777 2\n\
EXAM 0 777771 10\n\
STATE 100\n\
DEPOSIT 100 0 0\n\
DEPOSIT 0 1000000 0\n\
STOP 100\n\
CONT 100\n\
PEEK 777777777777\n\
TYPE 10 200\n\
DRAIN 10 101";

/// Lines in a LOAD block with a number outside its range.
const RANGE_IN_LOAD: &str = "GO 1000000\n\
777777/ 1 2\n\
1000000/ 1\n\
777761/ 1 1 1 1 1 1 1 1 1 1 1 1 1 1 1 1\n\
777777777777/ 1";

/// Lines with a console above 7.
const NO_CONSOLE: &str = "LOAD U J 10\n\
TYPE 10 1\n\
DRAIN 10 1\n\
DRAIN 777777777777 100";

/// Lines with a word of a wrong form, and a number outside its range or a console above 7.
const SYNTAX_FIRST: &str = "LOAD u J 10\n\
TYPE 10 8\n\
DRAIN 10 1 1\n\
TICK 100 8\n\
EXAM 100 0 8\n\
INT 100 8 0";

#[test]
fn refuses_numbers(rt: HostRuntime) {
    refuses(&rt, Place::Plain, 1, RANGE, Bad::Range);
    refuses(&rt, Place::Load, 1, RANGE_IN_LOAD, Bad::Range);
    refuses(&rt, Place::Plain, 1, NO_CONSOLE, Bad::NoConsole);
    refuses(&rt, Place::Plain, 1, SYNTAX_FIRST, Bad::Syntax);
}
