//! Assembly texts over sources that cut them and fail.

use arrayvec::ArrayVec;
use its_asm::{Image, assemble, statement, type_out};
use its_word::{ConsoleNumber, Word, read_octal};
use std::alloc::Global;
use std::process::Abort;
use std::test::Fail;

/// A line gives this word, and the word is typed out as that line.
fn both_ways(rt: &impl Abort, line: &[u8], word: Word) {
    assert_eq!(rt; statement(line), Some(word), "at {line:?}");
    let mut out = ArrayVec::new();
    type_out(word, &mut out);
    assert_eq!(rt; out.as_slice(), line);
}

/// Each opcode, with an accumulator, `@`, an address and an index register: its typed line gives
/// the word again.
#[test]
fn each_operation(rt: HostRuntime) {
    for opcode in 0..0o1000u64 {
        let word = Word::new(opcode << 27 | 0o63000002);
        let mut line = ArrayVec::new();
        type_out(word, &mut line);
        assert_eq!(rt; statement(line.as_slice()), Some(word), "at {opcode:o}");
    }
}

/// Lines that give a word, each after its word.
const GIVEN: &str = "045700000000 .BREAK 16,
043000001020 .CALL 1020 ; a comment
254000000000 JRST
270777777777 ADD 17,@777777-0(17)
270000000005   ADD   7-2
234020000000 DIV 0,@
200017000000 MOVE (17)
200740000005 MOVE 16+1-0,5
000001000002 WORD 1,,2
777776000004 WORD 0-2,,3+1
777777777777 WORD 777777777777
000000000000 WORD 0
576045560000 SIXBIT OPEN
411215131702 SIXBIT A*-+/\"";

/// Lines that give no word on their own.
const NOTHING: &str = "
; MOVE 1,5
LABEL: MOVE 1,5
MOVE 1,SYMBOL
MOVE .,5
JRST .
MOVE [5]
WORD .,,5
WORD 1,2
WORD 1234567012345
WORD 8
WORD
MOVE 20,5
MOVE 5(20)
MOVE ,5
MOVE 1, 5
MOVE 1,-5
MOVE 1,5+
MOVE 1,1234567
MOVE (5
MOVE 5)
MOVE 1,2,3
SIXBIT TOOLONG
SIXBIT
X = 5
LOC 100
GO 100
JOB U J -
FOO 1
move 1,5
- 5";

#[test]
fn statements(rt: HostRuntime) {
    for row in GIVEN.as_bytes().split(|b| *b == b'\n') {
        if let Some((word, line)) = row.split_at_checked(13) {
            let word = read_octal(&word[..12]).ok();
            assert_eq!(rt; statement(line), word, "at {line:?}");
        }
    }
    for line in NOTHING.as_bytes().split(|b| *b == b'\n') {
        assert_eq!(rt; statement(line), None, "at {line:?}");
    }
    assert_eq!(rt; statement(b"JRST 5\t"), None);
    assert_eq!(rt; statement(&[b' '; 256]), None);
}

#[test]
fn typed(rt: HostRuntime) {
    both_ways(&rt, b"MOVEI 1,5", Word::new(0o201040000005));
    both_ways(&rt, b"MOVEM 1,200", Word::new(0o202040000200));
    both_ways(&rt, b".BREAK 16,0", Word::new(0o045700000000));
    both_ways(&rt, b"JRST 1004", Word::new(0o254000001004));
    both_ways(&rt, b"JRST @0", Word::new(0o254020000000));
    both_ways(&rt, b"TSON 17,@777777(17)", Word::new(0o677777777777));
    both_ways(&rt, b"WORD 0,,0", Word::ZERO);
    both_ways(&rt, b"WORD 247000,,5", Word::new(0o247000000005));
    both_ways(&rt, b"WORD 777777,,777777", Word::ONES);
}

/// Texts after what they give: the names and the console of the job, its start, its words at their
/// addresses, and its symbols; or the fault.
const TEXTS: &str =
    "650000000000 520000000000 None 100 100/201040000005 101/202040000200 102/45700000000 700000000000=200
JOB U J -
LOC 100
MOVEI 1,5
MOVEM 1,X
.BREAK 16,
X = 200
GO 100
%650000000000 520000000000 Some(3) 100 100/201040000005 101/202040000200 636441626400=100 700000000000=200

JOB U J 3 ; the console is 3
LOC 77+1
START: MOVEI 1,5
       MOVEM 1,X
X = 100+100
GO START
%line 4 is refused: Undef
JOB U J -
LOC 100
MOVEI 1,5
MOVEM 1,Y
.BREAK 16,
X = 200
GO 100
%650000000000 520000000000 None 100 100/200040000104 101/270040000105 102/274040000104 103/254000000101 104/5 105/1000002
JOB U J -
LOC 100
MOVE 1,[5]
ADD 1,[1,,2]
SUB 1,[5]
JRST .-2
GO 100
%line 5 is refused: Twice
JOB U J -
LOC 100
MOVE 1,[5]
LOC 100
GO 100
%line 4 is refused: Twice
JOB U J -
X = 1
WORD 0,,X
X: WORD 2
GO 0
%line 4 is refused: Twice
JOB U J -
WORD 1
LOC 0
WORD 2
GO 0
%line 4 is refused: Range
JOB U J -
LOC 777777
WORD 1
WORD 2
GO 0
%line 4 is refused: Range
JOB U J -
LOC 777777
MOVE 1,[5]
GO 0
%line 2 is refused: Undef
JOB U J -
A: X = A
GO 0
%line 3 is refused: Syntax
JOB U J -
GO 0
WORD 1
%line 1 is refused: Syntax
LOC 100
%line 1 is refused: Syntax
A: JOB U J -
GO 0
%line 3 is refused: Range
JOB U J -
MOVE 1,A
A: MOVE 20,5
GO 0
%line 2 is refused: Undef
JOB U J -
MOVE 1,A
A: FOO 1
GO 0
%line 3 is refused: Undef
JOB U J -
MOVE 1,A
A: B = C
GO 0
%line 2 is refused: Undef
JOB U J -
MOVE 1,B
A: B = C
GO 0
%line 3 is refused: Cut
JOB U J -
WORD 1";

/// What `TEXTS` has before a text.
fn shown(alloc: Global, text: &[u8]) -> Result<String, Fail> {
    if text.len() > 100_000 {
        return Ok(String::new(alloc));
    }
    match assemble(alloc, text) {
        Ok(image) => image_shown(alloc, &image),
        Err(fault) => Ok(format!(in alloc; "{fault}")?),
    }
}

/// The names and the console of an image, its start, its first words and its first symbols.
fn image_shown(alloc: Global, image: &Image) -> Result<String, Fail> {
    let (u, j, start) = (image.u.value(), image.j.value(), image.start);
    let console = ConsoleNumber::numbered(&image.console);
    let mut out = format!(in alloc; "{u:o} {j:o} {console:?} {start:o}")?;
    for k in 0..9 {
        if let Some((a, w)) = image.words.at(k) {
            add_pair(alloc, &mut out, a.into(), '/', w.value())?;
        }
    }
    for k in 0..9 {
        if let Some((name, value)) = image.symbols.at(k) {
            add_pair(alloc, &mut out, name.value(), '=', value.into())?;
        }
    }
    Ok(out)
}

/// Adds two numbers with a character between them.
fn add_pair(alloc: Global, out: &mut String, a: u64, between: char, b: u64) -> Result<(), Fail> {
    let pair = format!(in alloc; " {a:o}{between}{b:o}")?;
    out.push_str(&pair)?;
    Ok(())
}

#[test]
fn texts(rt: HostRuntime) -> Result<(), Fail> {
    let alloc = rt.alloc();
    for row in TEXTS.split('%') {
        let (wanted, text) = row.split_once("\n").expect(&rt, "a text");
        let made = shown(alloc, text.as_bytes())?;
        assert_eq!(rt; made.as_str(), wanted, "at {text:?}");
    }
    Ok(())
}

/// As many symbols as a text may define, and one more; a line of 255 bytes, and one of 256.
#[test]
fn limits(rt: HostRuntime) -> Result<(), Fail> {
    let alloc = rt.alloc();
    let mut text = format!(in alloc; "JOB U J -\n")?;
    for k in 1..512u32 {
        let symbol = format!(in alloc; "S{k:o} = {k:o}\n")?;
        text.push_str(&symbol)?;
    }
    let full = format!(in alloc; "{text}LAST:\nGO S777")?;
    let made = shown(alloc, full.as_bytes())?;
    assert!(rt;
        made.as_bytes()
            .starts_with(b"650000000000 520000000000 None 777 ")
    );
    let more = format!(in alloc; "{text}LAST: MORE:\nGO S777")?;
    let made = shown(alloc, more.as_bytes())?;
    assert_eq!(rt; made.as_str(), "line 513 is refused: Full");
    let made = shown(alloc, &[b' '; 255])?;
    assert_eq!(rt; made.as_str(), "line 2 is refused: Cut");
    let made = shown(alloc, &[b' '; 256])?;
    assert_eq!(rt; made.as_str(), "line 1 is refused: Long");
    Ok(())
}
