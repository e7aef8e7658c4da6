//! The name of each opcode, and words typed out.

use arrayvec::ArrayVec;
use its_chart::{opcode_named, type_out};
use its_word::{Word, read_octal};
use std::alloc::Global;
use std::process::Abort;
use std::test::Fail;

/// Four opcodes each: move, half word.
const MOVES: &str =
    "MOVE 200 MOVS 204 MOVN 210 MOVM 214 HLL 500 HRL 504 HLLZ 510 HRLZ 514 HLLO 520 HRLO 524 HLLE 530 HRLE 534 HRR 540 HLR 544 HRRZ 550 HLRZ 554 HRRO 560 HLRO 564 HRRE 570 HLRE 574";

/// Four opcodes each: arithmetic, Boolean.
const FUNCTIONS: &str =
    "IMUL 220 MUL 224 IDIV 230 DIV 234 ADD 270 SUB 274 SETZ 400 AND 404 ANDCA 410 SETM 414 ANDCM 420 SETA 424 XOR 430 IOR 434 ANDCB 440 EQV 444 SETCA 450 ORCA 454 SETCM 460 ORCM 464 ORCB 470 SETO 474";

/// Eight opcodes each.
const COMPARISONS: &str = "CAI 300 CAM 310 JUMP 320 SKIP 330 AOJ 340 AOS 350 SOJ 360 SOS 370";

/// Four opcodes each, two apart.
const TESTS: &str =
    "TRN 600 TLN 601 TDN 610 TSN 611 TRZ 620 TLZ 621 TDZ 630 TSZ 631 TRC 640 TLC 641 TDC 650 TSC 651 TRO 660 TLO 661 TDO 670 TSO 671";

const OTHERS: &str =
    ".IOT 040 .CALL 043 .BREAK 045 IBP 133 ILDB 134 LDB 135 IDPB 136 DPB 137 ASH 240 ROT 241 LSH 242 JFFO 243 ASHC 244 ROTC 245 LSHC 246 EXCH 250 BLT 251 AOBJP 252 AOBJN 253 JRST 254 JFCL 255 XCT 256 PUSHJ 260 PUSH 261 POP 262 POPJ 263 JSR 264 JSP 265 JSA 266 JRA 267";

fn number(text: &str) -> u64 {
    match read_octal(text.as_bytes()) {
        Ok(n) => n.value(),
        Err(_) => 0,
    }
}

/// A word is typed out as this line.
fn types(rt: &impl Abort, line: &[u8], word: Word) {
    let mut out = ArrayVec::new();
    type_out(word, &mut out);
    assert_eq!(rt; out.as_slice(), line);
}

/// Each of these operations, with an accumulator, `@`, an address and an index register.
fn each(
    rt: &impl Abort,
    alloc: Global,
    stems: &str,
    suffixes: &str,
    step: u64,
) -> Result<(), Fail> {
    let mut words = stems.split(' ');
    while let Some(stem) = words.next() {
        let mut opcode = number(words.next().unwrap_or("0"));
        for suffix in suffixes.split(' ') {
            let line = format!(in alloc; "{stem}{suffix} 1,@2(3)")?;
            let word = Word::new((opcode & 0o777) << 27 | 0o63000002);
            types(rt, line.as_bytes(), word);
            let name = format!(in alloc; "{stem}{suffix}")?;
            let named = opcode_named(name.as_bytes());
            assert_eq!(rt; named, Some((opcode & 0o777) as u32), "at {name:?}");
            opcode = opcode.wrapping_add(step);
        }
    }
    Ok(())
}

#[test]
fn each_operation(rt: HostRuntime) -> Result<(), Fail> {
    let alloc = rt.alloc();
    each(&rt, alloc, MOVES, " I M S", 1)?;
    each(&rt, alloc, FUNCTIONS, " I M B", 1)?;
    each(&rt, alloc, COMPARISONS, " L E LE A GE N G", 1)?;
    each(&rt, alloc, TESTS, " E A N", 2)?;
    each(&rt, alloc, OTHERS, "", 1)?;
    Ok(())
}

/// Texts that are the name of no opcode.
const NO_NAMES: &str = "- WORD FOO move MOVEX MOV UMOVE";

#[test]
fn no_operation(rt: HostRuntime) {
    for text in NO_NAMES.as_bytes().split(|b| *b == b' ') {
        assert_eq!(rt; opcode_named(text), None, "at {text:?}");
    }
    assert_eq!(rt; opcode_named(b""), None);
    assert_eq!(rt; opcode_named(b"MOVE "), None);
}

#[test]
fn typed(rt: HostRuntime) {
    types(&rt, b"MOVEI 1,5", Word::new(0o201040000005));
    types(&rt, b"MOVEM 1,200", Word::new(0o202040000200));
    types(&rt, b".BREAK 16,0", Word::new(0o045700000000));
    types(&rt, b"JRST 1004", Word::new(0o254000001004));
    types(&rt, b"JRST @0", Word::new(0o254020000000));
    types(&rt, b"TSON 17,@777777(17)", Word::new(0o677777777777));
    types(&rt, b"WORD 0,,0", Word::ZERO);
    types(&rt, b"WORD 247000,,5", Word::new(0o247000000005));
    types(&rt, b"WORD 777777,,777777", Word::ONES);
}
