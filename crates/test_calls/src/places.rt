//! Jobs that a superior disturbs at each place inside a call, those that it does not, and a tree of
//! jobs that it removes.

use super::inferiors::MAKER;
use std::alloc::Global;
use std::process::Abort;
use std::test::Fail;
use test_rows::{line, rows_in, show_row, times, word};

/// How an inferior reaches a place in a SIOT of two bytes from its console: the bytes that are
/// typed, how many ticks bring it there, their letters, and what PEEK shows. Then what it is left
/// with: the words of its pointer and its count, that of the bytes, and its PC word.
static PLACES: &str = "- = 7 4. 1* 2. = ENTERED - 1 - - - = 440700000130 2 0 10000000102
- = 10 4. 1* 3. = PARSED 635157640000 1 - - - = 440700000130 2 0 10000000102
- = 11 4. 1* 4. = ASKED 635157640000 1 440700000130 000000000002 - = 440700000130 2 0 10000000102
- = 12 4. 1* 5. = HOLDING 635157640000 1 440700000130 000000000002 - = 440700000130 2 0 10000000102
- = 13 4. 1* 5. 1w = WAITING 635157640000 1 440700000130 000000000002 - = 440700000130 2 0 10000000102
101 = 13 4. 1* 5. 1* = MOVING 635157640000 4 440700000130 000000000002 000000000101 = 350700000130 1 404000000000 10000000102
101 = 14 4. 1* 5. 1* 1. = HOLDING 635157640000 3 440700000130 000000000002 - = 350700000130 1 404000000000 10000000102
101 = 15 4. 1* 5. 1* 1. 1w = WAITING 635157640000 3 440700000130 000000000002 - = 350700000130 1 404000000000 10000000102
101 102 = 15 4. 1* 5. 1* 1. 1* = MOVING 635157640000 4 440700000130 000000000002 000000000102 = 260700000130 0 406040000000 10000000102
101 102 = 17 4. 1* 5. 1* 1. 1* 1. 1* = ENDING 635157640000 3 440700000130 000000000002 - = 260700000130 0 406040000000 10000000104
101 102 = 20 4. 1* 5. 1* 1. 1* 1. 1* 1. = ENDING 635157640000 2 260700000130 000000000002 - = 260700000130 0 406040000000 10000000104";

/// Calls that the superior then executes, each at its fifth tick: the instruction, its block, what
/// the word at 10 holds after it, and what the inferior's count does: one of the words that the
/// inferior is left with, or a number. They are `.IOT`, SIOT and USRMEM that read the word of the
/// bytes, USRVAR that reads UPC, and `.IOT`, SIOT and USRMEM that store 5 in the count's word.
static CALLS: &str = ".IOT 2,10 | 0 = bytes count
.CALL 300 | SETZ | SIXBIT SIOT | 1000,,2 | 310 | SETZ 311 = bytes count
.CALL 300 | SETZ | SIXBIT USRMEM | 1000,,1 | 1000,,130 | 402000,,10 = bytes count
.CALL 300 | SETZ | SIXBIT USRVAR | 1000,,2 | 243 | 402000,,10 = pc count
.IOT 1,11 | 0 = 777 5
.CALL 300 | SETZ | SIXBIT SIOT | 1000,,1 | 312 | SETZ 313 = 777 5
.CALL 300 | SETZ | SIXBIT USRMEM | 1000,,1 | 1000,,123 | 1000,,5 | 402000,,10 = count 5";

/// After the maker of the inferior: it is opened for input, channel 1 is put to the word of its
/// count and channel 2 to that of its bytes, and it gets the console.
const READY: &str = "10/ 777 5
114: .CALL 250 | 0 | .CALL 256 | 0 | .CALL 262 | 0 | .CALL 266 | 0
246/ 24
250: SETZ | SIXBIT OPEN | 1000,,2 | 240 | 241 | SETZ 242
256: SETZ | SIXBIT ACCESS | 1000,,1 | 401000,,123
262: SETZ | SIXBIT ACCESS | 1000,,2 | 401000,,130
266: SETZ | SIXBIT TTYLND | 401000,,1
310/ 444400000010 1 444400000011 1
400: .CALL 110 | 0 | .CALL 114 | 0 | 0 | 0 | 0 | 0 | SETZ | SIXBIT OPEN | 1000,,1 | SETZ 121 | SETZ | SIXBIT SIOT | 1000,,1 | 122
420: SETZ 123 | SIXBIT TTY | 440700,,130 | 2
";

const PLACED: &str =
    "GO 100\nTICK 0 126 = T 0 4. 1* 11. 1* 5. 1* 5. 25* 7. 1* 5. 1* 5. 1* 5. 1* 5. 1* 5. 1* 1.\n";

/// Appends the line that types these bytes, if there are any.
fn type_bytes(row: &mut String, typed: &str) -> Result<(), Fail> {
    if typed != "-" {
        times(row, "TYPE 0 ", typed, 1, " = Y 0 0\n")?;
    }
    Ok(())
}

/// The row up to the place of the inferior, before the superior executes this call.
fn placed(alloc: Global, rt: &impl Abort, call: &str, place: &str) -> Result<String, Fail> {
    let (typed, told) = place.split_once(" = ").expect(rt, "ticks");
    let (ticks, told) = told.split_once(" = ").expect(rt, "a place");
    let (peek, _) = told.split_once(" = ").expect(rt, "words");
    let (count, letters) = ticks.split_once(" ").expect(rt, "letters");
    let (at, block) = call.split_once(" | ").expect(rt, "a block");
    let mut row = format!(in alloc; "{MAKER}{READY}124: {at}\n300: {block}\n{PLACED}")?;
    type_bytes(&mut row, typed)?;
    let told = format!(in alloc; "TICK 1 {count} = T 1 {letters}\nPEEK 1 = P 1 {peek}")?;
    line(&mut row, &told)?;
    Ok(row)
}

/// One of the words that an inferior is left with, by its name, or a number.
fn named<'a>(rt: &impl Abort, left: &'a str, name: &'a str) -> &'a str {
    let mut words = left.split(' ');
    let _pointer = words.next().expect(rt, "a pointer");
    let count = words.next().expect(rt, "a count");
    let bytes = words.next().expect(rt, "bytes");
    match name.as_bytes() {
        b"count" => count,
        b"bytes" => bytes,
        b"pc" => words.next().expect(rt, "a PC word"),
        _ => name,
    }
}

/// Appends what is shown after the call: the inferior in user mode, and the words that it is left
/// with.
fn left(rt: &impl Abort, row: &mut String, place: &str, told: &str) -> Result<(), Fail> {
    let (_, words) = place.rsplit_once(" = ").expect(rt, "words");
    let (ten, count) = told.split_once(" ").expect(rt, "a count");
    let (pointer, _) = words.split_once(" ").expect(rt, "a pointer");
    row.push_str("TICK 0 5 = T 0 4. 1*\nPEEK 1 = P 1 USER - 0 - - -\n")?;
    row.push_str("EXAM 0 10 1 = E 0 000010 ")?;
    word(row, named(rt, words, ten))?;
    row.push_str("\nEXAM 1 122 2 = E 1 000122 ")?;
    row.push_str(pointer)?;
    row.push(' ')?;
    word(row, named(rt, words, count))?;
    row.push_str("\nEXAM 1 130 1 = E 1 000130 ")?;
    word(row, named(rt, words, "bytes"))?;
    row.push_str("\nSTATE 1 = S 1 650000000000 530000000000 0 0 RUN ")?;
    word(row, named(rt, words, "pc"))?;
    times(row, "", " 000000000000", 6, "\n")
}

/// Each of these calls finds the inferior in user mode, wherever it was.
#[test]
fn places(rt: HostRuntime) -> Result<(), Fail> {
    let alloc = rt.alloc();
    for row in CALLS.split('\n') {
        let (call, told) = row.split_once(" = ").expect(&rt, "words");
        for place in PLACES.split('\n') {
            let mut row = placed(alloc, &rt, call, place)?;
            left(&rt, &mut row, place, told)?;
            show_row(alloc, &row)?;
        }
    }
    Ok(())
}

/// What UCLOSE shows, and then the next job, which gets the slot.
const REMOVED: &str = "TICK 0 5 = T 0 4. 1*
TICK 1 1 = T 1 1-
TICK 0 1 = T 0 1.
LOAD N N - = J 1
GO 0
PEEK 1 = P 1 USER - 0 - - -
";

/// UCLOSE removes the inferior, wherever it was.
#[test]
fn places_removed(rt: HostRuntime) -> Result<(), Fail> {
    let alloc = rt.alloc();
    for place in PLACES.split('\n') {
        let call = ".CALL 300 | SETZ | SIXBIT UCLOSE | 401000,,1";
        let mut row = placed(alloc, &rt, call, place)?;
        row.push_str(REMOVED)?;
        show_row(alloc, &row)?;
    }
    Ok(())
}

/// Calls of the superior while the inferior waits for its first byte: the instruction, its block,
/// ticks and their letters, and the state of the inferior then. A call with error 1, 2 or 3, one
/// that faults in its decoding, and one that looks at no job disturbs nobody; any other that has
/// its channel on the inferior disturbs it, even if it fails.
static REACHED: &str =
    "SIOT, USRMEM, USRVAR, UCLOSE and CORBLK with errors 2 and 3, the name IOT, and an absent output
.CALL 300 | SETZ | SIXBIT SIOT | 1000,,1 | SETZ 310 = 5 4. 1* = WAITING
.CALL 300 | SETZ | SIXBIT SIOT | 1000,,1 | 310 | 311 | 402000,,10 = 5 4. 1* = WAITING
.CALL 300 | SETZ | SIXBIT USRMEM | 401000,,1 = 5 4. 1* = WAITING
.CALL 300 | SETZ | SIXBIT USRVAR | 1000,,1 | 243 | 0 | SETZ = 5 4. 1* = WAITING
.CALL 300 | SETZ | SIXBIT UCLOSE | 1000,,1 | 401000,,1 = 5 4. 1* = WAITING
.CALL 300 | SETZ | SIXBIT CORBLK | 1000,,0 | 401000,,1 = 5 4. 1* = WAITING
.CALL 300 | SETZ | SIXBIT CORBLK | 1000,,1 | 1000,,1 | 1000,,1 | 401000,,0 = 5 4. 1* = WAITING
.CALL 300 | SETZ | SIXBIT IOT | 401000,,1 = 5 4. 1* = WAITING
.CALL 300 | SETZ | SIXBIT USRMEM | 1000,,1 | 1000,,130 | 402000,,2000 = 5 2. 2* 1- = WAITING
OPEN, CLOSE, ACCESS, FILLEN, LISTEN, FINISH and TTYLND, whatever becomes of them, and calls on oneself or on a closed channel
.CALL 300 | SETZ | SIXBIT OPEN | 1000,,3 | 240 | 241 | SETZ 242 = 5 4. 1* = WAITING
.CALL 300 | SETZ | SIXBIT CLOSE | 401000,,1 = 5 4. 1* = WAITING
.CALL 300 | SETZ | SIXBIT ACCESS | 1000,,1 | 401000,,0 = 5 4. 1* = WAITING
.CALL 300 | SETZ | SIXBIT FILLEN | 1000,,1 | 402000,,10 = 5 4. 1* = WAITING
.CALL 300 | SETZ | SIXBIT LISTEN | 1000,,1 | 402000,,10 = 5 4. 1* = WAITING
.CALL 300 | SETZ | SIXBIT FINISH | 401000,,1 = 5 4. 1* = WAITING
.CALL 300 | SETZ | SIXBIT TTYLND | 401000,,1 = 5 4. 1* = WAITING
.CALL 300 | SETZ | SIXBIT TTYLND | 401000,,777777 = 5 4. 1* = WAITING
.CALL 300 | SETZ | SIXBIT USRVAR | 1000,,777777 | SETZ 243 = 5 4. 1* = WAITING
.CALL 300 | SETZ | SIXBIT CORBLK | 1000,,2 | 1000,,777777 | 401000,,0 = 5 4. 1* = WAITING
.CALL 300 | SETZ | SIXBIT USRMEM | 1000,,4 | 401000,,130 = 5 4. 1* = WAITING
calls that are prepared and not tried yet
.CALL 300 | SETZ | SIXBIT USRMEM | 1000,,1 | 401000,,130 = 4 4. = WAITING
.CALL 300 | SETZ | SIXBIT CORBLK | 1000,,1 | 1000,,1 | 401000,,0 = 10 10. = WAITING
SIOT with errors 17 and 21 and with the count 0, .IOT that faults, USRMEM with 22, 16 and 5, USRVAR with 22 and 5
.CALL 300 | SETZ | SIXBIT SIOT | 1000,,1 | 1000,,310 | SETZ 311 = 5 4. 1* = USER
.CALL 300 | SETZ | SIXBIT SIOT | 1000,,1 | 311 | SETZ 310 = 5 4. 1* = USER
.CALL 300 | SETZ | SIXBIT SIOT | 1000,,2 | 310 | SETZ 314 = 5 4. 1* = USER
.IOT 1,4000 | 0 = 5 4. 1* = USER
.IOT 2,4000 | 0 = 5 4. 1* = USER
.CALL 300 | SETZ | SIXBIT USRMEM | 1000,,1 | SETZ 310 = 5 4. 1* = USER
.CALL 300 | SETZ | SIXBIT USRMEM | 1000,,1 | 401000,,2000 = 5 4. 1* = USER
.CALL 300 | SETZ | SIXBIT USRMEM | 1000,,2 | 1000,,130 | 401000,,0 = 5 4. 1* = USER
.CALL 300 | SETZ | SIXBIT USRVAR | 1000,,1 | SETZ 240 = 5 4. 1* = USER
.CALL 300 | SETZ | SIXBIT USRVAR | 1000,,2 | 243 | 401000,,0 = 5 4. 1* = USER
CORBLK with 22 for its operation, 5, 22 for its page, 16, and without an error
.CALL 300 | SETZ | SIXBIT CORBLK | 1000,,4 | 1000,,1 | 401000,,0 = 5 4. 1* = USER
.CALL 300 | SETZ | SIXBIT CORBLK | 1000,,0 | 1000,,2 | 401000,,0 = 5 4. 1* = USER
.CALL 300 | SETZ | SIXBIT CORBLK | 1000,,0 | 1000,,1 | 401000,,400 = 5 4. 1* = USER
.CALL 300 | SETZ | SIXBIT CORBLK | 1000,,1 | 1000,,1 | 401000,,0 = 11 10. 1* = USER
.CALL 300 | SETZ | SIXBIT CORBLK | 1000,,3 | 1000,,1 | 401000,,0 = 5 4. 1* = USER";

#[test]
fn reached(rt: HostRuntime) -> Result<(), Fail> {
    let alloc = rt.alloc();
    assert_eq!(rt; rows_in(REACHED), 37);
    let place = "- = 13 4. 1* 5. 1w = WAITING 635157640000 1 440700000130 000000000002 - = -";
    for row in REACHED.split('\n') {
        if let Some((call, told)) = row.split_once(" = ") {
            let (ticks, state) = told.split_once(" = ").expect(&rt, "a place");
            let (count, letters) = ticks.split_once(" ").expect(&rt, "letters");
            let peek = if state == "USER" {
                "USER - 0 - - -"
            } else {
                "WAITING 635157640000 1 440700000130 000000000002 -"
            };
            let mut row = placed(alloc, &rt, call, place)?;
            let told = format!(in alloc; "TICK 0 {count} = T 0 {letters}\nPEEK 1 = P 1 {peek}")?;
            line(&mut row, &told)?;
            show_row(alloc, &row)?;
        }
    }
    Ok(())
}

/// A job that makes an inferior, counts up the name at 156 for it, copies its own words from 100 to
/// 177 into it by `.IOT`, and starts it; then it removes it. Each inferior does the same.
const TREE: &str = "LOAD U X - = J 0
100: .CALL 130 | .BREAK 16, | .CALL 140 | .BREAK 16, | AOS 156 | .CALL 145 | .BREAK 16, | MOVE 3,153
110: .IOT 1,0(3) | AOBJN 3,110 | .CALL 157 | .BREAK 16, | .CALL 164 | .BREAK 16, | .CALL 171 | .BREAK 16,
130: SETZ | SIXBIT OPEN | 5000,,1 | 1000,,1 | 154 | 155 | 156 | 403000,,120
140: SETZ | SIXBIT CORBLK | 1000,,1 | 1000,,1 | 401000,,0
145: SETZ | SIXBIT ACCESS | 1000,,1 | 401000,,100
153: 777700,,100 | SIXBIT USR | SIXBIT U | SIXBIT B
157: SETZ | SIXBIT USRVAR | 1000,,1 | 176 | 401000,,100
164: SETZ | SIXBIT USRVAR | 1000,,1 | 177 | 401000,,0
171: SETZ | SIXBIT UCLOSE | 401000,,1
176: SIXBIT UPC | SIXBIT USTP
GO 100
";

/// The last job finds no empty slot, and is stopped; another is in a call. Then all are removed
/// from the top.
const FELLED: &str = "TICK 77 12 = T 77 4. 1* 2. 2* 1-
EXAM 77 120 1 = E 77 000120 000000000014
STATE 76 = S 76 650000000000 420000000075 75 - RUN 010000000116 000000000200 000000000000 000000000000 000000000000 000000000000 000000000000
TICK 40 3 = T 40 3.
TICK 0 6 = T 0 4. 1* 1.
TICK 1 1 = T 1 1-
TICK 40 1 = T 40 1-
TICK 77 1 = T 77 1-
LOAD A X - = J 1
GO 0
STATE 0 = S 0 650000000000 700000000000 - - RUN 010000000120 000000000000 000000000000 000000000000 000000000000 000000000000 000000000000
";

/// A tree of 64 jobs, each the inferior of the one before, is removed from its top.
#[test]
fn deep_tree(rt: HostRuntime) -> Result<(), Fail> {
    let alloc = rt.alloc();
    let mut row = TREE.to_string(alloc)?;
    for slot in 0..63u32 {
        let made = "4. 1* 11. 1* 1. 1* 4. 1* 1. 1*";
        let first = format!(in alloc; "TICK {slot:o} 744 = T {slot:o} {made}")?;
        times(&mut row, &first, " 4. 1* 1. 1*", 64, " 4. 1* 5. 1* 1.\n")?;
    }
    row.push_str(FELLED)?;
    show_row(alloc, &row)
}
