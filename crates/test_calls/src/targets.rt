//! The results of calls on inferiors, and whom they disturb.

use super::inferiors::MAKER;
use std::alloc::Global;
use std::test::Fail;
use test_rows::{line, registers, rows_in, show_row, word};

/// Calls that a job makes one after another, and how each ends. `fails` is followed by the error
/// number, `gives` by the output, and `done` is an end without an output. Lines without such a row
/// are titles. The job has an inferior without pages, with channel 1 to write and channel 2 to
/// read, and channel 3 on its console; 4 and up are closed.
static ANSWERS: &str = "its own PC, at the call
SETZ | SIXBIT USRVAR | 1000,,777777 | 606 | 402000,,10 = gives 10000001000
OPEN: a bad or open channel, a control above 1, names of a job that is no inferior, its own among them, names of none
SETZ | SIXBIT OPEN | 1000,,20 | 150 | 151 | 152 | 403000,,10 = fails 4
SETZ | SIXBIT OPEN | 5000,,2 | 1000,,1 | 150 | 151 | 152 | 403000,,10 = fails 4
SETZ | SIXBIT OPEN | 5000,,2 | 1000,,4 | 150 | 151 | 152 | 403000,,10 = fails 22
SETZ | SIXBIT OPEN | 1000,,4 | 150 | 154 | 155 | 403000,,10 = fails 13
SETZ | SIXBIT OPEN | 5000,,1 | 1000,,4 | 150 | 154 | 155 | 403000,,10 = fails 13
SETZ | SIXBIT OPEN | 1000,,4 | 150 | 151 | 155 | 403000,,10 = fails 13
SETZ | SIXBIT OPEN | 1000,,4 | 150 | 151 | 154 | 403000,,10 = fails 12
SETZ | SIXBIT OPEN | 1000,,4 | 150 | 403000,,10 = fails 12
the inferior again, for input and for output with a directory, which is not looked at; both channels are closed, and it stays
SETZ | SIXBIT OPEN | 1000,,4 | 150 | 151 | 152 | 403000,,10 = done
SETZ | SIXBIT OPEN | 5000,,1 | 1000,,5 | 150 | 151 | 152 | 154 | 403000,,10 = done
SETZ | SIXBIT USRVAR | 1000,,5 | 602 | 402000,,10 = gives 2
SETZ | SIXBIT CLOSE | 1000,,4 | 403000,,10 = done
SETZ | SIXBIT CLOSE | 1000,,5 | 403000,,10 = done
USRMEM: numbers of arguments, a bad channel, a device, an address, leave to write, an absent word; and what it reads and stores
SETZ | SIXBIT USRMEM | 1000,,1 | 403000,,10 = fails 2
SETZ | SIXBIT USRMEM | 1000,,1 | 1000,,5 | 0 | 0 | 403000,,10 = fails 3
SETZ | SIXBIT USRMEM | 1000,,1 | 1000,,5 | 2000,,11 | 2000,,12 | 403000,,10 = fails 3
SETZ | SIXBIT USRMEM | 1000,,4 | 1000,,5 | 403000,,10 = fails 4
SETZ | SIXBIT USRMEM | 1000,,20 | 156 | 403000,,10 = fails 4
SETZ | SIXBIT USRMEM | 1000,,3 | 156 | 1000,,0 | 403000,,10 = fails 5
SETZ | SIXBIT USRMEM | 1000,,2 | 156 | 1000,,0 | 403000,,10 = fails 22
SETZ | SIXBIT USRMEM | 1000,,2 | 1000,,2000 | 1000,,1 | 403000,,10 = fails 5
SETZ | SIXBIT USRMEM | 1000,,1 | 1000,,100 | 403000,,10 = fails 16
SETZ | SIXBIT USRMEM | 1000,,1 | 1000,,777777 | 1000,,1 | 403000,,10 = fails 16
SETZ | SIXBIT USRMEM | 1000,,1 | 1000,,5 | 402000,,10 = gives 0
SETZ | SIXBIT USRMEM | 1000,,1 | 1000,,5 | 165 | 402000,,10 = gives 0
SETZ | SIXBIT USRMEM | 1000,,2 | 1000,,5 | 402000,,10 = gives 777777000123
SETZ | SIXBIT USRMEM | 1000,,1 | 1000,,5 | 1000,,0 | 403000,,10 = done
SETZ | SIXBIT USRMEM | 1000,,2 | 1000,,5 | 402000,,10 = gives 0
UCLOSE: numbers of arguments, a bad channel, of which oneself is one, a device
SETZ | SIXBIT UCLOSE | 403000,,10 = fails 2
SETZ | SIXBIT UCLOSE | 1000,,1 | 1000,,1 | 403000,,10 = fails 3
SETZ | SIXBIT UCLOSE | 1000,,4 | 403000,,10 = fails 4
SETZ | SIXBIT UCLOSE | 1000,,777777 | 403000,,10 = fails 4
SETZ | SIXBIT UCLOSE | 1000,,3 | 403000,,10 = fails 5
ACCESS: a bad channel, a device, a position; and SIOT at the last one, where it finishes behind its other tests
SETZ | SIXBIT ACCESS | 1000,,4 | 157 | 403000,,10 = fails 4
SETZ | SIXBIT ACCESS | 1000,,3 | 157 | 403000,,10 = fails 5
SETZ | SIXBIT ACCESS | 1000,,1 | 157 | 403000,,10 = fails 22
SETZ | SIXBIT ACCESS | 1000,,2 | 164 | 403000,,10 = fails 22
SETZ | SIXBIT ACCESS | 1000,,1 | 156 | 403000,,10 = done
SETZ | SIXBIT SIOT | 1000,,1 | 162 | 161 | 403000,,10 = done
SETZ | SIXBIT SIOT | 1000,,1 | 160 | 161 | 403000,,10 = fails 21
SETZ | SIXBIT SIOT | 1000,,1 | 162 | 164 | 403000,,10 = fails 22
SIOT both ways where the inferior has no page: the tests before that, and a count of 0
SETZ | SIXBIT ACCESS | 1000,,1 | 1000,,100 | 403000,,10 = done
SETZ | SIXBIT ACCESS | 1000,,2 | 1000,,100 | 403000,,10 = done
SETZ | SIXBIT SIOT | 1000,,1 | 162 | 161 | 403000,,10 = fails 16
SETZ | SIXBIT SIOT | 1000,,2 | 162 | 161 | 403000,,10 = fails 16
SETZ | SIXBIT SIOT | 1000,,1 | 171 | 161 | 403000,,10 = fails 20
SETZ | SIXBIT SIOT | 1000,,2 | 171 | 161 | 403000,,10 = fails 20
SETZ | SIXBIT SIOT | 1000,,1 | 160 | 161 | 403000,,10 = fails 21
SETZ | SIXBIT SIOT | 1000,,2 | 160 | 161 | 403000,,10 = fails 21
SETZ | SIXBIT SIOT | 1000,,2 | 162 | 1000,,1 | 403000,,10 = fails 17
SETZ | SIXBIT SIOT | 1000,,1 | 162 | 163 | 403000,,10 = done
SETZ | SIXBIT SIOT | 1000,,2 | 162 | 163 | 403000,,10 = done
TTYLND: to an inferior, by any channel on it; then the caller is not the holder, until it takes the console back
SETZ | SIXBIT TTYLND | 1000,,4 | 403000,,10 = fails 4
SETZ | SIXBIT TTYLND | 1000,,3 | 403000,,10 = fails 5
SETZ | SIXBIT TTYLND | 1000,,1 | 403000,,10 = done
SETZ | SIXBIT TTYLND | 1000,,1 | 403000,,10 = fails 5
SETZ | SIXBIT TTYLND | 1000,,2 | 403000,,10 = fails 5
SETZ | SIXBIT TTYLND | 1000,,777777 | 403000,,10 = done
SETZ | SIXBIT TTYLND | 1000,,2 | 403000,,10 = done
SETZ | SIXBIT TTYLND | 164 | 403000,,10 = done
USRVAR: a bad channel, a device, a name, leave to write, a variable that the superior cannot set, one that oneself cannot
SETZ | SIXBIT USRVAR | 1000,,4 | 600 | 403000,,10 = fails 4
SETZ | SIXBIT USRVAR | 1000,,3 | 150 | 403000,,10 = fails 5
SETZ | SIXBIT USRVAR | 1000,,2 | 150 | 403000,,10 = fails 22
SETZ | SIXBIT USRVAR | 1000,,2 | 150 | 1000,,0 | 403000,,10 = fails 22
SETZ | SIXBIT USRVAR | 1000,,2 | 600 | 1000,,0 | 403000,,10 = fails 5
SETZ | SIXBIT USRVAR | 1000,,2 | 607 | 1000,,0 | 403000,,10 = fails 5
SETZ | SIXBIT USRVAR | 1000,,1 | 600 | 1000,,0 | 403000,,10 = fails 22
SETZ | SIXBIT USRVAR | 1000,,1 | 601 | 1000,,0 | 403000,,10 = fails 22
SETZ | SIXBIT USRVAR | 1000,,1 | 602 | 1000,,0 | 403000,,10 = fails 22
SETZ | SIXBIT USRVAR | 1000,,1 | 603 | 1000,,0 | 403000,,10 = fails 22
SETZ | SIXBIT USRVAR | 1000,,1 | 604 | 1000,,0 | 403000,,10 = fails 22
SETZ | SIXBIT USRVAR | 1000,,1 | 605 | 1000,,0 | 403000,,10 = fails 22
SETZ | SIXBIT USRVAR | 1000,,777777 | 600 | 1000,,0 | 403000,,10 = fails 22
SETZ | SIXBIT USRVAR | 164 | 601 | 1000,,0 | 403000,,10 = fails 22
SETZ | SIXBIT USRVAR | 1000,,777777 | 602 | 1000,,0 | 403000,,10 = fails 22
SETZ | SIXBIT USRVAR | 164 | 603 | 1000,,0 | 403000,,10 = fails 22
SETZ | SIXBIT USRVAR | 1000,,777777 | 604 | 1000,,0 | 403000,,10 = fails 22
SETZ | SIXBIT USRVAR | 164 | 605 | 1000,,0 | 403000,,10 = fails 22
SETZ | SIXBIT USRVAR | 1000,,777777 | 606 | 1000,,0 | 403000,,10 = fails 22
SETZ | SIXBIT USRVAR | 164 | 607 | 1000,,0 | 403000,,10 = fails 22
the variables of oneself, in the order of their names from 600 on; those that it can set are set and read again
SETZ | SIXBIT USRVAR | 1000,,777777 | 600 | 402000,,10 = gives 650000000000
SETZ | SIXBIT USRVAR | 1000,,777777 | 601 | 402000,,10 = gives 700000000000
SETZ | SIXBIT USRVAR | 1000,,777777 | 602 | 402000,,10 = gives 0
SETZ | SIXBIT USRVAR | 1000,,777777 | 603 | 402000,,10 = gives 777777777777
SETZ | SIXBIT USRVAR | 1000,,777777 | 604 | 402000,,10 = gives 0
SETZ | SIXBIT USRVAR | 1000,,777777 | 605 | 402000,,10 = gives 3
SETZ | SIXBIT USRVAR | 1000,,777777 | 607 | 402000,,10 = gives 0
SETZ | SIXBIT USRVAR | 1000,,777777 | 610 | 1000,,2000 | 402000,,10 = gives 0
SETZ | SIXBIT USRVAR | 164 | 610 | 402000,,10 = gives 2000
SETZ | SIXBIT USRVAR | 1000,,777777 | 611 | 1000,,4 | 402000,,10 = gives 0
SETZ | SIXBIT USRVAR | 164 | 611 | 402000,,10 = gives 4
SETZ | SIXBIT USRVAR | 1000,,777777 | 612 | 1000,,1 | 402000,,10 = gives 0
SETZ | SIXBIT USRVAR | 164 | 612 | 402000,,10 = gives 1
SETZ | SIXBIT USRVAR | 1000,,777777 | 613 | 1000,,2 | 402000,,10 = gives 0
SETZ | SIXBIT USRVAR | 164 | 613 | 402000,,10 = gives 2
SETZ | SIXBIT USRVAR | 1000,,777777 | 614 | 1000,,3 | 402000,,10 = gives 0
SETZ | SIXBIT USRVAR | 164 | 614 | 402000,,10 = gives 3
SETZ | SIXBIT USRVAR | 1000,,777777 | 615 | 1000,,5 | 402000,,10 = gives 0
SETZ | SIXBIT USRVAR | 164 | 615 | 402000,,10 = gives 5
the same of the inferior; UPC sets flags too, and USTP starts it and stops it
SETZ | SIXBIT USRVAR | 1000,,2 | 600 | 402000,,10 = gives 650000000000
SETZ | SIXBIT USRVAR | 1000,,2 | 601 | 402000,,10 = gives 530000000000
SETZ | SIXBIT USRVAR | 1000,,2 | 602 | 402000,,10 = gives 2
SETZ | SIXBIT USRVAR | 1000,,2 | 603 | 402000,,10 = gives 0
SETZ | SIXBIT USRVAR | 1000,,2 | 604 | 402000,,10 = gives 0
SETZ | SIXBIT USRVAR | 1000,,2 | 605 | 402000,,10 = gives 0
SETZ | SIXBIT USRVAR | 1000,,2 | 606 | 402000,,10 = gives 10000000000
SETZ | SIXBIT USRVAR | 1000,,2 | 607 | 402000,,10 = gives 1
SETZ | SIXBIT USRVAR | 1000,,1 | 606 | 165 | 402000,,10 = gives 10000000000
SETZ | SIXBIT USRVAR | 1000,,2 | 606 | 402000,,10 = gives 770040000123
SETZ | SIXBIT USRVAR | 1000,,1 | 607 | 1000,,0 | 402000,,10 = gives 1
SETZ | SIXBIT USRVAR | 1000,,2 | 607 | 402000,,10 = gives 0
SETZ | SIXBIT USRVAR | 1000,,1 | 607 | 165 | 403000,,10 = done
SETZ | SIXBIT USRVAR | 1000,,2 | 607 | 402000,,10 = gives 1
SETZ | SIXBIT USRVAR | 1000,,1 | 610 | 1000,,2000 | 402000,,10 = gives 0
SETZ | SIXBIT USRVAR | 1000,,2 | 610 | 402000,,10 = gives 2000
SETZ | SIXBIT USRVAR | 1000,,1 | 611 | 1000,,4 | 402000,,10 = gives 0
SETZ | SIXBIT USRVAR | 1000,,2 | 611 | 402000,,10 = gives 4
SETZ | SIXBIT USRVAR | 1000,,1 | 612 | 1000,,1 | 402000,,10 = gives 0
SETZ | SIXBIT USRVAR | 1000,,2 | 612 | 402000,,10 = gives 1
SETZ | SIXBIT USRVAR | 1000,,1 | 613 | 1000,,2 | 402000,,10 = gives 0
SETZ | SIXBIT USRVAR | 1000,,2 | 613 | 402000,,10 = gives 2
SETZ | SIXBIT USRVAR | 1000,,1 | 614 | 1000,,3 | 402000,,10 = gives 0
SETZ | SIXBIT USRVAR | 1000,,2 | 614 | 402000,,10 = gives 3
SETZ | SIXBIT USRVAR | 1000,,1 | 615 | 1000,,5 | 402000,,10 = gives 0
SETZ | SIXBIT USRVAR | 1000,,2 | 615 | 402000,,10 = gives 5";

/// The session of these rows, before the calls and their blocks. Names of variables are from 600
/// on.
const CALLER: &str = "LOAD U X 0 = J 0
10/ 777
100: .CALL 120 | .BREAK 16, | .CALL 130 | .BREAK 16, | .CALL 140 | .BREAK 16, | JRST 1000
120: SETZ | SIXBIT OPEN | 5000,,1 | 1000,,1 | 150 | 151 | SETZ 152
130: SETZ | SIXBIT OPEN | 1000,,2 | 150 | 151 | SETZ 152
140: SETZ | SIXBIT OPEN | 1000,,3 | SETZ 153
150: SIXBIT USR | SIXBIT U | SIXBIT K | SIXBIT TTY | SIXBIT B | SIXBIT X | 1,,0 | 1,,1
160/ 440700000170 1 444400000170 0 777777777777 777777000123 400 2000 321 444400000161
600: SIXBIT UNAME | SIXBIT JNAME | SIXBIT UIND | SIXBIT SUPPRO | SIXBIT CNSL | SIXBIT PAGES | SIXBIT UPC | SIXBIT USTP
610: SIXBIT PIRQC | SIXBIT IFPIR | SIXBIT MASK | SIXBIT MSK2 | SIXBIT DF1 | SIXBIT DF2
";

/// The rest of it, before the rows run; another job is in slot 1.
const STARTED: &str = "GO 100
LOAD B X - = J 1
GO 0
TICK 0 23 = T 0 4. 1* 5. 1* 5. 1* 1. 1*
";

/// How many ticks a row has, and their letters: those of the call, those of one or two instructions
/// after it, and the first of the next call.
fn ending(kind: &str) -> (&str, &str) {
    match kind.as_bytes() {
        b"fails" => ("11", "4. 1* 2. 2*"),
        b"gives" => ("11", "4. 1* 2. 1* 1."),
        b"makes" => ("13", "10. 1* 1. 1*"),
        b"unmakes" => ("16", "10. 1* 3. 2*"),
        _ => ("11", "4. 1* 1. 1* 2."),
    }
}

/// A job executes the calls of these rows one after another, after a session's start, and each ends
/// as its row says.
pub fn compare_calls(alloc: Global, before: &str, started: &str, rows: &str) -> Result<(), Fail> {
    let mut row = before.to_string(alloc)?;
    let mut ticks = String::new(alloc);
    let mut k = 0u32;
    for call in rows.split('\n') {
        if let Some((block, told)) = call.split_once(" = ") {
            let (kind, ten) = told.split_once(" ").unwrap_or((told, "777"));
            let (count, letters) = ending(kind);
            let place = 0o2000u32.wrapping_add(k.wrapping_mul(16));
            let at = 0o1000u32.wrapping_add(k.wrapping_mul(3));
            let call = format!(in alloc;
                "{at:o}: .CALL {place:o} | JFCL | JFCL\n{place:o}: {block}"
            )?;
            line(&mut row, &call)?;
            let asked = format!(in alloc;
                "DEPOSIT 0 10 777\nTICK 0 {count} = T 0 {letters}\nEXAM 0 10 1 = E 0 000010 "
            )?;
            ticks.push_str(&asked)?;
            word(&mut ticks, ten)?;
            ticks.push('\n')?;
            k = k.wrapping_add(1);
        }
    }
    let end = 0o1000u32.wrapping_add(k.wrapping_mul(3));
    let end = format!(in alloc; "{end:o}: .CALL 2000\n{started}{ticks}")?;
    row.push_str(&end)?;
    show_row(alloc, &row)
}

/// A job executes the calls of these rows in a session with an inferior, and each ends as its row
/// says.
pub fn compare_ends(alloc: Global, rows: &str) -> Result<(), Fail> {
    compare_calls(alloc, CALLER, STARTED, rows)
}

#[test]
fn ends(rt: HostRuntime) -> Result<(), Fail> {
    assert_eq!(rt; rows_in(ANSWERS), 126);
    compare_ends(rt.alloc(), ANSWERS)
}

/// `.IOT` and SIOT on an inferior, whose page 0 is zeros: the position, the words of pointer and
/// count, and the instruction; then the letters of eleven ticks, the word at 10, the inferior's
/// word at 200, the words of pointer and count, and whether the job runs, with its PC word and its
/// first pending word. The block at 300 is SIOT into it, that at 320 SIOT from it.
static TRANSFERS: &str = "200 0 0 .IOT 1,10 = 4. 1* 1. 5* = 777 777 0 0 = RUN 10000000130 0
200 0 0 .IOT 2,10 = 4. 1* 2. 4* = 0 0 0 0 = RUN 10000000127 0
2000 0 0 .IOT 1,10 = 4. 1* 1. 1* 4- = 777 0 0 0 = STOP 10000000123 20
2000 0 0 .IOT 2,10 = 4. 1* 1. 1* 4- = 777 0 0 0 = STOP 10000000123 20
1000000 0 0 .IOT 1,10 = 4. 1* 1. 1* 4- = 777 0 0 0 = STOP 10000000123 20
1000000 0 0 .IOT 2,10 = 4. 1* 2. 4* = 777777000003 0 0 0 = RUN 10000000127 0
200 0 0 .IOT 1,4000 = 4. 1* 1. 1* 4- = 777 0 0 0 = STOP 10000000122 4
200 0 0 .IOT 2,4000 = 4. 1* 1. 1* 4- = 777 0 0 0 = STOP 10000000122 4
2000 0 0 .IOT 2,4000 = 4. 1* 1. 1* 4- = 777 0 0 0 = STOP 10000000122 4
1000000 0 0 .IOT 2,4000 = 4. 1* 1. 1* 4- = 777 0 0 0 = STOP 10000000122 4
200 444400000010 1 .CALL 300 = 4. 2* 3. 2* = 777 777 4400000010 0 = RUN 10000000126 0
200 444400000010 1 .CALL 320 = 4. 1* 1. 1* 3. 1* = 0 0 4400000010 0 = RUN 10000000125 0
1000000 444400000010 1 .CALL 300 = 4. 1* 1. 5* = 777 0 444400000010 1 = RUN 10000000131 0
1000000 444400000010 1 .CALL 320 = 4. 1* 1. 5* = 777 0 444400000010 1 = RUN 10000000131 0
2000 444400000010 1 .CALL 300 = 4. 1* 2. 4* = 16 0 444400000010 1 = RUN 10000000127 0
2000 444400000010 1 .CALL 320 = 4. 1* 2. 4* = 16 0 444400000010 1 = RUN 10000000127 0
1776 444400000010 3 .CALL 300 = 4. 3* 4. = 16 0 4400000011 1 = RUN 10000000123 0
1776 444400000010 3 .CALL 320 = 4. 1* 1. 1* 1. 1* 2. = 16 0 4400000011 1 = RUN 10000000123 0
200 440700000010 1 .CALL 300 = 4. 1* 2. 4* = 21 0 440700000010 1 = RUN 10000000127 0
1000000 440700000010 1 .CALL 320 = 4. 1* 2. 4* = 21 0 440700000010 1 = RUN 10000000127 0
2000 444400004000 1 .CALL 300 = 4. 1* 1. 1* 4- = 777 0 444400004000 1 = STOP 10000000122 4
2000 444400004000 1 .CALL 320 = 4. 1* 1. 1* 4- = 777 0 444400004000 1 = STOP 10000000122 4
1000000 444400004000 1 .CALL 320 = 4. 1* 1. 5* = 777 0 444400004000 1 = RUN 10000000131 0";

/// After the maker of an inferior without words: it is opened for input, and both channels are put
/// to the position at 247.
const POSITIONED: &str = "10/ 777
114: .CALL 250 | 0 | .CALL 256 | 0 | .CALL 262 | 0
123: JFCL | JFCL | JFCL | JFCL | JFCL | JFCL | JFCL
250: SETZ | SIXBIT OPEN | 1000,,2 | 240 | 241 | SETZ 242
256: SETZ | SIXBIT ACCESS | 1000,,1 | SETZ 247
262: SETZ | SIXBIT ACCESS | 1000,,2 | SETZ 247
300: SETZ | SIXBIT SIOT | 1000,,1 | 310 | 311 | 403000,,10
320: SETZ | SIXBIT SIOT | 1000,,2 | 310 | 311 | 403000,,10
";

const MOVED: &str = "GO 100
TICK 0 72 = T 0 4. 1* 11. 1* 5. 1* 5. 1* 5. 1* 5. 1* 5. 1* 5. 1* 5. 1* 1.
TICK 0 13 = T 0 ";

#[test]
fn transfers(rt: HostRuntime) -> Result<(), Fail> {
    let alloc = rt.alloc();
    for row in TRANSFERS.split('\n') {
        let (given, told) = row.split_once(" = ").expect(&rt, "letters");
        let (letters, told) = told.split_once(" = ").expect(&rt, "words");
        let (words, told) = told.split_once(" = ").expect(&rt, "registers");
        let (at, given) = given.split_once(" ").expect(&rt, "a position");
        let (pointer, given) = given.split_once(" ").expect(&rt, "a pointer");
        let (count, call) = given.split_once(" ").expect(&rt, "a count");
        let mut row = format!(in alloc;
            "{MAKER}{POSITIONED}122: {call}\n246/ 0 {at}\n310/ {pointer} {count}\n{MOVED}{letters}"
        )?;
        let mut words = words.split(' ');
        for title in [
            "\nEXAM 0 10 1 = E 0 000010 ",
            "\nEXAM 1 200 1 = E 1 000200 ",
            "\nEXAM 0 310 2 = E 0 000310 ",
            " ",
        ] {
            row.push_str(title)?;
            word(&mut row, words.next().expect(&rt, "a word"))?;
        }
        row.push_str("\nSTATE 0 = S 0 650000000000 700000000000 - 0 ")?;
        registers(&mut row, told)?;
        show_row(alloc, &row)?;
    }
    Ok(())
}
