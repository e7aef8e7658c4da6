//! Calls as C makes them: each command, a buffer that fits exactly or is too short, and a word that
//! is no text.

use super::its_call;
use std::alloc::Global;
use std::process::Abort;
use std::test::Fail;

const FIRST: &str =
    "LOAD U J -\n100/ 201040000005 202040000200\nGO 100\nTICK 0 2\nEXAM 0 200 1\nEND\n";

const FIRST_OUT: &str = "J 0\nT 0 2*\nE 0 000200 000000000005\n";

/// What `save` writes of a session without lines.
const EMPTY: &str = "SYSTEM 1\nCLOCK 0\nREADY\n";

/// A call with so much room gives this answer and these bytes.
fn gives(
    alloc: Global,
    rt: &impl Abort,
    words: (&[u8], &str),
    input: &str,
    room: usize,
    wanted: (u8, &str),
) -> Result<(), Fail> {
    let mut out = Vec::from_elem(alloc, 0u8, room)?;
    let mut count = 7;
    let answer = its_call(
        alloc,
        words.0,
        words.1.as_bytes(),
        input.as_bytes(),
        &mut out,
        &mut count,
    );
    assert_eq!(rt; answer, wanted.0, "in {input}");
    assert_eq!(rt; count, wanted.1.len(), "in {input}");
    assert!(rt; out.starts_with(wanted.1.as_bytes()), "in {input}");
    Ok(())
}

#[test]
fn calls(rt: HostRuntime) -> Result<(), Fail> {
    let alloc = rt.alloc();
    let size = FIRST_OUT.len();
    gives(alloc, &rt, (b"run", ""), FIRST, 1000, (0, FIRST_OUT))?;
    gives(alloc, &rt, (b"run", ""), FIRST, size, (0, FIRST_OUT))?;
    gives(alloc, &rt, (b"run", ""), FIRST, size - 1, (4, ""))?;
    gives(alloc, &rt, (b"run", ""), FIRST, 0, (4, ""))?;
    let refused = "? 1 SYNTAX\n";
    gives(alloc, &rt, (b"run", ""), "TICK 0\n", 11, (2, refused))?;
    gives(alloc, &rt, (b"run", ""), "TICK 0\n", 10, (4, ""))?;
    gives(alloc, &rt, (b"check", ""), FIRST, 5, (0, "OK 6\n"))?;
    gives(alloc, &rt, (b"check", ""), FIRST, 4, (4, ""))?;
    gives(alloc, &rt, (b"gen", "123456"), "", 73, (1, USAGE))?;
    gives(alloc, &rt, (b"gen", "\u{e9}"), "", 73, (1, USAGE))?;
    gives(
        alloc,
        &rt,
        (b"run", ""),
        "TICK 0\n",
        1000,
        (2, "? 1 SYNTAX\n"),
    )?;
    gives(alloc, &rt, (b"check", ""), FIRST, 1000, (0, "OK 6\n"))?;
    gives(alloc, &rt, (b"verify", ""), "END\n", 1000, (0, "YES 0\n"))?;
    gives(alloc, &rt, (b"asm", ""), "\n", 1000, (2, "? 2 CUT\n"))?;
    gives(alloc, &rt, (b"save", ""), "", 1000, (0, EMPTY))?;
    gives(alloc, &rt, (b"save", ""), "TICK 0\n", 1000, (2, refused))?;
    gives(alloc, &rt, (b"\xff", ""), FIRST, 1000, (7, ""))?;
    gives(alloc, &rt, (b"gen", "0"), "", 1000, (1, USAGE))?;
    gives(alloc, &rt, (b"run", "1"), FIRST, 1000, (1, USAGE))?;
    Ok(())
}

const USAGE: &str = "usage: its run | its check | its gen N | its verify | its asm | its save\n";
