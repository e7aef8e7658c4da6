//! The program over a session in memory.

ghost use Rattle.std.specs.Prelude.{◌≤◌};

use its_io::{MemSink, MemSource};
use its_top::{Status, its};
use its_word::read_octal;
use std::alloc::Global;
use std::process::Abort;
use std::test::Fail;

/// What the program answers, and what it writes.
#[derive(Drop)]
pub struct Outcome {
    pub status: Status,
    pub wrote: Vec<u8>,
}

/// Performs a command over a session, from a source that gives so many bytes a call; these calls of
/// the source and of the sink fail.
pub fn obey(
    alloc: Global,
    command: &str,
    session: &[u8],
    piece: usize,
    fails: (&[u64], &[u64]),
) -> Result<Outcome, Fail>
    requires { 1 ≤ piece }
{
    let mut words = Vec::new(alloc);
    words.push(command.to_string(alloc)?)?;
    let mut src = MemSource::open(alloc, session, piece, fails.0)?;
    let mut out = MemSink::open(alloc, 16384, fails.1)?;
    let status = its(alloc, &words, &mut src, &mut out);
    Ok(Outcome {
        status,
        wrote: out.written().to_vec(alloc)?,
    })
}

/// Runs a session.
pub fn run(alloc: Global, session: &str) -> Result<Outcome, Fail> {
    obey(alloc, "run", session.as_bytes(), 512, (&[], &[]))
}

/// The number that octal digits write.
pub fn number(rt: &impl Abort, digits: &str) -> u32 {
    match read_octal(digits.as_bytes()) {
        Ok(word) => word.right(),
        Err(_) => rt.abort(),
    }
}
