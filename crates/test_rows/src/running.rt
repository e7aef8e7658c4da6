//! The program over a session in memory.

ghost use Rattle.std.specs.Prelude.{◌≤◌};

use its_io::{MemSink, MemSource};
use its_top::{Status, its};
use std::alloc::Global;
use std::test::Fail;

/// What the program answers, what it writes, and whether it leaves its source as it was.
#[derive(Drop)]
pub struct Outcome {
    pub status: Status,
    pub wrote: Vec<u8>,
    pub is_left: bool,
}

/// Runs the program by words, each with a space before it, from a source that gives so many bytes a
/// call; these calls of the source and of the sink fail.
pub fn obey(
    alloc: Global,
    words: &str,
    session: &[u8],
    piece: usize,
    fails: (&[u64], &[u64]),
) -> Result<Outcome, Fail>
    requires { 1 ≤ piece }
{
    let mut list = Vec::new(alloc);
    for word in words.split(' ').skip(1) {
        list.push(word.to_string(alloc)?)?;
    }
    let mut src = MemSource::open(alloc, session, piece, fails.0)?;
    let mut out = MemSink::open(alloc, 131072, fails.1)?;
    let status = its(alloc, &list, &mut src, &mut out);
    Ok(Outcome {
        status,
        wrote: out.written().to_vec(alloc)?,
        is_left: src.rest() == session,
    })
}

/// The failure of a session: what the program answers, what it writes, and the session, as far as
/// there is room.
fn failure(session: &str, got: &Outcome) -> Fail {
    let wrote = str::from_utf8(&got.wrote).unwrap_or("no text");
    Fail::new(format_args!("{:?}: {wrote}in {session}", got.status))
}

/// The transcript of a session that is not refused is one of it, as `verify` says.
fn vouched(alloc: Global, session: &str, transcript: &str) -> Result<(), Fail> {
    let mut both = String::new(alloc);
    both.push_str(session)?;
    if session.ends_with("END") {
        both.push('\n')?;
    } else if !session.ends_with("END\n") {
        both.push_str("\nEND\n")?;
    }
    both.push_str(transcript)?;
    let got = obey(alloc, " verify", both.as_bytes(), 512, (&[], &[]))?;
    if got.status == Status::Done && got.wrote.starts_with(b"YES ") {
        Ok(())
    } else {
        Err(failure(&both, &got))
    }
}

/// A session has this transcript, and is refused exactly if that shows it. If it is not, `verify`
/// accepts the transcript.
pub fn shows(alloc: Global, session: &str, transcript: &str) -> Result<(), Fail> {
    let got = obey(alloc, " run", session.as_bytes(), 512, (&[], &[]))?;
    let is_refused = transcript.contains('?');
    let status = if is_refused {
        Status::Refused
    } else {
        Status::Done
    };
    if got.status != status || got.wrote.as_slice() != transcript.as_bytes() {
        return Err(failure(session, &got));
    }
    if is_refused {
        Ok(())
    } else {
        vouched(alloc, session, transcript)
    }
}
