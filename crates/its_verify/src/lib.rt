//! The checker of transcripts: whether bytes are a transcript of a session. If they are not, it
//! says the number of the first line that is not licensed. A session and its transcript come from
//! one source. The session is kept; then it is followed along with the lines of its transcript, at
//! most one of which is kept at a time.
//!
//! Proved:
//! - The judge, as a definition, says Yes exactly of the bytes that are a transcript of the events.
//!   Otherwise it says No with the number of the first line that is not licensed, or with one more
//!   than there are lines (the laws `yes_accepted`, `accepted_yes`, `no_first`, `first_no`). A
//!   transcript that is printed is accepted (`written_accepted`, `session_verified`).
//! - `read_ticks` reads the letters of a `T` line, and `is_peek` recognizes a line of PEEK, exactly
//!   by the definition.
//! - `keep` reads the session of an input up to its END line, or says which line is too long or
//!   that there is no END line, exactly by the parts of an input (`keeps`, for a source whose bytes
//!   are known).
//! - `TranscriptReader` reads a transcript line by line. Of the lines that are left, `expect` finds
//!   what a judge finds who wants this line; `peek` one who wants a line of PEEK; `refused` one who
//!   wants the `?` line of a refusal as the last line; `finish` one who wants no line. Lines that
//!   are too long or too many are included (`says`, `ends`).
//! - `Judge::licensed` is the licence of a letter, false exactly if the letter is not licensed, and
//!   `Judge::event` is the line of the operator.
//! - `verify` finds of an input exactly what `Verified.verified` says (`finds`, for a source whose
//!   bytes are known; except for want of memory and faults of the source).
//!
//! Definitions: `Accepted.Accepted` says which bytes are a transcript of some events, by the rules
//! of `Transcript` and the text of lines alone, and `Accepted.IsFirst` which line is the first that
//! is not licensed. `Rulings.verdict` is a judge that computes: it follows the events and the lines
//! together, and after a RUN line its turns. The letters of a `T` line are read from its bytes,
//! printed again and compared; that reading a printed line gives its letters is
//! `PaceLaws.paces_again`. `Verified.verified` is the verdict on a session and its transcript in
//! one input, including lines that are too long or too many; `Finds.Found` says what `verify` finds
//! of a source whose bytes are known.
//!
//! The judge in `specs/Rulings` says no more than the rules of `Transcript` do: it is the form of
//! them that computes, and laws show that the two agree, both ways. What is promised of an answer
//! is to be said by the rules.
//!
//! The turns of a RUN line are not given to the judge: it finds whose turn is next in the machine
//! to which the lines so far have led, by the rule of the transcript.
//!
//! If an input has more lines than it may have, a verdict counts only if it names a line within the
//! limit; so YES never does.
//!
//! `w` and `-` leave the machine as it is. So if the first of several in a row is licensed, each of
//! them is (`Again` in `specs/JudgeState`), and the judge asks for the step of the job once.
//! Whether that step is a `.IOT` that waits for the job's console shows without a decoding
//! (`its_direct/src/waiting.rt`). A short line whose letters are all alike is printed and compared
//! before its letters are read (`are_alike` in `src/ticks.rt`).
//!
//! The checker takes many `*` of one job at once, if they are units in a row: they touch no other
//! job, so the counts of `.` change as they do by one of them.
//!
//! Many `*` in a row are most often parts of one SIOT, whose call is decoded once for all of them
//! (`Plain::parts`): by the law `Going.stands` of its_stepped it is still there after a part, and
//! asks for the same with its new values. The judge first takes the units and parts with which a
//! run of `*` begins, and a single step only if there are none (`src/stars.rt`). A `.` before a `*`
//! of the same slot changes only a count, which the `*` sets to 0, so runs of `*` with up to 16 `.`
//! between them are led as one (`src/gathered.rt`), as many as may be (`gathered_by` of
//! `specs/Gathered`): whether the `.` are licensed is known from their number.
//!
//! What a read that fails leaves open is said by lines: the line that the answer mentions is none
//! of the whole lines that were read. A line of a transcript is judged once it is whole or too
//! long. After the last line that the session has, the first byte decides.
//!
//! Tests: test_judge/src/transcripts.rt, test_hostile/src/transcripts.rt.
#![tactic(auto)]

// The files:
// - `walk.rt`, `verifier.rt`: a session and its transcript followed together
// - `keeping.rt`: the session of an input, which is kept
// - `judge.rt`: the judge, which leads the second machine along the lines and letters
// - `stars.rt`: several `*` at once
// - `gathered.rt`: several `*` with `.` between them at once
// - `ticks.rt`, `peeks.rt`: the letters of a `T` line, and a line of PEEK
// - `showing.rt`: what a line of a session shows
// - `transcript_reader.rt`: the lines of a transcript, read one by one
// - `outcome.rt`, `room.rt`: the verdict, and the room for lines
mod gathered;
mod judge;
mod keeping;
mod outcome;
mod peeks;
mod room;
mod showing;
mod stars;
mod ticks;
mod transcript_reader;
mod verifier;
mod walk;

pub use judge::Judge;
pub use keeping::{Broken, Part, is_end_line, keep};
pub use outcome::Outcome;
pub use peeks::is_peek;
pub use room::{Bytes, Room, Runs};
pub use ticks::read_ticks;
pub use transcript_reader::TranscriptReader;
pub use verifier::Verifier;
pub use walk::verify;
