//! The commands of the program: their words, the session loop, and the top call `its`.
//!
//! Proved: the promise of `its`, and the causes of its answers (docs/PROVED.md). `session` has the
//! same promise for a monitor that is open; it takes no memory, and keeps what holds of the monitor
//! between two calls (`sound`).
//!
//! What is done for each command is one record, `Top.Obeyed`, from which the clauses of `its`
//! follow by laws (`proofs/PromiseLaws`): a record for each command (`specs/Outcomes`), which
//! contain the four of `specs/Promise`. `run` and `check` take the items of one reader,
//! `its_reader::Items`, one by one. Whatever items follow, what is written of the session is what
//! was written and then what is written from here on (`Conclusion.SoFar`), or the result of the
//! check (`Checking.CheckSoFar`). What `check` has found is a value, `Checked`, that is written
//! once at the end. One function, `perform`, performs an event and gives its result as a value;
//! `Performing.Performed` says what the session shows from this event on, and the state of the
//! stepped machine after it. The long results, those of DIR and SHOW, are read from the monitor
//! while they are printed. `gen` performs the lines of `its_session::generated` and counts what the
//! same value counts for (`Generating.counted`).
//!
//! Everything that allocates does so at its opening; no call of the loop takes memory.
//!
//! What an event shows is the line itself as a value, `its_print::Reply`; only LIST, DIR and SHOW
//! show several (`Shown`). The parts that a line lends, as its letters or words, and the bytes of
//! its text are put into arrays that a session makes once (`sessions/room.rt`) and hands down: to
//! make an array of 2048 bytes costs more than all else that an EXAM line does. The line of a
//! refusal, which ends its session, has an array of its own. `verify` has such arrays too, for the
//! letters that a line of a transcript says and for the line that is to be there
//! (`its_verify/src/room.rt`).
//!
//! `clap` reads the words once none of them begins with `-`, in the form of one required positional
//! and one optional one; the program's own definition then decides what two words mean. So no flag
//! of `clap` can be given, and an error of `clap` other than want of memory is Usage.
//!
//! If `clap` finds no memory, the program looks at the words as they are. So words alone never have
//! status 5: those that are no command are Usage with any memory, and `check` never answers
//! NoMemory.
//!
//! The loop streams the session from the start through a fixed buffer; the form that reads all of
//! it first was not built.
//!
//! How a session ends (at END, at the end of its events, with a refused line, or with too many
//! lines) is the `Fate` that the walk over the events carries. So each answer of the top call has
//! its cause in one equation, and they exclude each other.
//!
//! `gen` stops at a line that is refused, and nevertheless writes its three lines, with status 0;
//! `LINES` is always the number of lines of the whole session. No generated line is known to be
//! refused.
//!
//! Tests: test_lines, test_calls, test_hostile.
#![tactic(auto)]

// The files:
// - `top.rt`, `commands/words.rt`, `commands/status.rt`: the top call, the words of a command, and
//   the exit status
// - `sessions/run.rt`: `run`: the loop over a session
// - `commands/checking.rt`: `check`
// - `commands/generating.rt`: `gen`
// - `commands/verifying.rt`: `verify`
// - `commands/assembling.rt`: `asm`
// - `sessions/performing.rt`: the arm of each line of a session
// - `sessions/loading.rt`, `sessions/consoles.rt`, `sessions/filing.rt`, `sessions/listing.rt`,
//   `sessions/ticking.rt`, `sessions/circle.rt`: lines of one kind: LOAD; TYPE and DRAIN; files;
//   EXAM and LIST; TICK; RUN
// - `sessions/shown.rt`, `sessions/printing.rt`, `sessions/writing.rt`, `commands/answer.rt`: what
//   a line shows, as a value and as text
// - `sessions/flow.rt`, `sessions/progress.rt`, `commands/counts.rt`, `sessions/room.rt`: how far a
//   session is, and its counts
mod commands;
mod sessions;
mod top;

pub use commands::status::Status;
pub use sessions::run::session;
pub use top::its;
