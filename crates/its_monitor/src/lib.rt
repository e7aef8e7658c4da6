//! The monitor: one world, the tick of its jobs, and the calls of the operator. The calls of the
//! operator are what the lines of a session do to the world, and what they show. A call that names
//! a job leaves the world as it was if it is refused; else the job is first unwound to user mode,
//! except by PEEK and SYM. A call on files first performs the pending parts of a close.
//!
//! Proved of `Monitor` over the whole state:
//! - `tick`, `steps` and `running` are those of its_tick. Each byte or word of a SIOT is also moved
//!   once (`once`).
//! - `open`, `load_job`, `load_word`, `go`, `stop`, `cont`, `interrupt`, `exam`, `deposit`,
//!   `state`, `advance`, `version`, `read_only`, `symbol`, and `type_in` and `drain` of one byte:
//!   each is the operator's definition on the plain machine (`plain`) and its exact row on the
//!   stepped machine (`done`, `shown`, `word`, `unwinds`). Its refusals are those of the definition
//!   (`refused`). A refused call changes nothing (`same`). What holds between two calls is kept
//!   (`kept`).
//! - `make_job`, `set_registers`, `set_alarm`, `set_superior`, `open_tty`, `put_input`,
//!   `put_output` and `set_holder` are lines of the state part, by the same clauses.
//! - `settle` unwinds all jobs and performs the pending parts of a close: the plain machine is
//!   unchanged (`plain`), and the raw machine is the plain one then (`settled`).
//! - `exam` and `state` leave the plain machine unchanged (`leaves`).
//! - `barred` says whether an `a/` line would store on a read-only page, before and after its job
//!   is unwound (`plain`, `calmed`).
//! - Each page stays in its page frame, except that an unwound slot gives its reserved page back
//!   (`cores`, `core`), that `load_word` maps an absent page, and that `advance` unwinds the jobs
//!   whose alarm is due (`pages`).
//! - `peek` shows `peeked` of the state (`shown`), or is NoJob exactly if the slot is empty
//!   (`some`, `refused`).
//! - `dir`, `file`, `file_length`, `file_word`, `file_new` and `file_add` first perform the pending
//!   parts of a close (`state`). `dir` and `file` show the files of the plain machine (`shown`,
//!   `found`), `file_length` and `file_word` the words of a file number (`length`, `word`); these
//!   four leave the plain machine unchanged (`plain`). `file_new` and `file_add` are the operator's
//!   definitions on the plain machine, with exactly their refusals (`plain`, `refused`). The first
//!   four change no more of the world than the files, by these parts, and so do the other two if
//!   they are refused (`alone`).
//! - `open_disk`, `open_draft`, `write_draft`, `open_usr`, `open_link`, `send_words` and `shut_end`
//!   are the lines of the state part on channels and links: each is the definition on the plain
//!   machine (`plain`) and its exact row (`done`), with exactly its refusals (`refused`). The first
//!   three perform the pending parts of a close first, even if they are refused (`state`), and then
//!   unwind their job; if another is refused, it changes nothing (`same`).
//!
//! `Monitor` is a struct of one field, `World`. The operator's calls are its methods, in `impl
//! Monitor` blocks in the files of their kinds: each call has one contract, with its body. A method
//! takes its world (`let world = &mut self.world`), and the functions for its parts are over a
//! world. The tick is a crate below, and its methods are one line each. So the loop above calls one
//! crate. Once it reaches through: after the last file that DIR counts, `count_files` calls `seen`
//! of the world's files, which does nothing, for its clause that there are 256 files at most.
//!
//! The jobs that a CLOCK line unwinds are those that are due at the new clock, and they are unwound
//! before the clock moves. A CLOCK line that is refused unwinds nobody.
//!
//! TYPE and DRAIN are performed byte by byte (`type_in`, `drain`), and the definition covers the
//! whole line. The two agree, because a byte that is dropped changes nothing.
//!
//! Tests: test_operator.
#![tactic(auto)]

// The files:
// - `monitor.rt`: `Monitor`: its opening, its tick and its turns
// - `loading.rt`: LOAD
// - `words.rt`: the words of LOAD, EXAM and DEPOSIT
// - `pages.rt`: RO, and whether an `a/` line would store on a read-only page
// - `registers.rt`: GO, STOP, CONT, INT and STATE
// - `symbols.rt`: SYM
// - `restoring.rt`: the lines of the state part on jobs and consoles: JOB, REGS, ALARM, UNDER, TTY,
//   IN, OUT and HOLD
// - `restoring_channels.rt`: the lines of the state part on channels and links
// - `settling.rt`: all jobs unwound, before a system is saved
// - `peeking.rt`: PEEK, which unwinds nobody
// - `typing.rt`: TYPE and DRAIN
// - `clock.rt`: CLOCK, which acts on due alarms
// - `filing.rt`: DIR, SHOW and FILE
mod clock;
mod filing;
mod loading;
mod monitor;
mod pages;
mod peeking;
mod registers;
mod restoring;
mod restoring_channels;
mod settling;
mod symbols;
mod typing;
mod words;

pub use its_records::{FileShow, JobShow, Pace, Peek, Refusal};
pub use its_tick::tick;
pub use its_word::NoMemory;
pub use its_world::World;
pub use monitor::Monitor;
