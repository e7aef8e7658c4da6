//! The second machine: the plain machine as code, and a whole call is one step. The checker of
//! transcripts uses it. It has no call in progress. Here are its beginning, the step of a job, and
//! the lines of the operator, each also as an event of a session.
//!
//! Proved:
//! - `open` is the machine at the start (`machine`).
//! - `step` is the step of a slot's job. It is false exactly if the job has no step, and then
//!   nothing changes (`row`). It removes the job of no slot except its own and those that are
//!   touched (`loses`).
//! - `steps` executes units one after another. Each is a step that disturbs nobody and makes no job
//!   (`series`), and if they are fewer than was asked, no unit is due (`most`).
//! - `event` is exactly the operator's line (`told`), with exactly its refusals. Its `Answer` says
//!   what the line shows. A refused line changes nothing (`same`), and no line removes a job
//!   (`jobs`).
//! - `restore` is exactly a line of the state part (`restores`), with exactly its refusals. A
//!   refused line changes nothing (`same`). Each thing that a line restores has a function of its
//!   own.
//! - The slots that a step or a line touches are marked, and no others.
//! - `words`, `shown`, `listed`, `show`, `file` and `row` are what EXAM, LIST, STATE, DIR and SHOW
//!   show.
//! - `ask` is exactly the decoding of a call, with its faults.
//! - Each change of a call is `Change.effect` on the machine, if the change is possible
//!   (`Can.CanMake`); place and marks are unchanged, and what holds of the machine is kept (`row`,
//!   `tidy`). `apply` performs several in their order; `finish` and `depart` carry out the end of a
//!   call and the removal of its job. What is decided is possible (the law `plain_ready`).
//! - What holds between steps and lines is kept (`kept`).
//!
//! Definitions: `Plain.machine_of` is the machine of its parts, by
//! `its_shared/specs/Parts.raw_machine`. `Tidy` is what holds of it at any time, and `Events.Kept`
//! what holds between two steps or lines. `Plain::step` is `Call.Step.transition` of a job, with
//! the slots that it touches marked (`Steps.Makes`); `Plain::event` is `Operator.Lines.lined`
//! (`Events.Told`). `Plain::begin` performs the step if that is a delivery or a unit; for a call it
//! gives the site (`Steps.StepBegins`). A line has the effect of the operator's definition
//! (`Lines.Operates`, `Lines.Loads`), and refuses exactly if the definition does, with nothing
//! changed. Its answer says what is shown (`Events.lines_of`). `Plain::restore` is
//! `its_plain/specs/Operator/State.restored` (`State.Restores`).
//!
//! In `its_direct` an `a/` line is tested for room before its first word is stored: the absent
//! pages from that of its first word to that of its last are counted. The words of a FILE block are
//! tested in the same way, against the room after the last word of the file. A refused line changes
//! nothing.
//!
//! A call's changes are made there at once: a close performs all its parts; a new page is reserved,
//! cleared and mapped in one piece; and a job goes with its channels, pages, alarm, symbols and
//! consoles. That a decision can be carried out (there is room for a page, the channel of a close
//! is on a draft, ..) is what the decision promises (`its_shared/specs/Can`), so no change has an
//! error of its own.
//!
//! What one step or line touches is marked in the machine itself (`touched`): the jobs that it
//! disturbs, except that of the step, and those that it makes. Whom a call disturbs is a value with
//! three cases (`Disturbed`): the job into which it reaches, if there is one; for UCLOSE also all
//! jobs below that one; for LOGOUT the caller's kin. Only a call of the last two kinds, and one
//! that makes a job, looks at all slots.
//!
//! Tests: test_judge/src/steps.rt, test_judge/src/lines.rt.
#![tactic(auto)]

// The files:
// - `plain.rt`: the machine (`Plain`) and its beginning
// - `step/steps.rt`: the step of a job
// - `step/user_mode.rt`, `step/in_place.rt`: user mode: a delivery or a unit, also in place
// - `step/series.rt`: units one after another
// - `step/asking.rt`, `step/sorting.rt`: a call decoded in one pass
// - `step/stepping.rt`: a decision carried out
// - `changes/effects.rt`, `changes/files.rt`, `changes/links.rt`: each change of a call
// - `changes/removal.rt`: the removal of a tree of jobs
// - `step/parts.rt`, `step/moved.rt`: parts of one SIOT, one after another
// - `step/waiting.rt`: an `.IOT` that waits for its console, found without a decoding
// - `lines/events.rt`: an event of a session
// - `lines/loading.rt`, `lines/words.rt`: LOAD and its words
// - `lines/job_lines.rt`: GO, STOP, CONT, INT and DEPOSIT
// - `lines/settings.rt`: VERSION, RO, SYM and PEEK
// - `lines/consoles.rt`: TYPE and DRAIN
// - `lines/files.rt`: FILE with its words and EOF
// - `lines/clock.rt`: CLOCK
// - `lines/shown.rt`: what EXAM, LIST and STATE show
// - `lines/directory.rt`: what DIR and SHOW show
// - `lines/restoring.rt`, `lines/state.rt`: what the lines of the state part restore, each one
//   thing of a system; and each of these lines
mod changes;
mod lines;
mod plain;
mod step;

pub use its_records::Refusal;
pub use its_word::NoMemory;
pub use lines::events::Answer;
pub use plain::{Plain, Spot};
pub use step::user_mode::Begun;
