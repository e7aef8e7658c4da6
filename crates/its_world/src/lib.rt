//! The whole state of the monitor, as one record (`World`). It has the cores, jobs, frames of calls
//! in progress, consoles with their holders, files and drafts, the clock, alarms, and links. The
//! state of the stepped machine is read from it.
//!
//! Proved:
//! - `open` gives a world with no job, no page, no frame, no byte and no holder at a console, no
//!   file, and the clock at 0.
//! - Each call that writes changes exactly one part of one slot, one console, one holder or one
//!   link, and each call that reads gives it.
//! - Each write that can change the wait list to which a slot belongs puts the slot there
//!   (`on_lists`). `is_blocked` says whether a slot is on a wait list.
//! - Each call on a channel with its file, its draft or its end of a link is the effect of one
//!   change (`row`), and channels and files continue to fit each other (`tidy`).
//!
//! A `World` has one `Files`. The registers of a job have its channels, which name files and drafts
//! by number: `Reading` has the file and the position, `Writing` the draft. Definitions see names
//! and words in the place of numbers: `its_shared/specs/Parts.chan_of` is the channel that a
//! machine has, `mark_of` the mark. `Tidy` (`specs/Tidy`) connects the two: the readers of each
//! file are as many as the channels that read it, and each draft except the marked one is that of
//! one channel. So the count of readers of a file shows whether it is locked, and no call looks
//! through the channels of all jobs. `open_file`, `open_draft`, `shut`, `move_to`, `append`,
//! `begin_close`, `delete_file` and `rename_file` change a channel and what it is on at once. Each
//! is the effect of one `Change` and keeps `Tidy`; `its_commit::apply` calls them.
//!
//! A channel on a link (`Channel::Link`) has the number of the link and its direction, and the end
//! has the slot and the number of the channel. `join` and `part` write the channel and the end at
//! once, `send` and `receive` the words; all four put those that wait at the link on the lists to
//! which they belong. A removal closes the ends at the jobs that go (`leave_links`).
//!
//! The wait lists are one `Links` of its_links with a node for each slot and 82 lists: one for
//! HANG, one for CLOCK, one each for input, output and drained output of each console, one for each
//! console of those that wait there and can go on; then one each for a word and for room of each
//! link, and one for each link of those that wait there and can go on. The writes of `World` put
//! slots on these lists themselves (those of a call in progress, `put_registers`, `type_in`,
//! `take`, `put`, `drain`, `hold`, `join`, `part`, `send`, `receive`, `set_clock`), so no call and
//! no line has code for it. Code that writes the jobs, the holders or the links in place (a
//! removal) ends with `settle_posts`. A new write of a console, a holder, a link, the clock or a
//! frame goes through one of these.
//!
//! Each record of what a write does (`Becomes`, `ConsoleBecomes`, ..) says
//! `on_lists : OnLists old → OnLists new`, and all laws on the lists to which slots belong are in
//! `proofs/PlaceLaws`. Between calls of the monitor the lists agree with the plain machine:
//! `Kept.wait_lists` (`its_tick/specs/Waits`). It follows from `Tidy.on_lists` by
//! `its_tick/proofs/WaitsLaws.kept_is`, which builds every `Kept`.
//!
//! `specs/World.state_of` is the state of the stepped machine of a world, and `State.plain` of that
//! the plain machine. Code that changes one slot says `Only old new slot x` (new is old, except for
//! x at the slot) over a reader such as `core_at` or `job_at`; no law compares whole lists. Two
//! worlds that differ only in the page frames of their pages have the same state; separate clauses
//! say which page frames these are.
//!
//! `World`'s clock is below its end (`Tidy.timed`), so that REALT can add its period in 64 bits.
//!
//! The lists of those that wait at links have the heads from 34 on, after those of consoles, so
//! heads 0 to 33 are as they were. The wait lists are therefore not the first ones of all: a head
//! below 26, or one from 34 to 65, is that of a wait list.
//!
//! Each write of the world moves the slots whose place it can change to the lists to which they
//! belong, so no call and no line has code for it. A place is determined by the frame, one channel,
//! the job's console, that console, its holder and the clock, and not by trying the call: a call
//! that was found not ready passes its other tests, whatever consoles and the clock do.
//!
//! The slots of a wait list have no order that is promised.
//!
//! No function of `World` says whether a call is ready on the plain machine, because decisions are
//! in crates above it: `ready` answers it for the raw job, and the law `decision_behind` with
//! `decision_plain` shows that the plain job's answer is the same.
//!
//! Tests: test_hostile/src/misfiled.rt, test_decisions.
#![tactic(auto)]

// The files:
// - `world.rt`: the state and its parts: slots, cores, registers
// - `calls.rt`: the changes of calls in progress
// - `alarms.rt`: the alarms of jobs
// - `consoles.rt`: consoles and their holders
// - `storage.rt`: channels together with the files and drafts that they are on
// - `pipes.rt`: channels together with the links that they are on
// - `symbols.rt`: the symbols of jobs
// - `wait_lists.rt`: which wait list belongs to a reason
// - `placing.rt`: the wait lists: slots are put on the lists to which they belong
mod alarms;
mod calls;
mod consoles;
mod pipes;
mod placing;
mod storage;
mod symbols;
mod wait_lists;
mod world;

pub use its_word::NoMemory;
pub use symbols::forget_removed;
pub use world::World;
