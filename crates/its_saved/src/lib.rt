//! A machine as lines, and the machine that they build: definitions and laws alone.
//!
//! The definitions:
//! - `StateLine.StateLine` is a line, which says one thing that a machine has. `Building.build` is
//!   what it does to a machine, or that it is refused, and `Saving.saved` the lines that are
//!   written of a machine, in their order.
//! - `WellFormed.WellFormed` is what has to hold of a machine that is saved: what every run keeps,
//!   and what the types of its parts keep (`KeptByTypes`).
//! - `Text.saved_lines` is these lines in the form that a session has, from SYSTEM to READY, and
//!   `Text.Restored` says what they lead to when a session obeys them.
//! - `Readable.Worded` is what the types of words and numbers keep.
//! - `GoingOn.NoMoreDots` says when what follows a session may follow its checkpoint.
//!
//! Proved:
//! - The lines that are saved of a machine lead from the machine at the start of a session to this
//!   very machine, equal in all its parts (`SavedLaws.restored`); so no two machines have the same
//!   lines (`saved_apart`), and what is saved of the restored machine is the same (`saved_again`).
//! - In the form that a session has, they lead from the start of a session to this machine, outside
//!   blocks and without dots, and none of them is refused or shows anything
//!   (`RestoredLaws.lines_restore`; for the machine at the end of a run, `run_restored`).
//! - So as events their transcript has no line, their run ends in this machine after a turn of the
//!   same slot, and what follows them is outside the state part and outside blocks
//!   (`SilentLaws.saved_silent`, `saved_leads`, `saved_turn`, `saved_outside`). What may follow the
//!   session may follow them (`saved_follows`).
//! - The grammar reads the text of these lines as these lines, and as nothing else
//!   (`ReadLaws.saved_read`): the numbers of each line are in the ranges of its row, and its words
//!   have 36 bits (`ReadableLaws.machine_reads`); and these are fewer lines than a session may have
//!   (`CountLaws.lines_few`), since the words of a page make at most 512 lines. At the end of the
//!   run of a session the last turn is that of a slot that TURN may name (`TurnLaws.run_turn_fits`,
//!   `run_read`), since RUN gives turns to jobs alone.
//! - Every run ends in a machine that can be saved, if its PCs are addresses and what types keep
//!   holds (`RunLaws.run_well_formed`): page 0 of each core is hollow and each link has an open end
//!   (`run_tight`), and flags are ones that a PC word has (`run_flagged`, by
//!   `FlaggedLaws.step_flagged`). The names of files are three words each (`run_named`).
//! - At the end of the run of a session, addresses of symbols have 18 bits, next times of alarms
//!   36, and bytes at consoles 7 (`Narrow.Narrow`, `NarrowLaws.run_narrow`).
//! - A transcript goes on from any walk with the same machine and no more dots
//!   (`GoesOnLaws.goes_on`). What is shown of lines that follow a session is shown from the machine
//!   at its end (`RestLaws.shown_from`).
//! - A line UNDER makes no circle of superiors (`UnderLaws.no_circle`).
//!
//! How `restored` is proved: each part of what is saved leads along a row of machines that are
//! named (`LeadLaws`), one law for each line says that it leads from one to the next, and functions
//! are compared number by number (`ChangedLaws`). Channels and the ends of links are accounted for
//! by which channels are open so far (`ChannelLaws.opened`).
//!
//! How `lines_restore` is proved: words of files and cores, RO, SYM and REGS are about the last
//! FILE line or JOB line of a session, and name none. Each line that is saved comes after the one
//! that it is about (`AboutLaws.saved_about`), so what builds a machine is obeyed (`ObeyedLaws`).
//!
//! Tests: none, because it has no code.
#![tactic(auto)]
