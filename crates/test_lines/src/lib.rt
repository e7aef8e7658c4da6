//! Whole sessions with their transcripts: lines, commands, turns, alarms and consoles.
//!
//! Tried are every kind of line and many jobs; both versions of the text: 96 jobs in HANG and FULL
//! at the next, read-only pages, symbols, LIST; turns of jobs that stop, log out, are made in a
//! turn or wait, 96 jobs in 512 turns, and a RUN that is cut after each of its bytes; 64 jobs,
//! lines of 255 and 256 bytes, 1048577 lines; failing objects, and sources that give 1, 2, 3 and
//! 511 bytes a call; a sort of eight words in 318 units; words that are a command and words that
//! are none; what `check`, `gen`, `verify` and `asm` write, their faults, and `gen 10000` twice;
//! that byte 256 of a line is LONG at once, that a line is answered at its LF, before the next
//! read, and that `its` does not always answer NoMemory. `verify` is run on the transcript of each
//! session that is not refused.
#![tactic(auto)]

#[cfg(test)]
mod alarms;
#[cfg(test)]
mod commands;
#[cfg(test)]
mod consoles;
#[cfg(test)]
mod lines;
#[cfg(test)]
mod turns;
#[cfg(test)]
mod versions;
