//! The program as a user abuses it: jobs disturbed, sessions cut, objects that fail. Calls are
//! disturbed at each of their ticks, sessions are cut after each byte, reads and writes fail;
//! sessions are at the limits; a slot is on a wrong wait list.
//!
//! Each call, and `.IOT` and SIOT on each device, is in a session that runs once undisturbed, and
//! then once for each tick and each of EXAM, STATE, STOP and CONT, an INT that nothing enables, and
//! PEEK and STATE: about 6000 runs, which end with the same EXAM, DIR and DRAIN lines as the
//! undisturbed one. The clock moves in those of SLEEP and REALT, and one is of version 2. A
//! transfer has its count set anew after each of its ticks. `run` and `check` read a session cut
//! after each of its bytes. In two sessions, one of them with files and inferiors, each single read
//! and each single write fails; their sources also give 1, 2, 3 and 511 bytes a call. Bytes,
//! numbers, names and lines are at the limits of the grammar, in both versions. 64 jobs, and 96 in
//! version 2, are all in HANG.
//!
//! `verify` accepts what `run` wrote of three sessions; cut before each of its lines, or with one
//! line more, the transcript is refused at that line. Each of its bytes and letters is changed in
//! turn: it is then accepted or refused as often as a model of the rules says, and never refused at
//! a line before the change. A slot that is put back on the wait list of its console, though a byte
//! was typed, has `w`, and nothing changes.
#![tactic(auto)]

#[cfg(test)]
mod broken;
#[cfg(test)]
mod disturbed;
#[cfg(test)]
mod largest;
#[cfg(test)]
mod misfiled;
#[cfg(test)]
mod running;
#[cfg(test)]
mod sessions;
#[cfg(test)]
mod transcripts;
