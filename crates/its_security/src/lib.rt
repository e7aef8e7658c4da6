//! Who may touch and see what, on the plain machine: definitions and laws alone.
//!
//! - `Integrity.MayStep` is the list of what a step of a job may change, `OperatorParts.touched`
//!   the part that a line changes, and `RunIntegrity.Integrity` says both of every moment of a
//!   session. A new kind of change needs a clause of `MayStep`, and a case in `OthersLaws` or
//!   `OwnJobLaws`.
//! - `Looks.Looks` is the list of what a call looks at outside its own job, `Respect.Respects` what
//!   a step of a stranger leaves of what a job sees, `Tables.changes` the list of which call
//!   changes which shared table, and `Confidential.Confidential` says all of the run of a session.
//!   A new call needs a line of `Looks` and of `changes`, and cases in `LooksLaws` and
//!   `CallChanges`.
//!
//! Proved:
//! - Each step and each line of a session changes only what it may, and what a reader reads stays
//!   (`RunIntegrityLaws.integrity`, which `run.transcript` of its_top uses).
//! - What no step may do is excluded by the definition itself (`ExcludedLaws`).
//! - A job sees of strangers only what is listed (`ConfidentialLaws.confidential`, which
//!   `run.transcript` of its_top uses).
//!
//! `MayStep` is proved by the walk over the decisions of calls that other laws use, which hands on
//! what the call found about each change (`CallWays.Mild`). Of the job itself it says what stays,
//! and what its channels may be on: else a job could give itself a channel on a stranger, and use
//! it at the next step. What a job does to its words and registers is left to its instructions and
//! calls. The operator's `/` lines are an exception of `readers`: in a session they come directly
//! after the FILE line that made the file, before any job has a turn, which the clause does not
//! use; in the state part a channel may be opened on the file between two such lines.
//!
//! Wrong definitions that the prover refuses: USRMEM without the test of leave to write
//! (`CallWays.usrmem_ways`), UCLOSE of the caller's superior (`OthersLaws.uclose_may`), TTYLND that
//! takes a stranger's console (`OthersLaws.takes`), DELETE of a file that a channel reads
//! (`CallWays.delete_ways`). And false statements: `Looks` without SLEEP, `changes` without LOGOUT
//! in the row of pages, `Respects` without the exception of a link whose other end is at a job that
//! is removed.
//!
//! The theorem on what a job sees compares two machines part by part, and has no view with parts
//! cut out: a line of `Looks` is then what a programmer reads in docs/CALLS.md. A table that is
//! seen as one bit, such as "1024 pages are in use", is a premise of each step and no part of
//! `Alike`: two machines with different numbers of pages can agree on the bit before a step and
//! differ after it. The number of a link is a part of a channel, though no job can see it; alike up
//! to the numbers would be a little coarser, and much longer. The theorem says nothing of
//! inferiors, of which a job sees all, nor of its superior, of `.` or of time. Two parts of
//! sessions are aligned by rules (`SideBySide`), because a function that skips what a job does not
//! see would have to decide what it sees. That a file which a channel reads is there, and that a
//! channel above 17 is closed, hold in every session, but each step is not proved to keep them
//! (`Forest`); so `Unmet` has them as premises.
//!
//! Tests: none, because it has no code.
#![tactic(auto)]
