//! Whole sessions with their transcripts: the calls that jobs make.
//!
//! Tried are a sleep that EXAM disturbs, and HANG with an interrupt and DISMIS back into it; the
//! decisions of calls on files, inferiors and pages, by jobs that execute them; the last of 1024
//! pages and two jobs that want it, in both orders; the last of 2048 blocks and of 256 files;
//! position 1000000 of an inferior; and a tree of jobs 64 deep that is removed from its top. The
//! rules of links are tried by sessions/links.
#![tactic(auto)]

#[cfg(test)]
mod calls;
#[cfg(test)]
mod files;
#[cfg(test)]
mod inferiors;
#[cfg(test)]
mod pages;
#[cfg(test)]
mod places;
#[cfg(test)]
mod targets;
#[cfg(test)]
mod waits;
