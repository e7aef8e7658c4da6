//! Who calls, and what its call looks at.
ghost use Rattle.std.specs.Prelude.{◌≡◌, Some};
ghost use Rattle.its_jobs.specs.Table.{job_at};
ghost use Rattle.its_plain.specs.Call.Decide.{target as target_of};
ghost use Rattle.its_decide.specs.Seen.{raw_with};

use its_console::Console;
use its_core::Core;
use its_files::Files;
use its_jobs::Jobs;
use its_pipes::Pipes;
use its_records::{Ask, Job};
use its_shared::SymbolTable;
use its_word::Slot;

/// The parts of a machine, borrowed: cores, jobs, the consoles and for each of them the slot of the
/// job that holds it, files and drafts, the clock in thirtieths, for each slot the alarm of its job
/// if it has one (its period and its next time), the version of the session text, for each slot the
/// symbols of its job, and the links between jobs with their words.
#[derive(Clone, Copy, Drop)]
pub struct Seen<'a> {
    pub core: &'a Core,
    pub jobs: &'a Jobs,
    pub consoles: &'a Vec<Console>,
    pub holders: &'a [Option<u8>; 8],
    pub files: &'a Files,
    pub clock: u64,
    pub alarms: &'a Vec<Option<(u64, u64)>>,
    pub version: u8,
    pub symbols: &'a Vec<SymbolTable>,
    pub pipes: &'a Pipes,
}

/// A job at a call: the machine that it looks at, its slot, its registers, what it asks for, and
/// the slot of the job into which the call reaches, through an open channel on it.
#[derive(Drop)]
pub struct Caller<'a> {
    pub seen: &'a Seen<'a>,
    pub slot: Slot,
    pub job: &'a Job,
    pub ask: &'a Ask,
    pub target: Option<u8>,
    ghost stands: { job_at seen.now.jobs.now slot ≡ Some job.now },
    ghost reaches: { target ≡ target_of (raw_with seen.now slot job.now) ask.now },
}
