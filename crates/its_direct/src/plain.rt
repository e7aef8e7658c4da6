//! The second machine, `Plain`: its parts, and its beginning.

ghost use Rattle.std.specs.Prelude.{◌≡◌, ◌≤◌, true, false, None, Some, IfOk, vec_len, slice_set, is_some};
ghost use Rattle.its_word.specs.Limits.{slots, limit_of};

use its_console::Console;
use its_core::Core;
use its_files::Files;
use its_jobs::Jobs;
use its_pipes::Pipes;
use its_records::Job;
use its_shared::{SymbolTable, no_alarms, no_symbols, quiet_consoles};
use its_word::{CONSOLES, NoMemory, SLOTS, Slot, Word};
use std::alloc::Global;

/// The place of a line of a session: outside any block; in the state part, whose last JOB line was
/// about a slot, and whose last FILE line about the file with a directory and two names; in the
/// LOAD block of the job of a slot; or in the FILE block of the file with a directory and two
/// names.
#[derive(Clone, Copy, Debug, PartialEq, Eq)]
pub enum Spot {
    Plain,
    System { slot: Slot, names: [Word; 3] },
    Load { slot: Slot },
    File { names: [Word; 3] },
}

/// The plain machine: cores, jobs, the consoles and for each of them the slot of the job that holds
/// it, files and drafts, the clock in thirtieths, for each slot the alarm of its job if it has one
/// (its period and its next time), the version of the session text, for each slot the symbols of
/// its job, in the order in which they were given, the links between jobs with their words, the
/// place of the next line, and the slots whose jobs the last step or line disturbed or made.
#[derive(Drop)]
pub struct Plain {
    pub core: Core,
    pub jobs: Jobs,
    pub consoles: Vec<Console>,
    pub holders: [Option<u8>; 8],
    pub files: Files,
    pub clock: u64,
    pub alarms: Vec<Option<(u64, u64)>>,
    pub version: u8,
    pub symbols: Vec<SymbolTable>,
    pub pipes: Pipes,
    pub place: Spot,
    pub touched: [bool; 96],
    ghost consoles_count: { vec_len consoles ≡ 8 },
    ghost alarm_places: { vec_len alarms ≡ slots },
    ghost lists: { vec_len symbols ≡ slots },
    ghost limited: { jobs.limit ≡ limit_of version },
    ghost numbered: { (1 ≤ version) × (version ≤ 2) },
}

impl Plain {
    ghost use Rattle.its_core.specs.Cores.{core_at, clear_at};
    ghost use Rattle.its_jobs.specs.Table.{job_at};
    ghost use Rattle.its_plain.specs.Machine.{no_machine};
    ghost use Rattle.its_direct.specs.Plain.{machine_of, no_slots, Tidy, JobBecomes};

    /// The machine at the start of a session, at a place outside any block; no slot is touched.
    /// Takes all the memory that it needs.
    #[tactic(auto, using(its_records::proofs::FreeLaws::limit_first, crate::proofs::StartLaws::open_machine, crate::proofs::StartLaws::open_tidy), unfolding(crate::specs::Plain::no_slots))]
    pub fn open(alloc: Global) -> Result<Plain, NoMemory>
        ensures machine { IfOk result (λ p. machine_of p ≡ no_machine) }
        ensures tidy { IfOk result Tidy }
        ensures place { IfOk result (λ p. p.place ≡ Spot.Plain) }
        ensures touched { IfOk result (λ p. p.touched ≡ no_slots) }
    {
        let core = Core::open(alloc)?;
        let jobs = Jobs::open(alloc)?;
        let consoles = quiet_consoles(alloc, CONSOLES)?;
        let files = Files::open(alloc)?;
        let alarms = no_alarms(alloc, SLOTS)?;
        let symbols = no_symbols(alloc, SLOTS)?;
        let pipes = Pipes::open(alloc)?;
        Ok(Plain {
            core,
            jobs,
            consoles,
            holders: [None; CONSOLES],
            files,
            clock: 0,
            alarms,
            version: 1,
            symbols,
            pipes,
            place: Spot::Plain,
            touched: [false; SLOTS],
        })
    }

    /// The registers of a slot's job.
    pub fn job(&self, slot: Slot) -> Option<Job>
        ensures { result ≡ job_at self.now.jobs slot }
    {
        self.jobs.job(slot).copied()
    }

    /// Writes the registers of a slot's job.
    #[tactic(auto, using(crate::proofs::SlotLaws::job_becomes))]
    pub(crate) fn put_job(&mut self, slot: Slot, job: Job)
        requires some { is_some (job_at self.old.jobs slot) ≡ true }
        ensures { JobBecomes self.old self.new slot job }
    {
        if let Some(j) = self.jobs.job_mut(slot) {
            *j = job;
        }
    }

    /// No slot is touched.
    #[tactic(auto, unfolding(crate::specs::Plain::no_slots))]
    pub(crate) fn touch_none(&mut self)
        ensures { self.new ≡ record self.old { touched = no_slots } }
    {
        self.touched = [false; SLOTS];
    }

    /// A slot is touched too.
    pub(crate) fn touch(&mut self, slot: Slot)
        ensures { self.new ≡ record self.old { touched = slice_set self.old.touched slot true } }
    {
        self.touched[slot.index()] = true;
    }
}
