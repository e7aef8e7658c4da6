//! `World`: the state of the monitor, and the writes that change one part of it.

ghost use Rattle.std.specs.Prelude.{◌≡◌, ◌<◌, ◌≤◌, ◌≢◌, ◌↔◌, ◌/◌, ◌^◌, ◌+◌, ℕ, [], ◌∷◌, ◌++◌, vec_len, length, slice_get, slice_index_or, true, false, Some, None, Ok, Err, IfOk, IfErr, OnOk, OnErr, IsTrue, is_some, option_copied};
ghost use Rattle.its_word.specs.Console.{quiet_console, most_waiting};
ghost use Rattle.its_word.specs.Limits.{slots, limit_of, most_symbols};
ghost use Rattle.its_world.specs.WaitLists.{heads};

use super::consoles::type_at;
use super::wait_lists::HEADS;
use its_console::Console;
use its_core::Core;
use its_files::Files;
use its_in_call::Call;
use its_jobs::{Jobs, limit_of};
use its_links::Links;
use its_pipes::Pipes;
use its_records::Job;
use its_shared::{SymbolTable, no_alarms, no_symbols, quiet_consoles};
use its_word::{CONSOLES, ConsoleNumber, NoAccess, NoMemory, SLOTS, Slot, Word};
use std::alloc::Global;

/// The whole state: cores, jobs, for each slot its call in progress, if it is in one, the consoles,
/// for each of them the slot of the job that holds it, the files and drafts, the clock in
/// thirtieths, the wait lists, the version of the session text, which determines how many jobs
/// there can be, for each slot the symbols of its job, in the order in which they were given, the
/// alarm of its job if it has one: its period and its next time, and the links between jobs with
/// their words.
#[derive(Drop)]
pub struct World {
    pub core: Core,
    pub jobs: Jobs,
    pub frames: Vec<Call>,
    pub consoles: Vec<Console>,
    pub holders: [Option<u8>; 8],
    pub files: Files,
    pub clock: u64,
    pub wait_lists: Links,
    pub version: u8,
    pub symbols: Vec<SymbolTable>,
    pub alarms: Vec<Option<(u64, u64)>>,
    pub pipes: Pipes,
    ghost lists: { vec_len symbols ≡ slots },
    ghost alarm_places: { vec_len alarms ≡ slots },
    ghost slots: { vec_len frames ≡ slots },
    ghost consoles_count: { vec_len consoles ≡ 8 },
    ghost wait_lists_nodes: { wait_lists.nodes ≡ vec_len frames },
    ghost wait_lists_heads: { length wait_lists.lists ≡ heads },
    ghost limited: { jobs.limit ≡ limit_of version },
    ghost numbered: { (1 ≤ version) × (version ≤ 2) },
}

impl World {
    ghost use Rattle.its_core.specs.Cores.{core_at, clear_at, IsEmpty};
    ghost use Rattle.its_jobs.specs.Table.{job_at, superior_at, NoJobs};
    ghost use Rattle.its_word.specs.Core.{store, can_store, put as put_at, page_of};
    ghost use Rattle.its_world.specs.World.{frame_at, console_at, holder_at, alarm_at, CoreBecomes, JobBecomes, FrameBecomes, PageBecomes, ConsoleBecomes, HolderBecomes, ClockBecomes, symbols_at, SymbolsBecome, VersionBecomes, typed_at, drained_at, call_in};
    ghost use Rattle.its_plain.specs.Machine.Change.{after_take, after_put};
    ghost use Rattle.its_files.specs.Files.{no_files};
    ghost use Rattle.its_pipes.specs.Pipes.{piped};
    ghost use Rattle.its_world.specs.Filed.{OnLists, SlotWritten, ConsoleWritten, HolderWritten, ClockWritten};

    /// The world at the start of a session: no job, no page, no frame, nothing that waits at a
    /// console, no holder of one, clock 0, version 1, no symbol, no alarm, no link. Takes all the
    /// memory that it needs.
    #[tactic(auto, using(its_records::proofs::FreeLaws::limit_first))]
    pub fn open(alloc: Global) -> Result<World, NoMemory>
        ensures cores { IfOk result (λ w. IsEmpty w.core) }
        ensures jobs { IfOk result (λ w. NoJobs w.jobs) }
        ensures frames { IfOk result (λ w. (k : ℕ) → call_in w k ≡ None) }
        ensures consoles { IfOk result (λ w. (c : ℕ) → console_at w.consoles.items c ≡ quiet_console) }
        ensures holders { IfOk result (λ w. (c : ℕ) → holder_at w.holders c ≡ None) }
        ensures files { IfOk result (λ w. w.files ≡ no_files) }
        ensures clock { IfOk result (λ w. w.clock ≡ 0) }
        ensures on_lists { IfOk result OnLists }
        ensures version { IfOk result (λ w. w.version ≡ 1) }
        ensures symbols { IfOk result (λ w. (k : ℕ) → symbols_at w.symbols.items k ≡ []) }
        ensures alarms { IfOk result (λ w. (k : ℕ) → alarm_at w.alarms.items k ≡ None) }
        ensures links { IfOk result (λ w. (l : ℕ) → piped w.pipes l ≡ None) }
    {
        let core = Core::open(alloc)?;
        let jobs = Jobs::open(alloc)?;
        let frames = no_frames(alloc, SLOTS)?;
        let consoles = quiet_consoles(alloc, CONSOLES)?;
        let files = Files::open(alloc)?;
        let wait_lists = Links::open(alloc, SLOTS as u32, HEADS)?;
        let symbols = no_symbols(alloc, SLOTS)?;
        let alarms = no_alarms(alloc, SLOTS)?;
        let pipes = Pipes::open(alloc)?;
        Ok(World {
            core,
            jobs,
            frames,
            consoles,
            holders: [None; CONSOLES],
            files,
            clock: 0,
            wait_lists,
            version: 1,
            symbols,
            alarms,
            pipes,
        })
    }

    /// The registers of a slot's job.
    pub fn registers(&self, slot: Slot) -> Option<Job>
        ensures { result ≡ job_at self.now.jobs slot }
    {
        self.jobs.job(slot).copied()
    }

    /// Writes the registers of a slot's job, which keeps its place on the wait lists.
    #[tactic(auto, using(crate::proofs::WorldLaws::job_written))]
    fn write_registers(&mut self, slot: Slot, job: Job)
        requires some { is_some (job_at self.old.jobs slot) ≡ true }
        ensures { SlotWritten self.old self.new slot (Some job) (call_in self.old slot) }
    {
        if let Some(j) = self.jobs.job_mut(slot) {
            *j = job;
        }
    }

    /// Writes the registers of a slot's job.
    pub fn put_registers(&mut self, slot: Slot, job: Job)
        requires some { is_some (job_at self.old.jobs slot) ≡ true }
        ensures { JobBecomes self.old self.new slot job }
    {
        self.write_registers(slot, job);
        self.refile(slot);
    }

    /// Stores a word of a slot: Absent if its page is absent, ReadOnly if it is read only.
    #[tactic(auto, using(crate::proofs::WorldLaws::core_becomes))]
    pub fn put_word(&mut self, slot: Slot, a: u32, w: Word) -> Result<(), NoAccess>
        requires address { a < 2 ^ 18 }
        ensures stored { OnOk result (CoreBecomes self.old self.new slot (store (core_at self.old.core slot) a w)) }
        ensures allowed { OnOk result (can_store (core_at self.old.core slot) a ≡ true) }
        ensures refused { IfErr result (λ e. put_at (core_at self.old.core slot) a w ≡ Err e) }
        ensures absent { result ≡ Err NoAccess.Absent → (16 ≤ a) × (page_of (core_at self.old.core slot) (a / 1024) ≡ None) }
        ensures same { OnErr result (self.new ≡ self.old) }
    {
        match self.core.put(slot, a, w) {
            Ok(()) => Ok(()),
            Err(e) => Err(e),
        }
    }

    /// Stores a word of a slot that can be stored.
    pub fn store(&mut self, slot: Slot, a: u32, w: Word)
        requires address { a < 2 ^ 18 }
        requires can { can_store (core_at self.old.core slot) a ≡ true }
        ensures { CoreBecomes self.old self.new slot (store (core_at self.old.core slot) a w) }
    {
        match self.put_word(slot, a, w) {
            Ok(()) => {}
            Err(_) => unreachable!(),
        }
    }

    /// Gives up the page that a slot has reserved.
    #[tactic(auto, using(crate::proofs::WorldLaws::page_becomes, crate::proofs::WorldLaws::reserved_some, crate::proofs::WorldLaws::frames_backed))]
    pub fn give_back(&mut self, slot: Slot)
        requires page { is_some (clear_at self.old.core slot) ≡ true }
        ensures { PageBecomes self.old self.new slot None }
    {
        self.core.give_back(slot);
    }

    /// Whether a slot's job is inside a call.
    pub fn has_frame(&self, slot: Slot) -> bool
        ensures { result ≡ is_some (call_in self.now slot) }
    {
        self.frames[slot.index()].is_some()
    }

    /// A byte is typed at a console. False if 64 typed bytes wait; the byte is then lost.
    #[tactic(auto, using(crate::proofs::WorldLaws::console_heard))]
    pub fn type_in(&mut self, console: ConsoleNumber, b: u8) -> bool
        ensures kept { IsTrue result ↔ (length (console_at self.old.consoles.items console).input < most_waiting) }
        ensures typed { ConsoleBecomes self.old self.new console (typed_at b (console_at self.old.consoles.items console)) }
    {
        let kept = self.write_typed(console, b);
        self.resettle_input(console);
        kept
    }

    /// Types a byte; those that wait keep their places.
    #[tactic(auto, using(crate::proofs::WorldLaws::console_written))]
    fn write_typed(&mut self, console: ConsoleNumber, b: u8) -> bool
        ensures kept { IsTrue result ↔ (length (console_at self.old.consoles.items console).input < most_waiting) }
        ensures typed { ConsoleWritten self.old self.new console (typed_at b (console_at self.old.consoles.items console)) }
    {
        type_at(&mut self.consoles[console.index()], b)
    }

    /// Takes the typed byte that has waited longest at a console; None if none waits.
    #[tactic(auto, using(crate::proofs::WorldLaws::console_heard))]
    pub fn take(&mut self, console: ConsoleNumber) -> Option<u8>
        ensures first { result ≡ slice_get (console_at self.old.consoles.items console).input 0 }
        ensures rest { ConsoleBecomes self.old self.new console (after_take (console_at self.old.consoles.items console)) }
    {
        let byte = self.write_taken(console);
        self.resettle_input(console);
        byte
    }

    /// Takes a byte; those that wait keep their places.
    #[tactic(auto, using(crate::proofs::WorldLaws::console_written, crate::proofs::WorldLaws::rest_is))]
    fn write_taken(&mut self, console: ConsoleNumber) -> Option<u8>
        ensures first { result ≡ slice_get (console_at self.old.consoles.items console).input 0 }
        ensures rest { ConsoleWritten self.old self.new console (after_take (console_at self.old.consoles.items console)) }
    {
        self.consoles[console.index()].take()
    }

    /// Puts a byte out at a console. False if 64 bytes wait to be drained; then nothing is put.
    #[tactic(auto, using(crate::proofs::WorldLaws::console_spoken))]
    pub fn put(&mut self, console: ConsoleNumber, b: u8) -> bool
        ensures kept { IsTrue result ↔ (length (console_at self.old.consoles.items console).output < most_waiting) }
        ensures put { IsTrue result → ConsoleBecomes self.old self.new console (after_put b (console_at self.old.consoles.items console)) }
        ensures same { result ≡ false → self.new ≡ self.old }
    {
        if self.write_put(console, b) {
            self.resettle_output(console);
            true
        } else {
            false
        }
    }

    /// Puts a byte out; those that wait keep their places.
    #[tactic(auto, using(crate::proofs::WorldLaws::console_written))]
    fn write_put(&mut self, console: ConsoleNumber, b: u8) -> bool
        ensures kept { IsTrue result ↔ (length (console_at self.old.consoles.items console).output < most_waiting) }
        ensures put { IsTrue result → ConsoleWritten self.old self.new console (after_put b (console_at self.old.consoles.items console)) }
        ensures same { result ≡ false → self.new ≡ self.old }
    {
        self.consoles[console.index()].put(b)
    }

    /// Drains the byte of a console that was put out first; None if none waits.
    #[tactic(auto, using(crate::proofs::WorldLaws::console_spoken))]
    pub fn drain(&mut self, console: ConsoleNumber) -> Option<u8>
        ensures first { result ≡ slice_get (console_at self.old.consoles.items console).output 0 }
        ensures rest { ConsoleBecomes self.old self.new console (drained_at (console_at self.old.consoles.items console)) }
    {
        let byte = self.write_drained(console);
        self.resettle_output(console);
        byte
    }

    /// Drains a byte; those that wait keep their places.
    #[tactic(auto, using(crate::proofs::WorldLaws::console_written))]
    fn write_drained(&mut self, console: ConsoleNumber) -> Option<u8>
        ensures first { result ≡ slice_get (console_at self.old.consoles.items console).output 0 }
        ensures rest { ConsoleWritten self.old self.new console (drained_at (console_at self.old.consoles.items console)) }
    {
        self.consoles[console.index()].drain()
    }

    /// Keeps a symbol of a slot's job, the last; there is room for it.
    pub fn keep_symbol(&mut self, slot: Slot, name: Word, a: u32)
        requires room { length (symbols_at self.old.symbols.items slot) < most_symbols }
        ensures { SymbolsBecome self.old self.new slot (symbols_at self.old.symbols.items slot ++ (name, a) ∷ []) }
    {
        self.symbols[slot.index()].push((name, a));
    }

    /// Makes the world one of version 1, in which there can be 64 jobs, or of version 2, with 96.
    /// No slot has a job.
    pub fn set_version(&mut self, v: u8)
        requires known { (1 ≤ v) × (v ≤ 2) }
        requires nobody { (k : ℕ) → job_at self.old.jobs k ≡ None }
        ensures { VersionBecomes self.old self.new v }
    {
        self.jobs.set_limit(limit_of(v));
        self.version = v;
    }

    /// Gives a console another holder, or none.
    #[tactic(auto, using(crate::proofs::WorldLaws::holder_becomes))]
    pub fn hold(&mut self, console: ConsoleNumber, holder: Option<u8>)
        ensures { HolderBecomes self.old self.new console holder }
    {
        self.write_holder(console, holder);
        self.resettle(console);
    }

    /// Writes the holder of a console; those that wait keep their places.
    #[tactic(auto, using(crate::proofs::WorldLaws::holder_written))]
    fn write_holder(&mut self, console: ConsoleNumber, holder: Option<u8>)
        ensures { HolderWritten self.old self.new console holder }
    {
        self.holders[console.index()] = holder;
    }

    /// Sets the clock to a later time. A sleeper whose time has come leaves the list of those that
    /// wait for a time.
    pub fn set_clock(&mut self, clock: u64)
        requires { self.old.clock ≤ clock }
        ensures { ClockBecomes self.old self.new clock }
    {
        self.write_clock(clock);
        self.resettle_clock();
    }

    /// Writes the clock; those that wait keep their places.
    fn write_clock(&mut self, clock: u64)
        ensures { ClockWritten self.old self.new clock }
    {
        self.clock = clock;
    }
}

/// So many places for calls, of jobs in user mode.
#[tactic(auto, using(its_shared::proofs::OpenLaws::none_more))]
fn no_frames(alloc: Global, n: usize) -> Result<Vec<Call>, NoMemory>
    ensures length { IfOk result (λ v. vec_len v ≡ n) }
    ensures none { IfOk result (λ v. (k : ℕ) → slice_index_or v.items k None ≡ None) }
{
    let mut v = Vec::with_capacity(alloc, n).map_err(|_| NoMemory)?;
    for _k in 0..n {
        v.push(Call::none()).map_err(|_| NoMemory)?;
    }
    Ok(v)
}
