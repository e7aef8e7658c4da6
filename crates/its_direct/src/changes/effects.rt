//! What calls change in cores, registers, consoles and alarms: stores, registers left, bytes,
//! holders, pages and variables.
ghost use Rattle.std.specs.Prelude.{◌≡◌, ◌<◌, ◌^◌, ◌∷◌, [], None, Some, length};
ghost use Rattle.its_word.specs.Console.{most_waiting};
ghost use Rattle.its_word.specs.Core.{page_of, pages_mapped, with_page, zero_page};
ghost use Rattle.its_word.specs.Limits.{most_pages};
ghost use Rattle.its_word.specs.Only.{Only};
ghost use Rattle.its_records.specs.Tree.{least_free};
ghost use Rattle.its_word.specs.Stores.{first_fault, stored};
ghost use Rattle.its_core.specs.Cores.{core_at, clear_at};
ghost use Rattle.its_jobs.specs.Table.{job_at};
ghost use Rattle.its_plain.specs.Machine.Change.{in_job, inferior, on_console, poke, with_protection, after_put, after_take, with_alarm, with_inf, with_page_at};
ghost use Rattle.its_plain.specs.Machine.{changed, core_of, limit, with_new};
ghost use Rattle.its_plain.specs.Machine.Own.{after_leave, after_exit, with_registers, with_stores, with_variable};
ghost use Rattle.its_shared.specs.Can.{HasJob, HasPage, Maps, Pokes};
ghost use Rattle.its_shared.specs.Parts.{console_at};
ghost use Rattle.its_direct.specs.Clock.{AlarmBecomes};
ghost use Rattle.its_direct.specs.Effects.{Becomes, console_of};
ghost use Rattle.its_direct.specs.Lines.{ConsoleBecomes};
ghost use Rattle.its_direct.specs.Plain.{machine_of, CoreBecomes, Tidy};

use crate::plain::Plain;
use crate::step::user_mode::with_bits;
use its_core::{Core, Full};
use its_frame::Variable;
use its_jobs::NoSlot;
use its_records::{Exit, Job};
use its_word::{ConsoleNumber, INF, Slot, Store, Word, flags_in};

impl Plain {
    /// Makes stores into the core of a slot's job, in their order.
    #[tactic(auto, using(crate::proofs::EffectLaws::can_here))]
    fn make_stores(&mut self, slot: Slot, stores: &[Store])
        requires can { first_fault (core_of ((machine_of self.old).jobs slot)) stores.now ≡ None }
        requires tidy { Tidy self.old }
        ensures { CoreBecomes self.old self.new slot (stored (core_at self.old.core slot) stores.now) }
    {
        self.core.make_all(slot, stores);
    }

    /// Makes stores into the core of a slot that has a job: a change of the machine.
    #[tactic(auto, using(crate::proofs::EffectLaws::stores_made))]
    pub(crate) fn store(&mut self, slot: Slot, stores: &[Store])
        requires job { HasJob (machine_of self.old) slot }
        requires can { first_fault (core_of ((machine_of self.old).jobs slot)) stores.now ≡ None }
        requires tidy { Tidy self.old }
        ensures row { Becomes self.old self.new (in_job (machine_of self.old) slot (with_stores stores.now)) }
        ensures tidy { Tidy self.new }
    {
        self.make_stores(slot, stores);
    }

    /// Stores a word of a slot's job.
    #[tactic(auto, using(crate::proofs::EffectLaws::poke_can))]
    pub(crate) fn poke(&mut self, slot: Slot, at: u32, word: Word)
        requires can { Pokes (machine_of self.old) slot at }
        requires tidy { Tidy self.old }
        ensures row { Becomes self.old self.new (in_job (machine_of self.old) slot (with_stores (poke at word ∷ []))) }
        ensures tidy { Tidy self.new }
    {
        self.store(slot, &[Store { at, word }]);
    }

    /// Leaves a slot's job with these registers.
    pub(crate) fn leave(&mut self, slot: Slot, exit: Exit)
        requires job { HasJob (machine_of self.old) slot }
        requires pc { exit.pc < 2 ^ 18 }
        requires tidy { Tidy self.old }
        ensures row { Becomes self.old self.new (in_job (machine_of self.old) slot (after_leave exit)) }
        ensures tidy { Tidy self.new }
    {
        if let Some(job) = self.job(slot) {
            self.put_job(slot, left_with(job, exit));
        }
    }

    /// Sets a variable of a slot's job, if it has one.
    pub(crate) fn set(&mut self, slot: Slot, variable: Variable, value: Word)
        requires tidy { Tidy self.old }
        ensures row { Becomes self.old self.new (in_job (machine_of self.old) slot (with_registers (with_variable variable value))) }
        ensures tidy { Tidy self.new }
    {
        if let Some(job) = self.job(slot) {
            self.put_job(slot, with_variable(job, variable, value));
        }
    }

    /// Sets INF in a slot's job, if it has one.
    pub(crate) fn tell(&mut self, slot: Slot)
        requires tidy { Tidy self.old }
        ensures row { Becomes self.old self.new (in_job (machine_of self.old) slot with_inf) }
        ensures tidy { Tidy self.new }
    {
        if let Some(job) = self.job(slot) {
            self.put_job(slot, with_bits(job, INF as u32));
        }
    }

    /// Takes the first byte of a console's input.
    #[tactic(auto, using(crate::proofs::ConsoleLaws::console_becomes, crate::proofs::EffectLaws::first_taken))]
    fn take_byte(&mut self, c: ConsoleNumber)
        ensures { ConsoleBecomes self.old self.new c (after_take (console_at self.old.consoles.items c)) }
    {
        let _ = self.consoles[c.index()].take();
    }

    /// Takes the first byte of a console's input: a change of the machine.
    #[tactic(auto, using(crate::proofs::EffectLaws::byte_taken, crate::proofs::ConsoleLaws::console_tidy))]
    pub(crate) fn take(&mut self, c: ConsoleNumber)
        requires tidy { Tidy self.old }
        ensures row { Becomes self.old self.new (on_console (machine_of self.old) c after_take) }
        ensures tidy { Tidy self.new }
    {
        self.take_byte(c);
    }

    /// Puts a byte at the end of a console's output, which has room.
    #[tactic(auto, using(crate::proofs::ConsoleLaws::console_becomes))]
    fn put_byte(&mut self, c: ConsoleNumber, byte: u8)
        requires room { length (console_at self.old.consoles.items c).output < most_waiting }
        ensures { ConsoleBecomes self.old self.new c (after_put byte (console_at self.old.consoles.items c)) }
    {
        let _ = self.consoles[c.index()].put(byte);
    }

    /// Puts a byte at the end of a console's output: a change of the machine.
    #[tactic(auto, using(crate::proofs::EffectLaws::byte_put, crate::proofs::EffectLaws::console_room, crate::proofs::ConsoleLaws::console_tidy))]
    pub(crate) fn put(&mut self, c: ConsoleNumber, byte: u8)
        requires room { length ((machine_of self.old).consoles c).output < most_waiting }
        requires tidy { Tidy self.old }
        ensures row { Becomes self.old self.new (on_console (machine_of self.old) c (after_put byte)) }
        ensures tidy { Tidy self.new }
    {
        self.put_byte(c, byte);
    }

    /// Gives a console to a slot's job.
    #[tactic(auto, using(crate::proofs::EffectLaws::console_given, crate::proofs::LoadLaws::holder_tidy))]
    pub(crate) fn give(&mut self, c: ConsoleNumber, slot: u8)
        requires tidy { Tidy self.old }
        ensures row { Becomes self.old self.new (record (machine_of self.old) { holders = changed (machine_of self.old).holders c (Some slot) }) }
        ensures tidy { Tidy self.new }
    {
        self.put_holder(slot, c);
    }

    /// Gives a slot's job another alarm, or none.
    pub(crate) fn arm(&mut self, slot: Slot, alarm: Option<(u64, u64)>)
        requires tidy { Tidy self.old }
        ensures row { Becomes self.old self.new (in_job (machine_of self.old) slot (with_alarm alarm)) }
        ensures tidy { Tidy self.new }
    {
        if let Some(_job) = self.job(slot) {
            self.put_alarm(slot, alarm);
        }
    }

    /// Writes the alarm of a slot.
    #[tactic(auto, using(its_shared::proofs::OpenLaws::alarm_only))]
    pub(crate) fn put_alarm(&mut self, slot: Slot, alarm: Option<(u64, u64)>)
        ensures { AlarmBecomes self.old self.new slot alarm }
    {
        self.alarms[slot.index()] = alarm;
    }

    /// Makes an inferior of a slot's job in the least free slot, with these names and the console
    /// of its superior.
    pub(crate) fn make_inferior(&mut self, maker: Slot, slot: u8, u: Word, j: Word)
        requires job { HasJob (machine_of self.old) maker }
        requires free { least_free (limit (machine_of self.old)) (machine_of self.old).jobs ≡ Some slot }
        requires tidy { Tidy self.old }
        ensures row { Becomes self.old self.new (with_new (machine_of self.old) slot (inferior maker ((machine_of self.old).jobs maker) u j)) }
        ensures tidy { Tidy self.new }
    {
        let console = self.console_of(maker);
        match self.jobs.create(u, j, Some(maker), console) {
            Ok(_) => {}
            Err(NoSlot) => unreachable!(),
        }
    }

    /// The console of a slot's job.
    pub(crate) fn console_of(&self, slot: Slot) -> Option<u8>
        ensures { result ≡ console_of (job_at self.now.jobs slot) }
    {
        match self.job(slot) {
            Some(job) => job.console,
            None => None,
        }
    }

    /// Makes a page of zeros of a slot's job, which can be stored to: it is reserved, cleared and
    /// mapped in one piece.
    #[tactic(auto, using(crate::proofs::EffectLaws::page_made, crate::proofs::EffectLaws::page_absent, crate::proofs::EffectLaws::page_room, crate::proofs::EffectLaws::made_tidied))]
    pub(crate) fn map(&mut self, slot: Slot, page: u8)
        requires can { Maps (machine_of self.old) slot page }
        requires tidy { Tidy self.old }
        ensures row { Becomes self.old self.new (in_job (machine_of self.old) slot (with_page_at page (Some zero_page))) }
        ensures tidy { Tidy self.new }
    {
        self.new_page(slot, page);
    }

    /// Reserves a page, clears it and maps it; its place is empty, and there is room.
    #[tactic(auto, using(crate::proofs::EffectLaws::never_full))]
    fn new_page(&mut self, slot: Slot, page: u8)
        requires none { clear_at self.old.core slot ≡ None }
        requires absent { page_of (core_at self.old.core slot) page ≡ None }
        requires room { pages_mapped (core_at self.old.core) < most_pages }
        ensures { CoreBecomes self.old self.new slot (with_page (core_at self.old.core slot) page (Some zero_page)) }
    {
        reserve_clear(&mut self.core, slot);
        match self.core.map(slot, slot, page) {
            Ok(()) => {}
            Err(Full) => unreachable!(),
        }
    }

    /// Drops a page of a slot's job.
    #[tactic(auto, using(crate::proofs::EffectLaws::page_there))]
    pub(crate) fn unmap(&mut self, slot: Slot, page: u8)
        requires can { HasPage (machine_of self.old) slot page }
        requires tidy { Tidy self.old }
        ensures row { Becomes self.old self.new (in_job (machine_of self.old) slot (with_page_at page None)) }
        ensures tidy { Tidy self.new }
    {
        self.core.unmap(slot, page);
    }

    /// Makes a page of a slot's job writable or read only.
    #[tactic(auto, using(crate::proofs::EffectLaws::page_there))]
    pub(crate) fn protect(&mut self, slot: Slot, page: u8, writable: bool)
        requires can { HasPage (machine_of self.old) slot page }
        requires tidy { Tidy self.old }
        ensures row { Becomes self.old self.new (in_job (machine_of self.old) slot (with_protection page writable)) }
        ensures tidy { Tidy self.new }
    {
        self.core.protect(slot, page, writable);
    }
}

/// Reserves a page of zeros for a slot, which has reserved none.
#[tactic(auto, using(crate::proofs::EffectLaws::none_reserved, crate::proofs::EffectLaws::reserved_clear))]
fn reserve_clear(core: &mut Core, slot: Slot)
    requires none { clear_at core.old slot ≡ None }
    ensures quarters { Only (clear_at core.old) (clear_at core.new) slot (Some 4) }
    ensures cores { core.new.cores ≡ core.old.cores }
{
    core.reserve(slot);
    clear_quarters(core, slot);
}

/// Clears the page that a slot has reserved, of which no quarter is clear.
#[tactic(auto, using(crate::proofs::EffectLaws::clearing_begins, crate::proofs::EffectLaws::clearing_allows, crate::proofs::EffectLaws::clearing_next, crate::proofs::EffectLaws::clearing_ends))]
fn clear_quarters(core: &mut Core, slot: Slot)
    requires some { clear_at core.old slot ≡ Some 0 }
    ensures quarters { Only (clear_at core.old) (clear_at core.new) slot (Some 4) }
    ensures cores { core.new.cores ≡ core.old.cores }
{
    for q in 0..4 {
        core.clear_quarter(slot, q);
    }
}

/// Registers with those of an exit; the stopped mark, the names, the console and the channels stay.
fn left_with(job: Job, exit: Exit) -> Job
    ensures { result ≡ after_exit exit job }
{
    Job {
        pc: exit.pc,
        flags: exit.flags,
        pend1: exit.pend1,
        pend2: exit.pend2,
        mask1: exit.mask1,
        mask2: exit.mask2,
        defer1: exit.defer1,
        defer2: exit.defer2,
        ..job
    }
}

/// Registers with a variable set, those of them that a superior may set; the others stay.
#[tactic(auto, unfolding(its_plain::specs::Machine::Own::with_variable))]
fn with_variable(job: Job, variable: Variable, value: Word) -> Job
    ensures set { result ≡ with_variable variable value job }
    ensures pc { job.pc < 2 ^ 18 → result.pc < 2 ^ 18 }
{
    let mut set = job;
    match variable {
        Variable::Upc => {
            set.pc = value.right();
            set.flags = flags_in(value);
        }
        Variable::Ustp => set.stopped = value != Word::ZERO,
        Variable::Pirqc => set.pend1 = value,
        Variable::Ifpir => set.pend2 = value,
        Variable::Mask => set.mask1 = value,
        Variable::Msk2 => set.mask2 = value,
        Variable::Df1 => set.defer1 = value,
        Variable::Df2 => set.defer2 = value,
        Variable::Uname
        | Variable::Jname
        | Variable::Uind
        | Variable::Suppro
        | Variable::Cnsl
        | Variable::Pages => {}
    }
    set
}
