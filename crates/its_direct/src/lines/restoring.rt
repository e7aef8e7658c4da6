//! What the lines of the state part restore, each one thing of a system.
ghost use Rattle.std.specs.Prelude.{◌≡◌, ◌≤◌, ◌<◌, ◌+◌, ◌^◌, ◌++◌, true, false, None, Some, Ok, Err, IfErr, IsOk, OnErr, OnOk, is_some, length, option_map};
ghost use Rattle.its_word.specs.Console.{most_waiting};
ghost use Rattle.its_word.specs.Limits.{slots};
ghost use Rattle.its_records.specs.Links.{most_links};
ghost use Rattle.its_records.specs.Refusals.{reason_of};
ghost use Rattle.its_records.specs.Tree.{climbs_to};
ghost use Rattle.its_records.specs.declared.jobs.Channel.TheVariants.{Writing};
ghost use Rattle.its_jobs.specs.Table.{job_at};
ghost use Rattle.its_plain.specs.Call.File.{has_file};
ghost use Rattle.its_plain.specs.Machine.{Machine, Shut, with_new};
ghost use Rattle.its_plain.specs.Machine.Change.{console_in, in_job, on_console, on_link, superiors};
ghost use Rattle.its_plain.specs.Machine.Own.{names_of, opened_on};
ghost use Rattle.its_plain.specs.Operator.Jobs.{new_job, on_registers};
ghost use Rattle.its_plain.specs.Operator.State.{after_registers, can_open, has_room, is_slot, may_come, on_tty, provided, under, with_alarm_set, with_all_written, with_bytes, with_bytes_waiting, with_disk, with_draft, with_end_shut, with_holder_set, with_job_made, with_link, with_superior_set, with_tty, with_usr, with_words_in, with_words_sent, with_words_written};
ghost use Rattle.its_shared.specs.Across.{channel_at};
ghost use Rattle.its_shared.specs.Can.{CanOpen, HasJob, chan_in};
ghost use Rattle.its_direct.specs.Effects.{Becomes};
ghost use Rattle.its_direct.specs.Lines.{Keeps, Operates};
ghost use Rattle.its_direct.specs.Plain.{machine_of, Tidy};

use crate::plain::Plain;
use its_frame::Opened;
use its_jobs::limit_of;
use its_plain::LONGEST_PERIOD;
use its_records::{Channel, Job, LINK_WORDS, Refusal, Registers};
use its_word::{ConsoleNumber, MOST_WAITING, Slot, Word, flags_in, within};

impl Plain {
    /// JOB: makes a stopped job with these names and this console in a slot; it becomes the holder
    /// of no console. Range if no job can have the slot, Exists if it has one.
    #[tactic(auto, using(crate::proofs::Groups::job_laws))]
    pub fn make_job_at(
        &mut self,
        s: Slot,
        u: Word,
        j: Word,
        console: Option<ConsoleNumber>,
    ) -> Result<(), Refusal>
        requires tidy { Tidy self.old }
        ensures done { OnOk result (with_job_made (machine_of self.old) s u j console ≡ Ok (machine_of self.new)) }
        ensures refused { IfErr result (λ e. with_job_made (machine_of self.old) s u j console ≡ Err (reason_of e)) }
        ensures same { OnErr result (self.new ≡ self.old) }
        ensures tidy { Tidy self.new }
    {
        if s.number() >= limit_of(self.version) {
            return Err(Refusal::Range);
        }
        match self.job(s) {
            Some(_) => Err(Refusal::Exists),
            None => {
                self.place_job(s, u, j, ConsoleNumber::numbered(&console));
                Ok(())
            }
        }
    }

    /// Makes a job without superior in an empty slot that a job can have.
    fn place_job(&mut self, s: Slot, u: Word, j: Word, console: Option<u8>)
        requires below { s < self.old.jobs.limit }
        requires empty { job_at self.old.jobs s ≡ None }
        requires tidy { Tidy self.old }
        ensures made { machine_of self.new ≡ with_new (machine_of self.old) s (new_job u j console) }
        ensures tidy { Tidy self.new }
    {
        self.jobs.tree();
        self.jobs.create_at(s, u, j, console);
    }

    /// REGS: sets whether a slot's job runs, its PC and flags, and its pending words, masks and
    /// deferrals. NoJob if the slot is empty.
    #[tactic(auto, using(crate::proofs::RestoringLaws::regs_done, crate::proofs::LineLaws::registers_refused))]
    pub fn set_registers(&mut self, s: Slot, registers: &Registers) -> Result<(), Refusal>
        requires tidy { Tidy self.old }
        ensures done { OnOk result (Operates self.old self.new s (on_registers (machine_of self.old) s (after_registers registers.now))) }
        ensures refused { IfErr result (λ e. on_registers (machine_of self.old) s (after_registers registers.now) ≡ Err (reason_of e)) }
        ensures same { OnErr result (self.new ≡ self.old) }
        ensures tidy { Tidy self.new }
    {
        let Some(job) = self.job(s) else {
            return Err(Refusal::NoJob);
        };
        let now = restored(&job, registers);
        self.rewrite(s, &job, now);
        Ok(())
    }

    /// ALARM: gives a slot's job an alarm of this period, which next goes at this time. Range if
    /// REALT allows no such period, or the time is not above the clock; NoJob if the slot is empty.
    #[tactic(auto, using(crate::proofs::Groups::alarm_laws))]
    pub fn set_alarm(&mut self, s: Slot, period: u64, next: u64) -> Result<(), Refusal>
        requires tidy { Tidy self.old }
        ensures done { OnOk result (Operates self.old self.new s (with_alarm_set (machine_of self.old) s period next)) }
        ensures refused { IfErr result (λ e. with_alarm_set (machine_of self.old) s period next ≡ Err (reason_of e)) }
        ensures same { OnErr result (self.new ≡ self.old) }
        ensures tidy { Tidy self.new }
    {
        within(s);
        if !may_come(self.clock, period, next) {
            return Err(Refusal::Range);
        }
        self.present(s)?;
        self.arm(s, Some((period, next)));
        self.touch_only(s);
        Ok(())
    }

    /// UNDER: a slot's job gets a superior, that of slot t. NoJob if one of the slots is empty;
    /// Exists if the job has a superior; Unfit if the superior would be the job itself or below it.
    #[tactic(auto, using(crate::proofs::Groups::under_laws))]
    pub fn set_superior(&mut self, s: Slot, t: Slot) -> Result<(), Refusal>
        requires tidy { Tidy self.old }
        ensures done { OnOk result (Operates self.old self.new s (with_superior_set (machine_of self.old) s t)) }
        ensures refused { IfErr result (λ e. with_superior_set (machine_of self.old) s t ≡ Err (reason_of e)) }
        ensures same { OnErr result (self.new ≡ self.old) }
        ensures tidy { Tidy self.new }
    {
        self.present(s)?;
        self.present(t)?;
        match self.superior(s) {
            Some(_) => Err(Refusal::Exists),
            None => self.join_under(s, t),
        }
    }

    /// A slot's job, which has no superior, gets that of slot t. Unfit if it would be the job
    /// itself or below it.
    #[tactic(auto, using(crate::proofs::Groups::circle_laws))]
    fn join_under(&mut self, s: Slot, t: Slot) -> Result<(), Refusal>
        requires job { HasJob (machine_of self.old) s }
        requires above { HasJob (machine_of self.old) t }
        requires none { superiors (machine_of self.old) s ≡ None }
        requires tidy { Tidy self.old }
        ensures done { OnOk result (Operates self.old self.new s (with_superior_set (machine_of self.old) s t)) }
        ensures refused { IfErr result (λ e. with_superior_set (machine_of self.old) s t ≡ Err (reason_of e)) }
        ensures same { OnErr result (self.new ≡ self.old) }
        ensures tidy { Tidy self.new }
    {
        within(s);
        if self.is_at_or_above(s, t) {
            return Err(Refusal::Unfit);
        }
        self.put_under(s, t);
        self.touch_only(s);
        Ok(())
    }

    /// The slot of the superior of a slot's job.
    fn superior(&self, s: Slot) -> Option<Slot>
        ensures { result ≡ superiors (machine_of self.now) s }
    {
        self.jobs.tree();
        self.jobs.superior(s)
    }

    /// Whether the job of a slot is that of slot t, or is above it.
    fn is_at_or_above(&self, s: Slot, t: Slot) -> bool
        ensures { result ≡ climbs_to (superiors (machine_of self.now)) s slots (Some t) }
    {
        self.jobs.tree();
        self.jobs.is_at_or_above(s, t)
    }

    /// Gives a slot's job, which has no superior, that of slot t, which is neither the job itself
    /// nor below it.
    fn put_under(&mut self, s: Slot, t: Slot)
        requires job { HasJob (machine_of self.old) s }
        requires above { HasJob (machine_of self.old) t }
        requires none { superiors (machine_of self.old) s ≡ None }
        requires apart { climbs_to (superiors (machine_of self.old)) s slots (Some t) ≡ false }
        requires tidy { Tidy self.old }
        ensures row { Becomes self.old self.new (in_job (machine_of self.old) s (under t)) }
        ensures tidy { Tidy self.new }
    {
        self.jobs.tree();
        self.jobs.set_superior(s, t);
    }

    /// TTY: opens a channel on the console of a slot's job, for output if `write` holds. NoJob if
    /// the slot is empty, Exists if the channel is open, Unfit if the job has no console.
    #[tactic(auto, using(crate::proofs::Groups::tty_laws))]
    pub fn restore_tty(&mut self, s: Slot, n: u8, write: bool) -> Result<(), Refusal>
        requires channel { n < 16 }
        requires tidy { Tidy self.old }
        ensures done { OnOk result (Operates self.old self.new s (with_tty (machine_of self.old) s n write)) }
        ensures refused { IfErr result (λ e. with_tty (machine_of self.old) s n write ≡ Err (reason_of e)) }
        ensures same { OnErr result (self.new ≡ self.old) }
        ensures tidy { Tidy self.new }
    {
        within(s);
        self.closed(s, n)?;
        if !self.has_console(s) {
            return Err(Refusal::Unfit);
        }
        self.open_channel(s, n, tty_end(write));
        self.touch_only(s);
        Ok(())
    }

    /// DSK: opens a channel of a slot's job on a file, from a word on. NoJob if the slot is empty,
    /// Exists if the channel is open, NoFile if there is no such file.
    #[tactic(auto, using(crate::proofs::Groups::disk_laws))]
    pub fn restore_disk(
        &mut self,
        s: Slot,
        n: u8,
        d: Word,
        x: Word,
        y: Word,
        at: u32,
    ) -> Result<(), Refusal>
        requires channel { n < 16 }
        requires tidy { Tidy self.old }
        ensures done { OnOk result (Operates self.old self.new s (with_disk (machine_of self.old) s n (names_of d x y) at)) }
        ensures refused { IfErr result (λ e. with_disk (machine_of self.old) s n (names_of d x y) at ≡ Err (reason_of e)) }
        ensures same { OnErr result (self.new ≡ self.old) }
        ensures tidy { Tidy self.new }
    {
        within(s);
        self.closed(s, n)?;
        if !self.has_file(d, x, y) {
            return Err(Refusal::NoFile);
        }
        self.open_file(s, n, d, x, y);
        self.move_to(s, n, at);
        self.touch_only(s);
        Ok(())
    }

    /// DRAFT: opens a channel of a slot's job on a draft of no words. NoJob if the slot is empty,
    /// Exists if the channel is open.
    #[tactic(auto, using(crate::proofs::Groups::draft_laws))]
    pub fn restore_draft(
        &mut self,
        s: Slot,
        n: u8,
        d: Word,
        x: Word,
        y: Word,
    ) -> Result<(), Refusal>
        requires channel { n < 16 }
        requires tidy { Tidy self.old }
        ensures done { OnOk result (Operates self.old self.new s (with_draft (machine_of self.old) s n (names_of d x y))) }
        ensures refused { IfErr result (λ e. with_draft (machine_of self.old) s n (names_of d x y) ≡ Err (reason_of e)) }
        ensures same { OnErr result (self.new ≡ self.old) }
        ensures tidy { Tidy self.new }
    {
        within(s);
        self.closed(s, n)?;
        self.open_draft(s, n, d, x, y);
        self.touch_only(s);
        Ok(())
    }

    /// WROTE: adds words to the end of the draft of a channel of a slot's job. NoJob if the slot is
    /// empty, Unfit if the channel is on no draft, Full if the words need more blocks than are
    /// unused; then none of them is added.
    #[tactic(auto, using(crate::proofs::Groups::written_laws))]
    pub fn restore_words(&mut self, s: Slot, n: u8, words: &[Word]) -> Result<(), Refusal>
        requires channel { n < 16 }
        requires some { 1 ≤ length words.now }
        requires tidy { Tidy self.old }
        ensures done { OnOk result (Operates self.old self.new s (with_words_written (machine_of self.old) s n words.now)) }
        ensures refused { IfErr result (λ e. with_words_written (machine_of self.old) s n words.now ≡ Err (reason_of e)) }
        ensures same { OnErr result (self.new ≡ self.old) }
        ensures tidy { Tidy self.new }
    {
        self.present(s)?;
        match self.channel(s, n) {
            Channel::Writing { draft } => self.write_words(s, n, draft, words),
            _ => Err(Refusal::Unfit),
        }
    }

    /// Adds words to the end of the draft with this number, which a channel of a slot's job is on.
    /// Full if they need more blocks than are unused; then none of them is added.
    #[tactic(auto, using(crate::proofs::EachLaws::writing_stands, crate::proofs::SlotLaws::touched_tidy))]
    fn write_words(&mut self, s: Slot, n: u8, draft: u32, words: &[Word]) -> Result<(), Refusal>
        requires channel { n < 16 }
        requires on { Writing draft ≡ channel_at self.old.jobs s n }
        requires tidy { Tidy self.old }
        ensures done { OnOk result (Operates self.old self.new s (with_all_written (machine_of self.old) s n words.now)) }
        ensures refused { IfErr result (λ e. with_all_written (machine_of self.old) s n words.now ≡ Err (reason_of e)) }
        ensures same { OnErr result (self.new ≡ self.old) }
        ensures tidy { Tidy self.new }
    {
        within(s);
        self.files.seen();
        if words.len() > self.files.room(draft) as usize {
            return Err(Refusal::Full);
        }
        self.append_each(s, n, words);
        self.touch_only(s);
        Ok(())
    }

    /// USR: opens a channel of a slot's job on the inferior in slot t, which may be written if
    /// `write` holds, at a position. NoJob if the slot is empty, Exists if the channel is open,
    /// Unfit if the superior of t is another or none.
    #[tactic(auto, using(crate::proofs::Groups::usr_laws))]
    pub fn restore_usr(
        &mut self,
        s: Slot,
        n: u8,
        t: Slot,
        write: bool,
        at: u32,
    ) -> Result<(), Refusal>
        requires channel { n < 16 }
        requires tidy { Tidy self.old }
        ensures done { OnOk result (Operates self.old self.new s (with_usr (machine_of self.old) s n t write at)) }
        ensures refused { IfErr result (λ e. with_usr (machine_of self.old) s n t write at ≡ Err (reason_of e)) }
        ensures same { OnErr result (self.new ≡ self.old) }
        ensures tidy { Tidy self.new }
    {
        within(s);
        self.closed(s, n)?;
        if !self.is_inferior(s, t) {
            return Err(Refusal::Unfit);
        }
        let slot = t.number();
        self.open_channel(s, n, Opened::Usr { slot, write });
        self.move_to(s, n, at);
        self.touch_only(s);
        Ok(())
    }

    /// LNK: opens a channel of a slot's job on an end of a link, its writing end if `write` holds.
    /// If the number has no link, one is made with these names. NoJob if the slot is empty; Exists
    /// if the channel is open, the link has other names, or somebody has opened the end.
    #[tactic(auto, using(crate::proofs::Groups::link_laws))]
    pub fn restore_link(
        &mut self,
        s: Slot,
        n: u8,
        l: u8,
        write: bool,
        x: Word,
        y: Word,
    ) -> Result<(), Refusal>
        requires channel { n < 16 }
        requires link { l < most_links }
        requires tidy { Tidy self.old }
        ensures done { OnOk result (Operates self.old self.new s (with_link (machine_of self.old) s n l write x y)) }
        ensures refused { IfErr result (λ e. with_link (machine_of self.old) s n l write x y ≡ Err (reason_of e)) }
        ensures same { OnErr result (self.new ≡ self.old) }
        ensures tidy { Tidy self.new }
    {
        within(s);
        self.closed(s, n)?;
        if !self.pipes.can_join(l, write, x, y) {
            return Err(Refusal::Exists);
        }
        self.join(s, n, l, write, x, y);
        self.touch_only(s);
        Ok(())
    }

    /// SENT: adds words to those in a link. Unfit if there is no such link, Full if it has no room
    /// for all of them.
    #[tactic(auto, using(crate::proofs::Groups::sent_laws))]
    pub fn restore_sent(&mut self, l: u8, words: &[Word]) -> Result<(), Refusal>
        requires link { l < most_links }
        requires few { length words.now ≤ 16 }
        requires tidy { Tidy self.old }
        ensures done { OnOk result (Keeps self.old self.new (with_words_sent (machine_of self.old) l words.now)) }
        ensures refused { IfErr result (λ e. with_words_sent (machine_of self.old) l words.now ≡ Err (reason_of e)) }
        ensures same { OnErr result (self.new ≡ self.old) }
        ensures tidy { Tidy self.new }
    {
        if !self.pipes.has_link(l) {
            return Err(Refusal::Unfit);
        }
        if self.pipes.words_waiting(l) as usize + words.len() > LINK_WORDS {
            return Err(Refusal::Full);
        }
        self.send_each(l, words);
        self.touch_none();
        Ok(())
    }

    /// SHUT: closes an end of a link that nobody has opened, its writing end if `write` holds.
    /// Unfit if there is no such link, Exists if somebody has opened the end.
    #[tactic(auto, using(crate::proofs::Groups::end_laws))]
    pub fn restore_end(&mut self, l: u8, write: bool) -> Result<(), Refusal>
        requires link { l < most_links }
        requires tidy { Tidy self.old }
        ensures done { OnOk result (Keeps self.old self.new (with_end_shut (machine_of self.old) l write)) }
        ensures refused { IfErr result (λ e. with_end_shut (machine_of self.old) l write ≡ Err (reason_of e)) }
        ensures same { OnErr result (self.new ≡ self.old) }
        ensures tidy { Tidy self.new }
    {
        if !self.pipes.has_link(l) {
            return Err(Refusal::Unfit);
        }
        if !self.pipes.has_unopened(l, write) {
            return Err(Refusal::Exists);
        }
        self.close_unopened(l, write);
        self.touch_none();
        Ok(())
    }

    /// IN: bytes that were typed at a console and that no job has taken. Full if they have no room.
    #[tactic(auto, using(crate::proofs::Groups::bytes_laws))]
    pub fn restore_input(&mut self, c: ConsoleNumber, bytes: &[u8]) -> Result<(), Refusal>
        requires few { length bytes.now ≤ 32 }
        requires tidy { Tidy self.old }
        ensures done { OnOk result (Keeps self.old self.new (with_bytes_waiting (machine_of self.old) c false bytes.now)) }
        ensures refused { IfErr result (λ e. with_bytes_waiting (machine_of self.old) c false bytes.now ≡ Err (reason_of e)) }
        ensures same { OnErr result (self.new ≡ self.old) }
        ensures tidy { Tidy self.new }
    {
        let (waiting, _) = self.waiting_at(c);
        if waiting as usize + bytes.len() > MOST_WAITING as usize {
            return Err(Refusal::Full);
        }
        self.type_each(c, bytes);
        self.touch_none();
        Ok(())
    }

    /// OUT: bytes that were put out at a console and were not drained. Full if they have no room.
    #[tactic(auto, using(crate::proofs::Groups::bytes_laws))]
    pub fn restore_output(&mut self, c: ConsoleNumber, bytes: &[u8]) -> Result<(), Refusal>
        requires few { length bytes.now ≤ 32 }
        requires tidy { Tidy self.old }
        ensures done { OnOk result (Keeps self.old self.new (with_bytes_waiting (machine_of self.old) c true bytes.now)) }
        ensures refused { IfErr result (λ e. with_bytes_waiting (machine_of self.old) c true bytes.now ≡ Err (reason_of e)) }
        ensures same { OnErr result (self.new ≡ self.old) }
        ensures tidy { Tidy self.new }
    {
        let (_, waiting) = self.waiting_at(c);
        if waiting as usize + bytes.len() > MOST_WAITING as usize {
            return Err(Refusal::Full);
        }
        self.put_each(c, bytes);
        self.touch_none();
        Ok(())
    }

    /// HOLD: a slot's job holds a console. NoJob if the slot is empty, Exists if somebody holds it.
    #[tactic(auto, using(crate::proofs::Groups::holder_laws))]
    pub fn restore_holder(&mut self, c: ConsoleNumber, s: Slot) -> Result<(), Refusal>
        requires tidy { Tidy self.old }
        ensures done { OnOk result (Keeps self.old self.new (with_holder_set (machine_of self.old) c s)) }
        ensures refused { IfErr result (λ e. with_holder_set (machine_of self.old) c s ≡ Err (reason_of e)) }
        ensures same { OnErr result (self.new ≡ self.old) }
        ensures tidy { Tidy self.new }
    {
        self.present(s)?;
        match self.holder(c) {
            Some(_) => Err(Refusal::Exists),
            None => {
                self.give(c, s.number());
                self.touch_none();
                Ok(())
            }
        }
    }

    /// NoJob if a slot is empty.
    #[tactic(auto, using(crate::proofs::SettingLaws::peek_some, crate::proofs::SettingLaws::peek_none))]
    fn present(&self, s: Slot) -> Result<(), Refusal>
        ensures job { OnOk result (HasJob (machine_of self.now) s) }
        ensures refused { IfErr result (λ e. (e ≡ Refusal.NoJob) × ((machine_of self.now).jobs s ≡ None)) }
    {
        let Some(_job) = self.job(s) else {
            return Err(Refusal::NoJob);
        };
        Ok(())
    }

    /// NoJob if a slot is empty, Exists if a channel of its job is open.
    #[tactic(auto, using(crate::proofs::Groups::closed_laws))]
    fn closed(&self, s: Slot, n: u8) -> Result<(), Refusal>
        requires channel { n < 16 }
        ensures job { OnOk result (HasJob (machine_of self.now) s) }
        ensures closed { OnOk result (chan_in (machine_of self.now) s n ≡ Shut) }
        ensures refused { IfErr result (λ e. provided (can_open (machine_of self.now) s n) (machine_of self.now) ≡ Err (reason_of e)) }
    {
        self.present(s)?;
        match self.channel(s, n) {
            Channel::Closed => Ok(()),
            _ => Err(Refusal::Exists),
        }
    }

    /// Whether the job of a slot has a console.
    #[tactic(auto, using(crate::proofs::RestoringLaws::console_there))]
    fn has_console(&self, s: Slot) -> bool
        ensures { result ≡ is_some (console_in ((machine_of self.now).jobs s)) }
    {
        self.console_of(s).is_some()
    }

    /// Whether there is a file with a directory and two names.
    #[tactic(auto, using(crate::proofs::RestoringLaws::file_there))]
    fn has_file(&self, d: Word, x: Word, y: Word) -> bool
        ensures { result ≡ has_file (names_of d x y) (machine_of self.now).files }
    {
        self.files.find(d, x, y).is_some()
    }

    /// Whether the superior of the job in slot t is that of a slot.
    #[tactic(auto, using(crate::proofs::RestoringLaws::inferior_some, crate::proofs::RestoringLaws::inferior_none))]
    fn is_inferior(&self, s: Slot, t: Slot) -> bool
        ensures { result ≡ is_slot s (superiors (machine_of self.now) t) }
    {
        match self.superior(t) {
            Some(k) => k == s,
            None => false,
        }
    }

    /// How many typed bytes wait at a console, and how many that were put out.
    fn waiting_at(&self, c: ConsoleNumber) -> (u32, u32)
        ensures input { result.0 ≡ length ((machine_of self.now).consoles c).input }
        ensures output { result.1 ≡ length ((machine_of self.now).consoles c).output }
        ensures most { (result.0 ≤ most_waiting) × (result.1 ≤ most_waiting) }
    {
        self.consoles[c.index()].waiting()
    }

    /// More words at the end of the draft of a channel, in their order, if there is room for them.
    #[tactic(auto, using(crate::proofs::EachLaws::appending_starts, crate::proofs::EachLaws::appending_ends))]
    fn append_each(&mut self, s: Slot, n: u8, words: &[Word])
        requires channel { n < 16 }
        requires room { IsOk (with_all_written (machine_of self.old) s n words.now) }
        requires tidy { Tidy self.old }
        ensures done { with_all_written (machine_of self.old) s n words.now ≡ Ok (machine_of self.new) }
        ensures place { self.new.place ≡ self.old.place }
        ensures tidy { Tidy self.new }
    {
        for k in 0..words.len() {
            self.append(s, n, words[k]);
        }
    }

    /// More words in a link, in their order, if there is room for them.
    #[tactic(auto, using(crate::proofs::EachLaws::sending_starts, crate::proofs::EachLaws::sending_ends))]
    fn send_each(&mut self, l: u8, words: &[Word])
        requires link { l < most_links }
        requires room { has_room words.now ((machine_of self.old).links l) ≡ true }
        requires tidy { Tidy self.old }
        ensures row { Becomes self.old self.new (on_link (machine_of self.old) l (option_map (with_words_in words.now))) }
        ensures tidy { Tidy self.new }
    {
        for k in 0..words.len() {
            self.send(l, words[k]);
        }
    }

    /// More bytes of input at a console, in their order, if there is room for them.
    #[tactic(auto, using(crate::proofs::EachLaws::typed_all))]
    fn type_each(&mut self, c: ConsoleNumber, bytes: &[u8])
        requires few { length bytes.now ≤ 32 }
        requires room { length (((machine_of self.old).consoles c).input ++ bytes.now) ≤ most_waiting }
        requires tidy { Tidy self.old }
        ensures row { Becomes self.old self.new (on_console (machine_of self.old) c (with_bytes false bytes.now)) }
        ensures tidy { Tidy self.new }
    {
        let _ = self.type_at(c, bytes);
    }

    /// More bytes of output at a console, in their order, if there is room for them.
    #[tactic(auto, using(crate::proofs::EachLaws::putting_starts, crate::proofs::EachLaws::putting_ends))]
    fn put_each(&mut self, c: ConsoleNumber, bytes: &[u8])
        requires room { length (((machine_of self.old).consoles c).output ++ bytes.now) ≤ most_waiting }
        requires tidy { Tidy self.old }
        ensures row { Becomes self.old self.new (on_console (machine_of self.old) c (with_bytes true bytes.now)) }
        ensures tidy { Tidy self.new }
    {
        for k in 0..bytes.len() {
            self.put(c, bytes[k]);
        }
    }
}

/// The registers of a job as REGS says them; its names, its console and its channels stay.
fn restored(job: &Job, r: &Registers) -> Job
    ensures registers { result ≡ after_registers r.now job.now }
    ensures channels { result.channels ≡ job.now.channels }
    ensures pc { result.pc < 2 ^ 18 }
{
    Job {
        stopped: !r.run,
        pc: r.pc.right(),
        flags: flags_in(r.pc),
        pend1: r.p1,
        pend2: r.p2,
        mask1: r.m1,
        mask2: r.m2,
        defer1: r.d1,
        defer2: r.d2,
        ..*job
    }
}

/// Whether an alarm can have this period, and this next time above the clock.
fn may_come(clock: u64, period: u64, next: u64) -> bool
    ensures { result ≡ may_come clock period next }
{
    1 <= period && period <= LONGEST_PERIOD && clock < next
}

/// What a channel on a console is opened on.
fn tty_end(write: bool) -> Opened
    ensures on { opened_on result ≡ on_tty write }
    ensures can { (m : Machine) → CanOpen result m }
{
    if write { Opened::TtyOut } else { Opened::TtyIn }
}
