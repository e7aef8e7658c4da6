//! The lines VERSION, RO, SYM and PEEK.
ghost use Rattle.std.specs.Prelude.{◌≡◌, ◌<◌, ◌≤◌, ◌++◌, ◌∷◌, [], ℕ, true, false, None, Err, OnOk, OnErr, IfErr, is_some, length, nat_lt};
ghost use Rattle.its_word.specs.Core.{page_of};
ghost use Rattle.its_word.specs.Limits.{most_symbols};
ghost use Rattle.its_core.specs.Cores.{core_at};
ghost use Rattle.its_jobs.specs.Table.{job_at};
ghost use Rattle.its_plain.specs.Operator.Jobs.{with_page_protected};
ghost use Rattle.its_plain.specs.Operator.Symbols.{with_symbol_kept};
ghost use Rattle.its_plain.specs.Operator.Version.{with_version};
ghost use Rattle.its_shared.specs.Parts.{symbols_at};
ghost use Rattle.its_direct.specs.Plain.{machine_of, Tidy};
ghost use Rattle.its_records.specs.Refusals.{reason_of};
ghost use Rattle.its_direct.specs.Lines.{Operates, Stands, Keeps, SymbolsBecome, VersionBecomes};

use crate::plain::Plain;
use its_jobs::limit_of;
use its_records::Refusal;
use its_word::{MOST_SYMBOLS, Slot, Word, within};

impl Plain {
    /// VERSION: if no slot has a job, the machine becomes one of this version, which can have 64
    /// jobs, or 96 in version 2; else it is unchanged.
    #[tactic(auto, using(crate::proofs::SettingLaws::version_tidy, crate::proofs::SlotLaws::touched_tidy))]
    pub fn version(&mut self, v: u8)
        requires known { (1 ≤ v) × (v ≤ 2) }
        requires tidy { Tidy self.old }
        ensures done { Stands self.old self.new (with_version (machine_of self.old) v) }
        ensures tidy { Tidy self.new }
    {
        if self.jobs.is_empty() {
            self.set_version(v);
        }
        self.touch_none();
    }

    /// Makes the machine one of version 1 or 2. No slot has a job.
    fn set_version(&mut self, v: u8)
        requires known { (1 ≤ v) × (v ≤ 2) }
        requires nobody { (k : ℕ) → job_at self.old.jobs k ≡ None }
        ensures { VersionBecomes self.old self.new v }
    {
        self.jobs.set_limit(limit_of(v));
        self.version = v;
    }

    /// RO: a page of a slot's job becomes read only. NoJob if the slot is empty, NoPage if the page
    /// is absent.
    #[tactic(auto, using(crate::proofs::SettingLaws::read_only_refused, crate::proofs::SettingLaws::read_only_absent))]
    pub fn read_only(&mut self, slot: Slot, page: u8) -> Result<(), Refusal>
        requires tidy { Tidy self.old }
        ensures done { OnOk result (Operates self.old self.new slot (with_page_protected (machine_of self.old) slot page)) }
        ensures refused { IfErr result (λ e. with_page_protected (machine_of self.old) slot page ≡ Err (reason_of e)) }
        ensures same { OnErr result (self.new ≡ self.old) }
        ensures tidy { Tidy self.new }
    {
        within(slot);
        let Some(_job) = self.job(slot) else {
            return Err(Refusal::NoJob);
        };
        if self.has_page(slot, page) {
            self.core.protect(slot, page, false);
            self.touch_only(slot);
            Ok(())
        } else {
            Err(Refusal::NoPage)
        }
    }

    /// Whether a page of a slot is present.
    #[tactic(auto, using(crate::proofs::SettingLaws::page_some))]
    fn has_page(&self, slot: Slot, page: u8) -> bool
        ensures { result ≡ is_some (page_of (core_at self.now.core slot) page) }
    {
        self.core.page(slot, page).is_some()
    }

    /// SYM: a slot's job keeps a symbol, the last. NoJob if the slot is empty, Full if the job has
    /// 512. The job is not disturbed.
    #[tactic(auto, using(crate::proofs::SettingLaws::symbol_refused, crate::proofs::SettingLaws::symbol_full, crate::proofs::SettingLaws::symbol_tidy))]
    pub fn symbol(&mut self, slot: Slot, name: Word, a: u32) -> Result<(), Refusal>
        requires tidy { Tidy self.old }
        ensures done { OnOk result (Keeps self.old self.new (with_symbol_kept (machine_of self.old) slot name a)) }
        ensures refused { IfErr result (λ e. with_symbol_kept (machine_of self.old) slot name a ≡ Err (reason_of e)) }
        ensures same { OnErr result (self.new ≡ self.old) }
        ensures tidy { Tidy self.new }
    {
        let Some(_job) = self.job(slot) else {
            return Err(Refusal::NoJob);
        };
        if self.has_room(slot) {
            self.keep_symbol(slot, name, a);
            self.touch_none();
            Ok(())
        } else {
            Err(Refusal::Full)
        }
    }

    /// Whether there is room for a symbol more of a slot.
    fn has_room(&self, slot: Slot) -> bool
        ensures { result ≡ nat_lt (length (symbols_at self.now.symbols.items slot)) most_symbols }
    {
        self.symbols[slot.index()].len() < MOST_SYMBOLS
    }

    /// Keeps a symbol of a slot's job, the last; there is room for it.
    #[tactic(auto, using(its_shared::proofs::OpenLaws::list_here))]
    fn keep_symbol(&mut self, slot: Slot, name: Word, a: u32)
        requires room { length (symbols_at self.old.symbols.items slot) < most_symbols }
        ensures { SymbolsBecome self.old self.new slot (symbols_at self.old.symbols.items slot ++ (name, a) ∷ []) }
    {
        self.symbols[slot.index()].push((name, a));
    }

    /// PEEK: whether a slot has a job. Nobody is disturbed, and this machine does not know how far
    /// a job is inside a call. NoJob if the slot is empty.
    #[tactic(auto, using(crate::proofs::SettingLaws::peek_some, crate::proofs::SettingLaws::peek_none, crate::proofs::SlotLaws::touched_tidy))]
    pub fn peek(&mut self, slot: Slot) -> Result<(), Refusal>
        requires tidy { Tidy self.old }
        ensures done { OnOk result (Stands self.old self.new (machine_of self.old)) }
        ensures some { OnOk result (is_some ((machine_of self.old).jobs slot) ≡ true) }
        ensures refused { IfErr result (λ e. (e ≡ Refusal.NoJob) × ((machine_of self.old).jobs slot ≡ None)) }
        ensures same { OnErr result (self.new ≡ self.old) }
        ensures tidy { Tidy self.new }
    {
        let Some(_job) = self.job(slot) else {
            return Err(Refusal::NoJob);
        };
        self.touch_none();
        Ok(())
    }
}
