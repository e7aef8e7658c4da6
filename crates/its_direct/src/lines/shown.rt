//! What the lines EXAM, LIST and STATE show of a job.
ghost use Rattle.std.specs.Prelude.{◌≡◌, ◌<◌, ◌≤◌, ◌^◌, Ok, Err, IfOk, IfErr, option_map};
ghost use Rattle.its_core.specs.Cores.{core_at};
ghost use Rattle.its_plain.specs.Machine.{words_at};
ghost use Rattle.its_plain.specs.Operator.Jobs.{examined, shown, state_shown};
ghost use Rattle.its_plain.specs.Operator.Symbols.{symbol_shown};
ghost use Rattle.its_shared.specs.Parts.{symbols_at};
ghost use Rattle.its_direct.specs.Plain.{machine_of};
ghost use Rattle.its_records.specs.Refusals.{reason_of};

use crate::plain::Plain;
use arrayvec::ArrayVec;
use its_core::Core;
use its_records::{JobShow, Refusal};
use its_shared::{nearest, shown};
use its_word::{ADDRESSES, Slot, Word};

impl Plain {
    /// EXAM and LIST: up to eight words of a slot, from an address on. NoJob if the slot is empty,
    /// NoPage if one of their pages is absent.
    #[tactic(auto, using(crate::proofs::LineLaws::exam_refused, crate::proofs::ShownLaws::words_missing))]
    pub fn words(&self, slot: Slot, a: u32, n: u32) -> Result<ArrayVec<Word, 8>, Refusal>
        requires address { a < 2 ^ 18 }
        requires number { n ≤ 8 }
        ensures shown { IfOk result (λ ws. examined (machine_of self.now) slot a n ≡ Ok ws.items) }
        ensures refused { IfErr result (λ e. examined (machine_of self.now) slot a n ≡ Err (reason_of e)) }
    {
        let Some(_job) = self.job(slot) else {
            return Err(Refusal::NoJob);
        };
        match words_from(&self.core, slot, a, n) {
            Some(words) => Ok(words),
            None => Err(Refusal::NoPage),
        }
    }

    /// STATE: what is shown of a slot's job. NoJob if the slot is empty.
    #[tactic(auto, using(crate::proofs::LineLaws::state_refused, crate::proofs::ShownLaws::state_found))]
    pub fn shown(&self, slot: Slot) -> Result<JobShow, Refusal>
        ensures shown { IfOk result (λ show. state_shown (machine_of self.now) slot ≡ Ok show) }
        ensures refused { IfErr result (λ e. state_shown (machine_of self.now) slot ≡ Err (reason_of e)) }
    {
        let Some(job) = self.job(slot) else {
            return Err(Refusal::NoJob);
        };
        let superior = self.jobs.superior(slot);
        let symbol = self.near(slot, job.pc);
        Ok(shown(&job, superior, symbol))
    }

    /// The symbol of a slot's job that is nearest to a PC, and how far the PC is past it.
    fn near(&self, slot: Slot, pc: u32) -> Option<(Word, u32)>
        ensures { result ≡ symbol_shown pc (symbols_at self.now.symbols.items slot) }
    {
        nearest(self.symbols[slot.index()].as_slice(), pc)
    }
}

/// Up to eight words of a slot, from an address on; None if one of their pages is absent.
#[tactic(auto, using(crate::proofs::ShownLaws::gathering_starts, crate::proofs::ShownLaws::gathering_more, crate::proofs::ShownLaws::gathering_stops, crate::proofs::ShownLaws::gathering_ends))]
fn words_from(core: &Core, slot: Slot, a: u32, n: u32) -> Option<ArrayVec<Word, 8>>
    requires address { a < 2 ^ 18 }
    requires number { n ≤ 8 }
    ensures { option_map (λ ws. ws.items) result ≡ words_at (core_at core.now slot) a n }
{
    let mut words = ArrayVec::new();
    for k in 0..n {
        match core.word(slot, (a + k) % ADDRESSES) {
            Some(w) => words.push(w),
            None => return None,
        }
    }
    Some(words)
}
