//! A job whose call is at hand; and one whose `.IOT` waits for input of its console: it has no
//! step, and this shows without a decoding and a decision.
ghost use Rattle.std.specs.Prelude.{◌≡◌, true, None, IfSome, is_none, length};
ghost use Rattle.its_core.specs.Cores.{core_at};
ghost use Rattle.its_plain.specs.Call.Step.{transition};
ghost use Rattle.its_plain.specs.Call.Tty.{is_other};
ghost use Rattle.its_shared.specs.Called.{bar_of, channel_under};
ghost use Rattle.its_jobs.specs.Table.{job_at};
ghost use Rattle.its_shared.specs.Parts.{console_at, holder_at};
ghost use Rattle.its_direct.specs.Events.{Kept};
ghost use Rattle.its_direct.specs.Plain.{machine_of};
ghost use Rattle.its_direct.specs.Waiting.{AtHand, hand_at, is_input, is_silent, lacks, lacks_input, lacks_near};

use crate::plain::Plain;
use its_ints::deliverable;
use its_records::{Channel, Job};
use its_word::Slot;
use pdp_exec::{Near, call_at_hand};

impl Plain {
    /// The call of a slot's job that is at hand: the job runs, no interrupt of it is deliverable,
    /// and the word at its PC is `.IOT` or `.CALL` with neither I nor X. Its step is then that
    /// call, and no other word is read on the way to it.
    #[inline(always)]
    #[tactic(auto, using(crate::proofs::SlotLaws::placed_at))]
    pub(crate) fn call_at_hand(&self, slot: Slot) -> Option<Near>
        requires kept { Kept self.now }
        ensures at { result ≡ hand_at self.now slot }
        ensures hand { IfSome result (λ n. AtHand self.now slot n) }
    {
        let Some(job) = self.jobs.job(slot) else {
            return None;
        };
        if job.stopped {
            return None;
        }
        if deliverable(job) {
            return None;
        }
        match call_at_hand(&self.core, slot, job) {
            Some(near) => Some(near),
            None => None,
        }
    }

    /// Whether the call of a slot's job, which is at hand, waits for input: it is `.IOT` from the
    /// job's console into a word that can be stored, and the console gives the job no byte. Then
    /// the job has no step.
    #[inline(always)]
    pub(crate) fn lacks_input(&self, slot: Slot, near: Near) -> bool
        requires hand { AtHand self.now slot near }
        ensures lacks { result ≡ lacks_input self.now slot near (job_at self.now.jobs slot) }
        ensures still { result ≡ true → transition (machine_of self.now) slot ≡ None }
    {
        match self.jobs.job(slot) {
            Some(job) => self.lacks_near(slot, job, near),
            None => false,
        }
    }

    /// Whether the call of a slot's job with these registers is such a `.IOT`, when it is this one.
    fn lacks_near(&self, slot: Slot, job: &Job, near: Near) -> bool
        ensures { result ≡ lacks_near self.now slot job.now near.e near.channel }
    {
        match near.channel {
            Some(channel) => self.lacks_at(slot, job, near.e, channel),
            None => false,
        }
    }

    /// Whether `.IOT` of a slot's job with these registers, through a channel, waits for input that
    /// it stores at E.
    fn lacks_at(&self, slot: Slot, job: &Job, e: u32, channel: u8) -> bool
        ensures { result ≡ lacks self.now slot job.now e channel }
    {
        if !is_typed(job, channel) {
            return false;
        }
        if !self.can_store(slot, e) {
            return false;
        }
        self.gives_none(slot, job.console.unwrap_or(0))
    }

    /// Whether a word of a slot's job can be stored.
    #[tactic(auto, using(crate::proofs::WaitingLaws::stores, crate::proofs::WaitingLaws::stores_not))]
    fn can_store(&self, slot: Slot, at: u32) -> bool
        ensures { result ≡ is_none (bar_of (core_at self.now.core slot) at) }
    {
        match self.core.word(slot, at) {
            Some(_) => self.core.is_storable(slot, at),
            None => false,
        }
    }

    /// Whether a console gives a slot's job no byte.
    fn gives_none(&self, slot: Slot, c: u8) -> bool
        ensures { result ≡ is_silent self.now slot c }
    {
        self.typed(c) == 0 || self.is_other(slot, c)
    }

    /// How many bytes wait at a console as input.
    fn typed(&self, c: u8) -> u32
        ensures { result ≡ length (console_at self.now.consoles.items c).input }
    {
        match self.consoles.get(usize::from(c)) {
            Some(console) => console.waiting().0,
            None => 0,
        }
    }

    /// Whether a job other than that of a slot holds a console.
    fn is_other(&self, slot: Slot, c: u8) -> bool
        ensures { result ≡ is_other slot (holder_at self.now.holders c) }
    {
        match self.held_by(c) {
            Some(h) => h != slot.number(),
            None => false,
        }
    }

    /// Who holds a console.
    fn held_by(&self, c: u8) -> Option<u8>
        ensures { result ≡ holder_at self.now.holders c }
    {
        let holders = &self.holders;
        match holders.get(usize::from(c)) {
            Some(holder) => *holder,
            None => None,
        }
    }
}

/// Whether a channel of a job is for input of its console.
fn is_typed(job: &Job, channel: u8) -> bool
    ensures { result ≡ is_input (channel_under job.now channel) }
{
    match job.channels.get(usize::from(channel)) {
        Some(channel) => matches!(channel, Channel::TtyIn),
        None => false,
    }
}
