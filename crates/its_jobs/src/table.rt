//! `Jobs`: the jobs by slot, their superiors, and the limit of the slots in use.

ghost use Rattle.std.specs.Prelude.{◌≡◌, ◌≢◌, ◌≤◌, ◌<◌, ◌+◌, ◌⊎◌, ◌||◌, ◌==◌, ◌↔◌, ℕ, true, Some, None, IfOk, OnOk, OnErr, IfSome, IsErr, is_some, length, slice_set, slice_index_or, slice_get, false, is_none, option_copied};
ghost use Rattle.std.specs.Option.{option_copied_mut};
ghost use Rattle.std.specs.Borrow.{LendsIf, sem};
ghost use Rattle.its_records.specs.contracts.jobs.Job.{the_row as job_row};
ghost use Rattle.its_jobs.specs.contracts.table.Jobs.{the_row};
ghost use Rattle.its_word.specs.Limits.{slots, limit_of};
ghost use Rattle.its_word.specs.Only.{Only};
ghost use Rattle.its_records.specs.Tree.{climbs_to, least_free, no_job, fresh_job, is_below, slots_below};
ghost use Rattle.its_jobs.specs.Table.{job_at, superior_at, superior_in, in_tree, IsTree, Without, NoJobs};

use its_records::{Channel, Job};
use its_word::{NoMemory, SLOTS, Slot, Word};
use std::alloc::Global;
use std::marker::Model;

/// All slots below the limit have a job.
#[derive(Clone, Copy, Debug, PartialEq, Eq)]
pub struct NoSlot;

/// How many jobs there can be until another number is set.
const FIRST_LIMIT: u8 = 64;

/// The number of places, as slots are counted.
const PLACES: u8 = SLOTS as u8;

/// The jobs by slot, each with its superior if it has one. There are 96 places, and jobs are made
/// in the slots below a limit.
#[derive(Drop)]
pub struct Jobs {
    jobs: Vec<Option<Job>>,
    superiors: Vec<Option<Slot>>,
    limit: u8,
}

impl Model for Jobs {
    ghost use Rattle.its_jobs.specs.Table.{Table, IsJobs};

    ghost Value = { Table };

    ghost view = { λ a. record { jobs = a.jobs.items; superiors = a.superiors.items; limit = a.limit } };

    ghost invariant = { λ a. IsJobs a.jobs.items a.superiors.items a.limit };
}

impl Jobs {
    /// No slot has a job, and there can be 64. Takes the memory of all places.
    #[tactic(auto, using(crate::proofs::TreeLaws::no_tree))]
    pub fn open(alloc: Global) -> Result<Jobs, NoMemory>
        ensures jobs { IfOk result NoJobs }
        ensures limit { IfOk result (λ t. t.limit ≡ 64) }
    {
        let jobs = vec![in alloc; None; SLOTS].map_err(|_| NoMemory)?;
        let superiors = no_superiors(alloc)?;
        Ok(Jobs {
            jobs,
            superiors,
            limit: FIRST_LIMIT,
        })
    }

    /// Sets how many jobs there can be: 64 or 96. No slot past them has a job.
    pub fn set_limit(&mut self, n: u8)
        requires limit { (n ≡ 64) ⊎ (n ≡ slots) }
        requires jobs { (k : ℕ) → n ≤ k → job_at self.old k ≡ None }
        ensures { self.new ≡ record self.old { limit = n } }
    {
        self.limit = n;
    }

    /// Whether no slot has a job.
    pub fn is_empty(&self) -> bool
        ensures empty { result ≡ no_job (job_at self.now) }
        ensures nobody { result ≡ true → (k : ℕ) → job_at self.now k ≡ None }
    {
        has_none(&self.jobs)
    }

    /// The least empty slot below the limit; None if all of them have a job.
    pub fn free(&self) -> Option<Slot>
        ensures slot { result ≡ least_free self.now.limit (job_at self.now) }
    {
        free_slot(&self.jobs, self.limit)
    }

    /// Makes a job in the least free slot below the limit: stopped, with closed channels, its other
    /// registers 0.
    pub fn create(
        &mut self,
        uname: Word,
        jname: Word,
        superior: Option<Slot>,
        console: Option<u8>,
    ) -> Result<Slot, NoSlot>
        requires standing { IfSome superior (λ s. is_some (job_at self.old s) ≡ true) }
        ensures slot { IfOk result (λ s. least_free self.old.limit (job_at self.old) ≡ Some s) }
        ensures job { IfOk result (λ s. Only (job_at self.old) (job_at self.new) s (Some (fresh_job uname jname console))) }
        ensures superior { IfOk result (λ s. Only (superior_at self.old) (superior_at self.new) s superior) }
        ensures full { OnErr result (least_free self.old.limit (job_at self.old) ≡ None) }
        ensures limit { self.new.limit ≡ self.old.limit }
        ensures same { OnErr result (self.new ≡ self.old) }
    {
        let slot = free_slot(&self.jobs, self.limit).ok_or(NoSlot)?;
        let place = slot.index();
        self.jobs[place] = Some(fresh_job(uname, jname, console));
        self.superiors[place] = superior;
        Ok(slot)
    }

    /// Makes a job in an empty slot below the limit: stopped, with closed channels and no superior,
    /// its other registers 0.
    pub fn create_at(&mut self, slot: Slot, uname: Word, jname: Word, console: Option<u8>)
        requires empty { job_at self.old slot ≡ None }
        requires below { slot < self.old.limit }
        ensures job { Only (job_at self.old) (job_at self.new) slot (Some (fresh_job uname jname console)) }
        ensures superiors { self.new.superiors ≡ self.old.superiors }
        ensures limit { self.new.limit ≡ self.old.limit }
    {
        let place = slot.index();
        self.jobs[place] = Some(fresh_job(uname, jname, console));
    }

    /// Gives a job that has no superior one, which is neither the job itself nor below it.
    pub fn set_superior(&mut self, slot: Slot, superior: Slot)
        requires job { is_some (job_at self.old slot) ≡ true }
        requires standing { is_some (job_at self.old superior) ≡ true }
        requires none { superior_at self.old slot ≡ None }
        requires apart { climbs_to (superior_at self.old) slot slots (Some superior) ≡ false }
        ensures superior { Only (superior_at self.old) (superior_at self.new) slot (Some superior) }
        ensures jobs { self.new.jobs ≡ self.old.jobs }
        ensures limit { self.new.limit ≡ self.old.limit }
    {
        let place = slot.index();
        self.superiors[place] = Some(superior);
    }

    /// Whether the job of a slot is that of another, or is above it.
    #[tactic(auto, using(crate::proofs::TreeLaws::reached_same, crate::proofs::TreeLaws::reached_other))]
    pub fn is_at_or_above(&self, slot: Slot, other: Slot) -> bool
        ensures { result ≡ climbs_to (superior_at self.now) slot slots (Some other) }
    {
        self.tree();
        let number = other.number();
        other == slot || self.is_below(slot.number(), number)
    }

    /// The job of a slot; None if it is empty.
    pub fn job(&self, slot: Slot) -> Option<&Job>
        ensures job { option_copied result ≡ job_at self.now slot }
    {
        self.jobs[slot.index()].as_ref()
    }

    /// The job of the slot of a number; None if it is empty, and past the last slot.
    pub fn numbered(&self, number: u8) -> Option<&Job>
        ensures job { option_copied result ≡ job_at self.now number }
        ensures within { IfSome result (λ j. number < slots) }
    {
        if usize::from(number) >= self.jobs.len() {
            return None;
        }
        self.jobs[usize::from(number)].as_ref()
    }

    /// The job of a slot, to be changed; its superior stays.
    pub fn job_mut(&mut self, slot: Slot) -> Option<&mut Job>
        ensures* writes_back { sem 𝓛 (LendsIf the_row job_row self.entry result (λ w. record (self.entry.now) { jobs = slice_set self.entry.now.jobs slot (Some w) }) self.entry.now) }
        ensures value { option_copied_mut result ≡ job_at self.old slot }
    {
        self.jobs[slot.index()].as_mut()
    }

    /// Removes the job of a slot, which has no job below it. All others stay as they are.
    pub fn remove(&mut self, slot: Slot)
        requires job { is_some (job_at self.old slot) ≡ true }
        requires leaf { (k : ℕ) → is_below (superior_at self.old) slot k ≡ false }
        ensures job { Only (job_at self.old) (job_at self.new) slot None }
        ensures superior { Only (superior_at self.old) (superior_at self.new) slot None }
        ensures limit { self.new.limit ≡ self.old.limit }
    {
        let place = slot.index();
        self.jobs[place] = None;
        self.superiors[place] = None;
    }

    /// Removes the job of a slot and all jobs below it. All others stay as they are.
    pub fn remove_tree(&mut self, slot: Slot)
        ensures job { Without (in_tree (superior_at self.old) slot) (job_at self.old) (job_at self.new) }
        ensures superior { Without (in_tree (superior_at self.old) slot) (superior_at self.old) (superior_at self.new) }
        ensures limit { self.new.limit ≡ self.old.limit }
    {
        clear_tree(&mut self.jobs, &self.superiors, slot.number());
        clear_superiors(&mut self.superiors, &self.jobs);
    }

    /// Does nothing: what is true of the jobs at any time.
    pub fn tree(&self)
        ensures { IsTree self.now.jobs self.now.superiors }
    {
        let _ = &self.jobs;
    }

    /// Whether the job of the slot of a number is below that of another. No job is below itself.
    pub fn is_below(&self, slot: u8, job: u8) -> bool
        ensures { result ≡ is_below (superior_at self.now) slot job }
    {
        usize::from(job) < SLOTS && is_below(&self.superiors, slot, Slot::new(job))
    }

    /// The k-th job below that of a slot, by slot number, from 0; None past the last.
    pub fn below(&self, slot: Slot, k: u32) -> Option<Slot>
        ensures job { result ≡ slice_get (slots_below (superior_at self.now) slot) k }
        ensures tree { IsTree self.now.jobs self.now.superiors }
        ensures some { IfSome result (λ b. is_below (superior_at self.now) slot b ≡ true) }
        ensures none { k ≡ 0 → result ≡ None → (j : ℕ) → is_below (superior_at self.now) slot j ≡ false }
    {
        nth_below(&self.superiors, slot.number(), k)
    }

    /// The superior of a slot's job; None if the slot is empty or its job has none.
    pub fn superior(&self, slot: Slot) -> Option<Slot>
        ensures value { result ≡ superior_at self.now slot }
        ensures standing { IfSome result (λ s. (s < slots) × (is_some (job_at self.now s) ≡ true)) }
    {
        self.superiors[slot.index()]
    }
}

/// No slot has a superior.
fn no_superiors(alloc: Global) -> Result<Vec<Option<Slot>>, NoMemory>
    ensures length { IfOk result (λ v. length v.items ≡ slots) }
    ensures none { IfOk result (λ v. (k : ℕ) → slice_index_or v.items k None ≡ None) }
{
    let superiors = vec![in alloc; None; SLOTS].map_err(|_| NoMemory)?;
    Ok(superiors)
}

/// The least slot below a limit that is empty.
#[tactic(auto, using(its_records::proofs::TreeLaws::least_start, its_records::proofs::TreeLaws::least_next, its_records::proofs::TreeLaws::least_found, its_records::proofs::TreeLaws::least_end))]
fn free_slot(jobs: &[Option<Job>], limit: u8) -> Option<Slot>
    requires jobs { length jobs.now ≡ slots }
    requires limit { limit ≤ slots }
    ensures slot { result ≡ least_free limit (λ k. slice_index_or jobs.now k None) }
    ensures empty { IfSome result (λ s. is_some (slice_index_or jobs.now s None) ≡ false) }
{
    for slot in 0..limit {
        if jobs[slot as usize].is_none() {
            return Some(Slot::new(slot));
        }
    }
    None
}

/// How many jobs there can be in a version of the session text: 64 in the first, and one for each
/// place in the second.
#[tactic(auto, unfolding(its_word::specs::Limits::limit_of))]
pub fn limit_of(version: u8) -> u8
    ensures number { result ≡ limit_of version }
    ensures either { (result ≡ 64) ⊎ (result ≡ slots) }
{
    if version == 2 { PLACES } else { FIRST_LIMIT }
}

/// Whether none of the slots has a job.
#[tactic(auto, using(its_records::proofs::TreeLaws::none_start, its_records::proofs::TreeLaws::none_full, its_records::proofs::TreeLaws::none_next, its_records::proofs::TreeLaws::none_end))]
fn has_none(jobs: &[Option<Job>]) -> bool
    requires { length jobs.now ≡ slots }
    ensures { result ≡ no_job (λ k. slice_index_or jobs.now k None) }
{
    for slot in 0..PLACES {
        if jobs[slot as usize].is_some() {
            return false;
        }
    }
    true
}

/// Whether the job of a slot is below that of another: it is climbed from job to superior, at most
/// as many times as there are slots.
#[tactic(auto, using(its_records::proofs::TreeLaws::climb_spent, its_records::proofs::TreeLaws::climb_end, its_records::proofs::TreeLaws::climb_turn), unfolding(its_records::specs::Tree::is_below))]
fn is_below(superiors: &[Option<Slot>], slot: u8, job: Slot) -> bool
    requires length { length superiors.now ≡ slots }
    ensures { result ≡ is_below (λ k. slice_index_or superiors.now k None) slot job }
{
    if job.number() == slot {
        return false;
    }
    let mut superior = superiors[job.index()];
    for _step in 0..SLOTS {
        match superior {
            Some(s) if s.number() == slot => return true,
            Some(s) => superior = superiors[s.index()],
            None => return false,
        }
    }
    false
}

/// Empties the slots of a job and of all below it.
fn clear_tree(jobs: &mut Vec<Option<Job>>, superiors: &[Option<Slot>], slot: u8)
    requires jobs { length jobs.old.items ≡ slots }
    requires length { length superiors.now ≡ slots }
    ensures length { length jobs.new.items ≡ slots }
    ensures left { Without (in_tree (superior_in superiors.now) slot) (λ k. slice_index_or jobs.old.items k None) (λ k. slice_index_or jobs.new.items k None) }
{
    for job in 0..PLACES {
        if job == slot || is_below(superiors, slot, Slot::new(job)) {
            jobs[job as usize] = None;
        }
    }
}

/// Takes the superiors from slots that have no job.
fn clear_superiors(superiors: &mut Vec<Option<Slot>>, jobs: &[Option<Job>])
    requires jobs { length jobs.now ≡ slots }
    requires length { length superiors.old.items ≡ slots }
    ensures length { length superiors.new.items ≡ slots }
    ensures left { Without (λ k. is_none (slice_index_or jobs.now k None)) (λ k. slice_index_or superiors.old.items k None) (λ k. slice_index_or superiors.new.items k None) }
{
    for job in 0..PLACES {
        if jobs[job as usize].is_none() {
            superiors[job as usize] = None;
        }
    }
}

/// The k-th slot, from 0, of those below another.
#[tactic(auto, using(crate::proofs::Groups::nth_below_laws))]
fn nth_below(superiors: &[Option<Slot>], slot: u8, k: u32) -> Option<Slot>
    requires length { length superiors.now ≡ slots }
    ensures job { result ≡ slice_get (slots_below (λ k. slice_index_or superiors.now k None) slot) k }
    ensures some { IfSome result (λ b. is_below (λ k. slice_index_or superiors.now k None) slot b ≡ true) }
    ensures none { k ≡ 0 → result ≡ None → (j : ℕ) → is_below (λ k. slice_index_or superiors.now k None) slot j ≡ false }
{
    let mut left = k;
    for other in 0..PLACES {
        let other = Slot::new(other);
        if is_below(superiors, slot, other) {
            if left == 0 {
                return Some(other);
            }
            left -= 1;
        }
    }
    None
}

/// A job as it is made.
#[tactic(auto, unfolding(its_records::specs::Tree::fresh_job))]
fn fresh_job(uname: Word, jname: Word, console: Option<u8>) -> Job
    ensures { result ≡ fresh_job uname jname console }
{
    Job {
        pc: 0,
        flags: 0,
        stopped: true,
        pend1: Word::ZERO,
        pend2: Word::ZERO,
        mask1: Word::ZERO,
        mask2: Word::ZERO,
        defer1: Word::ZERO,
        defer2: Word::ZERO,
        uname,
        jname,
        console,
        channels: [Channel::Closed; 16],
    }
}
