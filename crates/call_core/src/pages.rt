//! CORBLK.
ghost use Rattle.std.specs.Prelude.{◌≡◌, not, nat_lt, Some};
ghost use Rattle.its_word.specs.Limits.{most_pages};
ghost use Rattle.its_core.specs.Cores.{core_at};
ghost use Rattle.its_frame.specs.declared.name.CallName.TheVariants.{Corblk};
ghost use Rattle.its_jobs.specs.Table.{job_at};
ghost use Rattle.its_plain.specs.Call.Arguments.{input};
ghost use Rattle.its_plain.specs.Call.Core.{corblk, has_page, is_amiss, page_changed, pages_of};
ghost use Rattle.its_plain.specs.Call.Decide.{call_named};
ghost use Rattle.its_plain.specs.Machine.{mapped};
ghost use Rattle.its_stepped.specs.Forest.{Forest};
ghost use Rattle.its_world.specs.Tidy.{Tidy};
ghost use Rattle.its_world.specs.World.{state_of};
ghost use Rattle.call_basic.specs.Seen.{seen_by};

use arrayvec::ArrayVec;
use call_basic::{channel, fails, finishes_with, input, is_oneself};
use its_frame::{Change, Decision, error};
use its_plain::{HIGHEST_OPERATION, HIGHEST_PAGE};
use its_records::{Ask, Channel, Job};
use its_word::{MAPPED_PAGES, Slot};
use its_world::World;

/// CORBLK operation, job, page: drops a page (0), makes one of zeros (1), or makes it read only (2)
/// or writable (3). Errors 22, 4, 5; 22 by the page, 16 if it exists, for operation 1, or is
/// absent, for any other; 15 if all jobs together have 1024 pages.
#[tactic(auto, using(crate::proofs::Groups::corblk_laws), unfolding(its_plain::specs::Call::Core::corblk, its_plain::specs::Machine::View::view, its_world::specs::World::state_of))]
pub(crate) fn corblk(w: &World, slot: Slot, job: &Job, ask: &Ask) -> Decision
    requires fail { ask.now.fail ≡ 0 }
    requires name { call_named ask.now.name ≡ Some Corblk }
    requires job { job_at w.now.jobs slot ≡ Some job.now }
    requires tidy { Tidy w.now }
    requires forest { Forest (state_of w.now).raw }
    ensures { result ≡ corblk (seen_by w.now slot job.now ask.now) ask.now }
{
    let party = input(ask, 1);
    if input(ask, 0).value() > HIGHEST_OPERATION {
        return fails(job, ask, error::OUT_OF_RANGE);
    }
    if is_oneself(party) {
        return pages_of(w, slot, job, ask, slot);
    }
    match channel(job, party) {
        Channel::Closed => fails(job, ask, error::BAD_CHANNEL),
        Channel::Usr {
            slot: inferior,
            write: true,
            ..
        } => pages_of(w, slot, job, ask, Slot::new(inferior)),
        _ => fails(job, ask, error::WRONG_DEVICE),
    }
}

/// The operation on a page of the job of a slot.
#[tactic(auto, unfolding(its_plain::specs::Machine::View::view, its_world::specs::World::state_of))]
fn pages_of(w: &World, slot: Slot, job: &Job, ask: &Ask, target: Slot) -> Decision
    requires tidy { Tidy w.now }
    ensures { result ≡ pages_of (seen_by w.now slot job.now ask.now) ask.now (input ask.now 0) target (core_at w.now.core target) (input ask.now 2) }
{
    let operation = input(ask, 0).value();
    let page = input(ask, 2).value();
    if page > HIGHEST_PAGE {
        return fails(job, ask, error::OUT_OF_RANGE);
    }
    let page = page as u8;
    if is_amiss(operation == 1, has_page(w, target, page)) {
        return fails(job, ask, error::BAD_PAGE);
    }
    if operation == 1 && is_full(w) {
        return fails(job, ask, error::NO_CORE);
    }
    let change = page_changed(operation, target, page);
    finishes_with(job, change, ArrayVec::new())
}

/// Whether a page of a job is there.
fn has_page(w: &World, slot: Slot, page: u8) -> bool
    ensures { result ≡ has_page (core_at w.now.core slot) page }
{
    w.core.page(slot, page).is_some()
}

/// Whether a page that is to be made is there, or any other is not.
fn is_amiss(makes: bool, there: bool) -> bool
    ensures { result ≡ is_amiss makes there }
{
    makes == there
}

/// Whether all jobs together have as many pages as there can be.
#[tactic(auto, using(its_world::proofs::MappedLaws::mapped_raw))]
fn is_full(w: &World) -> bool
    requires { Tidy w.now }
    ensures { result ≡ not (nat_lt (mapped (state_of w.now).raw) most_pages) }
{
    w.core.mapped() >= MAPPED_PAGES
}

/// What an operation does to a page.
fn page_changed(operation: u64, slot: Slot, page: u8) -> Change
    ensures { result ≡ page_changed operation slot page }
{
    let slot = slot.number();
    match operation {
        0 => Change::Unmap { slot, page },
        1 => Change::Map { slot, page },
        _ => Change::Protect {
            slot,
            page,
            writable: operation == 3,
        },
    }
}
