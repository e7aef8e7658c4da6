//! The calls that devices share: OPEN by its device; CLOSE, `.IOT` and SIOT by what the channel is
//! on.
ghost use Rattle.std.specs.Prelude.{if◌then◌else◌, ◌≡◌, ◌<◌, ◌∷◌, [], true, false, None, Some, IfSome};
ghost use Rattle.its_frame.specs.declared.change.Change.TheVariants.{Shut};
ghost use Rattle.its_frame.specs.declared.decision.Decision.TheVariants.{Ends};
ghost use Rattle.its_frame.specs.declared.name.CallName.TheVariants.{Iot, Siot};
ghost use Rattle.its_jobs.specs.Table.{job_at};
ghost use Rattle.its_plain.specs.Call.Arguments.{input};
ghost use Rattle.its_plain.specs.Call.Device.{close_call, iot_call, open_call, siot_call};
ghost use Rattle.its_plain.specs.Call.Decide.{call_named};
ghost use Rattle.its_plain.specs.Machine.Own.{with_advance, exit_of};
ghost use Rattle.its_stepped.specs.Forest.{Forest};
ghost use Rattle.its_stepped.specs.Tick.{helps};
ghost use Rattle.its_world.specs.Tidy.{Tidy};
ghost use Rattle.its_world.specs.World.{state_of};
ghost use Rattle.its_shared.specs.Called.{channel_under};
ghost use Rattle.call_basic.specs.Parts.{going, part_in, part_of};
ghost use Rattle.call_basic.specs.Seen.{raw_with, seen_by};
ghost use Rattle.call_core.specs.Parts.{is_usr, part_by};

use arrayvec::ArrayVec;
use call_basic::{NextByte, Stop, channel, decision_of, fails, finishes_with, input, ioc, part_in};
use call_file::{close_draft, iot_reads, iot_writes, is_disk, open_disk, siot_reads, siot_writes};
use call_link::{close_end, iot_link, is_link, open_link, siot_link};
use call_tty::{iot_in, iot_out, open_tty, siot_in, siot_out};
use call_usr::{iot_through, is_usr, open_usr, siot_through};
use its_frame::{Change, Decision, error};
use its_records::{Ask, Channel, Job};
use its_word::Slot;
use its_world::World;

/// OPEN by its device: any but DSK, USR and LNK has to be TTY.
#[tactic(auto, unfolding(its_plain::specs::Call::Device::open_call))]
pub(crate) fn open(w: &World, slot: Slot, job: &Job, ask: &Ask) -> Decision
    ensures { result ≡ open_call (seen_by w.now slot job.now ask.now) ask.now }
{
    if is_disk(ask) {
        open_disk(w, slot, job, ask)
    } else if is_usr(ask) {
        open_usr(w, slot, job, ask)
    } else if is_link(ask) {
        open_link(w, slot, job, ask)
    } else {
        open_tty(w, slot, job, ask)
    }
}

/// CLOSE by what the channel is on: a draft becomes a file, an end of a link is closed, any other
/// channel is closed alone. Error 4, and those of a draft.
#[tactic(auto, using(crate::proofs::Groups::close_laws), unfolding(its_plain::specs::Call::Device::close_call, its_plain::specs::Machine::View::view, its_world::specs::World::state_of))]
pub(crate) fn close(w: &World, slot: Slot, job: &Job, ask: &Ask) -> Decision
    requires job { job_at w.now.jobs slot ≡ Some job.now }
    requires tidy { Tidy w.now }
    ensures { result ≡ close_call (seen_by w.now slot job.now ask.now) ask.now }
{
    match channel(job, input(ask, 0)) {
        Channel::Closed => fails(job, ask, error::BAD_CHANNEL),
        Channel::TtyIn => shut(job, ask),
        Channel::TtyOut => shut(job, ask),
        Channel::Reading { .. } => shut(job, ask),
        Channel::Writing { draft } => close_draft(w, slot, job, ask, draft),
        Channel::Usr { .. } => shut(job, ask),
        Channel::Link { link, write } => close_end(job, ask, link, write),
    }
}

/// The channel of a call is closed.
fn shut(job: &Job, ask: &Ask) -> Decision
    requires { input ask.now 0 < 16 }
    ensures { result ≡ Ends (record { items = Shut (input ask.now 0) ∷ [] }) (record { items = [] }) (exit_of (with_advance 2 job.now)) }
{
    let change = Change::Shut {
        channel: input(ask, 0).value() as u8,
    };
    finishes_with(job, change, ArrayVec::new())
}

/// `.IOT` by what the channel is on; IOC if it is closed.
#[tactic(auto, using(crate::proofs::Groups::iot_laws), unfolding(its_plain::specs::Call::Device::iot_call, its_plain::specs::Machine::View::view, its_world::specs::World::state_of))]
pub(crate) fn iot(w: &World, slot: Slot, job: &Job, ask: &Ask) -> Decision
    requires fail { ask.now.fail ≡ 0 }
    requires name { call_named ask.now.name ≡ Some Iot }
    requires job { job_at w.now.jobs slot ≡ Some job.now }
    requires tidy { Tidy w.now }
    requires forest { Forest (state_of w.now).raw }
    requires unmarked { helps (raw_with w.now slot job.now) ask.now ≡ true → w.now.files.mark ≡ None }
    ensures { result ≡ iot_call (seen_by w.now slot job.now ask.now) ask.now }
{
    match channel(job, input(ask, 0)) {
        Channel::Closed => ioc(job),
        Channel::TtyIn => iot_in(w, slot, job, ask),
        Channel::TtyOut => iot_out(w, slot, job, ask),
        Channel::Reading { file, at } => iot_reads(w, slot, job, ask, file, at),
        Channel::Writing { draft } => iot_writes(w, slot, job, ask, draft),
        Channel::Usr {
            slot: inferior,
            write,
            at,
        } => iot_through(w, slot, job, ask, inferior, write, at),
        Channel::Link { link, write } => iot_link(w, slot, job, ask, link, write),
    }
}

/// SIOT by what the channel is on. Error 4.
#[tactic(auto, using(crate::proofs::Groups::siot_laws), unfolding(its_plain::specs::Call::Device::siot_call, its_plain::specs::Machine::View::view, its_world::specs::World::state_of))]
pub(crate) fn siot(w: &World, slot: Slot, job: &Job, ask: &Ask) -> Decision
    requires fail { ask.now.fail ≡ 0 }
    requires name { call_named ask.now.name ≡ Some Siot }
    requires job { job_at w.now.jobs slot ≡ Some job.now }
    requires tidy { Tidy w.now }
    requires forest { Forest (state_of w.now).raw }
    requires unmarked { helps (raw_with w.now slot job.now) ask.now ≡ true → w.now.files.mark ≡ None }
    ensures { result ≡ siot_call (seen_by w.now slot job.now ask.now) ask.now }
{
    match channel(job, input(ask, 0)) {
        Channel::Closed => fails(job, ask, error::BAD_CHANNEL),
        Channel::TtyIn => decision_of(job, ask, siot_in(w, slot, job, ask)),
        Channel::TtyOut => decision_of(job, ask, siot_out(w, slot, job, ask)),
        Channel::Reading { file, at } => {
            decision_of(job, ask, siot_reads(w, slot, job, ask, file, at))
        }
        Channel::Writing { draft } => decision_of(job, ask, siot_writes(w, slot, job, ask, draft)),
        Channel::Usr {
            slot: inferior,
            write,
            at,
        } => siot_through(w, slot, job, ask, inferior, write, at),
        Channel::Link { link, write } => {
            decision_of(job, ask, siot_link(w, slot, job, ask, link, write))
        }
    }
}

/// The part of SIOT that is done next, if its channel is on a console, a file, a draft or a link
/// and a byte can be moved: exactly the part that its decision does, but for a channel on an
/// inferior.
#[tactic(auto, using(crate::proofs::Groups::siot_part_laws), unfolding(its_plain::specs::Call::Device::siot_call, its_plain::specs::Machine::View::view, its_world::specs::World::state_of))]
pub(crate) fn siot_part(w: &World, slot: Slot, job: &Job, ask: &Ask) -> Option<NextByte>
    requires job { job_at w.now.jobs slot ≡ Some job.now }
    requires tidy { Tidy w.now }
    requires unmarked { w.now.files.mark ≡ None }
    ensures goes { IfSome result (λ p. going p ≡ siot_call (seen_by w.now slot job.now ask.now) ask.now) }
    ensures alone { IfSome result (λ p. is_usr (channel_under job.now (input ask.now 0)) ≡ false) }
    ensures part { result ≡ (if is_usr (channel_under job.now (input ask.now 0)) then None else part_by (siot_call (seen_by w.now slot job.now ask.now) ask.now)) }
{
    match channel(job, input(ask, 0)) {
        Channel::TtyIn => found(job, ask, siot_in(w, slot, job, ask)),
        Channel::TtyOut => found(job, ask, siot_out(w, slot, job, ask)),
        Channel::Reading { file, at } => found(job, ask, siot_reads(w, slot, job, ask, file, at)),
        Channel::Writing { draft } => found(job, ask, siot_writes(w, slot, job, ask, draft)),
        Channel::Link { link, write } => found(job, ask, siot_link(w, slot, job, ask, link, write)),
        Channel::Closed => None,
        Channel::Usr { .. } => None,
    }
}

/// The part of SIOT that is done, if a byte is moved. This is all that its decision does.
#[inline(always)]
#[tactic(auto, using(crate::proofs::PartLaws::part_found))]
fn found(job: &Job, ask: &Ask, part: Result<NextByte, Stop>) -> Option<NextByte>
    ensures found { result ≡ part_in part }
    ensures part { result ≡ part_by (part_of job.now ask.now part) }
{
    part_in(part)
}
