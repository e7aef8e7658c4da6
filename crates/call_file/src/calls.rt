//! Which calls are those on files.
ghost use Rattle.std.specs.Prelude.{◌≡◌, ◌==◌, IfSome};
ghost use Rattle.its_plain.specs.Call.Arguments.{input};
ghost use Rattle.its_plain.specs.Call.File.{disk_device};
ghost use Rattle.its_stepped.specs.Tick.{helps};
ghost use Rattle.its_world.specs.World.{raw_in};
ghost use Rattle.its_shared.specs.Called.{channel_under};
ghost use Rattle.call_basic.specs.Seen.{raw_with};
ghost use Rattle.call_file.specs.Held.{is_on_file};

use call_basic::{channel, input};
use its_frame::{CallName, OnFiles};
use its_plain::DSK;
use its_records::{Ask, Channel, Job};
use its_word::Slot;
use its_world::World;

/// Whether the device of OPEN is DSK.
pub fn is_disk(ask: &Ask) -> bool
    ensures { result ≡ (input ask.now 1 == disk_device) }
{
    input(ask, 1).value() == DSK
}

/// Whether a call of a slot's job is one on files, before whose commit the pending parts of a half
/// made close are performed.
pub fn helps(w: &World, slot: Slot, ask: &Ask) -> bool
    ensures { IfSome (raw_in w.now slot) (λ q. result ≡ helps q ask.now) }
{
    match w.jobs.job(slot) {
        Some(job) => is_on_files(w, slot, job, ask),
        None => false,
    }
}

/// Whether a call is one on files, by the job's registers: its name, its device, or what its
/// channel is on.
#[tactic(auto, using(crate::proofs::RawLaws::on_file), unfolding(its_stepped::specs::Tick::helps))]
fn is_on_files(w: &World, slot: Slot, job: &Job, ask: &Ask) -> bool
    ensures { result ≡ helps (raw_with w.now slot job.now) ask.now }
{
    if ask.fail != 0 {
        return false;
    }
    match CallName::named(ask.name) {
        Some(call) => match call.row().files {
            OnFiles::Never => false,
            OnFiles::ByDevice => is_disk(ask),
            OnFiles::ByChannel => is_on_file(job, ask),
            OnFiles::Always => true,
        },
        None => false,
    }
}

/// Whether the channel of a call is on a file or a draft.
fn is_on_file(job: &Job, ask: &Ask) -> bool
    ensures { result ≡ is_on_file (channel_under job.now (input ask.now 0)) }
{
    match channel(job, input(ask, 0)) {
        Channel::Reading { .. } => true,
        Channel::Writing { .. } => true,
        _ => false,
    }
}
