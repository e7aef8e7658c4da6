//! What a removal of a job, with all jobs below it, does to channels and to holders of consoles.
ghost use Rattle.std.specs.Prelude.{◌≡◌, ℕ, None, slice_index_or};
ghost use Rattle.its_records.specs.declared.jobs.Channel.TheVariants.{Closed};
ghost use Rattle.its_jobs.specs.Table.{superior_at, in_tree};
ghost use Rattle.its_plain.specs.Machine.Change.{holder_after_removal};
ghost use Rattle.its_shared.specs.Across.{channel_left};

use its_jobs::Jobs;
use its_records::Channel;
use its_word::Slot;

/// The number of a slot, if there is one.
pub(crate) fn numbered(slot: Option<Slot>) -> Option<u8>
    ensures { result ≡ slot }
{
    match slot {
        Some(s) => Some(s.number()),
        None => None,
    }
}

/// Whether the job of the slot of a number is that of the root or below it.
pub fn is_removed(jobs: &Jobs, root: Slot, slot: u8) -> bool
    ensures { result ≡ in_tree (superior_at jobs.now) root slot }
{
    let number = root.number();
    slot == number || jobs.is_below(number, slot)
}

/// Closes those of these channels that are on jobs of a tree.
#[tactic(auto, using(crate::proofs::TurningLaws::turning_start, crate::proofs::TurningLaws::turning_more, crate::proofs::TurningLaws::turning_end))]
pub fn leave_each(jobs: &Jobs, root: Slot, channels: &mut [Channel])
    ensures { (n : ℕ) → slice_index_or channels.new n Closed ≡ channel_left (in_tree (superior_at jobs.now) root) (slice_index_or channels.old n Closed) }
{
    for n in 0..channels.len() {
        channels[n] = left(jobs, root, channels[n]);
    }
}

/// A channel after the removal of a tree.
fn left(jobs: &Jobs, root: Slot, channel: Channel) -> Channel
    ensures { result ≡ channel_left (in_tree (superior_at jobs.now) root) channel }
{
    match channel {
        Channel::Usr { slot, .. } if is_removed(jobs, root, slot) => Channel::Closed,
        other => other,
    }
}

/// Passes the consoles that jobs of a tree hold to the superior of the root, or to nobody if it has
/// none.
#[tactic(auto, using(crate::proofs::TurningLaws::turning_start, crate::proofs::TurningLaws::turning_more, crate::proofs::TurningLaws::turning_end))]
pub fn pass_on(jobs: &Jobs, root: Slot, holders: &mut [Option<u8>])
    ensures { (c : ℕ) → slice_index_or holders.new c None ≡ holder_after_removal (in_tree (superior_at jobs.now) root) (superior_at jobs.now root) (slice_index_or holders.old c None) }
{
    let heir = numbered(jobs.superior(root));
    for c in 0..holders.len() {
        holders[c] = passed(jobs, root, heir, holders[c]);
    }
}

/// The holder of a console after the removal of a tree, whose consoles pass to an heir.
fn passed(jobs: &Jobs, root: Slot, heir: Option<u8>, holder: Option<u8>) -> Option<u8>
    ensures { result ≡ holder_after_removal (in_tree (superior_at jobs.now) root) heir holder }
{
    match holder {
        Some(h) if is_removed(jobs, root, h) => heir,
        other => other,
    }
}
