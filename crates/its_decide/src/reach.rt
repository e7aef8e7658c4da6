//! Whom the commit of a call disturbs.
ghost use Rattle.std.specs.Prelude.{◌≡◌};
ghost use Rattle.its_jobs.specs.Table.{superior_at};
ghost use Rattle.its_records.specs.Tree.{slots_below};
ghost use Rattle.its_plain.specs.Machine.Change.{superiors};
ghost use Rattle.its_plain.specs.Call.Decide.{reach};
ghost use Rattle.its_plain.specs.Call.Footprint.{among};
ghost use Rattle.its_decide.specs.Reach.{is_listed, slots_of};
ghost use Rattle.its_decide.specs.Seen.{machine_seen, raw_with};

use super::caller::Seen;
use super::choice::target;
use its_frame::CallName;
use its_records::{Ask, Job};
use its_word::Slot;

/// The jobs that the commit of a call disturbs, beside its caller: the one into which it reaches,
/// if there is one; for UCLOSE that one and all below it; for LOGOUT all below the caller, and its
/// superior.
#[derive(Clone, Copy, Debug, PartialEq, Eq)]
pub enum Disturbed {
    Target(Option<u8>),
    TargetTree(u8),
    Kin,
}

/// Whom the commit of the call of a slot's job disturbs, whose registers these are.
#[tactic(auto, unfolding(its_plain::specs::Call::Decide::reach))]
pub fn disturbed_by(seen: &Seen<'_>, slot: Slot, job: &Job, ask: &Ask) -> Disturbed
    ensures { slots_of result (machine_seen seen.now) slot (superior_at seen.now.jobs.now slot) ≡ reach (machine_seen seen.now) slot (raw_with seen.now slot job.now) ask.now }
{
    if ask.fail != 0 {
        return Disturbed::Target(None);
    }
    let target = target(seen, slot, job, ask);
    match CallName::named(ask.name) {
        Some(CallName::Logout) => Disturbed::Kin,
        Some(CallName::Uclose) => match target {
            Some(root) => Disturbed::TargetTree(root),
            None => Disturbed::Target(None),
        },
        _ => Disturbed::Target(target),
    }
}

/// Whether the job of slot k is one of those that the commit of the call of a slot's job disturbs.
#[tactic(auto, using(crate::proofs::ReachLaws::is_one, crate::proofs::ReachLaws::with_listed))]
pub fn disturbs(seen: &Seen<'_>, slot: Slot, whom: Disturbed, k: Slot) -> bool
    ensures { result ≡ among k (slots_of whom (machine_seen seen.now) slot (superior_at seen.now.jobs.now slot)) }
{
    match whom {
        Disturbed::Target(target) => is_listed(k, target),
        Disturbed::TargetTree(root) => is_below(seen, root, k) || is_listed(k, Some(root)),
        Disturbed::Kin => is_below(seen, slot.number(), k)
            || is_superior(k, seen.jobs.superior(slot)),
    }
}

/// Whether the job of slot k is below that of a slot.
#[tactic(auto, using(crate::proofs::ReachLaws::below_seen))]
fn is_below(seen: &Seen<'_>, slot: u8, k: Slot) -> bool
    ensures { result ≡ among k (slots_below (superiors (machine_seen seen.now)) slot) }
{
    seen.jobs.tree();
    seen.jobs.is_below(slot, k.number())
}

/// Whether a superior is in this slot.
fn is_superior(k: Slot, superior: Option<Slot>) -> bool
    ensures { result ≡ is_listed k superior }
{
    match superior {
        Some(s) => s == k,
        None => false,
    }
}

/// Whether a slot is this one.
fn is_listed(k: Slot, slot: Option<u8>) -> bool
    ensures { result ≡ is_listed k slot }
{
    match slot {
        Some(s) => s == k.number(),
        None => false,
    }
}
