//! What is done before a call is tried: the jobs that it reaches are unwound, and if it is one on
//! files, the pending parts of a half made close are performed. The name of a call shows that it
//! reaches nobody and is not on files.
ghost use Rattle.std.specs.Prelude.{◌≡◌, true, Some, IfSome, is_some};
ghost use Rattle.its_jobs.specs.Table.{job_at, superior_at};
ghost use Rattle.its_world.specs.Tidy.{Tidy};
ghost use Rattle.its_commit.specs.Carried.{standing_of};
ghost use Rattle.its_pclsr.specs.Pages.{pages_unwound};
ghost use Rattle.its_plain.specs.Call.Decide.{reach};
ghost use Rattle.its_stepped.specs.Forest.{Forest};
ghost use Rattle.its_stepped.specs.Duty.{IsTried};
ghost use Rattle.its_stepped.specs.Tick.{after_help_if, helps};
ghost use Rattle.its_stepped.specs.Unwind.{all_unwound, help};
ghost use Rattle.its_world.specs.World.{state_of, call_in, raw_in};
ghost use Rattle.its_tick.specs.Kept.{Kept};
ghost use Rattle.its_tick.specs.Ticks.{call_asked, slots_in};

use super::reach::{Reach, reach_of, unwind_reach};
use call_file::helps;
use its_commit::standing;
use its_frame::{CallName, OnFiles};
use its_records::Ask;
use its_word::Slot;
use its_world::World;

/// What a call needs: whom it reaches, and whether it is one on files.
#[derive(Clone, Copy, Debug, PartialEq, Eq)]
struct Needs {
    reach: Reach,
    on_files: bool,
}

/// Makes the world ready for the call in the frame of a slot: the jobs that it reaches are unwound,
/// and if it is one on files, the pending parts of a half made close are performed.
#[tactic(auto, using(crate::proofs::TrialLaws::stands_job))]
pub fn make_ready(w: &mut World, slot: Slot)
    requires kept { Kept w.old }
    requires stands { is_some (standing_of (call_in w.old slot)) ≡ true }
    ensures row { IfSome (standing_of (call_in w.old slot)) (λ f. IfSome (raw_in w.old slot) (λ q. state_of w.new ≡ after_help_if (helps q f.ask) (all_unwound (reach (state_of w.old).raw slot q f.ask) (state_of w.old)))) }
    ensures pages { IfSome (standing_of (call_in w.old slot)) (λ f. IfSome (raw_in w.old slot) (λ q. w.new.core.frames ≡ pages_unwound (reach (state_of w.old).raw slot q f.ask) (state_of w.old) w.old.core.frames)) }
    ensures tidy { Tidy w.new }
{
    let needs = needs_in(w, slot);
    unwind_reach(w, slot, needs.reach);
    help_if(w, needs.on_files);
}

/// What the call in the frame of a slot needs.
fn needs_in(w: &World, slot: Slot) -> Needs
    requires job { is_some (job_at w.now.jobs slot) ≡ true }
    requires stands { is_some (standing_of (call_in w.now slot)) ≡ true }
    requires forest { Forest (state_of w.now).raw }
    ensures slots { IfSome (standing_of (call_in w.now slot)) (λ f. IfSome (raw_in w.now slot) (λ q. slots_in result.reach (state_of w.now).raw slot (superior_at w.now.jobs slot) ≡ reach (state_of w.now).raw slot q f.ask)) }
    ensures helps { IfSome (standing_of (call_in w.now slot)) (λ f. IfSome (raw_in w.now slot) (λ q. result.on_files ≡ helps q f.ask)) }
{
    let (ask, _) = standing(w, slot);
    needs_of(w, slot, ask)
}

/// What a call of a slot's job needs.
#[tactic(auto, using(crate::proofs::NeedsLaws::none_reached, crate::proofs::NeedsLaws::none_helped))]
fn needs_of(w: &World, slot: Slot, ask: &Ask) -> Needs
    requires job { is_some (job_at w.now.jobs slot) ≡ true }
    requires forest { Forest (state_of w.now).raw }
    ensures slots { IfSome (raw_in w.now slot) (λ q. slots_in result.reach (state_of w.now).raw slot (superior_at w.now.jobs slot) ≡ reach (state_of w.now).raw slot q ask.now) }
    ensures helps { IfSome (raw_in w.now slot) (λ q. result.on_files ≡ helps q ask.now) }
{
    match call_asked(ask) {
        Some(call) => Needs {
            reach: reach_of(w, slot, ask, call),
            on_files: is_on_files(w, slot, ask, call),
        },
        None => Needs {
            reach: Reach::Nobody,
            on_files: false,
        },
    }
}

/// The call that is asked for; none if its decoding gave an error, or if there is none of its name.
fn call_asked(ask: &Ask) -> Option<CallName>
    ensures { result ≡ call_asked ask.now }
{
    if ask.fail == 0 {
        CallName::named(ask.name)
    } else {
        None
    }
}

/// Whether a call of a slot's job is one on files.
fn is_on_files(w: &World, slot: Slot, ask: &Ask, call: CallName) -> bool
    requires call { call_asked ask.now ≡ Some call }
    ensures { IfSome (raw_in w.now slot) (λ q. result ≡ helps q ask.now) }
{
    match call.row().files {
        OnFiles::Never => false,
        _ => helps(w, slot, ask),
    }
}

/// Performs the pending parts of a half made close, if there is one and a call is one on files.
#[tactic(auto, using(crate::proofs::HelpLaws::help_spared))]
fn help_if(w: &mut World, on_files: bool)
    requires tidy { Tidy w.old }
    ensures row { state_of w.new ≡ after_help_if on_files (state_of w.old) }
    ensures core { w.new.core ≡ w.old.core }
    ensures tidy { Tidy w.new }
{
    if on_files {
        match w.files.owner() {
            Some(_) => help(w),
            None => {}
        }
    }
}

/// Performs the pending parts of a half made close.
#[inline(never)]
#[tactic(auto, using(crate::proofs::HelpLaws::help_state))]
fn help(w: &mut World)
    requires tidy { Tidy w.old }
    ensures row { state_of w.new ≡ help (state_of w.old) }
    ensures core { w.new.core ≡ w.old.core }
    ensures tidy { Tidy w.new }
{
    w.files.seen();
    w.files.help();
}
