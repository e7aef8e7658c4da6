//! The jobs that the commit of a call disturbs, beside its caller.
ghost use Rattle.std.specs.Prelude.{◌≡◌, Some, None, IfSome, is_some, true, false};
ghost use Rattle.its_jobs.specs.Table.{job_at, superior_at};
ghost use Rattle.its_world.specs.Tidy.{Tidy};
ghost use Rattle.its_pclsr.specs.Pages.{pages_unwound};
ghost use Rattle.its_plain.specs.Call.Decide.{reach, with_below};
ghost use Rattle.its_stepped.specs.Forest.{Forest};
ghost use Rattle.its_stepped.specs.Sound.{Sound};
ghost use Rattle.its_stepped.specs.Unwind.{all_unwound, unwound};
ghost use Rattle.its_world.specs.World.{frames_after, state_of, raw_in};
ghost use Rattle.its_tick.specs.Ticks.{call_asked, closes_job, logs_out, slots_in};

use call_basic::target_of;
use its_frame::CallName;
use its_pclsr::{unwind, unwind_below};
use its_records::Ask;
use its_word::Slot;
use its_world::World;

/// The jobs that a call reaches: the one that its argument names, of UCLOSE with all jobs below it;
/// or of LOGOUT all jobs below its caller and its superior.
#[derive(Clone, Copy, Debug, PartialEq, Eq)]
pub enum Reach {
    Nobody,
    Job(Slot),
    Branch(Slot),
    Tree,
}

/// Unwinds the jobs that a call of a slot's job reaches.
#[tactic(auto, using(crate::proofs::ReachLaws::nobody_unwound, crate::proofs::ReachLaws::one_unwound))]
pub fn unwind_reach(w: &mut World, slot: Slot, reach: Reach)
    requires sound { Sound (state_of w.old) }
    requires tidy { Tidy w.old }
    ensures row { state_of w.new ≡ all_unwound (slots_in reach (state_of w.old).raw slot (superior_at w.old.jobs slot)) (state_of w.old) }
    ensures pages { w.new.core.frames ≡ pages_unwound (slots_in reach (state_of w.old).raw slot (superior_at w.old.jobs slot)) (state_of w.old) w.old.core.frames }
    ensures tidy { Tidy w.new }
{
    match reach {
        Reach::Nobody => {}
        Reach::Job(target) => calm(w, target),
        Reach::Branch(root) => unwind_branch(w, root),
        Reach::Tree => unwind_tree(w, slot),
    }
}

/// Unwinds the jobs below a slot's job, and that one.
#[inline(never)]
#[tactic(auto, using(crate::proofs::ReachLaws::branch_unwound))]
fn unwind_branch(w: &mut World, root: Slot)
    requires sound { Sound (state_of w.old) }
    requires tidy { Tidy w.old }
    ensures row { state_of w.new ≡ all_unwound (with_below (state_of w.old).raw (Some root)) (state_of w.old) }
    ensures pages { w.new.core.frames ≡ pages_unwound (with_below (state_of w.old).raw (Some root)) (state_of w.old) w.old.core.frames }
    ensures tidy { Tidy w.new }
{
    unwind_below(w, root);
    calm(w, root);
}

/// Unwinds the jobs below a slot's job, and its superior.
#[inline(never)]
#[tactic(auto, using(crate::proofs::FramesLaws::root_pages, crate::proofs::ReachLaws::tree_unwound, crate::proofs::ReachLaws::root_unwound))]
fn unwind_tree(w: &mut World, slot: Slot)
    requires sound { Sound (state_of w.old) }
    requires tidy { Tidy w.old }
    ensures row { state_of w.new ≡ all_unwound (slots_in Reach.Tree (state_of w.old).raw slot (superior_at w.old.jobs slot)) (state_of w.old) }
    ensures pages { w.new.core.frames ≡ pages_unwound (slots_in Reach.Tree (state_of w.old).raw slot (superior_at w.old.jobs slot)) (state_of w.old) w.old.core.frames }
    ensures tidy { Tidy w.new }
{
    let superior = w.jobs.superior(slot);
    unwind_below(w, slot);
    if let Some(superior) = superior {
        calm(w, superior);
    }
}

/// Unwinds the job of a slot, if it is inside a call.
#[inline(never)]
#[tactic(auto, using(crate::proofs::FramesLaws::still_pages, crate::proofs::ReachLaws::calm_still))]
pub fn calm(w: &mut World, slot: Slot)
    requires sound { Sound (state_of w.old) }
    requires tidy { Tidy w.old }
    ensures row { state_of w.new ≡ unwound (state_of w.old) slot }
    ensures sound { Sound (state_of w.new) }
    ensures pages { w.new.core.frames ≡ frames_after ((state_of w.old).reserved slot) None slot w.old.core.frames }
    ensures tidy { Tidy w.new }
{
    if w.has_frame(slot) {
        unwind(w, slot);
    }
}

/// Whom a call of a slot's job reaches: nobody, if its name says so.
pub fn reach_of(w: &World, slot: Slot, ask: &Ask, call: CallName) -> Reach
    requires job { is_some (job_at w.now.jobs slot) ≡ true }
    requires forest { Forest (state_of w.now).raw }
    requires call { call_asked ask.now ≡ Some call }
    ensures slots { IfSome (raw_in w.now slot) (λ q. slots_in result (state_of w.now).raw slot (superior_at w.now.jobs slot) ≡ reach (state_of w.now).raw slot q ask.now) }
{
    if logs_out(call) {
        return Reach::Tree;
    }
    match call.row().reaches {
        Some(_) => reach_into(w, slot, ask, call),
        None => Reach::Nobody,
    }
}

/// Whom a call reaches that is not LOGOUT.
fn reach_into(w: &World, slot: Slot, ask: &Ask, call: CallName) -> Reach
    requires job { is_some (job_at w.now.jobs slot) ≡ true }
    requires forest { Forest (state_of w.now).raw }
    requires call { call_asked ask.now ≡ Some call }
    requires stays { logs_out call ≡ false }
    ensures slots { IfSome (raw_in w.now slot) (λ q. slots_in result (state_of w.now).raw slot (superior_at w.now.jobs slot) ≡ reach (state_of w.now).raw slot q ask.now) }
{
    match target_of(w, slot, ask) {
        Some(target) if closes_job(call) => Reach::Branch(Slot::new(target)),
        Some(target) => Reach::Job(Slot::new(target)),
        None => Reach::Nobody,
    }
}

/// Whether a call is UCLOSE.
fn closes_job(call: CallName) -> bool
    ensures { result ≡ closes_job call }
{
    matches!(call, CallName::Uclose)
}

/// Whether a call is LOGOUT.
fn logs_out(call: CallName) -> bool
    ensures { result ≡ logs_out call }
{
    matches!(call, CallName::Logout)
}
