//! The removal of a job with all jobs below it.
ghost use Rattle.std.specs.Prelude.{◌≡◌, ℕ, Bool, true, false, Some, None, is_some, length};
ghost use Rattle.its_word.specs.Core.{no_core};
ghost use Rattle.its_word.specs.Limits.{slots};
ghost use Rattle.its_records.specs.Tree.{is_below};
ghost use Rattle.its_core.specs.Cores.{core_at, clear_at};
ghost use Rattle.its_core.specs.Frames.{frames_drop_all};
ghost use Rattle.its_frame.specs.declared.change.Change.TheVariants.{Remove};
ghost use Rattle.its_jobs.specs.Table.{job_at, superior_at, in_tree};
ghost use Rattle.its_plain.specs.Machine.Change.{superiors, after_shut, is_gone};
ghost use Rattle.its_stepped.specs.Commit.{effect_on};
ghost use Rattle.its_stepped.specs.Sound.{Sound};
ghost use Rattle.its_world.specs.Tidy.{Tidy};
ghost use Rattle.its_commit.specs.Pages.{pages_swept};
ghost use Rattle.its_commit.specs.Removal.{Closes, Empties, Sweeps, Swept};
ghost use Rattle.its_world.specs.World.{state_of, in_raw, with_frames, CoreBecomes};

use its_records::CHANNELS;
use its_shared::{is_removed, leave_each, pass_on};
use its_word::{SLOTS, Slot, within};
use its_world::{World, forget_removed};

/// Removes the job of a slot and all jobs below it: their drafts are dropped, their channels
/// closed, and their pages and symbols given up; every channel on one of them is closed, and so is
/// each end of a link at one of them. A console that one of them holds passes to the superior of
/// the job, if it has one, else to nobody. No INF is set. The jobs below have been unwound; what is
/// left of a call of the job itself is dropped, but a page that it has reserved is given back
/// before.
pub fn remove_tree(w: &mut World, slot: Slot)
    requires job { is_some (job_at w.old.jobs slot) ≡ true }
    requires sound { Sound (state_of w.old) }
    requires unwound { (k : ℕ) → is_below (superiors (state_of w.old).raw) slot k ≡ true → (state_of w.old).frames k ≡ None }
    requires page { (state_of w.old).reserved slot ≡ None }
    requires tidy { Tidy w.old }
    ensures removed { (j : ℕ) → state_of w.new ≡ effect_on (Remove slot) j (state_of w.old) }
    ensures pages { (k : ℕ) → is_gone (superiors (state_of w.old).raw) slot k ≡ true → (state_of w.new).reserved k ≡ None }
    ensures cores { (k : ℕ) → is_gone (superiors (state_of w.old).raw) slot k ≡ true → core_at w.new.core k ≡ no_core }
    ensures frames { w.new.core.frames ≡ pages_swept (is_gone (superiors (state_of w.old).raw) slot) slots w.old.core.frames }
    ensures tidy { Tidy w.new }
{
    within(slot);
    w.jobs.tree();
    sweep(w, slot);
    w.jobs.tree();
    pass_on(&w.jobs, slot, &mut w.holders);
    w.pipes.leave_links(&w.jobs, slot);
    w.jobs.remove_tree(slot);
    forget_removed(&mut w.symbols, &w.jobs);
    w.settle_posts();
}

/// Gives up what the jobs of a tree have, and closes the channels on them.
#[tactic(auto, using(crate::proofs::RemovalLaws::swept_start))]
fn sweep(w: &mut World, root: Slot)
    requires tidy { Tidy w.old }
    ensures swept { Swept (is_gone (superiors (state_of w.old).raw) root) w.old w.new slots }
    ensures tidy { Tidy w.new }
{
    for slot in 0..SLOTS as u8 {
        sweep_slot(w, root, Slot::new(slot));
    }
}

/// Gives up what the job of this slot has if it is in the tree, and else closes its channels on
/// jobs of the tree.
fn sweep_slot(w: &mut World, root: Slot, slot: Slot)
    requires tidy { Tidy w.old }
    ensures swept { Sweeps (is_gone (superiors (state_of w.old).raw) root) w.old w.new slot }
    ensures tidy { Tidy w.new }
{
    w.jobs.tree();
    if is_removed(&w.jobs, root, slot.number()) {
        empty(w, slot);
    } else {
        shut_channels(w, root, slot);
    }
}

/// Closes the channels of a slot's job, and gives up its pages, its frame and its alarm.
fn empty(w: &mut World, slot: Slot)
    requires tidy { Tidy w.old }
    ensures empty { Empties w.old w.new slot }
    ensures tidy { Tidy w.new }
{
    shut_all(w, slot);
    drop_core(w, slot);
    w.leave_call(slot);
    w.put_alarm(slot, None);
}

/// Closes all channels of a slot's job: its drafts are dropped, and it reads no file any more.
#[tactic(auto, using(crate::proofs::RemovalLaws::closing_start))]
fn shut_all(w: &mut World, slot: Slot)
    requires tidy { Tidy w.old }
    ensures closed { Closes (state_of w.old) (state_of w.new) slot 16 }
    ensures pages { w.new.core.frames ≡ w.old.core.frames }
    ensures tidy { Tidy w.new }
{
    for n in 0..CHANNELS {
        w.shut(slot, n);
    }
}

/// Gives up all pages of a slot.
fn drop_core(w: &mut World, slot: Slot)
    ensures dropped { CoreBecomes w.old (with_frames w.new w.old.core.frames) slot no_core }
    ensures frames { w.new.core.frames ≡ frames_drop_all slot w.old.core.frames }
{
    w.core.drop_all(slot);
}

/// Closes the channels of a slot's job that are on jobs of a tree.
#[tactic(auto, using(crate::proofs::TidyLaws::becomes_pages))]
fn shut_channels(w: &mut World, root: Slot, slot: Slot)
    requires tidy { Tidy w.old }
    ensures row { state_of w.new ≡ in_raw (state_of w.old) slot (after_shut (in_tree (superior_at w.old.jobs) root)) }
    ensures pages { w.new.core.frames ≡ w.old.core.frames }
    ensures tidy { Tidy w.new }
{
    if let Some(mut job) = w.registers(slot) {
        leave_each(&w.jobs, root, &mut job.channels);
        w.put_registers(slot, job);
    }
}
