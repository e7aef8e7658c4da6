//! The removal of a job with all jobs below it: their channels, ends of links, pages, alarms,
//! symbols and consoles go with them.
ghost use Rattle.std.specs.Prelude.{◌≡◌, [], ℕ, true, false, None};
ghost use Rattle.its_word.specs.Limits.{slots};
ghost use Rattle.its_records.specs.declared.jobs.Channel.TheVariants.{Closed};
ghost use Rattle.its_jobs.specs.Table.{superior_at, in_tree};
ghost use Rattle.its_plain.specs.Machine.Change.{after_removal, superiors};
ghost use Rattle.its_shared.specs.Across.{channel_at};
ghost use Rattle.its_direct.specs.Effects.{Becomes};
ghost use Rattle.its_direct.specs.Lines.{SymbolsBecome};
ghost use Rattle.its_direct.specs.Plain.{machine_of, Tidy};
ghost use Rattle.its_direct.specs.Removal.{Bares, Closes, ClosesTree, Sweeps, Swept};

use crate::plain::Plain;
use its_records::CHANNELS;
use its_shared::{is_removed, leave_each, pass_on};
use its_word::{SLOTS, Slot, within};

impl Plain {
    /// Removes the job of a slot with all jobs below it: their drafts are dropped, and every
    /// channel on one of them is closed, and so is each end of a link at one of them. A console
    /// that one of them holds passes to the superior of the job, if it has one, else to nobody.
    pub(crate) fn remove(&mut self, root: Slot)
        requires tidy { Tidy self.old }
        ensures row { Becomes self.old self.new (after_removal (superiors (machine_of self.old)) root (machine_of self.old)) }
        ensures tidy { Tidy self.new }
    {
        within(root);
        self.jobs.tree();
        self.close_tree(root);
        self.strip(root);
    }

    /// Closes the channels of the jobs of a tree.
    #[tactic(auto, using(crate::proofs::RemovalLaws::tree_start, crate::proofs::RemovalLaws::tree_gone, crate::proofs::RemovalLaws::tree_kept, crate::proofs::RemovalLaws::tree_end))]
    fn close_tree(&mut self, root: Slot)
        requires tidy { Tidy self.old }
        ensures closed { ClosesTree (in_tree (superior_at self.old.jobs) root) self.old self.new slots }
        ensures tidy { Tidy self.new }
    {
        for slot in 0..SLOTS as u8 {
            let slot = Slot::new(slot);
            if is_removed(&self.jobs, root, slot.number()) {
                self.close_all(slot);
            }
        }
    }

    /// Closes all channels of a slot's job.
    #[tactic(auto, using(crate::proofs::RemovalLaws::all_start, crate::proofs::RemovalLaws::all_end))]
    fn close_all(&mut self, slot: Slot)
        requires tidy { Tidy self.old }
        ensures closed { Closes self.old self.new slot 16 }
        ensures tidy { Tidy self.new }
    {
        for n in 0..CHANNELS {
            self.shut(slot, n);
        }
    }

    /// Gives up what the jobs of a tree have, whose channels are closed, and removes them.
    fn strip(&mut self, root: Slot)
        requires closed { (k n : ℕ) → in_tree (superior_at self.old.jobs) root k ≡ true → channel_at self.old.jobs k n ≡ Closed }
        requires tidy { Tidy self.old }
        ensures row { Becomes self.old self.new (after_removal (superior_at self.old.jobs) root (machine_of self.old)) }
        ensures tidy { Tidy self.new }
    {
        self.jobs.tree();
        self.sweep(root);
        within(root);
        pass_on(&self.jobs, root, &mut self.holders);
        self.pipes.leave_links(&self.jobs, root);
        self.jobs.remove_tree(root);
    }

    /// Gives up pages, alarms and symbols of the jobs of a tree, and closes the channels of others
    /// on them.
    #[tactic(auto, using(crate::proofs::RemovalLaws::swept_start, crate::proofs::RemovalLaws::swept_end))]
    fn sweep(&mut self, root: Slot)
        ensures { Swept (in_tree (superior_at self.old.jobs) root) self.old self.new slots }
    {
        for slot in 0..SLOTS as u8 {
            self.sweep_slot(root, Slot::new(slot));
        }
    }

    /// Gives up pages, alarm and symbols of the job of this slot if it is in the tree, and else
    /// closes its channels on jobs of the tree.
    #[tactic(auto, using(crate::proofs::RemovalLaws::sweeps_gone))]
    fn sweep_slot(&mut self, root: Slot, slot: Slot)
        ensures { Sweeps (in_tree (superior_at self.old.jobs) root) self.old self.new slot }
    {
        if is_removed(&self.jobs, root, slot.number()) {
            self.bare(slot);
        } else {
            self.leave_channels(root, slot);
        }
    }

    /// Gives up the pages, the alarm and the symbols of a slot.
    fn bare(&mut self, slot: Slot)
        ensures { Bares self.old self.new slot }
    {
        self.core.drop_all(slot);
        self.put_alarm(slot, None);
        self.forget(slot);
    }

    /// Gives up the symbols of a slot.
    #[tactic(auto, using(its_shared::proofs::OpenLaws::list_here))]
    fn forget(&mut self, slot: Slot)
        ensures { SymbolsBecome self.old self.new slot [] }
    {
        self.symbols[slot.index()].clear();
    }

    /// Closes the channels of a slot's job that are on jobs of a tree.
    fn leave_channels(&mut self, root: Slot, slot: Slot)
        requires stays { in_tree (superior_at self.old.jobs) root slot ≡ false }
        ensures { Sweeps (in_tree (superior_at self.old.jobs) root) self.old self.new slot }
    {
        if let Some(mut job) = self.job(slot) {
            leave_each(&self.jobs, root, &mut job.channels);
            self.put_job(slot, job);
        }
    }
}
