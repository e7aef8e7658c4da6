//! Calls in progress, which are changed in their places. After each change the slot is on the wait
//! list to which it belongs.
ghost use Rattle.std.specs.Prelude.{◌≡◌, ◌<◌, ◌≤◌, ◌∷◌, [], true, Some, None, is_some, IfSome, length, slice_index_or};
ghost use Rattle.its_in_call.specs.Calls.{after_fetch, after_parse, after_step, ending_in, entered_in, fault_of, frame_seen, gone_to, parsed_in, request, request_in};
ghost use Rattle.its_core.specs.Cores.{core_at};
ghost use Rattle.its_jobs.specs.Table.{job_at};
ghost use Rattle.its_plain.specs.Call.Arguments.{with_new_values};
ghost use Rattle.its_plain.specs.Call.Footprint.{SiteFits};
ghost use Rattle.its_stepped.specs.State.{entered, ending};
ghost use Rattle.its_stepped.specs.TwoParts.{fetch_of, parse_of};
ghost use Rattle.its_stepped.specs.Unwind.{due};
ghost use Rattle.its_world.specs.Filed.{SlotWritten};
ghost use Rattle.its_world.specs.World.{FrameBecomes, call_in};

use super::world::World;
use arrayvec::ArrayVec;
use its_in_call::{Next, View};
use its_records::{Owed, Site};
use its_word::{Fault, Slot, Word};

impl World {
    /// The frame of a slot.
    #[inline]
    pub fn frame(&self, slot: Slot) -> View<'_>
        ensures { frame_seen result ≡ call_in self.now slot }
    {
        self.frames[slot.index()].view()
    }

    /// The job of a slot enters the monitor.
    pub fn enter(&mut self, slot: Slot, site: Site)
        ensures { FrameBecomes self.old self.new slot (Some (entered site)) }
    {
        self.write_enter(slot, site);
        self.refile(slot);
    }

    /// The job of a slot enters the monitor; it keeps its place on the wait lists.
    #[tactic(auto, using(crate::proofs::WorldLaws::frame_written))]
    fn write_enter(&mut self, slot: Slot, site: Site)
        ensures { SlotWritten self.old self.new slot (job_at self.old.jobs slot) (Some (entered site)) }
    {
        self.frames[slot.index()].enter(site);
    }

    /// The job of a slot enters the monitor at a PC; no other word was read on the way, and nothing
    /// of the budget is used.
    pub fn enter_near(&mut self, slot: Slot, pc: u32, e: u32, channel: Option<u8>)
        ensures { FrameBecomes self.old self.new slot (Some (entered (record { pc = pc; e = e; channel = channel; used = 0; decode = record { items = pc ∷ [] } }))) }
    {
        self.write_enter_near(slot, pc, e, channel);
        self.refile(slot);
    }

    /// The job of a slot enters the monitor at a PC; it keeps its place on the wait lists.
    #[tactic(auto, using(crate::proofs::WorldLaws::frame_written))]
    fn write_enter_near(&mut self, slot: Slot, pc: u32, e: u32, channel: Option<u8>)
        ensures { SlotWritten self.old self.new slot (job_at self.old.jobs slot) (Some (entered (record { pc = pc; e = e; channel = channel; used = 0; decode = record { items = pc ∷ [] } }))) }
    {
        self.frames[slot.index()].enter_near(pc, e, channel);
    }

    /// The job of a slot is in user mode again.
    pub fn leave_call(&mut self, slot: Slot)
        ensures { FrameBecomes self.old self.new slot None }
    {
        self.write_leave_call(slot);
        self.refile(slot);
    }

    /// The job of a slot is in user mode again; it keeps its place on the wait lists.
    #[tactic(auto, using(crate::proofs::WorldLaws::frame_written))]
    fn write_leave_call(&mut self, slot: Slot)
        ensures { SlotWritten self.old self.new slot (job_at self.old.jobs slot) None }
    {
        self.frames[slot.index()].leave();
    }

    /// The block of the call of a slot is read. At a fault the job is in user mode again.
    pub fn parse(&mut self, slot: Slot) -> Result<(), Fault>
        requires entered { is_some (entered_in (call_in self.old slot)) ≡ true }
        requires fits { IfSome (entered_in (call_in self.old slot)) SiteFits }
        ensures written { IfSome (entered_in (call_in self.old slot)) (λ s. FrameBecomes self.old self.new slot (after_parse s (parse_of (core_at self.old.core slot) s))) }
        ensures fault { IfSome (entered_in (call_in self.old slot)) (λ s. fault_of result ≡ fault_of (parse_of (core_at self.old.core slot) s)) }
    {
        let answer = self.write_parse(slot);
        self.refile(slot);
        answer
    }

    /// The block of the call of a slot is read; it keeps its place on the wait lists.
    #[tactic(auto, using(crate::proofs::WorldLaws::frame_written))]
    fn write_parse(&mut self, slot: Slot) -> Result<(), Fault>
        requires entered { is_some (entered_in (call_in self.old slot)) ≡ true }
        requires fits { IfSome (entered_in (call_in self.old slot)) SiteFits }
        ensures written { IfSome (entered_in (call_in self.old slot)) (λ s. SlotWritten self.old self.new slot (job_at self.old.jobs slot) (after_parse s (parse_of (core_at self.old.core slot) s))) }
        ensures fault { IfSome (entered_in (call_in self.old slot)) (λ s. fault_of result ≡ fault_of (parse_of (core_at self.old.core slot) s)) }
    {
        self.frames[slot.index()].parse(&self.core, slot)
    }

    /// The arguments of the call of a slot are found, and their values are taken. At a fault the
    /// job is in user mode again.
    pub fn fetch(&mut self, slot: Slot) -> Result<(), Fault>
        requires parsed { is_some (parsed_in (call_in self.old slot)) ≡ true }
        requires fits { IfSome (parsed_in (call_in self.old slot)) (λ f. SiteFits f.site) }
        requires words { IfSome (parsed_in (call_in self.old slot)) (λ f. f.site.channel ≡ None → 2 ≤ length f.block.items) }
        ensures written { IfSome (parsed_in (call_in self.old slot)) (λ f. FrameBecomes self.old self.new slot (after_fetch f.site (fetch_of (core_at self.old.core slot) f.site f.block))) }
        ensures fault { IfSome (parsed_in (call_in self.old slot)) (λ f. fault_of result ≡ fault_of (fetch_of (core_at self.old.core slot) f.site f.block)) }
    {
        let answer = self.write_fetch(slot);
        self.refile(slot);
        answer
    }

    /// The arguments of the call of a slot are found, and their values are taken; it keeps its
    /// place on the wait lists.
    #[tactic(auto, using(crate::proofs::WorldLaws::frame_written))]
    fn write_fetch(&mut self, slot: Slot) -> Result<(), Fault>
        requires parsed { is_some (parsed_in (call_in self.old slot)) ≡ true }
        requires fits { IfSome (parsed_in (call_in self.old slot)) (λ f. SiteFits f.site) }
        requires words { IfSome (parsed_in (call_in self.old slot)) (λ f. f.site.channel ≡ None → 2 ≤ length f.block.items) }
        ensures written { IfSome (parsed_in (call_in self.old slot)) (λ f. SlotWritten self.old self.new slot (job_at self.old.jobs slot) (after_fetch f.site (fetch_of (core_at self.old.core slot) f.site f.block))) }
        ensures fault { IfSome (parsed_in (call_in self.old slot)) (λ f. fault_of result ≡ fault_of (fetch_of (core_at self.old.core slot) f.site f.block)) }
    {
        self.frames[slot.index()].fetch(&self.core, slot)
    }

    /// The call of a slot goes on.
    pub fn go_to(&mut self, slot: Slot, next: Next)
        requires request { is_some (request_in (call_in self.old slot)) ≡ true }
        ensures { IfSome (request_in (call_in self.old slot)) (λ r. FrameBecomes self.old self.new slot (Some (gone_to next r))) }
    {
        self.write_go_to(slot, next);
        self.refile(slot);
    }

    /// The call of a slot goes on; it keeps its place on the wait lists.
    #[tactic(auto, using(crate::proofs::WorldLaws::frame_written))]
    fn write_go_to(&mut self, slot: Slot, next: Next)
        requires request { is_some (request_in (call_in self.old slot)) ≡ true }
        ensures { IfSome (request_in (call_in self.old slot)) (λ r. SlotWritten self.old self.new slot (job_at self.old.jobs slot) (Some (gone_to next r))) }
    {
        self.frames[slot.index()].go_to(next);
    }

    /// A part of the call of a slot is done: its last inputs get new values, and it goes on.
    pub fn go_on(&mut self, slot: Slot, values: &[Word], next: Next)
        requires request { is_some (request_in (call_in self.old slot)) ≡ true }
        ensures { IfSome (request_in (call_in self.old slot)) (λ r. FrameBecomes self.old self.new slot (Some (gone_to next (request r.site (with_new_values r.ask values.now))))) }
    {
        self.write_go_on(slot, values, next);
        self.refile(slot);
    }

    /// A part of the call of a slot is done: its last inputs get new values, and it goes on; it
    /// keeps its place on the wait lists.
    #[tactic(auto, using(crate::proofs::WorldLaws::frame_written))]
    fn write_go_on(&mut self, slot: Slot, values: &[Word], next: Next)
        requires request { is_some (request_in (call_in self.old slot)) ≡ true }
        ensures { IfSome (request_in (call_in self.old slot)) (λ r. SlotWritten self.old self.new slot (job_at self.old.jobs slot) (Some (gone_to next (request r.site (with_new_values r.ask values.now))))) }
    {
        self.frames[slot.index()].go_on(values, next);
    }

    /// The call of a slot is decided, and these steps are pending, in order.
    pub fn end(&mut self, slot: Slot, owed: ArrayVec<Owed, 4>)
        requires request { is_some (request_in (call_in self.old slot)) ≡ true }
        ensures { IfSome (request_in (call_in self.old slot)) (λ r. FrameBecomes self.old self.new slot (Some (ending r.site r.ask owed.items))) }
    {
        self.write_end(slot, owed);
        self.refile(slot);
    }

    /// The call of a slot is decided, and these steps are pending, in order; it keeps its place on
    /// the wait lists.
    #[tactic(auto, using(crate::proofs::WorldLaws::frame_written))]
    fn write_end(&mut self, slot: Slot, owed: ArrayVec<Owed, 4>)
        requires request { is_some (request_in (call_in self.old slot)) ≡ true }
        ensures { IfSome (request_in (call_in self.old slot)) (λ r. SlotWritten self.old self.new slot (job_at self.old.jobs slot) (Some (ending r.site r.ask owed.items))) }
    {
        self.frames[slot.index()].end(owed);
    }

    /// Takes the first pending step of the call of a slot, which has ended. File steps at the head
    /// are passed over if the close that is marked is not the call's own (`mine`).
    pub fn next_step(&mut self, slot: Slot, mine: bool) -> Owed
        requires ending { is_some (ending_in (call_in self.old slot)) ≡ true }
        requires some { IfSome (ending_in (call_in self.old slot)) (λ f. 0 < length (due mine f.owed.items)) }
        ensures written { IfSome (ending_in (call_in self.old slot)) (λ f. FrameBecomes self.old self.new slot (Some (after_step mine f))) }
        ensures step { IfSome (ending_in (call_in self.old slot)) (λ f. result ≡ slice_index_or (due mine f.owed.items) 0 result) }
    {
        let answer = self.write_next_step(slot, mine);
        self.refile(slot);
        answer
    }

    /// Takes the first pending step of the call of a slot, which has ended; it keeps its place on
    /// the wait lists.
    #[tactic(auto, using(crate::proofs::WorldLaws::frame_written))]
    fn write_next_step(&mut self, slot: Slot, mine: bool) -> Owed
        requires ending { is_some (ending_in (call_in self.old slot)) ≡ true }
        requires some { IfSome (ending_in (call_in self.old slot)) (λ f. 0 < length (due mine f.owed.items)) }
        ensures written { IfSome (ending_in (call_in self.old slot)) (λ f. SlotWritten self.old self.new slot (job_at self.old.jobs slot) (Some (after_step mine f))) }
        ensures step { IfSome (ending_in (call_in self.old slot)) (λ f. result ≡ slice_index_or (due mine f.owed.items) 0 result) }
    {
        self.frames[slot.index()].next_step(mine)
    }
}
