//! What a call decides, carried out: its changes in their order, then its stores, then its
//! registers.
ghost use Rattle.std.specs.Prelude.{◌≡◌, ◌<◌, ◌^◌, ◌∷◌, None};
ghost use Rattle.its_word.specs.Stores.{first_fault};
ghost use Rattle.its_frame.specs.declared.change.Change.TheVariants.{Remove};
ghost use Rattle.its_plain.specs.Call.Step.{after_end};
ghost use Rattle.its_plain.specs.Machine.Change.{effect, effects, in_job};
ghost use Rattle.its_plain.specs.Machine.{core_of};
ghost use Rattle.its_plain.specs.Machine.Own.{after_leave};
ghost use Rattle.its_shared.specs.Can.{CanMake, CanMakeAll, HasJob};
ghost use Rattle.its_direct.specs.Effects.{Becomes};
ghost use Rattle.its_direct.specs.Plain.{machine_of, Tidy};

use crate::plain::Plain;
use its_frame::Change;
use its_records::Exit;
use its_word::{ConsoleNumber, Slot, Store};

impl Plain {
    /// Makes the changes of a call of slot's job, in their order.
    #[tactic(auto, using(crate::proofs::ActLaws::applying_start, crate::proofs::ActLaws::applying_can, crate::proofs::ActLaws::applying_end))]
    pub(crate) fn apply(&mut self, slot: Slot, changes: &[Change])
        requires can { CanMakeAll changes.now slot (machine_of self.old) }
        requires tidy { Tidy self.old }
        ensures row { Becomes self.old self.new (effects changes.now slot (machine_of self.old)) }
        ensures tidy { Tidy self.new }
    {
        for change in changes {
            self.make_change(slot, change);
        }
    }

    /// Makes one change of a call of slot's job.
    #[tactic(auto, unfolding(its_plain::specs::Machine::Change::effect))]
    fn make_change(&mut self, slot: Slot, change: &Change)
        requires can { CanMake change.now slot (machine_of self.old) }
        requires tidy { Tidy self.old }
        ensures row { Becomes self.old self.new (effect change.now slot (machine_of self.old)) }
        ensures tidy { Tidy self.new }
    {
        match change {
            Change::Open { channel, on } => self.open_channel(slot, *channel, *on),
            Change::Shut { channel } => self.shut(slot, *channel),
            Change::Move { channel, at } => self.move_to(slot, *channel, *at),
            Change::Append { channel, word } => self.append(slot, *channel, *word),
            Change::Close { channel } => self.close(slot, *channel),
            Change::Take { console } => self.take(ConsoleNumber::new(*console)),
            Change::Put { console, byte } => self.put(ConsoleNumber::new(*console), *byte),
            Change::Hold { console, slot: s } => self.give(ConsoleNumber::new(*console), *s),
            Change::Poke { slot: s, at, word } => self.poke(Slot::new(*s), *at, *word),
            Change::Set {
                slot: s,
                variable,
                value,
            } => self.set(Slot::new(*s), *variable, *value),
            Change::Map { slot: s, page } => self.map(Slot::new(*s), *page),
            Change::Unmap { slot: s, page } => self.unmap(Slot::new(*s), *page),
            Change::Protect {
                slot: s,
                page,
                writable,
            } => self.protect(Slot::new(*s), *page, *writable),
            Change::Make { slot: s, u, j } => self.make_inferior(slot, *s, *u, *j),
            Change::Remove { slot: s } => self.remove(Slot::new(*s)),
            Change::Inform { slot: s } => self.tell(Slot::new(*s)),
            Change::Arm { alarm } => self.arm(slot, *alarm),
            Change::Join {
                channel,
                link,
                write,
                x,
                y,
            } => self.join(slot, *channel, *link, *write, *x, *y),
            Change::CloseEnd {
                channel,
                link,
                write,
            } => self.close_link(slot, *channel, *link, *write),
            Change::Send { link, word } => self.send(*link, *word),
            Change::Receive { link } => self.receive(*link),
            Change::Delete { d, x, y } => self.delete(*d, *x, *y),
            Change::Rename {
                d,
                x,
                y,
                new_x,
                new_y,
            } => self.rename(*d, *x, *y, *new_x, *new_y),
        }
    }

    /// Carries out the end of a call of slot's job: its changes, then stores into its own core,
    /// then its registers.
    pub(crate) fn finish(&mut self, slot: Slot, changes: &[Change], stores: &[Store], exit: Exit)
        requires can { CanMakeAll changes.now slot (machine_of self.old) }
        requires job { HasJob (effects changes.now slot (machine_of self.old)) slot }
        requires stores { first_fault (core_of ((effects changes.now slot (machine_of self.old)).jobs slot)) stores.now ≡ None }
        requires pc { exit.pc < 2 ^ 18 }
        requires tidy { Tidy self.old }
        ensures row { Becomes self.old self.new (in_job (effects changes.now slot (machine_of self.old)) slot (after_end stores.now (after_leave exit))) }
        ensures tidy { Tidy self.new }
    {
        self.apply(slot, changes);
        self.store(slot, stores);
        self.leave(slot, exit);
    }

    /// Carries out the removal of the caller, with all jobs below it; then these changes.
    pub(crate) fn depart(&mut self, slot: Slot, changes: &[Change])
        requires can { CanMakeAll changes.now slot (effect (Remove slot) slot (machine_of self.old)) }
        requires tidy { Tidy self.old }
        ensures row { Becomes self.old self.new (effects (Remove slot ∷ changes.now) slot (machine_of self.old)) }
        ensures tidy { Tidy self.new }
    {
        self.remove(slot);
        self.apply(slot, changes);
    }
}
