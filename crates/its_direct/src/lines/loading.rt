//! LOAD: a new job, and its console.
ghost use Rattle.std.specs.Prelude.{◌≡◌, ◌<◌, Some, None, Ok, Err, IfOk, IfErr, OnErr, length, slice_set};
ghost use Rattle.its_records.specs.Tree.{least_free};
ghost use Rattle.its_plain.specs.Machine.{limit, with_new};
ghost use Rattle.its_plain.specs.Operator.Jobs.{after_load, new_job, with_holder};
ghost use Rattle.its_shared.specs.Parts.{holder_at};
ghost use Rattle.its_direct.specs.Plain.{machine_of, Tidy};
ghost use Rattle.its_records.specs.Refusals.{reason_of};
ghost use Rattle.its_direct.specs.Lines.{Loads};

use crate::plain::{Plain, Spot};
use its_jobs::NoSlot;
use its_records::Refusal;
use its_word::{ConsoleNumber, Slot, Word, within};

impl Plain {
    /// LOAD: makes a stopped job with these names and this console in the least empty slot, which
    /// it answers and whose LOAD block begins. It becomes the holder of its console, if that has
    /// none. Full if all slots below the limit have a job.
    #[tactic(auto, using(crate::proofs::LoadLaws::load_full))]
    pub fn load(
        &mut self,
        u: Word,
        j: Word,
        console: Option<ConsoleNumber>,
    ) -> Result<Slot, Refusal>
        requires tidy { Tidy self.old }
        ensures done { IfOk result (λ s. Loads self.old self.new s (after_load (machine_of self.old) u j console)) }
        ensures refused { IfErr result (λ e. after_load (machine_of self.old) u j console ≡ Err (reason_of e)) }
        ensures same { OnErr result (self.new ≡ self.old) }
        ensures tidy { Tidy self.new }
    {
        match self.make(u, j, ConsoleNumber::numbered(&console)) {
            Ok(slot) => {
                within(slot);
                self.hold_console(slot, console);
                self.set_place(Spot::Load { slot });
                self.touch_only(slot);
                Ok(slot)
            }
            Err(NoSlot) => Err(Refusal::Full),
        }
    }

    /// Makes a job without superior in the least free slot.
    fn make(&mut self, u: Word, j: Word, console: Option<u8>) -> Result<Slot, NoSlot>
        requires tidy { Tidy self.old }
        ensures slot { IfOk result (λ s. least_free (limit (machine_of self.old)) (machine_of self.old).jobs ≡ Some s) }
        ensures made { IfOk result (λ s. machine_of self.new ≡ with_new (machine_of self.old) s (new_job u j console)) }
        ensures full { OnErr result (least_free (limit (machine_of self.old)) (machine_of self.old).jobs ≡ None) }
        ensures same { OnErr result (self.new ≡ self.old) }
        ensures tidy { Tidy self.new }
    {
        match self.jobs.create(u, j, None, console) {
            Ok(slot) => Ok(slot),
            Err(NoSlot) => Err(NoSlot),
        }
    }

    /// Makes the job of a slot the holder of its console, if that has none.
    #[tactic(auto, using(crate::proofs::LoadLaws::console_some, crate::proofs::LoadLaws::console_none))]
    fn hold_console(&mut self, slot: Slot, console: Option<ConsoleNumber>)
        requires tidy { Tidy self.old }
        ensures row { machine_of self.new ≡ with_holder (machine_of self.old) slot console }
        ensures tidy { Tidy self.new }
    {
        match console {
            Some(c) => self.hold(slot, c),
            None => {}
        }
    }

    /// Makes the job of a slot the holder of this console, if that has none.
    #[tactic(auto, using(crate::proofs::LoadLaws::held_keeps, crate::proofs::LoadLaws::held_given, crate::proofs::LoadLaws::holder_tidy))]
    fn hold(&mut self, slot: Slot, c: ConsoleNumber)
        requires tidy { Tidy self.old }
        ensures row { machine_of self.new ≡ with_holder (machine_of self.old) slot (Some c) }
        ensures tidy { Tidy self.new }
    {
        match self.holder(c) {
            Some(_) => {}
            None => self.put_holder(slot.number(), c),
        }
    }

    /// The slot of the job that holds a console.
    pub(crate) fn holder(&self, c: ConsoleNumber) -> Option<u8>
        ensures { result ≡ holder_at self.now.holders c }
    {
        self.holders[c.index()]
    }

    /// Another place.
    pub(crate) fn set_place(&mut self, place: Spot)
        ensures { self.new ≡ record self.old { place = place } }
    {
        self.place = place;
    }

    /// Makes a slot's job the holder of a console.
    pub(crate) fn put_holder(&mut self, slot: u8, c: ConsoleNumber)
        ensures holders { self.new ≡ record self.old { holders = slice_set self.old.holders c (Some slot) } }
        ensures within { c < length self.old.holders }
    {
        self.holders[c.index()] = Some(slot);
    }
}
