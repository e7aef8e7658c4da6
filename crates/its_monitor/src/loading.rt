//! LOAD: a new job with its superior and its console.
ghost use Rattle.std.specs.Prelude.{◌≡◌, Some, None, Ok, IfOk, OnErr, IfErr};
ghost use Rattle.its_records.specs.Tree.{least_free};
ghost use Rattle.its_jobs.specs.Table.{job_at};
ghost use Rattle.its_plain.specs.Operator.Jobs.{after_load, with_holder};
ghost use Rattle.its_stepped.specs.State.{plain};
ghost use Rattle.its_world.specs.World.{state_of, plain_of};
ghost use Rattle.its_monitor.specs.Kept.{Kept, Loads, Alters, Refused};
ghost use Rattle.its_world.specs.Made.{JobMade};

use super::monitor::Monitor;
use its_jobs::NoSlot;
use its_records::Refusal;
use its_word::{ConsoleNumber, Slot, Word};
use its_world::World;

impl Monitor {
    /// LOAD: makes a stopped job with these names and this console in the least empty slot, which
    /// it answers. It becomes the holder of its console, if that has none. Full if there are as
    /// many jobs as there can be, 64, or 96 in version 2.
    #[tactic(auto, using(crate::proofs::StartLaws::load_done, crate::proofs::StartLaws::load_plain, crate::proofs::StartLaws::load_kept, crate::proofs::StartLaws::load_full))]
    pub fn load_job(
        &mut self,
        u: Word,
        j: Word,
        console: Option<ConsoleNumber>,
    ) -> Result<Slot, Refusal>
        requires kept { Kept self.old.world }
        ensures done { IfOk result (λ s. Loads (state_of self.old.world) (state_of self.new.world) (after_load (state_of self.old.world).raw u j console) s) }
        ensures plain { IfOk result (λ s. after_load (plain_of self.old.world) u j console ≡ Ok (plain_of self.new.world, s)) }
        ensures refused { IfErr result (λ e. Refused (state_of self.old.world) (state_of self.old.world) (λ m. after_load m u j console) e) }
        ensures same { OnErr result (self.new ≡ self.old) }
        ensures core { self.new.world.core ≡ self.old.world.core }
        ensures kept { Kept self.new.world }
    {
        let world = &mut self.world;
        match make(world, u, j, ConsoleNumber::numbered(&console)) {
            Ok(slot) => {
                hold_console(world, slot, console);
                Ok(slot)
            }
            Err(NoSlot) => Err(Refusal::Full),
        }
    }
}

/// Makes a job in the least free slot.
fn make(w: &mut World, u: Word, j: Word, console: Option<u8>) -> Result<Slot, NoSlot>
    ensures slot { IfOk result (λ s. least_free w.old.jobs.limit (job_at w.old.jobs) ≡ Some s) }
    ensures made { IfOk result (λ s. JobMade w.old w.new s u j None console) }
    ensures full { OnErr result (least_free w.old.jobs.limit (job_at w.old.jobs) ≡ None) }
    ensures same { OnErr result (w.new ≡ w.old) }
{
    match w.jobs.create(u, j, None, console) {
        Ok(slot) => Ok(slot),
        Err(NoSlot) => Err(NoSlot),
    }
}

/// Makes the job of a slot the holder of its console, if that has none.
#[tactic(auto, using(crate::proofs::StartLaws::console_some, crate::proofs::StartLaws::console_none))]
fn hold_console(w: &mut World, slot: Slot, console: Option<ConsoleNumber>)
    ensures { Alters w.old w.new (with_holder (state_of w.old).raw slot console) }
{
    match console {
        Some(c) => hold_free(w, slot, c),
        None => {}
    }
}

/// Makes the job of a slot the holder of this console, if it has none.
#[tactic(auto, using(crate::proofs::StartLaws::console_held, crate::proofs::StartLaws::console_given))]
fn hold_free(w: &mut World, slot: Slot, c: ConsoleNumber)
    ensures { Alters w.old w.new (with_holder (state_of w.old).raw slot (Some c)) }
{
    let holder = w.holders[c.index()];
    match holder {
        Some(_) => {}
        None => w.hold(c, Some(slot.number())),
    }
}
