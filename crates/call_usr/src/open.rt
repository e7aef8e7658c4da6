//! OPEN of USR: an inferior by its names, which is made if it is to be written and there is none.
ghost use Rattle.std.specs.Prelude.{◌≡◌, ◌==◌, ◌&&◌, [], ◌∷◌, true, unwrap_or};
ghost use Rattle.its_records.specs.Tree.{least_free};
ghost use Rattle.its_frame.specs.declared.change.Change.TheVariants.{Make, Open};
ghost use Rattle.its_frame.specs.declared.change.Opened.TheVariants.{Usr};
ghost use Rattle.its_frame.specs.declared.decision.Decision.TheVariants.{Ends};
ghost use Rattle.its_plain.specs.Call.Arguments.{input};
ghost use Rattle.its_plain.specs.Call.Basic.{is_superior};
ghost use Rattle.its_plain.specs.Call.Usr.{any_named, has_names, inferior_named, makes_job, opens_job, opens_usr, usr_device};
ghost use Rattle.its_plain.specs.Machine.Own.{with_advance, exit_of};
ghost use Rattle.call_basic.specs.Seen.{seen_by, outline_at};

use arrayvec::ArrayVec;
use call_basic::{control, exit_after, fails, finishes_with, input, is_free, is_superior};
use its_frame::{Change, Decision, Opened, error};
use its_plain::USR;
use its_records::{Ask, Job};
use its_word::{SLOTS, Slot, Word};
use its_world::World;

/// OPEN channel, USR, user name, job name: the caller's inferior with these names. Errors 4, 22; 13
/// if they are those of another job, 12 for input if no job has them, 14 if all slots below the
/// limit have jobs.
#[tactic(auto, using(call_basic::proofs::ChannelLaws::free), unfolding(its_plain::specs::Call::Usr::opens_usr, its_plain::specs::Machine::View::view, its_world::specs::World::state_of))]
pub fn open_usr(w: &World, slot: Slot, job: &Job, ask: &Ask) -> Decision
    ensures { result ≡ opens_usr (seen_by w.now slot job.now ask.now) ask.now }
{
    let number = input(ask, 0);
    let control = control(ask);
    if !is_free(job, number) {
        return fails(job, ask, error::BAD_CHANNEL);
    }
    if control > 1 {
        return fails(job, ask, error::OUT_OF_RANGE);
    }
    opens_job(w, slot, job, ask, number.value() as u8, control == 1)
}

/// The inferior with the names of OPEN is opened, or made.
#[tactic(auto, unfolding(its_plain::specs::Machine::View::view, its_world::specs::World::state_of))]
fn opens_job(w: &World, slot: Slot, job: &Job, ask: &Ask, n: u8, write: bool) -> Decision
    ensures { result ≡ opens_job (seen_by w.now slot job.now ask.now) ask.now n (input ask.now 2) (input ask.now 3) write (inferior_named (seen_by w.now slot job.now ask.now) (input ask.now 2) (input ask.now 3)) }
{
    let (u, x) = (input(ask, 2), input(ask, 3));
    if let Some(inferior) = inferior_named(w, slot, job, ask, u, x) {
        let on = Opened::Usr {
            slot: inferior,
            write,
        };
        return finishes_with(job, Change::Open { channel: n, on }, ArrayVec::new());
    }
    if any_named(w, slot, job, ask, u, x) {
        return fails(job, ask, error::NOT_INFERIOR);
    }
    if !write {
        return fails(job, ask, error::NO_JOB);
    }
    makes_job(w, slot, job, ask, n, u, x)
}

/// An inferior with these names is made in the least free slot, and opened.
#[tactic(auto, unfolding(its_plain::specs::Machine::View::view, its_world::specs::World::state_of))]
fn makes_job(w: &World, slot: Slot, job: &Job, ask: &Ask, n: u8, u: Word, x: Word) -> Decision
    ensures { result ≡ makes_job (seen_by w.now slot job.now ask.now) ask.now n u x (least_free (seen_by w.now slot job.now ask.now).limit (seen_by w.now slot job.now ask.now).outlines) }
{
    match w.jobs.free() {
        Some(free) => made(job, n, free.number(), u, x),
        None => fails(job, ask, error::NO_SLOT),
    }
}

/// The call finishes: a job is made in a slot, and a channel is opened on it for output.
fn made(job: &Job, n: u8, slot: u8, u: Word, x: Word) -> Decision
    ensures { result ≡ Ends (record { items = Make slot u x ∷ Open n (Usr slot true) ∷ [] }) (record { items = [] }) (exit_of (with_advance 2 job.now)) }
{
    let make = Change::Make { slot, u, j: x };
    let open = Change::Open {
        channel: n,
        on: Opened::Usr { slot, write: true },
    };
    Decision::Ends {
        changes: ArrayVec::from([make, open]),
        stores: ArrayVec::new(),
        exit: exit_after(job, 2),
    }
}

/// The least slot whose job is an inferior of the caller with these names.
#[tactic(auto, unfolding(its_plain::specs::Machine::View::view, its_world::specs::World::state_of))]
fn inferior_named(w: &World, slot: Slot, job: &Job, ask: &Ask, u: Word, x: Word) -> Option<u8>
    ensures { result ≡ inferior_named (seen_by w.now slot job.now ask.now) u x }
{
    (0..SLOTS as u8).find(|k| is_named_inferior(w, slot, *k, u, x))
}

/// Whether the job of a slot is an inferior of the caller with these names.
fn is_named_inferior(w: &World, slot: Slot, inferior: u8, u: Word, x: Word) -> bool
    ensures { result ≡ (has_names u x (outline_at w.now inferior) && is_superior slot (outline_at w.now inferior)) }
{
    has_names(w, inferior, u, x) && is_superior(w, slot, inferior)
}

/// Whether any job has these names.
#[tactic(auto, unfolding(its_plain::specs::Machine::View::view, its_world::specs::World::state_of))]
fn any_named(w: &World, slot: Slot, job: &Job, ask: &Ask, u: Word, x: Word) -> bool
    ensures { result ≡ any_named (seen_by w.now slot job.now ask.now) u x }
{
    (0..SLOTS as u8).any(|k| has_names(w, k, u, x))
}

/// Whether the job of a slot has these names.
fn has_names(w: &World, slot: u8, u: Word, x: Word) -> bool
    ensures { result ≡ has_names u x (outline_at w.now slot) }
{
    match w.jobs.numbered(slot) {
        Some(job) => job.uname == u && job.jname == x,
        None => false,
    }
}

/// Whether the device of OPEN is USR.
pub fn is_usr(ask: &Ask) -> bool
    ensures { result ≡ (input ask.now 1 == usr_device) }
{
    input(ask, 1).value() == USR
}
