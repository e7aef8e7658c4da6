//! USRMEM and UCLOSE.
ghost use Rattle.std.specs.Prelude.{◌≡◌, Some};
ghost use Rattle.its_jobs.specs.Table.{job_at};
ghost use Rattle.its_frame.specs.declared.decision.Decision.TheVariants.{Ends};
ghost use Rattle.its_frame.specs.declared.name.CallName.TheVariants.{Usrmem};
ghost use Rattle.its_plain.specs.Call.Arguments.{has_input, input};
ghost use Rattle.its_plain.specs.Call.Usr.{set_word, uclose, usrmem, usrmem_on};
ghost use Rattle.its_plain.specs.Call.Decide.{call_named};
ghost use Rattle.its_plain.specs.Machine.{On};
ghost use Rattle.its_plain.specs.Machine.Own.{with_advance, exit_of};
ghost use Rattle.its_plain.specs.Call.Tests.{out};
ghost use Rattle.its_stepped.specs.Forest.{Forest};
ghost use Rattle.its_world.specs.World.{state_of};
ghost use Rattle.call_basic.specs.Seen.{seen_by};
ghost use Rattle.call_usr.specs.Targets.{Targets};

use arrayvec::ArrayVec;
use call_basic::{channel, fails, finishes, finishes_with, has_input, input, output};
use its_frame::{Change, Decision, error};
use its_records::{Ask, Channel, Job};
use its_word::{Slot, Word};
use its_world::World;

/// The highest address.
const HIGHEST: u64 = 0o777777;

/// USRMEM channel, address, optional new word: the output gets the word of the inferior, and then
/// the new one is stored. Errors 4, 5, 22; 5 if the channel has no leave to write, 16 if the word
/// is absent or cannot be stored.
#[tactic(auto, using(its_shared::proofs::NumberLaws::under), unfolding(its_plain::specs::Call::Usr::usrmem, its_plain::specs::Machine::View::view, its_world::specs::World::state_of))]
pub fn usrmem(w: &World, slot: Slot, job: &Job, ask: &Ask) -> Decision
    requires fail { ask.now.fail ≡ 0 }
    requires name { call_named ask.now.name ≡ Some Usrmem }
    requires job { job_at w.now.jobs slot ≡ Some job.now }
    requires forest { Forest (state_of w.now).raw }
    ensures { result ≡ usrmem (seen_by w.now slot job.now ask.now) ask.now }
{
    match channel(job, input(ask, 0)) {
        Channel::Closed => fails(job, ask, error::BAD_CHANNEL),
        Channel::Usr {
            slot: inferior,
            write,
            at,
        } => usrmem_on(w, slot, job, ask, inferior, write, at),
        _ => fails(job, ask, error::WRONG_DEVICE),
    }
}

/// USRMEM on this inferior: the output gets its word, and then the new one is stored.
#[tactic(auto, using(crate::proofs::OtherLaws::other_here), unfolding(its_plain::specs::Machine::View::view, its_world::specs::World::state_of))]
fn usrmem_on(
    w: &World,
    slot: Slot,
    job: &Job,
    ask: &Ask,
    inferior: u8,
    write: bool,
    at: u32,
) -> Decision
    requires { Targets w.now slot job.now ask.now inferior }
    ensures { result ≡ usrmem_on (seen_by w.now slot job.now ask.now) ask.now (On inferior write at) }
{
    let address = input(ask, 1).value();
    let new = has_input(ask, 2);
    if address > HIGHEST {
        return fails(job, ask, error::OUT_OF_RANGE);
    }
    if new && !write {
        return fails(job, ask, error::WRONG_DEVICE);
    }
    let address = address as u32;
    let Some(word) = w.core.word(Slot::new(inferior), address) else {
        return fails(job, ask, error::BAD_PAGE);
    };
    if new && !w.core.is_storable(Slot::new(inferior), address) {
        return fails(job, ask, error::BAD_PAGE);
    }
    set_word(job, ask, inferior, address, word)
}

/// The call finishes: the output gets a word of an inferior, and the new one is stored, if there is
/// one.
fn set_word(job: &Job, ask: &Ask, inferior: u8, at: u32, word: Word) -> Decision
    ensures { result ≡ Ends (record { items = set_word inferior at (input ask.now 2) (has_input ask.now 2) }) (record { items = out ask.now.outputs.items word }) (exit_of (with_advance 2 job.now)) }
{
    let stores = output(ask, word);
    if !has_input(ask, 2) {
        return finishes(job, stores);
    }
    let change = Change::Poke {
        slot: inferior,
        at,
        word: input(ask, 2),
    };
    finishes_with(job, change, stores)
}

/// UCLOSE channel: the inferior and all jobs below it are removed. Errors 4, 5.
#[tactic(auto, using(its_shared::proofs::NumberLaws::under), unfolding(its_plain::specs::Call::Usr::uclose, its_plain::specs::Machine::View::view, its_world::specs::World::state_of))]
pub fn uclose(w: &World, slot: Slot, job: &Job, ask: &Ask) -> Decision
    ensures { result ≡ uclose (seen_by w.now slot job.now ask.now) ask.now }
{
    match channel(job, input(ask, 0)) {
        Channel::Closed => fails(job, ask, error::BAD_CHANNEL),
        Channel::Usr { slot: inferior, .. } => {
            finishes_with(job, Change::Remove { slot: inferior }, ArrayVec::new())
        }
        _ => fails(job, ask, error::WRONG_DEVICE),
    }
}
