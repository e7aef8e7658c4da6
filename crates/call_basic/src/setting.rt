//! The call USRVAR: a variable of the job itself, or of another one.

ghost use Rattle.std.specs.Prelude.{◌≡◌, Some};
ghost use Rattle.its_frame.specs.declared.name.CallName.TheVariants.{Usrvar};
ghost use Rattle.its_plain.specs.Call.Arguments.{has_input, input};
ghost use Rattle.its_frame.specs.Variables.{variable_named};
ghost use Rattle.its_plain.specs.Call.Basic.{other_variable, own_variable, set_other, set_own, usrvar, value_of_other};
ghost use Rattle.its_plain.specs.Call.Decide.{call_named as call_named_by, target};
ghost use Rattle.its_plain.specs.Machine.Own.{with_advance, exit_of};
ghost use Rattle.its_frame.specs.declared.decision.Decision.TheVariants.{Ends};
ghost use Rattle.its_world.specs.World.{raw_in};
ghost use Rattle.call_basic.specs.Seen.{raw_with, seen_by};

use super::arguments::{has_input, input};
use super::ends::{ends, fails, finishes, finishes_with, output};
use super::party::{channel, is_oneself};
use super::variables::{by_oneself, by_superior, exit_with, variable_of};
use arrayvec::ArrayVec;
use its_frame::{Change, Decision, Store, Variable, error};
use its_records::{Ask, Channel, Job};
use its_word::{Slot, Word};
use its_world::World;

/// USRVAR job, name, optional new value: the output gets the value before, and then the new value
/// is set. Errors 4 if the channel is closed, 5 if it is on no job, 22 if no variable has the name,
/// 5 if the channel has no leave to write, and 22 if the variable cannot be set so.
#[tactic(auto, using(crate::proofs::Groups::usrvar_laws), unfolding(its_plain::specs::Call::Basic::usrvar, its_plain::specs::Machine::View::view, its_world::specs::World::state_of))]
pub fn usrvar(w: &World, slot: Slot, job: &Job, ask: &Ask) -> Decision
    requires fail { ask.now.fail ≡ 0 }
    requires name { call_named_by ask.now.name ≡ Some Usrvar }
    ensures { result ≡ usrvar (seen_by w.now slot job.now ask.now) ask.now }
{
    let party = input(ask, 0);
    if is_oneself(party) {
        return own_variable(w, slot, job, ask);
    }
    match channel(job, party) {
        Channel::Usr {
            slot: inferior,
            write,
            ..
        } => other_variable(w, slot, job, ask, inferior, write),
        Channel::Closed => fails(job, ask, error::BAD_CHANNEL),
        _ => fails(job, ask, error::WRONG_DEVICE),
    }
}

/// USRVAR on oneself.
#[tactic(auto, unfolding(its_plain::specs::Machine::View::view, its_world::specs::World::state_of))]
fn own_variable(w: &World, slot: Slot, job: &Job, ask: &Ask) -> Decision
    ensures { result ≡ own_variable (seen_by w.now slot job.now ask.now) ask.now (variable_named (input ask.now 1)) }
{
    let Some(variable) = Variable::named(input(ask, 1)) else {
        return fails(job, ask, error::OUT_OF_RANGE);
    };
    if has_input(ask, 2) && !by_oneself(variable) {
        return fails(job, ask, error::OUT_OF_RANGE);
    }
    set_own(w, slot, job, ask, variable)
}

/// The output gets the value of a variable of one's own, and then the new value is set, if there is
/// one.
#[tactic(auto, using(its_shared::proofs::BareLaws::set_bare), unfolding(its_plain::specs::Machine::View::view, its_world::specs::World::state_of))]
fn set_own(w: &World, slot: Slot, job: &Job, ask: &Ask, variable: Variable) -> Decision
    ensures { result ≡ set_own (seen_by w.now slot job.now ask.now) ask.now variable (has_input ask.now 2) }
{
    let stores = output(ask, variable_of(w, slot, job, variable));
    if has_input(ask, 2) {
        ends(stores, exit_with(job, variable, input(ask, 2)))
    } else {
        finishes(job, stores)
    }
}

/// USRVAR through a channel on an inferior.
#[tactic(auto, unfolding(its_plain::specs::Machine::View::view, its_world::specs::World::state_of))]
fn other_variable(
    w: &World,
    slot: Slot,
    job: &Job,
    ask: &Ask,
    inferior: u8,
    write: bool,
) -> Decision
    requires target { target (raw_with w.now slot job.now) ask.now ≡ Some inferior }
    ensures { result ≡ other_variable (seen_by w.now slot job.now ask.now) ask.now inferior write (variable_named (input ask.now 1)) }
{
    let Some(variable) = Variable::named(input(ask, 1)) else {
        return fails(job, ask, error::OUT_OF_RANGE);
    };
    if has_input(ask, 2) && !write {
        return fails(job, ask, error::WRONG_DEVICE);
    }
    if has_input(ask, 2) && !by_superior(variable) {
        return fails(job, ask, error::OUT_OF_RANGE);
    }
    let stores = output(ask, value_of_other(w, inferior, variable));
    set_other(job, ask, inferior, variable, stores)
}

/// The value of a variable of an inferior.
#[tactic(auto, using(crate::proofs::ReachLaws::value_some, crate::proofs::ReachLaws::value_none))]
fn value_of_other(w: &World, inferior: u8, variable: Variable) -> Word
    ensures { result ≡ value_of_other inferior variable (raw_in w.now inferior) }
{
    match w.jobs.numbered(inferior) {
        Some(job) => variable_of(w, Slot::new(inferior), job, variable),
        None => Word::ZERO,
    }
}

/// The call finishes with these stores, and sets a variable of an inferior if there is a new value.
fn set_other(
    job: &Job,
    ask: &Ask,
    inferior: u8,
    variable: Variable,
    stores: ArrayVec<Store, 2>,
) -> Decision
    ensures { result ≡ Ends (record { items = set_other inferior variable (input ask.now 2) (has_input ask.now 2) }) stores (exit_of (with_advance 2 job.now)) }
{
    if !has_input(ask, 2) {
        return finishes(job, stores);
    }
    let change = Change::Set {
        slot: inferior,
        variable,
        value: input(ask, 2),
    };
    finishes_with(job, change, stores)
}
