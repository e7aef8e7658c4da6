//! FINISH, LISTEN and TTYLND.

ghost use Rattle.std.specs.Prelude.{◌≡◌, unwrap_or};
ghost use Rattle.its_plain.specs.Call.Tty.{finish, lands, listen, listens, ttylnd};
ghost use Rattle.its_world.specs.World.{holder_at};
ghost use Rattle.call_basic.specs.Seen.{seen_by};
ghost use Rattle.call_tty.specs.Holding.{holds, may_take};

use super::consoles::{console_of, holder, output_left, typed};
use arrayvec::ArrayVec;
use call_basic::{
    channel, fails, finishes, finishes_with, input, is_oneself, is_superior, store_at,
};
use its_frame::{Change, Decision, Wait, error};
use its_records::{Ask, Channel, Job};
use its_word::{Slot, Word};
use its_world::World;

/// FINISH channel: waits until all output of the console is drained. Errors 4, 5.
#[tactic(auto, using(its_shared::proofs::NumberLaws::under), unfolding(its_plain::specs::Call::Tty::finish, its_plain::specs::Machine::View::view, its_world::specs::World::state_of))]
pub fn finish(w: &World, slot: Slot, job: &Job, ask: &Ask) -> Decision
    ensures { result ≡ finish (seen_by w.now slot job.now ask.now) ask.now }
{
    match channel(job, input(ask, 0)) {
        Channel::Closed => fails(job, ask, error::BAD_CHANNEL),
        Channel::TtyOut => {
            let console = console_of(job);
            if output_left(w, console) {
                Decision::Waits(Wait::Drained(console))
            } else {
                finishes(job, ArrayVec::new())
            }
        }
        _ => fails(job, ask, error::WRONG_DEVICE),
    }
}

/// LISTEN channel: also waits, and gives the number of bytes of input. Errors 4, 5.
#[tactic(auto, using(its_shared::proofs::NumberLaws::under), unfolding(its_plain::specs::Call::Tty::listen, its_plain::specs::Machine::View::view, its_world::specs::World::state_of))]
pub fn listen(w: &World, slot: Slot, job: &Job, ask: &Ask) -> Decision
    ensures { result ≡ listen (seen_by w.now slot job.now ask.now) ask.now }
{
    match channel(job, input(ask, 0)) {
        Channel::Closed => fails(job, ask, error::BAD_CHANNEL),
        Channel::TtyIn => listened(w, slot, job, ask),
        Channel::TtyOut => listened(w, slot, job, ask),
        _ => fails(job, ask, error::WRONG_DEVICE),
    }
}

/// The number of bytes of input, once all output is drained.
#[tactic(auto, unfolding(its_plain::specs::Machine::View::view, its_world::specs::World::state_of))]
fn listened(w: &World, slot: Slot, job: &Job, ask: &Ask) -> Decision
    ensures { result ≡ listens (seen_by w.now slot job.now ask.now) ask.now (unwrap_or job.now.console 0) }
{
    let console = console_of(job);
    if output_left(w, console) {
        return Decision::Waits(Wait::Drained(console));
    }
    let number = Word::new(u64::from(typed(w, console)));
    finishes(job, store_at(ask.outputs.first().copied(), number))
}

/// TTYLND job: the job becomes the holder of the caller's console. Errors 4, 5; 5 if the caller has
/// no console; for oneself 13 if a stranger holds it; for an inferior 5 if the caller does not hold
/// it.
#[tactic(auto, using(crate::proofs::Groups::ttylnd_laws), unfolding(its_plain::specs::Call::Tty::ttylnd, its_plain::specs::Machine::View::view, its_world::specs::World::state_of))]
pub fn ttylnd(w: &World, slot: Slot, job: &Job, ask: &Ask) -> Decision
    ensures { result ≡ ttylnd (seen_by w.now slot job.now ask.now) ask.now }
{
    let party = input(ask, 0);
    if is_oneself(party) {
        let may = can_take(w, slot, console_of(job));
        return lands(w, slot, job, ask, may, error::NOT_INFERIOR, slot.number());
    }
    match channel(job, party) {
        Channel::Closed => fails(job, ask, error::BAD_CHANNEL),
        Channel::Usr { slot: inferior, .. } => {
            let may = is_holder(w, slot, console_of(job));
            lands(w, slot, job, ask, may, error::WRONG_DEVICE, inferior)
        }
        _ => fails(job, ask, error::WRONG_DEVICE),
    }
}

/// Whether a job can take a console for itself: nobody holds it, or the job, or one of its
/// inferiors.
fn can_take(w: &World, slot: Slot, console: u8) -> bool
    ensures { result ≡ may_take w.now slot (holder_at w.now.holders console) }
{
    match holder(w, console) {
        None => true,
        Some(h) => h == slot.number() || is_superior(w, slot, h),
    }
}

/// Whether a job holds a console.
fn is_holder(w: &World, slot: Slot, console: u8) -> bool
    ensures { result ≡ holds slot (holder_at w.now.holders console) }
{
    match holder(w, console) {
        Some(h) => h == slot.number(),
        None => false,
    }
}

/// A job becomes the holder of the caller's console, if it may.
#[tactic(auto, unfolding(its_plain::specs::Machine::View::view, its_world::specs::World::state_of))]
fn lands(w: &World, slot: Slot, job: &Job, ask: &Ask, may: bool, number: u8, holder: u8) -> Decision
    ensures { result ≡ lands (seen_by w.now slot job.now ask.now) ask.now may number holder }
{
    if job.console.is_none() {
        return fails(job, ask, error::WRONG_DEVICE);
    }
    if !may {
        return fails(job, ask, number);
    }
    let change = Change::Hold {
        console: console_of(job),
        slot: holder,
    };
    finishes_with(job, change, ArrayVec::new())
}
