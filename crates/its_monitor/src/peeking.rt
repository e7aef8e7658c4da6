//! PEEK: how far a job is inside a call.
ghost use Rattle.std.specs.Prelude.{◌≡◌, true, Some, None, IfOk, OnOk, IfErr, is_some};
ghost use Rattle.its_in_call.specs.Calls.{frame_seen};
ghost use Rattle.its_core.specs.Cores.{core_at};
ghost use Rattle.its_plain.specs.Call.Arguments.{place_of_input};
ghost use Rattle.its_plain.specs.Call.Decide.{call_named};
ghost use Rattle.its_stepped.specs.State.{mine};
ghost use Rattle.its_stepped.specs.Lines.{peeked, state_shown, name_shown, name_read, first_shown, second_shown, word_of_input, word_shown, ask_in, byte_shown};
ghost use Rattle.its_world.specs.World.{state_of, plain_of};
ghost use Rattle.its_monitor.specs.Kept.{Kept};
ghost use Rattle.its_monitor.specs.Peeking.{Shows};

use super::monitor::Monitor;
use its_frame::CallName;
use its_in_call::View;
use its_records::{Ask, Peek, PeekState, Refusal, Site};
use its_word::{Slot, Word};
use its_world::World;

impl Monitor {
    /// PEEK: how far a slot's job is inside a call. NoJob if the slot is empty. Nothing is unwound.
    #[tactic(auto, using(crate::proofs::PeekStateLaws::peek_absent, crate::proofs::PeekStateLaws::peek_some, crate::proofs::PeekStateLaws::peek_few, crate::proofs::PeekStateLaws::peek_call))]
    pub fn peek(&self, slot: Slot) -> Result<Peek, Refusal>
        requires kept { Kept self.now.world }
        ensures shown { IfOk result (λ p. p ≡ peeked (state_of self.now.world) slot) }
        ensures some { OnOk result (is_some ((state_of self.now.world).raw.jobs slot) ≡ true) }
        ensures refused { IfErr result (λ e. (e ≡ Refusal.NoJob) × ((state_of self.now.world).raw.jobs slot ≡ None) × ((plain_of self.now.world).jobs slot ≡ None)) }
    {
        let world = &self.world;
        if world.registers(slot).is_none() {
            return Err(Refusal::NoJob);
        }
        let call = &world.frames[slot.index()];
        let left = call.left(owns_mark(world, slot));
        Ok(peek_of(world, slot, &call.view(), left))
    }
}

/// What is shown of a job with this frame, which so many unwinding steps bring to user mode.
fn peek_of(w: &World, slot: Slot, frame: &View<'_>, left: u8) -> Peek
    ensures { Shows (core_at w.now.core slot) left (frame_seen frame.now) result }
{
    let (a, b) = words_shown(w, slot, frame);
    Peek {
        state: state_shown(frame),
        name: name_shown(frame),
        left,
        a,
        b,
        h: byte_shown(frame),
    }
}

/// Whether the close that is half made is that of a slot's call.
#[tactic(auto, using(its_commit::proofs::OwedLaws::owner_some, its_commit::proofs::OwedLaws::owner_none))]
fn owns_mark(w: &World, slot: Slot) -> bool
    ensures { result ≡ mine (state_of w.now).mark slot }
{
    match w.files.owner() {
        Some(owner) => owner == slot.number(),
        None => false,
    }
}

/// The state that is shown of a frame.
fn state_shown(frame: &View<'_>) -> PeekState
    ensures { result ≡ state_shown (frame_seen frame.now) }
{
    match *frame {
        View::User => PeekState::User,
        View::Entered { .. } => PeekState::Entered,
        View::Parsed { .. } => PeekState::Parsed,
        View::Asked { .. } => PeekState::Asked,
        View::Holding { .. } => PeekState::Holding,
        View::Waiting { .. } => PeekState::Waiting,
        View::Moving { .. } => PeekState::Moving,
        View::Ending { .. } => PeekState::Ending,
    }
}

/// The name of a frame's call, once it is read.
fn name_shown(frame: &View<'_>) -> Option<Word>
    ensures { result ≡ name_shown (frame_seen frame.now) }
{
    match *frame {
        View::User => None,
        View::Entered { .. } => None,
        View::Parsed { site, block } => name_read(site, block),
        View::Asked { ask, .. } => Some(ask.name),
        View::Holding { ask, .. } => Some(ask.name),
        View::Waiting { ask, .. } => Some(ask.name),
        View::Moving { ask, .. } => Some(ask.name),
        View::Ending { ask, .. } => Some(ask.name),
    }
}

/// The name in a block that is read: its second word. `.IOT` has no block.
fn name_read(site: &Site, block: &[Word]) -> Option<Word>
    ensures { result ≡ name_read site.now.channel block.now }
{
    match site.channel {
        Some(_) => Some(CallName::Iot.word()),
        None => block.get(1).copied(),
    }
}

/// The byte or word that a frame holds.
fn byte_shown(frame: &View<'_>) -> Option<Word>
    ensures { result ≡ byte_shown (frame_seen frame.now) }
{
    match *frame {
        View::Moving { byte, .. } => Some(byte),
        View::User => None,
        View::Entered { .. } => None,
        View::Parsed { .. } => None,
        View::Asked { .. } => None,
        View::Holding { .. } => None,
        View::Waiting { .. } => None,
        View::Ending { .. } => None,
    }
}

/// The words in core that are shown of a frame's call.
fn words_shown(w: &World, slot: Slot, frame: &View<'_>) -> (Option<Word>, Option<Word>)
    ensures a { result.0 ≡ word_shown (core_at w.now.core slot) first_shown (ask_in (frame_seen frame.now)) }
    ensures b { result.1 ≡ word_shown (core_at w.now.core slot) second_shown (ask_in (frame_seen frame.now)) }
{
    match *frame {
        View::User => (None, None),
        View::Entered { .. } => (None, None),
        View::Parsed { .. } => (None, None),
        View::Asked { ask, .. } => words_of(w, slot, ask),
        View::Holding { ask, .. } => words_of(w, slot, ask),
        View::Waiting { ask, .. } => words_of(w, slot, ask),
        View::Moving { ask, .. } => words_of(w, slot, ask),
        View::Ending { ask, .. } => words_of(w, slot, ask),
    }
}

/// The words of the inputs that are shown of a call: SIOT's pointer and count, SLEEP's time.
fn words_of(w: &World, slot: Slot, ask: &Ask) -> (Option<Word>, Option<Word>)
    ensures a { result.0 ≡ word_of_input (core_at w.now.core slot) ask.now (first_shown (call_named ask.now.name)) }
    ensures b { result.1 ≡ word_of_input (core_at w.now.core slot) ask.now (second_shown (call_named ask.now.name)) }
{
    match CallName::named(ask.name) {
        Some(call) => {
            let row = call.row();
            let a = word_shown(w, slot, ask, row.shows_a);
            (a, word_shown(w, slot, ask, row.shows_b))
        }
        None => (None, None),
    }
}

/// The word in core at the place of an input that is shown, if one is.
fn word_shown(w: &World, slot: Slot, ask: &Ask, input: Option<usize>) -> Option<Word>
    ensures { result ≡ word_of_input (core_at w.now.core slot) ask.now input }
{
    match input {
        Some(k) => word_of_input(w, slot, ask, k),
        None => None,
    }
}

/// The word in core at the place of an input; None also if the place is past the last address.
#[tactic(auto, using(crate::proofs::PeekLaws::word_there, crate::proofs::PeekLaws::no_place))]
fn word_of_input(w: &World, slot: Slot, ask: &Ask, k: usize) -> Option<Word>
    ensures { result ≡ word_of_input (core_at w.now.core slot) ask.now (Some k) }
{
    match place_of_input(ask, k) {
        None => None,
        Some(at) => w.core.word(slot, at),
    }
}

/// The place of an input, if it has one.
fn place_of_input(ask: &Ask, k: usize) -> Option<u32>
    ensures { result ≡ place_of_input ask.now k }
{
    match ask.inputs.get(k) {
        Some(operand) => operand.place,
        None => None,
    }
}
