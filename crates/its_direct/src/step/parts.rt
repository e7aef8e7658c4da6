//! Parts of one call of a job, one after another: the call is decoded once for all of them.
ghost use Rattle.std.specs.Prelude.{◌≡◌, ◌<◌, ◌≤◌, ◌∷◌, [], IfSome, length};
ghost use Rattle.its_plain.specs.Call.Arguments.{with_new_values};
ghost use Rattle.its_decide.specs.Moving.{moving};
ghost use Rattle.its_direct.specs.Events.{Kept};
ghost use Rattle.its_core.specs.Cores.{core_at};
ghost use Rattle.its_jobs.specs.Table.{job_at};
ghost use Rattle.its_direct.specs.Parts.{AtCall, Decides, InParts, PartIf, names_siot, siot_of, with_input};
ghost use Rattle.its_direct.specs.Plain.{machine_of};
ghost use Rattle.its_direct.specs.Waiting.{AtHand};

use crate::plain::{Plain, Spot};
use crate::step::asking::{no_ask, put_near};
use its_core::Core;
use its_decide::{NextMove, next_move};
use its_frame::CallName;
use its_records::Ask;
use its_word::{ADDRESSES, Slot, Word};
use pdp_exec::Near;

impl Plain {
    /// Takes steps of a slot's job that are parts of the call at its PC, n at most, as long as each
    /// disturbs nobody and makes no job; how many. If the call has no such part, or its word is not
    /// all that is read on the way to it, none is taken, and nothing changes. The slots that are
    /// touched stay. No block of lines may be open.
    #[tactic(auto, using(crate::proofs::PartLaws::no_parts))]
    pub fn parts(&mut self, slot: Slot, n: u32) -> u32
        requires outside { self.old.place ≡ Spot.Plain }
        requires kept { Kept self.old }
        ensures few { result ≤ n }
        ensures parts { InParts result (machine_of self.old) slot (machine_of self.new) }
        ensures place { self.new.place ≡ self.old.place }
        ensures touched { self.new.touched ≡ self.old.touched }
        ensures kept { Kept self.new }
    {
        if n == 0 || !self.names_siot(slot) {
            return 0;
        }
        match self.call_at_hand(slot) {
            Some(near) => self.parts_near(slot, near, n),
            None => 0,
        }
    }

    /// Whether the word after the one to which the word at the PC of a slot's job points names
    /// SIOT. No other call has parts.
    fn names_siot(&self, slot: Slot) -> bool
        ensures { result ≡ siot_of (core_at self.now.core slot) (job_at self.now.jobs slot) }
    {
        match self.jobs.job(slot) {
            Some(job) => names_siot(&self.core, slot, job.pc),
            None => false,
        }
    }

    /// Takes as many parts of the call at hand as there are, n at most; how many.
    #[inline(never)]
    #[tactic(auto, using(crate::proofs::PartLaws::no_parts))]
    fn parts_near(&mut self, slot: Slot, near: Near, n: u32) -> u32
        requires outside { self.old.place ≡ Spot.Plain }
        requires kept { Kept self.old }
        requires hand { AtHand self.old slot near }
        ensures few { result ≤ n }
        ensures parts { InParts result (machine_of self.old) slot (machine_of self.new) }
        ensures place { self.new.place ≡ self.old.place }
        ensures touched { self.new.touched ≡ self.old.touched }
        ensures kept { Kept self.new }
    {
        let Some(job) = self.jobs.job(slot) else {
            unreachable!()
        };
        let mut ask = no_ask();
        match put_near(&self.core, slot, job.pc, near, &mut ask) {
            Ok(()) => self.take_parts(slot, ask, n),
            Err(_) => 0,
        }
    }

    /// Takes as many parts of the call that asks for this as there are, n at most; how many.
    #[inline(never)]
    #[tactic(auto, using(crate::proofs::Groups::take_parts_laws))]
    fn take_parts(&mut self, slot: Slot, ask: Ask, n: u32) -> u32
        requires outside { self.old.place ≡ Spot.Plain }
        requires kept { Kept self.old }
        requires at { AtCall (machine_of self.old) slot ask }
        ensures few { result ≤ n }
        ensures parts { InParts result (machine_of self.old) slot (machine_of self.new) }
        ensures place { self.new.place ≡ self.old.place }
        ensures touched { self.new.touched ≡ self.old.touched }
        ensures kept { Kept self.new }
    {
        let mut ask = ask;
        for made in 0..n {
            if !self.next_part(slot, &mut ask) {
                return made;
            }
        }
        n
    }

    /// Takes the next part of a call of a slot's job that asks for this, if it moves a byte or
    /// word, disturbs nobody and makes no job. Then the call goes on, and asks for what it asks
    /// with its new values. Else nothing changes.
    #[inline(always)]
    fn next_part(&mut self, slot: Slot, ask: &mut Ask) -> bool
        requires outside { self.old.place ≡ Spot.Plain }
        requires kept { Kept self.old }
        requires at { AtCall (machine_of self.old) slot ask.old }
        ensures row { PartIf result self.old self.new slot ask.new }
        ensures place { self.new.place ≡ self.old.place }
        ensures touched { self.new.touched ≡ self.old.touched }
        ensures kept { Kept self.new }
    {
        match self.next_move(slot, ask) {
            Some(moved) => self.move_alone(slot, ask, &moved),
            None => false,
        }
    }

    /// What a call of a slot's job moves next that asks for this, if it reaches no other job.
    #[inline(always)]
    #[tactic(auto, using(crate::proofs::PartLaws::decides))]
    fn next_move(&self, slot: Slot, ask: &Ask) -> Option<NextMove>
        requires kept { Kept self.now }
        requires at { AtCall (machine_of self.now) slot ask.now }
        ensures { IfSome result (λ m. Decides (machine_of self.now) slot ask.now (moving m)) }
    {
        match self.jobs.job(slot) {
            Some(job) => next_move(&self.seen(), slot, job, ask),
            None => None,
        }
    }

    /// Moves a byte or word as a call has decided, if the call has three inputs.
    #[inline(always)]
    fn move_alone(&mut self, slot: Slot, ask: &mut Ask, moved: &NextMove) -> bool
        requires outside { self.old.place ≡ Spot.Plain }
        requires kept { Kept self.old }
        requires at { AtCall (machine_of self.old) slot ask.old }
        requires decides { Decides (machine_of self.old) slot ask.old (moving moved.now) }
        ensures row { PartIf result self.old self.new slot ask.new }
        ensures place { self.new.place ≡ self.old.place }
        ensures touched { self.new.touched ≡ self.old.touched }
        ensures kept { Kept self.new }
    {
        if ask.inputs.len() != 3 {
            return false;
        }
        self.move_one(slot, ask, moved);
        renew(ask, moved.next, moved.left);
        true
    }
}

/// Whether the word after the one to which the word at a PC points names SIOT.
fn names_siot(core: &Core, slot: Slot, pc: u32) -> bool
    ensures { result ≡ names_siot (core_at core.now slot) pc }
{
    let Some(call) = core.word(slot, pc) else {
        return false;
    };
    match core.word(slot, (call.right() + 1) % ADDRESSES) {
        Some(name) => CallName::is_siot(name),
        None => false,
    }
}

/// Gives the last two of three inputs of a call new values.
#[inline(always)]
#[tactic(auto, using(crate::proofs::PartLaws::renewed))]
fn renew(ask: &mut Ask, next: Word, left: Word)
    requires { length ask.old.inputs.items ≡ 3 }
    ensures { ask.new ≡ with_new_values ask.old (next ∷ left ∷ []) }
{
    change_input(ask, 1, next);
    change_input(ask, 2, left);
}

/// Gives an input of a call another value.
#[inline(always)]
fn change_input(ask: &mut Ask, k: usize, value: Word)
    requires { k < length ask.old.inputs.items }
    ensures changed { ask.new ≡ with_input ask.old k value }
    ensures many { length ask.new.inputs.items ≡ length ask.old.inputs.items }
{
    ask.inputs[k].value = value;
}
