//! The arguments of a call, sorted as they are found.
ghost use Rattle.std.specs.Prelude.{◌≡◌, ◌<◌, ◌+◌, ◌++◌, [], length};
ghost use Rattle.std.specs.List.{cons_option};
ghost use Rattle.its_core.specs.Cores.{core_at};
ghost use Rattle.its_plain.specs.Call.Decode.{held_place, value_of};
ghost use Rattle.its_direct.specs.Asking.{first_error, no_parts, with_argument};

use arrayvec::ArrayVec;
use its_core::Core;
use its_records::{Arg, Operand, Source};
use its_word::{Slot, Word};

/// Arguments by what they are: inputs and outputs, how many error addresses and controls there are
/// and the first of each, and the places of the words of inputs and controls.
#[derive(Drop)]
pub struct Parts {
    pub inputs: ArrayVec<Operand, 8>,
    pub outputs: ArrayVec<u32, 8>,
    pub errors: u32,
    pub error: Option<u32>,
    pub controls: u32,
    pub control: Option<Word>,
    pub operand: ArrayVec<u32, 16>,
}

impl Parts {
    /// Those of no argument.
    pub fn new() -> Parts
        ensures { result ≡ no_parts }
    {
        Parts {
            inputs: ArrayVec::new(),
            outputs: ArrayVec::new(),
            errors: 0,
            error: None,
            controls: 0,
            control: None,
            operand: ArrayVec::new(),
        }
    }

    /// One argument more.
    pub fn add(&mut self, core: &Core, slot: Slot, a: &Arg)
        requires inputs { length self.old.inputs.items < 8 }
        requires outputs { length self.old.outputs.items < 8 }
        requires errors { self.old.errors < 8 }
        requires controls { self.old.controls < 8 }
        requires operands { length self.old.operand.items < 8 }
        ensures { self.new ≡ with_argument (core_at core.now slot) a.now self.old }
    {
        match a {
            Arg::Input(s) => {
                let value = value(core, slot, s);
                let place = place(s);
                self.inputs.push(Operand { value, place });
                self.note(place);
            }
            Arg::Output(p) => self.outputs.push(p.number()),
            Arg::ErrorAt(p) => {
                self.errors += 1;
                self.error = first_place(self.error, p.number());
            }
            Arg::Control(s) => {
                self.controls += 1;
                self.control = first_word(self.control, value(core, slot, s));
                self.note(place(s));
            }
        }
    }

    /// The place of the word from which a value is taken, if there is one.
    #[tactic(auto, using(crate::proofs::AskLaws::not_noted))]
    fn note(&mut self, place: Option<u32>)
        requires { length self.old.operand.items < 8 }
        ensures { self.new ≡ record self.old { operand = record { items = self.old.operand.items ++ cons_option place [] } } }
    {
        if let Some(p) = place {
            self.operand.push(p);
        }
    }
}

/// The first of places.
fn first_place(first: Option<u32>, next: u32) -> Option<u32>
    ensures { result ≡ first_error first next }
{
    match first {
        Some(p) => Some(p),
        None => Some(next),
    }
}

/// The first of words.
fn first_word(first: Option<Word>, next: Word) -> Option<Word>
    ensures { result ≡ first_error first next }
{
    match first {
        Some(w) => Some(w),
        None => Some(next),
    }
}

/// The value that a source has.
fn value(core: &Core, slot: Slot, s: &Source) -> Word
    ensures { result ≡ value_of (core_at core.now slot) s.now }
{
    match s {
        Source::Held(p) => core.get(slot, p.number()).unwrap_or(Word::ZERO),
        Source::Immediate(v) => *v,
    }
}

/// The place of a source's word.
fn place(s: &Source) -> Option<u32>
    ensures { result ≡ held_place s.now }
{
    match s {
        Source::Held(p) => Some(p.number()),
        Source::Immediate(_) => None,
    }
}
