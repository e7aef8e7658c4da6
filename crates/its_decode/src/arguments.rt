//! The arguments of a call: each is found, and its value is taken at once.
ghost use Rattle.std.specs.Prelude.{◌≡◌, ◌+◌, ◌-◌, ◌*◌, ◌^◌, ◌<◌, ◌≤◌, ◌++◌, [], length, unwrap_or, Ok, Err, IfErr, IfOk, OnOk};
ghost use Rattle.its_core.specs.Cores.{core_at};
ghost use Rattle.its_word.specs.Core.{word_at};
ghost use Rattle.its_word.specs.Limits.{budget};
ghost use Rattle.its_plain.specs.Call.Decode.{argument, argument_at, arguments, held, kind_of, storable};
ghost use Rattle.its_decode.specs.Gathering.{Added, Fetched, Gathered, HasRoom, Holds, argument_for};

use super::block::argument_type;
use its_core::Core;
use its_records::{Ask, Kind, Operand};
use its_word::{Address, Fault, Slot, Word};

/// How much of the budget of indirect words is used, and how many error addresses and controls are
/// found.
#[derive(Drop)]
pub struct Progress {
    pub used: u32,
    pub errors: usize,
    pub controls: usize,
}

/// What an argument word is.
#[tactic(auto, unfolding(its_plain::specs::Call::Decode::kind_of))]
fn kind_of(w: Word) -> Kind
    ensures { result ≡ kind_of w }
{
    match argument_type(w) {
        0 => Kind::Input,
        1 => Kind::Immediate,
        2 => Kind::Output,
        3 => Kind::ErrorAt,
        4 => Kind::Control,
        5 => Kind::ImmediateControl,
        _ => Kind::Other,
    }
}

/// The word at a place; Mpv if it is absent.
#[tactic(auto, unfolding(its_plain::specs::Call::Decode::held))]
fn word_held(core: &Core, slot: Slot, e: u32) -> Result<Word, Fault>
    requires address { e < 2 ^ 18 }
    ensures place { OnOk result ((held (core_at core.now slot) e).answer ≡ Ok e) }
    ensures value { IfOk result (λ w. w ≡ unwrap_or (word_at (core_at core.now slot) e) 0) }
    ensures fault { IfErr result (λ f. (held (core_at core.now slot) e).answer ≡ Err f) }
{
    match core.get(slot, e) {
        Ok(w) => Ok(w),
        Err(_) => Err(Fault::Mpv),
    }
}

/// Whether a word can be stored at a place: Mpv if it is absent, Wro if it is read only.
#[tactic(auto, unfolding(its_plain::specs::Call::Decode::storable))]
fn check_storable(core: &Core, slot: Slot, e: u32) -> Result<(), Fault>
    requires address { e < 2 ^ 18 }
    ensures place { OnOk result ((storable (core_at core.now slot) e).answer ≡ Ok e) }
    ensures fault { IfErr result (λ f. (storable (core_at core.now slot) e).answer ≡ Err f) }
{
    match core.refusal(slot, e) {
        None => Ok(()),
        Some(f) => Err(f),
    }
}

/// Adds the argument of a kind whose address is found to what a call asks for. The first error
/// address counts, and the first control.
#[tactic(auto, unfolding(its_plain::specs::Call::Decode::argument_at, its_plain::specs::Unit::Trace::also))]
fn add_argument(
    core: &Core,
    slot: Slot,
    kind: Kind,
    e: u32,
    ask: &mut Ask,
    progress: &mut Progress,
) -> Result<(), Fault>
    requires address { e < 2 ^ 18 }
    requires room { HasRoom ask.old progress.old }
    ensures answer { OnOk result ((argument_at kind (core_at core.now slot) e).answer ≡ Ok (argument_for kind e)) }
    ensures fault { IfErr result (λ f. (argument_at kind (core_at core.now slot) e).answer ≡ Err f) }
    ensures added { OnOk result (Added (core_at core.now slot) (argument_for kind e) ask.old ask.new progress.old progress.new) }
    ensures decode { ask.new.decode ≡ ask.old.decode }
    ensures used { progress.new.used ≡ progress.old.used }
{
    match kind {
        Kind::Input => {
            let value = word_held(core, slot, e)?;
            ask.inputs.push(Operand {
                value,
                place: Some(e),
            });
            ask.operand.push(e);
            Ok(())
        }
        Kind::Immediate => {
            ask.inputs.push(Operand {
                value: Word::pair(0, e),
                place: None,
            });
            Ok(())
        }
        Kind::Output => {
            check_storable(core, slot, e)?;
            ask.outputs.push(e);
            Ok(())
        }
        Kind::ErrorAt => {
            check_storable(core, slot, e)?;
            ask.error = ask.error.or(Some(e));
            progress.errors += 1;
            Ok(())
        }
        Kind::Control => {
            let value = word_held(core, slot, e)?;
            ask.control = ask.control.or(Some(value));
            progress.controls += 1;
            ask.operand.push(e);
            Ok(())
        }
        Kind::ImmediateControl => {
            ask.control = ask.control.or(Some(Word::pair(0, e)));
            progress.controls += 1;
            Ok(())
        }
        Kind::Other => Err(Fault::Ilo),
    }
}

/// Finds the argument of an argument word, and adds it to what a call asks for. The decode words
/// get the places of the words that are read.
#[tactic(auto, using(crate::proofs::Groups::fetch_argument_laws), unfolding(its_plain::specs::Call::Decode::argument, its_plain::specs::Unit::Trace::also, its_plain::specs::Unit::Trace::located))]
fn fetch_argument(
    core: &Core,
    slot: Slot,
    w: Word,
    ask: &mut Ask,
    progress: &mut Progress,
) -> Result<(), Fault>
    requires used { progress.old.used ≤ budget }
    requires places { length ask.old.decode.items + (129 - 2 * progress.old.used) ≤ 160 }
    requires room { HasRoom ask.old progress.old }
    ensures fetched { OnOk result (Fetched (core_at core.now slot) w ask.old ask.new progress.old progress.new) }
    ensures fault { IfErr result (λ f. Err f ≡ (argument (core_at core.now slot) w progress.old.used).answer) }
    ensures reads { ask.new.decode.items ≡ ask.old.decode.items ++ (argument (core_at core.now slot) w progress.old.used).reads }
    ensures more { (progress.old.used ≤ progress.new.used) × (progress.new.used ≤ budget) }
    ensures few { length ask.new.decode.items + 2 * progress.old.used ≤ length ask.old.decode.items + 2 * progress.new.used + 1 }
{
    let Address { e, flags_word } = core.address(slot, w, &mut progress.used, &mut ask.decode)?;
    // for the proof alone: if nothing names this type, rattle's plan of the borrows does not find
    // `Option`
    let _last: Option<Word> = flags_word;
    add_argument(core, slot, kind_of(w), e, ask, progress)?;
    Ok(())
}

/// Finds the arguments of argument words one by one, and adds them to what a call asks for; the
/// first fault ends it. `used` is how much of the budget of 64 indirect words is used already.
pub fn fetch_arguments(
    core: &Core,
    slot: Slot,
    words: &[Word],
    used: u32,
    ask: &mut Ask,
) -> Result<Progress, Fault>
    requires words { length words.now ≤ 8 }
    requires used { used ≤ budget }
    requires places { length ask.old.decode.items ≤ 2 * used + 12 }
    requires none { Holds (core_at core.now slot) [] ask.old (record { used = used; errors = 0; controls = 0 }) }
    ensures gathered { IfOk result (λ p. Gathered (core_at core.now slot) words.now used ask.old ask.new p) }
    ensures fault { IfErr result (λ f. (arguments words.now (core_at core.now slot) used []).answer ≡ Err f) }
{
    let mut progress = Progress {
        used,
        errors: 0,
        controls: 0,
    };
    for w in words {
        fetch_argument(core, slot, *w, ask, &mut progress)?;
    }
    Ok(progress)
}
