//! What a call asks for, decoded in one pass.
ghost use Rattle.std.specs.Prelude.{◌≡◌, ◌==◌, ◌<◌, ◌≤◌, ◌+◌, ◌-◌, ◌*◌, ◌%◌, ◌^◌, [], ◌∷◌, None, Ok, length, nat_lt, IfOk};
ghost use Rattle.std.specs.List.{list_all, list_any};
ghost use Rattle.its_core.specs.Cores.{core_at};
ghost use Rattle.its_word.specs.Limits.{budget};
ghost use Rattle.its_plain.specs.Call.Decode.{argument as argument_of, argument_at, argument_words, arguments, ask, block_at, error_by, exceeds, has_bit_0, iot_ask, is_legal, kind_of, parsed, row_named, type_of, words_of};
ghost use Rattle.its_plain.specs.Call.Footprint.{SiteFits};
ghost use Rattle.its_plain.specs.Unit.Trace.{word as word_of};
ghost use Rattle.pdp_exec.specs.Near.{near_site};
ghost use Rattle.its_direct.specs.Asking.{Reads, Sorts, ask_from, block_site, iot_asked, put_as};

use crate::plain::Plain;
use crate::step::sorting::Parts;
use arrayvec::ArrayVec;
use its_core::Core;
use its_frame::{CallName, CallRow, error};
use its_plain::ARGUMENTS;
use its_records::{Arg, Ask, Block, Operand, Placed, Site, Source};
use its_word::{ADDRESSES, Fault, Location, Slot, Word};
use pdp_exec::Near;

/// The places that a decoding has read, in the order of reading.
type Places = ArrayVec<u32, 160>;

impl Plain {
    /// What a call at a site of a slot's core asks for, or the fault of its decoding: its block,
    /// then its arguments one by one; each address and each value is taken when the definition
    /// takes it.
    #[tactic(auto, unfolding(its_plain::specs::Call::Decode::ask))]
    pub fn ask(&self, slot: Slot, site: &Site) -> Result<Ask, Fault>
        requires fits { SiteFits site.now }
        ensures { result ≡ ask (core_at self.now.core slot) site.now }
    {
        match site.channel {
            Some(channel) => Ok(iot_ask(site, channel)),
            None => block_ask(&self.core, slot, site),
        }
    }
}

/// What `.IOT` asks for: its channel is its one input, and E its one output address.
#[tactic(auto, using(crate::proofs::AskLaws::iot_put))]
fn iot_ask(site: &Site, channel: u8) -> Ask
    ensures { result ≡ iot_ask site.now channel }
{
    let mut ask = no_ask();
    note_site(site, &mut ask.decode);
    put_iot(site.e, channel, &mut ask);
    ask
}

/// What asks for nothing, with no place noted.
#[inline(always)]
pub(crate) fn no_ask() -> Ask
    ensures { result.decode.items ≡ [] }
{
    Ask {
        name: Word::ZERO,
        fail: 0,
        inputs: ArrayVec::new(),
        outputs: ArrayVec::new(),
        error: None,
        control: None,
        decode: ArrayVec::new(),
        operand: ArrayVec::new(),
    }
}

/// Notes the places of a site as the first ones.
fn note_site(site: &Site, decode: &mut Places)
    requires { decode.old.items ≡ [] }
    ensures { decode.new.items ≡ site.now.decode.items }
{
    for p in site.decode.iter() {
        decode.push(*p);
    }
}

/// Notes a PC as the first place.
#[inline(always)]
fn note_pc(pc: u32, decode: &mut Places)
    requires { decode.old.items ≡ [] }
    ensures { decode.new.items ≡ pc ∷ [] }
{
    decode.push(pc);
}

/// Makes an ask, in which the places of a site are noted, that of `.IOT` with this E and through a
/// channel.
#[tactic(auto, unfolding(its_plain::specs::Call::Decode::iot_ask))]
fn put_iot(e: u32, channel: u8, asked: &mut Ask)
    ensures { asked.new ≡ iot_asked e channel asked.old.decode.items }
{
    let mut inputs = ArrayVec::new();
    inputs.push(Operand {
        value: Word::new(u64::from(channel)),
        place: None,
    });
    let mut outputs = ArrayVec::new();
    outputs.push(e);
    asked.name = CallName::Iot.word();
    asked.fail = 0;
    asked.inputs = inputs;
    asked.outputs = outputs;
    asked.error = None;
    asked.control = None;
    asked.operand = ArrayVec::new();
}

/// Makes an ask, in which no place is noted, that of the call that is at hand at a PC; or the fault
/// of its decoding.
#[inline(always)]
pub(crate) fn put_near(
    core: &Core,
    slot: Slot,
    pc: u32,
    near: Near,
    asked: &mut Ask,
) -> Result<(), Fault>
    requires fits { SiteFits (near_site pc near) }
    requires nothing { asked.old.decode.items ≡ [] }
    ensures { put_as result asked.new ≡ ask (core_at core.now slot) (near_site pc near) }
{
    note_pc(pc, &mut asked.decode);
    match near.channel {
        Some(channel) => {
            put_iot(near.e, channel, asked);
            Ok(())
        }
        None => put_block(core, slot, near.e, 0, asked),
    }
}

/// What a call by a block asks for.
fn block_ask(core: &Core, slot: Slot, site: &Site) -> Result<Ask, Fault>
    requires fits { SiteFits site.now }
    requires channel { site.now.channel ≡ None }
    ensures { result ≡ ask (core_at core.now slot) site.now }
{
    let mut ask = no_ask();
    note_site(site, &mut ask.decode);
    match put_block(core, slot, site.e, site.used, &mut ask) {
        Ok(()) => Ok(ask),
        Err(f) => Err(f),
    }
}

/// Makes an ask, in which the places of a site are noted, that of the call by the block at E, when
/// so much of the budget of 64 indirect words is used; or the fault of its decoding.
fn put_block(core: &Core, slot: Slot, e: u32, used: u32, asked: &mut Ask) -> Result<(), Fault>
    requires e { e < 2 ^ 18 }
    requires used { used ≤ budget }
    requires room { length asked.old.decode.items ≤ 2 * used + 2 }
    ensures { put_as result asked.new ≡ ask (core_at core.now slot) (block_site e used asked.old.decode.items) }
{
    match legal_block(core, slot, e, &mut asked.decode) {
        Ok(block) => match sort_block(core, slot, &block, used, &mut asked.decode) {
            Ok(parts) => {
                put_parts(&block, parts, asked);
                Ok(())
            }
            Err(f) => Err(f),
        },
        Err(f) => Err(f),
    }
}

/// The word at an address modulo 2^18, whose place is noted; Mpv if it is absent.
#[tactic(auto, unfolding(its_plain::specs::Unit::Trace::word, its_plain::specs::Unit::Plans::read_of))]
fn word(core: &Core, slot: Slot, a: u32, decode: &mut Places) -> Result<Word, Fault>
    requires room { length decode.old.items < 160 }
    ensures reads { Reads (word_of (core_at core.now slot) (a % 2 ^ 18)) result decode.old.items decode.new.items }
    ensures more { length decode.new.items ≡ length decode.old.items + 1 }
{
    let place = a % ADDRESSES;
    decode.push(place);
    match core.get(slot, place) {
        Ok(w) => Ok(w),
        Err(_) => Err(Fault::Mpv),
    }
}

/// A block with its argument words, from an address on, up to the first with bit 0 on, at most 8.
fn argument_words(
    core: &Core,
    slot: Slot,
    a: u32,
    mut block: Block,
    decode: &mut Places,
) -> Result<Block, Fault>
    requires address { a < 2 ^ 19 }
    requires words { length block.items ≡ 2 }
    requires room { length decode.old.items ≤ 150 }
    ensures reads { Reads (argument_words 8 (core_at core.now slot) a block.items) result decode.old.items decode.new.items }
    ensures words { IfOk result (λ b. (2 ≤ length b.items) × (length b.items ≤ 10)) }
    ensures more { length decode.new.items ≤ length decode.old.items + 8 }
{
    for k in 0..ARGUMENTS {
        match word(core, slot, a + k, decode) {
            Ok(w) => {
                block.push(w);
                if has_bit_0(w) {
                    return Ok(block);
                }
            }
            Err(f) => return Err(f),
        }
    }
    Ok(block)
}

/// The block at an address, whole; then Ilo if bit 0 of its first word is off, or an argument has
/// no type.
fn legal_block(core: &Core, slot: Slot, e: u32, decode: &mut Places) -> Result<Block, Fault>
    requires address { e < 2 ^ 18 }
    requires room { length decode.old.items ≤ 148 }
    ensures reads { Reads (parsed (core_at core.now slot) e) result decode.old.items decode.new.items }
    ensures words { IfOk result (λ b. (2 ≤ length b.items) × (length b.items ≤ 10)) }
    ensures more { length decode.new.items ≤ length decode.old.items + 10 }
{
    match read_block(core, slot, e, decode) {
        Ok(block) => {
            if is_legal(&block) {
                Ok(block)
            } else {
                Err(Fault::Ilo)
            }
        }
        Err(f) => Err(f),
    }
}

/// The block at an address; Mpv if one of its words is absent.
fn read_block(core: &Core, slot: Slot, e: u32, decode: &mut Places) -> Result<Block, Fault>
    requires address { e < 2 ^ 18 }
    requires room { length decode.old.items ≤ 148 }
    ensures reads { Reads (block_at (core_at core.now slot) e) result decode.old.items decode.new.items }
    ensures words { IfOk result (λ b. (2 ≤ length b.items) × (length b.items ≤ 10)) }
    ensures more { length decode.new.items ≤ length decode.old.items + 10 }
{
    match word(core, slot, e, decode) {
        Ok(first) => match word(core, slot, e + 1, decode) {
            Ok(name) => { argument_words(core, slot, e + 2, two_words(first, name), decode) }
            Err(f) => Err(f),
        },
        Err(f) => Err(f),
    }
}

/// A block of two words.
fn two_words(first: Word, name: Word) -> Block
    ensures words { result.items ≡ first ∷ name ∷ [] }
    ensures number { length result.items ≡ 2 }
{
    let mut block = ArrayVec::new();
    block.push(first);
    block.push(name);
    block
}

/// Bit 0 of a word.
fn has_bit_0(w: Word) -> bool
    ensures { result ≡ has_bit_0 w }
{
    w.value() >> 35 == 1
}

/// The type of an argument word.
fn argument_type(w: Word) -> u32
    ensures { result ≡ type_of w }
{
    (w.value() >> 27 & 7) as u32
}

/// Whether bit 0 of a block's first word is on, and its arguments have types.
#[tactic(auto, unfolding(its_plain::specs::Call::Decode::is_legal))]
fn is_legal(block: &Block) -> bool
    requires { 2 ≤ length block.now.items }
    ensures { result ≡ is_legal block.now.items }
{
    has_bit_0(block[0]) && have_types(&block[2..])
}

/// Whether all of these argument words have a type.
fn have_types(words: &[Word]) -> bool
    ensures { result ≡ list_all (λ w. nat_lt (type_of w) 6) words.now }
{
    words.iter().all(|w| argument_type(*w) < 6)
}

/// The arguments of a block, found one by one and sorted; the first fault ends it.
fn sort_block(
    core: &Core,
    slot: Slot,
    block: &Block,
    used: u32,
    decode: &mut Places,
) -> Result<Parts, Fault>
    requires words { (2 ≤ length block.now.items) × (length block.now.items ≤ 10) }
    requires used { used ≤ budget }
    requires room { length decode.old.items ≤ 2 * used + 12 }
    ensures { Sorts (core_at core.now slot) (arguments (words_of block.now.items) (core_at core.now slot) used []) result decode.old.items decode.new.items }
{
    sort_arguments(core, slot, &block[2..], used, decode)
}

/// The arguments of argument words.
fn sort_arguments(
    core: &Core,
    slot: Slot,
    words: &[Word],
    used: u32,
    decode: &mut Places,
) -> Result<Parts, Fault>
    requires words { length words.now ≤ 8 }
    requires used { used ≤ budget }
    requires room { length decode.old.items ≤ 2 * used + 12 }
    ensures { Sorts (core_at core.now slot) (arguments words.now (core_at core.now slot) used []) result decode.old.items decode.new.items }
{
    let mut parts = Parts::new();
    let mut used = used;
    for w in words {
        match argument(core, slot, *w, used, decode) {
            Ok(found) => {
                parts.add(core, slot, &found.argument);
                used = found.used;
            }
            Err(f) => return Err(f),
        }
    }
    Ok(parts)
}

/// The argument of an argument word, when so much of the budget of 64 indirect words is used.
fn argument(
    core: &Core,
    slot: Slot,
    w: Word,
    used: u32,
    decode: &mut Places,
) -> Result<Placed, Fault>
    requires used { used ≤ budget }
    requires room { length decode.old.items + (129 - 2 * used) ≤ 160 }
    ensures reads { Reads (argument_of (core_at core.now slot) w used) result decode.old.items decode.new.items }
    ensures more { IfOk result (λ x. (used ≤ x.used) × (x.used ≤ budget)) }
    ensures few { IfOk result (λ x. length decode.new.items + 2 * used ≤ length decode.old.items + 2 * x.used + 1) }
{
    let mut after = used;
    match core.address(slot, w, &mut after, decode) {
        Ok(a) => match placed(core, slot, w, a.e) {
            Ok(argument) => Ok(Placed {
                argument,
                used: after,
            }),
            Err(f) => Err(f),
        },
        Err(f) => Err(f),
    }
}

/// What an argument word names whose address is found.
#[tactic(auto, unfolding(its_plain::specs::Call::Decode::kind_of, its_plain::specs::Call::Decode::argument_at, its_plain::specs::Call::Decode::held, its_plain::specs::Call::Decode::storable, its_plain::specs::Unit::Trace::also))]
fn placed(core: &Core, slot: Slot, w: Word, e: u32) -> Result<Arg, Fault>
    requires address { e < 2 ^ 18 }
    ensures { result ≡ (argument_at (kind_of w) (core_at core.now slot) e).answer }
{
    match argument_type(w) {
        0 => match core.get(slot, e) {
            Ok(_) => Ok(Arg::Input(Source::Held(Location::new(e)))),
            Err(_) => Err(Fault::Mpv),
        },
        1 => Ok(Arg::Input(Source::Immediate(Word::pair(0, e)))),
        2 => match core.refusal(slot, e) {
            None => Ok(Arg::Output(Location::new(e))),
            Some(f) => Err(f),
        },
        3 => match core.refusal(slot, e) {
            None => Ok(Arg::ErrorAt(Location::new(e))),
            Some(f) => Err(f),
        },
        4 => match core.get(slot, e) {
            Ok(_) => Ok(Arg::Control(Source::Held(Location::new(e)))),
            Err(_) => Err(Fault::Mpv),
        },
        5 => Ok(Arg::Control(Source::Immediate(Word::pair(0, e)))),
        _ => Err(Fault::Ilo),
    }
}

/// Makes an ask, in which the places that were read are noted, that of a block with such arguments.
#[tactic(auto, unfolding(crate::specs::Asking::ask_from))]
fn put_parts(block: &Block, parts: Parts, asked: &mut Ask)
    requires { 2 ≤ length block.now.items }
    ensures { asked.new ≡ ask_from asked.old.decode.items block.now.items parts }
{
    let excess = exceeds(parts.errors, parts.controls, &block[2..]);
    asked.name = block[1];
    asked.fail = error_by(
        row_named(block[1]),
        parts.inputs.len(),
        parts.outputs.len(),
        excess,
    );
    asked.inputs = parts.inputs;
    asked.outputs = parts.outputs;
    asked.error = parts.error;
    asked.control = parts.control;
    asked.operand = parts.operand;
}

/// The row of a call that a block can name: any but `.IOT`, which has none.
#[tactic(auto, unfolding(its_plain::specs::Call::Decode::row_named))]
fn row_named(name: Word) -> Option<CallRow>
    ensures { result ≡ row_named name }
{
    match CallName::named(name)? {
        CallName::Iot => None,
        call => Some(call.row()),
    }
}

/// The error of a call: 1 if no call has the name, 2 if there are too few arguments, 3 if there are
/// too many, else 0.
#[tactic(auto, unfolding(its_plain::specs::Call::Decode::error_by))]
fn error_by(row: Option<CallRow>, inputs: usize, outputs: usize, excess: bool) -> u8
    ensures { result ≡ error_by row inputs outputs excess }
{
    match row {
        None => error::NO_CALL,
        Some(r) if inputs < r.least_in || outputs < r.least_out => error::TOO_FEW,
        Some(r) if inputs > r.most_in || outputs > r.most_out || excess => error::TOO_MANY,
        Some(_) => 0,
    }
}

/// Whether there is a second error address, a second control, or no end of the argument words.
#[tactic(auto, unfolding(its_plain::specs::Call::Decode::exceeds))]
fn exceeds(errors: u32, controls: u32, words: &[Word]) -> bool
    ensures { result ≡ exceeds errors controls words.now }
{
    errors > 1 || controls > 1 || !have_end(words)
}

/// Whether one of these argument words is the last of its block.
fn have_end(words: &[Word]) -> bool
    ensures { result ≡ list_any has_bit_0 words.now }
{
    words.iter().any(|w| has_bit_0(*w))
}
