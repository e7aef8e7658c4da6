//! What a call asks for.
ghost use Rattle.std.specs.Prelude.{◌≡◌, ◌==◌, ◌<◌, ◌≤◌, ◌+◌, ◌*◌, ◌%◌, ◌^◌, ◌++◌, [], length, map, not, None, Ok, Err, IfErr, OnOk};
ghost use Rattle.std.specs.List.{list_any, range_with_len};
ghost use Rattle.its_core.specs.Cores.{core_at};
ghost use Rattle.its_plain.specs.Call.Decode.{ask as asked, error_by, exceeds, has_bit_0, iot_ask, row_named};
ghost use Rattle.its_stepped.specs.TwoParts.{fetch_of, fetched, parse_of};
ghost use Rattle.its_plain.specs.Call.Footprint.{SiteFits};

use super::arguments::fetch_arguments;
use super::block::{has_bit_0, name_of, parse_block, words_of};
use arrayvec::ArrayVec;
use its_core::Core;
use its_frame::{CallName, CallRow, error};
use its_records::{Ask, Block, Operand, Site};
use its_word::{ADDRESSES, Fault, Slot, Word};

/// The row of a call that a block can name: any but `.IOT`, which has none.
#[tactic(auto, unfolding(its_plain::specs::Call::Decode::row_named))]
fn row_named(name: Word) -> Option<CallRow>
    ensures { result ≡ row_named name }
{
    match CallName::named(name) {
        Some(CallName::Iot) => None,
        Some(call) => Some(call.row()),
        None => None,
    }
}

/// The error of a call: 1 if no call has the name, 2 if there are too few arguments, 3 if there are
/// too many, else 0.
#[tactic(auto, unfolding(its_plain::specs::Call::Decode::error_by))]
fn error_by(row: Option<CallRow>, inputs: usize, outputs: usize, excess: bool) -> u8
    ensures { result ≡ error_by row inputs outputs excess }
{
    let Some(r) = row else {
        return error::NO_CALL;
    };
    if inputs < r.least_in || outputs < r.least_out {
        error::TOO_FEW
    } else if inputs > r.most_in || outputs > r.most_out || excess {
        error::TOO_MANY
    } else {
        0
    }
}

/// Whether one of these argument words is the last of its block.
fn have_end(words: &[Word]) -> bool
    ensures { result ≡ list_any has_bit_0 words.now }
{
    words.iter().any(|w| has_bit_0(*w))
}

/// Whether there is a second error address, a second control, or no end of the argument words.
#[tactic(auto, unfolding(its_plain::specs::Call::Decode::exceeds))]
fn exceeds(errors: usize, controls: usize, words: &[Word]) -> bool
    ensures { result ≡ exceeds errors controls words.now }
{
    errors > 1 || controls > 1 || !have_end(words)
}

/// Writes a list of places over another.
fn copy_places(from: &ArrayVec<u32, 160>, to: &mut ArrayVec<u32, 160>)
    ensures { to.new.items ≡ from.now.items }
{
    to.clear();
    for p in from.iter() {
        to.push(*p);
    }
}

/// Begins what a call asks for: no argument is found, and the decode words are those of its site.
fn begin(site: &Site, ask: &mut Ask)
    ensures inputs { ask.new.inputs.items ≡ [] }
    ensures outputs { ask.new.outputs.items ≡ [] }
    ensures error { ask.new.error ≡ None }
    ensures control { ask.new.control ≡ None }
    ensures decode { ask.new.decode.items ≡ site.now.decode.items }
    ensures operand { ask.new.operand.items ≡ [] }
{
    ask.inputs.clear();
    ask.outputs.clear();
    ask.error = None;
    ask.control = None;
    ask.operand.clear();
    copy_places(&site.decode, &mut ask.decode);
}

/// Notes the places of the words of a block.
#[tactic(auto, using(crate::proofs::ArgumentLaws::noted_more))]
fn note_block(e: u32, words: u32, decode: &mut ArrayVec<u32, 160>)
    requires address { e < 2 ^ 18 }
    requires words { words ≤ 10 }
    requires room { length decode.old.items ≤ 150 }
    ensures noted { decode.new.items ≡ decode.old.items ++ map (λ k. k % 2 ^ 18) (range_with_len e words) }
    ensures more { length decode.new.items ≡ length decode.old.items + words }
{
    for k in 0..words {
        decode.push((e + k) % ADDRESSES);
    }
}

/// What a call by a block asks for, when its block is read. The decode words are those of the site,
/// those of the block, and those of the arguments' addresses. The fault is that of the first
/// argument that has one.
fn fetch_ask(
    core: &Core,
    slot: Slot,
    site: &Site,
    block: &Block,
    ask: &mut Ask,
) -> Result<(), Fault>
    requires fits { SiteFits site.now }
    requires words { 2 ≤ length block.now.items }
    ensures fetched { OnOk result (fetched (core_at core.now slot) site.now block.now ≡ Ok ask.new) }
    ensures fault { IfErr result (λ f. fetched (core_at core.now slot) site.now block.now ≡ Err f) }
{
    begin(site, ask);
    note_block(site.e, block.len() as u32, &mut ask.decode);
    let words = words_of(block);
    let found = fetch_arguments(core, slot, words, site.used, ask)?;
    let excess = exceeds(found.errors, found.controls, words);
    let name = name_of(block);
    ask.name = name;
    ask.fail = error_by(row_named(name), ask.inputs.len(), ask.outputs.len(), excess);
    Ok(())
}

/// What `.IOT` asks for: its channel is its one input, and E its one output address.
#[tactic(auto, unfolding(its_plain::specs::Call::Decode::iot_ask))]
fn ask_iot(site: &Site, channel: u8, ask: &mut Ask)
    ensures { ask.new ≡ iot_ask site.now channel }
{
    begin(site, ask);
    ask.name = CallName::Iot.word();
    ask.fail = 0;
    ask.inputs.push(Operand {
        value: Word::new(u64::from(channel)),
        place: None,
    });
    ask.outputs.push(site.e);
}

/// The first part of a call's decoding: its block is read into `block`. `.IOT` has none. A fault of
/// the first part is that of the decoding.
#[tactic(auto, unfolding(its_stepped::specs::TwoParts::parse_of), using(crate::proofs::AskLaws::unparsed))]
pub fn parse_site(core: &Core, slot: Slot, site: &Site, block: &mut Block) -> Result<(), Fault>
    requires address { site.now.e < 2 ^ 18 }
    ensures block { OnOk result (parse_of (core_at core.now slot) site.now ≡ Ok block.new) }
    ensures fault { IfErr result (λ f. parse_of (core_at core.now slot) site.now ≡ Err f) }
    ensures ask { IfErr result (λ f. asked (core_at core.now slot) site.now ≡ Err f) }
{
    match site.channel {
        Some(_) => {
            block.clear();
            Ok(())
        }
        None => {
            parse_block(core, slot, site.e, block)?;
            Ok(())
        }
    }
}

/// The second part: the arguments of a call whose block is read are found, and what it asks for is
/// written to `ask`. Of the block that the first part has read this is the whole decoding. After a
/// fault `ask` is unspecified.
#[tactic(auto, unfolding(its_stepped::specs::TwoParts::fetch_of), using(crate::proofs::AskLaws::both_parts))]
pub fn fetch_site(
    core: &Core,
    slot: Slot,
    site: &Site,
    block: &Block,
    ask: &mut Ask,
) -> Result<(), Fault>
    requires fits { SiteFits site.now }
    requires words { site.now.channel ≡ None → 2 ≤ length block.now.items }
    ensures fetched { OnOk result (fetch_of (core_at core.now slot) site.now block.now ≡ Ok ask.new) }
    ensures fault { IfErr result (λ f. fetch_of (core_at core.now slot) site.now block.now ≡ Err f) }
    ensures asks { OnOk result (parse_of (core_at core.now slot) site.now ≡ Ok block.now → asked (core_at core.now slot) site.now ≡ Ok ask.new) }
{
    match site.channel {
        Some(channel) => {
            ask_iot(site, channel, ask);
            Ok(())
        }
        None => {
            fetch_ask(core, slot, site, block, ask)?;
            Ok(())
        }
    }
}
