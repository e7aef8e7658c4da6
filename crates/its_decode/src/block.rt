//! The block of a call.
ghost use Rattle.std.specs.Prelude.{◌≡◌, ◌+◌, ◌%◌, ◌^◌, ◌<◌, ◌≤◌, ◌&&◌, length, nat_lt, Ok, Err, IfErr, OnOk};
ghost use Rattle.std.specs.List.{list_all};
ghost use Rattle.its_core.specs.Cores.{core_at};
ghost use Rattle.its_plain.specs.Unit.Plans.{read_of};
ghost use Rattle.its_plain.specs.Call.Decode.{argument_words, block_at, checked, has_bit_0, is_legal, name_of, parsed, type_of, words_of};

use its_core::Core;
use its_plain::ARGUMENTS;
use its_records::Block;
use its_word::{ADDRESSES, Fault, Slot, Word};

/// Bit 0 of a word.
pub fn has_bit_0(w: Word) -> bool
    ensures { result ≡ has_bit_0 w }
{
    w.value() >> 35 == 1
}

/// The type of an argument word.
pub fn argument_type(w: Word) -> u32
    ensures { result ≡ type_of w }
{
    (w.value() >> 27 & 7) as u32
}

/// The name of the call of a block.
pub fn name_of(block: &[Word]) -> Word
    requires { 2 ≤ length block.now }
    ensures { result ≡ name_of block.now }
{
    block[1]
}

/// The argument words of a block.
pub fn words_of(block: &[Word]) -> &[Word]
    requires { 2 ≤ length block.now }
    ensures { result.now ≡ words_of block.now }
{
    &block[2..]
}

/// The word at an address modulo 2^18; Mpv if it is absent.
#[tactic(auto, unfolding(its_plain::specs::Unit::Plans::read_of))]
fn read(core: &Core, slot: Slot, a: u32) -> Result<Word, Fault>
    ensures { result ≡ read_of (core_at core.now slot) (a % 2 ^ 18) }
{
    core.get(slot, a % ADDRESSES).map_err(|_| Fault::Mpv)
}

/// Appends the argument words of a block, which begin at an address, up to the first with bit 0 on,
/// at most 8. Mpv if one of them is absent.
#[tactic(auto, using(crate::proofs::BlockLaws::words_more, crate::proofs::BlockLaws::words_last, crate::proofs::BlockLaws::words_absent, crate::proofs::BlockLaws::words_over))]
fn read_words(core: &Core, slot: Slot, a: u32, block: &mut Block) -> Result<(), Fault>
    requires address { a < 2 ^ 19 }
    requires room { length block.old.items ≤ 2 }
    ensures words { OnOk result ((argument_words 8 (core_at core.now slot) a block.old.items).answer ≡ Ok block.new) }
    ensures fault { IfErr result (λ f. (argument_words 8 (core_at core.now slot) a block.old.items).answer ≡ Err f) }
    ensures more { OnOk result (length block.old.items ≤ length block.new.items) }
{
    for k in 0..ARGUMENTS {
        let w = read(core, slot, a + k)?;
        block.push(w);
        if has_bit_0(w) {
            return Ok(());
        }
    }
    Ok(())
}

/// Reads the block at an address, whether it is legal or not. Mpv if one of its words is absent.
#[tactic(auto, unfolding(its_plain::specs::Call::Decode::block_at, its_plain::specs::Unit::Trace::also, its_plain::specs::Unit::Trace::word))]
fn read_block(core: &Core, slot: Slot, e: u32, block: &mut Block) -> Result<(), Fault>
    requires address { e < 2 ^ 18 }
    ensures block { OnOk result ((block_at (core_at core.now slot) e).answer ≡ Ok block.new) }
    ensures fault { IfErr result (λ f. (block_at (core_at core.now slot) e).answer ≡ Err f) }
    ensures words { OnOk result (2 ≤ length block.new.items) }
{
    block.clear();
    block.push(read(core, slot, e)?);
    block.push(read(core, slot, e + 1)?);
    read_words(core, slot, e + 2, block)?;
    Ok(())
}

/// Whether all of these argument words have a type.
fn have_types(words: &[Word]) -> bool
    ensures { result ≡ list_all (λ w. nat_lt (type_of w) 6) words.now }
{
    words.iter().all(|w| argument_type(*w) < 6)
}

/// Whether bit 0 of a block's first word is on, and its arguments have types.
#[tactic(auto, unfolding(its_plain::specs::Call::Decode::is_legal))]
fn is_legal(block: &[Word]) -> bool
    requires { 2 ≤ length block.now }
    ensures { result ≡ is_legal block.now }
{
    has_bit_0(block[0]) && have_types(words_of(block))
}

/// Reads the block of a call at an address: its first word, its name, and argument words up to the
/// first with bit 0 on, at most 8. Mpv if one of its words is absent; else Ilo if bit 0 of the
/// first word is off, or an argument has no type.
#[tactic(auto, unfolding(its_plain::specs::Call::Decode::parsed, its_plain::specs::Unit::Trace::also))]
pub fn parse_block(core: &Core, slot: Slot, e: u32, block: &mut Block) -> Result<(), Fault>
    requires address { e < 2 ^ 18 }
    ensures parsed { OnOk result ((parsed (core_at core.now slot) e).answer ≡ Ok block.new) }
    ensures fault { IfErr result (λ f. (parsed (core_at core.now slot) e).answer ≡ Err f) }
{
    read_block(core, slot, e, block)?;
    if is_legal(block.as_slice()) {
        Ok(())
    } else {
        Err(Fault::Ilo)
    }
}
