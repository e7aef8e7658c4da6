//! What an instruction does, as a plan: its stores, its PC, its flags; and the chain of XCTs to it.

ghost use Rattle.std.specs.Prelude.{◌≡◌};

use super::instruction::Instruction;
use super::word::Word;
use arrayvec::ArrayVec;

/// What the row of an instruction finds: the PC (of the XCT that began a chain), the flags as bits
/// of the left half of a PC word, the AC field, the effective address, the last index register or
/// indirect word that its calculation used, and how much of the budget of 64 indirect words and XCT
/// targets is used.
#[derive(Clone, Copy, Debug, PartialEq, Eq)]
pub struct Context {
    pub pc: u32,
    pub flags: u32,
    pub a: u32,
    pub e: u32,
    pub flags_word: Option<Word>,
    pub used: u32,
}

/// An instruction, and what its row finds.
#[derive(Clone, Copy, Debug, PartialEq, Eq)]
pub struct Reached {
    pub instruction: Instruction,
    pub context: Context,
}

/// To what an instruction word leads: to its own instruction, or, if it is an XCT, to another word,
/// with so much of the budget used.
#[derive(Clone, Copy, Debug, PartialEq, Eq)]
pub enum ChainStep {
    Found(Reached),
    Target { word: Word, used: u32 },
}

/// A store of a word at an address.
#[derive(Clone, Copy, Debug, PartialEq, Eq)]
pub struct Store {
    pub at: u32,
    pub word: Word,
}

impl Default for Store {
    ghost is_default = { λ s. s ≡ record { at = 0; word = 0 } };

    fn default() -> Store {
        Store {
            at: 0,
            word: Word::ZERO,
        }
    }
}

/// What a unit does: its stores in their order, the PC (modulo 2^18) and the flags after it, and
/// the bits of pending word 1 that it sets.
#[derive(Debug, PartialEq, Eq, Drop)]
pub struct Plan {
    pub stores: ArrayVec<Store, 3>,
    pub pc: u32,
    pub flags: u32,
    pub pending: Word,
}
