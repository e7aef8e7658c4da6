//! Symbols and their values.
ghost use Rattle.std.specs.Prelude.{◌≡◌, ◌<◌, ◌^◌, ℕ, Some, None, [], length, nat_eq, slice_get, IfOk, OnOk};
ghost use Rattle.std.specs.List.{list_all};
ghost use Rattle.std.specs.Map.{lookup};
ghost use Rattle.its_asm.specs.Layout.{defined, is_defined};
ghost use Rattle.its_asm.specs.Text.{is_symbol, is_symbol_byte, label_of, symbol_of};

use super::words::closed;
use indexmap::IndexMap;
use its_word::{Word, read_sixbit};
use std::alloc::{AllocError, Global};
use std::marker::Model;

/// Symbols with their values. Contracts see them as the list of pairs of name and value, in order
/// of definition.
#[derive(Drop)]
pub struct Symbols {
    values: IndexMap<Word, u32>,
}

impl Model for Symbols {
    ghost use Rattle.std.specs.Prelude.{ℕ, List};

    ghost Value = { List (ℕ × ℕ) };

    ghost view = { λ s. s.values.entries };
}

impl Symbols {
    /// No symbols.
    pub(crate) fn new(alloc: Global) -> Symbols
        ensures { result ≡ [] }
    {
        Symbols {
            values: IndexMap::new(alloc),
        }
    }

    /// The name and the value of symbol `k`, from 0; None exactly past the end.
    pub fn at(&self, k: u32) -> Option<(Word, u32)>
        ensures { result ≡ slice_get self.now k }
    {
        let (name, value) = self.values.get_index(k as usize)?;
        Some((*name, *value))
    }

    /// How many there are.
    pub(crate) fn len(&self) -> usize
        ensures { result ≡ length self.now }
    {
        self.values.len()
    }

    /// Defines a symbol, unless it is defined: then its first value stays. Whether it was defined.
    #[tactic(auto, using(crate::proofs::SymbolLaws::defines, crate::proofs::SymbolLaws::keeps))]
    pub(crate) fn define(&mut self, name: Word, value: u32) -> Result<bool, AllocError>
        ensures symbols { OnOk result (self.new ≡ defined self.old name value) }
        ensures stood { IfOk result (λ b. b ≡ is_defined self.old name) }
    {
        if self.value(name).is_some() {
            return Ok(true);
        }
        let _none = self.values.insert(name, value).map_err(|_| AllocError)?;
        Ok(false)
    }

    /// The value of a symbol; None if it is not defined.
    pub fn value(&self, name: Word) -> Option<u32>
        ensures { result ≡ lookup (nat_eq name) self.now }
    {
        self.values.get(&name).copied()
    }
}

/// Letters, digits and `.` alone.
fn are_symbol_bytes(text: &[u8]) -> bool
    ensures { result ≡ list_all is_symbol_byte text.now }
{
    text.iter().all(|b| is_symbol_byte(*b))
}

/// Whether this is a symbol: 1 to 6 bytes, a letter first, then letters, digits or `.`.
#[tactic(auto, unfolding(crate::specs::Text::is_symbol))]
fn is_symbol(text: &[u8]) -> bool
    ensures { result ≡ is_symbol text.now }
{
    match text {
        [b'A'..=b'Z', rest @ ..] if rest.len() <= 5 => are_symbol_bytes(rest),
        _ => false,
    }
}

/// A symbol's name as a word.
#[tactic(auto, using(crate::proofs::ReadingLaws::symbol_is_name))]
pub fn symbol(text: &[u8]) -> Option<Word>
    ensures { result ≡ symbol_of text.now }
{
    if is_symbol(text) {
        read_sixbit(text).ok()
    } else {
        None
    }
}

/// A letter, a digit or `.`.
fn is_symbol_byte(b: u8) -> bool
    ensures { result ≡ is_symbol_byte b }
{
    match b {
        b'A'..=b'Z' => true,
        b'0'..=b'9' => true,
        b'.' => true,
        _ => false,
    }
}

/// The symbol of a label, `NAME:`.
pub fn label(word: &[u8]) -> Option<Word>
    ensures { result ≡ label_of word.now }
{
    symbol(closed(word, b':')?)
}
