//! The symbols of a job, and the one that is nearest to a PC.
ghost use Rattle.std.specs.Prelude.{◌≡◌, ◌<◌, ◌≤◌, [], ◌∷◌, ◌++◌, IfOk, length};
ghost use Rattle.its_word.specs.Limits.{most_symbols};
ghost use Rattle.its_plain.specs.Operator.Symbols.{nearer, symbol_shown};
ghost use Rattle.its_shared.specs.Parts.{no_symbols};

use its_word::{MOST_SYMBOLS, NoMemory, Word};
use std::alloc::Global;
use std::marker::Model;

/// The symbols of a job, each with its address, in the order in which they were given. The memory
/// for all of them is taken at the opening; a symbol is first written when it is given. Contracts
/// see what they would see of an array vector.
#[derive(Drop)]
pub struct SymbolTable {
    symbols: Vec<(Word, u32)>,
}

impl Model for SymbolTable {
    ghost use Rattle.std.specs.Prelude.{◌≡◌, ◌≤◌, ℕ, length, vec_capacity};
    ghost use Rattle.its_word.specs.Limits.{most_symbols};
    ghost use Rattle.its_word.specs.ArrayVec.{ArrayVec};

    ghost Value = { ArrayVec (ℕ × ℕ) };

    ghost view = { λ t. record { items = t.symbols.items } };

    ghost invariant = { λ t. (vec_capacity t.symbols ≡ most_symbols) × (length t.symbols.items ≤ most_symbols) };
}

impl SymbolTable {
    /// No symbol. Takes the memory for as many as a job can have.
    pub fn open(alloc: Global) -> Result<SymbolTable, NoMemory>
        ensures { IfOk result (λ t. t ≡ no_symbols) }
    {
        let symbols = Vec::with_capacity(alloc, MOST_SYMBOLS).map_err(|_| NoMemory)?;
        Ok(SymbolTable { symbols })
    }

    /// How many symbols there are.
    pub fn len(&self) -> usize
        ensures length { result ≡ length self.now.items }
        ensures most { result ≤ most_symbols }
    {
        self.symbols.len()
    }

    /// The symbols, in their order.
    pub fn as_slice(&self) -> &[(Word, u32)]
        ensures { result.now ≡ self.now.items }
    {
        self.symbols.as_slice()
    }

    /// Adds a symbol, the last; there is room for it.
    pub fn push(&mut self, symbol: (Word, u32))
        requires { length self.old.items < most_symbols }
        ensures items { self.new.items ≡ self.old.items ++ symbol ∷ [] }
    {
        self.symbols.push_reserved(symbol);
    }

    /// Takes all symbols away.
    pub fn clear(&mut self)
        ensures { self.new.items ≡ [] }
    {
        self.symbols.clear();
    }
}

/// The symbol of the greatest address at most a PC, of those with one address the last, and how far
/// the PC is past it.
#[tactic(auto, using(crate::proofs::SymbolLaws::near_start, crate::proofs::SymbolLaws::near_next, crate::proofs::SymbolLaws::near_some, crate::proofs::SymbolLaws::near_none))]
pub fn nearest(symbols: &[(Word, u32)], pc: u32) -> Option<(Word, u32)>
    ensures { result ≡ symbol_shown pc symbols.now }
{
    let mut best = None;
    for symbol in symbols {
        best = nearer(pc, best, *symbol);
    }
    match best {
        Some((name, a)) => Some((name, pc - a)),
        None => None,
    }
}

/// The nearer of two symbols to a PC; of two with one address the second.
fn nearer(pc: u32, best: Option<(Word, u32)>, symbol: (Word, u32)) -> Option<(Word, u32)>
    ensures { result ≡ nearer pc best symbol }
{
    let (_, a) = symbol;
    let is_nearer = match best {
        Some((_, b)) => a <= pc && b <= a,
        None => a <= pc,
    };
    if is_nearer { Some(symbol) } else { best }
}
