//! Words at their addresses.
ghost use Rattle.std.specs.Prelude.{◌≡◌, ◌<◌, ◌^◌, [], length, slice_get, ◌++◌, IfOk, OnOk};
ghost use Rattle.its_asm.specs.Assembly.{inserted, is_given};
ghost use Rattle.its_asm.specs.Cells.{cell_at, cells_from};

use its_word::{ADDRESSES, Word, filled};
use std::alloc::{AllocError, Global};
use std::marker::Model;

/// Addresses with their words. Contracts see the list of pairs, in rising order of address.
#[derive(Drop)]
pub struct Cells {
    cells: Vec<(u32, Word)>,
}

impl Model for Cells {
    ghost use Rattle.std.specs.Prelude.{ℕ, List};

    ghost Value = { List (ℕ × ℕ) };

    ghost view = { λ c. c.cells.items };
}

impl Cells {
    /// The address and the word at place `k`, from 0; None exactly past the end.
    pub fn at(&self, k: u32) -> Option<(u32, Word)>
        ensures { result ≡ slice_get self.now k }
    {
        self.cells.get(k as usize).copied()
    }

    /// All of them.
    pub fn as_slice(&self) -> &[(u32, Word)]
        ensures { result.now ≡ self.now }
    {
        self.cells.as_slice()
    }
}

/// The words that were given so far, by address. Contracts see them as a list of pairs, in rising
/// order of address.
#[derive(Drop)]
pub struct Given {
    words: Vec<Option<Word>>,
}

impl Model for Given {
    ghost use Rattle.std.specs.Prelude.{◌≡◌, ℕ, List, length};
    ghost use Rattle.its_asm.specs.Cells.{cells_from};

    ghost Value = { List (ℕ × ℕ) };

    ghost view = { λ g. cells_from 0 g.words.items };

    ghost invariant = { λ g. length g.words.items ≡ 262144 };
}

impl Given {
    /// No words.
    #[tactic(auto, using(crate::proofs::CellLaws::none_given, crate::proofs::CellLaws::none_length))]
    pub fn new(alloc: Global) -> Result<Given, AllocError>
        ensures { IfOk result (λ g. g ≡ []) }
    {
        let words = filled(alloc, None, ADDRESSES as usize).map_err(|_| AllocError)?;
        Ok(Given { words })
    }

    /// Whether a word was given at this address.
    pub fn has(&self, a: u64) -> bool
        ensures { result ≡ is_given self.now a }
    {
        has_word(self.words.as_slice(), a as usize)
    }

    /// Gives a word.
    #[tactic(auto, using(crate::proofs::CellLaws::put_at))]
    pub fn put(&mut self, a: u32, w: Word)
        requires { a < 2 ^ 18 }
        ensures { self.new ≡ inserted a w self.old }
    {
        self.words[a as usize] = Some(w);
    }

    /// The words in rising order of address.
    pub fn cells(&self, alloc: Global) -> Result<Cells, AllocError>
        ensures { IfOk result (λ c. c ≡ self.now) }
    {
        cells_in(alloc, self.words.as_slice())
    }
}

/// The contents of a table at an address; None past its end.
fn word_at(words: &[Option<Word>], a: usize) -> Option<Option<Word>>
    ensures { result ≡ slice_get words.now a }
{
    words.get(a).copied()
}

/// Whether a table has a word at this address.
fn has_word(words: &[Option<Word>], a: usize) -> bool
    ensures { result ≡ is_given (cells_from 0 words.now) a }
{
    match word_at(words, a) {
        Some(word) => word.is_some(),
        None => false,
    }
}

/// Adds a word at its address, if there is one.
fn push_cell(cells: &mut Vec<(u32, Word)>, a: u32, word: Option<Word>) -> Result<(), AllocError>
    ensures { OnOk result (cells.new.items ≡ cells.old.items ++ cell_at a word) }
{
    if let Some(w) = word {
        cells.push((a, w))?;
    }
    Ok(())
}

/// The words of a table in rising order of address.
#[tactic(auto, using(crate::proofs::CellLaws::cells_none))]
fn cells_in(alloc: Global, words: &[Option<Word>]) -> Result<Cells, AllocError>
    requires { length words.now < 2 ^ 32 }
    ensures { IfOk result (λ c. c ≡ cells_from 0 words.now) }
{
    let mut cells = Vec::new(alloc);
    for a in 0..words.len() {
        push_cell(&mut cells, a as u32, words[a])?;
    }
    Ok(Cells { cells })
}
