//! The places of lines, and the symbols that they define.
ghost use Rattle.std.specs.Prelude.{◌≡◌, ◌||◌, ◌<◌, ◌≤◌, ◌+◌, ◌%◌, ◌^◌, length, map, drop, IfOk, OnOk};
ghost use Rattle.arrayvec.specs.ArrayVec.{array_vec_len};
ghost use Rattle.its_asm.specs.Layout.{before_all, labelled, passed, read, statement_at};
ghost use Rattle.its_asm.specs.Assembly.{any_defined, is_symbol_twice};
ghost use Rattle.its_asm.specs.Reading.{scope_of};
ghost use Rattle.its_asm.specs.Statement.{labels_of};

use super::expression::Names;
use super::statements::{Statement, body, job};
use super::symbols::{Symbols, label};
use super::words::{is_printable, statement_words};
use arrayvec::ArrayVec;
use its_word::Word;
use std::alloc::{AllocError, Global};

/// Which statements may occur.
#[derive(Clone, Copy, Debug, PartialEq, Eq)]
pub enum Stage {
    /// JOB.
    Begin,
    /// All others.
    Body,
    /// None, after GO.
    After,
}

/// What the lines so far leave to the next.
#[derive(Drop)]
pub struct Layout {
    pub stage: Stage,
    pub location: u64,
    pub symbols: Symbols,
}

/// A line that was read: its labels and its statement.
#[derive(Drop)]
pub struct Line {
    pub labels: ArrayVec<Word, 128>,
    pub statement: Statement,
}

/// The labels before a statement, in order.
#[tactic(auto, using(crate::proofs::LayoutLaws::labels_more, crate::proofs::LayoutLaws::labels_end, crate::proofs::LayoutLaws::labels_none))]
fn labels(words: &[&[u8]]) -> ArrayVec<Word, 128>
    requires { length words.now ≤ 128 }
    ensures labels { result.items ≡ labels_of (map (λ w. w.now) words.now) }
    ensures few { array_vec_len result ≤ length words.now }
{
    let mut labels = ArrayVec::new();
    let mut rest = words;
    while let [word, after @ ..] = rest {
        let Some(name) = label(word) else {
            return labels;
        };
        labels.push(name);
        rest = after;
    }
    labels
}

/// The words after the first `k`.
#[tactic(auto, using(crate::proofs::LayoutLaws::behind_labels))]
fn behind<'a>(words: &'a [&'a [u8]], k: usize) -> &'a [&'a [u8]]
    requires { k ≤ length words.now }
    ensures { map (λ w. w.now) result.now ≡ drop k (map (λ w. w.now) words.entry.now) }
{
    &words[k..]
}

/// The statement of a line's words at a stage, of which the first `k` are labels.
fn statement_at(
    stage: Stage,
    earlier: Names,
    names: Names,
    k: usize,
    words: &[&[u8]],
) -> Option<Statement>
    requires { k ≤ length words.now }
    ensures { result ≡ statement_at stage (scope_of earlier.entry) (scope_of names.entry) k (map (λ w. w.now) words.now) }
{
    match words {
        [] => Some(Statement::Nothing),
        [_first, ..] => match stage {
            Stage::Begin => job(words),
            Stage::Body => body(earlier, names, behind(words, k)),
            Stage::After => None,
        },
    }
}

/// Whether one of two holds.
fn either(a: bool, b: bool) -> bool
    ensures { result ≡ (a || b) }
{
    a || b
}

impl Layout {
    /// Before the first line.
    pub fn new(alloc: Global) -> Layout
        ensures { result ≡ before_all }
    {
        Layout {
            stage: Stage::Begin,
            location: 0,
            symbols: Symbols::new(alloc),
        }
    }

    /// What a line of at most 255 bytes says here, when these symbols are defined; None if it is no
    /// statement.
    #[tactic(auto, unfolding(crate::specs::Layout::read))]
    pub fn read(&self, standing: &Symbols, line: &[u8]) -> Option<Line>
        requires { length line.now ≤ 255 }
        ensures { result ≡ read self.now standing.now line.now }
    {
        if !is_printable(line) {
            return None;
        }
        let words = statement_words(line);
        let labels = labels(words.as_slice());
        let here = Some((self.location % 0o1000000) as u32);
        let earlier = Names {
            symbols: Some(&self.symbols),
            here,
        };
        let names = Names {
            symbols: Some(standing),
            here,
        };
        let statement = statement_at(self.stage, earlier, names, labels.len(), words.as_slice())?;
        Some(Line { labels, statement })
    }

    /// Defines the labels of a line; whether one of them was defined already.
    #[tactic(auto, using(crate::proofs::LayoutLaws::labelled_none, crate::proofs::LayoutLaws::labelled_more, crate::proofs::LayoutLaws::any_defined_more))]
    fn define_labels(&mut self, labels: &[Word]) -> Result<bool, AllocError>
        ensures symbols { OnOk result (self.new.symbols ≡ labelled self.old.symbols (self.old.location % 2 ^ 18) labels.now) }
        ensures twice { IfOk result (λ t. t ≡ any_defined self.old.symbols (self.old.location % 2 ^ 18) labels.now) }
        ensures same { OnOk result ((self.new.location ≡ self.old.location) × (self.new.stage ≡ self.old.stage)) }
    {
        let value = (self.location % 0o1000000) as u32;
        let mut twice = false;
        for name in labels {
            let stood = self.symbols.define(*name, value)?;
            twice = either(twice, stood);
        }
        Ok(twice)
    }

    /// Goes on after a line; whether it gave a symbol that was defined already.
    pub fn pass(&mut self, line: &Line) -> Result<bool, AllocError>
        requires { self.old.location < 2 ^ 63 }
        ensures passed { OnOk result (self.new ≡ passed self.old line.now) }
        ensures twice { IfOk result (λ t. t ≡ is_symbol_twice self.old line.now) }
        ensures rises { OnOk result (self.new.location ≤ self.old.location + 2 ^ 32) }
    {
        let mut twice = self.define_labels(line.labels.as_slice())?;
        match line.statement {
            Statement::Nothing => {}
            Statement::Job { .. } => self.stage = Stage::Body,
            Statement::Equals { name, value } => {
                twice = twice || self.symbols.value(name).is_some();
                if let Ok(value) = value {
                    let _stood = self.symbols.define(name, value)?;
                }
            }
            Statement::Loc { to } => {
                if let Ok(to) = to {
                    self.location = u64::from(to);
                }
            }
            Statement::Gives { .. } => self.location += 1,
            Statement::Go { .. } => self.stage = Stage::After,
        }
        Ok(twice)
    }
}
