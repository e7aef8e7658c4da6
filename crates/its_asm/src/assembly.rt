//! The assembly of a text.
ghost use Rattle.std.specs.Prelude.{◌≡◌, ◌<◌, ◌≤◌, ◌+◌, ◌^◌, ◌∷◌, false, length, Ok, IfOk, IfErr, OnOk};
ghost use Rattle.its_asm.specs.Assembly.{address_of, any_given, assembly, ended, from_line, is_location_twice, is_past, is_undefined, lines_of, literals_past, made, nothing_made, placed, unless, used, with_line};
ghost use Rattle.its_asm.specs.Layout.{before_all, laid, laid_out};
ghost use Rattle.its_asm.specs.Making.{IsFault, seen};

use super::cells::{Cells, Given};
use super::instruction::Item;
use super::layout::{Layout, Stage};
use super::reason::{AsmFault, AsmReason};
use super::statements::Statement;
use super::symbols::Symbols;
use indexmap::IndexSet;
use its_chart::cut;
use its_word::{ConsoleNumber, Word};
use std::alloc::{AllocError, Global};

/// What a text says of a job: its names, its console, its words, its symbols and its start.
#[derive(Drop)]
pub struct Image {
    pub u: Word,
    pub j: Word,
    pub console: Option<ConsoleNumber>,
    pub words: Cells,
    pub symbols: Symbols,
    pub start: u32,
}

/// An assembly under way.
#[derive(Drop)]
pub struct Assembly {
    pub layout: Layout,
    pub u: Word,
    pub j: Word,
    pub console: Option<ConsoleNumber>,
    pub cells: Given,
    pub literals: IndexSet<Word>,
    pub start: u32,
}

/// The first line of a text that has one, without its LF, and the text after it.
#[tactic(auto, using(crate::proofs::LineLaws::line_cut, crate::proofs::LineLaws::line_last))]
fn first_line(text: &[u8]) -> (&[u8], &[u8])
    requires { 0 < length text.now }
    ensures lines { lines_of text.now ≡ result.0.now ∷ lines_of result.1.now }
    ensures shorter { length result.1.now < length text.now }
{
    match cut(text, b"\n") {
        Some((line, _lf, rest)) => (line, rest),
        None => (text, &[]),
    }
}

/// One more line of a layout.
#[tactic(auto, unfolding(crate::specs::Layout::laid))]
fn lay(layout: &mut Layout, line: &[u8]) -> Result<(), AllocError>
    requires { layout.old.location < 2 ^ 63 }
    ensures laid { OnOk result (layout.new ≡ laid layout.old line.now) }
    ensures rises { OnOk result (layout.new.location ≤ layout.old.location + 2 ^ 32) }
{
    if line.len() > 255 {
        layout.stage = Stage::After;
        return Ok(());
    }
    if let Some(line) = layout.read(&layout.symbols, line) {
        let _twice = layout.pass(&line)?;
    }
    Ok(())
}

/// The layout of a whole text.
#[tactic(auto, using(crate::proofs::LineLaws::laid_end, crate::proofs::LineLaws::laid_more))]
fn lay_out(alloc: Global, text: &[u8]) -> Result<Layout, AllocError>
    requires { length text.now ≤ 2 ^ 28 }
    ensures layout { IfOk result (λ l. l ≡ laid_out before_all (lines_of text.now)) }
    ensures below { IfOk result (λ l. l.location < 2 ^ 63) }
{
    let mut layout = Layout::new(alloc);
    let mut rest = text;
    while !rest.is_empty() {
        let (line, after) = first_line(rest);
        lay(&mut layout, line)?;
        rest = after;
    }
    Ok(layout)
}

/// Whether a statement has an accumulator or index register above 17, or gives a word, or literals,
/// above 777777.
fn is_past(base: u64, statement: &Statement, a: &Assembly) -> bool
    requires { base < 2 ^ 63 }
    ensures { result ≡ is_past base statement.now (seen a.now) }
{
    match statement {
        Statement::Gives {
            item: Err(AsmReason::Range),
        } => true,
        Statement::Gives { .. } => a.layout.location >= 0o1000000,
        Statement::Go { .. } => {
            let n = a.literals.len() as u64;
            n > 0 && base + n > 0o1000000
        }
        _ => false,
    }
}

/// Whether a statement asks for a symbol that is not defined.
fn is_undefined(statement: &Statement) -> bool
    ensures { result ≡ is_undefined statement.now }
{
    match statement {
        Statement::Equals { value: Err(_), .. } => true,
        Statement::Loc { to: Err(_) } => true,
        Statement::Gives { item: Err(_) } => true,
        Statement::Go { start: Err(_) } => true,
        _ => false,
    }
}

/// Whether one of the literals gets an address that has a word already.
#[tactic(auto, using(crate::proofs::LineLaws::any_here, crate::proofs::LineLaws::none_yet, crate::proofs::LineLaws::none_more, crate::proofs::LineLaws::none_given_all))]
fn any_given(cells: &Given, base: u64, literals: &[Word]) -> bool
    requires { base < 2 ^ 63 }
    ensures { result ≡ any_given base literals.now cells.now }
{
    let mut at = base;
    for _w in literals {
        if cells.has(at) {
            return true;
        }
        at += 1;
    }
    false
}

/// Whether a word, or a literal at GO, gets an address that has a word already.
fn is_location_twice(base: u64, statement: &Statement, a: &Assembly) -> bool
    requires { base < 2 ^ 63 }
    ensures { result ≡ is_location_twice base statement.now (seen a.now) }
{
    match statement {
        Statement::Gives { .. } => a.cells.has(a.layout.location),
        Statement::Go { .. } => any_given(&a.cells, base, a.literals.as_slice()),
        _ => false,
    }
}

/// Uses a literal; its address, if the first one is at `base`.
fn use_literal(literals: &mut IndexSet<Word>, base: u64, w: Word) -> Result<u32, AllocError>
    requires { base < 2 ^ 63 }
    ensures address { IfOk result (λ y. y ≡ address_of base literals.old.keys w) }
    ensures used { OnOk result (literals.new.keys ≡ used literals.old.keys w) }
{
    let (k, _new) = literals.insert_full(w).map_err(|_| AllocError)?;
    Ok(((base % 0o1000000 + k as u64 % 0o1000000) % 0o1000000) as u32)
}

/// Places literals from `base` on.
#[tactic(auto, using(crate::proofs::LineLaws::not_past, crate::proofs::LineLaws::placed_more))]
fn place(cells: &mut Given, base: u64, literals: &[Word])
    requires base { base < 2 ^ 63 }
    requires within { literals_past base literals.now ≡ false }
    ensures { cells.new ≡ placed base literals.now cells.old }
{
    let mut at = base;
    for w in literals {
        cells.put(at as u32, *w);
        at += 1;
    }
}

impl Assembly {
    /// Nothing is made yet.
    fn new(alloc: Global) -> Result<Assembly, AllocError>
        ensures { IfOk result (λ a. seen a ≡ nothing_made) }
    {
        Ok(Assembly {
            layout: Layout::new(alloc),
            u: Word::ZERO,
            j: Word::ZERO,
            console: None,
            cells: Given::new(alloc)?,
            literals: IndexSet::new(alloc),
            start: 0,
        })
    }

    /// Gives a word to the location, with the address of its literal, if it has one.
    fn give(&mut self, base: u64, item: Item) -> Result<(), AllocError>
        requires base { base < 2 ^ 63 }
        requires address { self.old.layout.location < 2 ^ 18 }
        ensures { OnOk result (seen self.new ≡ made base (Statement.Gives (Ok item)) (seen self.old)) }
    {
        let word = match item.literal {
            Some(w) => Word::pair(item.word.left(), use_literal(&mut self.literals, base, w)?),
            None => item.word,
        };
        self.cells.put(self.layout.location as u32, word);
        Ok(())
    }

    /// Does what a statement says.
    fn make(&mut self, base: u64, statement: &Statement) -> Result<(), AllocError>
        requires base { base < 2 ^ 63 }
        requires within { is_past base statement.now (seen self.old) ≡ false }
        ensures { OnOk result (seen self.new ≡ made base statement.now (seen self.old)) }
    {
        match *statement {
            Statement::Job { u, j, console } => {
                self.u = u;
                self.j = j;
                self.console = console;
            }
            Statement::Gives { item: Ok(item) } => self.give(base, item)?,
            Statement::Go { start: Ok(start) } => {
                place(&mut self.cells, base, self.literals.as_slice());
                self.start = start;
            }
            _ => {}
        }
        Ok(())
    }

    /// One more line of a text with this layout; the reason if it is refused.
    #[tactic(auto, unfolding(crate::specs::Assembly::with_line))]
    fn with_line(&mut self, whole: &Layout, line: &[u8]) -> Result<Option<AsmReason>, AllocError>
        requires whole { whole.now.location < 2 ^ 63 }
        requires here { self.old.layout.location < 2 ^ 63 }
        ensures line { IfOk result (λ r. with_line whole.now (seen self.old) line.now ≡ unless r (seen self.new)) }
        ensures rises { OnOk result (self.new.layout.location ≤ self.old.layout.location + 2 ^ 32) }
    {
        if line.len() > 255 {
            return Ok(Some(AsmReason::Long));
        }
        let Some(line) = self.layout.read(&whole.symbols, line) else {
            return Ok(Some(AsmReason::Syntax));
        };
        let base = whole.location;
        if is_past(base, &line.statement, self) {
            return Ok(Some(AsmReason::Range));
        }
        if is_undefined(&line.statement) {
            return Ok(Some(AsmReason::Undef));
        }
        let location_twice = is_location_twice(base, &line.statement, self);
        self.make(base, &line.statement)?;
        let symbol_twice = self.layout.pass(&line)?;
        if symbol_twice || location_twice {
            return Ok(Some(AsmReason::Twice));
        }
        if self.layout.symbols.len() > 512 {
            return Ok(Some(AsmReason::Full));
        }
        Ok(None)
    }
}

/// The lines of a text from line `n` on, after which the assembly may end.
#[tactic(auto, using(crate::proofs::LineLaws::from_end, crate::proofs::LineLaws::from_taken, crate::proofs::LineLaws::from_refused))]
fn assemble_lines(whole: &Layout, a: &mut Assembly, text: &[u8]) -> Result<u32, AsmFault>
    requires whole { whole.now.location < 2 ^ 63 }
    requires text { length text.now ≤ 2 ^ 28 }
    requires start { a.old.layout.location ≡ 0 }
    ensures lines { IfOk result (λ n. from_line whole.now 1 (seen a.old) (lines_of text.now) ≡ ended n a.new.layout.stage (seen a.new)) }
    ensures refused { IfErr result (λ e. IsFault (from_line whole.now 1 (seen a.old) (lines_of text.now)) e) }
    ensures few { IfOk result (λ n. n ≤ 2 ^ 28 + 1) }
{
    let mut rest = text;
    let mut n = 1;
    while !rest.is_empty() {
        let (line, after) = first_line(rest);
        if let Some(reason) = a.with_line(whole, line)? {
            return Err(AsmFault::Line { n, reason });
        }
        n += 1;
        rest = after;
    }
    Ok(n)
}

/// Assembles a text; its image, or the first refused line with its reason. The text has at most
/// 2^28 bytes, which a text of 1048576 lines has at most.
#[tactic(auto, unfolding(crate::specs::Assembly::assembly))]
pub fn assemble(alloc: Global, text: &[u8]) -> Result<Image, AsmFault>
    requires { length text.now ≤ 2 ^ 28 }
    ensures image { IfOk result (λ i. assembly text.now ≡ Ok i) }
    ensures refused { IfErr result (λ e. IsFault (assembly text.now) e) }
{
    let whole = lay_out(alloc, text)?;
    let mut a = Assembly::new(alloc)?;
    let n = assemble_lines(&whole, &mut a, text)?;
    let Stage::After = a.layout.stage else {
        return Err(AsmFault::Line {
            n,
            reason: AsmReason::Cut,
        });
    };
    let words = a.cells.cells(alloc)?;
    Ok(Image {
        u: a.u,
        j: a.j,
        console: a.console,
        words,
        symbols: a.layout.symbols,
        start: a.start,
    })
}
