//! The statements of lines.
ghost use Rattle.std.specs.Prelude.{◌≡◌, [], map, Ok, bytes_eq};
ghost use Rattle.its_chart.specs.Mnemonic.{opcode_named};
ghost use Rattle.its_asm.specs.Expression.{expression, given};
ghost use Rattle.its_asm.specs.Instruction.{without_literal, instruction, whole};
ghost use Rattle.its_asm.specs.Reading.{scope_of};
ghost use Rattle.its_asm.specs.Statement.{body, console_named, equals, gives, job, labels_of, operation, sixbit, with_one, formed};
ghost use Rattle.its_asm.specs.Text.{symbol_of};

use super::expression::{Names, expression};
use super::instruction::{Item, instruction, whole};
use super::reason::AsmReason;
use super::symbols::symbol;
use its_chart::opcode_named;
use its_word::{ConsoleNumber, Word, read_octal, read_sixbit};

/// A statement, with the values of its expressions or the reasons against them.
#[derive(Clone, Copy, Debug, PartialEq, Eq)]
pub enum Statement {
    /// Nothing, or labels alone.
    Nothing,
    /// `JOB u j c`
    Job {
        u: Word,
        j: Word,
        console: Option<ConsoleNumber>,
    },
    /// `NAME = e`
    Equals {
        name: Word,
        value: Result<u32, AsmReason>,
    },
    /// `LOC e`
    Loc {
        to: Result<u32, AsmReason>,
    },
    /// A statement that gives a word.
    Gives {
        item: Result<Item, AsmReason>,
    },
    /// `GO e`
    Go {
        start: Result<u32, AsmReason>,
    },
}

/// A console from 0 to 7, or `-` for none.
fn console(word: &[u8]) -> Option<Option<ConsoleNumber>>
    ensures { result ≡ console_named word.now }
{
    if is(word, b"-") {
        return Some(None);
    }
    match read_octal(word).ok()?.value() {
        c @ ..=7 => Some(Some(ConsoleNumber::new(c as u8))),
        _ => None,
    }
}

/// `JOB u j c`
#[tactic(auto, unfolding(crate::specs::Statement::job))]
pub fn job(words: &[&[u8]]) -> Option<Statement>
    ensures { result ≡ job (map (λ w. w.now) words.now) }
{
    let [first, u, j, c] = words else {
        return None;
    };
    if !is(first, b"JOB") {
        return None;
    }
    let console = console(c)?;
    let u = read_sixbit(u).ok()?;
    let j = read_sixbit(j).ok()?;
    Some(Statement::Job { u, j, console })
}

/// `NAME = e`
fn equals(names: Names, name: &[u8], sign: &[u8], e: &[u8]) -> Option<Statement>
    ensures { result ≡ equals (scope_of names.entry) name.now sign.now e.now }
{
    let b"=" = sign else {
        return None;
    };
    let name = symbol(name)?;
    match expression(names, e) {
        Err(AsmReason::Syntax) => None,
        value => Some(Statement::Equals { name, value }),
    }
}

/// `LOC e`
fn loc(names: Names, e: &[u8]) -> Option<Statement>
    ensures { result ≡ formed (λ v. Statement.Loc v) (expression (scope_of names.entry) e.now) }
{
    match expression(names, e) {
        Err(AsmReason::Syntax) => None,
        to => Some(Statement::Loc { to }),
    }
}

/// `GO e`
fn go(names: Names, e: &[u8]) -> Option<Statement>
    ensures { result ≡ formed (λ v. Statement.Go v) (expression (scope_of names.entry) e.now) }
{
    match expression(names, e) {
        Err(AsmReason::Syntax) => None,
        start => Some(Statement::Go { start }),
    }
}

/// A statement that gives this word, unless its text is no word.
fn gives(item: Result<Item, AsmReason>) -> Option<Statement>
    ensures { result ≡ gives item }
{
    match item {
        Err(AsmReason::Syntax) => None,
        item => Some(Statement::Gives { item }),
    }
}

/// `WORD w`
fn whole_word(names: Names, text: &[u8]) -> Result<Item, AsmReason>
    ensures { result ≡ given (whole (scope_of names.entry) text.now) (λ w. Ok (without_literal w)) }
{
    let word = whole(names, text)?;
    Ok(Item {
        word,
        literal: None,
    })
}

/// `SIXBIT name`
fn sixbit(name: &[u8]) -> Result<Item, AsmReason>
    ensures { result ≡ sixbit name.now }
{
    match read_sixbit(name) {
        Ok(word) => Ok(Item {
            word,
            literal: None,
        }),
        Err(_) => Err(AsmReason::Syntax),
    }
}

/// An operation with what follows it.
fn operation(names: Names, op: &[u8], text: &[u8]) -> Option<Statement>
    ensures { result ≡ operation (scope_of names.entry) text.now (opcode_named op.now) }
{
    let opcode = opcode_named(op)?;
    gives(instruction(names, opcode, text))
}

/// Whether a word is this one.
fn is(word: &[u8], other: &[u8]) -> bool
    ensures { result ≡ bytes_eq word.now other.now }
{
    word == other
}

/// A statement of a first word and another; LOC asks for the symbols of `earlier`.
#[tactic(auto, unfolding(crate::specs::Statement::with_one))]
fn with_one(earlier: Names, names: Names, first: &[u8], text: &[u8]) -> Option<Statement>
    ensures { result ≡ with_one (scope_of earlier.entry) (scope_of names.entry) first.now text.now }
{
    if is(first, b"LOC") {
        loc(earlier, text)
    } else if is(first, b"GO") {
        go(names, text)
    } else if is(first, b"WORD") {
        gives(whole_word(names, text))
    } else if is(first, b"SIXBIT") {
        gives(sixbit(text))
    } else {
        operation(names, first, text)
    }
}

/// The statement of the words after a line's labels, between JOB and GO; None if they are none.
/// `earlier` has the symbols of earlier lines, for what asks only for these.
#[tactic(auto, unfolding(crate::specs::Statement::body))]
pub fn body(earlier: Names, names: Names, words: &[&[u8]]) -> Option<Statement>
    ensures { result ≡ body (scope_of earlier.entry) (scope_of names.entry) (map (λ w. w.now) words.now) }
{
    match words {
        [] => Some(Statement::Nothing),
        [op] => operation(names, op, b""),
        [first, text] => with_one(earlier, names, first, text),
        [name, sign, e] => equals(earlier, name, sign, e),
        _ => None,
    }
}
