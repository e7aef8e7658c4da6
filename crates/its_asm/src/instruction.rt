//! The words that statements give.
ghost use Rattle.std.specs.Prelude.{◌≡◌, ◌<◌, ◌≤◌, ◌^◌, ◌*◌, IfOk, Ok, codes, if◌then◌else◌};
ghost use Rattle.its_asm.specs.Expression.{expression, given};
ghost use Rattle.its_asm.specs.Instruction.{address, without_literal, indexed, indexed_by, index, instruction, joined, literal, place, whole};
ghost use Rattle.its_asm.specs.Reading.{scope_of};
ghost use Rattle.its_chart.specs.Text.{cut};
ghost use Rattle.its_asm.specs.Text.{closed};

use super::expression::{Names, both, expression, register};
use super::reason::AsmReason;
use super::words::closed;
use its_chart::cut;
use its_word::{Word, read_octal};

/// A word, and the literal whose address is still to be added to it, if it has one.
#[derive(Clone, Copy, Debug, PartialEq, Eq)]
pub struct Item {
    pub word: Word,
    pub literal: Option<Word>,
}

/// A whole word: `n`, 1 to 12 octal digits, or `l,,r`, two expressions.
#[tactic(auto, unfolding(crate::specs::Instruction::whole))]
pub fn whole(names: Names, text: &[u8]) -> Result<Word, AsmReason>
    ensures { result ≡ whole (scope_of names.entry) text.now }
{
    match cut(text, b",") {
        Some((l, _comma, [b',', r @ ..])) => {
            let (l, r) = both(expression(names, l), expression(names, r))?;
            Ok(Word::pair(l, r))
        }
        Some(_) => Err(AsmReason::Syntax),
        None => read_octal(text).map_err(|_| AsmReason::Syntax),
    }
}

/// A literal between brackets, of which the first was read.
fn literal(names: Names, text: &[u8]) -> Result<Item, AsmReason>
    ensures value { result ≡ literal (scope_of names.entry) (closed 93 text.now) }
    ensures below { IfOk result (λ y. y.word < 2 ^ 18) }
{
    match closed(text, b']') {
        Some(text) => {
            let literal = whole(names, text)?;
            Ok(Item {
                word: Word::ZERO,
                literal: Some(literal),
            })
        }
        None => Err(AsmReason::Syntax),
    }
}

/// An address that is an expression.
fn expressed(names: Names, text: &[u8]) -> Result<Item, AsmReason>
    ensures value { result ≡ given (expression (scope_of names.entry) text.now) (λ y. Ok (without_literal y)) }
    ensures below { IfOk result (λ y. y.word < 2 ^ 18) }
{
    let y = expression(names, text)?;
    Ok(Item {
        word: Word::pair(0, y),
        literal: None,
    })
}

/// What an instruction's address is: nothing, a literal or an expression.
fn place(names: Names, text: &[u8]) -> Result<Item, AsmReason>
    ensures value { result ≡ place (scope_of names.entry) text.now }
    ensures below { IfOk result (λ y. y.word < 2 ^ 18) }
{
    match text {
        [] => Ok(Item {
            word: Word::ZERO,
            literal: None,
        }),
        [b'[', rest @ ..] => literal(names, rest),
        _ => expressed(names, text),
    }
}

/// An index register before the parenthesis that ends it.
fn index(names: Names, text: &[u8]) -> Result<u32, AsmReason>
    ensures value { result ≡ index (scope_of names.entry) (closed 41 text.now) }
    ensures below { IfOk result (λ x. x ≤ 15) }
{
    match closed(text, b')') {
        Some(x) => register(names, x),
        None => Err(AsmReason::Syntax),
    }
}

/// A place, with its index register in parentheses, if it has one.
fn with_index(names: Names, text: &[u8]) -> Result<(Item, u32), AsmReason>
    ensures value { result ≡ indexed_by (scope_of names.entry) text.now (cut (codes "(") text.now) }
    ensures below { IfOk result (λ p. (p.0.word < 2 ^ 18) × (p.1 ≤ 15)) }
{
    match cut(text, b"(") {
        Some((y, _parenthesis, x)) => both(place(names, y), index(names, x)),
        None => both(place(names, text), Ok(0)),
    }
}

/// An address after its `@`, with I, X and Y in their places.
fn indexed(names: Names, indirect: bool, text: &[u8]) -> Result<Item, AsmReason>
    ensures value { result ≡ indexed (scope_of names.entry) (if indirect then 1 else 0) text.now }
    ensures below { IfOk result (λ y. y.word < 2 ^ 23) }
{
    let (item, x) = with_index(names, text)?;
    let bit = if indirect { 1 << 22 } else { 0 };
    Ok(Item {
        word: Word::new(bit + u64::from(x) * 0o1000000 + item.word.value()),
        literal: item.literal,
    })
}

/// The address of an instruction.
#[tactic(auto, unfolding(crate::specs::Instruction::address))]
fn address(names: Names, text: &[u8]) -> Result<Item, AsmReason>
    ensures value { result ≡ address (scope_of names.entry) text.now }
    ensures below { IfOk result (λ y. y.word < 2 ^ 23) }
{
    match text {
        [b'@', rest @ ..] => indexed(names, true, rest),
        _ => indexed(names, false, text),
    }
}

/// An accumulator and an address.
fn joined(
    opcode: u32,
    a: Result<u32, AsmReason>,
    y: Result<Item, AsmReason>,
) -> Result<Item, AsmReason>
    requires opcode { opcode < 512 }
    requires register { IfOk a (λ n. n ≤ 15) }
    requires address { IfOk y (λ i. i.word < 2 ^ 23) }
    ensures { result ≡ joined opcode a y }
{
    let (a, y) = both(a, y)?;
    Ok(Item {
        word: Word::new(
            u64::from(opcode) * 0o1000000000 + u64::from(a) * 0o40000000 + y.word.value(),
        ),
        literal: y.literal,
    })
}

/// An instruction of this opcode: `a,y` or `y`.
#[tactic(auto, unfolding(crate::specs::Instruction::instruction))]
pub fn instruction(names: Names, opcode: u32, text: &[u8]) -> Result<Item, AsmReason>
    requires { opcode < 512 }
    ensures { result ≡ instruction (scope_of names.entry) opcode text.now }
{
    match cut(text, b",[") {
        Some((a, b',', y)) => joined(opcode, register(names, a), address(names, y)),
        _ => joined(opcode, Ok(0), address(names, text)),
    }
}
