//! Expressions: sums and differences of numbers, symbols and the location.
ghost use Rattle.std.specs.Prelude.{◌≡◌, ◌<◌, ◌≤◌, ◌^◌, IfOk};
ghost use Rattle.its_asm.specs.Expression.{added, both, expression, register, sooner, term, value_of};
ghost use Rattle.its_asm.specs.Reading.{scope_of};

use super::reason::AsmReason;
use super::symbols::{Symbols, symbol};
use its_chart::cut;
use its_word::{Word, read_octal};

/// What an expression may name: symbols, if there are any, and the location, if there is one.
#[derive(Clone, Copy)]
pub struct Names<'a> {
    pub symbols: Option<&'a Symbols>,
    pub here: Option<u32>,
}

/// The reason that is tested first.
fn sooner(a: AsmReason, b: AsmReason) -> AsmReason
    ensures { result ≡ sooner a b }
{
    match a {
        AsmReason::Syntax => AsmReason::Syntax,
        AsmReason::Range => match b {
            AsmReason::Syntax => AsmReason::Syntax,
            _ => AsmReason::Range,
        },
        _ => b,
    }
}

/// Two values, or the first reason against them.
pub fn both<A: Copy, B: Copy>(
    a: Result<A, AsmReason>,
    b: Result<B, AsmReason>,
) -> Result<(A, B), AsmReason>
    ensures { result ≡ both a b }
{
    match a {
        Ok(x) => match b {
            Ok(y) => Ok((x, y)),
            Err(reason) => Err(reason),
        },
        Err(reason) => match b {
            Ok(_y) => Err(reason),
            Err(other) => Err(sooner(reason, other)),
        },
    }
}

/// The value of a symbol.
fn defined(names: Names, name: Word) -> Option<u32>
    ensures { result ≡ value_of (scope_of names.entry) name }
{
    match names.symbols {
        Some(symbols) => symbols.value(name),
        None => None,
    }
}

/// A term: `.`, a symbol, or a number of 1 to 6 octal digits.
#[tactic(auto, unfolding(crate::specs::Expression::term))]
fn term(names: Names, text: &[u8]) -> Result<u32, AsmReason>
    ensures { result ≡ term (scope_of names.entry) text.now }
{
    if let b"." = text {
        return names.here.ok_or(AsmReason::Undef);
    }
    if let Some(name) = symbol(text) {
        return defined(names, name).ok_or(AsmReason::Undef);
    }
    match read_octal(text) {
        Ok(number) if text.len() <= 6 => Ok(number.right()),
        _ => Err(AsmReason::Syntax),
    }
}

/// A sum, and one more term after its sign, modulo 1000000.
fn added(
    sum: Result<u32, AsmReason>,
    sign: u8,
    term: Result<u32, AsmReason>,
) -> Result<u32, AsmReason>
    ensures value { result ≡ added sum sign term }
    ensures below { IfOk result (λ v. v < 2 ^ 18) }
{
    let (sum, term) = both(sum, term)?;
    let whole = if sign == b'-' {
        u64::from(sum) + (0o1000000 - u64::from(term) % 0o1000000)
    } else {
        u64::from(sum) + u64::from(term)
    };
    Ok((whole % 0o1000000) as u32)
}

/// The value of an expression, modulo 1000000.
#[tactic(auto, using(crate::proofs::ReadingLaws::summed_cut, crate::proofs::ReadingLaws::summed_whole))]
pub fn expression(names: Names, text: &[u8]) -> Result<u32, AsmReason>
    ensures value { result ≡ expression (scope_of names.entry) text.now }
    ensures below { IfOk result (λ v. v < 2 ^ 18) }
{
    let mut sum = Ok(0);
    let mut sign = b'+';
    let mut rest = text;
    while let Some((text, next, after)) = cut(rest, b"+-") {
        sum = added(sum, sign, term(names, text));
        sign = next;
        rest = after;
    }
    added(sum, sign, term(names, rest))
}

/// The value of an expression that names an accumulator or an index register, at most 17.
pub fn register(names: Names, text: &[u8]) -> Result<u32, AsmReason>
    ensures value { result ≡ register (scope_of names.entry) text.now }
    ensures below { IfOk result (λ n. n ≤ 15) }
{
    match expression(names, text)? {
        n @ ..=0o17 => Ok(n),
        _ => Err(AsmReason::Range),
    }
}
