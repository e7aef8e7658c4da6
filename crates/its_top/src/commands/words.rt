//! The words of the program.
ghost use Rattle.std.specs.Prelude.{if◌then◌else◌, ◌^◌, nat_le, ◌≡◌, ◌≢◌, ◌≤◌, ◌&&◌, map, option_map, string_bytes, true, false, IfOk, IfErr, Some, None, codes};
ghost use Rattle.std.specs.List.{list_any};
ghost use Rattle.clap.specs.Words.{first_value, found_of, kind_of};
ghost use Rattle.clap.specs.declared.error.kind.ErrorKind.TheVariants as kinds;
ghost use Rattle.its_top.specs.Commands.{bare_command, counted_command, command_from, command_of, is_option};

use clap::error::ErrorKind;
use clap::{Arg, ArgMatches, Error};
use its_word::read_octal;
use std::alloc::Global;

/// What the program is asked to do: to run a session, to check one, to generate one of so many
/// rounds and run that, to verify a session and its transcript, to assemble a text, or to save the
/// system that a session leads to.
#[derive(Clone, Copy, Debug, PartialEq, Eq)]
pub enum Command {
    Run,
    Check,
    Gen(u32),
    Verify,
    Asm,
    Save,
}

/// The most rounds of a generated session.
const MOST_ROUNDS: u64 = 0o10000;

/// The command that the words are; None if they are none. A word that begins with `-` is refused
/// before the words are parsed.
#[tactic(auto, using(crate::proofs::CommandLaws::no_command))]
pub fn read_command(alloc: Global, words: &[String]) -> Option<Command>
    ensures { result ≡ command_of (map string_bytes words.now) }
{
    if has_option(words) {
        return None;
    }
    match parsed(alloc, words) {
        Ok(matches) => command_from(matches.get_str("command"), matches.get_str("number")),
        Err(e) => refused(&e, words),
    }
}

/// Whether a word begins with `-`.
#[tactic(auto, using(crate::proofs::CommandLaws::any_found))]
fn has_option(words: &[String]) -> bool
    ensures { result ≡ list_any is_option (map string_bytes words.now) }
{
    for word in words {
        if is_option(word.as_bytes()) {
            return true;
        }
    }
    false
}

/// Whether this is such a word.
fn is_option(word: &[u8]) -> bool
    ensures { result ≡ is_option word.now }
{
    match word {
        [b'-', ..] => true,
        _ => false,
    }
}

/// The words, none of which begins with `-`, as one required positional and one optional one.
fn parsed<'a>(alloc: Global, words: &'a [String]) -> Result<ArgMatches<'a>, Error>
    requires plain { list_any is_option (map string_bytes words.now) ≡ false }
    ensures found { IfOk result (λ m. command_from (first_value (found_of m) (codes "command")) (first_value (found_of m) (codes "number")) ≡ command_of (map string_bytes words.now)) }
    ensures refused { IfErr result (λ e. kind_of e ≢ kinds.OutOfMemory → command_of (map string_bytes words.now) ≡ None) }
{
    let command = Arg::new(alloc, "command").required(true);
    let number = Arg::new(alloc, "number");
    let program = clap::Command::new(alloc, "its")
        .no_binary_name(true)
        .disable_help_flag(true)
        .disable_version_flag(true)
        .arg(command)?
        .arg(number)?;
    program.try_get_matches_from(words)
}

/// The command of words that the parse refused: there is none. If the parse found no memory, the
/// words themselves are looked at.
fn refused(e: &Error, words: &[String]) -> Option<Command>
    requires none { kind_of e.now ≢ kinds.OutOfMemory → command_of (map string_bytes words.now) ≡ None }
    ensures { result ≡ command_of (map string_bytes words.now) }
{
    match e.kind() {
        ErrorKind::OutOfMemory => command_in(words),
        _ => None,
    }
}

/// The command that the words are, with no memory taken.
#[tactic(auto, unfolding(crate::specs::Commands::command_of))]
fn command_in(words: &[String]) -> Option<Command>
    ensures { result ≡ command_of (map string_bytes words.now) }
{
    match words {
        [word] => bare_command(word),
        [word, number] => counted_command(word, number),
        _ => None,
    }
}

/// The command that two words say, of which either may be missing.
fn command_from(word: Option<&str>, number: Option<&str>) -> Option<Command>
    ensures { result ≡ command_from (option_map (λ s. s.now) word.entry) (option_map (λ s. s.now) number.entry) }
{
    match (word, number) {
        (Some(word), None) => bare_command(word),
        (Some(word), Some(number)) => counted_command(word, number),
        (None, _) => None,
    }
}

/// `run`, `check`, `verify`, `asm` or `save`.
fn bare_command(word: &str) -> Option<Command>
    ensures { result ≡ bare_command word.now }
{
    match word {
        "run" => Some(Command::Run),
        "check" => Some(Command::Check),
        "verify" => Some(Command::Verify),
        "asm" => Some(Command::Asm),
        "save" => Some(Command::Save),
        _ => None,
    }
}

/// `gen` with a number of rounds.
fn counted_command(word: &str, number: &str) -> Option<Command>
    ensures { result ≡ counted_command word.now number.now }
{
    if word != "gen" {
        return None;
    }
    match read_octal(number.as_bytes()) {
        Ok(n) => rounds(n.value()),
        Err(_) => None,
    }
}

/// `gen` with so many rounds, if there may be so many.
fn rounds(n: u64) -> Option<Command>
    ensures { result ≡ (if nat_le 1 n && nat_le n (2 ^ 12) then Some (Command.Gen n) else None) }
{
    if 1 <= n && n <= MOST_ROUNDS {
        Some(Command::Gen(n as u32))
    } else {
        None
    }
}
