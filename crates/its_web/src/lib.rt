//! The program as a library for C and for pages: one call, its bytes and its exit status. The call
//! takes the words of a command and its input, and gives what the program writes for them, with its
//! exit status. tools/weblib/its.h declares it for C; docs/WEB.md says how a page calls it.
//!
//! Proved of `its_call`: the contract says of the bytes in `out` what `its_top::its` says of what
//! it writes, for each command and each status that comes with bytes (`run`, `check`, `generate`,
//! `verify`, `asm`, `save`, `usage`). Otherwise nothing is given (`nothing`). The answer is 4 only
//! if what the program is to write is longer than `out` (`short`), and 7 only if a word is not
//! UTF-8 (`text`). No clause says when 5 occurs.
//!
//! Tests: its_web/src/tests.rt.
#![tactic(auto)]

ghost use Rattle.std.specs.Prelude.{◌≡◌, ◌≢◌, ◌≤◌, ◌<◌, ◌⊎◌, true, take, length, map, string_bytes, IfOk, IfErr, IfSome, Some, None};
ghost use Rattle.std.specs.Str.{IsUtf8};
ghost use Rattle.its_top.specs.Commands.{asked, IfGenerates};
ghost use Rattle.its_top.specs.Outcomes.{usage};
ghost use Rattle.its_top.specs.declared.commands.words.Command.TheVariants as commands;
ghost use Rattle.its_web.specs.Answers.{code_of, gives, status_given, to_write, Answers, Assembles, Checks, Generates, Given, Judges, Restarts, Runs};
ghost use Rattle.its_web.specs.Words.{words_of, command_in};

#[cfg(test)]
mod tests;

use its_io::{MemSink, SafeSource};
use its_top::{Status, its};
use std::alloc::Global;

/// The answers that are not the program's own.
const TOO_SHORT: u8 = 4;

const NO_MEMORY: u8 = 5;

const NO_WORD: u8 = 7;

/// Obeys the command with this name and this number, which is empty if it has none, on an input.
/// What the program writes goes to the front of `out`, and `count` is its length. The answer is the
/// exit status of the program, with these differences: no read fails, so there is no 3; 4 says that
/// `out` is too short, and 7 that a word is not UTF-8. At 4, 5 and 7 nothing is given. What the
/// program promises of each status is what `its_top::its` promises. Split for its proof:
/// `its_call_row` says what is done.
#[unsafe(no_mangle)]
#[tactic(auto, using(crate::proofs::AnswerLaws::answers))]
pub extern "C" fn its_call(
    alloc: Global,
    command: &[u8],
    number: &[u8],
    input: &[u8],
    out: &mut [u8],
    count: &mut usize,
) -> u8
    ensures within { count.new ≤ length out.new }
    ensures run { command_in command.now number.now ≡ Some commands.Run → IfSome (status_given result) (Runs input.now (take count.new out.new)) }
    ensures check { command_in command.now number.now ≡ Some commands.Check → IfSome (status_given result) (Checks input.now (take count.new out.new)) }
    ensures generate { IfGenerates (command_in command.now number.now) (λ n. IfSome (status_given result) (Generates n input.now (take count.new out.new))) }
    ensures verify { command_in command.now number.now ≡ Some commands.Verify → IfSome (status_given result) (Judges input.now (take count.new out.new)) }
    ensures asm { command_in command.now number.now ≡ Some commands.Asm → IfSome (status_given result) (Assembles input.now (take count.new out.new)) }
    ensures save { command_in command.now number.now ≡ Some commands.Save → IfSome (status_given result) (Restarts input.now (take count.new out.new)) }
    ensures usage { result ≡ 1 → (take count.new out.new ≡ usage) × (command_in command.now number.now ≡ None) }
    ensures no_command { command_in command.now number.now ≡ None → ((result ≡ 1) ⊎ (result ≡ 4)) ⊎ ((result ≡ 5) ⊎ (result ≡ 7)) }
    ensures nothing { status_given result ≡ None → count.new ≡ 0 }
    ensures short { result ≡ 4 → length out.new < length (to_write (command_in command.now number.now) input.now) }
    ensures text { result ≡ 7 → IsUtf8 command.now → IsUtf8 number.now → ⊥ }
    ensures statuses { (result ≢ 3) × (result ≤ 7) }
{
    its_call_row(alloc, command, number, input, out, count)
}

/// Obeys the command that the words are, as one row: what is said of that command.
#[tactic(auto, using(crate::proofs::AnswerLaws::by_command))]
fn its_call_row(
    alloc: Global,
    command: &[u8],
    number: &[u8],
    input: &[u8],
    out: &mut [u8],
    count: &mut usize,
) -> u8
    ensures answers { Answers (command_in command.now number.now) result input.now count.new out.new }
    ensures text { result ≡ 7 → IsUtf8 command.now → IsUtf8 number.now → ⊥ }
{
    *count = 0;
    match words_of(alloc, command, number) {
        Ok(words) => obey(alloc, &words, input, out, count),
        Err(answer) => answer,
    }
}

/// Obeys the command of these words. Nothing was given before.
#[tactic(auto, using(crate::proofs::AnswerLaws::obeyed, crate::proofs::AnswerLaws::refuses))]
fn obey(alloc: Global, words: &[String], input: &[u8], out: &mut [u8], count: &mut usize) -> u8
    requires none { count.old ≡ 0 }
    ensures answers { Answers (asked words.now) result input.now count.new out.new }
    ensures text { result ≢ 7 }
{
    let mut src = match SafeSource::open(alloc, input) {
        Ok(src) => src,
        Err(_) => return NO_MEMORY,
    };
    // With more room than `out` has, the sink is full only after more bytes than fit into `out`.
    let mut sink = match MemSink::open(alloc, out.len().saturating_add(1), &[]) {
        Ok(sink) => sink,
        Err(_) => return NO_MEMORY,
    };
    let status = its(alloc, words, &mut src, &mut sink);
    give(status, sink.written(), out, count)
}

/// Gives what the program wrote, if its status comes with bytes and there is room for them.
#[tactic(auto, using(crate::proofs::AnswerLaws::code_given, crate::proofs::AnswerLaws::code_is_status))]
fn give(status: Status, wrote: &[u8], out: &mut [u8], count: &mut usize) -> u8
    requires none { count.old ≡ 0 }
    ensures given { Given result status wrote.now count.new out.new }
    ensures text { result ≢ 7 }
{
    let size = wrote.len();
    if size > out.len() {
        return TOO_SHORT;
    }
    out[..size].copy_from_slice(wrote);
    if has_bytes(status) {
        *count = size;
    }
    exit_status(status)
}

/// The exit status of an answer of the program. If the sink was full, `out` is too short, and that
/// is seen before.
fn exit_status(status: Status) -> u8
    ensures { result ≡ code_of status }
{
    match status {
        Status::Done => 0,
        Status::Usage => 1,
        Status::Refused => 2,
        Status::ReadFault => 3,
        Status::WriteFault => NO_MEMORY,
        Status::NoMemory => NO_MEMORY,
        Status::TooLong => 6,
    }
}

/// Whether bytes are given with a status.
fn has_bytes(status: Status) -> bool
    ensures { result ≡ gives status }
{
    match status {
        Status::Done | Status::Usage | Status::Refused | Status::TooLong => true,
        Status::ReadFault | Status::WriteFault | Status::NoMemory => false,
    }
}

/// The words of a command: its name, and its number unless that is empty.
fn words_of(alloc: Global, name: &[u8], number: &[u8]) -> Result<Vec<String>, u8>
    ensures words { IfOk result (λ words. map string_bytes words.items ≡ words_of name.now number.now) }
    ensures answer { IfErr result (λ e. (e ≡ 5) ⊎ (e ≡ 7)) }
    ensures text { IfErr result (λ e. e ≡ 7 → IsUtf8 name.now → IsUtf8 number.now → ⊥) }
{
    let mut words = Vec::new(alloc);
    words.push(word_of(alloc, name)?).map_err(|_| NO_MEMORY)?;
    if !number.is_empty() {
        words.push(word_of(alloc, number)?).map_err(|_| NO_MEMORY)?;
    }
    Ok(words)
}

/// A word of these bytes.
fn word_of(alloc: Global, bytes: &[u8]) -> Result<String, u8>
    ensures word { IfOk result (λ word. string_bytes word ≡ bytes.now) }
    ensures answer { IfErr result (λ e. (e ≡ 5) ⊎ (e ≡ 7)) }
    ensures text { IfErr result (λ e. e ≡ 7 → IsUtf8 bytes.now → ⊥) }
{
    match str::from_utf8(bytes) {
        Ok(word) => String::from_str(alloc, word).map_err(|_| NO_MEMORY),
        Err(_) => Err(NO_WORD),
    }
}
