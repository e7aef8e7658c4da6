//! The program `its`: its command, by its words.
ghost use Rattle.std.specs.Prelude.{◌≡◌, ◌≢◌, ◌≤◌, ◌<◌, ◌+◌, ◌-◌, ◌^◌, true, map, string_bytes, Some, None};
ghost use Rattle.its_io.specs.Bytes.{next_fault};
ghost use Rattle.its_top.specs.Commands.{asked, command_of, IfGenerates};
ghost use Rattle.its_top.specs.Checking.{WroteText};
ghost use Rattle.its_top.specs.Generating.{generated_text};
ghost use Rattle.its_top.specs.Conclusion.{Session};
ghost use Rattle.its_top.specs.Outcomes.{Faults, OfAsm, OfCheck, OfGen, OfNoCommand, OfRun, OfSave, OfVerify};
ghost use Rattle.its_top.specs.Saving.{Saves};
ghost use Rattle.its_top.specs.Top.{Obeyed};

use crate::commands::assembling::assemble;
use crate::commands::checking::{check, write_text};
use crate::commands::generating::generate;
use crate::commands::saving::save_session;
use crate::commands::status::Status;
use crate::commands::verifying::judge;
use crate::commands::words::{Command, read_command};
use crate::sessions::run::session;
use its_io::{Sink, Source};
use its_monitor::Monitor;
use std::alloc::Global;

/// The usage line.
const USAGE: &[u8] = b"usage: its run | its check | its gen N | its verify | its asm | its save\n";

/// The program: the words after its name, the session that `src` gives, and what `out` takes. The
/// words `run` and `check` read a session; `gen` and a number run a generated one, and read
/// nothing. The word `verify` reads a session and its transcript, `asm` an assembly text, and
/// `save` a session, of whose end it writes the state part. What each of them promises is a record
/// of `specs/Outcomes`, over those of `specs/Promise`. Split for its proof: `its_row` says what is
/// done.
#[tactic(auto, using(crate::proofs::PromiseLaws::promises))]
pub fn its<S: Source, K: Sink>(alloc: Global, words: &[String], src: &mut S, out: &mut K) -> Status
    requires readable { S.readable src.old ≡ true }
    requires source { S.faults src.old < 2 ^ 64 - 1 }
    requires sink { K.faults out.old < 2 ^ 64 - 1 }
    ensures run { asked words.now ≡ Some Command.Run
        → OfRun result (S.left src.old) (S.left src.new) (K.written out.old) (K.written out.new) }
    ensures check { asked words.now ≡ Some Command.Check
        → OfCheck result (S.left src.old) (S.left src.new) (K.written out.old) (K.written out.new) }
    ensures generate { IfGenerates (asked words.now)
        (λ n. OfGen n result (S.left src.old) (S.left src.new) (K.written out.old) (K.written out.new)) }
    ensures verify { asked words.now ≡ Some Command.Verify
        → OfVerify result (S.left src.old) (S.left src.new) (K.written out.old) (K.written out.new) }
    ensures asm { asked words.now ≡ Some Command.Asm
        → OfAsm result (S.left src.old) (S.left src.new) (K.written out.old) (K.written out.new) }
    ensures save { asked words.now ≡ Some Command.Save
        → OfSave result (S.left src.old) (S.left src.new) (K.written out.old) (K.written out.new) }
    ensures usage { asked words.now ≡ None
        → OfNoCommand result (S.left src.old) (S.left src.new) (K.written out.old) (K.written out.new) }
    ensures command { result ≡ Status.Usage → asked words.now ≡ None }
    ensures memory { result ≡ Status.NoMemory → K.written out.new ≡ K.written out.old }
    ensures reads { Faults Status.ReadFault result (S.faults src.old) (S.faults src.new) }
    ensures writes { Faults Status.WriteFault result (K.faults out.old) (K.faults out.new) }
    ensures safe_source { ((a b : S) → S.faults a ≡ S.faults b) → result ≢ Status.ReadFault }
    ensures safe_sink { ((a b : K) → K.faults a ≡ K.faults b) → result ≢ Status.WriteFault }
{
    its_row(alloc, words, src, out)
}

/// Obeys the command that the words are, as one row: what it did for that command.
#[tactic(auto, using(crate::proofs::ObeyLaws::obeyed_by, crate::proofs::CommandLaws::few_rounds))]
fn its_row<S: Source, K: Sink>(alloc: Global, words: &[String], src: &mut S, out: &mut K) -> Status
    requires readable { S.readable src.old ≡ true }
    requires source { S.faults src.old < 2 ^ 64 - 1 }
    requires sink { K.faults out.old < 2 ^ 64 - 1 }
    ensures obeyed { Obeyed (asked words.now) result (S.left src.old) (S.left src.new) (K.written out.old) (K.written out.new) }
    ensures read_once { result ≡ Status.ReadFault → S.faults src.new ≡ S.faults src.old + 1 }
    ensures write_once { result ≡ Status.WriteFault → K.faults out.new ≡ K.faults out.old + 1 }
    ensures read_unfailed { result ≢ Status.ReadFault → S.faults src.new ≡ S.faults src.old }
    ensures write_unfailed { result ≢ Status.WriteFault → K.faults out.new ≡ K.faults out.old }
{
    let command = read_command(alloc, words);
    obey(alloc, command, src, out)
}

/// Performs a command; if the words are none, writes the usage line.
#[tactic(auto, using(crate::proofs::Groups::obey_laws))]
fn obey<S: Source, K: Sink>(
    alloc: Global,
    command: Option<Command>,
    src: &mut S,
    out: &mut K,
) -> Status
    requires readable { S.readable src.old ≡ true }
    requires source { S.faults src.old < 2 ^ 64 - 1 }
    requires sink { K.faults out.old < 2 ^ 64 - 1 }
    requires rounds { IfGenerates command (λ n. n ≤ 4096) }
    ensures obeyed { Obeyed command result (S.left src.old) (S.left src.new) (K.written out.old) (K.written out.new) }
    ensures read_once { result ≡ Status.ReadFault → S.faults src.new ≡ S.faults src.old + 1 }
    ensures write_once { result ≡ Status.WriteFault → K.faults out.new ≡ K.faults out.old + 1 }
    ensures read_unfailed { result ≢ Status.ReadFault → S.faults src.new ≡ S.faults src.old }
    ensures write_unfailed { result ≢ Status.WriteFault → K.faults out.new ≡ K.faults out.old }
{
    match command {
        Some(Command::Run) => run(alloc, src, out),
        Some(Command::Check) => check(src, out),
        Some(Command::Gen(n)) => generate_rounds(alloc, n, out),
        Some(Command::Verify) => judge(alloc, src, out),
        Some(Command::Asm) => assemble(alloc, src, out),
        Some(Command::Save) => save(alloc, src, out),
        None => write_text(out, USAGE, Status::Usage),
    }
}

/// Runs the generated session of n rounds.
fn generate_rounds<K: Sink>(alloc: Global, n: u32, out: &mut K) -> Status
    requires rounds { n ≤ 4096 }
    ensures wrote { result ≢ Status.NoMemory → WroteText result Status.Done (generated_text n) (K.written out.old) (K.written out.new) }
    ensures no_memory { result ≡ Status.NoMemory → K.written out.new ≡ K.written out.old }
    ensures once { result ≡ Status.WriteFault → K.faults out.new ≡ next_fault (K.faults out.old) }
    ensures unfailed { result ≢ Status.WriteFault → K.faults out.new ≡ K.faults out.old }
    ensures source { result ≢ Status.ReadFault }
{
    match Monitor::open(alloc) {
        Ok(mut m) => generate(&mut m, n, out),
        Err(_) => Status::NoMemory,
    }
}

/// Runs the session that the source gives.
fn run<S: Source, K: Sink>(alloc: Global, src: &mut S, out: &mut K) -> Status
    requires readable { S.readable src.old ≡ true }
    requires source { S.faults src.old < 2 ^ 64 - 1 }
    requires sink { K.faults out.old < 2 ^ 64 - 1 }
    ensures session { result ≢ Status.NoMemory → Session result (S.left src.old) (S.left src.new) (K.written out.old) (K.written out.new) }
    ensures no_memory { result ≡ Status.NoMemory → (S.left src.new ≡ S.left src.old) × (K.written out.new ≡ K.written out.old) }
    ensures not_usage { result ≢ Status.Usage }
    ensures read_fault { result ≡ Status.ReadFault → S.faults src.old < S.faults src.new }
    ensures write_fault { result ≡ Status.WriteFault → K.faults out.old < K.faults out.new }
    ensures read_once { result ≡ Status.ReadFault → S.faults src.new ≡ S.faults src.old + 1 }
    ensures write_once { result ≡ Status.WriteFault → K.faults out.new ≡ K.faults out.old + 1 }
    ensures read_unfailed { result ≢ Status.ReadFault → S.faults src.new ≡ S.faults src.old }
    ensures write_unfailed { result ≢ Status.WriteFault → K.faults out.new ≡ K.faults out.old }
{
    match Monitor::open(alloc) {
        Ok(mut m) => session(&mut m, src, out),
        Err(_) => Status::NoMemory,
    }
}

/// Saves the system that the session that the source gives leads to.
fn save<S: Source, K: Sink>(alloc: Global, src: &mut S, out: &mut K) -> Status
    requires readable { S.readable src.old ≡ true }
    requires source { S.faults src.old < 2 ^ 64 - 1 }
    requires sink { K.faults out.old < 2 ^ 64 - 1 }
    ensures saves { result ≢ Status.NoMemory → Saves result (S.left src.old) (S.left src.new) (K.written out.old) (K.written out.new) }
    ensures no_memory { result ≡ Status.NoMemory → (S.left src.new ≡ S.left src.old) × (K.written out.new ≡ K.written out.old) }
    ensures not_usage { result ≢ Status.Usage }
    ensures read_once { result ≡ Status.ReadFault → S.faults src.new ≡ S.faults src.old + 1 }
    ensures write_once { result ≡ Status.WriteFault → K.faults out.new ≡ K.faults out.old + 1 }
    ensures read_unfailed { result ≢ Status.ReadFault → S.faults src.new ≡ S.faults src.old }
    ensures write_unfailed { result ≢ Status.WriteFault → K.faults out.new ≡ K.faults out.old }
{
    match Monitor::open(alloc) {
        Ok(mut m) => save_session(&mut m, src, out),
        Err(_) => Status::NoMemory,
    }
}
