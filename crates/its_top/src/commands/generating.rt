//! The command `gen`: the generated session runs through the monitor, and what it shows is counted.
//! Nothing is read.
ghost use Rattle.std.specs.Prelude.{◌≡◌, ◌≢◌, ◌≤◌, ◌<◌, ◌+◌, ◌-◌, ◌*◌, ◌^◌, ◌⊎◌, ℕ, List, IfOk, OnOk, OnErr, [], ◌∷◌, length};
ghost use Rattle.std.specs.Io.KnownBytes.{Appends};
ghost use Rattle.its_io.specs.Bytes.{HasCause, Wrote, next_fault};
ghost use Rattle.its_session.specs.Fits.{EventFits};
ghost use Rattle.its_session.specs.Generated.{IsGenerated, generated_session};
ghost use Rattle.its_plain.specs.Machine.{no_machine};
ghost use Rattle.its_stepped.specs.State.{no_state};
ghost use Rattle.its_world.specs.World.{state_of};
ghost use Rattle.its_monitor.specs.Kept.{Kept};
ghost use Rattle.its_print.specs.Replies.{FewParts, line_of};
ghost use Rattle.its_print.specs.Runs.{paces_in};
ghost use Rattle.its_top.specs.Checking.{WroteText};
ghost use Rattle.its_top.specs.Generating.{marks, counted, FewShown, counts_text, tally_of, tally_text, generated_tally, generated_text, PlayedOn};

use crate::commands::counts::count_line;
use crate::commands::status::Status;
use crate::sessions::performing::perform;
use crate::sessions::progress::Progress;
use crate::sessions::room::Parts;
use crate::sessions::shown::{Over, Shown};
use its_io::{Failed, Sink, write_all};
use its_monitor::Monitor;
use its_print::{Reply, Run};
use its_records::{Event, Pace};
use its_session::generated;
use its_word::{Slot, Word};

/// How many ticks were marked `*`, and how many bytes were drained.
#[derive(Clone, Copy, Debug, PartialEq, Eq)]
pub struct Tally {
    pub steps: u64,
    pub drained: u64,
}

/// Nothing to count.
const NOTHING: Tally = Tally {
    steps: 0,
    drained: 0,
};

/// The state of a generated session: what `run` keeps of one, of which the number is that of the
/// lines so far; what is counted so far; and whether it is over.
#[derive(Clone, Copy, Debug, PartialEq, Eq)]
pub struct Play {
    pub progress: Progress,
    pub tally: Tally,
    pub over: bool,
}

/// Runs the generated session of n rounds through a monitor as `Monitor::open` gives it, and writes
/// how many lines it has, how many ticks were marked and how many bytes were drained.
#[tactic(auto, using(crate::proofs::CheckingLaws::wrote_all, crate::proofs::CheckingLaws::wrote_begun))]
pub fn generate<K: Sink>(m: &mut Monitor, n: u32, out: &mut K) -> Status
    requires machine { state_of m.old.world ≡ no_state no_machine }
    requires sound { Kept m.old.world }
    requires rounds { n ≤ 4096 }
    ensures wrote { WroteText result Status.Done (generated_text n) (K.written out.old) (K.written out.new) }
    ensures once { result ≡ Status.WriteFault → K.faults out.new ≡ next_fault (K.faults out.old) }
    ensures unfailed { result ≢ Status.WriteFault → K.faults out.new ≡ K.faults out.old }
    ensures status { (result ≡ Status.Done) ⊎ (result ≡ Status.WriteFault) }
{
    match play_and_write(m, n, out) {
        Ok(()) => Status::Done,
        Err(_) => Status::WriteFault,
    }
}

/// As `generate`, with a write that fails as its error.
#[tactic(auto, using(crate::proofs::TallyLaws::text_of_counts))]
fn play_and_write<K: Sink>(m: &mut Monitor, n: u32, out: &mut K) -> Result<(), Failed>
    requires machine { state_of m.old.world ≡ no_state no_machine }
    requires sound { Kept m.old.world }
    requires rounds { n ≤ 4096 }
    ensures all { OnOk result (Appends (K.written out.old) (K.written out.new) (generated_text n)) }
    ensures begun { OnErr result ((wrote : List ℕ) × Wrote (K.written out.old) (K.written out.new) wrote (generated_text n)) }
    ensures cause { HasCause (K.faults out.old) (K.faults out.new) result }
{
    let (lines, tally) = play_all(m, n);
    write_counts(lines, tally, out)
}

/// Writes the three lines, each by a call of its own.
#[tactic(auto, using(crate::proofs::TallyLaws::wrote_then, crate::proofs::TallyLaws::begun_first, crate::proofs::TallyLaws::begun_then))]
fn write_counts<K: Sink>(lines: u32, tally: Tally, out: &mut K) -> Result<(), Failed>
    ensures all { OnOk result (Appends (K.written out.old) (K.written out.new) (counts_text lines tally)) }
    ensures begun { OnErr result ((wrote : List ℕ) × Wrote (K.written out.old) (K.written out.new) wrote (counts_text lines tally)) }
    ensures cause { HasCause (K.faults out.old) (K.faults out.new) result }
{
    match write_all(out, &count_line(b"LINES", u64::from(lines))) {
        Ok(()) => write_tally(tally, out),
        Err(e) => Err(e),
    }
}

/// Writes the last two of the three lines.
#[tactic(auto, using(crate::proofs::TallyLaws::wrote_then, crate::proofs::TallyLaws::begun_first, crate::proofs::TallyLaws::begun_then))]
fn write_tally<K: Sink>(tally: Tally, out: &mut K) -> Result<(), Failed>
    ensures all { OnOk result (Appends (K.written out.old) (K.written out.new) (tally_text tally)) }
    ensures begun { OnErr result ((wrote : List ℕ) × Wrote (K.written out.old) (K.written out.new) wrote (tally_text tally)) }
    ensures cause { HasCause (K.faults out.old) (K.faults out.new) result }
{
    match write_all(out, &count_line(b"STEPS", tally.steps)) {
        Ok(()) => write_all(out, &count_line(b"DRAINED", tally.drained)),
        Err(e) => Err(e),
    }
}

/// Plays a generated session to its end: how many lines it has, and what was counted.
#[tactic(auto, using(crate::proofs::Groups::play_all_laws))]
fn play_all(m: &mut Monitor, n: u32) -> (u32, Tally)
    requires machine { state_of m.old.world ≡ no_state no_machine }
    requires sound { Kept m.old.world }
    requires rounds { n ≤ 4096 }
    ensures lines { result.0 ≡ length (generated_session n) }
    ensures tally { result.1 ≡ generated_tally n }
{
    let progress = Progress {
        number: 0,
        slot: Slot::FIRST,
        file: [Word::ZERO; 3],
    };
    let mut play = Play {
        progress,
        tally: NOTHING,
        over: false,
    };
    let mut parts = Parts::new();
    loop {
        let number = play.progress.number;
        let Some(event) = generated(n, number) else {
            return (number, play.tally);
        };
        play_on(m, &mut play, &event, &mut parts);
        play.progress.number += 1;
    }
}

/// Performs an event, unless the session is over, and counts what it shows.
#[tactic(auto, using(crate::proofs::TallyLaws::played_over, crate::proofs::TallyLaws::played, crate::proofs::TallyLaws::generated_fits, crate::proofs::TallyLaws::generated_starts))]
fn play_on(m: &mut Monitor, play: &mut Play, event: &Event, parts: &mut Parts)
    requires sound { Kept m.old.world }
    requires fits { EventFits 1 event.now }
    requires kind { IsGenerated event.now }
    requires steps { play.old.tally.steps < 2 ^ 63 }
    requires drained { play.old.tally.drained < 2 ^ 63 }
    ensures played { PlayedOn play.old play.new (state_of m.old.world) (state_of m.new.world) event.now }
    ensures sound { Kept m.new.world }
    ensures number { play.new.progress.number ≡ play.old.progress.number }
    ensures steps { play.new.tally.steps ≤ play.old.tally.steps + 512 }
    ensures drained { play.new.tally.drained ≤ play.old.tally.drained + 64 }
{
    if play.over {
        return;
    }
    let performed = perform(m, &mut play.progress, event, parts);
    let more = counted(&performed);
    play.tally.steps += more.steps;
    play.tally.drained += more.drained;
    play.over = performed.is_err();
}

/// What counts of the result of an event.
fn counted(performed: &Result<Shown, Over>) -> Tally
    requires few { IfOk performed.now FewShown }
    ensures counted { result ≡ counted performed.now }
    ensures few { (result.steps ≤ 512) × (result.drained ≤ 64) }
{
    match performed {
        Ok(Shown::Line(reply)) => tally_of(reply),
        Ok(Shown::Nothing) => NOTHING,
        Ok(Shown::Listed { .. }) => NOTHING,
        Ok(Shown::Files { .. }) => NOTHING,
        Ok(Shown::File { .. }) => NOTHING,
        Err(_) => NOTHING,
    }
}

/// What counts of a line: the ticks that are marked, and the bytes that were drained.
fn tally_of(reply: &Reply) -> Tally
    requires few { FewParts reply.now }
    ensures tally { result ≡ tally_of (line_of reply.now) }
    ensures few { (result.steps ≤ 512) × (result.drained ≤ 64) }
{
    match reply {
        Reply::Ticks { runs, .. } => Tally {
            steps: marks(runs),
            drained: 0,
        },
        Reply::Drained { bytes, .. } => Tally {
            steps: 0,
            drained: bytes.len() as u64,
        },
        Reply::Loaded { .. } => NOTHING,
        Reply::Typed { .. } => NOTHING,
        Reply::Words { .. } => NOTHING,
        Reply::Listed { .. } => NOTHING,
        Reply::State { .. } => NOTHING,
        Reply::Peeked { .. } => NOTHING,
        Reply::Dir { .. } => NOTHING,
        Reply::Filed { .. } => NOTHING,
        Reply::Shown { .. } => NOTHING,
        Reply::Row { .. } => NOTHING,
        Reply::Refused { .. } => NOTHING,
    }
}

/// How many ticks of these are marked.
#[tactic(auto, using(crate::proofs::TallyLaws::marked_all))]
fn marks(runs: &[Run]) -> u64
    requires few { length (paces_in runs.now) ≤ 512 }
    ensures count { result ≡ marks (paces_in runs.now) }
    ensures few { result ≤ 512 }
{
    let mut count = 0;
    for run in runs {
        count += mark(*run);
    }
    count
}

/// How many ticks of a run are marked: all, or none.
#[tactic(auto, using(crate::proofs::TallyLaws::run_marked, crate::proofs::TallyLaws::run_unmarked))]
fn mark(run: Run) -> u64
    ensures count { result ≡ marks (paces_in (run ∷ [])) }
    ensures few { result ≤ 2 ^ 32 }
{
    match run.pace {
        Pace::Step => 1 + u64::from(run.more),
        Pace::Work => 0,
        Pace::Wait => 0,
        Pace::Off => 0,
    }
}
