//! The ticks of a slot, and the `T` line of their letters.
ghost use Rattle.std.specs.Prelude.{◌≡◌, ◌≤◌, ◌<◌, ◌+◌, ◌∷◌, ◌++◌, [], length, replicate};
ghost use Rattle.its_stepped.specs.Lines.{paces_of, after_ticks};
ghost use Rattle.its_world.specs.World.{state_of};
ghost use Rattle.its_monitor.specs.Kept.{Kept};
ghost use Rattle.its_print.specs.Runs.{paces_in};
ghost use Rattle.its_top.specs.Answer.{Tells};
ghost use Rattle.its_print.specs.Printing.{Ticks, text_of_line};
ghost use Rattle.its_top.specs.Causes.{FlowCause};

use crate::sessions::flow::Flow;
use crate::sessions::room::{Room, Runs};
use crate::sessions::writing::tell;
use its_io::Sink;
use its_monitor::Monitor;
use its_print::{Reply, Run};
use its_records::Pace;
use its_word::Slot;

/// Ticks a slot n times, and writes the `T` line of the letters. The room loses what it had before.
#[tactic(auto, using(crate::proofs::WritingLaws::told_as))]
pub fn tick_line<K: Sink>(m: &mut Monitor, s: Slot, n: u32, room: &mut Room, out: &mut K) -> Flow
    requires sound { Kept m.old.world }
    requires few { n ≤ 512 }
    ensures told { Tells result Flow.On (text_of_line (Ticks s (paces_of (state_of m.old.world) s n))) (K.written out.old) (K.written out.new) }
    ensures state { state_of m.new.world ≡ after_ticks (state_of m.old.world) s n }
    ensures sound { Kept m.new.world }
    ensures cause { FlowCause result (K.faults out.old) (K.faults out.new) }
{
    room.parts.runs.clear();
    paces_of(m, s, n, &mut room.parts.runs);
    let runs = room.parts.runs.as_slice();
    tell(&mut room.line, out, &Reply::Ticks { s, runs }, Flow::On)
}

/// The letters of n ticks of a slot, as runs, which are put into an empty array. If the slot waits,
/// they are known before any is made.
#[tactic(auto, using(crate::proofs::PaceLaws::all_wait, crate::proofs::PaceLaws::paces_length))]
pub fn paces_of(m: &mut Monitor, s: Slot, n: u32, runs: &mut Runs)
    requires sound { Kept m.old.world }
    requires few { n ≤ 512 }
    requires empty { runs.old.items ≡ [] }
    ensures paces { paces_in runs.new.items ≡ paces_of (state_of m.old.world) s n }
    ensures count { length (paces_in runs.new.items) ≡ n }
    ensures state { state_of m.new.world ≡ after_ticks (state_of m.old.world) s n }
    ensures sound { Kept m.new.world }
{
    if m.waits(s) {
        put_run(runs, Pace::Wait, n);
    } else {
        paces_made(m, s, n, runs);
    }
}

/// The letters of n ticks of a slot, each made in turn. Ticks that follow one another and have the
/// same letter are one run.
#[inline(never)]
#[tactic(auto, using(crate::proofs::PaceLaws::pacing_end))]
fn paces_made(m: &mut Monitor, s: Slot, n: u32, runs: &mut Runs)
    requires sound { Kept m.old.world }
    requires few { n ≤ 512 }
    requires empty { runs.old.items ≡ [] }
    ensures paces { paces_in runs.new.items ≡ paces_of (state_of m.old.world) s n }
    ensures state { state_of m.new.world ≡ after_ticks (state_of m.old.world) s n }
    ensures sound { Kept m.new.world }
{
    let mut made = 0;
    let mut last = Pace::Off;
    let mut count = 0;
    while made < n {
        let run = run_of(m, s, n - made, last);
        if run.pace == last {
            count += 1 + run.more;
        } else {
            put_run(runs, last, count);
            last = run.pace;
            count = 1 + run.more;
        }
        made += 1 + run.more;
    }
    put_run(runs, last, count);
}

/// Puts so many ticks with one letter after the runs: one run, or nothing if they are none.
#[inline]
#[tactic(auto, using(crate::proofs::PaceLaws::put_none, crate::proofs::PaceLaws::put_some))]
fn put_run(runs: &mut Runs, pace: Pace, count: u32)
    requires room { length runs.old.items + count ≤ 512 }
    ensures paces { paces_in runs.new.items ≡ paces_in runs.old.items ++ replicate count pace }
    ensures few { length runs.new.items ≤ length runs.old.items + count }
{
    if count > 0 {
        runs.push(Run {
            pace,
            more: count - 1,
        });
    }
}

/// The run of letters that the next ticks of a slot begin with, of n ticks at most: one tick; and
/// if its letter is `last`, that of the tick before, also all after it that surely have this
/// letter.
#[tactic(auto, using(crate::proofs::PaceLaws::one_more, crate::proofs::PaceLaws::one_and_more))]
fn run_of(m: &mut Monitor, s: Slot, n: u32, last: Pace) -> Run
    requires sound { Kept m.old.world }
    requires some { 0 < n }
    ensures few { 1 + result.more ≤ n }
    ensures paces { paces_in (result ∷ []) ≡ paces_of (state_of m.old.world) s (1 + result.more) }
    ensures state { state_of m.new.world ≡ after_ticks (state_of m.old.world) s (1 + result.more) }
    ensures sound { Kept m.new.world }
{
    let pace = m.tick(s);
    if pace == last {
        let more = more_of(m, s, pace, n - 1);
        return Run { pace, more };
    }
    Run { pace, more: 0 }
}

/// Makes the next ticks of a slot that surely have the letter of the two before them, n at most,
/// and says how many: after steps all that follow in user mode, or all bytes that SIOT moves one
/// after the other; and all n if the slot waits.
#[tactic(auto, using(crate::proofs::PaceLaws::like_these))]
fn more_of(m: &mut Monitor, s: Slot, pace: Pace, n: u32) -> u32
    requires sound { Kept m.old.world }
    ensures few { result ≤ n }
    ensures paces { paces_of (state_of m.old.world) s result ≡ replicate result pace }
    ensures state { state_of m.new.world ≡ after_ticks (state_of m.old.world) s result }
    ensures sound { Kept m.new.world }
{
    match pace {
        Pace::Step => m.steps(s, n),
        Pace::Wait if m.waits(s) => n,
        _ => 0,
    }
}
