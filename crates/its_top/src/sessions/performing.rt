//! An event is performed: what it does to the monitor and to the block, and what it shows.
ghost use Rattle.std.specs.Prelude.{◌≡◌, ◌≤◌, ◌+◌, ◌^◌, Ok, Err, IfOk, IfErr, OnOk, length};
ghost use Rattle.its_session.specs.Fits.{EventFits};
ghost use Rattle.its_plain.specs.Operator.{Block};
ghost use Rattle.its_plain.specs.Operator.Jobs.{examined};
ghost use Rattle.its_stepped.specs.Unwind.{unwound};
ghost use Rattle.its_world.specs.World.{state_of};
ghost use Rattle.its_records.specs.Refusals.{reason_of};
ghost use Rattle.its_monitor.specs.Kept.{Kept};
ghost use Rattle.its_top.specs.Answer.{FindsStart, block_of};
ghost use Rattle.its_top.specs.Performing.{Performed, quiet};

use crate::sessions::consoles::{drain_bytes, type_bytes};
use crate::sessions::filing::{add_words, find_file, list_files, make_file};
use crate::sessions::loading::load_words;
use crate::sessions::progress::Progress;
use crate::sessions::restoring::restore;
use crate::sessions::room::Parts;
use crate::sessions::shown::{Over, Shown};
use crate::sessions::ticking::paces_of;
use arrayvec::ArrayVec;
use its_monitor::Monitor;
use its_print::Reply;
use its_records::{Event, Refusal};
use its_word::{ConsoleNumber, Slot, Word};

/// Performs an event, unless the event ends the session. What its line lends is put into the room
/// for parts of a line.
#[tactic(auto, using(crate::proofs::Groups::perform_laws), unfolding(its_session::specs::Grammar::last_slot))]
pub fn perform<'a>(
    m: &mut Monitor,
    p: &mut Progress,
    event: &Event,
    parts: &'a mut Parts,
) -> Result<Shown<'a>, Over>
    requires sound { Kept m.old.world }
    requires fits { EventFits 2 event.now }
    requires start { FindsStart event.now (state_of m.old.world) }
    ensures performed { Performed result (state_of m.old.world) (block_of p.old.slot p.old.file) event.now m.new.world (block_of p.new.slot p.new.file) }
    ensures sound { Kept m.new.world }
    ensures kept { p.new.number ≡ p.old.number }
{
    match event {
        Event::Nothing => Ok(Shown::Nothing),
        Event::Version { v } => {
            m.version(*v);
            Ok(Shown::Nothing)
        }
        Event::Load { u, j, console } => load(m, p, *u, *j, *console),
        Event::Words { a, words } => quiet(load_words(m, p.slot, *a, words)),
        Event::ReadOnly { page } => quiet(m.read_only(p.slot, *page)),
        Event::Symbol { name, a } => quiet(m.symbol(p.slot, *name, *a)),
        Event::Go { a } => quiet(m.go(p.slot, *a)),
        Event::File { d, x, y } => make_file(m, p, *d, *x, *y),
        Event::Append { words } => quiet(add_words(m, p.file, words)),
        Event::EndFile => Ok(Shown::Nothing),
        Event::Tick { s, n } => tick(m, *s, *n, parts),
        Event::Run { .. } => Ok(Shown::Nothing),
        Event::TypeIn { c, bytes } => {
            let dropped = type_bytes(m, *c, bytes);
            Ok(Shown::Line(Reply::Typed { c: *c, dropped }))
        }
        Event::Drain { c, n } => drain(m, *c, *n, parts),
        Event::Clock { n } => quiet(m.advance(*n)),
        Event::Int { s, v, w } => quiet(m.interrupt(*s, *v, *w)),
        Event::Exam { s, a, n } => examine(m, *s, *a, *n, parts),
        Event::List { s, a, n } => list(m, *s, *a, *n, parts),
        Event::State { s } => state(m, *s, parts),
        Event::Deposit { s, a, w } => quiet(m.deposit(*s, *a, *w)),
        Event::Stop { s } => quiet(m.stop(*s)),
        Event::Cont { s } => quiet(m.cont(*s)),
        Event::Peek { s } => peek(m, *s, parts),
        Event::Dir { d } => list_files(m, *d),
        Event::Show { d, x, y } => find_file(m, *d, *x, *y),
        Event::Restore { line } => restore(m, p, line),
        Event::End => Err(Over::Ended),
    }
}

/// What an event shows whose call answers nothing.
pub fn quiet<'a>(answer: Result<(), Refusal>) -> Result<Shown<'a>, Over>
    ensures { result ≡ quiet answer }
{
    match answer {
        Ok(()) => Ok(Shown::Nothing),
        Err(e) => Err(Over::Refused(e)),
    }
}

/// LOAD: makes a job, and shows its slot, which is then the block's.
fn load<'a>(
    m: &mut Monitor,
    p: &mut Progress,
    u: Word,
    j: Word,
    console: Option<ConsoleNumber>,
) -> Result<Shown<'a>, Over>
    requires sound { Kept m.old.world }
    ensures performed { Performed result (state_of m.old.world) (block_of p.old.slot p.old.file) (Event.Load u j console) m.new.world (block_of p.new.slot p.new.file) }
    ensures sound { Kept m.new.world }
    ensures kept { p.new.number ≡ p.old.number }
{
    match m.load_job(u, j, console) {
        Ok(s) => {
            p.slot = s;
            Ok(Shown::Line(Reply::Loaded { s }))
        }
        Err(e) => Err(Over::Refused(e)),
    }
}

/// TICK: shows the letters of n ticks of a slot.
fn tick<'a>(m: &mut Monitor, s: Slot, n: u32, parts: &'a mut Parts) -> Result<Shown<'a>, Over>
    requires sound { Kept m.old.world }
    requires few { n ≤ 512 }
    ensures performed { (b : Block) → Performed result (state_of m.old.world) b (Event.Tick s n) m.new.world b }
    ensures sound { Kept m.new.world }
{
    parts.runs.clear();
    paces_of(m, s, n, &mut parts.runs);
    let runs = parts.runs.as_slice();
    Ok(Shown::Line(Reply::Ticks { s, runs }))
}

/// DRAIN: shows up to n bytes of output of a console.
fn drain<'a>(
    m: &mut Monitor,
    c: ConsoleNumber,
    n: u32,
    parts: &'a mut Parts,
) -> Result<Shown<'a>, Over>
    requires sound { Kept m.old.world }
    requires few { n ≤ 64 }
    ensures performed { (b : Block) → Performed result (state_of m.old.world) b (Event.Drain c n) m.new.world b }
    ensures sound { Kept m.new.world }
{
    parts.bytes = drain_bytes(m, c, n);
    let bytes = parts.bytes.as_slice();
    Ok(Shown::Line(Reply::Drained { c, bytes }))
}

/// STATE: shows a job.
fn state<'a>(m: &mut Monitor, s: Slot, parts: &'a mut Parts) -> Result<Shown<'a>, Over>
    requires sound { Kept m.old.world }
    ensures performed { (b : Block) → Performed result (state_of m.old.world) b (Event.State s) m.new.world b }
    ensures sound { Kept m.new.world }
{
    match m.state(s) {
        Ok(show) => {
            parts.show = show;
            let version = m.world.version;
            let show = &parts.show;
            Ok(Shown::Line(Reply::State { version, s, show }))
        }
        Err(e) => Err(Over::Refused(e)),
    }
}

/// EXAM: shows words of a slot.
fn examine<'a>(
    m: &mut Monitor,
    s: Slot,
    a: u32,
    n: u32,
    parts: &'a mut Parts,
) -> Result<Shown<'a>, Over>
    requires sound { Kept m.old.world }
    requires few { n ≤ 8 }
    requires some { 1 ≤ n }
    requires end { a + n ≤ 2 ^ 18 }
    ensures performed { (b : Block) → Performed result (state_of m.old.world) b (Event.Exam s a n) m.new.world b }
    ensures sound { Kept m.new.world }
{
    match words_of(m, s, a, n) {
        Ok(words) => {
            parts.words = words;
            let words = parts.words.as_slice();
            Ok(Shown::Line(Reply::Words { s, a, words }))
        }
        Err(e) => Err(Over::Refused(e)),
    }
}

/// LIST: shows words of a slot, typed out.
fn list<'a>(
    m: &mut Monitor,
    s: Slot,
    a: u32,
    n: u32,
    parts: &'a mut Parts,
) -> Result<Shown<'a>, Over>
    requires sound { Kept m.old.world }
    requires few { n ≤ 8 }
    requires some { 1 ≤ n }
    requires end { a + n ≤ 2 ^ 18 }
    ensures performed { (b : Block) → Performed result (state_of m.old.world) b (Event.List s a n) m.new.world b }
    ensures sound { Kept m.new.world }
{
    match words_of(m, s, a, n) {
        Ok(words) => {
            parts.words = words;
            let words = parts.words.as_slice();
            Ok(Shown::Listed { s, a, words })
        }
        Err(e) => Err(Over::Refused(e)),
    }
}

/// PEEK: shows how far a slot's job is inside a call.
fn peek<'a>(m: &Monitor, s: Slot, parts: &'a mut Parts) -> Result<Shown<'a>, Over>
    requires sound { Kept m.now.world }
    ensures performed { (b : Block) → Performed result (state_of m.now.world) b (Event.Peek s) m.now.world b }
{
    match m.peek(s) {
        Ok(peek) => {
            parts.peek = peek;
            let peek = &parts.peek;
            Ok(Shown::Line(Reply::Peeked { s, peek }))
        }
        Err(e) => Err(Over::Refused(e)),
    }
}

/// The n words of a slot from an address on, or the first refusal.
#[tactic(auto, using(crate::proofs::Groups::words_of_laws))]
pub fn words_of(m: &mut Monitor, s: Slot, a: u32, n: u32) -> Result<ArrayVec<Word, 8>, Refusal>
    requires sound { Kept m.old.world }
    requires few { n ≤ 8 }
    requires some { 1 ≤ n }
    requires end { a + n ≤ 2 ^ 18 }
    ensures words { IfOk result (λ ws. examined (unwound (state_of m.old.world) s).raw s a n ≡ Ok ws.items) }
    ensures few { IfOk result (λ ws. length ws.items ≤ 8) }
    ensures refused { IfErr result (λ e. examined (unwound (state_of m.old.world) s).raw s a n ≡ Err (reason_of e)) }
    ensures unwinds { OnOk result (state_of m.new.world ≡ unwound (state_of m.old.world) s) }
    ensures sound { Kept m.new.world }
{
    let mut words = ArrayVec::new();
    for k in 0..n {
        match m.exam(s, a + k) {
            Ok(w) => words.push(w),
            Err(e) => return Err(e),
        }
    }
    Ok(words)
}
