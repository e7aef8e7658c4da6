//! The generated session of `its gen`.
ghost use Rattle.std.specs.Prelude.{◌≡◌, ◌≤◌, ◌<◌, ◌+◌, ◌*◌, ◌^◌, ◌/◌, ◌%◌, ◌==◌, [], ◌∷◌, ◌++◌, All, IfSome, length, slice_get};
ghost use Rattle.its_records.specs.declared.session.Event.TheVariants as events;
ghost use Rattle.its_session.specs.Fits.{EventFits};
ghost use Rattle.its_session.specs.Generated.{placed, letter, started, echoed, emptied, round, all_emptied, generated_session, IsGenerated};

use arrayvec::ArrayVec;
use its_records::Event;
use its_word::{ConsoleNumber, Slot, Word};

/// How many jobs there are, one at each console.
const JOBS: u8 = 8;

/// How many lines start a job.
const START_LINES: u64 = 6;

/// How many lines empty the console of a job at the end.
const EMPTY_LINES: u64 = 2;

/// How many lines start all jobs.
const ALL_START_LINES: u64 = 48;

/// How many lines empty the consoles of all jobs.
const ALL_EMPTY_LINES: u64 = 16;

/// The user name of each job, `U`.
const USER: u64 = 0o650000000000;

/// The job name of each job, `E`.
const NAME: u64 = 0o450000000000;

/// The program: it opens its console for input and for output, and then echoes each byte.
const PROGRAM: [u64; 7] = [
    0o043000001020,
    0o045700000000,
    0o043000001030,
    0o045700000000,
    0o040040000003,
    0o040100000003,
    0o254000001004,
];

/// The block of its OPEN for input.
const INPUT: [u64; 4] = [
    0o400000000000,
    0o576045560000,
    0o001000000001,
    0o400000001050,
];

/// The block of its OPEN for output.
const OUTPUT: [u64; 5] = [
    0o400000000000,
    0o576045560000,
    0o005000000001,
    0o001000000002,
    0o400000001050,
];

/// The name of its device, `TTY`.
const DEVICE: [u64; 1] = [0o646471000000];

/// The k-th line, from 0, of the generated session of n rounds; None past its end.
#[tactic(auto, using(crate::proofs::GeneratedLaws::generated_fits, crate::proofs::GeneratedLaws::generated_kinds))]
pub fn generated(n: u32, k: u32) -> Option<Event>
    ensures event { result ≡ slice_get (generated_session n) k }
    ensures fits { IfSome result (λ e. EventFits 1 e) }
    ensures kind { IfSome result (λ e. IsGenerated e) }
{
    line(u64::from(n), u64::from(k))
}

/// The k-th line of the generated session of n rounds, if both numbers are below 2^32.
#[tactic(auto, using(crate::proofs::GeneratedLaws::in_start, crate::proofs::GeneratedLaws::in_rounds, crate::proofs::GeneratedLaws::in_end))]
fn line(n: u64, k: u64) -> Option<Event>
    requires rounds { n < 2 ^ 32 }
    requires place { k < 2 ^ 32 }
    ensures { result ≡ slice_get (generated_session n) k }
{
    if k < ALL_START_LINES {
        let c = ConsoleNumber::new((k / START_LINES) as u8);
        return started(c, k % START_LINES);
    }
    let k = k - ALL_START_LINES;
    let r = round_at(k);
    if r < n {
        return round(r, k - lines_before(r));
    }
    end(k - lines_before(n))
}

/// The k-th line of those that start a job.
#[tactic(auto, unfolding(crate::specs::Generated::started))]
fn started(c: ConsoleNumber, k: u64) -> Option<Event>
    ensures { result ≡ slice_get (started c) k }
{
    match k {
        0 => Some(Event::Load {
            u: Word::new(USER),
            j: Word::new(NAME),
            console: Some(c),
        }),
        1 => Some(placed(0o1000, &PROGRAM)),
        2 => Some(placed(0o1020, &INPUT)),
        3 => Some(placed(0o1030, &OUTPUT)),
        4 => Some(placed(0o1050, &DEVICE)),
        5 => Some(Event::Go { a: 0o1000 }),
        _ => None,
    }
}

/// A line of words.
fn placed(a: u32, values: &[u64]) -> Event
    requires few { length values.now ≤ 16 }
    requires words { All (λ v. v < 2 ^ 36) values.now }
    ensures { result ≡ placed a values.now }
{
    let mut words = ArrayVec::new();
    for value in values {
        words.push(Word::new(*value));
    }
    Event::Words { a, words }
}

/// How many lines the rounds before round r have: three for each job, and one more for every third
/// of these jobs.
fn lines_before(r: u64) -> u64
    requires { r < 2 ^ 32 }
    ensures { result ≡ (80 * r + 1) / 3 }
{
    (80 * r + 1) / 3
}

/// The round of line k of the rounds.
fn round_at(k: u64) -> u64
    requires { k < 2 ^ 32 }
    ensures { result ≡ (3 * k + 1) / 80 }
{
    (3 * k + 1) / 80
}

/// Line k of round r.
#[tactic(auto, using(crate::proofs::GeneratedLaws::in_round, crate::proofs::GeneratedLaws::past_round, crate::proofs::GeneratedLaws::next_job, crate::proofs::GeneratedLaws::job_lines))]
fn round(r: u64, k: u64) -> Option<Event>
    requires { r < 2 ^ 32 }
    ensures { result ≡ slice_get (round r) k }
{
    let mut left = k;
    for c in 0..JOBS {
        let c = ConsoleNumber::new(c);
        let lines = if looks(r, c) { 4 } else { 3 };
        if left < lines {
            return echoed(r, c, left);
        }
        left -= lines;
    }
    None
}

/// Whether round r has an EXAM at console c.
fn looks(r: u64, c: ConsoleNumber) -> bool
    requires { r < 2 ^ 32 }
    ensures { result ≡ ((r + c) % 3 == 0) }
{
    (r + u64::from(c.number())) % 3 == 0
}

/// Line k of round r at console c.
#[tactic(auto, unfolding(crate::specs::Generated::echoed))]
fn echoed(r: u64, c: ConsoleNumber, k: u64) -> Option<Event>
    requires { r < 2 ^ 32 }
    ensures { result ≡ slice_get (echoed r c) k }
{
    match (k, looks(r, c)) {
        (0, _) => Some(type_letter(r, c)),
        (1, _) => Some(Event::Tick {
            s: Slot::new(c.number()),
            n: 0o24,
        }),
        (2, true) => Some(Event::Exam {
            s: Slot::new(c.number()),
            a: 3,
            n: 1,
        }),
        (2, false) | (3, true) => Some(Event::Drain { c, n: 0o10 }),
        _ => None,
    }
}

/// The TYPE line of round r at console c.
fn type_letter(r: u64, c: ConsoleNumber) -> Event
    requires { r < 2 ^ 32 }
    ensures { result ≡ events.TypeIn c (record { items = letter r c ∷ [] }) }
{
    let mut bytes = ArrayVec::new();
    bytes.push(b'A' + ((7 * r + u64::from(c.number())) % 26) as u8);
    Event::TypeIn { c, bytes }
}

/// The k-th line of those after the rounds.
#[tactic(auto, using(crate::proofs::GeneratedLaws::in_emptying, crate::proofs::GeneratedLaws::at_emptied, crate::proofs::GeneratedLaws::past_emptied))]
fn end(k: u64) -> Option<Event>
    ensures { result ≡ slice_get (all_emptied ++ events.End ∷ []) k }
{
    if k < ALL_EMPTY_LINES {
        let c = ConsoleNumber::new((k / EMPTY_LINES) as u8);
        return emptied(c, k % EMPTY_LINES);
    }
    if k == ALL_EMPTY_LINES {
        Some(Event::End)
    } else {
        None
    }
}

/// The k-th line of those that empty a console.
#[tactic(auto, unfolding(crate::specs::Generated::emptied))]
fn emptied(c: ConsoleNumber, k: u64) -> Option<Event>
    ensures { result ≡ slice_get (emptied c) k }
{
    match k {
        0 => Some(Event::Tick {
            s: Slot::new(c.number()),
            n: 0o40,
        }),
        1 => Some(Event::Drain { c, n: 0o100 }),
        _ => None,
    }
}
