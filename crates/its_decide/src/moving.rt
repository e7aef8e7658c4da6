//! What SIOT moves next, as a small value: a decision is made of it only if one is wanted.
ghost use Rattle.std.specs.Prelude.{◌≡◌, ◌-◌, [], true, None, Some, IfSome};
ghost use Rattle.its_frame.specs.declared.name.CallName.TheVariants.{Siot};
ghost use Rattle.its_jobs.specs.Table.{job_at};
ghost use Rattle.its_shared.specs.Called.{channel_under};
ghost use Rattle.its_plain.specs.Call.Arguments.{input};
ghost use Rattle.its_plain.specs.Call.Device.{siot_call};
ghost use Rattle.its_plain.specs.Call.Step.{decision};
ghost use Rattle.its_plain.specs.Call.Decide.{call_named, reach};
ghost use Rattle.its_decide.specs.Called.{looks};
ghost use Rattle.its_decide.specs.Fits.{SeenFits};
ghost use Rattle.its_decide.specs.Moving.{change_of, found, halted, moved_by, moved_on, moving, next_moved, outcome};
ghost use Rattle.its_decide.specs.Seen.{machine_seen, raw_with};

use super::arguments::input;
use super::caller::{Caller, Seen};
use super::choice::reached;
use super::ends::goes_with;
use arrayvec::ArrayVec;
use its_frame::{CallName, Change, Decision, Held, Wait};
use its_records::{Ask, Channel, Job};
use its_word::{Fault, Slot, Word};

/// What changes outside the job's own words and registers if SIOT moves a byte or word: the
/// position of a channel, the draft of a channel, the input or the output of a console, or the
/// words of a link. Each is a `Change`; this type has no other, and is small.
#[derive(Clone, Copy, Debug, PartialEq, Eq)]
pub enum Shift {
    Move { channel: u8, at: u32 },
    Append { channel: u8, word: Word },
    Take { console: u8 },
    Put { console: u8, byte: u8 },
    Send { link: u8, word: Word },
    Receive { link: u8 },
}

/// A byte or word that SIOT moves: what changes, what is held until it is stored, and pointer and
/// count of the rest.
#[derive(Clone, Copy, Debug, PartialEq, Eq)]
pub struct NextMove {
    pub next: Word,
    pub left: Word,
    pub held: Option<Held>,
    pub shift: Shift,
}

/// Why SIOT moves nothing: an error with a number, a fault, its end, or a wait.
#[derive(Clone, Copy, Debug, PartialEq, Eq)]
pub(crate) enum Halt {
    Error(u8),
    Bit(Fault),
    Over,
    Later(Wait),
}

/// The change that is made.
#[inline(always)]
pub fn change_of(shift: Shift) -> Change
    ensures { result ≡ change_of shift }
{
    match shift {
        Shift::Move { channel, at } => Change::Move { channel, at },
        Shift::Append { channel, word } => Change::Append { channel, word },
        Shift::Take { console } => Change::Take { console },
        Shift::Put { console, byte } => Change::Put { console, byte },
        Shift::Send { link, word } => Change::Send { link, word },
        Shift::Receive { link } => Change::Receive { link },
    }
}

/// A byte or word is moved by one change, and the count becomes one less.
#[inline(always)]
pub(crate) fn one_moved(shift: Shift, held: Option<Held>, next: Word, count: Word) -> NextMove
    ensures { result ≡ record { next = next; left = count - 1; held = held; shift = shift } }
{
    NextMove {
        next,
        left: Word::new(count.value().saturating_sub(1)),
        held,
        shift,
    }
}

/// The decision that moves a byte or word by one change.
fn moving(m: &NextMove) -> Decision
    ensures { result ≡ moving m.now }
{
    let mut changes = ArrayVec::new();
    changes.push(change_of(m.shift));
    goes_with(changes, m.held, m.next, m.left)
}

impl Caller<'_> {
    /// The decision of a SIOT that moves nothing.
    #[tactic(auto, unfolding(its_plain::specs::Machine::View::view))]
    pub(crate) fn halts(&self, halt: Halt) -> Decision
        ensures { result ≡ halted (looks self.now) self.now.ask.now halt }
    {
        match halt {
            Halt::Error(number) => self.fails(number),
            Halt::Bit(fault) => self.faults(fault),
            Halt::Over => self.finishes(ArrayVec::new()),
            Halt::Later(wait) => Decision::Waits(wait),
        }
    }

    /// The decision of SIOT, by what it moves or why it moves nothing.
    pub(crate) fn outcome(&self, r: Result<NextMove, Halt>) -> Decision
        ensures { result ≡ outcome (looks self.now) self.now.ask.now r }
    {
        match r {
            Ok(m) => moving(&m),
            Err(halt) => self.halts(halt),
        }
    }

    /// What SIOT moves, if it moves something. This is all that its decision moves.
    #[inline(always)]
    #[tactic(auto, using(crate::proofs::SiotLaws::found_moves))]
    fn found(&self, r: Result<NextMove, Halt>) -> Option<NextMove>
        ensures found { result ≡ found r }
        ensures moved { result ≡ moved_by (outcome (looks self.now) self.now.ask.now r) }
    {
        match r {
            Ok(m) => Some(m),
            Err(_) => None,
        }
    }

    /// What SIOT moves next, if its channel is on a console, a file, a draft or a link: exactly
    /// what its decision moves.
    #[inline(always)]
    #[tactic(auto, using(its_shared::proofs::NumberLaws::under), unfolding(its_plain::specs::Call::Device::siot_call, its_plain::specs::Machine::View::view))]
    fn next_move(&self) -> Option<NextMove>
        requires fits { SeenFits self.now.seen.now }
        ensures moves { IfSome result (λ m. moving m ≡ siot_call (looks self.now) self.now.ask.now) }
        ensures moved { result ≡ moved_on (channel_under self.now.job.now (input self.now.ask.now 0)) (siot_call (looks self.now) self.now.ask.now) }
    {
        match self.channel(self.input(0)) {
            Channel::TtyIn => self.found(self.siot_in()),
            Channel::TtyOut => self.found(self.siot_out()),
            Channel::Reading { file, at } => self.found(self.siot_reads(file, at)),
            Channel::Writing { draft } => self.found(self.siot_writes(draft)),
            Channel::Link { link, write: true } => self.found(self.siot_sends(link)),
            Channel::Link { link, write: false } => self.found(self.siot_receives(link)),
            Channel::Closed => None,
            Channel::Usr { .. } => None,
        }
    }
}

/// What the call of a slot's job, which has these registers, moves next, if it is SIOT, its
/// decoding gave no error, and it reaches no other job. Then its decision is this, and disturbs
/// nobody. None says that one of the three does not hold, or that the decision moves nothing.
#[inline(always)]
#[tactic(auto, using(crate::proofs::Groups::next_move_laws), unfolding(its_plain::specs::Call::Step::decision, its_plain::specs::Call::Decide::decided, its_plain::specs::Call::Decide::reach))]
pub fn next_move(seen: &Seen<'_>, slot: Slot, job: &Job, ask: &Ask) -> Option<NextMove>
    requires job { job_at seen.now.jobs.now slot ≡ Some job.now }
    requires fits { SeenFits seen.now }
    ensures moves { IfSome result (λ m. moving m ≡ decision (machine_seen seen.now) slot (raw_with seen.now slot job.now) ask.now) }
    ensures alone { IfSome result (λ m. reach (machine_seen seen.now) slot (raw_with seen.now slot job.now) ask.now ≡ []) }
    ensures moved { result ≡ next_moved (machine_seen seen.now) slot (raw_with seen.now slot job.now) ask.now }
{
    if ask.fail != 0 {
        return None;
    }
    if !CallName::is_siot(ask.name) {
        return None;
    }
    let target = reached(seen, slot, job, input(ask, 0));
    if target.is_some() {
        return None;
    }
    let caller = Caller {
        seen,
        slot,
        job,
        ask,
        target,
    };
    caller.next_move()
}
