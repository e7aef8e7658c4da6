//! Which call decides: by its name, and for the calls that devices share by the device, or by what
//! the channel is on.
ghost use Rattle.std.specs.Prelude.{◌≡◌, ◌<◌, ◌∷◌, [], Some};
ghost use Rattle.its_frame.specs.declared.change.Change.TheVariants.{Shut};
ghost use Rattle.its_frame.specs.declared.decision.Decision.TheVariants.{Ends};
ghost use Rattle.its_frame.specs.declared.name.CallName.TheVariants.{Iot, Siot};
ghost use Rattle.its_jobs.specs.Table.{job_at};
ghost use Rattle.its_plain.specs.Call.Arguments.{input};
ghost use Rattle.its_plain.specs.Call.Device.{close_call, iot_call, open_call, siot_call};
ghost use Rattle.its_plain.specs.Call.Step.{decision};
ghost use Rattle.its_plain.specs.Call.Decide.{call_named, decided, reached_by, target};
ghost use Rattle.its_plain.specs.Operator.Clock.{clock_end};
ghost use Rattle.its_plain.specs.Machine.Own.{with_advance, exit_of};
ghost use Rattle.its_decide.specs.Called.{looks};
ghost use Rattle.its_decide.specs.Fits.{SeenFits};
ghost use Rattle.its_decide.specs.Seen.{machine_seen, raw_with};

use super::arguments::{channel, input, is_oneself};
use super::caller::{Caller, Seen};
use its_frame::{CallName, Change, Decision, Wait, error};
use its_plain::{DSK, LNK, USR};
use its_records::{Ask, Channel, Job};
use its_word::{Slot, Word};

/// The decision of the call of a slot's job, which has these registers.
#[tactic(auto, unfolding(its_plain::specs::Call::Step::decision))]
pub fn decide(seen: &Seen<'_>, slot: Slot, job: &Job, ask: &Ask) -> Decision
    requires job { job_at seen.now.jobs.now slot ≡ Some job.now }
    requires fits { SeenFits seen.now }
    requires clock { seen.now.clock < clock_end }
    ensures { result ≡ decision (machine_seen seen.now) slot (raw_with seen.now slot job.now) ask.now }
{
    let target = target(seen, slot, job, ask);
    let caller = Caller {
        seen,
        slot,
        job,
        ask,
        target,
    };
    caller.decided()
}

/// The slot of the job into which the call of a slot's job reaches, through an open channel on it.
#[inline(always)]
#[tactic(auto, using(its_shared::proofs::NumberLaws::under), unfolding(its_plain::specs::Call::Decide::target))]
pub(crate) fn target(seen: &Seen<'_>, slot: Slot, job: &Job, ask: &Ask) -> Option<u8>
    ensures { result ≡ target (raw_with seen.now slot job.now) ask.now }
{
    if ask.fail != 0 {
        return None;
    }
    let number = match CallName::named(ask.name) {
        Some(name) => match name.row().reaches {
            Some(k) => input(ask, k),
            None => return None,
        },
        None => return None,
    };
    if is_oneself(number) {
        return None;
    }
    match channel(job, number) {
        Channel::Usr { slot: inferior, .. } => Some(inferior),
        _ => None,
    }
}

/// The slot of the job that a channel is on, if its number does not name the caller itself.
#[inline(always)]
#[tactic(auto, using(its_shared::proofs::NumberLaws::under))]
pub(crate) fn reached(seen: &Seen<'_>, slot: Slot, job: &Job, number: Word) -> Option<u8>
    ensures { result ≡ reached_by (raw_with seen.now slot job.now) number }
{
    if is_oneself(number) {
        return None;
    }
    match channel(job, number) {
        Channel::Usr { slot: inferior, .. } => Some(inferior),
        _ => None,
    }
}

impl Caller<'_> {
    /// The decision of the call of the caller, by its name. An error of its decoding comes first.
    #[tactic(auto, unfolding(its_plain::specs::Call::Decide::decided, its_plain::specs::Machine::View::view))]
    fn decided(&self) -> Decision
        requires fits { SeenFits self.now.seen.now }
        requires clock { self.now.seen.now.clock < clock_end }
        ensures { result ≡ decided (looks self.now) self.now.ask.now }
    {
        if self.ask.fail != 0 {
            return self.fails(self.ask.fail);
        }
        match CallName::named(self.ask.name) {
            Some(CallName::Hang) => Decision::Waits(Wait::Hang),
            Some(CallName::Sleep) => self.sleep(),
            Some(CallName::Dismis) => self.dismiss(),
            Some(CallName::Usrvar) => self.usrvar(),
            Some(CallName::Logout) => self.logout(),
            Some(CallName::Open) => self.open(),
            Some(CallName::Close) => self.close(),
            Some(CallName::Iot) => self.iot(),
            Some(CallName::Siot) => self.siot(),
            Some(CallName::Finish) => self.finish(),
            Some(CallName::Listen) => self.listen(),
            Some(CallName::Ttylnd) => self.ttylnd(),
            Some(CallName::Access) => self.access(),
            Some(CallName::Fillen) => self.fillen(),
            Some(CallName::Delete) => self.delete(),
            Some(CallName::Rename) => self.rename(),
            Some(CallName::Usrmem) => self.usrmem(),
            Some(CallName::Uclose) => self.uclose(),
            Some(CallName::Corblk) => self.corblk(),
            Some(CallName::Realt) => self.realt(),
            None => self.fails(error::NO_CALL),
        }
    }

    /// OPEN by its device: any but DSK, USR and LNK has to be TTY.
    #[tactic(auto, unfolding(its_plain::specs::Call::Device::open_call))]
    fn open(&self) -> Decision
        requires { SeenFits self.now.seen.now }
        ensures { result ≡ open_call (looks self.now) self.now.ask.now }
    {
        match self.input(1).value() {
            DSK => self.open_disk(),
            USR => self.open_usr(),
            LNK => self.open_link(),
            _ => self.open_tty(),
        }
    }

    /// CLOSE by what the channel is on: a draft becomes a file, an end of a link is closed, any
    /// other channel is closed alone. Error 4, and those of a draft.
    #[tactic(auto, using(its_shared::proofs::NumberLaws::under, its_shared::proofs::NumberLaws::numbers), unfolding(its_plain::specs::Call::Device::close_call, its_plain::specs::Machine::View::view))]
    fn close(&self) -> Decision
        requires { SeenFits self.now.seen.now }
        ensures { result ≡ close_call (looks self.now) self.now.ask.now }
    {
        match self.channel(self.input(0)) {
            Channel::Closed => self.fails(error::BAD_CHANNEL),
            Channel::Writing { draft } => self.close_draft(draft),
            Channel::TtyIn => self.shut(),
            Channel::TtyOut => self.shut(),
            Channel::Reading { .. } => self.shut(),
            Channel::Usr { .. } => self.shut(),
            Channel::Link { link, write } => self.close_end(link, write),
        }
    }

    /// The channel of the call is closed.
    fn shut(&self) -> Decision
        requires { input self.now.ask.now 0 < 16 }
        ensures { result ≡ Ends (record { items = Shut (input self.now.ask.now 0) ∷ [] }) (record { items = [] }) (exit_of (with_advance 2 self.now.job.now)) }
    {
        self.finishes_with(Change::Shut {
            channel: self.input(0).value() as u8,
        })
    }

    /// `.IOT` by what the channel is on; IOC if it is closed.
    #[tactic(auto, using(its_shared::proofs::NumberLaws::under), unfolding(its_plain::specs::Call::Device::iot_call, its_plain::specs::Machine::View::view))]
    fn iot(&self) -> Decision
        requires fail { self.now.ask.now.fail ≡ 0 }
        requires name { call_named self.now.ask.now.name ≡ Some Iot }
        requires fits { SeenFits self.now.seen.now }
        ensures { result ≡ iot_call (looks self.now) self.now.ask.now }
    {
        match self.channel(self.input(0)) {
            Channel::Closed => self.ioc(),
            Channel::TtyIn => self.iot_in(),
            Channel::TtyOut => self.iot_out(),
            Channel::Reading { file, at } => self.iot_reads(file, at),
            Channel::Writing { draft } => self.iot_writes(draft),
            Channel::Usr { slot, write, at } => self.iot_through(slot, write, at),
            Channel::Link { link, write: true } => self.iot_sends(link),
            Channel::Link { link, write: false } => self.iot_receives(link),
        }
    }

    /// SIOT by what the channel is on. Error 4.
    #[inline(never)]
    #[tactic(auto, using(its_shared::proofs::NumberLaws::under), unfolding(its_plain::specs::Call::Device::siot_call, its_plain::specs::Machine::View::view))]
    fn siot(&self) -> Decision
        requires fail { self.now.ask.now.fail ≡ 0 }
        requires name { call_named self.now.ask.now.name ≡ Some Siot }
        requires fits { SeenFits self.now.seen.now }
        ensures { result ≡ siot_call (looks self.now) self.now.ask.now }
    {
        match self.channel(self.input(0)) {
            Channel::Closed => self.fails(error::BAD_CHANNEL),
            Channel::TtyIn => self.outcome(self.siot_in()),
            Channel::TtyOut => self.outcome(self.siot_out()),
            Channel::Reading { file, at } => self.outcome(self.siot_reads(file, at)),
            Channel::Writing { draft } => self.outcome(self.siot_writes(draft)),
            Channel::Usr { slot, write, at } => self.siot_through(slot, write, at),
            Channel::Link { link, write: true } => self.outcome(self.siot_sends(link)),
            Channel::Link { link, write: false } => self.outcome(self.siot_receives(link)),
        }
    }
}
