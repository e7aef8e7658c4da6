//! USRVAR: the variables of jobs.
ghost use Rattle.std.specs.Prelude.{if◌then◌else◌, ◌≡◌, Some, None};
ghost use Rattle.its_plain.specs.Call.Arguments.{input};
ghost use Rattle.its_frame.specs.Variables.{variable_named};
ghost use Rattle.its_plain.specs.Call.Basic.{by_oneself, by_superior, other_variable, own_variable, usrvar, value_of_other};
ghost use Rattle.its_plain.specs.Machine.Own.{with_advance, exit_of, variable_of, with_variable};
ghost use Rattle.its_decide.specs.Called.{looks};
ghost use Rattle.its_decide.specs.Seen.{raw_with};

use super::arguments::is_oneself;
use super::caller::{Caller, Seen};
use super::ends::ends;
use its_frame::{Change, Decision, Exit, Variable, error};
use its_records::{Channel, Job};
use its_word::{Slot, Word};

impl Caller<'_> {
    /// USRVAR job, name, optional new value: the output gets the value before, and then the new
    /// value is set. Errors 4 if the channel is closed, 5 if it is on no job, 22 if no variable has
    /// the name, 5 if the channel has no leave to write, and 22 if the variable cannot be set so.
    #[tactic(auto, using(its_shared::proofs::NumberLaws::under), unfolding(its_plain::specs::Call::Basic::usrvar, its_plain::specs::Machine::View::view))]
    pub(crate) fn usrvar(&self) -> Decision
        ensures { result ≡ usrvar (looks self.now) self.now.ask.now }
    {
        let party = self.input(0);
        if is_oneself(party) {
            return self.own_variable();
        }
        match self.channel(party) {
            Channel::Usr { slot, write, .. } => self.other_variable(slot, write),
            Channel::Closed => self.fails(error::BAD_CHANNEL),
            _ => self.fails(error::WRONG_DEVICE),
        }
    }

    /// USRVAR on oneself.
    #[tactic(auto, using(its_shared::proofs::BareLaws::set_bare), unfolding(its_plain::specs::Machine::View::view))]
    fn own_variable(&self) -> Decision
        ensures { result ≡ own_variable (looks self.now) self.now.ask.now (variable_named (input self.now.ask.now 1)) }
    {
        let Some(variable) = Variable::named(self.input(1)) else {
            return self.fails(error::OUT_OF_RANGE);
        };
        let stores = self.output(variable_of(
            self.seen,
            self.slot.number(),
            self.slot,
            self.job,
            variable,
        ));
        if !self.has_input(2) {
            return self.finishes(stores);
        }
        match self.set(variable, self.input(2)) {
            Some(exit) => ends(None, stores, exit),
            None => self.fails(error::OUT_OF_RANGE),
        }
    }

    /// The registers of the caller whose call finishes and sets a variable of its own; None if it
    /// may not set that itself.
    #[tactic(auto, unfolding(its_plain::specs::Machine::Own::with_variable))]
    fn set(&self, variable: Variable, value: Word) -> Option<Exit>
        ensures { result ≡ (if by_oneself variable then Some (exit_of (with_variable variable value (with_advance 2 self.now.job.now))) else None) }
    {
        let mut exit = self.past(2);
        match variable {
            Variable::Pirqc => exit.pend1 = value,
            Variable::Ifpir => exit.pend2 = value,
            Variable::Mask => exit.mask1 = value,
            Variable::Msk2 => exit.mask2 = value,
            Variable::Df1 => exit.defer1 = value,
            Variable::Df2 => exit.defer2 = value,
            _ => return None,
        }
        Some(exit)
    }

    /// USRVAR through a channel on an inferior.
    #[tactic(auto, unfolding(its_plain::specs::Machine::View::view))]
    fn other_variable(&self, inferior: u8, write: bool) -> Decision
        ensures { result ≡ other_variable (looks self.now) self.now.ask.now inferior write (variable_named (input self.now.ask.now 1)) }
    {
        let Some(variable) = Variable::named(self.input(1)) else {
            return self.fails(error::OUT_OF_RANGE);
        };
        if self.has_input(2) && !write {
            return self.fails(error::WRONG_DEVICE);
        }
        if self.has_input(2) && !by_superior(variable) {
            return self.fails(error::OUT_OF_RANGE);
        }
        let stores = self.output(self.other_value(inferior, variable));
        let change = Change::Set {
            slot: inferior,
            variable,
            value: self.input(2),
        };
        ends(self.has_input(2).then_some(change), stores, self.past(2))
    }

    /// The value of a variable of the job into which the call reaches, an inferior in a slot.
    #[tactic(auto, unfolding(its_plain::specs::Machine::View::view))]
    fn other_value(&self, inferior: u8, variable: Variable) -> Word
        ensures { result ≡ value_of_other inferior variable (looks self.now).other }
    {
        let Some(target) = self.target else {
            return Word::ZERO;
        };
        match self.seen.jobs.numbered(target) {
            Some(job) => variable_of(self.seen, inferior, Slot::new(target), job, variable),
            None => Word::ZERO,
        }
    }
}

/// Whether a job may set a variable of its inferior.
fn by_superior(variable: Variable) -> bool
    ensures { result ≡ by_superior variable }
{
    match variable {
        Variable::Upc | Variable::Ustp | Variable::Pirqc | Variable::Ifpir => true,
        Variable::Mask | Variable::Msk2 | Variable::Df1 | Variable::Df2 => true,
        _ => false,
    }
}

/// The value of a variable of the job of a slot, which says that its slot is `index`.
fn variable_of(seen: &Seen<'_>, index: u8, slot: Slot, job: &Job, variable: Variable) -> Word
    ensures { result ≡ variable_of index (raw_with seen.now slot job.now) variable }
{
    its_shared::variable_of(seen.core, seen.jobs, index, slot, job, variable)
}
