//! The variables of a job: their values, who may set them, and setting one.
ghost use Rattle.std.specs.Prelude.{◌≡◌};
ghost use Rattle.its_plain.specs.Call.Basic.{by_oneself, by_superior};
ghost use Rattle.its_plain.specs.Machine.Own.{with_advance, exit_of, variable_of, with_variable};
ghost use Rattle.call_basic.specs.Seen.{raw_with};

use super::ends::exit_after;
use its_frame::{Exit, Variable};
use its_records::Job;
use its_word::{Slot, Word, flags_in};
use its_world::World;

/// The value of a variable of a slot's job.
pub(crate) fn variable_of(w: &World, slot: Slot, job: &Job, variable: Variable) -> Word
    ensures { result ≡ variable_of slot (raw_with w.now slot job.now) variable }
{
    its_shared::variable_of(&w.core, &w.jobs, slot.number(), slot, job, variable)
}

/// Whether a job may set a variable of its own.
pub(crate) fn by_oneself(variable: Variable) -> bool
    ensures { result ≡ by_oneself variable }
{
    match variable {
        Variable::Pirqc => true,
        Variable::Ifpir => true,
        Variable::Mask => true,
        Variable::Msk2 => true,
        Variable::Df1 => true,
        Variable::Df2 => true,
        _ => false,
    }
}

/// Whether a job may set a variable of its inferior.
pub(crate) fn by_superior(variable: Variable) -> bool
    ensures { result ≡ by_superior variable }
{
    match variable {
        Variable::Upc => true,
        Variable::Ustp => true,
        other => by_oneself(other),
    }
}

/// The registers of a job whose call finishes and sets one of its own variables. Its stopped mark,
/// its names and its console are no part of them.
#[tactic(auto, unfolding(its_plain::specs::Machine::Own::with_variable))]
pub(crate) fn exit_with(job: &Job, variable: Variable, value: Word) -> Exit
    ensures { result ≡ exit_of (with_variable variable value (with_advance 2 job.now)) }
{
    let exit = exit_after(job, 2);
    match variable {
        Variable::Upc => Exit {
            pc: value.right(),
            flags: flags_in(value),
            ..exit
        },
        Variable::Pirqc => Exit {
            pend1: value,
            ..exit
        },
        Variable::Ifpir => Exit {
            pend2: value,
            ..exit
        },
        Variable::Mask => Exit {
            mask1: value,
            ..exit
        },
        Variable::Msk2 => Exit {
            mask2: value,
            ..exit
        },
        Variable::Df1 => Exit {
            defer1: value,
            ..exit
        },
        Variable::Df2 => Exit {
            defer2: value,
            ..exit
        },
        Variable::Uname => exit,
        Variable::Jname => exit,
        Variable::Uind => exit,
        Variable::Suppro => exit,
        Variable::Cnsl => exit,
        Variable::Pages => exit,
        Variable::Ustp => exit,
    }
}
