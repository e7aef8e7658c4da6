//! What is read of a job: what STATE shows, and the values of its variables.
ghost use Rattle.std.specs.Prelude.{◌≡◌, ℕ, Option};
ghost use Rattle.its_core.specs.Cores.{core_at};
ghost use Rattle.its_jobs.specs.Table.{superior_at};
ghost use Rattle.its_plain.specs.Machine.{Chan};
ghost use Rattle.its_plain.specs.Operator.Jobs.{shown};
ghost use Rattle.its_plain.specs.Machine.Own.{number_or_ones, variable_of};
ghost use Rattle.its_shared.specs.Parts.{bare};

use super::removal::numbered;
use its_core::Core;
use its_frame::Variable;
use its_jobs::Jobs;
use its_records::{Job, JobShow};
use its_word::{Slot, Word, pc_word};

/// What STATE shows of a job with this superior and this nearest symbol.
pub fn shown(job: &Job, superior: Option<Slot>, symbol: Option<(Word, u32)>) -> JobShow
    ensures { result ≡ shown job.now superior symbol }
{
    JobShow {
        u: job.uname,
        j: job.jname,
        sup: numbered(superior),
        con: job.console,
        run: !job.stopped,
        pc: pc_word(job.flags, job.pc),
        p1: job.pend1,
        p2: job.pend2,
        m1: job.mask1,
        m2: job.mask2,
        d1: job.defer1,
        d2: job.defer2,
        symbol,
    }
}

/// A number, or ones if there is none.
fn number_or_ones(number: Option<u8>) -> Word
    ensures { result ≡ number_or_ones number }
{
    match number {
        Some(n) => Word::new(u64::from(n)),
        None => Word::ONES,
    }
}

/// The value of a variable of the job of a slot, which says that its slot is `index`. What its
/// channels are on and its alarm do not matter.
#[tactic(auto, unfolding(its_plain::specs::Machine::Own::variable_of))]
pub fn variable_of(
    core: &Core,
    jobs: &Jobs,
    index: u8,
    slot: Slot,
    job: &Job,
    variable: Variable,
) -> Word
    ensures { (cs : ℕ → Chan) (a : Option (ℕ × ℕ)) → result ≡ variable_of index (record { core = core_at core.now slot; job = bare job.now; superior = superior_at jobs.now slot; channels = cs; alarm = a }) variable }
{
    match variable {
        Variable::Uname => job.uname,
        Variable::Jname => job.jname,
        Variable::Uind => Word::new(u64::from(index)),
        Variable::Suppro => number_or_ones(numbered(jobs.superior(slot))),
        Variable::Cnsl => number_or_ones(job.console),
        Variable::Pages => Word::new(u64::from(core.pages(slot))),
        Variable::Upc => pc_word(job.flags, job.pc),
        Variable::Ustp => Word::new(u64::from(job.stopped)),
        Variable::Pirqc => job.pend1,
        Variable::Ifpir => job.pend2,
        Variable::Mask => job.mask1,
        Variable::Msk2 => job.mask2,
        Variable::Df1 => job.defer1,
        Variable::Df2 => job.defer2,
    }
}
