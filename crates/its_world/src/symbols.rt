//! The symbols of jobs that are removed.

ghost use Rattle.std.specs.Prelude.{◌≡◌, ℕ, vec_len, is_none};
ghost use Rattle.its_word.specs.Limits.{slots};
ghost use Rattle.its_jobs.specs.Table.{job_at};
ghost use Rattle.its_plain.specs.Machine.Change.{symbols_after_removal};
ghost use Rattle.its_world.specs.World.{symbols_at};

use its_jobs::Jobs;
use its_shared::SymbolTable;
use its_word::SLOTS;

/// Takes the symbols from the slots that have no job.
#[tactic(auto, using(crate::proofs::SymbolLaws::forget_start, crate::proofs::SymbolLaws::forget_gone, crate::proofs::SymbolLaws::forget_kept, crate::proofs::SymbolLaws::forget_end))]
pub fn forget_removed(lists: &mut Vec<SymbolTable>, jobs: &Jobs)
    requires length { vec_len lists.old ≡ slots }
    ensures length { vec_len lists.new ≡ slots }
    ensures left { (k : ℕ) → symbols_at lists.new.items k ≡ symbols_after_removal (is_none (job_at jobs.now k)) (symbols_at lists.old.items k) }
{
    for slot in 0..SLOTS {
        if jobs.numbered(slot as u8).is_none() {
            lists[slot].clear();
        }
    }
}
