//! An array filled with one value.

ghost use Rattle.std.specs.Prelude.{◌≡◌, IfOk};
ghost use Rattle.its_word.specs.Table.{filled as copies};

use super::memory::NoMemory;
use std::alloc::Global;

/// n copies of a value, in one piece of memory.
#[tactic(auto, using(crate::proofs::TableLaws::filled_none, crate::proofs::TableLaws::filled_more))]
pub fn filled<T: Copy + Drop>(alloc: Global, x: T, n: usize) -> Result<Vec<T>, NoMemory>
    ensures { IfOk result (λ v. v.items ≡ copies n x) }
{
    let mut v = Vec::with_capacity(alloc, n).map_err(|_| NoMemory)?;
    for _k in 0..n {
        v.push(x).map_err(|_| NoMemory)?;
    }
    Ok(v)
}
