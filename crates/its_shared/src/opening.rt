//! The contents of a machine at its beginning.
ghost use Rattle.std.specs.Prelude.{◌≡◌, ℕ, [], None, vec_len, slice_index_or, IfOk};
ghost use Rattle.its_word.specs.Console.{quiet_console};
ghost use Rattle.its_shared.specs.Parts.{symbols_at};

use super::symbols::SymbolTable;
use its_console::Console;
use its_word::NoMemory;
use std::alloc::Global;

/// So many consoles at which nothing waits.
#[tactic(auto, using(crate::proofs::OpenLaws::quiet_more))]
pub fn quiet_consoles(alloc: Global, n: usize) -> Result<Vec<Console>, NoMemory>
    ensures length { IfOk result (λ v. vec_len v ≡ n) }
    ensures quiet { IfOk result (λ v. (c : ℕ) → slice_index_or v.items c quiet_console ≡ quiet_console) }
{
    let mut v = Vec::with_capacity(alloc, n).map_err(|_| NoMemory)?;
    for _c in 0..n {
        v.push(Console::open(alloc)?).map_err(|_| NoMemory)?;
    }
    Ok(v)
}

/// So many places without an alarm.
#[tactic(auto, using(crate::proofs::OpenLaws::none_more))]
pub fn no_alarms(alloc: Global, n: usize) -> Result<Vec<Option<(u64, u64)>>, NoMemory>
    ensures length { IfOk result (λ v. vec_len v ≡ n) }
    ensures none { IfOk result (λ v. (k : ℕ) → slice_index_or v.items k None ≡ None) }
{
    let mut v = Vec::with_capacity(alloc, n).map_err(|_| NoMemory)?;
    for _k in 0..n {
        v.push(None).map_err(|_| NoMemory)?;
    }
    Ok(v)
}

/// So many tables without a symbol.
#[tactic(auto, using(crate::proofs::OpenLaws::symbols_more))]
pub fn no_symbols(alloc: Global, n: usize) -> Result<Vec<SymbolTable>, NoMemory>
    ensures length { IfOk result (λ v. vec_len v ≡ n) }
    ensures none { IfOk result (λ v. (k : ℕ) → symbols_at v.items k ≡ []) }
{
    let mut v = Vec::with_capacity(alloc, n).map_err(|_| NoMemory)?;
    for _k in 0..n {
        v.push(SymbolTable::open(alloc)?).map_err(|_| NoMemory)?;
    }
    Ok(v)
}
