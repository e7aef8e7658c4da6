//! Calls of the monitor whose word is at the PC, and whose address is its right half.
ghost use Rattle.std.specs.Prelude.{◌≡◌, ◌<◌, ◌^◌, IfSome};
ghost use Rattle.its_core.specs.Cores.{core_at};
ghost use Rattle.its_word.specs.Address.{index_of};
ghost use Rattle.its_plain.specs.Unit.{Called, unit as unit_of};
ghost use Rattle.pdp_exec.specs.Near.{near_call, near_site};

use super::chain::{ac_field, instruction, is_indirect};
use super::reads::read;
use its_core::Core;
use its_records::Job;
use its_word::{Instruction, Slot, Word};

/// A call at a job's PC: its E, and its channel if it is `.IOT`.
#[derive(Clone, Copy, Debug, PartialEq, Eq)]
pub struct Near {
    pub e: u32,
    pub channel: Option<u8>,
}

/// X of an address word.
fn index(w: Word) -> u32
    ensures { result ≡ index_of w }
{
    (w.value() >> 18 & 0o17) as u32
}

/// The call at a job's PC, if its word can be read, is `.IOT` or `.CALL`, and has neither I nor X;
/// then its unit is that call, and no other word is read on the way. A call that a unit reaches by
/// I, X or an XCT is not found here.
#[inline(always)]
#[tactic(auto, using(crate::proofs::NearLaws::near_iot, crate::proofs::NearLaws::near_call), unfolding(crate::specs::Near::near_call))]
pub fn call_at_hand(core: &Core, slot: Slot, job: &Job) -> Option<Near>
    requires pc { job.now.pc < 2 ^ 18 }
    ensures near { result ≡ near_call (core_at core.now slot) job.now.pc }
    ensures call { IfSome result (λ n. unit_of (core_at core.now slot) job.now ≡ Called (near_site job.now.pc n)) }
{
    let w = read(core, slot, job.pc).ok()?;
    if is_indirect(w) {
        return None;
    }
    if index(w) != 0 {
        return None;
    }
    match instruction(w) {
        Ok(Instruction::Iot) => Some(Near {
            e: w.right(),
            channel: Some(ac_field(w) as u8),
        }),
        Ok(Instruction::Call) => Some(Near {
            e: w.right(),
            channel: None,
        }),
        _ => None,
    }
}
