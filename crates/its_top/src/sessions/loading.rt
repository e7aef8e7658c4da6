//! The words of the `a/` lines after LOAD.
ghost use Rattle.std.specs.Prelude.{◌≡◌, ◌≤◌, ◌+◌, ◌^◌, Err, IfErr, OnOk, length};
ghost use Rattle.its_plain.specs.Operator.Jobs.{with_words_loaded, with_words_stored};
ghost use Rattle.its_stepped.specs.Unwind.{unwound};
ghost use Rattle.its_world.specs.World.{state_of};
ghost use Rattle.its_records.specs.Refusals.{reason_of};
ghost use Rattle.its_monitor.specs.Kept.{Kept, Lands};

use its_monitor::Monitor;
use its_records::Refusal;
use its_word::{Slot, Word};

/// Loads the words of an a/ line, in order; all are tested for read-only pages before the first is
/// stored.
#[tactic(auto, using(crate::proofs::LoadingLaws::barred, crate::proofs::LoadingLaws::stored, crate::proofs::LoadingLaws::not_stored))]
pub fn load_words(m: &mut Monitor, slot: Slot, a: u32, words: &[Word]) -> Result<(), Refusal>
    requires sound { Kept m.old.world }
    requires some { 1 ≤ length words.now }
    requires end { a + length words.now ≤ 2 ^ 18 }
    ensures done { OnOk result (Lands (unwound (state_of m.old.world) slot) (state_of m.new.world) (with_words_loaded (unwound (state_of m.old.world) slot).raw slot a words.now)) }
    ensures refused { IfErr result (λ e. with_words_loaded (unwound (state_of m.old.world) slot).raw slot a words.now ≡ Err (reason_of e)) }
    ensures sound { Kept m.new.world }
{
    if m.barred(slot, a, words.len() as u32) {
        return Err(Refusal::ReadOnly);
    }
    store_words(m, slot, a, words)
}

/// Stores the words of an a/ line, in order, and makes the pages that they need.
#[tactic(auto, using(crate::proofs::LoadingLaws::loading_start, crate::proofs::LoadingLaws::loading_fails, crate::proofs::LoadingLaws::loading_end))]
fn store_words(m: &mut Monitor, slot: Slot, a: u32, words: &[Word]) -> Result<(), Refusal>
    requires sound { Kept m.old.world }
    requires some { 1 ≤ length words.now }
    requires end { a + length words.now ≤ 2 ^ 18 }
    ensures done { OnOk result (Lands (unwound (state_of m.old.world) slot) (state_of m.new.world) (with_words_stored (unwound (state_of m.old.world) slot).raw slot a words.now)) }
    ensures refused { IfErr result (λ e. with_words_stored (unwound (state_of m.old.world) slot).raw slot a words.now ≡ Err (reason_of e)) }
    ensures sound { Kept m.new.world }
{
    let mut at = a;
    for w in words {
        m.load_word(slot, at, *w)?;
        at += 1;
    }
    Ok(())
}
