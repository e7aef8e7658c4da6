//! The steps of a call that are pending after its commit.
ghost use Rattle.std.specs.Prelude.{◌≡◌, ◌<◌, ◌≤◌, true, false, drop, length, slice_index_or, count_by};
ghost use Rattle.its_frame.specs.Left.{is_made_by};
ghost use Rattle.its_stepped.specs.Unwind.{due};
ghost use Rattle.its_in_call.specs.Steps.{begins_with_file};

use arrayvec::ArrayVec;
use its_records::Owed;

/// Takes the first pending step. File steps at the head are passed over if the close that is marked
/// is not the call's own (`mine`).
#[tactic(auto, using(crate::proofs::StepLaws::due_whole))]
pub fn next_step(owed: &mut ArrayVec<Owed, 4>, mine: bool) -> Owed
    requires { 0 < length (due mine owed.old.items) }
    ensures step { result ≡ slice_index_or (due mine owed.old.items) 0 result }
    ensures rest { owed.new.items ≡ drop 1 (due mine owed.old.items) }
{
    if !mine {
        drop_parts(owed);
    }
    owed.remove(0)
}

/// The pending steps without file steps at their head.
#[tactic(auto, using(crate::proofs::StepLaws::due_over, crate::proofs::StepLaws::due_more, crate::proofs::StepLaws::some_first))]
fn drop_parts(owed: &mut ArrayVec<Owed, 4>)
    ensures { owed.new.items ≡ due false owed.old.items }
{
    while begins_with_file(owed) {
        owed.remove(0);
    }
}

/// Whether the first pending step is one of a close.
fn begins_with_file(owed: &[Owed]) -> bool
    ensures { result ≡ begins_with_file owed.now }
{
    match owed {
        [Owed::Unlink, ..] => true,
        [Owed::Link, ..] => true,
        [Owed::Free, ..] => true,
        _ => false,
    }
}

/// How many of these steps are pending: the file steps only if they are still pending.
pub fn owed_left(owed: &[Owed], marked: bool) -> u8
    requires few { length owed.now ≤ 4 }
    ensures value { result ≡ count_by (is_made_by marked) owed.now }
    ensures most { result ≤ 4 }
{
    owed.iter().filter(|o| is_made(o, marked)).count() as u8
}

/// Whether a step is still to be performed.
fn is_made(owed: &Owed, marked: bool) -> bool
    ensures { result ≡ is_made_by marked owed.now }
{
    match owed {
        Owed::Unlink | Owed::Link | Owed::Free => marked,
        Owed::Store(_, _) | Owed::GiveBack | Owed::Leave(_) => true,
    }
}
