//! DELETE and RENAME.
ghost use Rattle.std.specs.Prelude.{◌≡◌, ◌<◌};
ghost use Rattle.its_files.specs.Files.{directory, found};
ghost use Rattle.its_plain.specs.Call.File.{channels_in, delete, file_tests, has_file, is_read, names_from, rename};
ghost use Rattle.its_world.specs.Tidy.{Tidy};
ghost use Rattle.its_shared.specs.Called.{first_of};
ghost use Rattle.call_basic.specs.Seen.{seen_by};
ghost use Rattle.call_file.specs.Held.{has_readers};

use arrayvec::ArrayVec;
use call_basic::{fails, finishes_with, input};
use its_frame::{Change, Decision, error};
use its_plain::DSK;
use its_records::{Ask, Job};
use its_word::{Slot, Word};
use its_world::World;

/// The directory, name 1 and name 2 of a file: the two names and the directory are the arguments
/// from k on.
pub(crate) fn names_from(ask: &Ask, k: usize) -> [Word; 3]
    requires { k < 8 }
    ensures { result ≡ names_from ask.now k }
{
    [input(ask, k + 2), input(ask, k), input(ask, k + 1)]
}

/// The number of the file with these names.
#[tactic(auto, using(its_shared::proofs::SeenLaws::three))]
fn find(w: &World, names: [Word; 3]) -> Option<u32>
    ensures { result ≡ found w.now.files names }
{
    w.files.find(names[0], names[1], names[2])
}

/// Whether there is a file with these names.
#[tactic(auto, using(its_shared::proofs::StoreLaws::has_named))]
pub(crate) fn has_file(w: &World, names: [Word; 3]) -> bool
    ensures { result ≡ has_file names (directory w.now.files) }
{
    find(w, names).is_some()
}

/// Whether a channel reads a file with these names.
#[tactic(auto, using(crate::proofs::SeenLaws::seen_read))]
pub(crate) fn is_read(w: &World, slot: Slot, job: &Job, ask: &Ask, names: [Word; 3]) -> bool
    requires { Tidy w.now }
    ensures { result ≡ is_read names (channels_in (seen_by w.now slot job.now ask.now)) }
{
    w.files.seen();
    has_readers(w, find(w, names))
}

/// Whether a channel reads a file, if there is one.
fn has_readers(w: &World, file: Option<u32>) -> bool
    ensures { result ≡ has_readers w.now.files file }
{
    match file {
        Some(id) => w.files.readers(id) > 0,
        None => false,
    }
}

/// Why a file is neither deleted nor renamed: error 5 if the device is not DSK, 6 if there is no
/// such file, 11 if a channel reads it.
#[tactic(auto, unfolding(its_plain::specs::Machine::View::view, its_world::specs::World::state_of))]
fn barred(w: &World, slot: Slot, job: &Job, ask: &Ask) -> Option<Decision>
    requires { Tidy w.now }
    ensures { result ≡ first_of (file_tests (seen_by w.now slot job.now ask.now) ask.now (names_from ask.now 1)) }
{
    let names = names_from(ask, 1);
    if input(ask, 0).value() != DSK {
        return Some(fails(job, ask, error::WRONG_DEVICE));
    }
    if !has_file(w, names) {
        return Some(fails(job, ask, error::NO_FILE));
    }
    if is_read(w, slot, job, ask, names) {
        return Some(fails(job, ask, error::FILE_LOCKED));
    }
    None
}

/// DELETE device, name 1, name 2, directory. Errors 5, 6, 11.
#[tactic(auto, unfolding(its_plain::specs::Call::File::delete, its_plain::specs::Machine::View::view, its_world::specs::World::state_of))]
pub fn delete(w: &World, slot: Slot, job: &Job, ask: &Ask) -> Decision
    requires { Tidy w.now }
    ensures { result ≡ delete (seen_by w.now slot job.now ask.now) ask.now }
{
    if let Some(decision) = barred(w, slot, job, ask) {
        return decision;
    }
    let change = Change::Delete {
        d: input(ask, 3),
        x: input(ask, 1),
        y: input(ask, 2),
    };
    finishes_with(job, change, ArrayVec::new())
}

/// RENAME device, name 1, name 2, directory, new name 1, new name 2. Errors 5, 6, 11, and 23 if a
/// file of the directory has the new names, itself included.
#[tactic(auto, unfolding(its_plain::specs::Call::File::rename, its_plain::specs::Machine::View::view, its_world::specs::World::state_of))]
pub fn rename(w: &World, slot: Slot, job: &Job, ask: &Ask) -> Decision
    requires { Tidy w.now }
    ensures { result ≡ rename (seen_by w.now slot job.now ask.now) ask.now }
{
    if let Some(decision) = barred(w, slot, job, ask) {
        return decision;
    }
    let (d, new_x, new_y) = (input(ask, 3), input(ask, 4), input(ask, 5));
    if has_file(w, [d, new_x, new_y]) {
        return fails(job, ask, error::FILE_EXISTS);
    }
    let change = Change::Rename {
        d,
        x: input(ask, 1),
        y: input(ask, 2),
        new_x,
        new_y,
    };
    finishes_with(job, change, ArrayVec::new())
}
