//! OPEN of DSK, CLOSE of a draft, ACCESS and FILLEN.
ghost use Rattle.std.specs.Prelude.{◌≡◌, ◌==◌, ◌<◌, [], Some, true, is_some, length};
ghost use Rattle.its_frame.specs.declared.decision.Decision.TheVariants.{Ends};
ghost use Rattle.its_files.specs.Files.{entry_at, file_at, is_draft, is_file, names_at, words_at};
ghost use Rattle.its_jobs.specs.Table.{job_at};
ghost use Rattle.its_plain.specs.Call.Arguments.{input};
ghost use Rattle.its_plain.specs.Call.File.{access, access_on, access_to, closes_draft, fillen, fillen_on, opens_as, opens_disk};
ghost use Rattle.its_plain.specs.Machine.{Reads};
ghost use Rattle.its_plain.specs.Machine.Own.{with_advance, exit_of};
ghost use Rattle.its_plain.specs.Call.Tests.{out};
ghost use Rattle.its_world.specs.Tidy.{Tidy};
ghost use Rattle.call_basic.specs.Seen.{seen_by};

use super::directory::{has_file, is_read, names_from};
use arrayvec::ArrayVec;
use call_basic::{channel, control, fails, finishes, finishes_with, input, is_free, store_at};
use its_files::MOST_FILES;
use its_frame::{Change, Decision, Opened, error};
use its_records::{Ask, Channel, Job};
use its_word::{ADDRESSES, Slot, Word};
use its_world::World;

/// The position at which a channel on an inferior is at its end, after word 777777 (octal).
const END_OF_CORE: u32 = ADDRESSES;

/// OPEN channel, DSK, name 1, name 2, directory: a file for input, or a new draft with control 1.
/// Errors 4, 22, 6.
#[tactic(auto, using(call_basic::proofs::ChannelLaws::free), unfolding(its_plain::specs::Call::File::opens_disk, its_plain::specs::Machine::View::view, its_world::specs::World::state_of))]
pub fn open_disk(w: &World, slot: Slot, job: &Job, ask: &Ask) -> Decision
    ensures { result ≡ opens_disk (seen_by w.now slot job.now ask.now) ask.now }
{
    let number = input(ask, 0);
    let control = control(ask);
    if !is_free(job, number) {
        return fails(job, ask, error::BAD_CHANNEL);
    }
    if control > 1 {
        return fails(job, ask, error::OUT_OF_RANGE);
    }
    if control != 1 && !has_file(w, names_from(ask, 2)) {
        return fails(job, ask, error::NO_FILE);
    }
    let change = Change::Open {
        channel: number.value() as u8,
        on: opened(control, input(ask, 4), input(ask, 2), input(ask, 3)),
    };
    finishes_with(job, change, ArrayVec::new())
}

/// What the control argument opens these names for.
fn opened(control: u64, d: Word, x: Word, y: Word) -> Opened
    ensures { result ≡ opens_as (control == 1) d x y }
{
    if control == 1 {
        Opened::Writing { d, x, y }
    } else {
        Opened::Reading { d, x, y }
    }
}

/// CLOSE of a draft. Errors 11 if a channel reads the file that it would replace, 7 if it replaces
/// none and there are 256 files.
#[tactic(auto, using(crate::proofs::Groups::close_draft_laws), unfolding(its_plain::specs::Call::File::closes_draft, its_plain::specs::Machine::View::view, its_world::specs::World::state_of))]
pub fn close_draft(w: &World, slot: Slot, job: &Job, ask: &Ask, draft: u32) -> Decision
    requires number { input ask.now 0 < 16 }
    requires draft { is_draft (entry_at w.now.files draft) ≡ true }
    requires tidy { Tidy w.now }
    ensures { result ≡ closes_draft (seen_by w.now slot job.now ask.now) ask.now (file_at w.now.files draft) }
{
    let names = w.files.names(draft);
    if is_read(w, slot, job, ask, names) {
        return fails(job, ask, error::FILE_LOCKED);
    }
    if !has_file(w, names) && w.files.count() >= MOST_FILES {
        return fails(job, ask, error::DIRECTORY_FULL);
    }
    let change = Change::Close {
        channel: input(ask, 0).value() as u8,
    };
    finishes_with(job, change, ArrayVec::new())
}

/// ACCESS channel, position: the next word that a file gives, or that a channel on an inferior is
/// at. Errors 4, 5, 22 if the position is past the end.
#[tactic(auto, using(crate::proofs::HeldLaws::reading), unfolding(its_plain::specs::Call::File::access, its_plain::specs::Machine::View::view, its_world::specs::World::state_of))]
pub fn access(w: &World, slot: Slot, job: &Job, ask: &Ask) -> Decision
    requires job { job_at w.now.jobs slot ≡ Some job.now }
    requires tidy { Tidy w.now }
    ensures { result ≡ access (seen_by w.now slot job.now ask.now) ask.now }
{
    match channel(job, input(ask, 0)) {
        Channel::Closed => fails(job, ask, error::BAD_CHANNEL),
        Channel::Reading { file, at } => moved(w, slot, job, ask, file, at),
        Channel::Usr { .. } => access_to(w, slot, job, ask, END_OF_CORE),
        _ => fails(job, ask, error::WRONG_DEVICE),
    }
}

/// The position of a channel that reads a file is set.
#[tactic(auto, using(its_shared::proofs::SeenLaws::seen_words, its_files::proofs::EntryLaws::file_stands), unfolding(its_plain::specs::Machine::View::view, its_world::specs::World::state_of))]
fn moved(w: &World, slot: Slot, job: &Job, ask: &Ask, file: u32, was: u32) -> Decision
    requires number { input ask.now 0 < 16 }
    requires file { is_file (entry_at w.now.files file) ≡ true }
    ensures { result ≡ access_on (seen_by w.now slot job.now ask.now) ask.now (Reads (names_at w.now.files file) was) }
{
    w.files.seen();
    access_to(w, slot, job, ask, w.files.length(file))
}

/// The position of a channel is set, which is at most this. Error 22 if it is above.
#[tactic(auto, unfolding(its_plain::specs::Machine::View::view, its_world::specs::World::state_of))]
fn access_to(w: &World, slot: Slot, job: &Job, ask: &Ask, most: u32) -> Decision
    requires { input ask.now 0 < 16 }
    ensures { result ≡ access_to (seen_by w.now slot job.now ask.now) ask.now most }
{
    let at = input(ask, 1).value();
    if at > u64::from(most) {
        return fails(job, ask, error::OUT_OF_RANGE);
    }
    let change = Change::Move {
        channel: input(ask, 0).value() as u8,
        at: at as u32,
    };
    finishes_with(job, change, ArrayVec::new())
}

/// FILLEN channel: how many words a file or a draft has. Errors 4, 5.
#[tactic(auto, using(crate::proofs::Groups::fillen_laws), unfolding(its_plain::specs::Call::File::fillen, its_plain::specs::Machine::View::view, its_world::specs::World::state_of))]
pub fn fillen(w: &World, slot: Slot, job: &Job, ask: &Ask) -> Decision
    requires job { job_at w.now.jobs slot ≡ Some job.now }
    requires tidy { Tidy w.now }
    ensures { result ≡ fillen (seen_by w.now slot job.now ask.now) ask.now }
{
    match channel(job, input(ask, 0)) {
        Channel::Closed => fails(job, ask, error::BAD_CHANNEL),
        Channel::Reading { file, at } => file_measured(w, slot, job, ask, file, at),
        Channel::Writing { draft } => measured(w, job, ask, draft),
        _ => fails(job, ask, error::WRONG_DEVICE),
    }
}

/// The length of a file is the output.
#[tactic(auto, using(its_files::proofs::EntryLaws::file_stands, its_shared::proofs::SeenLaws::seen_words), unfolding(its_plain::specs::Machine::View::view, its_world::specs::World::state_of))]
fn file_measured(w: &World, slot: Slot, job: &Job, ask: &Ask, file: u32, at: u32) -> Decision
    requires { is_file (entry_at w.now.files file) ≡ true }
    ensures { result ≡ fillen_on (seen_by w.now slot job.now ask.now) ask.now (Reads (names_at w.now.files file) at) }
{
    w.files.seen();
    measured(w, job, ask, file)
}

/// The length of a file or a draft is the output.
fn measured(w: &World, job: &Job, ask: &Ask, id: u32) -> Decision
    requires { is_some (entry_at w.now.files id) ≡ true }
    ensures { result ≡ Ends (record { items = [] }) (record { items = out ask.now.outputs.items (length (words_at w.now.files id)) }) (exit_of (with_advance 2 job.now)) }
{
    let length = Word::new(u64::from(w.files.length(id)));
    finishes(job, store_at(ask.outputs.first().copied(), length))
}
