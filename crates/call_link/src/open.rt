//! OPEN of LNK: an end of a link by its names, which is made if there is none; and CLOSE of an end.
ghost use Rattle.std.specs.Prelude.{◌≡◌, ◌==◌, ◌<◌, ◌∷◌, []};
ghost use Rattle.its_records.specs.Links.{is_unopened, link_end, most_links};
ghost use Rattle.its_records.specs.Tree.{least_free};
ghost use Rattle.its_frame.specs.declared.change.Change.TheVariants.{Join, CloseEnd};
ghost use Rattle.its_frame.specs.declared.decision.Decision.TheVariants.{Ends};
ghost use Rattle.its_plain.specs.Call.Arguments.{input};
ghost use Rattle.its_plain.specs.Call.Link.{can_open, link_device, link_named, makes_link, opens_end, opens_link};
ghost use Rattle.its_plain.specs.Machine.Own.{with_advance, exit_of};
ghost use Rattle.its_pipes.specs.Pipes.{piped};
ghost use Rattle.call_basic.specs.Seen.{seen_by};

use arrayvec::ArrayVec;
use call_basic::{control, fails, finishes_with, input, is_free};
use its_frame::{Change, Decision, error};
use its_plain::LNK;
use its_records::{Ask, End, Job, Link};
use its_word::Slot;
use its_world::World;

/// Whether the device of OPEN is LNK.
pub fn is_link(ask: &Ask) -> bool
    ensures { result ≡ (input ask.now 1 == link_device) }
{
    input(ask, 1).value() == LNK
}

/// OPEN channel, LNK, name 1, name 2: the reading end, or with control 1 the writing end, of the
/// link with these names. Errors 4, 22; 24 if the end is open or was open, 25 if no link has the
/// names and there are 16.
#[tactic(auto, using(call_basic::proofs::ChannelLaws::free), unfolding(its_plain::specs::Call::Link::opens_link, its_plain::specs::Machine::View::view, its_world::specs::World::state_of))]
pub fn open_link(w: &World, slot: Slot, job: &Job, ask: &Ask) -> Decision
    ensures { result ≡ opens_link (seen_by w.now slot job.now ask.now) ask.now }
{
    let number = input(ask, 0);
    let control = control(ask);
    if !is_free(job, number) {
        return fails(job, ask, error::BAD_CHANNEL);
    }
    if control > 1 {
        return fails(job, ask, error::OUT_OF_RANGE);
    }
    opens_end(w, slot, job, ask, number.value() as u8, control == 1)
}

/// The end with the names of OPEN is opened, if nobody has opened it before; without a link of
/// these names one is made.
#[tactic(auto, unfolding(its_plain::specs::Machine::View::view, its_world::specs::World::state_of))]
fn opens_end(w: &World, slot: Slot, job: &Job, ask: &Ask, n: u8, write: bool) -> Decision
    ensures { result ≡ opens_end (seen_by w.now slot job.now ask.now) ask.now n write (input ask.now 2) (input ask.now 3) (link_named (seen_by w.now slot job.now ask.now).links (input ask.now 2) (input ask.now 3)) }
{
    match w.pipes.link_named(input(ask, 2), input(ask, 3)) {
        Some(l) if !can_open(w, l, write) => fails(job, ask, error::LINK_IN_USE),
        Some(l) => joins(job, ask, n, l, write),
        None => makes_link(w, slot, job, ask, n, write),
    }
}

/// A link with the names of OPEN is made under the least number that has none, and its end opened.
#[tactic(auto, unfolding(its_plain::specs::Machine::View::view, its_world::specs::World::state_of))]
fn makes_link(w: &World, slot: Slot, job: &Job, ask: &Ask, n: u8, write: bool) -> Decision
    ensures { result ≡ makes_link (seen_by w.now slot job.now ask.now) ask.now n write (input ask.now 2) (input ask.now 3) (least_free most_links (seen_by w.now slot job.now ask.now).links) }
{
    match w.pipes.free_link() {
        Some(free) => joins(job, ask, n, free, write),
        None => fails(job, ask, error::NO_LINK),
    }
}

/// The call finishes: an end of a link is opened.
fn joins(job: &Job, ask: &Ask, n: u8, link: u8, write: bool) -> Decision
    ensures { result ≡ Ends (record { items = Join n link write (input ask.now 2) (input ask.now 3) ∷ [] }) (record { items = [] }) (exit_of (with_advance 2 job.now)) }
{
    let change = Change::Join {
        channel: n,
        link,
        write,
        x: input(ask, 2),
        y: input(ask, 3),
    };
    finishes_with(job, change, ArrayVec::new())
}

/// Whether nobody has opened an end of a link.
fn can_open(w: &World, link: u8, write: bool) -> bool
    ensures { result ≡ can_open write (piped w.now.pipes link) }
{
    match w.pipes.link(link) {
        Some(link) => is_unopened(end_of(link, write)),
        None => true,
    }
}

/// The writing end of a link, or its reading end.
fn end_of(link: Link, write: bool) -> End
    ensures { result ≡ link_end write link }
{
    if write { link.writer } else { link.reader }
}

/// Whether nobody has opened an end.
fn is_unopened(end: End) -> bool
    ensures { result ≡ is_unopened end }
{
    matches!(end, End::Unopened)
}

/// CLOSE of a channel on a link: the end is closed with it.
pub fn close_end(job: &Job, ask: &Ask, link: u8, write: bool) -> Decision
    requires { input ask.now 0 < 16 }
    ensures { result ≡ Ends (record { items = CloseEnd (input ask.now 0) link write ∷ [] }) (record { items = [] }) (exit_of (with_advance 2 job.now)) }
{
    let change = Change::CloseEnd {
        channel: input(ask, 0).value() as u8,
        link,
        write,
    };
    finishes_with(job, change, ArrayVec::new())
}
