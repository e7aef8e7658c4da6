//! The lists of slots whose calls wait, and the reasons to wait.
ghost use Rattle.std.specs.Prelude.{◌≡◌, ◌<◌, ◌≤◌, ◌↔◌, ℕ, None, Some, IfSome, IsTrue, length};
ghost use Rattle.its_word.specs.Limits.{slots};
ghost use Rattle.its_links.specs.Lists.{list_at, count};
ghost use Rattle.its_plain.specs.Machine.{Linked};
ghost use Rattle.its_plain.specs.Call.Reasons.{of_transfer, of_finish, of_listen, reason_by};
ghost use Rattle.its_world.specs.WaitLists.{Put, list_for, awake_of, is_within};
ghost use Rattle.its_world.specs.Filed.{kind_of};

use its_frame::{CallName, Wait};
use its_links::Links;
use its_records::Channel;
use its_word::{SLOTS, Slot};

/// How many lists there are: one for HANG, one for CLOCK, of each console one each for input,
/// output and drained output, and one of those that wait there and can go on; and of each link one
/// each for those that wait for a word and for room, and one of those that wait there and can go
/// on.
pub const HEADS: u32 = 82;

/// The list of those that wait for a time.
pub const CLOCK_LIST: u32 = 1;

/// Takes a slot off the list that it is on, at its place there.
fn take_out(wait_lists: &mut Links, slot: Slot)
    requires { slot < wait_lists.old.nodes }
    ensures { Put wait_lists.old wait_lists.new slot None }
{
    if wait_lists.linked(u32::from(slot.number())) {
        wait_lists.unlink(u32::from(slot.number()));
    }
}

/// Puts a slot at the end of the list of a head, or on none, wherever it was.
#[tactic(auto, using(crate::proofs::WaitListLaws::is_out))]
pub fn put(wait_lists: &mut Links, slot: Slot, place: Option<u32>)
    requires slot { slot < wait_lists.old.nodes }
    requires place { IfSome place (λ h. h < length wait_lists.old.lists) }
    ensures { Put wait_lists.old wait_lists.new slot place }
{
    take_out(wait_lists, slot);
    if let Some(head) = place {
        wait_lists.push_back(head, u32::from(slot.number()));
    }
}

/// Whether a slot is on the list of a head.
#[tactic(auto, using(crate::proofs::WaitListLaws::looked_in))]
pub fn stands_in(wait_lists: &Links, head: u32, slot: Slot) -> bool
    requires head { head < length wait_lists.now.lists }
    requires nodes { wait_lists.now.nodes ≤ slots }
    ensures { IsTrue result ↔ (0 < count slot (list_at wait_lists.now.lists head)) }
{
    wait_lists.seen();
    let mut at = wait_lists.front(head);
    for _k in 0..SLOTS {
        let Some(node) = at else {
            return false;
        };
        if node == u32::from(slot.number()) {
            return true;
        }
        at = wait_lists.next(node);
    }
    false
}

/// The list of those that wait for a reason.
pub fn list_for(reason: Wait) -> u32
    ensures { result ≡ list_for reason }
{
    match reason {
        Wait::Hang => 0,
        Wait::Clock => CLOCK_LIST,
        Wait::Input(c) => 2 + u32::from(c),
        Wait::Output(c) => 10 + u32::from(c),
        Wait::Drained(c) => 18 + u32::from(c),
        Wait::Empty(l) => 34 + u32::from(l),
        Wait::Room(l) => 50 + u32::from(l),
    }
}

/// The list of those at the console or link of a reason that can go on.
pub fn awake_of(reason: Wait) -> Option<u32>
    ensures { result ≡ awake_of reason }
{
    match reason {
        Wait::Hang => None,
        Wait::Clock => None,
        Wait::Input(c) => Some(26 + u32::from(c)),
        Wait::Output(c) => Some(26 + u32::from(c)),
        Wait::Drained(c) => Some(26 + u32::from(c)),
        Wait::Empty(l) => Some(66 + u32::from(l)),
        Wait::Room(l) => Some(66 + u32::from(l)),
    }
}

/// Whether the console of a reason is one of the eight, or its link one of the sixteen. A reason
/// that is at neither is.
pub fn is_within(reason: Wait) -> bool
    ensures { result ≡ is_within reason }
{
    match reason {
        Wait::Hang => true,
        Wait::Clock => true,
        Wait::Input(c) => c < 8,
        Wait::Output(c) => c < 8,
        Wait::Drained(c) => c < 8,
        Wait::Empty(l) => l < 16,
        Wait::Room(l) => l < 16,
    }
}

/// The reason for which a call can have to wait, by its name, what its channel is on, and its job's
/// console.
#[inline(always)]
pub fn reason_by(console: u8, channel: Channel, name: Option<CallName>) -> Option<Wait>
    ensures { result ≡ reason_by console (kind_of channel) name }
{
    match name {
        Some(CallName::Hang) => Some(Wait::Hang),
        Some(CallName::Sleep) => Some(Wait::Clock),
        Some(CallName::Iot) => of_transfer(console, channel),
        Some(CallName::Siot) => of_transfer(console, channel),
        Some(CallName::Finish) => of_finish(console, channel),
        Some(CallName::Listen) => of_listen(console, channel),
        _ => None,
    }
}

/// That of a byte or word that is moved from or to a console or a link.
fn of_transfer(console: u8, channel: Channel) -> Option<Wait>
    ensures { result ≡ of_transfer console (kind_of channel) }
{
    match channel {
        Channel::TtyIn => Some(Wait::Input(console)),
        Channel::TtyOut => Some(Wait::Output(console)),
        Channel::Link { link, write } => Some(of_link(link, write)),
        _ => None,
    }
}

/// That of a word that is sent through a link, or received.
fn of_link(link: u8, write: bool) -> Wait
    ensures { Some result ≡ of_transfer 0 (Linked link write) }
{
    if write {
        Wait::Room(link)
    } else {
        Wait::Empty(link)
    }
}

/// That of FINISH.
fn of_finish(console: u8, channel: Channel) -> Option<Wait>
    ensures { result ≡ of_finish console (kind_of channel) }
{
    match channel {
        Channel::TtyOut => Some(Wait::Drained(console)),
        _ => None,
    }
}

/// That of LISTEN.
fn of_listen(console: u8, channel: Channel) -> Option<Wait>
    ensures { result ≡ of_listen console (kind_of channel) }
{
    match channel {
        Channel::TtyIn => Some(Wait::Drained(console)),
        Channel::TtyOut => Some(Wait::Drained(console)),
        _ => None,
    }
}
