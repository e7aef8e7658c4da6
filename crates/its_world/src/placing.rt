//! Wait lists: a slot whose call waits is on the list of its reason. Each write of the world puts
//! the slots that it can move on the lists to which they belong.

ghost use Rattle.std.specs.Prelude.{◌≡◌, ◌≢◌, ◌<◌, ◌+◌, ◌∷◌, ◌++◌, ◌↔◌, ◌⊎◌, [], ℕ, Bool, IsTrue, length, true, false, None};
ghost use Rattle.its_records.specs.Links.{most_links};
ghost use Rattle.its_jobs.specs.Table.{job_at};
ghost use Rattle.its_links.specs.Lists.{list_at};
ghost use Rattle.its_plain.specs.Machine.{Linked};
ghost use Rattle.its_plain.specs.Call.Arguments.{input};
ghost use Rattle.its_plain.specs.Call.Tty.{is_other};
ghost use Rattle.its_plain.specs.Call.Reasons.{held_up};
ghost use Rattle.its_world.specs.WaitLists.{heads, input_lists, lists_at, lists_to, link_lists, link_lists_to, output_lists, IsIn, StandsIn};
ghost use Rattle.its_world.specs.Filed.{console_at, holder_at, kind_of, channel_of, wait_reason, place_for, wait_list_of, awake_for, awake_at, doors_of, Blocked, Refiled, Resettled};

use super::wait_lists::{CLOCK_LIST, awake_of, is_within, list_for, put, reason_by, stands_in};
use super::world::World;
use its_frame::{CallName, Wait};
use its_in_call::View;
use its_records::{Ask, Channel, Job, LINKS};
use its_word::{CONSOLES, ConsoleNumber, MOST_WAITING, Slot, WORDS, Word};

/// The first input of a call; 0 if it has none.
fn first_input(ask: &Ask) -> u64
    ensures { result ≡ input ask.now 0 }
{
    match ask.inputs.get(0) {
        Some(operand) => operand.value.value(),
        None => 0,
    }
}

/// What a channel of a job is on; a number above 17 is no channel.
fn channel_of(job: &Job, n: u64) -> Channel
    ensures { result ≡ channel_of job.now n }
{
    if n < 16 {
        job.channels[n as usize]
    } else {
        Channel::Closed
    }
}

/// Whether a channel is on a link.
fn is_link(channel: Channel) -> bool
    ensures { result ≡ false → (l : ℕ) (w : Bool) → kind_of channel ≢ Linked l w }
{
    matches!(channel, Channel::Link { .. })
}

/// The Awake list of the console of a reason, if the reason is at one of the eight, or of its link,
/// if it is at one of the sixteen.
fn awake_for(reason: Option<Wait>) -> Option<u32>
    ensures { result ≡ awake_for reason }
{
    let reason = reason?;
    if !is_within(reason) {
        return None;
    }
    awake_of(reason)
}

impl World {
    /// How many bytes wait at a console, of input and of output.
    fn waiting_at(&self, console: u8) -> (u32, u32)
        ensures input { result.0 ≡ length (console_at self.now.consoles.items console).input }
        ensures output { result.1 ≡ length (console_at self.now.consoles.items console).output }
    {
        match self.consoles.get(usize::from(console)) {
            Some(c) => c.waiting(),
            None => (0, 0),
        }
    }

    /// Whether another job than that of a slot holds a console.
    fn is_anothers(&self, slot: Slot, console: u8) -> bool
        ensures { result ≡ is_other slot (holder_at self.now.holders console) }
    {
        match self.holders.get(usize::from(console)) {
            Some(Some(holder)) => *holder != slot.number(),
            _ => false,
        }
    }

    /// Whether the call of a slot, whose first input is n, has to wait for a reason.
    fn is_held_up(&self, slot: Slot, n: u64, reason: Wait) -> bool
        ensures { result ≡ held_up (doors_of self.now) slot n reason }
    {
        match reason {
            Wait::Hang => true,
            Wait::Clock => n >= WORDS / 2 && n < WORDS && self.clock < WORDS - n,
            Wait::Input(c) => self.waiting_at(c).0 == 0 || self.is_anothers(slot, c),
            Wait::Output(c) => self.waiting_at(c).1 >= MOST_WAITING || self.is_anothers(slot, c),
            Wait::Drained(c) => self.waiting_at(c).1 != 0,
            Wait::Empty(l) => self.pipes.is_dry(l),
            Wait::Room(l) => self.pipes.is_crowded(l),
        }
    }

    /// The reason for which the call of a slot's job can have to wait.
    #[inline(always)]
    fn wait_reason(&self, slot: Slot, ask: &Ask) -> Option<Wait>
        ensures { result ≡ wait_reason (job_at self.now.jobs slot) ask.now }
    {
        let name = CallName::named(ask.name);
        match self.jobs.job(slot) {
            Some(job) => reason_by(
                job.console.unwrap_or(0),
                channel_of(job, first_input(ask)),
                name,
            ),
            None => reason_by(0, Channel::Closed, name),
        }
    }

    /// The list in which the call of a slot belongs, whose first input is n and which waits for
    /// this reason.
    fn place_for(&self, slot: Slot, n: u64, reason: Option<Wait>) -> Option<u32>
        ensures { result ≡ place_for (doors_of self.now) slot n reason }
    {
        let reason = reason?;
        if !is_within(reason) {
            return None;
        }
        if self.is_held_up(slot, n, reason) {
            Some(list_for(reason))
        } else {
            awake_of(reason)
        }
    }

    /// The list to which a slot belongs: none if its frame is not Waiting.
    #[tactic(auto, unfolding(crate::specs::Filed::wait_list_of))]
    fn wait_list_of(&self, slot: Slot) -> Option<u32>
        ensures { result ≡ wait_list_of self.now slot }
    {
        match self.frame(slot) {
            View::Waiting { ask, .. } => {
                self.place_for(slot, first_input(ask), self.wait_reason(slot, ask))
            }
            _ => None,
        }
    }

    /// The Awake list of the console or link at which the call of a slot waits, if it waits at one.
    #[tactic(auto, unfolding(crate::specs::Filed::awake_at))]
    fn awake_at(&self, slot: Slot) -> Option<u32>
        ensures { result ≡ awake_at self.now slot }
    {
        match self.frame(slot) {
            View::Waiting { ask, .. } => awake_for(self.wait_reason(slot, ask)),
            _ => None,
        }
    }

    /// Whether no slot is on the Awake list of a console.
    #[inline]
    fn is_still(&self, console: ConsoleNumber) -> bool
        ensures { result ≡ true → list_at self.now.wait_lists.lists (26 + console) ≡ [] }
    {
        self.wait_lists
            .front(26 + u32::from(console.number()))
            .is_none()
    }

    /// Whether the channel of the call of a slot is on no link, and nobody is on the Awake list of
    /// its job's console. If so, the slot is on no Awake list.
    #[inline]
    fn is_asleep(&self, slot: Slot) -> bool
        ensures { result ≡ true → IsIn self.now.wait_lists.lists slot (awake_at self.now slot) → ⊥ }
    {
        let View::Waiting { ask, .. } = self.frame(slot) else {
            return false;
        };
        let Some(job) = self.jobs.job(slot) else {
            return false;
        };
        if is_link(channel_of(job, first_input(ask))) {
            return false;
        }
        let console = job.console.unwrap_or(0);
        if console >= CONSOLES as u8 {
            return false;
        }
        self.is_still(ConsoleNumber::new(console))
    }

    /// Whether a slot is on the Awake list of the console or link at which its call waits.
    #[inline]
    fn is_awake(&self, slot: Slot) -> bool
        ensures { IsTrue result ↔ IsIn self.now.wait_lists.lists slot (awake_at self.now slot) }
    {
        if self.is_asleep(slot) {
            return false;
        }
        self.stands_awake(slot)
    }

    /// Whether a slot is on the Awake list of the console or link at which its call waits: that
    /// list is searched.
    #[inline(never)]
    fn stands_awake(&self, slot: Slot) -> bool
        ensures { IsTrue result ↔ IsIn self.now.wait_lists.lists slot (awake_at self.now slot) }
    {
        match self.awake_at(slot) {
            Some(head) => stands_in(&self.wait_lists, head, slot),
            None => false,
        }
    }

    /// Whether a slot is on a wait list, that is, on a list that is not the Awake list of its
    /// console or link.
    pub fn is_blocked(&self, slot: Slot) -> bool
        requires stands { Blocked self.now slot ⊎ StandsIn self.now.wait_lists.lists slot (wait_list_of self.now slot) }
        ensures { IsTrue result ↔ Blocked self.now slot }
    {
        self.wait_lists.seen();
        self.wait_lists.linked(u32::from(slot.number())) && !self.is_awake(slot)
    }

    /// Whether the frame of a slot is Waiting. If it is not, the slot belongs on no list.
    #[inline]
    #[tactic(auto, unfolding(crate::specs::Filed::wait_list_of))]
    fn is_waiting(&self, slot: Slot) -> bool
        ensures { result ≡ false → wait_list_of self.now slot ≡ None }
    {
        match self.frame(slot) {
            View::Waiting { .. } => true,
            _ => false,
        }
    }

    /// Whether a slot is on no list and belongs on none.
    #[inline]
    fn is_apart(&self, slot: Slot) -> bool
        ensures { result ≡ true → Refiled self.now self.now slot }
    {
        if self.is_waiting(slot) {
            return false;
        }
        !self.wait_lists.linked(u32::from(slot.number()))
    }

    /// Puts a slot on the list to which it belongs, wherever it was. Of most slots nothing has to
    /// be done.
    #[inline(always)]
    pub fn refile(&mut self, slot: Slot)
        ensures { Refiled self.old self.new slot }
    {
        if !self.is_apart(slot) {
            self.file(slot);
        }
    }

    /// Puts a slot on the list to which it belongs.
    #[inline(never)]
    fn file(&mut self, slot: Slot)
        ensures { Refiled self.old self.new slot }
    {
        let place = self.wait_list_of(slot);
        put(&mut self.wait_lists, slot, place);
    }

    /// Puts each slot of a list on the list to which it belongs.
    fn settle(&mut self, head: u32)
        requires { head < heads }
        ensures { Resettled self.old self.new (head ∷ []) }
    {
        if let Some(node) = self.wait_lists.pop_front(head) {
            self.settle(head);
            self.refile(Slot::new(node as u8));
        }
    }

    /// Puts each slot of a list on the list to which it belongs. Most often the list is empty,
    /// which costs one test.
    #[inline(always)]
    fn settle_any(&mut self, head: u32)
        requires { head < heads }
        ensures { Resettled self.old self.new (head ∷ []) }
    {
        match self.wait_lists.front(head) {
            Some(_) => self.settle(head),
            None => {}
        }
    }

    /// Puts each slot that is on a list of a console on the list to which it belongs.
    pub fn resettle(&mut self, console: ConsoleNumber)
        ensures { Resettled self.old self.new (lists_at console) }
    {
        let c = u32::from(console.number());
        self.settle(2 + c);
        self.settle(10 + c);
        self.settle(18 + c);
        self.settle(26 + c);
    }

    /// Puts each slot that waits for a console's input, or waits there and can go on, on the list
    /// to which it belongs.
    pub fn resettle_input(&mut self, console: ConsoleNumber)
        ensures { Resettled self.old self.new (input_lists console) }
    {
        let c = u32::from(console.number());
        self.settle_any(2 + c);
        self.settle_any(26 + c);
    }

    /// Puts each slot that waits for a console's output, or waits there and can go on, on the list
    /// to which it belongs.
    pub fn resettle_output(&mut self, console: ConsoleNumber)
        ensures { Resettled self.old self.new (output_lists console) }
    {
        let c = u32::from(console.number());
        self.settle_any(10 + c);
        self.settle_any(18 + c);
        self.settle_any(26 + c);
    }

    /// Puts each slot that is on a list of a link where it belongs.
    pub fn resettle_link(&mut self, link: u8)
        requires { link < most_links }
        ensures { Resettled self.old self.new (link_lists link) }
    {
        let l = u32::from(link);
        self.settle_any(34 + l);
        self.settle_any(50 + l);
        self.settle_any(66 + l);
    }

    /// Puts each slot that is on a list of a console or of a link on the list to which it belongs.
    pub fn settle_posts(&mut self)
        ensures { Resettled self.old self.new (lists_to 8 ++ link_lists_to most_links) }
    {
        self.settle_consoles();
        self.settle_links();
    }

    /// Puts each slot that is on a list of a console on the list to which it belongs.
    fn settle_consoles(&mut self)
        ensures { Resettled self.old self.new (lists_to 8) }
    {
        for c in 0..CONSOLES as u8 {
            self.resettle(ConsoleNumber::new(c));
        }
    }

    /// Puts each slot that is on a list of a link on the list to which it belongs.
    fn settle_links(&mut self)
        ensures { Resettled self.old self.new (link_lists_to most_links) }
    {
        for l in 0..LINKS as u8 {
            self.resettle_link(l);
        }
    }

    /// Puts each slot that waits for a time on the list to which it belongs.
    pub fn resettle_clock(&mut self)
        ensures { Resettled self.old self.new (1 ∷ []) }
    {
        self.settle(CLOCK_LIST);
    }
}
