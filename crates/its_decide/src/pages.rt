//! CORBLK.
ghost use Rattle.std.specs.Prelude.{◌≡◌, Some};
ghost use Rattle.its_core.specs.Cores.{core_at};
ghost use Rattle.its_frame.specs.declared.name.CallName.TheVariants.{Corblk};
ghost use Rattle.its_plain.specs.Call.Arguments.{input};
ghost use Rattle.its_plain.specs.Call.Core.{corblk, page_changed, pages_of};
ghost use Rattle.its_plain.specs.Call.Usr.{other_core};
ghost use Rattle.its_plain.specs.Call.Decide.{call_named};
ghost use Rattle.its_decide.specs.Called.{looks};
ghost use Rattle.its_decide.specs.Fits.{SeenFits};
ghost use Rattle.its_decide.specs.Targets.{Targets};

use super::arguments::is_oneself;
use super::caller::Caller;
use its_frame::{Change, Decision, error};
use its_plain::{HIGHEST_OPERATION, HIGHEST_PAGE};
use its_records::Channel;
use its_word::{MAPPED_PAGES, Slot};

/// The operation that drops a page.
const DROP: u64 = 0;

/// The operation that makes a page of zeros.
const MAKE: u64 = 1;

/// The operation that makes a page writable.
const WRITABLE: u64 = 3;

impl Caller<'_> {
    /// CORBLK operation, job, page: drops a page (0), makes one of zeros (1), or makes it read only
    /// (2) or writable (3). Errors 22, 4, 5; 22 by the page, 16 if it exists, for operation 1, or
    /// is absent, for any other; 15 if all jobs together have 1024 pages.
    #[tactic(auto, using(its_shared::proofs::NumberLaws::under, crate::proofs::InferiorLaws::targeted), unfolding(its_plain::specs::Call::Core::corblk, its_plain::specs::Machine::View::view))]
    pub(crate) fn corblk(&self) -> Decision
        requires fail { self.now.ask.now.fail ≡ 0 }
        requires name { call_named self.now.ask.now.name ≡ Some Corblk }
        requires fits { SeenFits self.now.seen.now }
        ensures { result ≡ corblk (looks self.now) self.now.ask.now }
    {
        let party = self.input(1);
        if self.input(0).value() > HIGHEST_OPERATION {
            return self.fails(error::OUT_OF_RANGE);
        }
        if is_oneself(party) {
            return self.pages_of(self.slot);
        }
        match self.channel(party) {
            Channel::Closed => self.fails(error::BAD_CHANNEL),
            Channel::Usr {
                slot: inferior,
                write: true,
                ..
            } => self.pages_of_other(inferior),
            _ => self.fails(error::WRONG_DEVICE),
        }
    }

    /// The operation on a page of the inferior that the call reaches.
    #[tactic(auto, using(crate::proofs::InferiorLaws::other_core_is))]
    fn pages_of_other(&self, inferior: u8) -> Decision
        requires targets { Targets self.now (input self.now.ask.now 1) inferior }
        requires fits { SeenFits self.now.seen.now }
        ensures { result ≡ pages_of (looks self.now) self.now.ask.now (input self.now.ask.now 0) inferior (other_core (looks self.now)) (input self.now.ask.now 2) }
    {
        self.pages_of(Slot::new(inferior))
    }

    /// The operation on a page of the job of a slot.
    #[tactic(auto, using(crate::proofs::PageLaws::seen_pages), unfolding(its_plain::specs::Machine::View::view))]
    fn pages_of(&self, target: Slot) -> Decision
        requires fits { SeenFits self.now.seen.now }
        ensures { result ≡ pages_of (looks self.now) self.now.ask.now (input self.now.ask.now 0) target (core_at self.now.seen.now.core.now target) (input self.now.ask.now 2) }
    {
        let (operation, page) = (self.input(0).value(), self.input(2).value());
        if page > HIGHEST_PAGE {
            return self.fails(error::OUT_OF_RANGE);
        }
        let page = page as u8;
        let is_there = self.seen.core.page(target, page).is_some();
        if is_there == (operation == MAKE) {
            return self.fails(error::BAD_PAGE);
        }
        if operation == MAKE && self.seen.core.mapped() >= MAPPED_PAGES {
            return self.fails(error::NO_CORE);
        }
        self.finishes_with(page_changed(operation, target.number(), page))
    }
}

/// What an operation does to a page.
fn page_changed(operation: u64, slot: u8, page: u8) -> Change
    ensures { result ≡ page_changed operation slot page }
{
    if operation == DROP {
        Change::Unmap { slot, page }
    } else if operation == MAKE {
        Change::Map { slot, page }
    } else {
        let writable = operation == WRITABLE;
        Change::Protect {
            slot,
            page,
            writable,
        }
    }
}
