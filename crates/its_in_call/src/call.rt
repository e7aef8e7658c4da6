//! The call in progress of a slot: the stage at which it is, with what it holds. A byte of SIOT in
//! the hand is in `Stage::Moving`.

ghost use Rattle.std.specs.Prelude.{◌≡◌, ◌<◌, ◌≤◌, ◌^◌, ◌∷◌, [], ℕ, true, Some, None, is_some, IfSome, length, slice_index_or, drop};
ghost use Rattle.its_core.specs.Cores.{core_at};
ghost use Rattle.its_plain.specs.Call.Arguments.{with_new_values};
ghost use Rattle.its_plain.specs.Call.Footprint.{SiteFits};
ghost use Rattle.its_stepped.specs.State.{entered, ending};
ghost use Rattle.its_stepped.specs.TwoParts.{fetch_of, parse_of};
ghost use Rattle.its_stepped.specs.Unwind.{due};
ghost use Rattle.its_frame.specs.Left.{Few};
ghost use Rattle.its_stepped.specs.Unwind.{left_by};
ghost use Rattle.its_in_call.specs.Calls.{after_fetch, after_parse, after_step, ending_in, entered_in, fault_of, frame_of, frame_seen, gone_to, parsed_in, request, request_in};

use super::owed::{next_step, owed_left};
use super::values::revalue;
use arrayvec::ArrayVec;
use its_core::Core;
use its_decode::{fetch_site, parse_site};
use its_frame::Held;
use its_records::{Ask, Block, Owed, Site};
use its_word::{Fault, Slot, Word};
use std::marker::Model;

/// How far a job is inside a call: in user mode; it has entered the monitor at a site; its block is
/// read; its arguments are found; it is ready to be tried, with so many clear quarters of a
/// reserved page, and so many of its last arguments whose values are not yet in core; it was found
/// not ready; a byte or word is taken, and not yet stored in the word at a place; or it is decided,
/// and steps are pending.
#[derive(Clone, Copy)]
enum Stage {
    User,
    Entered,
    Parsed,
    Asked,
    Holding { page: Option<u8>, owes: u8 },
    Waiting { owes: u8 },
    Moving { place: u32, byte: Word },
    Ending,
}

/// The frame of a call, in the form in which it is kept.
#[derive(Clone, Copy)]
pub enum View<'a> {
    User,
    Entered {
        site: &'a Site,
    },
    Parsed {
        site: &'a Site,
        block: &'a Block,
    },
    Asked {
        site: &'a Site,
        ask: &'a Ask,
    },
    Holding {
        site: &'a Site,
        ask: &'a Ask,
        page: Option<u8>,
        owes: u8,
    },
    Waiting {
        site: &'a Site,
        ask: &'a Ask,
        owes: u8,
    },
    Moving {
        site: &'a Site,
        ask: &'a Ask,
        place: u32,
        byte: Word,
    },
    Ending {
        site: &'a Site,
        ask: &'a Ask,
        owed: &'a ArrayVec<Owed, 4>,
    },
}

/// The next stage of a call whose arguments are found: back to be prepared; to be tried, with a
/// reserved page or none; to wait; or to store a byte or word that it has taken.
#[derive(Clone, Copy)]
pub enum Next {
    Asked,
    Holding { page: Option<u8>, owes: u8 },
    Waiting { owes: u8 },
    Moving(Held),
}

/// The call in progress of a slot, if it is in one. What a call keeps is written once, and is not
/// moved after that.
#[derive(Drop)]
pub struct Call {
    stage: Stage,
    site: Site,
    block: Block,
    ask: Ask,
    owed: ArrayVec<Owed, 4>,
}

impl Model for Call {
    ghost use Rattle.std.specs.Prelude.{Option};
    ghost use Rattle.its_frame.specs.declared.frame.Frame as frame;
    ghost use Rattle.its_in_call.specs.Calls.{frame_of};

    ghost Value = { Option frame.Frame };

    ghost view = { λ c. frame_of c.stage c.site c.block c.ask c.owed };
}

/// Writes the site at a PC, of which no other word was read.
fn begin_near(site: &mut Site, pc: u32, e: u32, channel: Option<u8>)
    ensures { site.new ≡ record { pc = pc; e = e; channel = channel; used = 0; decode = record { items = pc ∷ [] } } }
{
    site.pc = pc;
    site.e = e;
    site.channel = channel;
    site.used = 0;
    site.decode.clear();
    site.decode.push(pc);
}

impl Call {
    /// A job in user mode.
    pub fn none() -> Call
        ensures { result ≡ None }
    {
        Call {
            stage: Stage::User,
            site: Site {
                pc: 0,
                e: 0,
                channel: None,
                used: 0,
                decode: ArrayVec::new(),
            },
            block: ArrayVec::new(),
            ask: Ask {
                name: Word::ZERO,
                fail: 0,
                inputs: ArrayVec::new(),
                outputs: ArrayVec::new(),
                error: None,
                control: None,
                decode: ArrayVec::new(),
                operand: ArrayVec::new(),
            },
            owed: ArrayVec::new(),
        }
    }

    /// The frame.
    #[inline]
    pub fn view(&self) -> View<'_>
        ensures { frame_seen result ≡ self.now }
    {
        let site = &self.site;
        let ask = &self.ask;
        match self.stage {
            Stage::User => View::User,
            Stage::Entered => View::Entered { site },
            Stage::Parsed => View::Parsed {
                site,
                block: &self.block,
            },
            Stage::Asked => View::Asked { site, ask },
            Stage::Holding { page, owes } => View::Holding {
                site,
                ask,
                page,
                owes,
            },
            Stage::Waiting { owes } => View::Waiting { site, ask, owes },
            Stage::Moving { place, byte } => View::Moving {
                site,
                ask,
                place,
                byte,
            },
            Stage::Ending => View::Ending {
                site,
                ask,
                owed: &self.owed,
            },
        }
    }

    /// Whether the job is inside a call.
    #[inline]
    pub fn is_some(&self) -> bool
        ensures { result ≡ is_some self.now }
    {
        !matches!(self.stage, Stage::User)
    }

    /// The job enters the monitor.
    pub fn enter(&mut self, site: Site)
        ensures { self.new ≡ Some (entered site) }
    {
        self.site = site;
        self.stage = Stage::Entered;
    }

    /// The job enters the monitor at a PC; no other word was read on the way, and nothing of the
    /// budget is used.
    pub fn enter_near(&mut self, pc: u32, e: u32, channel: Option<u8>)
        ensures { self.new ≡ Some (entered (record { pc = pc; e = e; channel = channel; used = 0; decode = record { items = pc ∷ [] } })) }
    {
        begin_near(&mut self.site, pc, e, channel);
        self.stage = Stage::Entered;
    }

    /// The job is in user mode again.
    pub fn leave(&mut self)
        ensures { self.new ≡ None }
    {
        self.stage = Stage::User;
    }

    /// The block of the call is read. At a fault the job is in user mode again.
    pub fn parse(&mut self, core: &Core, slot: Slot) -> Result<(), Fault>
        requires entered { is_some (entered_in self.old) ≡ true }
        requires fits { IfSome (entered_in self.old) SiteFits }
        ensures frame { IfSome (entered_in self.old) (λ s. self.new ≡ after_parse s (parse_of (core_at core.now slot) s)) }
        ensures fault { IfSome (entered_in self.old) (λ s. fault_of result ≡ fault_of (parse_of (core_at core.now slot) s)) }
    {
        match parse_site(core, slot, &self.site, &mut self.block) {
            Ok(()) => {
                self.stage = Stage::Parsed;
                Ok(())
            }
            Err(fault) => {
                self.stage = Stage::User;
                Err(fault)
            }
        }
    }

    /// The arguments of the call are found, and their values are taken. At a fault the job is in
    /// user mode again.
    pub fn fetch(&mut self, core: &Core, slot: Slot) -> Result<(), Fault>
        requires parsed { is_some (parsed_in self.old) ≡ true }
        requires fits { IfSome (parsed_in self.old) (λ f. SiteFits f.site) }
        requires words { IfSome (parsed_in self.old) (λ f. f.site.channel ≡ None → 2 ≤ length f.block.items) }
        ensures frame { IfSome (parsed_in self.old) (λ f. self.new ≡ after_fetch f.site (fetch_of (core_at core.now slot) f.site f.block)) }
        ensures fault { IfSome (parsed_in self.old) (λ f. fault_of result ≡ fault_of (fetch_of (core_at core.now slot) f.site f.block)) }
    {
        match fetch_site(core, slot, &self.site, &self.block, &mut self.ask) {
            Ok(()) => {
                self.stage = Stage::Asked;
                Ok(())
            }
            Err(fault) => {
                self.stage = Stage::User;
                Err(fault)
            }
        }
    }

    /// The call goes on.
    #[inline]
    pub fn go_to(&mut self, next: Next)
        requires { is_some (request_in self.old) ≡ true }
        ensures { IfSome (request_in self.old) (λ r. self.new ≡ Some (gone_to next r)) }
    {
        self.stage = match next {
            Next::Asked => Stage::Asked,
            Next::Holding { page, owes } => Stage::Holding { page, owes },
            Next::Waiting { owes } => Stage::Waiting { owes },
            Next::Moving(held) => Stage::Moving {
                place: held.place,
                byte: held.byte,
            },
        };
    }

    /// A part of the call is done: its last inputs get new values, and it goes on.
    pub fn go_on(&mut self, values: &[Word], next: Next)
        requires { is_some (request_in self.old) ≡ true }
        ensures { IfSome (request_in self.old) (λ r. self.new ≡ Some (gone_to next (request r.site (with_new_values r.ask values.now)))) }
    {
        revalue(&mut self.ask, values);
        self.go_to(next);
    }

    /// The call is decided, and these steps are pending, in order.
    pub fn end(&mut self, owed: ArrayVec<Owed, 4>)
        requires { is_some (request_in self.old) ≡ true }
        ensures { IfSome (request_in self.old) (λ r. self.new ≡ Some (ending r.site r.ask owed.items)) }
    {
        self.owed = owed;
        self.stage = Stage::Ending;
    }

    /// Takes the first pending step of a call that has ended. File steps at the head are passed
    /// over if the close that is marked is not the call's own (`mine`).
    pub fn next_step(&mut self, mine: bool) -> Owed
        requires some { IfSome (ending_in self.old) (λ f. 0 < length (due mine f.owed.items)) }
        requires ending { is_some (ending_in self.old) ≡ true }
        ensures step { IfSome (ending_in self.old) (λ f. result ≡ slice_index_or (due mine f.owed.items) 0 result) }
        ensures frame { IfSome (ending_in self.old) (λ f. self.new ≡ Some (after_step mine f)) }
    {
        next_step(&mut self.owed, mine)
    }

    /// The number of unwinding steps to user mode, at most 4. `marked` says that the file steps of
    /// this call are still pending.
    pub fn left(&self, marked: bool) -> u8
        requires few { IfSome self.now Few }
        ensures value { result ≡ left_by marked self.now }
        ensures most { result ≤ 4 }
    {
        match self.stage {
            Stage::User => 0,
            Stage::Entered | Stage::Parsed | Stage::Asked => 1,
            Stage::Holding { page, owes } => u8::from(page.is_some()) + owes + 1,
            Stage::Waiting { owes } => owes + 1,
            Stage::Moving { .. } => 4,
            Stage::Ending => owed_left(&self.owed, marked),
        }
    }
}
