//! Calls on consoles: OPEN of TTY, `.IOT` and SIOT on them, FINISH, LISTEN and TTYLND.
ghost use Rattle.std.specs.Prelude.{◌≡◌, ◌==◌, false, true, length, not, slice_get, slice_index_or, unwrap_or};
ghost use Rattle.its_word.specs.Byte.{has_size};
ghost use Rattle.its_plain.specs.Call.Arguments.{input};
ghost use Rattle.its_plain.specs.Call.Tty.{can_take, view_console, finish, first_typed, input_waits, iot_in, iot_out, is_holder, is_other, lands, listen, listens, opens, output_left, output_waits, shown_byte, siot_in, siot_out, ttylnd};
ghost use Rattle.its_plain.specs.Call.Basic.{is_superior};
ghost use Rattle.its_plain.specs.Call.Transfer.{next_pointer, siot_by};
ghost use Rattle.its_decide.specs.Called.{looks};
ghost use Rattle.its_decide.specs.Moving.{outcome};

use super::arguments::is_oneself;
use super::caller::Caller;
use super::ends::{ends, store_at};
use super::moving::{Halt, NextMove, Shift, one_moved};
use arrayvec::ArrayVec;
use its_bytes::load;
use its_frame::{Change, Decision, Held, Opened, Wait, error};
use its_plain::{SHOWN, TTY};
use its_records::Channel;
use its_word::{Fault, MOST_WAITING, Slot, Word};

impl Caller<'_> {
    /// The number of the caller's console. A channel on a console is opened only if its job has
    /// one.
    #[inline(always)]
    fn console(&self) -> u8
        ensures { result ≡ unwrap_or self.now.job.now.console 0 }
    {
        self.job.console.unwrap_or(0)
    }

    /// The numbers of bytes that wait at the caller's console, as input and as output.
    #[inline(always)]
    #[tactic(auto, unfolding(its_plain::specs::Machine::View::view))]
    fn waiting(&self) -> (u32, u32)
        ensures input { result.0 ≡ length ((looks self.now).consoles (view_console (looks self.now))).input }
        ensures output { result.1 ≡ length ((looks self.now).consoles (view_console (looks self.now))).output }
    {
        match self.seen.consoles.get(usize::from(self.console())) {
            Some(console) => console.waiting(),
            None => (0, 0),
        }
    }

    /// The first byte of its input; 0 if there is none.
    #[inline(always)]
    #[tactic(auto, unfolding(its_plain::specs::Machine::View::view))]
    fn first_typed(&self) -> Word
        ensures { result ≡ first_typed (looks self.now) (view_console (looks self.now)) }
    {
        let first = match self.seen.consoles.get(usize::from(self.console())) {
            Some(console) => console.first().unwrap_or(0),
            None => 0,
        };
        Word::new(u64::from(first))
    }

    /// Who holds it.
    #[inline(always)]
    #[tactic(auto, unfolding(its_plain::specs::Machine::View::view))]
    fn holder(&self) -> Option<u8>
        ensures { result ≡ (looks self.now).holders (view_console (looks self.now)) }
    {
        let holders = self.seen.holders;
        match holders.get(usize::from(self.console())) {
            Some(holder) => *holder,
            None => None,
        }
    }

    /// Whether another job holds it.
    #[inline(always)]
    #[tactic(auto, unfolding(its_plain::specs::Machine::View::view))]
    fn is_other(&self) -> bool
        ensures { result ≡ is_other self.now.slot ((looks self.now).holders (view_console (looks self.now))) }
    {
        match self.holder() {
            Some(h) => h != self.slot.number(),
            None => false,
        }
    }

    /// Whether it gives the caller no byte.
    #[inline(always)]
    #[tactic(auto, unfolding(its_plain::specs::Machine::View::view))]
    fn input_waits(&self) -> bool
        ensures { result ≡ input_waits (looks self.now) (view_console (looks self.now)) }
    {
        self.waiting().0 == 0 || self.is_other()
    }

    /// Whether it takes no byte of the caller.
    #[inline(always)]
    #[tactic(auto, unfolding(its_plain::specs::Machine::View::view))]
    fn output_waits(&self) -> bool
        ensures { result ≡ output_waits (looks self.now) (view_console (looks self.now)) }
    {
        self.waiting().1 >= MOST_WAITING || self.is_other()
    }

    /// Whether output of it is not drained yet.
    #[tactic(auto, unfolding(its_plain::specs::Machine::View::view))]
    fn output_left(&self) -> bool
        ensures { result ≡ output_left (looks self.now) (view_console (looks self.now)) }
    {
        self.waiting().1 != 0
    }

    /// FINISH channel: waits until all output of the console is drained. Errors 4, 5.
    #[tactic(auto, using(its_shared::proofs::NumberLaws::under), unfolding(its_plain::specs::Call::Tty::finish, its_plain::specs::Machine::View::view))]
    pub(crate) fn finish(&self) -> Decision
        ensures { result ≡ finish (looks self.now) self.now.ask.now }
    {
        match self.channel(self.input(0)) {
            Channel::Closed => self.fails(error::BAD_CHANNEL),
            Channel::TtyOut if self.output_left() => Decision::Waits(Wait::Drained(self.console())),
            Channel::TtyOut => self.finishes(ArrayVec::new()),
            _ => self.fails(error::WRONG_DEVICE),
        }
    }

    /// LISTEN channel: also waits, and gives the number of bytes of input. Errors 4, 5.
    #[tactic(auto, using(its_shared::proofs::NumberLaws::under), unfolding(its_plain::specs::Call::Tty::listen, its_plain::specs::Machine::View::view))]
    pub(crate) fn listen(&self) -> Decision
        ensures { result ≡ listen (looks self.now) self.now.ask.now }
    {
        match self.channel(self.input(0)) {
            Channel::Closed => self.fails(error::BAD_CHANNEL),
            Channel::TtyIn | Channel::TtyOut => self.listened(),
            _ => self.fails(error::WRONG_DEVICE),
        }
    }

    /// The number of bytes of input, once all output is drained.
    #[tactic(auto, unfolding(its_plain::specs::Machine::View::view))]
    fn listened(&self) -> Decision
        ensures { result ≡ listens (looks self.now) self.now.ask.now (view_console (looks self.now)) }
    {
        if self.output_left() {
            return Decision::Waits(Wait::Drained(self.console()));
        }
        self.finishes(self.output(Word::new(u64::from(self.waiting().0))))
    }

    /// TTYLND job: the job becomes the holder of the caller's console. Errors 4, 5; 5 if the caller
    /// has no console; for oneself 13 if a stranger holds it; for an inferior 5 if the caller does
    /// not hold it.
    #[tactic(auto, using(its_shared::proofs::NumberLaws::under), unfolding(its_plain::specs::Call::Tty::ttylnd, its_plain::specs::Machine::View::view))]
    pub(crate) fn ttylnd(&self) -> Decision
        ensures { result ≡ ttylnd (looks self.now) self.now.ask.now }
    {
        let party = self.input(0);
        if is_oneself(party) {
            return self.lands(self.can_take(), error::NOT_INFERIOR, self.slot.number());
        }
        match self.channel(party) {
            Channel::Closed => self.fails(error::BAD_CHANNEL),
            Channel::Usr { slot, .. } => self.lands(self.is_holder(), error::WRONG_DEVICE, slot),
            _ => self.fails(error::WRONG_DEVICE),
        }
    }

    /// Whether the caller can take its console for itself: nobody holds it, or the caller, or one
    /// of its inferiors.
    #[tactic(auto, unfolding(its_plain::specs::Machine::View::view))]
    fn can_take(&self) -> bool
        ensures { result ≡ can_take (looks self.now) ((looks self.now).holders (view_console (looks self.now))) }
    {
        match self.holder() {
            Some(h) => h == self.slot.number() || self.is_superior_of(h),
            None => true,
        }
    }

    /// Whether the caller is the superior of the job of a slot.
    #[tactic(auto, unfolding(its_plain::specs::Machine::View::view))]
    fn is_superior_of(&self, slot: u8) -> bool
        ensures { result ≡ is_superior self.now.slot ((looks self.now).outlines slot) }
    {
        match self.seen.jobs.numbered(slot) {
            Some(_) => self.seen.jobs.superior(Slot::new(slot)) == Some(self.slot),
            None => false,
        }
    }

    /// Whether the caller holds its console.
    #[tactic(auto, unfolding(its_plain::specs::Machine::View::view))]
    fn is_holder(&self) -> bool
        ensures { result ≡ is_holder (looks self.now) ((looks self.now).holders (view_console (looks self.now))) }
    {
        match self.holder() {
            Some(h) => h == self.slot.number(),
            None => false,
        }
    }

    /// A job becomes the holder of the caller's console, if it may.
    #[tactic(auto, unfolding(its_plain::specs::Machine::View::view))]
    fn lands(&self, may: bool, number: u8, holder: u8) -> Decision
        ensures { result ≡ lands (looks self.now) self.now.ask.now may number holder }
    {
        let Some(console) = self.job.console else {
            return self.fails(error::WRONG_DEVICE);
        };
        if !may {
            return self.fails(number);
        }
        self.finishes_with(Change::Hold {
            console,
            slot: holder,
        })
    }

    /// OPEN channel, TTY: input, or output with control 1. Errors 4, 5 if the device is not TTY,
    /// 22, and 5 if the job has no console.
    #[tactic(auto, unfolding(its_plain::specs::Call::Tty::opens, its_plain::specs::Machine::View::view))]
    pub(crate) fn open_tty(&self) -> Decision
        ensures { result ≡ opens (looks self.now) self.now.ask.now }
    {
        let number = self.input(0);
        if !self.is_free(number) {
            return self.fails(error::BAD_CHANNEL);
        }
        if self.input(1).value() != TTY {
            return self.fails(error::WRONG_DEVICE);
        }
        let on = match self.control() {
            0 => Opened::TtyIn,
            1 => Opened::TtyOut,
            _ => return self.fails(error::OUT_OF_RANGE),
        };
        if self.job.console.is_none() {
            return self.fails(error::WRONG_DEVICE);
        }
        self.finishes_with(Change::Open {
            channel: number.value() as u8,
            on,
        })
    }

    /// `.IOT` from a console: its first byte becomes the word at E, right-justified. MPV or WRO by
    /// the word.
    #[tactic(auto, unfolding(its_plain::specs::Machine::View::view))]
    pub(crate) fn iot_in(&self) -> Decision
        ensures { result ≡ iot_in (looks self.now) (slice_index_or self.now.ask.now.outputs.items 0 0) (view_console (looks self.now)) }
    {
        let e = self.address();
        if let Some(fault) = self.bar(e) {
            return self.faults(fault);
        }
        let console = self.console();
        if self.input_waits() {
            return Decision::Waits(Wait::Input(console));
        }
        ends(
            Some(Change::Take { console }),
            store_at(Some(e), self.first_typed()),
            self.past(1),
        )
    }

    /// `.IOT` to a console: the byte in the word at E is put out. MPV by the word.
    #[tactic(auto, unfolding(its_plain::specs::Machine::View::view))]
    pub(crate) fn iot_out(&self) -> Decision
        ensures { result ≡ iot_out (looks self.now) (slice_index_or self.now.ask.now.outputs.items 0 0) (view_console (looks self.now)) }
    {
        let Some(word) = self.seen.core.word(self.slot, self.address()) else {
            return self.faults(Fault::Mpv);
        };
        let console = self.console();
        if self.output_waits() {
            return Decision::Waits(Wait::Output(console));
        }
        let byte = shown(word);
        ends(
            Some(Change::Put { console, byte }),
            ArrayVec::new(),
            self.past(1),
        )
    }

    /// SIOT from a console: one byte, which is held and stored by the next step; pointer and count
    /// become those of the rest.
    #[inline(always)]
    pub(crate) fn siot_in(&self) -> Result<NextMove, Halt>
        ensures { outcome (looks self.now) self.now.ask.now result ≡ siot_by (looks self.now) self.now.ask.now false false (siot_in (looks self.now) self.now.ask.now (next_pointer (input self.now.ask.now 1)) (input self.now.ask.now 2) (view_console (looks self.now))) }
    {
        match self.next_byte(false, false) {
            Ok(next) => self.takes_byte(next),
            Err(halt) => Err(halt),
        }
    }

    /// The byte of the next pointer comes from a console.
    #[inline(always)]
    #[tactic(auto, unfolding(its_plain::specs::Machine::View::view))]
    fn takes_byte(&self, next: Word) -> Result<NextMove, Halt>
        ensures { outcome (looks self.now) self.now.ask.now result ≡ siot_in (looks self.now) self.now.ask.now next (input self.now.ask.now 2) (view_console (looks self.now)) }
    {
        let place = next.right();
        if let Some(fault) = self.bar(place) {
            return Err(Halt::Bit(fault));
        }
        let console = self.console();
        if self.input_waits() {
            return Err(Halt::Later(Wait::Input(console)));
        }
        let held = Held {
            place,
            byte: self.first_typed(),
        };
        Ok(one_moved(Shift::Take { console }, Some(held), next, self.input(2)))
    }

    /// SIOT to a console: one byte; pointer and count become those of the rest.
    #[inline(always)]
    pub(crate) fn siot_out(&self) -> Result<NextMove, Halt>
        ensures { outcome (looks self.now) self.now.ask.now result ≡ siot_by (looks self.now) self.now.ask.now false false (siot_out (looks self.now) self.now.ask.now (next_pointer (input self.now.ask.now 1)) (input self.now.ask.now 2) (view_console (looks self.now))) }
    {
        match self.next_byte(false, false) {
            Ok(next) => self.puts_byte(next),
            Err(halt) => Err(halt),
        }
    }

    /// The byte of the next pointer goes to a console.
    #[inline(always)]
    #[tactic(auto, unfolding(its_plain::specs::Machine::View::view))]
    fn puts_byte(&self, next: Word) -> Result<NextMove, Halt>
        requires { has_size next ≡ true }
        ensures { outcome (looks self.now) self.now.ask.now result ≡ siot_out (looks self.now) self.now.ask.now next (input self.now.ask.now 2) (view_console (looks self.now)) }
    {
        let Some(word) = self.seen.core.word(self.slot, next.right()) else {
            return Err(Halt::Bit(Fault::Mpv));
        };
        let console = self.console();
        if self.output_waits() {
            return Err(Halt::Later(Wait::Output(console)));
        }
        let byte = shown(Word::new(load(next, word)));
        Ok(one_moved(Shift::Put { console, byte }, None, next, self.input(2)))
    }
}

/// What a console shows of a byte.
#[inline(always)]
fn shown(word: Word) -> u8
    ensures { result ≡ shown_byte word }
{
    (word.value() & SHOWN) as u8
}
