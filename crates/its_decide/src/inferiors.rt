//! Inferiors: OPEN of USR, `.IOT` and SIOT of whole words through a channel on one, USRMEM and
//! UCLOSE.
ghost use Rattle.std.specs.Prelude.{◌≡◌, ◌<◌, ◌+◌, ◌^◌, ◌∷◌, ◌&&◌, [], Some, true, slice_index_or};
ghost use Rattle.its_word.specs.Byte.{has_size};
ghost use Rattle.its_records.specs.Tree.{least_free};
ghost use Rattle.its_records.specs.declared.jobs.Channel.TheVariants.{Usr};
ghost use Rattle.its_frame.specs.declared.change.Change.TheVariants.{Move, Poke};
ghost use Rattle.its_frame.specs.declared.name.CallName.TheVariants.{Iot, Siot, Usrmem};
ghost use Rattle.its_plain.specs.Call.Arguments.{input};
ghost use Rattle.its_plain.specs.Call.Basic.{is_superior};
ghost use Rattle.its_plain.specs.Call.Usr.{any_named, has_names, inferior_named, iot_from, iot_into, iot_through, opens_usr, siot_from, siot_into, siot_peeks, siot_pokes, siot_through, uclose, usrmem, usrmem_on};
ghost use Rattle.its_plain.specs.Call.Decide.{call_named};
ghost use Rattle.its_plain.specs.Machine.{On};
ghost use Rattle.its_shared.specs.Called.{channel_under};
ghost use Rattle.its_decide.specs.Called.{looks};
ghost use Rattle.its_decide.specs.Fits.{SeenFits};
ghost use Rattle.its_decide.specs.Targets.{Targets};

use super::caller::Caller;
use super::ends::ends;
use arrayvec::ArrayVec;
use its_bytes::load;
use its_frame::{Change, Decision, Opened, error};
use its_plain::END_OF_FILE;
use its_records::Channel;
use its_word::{ADDRESSES, Fault, SLOTS, Slot, Word};

impl Caller<'_> {
    /// OPEN channel, USR, user name, job name: the caller's inferior with these names, which is
    /// made with control 1 if there is none. Errors 4, 22; 13 if they are those of another job, 12
    /// for input if no job has them, 14 if all slots below the limit have jobs.
    #[tactic(auto, unfolding(its_plain::specs::Call::Usr::opens_usr, its_plain::specs::Machine::View::view))]
    pub(crate) fn open_usr(&self) -> Decision
        requires { SeenFits self.now.seen.now }
        ensures { result ≡ opens_usr (looks self.now) self.now.ask.now }
    {
        let number = self.input(0);
        let control = self.control();
        if !self.is_free(number) {
            return self.fails(error::BAD_CHANNEL);
        }
        if control > 1 {
            return self.fails(error::OUT_OF_RANGE);
        }
        let channel = number.value() as u8;
        if let Some(slot) = self.inferior_named() {
            let on = Opened::Usr {
                slot,
                write: control == 1,
            };
            return self.finishes_with(Change::Open { channel, on });
        }
        if self.any_named() {
            return self.fails(error::NOT_INFERIOR);
        }
        if control != 1 {
            return self.fails(error::NO_JOB);
        }
        let Some(free) = self.free_slot() else {
            return self.fails(error::NO_SLOT);
        };
        let slot = free.number();
        let make = Change::Make {
            slot,
            u: self.input(2),
            j: self.input(3),
        };
        let open = Change::Open {
            channel,
            on: Opened::Usr { slot, write: true },
        };
        Decision::Ends {
            changes: ArrayVec::from([make, open]),
            stores: ArrayVec::new(),
            exit: self.past(2),
        }
    }

    /// The least slot below the limit that has no job.
    #[tactic(auto, using(crate::proofs::InferiorLaws::free_slot))]
    fn free_slot(&self) -> Option<Slot>
        requires { SeenFits self.now.seen.now }
        ensures { result ≡ least_free (looks self.now).limit (looks self.now).outlines }
    {
        self.seen.jobs.free()
    }

    /// The least slot whose job is an inferior of the caller with the names of OPEN.
    #[tactic(auto, unfolding(its_plain::specs::Machine::View::view))]
    fn inferior_named(&self) -> Option<u8>
        ensures { result ≡ inferior_named (looks self.now) (input self.now.ask.now 2) (input self.now.ask.now 3) }
    {
        (0..SLOTS as u8).find(|k| self.is_named(*k) && self.is_inferior(*k))
    }

    /// Whether any job has the names of OPEN.
    #[tactic(auto, unfolding(its_plain::specs::Machine::View::view))]
    fn any_named(&self) -> bool
        ensures { result ≡ any_named (looks self.now) (input self.now.ask.now 2) (input self.now.ask.now 3) }
    {
        (0..SLOTS as u8).any(|k| self.is_named(k))
    }

    /// Whether the job of a slot has the names of OPEN.
    #[tactic(auto, unfolding(its_plain::specs::Machine::View::view))]
    fn is_named(&self, slot: u8) -> bool
        ensures { result ≡ has_names (input self.now.ask.now 2) (input self.now.ask.now 3) ((looks self.now).outlines slot) }
    {
        match self.seen.jobs.numbered(slot) {
            Some(job) => job.uname == self.input(2) && job.jname == self.input(3),
            None => false,
        }
    }

    /// Whether the job of a slot is an inferior of the caller.
    #[tactic(auto, unfolding(its_plain::specs::Machine::View::view))]
    fn is_inferior(&self, slot: u8) -> bool
        ensures { result ≡ is_superior self.now.slot ((looks self.now).outlines slot) }
    {
        match self.seen.jobs.numbered(slot) {
            Some(_) => self.seen.jobs.superior(Slot::new(slot)) == Some(self.slot),
            None => false,
        }
    }

    /// `.IOT` through a channel on an inferior: into it, if the channel has leave to write, else
    /// from it.
    #[tactic(auto, using(crate::proofs::InferiorLaws::targeted))]
    pub(crate) fn iot_through(&self, inferior: u8, write: bool, at: u32) -> Decision
        requires on { channel_under self.now.job.now (input self.now.ask.now 0) ≡ Usr inferior write at }
        requires fail { self.now.ask.now.fail ≡ 0 }
        requires name { call_named self.now.ask.now.name ≡ Some Iot }
        requires fits { SeenFits self.now.seen.now }
        ensures { result ≡ iot_through (looks self.now) (slice_index_or self.now.ask.now.outputs.items 0 0) (input self.now.ask.now 0) inferior write at }
    {
        if write {
            self.iot_into(inferior, at)
        } else {
            self.iot_from(inferior, at)
        }
    }

    /// `.IOT` from an inferior: the word at the channel's position, which is then one more;
    /// 777777000003 at the end. MPV or WRO by the word at E; IOC if the inferior's word is absent.
    #[tactic(auto, using(crate::proofs::InferiorLaws::other_word), unfolding(its_plain::specs::Machine::View::view))]
    fn iot_from(&self, inferior: u8, at: u32) -> Decision
        requires { Targets self.now (input self.now.ask.now 0) inferior }
        ensures { result ≡ iot_from (looks self.now) (slice_index_or self.now.ask.now.outputs.items 0 0) (input self.now.ask.now 0) at }
    {
        if let Some(fault) = self.bar(self.address()) {
            return self.faults(fault);
        }
        if at >= ADDRESSES {
            return self.iot_gets(None, Word::new(END_OF_FILE));
        }
        match self.seen.core.word(Slot::new(inferior), at) {
            Some(word) => self.iot_gets(Some(self.moves_to(at + 1)), word),
            None => self.ioc(),
        }
    }

    /// `.IOT` into an inferior: the word at E is stored at the channel's position, which is then
    /// one more. MPV by the word at E; IOC at the end, and if the inferior's word cannot be stored.
    #[tactic(auto, using(crate::proofs::InferiorLaws::other_stored), unfolding(its_plain::specs::Machine::View::view))]
    fn iot_into(&self, inferior: u8, at: u32) -> Decision
        requires { Targets self.now (input self.now.ask.now 0) inferior }
        ensures { result ≡ iot_into (looks self.now) (slice_index_or self.now.ask.now.outputs.items 0 0) (input self.now.ask.now 0) inferior at }
    {
        let Some(word) = self.seen.core.word(self.slot, self.address()) else {
            return self.faults(Fault::Mpv);
        };
        if at >= ADDRESSES || !self.seen.core.is_storable(Slot::new(inferior), at) {
            return self.ioc();
        }
        Decision::Ends {
            changes: self.pokes(inferior, at, word),
            stores: ArrayVec::new(),
            exit: self.past(1),
        }
    }

    /// A word of an inferior is stored, and the channel's position is one more.
    fn pokes(&self, inferior: u8, at: u32, word: Word) -> ArrayVec<Change, 2>
        requires number { input self.now.ask.now 0 < 16 }
        requires below { at < 2 ^ 18 }
        ensures { result ≡ record { items = Poke inferior at word ∷ Move (input self.now.ask.now 0) (at + 1) ∷ [] } }
    {
        let poke = Change::Poke {
            slot: inferior,
            at,
            word,
        };
        ArrayVec::from([poke, self.moves_to(at + 1)])
    }

    /// SIOT through a channel on an inferior: into it, if the channel has leave to write, else from
    /// it.
    #[tactic(auto, using(crate::proofs::InferiorLaws::targeted))]
    pub(crate) fn siot_through(&self, inferior: u8, write: bool, at: u32) -> Decision
        requires on { channel_under self.now.job.now (input self.now.ask.now 0) ≡ Usr inferior write at }
        requires fail { self.now.ask.now.fail ≡ 0 }
        requires name { call_named self.now.ask.now.name ≡ Some Siot }
        requires fits { SeenFits self.now.seen.now }
        ensures { result ≡ siot_through (looks self.now) self.now.ask.now (input self.now.ask.now 0) inferior write at }
    {
        if write {
            self.siot_into(inferior, at)
        } else {
            self.siot_from(inferior, at)
        }
    }

    /// SIOT from an inferior: the word at the channel's position is held, and stored by the next
    /// step. Error 16 if it is absent.
    #[tactic(auto, using(crate::proofs::InferiorLaws::other_word), unfolding(its_plain::specs::Machine::View::view))]
    fn siot_from(&self, inferior: u8, at: u32) -> Decision
        requires { Targets self.now (input self.now.ask.now 0) inferior }
        ensures { result ≡ siot_from (looks self.now) self.now.ask.now (input self.now.ask.now 0) at }
    {
        match self.next_byte(true, at >= ADDRESSES) {
            Ok(next) => self.siot_peeks(next, at, self.seen.core.word(Slot::new(inferior), at)),
            Err(halt) => self.halts(halt),
        }
    }

    /// SIOT from an inferior once no test of its arguments stops it: its word is held. Error 16 if
    /// it is absent.
    #[tactic(auto, unfolding(its_plain::specs::Machine::View::view))]
    fn siot_peeks(&self, next: Word, at: u32, word: Option<Word>) -> Decision
        requires number { input self.now.ask.now 0 < 16 }
        requires below { at < 2 ^ 18 }
        ensures { result ≡ siot_peeks (looks self.now) self.now.ask.now next (input self.now.ask.now 2) (input self.now.ask.now 0) at word }
    {
        if let Some(word) = word {
            return self.outcome(self.siot_gets(next, at, word));
        }
        match self.bar(next.right()) {
            Some(fault) => self.faults(fault),
            None => self.fails(error::BAD_PAGE),
        }
    }

    /// SIOT into an inferior: the word is stored at the channel's position. Error 16 if it cannot
    /// be.
    #[tactic(auto, unfolding(its_plain::specs::Machine::View::view))]
    fn siot_into(&self, inferior: u8, at: u32) -> Decision
        requires { Targets self.now (input self.now.ask.now 0) inferior }
        ensures { result ≡ siot_into (looks self.now) self.now.ask.now (input self.now.ask.now 0) inferior at }
    {
        match self.next_byte(true, at >= ADDRESSES) {
            Ok(next) => self.siot_pokes(next, inferior, at),
            Err(halt) => self.halts(halt),
        }
    }

    /// SIOT into an inferior once no test of its arguments stops it: the word is stored. Error 16
    /// if it cannot be.
    #[tactic(auto, using(crate::proofs::InferiorLaws::other_stored, its_shared::proofs::StopLaws::loaded_fits), unfolding(its_plain::specs::Machine::View::view))]
    fn siot_pokes(&self, next: Word, inferior: u8, at: u32) -> Decision
        requires targets { Targets self.now (input self.now.ask.now 0) inferior }
        requires below { at < 2 ^ 18 }
        requires size { has_size next ≡ true }
        ensures { result ≡ siot_pokes (looks self.now) self.now.ask.now next (input self.now.ask.now 2) (input self.now.ask.now 0) inferior at }
    {
        let Some(word) = self.seen.core.word(self.slot, next.right()) else {
            return self.faults(Fault::Mpv);
        };
        if !self.seen.core.is_storable(Slot::new(inferior), at) {
            return self.fails(error::BAD_PAGE);
        }
        let mut values = ArrayVec::new();
        values.push(next);
        values.push(Word::new(self.input(2).value().saturating_sub(1)));
        Decision::Goes {
            changes: self.pokes(inferior, at, Word::new(load(next, word))),
            held: None,
            values,
        }
    }

    /// USRMEM channel, address, optional new word: the output gets the word of the inferior, and
    /// then the new one is stored. Errors 4, 5, 22; 5 if the channel has no leave to write, 16 if
    /// the word is absent or cannot be stored.
    #[tactic(auto, using(its_shared::proofs::NumberLaws::under, crate::proofs::InferiorLaws::targeted), unfolding(its_plain::specs::Call::Usr::usrmem, its_plain::specs::Machine::View::view))]
    pub(crate) fn usrmem(&self) -> Decision
        requires fail { self.now.ask.now.fail ≡ 0 }
        requires name { call_named self.now.ask.now.name ≡ Some Usrmem }
        requires fits { SeenFits self.now.seen.now }
        ensures { result ≡ usrmem (looks self.now) self.now.ask.now }
    {
        match self.channel(self.input(0)) {
            Channel::Closed => self.fails(error::BAD_CHANNEL),
            Channel::Usr {
                slot: inferior,
                write,
                at,
            } => self.usrmem_on(inferior, write, at),
            _ => self.fails(error::WRONG_DEVICE),
        }
    }

    /// USRMEM on this inferior: the output gets its word, and then the new one is stored.
    #[tactic(auto, using(crate::proofs::InferiorLaws::other_word, crate::proofs::InferiorLaws::other_stored), unfolding(its_plain::specs::Machine::View::view))]
    fn usrmem_on(&self, inferior: u8, write: bool, at: u32) -> Decision
        requires { Targets self.now (input self.now.ask.now 0) inferior }
        ensures { result ≡ usrmem_on (looks self.now) self.now.ask.now (On inferior write at) }
    {
        let address = self.input(1).value();
        let new = self.has_input(2);
        if address >= u64::from(ADDRESSES) {
            return self.fails(error::OUT_OF_RANGE);
        }
        if new && !write {
            return self.fails(error::WRONG_DEVICE);
        }
        let address = address as u32;
        let Some(word) = self.seen.core.word(Slot::new(inferior), address) else {
            return self.fails(error::BAD_PAGE);
        };
        if !new {
            return self.finishes(self.output(word));
        }
        if !self.seen.core.is_storable(Slot::new(inferior), address) {
            return self.fails(error::BAD_PAGE);
        }
        let poke = Change::Poke {
            slot: inferior,
            at: address,
            word: self.input(2),
        };
        ends(Some(poke), self.output(word), self.past(2))
    }

    /// UCLOSE channel: the inferior and all jobs below it are removed. Errors 4, 5.
    #[tactic(auto, using(its_shared::proofs::NumberLaws::under), unfolding(its_plain::specs::Call::Usr::uclose, its_plain::specs::Machine::View::view))]
    pub(crate) fn uclose(&self) -> Decision
        ensures { result ≡ uclose (looks self.now) self.now.ask.now }
    {
        match self.channel(self.input(0)) {
            Channel::Closed => self.fails(error::BAD_CHANNEL),
            Channel::Usr { slot, .. } => self.finishes_with(Change::Remove { slot }),
            _ => self.fails(error::WRONG_DEVICE),
        }
    }
}
