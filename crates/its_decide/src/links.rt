//! Links between jobs: OPEN of LNK, CLOSE of an end, and `.IOT` and SIOT if their channel is on
//! one.
ghost use Rattle.std.specs.Prelude.{◌≡◌, ◌<◌, ◌∷◌, [], true, false, slice_index_or};
ghost use Rattle.its_word.specs.Byte.{has_size};
ghost use Rattle.its_records.specs.Tree.{least_free};
ghost use Rattle.its_records.specs.Links.{most_links};
ghost use Rattle.its_frame.specs.declared.change.Change.TheVariants.{CloseEnd};
ghost use Rattle.its_frame.specs.declared.decision.Decision.TheVariants.{Ends};
ghost use Rattle.its_plain.specs.Call.Arguments.{input};
ghost use Rattle.its_plain.specs.Call.Link.{can_open, iot_receives, iot_sends, joins, link_named, makes_link, opens_end, opens_link, siot_receive, siot_receives, siot_send, siot_sends};
ghost use Rattle.its_plain.specs.Machine.Own.{with_advance, exit_of};
ghost use Rattle.its_decide.specs.Called.{looks};
ghost use Rattle.its_decide.specs.Moving.{outcome};

use super::caller::Caller;
use super::ends::ends;
use super::moving::{Halt, NextMove, Shift, one_moved};
use arrayvec::ArrayVec;
use its_bytes::load;
use its_frame::{Change, Decision, Held, Wait, error};
use its_plain::END_OF_FILE;
use its_records::End;
use its_word::{Fault, Word};

impl Caller<'_> {
    /// OPEN channel, LNK, name 1, name 2: the reading end, or with control 1 the writing end, of
    /// the link with these names. Errors 4, 22; 24 if the end is open or was open, 25 if no link
    /// has the names and there are 16.
    #[tactic(auto, unfolding(its_plain::specs::Call::Link::opens_link, its_plain::specs::Machine::View::view))]
    pub(crate) fn open_link(&self) -> Decision
        ensures { result ≡ opens_link (looks self.now) self.now.ask.now }
    {
        let number = self.input(0);
        let control = self.control();
        if !self.is_free(number) {
            return self.fails(error::BAD_CHANNEL);
        }
        if control > 1 {
            return self.fails(error::OUT_OF_RANGE);
        }
        self.opens_end(number.value() as u8, control == 1)
    }

    /// The end with the names of OPEN is opened, if nobody has opened it before; without a link of
    /// these names one is made.
    #[tactic(auto, unfolding(its_plain::specs::Machine::View::view))]
    fn opens_end(&self, n: u8, write: bool) -> Decision
        ensures { result ≡ opens_end (looks self.now) self.now.ask.now n write (input self.now.ask.now 2) (input self.now.ask.now 3) (link_named (looks self.now).links (input self.now.ask.now 2) (input self.now.ask.now 3)) }
    {
        match self.seen.pipes.link_named(self.input(2), self.input(3)) {
            Some(link) if self.can_open(link, write) => self.joins(n, link, write),
            Some(_) => self.fails(error::LINK_IN_USE),
            None => self.makes_link(n, write),
        }
    }

    /// A link with the names of OPEN is made under the least number that has none, and its end
    /// opened.
    #[tactic(auto, unfolding(its_plain::specs::Machine::View::view))]
    fn makes_link(&self, n: u8, write: bool) -> Decision
        ensures { result ≡ makes_link (looks self.now) self.now.ask.now n write (input self.now.ask.now 2) (input self.now.ask.now 3) (least_free most_links (looks self.now).links) }
    {
        match self.seen.pipes.free_link() {
            Some(link) => self.joins(n, link, write),
            None => self.fails(error::NO_LINK),
        }
    }

    /// Whether nobody has opened an end of a link before.
    #[tactic(auto, unfolding(its_plain::specs::Machine::View::view))]
    fn can_open(&self, link: u8, write: bool) -> bool
        ensures { result ≡ can_open write ((looks self.now).links link) }
    {
        match self.seen.pipes.link(link) {
            Some(k) if write => k.writer == End::Unopened,
            Some(k) => k.reader == End::Unopened,
            None => true,
        }
    }

    /// The call finishes, and an end of a link is opened.
    #[tactic(auto, unfolding(its_plain::specs::Machine::View::view))]
    fn joins(&self, n: u8, link: u8, write: bool) -> Decision
        ensures { result ≡ joins (looks self.now) n link write (input self.now.ask.now 2) (input self.now.ask.now 3) }
    {
        self.finishes_with(Change::Join {
            channel: n,
            link,
            write,
            x: self.input(2),
            y: self.input(3),
        })
    }

    /// CLOSE of a channel on a link: the end is closed with it.
    pub(crate) fn close_end(&self, link: u8, write: bool) -> Decision
        requires { input self.now.ask.now 0 < 16 }
        ensures { result ≡ Ends (record { items = CloseEnd (input self.now.ask.now 0) link write ∷ [] }) (record { items = [] }) (exit_of (with_advance 2 self.now.job.now)) }
    {
        self.finishes_with(Change::CloseEnd {
            channel: self.input(0).value() as u8,
            link,
            write,
        })
    }

    /// `.IOT` from a link: its first word; 777777000003 at its end. MPV or WRO by the word at E.
    #[tactic(auto, unfolding(its_plain::specs::Machine::View::view))]
    pub(crate) fn iot_receives(&self, link: u8) -> Decision
        ensures { result ≡ iot_receives (looks self.now) (slice_index_or self.now.ask.now.outputs.items 0 0) link }
    {
        if let Some(fault) = self.bar(self.address()) {
            return self.faults(fault);
        }
        if self.seen.pipes.is_dry(link) {
            return Decision::Waits(Wait::Empty(link));
        }
        match self.seen.pipes.first_word(link) {
            Some(word) => self.iot_gets(Some(Change::Receive { link }), word),
            None => self.iot_gets(None, Word::new(END_OF_FILE)),
        }
    }

    /// `.IOT` to a link: the word at E is sent. MPV by that word; IOC if the reading end is closed.
    #[tactic(auto, unfolding(its_plain::specs::Machine::View::view))]
    pub(crate) fn iot_sends(&self, link: u8) -> Decision
        ensures { result ≡ iot_sends (looks self.now) (slice_index_or self.now.ask.now.outputs.items 0 0) link }
    {
        let Some(word) = self.seen.core.word(self.slot, self.address()) else {
            return self.faults(Fault::Mpv);
        };
        if self.seen.pipes.is_unread(link) {
            return self.ioc();
        }
        if self.seen.pipes.is_crowded(link) {
            return Decision::Waits(Wait::Room(link));
        }
        let change = Change::Send { link, word };
        ends(Some(change), ArrayVec::new(), self.past(1))
    }

    /// SIOT from a link: its first word is held, and its low bits are stored by the next step. At
    /// its end the call finishes.
    #[inline(always)]
    #[tactic(auto, unfolding(its_plain::specs::Machine::View::view))]
    pub(crate) fn siot_receives(&self, link: u8) -> Result<NextMove, Halt>
        ensures { outcome (looks self.now) self.now.ask.now result ≡ siot_receives (looks self.now) self.now.ask.now link }
    {
        match self.next_byte(false, self.seen.pipes.is_ended(link)) {
            Ok(next) => self.siot_receive(next, link),
            Err(halt) => Err(halt),
        }
    }

    /// The byte of the next pointer comes from a link.
    #[inline(always)]
    #[tactic(auto, unfolding(its_plain::specs::Machine::View::view))]
    fn siot_receive(&self, next: Word, link: u8) -> Result<NextMove, Halt>
        ensures { outcome (looks self.now) self.now.ask.now result ≡ siot_receive (looks self.now) next (input self.now.ask.now 2) link }
    {
        let place = next.right();
        if let Some(fault) = self.bar(place) {
            return Err(Halt::Bit(fault));
        }
        if self.seen.pipes.is_dry(link) {
            return Err(Halt::Later(Wait::Empty(link)));
        }
        let byte = self.seen.pipes.first_word(link).unwrap_or(Word::ZERO);
        let held = Held { place, byte };
        Ok(one_moved(Shift::Receive { link }, Some(held), next, self.input(2)))
    }

    /// SIOT to a link: the byte becomes a word, which is sent. Error 26 if the reading end is
    /// closed.
    #[inline(always)]
    #[tactic(auto, unfolding(its_plain::specs::Machine::View::view))]
    pub(crate) fn siot_sends(&self, link: u8) -> Result<NextMove, Halt>
        ensures { outcome (looks self.now) self.now.ask.now result ≡ siot_sends (looks self.now) self.now.ask.now link }
    {
        match self.next_byte(false, false) {
            Ok(next) => self.siot_send(next, link),
            Err(halt) => Err(halt),
        }
    }

    /// The byte of the next pointer is sent through a link.
    #[inline(always)]
    #[tactic(auto, using(its_shared::proofs::StopLaws::loaded_fits), unfolding(its_plain::specs::Machine::View::view))]
    fn siot_send(&self, next: Word, link: u8) -> Result<NextMove, Halt>
        requires { has_size next ≡ true }
        ensures { outcome (looks self.now) self.now.ask.now result ≡ siot_send (looks self.now) self.now.ask.now next (input self.now.ask.now 2) link }
    {
        let Some(word) = self.seen.core.word(self.slot, next.right()) else {
            return Err(Halt::Bit(Fault::Mpv));
        };
        if self.seen.pipes.is_unread(link) {
            return Err(Halt::Error(error::NOBODY_READS));
        }
        if self.seen.pipes.is_crowded(link) {
            return Err(Halt::Later(Wait::Room(link)));
        }
        let word = Word::new(load(next, word));
        Ok(one_moved(Shift::Send { link, word }, None, next, self.input(2)))
    }
}
