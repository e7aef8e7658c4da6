//! What calls change in links between jobs: ends opened and closed, and words sent and received.
ghost use Rattle.std.specs.Prelude.{◌≡◌, ◌<◌, true, Some, is_some, length, option_map};
ghost use Rattle.its_records.specs.Links.{most_links, most_link_words};
ghost use Rattle.its_frame.specs.declared.change.Change.TheVariants.{Join, CloseEnd};
ghost use Rattle.its_plain.specs.Call.Link.{words_in};
ghost use Rattle.its_plain.specs.Machine.Change.{effect, after_end_close, link_or_new, on_link, with_end_opened, with_received, with_sent};
ghost use Rattle.its_plain.specs.Machine.{Linked, Shut};
ghost use Rattle.its_plain.specs.Operator.State.{has_unopened, with_end_closed};
ghost use Rattle.its_shared.specs.Can.{HasJob, chan_in};
ghost use Rattle.its_pipes.specs.Pipes.{piped};
ghost use Rattle.its_direct.specs.Effects.{Becomes, LinkBecomes};
ghost use Rattle.its_direct.specs.Plain.{machine_of, Tidy};

use crate::plain::Plain;
use its_records::Channel;
use its_word::{Slot, Word};

impl Plain {
    /// Opens an end of a link on a closed channel of a slot's job, which is made with these names
    /// if the number has none.
    #[tactic(auto, using(crate::proofs::LinkLaws::still_closed, crate::proofs::LinkLaws::joined_row))]
    pub(crate) fn join(&mut self, slot: Slot, n: u8, link: u8, write: bool, x: Word, y: Word)
        requires channel { n < 16 }
        requires link { link < most_links }
        requires job { HasJob (machine_of self.old) slot }
        requires closed { chan_in (machine_of self.old) slot n ≡ Shut }
        requires tidy { Tidy self.old }
        ensures row { Becomes self.old self.new (effect (Join n link write x y) slot (machine_of self.old)) }
        ensures tidy { Tidy self.new }
    {
        self.open_end(slot, n, link, write, x, y);
        self.put_channel(slot, n, Channel::Link { link, write });
    }

    /// Opens the end alone.
    fn open_end(&mut self, slot: Slot, n: u8, link: u8, write: bool, x: Word, y: Word)
        requires { link < most_links }
        ensures { LinkBecomes self.old self.new link (Some (with_end_opened write slot n (link_or_new x y (piped self.old.pipes link)))) }
    {
        self.pipes.join(link, write, slot.number(), n, x, y);
    }

    /// Closes a channel of a slot's job that is on an end of a link, and the end with it.
    #[tactic(auto, using(crate::proofs::LinkLaws::still_linked, crate::proofs::LinkLaws::parted_row))]
    pub(crate) fn close_link(&mut self, slot: Slot, n: u8, link: u8, write: bool)
        requires channel { n < 16 }
        requires link { link < most_links }
        requires on { chan_in (machine_of self.old) slot n ≡ Linked link write }
        requires tidy { Tidy self.old }
        ensures row { Becomes self.old self.new (effect (CloseEnd n link write) slot (machine_of self.old)) }
        ensures tidy { Tidy self.new }
    {
        self.close_end(link, write);
        self.put_channel(slot, n, Channel::Closed);
    }

    /// Closes the end alone.
    fn close_end(&mut self, link: u8, write: bool)
        requires { link < most_links }
        ensures { LinkBecomes self.old self.new link (after_end_close write (piped self.old.pipes link)) }
    {
        self.pipes.close_end(link, write);
    }

    /// Closes an end of a link that nobody has opened.
    fn shut_end(&mut self, link: u8, write: bool)
        requires link { link < most_links }
        requires unopened { has_unopened write (piped self.old.pipes link) ≡ true }
        ensures { LinkBecomes self.old self.new link (option_map (with_end_closed write) (piped self.old.pipes link)) }
    {
        self.pipes.shut_end(link, write);
    }

    /// Closes an end of a link that nobody has opened: a change of the machine.
    #[tactic(auto, using(crate::proofs::LinkLaws::link_unopened, crate::proofs::LinkLaws::end_shut, crate::proofs::LinkLaws::link_tidy))]
    pub(crate) fn close_unopened(&mut self, link: u8, write: bool)
        requires link { link < most_links }
        requires unopened { has_unopened write ((machine_of self.old).links link) ≡ true }
        requires tidy { Tidy self.old }
        ensures row { Becomes self.old self.new (on_link (machine_of self.old) link (option_map (with_end_closed write))) }
        ensures tidy { Tidy self.new }
    {
        self.shut_end(link, write);
    }

    /// Puts a word at the end of a link, which has room.
    fn send_word(&mut self, link: u8, word: Word)
        requires link { link < most_links }
        requires stands { is_some (piped self.old.pipes link) ≡ true }
        requires room { length (words_in (piped self.old.pipes link)) < most_link_words }
        ensures { LinkBecomes self.old self.new link (option_map (with_sent word) (piped self.old.pipes link)) }
    {
        self.pipes.send(link, word);
    }

    /// Puts a word at the end of a link: a change of the machine.
    #[tactic(auto, using(crate::proofs::LinkLaws::link_there, crate::proofs::LinkLaws::link_room, crate::proofs::LinkLaws::word_sent, crate::proofs::LinkLaws::link_tidy))]
    pub(crate) fn send(&mut self, link: u8, word: Word)
        requires link { link < most_links }
        requires stands { is_some ((machine_of self.old).links link) ≡ true }
        requires room { length (words_in ((machine_of self.old).links link)) < most_link_words }
        requires tidy { Tidy self.old }
        ensures row { Becomes self.old self.new (on_link (machine_of self.old) link (option_map (with_sent word))) }
        ensures tidy { Tidy self.new }
    {
        self.send_word(link, word);
    }

    /// Takes the first word of a link.
    fn receive_word(&mut self, link: u8)
        requires { link < most_links }
        ensures { LinkBecomes self.old self.new link (option_map with_received (piped self.old.pipes link)) }
    {
        let _ = self.pipes.receive(link);
    }

    /// Takes the first word of a link: a change of the machine.
    #[tactic(auto, using(crate::proofs::LinkLaws::word_received, crate::proofs::LinkLaws::link_tidy))]
    pub(crate) fn receive(&mut self, link: u8)
        requires link { link < most_links }
        requires tidy { Tidy self.old }
        ensures row { Becomes self.old self.new (on_link (machine_of self.old) link (option_map with_received)) }
        ensures tidy { Tidy self.new }
    {
        self.receive_word(link);
    }
}
