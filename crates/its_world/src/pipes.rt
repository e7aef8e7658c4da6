//! Channels of jobs on links between jobs, with the ends of the links; and the words that jobs send
//! and receive.

ghost use Rattle.std.specs.Prelude.{◌≡◌, ◌<◌, true, Some, is_some, length, option_map, slice_get};
ghost use Rattle.its_records.specs.Links.{most_links, most_link_words};
ghost use Rattle.its_frame.specs.declared.change.Change.TheVariants.{Join, CloseEnd, Receive, Send};
ghost use Rattle.its_plain.specs.Call.Link.{words_in};
ghost use Rattle.its_plain.specs.Machine.Change.{after_end_close, link_or_new, with_end_opened, with_received, with_sent};
ghost use Rattle.its_plain.specs.Machine.{Linked, Shut};
ghost use Rattle.its_plain.specs.Operator.State.{has_unopened, with_end_closed};
ghost use Rattle.its_stepped.specs.Commit.{effect_on};
ghost use Rattle.its_pipes.specs.Pipes.{piped};
ghost use Rattle.its_world.specs.Filed.{LinkWritten};
ghost use Rattle.its_world.specs.Storage.{HasJob, chan_in};
ghost use Rattle.its_world.specs.Tidy.{Tidy};
ghost use Rattle.its_world.specs.World.{state_of, LinkBecomes};

use super::world::World;
use its_records::Channel;
use its_word::{Slot, Word};

impl World {
    /// Opens an end of a link on a closed channel of a slot's job: its writing end or its reading
    /// end. If the number has no link, one is made with these names.
    pub fn join(&mut self, slot: Slot, n: u8, link: u8, write: bool, x: Word, y: Word)
        requires channel { n < 16 }
        requires link { link < most_links }
        requires job { HasJob (state_of self.old) slot }
        requires closed { chan_in (state_of self.old) slot n ≡ Shut }
        requires tidy { Tidy self.old }
        ensures row { state_of self.new ≡ effect_on (Join n link write x y) slot (state_of self.old) }
        ensures tidy { Tidy self.new }
        ensures pages { self.new.core.frames ≡ self.old.core.frames }
    {
        self.open_end(slot, n, link, write, x, y);
        self.put_channel(slot, n, Channel::Link { link, write });
    }

    /// Opens the end alone. Those that wait at the link are put where they belong.
    #[tactic(auto, using(crate::proofs::WorldLaws::link_becomes))]
    fn open_end(&mut self, slot: Slot, n: u8, link: u8, write: bool, x: Word, y: Word)
        requires { link < most_links }
        ensures { LinkBecomes self.old self.new link (Some (with_end_opened write slot n (link_or_new x y (piped self.old.pipes link)))) }
    {
        self.write_joined(slot, n, link, write, x, y);
        self.resettle_link(link);
    }

    /// Writes the end that is opened; those that wait keep their places.
    fn write_joined(&mut self, slot: Slot, n: u8, link: u8, write: bool, x: Word, y: Word)
        requires { link < most_links }
        ensures { LinkWritten self.old self.new link (Some (with_end_opened write slot n (link_or_new x y (piped self.old.pipes link)))) }
    {
        self.pipes.join(link, write, slot.number(), n, x, y);
    }

    /// Closes a channel of a slot's job that is on an end of a link, and the end with it. A link
    /// without an open end is gone with its words.
    pub fn close_link(&mut self, slot: Slot, n: u8, link: u8, write: bool)
        requires channel { n < 16 }
        requires link { link < most_links }
        requires on { chan_in (state_of self.old) slot n ≡ Linked link write }
        requires tidy { Tidy self.old }
        ensures row { state_of self.new ≡ effect_on (CloseEnd n link write) slot (state_of self.old) }
        ensures tidy { Tidy self.new }
        ensures pages { self.new.core.frames ≡ self.old.core.frames }
    {
        self.close_end(link, write);
        self.put_channel(slot, n, Channel::Closed);
    }

    /// Closes the end alone. Those that wait at the link are put where they belong.
    #[tactic(auto, using(crate::proofs::WorldLaws::link_becomes))]
    fn close_end(&mut self, link: u8, write: bool)
        requires { link < most_links }
        ensures { LinkBecomes self.old self.new link (after_end_close write (piped self.old.pipes link)) }
    {
        self.write_parted(link, write);
        self.resettle_link(link);
    }

    /// Writes the end that is closed; those that wait keep their places.
    fn write_parted(&mut self, link: u8, write: bool)
        requires { link < most_links }
        ensures { LinkWritten self.old self.new link (after_end_close write (piped self.old.pipes link)) }
    {
        self.pipes.close_end(link, write);
    }

    /// Closes an end of a link that nobody has opened. Those that wait at the link are put where
    /// they belong.
    #[tactic(auto, using(crate::proofs::WorldLaws::link_becomes))]
    pub fn shut_end(&mut self, link: u8, write: bool)
        requires link { link < most_links }
        requires unopened { has_unopened write (piped self.old.pipes link) ≡ true }
        ensures { LinkBecomes self.old self.new link (option_map (with_end_closed write) (piped self.old.pipes link)) }
    {
        self.write_shut(link, write);
        self.resettle_link(link);
    }

    /// Writes the end that is closed; those that wait keep their places.
    fn write_shut(&mut self, link: u8, write: bool)
        requires link { link < most_links }
        requires unopened { has_unopened write (piped self.old.pipes link) ≡ true }
        ensures { LinkWritten self.old self.new link (option_map (with_end_closed write) (piped self.old.pipes link)) }
    {
        self.pipes.shut_end(link, write);
    }

    /// Puts a word at the end of a link, which has room.
    #[tactic(auto, using(crate::proofs::WorldLaws::link_becomes))]
    pub fn send(&mut self, link: u8, word: Word)
        requires link { link < most_links }
        requires stands { is_some (piped self.old.pipes link) ≡ true }
        requires room { length (words_in (piped self.old.pipes link)) < most_link_words }
        ensures { LinkBecomes self.old self.new link (option_map (with_sent word) (piped self.old.pipes link)) }
    {
        self.write_sent(link, word);
        self.resettle_link(link);
    }

    /// Writes the word that is sent; those that wait keep their places.
    fn write_sent(&mut self, link: u8, word: Word)
        requires link { link < most_links }
        requires stands { is_some (piped self.old.pipes link) ≡ true }
        requires room { length (words_in (piped self.old.pipes link)) < most_link_words }
        ensures { LinkWritten self.old self.new link (option_map (with_sent word) (piped self.old.pipes link)) }
    {
        self.pipes.send(link, word);
    }

    /// Takes the first word of a link; None if it has none.
    #[tactic(auto, using(crate::proofs::WorldLaws::link_becomes))]
    pub fn receive(&mut self, link: u8) -> Option<Word>
        requires { link < most_links }
        ensures first { result ≡ slice_get (words_in (piped self.old.pipes link)) 0 }
        ensures rest { LinkBecomes self.old self.new link (option_map with_received (piped self.old.pipes link)) }
    {
        let word = self.write_received(link);
        self.resettle_link(link);
        word
    }

    /// Takes a word; those that wait keep their places.
    fn write_received(&mut self, link: u8) -> Option<Word>
        requires { link < most_links }
        ensures first { result ≡ slice_get (words_in (piped self.old.pipes link)) 0 }
        ensures rest { LinkWritten self.old self.new link (option_map with_received (piped self.old.pipes link)) }
    {
        self.pipes.receive(link)
    }
}
