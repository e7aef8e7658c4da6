//! What calls change in channels and files: channels opened, set and closed, words of drafts, and
//! files.
ghost use Rattle.std.specs.Prelude.{◌≡◌, ◌<◌, true, false, is_some, slice_set};
ghost use Rattle.its_files.specs.Files.{entry_at};
ghost use Rattle.its_plain.specs.Call.File.{has_file};
ghost use Rattle.its_plain.specs.Machine.Change.{files_after_close, in_job, with_new_names, without_file};
ghost use Rattle.its_plain.specs.Machine.{Shut};
ghost use Rattle.its_plain.specs.Machine.Own.{at_position, names_of, on_channel, opened_on, with_word};
ghost use Rattle.its_frame.specs.declared.change.Opened.TheVariants.{Reading as Reads, Writing as Writes};
ghost use Rattle.its_shared.specs.Across.{channel_at, IsElsewhere};
ghost use Rattle.its_shared.specs.Can.{CanOpen, chan_in, CanClose, HasJob, HasRoom, Unread};
ghost use Rattle.its_shared.specs.Parts.{chan_of};
ghost use Rattle.its_direct.specs.Effects.{Becomes, ChannelBecomes};
ghost use Rattle.its_direct.specs.Plain.{machine_of, Tidy};

use crate::plain::Plain;
use its_frame::Opened;
use its_records::{Channel, Job};
use its_word::{Slot, Word, within};

impl Plain {
    /// What a channel of a slot's job is on; closed if the slot is empty.
    pub(crate) fn channel(&self, slot: Slot, n: u8) -> Channel
        requires channel { n < 16 }
        ensures { result ≡ channel_at self.now.jobs slot n }
    {
        match self.jobs.job(slot) {
            Some(job) => job.channels[usize::from(n)],
            None => Channel::Closed,
        }
    }

    /// Writes a channel of a slot's job, if it has one.
    #[tactic(auto, using(crate::proofs::ChannelLaws::channel_missing))]
    fn set_channel(&mut self, slot: Slot, n: u8, channel: Channel)
        requires channel { n < 16 }
        ensures { ChannelBecomes self.old self.new slot n channel self.old.files }
    {
        if let Some(job) = self.job(slot) {
            self.put_job(slot, with_channel(job, n, channel));
        }
    }

    /// Sets a channel that is on no file and no draft to what is on none either.
    pub(crate) fn put_channel(&mut self, slot: Slot, n: u8, channel: Channel)
        requires channel { n < 16 }
        requires old { IsElsewhere (channel_at self.old.jobs slot n) }
        requires new { IsElsewhere channel }
        requires tidy { Tidy self.old }
        ensures row { Becomes self.old self.new (in_job (machine_of self.old) slot (on_channel n (λ c. chan_of self.old.files channel))) }
        ensures tidy { Tidy self.new }
    {
        within(slot);
        self.set_channel(slot, n, channel);
    }

    /// Opens a closed channel of a slot's job on a console, a file, a new draft or another job.
    #[tactic(auto, using(crate::proofs::ChannelLaws::closed_elsewhere))]
    pub(crate) fn open_channel(&mut self, slot: Slot, n: u8, on: Opened)
        requires channel { n < 16 }
        requires job { HasJob (machine_of self.old) slot }
        requires closed { chan_in (machine_of self.old) slot n ≡ Shut }
        requires can { CanOpen on (machine_of self.old) }
        requires tidy { Tidy self.old }
        ensures row { Becomes self.old self.new (in_job (machine_of self.old) slot (on_channel n (λ c. opened_on on))) }
        ensures tidy { Tidy self.new }
    {
        match on {
            Opened::TtyIn => self.put_channel(slot, n, Channel::TtyIn),
            Opened::TtyOut => self.put_channel(slot, n, Channel::TtyOut),
            Opened::Reading { d, x, y } => self.open_file(slot, n, d, x, y),
            Opened::Writing { d, x, y } => self.open_draft(slot, n, d, x, y),
            Opened::Usr { slot: s, write } => {
                let on = Channel::Usr {
                    slot: s,
                    write,
                    at: 0,
                };
                self.put_channel(slot, n, on);
            }
        }
    }

    /// Opens a closed channel on a file, at its first word.
    pub(crate) fn open_file(&mut self, slot: Slot, n: u8, d: Word, x: Word, y: Word)
        requires channel { n < 16 }
        requires job { HasJob (machine_of self.old) slot }
        requires closed { chan_in (machine_of self.old) slot n ≡ Shut }
        requires file { has_file (names_of d x y) (machine_of self.old).files ≡ true }
        requires tidy { Tidy self.old }
        ensures row { Becomes self.old self.new (in_job (machine_of self.old) slot (on_channel n (λ c. opened_on (Reads d x y)))) }
        ensures tidy { Tidy self.new }
    {
        within(slot);
        if let Some(file) = self.files.find(d, x, y) {
            self.files.open_read(file);
            self.set_channel(slot, n, Channel::Reading { file, at: 0 });
        }
    }

    /// Opens a closed channel on a draft of no words.
    pub(crate) fn open_draft(&mut self, slot: Slot, n: u8, d: Word, x: Word, y: Word)
        requires channel { n < 16 }
        requires job { HasJob (machine_of self.old) slot }
        requires closed { chan_in (machine_of self.old) slot n ≡ Shut }
        requires tidy { Tidy self.old }
        ensures row { Becomes self.old self.new (in_job (machine_of self.old) slot (on_channel n (λ c. opened_on (Writes d x y)))) }
        ensures tidy { Tidy self.new }
    {
        within(slot);
        let draft = self.files.draft(d, x, y);
        self.set_channel(slot, n, Channel::Writing { draft });
    }

    /// Closes a channel. A draft on it is dropped.
    pub(crate) fn shut(&mut self, slot: Slot, n: u8)
        requires channel { n < 16 }
        requires tidy { Tidy self.old }
        ensures row { Becomes self.old self.new (in_job (machine_of self.old) slot (on_channel n (λ c. Shut))) }
        ensures superiors { self.new.jobs.superiors ≡ self.old.jobs.superiors }
        ensures tidy { Tidy self.new }
    {
        within(slot);
        match self.channel(slot, n) {
            Channel::Writing { draft } => {
                self.files.discard(draft);
                self.set_channel(slot, n, Channel::Closed);
            }
            Channel::Reading { file, .. } => {
                self.files.close_read(file);
                self.set_channel(slot, n, Channel::Closed);
            }
            _ => self.set_channel(slot, n, Channel::Closed),
        }
    }

    /// Sets the position of a channel, in words.
    pub(crate) fn move_to(&mut self, slot: Slot, n: u8, at: u32)
        requires channel { n < 16 }
        requires tidy { Tidy self.old }
        ensures row { Becomes self.old self.new (in_job (machine_of self.old) slot (on_channel n (at_position at))) }
        ensures tidy { Tidy self.new }
    {
        within(slot);
        match self.channel(slot, n) {
            Channel::Reading { file, .. } => {
                self.seek(file, at);
                self.set_channel(slot, n, Channel::Reading { file, at });
            }
            Channel::Usr { slot: s, write, .. } => {
                self.set_channel(slot, n, Channel::Usr { slot: s, write, at });
            }
            _ => {}
        }
    }

    /// Makes it quick to read a file from a word on.
    fn seek(&mut self, file: u32, at: u32)
        requires { is_some (entry_at self.old.files file) ≡ true }
        ensures { self.new ≡ self.old }
    {
        self.files.seek(file, at);
    }

    /// Appends a word to the draft of a channel, which has room for it.
    pub(crate) fn append(&mut self, slot: Slot, n: u8, word: Word)
        requires channel { n < 16 }
        requires room { HasRoom (machine_of self.old) (chan_in (machine_of self.old) slot n) }
        requires tidy { Tidy self.old }
        ensures row { Becomes self.old self.new (in_job (machine_of self.old) slot (on_channel n (with_word word))) }
        ensures tidy { Tidy self.new }
    {
        within(slot);
        self.files.seen();
        if let Channel::Writing { draft } = self.channel(slot, n) {
            match self.files.append(draft, word) {
                Ok(()) => {}
                Err(_) => unreachable!(),
            }
        }
    }

    /// Closes a channel on a draft, which becomes a file: all parts of the close are made at once.
    pub(crate) fn close(&mut self, slot: Slot, n: u8)
        requires channel { n < 16 }
        requires closes { CanClose (machine_of self.old) (chan_in (machine_of self.old) slot n) }
        requires tidy { Tidy self.old }
        ensures row { Becomes self.old self.new (record (in_job (machine_of self.old) slot (on_channel n (λ c. Shut))) { files = files_after_close (chan_in (machine_of self.old) slot n) (machine_of self.old).files }) }
        ensures tidy { Tidy self.new }
    {
        self.files.seen();
        if let Channel::Writing { draft } = self.channel(slot, n) {
            match self.files.begin_close(draft, slot.number()) {
                Ok(()) => {}
                Err(_) => unreachable!(),
            }
            self.files.seen();
            self.files.help();
            self.set_channel(slot, n, Channel::Closed);
        }
    }

    /// Deletes the file with these names, which no channel reads.
    pub(crate) fn delete(&mut self, d: Word, x: Word, y: Word)
        requires file { has_file (names_of d x y) (machine_of self.old).files ≡ true }
        requires unread { Unread (machine_of self.old) (names_of d x y) }
        requires tidy { Tidy self.old }
        ensures row { Becomes self.old self.new (record (machine_of self.old) { files = without_file (names_of d x y) (machine_of self.old).files }) }
        ensures tidy { Tidy self.new }
    {
        self.files.seen();
        if let Some(file) = self.files.find(d, x, y) {
            match self.files.delete(file) {
                Ok(()) => {}
                Err(_) => unreachable!(),
            }
        }
    }

    /// Gives the file with these names, which no channel reads, other names in its directory, which
    /// no file has.
    pub(crate) fn rename(&mut self, d: Word, x: Word, y: Word, new_x: Word, new_y: Word)
        requires file { has_file (names_of d x y) (machine_of self.old).files ≡ true }
        requires unread { Unread (machine_of self.old) (names_of d x y) }
        requires fresh { has_file (names_of d new_x new_y) (machine_of self.old).files ≡ false }
        requires tidy { Tidy self.old }
        ensures row { Becomes self.old self.new (record (machine_of self.old) { files = with_new_names (names_of d x y) new_x new_y (machine_of self.old).files }) }
        ensures tidy { Tidy self.new }
    {
        self.files.seen();
        if let Some(file) = self.files.find(d, x, y) {
            match self.files.rename(file, new_x, new_y) {
                Ok(()) => {}
                Err(_) => unreachable!(),
            }
        }
    }
}

/// Registers with a channel set.
fn with_channel(job: Job, n: u8, channel: Channel) -> Job
    requires { n < 16 }
    ensures { result ≡ record job { channels = slice_set job.channels n channel } }
{
    let mut set = job;
    set.channels[usize::from(n)] = channel;
    set
}
