//! Channels of jobs with what they are on: the readers of files, and drafts.

ghost use Rattle.std.specs.Prelude.{◌≡◌, ◌<◌, ℕ, true, false, None, Some, is_some};
ghost use Rattle.its_jobs.specs.Table.{job_at};
ghost use Rattle.its_frame.specs.declared.change.Change.TheVariants.{Open, Shut as Shuts, Move, Append, Close, Delete, Rename};
ghost use Rattle.its_frame.specs.declared.change.Opened.TheVariants.{Reading as Reads, Writing as Writes};
ghost use Rattle.its_plain.specs.Machine.{Shut};
ghost use Rattle.its_plain.specs.Machine.Own.{names_of, on_channel};
ghost use Rattle.its_plain.specs.Call.File.{has_file};
ghost use Rattle.its_stepped.specs.Commit.{effect_on};
ghost use Rattle.its_world.specs.World.{state_of, chan_of, in_raw};
ghost use Rattle.its_world.specs.Tidy.{Tidy, channel_at};
ghost use Rattle.its_world.specs.Storage.{HasJob, chan_in, IsElsewhere, IsDraft, Unread, HasRoom, CanClose, ChannelBecomes, ChannelWritten};

use super::world::World;
use its_records::Channel;
use its_word::{Slot, Word, within};

impl World {
    /// What a channel of a slot's job is on; closed if the slot is empty.
    pub fn channel(&self, slot: Slot, n: u8) -> Channel
        requires channel { n < 16 }
        ensures { result ≡ channel_at self.now.jobs slot n }
    {
        match self.jobs.job(slot) {
            Some(job) => job.channels[usize::from(n)],
            None => Channel::Closed,
        }
    }

    /// Writes a channel of a slot's job, if it has one.
    #[tactic(auto, using(crate::proofs::StorageLaws::channel_becomes, crate::proofs::StorageLaws::channel_missing, crate::proofs::StorageLaws::job_missing))]
    fn set_channel(&mut self, slot: Slot, n: u8, channel: Channel)
        requires channel { n < 16 }
        ensures { ChannelBecomes self.old self.new slot n channel self.old.files }
    {
        if self.jobs.job(slot).is_some() {
            self.write_channel(slot, n, channel);
            self.refile(slot);
        }
    }

    /// Writes a channel of a slot's job, which keeps its place on the wait lists.
    #[tactic(auto, using(crate::proofs::StorageLaws::channel_written))]
    fn write_channel(&mut self, slot: Slot, n: u8, channel: Channel)
        requires channel { n < 16 }
        requires some { is_some (job_at self.old.jobs slot) ≡ true }
        ensures { ChannelWritten self.old self.new slot n channel }
    {
        if let Some(job) = self.jobs.job_mut(slot) {
            job.channels[usize::from(n)] = channel;
        }
    }

    /// Sets a channel of a slot's job, if it has one, which is on no file and no draft, to what is
    /// on none either.
    pub fn put_channel(&mut self, slot: Slot, n: u8, channel: Channel)
        requires channel { n < 16 }
        requires old { IsElsewhere (channel_at self.old.jobs slot n) }
        requires new { IsElsewhere channel }
        requires tidy { Tidy self.old }
        ensures row { state_of self.new ≡ in_raw (state_of self.old) slot (on_channel n (λ c. chan_of self.old.files channel)) }
        ensures tidy { Tidy self.new }
        ensures pages { self.new.core.frames ≡ self.old.core.frames }
    {
        within(slot);
        self.set_channel(slot, n, channel);
    }

    /// Opens a file on a closed channel of a slot's job, at its first word.
    pub fn open_file(&mut self, slot: Slot, n: u8, d: Word, x: Word, y: Word)
        requires channel { n < 16 }
        requires job { HasJob (state_of self.old) slot }
        requires closed { chan_in (state_of self.old) slot n ≡ Shut }
        requires file { has_file (names_of d x y) (state_of self.old).raw.files ≡ true }
        requires unmarked { (state_of self.old).mark ≡ None }
        requires tidy { Tidy self.old }
        ensures row { state_of self.new ≡ effect_on (Open n (Reads d x y)) slot (state_of self.old) }
        ensures tidy { Tidy self.new }
        ensures pages { self.new.core.frames ≡ self.old.core.frames }
    {
        within(slot);
        if let Some(file) = self.files.find(d, x, y) {
            self.files.open_read(file);
            self.set_channel(slot, n, Channel::Reading { file, at: 0 });
        }
    }

    /// Makes a draft of no words on a closed channel of a slot's job.
    pub fn open_draft(&mut self, slot: Slot, n: u8, d: Word, x: Word, y: Word)
        requires channel { n < 16 }
        requires job { HasJob (state_of self.old) slot }
        requires closed { chan_in (state_of self.old) slot n ≡ Shut }
        requires unmarked { (state_of self.old).mark ≡ None }
        requires tidy { Tidy self.old }
        ensures row { state_of self.new ≡ effect_on (Open n (Writes d x y)) slot (state_of self.old) }
        ensures tidy { Tidy self.new }
        ensures pages { self.new.core.frames ≡ self.old.core.frames }
    {
        within(slot);
        let draft = self.files.draft(d, x, y);
        self.set_channel(slot, n, Channel::Writing { draft });
    }

    /// Closes a channel of a slot's job. A draft on it is dropped.
    pub fn shut(&mut self, slot: Slot, n: u8)
        requires channel { n < 16 }
        requires tidy { Tidy self.old }
        ensures row { state_of self.new ≡ effect_on (Shuts n) slot (state_of self.old) }
        ensures tidy { Tidy self.new }
        ensures pages { self.new.core.frames ≡ self.old.core.frames }
    {
        within(slot);
        match self.channel(slot, n) {
            Channel::Reading { file, .. } => {
                self.files.close_read(file);
                self.set_channel(slot, n, Channel::Closed);
            }
            Channel::Writing { draft } => {
                self.files.discard(draft);
                self.set_channel(slot, n, Channel::Closed);
            }
            _ => self.set_channel(slot, n, Channel::Closed),
        }
    }

    /// Sets the position of a channel of a slot's job, in words.
    pub fn move_to(&mut self, slot: Slot, n: u8, at: u32)
        requires channel { n < 16 }
        requires tidy { Tidy self.old }
        ensures row { state_of self.new ≡ effect_on (Move n at) slot (state_of self.old) }
        ensures tidy { Tidy self.new }
        ensures pages { self.new.core.frames ≡ self.old.core.frames }
    {
        within(slot);
        match self.channel(slot, n) {
            Channel::Reading { file, .. } => {
                self.files.seek(file, at);
                self.set_channel(slot, n, Channel::Reading { file, at });
            }
            Channel::Usr { slot: s, write, .. } => {
                self.set_channel(slot, n, Channel::Usr { slot: s, write, at });
            }
            _ => {}
        }
    }

    /// Appends a word to the draft of a channel of a slot's job, if it is on one.
    pub fn append(&mut self, slot: Slot, n: u8, word: Word)
        requires channel { n < 16 }
        requires room { HasRoom (state_of self.old) (chan_in (state_of self.old) slot n) }
        requires unmarked { (state_of self.old).mark ≡ None }
        requires tidy { Tidy self.old }
        ensures row { state_of self.new ≡ effect_on (Append n word) slot (state_of self.old) }
        ensures tidy { Tidy self.new }
        ensures pages { self.new.core.frames ≡ self.old.core.frames }
    {
        within(slot);
        self.files.seen();
        if let Channel::Writing { draft } = self.channel(slot, n) {
            match self.files.append(draft, word) {
                Ok(()) => {}
                Err(_) => unreachable!(),
            }
        }
    }

    /// Begins the close of the draft of a channel of a slot's job: the close is marked, and the
    /// channel closed.
    pub fn begin_close(&mut self, slot: Slot, n: u8)
        requires channel { n < 16 }
        requires writes { IsDraft (chan_in (state_of self.old) slot n) }
        requires closes { CanClose (state_of self.old) (chan_in (state_of self.old) slot n) }
        requires unmarked { (state_of self.old).mark ≡ None }
        requires tidy { Tidy self.old }
        ensures row { state_of self.new ≡ effect_on (Close n) slot (state_of self.old) }
        ensures tidy { Tidy self.new }
        ensures pages { self.new.core.frames ≡ self.old.core.frames }
    {
        self.files.seen();
        if let Channel::Writing { draft } = self.channel(slot, n) {
            match self.files.begin_close(draft, slot.number()) {
                Ok(()) => {}
                Err(_) => unreachable!(),
            }
            self.set_channel(slot, n, Channel::Closed);
        }
    }

    /// Deletes a file, if there is one with these names.
    pub fn delete_file(&mut self, d: Word, x: Word, y: Word)
        requires unread { Unread (state_of self.old) (names_of d x y) }
        requires unmarked { (state_of self.old).mark ≡ None }
        requires tidy { Tidy self.old }
        ensures row { (j : ℕ) → state_of self.new ≡ effect_on (Delete d x y) j (state_of self.old) }
        ensures tidy { Tidy self.new }
        ensures pages { self.new.core.frames ≡ self.old.core.frames }
    {
        self.files.seen();
        if let Some(file) = self.files.find(d, x, y) {
            match self.files.delete(file) {
                Ok(()) => {}
                Err(_) => unreachable!(),
            }
        }
    }

    /// Gives a file other names in its directory, if there is one with these names.
    pub fn rename_file(&mut self, d: Word, x: Word, y: Word, new_x: Word, new_y: Word)
        requires unread { Unread (state_of self.old) (names_of d x y) }
        requires fresh { has_file (names_of d new_x new_y) (state_of self.old).raw.files ≡ false }
        requires unmarked { (state_of self.old).mark ≡ None }
        requires tidy { Tidy self.old }
        ensures row { (j : ℕ) → state_of self.new ≡ effect_on (Rename d x y new_x new_y) j (state_of self.old) }
        ensures tidy { Tidy self.new }
        ensures pages { self.new.core.frames ≡ self.old.core.frames }
    {
        self.files.seen();
        if let Some(file) = self.files.find(d, x, y) {
            match self.files.rename(file, new_x, new_y) {
                Ok(()) => {}
                Err(_) => unreachable!(),
            }
        }
    }
}
