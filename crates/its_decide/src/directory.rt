//! The directory as a call sees it: which file has some names, and whether a channel reads it.
//! CLOSE of a draft, DELETE and RENAME.
ghost use Rattle.std.specs.Prelude.{◌≡◌, ◌<◌};
ghost use Rattle.its_files.specs.Files.{directory, file_at, found};
ghost use Rattle.its_plain.specs.Call.Arguments.{input};
ghost use Rattle.its_plain.specs.Call.File.{channels_in, closes_draft, delete, has_file, is_read, names_from, rename};
ghost use Rattle.its_decide.specs.Called.{looks};
ghost use Rattle.its_decide.specs.Directory.{error_of_file, has_readers};
ghost use Rattle.its_decide.specs.Fits.{SeenFits};
ghost use Rattle.its_records.specs.declared.jobs.Channel.TheVariants.{Writing};
ghost use Rattle.its_shared.specs.Called.{channel_under};

use super::caller::Caller;
use its_files::MOST_FILES;
use its_frame::{Change, Decision, error};
use its_plain::DSK;
use its_records::Channel;
use its_word::Word;

impl Caller<'_> {
    /// The directory, name 1 and name 2 of a file, of which the two names and the directory are the
    /// inputs from k on.
    pub(crate) fn names_from(&self, k: usize) -> [Word; 3]
        requires { k < 8 }
        ensures { result ≡ names_from self.now.ask.now k }
    {
        [self.input(k + 2), self.input(k), self.input(k + 1)]
    }

    /// Whether there is a file with these names.
    #[tactic(auto, using(its_shared::proofs::StoreLaws::has_named))]
    pub(crate) fn has_file(&self, names: [Word; 3]) -> bool
        ensures { result ≡ has_file names (directory self.now.seen.now.files.now) }
    {
        self.file(names).is_some()
    }

    /// Whether any channel of any job reads the file with these names.
    #[tactic(auto, using(crate::proofs::FileLaws::seen_read))]
    fn is_read(&self, names: [Word; 3]) -> bool
        requires { SeenFits self.now.seen.now }
        ensures { result ≡ is_read names (channels_in (looks self.now)) }
    {
        self.seen.files.seen();
        self.has_readers(self.file(names))
    }

    /// The number of the file with these names.
    #[tactic(auto, using(its_shared::proofs::SeenLaws::three))]
    fn file(&self, names: [Word; 3]) -> Option<u32>
        ensures { result ≡ found self.now.seen.now.files.now names }
    {
        self.seen.files.find(names[0], names[1], names[2])
    }

    /// Whether a channel reads a file, if there is one.
    fn has_readers(&self, file: Option<u32>) -> bool
        ensures { result ≡ has_readers self.now.seen.now.files.now file }
    {
        match file {
            Some(id) => self.seen.files.readers(id) > 0,
            None => false,
        }
    }

    /// CLOSE of a draft, which becomes the last file, in place of the one with its names. Errors 11
    /// if a channel reads that file, 7 if there is none and there are 256 files.
    #[tactic(auto, using(crate::proofs::Groups::close_draft_laws), unfolding(its_plain::specs::Call::File::closes_draft, its_plain::specs::Machine::View::view))]
    pub(crate) fn close_draft(&self, draft: u32) -> Decision
        requires on { channel_under self.now.job.now (input self.now.ask.now 0) ≡ Writing draft }
        requires fits { SeenFits self.now.seen.now }
        ensures { result ≡ closes_draft (looks self.now) self.now.ask.now (file_at self.now.seen.now.files.now draft) }
    {
        let names = self.seen.files.names(draft);
        if self.is_read(names) {
            return self.fails(error::FILE_LOCKED);
        }
        if !self.has_file(names) && self.seen.files.count() >= MOST_FILES {
            return self.fails(error::DIRECTORY_FULL);
        }
        self.finishes_with(Change::Close {
            channel: self.input(0).value() as u8,
        })
    }

    /// Why a file is neither deleted nor renamed: error 5 if the device is not DSK, 6 if there is
    /// no such file, 11 if a channel reads it.
    #[tactic(auto, unfolding(its_plain::specs::Machine::View::view))]
    fn error_of_file(&self, names: [Word; 3]) -> Option<u8>
        requires { SeenFits self.now.seen.now }
        ensures { result ≡ error_of_file (looks self.now) self.now.ask.now names }
    {
        if self.input(0).value() != DSK {
            Some(error::WRONG_DEVICE)
        } else if !self.has_file(names) {
            Some(error::NO_FILE)
        } else if self.is_read(names) {
            Some(error::FILE_LOCKED)
        } else {
            None
        }
    }

    /// DELETE device, name 1, name 2, directory. Errors 5, 6, 11.
    #[tactic(auto, unfolding(its_plain::specs::Call::File::delete, its_plain::specs::Machine::View::view))]
    pub(crate) fn delete(&self) -> Decision
        requires { SeenFits self.now.seen.now }
        ensures { result ≡ delete (looks self.now) self.now.ask.now }
    {
        let [d, x, y] = self.names_from(1);
        if let Some(error) = self.error_of_file([d, x, y]) {
            return self.fails(error);
        }
        self.finishes_with(Change::Delete { d, x, y })
    }

    /// RENAME device, name 1, name 2, directory, new name 1, new name 2. Errors 5, 6, 11, and 23 if
    /// a file of the directory has the new names, itself included.
    #[tactic(auto, unfolding(its_plain::specs::Call::File::rename, its_plain::specs::Machine::View::view))]
    pub(crate) fn rename(&self) -> Decision
        requires { SeenFits self.now.seen.now }
        ensures { result ≡ rename (looks self.now) self.now.ask.now }
    {
        let [d, x, y] = self.names_from(1);
        let (new_x, new_y) = (self.input(4), self.input(5));
        if let Some(error) = self.error_of_file([d, x, y]) {
            return self.fails(error);
        }
        if self.has_file([d, new_x, new_y]) {
            return self.fails(error::FILE_EXISTS);
        }
        self.finishes_with(Change::Rename {
            d,
            x,
            y,
            new_x,
            new_y,
        })
    }
}
