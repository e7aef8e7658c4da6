//! Files and drafts through a channel: OPEN of DSK, ACCESS, FILLEN, and `.IOT` and SIOT of whole
//! words.
ghost use Rattle.std.specs.Prelude.{◌≡◌, ◌==◌, ◌<◌, ◌^◌, [], IfSome, true, length, slice_get, slice_index_or};
ghost use Rattle.its_frame.specs.declared.change.Change.TheVariants.{Append};
ghost use Rattle.its_frame.specs.declared.decision.Decision.TheVariants.{Ends};
ghost use Rattle.its_files.specs.Files.{directory, entry_at, file_at, is_file, names_at};
ghost use Rattle.its_plain.specs.Call.Arguments.{input};
ghost use Rattle.its_plain.specs.Call.File.{access, access_to, file_named, fillen, iot_reads, iot_writes, opens_as, opens_disk, siot_reads, siot_write, siot_writes, words_by, words_of};
ghost use Rattle.its_plain.specs.Machine.Own.{with_advance, exit_of};
ghost use Rattle.its_plain.specs.Call.Tests.{out};
ghost use Rattle.its_word.specs.Byte.{has_size};
ghost use Rattle.its_records.specs.declared.jobs.Channel.TheVariants.{Reading, Writing};
ghost use Rattle.its_shared.specs.Called.{channel_under};
ghost use Rattle.its_decide.specs.Called.{looks};
ghost use Rattle.its_decide.specs.Moving.{outcome};
ghost use Rattle.its_decide.specs.declared.moving.Shift.TheVariants.{Append as ShiftBy};
ghost use Rattle.its_decide.specs.Fits.{SeenFits};

use super::caller::Caller;
use super::ends::ends;
use super::moving::{Halt, NextMove, Shift, one_moved};
use arrayvec::ArrayVec;
use its_bytes::load;
use its_frame::{Change, Decision, Opened, error};
use its_plain::END_OF_FILE;
use its_records::Channel;
use its_word::{ADDRESSES, Fault, Word};

impl Caller<'_> {
    /// OPEN channel, DSK, name 1, name 2, directory: a file for input, or a new draft with control
    /// 1. Errors 4, 22, 6.
    #[tactic(auto, unfolding(its_plain::specs::Call::File::opens_disk, its_plain::specs::Machine::View::view))]
    pub(crate) fn open_disk(&self) -> Decision
        ensures { result ≡ opens_disk (looks self.now) self.now.ask.now }
    {
        let number = self.input(0);
        let control = self.control();
        let names = self.names_from(2);
        if !self.is_free(number) {
            return self.fails(error::BAD_CHANNEL);
        }
        if control > 1 {
            return self.fails(error::OUT_OF_RANGE);
        }
        if control != 1 && !self.has_file(names) {
            return self.fails(error::NO_FILE);
        }
        self.finishes_with(Change::Open {
            channel: number.value() as u8,
            on: opened(control, names),
        })
    }

    /// ACCESS channel, position: the next word that a file gives, or that a channel on an inferior
    /// is at. Errors 4, 5, 22 if the position is past the end.
    #[tactic(auto, using(crate::proofs::Groups::access_laws), unfolding(its_plain::specs::Call::File::access, its_plain::specs::Machine::View::view))]
    pub(crate) fn access(&self) -> Decision
        requires { SeenFits self.now.seen.now }
        ensures { result ≡ access (looks self.now) self.now.ask.now }
    {
        match self.channel(self.input(0)) {
            Channel::Closed => self.fails(error::BAD_CHANNEL),
            Channel::Reading { file, .. } => self.access_to(self.words_of_file(file)),
            Channel::Usr { .. } => self.access_to(ADDRESSES),
            _ => self.fails(error::WRONG_DEVICE),
        }
    }

    /// The position of a channel is set, which is at most this. Error 22 if it is above.
    #[tactic(auto, unfolding(its_plain::specs::Machine::View::view))]
    fn access_to(&self, most: u32) -> Decision
        requires { input self.now.ask.now 0 < 16 }
        ensures { result ≡ access_to (looks self.now) self.now.ask.now most }
    {
        let at = self.input(1).value();
        if at > u64::from(most) {
            return self.fails(error::OUT_OF_RANGE);
        }
        self.finishes_with(self.moves_to(at as u32))
    }

    /// FILLEN channel: how many words a file or a draft has. Errors 4, 5.
    #[tactic(auto, using(crate::proofs::Groups::fillen_laws), unfolding(its_plain::specs::Call::File::fillen, its_plain::specs::Machine::View::view))]
    pub(crate) fn fillen(&self) -> Decision
        requires { SeenFits self.now.seen.now }
        ensures { result ≡ fillen (looks self.now) self.now.ask.now }
    {
        match self.channel(self.input(0)) {
            Channel::Closed => self.fails(error::BAD_CHANNEL),
            Channel::Reading { file, .. } => self.fillen_is(self.words_of_file(file)),
            Channel::Writing { draft } => self.fillen_is(self.seen.files.length(draft)),
            _ => self.fails(error::WRONG_DEVICE),
        }
    }

    /// FILLEN finishes, with a number of words as output.
    fn fillen_is(&self, words: u32) -> Decision
        ensures { result ≡ Ends (record { items = [] }) (record { items = out self.now.ask.now.outputs.items words }) (exit_of (with_advance 2 self.now.job.now)) }
    {
        self.finishes(self.output(Word::new(u64::from(words))))
    }

    /// How many words a file has.
    #[tactic(auto, using(its_shared::proofs::SeenLaws::seen_words, its_files::proofs::EntryLaws::file_stands))]
    fn words_of_file(&self, file: u32) -> u32
        requires { is_file (entry_at self.now.seen.now.files.now file) ≡ true }
        ensures { result ≡ length (words_by (file_named (names_at self.now.seen.now.files.now file) (directory self.now.seen.now.files.now))) }
    {
        self.seen.files.seen();
        self.seen.files.length(file)
    }

    /// The word of a file at a position; None at its end.
    #[tactic(auto, using(its_shared::proofs::SeenLaws::seen_words, its_shared::proofs::SeenLaws::few_words))]
    fn word_of_file(&self, file: u32, at: u32) -> Option<Word>
        requires { is_file (entry_at self.now.seen.now.files.now file) ≡ true }
        ensures word { result ≡ slice_get (words_by (file_named (names_at self.now.seen.now.files.now file) (directory self.now.seen.now.files.now))) at }
        ensures few { IfSome result (λ w. at < 2 ^ 18) }
    {
        self.seen.files.seen();
        self.seen.files.word_at(file, at)
    }

    /// `.IOT` from a file: the word at its position, which is then one more; 777777000003 at its
    /// end. MPV or WRO by the word at E.
    #[tactic(auto, using(crate::proofs::FileLaws::reading), unfolding(its_plain::specs::Machine::View::view))]
    pub(crate) fn iot_reads(&self, file: u32, at: u32) -> Decision
        requires on { channel_under self.now.job.now (input self.now.ask.now 0) ≡ Reading file at }
        requires fits { SeenFits self.now.seen.now }
        ensures { result ≡ iot_reads (looks self.now) (slice_index_or self.now.ask.now.outputs.items 0 0) (input self.now.ask.now 0) (names_at self.now.seen.now.files.now file) at }
    {
        if let Some(fault) = self.bar(self.address()) {
            return self.faults(fault);
        }
        match self.word_of_file(file, at) {
            Some(word) => self.iot_gets(Some(self.moves_to(at + 1)), word),
            None => self.iot_gets(None, Word::new(END_OF_FILE)),
        }
    }

    /// `.IOT` to a draft: the word at E is appended. MPV by that word; IOC if there is no room.
    #[tactic(auto, using(crate::proofs::FileLaws::writing, crate::proofs::FileLaws::seen_full, its_files::proofs::EntryLaws::draft_stands), unfolding(its_plain::specs::Machine::View::view))]
    pub(crate) fn iot_writes(&self, draft: u32) -> Decision
        requires on { channel_under self.now.job.now (input self.now.ask.now 0) ≡ Writing draft }
        requires fits { SeenFits self.now.seen.now }
        ensures { result ≡ iot_writes (looks self.now) (slice_index_or self.now.ask.now.outputs.items 0 0) (input self.now.ask.now 0) (file_at self.now.seen.now.files.now draft) }
    {
        self.seen.files.seen();
        let Some(word) = self.seen.core.word(self.slot, self.address()) else {
            return self.faults(Fault::Mpv);
        };
        if self.seen.files.is_full(draft) {
            return self.ioc();
        }
        ends(Some(self.appends(word)), ArrayVec::new(), self.past(1))
    }

    /// SIOT from a file: the word at its position is held, and stored by the next step.
    #[inline(always)]
    #[tactic(auto, using(crate::proofs::FileLaws::reading), unfolding(its_plain::specs::Machine::View::view))]
    pub(crate) fn siot_reads(&self, file: u32, at: u32) -> Result<NextMove, Halt>
        requires on { channel_under self.now.job.now (input self.now.ask.now 0) ≡ Reading file at }
        requires fits { SeenFits self.now.seen.now }
        ensures { outcome (looks self.now) self.now.ask.now result ≡ siot_reads (looks self.now) self.now.ask.now (input self.now.ask.now 0) at (slice_get (words_of (looks self.now) (names_at self.now.seen.now.files.now file)) at) }
    {
        let word = self.word_of_file(file, at);
        match self.next_byte(true, word.is_none()) {
            Ok(next) => self.siot_gets(next, at, word.unwrap_or(Word::ZERO)),
            Err(halt) => Err(halt),
        }
    }

    /// SIOT to a draft. Error 10 if there is no room.
    #[inline(always)]
    #[tactic(auto, unfolding(its_plain::specs::Machine::View::view))]
    pub(crate) fn siot_writes(&self, draft: u32) -> Result<NextMove, Halt>
        requires on { channel_under self.now.job.now (input self.now.ask.now 0) ≡ Writing draft }
        requires fits { SeenFits self.now.seen.now }
        ensures { outcome (looks self.now) self.now.ask.now result ≡ siot_writes (looks self.now) self.now.ask.now (input self.now.ask.now 0) (file_at self.now.seen.now.files.now draft) }
    {
        match self.next_byte(true, false) {
            Ok(next) => self.siot_write(next, draft),
            Err(halt) => Err(halt),
        }
    }

    /// SIOT to a draft once no test of its arguments stops it: the byte becomes a word at its end.
    /// Error 10 if there is no room.
    #[inline(always)]
    #[tactic(auto, using(crate::proofs::Groups::siot_write_laws), unfolding(its_plain::specs::Machine::View::view))]
    fn siot_write(&self, next: Word, draft: u32) -> Result<NextMove, Halt>
        requires on { channel_under self.now.job.now (input self.now.ask.now 0) ≡ Writing draft }
        requires size { has_size next ≡ true }
        requires fits { SeenFits self.now.seen.now }
        ensures { outcome (looks self.now) self.now.ask.now result ≡ siot_write (looks self.now) self.now.ask.now next (input self.now.ask.now 2) (input self.now.ask.now 0) (file_at self.now.seen.now.files.now draft) }
    {
        self.seen.files.seen();
        let Some(word) = self.seen.core.word(self.slot, next.right()) else {
            return Err(Halt::Bit(Fault::Mpv));
        };
        if self.seen.files.is_full(draft) {
            return Err(Halt::Error(error::DEVICE_FULL));
        }
        Ok(one_moved(
            self.shifts_by(Word::new(load(next, word))),
            None,
            next,
            self.input(2),
        ))
    }

    /// The draft of a call's channel gets a word more.
    fn appends(&self, word: Word) -> Change
        requires { input self.now.ask.now 0 < 16 }
        ensures { result ≡ Append (input self.now.ask.now 0) word }
    {
        Change::Append {
            channel: self.input(0).value() as u8,
            word,
        }
    }

    /// What SIOT changes outside the job if a word is added to the draft of its channel.
    #[inline(always)]
    fn shifts_by(&self, word: Word) -> Shift
        requires { input self.now.ask.now 0 < 16 }
        ensures { result ≡ ShiftBy (input self.now.ask.now 0) word }
    {
        Shift::Append {
            channel: self.input(0).value() as u8,
            word,
        }
    }
}

/// What the control argument opens a file with these names for.
fn opened(control: u64, names: [Word; 3]) -> Opened
    ensures { result ≡ opens_as (control == 1) (slice_index_or names 0 0) (slice_index_or names 1 0) (slice_index_or names 2 0) }
{
    let [d, x, y] = names;
    if control == 1 {
        Opened::Writing { d, x, y }
    } else {
        Opened::Reading { d, x, y }
    }
}
