//! The lines FILE, its words and EOF.
ghost use Rattle.std.specs.Prelude.{◌≡◌, ◌<◌, ◌≤◌, true, None, Ok, Err, OnOk, OnErr, IsOk, IfErr, length};
ghost use Rattle.its_files.specs.Files.{entry_at, found, is_file, most_files, names_at};
ghost use Rattle.its_plain.specs.Operator.Files.{with_file_made, with_word_added, with_words_added};
ghost use Rattle.its_plain.specs.Machine.Own.{names_of};
ghost use Rattle.its_direct.specs.Plain.{machine_of, Tidy};
ghost use Rattle.its_direct.specs.declared.plain.Spot.TheVariants.{Plain as Outside, File as InFile};
ghost use Rattle.its_records.specs.Refusals.{reason_of};
ghost use Rattle.its_direct.specs.Lines.{Keeps};
ghost use Rattle.its_direct.specs.Filing.{Leads};

use crate::plain::{Plain, Spot};
use its_files::MOST_FILES;
use its_records::Refusal;
use its_word::Word;

impl Plain {
    /// FILE: makes a file of no words, the last in order, whose FILE block begins. Exists if a file
    /// has these names; Full if there are 256 files.
    pub fn make_file(&mut self, d: Word, x: Word, y: Word) -> Result<(), Refusal>
        requires tidy { Tidy self.old }
        ensures done { OnOk result (Leads self.old self.new (InFile (names_of d x y)) (with_file_made (machine_of self.old) (names_of d x y))) }
        ensures refused { IfErr result (λ e. with_file_made (machine_of self.old) (names_of d x y) ≡ Err (reason_of e)) }
        ensures same { OnErr result (self.new ≡ self.old) }
        ensures tidy { Tidy self.new }
    {
        match self.add_file(d, x, y) {
            Ok(()) => {
                self.set_place(Spot::File { names: [d, x, y] });
                self.touch_none();
                Ok(())
            }
            Err(e) => Err(e),
        }
    }

    /// Makes a file of no words, the last in order. Exists if a file has these names; Full if there
    /// are 256 files.
    #[tactic(auto, using(crate::proofs::FileLaws::file_exists, crate::proofs::FileLaws::file_full))]
    pub fn add_file(&mut self, d: Word, x: Word, y: Word) -> Result<(), Refusal>
        requires tidy { Tidy self.old }
        ensures done { OnOk result (with_file_made (machine_of self.old) (names_of d x y) ≡ Ok (machine_of self.new)) }
        ensures refused { IfErr result (λ e. with_file_made (machine_of self.old) (names_of d x y) ≡ Err (reason_of e)) }
        ensures same { OnErr result (self.new ≡ self.old) }
        ensures tidy { Tidy self.new }
    {
        if self.files.find(d, x, y).is_some() {
            return Err(Refusal::Exists);
        }
        if self.files.count() >= MOST_FILES {
            return Err(Refusal::Full);
        }
        self.new_file(d, x, y);
        Ok(())
    }

    /// Words of a FILE block: more words at the end of the file with a directory and two names.
    /// NoFile if there is none; Full if they need more blocks than are free; then none of them is
    /// added.
    #[tactic(auto, using(crate::proofs::FileLaws::appended_none))]
    pub fn append_words(&mut self, d: Word, x: Word, y: Word, words: &[Word]) -> Result<(), Refusal>
        requires some { 1 ≤ length words.now }
        requires tidy { Tidy self.old }
        ensures done { OnOk result (Keeps self.old self.new (with_words_added (machine_of self.old) (names_of d x y) words.now)) }
        ensures refused { IfErr result (λ e. with_words_added (machine_of self.old) (names_of d x y) words.now ≡ Err (reason_of e)) }
        ensures same { OnErr result (self.new ≡ self.old) }
        ensures tidy { Tidy self.new }
    {
        match self.files.find(d, x, y) {
            Some(id) => self.append_to(id, words),
            None => Err(Refusal::NoFile),
        }
    }

    /// Adds words at the end of the file with this number. Full if they need more blocks than are
    /// unused; then none of them is added.
    fn append_to(&mut self, id: u32, words: &[Word]) -> Result<(), Refusal>
        requires file { is_file (entry_at self.old.files id) ≡ true }
        requires tidy { Tidy self.old }
        ensures done { OnOk result (Keeps self.old self.new (with_words_added (machine_of self.old) (names_at self.old.files id) words.now)) }
        ensures refused { IfErr result (λ e. with_words_added (machine_of self.old) (names_at self.old.files id) words.now ≡ Err (reason_of e)) }
        ensures same { OnErr result (self.new ≡ self.old) }
        ensures tidy { Tidy self.new }
    {
        self.files.seen();
        if words.len() > self.files.room(id) as usize {
            return Err(Refusal::Full);
        }
        self.add_words(id, words);
        self.touch_none();
        Ok(())
    }

    /// More words at the end of a file, in their order, if there is room for them.
    #[tactic(auto, using(crate::proofs::FileLaws::adding_starts, crate::proofs::FileLaws::adding_ends))]
    fn add_words(&mut self, id: u32, words: &[Word])
        requires file { is_file (entry_at self.old.files id) ≡ true }
        requires room { IsOk (with_words_added (machine_of self.old) (names_at self.old.files id) words.now) }
        requires tidy { Tidy self.old }
        ensures done { with_words_added (machine_of self.old) (names_at self.old.files id) words.now ≡ Ok (machine_of self.new) }
        ensures place { self.new.place ≡ self.old.place }
        ensures tidy { Tidy self.new }
    {
        for k in 0..words.len() {
            self.add_word(id, words[k]);
        }
    }

    /// EOF: the FILE block ends.
    #[tactic(auto, using(crate::proofs::FileLaws::ended, crate::proofs::FileLaws::ended_tidy))]
    pub fn end_file(&mut self)
        requires tidy { Tidy self.old }
        ensures done { Leads self.old self.new Outside (Ok (machine_of self.old)) }
        ensures tidy { Tidy self.new }
    {
        self.set_place(Spot::Plain);
        self.touch_none();
    }

    /// Makes a file of no words, the last in order, if no file has its names.
    fn new_file(&mut self, d: Word, x: Word, y: Word)
        requires tidy { Tidy self.old }
        requires few { length self.old.files.order < most_files }
        requires fresh { found self.old.files (names_of d x y) ≡ None }
        ensures row { with_file_made (machine_of self.old) (names_of d x y) ≡ Ok (machine_of self.new) }
        ensures tidy { Tidy self.new }
    {
        self.files.new_file(d, x, y);
    }

    /// One more word at the end of a file, if there is room for it.
    #[tactic(auto, using(crate::proofs::FileLaws::added_names))]
    fn add_word(&mut self, id: u32, w: Word)
        requires file { is_file (entry_at self.old.files id) ≡ true }
        requires room { IsOk (with_word_added (machine_of self.old) (names_at self.old.files id) w) }
        requires tidy { Tidy self.old }
        ensures row { with_word_added (machine_of self.old) (names_at self.old.files id) w ≡ Ok (machine_of self.new) }
        ensures file { is_file (entry_at self.new.files id) ≡ true }
        ensures names { names_at self.new.files id ≡ names_at self.old.files id }
        ensures place { self.new.place ≡ self.old.place }
        ensures tidy { Tidy self.new }
    {
        self.files.seen();
        match self.files.append(id, w) {
            Ok(()) => {}
            Err(_) => unreachable!(),
        }
    }
}
