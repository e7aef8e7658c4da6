//! The files that the operator reads and makes: DIR, SHOW and FILE.
ghost use Rattle.std.specs.Prelude.{◌≡◌, ◌<◌, true, Some, None, Ok, Err, IfSome, IfOk, OnOk, OnErr, IfErr, is_some, option_map, length, slice_get};
ghost use Rattle.its_files.specs.Files.{entry_at, is_file, names_at, words_at, found, after_help, directory, file_at, most_files};
ghost use Rattle.its_plain.specs.Machine.Own.{names_of};
ghost use Rattle.its_plain.specs.Call.File.{file_named};
ghost use Rattle.its_plain.specs.Operator.Files.{is_in, files_in, show_of, with_file_made, with_word_added};
ghost use Rattle.its_stepped.specs.State.{plain};
ghost use Rattle.its_stepped.specs.Unwind.{help};
ghost use Rattle.its_world.specs.World.{state_of, plain_of};
ghost use Rattle.its_world.specs.Tidy.{Tidy};
ghost use Rattle.its_records.specs.Refusals.{reason_of};
ghost use Rattle.its_monitor.specs.Kept.{Kept, Lands, Helped, FileRefused, CloseMade};
ghost use Rattle.its_monitor.specs.Filing.{word_if, length_if};

use super::monitor::Monitor;
use its_files::MOST_FILES;
use its_records::{FileShow, Refusal};
use its_word::Word;
use its_world::World;

impl Monitor {
    /// One line of DIR: the k-th file of a directory, from 0, in the order of its files; None past
    /// the last. The pending parts of a close are performed first.
    #[tactic(auto, using(crate::proofs::DirLaws::dir_shown, crate::proofs::DirLaws::dir_past, crate::proofs::FileLaws::helped_plain))]
    pub fn dir(&mut self, d: Word, k: u32) -> Option<FileShow>
        requires kept { Kept self.old.world }
        ensures shown { result ≡ option_map show_of (slice_get (files_in d (plain_of self.old.world).files) k) }
        ensures plain { plain_of self.new.world ≡ plain_of self.old.world }
        ensures state { state_of self.new.world ≡ help (state_of self.old.world) }
        ensures files { self.new.world.files ≡ after_help self.old.world.files }
        ensures alone { CloseMade self.old.world self.new.world }
        ensures kept { Kept self.new.world }
    {
        let world = &mut self.world;
        help(world);
        match file_in(world, d, k) {
            Some(id) => Some(show_of(world, id)),
            None => None,
        }
    }

    /// The number of the file with a directory and two names. NoFile if there is none. The pending
    /// parts of a close are performed first.
    #[tactic(auto, using(crate::proofs::FileLaws::file_found, crate::proofs::FileLaws::file_absent, crate::proofs::FileLaws::helped_plain))]
    pub fn file(&mut self, d: Word, x: Word, y: Word) -> Result<u32, Refusal>
        requires kept { Kept self.old.world }
        ensures found { IfOk result (λ id. file_named (names_of d x y) (plain_of self.old.world).files ≡ Some (file_at self.new.world.files id)) }
        ensures file { IfOk result (λ id. is_file (entry_at self.new.world.files id) ≡ true) }
        ensures refused { IfErr result (λ e. (e ≡ Refusal.NoFile) × (file_named (names_of d x y) (plain_of self.old.world).files ≡ None)) }
        ensures plain { plain_of self.new.world ≡ plain_of self.old.world }
        ensures state { state_of self.new.world ≡ help (state_of self.old.world) }
        ensures files { self.new.world.files ≡ after_help self.old.world.files }
        ensures alone { CloseMade self.old.world self.new.world }
        ensures kept { Kept self.new.world }
    {
        let world = &mut self.world;
        help(world);
        match world.files.find(d, x, y) {
            Some(id) => Ok(id),
            None => Err(Refusal::NoFile),
        }
    }

    /// The k-th word of a file, from 0; None past the last, and if no file has this number. The
    /// pending parts of a close are performed first.
    #[tactic(auto, using(crate::proofs::FileLaws::helped_plain))]
    pub fn file_word(&mut self, id: u32, k: u32) -> Option<Word>
        requires kept { Kept self.old.world }
        ensures word { result ≡ word_if (is_file (entry_at self.new.world.files id)) (words_at self.new.world.files id) k }
        ensures plain { plain_of self.new.world ≡ plain_of self.old.world }
        ensures state { state_of self.new.world ≡ help (state_of self.old.world) }
        ensures files { self.new.world.files ≡ after_help self.old.world.files }
        ensures alone { CloseMade self.old.world self.new.world }
        ensures kept { Kept self.new.world }
    {
        let world = &mut self.world;
        help(world);
        if !world.files.is_file(id) {
            return None;
        }
        world.files.word_at(id, k)
    }

    /// How many words a file has; None if no file has this number. The pending parts of a close are
    /// performed first.
    #[tactic(auto, using(crate::proofs::FileLaws::helped_plain))]
    pub fn file_length(&mut self, id: u32) -> Option<u32>
        requires kept { Kept self.old.world }
        ensures length { result ≡ length_if (is_file (entry_at self.new.world.files id)) (words_at self.new.world.files id) }
        ensures plain { plain_of self.new.world ≡ plain_of self.old.world }
        ensures state { state_of self.new.world ≡ help (state_of self.old.world) }
        ensures files { self.new.world.files ≡ after_help self.old.world.files }
        ensures alone { CloseMade self.old.world self.new.world }
        ensures kept { Kept self.new.world }
    {
        let world = &mut self.world;
        help(world);
        if !world.files.is_file(id) {
            return None;
        }
        Some(world.files.length(id))
    }

    /// FILE: makes a file of no words, the last in order, and answers its number. Exists if a file
    /// has these names; Full if there are 256 files. The pending parts of a close are performed
    /// first.
    #[tactic(auto, using(crate::proofs::Groups::file_new_laws))]
    pub fn file_new(&mut self, d: Word, x: Word, y: Word) -> Result<u32, Refusal>
        requires kept { Kept self.old.world }
        ensures done { OnOk result (Lands (help (state_of self.old.world)) (state_of self.new.world) (with_file_made (help (state_of self.old.world)).raw (names_of d x y))) }
        ensures plain { OnOk result (with_file_made (plain_of self.old.world) (names_of d x y) ≡ Ok (plain_of self.new.world)) }
        ensures file { IfOk result (λ id. is_file (entry_at self.new.world.files id) ≡ true) }
        ensures names { IfOk result (λ id. names_at self.new.world.files id ≡ names_of d x y) }
        ensures refused { IfErr result (λ e. FileRefused (state_of self.old.world) (λ m. with_file_made m (names_of d x y)) e) }
        ensures state { OnErr result (state_of self.new.world ≡ help (state_of self.old.world)) }
        ensures files { OnErr result (self.new.world.files ≡ after_help self.old.world.files) }
        ensures alone { OnErr result (CloseMade self.old.world self.new.world) }
        ensures core { self.new.world.core ≡ self.old.world.core }
        ensures kept { Kept self.new.world }
    {
        let world = &mut self.world;
        help(world);
        if world.files.find(d, x, y).is_some() {
            return Err(Refusal::Exists);
        }
        if world.files.count() >= MOST_FILES {
            return Err(Refusal::Full);
        }
        Ok(make_file(world, d, x, y))
    }

    /// One word of a `/` line: one more word at the end of a file. Full if it needs a block and
    /// 2048 are in use. The pending parts of a close are performed first.
    #[tactic(auto, using(crate::proofs::FileLaws::more_done, crate::proofs::FileLaws::more_plain, crate::proofs::FileLaws::more_refused, crate::proofs::FileLaws::helped_unmarked))]
    pub fn file_add(&mut self, id: u32, w: Word) -> Result<(), Refusal>
        requires file { is_file (entry_at (after_help self.old.world.files) id) ≡ true }
        requires kept { Kept self.old.world }
        ensures done { OnOk result (Lands (help (state_of self.old.world)) (state_of self.new.world) (with_word_added (help (state_of self.old.world)).raw (names_at (after_help self.old.world.files) id) w)) }
        ensures plain { OnOk result (with_word_added (plain_of self.old.world) (names_at (after_help self.old.world.files) id) w ≡ Ok (plain_of self.new.world)) }
        ensures file { is_file (entry_at self.new.world.files id) ≡ true }
        ensures names { names_at self.new.world.files id ≡ names_at (after_help self.old.world.files) id }
        ensures refused { IfErr result (λ e. FileRefused (state_of self.old.world) (λ m. with_word_added m (names_at (after_help self.old.world.files) id) w) e) }
        ensures state { OnErr result (state_of self.new.world ≡ help (state_of self.old.world)) }
        ensures files { OnErr result (self.new.world.files ≡ after_help self.old.world.files) }
        ensures alone { OnErr result (CloseMade self.old.world self.new.world) }
        ensures core { self.new.world.core ≡ self.old.world.core }
        ensures kept { Kept self.new.world }
    {
        let world = &mut self.world;
        help(world);
        add_word(world, id, w)
    }
}

/// Performs the pending parts of a close.
#[tactic(auto, using(crate::proofs::FileLaws::helped_is))]
pub fn help(w: &mut World)
    requires kept { Kept w.old }
    ensures { Helped w.old w.new }
{
    w.files.seen();
    make_parts(w);
}

/// Performs the pending parts of a close on the files.
fn make_parts(w: &mut World)
    ensures { CloseMade w.old w.new }
{
    w.files.help();
}

/// The number of the k-th file of a directory.
#[tactic(auto, using(crate::proofs::DirLaws::dir_starts, crate::proofs::DirLaws::dir_found, crate::proofs::DirLaws::dir_passes, crate::proofs::DirLaws::dir_skips, crate::proofs::DirLaws::dir_ends))]
fn file_in(w: &World, d: Word, k: u32) -> Option<u32>
    ensures found { option_map (file_at w.now.files) result ≡ slice_get (files_in d (directory w.now.files)) k }
    ensures file { IfSome result (λ id. is_file (entry_at w.now.files id) ≡ true) }
{
    let mut left = k;
    for i in 0..w.files.count() {
        if let Some(id) = w.files.file_at(i) {
            if is_in(w, d, id) {
                if left == 0 {
                    return Some(id);
                }
                left -= 1;
            }
        }
    }
    None
}

/// Whether a file is one of a directory.
#[tactic(auto, using(its_files::proofs::EntryLaws::file_stands))]
fn is_in(w: &World, d: Word, id: u32) -> bool
    requires { is_file (entry_at w.now.files id) ≡ true }
    ensures { result ≡ is_in d (file_at w.now.files id) }
{
    let names = w.files.names(id);
    let directory = names[0];
    directory == d
}

/// What DIR shows of a file.
#[tactic(auto, using(its_files::proofs::EntryLaws::file_stands))]
fn show_of(w: &World, id: u32) -> FileShow
    requires { is_file (entry_at w.now.files id) ≡ true }
    ensures { result ≡ show_of (file_at w.now.files id) }
{
    let names = w.files.names(id);
    FileShow {
        x: names[1],
        y: names[2],
        length: w.files.length(id),
    }
}

/// Makes a file of no words, the last in order, if no file has its names.
#[tactic(auto, using(crate::proofs::FileLaws::made_stands, crate::proofs::FileLaws::made_names))]
fn make_file(w: &mut World, d: Word, x: Word, y: Word) -> u32
    requires kept { Kept w.old }
    requires unmarked { w.old.files.mark ≡ None }
    requires few { length w.old.files.order < most_files }
    requires fresh { found w.old.files (names_of d x y) ≡ None }
    ensures done { Lands (state_of w.old) (state_of w.new) (with_file_made (state_of w.old).raw (names_of d x y)) }
    ensures file { is_file (entry_at w.new.files result) ≡ true }
    ensures names { names_at w.new.files result ≡ names_of d x y }
    ensures core { w.new.core ≡ w.old.core }
    ensures tidy { Tidy w.new }
{
    w.files.new_file(d, x, y)
}

/// A word more at the end of a file.
#[tactic(auto, using(crate::proofs::FileLaws::added_stands, crate::proofs::FileLaws::added_names, crate::proofs::FileLaws::added_full))]
fn add_word(w: &mut World, id: u32, word: Word) -> Result<(), Refusal>
    requires kept { Kept w.old }
    requires unmarked { w.old.files.mark ≡ None }
    requires file { is_file (entry_at w.old.files id) ≡ true }
    ensures done { OnOk result (Lands (state_of w.old) (state_of w.new) (with_word_added (state_of w.old).raw (names_at w.old.files id) word)) }
    ensures refused { IfErr result (λ e. with_word_added (state_of w.old).raw (names_at w.old.files id) word ≡ Err (reason_of e)) }
    ensures file { is_file (entry_at w.new.files id) ≡ true }
    ensures names { names_at w.new.files id ≡ names_at w.old.files id }
    ensures core { w.new.core ≡ w.old.core }
    ensures tidy { Tidy w.new }
    ensures same { OnErr result (w.new ≡ w.old) }
{
    w.files.seen();
    match w.files.append(id, word) {
        Ok(()) => Ok(()),
        Err(_) => Err(Refusal::Full),
    }
}
