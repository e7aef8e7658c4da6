//! What the lines DIR, SHOW, STATE and EXAM show.
ghost use Rattle.std.specs.Prelude.{◌≡◌, ◌<◌, ◌≤◌, ◌*◌, ◌+◌, ◌^◌, true, IfSome, length, map, take, drop, option_map};
ghost use Rattle.std.specs.List.{list_all};
ghost use Rattle.its_files.specs.Files.{entry_at, is_file, directory, file_at as file_of, words_at};
ghost use Rattle.its_plain.specs.Call.File.{file_named};
ghost use Rattle.its_plain.specs.Operator.Files.{is_in, files_in, show_of};
ghost use Rattle.its_plain.specs.Machine.Own.{names_of};
ghost use Rattle.its_direct.specs.Plain.{machine_of};

use crate::plain::Plain;
use arrayvec::ArrayVec;
use its_files::Files;
use its_records::FileShow;
use its_word::Word;

/// How many words a line of SHOW has at most.
const ROW: u32 = 8;

impl Plain {
    /// DIR: the numbers of the files of a directory, in their order.
    #[tactic(auto, using(crate::proofs::DirectoryLaws::listed_files))]
    pub fn listed(&self, d: Word) -> ArrayVec<u32, 256>
        ensures files { map (file_of self.now.files) result.items ≡ files_in d (machine_of self.now).files }
        ensures each { list_all (λ id. is_file (entry_at self.now.files id)) result.items ≡ true }
    {
        listed(&self.files, d)
    }

    /// DIR: what is shown of a file.
    pub fn show(&self, id: u32) -> FileShow
        requires { is_file (entry_at self.now.files id) ≡ true }
        ensures { result ≡ show_of (file_of self.now.files id) }
    {
        show_of(&self.files, id)
    }

    /// SHOW: the number of the file with a directory and two names; None if there is none.
    #[tactic(auto, using(crate::proofs::DirectoryLaws::found_file))]
    pub fn file(&self, d: Word, x: Word, y: Word) -> Option<u32>
        ensures found { option_map (file_of self.now.files) result ≡ file_named (names_of d x y) (machine_of self.now).files }
        ensures file { IfSome result (λ id. is_file (entry_at self.now.files id) ≡ true) }
    {
        self.files.find(d, x, y)
    }

    /// SHOW: row k of a file, from 0: up to eight words, from word 8k on.
    pub fn row(&self, id: u32, k: u32) -> ArrayVec<Word, 8>
        requires few { 8 * k + 8 ≤ 2 ^ 32 }
        ensures { result.items ≡ take 8 (drop (8 * k) (words_at self.now.files id)) }
    {
        row(&self.files, id, k)
    }
}

/// The numbers of the files of a directory, in their order.
#[tactic(auto, using(crate::proofs::DirectoryLaws::listing_starts, crate::proofs::DirectoryLaws::listing_ends))]
fn listed(files: &Files, d: Word) -> ArrayVec<u32, 256>
    ensures files { map (file_of files.now) result.items ≡ files_in d (directory files.now) }
    ensures each { list_all (λ id. is_file (entry_at files.now id)) result.items ≡ true }
{
    files.seen();
    let mut ids = ArrayVec::new();
    for k in 0..files.count() {
        if let Some(id) = files.file_at(k) {
            if is_in(files, d, id) {
                ids.push(id);
            }
        }
    }
    ids
}

/// Whether a file is one of a directory.
#[tactic(auto, using(its_files::proofs::EntryLaws::file_stands))]
fn is_in(files: &Files, d: Word, id: u32) -> bool
    requires { is_file (entry_at files.now id) ≡ true }
    ensures { result ≡ is_in d (file_of files.now id) }
{
    let names = files.names(id);
    let directory = names[0];
    directory == d
}

/// What DIR shows of a file.
#[tactic(auto, using(its_files::proofs::EntryLaws::file_stands))]
fn show_of(files: &Files, id: u32) -> FileShow
    requires { is_file (entry_at files.now id) ≡ true }
    ensures { result ≡ show_of (file_of files.now id) }
{
    let names = files.names(id);
    FileShow {
        x: names[1],
        y: names[2],
        length: files.length(id),
    }
}

/// Row k of a file or a draft.
#[tactic(auto, using(crate::proofs::DirectoryLaws::row_starts, crate::proofs::DirectoryLaws::row_more, crate::proofs::DirectoryLaws::row_stays))]
fn row(files: &Files, id: u32, k: u32) -> ArrayVec<Word, 8>
    requires few { 8 * k + 8 ≤ 2 ^ 32 }
    ensures { result.items ≡ take 8 (drop (8 * k) (words_at files.now id)) }
{
    let mut words = ArrayVec::new();
    for i in 0..ROW {
        if let Some(w) = files.word_at(id, ROW * k + i) {
            words.push(w);
        }
    }
    words
}
