//! `Files`: the calls on files and drafts.

ghost use Rattle.std.specs.Prelude.{◌≡◌, ◌≢◌, ◌<◌, ◌≤◌, ◌+◌, ◌-◌, ◌^◌, ℕ, List, [], ◌∷◌, ◌++◌, true, false, Some, None, Ok, Err, length, slice_get, is_err, is_some, option_map, IfOk, IfErr, IfSome, OnOk, OnErr};
ghost use Rattle.its_word.specs.Only.{Only, Same};
ghost use Rattle.its_word.specs.Directory.{same_names, without_names, with_changed, longer, named, closed};
ghost use Rattle.its_links.specs.Lists.{count};
ghost use Rattle.its_files.specs.Blocks.{is_full, room_behind, numbers, blocks, free_blocks, blocks_used};
ghost use Rattle.its_files.specs.Files.{entry_at, is_file, is_draft, names_at, readers_at, words_at, drafts, new_names, found, owed, no_files, with_file, with_draft, with_word, after_discard, delete, rename, with_readers, close, after_unlink_old, after_link_new, after_free_old, after_help, directory, plain_directory, file_at as file_of, marked_draft, one_if, Marked, IsStore, most_files, most_drafts};

use super::blocks::{Blocks, Full, NUMBERS};
use super::directory;
use super::directory::{
    after_link, count_drafts, directory_of, entry_in, found_in, free_number, names_of, number_at,
    parts_owed, readers_of, take_out,
};
use super::entry::{CloseFault, Entry, Locked, Mark, Parts, RenameFault};
use arrayvec::ArrayVec;
use its_records::Owed;
use its_word::{NoMemory, Word, filled};
use std::alloc::Global;
use std::marker::Model;

/// How many files there are at most.
const FILES: usize = 256;

/// That number in the type of `count`.
pub const MOST_FILES: u32 = FILES as u32;

/// The files in their order, the drafts, and the close that is half made. A file or a draft goes by
/// its number, which it keeps.
#[derive(Drop)]
pub struct Files {
    entries: Vec<Option<Entry>>,
    order: ArrayVec<u32, FILES>,
    mark: Option<Mark>,
    blocks: Blocks,
}

impl Model for Files {
    ghost use Rattle.its_files.specs.Files.{Store, IsFiles};

    ghost Value = { Store };

    ghost view = { λ f. record { entries = f.entries.items; order = f.order.items; mark = f.mark; stored = f.blocks } };

    ghost invariant = { λ f. IsFiles f.entries.items f.order.items f.mark f.blocks.texts };
}

impl Files {
    /// Neither files nor drafts. Takes all the memory that they ever need.
    pub fn open(alloc: Global) -> Result<Files, NoMemory>
        ensures { IfOk result (λ f. f ≡ no_files) }
    {
        Ok(Files {
            entries: filled(alloc, None, NUMBERS as usize)?,
            order: ArrayVec::new(),
            mark: None,
            blocks: Blocks::open(alloc)?,
        })
    }

    /// Does nothing, and says what holds of all files and drafts: each block is free or in use,
    /// each file is in the order once, no two files have the same names, and for a mark, its draft
    /// exists, and nobody reads the file that it replaces. `whole` is all that holds of entries,
    /// order, mark and words together.
    pub fn seen(&self)
        ensures blocks { length (free_blocks self.now.stored.chains) + blocks_used self.now.stored ≡ blocks }
        ensures files { length self.now.order ≤ most_files }
        ensures drafts { drafts self.now ≤ most_drafts }
        ensures ordered { (id : ℕ) → count id self.now.order ≡ one_if (is_file (entry_at self.now id)) }
        ensures unique { (i j : ℕ) → is_file (entry_at self.now i) ≡ true → is_file (entry_at self.now j) ≡ true → same_names (names_at self.now i) (names_at self.now j) ≡ true → i ≡ j }
        ensures marked { Marked self.now.entries self.now.mark }
        ensures whole { IsStore self.now }
    {
        let _ = &self.mark;
        self.blocks.seen();
    }

    /// The number of the file with a directory and two names; None if there is none.
    pub fn find(&self, d: Word, x: Word, y: Word) -> Option<u32>
        ensures found { result ≡ found self.now (d ∷ x ∷ y ∷ []) }
        ensures file { IfSome result (λ id. is_file (entry_at self.now id) ≡ true) }
        ensures names { IfSome result (λ id. names_at self.now id ≡ d ∷ x ∷ y ∷ []) }
    {
        found_in(&self.entries, self.order.as_slice(), [d, x, y])
    }

    /// The number of the k-th file in order, from 0; None past the last.
    pub fn file_at(&self, k: u32) -> Option<u32>
        ensures number { result ≡ slice_get self.now.order k }
        ensures file { IfSome result (λ id. is_file (entry_at self.now id) ≡ true) }
    {
        number_at(self.order.as_slice(), k)
    }

    /// Whether a file has a number.
    pub fn is_file(&self, id: u32) -> bool
        ensures { result ≡ is_file (entry_at self.now id) }
    {
        directory::is_file(entry_in(&self.entries, id))
    }

    /// Whether a draft has a number.
    pub fn is_draft(&self, id: u32) -> bool
        ensures { result ≡ is_draft (entry_at self.now id) }
    {
        directory::is_draft(entry_in(&self.entries, id))
    }

    /// How many channels read a file; 0 if there is none.
    pub fn readers(&self, id: u32) -> u32
        ensures { result ≡ readers_at self.now id }
    {
        readers_of(entry_in(&self.entries, id))
    }

    /// How many drafts there are.
    pub fn drafts(&self) -> u32
        ensures { result ≡ drafts self.now }
    {
        count_drafts(&self.entries)
    }

    /// The directory and the two names of a file or a draft.
    pub fn names(&self, id: u32) -> [Word; 3]
        requires { is_some (entry_at self.now id) ≡ true }
        ensures { result ≡ names_at self.now id }
    {
        names_of(entry_in(&self.entries, id))
    }

    /// How many words a file or a draft has.
    pub fn length(&self, id: u32) -> u32
        requires { is_some (entry_at self.now id) ≡ true }
        ensures { result ≡ length (words_at self.now id) }
    {
        self.blocks.length(id)
    }

    /// The k-th word of a file or a draft, from 0; None past the last, and if there is none.
    pub fn word_at(&self, id: u32, k: u32) -> Option<Word>
        ensures { result ≡ slice_get (words_at self.now id) k }
    {
        entry_in(&self.entries, id)?;
        self.blocks.word(id, k)
    }

    /// Makes it quick to read a file or a draft from a word on: keeps the place of that word.
    pub fn seek(&mut self, id: u32, k: u32)
        requires { is_some (entry_at self.old id) ≡ true }
        ensures { self.new ≡ self.old }
    {
        self.blocks.seek(id, k);
    }

    /// The slot that is in the close that is half made.
    pub fn owner(&self) -> Option<u8>
        ensures owner { result ≡ option_map (λ m. m.owner) self.now.mark }
        ensures unmarked { result ≡ None → self.now.mark ≡ None }
    {
        self.mark.map(|mark| mark.owner)
    }

    /// Whether there is no room for a word more at the end of a file or a draft.
    pub fn is_full(&self, id: u32) -> bool
        requires { is_some (entry_at self.now id) ≡ true }
        ensures { result ≡ is_full self.now.stored id }
    {
        self.blocks.is_full(id)
    }

    /// How many words more there is room for at the end of a file or a draft: what its last block
    /// still has, and the free blocks.
    pub fn room(&self, id: u32) -> u32
        requires { is_some (entry_at self.now id) ≡ true }
        ensures { result ≡ room_behind self.now.stored id }
    {
        self.blocks.room(id)
    }

    /// How many files there are.
    pub fn count(&self) -> u32
        ensures { result ≡ length self.now.order }
    {
        self.order.len() as u32
    }

    /// The pending parts of a half made close, in order.
    pub fn owed(&self) -> ArrayVec<Owed, 3>
        ensures { result.items ≡ owed self.now.mark }
    {
        match self.mark {
            Some(mark) => parts_owed(mark.parts),
            None => ArrayVec::new(),
        }
    }

    /// Makes a file of no words, the last in order.
    pub fn new_file(&mut self, d: Word, x: Word, y: Word) -> u32
        requires unmarked { self.old.mark ≡ None }
        requires few { length self.old.order < most_files }
        requires fresh { found self.old (d ∷ x ∷ y ∷ []) ≡ None }
        ensures free { entry_at self.old result ≡ None }
        ensures below { result < numbers }
        ensures made { self.new ≡ with_file self.old result (d ∷ x ∷ y ∷ []) }
        ensures directory { directory self.new ≡ directory self.old ++ record { names = d ∷ x ∷ y ∷ []; words = [] } ∷ [] }
        ensures entry { Only (entry_at self.old) (entry_at self.new) result (Some (Entry.File (d ∷ x ∷ y ∷ []) 0)) }
        ensures words { Only (words_at self.old) (words_at self.new) result [] }
    {
        let id = free_number(&self.entries);
        self.entries[id as usize] = Some(Entry::File {
            names: [d, x, y],
            readers: 0,
        });
        self.order.push(id);
        id
    }

    /// Makes a draft of no words.
    pub fn draft(&mut self, d: Word, x: Word, y: Word) -> u32
        requires unmarked { self.old.mark ≡ None }
        requires few { drafts self.old < most_drafts }
        ensures free { entry_at self.old result ≡ None }
        ensures below { result < numbers }
        ensures made { self.new ≡ with_draft self.old result (d ∷ x ∷ y ∷ []) }
        ensures directory { directory self.new ≡ directory self.old }
        ensures entry { Only (entry_at self.old) (entry_at self.new) result (Some (Entry.Draft (d ∷ x ∷ y ∷ []))) }
        ensures words { Only (words_at self.old) (words_at self.new) result [] }
    {
        let id = free_number(&self.entries);
        self.entries[id as usize] = Some(Entry::Draft { names: [d, x, y] });
        id
    }

    /// One more word at the end of a file or a draft. Full if it needs a block and all are in use.
    pub fn append(&mut self, id: u32, w: Word) -> Result<(), Full>
        requires stands { is_some (entry_at self.old id) ≡ true }
        requires unmarked { self.old.mark ≡ None }
        ensures ok { OnOk result (self.new ≡ with_word self.old id w) }
        ensures file { OnOk result (is_file (entry_at self.old id) ≡ true → directory self.new ≡ with_changed (names_at self.old id) (longer w) (directory self.old)) }
        ensures draft { OnOk result (is_draft (entry_at self.old id) ≡ true → directory self.new ≡ directory self.old) }
        ensures entry { Same (entry_at self.old) (entry_at self.new) }
        ensures words { OnOk result (Only (words_at self.old) (words_at self.new) id (words_at self.old id ++ w ∷ [])) }
        ensures full { is_err result ≡ is_full self.old.stored id }
        ensures same { OnErr result (self.new ≡ self.old) }
    {
        self.blocks.append(id, w)
    }

    /// Drops a draft, which is not the marked one.
    #[tactic(auto, using(crate::proofs::EntryLaws::within))]
    pub fn discard(&mut self, id: u32)
        requires draft { is_draft (entry_at self.old id) ≡ true }
        requires other { marked_draft self.old.mark ≢ Some id }
        ensures dropped { self.new ≡ after_discard self.old id }
        ensures directory { directory self.new ≡ directory self.old }
        ensures plain { plain_directory self.new ≡ plain_directory self.old }
        ensures entry { Only (entry_at self.old) (entry_at self.new) id None }
        ensures words { Only (words_at self.old) (words_at self.new) id [] }
    {
        self.entries[id as usize] = None;
        self.blocks.give_up(id);
    }

    /// Deletes a file. Locked if a channel reads it.
    pub fn delete(&mut self, id: u32) -> Result<(), Locked>
        requires file { is_file (entry_at self.old id) ≡ true }
        requires unmarked { self.old.mark ≡ None }
        ensures ok { OnOk result (delete self.old id ≡ Ok self.new) }
        ensures directory { OnOk result (directory self.new ≡ without_names (names_at self.old id) (directory self.old)) }
        ensures entry { OnOk result (Only (entry_at self.old) (entry_at self.new) id None) }
        ensures words { OnOk result (Only (words_at self.old) (words_at self.new) id []) }
        ensures locked { IfErr result (λ e. delete self.old id ≡ Err e) }
        ensures same { OnErr result (self.new ≡ self.old) }
    {
        if readers_of(entry_in(&self.entries, id)) > 0 {
            return Err(Locked);
        }
        self.entries[id as usize] = None;
        take_out(&mut self.order, id);
        self.blocks.give_up(id);
        Ok(())
    }

    /// Gives a file two other names in its directory; it keeps its place. Locked if a channel reads
    /// it, Exists if a file has these names.
    pub fn rename(&mut self, id: u32, x: Word, y: Word) -> Result<(), RenameFault>
        requires file { is_file (entry_at self.old id) ≡ true }
        requires unmarked { self.old.mark ≡ None }
        ensures ok { OnOk result (rename self.old id x y ≡ Ok self.new) }
        ensures directory { OnOk result (directory self.new ≡ with_changed (names_at self.old id) (named (new_names self.old id x y)) (directory self.old)) }
        ensures entry { OnOk result (Only (entry_at self.old) (entry_at self.new) id (Some (Entry.File (new_names self.old id x y) 0))) }
        ensures words { Same (words_at self.old) (words_at self.new) }
        ensures fault { IfErr result (λ e. rename self.old id x y ≡ Err e) }
        ensures same { OnErr result (self.new ≡ self.old) }
    {
        if readers_of(entry_in(&self.entries, id)) > 0 {
            return Err(RenameFault::Locked);
        }
        let names = [directory_of(&names_of(entry_in(&self.entries, id))), x, y];
        if found_in(&self.entries, self.order.as_slice(), names).is_some() {
            return Err(RenameFault::Exists);
        }
        self.entries[id as usize] = Some(Entry::File { names, readers: 0 });
        Ok(())
    }

    /// A channel more reads a file.
    pub fn open_read(&mut self, id: u32)
        requires file { is_file (entry_at self.old id) ≡ true }
        requires unmarked { self.old.mark ≡ None }
        requires few { readers_at self.old id < 2 ^ 32 - 1 }
        ensures read { self.new ≡ with_readers self.old id (readers_at self.old id + 1) }
        ensures directory { directory self.new ≡ directory self.old }
        ensures entry { Only (entry_at self.old) (entry_at self.new) id (Some (Entry.File (names_at self.old id) (readers_at self.old id + 1))) }
        ensures words { Same (words_at self.old) (words_at self.new) }
    {
        let names = names_of(entry_in(&self.entries, id));
        let readers = readers_of(entry_in(&self.entries, id)) + 1;
        self.entries[id as usize] = Some(Entry::File { names, readers });
    }

    /// A channel that read a file is closed.
    pub fn close_read(&mut self, id: u32)
        requires { 0 < readers_at self.old id }
        ensures read { self.new ≡ with_readers self.old id (readers_at self.old id - 1) }
        ensures directory { directory self.new ≡ directory self.old }
        ensures plain { plain_directory self.new ≡ plain_directory self.old }
        ensures entry { Only (entry_at self.old) (entry_at self.new) id (Some (Entry.File (names_at self.old id) (readers_at self.old id - 1))) }
        ensures words { Same (words_at self.old) (words_at self.new) }
    {
        let names = names_of(entry_in(&self.entries, id));
        let readers = readers_of(entry_in(&self.entries, id)) - 1;
        self.entries[id as usize] = Some(Entry::File { names, readers });
    }

    /// Marks the close of a draft by a slot. Locked if a channel reads the file that it would
    /// replace, NoRoom if it replaces none and there are 256 files.
    pub fn begin_close(&mut self, id: u32, slot: u8) -> Result<(), CloseFault>
        requires draft { is_draft (entry_at self.old id) ≡ true }
        requires unmarked { self.old.mark ≡ None }
        ensures ok { OnOk result (close self.old id slot ≡ Ok self.new) }
        ensures directory { directory self.new ≡ directory self.old }
        ensures plain { OnOk result (plain_directory self.new ≡ closed (file_of self.old id) (directory self.old)) }
        ensures entry { Same (entry_at self.old) (entry_at self.new) }
        ensures words { Same (words_at self.old) (words_at self.new) }
        ensures fault { IfErr result (λ e. close self.old id slot ≡ Err e) }
        ensures same { OnErr result (self.new ≡ self.old) }
    {
        let names = names_of(entry_in(&self.entries, id));
        let parts = match found_in(&self.entries, self.order.as_slice(), names) {
            Some(old) => {
                if readers_of(entry_in(&self.entries, old)) > 0 {
                    return Err(CloseFault::Locked);
                }
                Parts::Replace { old, draft: id }
            }
            None => {
                if self.order.len() >= FILES {
                    return Err(CloseFault::NoRoom);
                }
                Parts::Link {
                    old: None,
                    draft: id,
                }
            }
        };
        self.mark = Some(Mark { owner: slot, parts });
        Ok(())
    }

    /// Unlinks the old file, if that is the first pending part.
    #[tactic(auto, using(crate::proofs::DirectoryLaws::plain_unlinked_is))]
    pub fn unlink_old(&mut self)
        ensures made { self.new ≡ after_unlink_old self.old }
        ensures plain { plain_directory self.new ≡ plain_directory self.old }
    {
        let Some(mark) = self.mark else {
            return;
        };
        if let Parts::Replace { old, draft } = mark.parts {
            self.entries[old as usize] = None;
            take_out(&mut self.order, old);
            self.mark = Some(Mark {
                owner: mark.owner,
                parts: Parts::Link {
                    old: Some(old),
                    draft,
                },
            });
        }
    }

    /// Makes the draft the last file, if that is the first pending part.
    #[tactic(auto, using(crate::proofs::DirectoryLaws::plain_linked_is))]
    pub fn link_new(&mut self)
        ensures made { self.new ≡ after_link_new self.old }
        ensures plain { plain_directory self.new ≡ plain_directory self.old }
    {
        let Some(mark) = self.mark else {
            return;
        };
        if let Parts::Link { old, draft } = mark.parts {
            let names = names_of(entry_in(&self.entries, draft));
            self.entries[draft as usize] = Some(Entry::File { names, readers: 0 });
            self.order.push(draft);
            self.mark = after_link(old, mark.owner);
        }
    }

    /// Frees the blocks of the old file, if that is the first pending part.
    #[tactic(auto, using(crate::proofs::DirectoryLaws::plain_freed_is))]
    pub fn free_old(&mut self)
        ensures made { self.new ≡ after_free_old self.old }
        ensures plain { plain_directory self.new ≡ plain_directory self.old }
    {
        let Some(mark) = self.mark else {
            return;
        };
        if let Parts::Free { old } = mark.parts {
            self.blocks.give_up(old);
            self.mark = None;
        }
    }

    /// Performs all pending parts.
    #[tactic(auto, using(crate::proofs::DirectoryLaws::helped_unmarked))]
    pub fn help(&mut self)
        ensures made { self.new ≡ after_help self.old }
        ensures unmarked { self.new.mark ≡ None }
        ensures directory { directory self.new ≡ plain_directory self.old }
    {
        self.unlink_old();
        self.link_new();
        self.free_old();
    }
}
