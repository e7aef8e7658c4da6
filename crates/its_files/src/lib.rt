//! Files and drafts: words in blocks, an ordered directory, and closes in parts.
//!
//! Proved:
//! - Each call is its definition on the store, with exactly its refusals, and a refused call
//!   changes nothing (`delete`, `rename`, `begin_close`, `is_full`).
//! - What each call does to the directory (`directory`), and which blocks it takes and gives up
//!   (`append`, `delete`, `discard`, `free_old`).
//! - The parts of a close lead to the directory that has the draft as its last file and no longer
//!   has the old file, whether they are performed one by one or by `help` (`plain`).
//! - Each block is free or in use (`seen`); for how many more words a file has room (`room`).
//!
//! Only `open` takes memory.
//!
//! A file or a draft has a number below 1792 (256 files, and one draft for each channel of each
//! slot), which a draft keeps when it becomes a file. `Files` has the entry of each number (names,
//! and for a file how many channels read it), the numbers of the files in their order, the mark of
//! a close that is half made, and the words.
//!
//! The words are in 2048 blocks of 128. `its_links` keeps a list of the unused blocks and, for each
//! number, the list of its blocks in the order of its words: 1793 lists. A word that needs a block
//! takes the first unused one; what is given up goes to the end of that list, all at once and in
//! its order. The last block of each number is kept beside the lists, so a word is appended without
//! a walk. `seek` keeps one place, from which the walk to a later block goes on, so reading in
//! rising order looks at each block once; contracts see none of this. The words of a block are made
//! ready when it gets its first word (`its_word::ReadyWords`).
//!
//! Contracts see a record `Store` (`specs/Files`): `entries`, `order`, `mark`, and `stored` with
//! `texts` and `chains`, the words and blocks by number. Each call is an equation on it. Three
//! readings of it serve callers: `entry_at` and `words_at` by number, in clauses that only one
//! number changes; `directory`, the files in their order as names and words; and `plain_directory`,
//! the directory with the pending parts of a close performed. The parts are `after_unlink_old`,
//! `after_link_new` and `after_free_old`; each does nothing if it is not the first pending part, so
//! `after_help` is the three in a row.
//!
//! A mark has one variant for each list of parts that can be pending: unlink, link and free; link,
//! or link and free; free. A part that is not the first pending one does nothing, so the calls that
//! perform parts need nothing.
//!
//! An unlinked file is no longer the entry of any number; its blocks are its number's until they
//! are freed.
//!
//! `its_files` offers tests of what its calls need: `is_file` and `readers`, which crates above
//! call, and `is_draft` and `drafts`, which only tests call. It offers `seek`, because a call that
//! only reads cannot keep a place.
//!
//! There is no error for want of a draft: there are as many as channels, since a channel gets its
//! draft by OPEN, which helps. So the marked draft, which has no channel, is a file by then.
//!
//! The blocks of the old file count as given up from the `*` of the CLOSE on: any call or line that
//! looks for room has performed the parts before.
//!
//! Tests: test_stores/src/files.rt.
#![tactic(auto)]

mod blocks;
mod directory;
mod entry;
mod files;

pub use blocks::Full;
pub use entry::{CloseFault, Entry, Locked, Mark, Parts, RenameFault};
pub use files::{Files, MOST_FILES};
pub use its_word::NoMemory;
