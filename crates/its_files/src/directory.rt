//! The files in their order, and the entry of each number.

ghost use Rattle.std.specs.Prelude.{◌≡◌, ◌<◌, ◌≤◌, ℕ, true, None, length, slice_get, slice_index_or, is_some, count_by, Some, IfSome};
ghost use Rattle.its_links.specs.Lists.{count, without};
ghost use Rattle.its_word.specs.Directory.{same_names as are_same};
ghost use Rattle.its_files.specs.Blocks.{numbers};
ghost use Rattle.its_files.specs.Files.{names_by, readers_by, is_file as stands_as_file, is_draft as stands_as_draft, after_link as mark_after_link, found_in as first_found, parts_owed};

use super::blocks::NUMBERS;
use super::entry::{Entry, Mark, Parts};
use arrayvec::ArrayVec;
use its_records::Owed;
use its_word::Word;

/// The entry of a number.
pub(crate) fn entry_in(entries: &[Option<Entry>], id: u32) -> Option<Entry>
    ensures { result ≡ slice_index_or entries.now id None }
{
    match entries.get(id as usize) {
        Some(entry) => *entry,
        None => None,
    }
}

/// The directory and names of a file or a draft.
pub(crate) fn names_of(entry: Option<Entry>) -> [Word; 3]
    requires { is_some entry ≡ true }
    ensures { result ≡ names_by entry }
{
    match entry {
        Some(Entry::File { names, readers: _ }) => names,
        Some(Entry::Draft { names }) => names,
        None => unreachable!(),
    }
}

/// The directory of a directory and two names.
pub(crate) fn directory_of(names: &[Word]) -> Word
    requires { length names.now ≡ 3 }
    ensures { result ≡ slice_index_or names.now 0 0 }
{
    names[0]
}

/// Whether it is a file.
pub(crate) fn is_file(entry: Option<Entry>) -> bool
    ensures { result ≡ stands_as_file entry }
{
    match entry {
        Some(Entry::File { .. }) => true,
        Some(Entry::Draft { .. }) => false,
        None => false,
    }
}

/// Whether it is a draft.
pub(crate) fn is_draft(entry: Option<Entry>) -> bool
    ensures { result ≡ stands_as_draft entry }
{
    match entry {
        Some(Entry::File { .. }) => false,
        Some(Entry::Draft { .. }) => true,
        None => false,
    }
}

/// How many channels read a file.
pub(crate) fn readers_of(entry: Option<Entry>) -> u32
    ensures { result ≡ readers_by entry }
{
    match entry {
        Some(Entry::File { names: _, readers }) => readers,
        Some(Entry::Draft { names: _ }) => 0,
        None => 0,
    }
}

/// What is pending of a slot's close once its draft is linked: the blocks of an old file are to be
/// freed.
pub(crate) fn after_link(old: Option<u32>, owner: u8) -> Option<Mark>
    ensures { result ≡ mark_after_link old owner }
{
    old.map(|old| Mark {
        owner,
        parts: Parts::Free { old },
    })
}

/// Whether directories and names are the same.
#[tactic(auto, unfolding(its_word::specs::Directory::same_names))]
fn same_names(a: &[Word], b: &[Word]) -> bool
    requires a { length a.now ≡ 3 }
    requires b { length b.now ≡ 3 }
    ensures { result ≡ are_same a.now b.now }
{
    a[0] == b[0] && a[1] == b[1] && a[2] == b[2]
}

/// The k-th of some numbers, from 0; None past the last.
pub(crate) fn number_at(order: &[u32], k: u32) -> Option<u32>
    ensures { result ≡ slice_get order.now k }
{
    order.get(k as usize).copied()
}

/// The first of some numbers whose file has these names.
#[tactic(auto, using(its_word::proofs::NamesLaws::same_three))]
pub(crate) fn found_in(entries: &[Option<Entry>], order: &[u32], names: [Word; 3]) -> Option<u32>
    requires { (id : ℕ) → 0 < count id order.now → is_some (slice_index_or entries.now id None) ≡ true }
    ensures found { result ≡ first_found entries.now names order.now }
    ensures names { IfSome result (λ id. names_by (slice_index_or entries.now id None) ≡ names) }
{
    for id in order {
        if same_names(&names, &names_of(entry_in(entries, *id))) {
            return Some(*id);
        }
    }
    None
}

/// How many drafts there are.
pub(crate) fn count_drafts(entries: &[Option<Entry>]) -> u32
    requires { length entries.now ≡ numbers }
    ensures { result ≡ count_by stands_as_draft entries.now }
{
    let mut count = 0;
    for entry in entries {
        if is_draft(*entry) {
            count += 1;
        }
    }
    count
}

/// A number without an entry.
#[tactic(auto, using(crate::proofs::OrderLaws::some_free))]
pub(crate) fn free_number(entries: &[Option<Entry>]) -> u32
    requires some { count_by is_some entries.now < length entries.now }
    requires length { length entries.now ≡ numbers }
    ensures free { slice_index_or entries.now result None ≡ None }
    ensures below { result < numbers }
{
    let mut id = 0;
    while entries[id as usize].is_some() {
        id += 1;
    }
    id
}

/// The place of a number among some.
#[tactic(auto, using(crate::proofs::OrderLaws::count_more, crate::proofs::OrderLaws::count_none, crate::proofs::OrderLaws::count_end))]
fn position_of(order: &[u32], id: u32) -> Option<usize>
    ensures at { IfSome result (λ k. slice_get order.now k ≡ Some id) }
    ensures none { result ≡ None → count id order.now ≡ 0 }
{
    for (k, x) in order.iter().enumerate() {
        if *x == id {
            return Some(k);
        }
    }
    None
}

/// Takes a number out of some, among which it occurs once at most.
#[tactic(auto, using(crate::proofs::OrderLaws::removed, its_links::proofs::CountLaws::without_none))]
pub(crate) fn take_out(order: &mut ArrayVec<u32, 256>, id: u32)
    requires { count id order.old.items ≤ 1 }
    ensures { order.new.items ≡ without id order.old.items }
{
    if let Some(k) = position_of(order.as_slice(), id) {
        order.remove(k);
    }
}

/// The pending parts, in order.
pub(crate) fn parts_owed(parts: Parts) -> ArrayVec<Owed, 3>
    ensures { result.items ≡ parts_owed parts }
{
    let mut owed = ArrayVec::new();
    match parts {
        Parts::Replace { .. } => {
            owed.push(Owed::Unlink);
            owed.push(Owed::Link);
            owed.push(Owed::Free);
        }
        Parts::Link { old: Some(_), .. } => {
            owed.push(Owed::Link);
            owed.push(Owed::Free);
        }
        Parts::Link { old: None, .. } => owed.push(Owed::Link),
        Parts::Free { .. } => owed.push(Owed::Free),
    }
    owed
}
