//! Files, drafts, their words and their directory.

ghost use Rattle.std.specs.Prelude.{◌≡◌};

use its_files::{CloseFault, Files, Full, Locked, RenameFault};
use its_word::{SLOTS, Word};
use std::process::Abort;
use std::test::Fail;

/// A word of a number.
fn word(n: u32) -> Word
    ensures { result ≡ n }
{
    Word::new(u64::from(n))
}

// The calls, with what they need tested first.

fn draft(rt: &impl Abort, files: &mut Files, x: u32) -> u32 {
    assert!(rt; files.owner().is_none());
    assert!(rt; files.drafts() < 16 * SLOTS as u32);
    files.draft(word(1), word(x), word(0))
}

fn new_file(rt: &impl Abort, files: &mut Files, x: u32) -> u32 {
    let (d, x, y) = (word(1), word(x), word(0));
    assert!(rt; files.owner().is_none());
    assert!(rt; files.file_at(255).is_none());
    assert!(rt; files.find(d, x, y).is_none());
    files.new_file(d, x, y)
}

fn append(rt: &impl Abort, files: &mut Files, id: u32, w: u32) -> Result<(), Full> {
    assert!(rt; files.owner().is_none());
    assert!(rt; files.is_draft(id) || files.is_file(id));
    files.append(id, word(w))
}

fn begin_close(rt: &impl Abort, files: &mut Files, id: u32) -> Result<(), CloseFault> {
    assert!(rt; files.owner().is_none());
    assert!(rt; files.is_draft(id));
    files.begin_close(id, 5)
}

fn delete(rt: &impl Abort, files: &mut Files, id: u32) -> Result<(), Locked> {
    assert!(rt; files.owner().is_none());
    assert!(rt; files.is_file(id));
    files.delete(id)
}

fn rename(rt: &impl Abort, files: &mut Files, id: u32, x: u32) -> Result<(), RenameFault> {
    assert!(rt; files.owner().is_none());
    assert!(rt; files.is_file(id));
    files.rename(id, word(x), word(0))
}

fn discard(rt: &impl Abort, files: &mut Files, id: u32) {
    assert!(rt; files.owner().is_none());
    assert!(rt; files.is_draft(id));
    files.discard(id);
}

fn open_read(rt: &impl Abort, files: &mut Files, id: u32) {
    assert!(rt; files.owner().is_none());
    assert!(rt; files.is_file(id));
    assert!(rt; files.readers(id) < 9);
    files.open_read(id);
}

fn close_read(rt: &impl Abort, files: &mut Files, id: u32) {
    assert!(rt; 0 < files.readers(id));
    files.close_read(id);
}

fn length(rt: &impl Abort, files: &Files, id: u32) -> u32 {
    assert!(rt; files.is_draft(id) || files.is_file(id));
    files.length(id)
}

fn room(rt: &impl Abort, files: &Files, id: u32) -> u32 {
    assert!(rt; files.is_draft(id) || files.is_file(id));
    files.room(id)
}

fn first_name(rt: &impl Abort, files: &Files, id: u32) -> Word {
    assert!(rt; files.is_draft(id) || files.is_file(id));
    let [_d, x, _y] = files.names(id);
    x
}

fn seek(rt: &impl Abort, files: &mut Files, id: u32, k: u32) {
    assert!(rt; files.is_draft(id) || files.is_file(id));
    files.seek(id, k);
}

/// Words that count up from a number are appended.
fn fill(rt: &impl Abort, files: &mut Files, id: u32, first: u32, count: u32) {
    for k in 0..count {
        assert_eq!(rt; append(rt, files, id, first.wrapping_add(k)), Ok(()));
    }
}

/// A number has these words and no more; read forwards and backwards.
fn has(rt: &impl Abort, files: &mut Files, id: u32, first: u32, count: u32) {
    assert_eq!(rt; length(rt, files, id), count);
    for k in 0..count {
        seek(rt, files, id, k);
        assert_eq!(rt; files.word_at(id, k), Some(word(first.wrapping_add(k))));
    }
    for k in (0..count).rev() {
        assert_eq!(rt; files.word_at(id, k), Some(word(first.wrapping_add(k))));
    }
    assert_eq!(rt; files.word_at(id, count), None);
}

/// The k-th file in order has a first name, a first word and a length; or there is none.
fn row(rt: &impl Abort, files: &Files, k: u32, want: Option<(u32, u32, u32)>) {
    match (files.file_at(k), want) {
        (Some(id), Some((x, first, count))) => {
            assert_eq!(rt; first_name(rt, files, id), word(x));
            assert_eq!(rt; length(rt, files, id), count);
            assert_eq!(rt; files.word_at(id, 0).unwrap_or(Word::ZERO), word(first));
        }
        (None, None) => {}
        _ => panic!(rt; "file {k}"),
    }
}

/// The first two files in order, and none after them if one of these is not there.
fn rows(rt: &impl Abort, files: &Files, want: [Option<(u32, u32, u32)>; 3]) {
    let [a, b, c] = want;
    row(rt, files, 0, a);
    row(rt, files, 1, b);
    row(rt, files, 2, c);
}

/// A draft of some words becomes a file.
fn close_with(rt: &impl Abort, files: &mut Files, count: u32) {
    let id = draft(rt, files, count);
    fill(rt, files, id, 1000, count);
    assert_eq!(rt; begin_close(rt, files, id), Ok(()));
    files.help();
    assert_eq!(rt; files.find(word(1), word(count), word(0)), Some(id));
    has(rt, files, id, 1000, count);
}

/// Drafts of several lengths become files.
#[test]
fn words(rt: HostRuntime) -> Result<(), Fail> {
    let mut files = Files::open(rt.alloc())?;
    for count in [0, 1, 127, 128, 129, 256, 257] {
        close_with(&rt, &mut files, count);
    }
    assert_eq!(rt; files.find(word(2), word(1), word(0)), None);
    Ok(())
}

/// Files 7 and 8, and a draft that replaces 7.
fn replacing(rt: &impl Abort, files: &mut Files) {
    let old = new_file(rt, files, 7);
    fill(rt, files, old, 70, 1);
    new_file(rt, files, 8);
    let id = draft(rt, files, 7);
    fill(rt, files, id, 90, 130);
    assert_eq!(rt; begin_close(rt, files, id), Ok(()));
}

/// The first parts are made, and the directory is looked at after each.
fn make(rt: &impl Abort, files: &mut Files, parts: u32) {
    rows(rt, files, [Some((7, 70, 1)), Some((8, 0, 0)), None]);
    if parts > 0 {
        files.unlink_old();
        rows(rt, files, [Some((8, 0, 0)), None, None]);
    }
    if parts > 1 {
        files.link_new();
        rows(rt, files, [Some((8, 0, 0)), Some((7, 90, 130)), None]);
        assert_eq!(rt; files.owner(), Some(5));
    }
    if parts > 2 {
        files.free_old();
        assert_eq!(rt; files.owner(), None);
    }
}

/// A close that replaces a file: part by part, and with help after each number of parts.
#[test]
fn parts(rt: HostRuntime) -> Result<(), Fail> {
    for parts in 0..4 {
        let mut files = Files::open(rt.alloc())?;
        replacing(&rt, &mut files);
        make(&rt, &mut files, parts);
        files.help();
        rows(&rt, &files, [Some((8, 0, 0)), Some((7, 90, 130)), None]);
        assert_eq!(rt; files.owner(), None);
    }
    Ok(())
}

/// What cannot be done to a file that is read.
fn locked(rt: &impl Abort, files: &mut Files, id: u32) {
    open_read(rt, files, id);
    open_read(rt, files, id);
    close_read(rt, files, id);
    assert_eq!(rt; delete(rt, files, id), Err(Locked));
    assert_eq!(rt; rename(rt, files, id, 3), Err(RenameFault::Locked));
    let new = draft(rt, files, 1);
    assert_eq!(rt; begin_close(rt, files, new), Err(CloseFault::Locked));
    discard(rt, files, new);
    close_read(rt, files, id);
}

/// Deleting and renaming, and what a reader keeps from being done.
#[test]
fn readers(rt: HostRuntime) -> Result<(), Fail> {
    let mut files = Files::open(rt.alloc())?;
    let first = new_file(&rt, &mut files, 1);
    new_file(&rt, &mut files, 2);
    locked(&rt, &mut files, first);
    for (x, want) in [
        (1, Err(RenameFault::Exists)),
        (2, Err(RenameFault::Exists)),
        (3, Ok(())),
    ] {
        assert_eq!(rt; rename(&rt, &mut files, first, x), want);
    }
    rows(&rt, &files, [Some((3, 0, 0)), Some((2, 0, 0)), None]);
    assert_eq!(rt; delete(&rt, &mut files, first), Ok(()));
    rows(&rt, &files, [Some((2, 0, 0)), None, None]);
    Ok(())
}

/// All blocks are filled, and given up.
fn all_blocks(rt: &impl Abort, files: &mut Files, first: u32) {
    let id = draft(rt, files, 300);
    assert_eq!(rt; room(rt, files, id), 262144);
    fill(rt, files, id, first, 1);
    assert_eq!(rt; room(rt, files, id), 262143);
    fill(rt, files, id, first.wrapping_add(1), 262143);
    assert_eq!(rt; room(rt, files, id), 0);
    assert_eq!(rt; append(rt, files, id, 0), Err(Full));
    for k in 0..262144 {
        seek(rt, files, id, k);
        assert_eq!(rt; files.word_at(id, k), Some(word(first.wrapping_add(k))));
    }
    discard(rt, files, id);
}

/// 256 files and no more, and all blocks: given up and taken again.
#[test]
fn limits(rt: HostRuntime) -> Result<(), Fail> {
    let mut files = Files::open(rt.alloc())?;
    for x in 0..256 {
        new_file(&rt, &mut files, x);
    }
    let new = draft(&rt, &mut files, 256);
    assert_eq!(rt; begin_close(&rt, &mut files, new), Err(CloseFault::NoRoom));
    let again = draft(&rt, &mut files, 17);
    assert_eq!(rt; begin_close(&rt, &mut files, again), Ok(()));
    files.help();
    assert_eq!(rt; files.file_at(255), Some(again));
    all_blocks(&rt, &mut files, 1);
    all_blocks(&rt, &mut files, 2);
    Ok(())
}
