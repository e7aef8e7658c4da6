//! Links, their ends and their words.

use super::jobs::standing;
use its_jobs::{Jobs, NoSlot};
use its_pipes::Pipes;
use its_records::{End, LINKS, Link};
use its_word::{Slot, Word};
use std::process::Abort;
use std::test::Fail;

fn word(n: u32) -> Word {
    Word::new(u64::from(n))
}

// The calls, with what they need tested first.

/// Opens an end of a link at channel 1 of a slot. The link's names are its number and 7.
fn join(rt: &impl Abort, pipes: &mut Pipes, l: u8, write: bool, slot: u8) {
    assert!(rt; usize::from(l) < LINKS);
    pipes.join(l, write, slot, 1, word(u32::from(l)), word(7));
}

fn close_end(rt: &impl Abort, pipes: &mut Pipes, l: u8, write: bool) {
    assert!(rt; usize::from(l) < LINKS);
    pipes.close_end(l, write);
}

fn send(rt: &impl Abort, pipes: &mut Pipes, l: u8, n: u32) {
    assert!(rt; usize::from(l) < LINKS);
    assert!(rt; pipes.has_link(l));
    assert!(rt; pipes.words_waiting(l) < 64);
    pipes.send(l, word(n));
}

fn receive(rt: &impl Abort, pipes: &mut Pipes, l: u8) -> Option<Word> {
    assert!(rt; usize::from(l) < LINKS);
    pipes.receive(l)
}

/// An end that is open at channel 1 of a slot.
fn at(slot: u8) -> End {
    End::Opened { slot, channel: 1 }
}

/// Whether a link is dry, ended, crowded and unread.
fn looks(pipes: &Pipes, l: u8) -> [bool; 4] {
    [
        pipes.is_dry(l),
        pipes.is_ended(l),
        pipes.is_crowded(l),
        pipes.is_unread(l),
    ]
}

/// Words go through a link in order, up to 64 at once, and those that were sent before the writing
/// end was closed can still be received.
#[test]
fn words(rt: HostRuntime) -> Result<(), Fail> {
    let mut pipes = Pipes::open(rt.alloc())?;
    assert_eq!(rt; pipes.link(3), None);
    assert_eq!(rt; looks(&pipes, 3), [true, false, false, false]);
    join(&rt, &mut pipes, 3, true, 5);
    for n in 0..64 {
        send(&rt, &mut pipes, 3, n);
    }
    assert_eq!(rt; pipes.words_waiting(3), 64);
    assert_eq!(rt; looks(&pipes, 3), [false, false, true, false]);
    join(&rt, &mut pipes, 3, false, 6);
    let link = Link {
        x: word(3),
        y: word(7),
        reader: at(6),
        writer: at(5),
    };
    assert_eq!(rt; pipes.link(3), Some(link));
    assert_eq!(rt; pipes.first_word(3), Some(word(0)));
    assert_eq!(rt; receive(&rt, &mut pipes, 3), Some(word(0)));
    send(&rt, &mut pipes, 3, 64);
    close_end(&rt, &mut pipes, 3, true);
    for n in 1..65 {
        assert_eq!(rt; looks(&pipes, 3)[1], false, "{n}");
        assert_eq!(rt; receive(&rt, &mut pipes, 3), Some(word(n)), "{n}");
    }
    assert_eq!(rt; receive(&rt, &mut pipes, 3), None);
    assert_eq!(rt; looks(&pipes, 3), [false, true, false, false]);
    close_end(&rt, &mut pipes, 3, false);
    assert_eq!(rt; pipes.link(3), None);
    Ok(())
}

/// A link exists as long as one of its ends is open, and its words are gone with it; those of
/// another link remain.
#[test]
fn parts(rt: HostRuntime) -> Result<(), Fail> {
    let mut pipes = Pipes::open(rt.alloc())?;
    for l in [0, 15] {
        join(&rt, &mut pipes, l, false, 2);
        join(&rt, &mut pipes, l, true, 4);
        send(&rt, &mut pipes, l, 9);
    }
    close_end(&rt, &mut pipes, 15, false);
    assert_eq!(rt; looks(&pipes, 15), [false, false, false, true]);
    assert_eq!(rt; pipes.words_waiting(15), 1);
    close_end(&rt, &mut pipes, 15, true);
    assert_eq!(rt; pipes.link(15), None);
    assert_eq!(rt; pipes.words_waiting(0), 1);
    join(&rt, &mut pipes, 15, false, 2);
    assert_eq!(rt; pipes.first_word(15), None);
    Ok(())
}

/// There are 16 links, found by their names; the first that is gone leaves its number free.
#[test]
fn numbers(rt: HostRuntime) -> Result<(), Fail> {
    let mut pipes = Pipes::open(rt.alloc())?;
    for l in 0..16u8 {
        assert_eq!(rt; pipes.free_link(), Some(l));
        join(&rt, &mut pipes, l, false, 2);
    }
    assert_eq!(rt; pipes.free_link(), None);
    for l in 0..16u8 {
        assert_eq!(rt; pipes.link_named(word(u32::from(l)), word(7)), Some(l));
    }
    assert_eq!(rt; pipes.link_named(word(16), word(7)), None);
    assert_eq!(rt; pipes.link_named(word(3), word(3)), None);
    close_end(&rt, &mut pipes, 9, false);
    close_end(&rt, &mut pipes, 4, false);
    assert_eq!(rt; pipes.free_link(), Some(4));
    assert_eq!(rt; pipes.link_named(word(4), word(7)), None);
    Ok(())
}

/// Makes a job, below another if one is given.
fn made(rt: &impl Abort, jobs: &mut Jobs, superior: Option<u8>) -> Result<Slot, NoSlot> {
    let superior = standing(rt, jobs, superior);
    jobs.create(word(7), word(7), superior, None)
}

/// A removal closes the ends of a tree, and those alone.
#[test]
fn removal(rt: HostRuntime) -> Result<(), Fail> {
    let mut jobs = Jobs::open(rt.alloc())?;
    for superior in [None, Some(0), Some(1), None] {
        made(&rt, &mut jobs, superior)?;
    }
    let mut pipes = Pipes::open(rt.alloc())?;
    for (l, reader, writer) in [(0, 1, 3), (1, 2, 1), (2, 0, 3)] {
        join(&rt, &mut pipes, l, false, reader);
        join(&rt, &mut pipes, l, true, writer);
        send(&rt, &mut pipes, l, 8);
    }
    join(&rt, &mut pipes, 3, true, 2);
    pipes.leave_links(&jobs, Slot::new(1));
    let ends = |l: u8| pipes.link(l).map(|link| (link.reader, link.writer));
    assert_eq!(rt; ends(0), Some((End::Closed, at(3))));
    assert_eq!(rt; ends(1), None);
    assert_eq!(rt; ends(2), Some((at(0), at(3))));
    assert_eq!(rt; ends(3), None);
    for (l, waiting) in [(0, 1), (1, 0), (2, 1), (3, 0)] {
        assert_eq!(rt; pipes.words_waiting(l), waiting, "{l}");
    }
    Ok(())
}
