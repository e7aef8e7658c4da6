//! Links and their ends, without their words.
ghost use Rattle.std.specs.Prelude.{◌≡◌, ◌==◌, ◌||◌, ◌&&◌};
ghost use Rattle.its_records.specs.Links.{end_left, is_alive, is_closed, is_link_named, is_open, is_unopened, link_end, link_left, new_link, with_end};
ghost use Rattle.its_jobs.specs.Table.{in_tree, superior_at};

use its_jobs::Jobs;
use its_records::{End, Link};
use its_word::{Slot, Word};

/// A link as it is made, before the first of its ends is opened.
pub(crate) fn new_link(x: Word, y: Word) -> Link
    ensures { result ≡ new_link x y }
{
    Link {
        x,
        y,
        reader: End::Unopened,
        writer: End::Unopened,
    }
}

/// Whether a link has two names.
pub(crate) fn is_named(link: Link, x: Word, y: Word) -> bool
    ensures { result ≡ is_link_named x y link }
{
    link.x == x && link.y == y
}

/// A link with another writing end, or another reading end.
pub(crate) fn with_end(link: Link, write: bool, end: End) -> Link
    ensures { result ≡ with_end write end link }
{
    if write {
        Link {
            writer: end,
            ..link
        }
    } else {
        Link {
            reader: end,
            ..link
        }
    }
}

/// The writing end of a link, or its reading end.
pub(crate) fn end_of(link: Link, write: bool) -> End
    ensures { result ≡ link_end write link }
{
    if write { link.writer } else { link.reader }
}

/// Whether nobody has opened an end.
pub(crate) fn is_unopened(end: End) -> bool
    ensures { result ≡ is_unopened end }
{
    matches!(end, End::Unopened)
}

/// Whether a link has two names, and nobody has opened one of its ends.
pub(crate) fn is_joinable(link: &Link, write: bool, x: Word, y: Word) -> bool
    ensures { result ≡ (is_link_named x y link.now && is_unopened (link_end write link.now)) }
{
    is_named(*link, x, y) && is_unopened(end_of(*link, write))
}

/// Whether an end is open.
fn is_open(end: End) -> bool
    ensures { result ≡ is_open end }
{
    matches!(end, End::Opened { .. })
}

/// Whether an end is closed.
pub(crate) fn is_closed(end: End) -> bool
    ensures { result ≡ is_closed end }
{
    matches!(end, End::Closed)
}

/// Whether an end of a link is open.
pub(crate) fn is_alive(link: &Link) -> bool
    ensures { result ≡ is_alive link.now }
{
    is_open(link.reader) || is_open(link.writer)
}

/// An end after the removal of a tree of jobs.
fn end_left(jobs: &Jobs, root: Slot, end: End) -> End
    ensures { result ≡ end_left (in_tree (superior_at jobs.now) root) end }
{
    let root = root.number();
    match end {
        End::Opened { slot, .. } if slot == root || jobs.is_below(root, slot) => End::Closed,
        other => other,
    }
}

/// A link after the removal of a tree of jobs.
pub(crate) fn link_left(jobs: &Jobs, root: Slot, link: Link) -> Link
    ensures { result ≡ link_left (in_tree (superior_at jobs.now) root) link }
{
    Link {
        reader: end_left(jobs, root, link.reader),
        writer: end_left(jobs, root, link.writer),
        ..link
    }
}
