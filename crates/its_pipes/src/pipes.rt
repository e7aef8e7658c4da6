//! The store of links, and of the words in them.
ghost use Rattle.std.specs.Prelude.{◌≡◌, ◌<◌, ◌≤◌, ℕ, true, false, Some, None, IfOk, IfSome, is_some, length, option_map, slice_get, vec_len};
ghost use Rattle.its_records.specs.Links.{most_link_words, most_links};
ghost use Rattle.its_word.specs.Only.{Only};
ghost use Rattle.its_records.specs.Tree.{least_free};
ghost use Rattle.its_jobs.specs.Table.{in_tree, superior_at};
ghost use Rattle.its_plain.specs.Call.Link.{has_link_names, is_crowded, is_dry, is_end_closed, is_ended, is_unread, link_named, words_in};
ghost use Rattle.its_plain.specs.Machine.Change.{after_end_close, ends_after_removal, if_alive, link_or_new, with_end_opened, with_received, with_sent};
ghost use Rattle.its_plain.specs.Operator.State.{can_join, has_unopened, with_end_closed};
ghost use Rattle.its_pipes.specs.Pipes.{link_in, no_queue, piped, queue_at};

use super::ends::{
    end_of, is_alive, is_closed, is_joinable, is_named, is_unopened, link_left, new_link, with_end,
};
use circular_buffer::HeapCircularBuffer;
use its_jobs::Jobs;
use its_records::{End, LINK_WORDS, LINKS, Link};
use its_word::{NoMemory, Slot, Word};
use std::alloc::Global;
use std::marker::Model;

/// The links by number, and for each number the words that were sent through its link and not
/// received, in the order in which they came. Contracts see both as lists, and `piped` as the link
/// and the words of a number, if it has a link.
#[derive(Drop)]
pub struct Pipes {
    links: [Option<Link>; 16],
    queues: Vec<HeapCircularBuffer<Word>>,
}

impl Model for Pipes {
    ghost use Rattle.std.specs.Prelude.{◌≡◌, length, vec_len};
    ghost use Rattle.its_pipes.specs.Pipes.{Piping, IsPipes};

    ghost Value = { Piping };

    ghost view = { λ a. record { links = a.links; queues = a.queues.items } };

    ghost invariant = { λ a. (length a.links ≡ 16) × (vec_len a.queues ≡ 16) × IsPipes a.links a.queues.items };
}

impl Pipes {
    /// No link. Takes the memory of all words that links can hold.
    pub fn open(alloc: Global) -> Result<Pipes, NoMemory>
        ensures { IfOk result (λ p. (l : ℕ) → piped p l ≡ None) }
    {
        let queues = no_queues(alloc, LINKS)?;
        Ok(Pipes {
            links: [None; LINKS],
            queues,
        })
    }

    /// The link of a number, if there is one.
    pub fn link(&self, l: u8) -> Option<Link>
        ensures { result ≡ link_in self.now l }
    {
        self.links.get(usize::from(l)).copied().flatten()
    }

    /// How many words are in a link.
    pub fn words_waiting(&self, l: u8) -> u32
        ensures count { result ≡ length (words_in (piped self.now l)) }
        ensures most { result ≤ most_link_words }
    {
        match self.queues.get(usize::from(l)) {
            Some(queue) => queue.len() as u32,
            None => 0,
        }
    }

    /// The first word of a link, which remains there; None if it has none.
    pub fn first_word(&self, l: u8) -> Option<Word>
        ensures { result ≡ slice_get (words_in (piped self.now l)) 0 }
    {
        self.queues.get(usize::from(l))?.front().copied()
    }

    /// Whether the writing end of a link is closed.
    fn is_unwritten(&self, l: u8) -> bool
        ensures { result ≡ is_end_closed true (piped self.now l) }
    {
        match self.link(l) {
            Some(link) => is_closed(link.writer),
            None => false,
        }
    }

    /// Whether the reading end of a link is closed, so that no word can be sent through it.
    pub fn is_unread(&self, l: u8) -> bool
        ensures { result ≡ is_unread (piped self.now l) }
    {
        match self.link(l) {
            Some(link) => is_closed(link.reader),
            None => false,
        }
    }

    /// Whether a link has no word and can still get one.
    pub fn is_dry(&self, l: u8) -> bool
        ensures { result ≡ is_dry (piped self.now l) }
    {
        self.words_waiting(l) == 0 && !self.is_unwritten(l)
    }

    /// Whether a link has no word and gets none any more.
    pub fn is_ended(&self, l: u8) -> bool
        ensures { result ≡ is_ended (piped self.now l) }
    {
        self.words_waiting(l) == 0 && self.is_unwritten(l)
    }

    /// Whether a link has as many words as there can be, and can still lose one.
    pub fn is_crowded(&self, l: u8) -> bool
        ensures { result ≡ is_crowded (piped self.now l) }
    {
        self.words_waiting(l) >= LINK_WORDS as u32 && !self.is_unread(l)
    }

    /// The number of the link with two names.
    pub fn link_named(&self, x: Word, y: Word) -> Option<u8>
        ensures number { result ≡ link_named (piped self.now) x y }
        ensures below { IfSome result (λ l. l < most_links) }
    {
        (0..LINKS as u8).find(|l| self.has_names(*l, x, y))
    }

    /// Whether the link of a number has two names.
    fn has_names(&self, l: u8, x: Word, y: Word) -> bool
        ensures { result ≡ has_link_names x y (piped self.now l) }
    {
        match self.link(l) {
            Some(link) => is_named(link, x, y),
            None => false,
        }
    }

    /// The least number without a link; None if there are as many links as there can be.
    #[tactic(auto, using(crate::proofs::PipeLaws::least_start, its_records::proofs::TreeLaws::least_next, its_records::proofs::TreeLaws::least_found, its_records::proofs::TreeLaws::least_end))]
    pub fn free_link(&self) -> Option<u8>
        ensures number { result ≡ least_free most_links (piped self.now) }
        ensures below { IfSome result (λ l. l < most_links) }
    {
        for l in 0..LINKS as u8 {
            if !self.has_link(l) {
                return Some(l);
            }
        }
        None
    }

    /// Whether a number has a link.
    pub fn has_link(&self, l: u8) -> bool
        ensures { result ≡ is_some (piped self.now l) }
    {
        self.link(l).is_some()
    }

    /// Opens the writing end or the reading end of a link at a slot and channel. If the number has
    /// no link, one is made with these names.
    pub fn join(&mut self, l: u8, write: bool, slot: u8, channel: u8, x: Word, y: Word)
        requires { l < most_links }
        ensures { Only (piped self.old) (piped self.new) l (Some (with_end_opened write slot channel (link_or_new x y (piped self.old l)))) }
    {
        let link = self.link(l).unwrap_or(new_link(x, y));
        self.put_link(l, with_end(link, write, End::Opened { slot, channel }));
    }

    /// Closes an end of a link, if the number has one. A link without an open end is gone with its
    /// words.
    pub fn close_end(&mut self, l: u8, write: bool)
        requires { l < most_links }
        ensures { Only (piped self.old) (piped self.new) l (after_end_close write (piped self.old l)) }
    {
        if let Some(link) = self.link(l) {
            self.put_alive(l, with_end(link, write, End::Closed));
        }
    }

    /// Closes an end of a link that nobody has opened. The link stays, as its other end does.
    pub fn shut_end(&mut self, l: u8, write: bool)
        requires number { l < most_links }
        requires unopened { has_unopened write (piped self.old l) ≡ true }
        ensures { Only (piped self.old) (piped self.new) l (option_map (with_end_closed write) (piped self.old l)) }
    {
        if let Some(link) = self.link(l) {
            self.put_link(l, with_end(link, write, End::Closed));
        }
    }

    /// Whether a number has a link, and nobody has opened this end.
    pub fn has_unopened(&self, l: u8, write: bool) -> bool
        ensures { result ≡ has_unopened write (piped self.now l) }
    {
        match self.link(l) {
            Some(link) => is_unopened(end_of(link, write)),
            None => false,
        }
    }

    /// Whether an end of a link can be opened at this number: there is no link, or one of these
    /// names whose end nobody has opened.
    pub fn can_join(&self, l: u8, write: bool, x: Word, y: Word) -> bool
        ensures { result ≡ can_join x y write (piped self.now l) }
    {
        match self.link(l) {
            Some(link) => is_joinable(&link, write, x, y),
            None => true,
        }
    }

    /// The k-th of the words in a link, from 0; None past the last.
    pub fn word_at(&self, l: u8, k: u32) -> Option<Word>
        ensures { result ≡ slice_get (words_in (piped self.now l)) k }
    {
        self.queues.get(usize::from(l))?.get(k as usize).copied()
    }

    /// Writes the link of a number, if one of its ends is open; else the number has no link any
    /// more, and no words.
    fn put_alive(&mut self, l: u8, link: Link)
        requires { l < most_links }
        ensures { Only (piped self.old) (piped self.new) l (if_alive (record { link = link; words = words_in (piped self.old l) })) }
    {
        if is_alive(&link) {
            self.put_link(l, link);
        } else {
            self.drop_link(l);
        }
    }

    /// Writes the link of a number. Its words stay.
    fn put_link(&mut self, l: u8, link: Link)
        requires { l < most_links }
        ensures { Only (piped self.old) (piped self.new) l (Some (record { link = link; words = words_in (piped self.old l) })) }
    {
        self.links[usize::from(l)] = Some(link);
    }

    /// Takes the link of a number away, and its words.
    fn drop_link(&mut self, l: u8)
        requires { l < most_links }
        ensures { Only (piped self.old) (piped self.new) l None }
    {
        self.links[usize::from(l)] = None;
        self.queues[usize::from(l)].clear();
    }

    /// Puts a word at the end of a link, which has room.
    pub fn send(&mut self, l: u8, word: Word)
        requires number { l < most_links }
        requires stands { is_some (piped self.old l) ≡ true }
        requires room { length (words_in (piped self.old l)) < most_link_words }
        ensures { Only (piped self.old) (piped self.new) l (option_map (with_sent word) (piped self.old l)) }
    {
        let _ = self.queues[usize::from(l)].try_push_back(word);
    }

    /// Takes the first word of a link; None if it has none.
    pub fn receive(&mut self, l: u8) -> Option<Word>
        requires { l < most_links }
        ensures first { result ≡ slice_get (words_in (piped self.old l)) 0 }
        ensures rest { Only (piped self.old) (piped self.new) l (option_map with_received (piped self.old l)) }
    {
        self.queues[usize::from(l)].pop_front()
    }

    /// Does nothing: what is true of the links at any time. No number past the last has one, and
    /// none has more words than it can hold.
    #[tactic(auto, using(crate::proofs::PipeLaws::past_none, crate::proofs::PipeLaws::words_fit))]
    pub fn bounds(&self)
        ensures numbers { (l : ℕ) → most_links ≤ l → piped self.now l ≡ None }
        ensures words { (l : ℕ) → length (words_in (piped self.now l)) ≤ most_link_words }
    {
        let _ = &self.links;
    }

    /// Closes each end that is open at a job of a tree. A link that then has no open end is gone
    /// with its words.
    #[tactic(auto, using(crate::proofs::SweepLaws::sweep_start, crate::proofs::SweepLaws::sweep_next, crate::proofs::SweepLaws::sweep_end))]
    pub fn leave_links(&mut self, jobs: &Jobs, root: Slot)
        ensures { (l : ℕ) → piped self.new l ≡ ends_after_removal (in_tree (superior_at jobs.now) root) (piped self.old l) }
    {
        self.bounds();
        for l in 0..LINKS as u8 {
            self.leave_link(jobs, root, l);
        }
    }

    /// Closes the ends of one link that are open at a job of the tree.
    fn leave_link(&mut self, jobs: &Jobs, root: Slot, l: u8)
        requires { l < most_links }
        ensures { Only (piped self.old) (piped self.new) l (ends_after_removal (in_tree (superior_at jobs.now) root) (piped self.old l)) }
    {
        if let Some(link) = self.link(l) {
            self.put_alive(l, link_left(jobs, root, link));
        }
    }
}

/// So many queues without a word.
fn no_queues(alloc: Global, n: usize) -> Result<Vec<HeapCircularBuffer<Word>>, NoMemory>
    ensures length { IfOk result (λ v. vec_len v ≡ n) }
    ensures none { IfOk result (λ v. (l : ℕ) → queue_at v.items l ≡ no_queue) }
{
    let mut v = Vec::with_capacity(alloc, n).map_err(|_| NoMemory)?;
    for _l in 0..n {
        let queue = HeapCircularBuffer::with_capacity(alloc, LINK_WORDS).map_err(|_| NoMemory)?;
        v.push(queue).map_err(|_| NoMemory)?;
    }
    Ok(v)
}
