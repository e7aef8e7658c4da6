//! `Links`: nodes on lists, each list in the order in which its nodes came.

ghost use Rattle.std.specs.Prelude.{◌≡◌, ◌≢◌, ◌<◌, ◌≤◌, ◌+◌, ◌^◌, ◌++◌, ◌∷◌, [], ℕ, List, Some, None, length, map, slice_set, IfOk, IfSome, IsTrue, ◌↔◌};
ghost use Rattle.its_links.specs.Rings.{link};
ghost use Rattle.its_links.specs.Lists.{list_at, times, hit, without, first, rest, no_lists};

use super::rings::Rings;
use its_word::NoMemory;
use std::alloc::Global;
use std::marker::Model;

/// Lists of nodes, one for each head. Contracts see the number of nodes, and the list of each head.
///
/// The numbers below `nodes` are the nodes, and those from there on the heads. The ring of a head
/// is its list, and a node in no list is a ring of its own.
#[derive(Drop)]
pub struct Links {
    nodes: u32,
    rings: Rings,
}

impl Model for Links {
    ghost use Rattle.its_links.specs.Lists.{Linked};
    ghost use Rattle.its_links.specs.Rings.{linked_in, IsLinks};

    ghost Value = { Linked };

    ghost view = { λ l. linked_in l.nodes l.rings };

    ghost invariant = { λ l. IsLinks l.nodes l.rings };
}

/// The node that follows a node or head, if one does.
fn node_after(rings: &Rings, nodes: u32, i: u32) -> Option<u32>
    requires { i < length rings.now }
    ensures some { link rings.now i < nodes → result ≡ Some (link rings.now i) }
    ensures none { nodes ≤ link rings.now i → result ≡ None }
{
    let next = rings.after(i);
    (next < nodes).then_some(next)
}

impl Links {
    /// Every list is empty. Takes all the memory that the lists ever need.
    pub fn open(alloc: Global, nodes: u32, heads: u32) -> Result<Links, NoMemory>
        requires { nodes + heads < 2 ^ 32 }
        ensures { IfOk result (λ links. links ≡ record { nodes = nodes; lists = no_lists heads }) }
    {
        Ok(Links {
            nodes,
            rings: Rings::open(alloc, nodes + heads)?,
        })
    }

    /// Does nothing, and says what holds of all lists: a node occurs once at most in all of them.
    pub fn seen(&self)
        ensures once { (x : ℕ) → times x self.now.lists ≤ 1 }
        ensures below { (x : ℕ) → 0 < times x self.now.lists → x < self.now.nodes }
        ensures short { (h : ℕ) → length (list_at self.now.lists h) ≤ self.now.nodes }
    {
        let _ = &self.nodes;
    }

    /// The first node of a list; None if it is empty.
    pub fn front(&self, head: u32) -> Option<u32>
        requires { head < length self.now.lists }
        ensures front { result ≡ first (list_at self.now.lists head) }
        ensures within { IfSome result (λ node. node < self.now.nodes) }
        ensures once { IfSome result (λ node. times node self.now.lists ≡ 1) }
    {
        node_after(&self.rings, self.nodes, self.nodes + head)
    }

    /// The node after a node of a list; None if the list ends.
    pub fn next(&self, node: u32) -> Option<u32>
        requires { 0 < times node self.now.lists }
        ensures { (h : ℕ) (before after : List ℕ) → list_at self.now.lists h ≡ before ++ node ∷ after → result ≡ first after }
    {
        node_after(&self.rings, self.nodes, node)
    }

    /// Whether a node is in a list.
    pub fn linked(&self, node: u32) -> bool
        requires { node < self.now.nodes }
        ensures { IsTrue result ↔ (0 < times node self.now.lists) }
    {
        self.rings.after(node) != node
    }

    /// Puts a node that is in no list at the end of a list.
    pub fn push_back(&mut self, head: u32, node: u32)
        requires head { head < length self.old.lists }
        requires node { node < self.old.nodes }
        requires apart { times node self.old.lists ≡ 0 }
        ensures lists { self.new ≡ record self.old { lists = slice_set self.old.lists head (list_at self.old.lists head ++ node ∷ []) } }
        ensures heads { length self.new.lists ≡ length self.old.lists }
        ensures counts { (x : ℕ) → times x self.new.lists ≡ times x self.old.lists + hit x node }
    {
        let last = self.rings.before(self.nodes + head);
        self.rings.exchange(last, node);
    }

    /// Takes a node out of the list in which it is.
    pub fn unlink(&mut self, node: u32)
        requires { 0 < times node self.old.lists }
        ensures lists { self.new ≡ record self.old { lists = map (without node) self.old.lists } }
        ensures within { node < self.old.nodes }
        ensures freed { times node self.new.lists ≡ 0 }
        ensures heads { length self.new.lists ≡ length self.old.lists }
        ensures counts { (x : ℕ) → x ≢ node → times x self.new.lists ≡ times x self.old.lists }
    {
        let before = self.rings.before(node);
        self.rings.exchange(before, node);
    }

    /// Takes the first node out of a list; None if it is empty.
    pub fn pop_front(&mut self, head: u32) -> Option<u32>
        requires { head < length self.old.lists }
        ensures front { result ≡ first (list_at self.old.lists head) }
        ensures lists { self.new ≡ record self.old { lists = slice_set self.old.lists head (rest (list_at self.old.lists head)) } }
        ensures within { IfSome result (λ node. node < self.old.nodes) }
        ensures freed { IfSome result (λ node. times node self.new.lists ≡ 0) }
        ensures heads { length self.new.lists ≡ length self.old.lists }
        ensures counts { (x : ℕ) → result ≢ Some x → times x self.new.lists ≡ times x self.old.lists }
    {
        let node = self.front(head)?;
        self.unlink(node);
        Some(node)
    }

    /// Puts all nodes of one list, in their order, at the end of another.
    pub fn splice(&mut self, from: u32, to: u32)
        requires from { from < length self.old.lists }
        requires to { to < length self.old.lists }
        requires two { from ≢ to }
        ensures lists { self.new ≡ record self.old { lists = slice_set (slice_set self.old.lists to (list_at self.old.lists to ++ list_at self.old.lists from)) from [] } }
        ensures heads { length self.new.lists ≡ length self.old.lists }
        ensures counts { (x : ℕ) → times x self.new.lists ≡ times x self.old.lists }
    {
        let seam = self.rings.before(self.nodes + to);
        let last = self.rings.before(self.nodes + from);
        self.rings.exchange(seam, last);
        self.rings.exchange(seam, self.nodes + from);
    }
}
