//! The successors and predecessors that keep each list as a ring through its head.

ghost use Rattle.std.specs.Prelude.{◌≡◌, ◌<◌, ℕ, length, IfOk};
ghost use Rattle.its_links.specs.Rings.{link, alone, Exchanged};

use its_word::NoMemory;
use std::alloc::Global;
use std::marker::Model;

/// Numbers that are in rings: which one follows each. Contracts see what follows.
#[derive(Drop)]
pub(crate) struct Rings {
    next: Vec<u32>,
    prev: Vec<u32>,
}

impl Model for Rings {
    ghost use Rattle.std.specs.Prelude.{ℕ, List};
    ghost use Rattle.its_links.specs.Rings.{IsRings};

    ghost Value = { List ℕ };

    ghost view = { λ r. r.next.items };

    ghost invariant = { λ r. IsRings r.next.items r.prev.items };
}

/// The numbers below n, in order.
#[tactic(auto, using(crate::proofs::RingLaws::alone_none, crate::proofs::RingLaws::alone_more))]
fn each_alone(alloc: Global, n: u32) -> Result<Vec<u32>, NoMemory>
    ensures { IfOk result (λ v. v.items ≡ alone n) }
{
    let mut v = Vec::with_capacity(alloc, n as usize).map_err(|_| NoMemory)?;
    for k in 0..n {
        v.push(k).map_err(|_| NoMemory)?;
    }
    Ok(v)
}

impl Rings {
    /// Each of n numbers in a ring of its own.
    pub(crate) fn open(alloc: Global, n: u32) -> Result<Rings, NoMemory>
        ensures { IfOk result (λ r. r ≡ alone n) }
    {
        Ok(Rings {
            next: each_alone(alloc, n)?,
            prev: each_alone(alloc, n)?,
        })
    }

    /// What follows i.
    pub(crate) fn after(&self, i: u32) -> u32
        requires { i < length self.now }
        ensures { result ≡ link self.now i }
    {
        self.next[i as usize]
    }

    /// What i follows.
    pub(crate) fn before(&self, i: u32) -> u32
        requires { i < length self.now }
        ensures within { result < length self.now }
        ensures leads { link self.now result ≡ i }
        ensures only { (p : ℕ) → p < length self.now → link self.now p ≡ i → p ≡ result }
    {
        self.prev[i as usize]
    }

    /// Lets what follows p follow q, and what follows q follow p.
    pub(crate) fn exchange(&mut self, p: u32, q: u32)
        requires p { p < length self.old }
        requires q { q < length self.old }
        ensures count { length self.new ≡ length self.old }
        ensures exchanged { Exchanged (link self.old) (link self.new) p q }
    {
        let after_p = self.next[p as usize];
        let after_q = self.next[q as usize];
        self.next[p as usize] = after_q;
        self.next[q as usize] = after_p;
        self.prev[after_q as usize] = p;
        self.prev[after_p as usize] = q;
    }
}
