//! Doubly linked lists by index. Each of some heads has a list of nodes, and a node is in at most
//! one list. (Links between jobs are in its_pipes.)
//!
//! Proved: `push_back`, `unlink`, `pop_front`, `splice`, `front`, `next` and `linked` are exact on
//! the list of each head, and every other list is unchanged. Only `open` takes memory.
//!
//! A list is kept as a ring through its head, in two arrays: the successor and the predecessor of
//! each number. The numbers below `nodes` are the nodes and those from there on the heads; a node
//! in no list is a ring of its own. Every call that changes a list is one or two exchanges of the
//! successors of two numbers, with no case for an empty list. A contract sees each head as a list
//! of nodes.
//!
//! The lists of `its_links` keep no owner of a node: `unlink` and `next` need none. `open` needs
//! that nodes and heads together are below 2^32, since both are numbers of one array.
//!
//! A node's place is counted (`count` in a list, `times` in all), so that "in no list", "in one"
//! and "once" are sums, and a proof that lists are disjoint is arithmetic.
//!
//! `Links` has a call `seen` that does nothing: its clauses say what holds of all lists (a node is
//! in them once at most, and is one of the nodes; no list has more of them than there are), which a
//! caller cannot read off the lists that it sees.
//!
//! Tests: test_stores/src/lists.rt.
#![tactic(auto)]

mod links;
mod rings;

pub use its_word::NoMemory;
pub use links::Links;
