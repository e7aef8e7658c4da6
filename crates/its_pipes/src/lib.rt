//! Links between jobs, with the words in them: one store for both machines. It gives the links out
//! by number, below 16. A link has two names, an end for reading, an end for writing, and up to 64
//! words, which are received in the order in which they were sent.
//!
//! Proved:
//! - The store is a value `piped`: for each number the link and its words, or none. Each call that
//!   changes it says what becomes of one number, and that every other number stays (`Only`).
//! - `join` opens an end, of the link that is there or of a new one, and leaves the words.
//!   `close_end` closes an end; a link is gone with its words exactly if no end of it is open after
//!   that.
//! - `send` puts a word after all others, and `receive` takes the first. `send` asks that the link
//!   is there and has room.
//! - `is_dry`, `is_ended`, `is_crowded` and `is_unread` are the tests of the calls on links, in
//!   every case.
//! - `link_named` is the least number whose link has the names, and `free_link` the least without a
//!   link; each is None exactly if there is none below 16.
//! - `leave_links` closes the ends that are open at a job of a tree, and no others.
//! - No number from 16 on has a link, and no link has more than 64 words (`bounds`).
//!
//! Only `open` takes memory.
//!
//! The links are an array of 16 numbers, each with a `Link` (two names and two ends) or none, and
//! for each number a queue of 64 words, a `circular_buffer`. Both are private. Contracts see a
//! function from numbers, `piped`: the link with its words, or none. That the queue of a number
//! without a link is empty is a fact of the type, so a new link has no words; `close_end` and
//! `leave_links` clear the queue of a link that goes. Each of the two machines has one `Pipes`; its
//! memory is taken at the opening, 8 KB.
//!
//! Calls on links make four changes: Join, Part, Send and Receive. Part closes the channel and the
//! end in one change, and Join opens both. If Shut and Open were used with a change of the end
//! beside them, a channel and its end would disagree between the two.
//!
//! Tests: test_stores/src/links.rt.
#![tactic(auto)]

mod ends;
mod pipes;

pub use its_records::{End, Link};
pub use its_word::NoMemory;
pub use pipes::Pipes;
