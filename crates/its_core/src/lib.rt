//! The cores of 96 slots: pages, effective addresses, several stores at once. A core has sixteen
//! accumulators and up to 256 pages of 1024 words; a slot may also have one page reserved.
//!
//! Proved:
//! - `get`, `put`, `page`, `mapped`, `reserve`, `clear_quarter`, `map`, `map_zeros`, `give_back`,
//!   `unmap`, `protect` and `drop_all` are exact on the pages of each slot. `map` is Full exactly
//!   if 1024 pages are mapped. A page can always be reserved.
//! - Each core has 256 places for pages, and each page has 1024 words (`whole` of `mapped`).
//! - The page frame of each page and of each reserved page, the lists of the free page frames and
//!   of the page frames of each slot, and how many of their words are ready, are exact (`frames`,
//!   `listed`).
//! - `address` and `effective` are the effective address. `refusal`, `first_fault`, `make_all` and
//!   `store_all` are the definitions of stores.
//! - `word` gives a word, `is_storable` says whether it can be stored, and `pages` how many pages
//!   are present.
//!
//! Only `open` takes memory.
//!
//! There are 1120 page frames of 1024 words: one for each page that may be mapped, and one for each
//! slot to reserve. A map gives the page frame of each page of each slot. The page frames are in 97
//! lists of `its_links`: list 0 has the unused ones, list s + 1 those of the pages of slot s, each
//! once; the page frame of a reserved page is in none. So no call searches for a page frame:
//! `reserve` takes the first of list 0, `map` puts the page frame at the end of the list of its
//! slot, and what is given up goes to the end of list 0, all page frames of a slot at once by
//! `splice`, in their order.
//!
//! The memory for the words of all page frames is taken at the opening (`its_word::ReadyWords`), so
//! nothing can fail for want of memory later. But the words of a page frame are first written when
//! it is first reserved. A page frame whose words are not ready is unused, and at first the unused
//! ones are in rising order, so a session writes about as many page frames as it maps. Contracts
//! say how many words are ready (`Frames.ready`): none at the opening, and after `reserve` those up
//! to the end of its page frame and no more; no other call makes words ready.
//!
//! Contracts see the lists, and the page frame of each page and each reserved page, as a separate
//! part `frames` (`specs/Frames`), beside the cores and the reserved pages. Each call that
//! reserves, maps or gives up a page, or stores one word, says what becomes of this part; `Listed`
//! is what holds of the part throughout. The crates above name only the other parts.
//!
//! The stores of a delivery, of a unit and of anything else that stores several words are checked
//! and performed by `Core::store_all`, by the definitions of `its_word/specs/Stores`. Its fault is
//! that of the first store that is not possible, and then nothing is stored.
//!
//! The call of `clear_quarter` counts a quarter as clear only if it is the next one; any other
//! quarter is cleared and not counted.
//!
//! Tests: test_stores/src/cores.rt.
#![tactic(auto)]

mod address;
mod cores;
mod stores;

pub use cores::{Core, Full};
pub use its_word::{Address, Fault, NoAccess, NoMemory};
