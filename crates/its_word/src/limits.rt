//! The numbers that bound a machine: slots, addresses, values of a word, the budget of a chain,
//! mapped pages, consoles and what waits at them, symbols.

/// How many places there are for jobs; slots are the numbers below it. A session of version 1 has
/// fewer jobs.
pub const SLOTS: usize = 96;

/// How many addresses there are; addresses are the numbers below it.
pub const ADDRESSES: u32 = 0o1000000;

/// How many indirect words and XCT targets a unit may have.
pub const BUDGET: u32 = 64;

/// How many pages of 1024 words all jobs together can have.
pub const MAPPED_PAGES: u32 = 1024;

/// How many consoles there are; they go by the numbers below it.
pub const CONSOLES: usize = 8;

/// How many bytes wait at most at a console, in each direction.
pub const MOST_WAITING: u32 = 64;

/// How many symbols a job has at most.
pub const MOST_SYMBOLS: usize = 512;

/// How many values a word has: 2^36 (processor reference manual, "Number system").
pub const WORDS: u64 = 0o1000000000000;

/// The word with bit 0 on and no other; from this value on a word is negative, and has bit 0 on.
pub const BIT_0: u64 = 0o400000000000;
