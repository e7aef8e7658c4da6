//! The numbers of calls and of the clock that both machines use, as the definitions give them.

/// The device of files, DSK in SIXBIT.
pub const DSK: u64 = 0o446353000000;

/// The device of consoles, TTY in SIXBIT.
pub const TTY: u64 = 0o646471000000;

/// The device of inferiors, USR in SIXBIT.
pub const USR: u64 = 0o656362000000;

/// The device of links, LNK in SIXBIT.
pub const LNK: u64 = 0o545653000000;

/// How many argument words of a call's block are read at most.
pub const ARGUMENTS: u32 = 8;

/// What `.IOT` gets at the end of a file, of an inferior's core or of a link.
pub const END_OF_FILE: u64 = 0o777777000003;

/// The bits of a byte that a console shows.
pub const SHOWN: u64 = 0o177;

/// The longest sleep, in thirtieths of a second.
pub const LONGEST_SLEEP: u64 = 0o200000000000;

/// The longest period of an alarm, in thirtieths of a second.
pub const LONGEST_PERIOD: u64 = 0o200000000000;

/// The clock stays below this many thirtieths of a second.
pub const CLOCK_END: u64 = 0o200000000000;

/// The highest operation of CORBLK.
pub const HIGHEST_OPERATION: u64 = 3;

/// The highest page that CORBLK changes.
pub const HIGHEST_PAGE: u64 = 0o377;
