//! The error numbers of calls (docs/CALLS.md, "How a call ends").

/// There is no such call.
pub const NO_CALL: u8 = 0o1;
/// There are too few inputs or outputs.
pub const TOO_FEW: u8 = 0o2;
/// There are too many inputs, outputs, error addresses or controls, or no end of the arguments.
pub const TOO_MANY: u8 = 0o3;
/// The channel is bad: its number is above 17, or it is closed; for OPEN, it is open.
pub const BAD_CHANNEL: u8 = 0o4;
/// The device or the direction is wrong.
pub const WRONG_DEVICE: u8 = 0o5;
/// There is no such file.
pub const NO_FILE: u8 = 0o6;
/// There are as many files as there can be.
pub const DIRECTORY_FULL: u8 = 0o7;
/// There is no block for a word more.
pub const DEVICE_FULL: u8 = 0o10;
/// A channel reads the file.
pub const FILE_LOCKED: u8 = 0o11;
/// There is no such job.
pub const NO_JOB: u8 = 0o12;
/// The job is no inferior of the caller.
pub const NOT_INFERIOR: u8 = 0o13;
/// No slot is empty.
pub const NO_SLOT: u8 = 0o14;
/// As many pages are there as there can be.
pub const NO_CORE: u8 = 0o15;
/// The page is there, not there, or read only.
pub const BAD_PAGE: u8 = 0o16;
/// The argument must be a word of its own.
pub const NO_WORD: u8 = 0o17;
/// The byte's word is one that the call reads.
pub const WORD_IN_USE: u8 = 0o20;
/// The byte pointer is bad.
pub const BAD_POINTER: u8 = 0o21;
/// The number is out of range.
pub const OUT_OF_RANGE: u8 = 0o22;
/// A file has these names.
pub const FILE_EXISTS: u8 = 0o23;
/// The end of the link is open, or was open.
pub const LINK_IN_USE: u8 = 0o24;
/// As many links are there as there can be.
pub const NO_LINK: u8 = 0o25;
/// The reading end of the link is closed.
pub const NOBODY_READS: u8 = 0o26;
