//! The left half of a byte pointer (processor reference manual, "Byte manipulation"): P is bits 0
//! to 5, S bits 6 to 11, bit 12 is not used, and I and X are bits 13 to 17.

/// Bits 13 to 17 of a pointer, I and X, are its left half modulo this.
pub const INDEXED: u32 = 0o40;

/// S, bits 6 to 11, is in the left half from this bit on.
pub const SIZE: u32 = 0o100;

/// How many values S has.
pub const SIZES: u32 = 0o100;

/// How many bits a word has: S of a pointer to whole words, and the largest S.
pub const WORD_BITS: u32 = 36;
