//! The flags of a PC word, as bits of its left half (processor reference manual, "Program
//! control").
ghost use Rattle.std.specs.Prelude.{◌≡◌};
ghost use Rattle.its_word.specs.Flags.{pc_word, flags_of};

use super::word::Word;

/// Overflow.
pub const OVERFLOW: u32 = 0o400000;
/// A carry out of bit 0.
pub const CARRY_0: u32 = 0o200000;
/// A carry out of bit 1.
pub const CARRY_1: u32 = 0o100000;
/// Floating overflow.
pub const FLOATING_OVERFLOW: u32 = 0o040000;
/// First part done: the byte pointer of ILDB or IDPB is incremented already.
pub const BYTE_HALF: u32 = 0o020000;
/// User mode; on in each PC word that is saved.
pub const USER: u32 = 0o010000;
/// No divide.
pub const NO_DIVIDE: u32 = 0o000040;

/// The flags that a PC word names, except user.
pub const NAMED_FLAGS: u32 = 0o760040;

/// The PC word of flags and a PC; user is always on.
pub fn pc_word(flags: u32, pc: u32) -> Word
    ensures { result ≡ pc_word flags pc }
{
    Word::pair(flags & NAMED_FLAGS | USER, pc)
}

/// The flags of a PC word.
pub fn flags_in(w: Word) -> u32
    ensures { result ≡ flags_of w }
{
    w.left() & NAMED_FLAGS
}
