//! How far a session is: the job and the file of its last LOAD and FILE lines.
ghost use Rattle.std.specs.Prelude.{◌≡◌};
ghost use Rattle.its_plain.specs.Operator.{no_block};

use its_word::{Slot, Word};

/// The state of a session at a line: the number of the line, from 1; the slot of the job that the
/// last LOAD line made; and the directory and the two names of the file that the last FILE line
/// made.
#[derive(Clone, Copy, Debug, PartialEq, Eq)]
pub struct Progress {
    pub number: u32,
    pub slot: Slot,
    pub file: [Word; 3],
}

impl Progress {
    /// The lines that follow are about no job and no file, until a line names one.
    pub fn leave_block(&mut self)
        ensures slot { self.new.slot ≡ no_block.slot }
        ensures file { self.new.file ≡ no_block.file }
        ensures number { self.new.number ≡ self.old.number }
    {
        let file = [Word::ZERO; 3];
        self.slot = Slot::FIRST;
        self.file = file;
    }
}
