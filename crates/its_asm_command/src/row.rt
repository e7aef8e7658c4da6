//! An `a/` line that is being filled.
ghost use Rattle.std.specs.Prelude.{◌≡◌, ◌+◌, ◌<◌, ◌∷◌, ◌++◌, [], true, length};
ghost use Rattle.its_asm_command.specs.Written.{goes_on};

use arrayvec::ArrayVec;
use its_word::Word;

/// Consecutive words from an address on, 1 to 16.
#[derive(Debug, Drop)]
pub struct Row {
    pub start: u32,
    pub words: ArrayVec<Word, 16>,
}

impl Row {
    /// A row of one word.
    pub fn new(start: u32, w: Word) -> Row
        ensures start { result.start ≡ start }
        ensures words { result.words.items ≡ w ∷ [] }
    {
        let mut words = ArrayVec::new();
        words.push(w);
        Row { start, words }
    }

    /// Whether a word at this address goes on in the row: it is right after, and there is room for
    /// it.
    pub fn goes_on(&self, a: u32) -> bool
        ensures { result ≡ goes_on self.now.start self.now.words.items a }
    {
        u64::from(a) == u64::from(self.start) + self.words.len() as u64 && self.words.len() < 16
    }

    /// The row with a word more, for which there is room.
    pub fn with(self, w: Word) -> Row
        requires { length self.words.items < 16 }
        ensures start { result.start ≡ self.start }
        ensures words { result.words.items ≡ self.words.items ++ w ∷ [] }
    {
        let mut row = self;
        row.words.push(w);
        row
    }
}
