//! Words whose memory is taken at once and which are written when they are first needed.

ghost use Rattle.std.specs.Prelude.{◌≡◌, ℕ, ◌-◌, ◌<◌, ◌≤◌, ◌++◌, [], length, replicate, slice_set, slice_index_or, IfOk};

use super::memory::NoMemory;
use super::word::Word;
use std::alloc::Global;
use std::marker::Model;

/// Words that are made ready from the first on. The memory for all of them is taken at the opening;
/// a word is first written when it is made ready. Contracts see the words that are ready, and how
/// many there may be.
#[derive(Drop)]
pub struct ReadyWords {
    ready: Vec<Word>,
}

impl Model for ReadyWords {
    ghost use Rattle.std.specs.Prelude.{vec_capacity};
    ghost use Rattle.its_word.specs.Ready.{Ready};

    ghost Value = { Ready };

    ghost view = { λ r. record { words = r.ready.items; most = vec_capacity r.ready } };
}

impl ReadyWords {
    /// No word is ready, and there is memory for so many.
    pub fn open(alloc: Global, most: usize) -> Result<ReadyWords, NoMemory>
        ensures { IfOk result (λ r. r ≡ record { words = []; most = most }) }
    {
        let ready = Vec::with_capacity(alloc, most).map_err(|_| NoMemory)?;
        Ok(ReadyWords { ready })
    }

    /// How many words are ready.
    pub fn len(&self) -> usize
        ensures length { result ≡ length self.now.words }
        ensures most { result ≤ self.now.most }
    {
        self.ready.len()
    }

    /// Word i, which is ready.
    #[inline(always)]
    pub fn get(&self, i: usize) -> Word
        requires { i < length self.now.words }
        ensures { result ≡ slice_index_or self.now.words i 0 }
    {
        self.ready[i]
    }

    /// Puts another word in the place of word i, which is ready.
    #[inline(always)]
    pub fn set(&mut self, i: usize, w: Word)
        requires { i < length self.old.words }
        ensures words { self.new.words ≡ slice_set self.old.words i w }
        ensures most { self.new.most ≡ self.old.most }
    {
        self.ready[i] = w;
    }

    /// Makes the first n words ready. Those that were not are zeros.
    pub fn make_ready(&mut self, n: usize)
        requires { n ≤ self.old.most }
        ensures words { self.new.words ≡ self.old.words ++ replicate (n - length self.old.words) 0 }
        ensures most { self.new.most ≡ self.old.most }
    {
        for _k in 0..n.saturating_sub(self.ready.len()) {
            self.ready.push_reserved(Word::ZERO);
        }
    }
}
