//! The bytes that wait at a console, those typed and those that a job has put out.
//!
//! Proved: the input and the output are two lists of bytes, in the order in which they arrived.
//! `type_in` and `put` are false exactly if 64 bytes wait, and then nothing changes; `take` and
//! `drain` are None exactly if none waits.
//!
//! Tests: test_stores/src/consoles.rt.
#![tactic(auto)]

ghost use Rattle.std.specs.Prelude.{◌≡◌, ◌<◌, ◌≤◌, ◌↔◌, ℕ, [], ◌∷◌, ◌++◌, length, drop, slice_get, false, IsTrue, IfOk};
ghost use Rattle.its_word.specs.Console.{quiet_console, most_waiting};

use circular_buffer::HeapCircularBuffer;
use its_word::MOST_WAITING;
pub use its_word::NoMemory;
use std::alloc::Global;
use std::marker::Model;

/// A console. Contracts see the bytes that wait, in the order in which they came: its input and its
/// output.
#[derive(Drop)]
pub struct Console {
    input: HeapCircularBuffer<u8>,
    output: HeapCircularBuffer<u8>,
}

impl Model for Console {
    ghost use Rattle.std.specs.Prelude.{◌≡◌, ◌≤◌, length};
    ghost use Rattle.its_word.specs.Console as waiting;

    ghost Value = { waiting.Console };

    ghost view = { λ a. record { input = a.input.items; output = a.output.items } };

    ghost invariant = { λ a. (a.input.capacity ≡ 64) × (a.output.capacity ≡ 64) × (length a.input.items ≤ 64) × (length a.output.items ≤ 64) };
}

impl Console {
    /// A console at which nothing waits. Takes the memory of both buffers.
    pub fn open(alloc: Global) -> Result<Console, NoMemory>
        ensures { IfOk result (λ c. c ≡ quiet_console) }
    {
        let input = HeapCircularBuffer::with_capacity(alloc, MOST_WAITING as usize).map_err(
            |_| NoMemory,
        )?;
        let output = HeapCircularBuffer::with_capacity(alloc, MOST_WAITING as usize).map_err(
            |_| NoMemory,
        )?;
        Ok(Console { input, output })
    }

    /// A byte is typed. False if 64 typed bytes wait; the byte is then lost.
    pub fn type_in(&mut self, b: u8) -> bool
        ensures taken { IsTrue result ↔ (length self.old.input < most_waiting) }
        ensures typed { IsTrue result → self.new ≡ record self.old { input = self.old.input ++ b ∷ [] } }
        ensures same { result ≡ false → self.new ≡ self.old }
    {
        self.input.try_push_back(b).is_ok()
    }

    /// The first byte of the input, which remains there; None if nothing waits.
    pub fn first(&self) -> Option<u8>
        ensures { result ≡ slice_get self.now.input 0 }
    {
        self.input.front().copied()
    }

    /// Takes the typed byte that has waited longest; None if none waits.
    pub fn take(&mut self) -> Option<u8>
        ensures first { result ≡ slice_get self.old.input 0 }
        ensures rest { self.new ≡ record self.old { input = drop 1 self.old.input } }
    {
        self.input.pop_front()
    }

    /// Puts a byte out. False if 64 bytes wait to be drained; then nothing is put.
    pub fn put(&mut self, b: u8) -> bool
        ensures taken { IsTrue result ↔ (length self.old.output < most_waiting) }
        ensures put { IsTrue result → self.new ≡ record self.old { output = self.old.output ++ b ∷ [] } }
        ensures same { result ≡ false → self.new ≡ self.old }
    {
        self.output.try_push_back(b).is_ok()
    }

    /// Drains the byte that was put out first; None if none waits.
    pub fn drain(&mut self) -> Option<u8>
        ensures first { result ≡ slice_get self.old.output 0 }
        ensures rest { self.new ≡ record self.old { output = drop 1 self.old.output } }
    {
        self.output.pop_front()
    }

    /// The k-th of the typed bytes that wait, from 0; None past the last.
    pub fn input_at(&self, k: u32) -> Option<u8>
        ensures { result ≡ slice_get self.now.input k }
    {
        self.input.get(k as usize).copied()
    }

    /// The k-th of the bytes that were put out and wait, from 0; None past the last.
    pub fn output_at(&self, k: u32) -> Option<u8>
        ensures { result ≡ slice_get self.now.output k }
    {
        self.output.get(k as usize).copied()
    }

    /// How many typed bytes wait, and how many that were put out.
    pub fn waiting(&self) -> (u32, u32)
        ensures input { result.0 ≡ length self.now.input }
        ensures output { result.1 ≡ length self.now.output }
        ensures most { (result.0 ≤ most_waiting) × (result.1 ≤ most_waiting) }
    {
        (self.input.len() as u32, self.output.len() as u32)
    }
}
