//! A source and a sink that never fail.
ghost use Rattle.std.specs.Prelude.{◌≡◌, ◌<◌, ◌++◌, ℕ, true, List, min, length, take, drop, IfOk, IsOk, Ok};
ghost use Rattle.std.specs.declared.option.Option.TheVariants.{Some, None};
ghost use Rattle.std.specs.Io.{ReadsAtMost, WritesAtMost};
ghost use Rattle.std.specs.Io.KnownBytes.{ReadConsumes, WriteAppends};
ghost use Rattle.its_io.specs.Bytes.{HasCause};

use super::memory::copy_from;
use super::stream::{Failed, Sink, Source};
use its_word::NoMemory;
use std::alloc::Global;
use std::marker::Model;

/// A source over memory that never fails and gives as many bytes as fit.
#[derive(Drop)]
pub struct SafeSource {
    bytes: Vec<u8>,
    at: usize,
}

impl Model for SafeSource {
    ghost use Rattle.std.specs.Prelude.{ℕ, List, ◌≤◌, drop, length};

    ghost Value = { List ℕ };

    ghost view = { λ s. drop s.at s.bytes.items };

    ghost invariant = { λ s. s.at ≤ length s.bytes.items };
}

impl SafeSource {
    /// A source of these bytes. All memory is taken here.
    pub fn open(alloc: Global, bytes: &[u8]) -> Result<SafeSource, NoMemory>
        ensures { IfOk result (λ s. s ≡ bytes.now) }
    {
        Ok(SafeSource {
            bytes: Vec::from_slice(alloc, bytes).map_err(|_| NoMemory)?,
            at: 0,
        })
    }

    /// A source of the bytes of a vector. It takes no memory.
    pub fn of(bytes: Vec<u8>) -> SafeSource
        ensures { result ≡ bytes.items }
    {
        SafeSource { bytes, at: 0 }
    }
}

impl Source for SafeSource {
    ghost left = { λ s. Some s };

    ghost faults = { λ _. 0 };

    ghost readable = { λ _. true };

    fn read(&mut self, buf: &mut [u8]) -> Result<usize, Failed>
        ensures gives { result ≡ Ok (min (length self.old) (length buf.old)) }
        ensures copied { IfOk result (λ n. buf.new ≡ take n self.old ++ drop n buf.old) }
        ensures rest { IfOk result (λ n. self.new ≡ drop n self.old) }

        // What each source says.
        ensures bound { ReadsAtMost result buf.new }
        ensures bytes { ReadConsumes (Some self.old) (Some self.new) result buf.new }
        ensures cause { HasCause 0 0 result }
    {
        let count = copy_from(&self.bytes, self.at, usize::MAX, buf);
        self.at += count;
        Ok(count)
    }
}

/// A sink that never fails. It keeps no bytes.
#[derive(Clone, Copy, Debug)]
pub struct SafeSink;

impl SafeSink {
    /// A sink.
    pub fn new() -> SafeSink {
        SafeSink
    }
}

impl Sink for SafeSink {
    ghost written = { λ _. None };

    ghost faults = { λ _. 0 };

    fn write(&mut self, bytes: &[u8]) -> Result<usize, Failed>
        ensures takes { result ≡ Ok (length bytes.now) }

        // What each sink says.
        ensures bound { WritesAtMost result bytes.now }
        ensures some { IfOk result (λ n. 0 < length bytes.now → 0 < n) }
        ensures bytes { WriteAppends None None result bytes.now }
        ensures cause { HasCause 0 0 result }
    {
        Ok(bytes.len())
    }
}
