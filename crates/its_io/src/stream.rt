//! The traits of a source and a sink.
ghost use Rattle.std.specs.Prelude.{◌≡◌, ◌≤◌, ◌<◌, ℕ, Bool, true, List, length, OnOk, OnErr, IfOk};
ghost use Rattle.std.specs.declared.option.Option.{Option};
ghost use Rattle.std.specs.Io.{ReadsAtMost, WritesAtMost};
ghost use Rattle.std.specs.Io.KnownBytes.{Appends, ReadConsumes, WriteAppends};
ghost use Rattle.its_io.specs.Bytes.{HasCause, Wrote, next_fault};

/// A read or a write that failed. The count of faults of its source or sink says how often.
#[derive(Clone, Copy, Debug, PartialEq, Eq)]
pub struct Failed;

/// The count of faults after one more, which stays at its last value.
pub(crate) fn next_fault(faults: u64) -> u64
    ensures { result ≡ next_fault faults }
{
    faults.saturating_add(1)
}

/// A source of bytes.
pub trait Source {
    /// The bytes that are left, if the contract says so.
    ghost left: { Self → Option (List ℕ) };

    /// How often a read has failed, up to 2^64 - 1.
    ghost faults: { Self → ℕ };

    /// Whether it may be read on. What reads any source knows this only after a read that gave
    /// bytes. So it reads no source after its end, at which a terminal waits for more, or a
    /// failure.
    ghost readable: { Self → Bool };

    /// Writes the next bytes into the front of the buffer, and says how many. Ok(0) for a buffer
    /// that is not empty means the end. A read that fails takes none.
    fn read(&mut self, buf: &mut [u8]) -> Result<usize, Failed>
        requires readable { readable self.old ≡ true }
        ensures bound { ReadsAtMost result buf.new }
        ensures bytes { ReadConsumes (left self.old) (left self.new) result buf.new }
        ensures cause { HasCause (faults self.old) (faults self.new) result }
        ensures readable { IfOk result (λ n. 0 < n → readable self.new ≡ true) };
}

/// A sink of bytes.
pub trait Sink {
    /// The bytes that were written, if the contract says so.
    ghost written: { Self → Option (List ℕ) };

    /// How often a write has failed, up to 2^64 - 1.
    ghost faults: { Self → ℕ };

    /// Takes some of the bytes from the front, at least one if there is one, and says how many. A
    /// write that fails takes none.
    fn write(&mut self, bytes: &[u8]) -> Result<usize, Failed>
        ensures bound { WritesAtMost result bytes.now }
        ensures some { IfOk result (λ n. 0 < length bytes.now → 0 < n) }
        ensures bytes { WriteAppends (written self.old) (written self.new) result bytes.now }
        ensures cause { HasCause (faults self.old) (faults self.new) result };
}

/// Writes all the bytes by calls of `write`. If one fails, the bytes written are the first part of
/// the bytes.
pub fn write_all<K: Sink>(out: &mut K, bytes: &[u8]) -> Result<(), Failed>
    ensures all { OnOk result (Appends (K.written out.old) (K.written out.new) bytes.now) }
    ensures begun { OnErr result ((wrote : List ℕ) × Wrote (K.written out.old) (K.written out.new) wrote bytes.now) }
    ensures cause { HasCause (K.faults out.old) (K.faults out.new) result }
{
    let mut rest = bytes;
    while !rest.is_empty() {
        let count = out.write(rest)?;
        rest = &rest[count..];
    }
    Ok(())
}
