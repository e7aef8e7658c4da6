//! The bytes of a source, read 512 at a time and taken one by one.
ghost use Rattle.std.specs.Prelude.{◌≡◌, ◌≤◌, ◌+◌, ◌==◌, ◌≢◌, ◌<◌, [], true, length, take, drop, position, IfOk};
ghost use Rattle.std.specs.List.{list_all};
ghost use Rattle.std.specs.declared.option.Option.TheVariants.{None};
ghost use Rattle.its_io.specs.Bytes.{HasCause};
ghost use Rattle.its_reader.specs.Bytes.{pending, BufferFits, Filled, Given, Took, Taken, TookPlain, is_plain};

use arrayvec::ArrayVec;
use its_io::{Failed, Source};

/// The bytes of a source, which are read 512 at a time: those from `start` to `stop` were read, and
/// are not taken yet.
#[derive(Clone, Copy, Debug)]
pub struct Buffer {
    pub bytes: [u8; 512],
    pub start: usize,
    pub stop: usize,
}

impl Buffer {
    /// A buffer into which nothing was read.
    pub fn new() -> Buffer
        ensures fits { BufferFits result }
        ensures empty { pending result ≡ [] }
    {
        Buffer {
            bytes: [0; 512],
            start: 0,
            stop: 0,
        }
    }

    /// The next byte of the source; None at its end.
    #[tactic(auto, using(crate::proofs::BufferLaws::took))]
    pub fn next<S: Source>(&mut self, src: &mut S) -> Result<Option<u8>, Failed>
        requires fits { BufferFits self.old }
        requires readable { S.readable src.old ≡ true }
        ensures took { Took result self.old self.new (S.left src.old) (S.left src.new) }
        ensures fits { BufferFits self.new }
        ensures readable { IfOk result (λ b. b ≢ None → S.readable src.new ≡ true) }
        ensures cause { HasCause (S.faults src.old) (S.faults src.new) result }
    {
        match self.fill(src) {
            Ok(()) => Ok(self.take()),
            Err(e) => Err(e),
        }
    }

    /// Reads bytes, if all that were read are taken.
    #[tactic(auto, using(crate::proofs::BufferLaws::filled_some, crate::proofs::BufferLaws::filled_read, crate::proofs::BufferLaws::none_pending))]
    fn fill<S: Source>(&mut self, src: &mut S) -> Result<(), Failed>
        requires fits { BufferFits self.old }
        requires readable { S.readable src.old ≡ true }
        ensures filled { Filled result self.old self.new (S.left src.old) (S.left src.new) }
        ensures fits { BufferFits self.new }
        ensures readable { IfOk result (λ _. self.new.start < self.new.stop → S.readable src.new ≡ true) }
        ensures cause { HasCause (S.faults src.old) (S.faults src.new) result }
    {
        if self.start < self.stop {
            return Ok(());
        }
        let count = src.read(&mut self.bytes)?;
        self.start = 0;
        self.stop = count;
        Ok(())
    }

    /// Takes the first of the bytes that were read; None if all are taken.
    #[tactic(auto, using(crate::proofs::BufferLaws::taken, crate::proofs::BufferLaws::none_pending))]
    fn take(&mut self) -> Option<u8>
        requires fits { BufferFits self.old }
        ensures given { Given result (pending self.old) (pending self.new) }
        ensures some { result ≢ None → self.old.start < self.old.stop }
        ensures fits { BufferFits self.new }
    {
        if self.start == self.stop {
            return None;
        }
        let b = self.bytes[self.start];
        self.start += 1;
        Some(b)
    }

    /// Takes bytes from those that were read, up to the first LF, and adds them to a line; so many
    /// that it has `most` at most.
    #[inline]
    #[tactic(auto, using(crate::proofs::BufferLaws::took_plain))]
    pub(super) fn take_plain<const CAP: usize>(&mut self, line: &mut ArrayVec<u8, CAP>, most: usize)
        requires fits { BufferFits self.old }
        requires short { length line.old.items ≤ most }
        requires most { most ≤ CAP }
        ensures plain { TookPlain line.old.items line.new.items self.old self.new }
        ensures fits { BufferFits self.new }
        ensures short { length line.new.items ≤ most }
    {
        let end = self.start + self.plain(most - line.len());
        let _fits = line.try_extend_from_slice(&self.bytes[self.start..end]);
        self.start = end;
    }

    /// How many of the bytes that were read come before the first LF; `room` at most.
    #[inline]
    #[tactic(auto, using(crate::proofs::BufferLaws::plain_some))]
    fn plain(&self, room: usize) -> usize
        requires fits { BufferFits self.now }
        ensures plain { list_all is_plain (take result (drop self.now.start self.now.bytes)) ≡ true }
        ensures read { self.now.start + result ≤ self.now.stop }
        ensures room { result ≤ room }
    {
        let count = room.min(self.stop - self.start);
        match first_lf(&self.bytes[self.start..self.start + count]) {
            Some(place) => place,
            None => count,
        }
    }
}

/// The place of the first LF.
#[inline]
fn first_lf(bytes: &[u8]) -> Option<usize>
    ensures { result ≡ position (λ b. b == 10) bytes.now }
{
    bytes.iter().position(|b| *b == b'\n')
}
