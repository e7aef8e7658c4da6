//! A source and a sink over memory, whose calls fail if a test says so.
ghost use Rattle.std.specs.Prelude.{◌≡◌, ◌≤◌, ◌<◌, ◌⊎◌, ◌↔◌, ℕ, true, [], ◌∷◌, ◌++◌, ◌+◌, ◌^◌, min, length, take, drop, Contains, IsTrue, IsErr, IfOk, OnErr};
ghost use Rattle.std.specs.declared.option.Option.TheVariants.{Some};
ghost use Rattle.std.specs.Io.{ReadsAtMost, WritesAtMost};
ghost use Rattle.std.specs.Io.KnownBytes.{ReadConsumes, WriteAppends};
ghost use Rattle.its_io.specs.Bytes.{HasCause};
ghost use Rattle.its_io.specs.Memory.{next_call, given, read_from, read_failed, taken, written_to, write_failed};

use super::stream::{Failed, Sink, Source, next_fault};
use its_word::NoMemory;
use std::alloc::Global;
use std::marker::Model;

/// Whether the call with this number is among those that fail.
fn is_named(call: u128, fails: &[u64]) -> bool
    ensures { IsTrue result ↔ Contains fails.now call }
{
    fails.iter().any(|number| u128::from(*number) == call)
}

/// The number of the next call; 2^64 if no more have one.
fn call_after(call: u128) -> u128
    requires { call ≤ 2 ^ 64 }
    ensures { result ≡ next_call call }
{
    (call + 1).min(1 << 64)
}

/// Copies as many of the bytes from `at` on as fit, and at most `piece`, into the front of the
/// buffer.
#[tactic(auto, using(crate::proofs::ByteLaws::left_in_parts, crate::proofs::ByteLaws::none_left))]
pub(crate) fn copy_from(bytes: &[u8], at: usize, piece: usize, buf: &mut [u8]) -> usize
    requires begins { at ≤ length bytes.now }
    requires gives { 1 ≤ piece }
    ensures count { result ≡ min (length (drop at bytes.now)) (min (length buf.old) piece) }
    ensures copied { buf.new ≡ take result (drop at bytes.now) ++ drop result buf.old }
    ensures within { at + result ≤ length bytes.now }
    ensures front { take result buf.new ≡ take result (drop at bytes.now) }
    ensures rest { drop at bytes.now ≡ take result (drop at bytes.now) ++ drop (at + result) bytes.now }
    ensures end { result ≡ 0 → 0 < length buf.old → drop (at + result) bytes.now ≡ [] }
{
    let rest = &bytes[at..];
    let count = rest.len().min(buf.len().min(piece));
    buf[..count].copy_from_slice(&rest[..count]);
    count
}

/// A source over memory. It gives at most `piece` bytes a read, and its calls, numbered from 0,
/// fail if their number was named.
#[derive(Drop)]
pub struct MemSource {
    bytes: Vec<u8>,
    at: usize,
    calls: u128,
    faults: u64,
    piece: usize,
    fails: Vec<u64>,
}

impl Model for MemSource {
    ghost use Rattle.std.specs.Prelude.{◌≤◌, ◌^◌, drop, length};
    ghost use Rattle.its_io.specs.Memory.{SourceState};

    ghost Value = { SourceState };

    ghost view = { λ s. record { left = drop s.at s.bytes.items; calls = s.calls; faults = s.faults; piece = s.piece; fails = s.fails.items } };

    ghost invariant = { λ s. (s.at ≤ length s.bytes.items) × (s.calls ≤ 2 ^ 64) × (1 ≤ s.piece) };
}

impl MemSource {
    /// A source of these bytes. All memory is taken here.
    pub fn open(
        alloc: Global,
        bytes: &[u8],
        piece: usize,
        fails: &[u64],
    ) -> Result<MemSource, NoMemory>
        requires { 1 ≤ piece }
        ensures { IfOk result (λ s. s ≡ record { left = bytes.now; calls = 0; faults = 0; piece = piece; fails = fails.now }) }
    {
        Ok(MemSource {
            bytes: Vec::from_slice(alloc, bytes).map_err(|_| NoMemory)?,
            at: 0,
            calls: 0,
            faults: 0,
            piece,
            fails: Vec::from_slice(alloc, fails).map_err(|_| NoMemory)?,
        })
    }

    /// The bytes that are left.
    pub fn rest(&self) -> &[u8]
        ensures { result.now ≡ self.now.left }
    {
        &self.bytes[self.at..]
    }
}

impl Source for MemSource {
    ghost left = { λ s. Some s.left };

    ghost faults = { λ s. s.faults };

    ghost readable = { λ _. true };

    fn read(&mut self, buf: &mut [u8]) -> Result<usize, Failed>
        ensures fails { IsErr result ↔ Contains self.old.fails self.old.calls }
        ensures count { IfOk result (λ n. n ≡ given self.old (length buf.old)) }
        ensures copied { IfOk result (λ n. buf.new ≡ take n self.old.left ++ drop n buf.old) }
        ensures source { IfOk result (λ n. self.new ≡ read_from self.old n) }
        ensures failed { OnErr result ((self.new ≡ read_failed self.old) × (buf.new ≡ buf.old)) }

        // What each source says.
        ensures bound { ReadsAtMost result buf.new }
        ensures bytes { ReadConsumes (Some self.old.left) (Some self.new.left) result buf.new }
        ensures cause { HasCause self.old.faults self.new.faults result }
    {
        let call = self.calls;
        self.calls = call_after(call);
        if is_named(call, &self.fails) {
            self.faults = next_fault(self.faults);
            return Err(Failed);
        }
        let count = copy_from(&self.bytes, self.at, self.piece, buf);
        self.at += count;
        Ok(count)
    }
}

/// A sink over memory. It has room for `room` bytes, and its calls, numbered from 0, fail if their
/// number was named.
#[derive(Drop)]
pub struct MemSink {
    bytes: Vec<u8>,
    calls: u128,
    faults: u64,
    room: usize,
    fails: Vec<u64>,
}

impl Model for MemSink {
    ghost use Rattle.std.specs.Prelude.{◌≤◌, ◌^◌, length, vec_capacity};
    ghost use Rattle.its_io.specs.Memory.{SinkState};

    ghost Value = { SinkState };

    ghost view = { λ s. record { written = s.bytes.items; calls = s.calls; faults = s.faults; room = s.room; fails = s.fails.items } };

    ghost invariant = { λ s. (length s.bytes.items ≤ s.room) × (s.room ≤ vec_capacity s.bytes) × (s.calls ≤ 2 ^ 64) };
}

impl MemSink {
    /// A sink with room for `room` bytes. All memory is taken here.
    pub fn open(alloc: Global, room: usize, fails: &[u64]) -> Result<MemSink, NoMemory>
        ensures { IfOk result (λ s. s ≡ record { written = []; calls = 0; faults = 0; room = room; fails = fails.now }) }
    {
        Ok(MemSink {
            bytes: Vec::with_capacity(alloc, room).map_err(|_| NoMemory)?,
            calls: 0,
            faults: 0,
            room,
            fails: Vec::from_slice(alloc, fails).map_err(|_| NoMemory)?,
        })
    }

    /// The bytes that were written.
    pub fn written(&self) -> &[u8]
        ensures { result.now ≡ self.now.written }
    {
        &self.bytes
    }
}

impl Sink for MemSink {
    ghost written = { λ s. Some s.written };

    ghost faults = { λ s. s.faults };

    fn write(&mut self, bytes: &[u8]) -> Result<usize, Failed>
        ensures fails { IsErr result ↔ (Contains self.old.fails self.old.calls ⊎ (0 < length bytes.now × length self.old.written ≡ self.old.room)) }
        ensures count { IfOk result (λ n. n ≡ taken self.old bytes.now) }
        ensures sink { IfOk result (λ n. self.new ≡ written_to self.old bytes.now n) }
        ensures failed { OnErr result (self.new ≡ write_failed self.old) }

        // What each sink says.
        ensures bound { WritesAtMost result bytes.now }
        ensures some { IfOk result (λ n. 0 < length bytes.now → 0 < n) }
        ensures bytes { WriteAppends (Some self.old.written) (Some self.new.written) result bytes.now }
        ensures cause { HasCause self.old.faults self.new.faults result }
    {
        let call = self.calls;
        self.calls = call_after(call);
        let space = self.room - self.bytes.len();
        if is_named(call, &self.fails) || (!bytes.is_empty() && space == 0) {
            self.faults = next_fault(self.faults);
            return Err(Failed);
        }
        let count = bytes.len().min(space);
        self.bytes.extend_from_slice(&bytes[..count]).unwrap();
        Ok(count)
    }
}
