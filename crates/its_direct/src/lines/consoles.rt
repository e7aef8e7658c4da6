//! The lines TYPE and DRAIN.
ghost use Rattle.std.specs.Prelude.{◌≡◌, ◌<◌, ◌≤◌, ◌++◌, [], length, take, drop, slice_get};
ghost use Rattle.std.specs.List.{cons_option};
ghost use Rattle.its_word.specs.Console.{most_waiting};
ghost use Rattle.its_plain.specs.Operator.Consoles.{with_typed, dropped, after_drain};
ghost use Rattle.its_shared.specs.Parts.{console_at};
ghost use Rattle.its_direct.specs.Consoles.{lost_of};
ghost use Rattle.its_direct.specs.Plain.{machine_of, Tidy};
ghost use Rattle.its_direct.specs.Lines.{Stands, ConsoleBecomes};

use crate::plain::Plain;
use arrayvec::ArrayVec;
use its_console::Console;
use its_word::ConsoleNumber;

impl Plain {
    /// TYPE: bytes are typed at a console, as many as have room; how many were dropped.
    pub fn type_in(&mut self, c: ConsoleNumber, bytes: &[u8]) -> u32
        requires few { length bytes.now ≤ 32 }
        requires tidy { Tidy self.old }
        ensures dropped { result ≡ dropped ((machine_of self.old).consoles c) bytes.now }
        ensures done { Stands self.old self.new (with_typed c bytes.now (machine_of self.old)) }
        ensures tidy { Tidy self.new }
    {
        let dropped = self.type_at(c, bytes);
        self.touch_none();
        dropped
    }

    /// DRAIN: takes up to n bytes of the output of a console, those that were put out first.
    pub fn drain(&mut self, c: ConsoleNumber, n: u32) -> ArrayVec<u8, 64>
        requires number { n ≤ 64 }
        requires tidy { Tidy self.old }
        ensures drained { result.items ≡ take n ((machine_of self.old).consoles c).output }
        ensures done { Stands self.old self.new (after_drain c n (machine_of self.old)) }
        ensures tidy { Tidy self.new }
    {
        let bytes = self.drain_at(c, n);
        self.touch_none();
        bytes
    }

    /// Types bytes at a console.
    #[tactic(auto, using(crate::proofs::ConsoleLaws::console_becomes))]
    pub(crate) fn type_at(&mut self, c: ConsoleNumber, bytes: &[u8]) -> u32
        requires few { length bytes.now ≤ 32 }
        ensures dropped { result ≡ dropped (console_at self.old.consoles.items c) bytes.now }
        ensures typed { ConsoleBecomes self.old self.new c (record (console_at self.old.consoles.items c) { input = take most_waiting ((console_at self.old.consoles.items c).input ++ bytes.now) }) }
    {
        type_all(&mut self.consoles[c.index()], bytes)
    }

    /// Drains bytes of a console.
    #[tactic(auto, using(crate::proofs::ConsoleLaws::console_becomes))]
    fn drain_at(&mut self, c: ConsoleNumber, n: u32) -> ArrayVec<u8, 64>
        requires number { n ≤ 64 }
        ensures drained { result.items ≡ take n (console_at self.old.consoles.items c).output }
        ensures rest { ConsoleBecomes self.old self.new c (record (console_at self.old.consoles.items c) { output = drop n (console_at self.old.consoles.items c).output }) }
    {
        drain_all(&mut self.consoles[c.index()], n)
    }
}

/// Types bytes at a console, as many as have room; how many were dropped.
#[tactic(auto, using(crate::proofs::ConsoleLaws::typing_begins))]
fn type_all(console: &mut Console, bytes: &[u8]) -> u32
    requires { length bytes.now ≤ 32 }
    ensures dropped { result ≡ dropped console.old bytes.now }
    ensures typed { console.new ≡ record console.old { input = take most_waiting (console.old.input ++ bytes.now) } }
{
    let (_, _) = console.waiting();
    let mut dropped = 0;
    for b in bytes {
        let kept = console.type_in(*b);
        dropped += lost(kept);
    }
    dropped
}

/// A byte that is not kept is lost.
fn lost(kept: bool) -> u32
    ensures lost { result ≡ lost_of kept }
    ensures most { result ≤ 1 }
{
    if kept { 0 } else { 1 }
}

/// Drains up to n bytes of a console.
#[tactic(auto, using(crate::proofs::ConsoleLaws::draining_begins))]
fn drain_all(console: &mut Console, n: u32) -> ArrayVec<u8, 64>
    requires { n ≤ 64 }
    ensures drained { result.items ≡ take n console.old.output }
    ensures rest { console.new ≡ record console.old { output = drop n console.old.output } }
{
    let mut bytes = ArrayVec::new();
    for _k in 0..n {
        drain_one(console, &mut bytes);
    }
    bytes
}

/// Drains a byte of a console, if one waits.
fn drain_one(console: &mut Console, bytes: &mut ArrayVec<u8, 64>)
    requires { length bytes.old.items < 64 }
    ensures rest { console.new ≡ record console.old { output = drop 1 console.old.output } }
    ensures bytes { bytes.new.items ≡ bytes.old.items ++ cons_option (slice_get console.old.output 0) [] }
{
    if let Some(b) = console.drain() {
        bytes.push(b);
    }
}
