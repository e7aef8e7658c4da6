//! Standard input and output. What the system gives and takes is trusted; no contract mentions the
//! bytes.
ghost use Rattle.std.specs.Prelude.{◌≡◌, true};
ghost use Rattle.std.specs.declared.option.Option.TheVariants.{None};

use super::stream::{Failed, Sink, Source, next_fault};
use std::io::{Read, Stdin, Stdout, Write};
use std::marker::Model;

/// Standard input, with a count of the reads that failed; contracts see the count.
#[derive(Drop)]
pub struct RealSource {
    stdin: Stdin,
    faults: u64,
}

impl Model for RealSource {
    ghost use Rattle.std.specs.Prelude.{ℕ};

    ghost Value = { ℕ };

    ghost view = { λ s. s.faults };
}

impl RealSource {
    /// Standard input, with no fault so far.
    pub fn new(stdin: Stdin) -> RealSource
        ensures { result ≡ 0 }
    {
        RealSource { stdin, faults: 0 }
    }
}

impl Source for RealSource {
    ghost left = { λ _. None };

    ghost faults = { λ s. s };

    ghost readable = { λ _. true };

    fn read(&mut self, buf: &mut [u8]) -> Result<usize, Failed> {
        match self.stdin.read(buf) {
            Ok(count) => Ok(count),
            Err(_) => {
                self.faults = next_fault(self.faults);
                Err(Failed)
            }
        }
    }
}

/// Standard output, which keeps no bytes back, with a count of the writes that failed. A write that
/// took none of some bytes counts as a fault; contracts see the count.
#[derive(Drop)]
pub struct RealSink {
    stdout: Stdout,
    faults: u64,
}

impl Model for RealSink {
    ghost use Rattle.std.specs.Prelude.{ℕ};

    ghost Value = { ℕ };

    ghost view = { λ s. s.faults };
}

impl RealSink {
    /// Standard output, with no fault so far.
    pub fn new(stdout: Stdout) -> RealSink
        ensures { result ≡ 0 }
    {
        RealSink { stdout, faults: 0 }
    }
}

impl Sink for RealSink {
    ghost written = { λ _. None };

    ghost faults = { λ s. s };

    fn write(&mut self, bytes: &[u8]) -> Result<usize, Failed> {
        match self.stdout.write(bytes) {
            Ok(count) if count > 0 || bytes.is_empty() => Ok(count),
            _ => {
                self.faults = next_fault(self.faults);
                Err(Failed)
            }
        }
    }
}
