//! The program: its words, standard input and output go to the top call. An exit status is made of
//! the answer.
//!
//! Proved: `exit_status` is the status of each answer. No clause says which words `main` passes on.
//!
//! Tests: its/args, its/stdin, its/stdout.
#![tactic(auto)]

ghost use Rattle.std.specs.Prelude.{◌≡◌};
ghost use Rattle.its.specs.Exit.{exit_status};

use its_io::{RealSink, RealSource};
use its_top::{Status, its};
use std::env;
use std::io::{self, ErrorKind};
use std::process::ExitCode;

/// The exit status of an answer.
fn exit_status(status: Status) -> u8
    ensures { result ≡ exit_status status }
{
    match status {
        Status::Done => 0,
        Status::Usage => 1,
        Status::Refused => 2,
        Status::ReadFault => 3,
        Status::WriteFault => 4,
        Status::NoMemory => 5,
        Status::TooLong => 6,
    }
}

/// The exit status if the system does not give the words.
fn no_words(e: io::Error) -> u8 {
    match e.kind() {
        ErrorKind::OutOfMemory => 5,
        _ => 7,
    }
}

fn main(rt: HostRuntime) -> ExitCode {
    let args = match env::args(&rt) {
        Ok(args) => args,
        Err(e) => return ExitCode::from(no_words(e)),
    };
    let mut words = Vec::new(rt.alloc());
    for word in args.skip(1) {
        if words.push(word).is_err() {
            return ExitCode::from(5);
        }
    }
    let mut src = RealSource::new(rt.stdin());
    let mut out = RealSink::new(rt.stdout());
    ExitCode::from(exit_status(its(rt.alloc(), &words, &mut src, &mut out)))
}
