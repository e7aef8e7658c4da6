//! Sources and sinks of bytes that count their faults. Here are the traits, and the objects over
//! memory that tests use, those that never fail, and those over standard input and output.
//!
//! Proved: `MemSource` and `MemSink` give and take exactly their bytes; `SafeSource` and `SafeSink`
//! never fail; `write_all` writes all its bytes, or fails after a first part (`all`, `begun`). Each
//! source and sink counts exactly the calls that failed (`cause`).
//!
//! `MemSource` and `MemSink` count their calls in a `u128`, so that no call past the last number
//! that a list can name fails.
//!
//! Standard output of the kit keeps no bytes back, so the sink does not flush it: no test could
//! distinguish that line from none. If a kit keeps bytes back, `tools/answers` fails, because it
//! wants each answer before it writes the next line.
//!
//! Over an object that cannot fail, no fault is answered. The clause says so with a premise on the
//! type of the object: its count of faults is the same in all its states. So the clause names no
//! object, and holds of `SafeSource` and `SafeSink` by the definition of their counts.
//!
//! Tests: test_text/src/objects.rt.
#![tactic(auto)]

mod memory;
mod real;
mod safe;
mod stream;

pub use its_word::NoMemory;
pub use memory::{MemSink, MemSource};
pub use real::{RealSink, RealSource};
pub use safe::{SafeSink, SafeSource};
pub use stream::{Failed, Sink, Source, write_all};
