//! The decoding of calls: the argument block, and then the arguments. A call's block is read if it
//! has one; then its arguments are found one by one, and their values are taken. Both parts write
//! their result in place.
//!
//! Proved: `parse_site` and `fetch_site` are exactly the two parts of the definition of decoding,
//! with its faults. A fault of the first part is that of the decoding (`ask`), and for the block
//! that the first part has read the second part is the decoding (`asks`).
//!
//! The two parts of decoding, `parse_site` and `fetch_site` of its_decode, look at a core and a
//! site; the frames around them are made in the tick.
//!
//! The decode words of the argument block are not kept with a call in progress; its arguments are
//! found anew from E and the length of the block.
//!
//! Tests: test_decisions/src/decoding.rt, test_calls/src/calls.rt.
#![tactic(auto)]

mod arguments;
mod asking;
mod block;

pub use asking::{fetch_site, parse_site};
