//! The decisions of calls on files: OPEN and transfers; directory calls (docs/CALLS.md, "Files").
//! These are OPEN, CLOSE, `.IOT` and SIOT if their device is DSK; ACCESS, FILLEN, DELETE and
//! RENAME. Also which calls are those on files. A decision is found from the world as it is, and
//! changes nothing.
//!
//! Proved: OPEN of DSK, CLOSE of a draft, `.IOT` and SIOT on files and drafts, ACCESS, FILLEN,
//! DELETE and RENAME decide by their definitions, with every error and fault in their order.
//! `helps` says whether a call is on files.
//!
//! Tests: test_calls/src/files.rt.
#![tactic(auto)]

mod calls;
mod channels;
mod directory;
mod transfer;

pub use calls::{helps, is_disk};
pub use channels::{access, close_draft, fillen, open_disk};
pub use directory::{delete, rename};
pub use transfer::{iot_reads, iot_writes, siot_reads, siot_writes};
