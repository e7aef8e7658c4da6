//! The bits of pending word 1 (docs/MACHINE.md, "Interrupts"). Those of `FATAL` stop a job unless
//! they are enabled.

/// `.BREAK` was executed.
pub const BRK: u64 = 0o1;
/// An illegal operation.
pub const ILO: u64 = 0o2;
/// A reference to an absent page.
pub const MPV: u64 = 0o4;
/// A store to a read-only page.
pub const WRO: u64 = 0o10;
/// An `.IOT` that failed.
pub const IOC: u64 = 0o20;
/// An interrupt that cannot be delivered.
pub const TBL: u64 = 0o40;
/// A pushdown count ran out.
pub const PDL: u64 = 0o100;
/// An inferior was stopped by a fatal bit, or logged out.
pub const INF: u64 = 0o200;
/// A due alarm. It is not fatal.
pub const ALR: u64 = 0o400;
/// The fatal bits.
pub const FATAL: u64 = 0o77;
