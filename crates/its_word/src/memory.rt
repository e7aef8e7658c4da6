//! The error that there is no memory.

use thiserror::Error;

/// The memory that a type needs at its making was refused.
#[derive(Clone, Copy, Debug, PartialEq, Eq, Error)]
#[error("out of memory")]
pub struct NoMemory;
