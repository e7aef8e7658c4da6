//! The commands of the program, and the status of each.

pub mod answer;
pub mod assembling;
pub mod checking;
pub mod counts;
pub mod generating;
pub mod saving;
pub mod status;
pub mod verifying;
pub mod words;
