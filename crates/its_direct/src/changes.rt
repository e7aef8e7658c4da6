//! Each change that a call makes outside its own words.

pub mod effects;
pub mod files;
pub mod links;
pub mod removal;
