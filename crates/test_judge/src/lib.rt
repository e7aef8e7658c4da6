//! The second machine (`its_direct`), and the checker of transcripts (`its_verify`).
#![tactic(auto)]

#[cfg(test)]
mod lines;
#[cfg(test)]
mod steps;
#[cfg(test)]
mod transcripts;
