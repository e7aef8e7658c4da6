//! Instructions, on results of a simulator of the processor. Whole units (`pdp_exec`), integer
//! arithmetic (`pdp_arith`), Boolean functions, halves, tests and shifts (`pdp_logic`), and byte
//! pointers (`its_bytes`).
#![tactic(auto)]

#[cfg(test)]
mod arithmetic;
#[cfg(test)]
mod booleans;
#[cfg(test)]
mod instructions;
#[cfg(test)]
mod pointers;
