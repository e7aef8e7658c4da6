//! The calls of the operator on the monitor (`its_monitor`), one after another.
#![tactic(auto)]

#[cfg(test)]
mod filing;
#[cfg(test)]
mod operator;
