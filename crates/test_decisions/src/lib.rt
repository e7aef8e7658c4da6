//! What a tick decides: calls decoded, decided and carried out; interrupts; turns. The decoding of
//! calls (`its_decode`), their decisions at each error and as they wait, go on and finish
//! (`call_basic`, `call_tty`), the place of a call (`its_in_call`), changes that are carried out
//! (`its_commit`), calls that are unwound (`its_pclsr`), interrupts (`its_ints`), and whose turn
//! comes next (`its_robin`).
#![tactic(auto)]

#[cfg(test)]
mod basic;
#[cfg(test)]
mod caller;
#[cfg(test)]
mod consoles;
#[cfg(test)]
mod decoding;
#[cfg(test)]
mod interrupts;
#[cfg(test)]
mod places;
#[cfg(test)]
mod removals;
#[cfg(test)]
mod rows;
#[cfg(test)]
mod turns;
