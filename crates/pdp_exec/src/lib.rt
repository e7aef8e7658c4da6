//! The unit of a job: one instruction, one word of BLT, or half of ILDB or IDPB (processor
//! reference manual, "User operations").
//!
//! Proved: `unit` is the definition of the unit, for every instruction, with the site of a call;
//! `run` is the unit without the site, and `site` is the site. `run_units` executes up to n units,
//! one after another, as long as no interrupt is deliverable and none is a call, and gives their
//! number (`left`, `most`).
//!
//! Most calls are one word at the PC of their job, with an address of its own.
//! `pdp_exec::call_at_hand` finds such a call without the list of places that were read, and the
//! tick enters it (`enter_near`). Any other unit, and a call that is reached by XCT or whose
//! address is indirect or indexed, goes the general way. Both have the row of the tick as their
//! clause. What `call_at_hand` answers is exact (`near_call` in `specs/Near.antt`): a call if the
//! word at the PC can be read, its I and X are 0, and it is `.IOT` or `.CALL`; else None.
//!
//! `unit` answers a call of the monitor with its site. The monitor's tick executes the unit by
//! `run_units`, which leaves the site out, and asks `site` for it only if the unit is a call: the
//! answer `Call(Site)` has 680 bytes, which would be cleared at each tick. For the same reason the
//! places that are read are noted only on the way to a call, and at an XCT.
//!
//! A unit's plan is a `Draft` in the code, whose stores are an enum of up to three and no array, so
//! that it stays in registers. Contracts see it as the `Plan` of the definitions.
//!
//! The loop of units is in `pdp_exec` (`run_units`), not in the monitor: the monitor and the
//! checker of transcripts both call it, so the frequent opcodes have one place in the program, in
//! which they are inlined. `inline` hints in `pdp_exec` and on `its_word::decode` keep a unit in
//! that loop. Which opcodes are there (25), and which in a function of their own (46), was chosen
//! by what programs of the PDP-10 use most; the results are the same, and so is the contract.
//!
//! Tests: test_pdp/src/instructions.rt.
#![tactic(auto)]

// The files:
// - `units.rt`: a unit from its beginning
// - `near.rt`: a call whose word is at the PC
// - `acting.rt`: an arm for each frequent opcode
// - `series.rt`: units one after another
// - `plans.rt`, `stores.rt`, `making.rt`: what an instruction does, as a plan with its stores; and
//   a plan carried out
// - `arithmetic.rt`, `comparisons.rt`, `moves.rt`, `branches.rt`, `bytes.rt`: the plans of the
//   families
// - `chain.rt`, `reads.rt`: the words that are read on the way to an instruction
mod acting;
mod arithmetic;
mod branches;
mod bytes;
mod chain;
mod comparisons;
mod making;
mod moves;
mod near;
mod plans;
mod reads;
mod series;
mod stores;
mod units;

pub use near::{Near, call_at_hand};
pub use series::run_units;
pub use units::{Ended, Outcome, run, site, unit};
