//! The stepped machine, which works as the monitor does, and its laws. A tick of it is one tick of
//! the monitor on a raw machine with frames beside it; the laws tie it to the plain machine.
//! Definitions in `specs/` and laws in `proofs/` alone.
//!
//! Proved:
//! - The lines of `Lines.stepped` are a transcript (`written_transcript`, which `run.transcript`
//!   uses).
//! - Each tick is licensed and keeps soundness (`tick_is`, `tick_sound`, which clauses of its_tick
//!   use).
//! - No step of unwinding changes the plain machine (`unwind_plain`, which clauses of its_pclsr
//!   use).
//!
//! Definitions (docs/STEPS.md): `State` has a raw machine and the frames beside it, `State.plain`
//! is its plain machine, `Tick.tick` a tick, and `Lines.stepped` what the monitor writes, as a
//! function of the events.
//!
//! Laws along a run, of the moments alone: the ledger of the links (`LinkMovesLaws.link_ledger`),
//! stretches of a SIOT (`StretchLaws.stretches`), and what one step of a SIOT does
//! (`OneByteLaws.each_byte`). They need that the jobs are a forest, which they are all along a run.
//! To show a predicate of every run, show it of a letter, a turn and a line (`CourseLaws`). The
//! laws of security are in its_security.
//!
//! Tests: none, because it has no code.
#![tactic(auto)]
