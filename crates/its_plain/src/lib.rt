//! The plain machine, the transcript of a session, and their laws. Definitions in `specs/` and laws
//! in `proofs/`, and their numbers as constants in `src/numbers.rt`.
//!
//! The definitions:
//! - `Machine` has its jobs as a function from slots. `Call.Step.transition` is what one step of
//!   one job does, which may be a whole call: the machine after it (`step`), the bytes that it
//!   moves (`moves`) and the jobs that it disturbs (`disturbed`).
//! - `Decode.ask` is the decoding of a call in one pass, `View` what a call sees, and
//!   `Decide.decided` what it decides: the calls are in `Call.Basic`, `Call.Tty`, `Call.File`,
//!   `Call.Usr`, `Call.Link` and `Call.Core`, and what all transfers share is in `Transfer`.
//!   `Change.effect` is each small thing that a call does outside its own words.
//! - `Operator.Lines.lined` is the effect of a line of a session; `Operator.Jobs`,
//!   `Operator.Consoles`, `Operator.Files` and `Operator.Clock` say what each line does.
//! - `Transcript.Transcript` says which lines are a transcript of which events, by one rule for
//!   each kind of event, `Licence.Licensed` when a letter is licensed, and `Turns` whose turn it
//!   is.
//! - `Course.run_of` is the one run that the lines of a transcript fix: its moments, which are the
//!   lines that do something, the turns of RUN and the letters, each with the machine that it
//!   finds, the dots of each slot, the block and the number of the line. What is said along a run
//!   is a predicate on these moments.
//! - `Call.Step.moves` has the bytes and words that a step moves, each with its device;
//!   `Ledger.Ledger` says that all bytes of each console are accounted for, and
//!   `LinkLedger.LinkLedger` says it of each link and of each part of the run in which the link
//!   exists.
//! - `OneByte.EachByte` says what one step of a SIOT does, and `Stretch.Stretches` what many steps
//!   do, along the run and whatever else happens between them. `FewDots.FewDots` says that at most
//!   12 dots are in a row, and `Fair.FairTurns` that the turns of a RUN are fair.
//!
//! Laws, among others: the transcript as a function that walks over the events (`RunLaws`, proved
//! both ways), fair turns (`FairLaws`), what a line leaves of the machine, or has found if it is a
//! line of the state part (`CallLineLaws.line_does`), and what the decoding of a call reads and
//! what a store leaves of that. Who may touch what is in its_security. Each constant is the number
//! of its definition (`NumberLaws`).
//!
//! A word of a file that is gone is refused (NOFILE). Between FILE and EOF this cannot occur,
//! because no line there takes a file away; so the definition needs no premise on the block. In the
//! state part there is no file before the first FILE.
//!
//! Tests: test_calls.
#![tactic(auto)]

mod numbers;

pub use numbers::{
    ARGUMENTS, CLOCK_END, DSK, END_OF_FILE, HIGHEST_OPERATION, HIGHEST_PAGE, LNK, LONGEST_PERIOD,
    LONGEST_SLEEP, SHOWN, TTY, USR,
};
