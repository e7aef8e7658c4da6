//! The program over a session in memory, and sessions as rows, for other tests. A row has the lines
//! of a session together with what each of them shows.
#![tactic(auto)]

// The files:
// - `running.rt`: the program over a session in memory
// - `rows.rt`: sessions as rows
// - `images.rt`: programs that several sessions share
mod images;
mod rows;
mod running;

pub use rows::{compare, line, registers, rows_in, show_row, times, word};
pub use running::{Outcome, obey, shows};
