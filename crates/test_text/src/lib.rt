//! Lines of a session, texts of the assembler, words, sources and sinks. What they are read as,
//! what is refused, and what is written (`its_session`, `its_asm`, `its_asm_command`); the words
//! and mnemonics in them (`its_word`, `its_chart`); and the objects that they are read from and
//! written to (`its_reader`, `its_io`).
#![tactic(auto)]

#[cfg(test)]
mod assemblies;
#[cfg(test)]
mod lines;
#[cfg(test)]
mod mnemonics;
#[cfg(test)]
mod objects;
#[cfg(test)]
mod reading;
#[cfg(test)]
mod sources;
#[cfg(test)]
mod words;
