//! The lines of a session.

pub mod clock;
pub mod consoles;
pub mod directory;
pub mod events;
pub mod files;
pub mod job_lines;
pub mod loading;
pub mod restoring;
pub mod settings;
pub mod shown;
pub mod state;
pub mod words;
