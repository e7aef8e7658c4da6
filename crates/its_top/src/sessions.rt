//! A session performed line by line, and its transcript written.

pub mod circle;
pub mod consoles;
pub mod filing;
pub mod flow;
pub mod listing;
pub mod loading;
pub mod performing;
pub mod printing;
pub mod progress;
pub mod restoring;
pub mod room;
pub mod run;
pub mod shown;
pub mod silent;
pub mod ticking;
pub mod writing;
