//! Scripts of rehearsals, read exactly, and the text of what a rehearsal prints. A script is at most 100,000 lines of at
//! most 64 bytes: a script that was read has the lines that its input spells, and a line that is named at fault is the
//! first that doesn't read. A rehearsal plays the lines on a world one after another, up to the first that isn't lawful
//! where it stands, and writes one line for each mark, for the members, and for an actor that found a lock taken. What one
//! line of a script comes to is sent as one text, so that it is known what was written where a write fails. What is written
//! on a new world is a history to the judge (`laws`).
#![tactic(auto)]

pub mod laws;
mod limits;
mod line;
mod rehearsal;
mod script;
mod telling;

pub use limits::{MOST_KEPT, MOST_LENGTH, MOST_LINES, MOST_TURNS};
pub use line::{Line, read_line};
pub use rehearsal::{RehearsalFault, rehearse};
pub use script::{Script, ScriptFault};
pub use telling::write_marks;
