//! The command: its words, the call that runs it over an input and two outputs, the line that tells how it
//! ended, and the number with which the program ends.
#![tactic(auto)]

mod program;
mod telling;
mod top;
mod words;

pub use program::{exit_of, file_of, run, words_of};
pub use telling::report;
pub use top::fuxi;
