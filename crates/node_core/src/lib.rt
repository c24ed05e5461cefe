//! One party in a process, whichever kind it is: what it does with a line, and one round over a connection.
#![tactic(auto)]

mod core_party;
mod disk;
mod frame_reader;
pub mod law;
mod line;
mod party;
mod rounds;
mod text;
mod writing;

pub use core_party::{Core, Turn};
pub use disk::NoDisk;
pub use line::{NodeLine, read_line};
pub use party::{Answer, Node};
pub use rounds::{RoundLine, round, serve};
pub use text::{push_answer, push_state, write_round};
pub use writing::write_turn;
