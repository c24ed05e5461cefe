//! Many sessions on one master: their calls are taken in some order, and the journal is that of one thread.
#![tactic(auto)]

mod book;
mod call;
mod entry;
mod gate;
mod hear;
pub mod law;
mod left;
mod limits;
mod run;
mod sessions;

pub use book::Book;
pub use call::{BadCall, Decoded, decode};
pub use entry::{Entry, Head, Heads, Words};
pub use gate::{Gate, OpenGate};
pub use left::take_left;
pub use limits::{MOST_CALLS, MOST_SESSIONS};
pub use run::run_all;
pub use sessions::Sessions;
