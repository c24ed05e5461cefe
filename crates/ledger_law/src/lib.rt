//! What a ledger that is sent in pieces has to promise, and the tallies that meet it.
#![tactic(auto)]

pub mod entries;
pub mod forms;
pub mod law;
mod ledger;
mod tally;

pub use ledger::{BodyFault, Key, Ledger, LedgerFault, OutOfMemory};
pub use tally::{Change, Shape, Tally};
