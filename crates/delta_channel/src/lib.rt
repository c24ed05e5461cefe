//! One direction of a channel: a sender that keeps its ledger and the changes to it, and a receiver that
//! keeps what came, with its place in the sender's history.
#![tactic(auto)]

mod receiver;
mod sender;

pub use receiver::{Place, Receiver, Stamp, Verdict};
pub use sender::Sender;
