//! Queues in an order, linked through a pool of nodes, so that putting an entry in and taking one out takes
//! no memory.
#![tactic(auto)]

pub mod law;
mod node;
mod queue;

pub use node::{Entry, Node};
pub use queue::Queue;
