//! Both directions of a channel between two parties, and the turn that sends what the peer lacks.
#![tactic(auto)]

mod duplex;

pub use duplex::{Duplex, Note, Notes};
