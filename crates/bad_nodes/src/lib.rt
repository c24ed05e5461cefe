//! Machines that jobs mark as bad: how many jobs mark each, and which of them are to be banned.
#![tactic(auto)]

mod votes;

pub use votes::Votes;
