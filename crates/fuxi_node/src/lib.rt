//! A node: one party of a cluster, over the lines of an input, with its peers behind a door.
#![tactic(auto)]

mod agents;
mod apps;
mod input;
mod kind;
pub mod law;
mod masters;
mod run;
mod taking;

pub use input::run_input;
pub use kind::NodeKind;
