//! The masters, the agents and the applications that run, each in the slot of its number, with its last boot. A slot holds any party; what
//! its calls do is said of every good world that the parties stand in.
#![tactic(auto)]

mod agents;
mod apps;
pub mod law;
mod masters;
mod party;
mod places;
mod slots;

pub use agents::start_agent;
pub use apps::{ask, start_app};
pub use masters::{obey, start_master, stop_master};
pub use party::Party;
pub use slots::Slots;
