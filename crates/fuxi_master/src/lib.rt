//! The FuxiMaster: it keeps the table of grants of a cluster, hears agents and applications, grants what they ask for, and shows each
//! of them what it holds.
#![tactic(auto)]

mod agents;
mod apps;
mod commands;
mod event;
mod master;
mod reading;
mod sending;
mod starting;
mod state;
mod step;
mod votes;

pub use event::{MasterEvent, MasterRefusal, Outcome};
pub use master::Master;
