//! The agent of one machine: it hears its master, keeps the table of grants that it enforces, and reports it to each new
//! master.
#![tactic(auto)]

mod agent;
mod limit;

pub use agent::Agent;
