//! The state of each kind of party and of the hard state, and why a master refuses, as it is printed.
#![tactic(auto)]

mod agent;
mod app;
mod grants;
mod hard;
mod line;
mod master;
mod refusals;

pub use agent::write_agent;
pub use app::write_app;
pub use hard::write_hard;
pub use line::write_line;
pub use master::write_master;
pub use refusals::{hard_refusal, master_refusal};
