//! The grants of a master: which unit of which job has how many on which machine, with running totals of
//! each machine, unit, unit in a rack, and group. After a job is admitted no call takes memory.
#![tactic(auto)]

mod asking;
mod holding;
pub mod law;
mod steps;
mod table;

pub use asking::{Asking, Pick};
pub use steps::Steps;
pub use table::GrantTable;
