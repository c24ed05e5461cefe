//! Jobs and their units, the parties that schedule them, and the numbers by which they are named. A job is
//! made from what was asked for it, tested against the limits, and never changes afterwards.
#![tactic(auto)]

mod asks;
mod job;
pub mod law;
mod number;
mod party;

pub use asks::{Ask, Asks, Quantities};
pub use job::{Job, JobFault, Unit};
pub use number::{read_number, write_number};
pub use party::{AppNo, GroupNo, MachineNo, Party, RackNo, Role, UnitNo};
