//! What every master has to find again: the hard state, in a checkpoint on a disk, record by record.
#![tactic(auto)]

mod bans;
mod fault;
mod gate;
mod hard;
mod job;
mod jobs;
mod known;
pub mod law;
mod moments;
mod opening;
mod records;
mod state;
mod window;

pub use bans::NumberSet;
pub use fault::HardFault;
pub use fuxi_terms::OutOfMemory;
pub use hard::Hard;
pub use known::Known;
pub use moments::moments_stand;
pub use records::{Record, read_record, write_record};
