//! The application master of one job: what it asks for, what it holds, and what it gives back.
#![tactic(auto)]

mod app;
mod asking;
mod carried;
mod fault;
mod tallies;

pub use app::AppMaster;
pub use fault::AppFault;
