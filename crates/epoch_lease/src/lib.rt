//! Epochs by a lease: each is handed out once, to one holder, and the last one stands in a checkpoint before it is answered;
//! and the run of a lease over the lines of an input.
#![tactic(auto)]

mod event;
pub mod law;
mod lease;
mod print;
mod read;
mod run;

pub use event::{LeaseEvent, LeaseFault, LeaseOut};
pub use lease::Lease;
pub use read::read_lease;
pub use run::run_lease;
