//! What a master does before it serves: which machines have reported, and what it keeps of a report.
#![tactic(auto)]

mod adopting;
mod machines;

pub use adopting::{AdoptFault, adopt, is_kept, kept_total};
pub use fuxi_terms::OutOfMemory;
pub use hard_state::Known;
pub use machines::{Machines, Phase, all_reported};
