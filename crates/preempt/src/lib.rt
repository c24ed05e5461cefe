//! Preemption: which grants are taken for a unit that waits, and for which. Of equal grants a number is
//! computed, so that a search is linear in the units that have grants on a machine, whatever their counts.
#![tactic(auto)]

mod entry;
pub mod law;
mod learned;
mod machine_grants;
mod need;
mod number;
mod parts;
mod plan;
mod quick_reject;
mod room;
mod search;
mod snapshot;
mod victims;
mod walk;

pub use learned::Learned;
pub use plan::{Plan, Victim, Victims};
pub use search::{find, find_from};
