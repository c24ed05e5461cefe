//! The locality tree: one queue for each machine, one for each rack and one for the cluster, and the walk
//! over the units that wait, in the order of their ranks on a machine. After a job is admitted no call
//! takes memory.
#![tactic(auto)]

mod layout;
mod path;
mod place_set;
mod tree;

pub use path::Path;
pub use place_set::PlaceSet;
pub use tree::Tree;
