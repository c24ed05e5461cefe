//! The cluster: its machines and groups, as one line of JSON describes them. What is read is tested against
//! the limits, and never changes afterwards.
#![tactic(auto)]

mod cluster;
mod fault;
pub mod law;
mod read;

pub use cluster::{Cluster, Group, Machine};
pub use fault::ClusterFault;
pub use read::read_cluster;
