//! What a line of an input says, the status that one means at which the input ends, the line that describes the cluster, and the law of
//! lines that are taken one by one.
#![tactic(auto)]

mod cluster;
pub mod law;
mod line;
mod status;

pub use cluster::read_cluster_line;
pub use line::{content, is_skipped};
pub use status::{event_status, stop_status};
