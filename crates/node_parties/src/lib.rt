//! The agent, the application and the master with its checkpoint, each as the party of a node.
#![tactic(auto)]

mod agents;
mod apps;
mod node;

pub use agents::AgentNode;
pub use apps::AppNode;
pub use node::MasterNode;
