//! What a master's step shows to all its peers: each agent the row of its machine, each application the grants of its job. It goes by the
//! spots at which grants changed, and walks no table and no ledger.
#![tactic(auto)]

mod grants;
mod job_grants;
pub mod law;
mod machine_row;
mod numbered;
mod rows;
mod spots;

pub use grants::{StepChanges, show_all_grants};
pub use job_grants::show_grants;
pub use rows::show_all_rows;
pub use spots::in_order;
