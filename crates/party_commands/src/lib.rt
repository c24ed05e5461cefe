//! What an event orders a party that runs, and what that makes of an application, and of a master with its hard state: once for all who run
//! parties.
#![tactic(auto)]

mod apps;
mod command;
mod masters;
mod refusals;
mod writing;

pub use apps::ask;
pub use command::{AppCommand, MasterCommand, PartyCommand, command_of};
pub use masters::{CommandError, obey, tested};
pub use refusals::written_refusal;
pub use writing::{Writing, write, writing_of};
