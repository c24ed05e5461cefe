//! The whole scheduler in one process: what runs, what each event does to it and prints, and the run over the lines of an input.
#![tactic(auto)]

mod acts;
mod agent_states;
mod agents;
mod app_states;
mod apps;
mod checkpoint;
mod commands;
mod deliveries;
mod disk;
mod ends;
mod fault;
mod frame_ends;
mod halts;
pub mod law;
mod lines;
mod master_states;
mod masters;
mod orders;
mod pieces;
mod pool;
mod promises;
mod quiet;
mod run;
mod running;
mod showing;
mod state;
mod stop;
mod text;
mod turns;
mod world;

pub use fault::PoolFault;
pub use lines::Lines;
pub use pool::PacketPool;
pub use promises::{cores_are_safe, quiet_parties_agree};
pub use quiet::is_quiet;
pub use run::run_schedule;
pub use running::Running;
pub use state::write_state;
pub use stop::WorldStop;
pub use world::World;
