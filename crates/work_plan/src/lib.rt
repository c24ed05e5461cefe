//! Named workers: which of a unit are wanted and which run within a count; the agent and its applications, stepped by events;
//! and their run over the lines of an input.
#![tactic(auto)]

mod acts;
mod agent;
mod apps;
mod crew;
mod deliveries;
mod ends;
mod event;
mod form;
mod hearing;
pub mod law;
mod make;
mod naming;
mod numbers;
mod output;
mod parts;
mod peer;
mod places;
mod plan;
mod read;
mod run;
mod settle;
mod showing;
mod squad;
mod stop;
mod text;
mod turns;
mod workers;
mod working;
mod world;

pub use ends::{Ends, Parcel, turn};
pub use event::WorkEvent;
pub use hearing::{Heard, hear};
pub use naming::set_names;
pub use output::{Output, Why, write_line};
pub use plan::{Plan, PlanShape, Running};
pub use read::read_work;
pub use run::run_work;
pub use schedule_text::Kind;
pub use squad::Member;
pub use stop::WorkStop;
pub use workers::Workers;
pub use working::Working;
pub use world::WorkWorld;
