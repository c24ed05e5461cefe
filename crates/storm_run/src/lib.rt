//! A large schedule that a number makes, run over the whole scheduler, and the summary of its end, which is quiet.
#![tactic(auto)]

mod choices;
mod closing;
mod cluster;
mod counts;
mod generator;
pub mod law;
mod opening;
mod orders;
mod run;
mod steps;
mod storm;
mod summary;

pub use storm::{MOST_STEPS, run_storm};
