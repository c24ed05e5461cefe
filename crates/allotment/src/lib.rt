//! A master's table of grants with its placer, and the spots at which a step changed it.
#![tactic(auto)]

mod allotment_of;
mod credits;
pub mod law;
mod settle_run;

pub use allotment_of::Allotment;
