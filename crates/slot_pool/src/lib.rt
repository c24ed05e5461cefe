//! A pool of slots: values that are put in without taking memory, each under a number and a generation, so
//! that a slot whose value was taken out is told apart from the next one of its number.
#![tactic(auto)]

mod cell;
pub mod law;
mod pool;

pub use pool::{Pool, Slot};
