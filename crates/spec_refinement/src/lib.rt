//! An event of the world is, seen by the party that acts, the step of that party alone, and all others see what they saw.
//! What is said of the world stands in `specs/`.
#![tactic(auto)]

pub mod law;
pub mod parties;
