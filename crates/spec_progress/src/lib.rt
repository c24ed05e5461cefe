//! Progress: what calm rounds bring, in which nothing is lost. The definitions stand in `specs/`.
#![tactic(auto)]

pub mod law;
