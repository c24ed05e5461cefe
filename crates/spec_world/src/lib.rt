//! The written world: what the scheduler does, as definitions that compute. They stand in `specs/`. No
//! change is ever applied in them and no receiver keeps a ledger: a sender has its history, a receiver is a
//! place in it, and placing and preempting search through all pairs.
#![tactic(auto)]

pub mod law;
