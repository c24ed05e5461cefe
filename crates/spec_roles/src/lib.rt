//! What one party of the scheduler is and does, with what it received as ledgers and with its own histories, and
//! with no world around it: agents, applications, masters, what masters do at the end of a step, placing,
//! preemption, and the hard state. They stand in `specs/`, as definitions that compute; the written world puts
//! them into the world.
#![tactic(auto)]

pub mod law;
