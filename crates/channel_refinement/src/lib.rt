//! The rules of hearing and of turns stand twice: in the words of the two ends of a channel, and in those of the
//! written net. Here they are one.
#![tactic(auto)]

pub mod law;
