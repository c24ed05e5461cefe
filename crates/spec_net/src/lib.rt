//! Parties and the channels between them, as definitions that compute: what each sent, what it knows of each
//! peer, the packets, and how a packet is heard. They stand in `specs/`. No change is ever applied in a net and
//! no receiver keeps a ledger: a receiver is a place in the sender's history.
#![tactic(auto)]

pub mod law;
