//! Who runs, and what each has.

use crate::{Ends, Parcel, Plan, Workers};

/// What the agent has of an application: its end of the channel, the plan that was in force before one came of the known incarnation, and
/// of each unit how many workers may run.
pub struct Peer {
    pub ends: Ends,
    pub plan: Plan,
    pub counts: [u32; 8],
}

// Written out, so that who lets one go checks this call and not all of its parts.
impl Drop for Peer {
    fn drop(self) {
        let Peer { ends, plan, counts } = self;
    }
}

/// The agent in its boot, with its peers by the number of the application and the workers that run for them.
pub struct Agent {
    pub boot: u64,
    pub peers: Vec<Option<Peer>>,
    pub workers: Workers,
}

// Written out, so that who lets one go checks this call and not all of its parts.
impl Drop for Agent {
    fn drop(self) {
        let Agent {
            boot,
            peers,
            workers,
        } = self;
    }
}
