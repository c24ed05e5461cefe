//! All that runs, lent event by event.

ghost use Rattle.std.specs.Prelude.{◌≡◌, ◌++◌, ◌+◌, ◌<◌, ◌^◌, IfErr, IfOk, OnOk};
ghost use Rattle.work_plan.specs.WorkEvents.{show, work_step};
ghost use Rattle.work_plan.specs.GivenEvents.{IsGiven};
ghost use Rattle.work_plan.specs.WorkLines.{lines_text};
ghost use Rattle.work_plan.specs.AgentWithApps.{World, empty_world};
ghost use Rattle.work_plan.specs.WorkSteps.{Takes, StopsAs};
ghost use Rattle.work_plan.specs.WorkWorlds.{IsReached, Stands};

use crate::acts::act;
use crate::parts::Agent;
use crate::showing::write_state;
use crate::stop::WorkStop;
use crate::{Ends, Parcel, WorkEvent};
use fuxi_terms::OutOfMemory;
use std::alloc::Global;

/// The agent where one runs, the applications by their numbers, all packets that were sent, and the number of events. Who steps it by
/// events lends it: what a `WorkWorld` keeps as its invariant (`IsReached`) is a condition and a clause here, and after a stop nothing is
/// said of it.
pub struct Working {
    pub(crate) events: u64,
    pub(crate) agent: Option<Agent>,
    pub(crate) apps: Vec<Option<Ends>>,
    pub(crate) packets: Vec<Parcel>,
}

// Written out, so that who lets one go checks this call and not all of its parts.
impl Drop for Working {
    fn drop(self) {
        let Working {
            events,
            agent,
            apps,
            packets,
        } = self;
    }
}

impl Working {
    /// Nothing runs, and nothing has happened.
    pub fn start(alloc: Global) -> Working
        ensures stands { Stands result empty_world }
        ensures reached { IsReached result }
        ensures events { result.events ≡ 0 }
    {
        Working {
            events: 0,
            agent: None,
            apps: Vec::new(alloc),
            packets: Vec::new(alloc),
        }
    }

    /// One event, whose lines are appended. It is one that a line can give, and fewer than 2^29 were taken. After a stop what runs is not to
    /// be used, and some lines may be appended.
    pub fn step(
        &mut self,
        alloc: Global,
        event: &WorkEvent,
        out: &mut Vec<u8>,
    ) -> Result<(), WorkStop>
        requires given { IsGiven event.now }
        requires reached { IsReached self.old }
        requires events { self.old.events < 2 ^ 29 }
        ensures takes { OnOk result ((w : World) → Stands self.old w → Takes event.now self.new out.old.items out.new.items w) }
        ensures reached { OnOk result (IsReached self.new) }
        ensures events { OnOk result (self.new.events ≡ self.old.events + 1) }
        ensures stops { IfErr result (StopsAs (λ w. work_step w event.now) self.old) }
    {
        self.events += 1;
        act(self, alloc, event, out)
    }

    /// Appends the lines of the state. After want of memory nothing is said of what stands in `out`.
    pub fn write_state(&self, out: &mut Vec<u8>) -> Result<(), OutOfMemory>
        requires { IsReached self.now }
        ensures { OnOk result ((w : World) → Stands self.now w → out.new.items ≡ out.old.items ++ lines_text (show w)) }
    {
        write_state(self, out)
    }
}
