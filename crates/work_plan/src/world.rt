//! The world that events step.

ghost use Rattle.std.specs.Prelude.{◌≡◌, ◌++◌, ◌+◌, ◌<◌, ◌^◌, IfErr, IfOk, OnOk};
ghost use Rattle.work_plan.specs.WorkEvents.{show, work_step};
ghost use Rattle.work_plan.specs.GivenEvents.{IsGiven};
ghost use Rattle.work_plan.specs.WorkLines.{lines_text};
ghost use Rattle.work_plan.specs.AgentWithApps.{World, empty_world};
ghost use Rattle.work_plan.specs.WorkSteps.{Takes, StopsAs};
ghost use Rattle.work_plan.specs.WorkWorlds.{IsPlanned, Stands};

use crate::stop::WorkStop;
use crate::working::Working;
use crate::{WorkEvent, law};
use fuxi_terms::OutOfMemory;
use std::alloc::Global;
use std::marker::Model;

/// An agent and its applications, with all packets that were sent.
///
/// Whatever happened to it, it stands for a world of the definitions to which events of lines lead (`IsReached`): so what holds of every such
/// world holds of who runs here.
pub struct WorkWorld {
    working: Working,
}

// Written out, so that who lets one go checks this call and not all of its parts.
impl Drop for WorkWorld {
    fn drop(self) {
        let WorkWorld { working } = self;
    }
}

impl Model for WorkWorld {
    ghost use Rattle.work_plan.specs.WorkWorlds.{IsReached};
    ghost use Rattle.work_plan.specs.declared.working.Working.{Working};

    ghost Value = { Working };

    ghost view = { λ w. w.working };

    ghost invariant = { λ w. IsReached w.working };
}

impl WorkWorld {
    /// The world in which nothing has happened.
    pub fn start(alloc: Global) -> Result<WorkWorld, OutOfMemory>
        ensures stands { IfOk result (λ world. Stands world empty_world) }
        ensures events { IfOk result (λ world. world.events ≡ 0) }
    {
        Ok(WorkWorld {
            working: Working::start(alloc),
        })
    }

    /// How many events it took, refused ones too. It takes no memory.
    pub fn steps(&self) -> u64
        ensures number { result ≡ self.now.events }
        ensures stands { (w : World) → Stands self.now w → result ≡ w.events }
    {
        self.working.events
    }

    /// One event, whose lines are appended. It is one that a line can give, and fewer than 2^29 were taken (`steps`). After a stop the world is gone,
    /// and some lines may be appended. Where an agent runs then, the workers of each unit are distinct, the plan in force wants each of
    /// them, and there are as many as the count and the plan allow; an application that is caught up has heard of just those that run
    /// (`planned`).
    pub fn step(
        self,
        alloc: Global,
        event: &WorkEvent,
        out: &mut Vec<u8>,
    ) -> Result<WorkWorld, WorkStop>
        requires given { IsGiven event.now }
        requires events { self.events < 2 ^ 29 }
        ensures takes { IfOk result (λ after. (w : World) → Stands self w → Takes event.now after out.old.items out.new.items w) }
        ensures planned { IfOk result IsPlanned }
        ensures events { IfOk result (λ after. after.events ≡ self.events + 1) }
        ensures stops { IfErr result (StopsAs (λ w. work_step w event.now) self) }
    {
        law::every_world_runs_as_planned();
        let WorkWorld { mut working } = self;
        match working.step(alloc, event, out) {
            Ok(()) => Ok(WorkWorld { working }),
            Err(stop) => Err(stop),
        }
    }

    /// Appends the lines of the state. After want of memory nothing is said of what stands in `out`.
    pub fn write_state(&self, out: &mut Vec<u8>) -> Result<(), OutOfMemory>
        ensures { OnOk result ((w : World) → Stands self.now w → out.new.items ≡ out.old.items ++ lines_text (show w)) }
    {
        self.working.write_state(out)
    }
}
