//! What a master keeps, and how each of its steps ends.

ghost use Rattle.std.specs.Prelude.{◌≡◌, ◌+◌, ◌*◌, ◌<◌, ◌≤◌, ◌^◌, OnOk};
ghost use Rattle.std.specs.List.{AllByRecursion};
ghost use Rattle.fuxi_terms.specs.Limits.{most_steps};
ghost use Rattle.ledger_updates.specs.AllShown.{Down, HaveRoom};
ghost use Rattle.fuxi_master.specs.Cores.{IsKept, IsCore, IsWithin, IsWithinSoon};
ghost use Rattle.fuxi_master.specs.StepEnds.{IsCoreReadied, IsPublished};
ghost use Rattle.fuxi_master.specs.Heard.{AreStepChanges};
ghost use Rattle.fuxi_master.specs.Seen.{core_of};
ghost use Rattle.fuxi_master.specs.Steps.{IsMid, HasRole, EndsAlike};

use allotment::Allotment;
use failover::{Machines, all_reported};
use fuxi_terms::OutOfMemory;
use grant_table::Steps;
use hard_state::Known;
use ledger_updates::{StepChanges, in_order, show_all_grants, show_all_rows};
use party_ledgers::{Demand, Grants, JoinLedger, RowLedger};
use peer_channel::Side;
use schedule_unit::{AppNo, MachineNo};
use spec_roles::law;
use std::alloc::Global;
use std::marker::Brand;
use std::sync::ledger::{Blank, Ledger};

// The state of a master and its ends of the channels, by machine and by job number.
#[derive(Drop)]
pub(crate) struct Core {
    pub(crate) epoch: u64,
    pub(crate) known: Known,
    pub(crate) serving: bool,
    pub(crate) reported: Machines,
    pub(crate) allotment: Allotment,
    pub(crate) agents: Vec<Side<RowLedger, JoinLedger>>,
    pub(crate) apps: Vec<Option<Side<Grants, Demand>>>,
}

// StepChanges with nothing credited.
pub(crate) fn news(
    alloc: Global,
    reported: Option<MachineNo>,
    admitted: Option<AppNo>,
) -> StepChanges
    ensures { AreStepChanges reported admitted result }
{
    StepChanges {
        reported,
        admitted,
        machines: Vec::new(alloc),
        job: None,
        credited: Vec::new(alloc),
    }
}

impl Core {
    // The phase, the line and settling, with a counter of steps of its own.
    fn make_ready<L: Ledger>(&mut self, blank: Blank) -> Result<(), OutOfMemory>
        requires name { blank.name ≡ L.name }
        requires parts { blank.parts ≡ L.parts }
        requires some { 0 < blank.parts }
        requires kept { IsKept (core_of self.old) }
        requires turns { self.old.allotment.placer.seen.turns < 2 ^ 63 }
        ensures { OnOk result (IsCoreReadied (core_of self.old) (core_of self.new)) }
    {
        law::settling();
        let serving = self.serving || all_reported(&self.reported);
        self.serving = serving;
        self.allotment.line_up();
        if !serving {
            return Ok(());
        }
        let mut steps: Steps<L> = Steps::start(blank);
        self.allotment.settle(&mut steps)?;
        Ok(())
    }

    // Shows each peer what it should hold.
    fn publish(&mut self, alloc: Global, news: &StepChanges) -> Result<(), OutOfMemory>
        requires mid { IsMid (core_of self.old) news.now }
        requires agents { AllByRecursion (λ (d : Down). d.outgoing.last < 2 ^ 62) self.old.agents.items }
        requires apps { HaveRoom self.old.apps.items }
        ensures { OnOk result (IsPublished news.now (core_of self.old) (core_of self.new)) }
    {
        law::step_ends();
        let spots = in_order(alloc, self.allotment.touched())?;
        show_all_rows(
            &mut self.agents,
            alloc,
            self.allotment.table(),
            &spots,
            news.reported,
        )?;
        show_all_grants(&mut self.apps, alloc, self.allotment.table(), &spots, news)?;
        self.allotment.clear_touched();
        Ok(())
    }

    // Ends a step.
    pub(crate) fn end_step(
        &mut self,
        alloc: Global,
        news: &StepChanges,
        steps: u64,
    ) -> Result<(), OutOfMemory>
        requires mid { IsMid (core_of self.old) news.now }
        requires role { HasRole news.now (core_of self.old) }
        requires within { IsWithinSoon steps (core_of self.old) }
        requires steps { steps ≤ most_steps }
        ensures core { OnOk result (IsCore (core_of self.new)) }
        ensures within { OnOk result (IsWithin (steps + 1) (core_of self.new)) }
        ensures ends { OnOk result (EndsAlike news.now (core_of self.old) (core_of self.new)) }
    {
        law::settling();
        self.make_ready::<Brand>(Blank::new(1))?;
        self.publish(alloc, news)?;
        Ok(())
    }
}
