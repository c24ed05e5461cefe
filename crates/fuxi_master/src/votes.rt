//! Which machines the jobs of a master mark as bad.

ghost use Rattle.std.specs.Prelude.{◌≡◌, ℕ, ◌+◌, ◌<◌, length, map, filter, replicate, IfOk, OnOk};
ghost use Rattle.std.specs.List.{AllByRecursion};
ghost use Rattle.fuxi_terms.specs.Jobs.{unit_count};
ghost use Rattle.fuxi_terms.specs.Lists.{below};
ghost use Rattle.fuxi_terms.specs.Numbers.{has_number};
ghost use Rattle.schedule_unit.specs.declared.party.UnitNo.{UnitNo as UnitSeen};
ghost use Rattle.spec_roles.specs.MasterRoles.{MasterRole};
ghost use Rattle.spec_roles.specs.Votes.{most_votes, votes_in, votes_of};
ghost use Rattle.fuxi_master.specs.Cores.{IsCore, StandsFor};
ghost use Rattle.fuxi_master.specs.Seen.{core_of};
ghost use Rattle.fuxi_master.specs.VoteCounts.{AddsVotes, HasCounted, all_avoid, is_asked};

use crate::state::Core;
use bad_nodes::Votes;
use cluster_desc::Cluster;
use fuxi_terms::OutOfMemory;
use hard_state::Known;
use schedule_unit::{AppNo, MachineNo, UnitNo};
use std::alloc::Global;

// No votes, and the machines that are banned are shut.
fn banned_shut(alloc: Global, cluster: &Cluster, known: &Known) -> Result<Votes, OutOfMemory>
    ensures { IfOk result (λ votes. votes ≡ record { votes = replicate (length cluster.now.machines) 0; shut = map (λ m. has_number m known.now.bans) (below (length cluster.now.machines)) }) }
{
    let mut votes = Votes::start(alloc, cluster)?;
    for number in 0..cluster.machines() {
        let machine = MachineNo(number);
        if !known.banned(machine) {
            continue;
        }
        votes.shut(machine);
    }
    Ok(votes)
}

impl Core {
    // How many jobs mark each machine of the cluster, and which machines are banned.
    pub(crate) fn votes(&self, alloc: Global) -> Result<Votes, OutOfMemory>
        requires core { IsCore (core_of self.now) }
        ensures { IfOk result (λ votes. (r : MasterRole) → StandsFor (core_of self.now) r → votes ≡ votes_in r.cluster r.state) }
    {
        let mut votes = banned_shut(alloc, self.allotment.table().cluster(), &self.known)?;
        for index in 0..self.known.jobs() {
            self.count(alloc, &mut votes, index)?;
        }
        Ok(votes)
    }

    // One job more has voted, in the order of submission.
    fn count(&self, alloc: Global, votes: &mut Votes, index: usize) -> Result<(), OutOfMemory>
        requires core { IsCore (core_of self.now) }
        requires index { index < length self.now.known.jobs }
        requires counted { HasCounted (core_of self.now) index votes.old }
        ensures { OnOk result (HasCounted (core_of self.now) (index + 1) votes.new) }
    {
        let _jobs = self.known.jobs();
        let job = self.known.at(index);
        let app = job.app();
        if self.known.ended(app) {
            return Ok(());
        }
        let units = job.units();
        let wanted = self.wanted_units(alloc, app, units)?;
        if wanted.is_empty() {
            return Ok(());
        }
        self.mark(votes, app, &wanted);
        Ok(())
    }

    // The units of a known job of which grants are wanted.
    fn wanted_units(&self, alloc: Global, app: AppNo, units: u8) -> Result<Vec<UnitNo>, OutOfMemory>
        requires core { IsCore (core_of self.now) }
        requires units { units ≡ unit_count self.now.known.jobs app.0 }
        ensures { IfOk result (λ found. map (λ (u : UnitSeen). u.0) found.items ≡ filter (is_asked (core_of self.now) app.0) (below units)) }
    {
        let mut found = Vec::new(alloc);
        for number in 0..units {
            let unit = UnitNo(number);
            if self.wanted(app, unit) == 0 {
                continue;
            }
            found.push(unit)?;
        }
        Ok(found)
    }

    // One vote more on each machine that all of these units of a known job avoid.
    fn mark(&self, votes: &mut Votes, app: AppNo, units: &[UnitNo])
        requires core { IsCore (core_of self.now) }
        requires units { AllByRecursion (λ (u : UnitSeen). u.0 < unit_count self.now.known.jobs app.0) units.now }
        requires machines { length votes.old.votes ≡ length self.now.allotment.table.cluster.machines }
        requires fewer { (m : ℕ) → m < length votes.old.votes → votes_of votes.old m < most_votes }
        ensures { AddsVotes (all_avoid (core_of self.now) app.0 units.now) votes.old votes.new }
    {
        for number in 0..self.allotment.table().cluster().machines() {
            let machine = MachineNo(number);
            if !self.all_avoid(app, units, machine) {
                continue;
            }
            votes.mark(machine);
        }
    }

    // Whether each of these units of a known job avoids the machine.
    fn all_avoid(&self, app: AppNo, units: &[UnitNo], machine: MachineNo) -> bool
        requires core { IsCore (core_of self.now) }
        requires units { AllByRecursion (λ (u : UnitSeen). u.0 < unit_count self.now.known.jobs app.0) units.now }
        ensures { result ≡ all_avoid (core_of self.now) app.0 units.now machine.0 }
    {
        for unit in units {
            if !self.avoided(app, *unit, machine) {
                return false;
            }
        }
        true
    }
}
