//! A table of grants and its placer.

ghost use Rattle.std.specs.Prelude.{◌≡◌, ◌<◌, ◌≤◌, length, OnOk};
ghost use Rattle.fuxi_terms.specs.Jobs.{unit_count};
ghost use Rattle.fuxi_terms.specs.Tables.{held_on};
ghost use Rattle.grant_table.specs.GrantTables.{as_known};
ghost use Rattle.place_pass.specs.Placers.{IsLevelWith};

use crate::trees::case::print_path;
use cluster_desc::Cluster;
use golden_lines::Stop;
use grant_table::{GrantTable, Pick, Steps};
use party_ledgers::Demand;
use place_pass::{Placer, law};
use schedule_unit::{AppNo, Job, MachineNo};
use std::alloc::Global;
use std::marker::Model;
use std::sync::ledger::Ledger;

/// A table of grants, and a placer that was told of each change of it.
pub struct Bench {
    table: GrantTable,
    placer: Placer,
}

impl Drop for Bench {
    fn drop(self) {
        let Bench { table, placer } = self;
    }
}

impl Model for Bench {
    ghost use Rattle.grant_table.specs.GrantTables.{TableRecord};
    ghost use Rattle.place_pass.specs.Placers.{IsLevelWith};

    ghost Value = { TableRecord };

    ghost view = { λ b. b.table };

    ghost invariant = { λ b. IsLevelWith b.placer b.table };
}

// Admits a job that is not there yet.
fn admit(alloc: Global, table: &mut GrantTable, placer: &mut Placer, job: &Job) -> Result<(), Stop>
    requires { IsLevelWith placer.old table.old }
    ensures { OnOk result (IsLevelWith placer.new table.new) }
{
    law::levels();
    if table.units(job.app()) > 0 {
        return Ok(());
    }
    table.admit(alloc, job)?;
    placer.admit(alloc, job)?;
    Ok(())
}

// Admits jobs.
fn admit_all(
    alloc: Global,
    table: &mut GrantTable,
    placer: &mut Placer,
    jobs: &[Job],
) -> Result<(), Stop>
    requires { IsLevelWith placer.old table.old }
    ensures { OnOk result (IsLevelWith placer.new table.new) }
{
    for job in jobs {
        admit(alloc, table, placer, job)?;
    }
    Ok(())
}

// Takes so many grants, and tells the placer.
fn take(table: &mut GrantTable, placer: &mut Placer, pick: Pick, count: u32)
    requires level { IsLevelWith placer.old table.old }
    requires unit { pick.unit.0 < unit_count (as_known table.old.jobs) pick.app.0 }
    requires machine { pick.machine.0 < length table.old.cluster.machines }
    requires held { count ≤ held_on table.old.entries pick.app.0 pick.unit.0 pick.machine.0 }
    ensures { IsLevelWith placer.new table.new }
{
    law::levels();
    let _sound = table.cluster();
    table.take(pick.app, pick.unit, pick.machine, count);
    placer.changed(table, pick.app, pick.unit, pick.machine);
}

// Makes the grant that the placer finds, and tells it.
fn place<L: Ledger>(
    table: &mut GrantTable,
    placer: &mut Placer,
    steps: &mut Steps<L>,
) -> Option<Pick>
    requires { IsLevelWith placer.old table.old }
    ensures { IsLevelWith placer.new table.new }
{
    law::levels();
    if placer.turns() >= 1 << 62 {
        return None;
    }
    placer.line_up(table);
    let pick = placer.next(table, steps)?;
    let _sound = table.cluster();
    table.grant(pick.app, pick.unit, pick.machine);
    placer.changed(table, pick.app, pick.unit, pick.machine);
    Some(pick)
}

// Brings the line up to date, and prints the path of a machine in the placer's tree.
fn walk(
    rt: &HostRuntime,
    table: &GrantTable,
    placer: &mut Placer,
    machine: MachineNo,
) -> Result<(), Stop>
    requires level { IsLevelWith placer.old table.now }
    requires machine { machine.0 < length table.now.cluster.machines }
    ensures { IsLevelWith placer.new table.now }
{
    law::levels();
    if placer.turns() >= 1 << 62 {
        return Ok(());
    }
    placer.line_up(table);
    print_path(rt, placer.tree(table), machine)
}

impl Bench {
    /// A table of the cluster with these jobs, in which nothing is granted.
    pub fn start(alloc: Global, cluster: &Cluster, jobs: &[Job]) -> Result<Bench, Stop> {
        let mut table = GrantTable::start(alloc, cluster)?;
        let mut placer = Placer::start(alloc, cluster)?;
        admit_all(alloc, &mut table, &mut placer, jobs)?;
        Ok(Bench { table, placer })
    }

    /// The table.
    pub fn table(&self) -> &GrantTable {
        &self.table
    }

    /// What a job asks for is now this.
    pub fn ask(&mut self, app: AppNo, demand: &Demand) {
        law::levels();
        if self.table.units(app) > 0 {
            self.placer.asked(&self.table, app, demand);
        }
    }

    /// The machine is open from now on, or closed.
    pub fn open(&mut self, machine: MachineNo, usable: bool) {
        law::levels();
        if machine.0 < self.table.cluster().machines() {
            self.placer.open(machine, usable);
        }
    }

    /// Takes at most so many grants, and answers how many.
    pub fn take(&mut self, pick: Pick, most: u32) -> u32 {
        let Bench { table, placer } = self;
        let there = (pick.unit.0 as usize) < table.units(pick.app)
            && pick.machine.0 < table.cluster().machines();
        if !there {
            return 0;
        }
        let count = most.min(table.held_on(pick.app, pick.unit, pick.machine));
        if count > 0 {
            take(table, placer, pick, count);
        }
        count
    }

    /// Brings the line up to date, and makes the grant that the placer finds, where there is one.
    pub fn place<L: Ledger>(&mut self, steps: &mut Steps<L>) -> Option<Pick> {
        let Bench { table, placer } = self;
        place(table, placer, steps)
    }

    /// Brings the line up to date, and prints the path of the machine.
    pub fn walk(&mut self, rt: &HostRuntime, machine: MachineNo) -> Result<(), Stop> {
        let Bench { table, placer } = self;
        if machine.0 < table.cluster().machines() {
            walk(rt, table, placer, machine)?;
        }
        Ok(())
    }
}
