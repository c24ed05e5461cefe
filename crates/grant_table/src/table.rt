//! The table.

ghost use Rattle.std.specs.Prelude.{◌≡◌, ℕ, ◌+◌, ◌-◌, ◌*◌, ◌<◌, ◌≤◌, ◌^◌, length, insert, OnOk, OnErr};
ghost use Rattle.std.proofs.Common.{get_or};
ghost use Rattle.fuxi_terms.specs.Cluster.{JobRecord};
ghost use Rattle.grant_table.specs.GrantTables.{with_admitted};

use crate::holding::{Holding, fresh_units, holding_at, lower_at, raise_at, reach, units_at};
use crate::steps::Steps;
use cluster_desc::Cluster;
use fuxi_terms::OutOfMemory;
use fuxi_terms::limits::{MOST_GROUPS, MOST_JOBS};
use res_vector::{Res, minus, zero};
use schedule_unit::{AppNo, GroupNo, Job, MachineNo, RackNo, UnitNo};
use std::alloc::Global;
use std::marker::Model;
use std::sync::ledger::Ledger;

/// Grants by job, unit and machine, seen as the cluster, the admitted jobs in number order, and the finite
/// map from job, unit and machine to a positive number.
pub struct GrantTable {
    cluster: Cluster,
    jobs: Vec<Job>,
    /// By job number, with no unit where no such job is admitted.
    slots: Vec<Vec<Holding>>,
    /// What is granted on each machine.
    used: Vec<Res>,
    /// What is granted to each of the 32 groups.
    usages: Vec<Res>,
}

// Written out, so that who lets one go checks this call and not all of its parts.
impl Drop for GrantTable {
    fn drop(self) {
        let GrantTable {
            cluster,
            jobs,
            slots,
            used,
            usages,
        } = self;
    }
}

impl Model for GrantTable {
    ghost use Rattle.grant_table.specs.GrantTables.{TableRecord, table_record, IsTable};

    ghost Value = { TableRecord };

    ghost view = { λ t. table_record t.cluster t.jobs.items t.slots.items };

    ghost invariant = { λ t. IsTable t.cluster t.jobs.items t.slots.items t.used.items t.usages.items };
}

impl GrantTable {
    ghost use Rattle.std.specs.Prelude.{◌≡◌, ℕ, ◌+◌, ◌-◌, ◌*◌, ◌<◌, ◌≤◌, List, [], length, get_or, slice_get, Some, IfOk, OnOk, OnErr, false, nat_lt};
    ghost use Rattle.fuxi_terms.specs.Vectors.{at_place};
    ghost use Rattle.fuxi_terms.specs.Jobs.{is_known, unit_count, unit_of, most_of, size_at};
    ghost use Rattle.fuxi_terms.specs.Cluster.{has_at};
    ghost use Rattle.fuxi_terms.specs.Tables.{spot, held, held_on, held_in, total_at, usage_at};
    ghost use Rattle.fuxi_terms.specs.Tables.{with_grant};
    ghost use Rattle.grant_table.specs.GrantTables.{TableRecord, as_known, with_count, without_count, with_admitted, IsSound};

    /// The empty table of a cluster, with no job. Where memory is refused there is no table.
    pub fn start(alloc: Global, cluster: &Cluster) -> Result<GrantTable, OutOfMemory>
        ensures { IfOk result (λ table. table ≡ record { cluster = cluster.now; jobs = []; entries = [] }) }
    {
        let machines = cluster.machines() as usize;
        Ok(GrantTable {
            cluster: cluster.copy(alloc)?,
            jobs: Vec::new(alloc),
            slots: Vec::with_capacity(alloc, MOST_JOBS as usize)?,
            used: Vec::from_elem(alloc, zero(), machines)?,
            usages: Vec::from_elem(alloc, zero(), MOST_GROUPS)?,
        })
    }

    /// Admits a job with nothing granted yet, and reserves all that its units can need. The table is as
    /// before after the refusal.
    pub fn admit(&mut self, alloc: Global, job: &Job) -> Result<(), OutOfMemory>
        requires new { is_known (as_known self.old.jobs) job.now.number ≡ false }
        ensures ok { OnOk result (self.new ≡ record self.old { jobs = with_admitted job.now self.old.jobs }) }
        ensures err { OnErr result (self.new ≡ self.old) }
    {
        let app = job.app();
        let units = fresh_units(alloc, job, self.cluster.machines() as usize)?;
        let copy = job.copy(alloc)?;
        reach(alloc, &mut self.slots, app)?;
        insert_job(&mut self.jobs, copy)?;
        self.slots[app.0 as usize] = units;
        Ok(())
    }

    /// One grant more. It takes no memory.
    pub fn grant(&mut self, app: AppNo, unit: UnitNo, machine: MachineNo)
        requires unit { unit.0 < unit_count (as_known self.old.jobs) app.0 }
        requires machine { machine.0 < length self.old.cluster.machines }
        requires few { held_on self.old.entries app.0 unit.0 machine.0 < 100000 }
        requires room { (i : ℕ) → total_at (as_known self.old.jobs) machine.0 i self.old.entries + size_at (as_known self.old.jobs) app.0 unit.0 i ≤ has_at self.old.cluster machine.0 i }
        ensures { self.new ≡ record self.old { entries = with_grant self.old.entries (spot app.0 unit.0 machine.0) } }
    {
        self.add(app, unit, machine, 1)
    }

    /// So many grants more. It takes no memory.
    pub fn add(&mut self, app: AppNo, unit: UnitNo, machine: MachineNo, count: u32)
        requires unit { unit.0 < unit_count (as_known self.old.jobs) app.0 }
        requires machine { machine.0 < length self.old.cluster.machines }
        requires few { held_on self.old.entries app.0 unit.0 machine.0 + count ≤ 100000 }
        requires room { (i : ℕ) → total_at (as_known self.old.jobs) machine.0 i self.old.entries + count * size_at (as_known self.old.jobs) app.0 unit.0 i ≤ has_at self.old.cluster machine.0 i }
        ensures { self.new ≡ record self.old { entries = with_count self.old.entries (spot app.0 unit.0 machine.0) count } }
    {
        let holding = holding_at(&self.slots, app.0 as usize, unit.0 as usize);
        let size = holding.size;
        let group = holding.group.0 as usize;
        let rack = self.cluster.machine(machine).rack.0 as usize;
        let here = machine.0 as usize;
        raise_at(
            &mut self.slots,
            app.0 as usize,
            unit.0 as usize,
            here,
            rack,
            count,
        );
        let used = &mut self.used[here];
        *used = with_more(used, &size, count);
        let usage = &mut self.usages[group];
        *usage = with_more(usage, &size, count);
    }

    /// So many grants fewer. It takes no memory.
    pub fn take(&mut self, app: AppNo, unit: UnitNo, machine: MachineNo, count: u32)
        requires unit { unit.0 < unit_count (as_known self.old.jobs) app.0 }
        requires machine { machine.0 < length self.old.cluster.machines }
        requires held { count ≤ held_on self.old.entries app.0 unit.0 machine.0 }
        ensures { self.new ≡ record self.old { entries = without_count self.old.entries (spot app.0 unit.0 machine.0) count } }
    {
        let holding = holding_at(&self.slots, app.0 as usize, unit.0 as usize);
        let size = holding.size;
        let group = holding.group.0 as usize;
        let rack = self.cluster.machine(machine).rack.0 as usize;
        let here = machine.0 as usize;
        lower_at(
            &mut self.slots,
            app.0 as usize,
            unit.0 as usize,
            here,
            rack,
            count,
        );
        let used = &mut self.used[here];
        *used = without(used, &size, count);
        let usage = &mut self.usages[group];
        *usage = without(usage, &size, count);
    }

    /// How many units of the job are admitted: 0 exactly where the job is not.
    pub fn units(&self, app: AppNo) -> usize
        ensures number { result ≡ unit_count (as_known self.now.jobs) app.0 }
        ensures known { is_known (as_known self.now.jobs) app.0 ≡ nat_lt 0 result }
    {
        units_at(&self.slots, app.0 as usize)
    }

    /// How many grants the unit has in all.
    pub fn held(&self, app: AppNo, unit: UnitNo) -> u32
        requires { unit.0 < unit_count (as_known self.now.jobs) app.0 }
        ensures { result ≡ held self.now.entries app.0 unit.0 }
    {
        holding_at(&self.slots, app.0 as usize, unit.0 as usize).held
    }

    /// What one grant of the unit takes.
    pub fn size(&self, app: AppNo, unit: UnitNo) -> &Res
        requires { unit.0 < unit_count (as_known self.now.jobs) app.0 }
        ensures { result.now.q ≡ (unit_of (as_known self.now.jobs) app.0 unit.0).size }
    {
        &holding_at(&self.slots, app.0 as usize, unit.0 as usize).size
    }

    /// The greatest number of the unit's grants that are made on one machine.
    pub fn most(&self, app: AppNo, unit: UnitNo) -> u32
        requires { unit.0 < unit_count (as_known self.now.jobs) app.0 }
        ensures { result ≡ most_of (as_known self.now.jobs) app.0 unit.0 }
    {
        holding_at(&self.slots, app.0 as usize, unit.0 as usize).most
    }

    /// How many grants the unit has on the machine.
    pub fn held_on(&self, app: AppNo, unit: UnitNo, machine: MachineNo) -> u32
        requires unit { unit.0 < unit_count (as_known self.now.jobs) app.0 }
        requires machine { machine.0 < length self.now.cluster.machines }
        ensures { result ≡ held_on self.now.entries app.0 unit.0 machine.0 }
    {
        let holding = holding_at(&self.slots, app.0 as usize, unit.0 as usize);
        holding.count(machine.0 as usize)
    }

    /// How many grants the unit has on each machine, by its number.
    pub fn counts(&self, app: AppNo, unit: UnitNo) -> &[u32]
        requires { unit.0 < unit_count (as_known self.now.jobs) app.0 }
        ensures long { length result.now ≡ length self.now.cluster.machines }
        ensures is { (m : ℕ) → get_or result.now m 0 ≡ held_on self.now.entries app.0 unit.0 m }
    {
        holding_at(&self.slots, app.0 as usize, unit.0 as usize).counts()
    }

    /// How many grants the unit has on the machines of the rack, which need not be there.
    pub fn held_in_rack(&self, app: AppNo, unit: UnitNo, rack: RackNo) -> u32
        requires unit { unit.0 < unit_count (as_known self.now.jobs) app.0 }
        requires rack { rack.0 < 64 }
        ensures { result ≡ held_in self.now.cluster self.now.entries app.0 unit.0 rack.0 }
    {
        let holding = holding_at(&self.slots, app.0 as usize, unit.0 as usize);
        holding.in_rack(rack.0 as usize)
    }

    /// What is free on the machine. Each call is a step.
    pub fn free<L: Ledger>(&self, machine: MachineNo, steps: &mut Steps<L>) -> Res
        requires { machine.0 < length self.now.cluster.machines }
        ensures free { (i : ℕ) → at_place result.q i ≡ has_at self.now.cluster machine.0 i - total_at (as_known self.now.jobs) machine.0 i self.now.entries }
        ensures fits { (i : ℕ) → total_at (as_known self.now.jobs) machine.0 i self.now.entries ≤ has_at self.now.cluster machine.0 i }
        ensures step { steps.new ≡ steps.old + 1 }
    {
        steps.tick();
        let has = self.cluster.machine(machine).has;
        minus(&has, &self.used[machine.0 as usize])
    }

    /// What the jobs of the group have in all, at most 256,000,000,000,000 of each resource, and nothing of a
    /// resource that the cluster does not have. The cluster need not have the group.
    pub fn used_by(&self, group: GroupNo) -> Res
        requires { group.0 < 32 }
        ensures used { (i : ℕ) → at_place result.q i ≡ usage_at (as_known self.now.jobs) group.0 i self.now.entries }
        ensures within { (i : ℕ) → usage_at (as_known self.now.jobs) group.0 i self.now.entries ≤ 256000000000000 }
        ensures beyond { (i : ℕ) → self.now.cluster.resources ≤ i → usage_at (as_known self.now.jobs) group.0 i self.now.entries ≡ 0 }
    {
        self.usages[group.0 as usize]
    }

    /// Says that each running total is that of the entries and within its bounds, and that the jobs and the cluster are valid.
    pub fn is_sound(&self)
        ensures { IsSound self.now }
    {
        let _ = &self.cluster;
    }

    /// The cluster.
    pub fn cluster(&self) -> &Cluster
        ensures cluster { result.now ≡ self.now.cluster }
        ensures sound { IsSound self.now }
    {
        &self.cluster
    }

    /// How many jobs are admitted.
    pub fn jobs(&self) -> u32
        ensures { result ≡ length self.now.jobs }
    {
        self.jobs.len() as u32
    }

    /// The admitted job at a place of the order of numbers, counted from 0.
    pub fn job(&self, index: u32) -> &Job
        requires { index < length self.now.jobs }
        ensures { slice_get self.now.jobs index ≡ Some result.now }
    {
        &self.jobs[index as usize]
    }
}

// What is used with so many of a size more.
fn with_more(used: &Res, size: &Res, count: u32) -> Res
    requires { (i : ℕ) → get_or used.now.q i 0 + count * get_or size.now.q i 0 < 2 ^ 64 }
    ensures { (i : ℕ) → get_or result.q i 0 ≡ get_or used.now.q i 0 + count * get_or size.now.q i 0 }
{
    let mut q = used.q;
    for i in 0..8 {
        q[i] = used.q[i] + count as u64 * size.q[i];
    }
    Res { q }
}

// What is used without so many of a size.
fn without(used: &Res, size: &Res, count: u32) -> Res
    requires { (i : ℕ) → count * get_or size.now.q i 0 ≤ get_or used.now.q i 0 }
    ensures { (i : ℕ) → get_or result.q i 0 ≡ get_or used.now.q i 0 - count * get_or size.now.q i 0 }
{
    let mut q = used.q;
    for i in 0..8 {
        q[i] = used.q[i] - count as u64 * size.q[i];
    }
    Res { q }
}

// Where a job of this number goes.
fn place_of(jobs: &[Job], app: AppNo) -> usize
    ensures within { result ≤ length jobs.now }
    ensures placed { (j : JobRecord) → j.number ≡ app.0 → with_admitted j jobs.now ≡ insert jobs.now result j }
{
    for at in 0..jobs.len() {
        if app.0 < jobs[at].app().0 {
            return at;
        }
    }
    jobs.len()
}

// Puts a job in its place.
fn insert_job(jobs: &mut Vec<Job>, job: Job) -> Result<(), OutOfMemory>
    ensures ok { OnOk result (jobs.new.items ≡ with_admitted job jobs.old.items) }
    ensures err { OnErr result (jobs.new.items ≡ jobs.old.items) }
{
    let at = place_of(jobs, job.app());
    jobs.insert(at, job)?;
    Ok(())
}
