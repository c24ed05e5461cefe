//! The admitted units in the order in which grants are walked: lower priority, then greater job, then greater
//! unit. That order is the same on each machine.

ghost use Rattle.std.specs.Prelude.{◌≡◌, ℕ, ◌<◌, ◌++◌, Some, IfOk, OnOk, length, drop, map, filter, slice_get};
ghost use Rattle.std.specs.List.{All, AllByRecursion};
ghost use Rattle.fuxi_terms.specs.Cluster.{JobRecord};
ghost use Rattle.grant_table.specs.GrantTables.{TableRecord, IsSound};
ghost use Rattle.preempt.specs.Given.{IsEntry, pair_of};
ghost use Rattle.preempt.specs.Shelves.{AreHolders, AreRead, HoldsSome, IsListed};
ghost use Rattle.preempt.specs.Walks.{HasItsPriority, holds_some, units_in, backward, of_priority, entries_by_priority};

use crate::entry::{Entry, recounted};
use fuxi_terms::OutOfMemory;
use grant_table::GrantTable;
use schedule_unit::{Job, UnitNo};
use std::alloc::Global;

/// A unit of an admitted job, with no grants.
pub(crate) fn entry_of<'a>(job: &'a Job, unit: UnitNo) -> Entry<'a>
    requires { unit.0 < length job.now.units }
    ensures pair { pair_of result ≡ (job.now.number, unit.0) }
    ensures entry { (t : TableRecord) (i : ℕ) → IsSound t → slice_get t.jobs i ≡ Some job.now → IsEntry t result }
{
    let asked = job.unit(unit);
    Entry {
        app: job.app(),
        unit,
        group: job.group().0 as usize,
        priority: asked.priority,
        count: 0,
        size: &asked.size,
    }
}

// Of the units of the job at a place those that have grants, wherever it is.
fn push_holders<'a>(
    holders: &mut Vec<Entry<'a>>,
    table: &'a GrantTable,
    index: u32,
) -> Result<(), OutOfMemory>
    requires { index < length table.now.jobs }
    ensures pairs { OnOk result ((j : JobRecord) → slice_get table.now.jobs index ≡ Some j → map pair_of holders.new.items ≡ map pair_of holders.old.items ++ filter (holds_some table.now.entries) (units_in j (length j.units))) }
    ensures entries { OnOk result (AllByRecursion (IsEntry table.now) holders.old.items → AllByRecursion (IsEntry table.now) holders.new.items) }
{
    table.is_sound();
    let job = table.job(index);
    for number in 0..job.units() {
        let unit = UnitNo(number);
        if table.held(job.app(), unit) == 0 {
            continue;
        }
        holders.push(entry_of(job, unit))?;
    }
    Ok(())
}

/// The units that have grants, in the order of job and unit.
pub(crate) fn holders_of<'a>(
    alloc: Global,
    table: &'a GrantTable,
) -> Result<Vec<Entry<'a>>, OutOfMemory>
    ensures each { IfOk result (λ holders. AllByRecursion (IsEntry table.now) holders.items) }
    ensures some { IfOk result (λ holders. AllByRecursion (HoldsSome table.now) holders.items) }
    ensures holders { IfOk result (λ holders. AreHolders table.now (entries_by_priority holders.items 10)) }
{
    table.is_sound();
    // Mostly that is enough, so that the list does not grow.
    let mut holders = Vec::with_capacity(alloc, 2 * table.jobs() as usize)?;
    for index in 0..table.jobs() {
        push_holders(&mut holders, table, index)?;
    }
    Ok(holders)
}

// Those of one priority, from the last to the first.
fn push_priority<'a>(
    sorted: &mut Vec<Entry<'a>>,
    units: &[Entry<'a>],
    priority: u8,
) -> Result<(), OutOfMemory>
    ensures { OnOk result (sorted.new.items ≡ sorted.old.items ++ backward (of_priority priority) units.now) }
{
    for back in 0..units.len() {
        let e = &units[units.len() - 1 - back];
        if e.priority == priority {
            sorted.push(*e)?;
        }
    }
    Ok(())
}

/// Which priorities any of these units has.
pub(crate) fn priorities_of(units: &[Entry<'_>]) -> [bool; 256]
    ensures { AllByRecursion (HasItsPriority result) units.now }
{
    let mut present = [false; 256];
    for e in units {
        let priority = e.priority;
        present[priority as usize] = true;
    }
    present
}

/// In the order of the walk, where they stand in that of job and unit.
pub(crate) fn by_priority<'a>(
    alloc: Global,
    units: &[Entry<'a>],
) -> Result<Vec<Entry<'a>>, OutOfMemory>
    ensures { IfOk result (λ sorted. sorted.items ≡ entries_by_priority units.now 10) }
{
    let mut sorted = Vec::with_capacity(alloc, units.len())?;
    let present = priorities_of(units);
    for priority in 0..10_u8 {
        if !present[priority as usize] {
            continue;
        }
        push_priority(&mut sorted, units, priority)?;
    }
    Ok(sorted)
}

/// What each unit has by machine. Each is looked up once.
pub(crate) fn counts_of<'a>(
    alloc: Global,
    table: &'a GrantTable,
    units: &[Entry<'_>],
) -> Result<Vec<&'a [u32]>, OutOfMemory>
    requires { AllByRecursion (IsEntry table.now) units.now }
    ensures { IfOk result (λ counts. AreRead table.now units.now counts.items) }
{
    let mut counts = Vec::with_capacity(alloc, units.len())?;
    for e in units {
        counts.push(table.counts(e.app, e.unit))?;
    }
    Ok(counts)
}

/// With those of a machine behind what is listed.
pub(crate) fn list_machine<'a>(
    entries: &mut Vec<Entry<'a>>,
    units: &[Entry<'a>],
    counts: &[&[u32]],
    machine: u32,
) -> Result<(), OutOfMemory>
    requires long { length counts.now ≡ length units.now }
    requires wide { All (λ row. machine < length row.now) counts.now }
    ensures kept { OnOk result (entries.new.items ≡ entries.old.items ++ drop (length entries.old.items) entries.new.items) }
    ensures listed { OnOk result ((t : TableRecord) → AllByRecursion (IsEntry t) units.now → AreRead t units.now counts.now → IsListed t units.now machine (drop (length entries.old.items) entries.new.items)) }
{
    for at in 0..units.len() {
        let count = counts[at][machine as usize];
        if count == 0 {
            continue;
        }
        entries.push(recounted(&units[at], count))?;
    }
    Ok(())
}
