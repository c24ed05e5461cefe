//! What a search reads of the units that have grants, of groups and of machines.

ghost use Rattle.std.specs.Prelude.{◌≡◌, ℕ, ◌+◌, ◌<◌, ◌≤◌, false, IfOk, length};
ghost use Rattle.std.specs.List.{All, AllByRecursion};
ghost use Rattle.preempt.specs.Shelves.{AreFree, AreOpen, HasNothingOn, IsSnapshot, IsUsed, IsWalked, may_take};

use crate::entry::{Entry, GroupUse, Need};
use crate::machine_grants::spares_one;
use crate::walk::list_machine;
use fuxi_terms::OutOfMemory;
use grant_table::{GrantTable, Steps};
use schedule_unit::MachineNo;
use std::alloc::Global;
use std::sync::ledger::Ledger;

/// What a search reads, made once for all that wait.
#[derive(Clone, Copy)]
pub(crate) struct Snapshot<'a> {
    /// What each of the 32 groups is promised, may use and uses.
    pub(crate) groups: &'a [GroupUse<'a>],
    /// The units that have grants, in the order of the walk.
    pub(crate) holders: &'a [Entry<'a>],
    /// What each of them has by machine.
    pub(crate) counts: &'a [&'a [u32]],
    /// What is free, by machine.
    pub(crate) free: &'a [[u64; 8]],
}

/// What is free, by machine. It is asked once for each.
pub(crate) fn free_of<L: Ledger>(
    alloc: Global,
    table: &GrantTable,
    steps: &mut Steps<L>,
) -> Result<Vec<[u64; 8]>, OutOfMemory>
    ensures free { IfOk result (λ free. AreFree table.now free.items) }
    ensures steps { steps.new ≤ steps.old + length table.now.cluster.machines }
{
    let machines = table.cluster().machines();
    let mut free = Vec::with_capacity(alloc, machines as usize)?;
    for number in 0..machines {
        free.push(table.free(MachineNo(number), steps).q)?;
    }
    Ok(free)
}

// Whether a unit may take any grant of another one.
fn may_take(need: &Need, groups: &[GroupUse<'_>], e: &Entry<'_>) -> bool
    requires small { e.now.group < 32 }
    requires long { length groups.now ≡ 32 }
    requires used { IsUsed groups.now e.now }
    ensures { result ≡ may_take need.now groups.now e.now }
{
    if e.group == need.group {
        return e.priority < need.priority;
    }
    if need.guaranteed {
        return spares_one(&groups[e.group], e.size);
    }
    false
}

/// By machine what those units have of which any grant may be taken.
pub(crate) fn open_rows<'a>(
    alloc: Global,
    table: &GrantTable,
    stock: &Snapshot<'a>,
    need: &Need,
) -> Result<Vec<&'a [u32]>, OutOfMemory>
    requires stock { IsSnapshot table.now stock.now }
    ensures { IfOk result (λ rows. AreOpen table.now need.now stock.now.holders.now rows.items) }
{
    table.is_sound();
    let mut rows = Vec::with_capacity(alloc, stock.holders.len())?;
    for at in 0..stock.holders.len() {
        if !may_take(need, stock.groups, &stock.holders[at]) {
            continue;
        }
        rows.push(stock.counts[at])?;
    }
    Ok(rows)
}

/// Whether any of these units has a grant on a machine.
pub(crate) fn has_any_on(rows: &[&[u32]], machine: u32) -> bool
    requires { All (λ row. machine < length row.now) rows.now }
    ensures { result ≡ false → AllByRecursion (HasNothingOn machine) rows.now }
{
    for at in 0..rows.len() {
        let count = rows[at][machine as usize];
        if count == 0 {
            continue;
        }
        return true;
    }
    false
}

/// The entries of a machine, in the order of the walk.
pub(crate) fn entries_on<'a>(
    alloc: Global,
    table: &GrantTable,
    stock: &Snapshot<'a>,
    machine: MachineNo,
) -> Result<Vec<Entry<'a>>, OutOfMemory>
    requires stock { IsSnapshot table.now stock.now }
    requires machine { machine.0 < length table.now.cluster.machines }
    ensures { IfOk result (λ entries. IsWalked table.now machine.0 entries.items) }
{
    // No machine has grants of more units, so the list does not grow.
    let mut entries = Vec::with_capacity(alloc, stock.holders.len())?;
    list_machine(&mut entries, stock.holders, stock.counts, machine.0)?;
    Ok(entries)
}
