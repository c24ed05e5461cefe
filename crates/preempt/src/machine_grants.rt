//! What is walked of a machine, what groups spare, and two bounds by which units that can take no grants are told
//! without a walk.

ghost use Rattle.std.specs.Prelude.{◌≡◌, ℕ, ◌-◌, ◌<◌, ◌≤◌, true, IfOk, IsTrue, length, replicate, slice_index};
ghost use Rattle.std.specs.List.{All, AllByRecursion};
ghost use Rattle.preempt.specs.Given.{AreGroups, AreSpared, IsEntry, IsGroup};
ghost use Rattle.grant_table.specs.GrantTables.{TableRecord};
ghost use Rattle.fuxi_terms.specs.Vectors.{fits};
ghost use Rattle.preempt.specs.Shelves.{AreMachineGrants, IsSnapshot, IsUsed, IsWalked, IsLow, IsLoose, is_loose, is_other_loose, spares};

use crate::entry::{Entry, GroupUse, raised, recounted};
use crate::number::spared_number;
use crate::parts::Parts;
use crate::snapshot::Snapshot;
use cluster_desc::{Cluster, Group};
use fuxi_terms::OutOfMemory;
use grant_table::GrantTable;
use quota_group::spares;
use res_vector::{Res, zero};
use schedule_unit::{GroupNo, MachineNo};
use std::alloc::Global;

/// The groups that have a grant on a machine that their quota spares.
#[derive(Clone, Copy)]
pub(crate) enum Loose {
    Nobody,
    One(usize),
    Several,
}

/// A machine.
#[derive(Clone, Copy)]
pub(crate) struct MachineGrants<'s, 'a> {
    /// Its grants, in the order of the walk.
    pub(crate) entries: &'s [Entry<'a>],
    /// What the machine has, and what of it is free.
    pub(crate) has: [u64; 8],
    pub(crate) free: [u64; 8],
}

// Whether a group is among those that are loose.
fn is_loose(loose: Loose, group: usize) -> bool
    ensures { result ≡ is_loose loose group }
{
    match loose {
        Loose::Nobody => false,
        Loose::One(one) => one == group,
        Loose::Several => true,
    }
}

/// Whether another group than this one is loose.
pub(crate) fn is_other_loose(loose: Loose, group: usize) -> bool
    ensures { result ≡ is_other_loose loose group }
{
    match loose {
        Loose::Nobody => false,
        Loose::One(one) => one != group,
        Loose::Several => true,
    }
}

// With this group among those that are loose.
fn loosened(loose: Loose, group: usize) -> Loose
    ensures here { is_loose result group ≡ true }
    ensures others { (g : ℕ) → is_loose loose g ≡ true → is_loose result g ≡ true }
{
    if is_loose(loose, group) {
        return loose;
    }
    match loose {
        Loose::Nobody => Loose::One(group),
        _ => Loose::Several,
    }
}

/// Whether a group spares one grant of this size, which is part of what it uses.
pub(crate) fn spares_one(group: &GroupUse<'_>, size: &Res) -> bool
    requires { IsTrue (fits size.now.q group.now.used.q) }
    ensures { result ≡ spares group.now size.now.q }
{
    spares(group.bounds, &group.used, &zero(), size)
}

/// By group the least priority of its entries, or 255.
pub(crate) fn lowest_of(entries: &[Entry<'_>]) -> [u8; 32]
    requires { All (λ e. e.group < 32) entries.now }
    ensures { AllByRecursion (IsLow result) entries.now }
{
    let mut lowest = [255; 32];
    for e in entries {
        lowest[e.group] = e.priority.min(lowest[e.group]);
    }
    lowest
}

/// The groups that spare one of their entries.
pub(crate) fn loose_of(entries: &[Entry<'_>], groups: &[GroupUse<'_>]) -> Loose
    requires small { All (λ e. e.group < 32) entries.now }
    requires long { length groups.now ≡ 32 }
    requires used { AllByRecursion (IsUsed groups.now) entries.now }
    ensures { AllByRecursion (IsLoose groups.now result) entries.now }
{
    let mut loose = Loose::Nobody;
    for e in entries {
        if spares_one(&groups[e.group], e.size) {
            loose = loosened(loose, e.group);
        }
    }
    loose
}

// Of each entry as many grants as its group spares beside those before it, whoever they are for. One of which it
// spares none is left out.
fn spared_of<'a>(
    alloc: Global,
    entries: &[Entry<'a>],
    loose: Loose,
    resources: usize,
    groups: &[GroupUse<'_>],
    parts: &mut Parts,
) -> Result<Vec<Entry<'a>>, OutOfMemory>
    requires few { length entries.now ≤ 1000000 }
    requires small { All (λ e. e.group < 32) entries.now }
    requires resources { resources ≤ 8 }
    requires long { length groups.now ≡ 32 }
    requires used { AllByRecursion (IsUsed groups.now) entries.now }
    requires loose { AllByRecursion (IsLoose groups.now loose) entries.now }
    ensures few { IfOk result (λ spared. length spared.items ≤ length entries.now) }
    ensures spared { IfOk result (λ spared. (t : TableRecord) (m : ℕ) → AllByRecursion (IsEntry t) entries.now → AreGroups t groups.now → resources ≡ t.cluster.resources → AreSpared t m entries.now spared.items) }
{
    match loose {
        Loose::Nobody => return Ok(Vec::new(alloc)),
        _ => {}
    }
    let mut spared = Vec::new(alloc);
    parts.restart();
    for e in entries {
        let part = parts.of(e.group);
        let count = spared_number(resources, &groups[e.group], &part, &e.size.q, e.count);
        if count == 0 {
            continue;
        }
        spared.push(recounted(e, count))?;
        parts.put(e.group, raised(&part, &e.size.q, count))?;
    }
    Ok(spared)
}

/// The same for a machine, of which these are the entries.
pub(crate) fn spared_on<'a>(
    alloc: Global,
    entries: &[Entry<'a>],
    resources: usize,
    groups: &[GroupUse<'_>],
    parts: &mut Parts,
) -> Result<Vec<Entry<'a>>, OutOfMemory>
    requires few { length entries.now ≤ 1000000 }
    requires small { All (λ e. e.group < 32) entries.now }
    requires resources { resources ≤ 8 }
    requires long { length groups.now ≡ 32 }
    requires used { AllByRecursion (IsUsed groups.now) entries.now }
    ensures few { IfOk result (λ spared. length spared.items ≤ length entries.now) }
    ensures spared { IfOk result (λ spared. (t : TableRecord) (m : ℕ) → AllByRecursion (IsEntry t) entries.now → AreGroups t groups.now → resources ≡ t.cluster.resources → AreSpared t m entries.now spared.items) }
{
    let loose = loose_of(entries, groups);
    spared_of(alloc, entries, loose, resources, groups, parts)
}

// What a group is promised, may use and uses. One that the cluster does not have is promised nothing.
fn group_use<'a>(table: &'a GrantTable, nothing: &'a Group, number: GroupNo) -> GroupUse<'a>
    requires number { number.0 < 32 }
    requires quota { nothing.now.quota.q ≡ replicate 8 0 }
    requires limit { nothing.now.limit.q ≡ replicate 8 0 }
    ensures { IsGroup table.now number.0 result }
{
    let cluster = table.cluster();
    let used = table.used_by(number);
    if number.0 < cluster.groups() {
        let bounds = cluster.group(number);
        GroupUse { bounds, used }
    } else {
        GroupUse {
            bounds: nothing,
            used,
        }
    }
}

/// What each of the 32 groups is promised, may use and uses.
pub(crate) fn groups_of<'a>(
    alloc: Global,
    table: &'a GrantTable,
    nothing: &'a Group,
) -> Result<Vec<GroupUse<'a>>, OutOfMemory>
    requires quota { nothing.now.quota.q ≡ replicate 8 0 }
    requires limit { nothing.now.limit.q ≡ replicate 8 0 }
    ensures { IfOk result (λ groups. AreGroups table.now groups.items) }
{
    let mut groups = Vec::with_capacity(alloc, 32)?;
    for number in 0..32_u32 {
        groups.push(group_use(table, nothing, GroupNo(number)))?;
    }
    Ok(groups)
}

/// What is used of what there is, where so much is free.
pub(crate) fn used_of(has: &[u64; 8], free: &[u64; 8]) -> [u64; 8]
    ensures { (i : ℕ) → i < 8 → slice_index result i ≡ slice_index has.now i - slice_index free.now i }
{
    let mut used = [0; 8];
    for i in 0..8 {
        used[i] = has[i].saturating_sub(free[i]);
    }
    used
}

/// A machine, of which these are the entries.
pub(crate) fn machine_grants_of<'s, 'a>(
    table: &GrantTable,
    stock: &Snapshot<'_>,
    entries: &'s [Entry<'a>],
    machine: MachineNo,
) -> MachineGrants<'s, 'a>
    requires machine { machine.0 < length table.now.cluster.machines }
    requires stock { IsSnapshot table.now stock.now }
    requires entries { IsWalked table.now machine.0 entries.now }
    ensures shelf { AreMachineGrants table.now machine.0 result }
    ensures same { result.entries.now ≡ entries.now }
{
    let cluster = table.cluster();
    let has = cluster.machine(machine).has.q;
    let free = stock.free[machine.0 as usize];
    MachineGrants { entries, has, free }
}
