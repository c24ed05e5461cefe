//! What there is room for on each machine, once all that may be taken there is gone. A unit that needs more has no
//! victims, so that its machine is not walked.

ghost use Rattle.std.specs.Prelude.{◌≡◌, ℕ, ◌+◌, ◌-◌, ◌^◌, ◌<◌, ◌≤◌, true, max, min, length, slice_index, IfOk, IfSome, OnOk};
ghost use Rattle.std.specs.List.{AllByRecursion};
ghost use Rattle.fuxi_terms.specs.Lists.{below_each};
ghost use Rattle.grant_table.specs.GrantTables.{TableRecord};
ghost use Rattle.preempt.specs.Given.{AreGroups, AreSpared};
ghost use Rattle.preempt.specs.MachineRooms.{AreRooms, IsFor, IsKind, IsPlaceOf, IsRoom, within_at};
ghost use Rattle.preempt.specs.Shelves.{AreOpen, AreMachineGrants, IsSnapshot, IsWalked};

use crate::entry::{Entry, GroupUse, Need, Sums, lower_of, with_spared};
use crate::machine_grants::{MachineGrants, machine_grants_of, spared_on, used_of};
use crate::parts::Parts;
use crate::snapshot::{Snapshot, entries_on, has_any_on, open_rows};
use fuxi_terms::OutOfMemory;
use grant_table::GrantTable;
use schedule_unit::MachineNo;
use std::alloc::Global;

/// The rooms for units of one group and priority, that have quota left for one more or have not.
#[derive(Drop)]
pub(crate) struct Rooms {
    pub(crate) group: usize,
    pub(crate) priority: u8,
    pub(crate) guaranteed: bool,
    /// By machine.
    pub(crate) each: Vec<Sums>,
    /// In each resource the greatest of them.
    pub(crate) widest: [u128; 8],
}

/// Whether a size needs no more than there is room for, in each of so many resources.
pub(crate) fn is_within(resources: usize, size: &[u64; 8], room: &[u128; 8]) -> bool
    requires { resources ≤ 8 }
    ensures { result ≡ below_each resources (within_at size.now room.now) }
{
    let mut all = true;
    for i in 0..resources {
        let more = room[i] < size[i] as u128;
        all = all && !more;
    }
    all
}

// In each of so many resources at least so wide as a room.
fn widen(resources: usize, widest: &mut [u128; 8], room: &[u128; 8])
    requires { resources ≤ 8 }
    ensures { (i : ℕ) → i < resources → slice_index widest.new i ≡ max (slice_index widest.old i) (slice_index room.now i) }
{
    for i in 0..resources {
        widest[i] = widest[i].max(room[i]);
    }
}

// What is left of what there is and of this sum, where so much is used.
fn left_of(has: u64, sum: u128, used: u64) -> u128
    requires { sum < 2 ^ 127 }
    ensures { result ≡ (has + sum) - used }
{
    (has as u128 + sum).saturating_sub(used as u128)
}

// In each of so many resources the smaller of what is left on a machine, where all this is taken, and of what is left
// to a group, where so much of it is its own.
fn left_on(
    resources: usize,
    has: &[u64; 8],
    used: &[u64; 8],
    all: &[u128; 8],
    group: &GroupUse<'_>,
    own: &[u128; 8],
) -> [u128; 8]
    requires resources { resources ≤ 8 }
    requires all_small { (i : ℕ) → i < 8 → slice_index all.now i < 2 ^ 127 }
    requires own_small { (i : ℕ) → i < 8 → slice_index own.now i < 2 ^ 127 }
    ensures { (i : ℕ) → i < resources → slice_index result i ≡ min ((slice_index has.now i + slice_index all.now i) - slice_index used.now i) ((slice_index group.now.bounds.now.limit.q i + slice_index own.now i) - slice_index group.now.used.q i) }
{
    let mut q = [0; 8];
    for i in 0..resources {
        let fits = left_of(has[i], all[i], used[i]);
        let allowed = left_of(group.bounds.limit.q[i], own[i], group.used.q[i]);
        q[i] = fits.min(allowed);
    }
    q
}

// What there is room for on a machine, once all that may be taken there is gone: it fits, and its group may use it.
fn room_on(
    shelf: &MachineGrants<'_, '_>,
    spared: &[Entry<'_>],
    need: &Need,
    groups: &[GroupUse<'_>],
) -> Sums
    requires resources { need.now.resources ≤ 8 }
    requires own { need.now.group < 32 }
    requires few { length shelf.now.entries.now ≤ 1000000 }
    requires few_spared { length spared.now ≤ 1000000 }
    requires long { length groups.now ≡ 32 }
    ensures { (t : TableRecord) (m : ℕ) → AreGroups t groups.now → AreMachineGrants t m shelf.now → AreSpared t m shelf.now.entries.now spared.now → need.now.resources ≡ t.cluster.resources → IsRoom t need.now.group need.now.priority need.now.guaranteed m result.q }
{
    let lower = lower_of(shelf.entries, need);
    let all = with_spared(&lower, spared, need);
    let group = &groups[need.group];
    let used = used_of(&shelf.has, &shelf.free);
    Sums {
        q: left_on(need.resources, &shelf.has, &used, &all, group, &lower),
    }
}

// The same, of a machine with these entries.
fn room_among(
    alloc: Global,
    table: &GrantTable,
    stock: &Snapshot<'_>,
    entries: &[Entry<'_>],
    need: &Need,
    machine: MachineNo,
    parts: &mut Parts,
) -> Result<Sums, OutOfMemory>
    requires stock { IsSnapshot table.now stock.now }
    requires resources { need.now.resources ≡ table.now.cluster.resources }
    requires own { need.now.group < 32 }
    requires machine { machine.0 < length table.now.cluster.machines }
    requires entries { IsWalked table.now machine.0 entries.now }
    ensures { IfOk result (λ room. IsRoom table.now need.now.group need.now.priority need.now.guaranteed machine.0 room.q) }
{
    table.is_sound();
    let spared = spared_on(alloc, entries, need.resources, stock.groups, parts)?;
    let shelf = machine_grants_of(table, stock, entries, machine);
    Ok(room_on(&shelf, &spared, need, stock.groups))
}

// The same, where a test tells whether anything may be taken there. Else there are no victims, so no room is kept.
fn room_at(
    alloc: Global,
    table: &GrantTable,
    stock: &Snapshot<'_>,
    rows: &[&[u32]],
    need: &Need,
    machine: MachineNo,
    parts: &mut Parts,
) -> Result<Sums, OutOfMemory>
    requires stock { IsSnapshot table.now stock.now }
    requires resources { need.now.resources ≡ table.now.cluster.resources }
    requires own { need.now.group < 32 }
    requires machine { machine.0 < length table.now.cluster.machines }
    requires rows { AreOpen table.now need.now stock.now.holders.now rows.now }
    ensures { IfOk result (λ room. IsRoom table.now need.now.group need.now.priority need.now.guaranteed machine.0 room.q) }
{
    if !has_any_on(rows, machine.0) {
        return Ok(Sums { q: [0; 8] });
    }
    let entries = entries_on(alloc, table, stock, machine)?;
    room_among(alloc, table, stock, &entries, need, machine, parts)
}

/// The rooms for units of the kind of a need.
pub(crate) fn rooms_of(
    alloc: Global,
    table: &GrantTable,
    stock: &Snapshot<'_>,
    need: &Need,
    parts: &mut Parts,
) -> Result<Rooms, OutOfMemory>
    requires stock { IsSnapshot table.now stock.now }
    requires resources { need.now.resources ≡ table.now.cluster.resources }
    requires own { need.now.group < 32 }
    ensures rooms { IfOk result (AreRooms table.now) }
    ensures kind { IfOk result (IsFor need.now) }
{
    let machines = table.cluster().machines();
    let rows = open_rows(alloc, table, stock, need)?;
    let mut each = Vec::with_capacity(alloc, machines as usize)?;
    let mut widest = [0; 8];
    for number in 0..machines {
        let machine = MachineNo(number);
        let room = room_at(alloc, table, stock, &rows, need, machine, parts)?;
        widen(need.resources, &mut widest, &room.q);
        each.push(room)?;
    }
    Ok(Rooms {
        group: need.group,
        priority: need.priority,
        guaranteed: need.guaranteed,
        each,
        widest,
    })
}

// Whether the rooms are for units of a group and a priority, with quota left for one more or not.
fn are_for(rooms: &Rooms, group: usize, priority: u8, guaranteed: bool) -> bool
    ensures { result ≡ true → IsKind group priority guaranteed rooms.now }
{
    if rooms.group != group {
        return false;
    }
    if rooms.priority != priority {
        return false;
    }
    match guaranteed {
        true => rooms.guaranteed,
        false => !rooms.guaranteed,
    }
}

/// The place of the rooms for units of a group and a priority, with quota left for one more or not.
pub(crate) fn place_for(
    kinds: &[Rooms],
    group: usize,
    priority: u8,
    guaranteed: bool,
) -> Option<usize>
    ensures { IfSome result (IsPlaceOf group priority guaranteed kinds.now) }
{
    for at in 0..kinds.len() {
        if are_for(&kinds[at], group, priority, guaranteed) {
            return Some(at);
        }
    }
    None
}
