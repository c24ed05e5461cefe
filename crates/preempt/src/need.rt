//! What a unit that waits needs.

ghost use Rattle.std.specs.Prelude.{◌≡◌, ℕ, ◌+◌, ◌<◌, ◌≤◌, true, false, Some, None, IfOk, IfSome, MatchOption, slice_get, slice_index, length, map};
ghost use Rattle.std.specs.Option.{option_map};
ghost use Rattle.std.specs.List.{All, AllByRecursion};
ghost use Rattle.fuxi_terms.specs.Cluster.{JobRecord, is_narrow};
ghost use Rattle.fuxi_terms.specs.Jobs.{unit_count, size_at};
ghost use Rattle.fuxi_terms.specs.Tables.{spot};
ghost use Rattle.spec_roles.specs.Preemption.{is_guaranteed_in, victims_in};
ghost use Rattle.grant_table.specs.GrantTables.{TableRecord, IsSound, as_known};
ghost use Rattle.preempt.specs.Given.{AreGroups, IsEntry, IsGroup, IsNeed, board_of, pair_of};
ghost use Rattle.preempt.specs.Plans.{AreTakable, losers_of};
ghost use Rattle.preempt.specs.Shelves.{AreMachineGrants, IsWanted};

use crate::entry::{Entry, GroupUse, Need};
use crate::machine_grants::{MachineGrants, used_of};
use crate::number::is_narrow;
use crate::plan::Victim;
use crate::victims::{Scratch, victims_on};
use crate::walk::entry_of;
use fuxi_terms::OutOfMemory;
use grant_table::{Asking, GrantTable};
use quota_group::guaranteed;
use schedule_unit::{AppNo, UnitNo};
use std::alloc::Global;

// The place of an admitted job.
fn place_of(table: &GrantTable, app: AppNo) -> u32
    requires { 0 < unit_count (as_known table.now.jobs) app.0 }
    ensures there { result < length table.now.jobs }
    ensures found { (j : JobRecord) → slice_get table.now.jobs result ≡ Some j → j.number ≡ app.0 }
{
    for index in 0..table.jobs() {
        if table.job(index).app().0 == app.0 {
            return index;
        }
    }
    unreachable!()
}

// An admitted unit, with no grants.
fn unit_of<'a>(table: &'a GrantTable, app: AppNo, unit: UnitNo) -> Entry<'a>
    requires { unit.0 < unit_count (as_known table.now.jobs) app.0 }
    ensures entry { IsEntry table.now result }
    ensures pair { pair_of result ≡ (app.0, unit.0) }
{
    table.is_sound();
    let job = table.job(place_of(table, app));
    entry_of(job, unit)
}

/// The waiting units, in their order.
pub(crate) fn waiting_of<'a, P: Asking>(
    alloc: Global,
    table: &'a GrantTable,
    placer: &P,
) -> Result<Vec<Entry<'a>>, OutOfMemory>
    requires { AllByRecursion (λ p. p.1 < unit_count (as_known table.now.jobs) p.0) (P.line placer.now) }
    ensures pairs { IfOk result (λ waiting. map pair_of waiting.items ≡ P.line placer.now) }
    ensures entries { IfOk result (λ waiting. AllByRecursion (IsEntry table.now) waiting.items) }
{
    let mut waiting = Vec::with_capacity(alloc, placer.waiting_len())?;
    for place in 0..placer.waiting_len() {
        let (app, unit) = placer.waiting_at(place);
        waiting.push(unit_of(table, app, unit))?;
    }
    Ok(waiting)
}

// Place by place.
fn sum_of(a: &[u64; 8], b: &[u64; 8]) -> [u128; 8]
    ensures { (i : ℕ) → i < 8 → slice_index result i ≡ slice_index a.now i + slice_index b.now i }
{
    let mut q = [0; 8];
    for i in 0..8 {
        q[i] = a[i] as u128 + b[i] as u128;
    }
    q
}

/// Whether the group of a unit has quota left for one more grant of it.
pub(crate) fn is_guaranteed(table: &GrantTable, group: &GroupUse<'_>, e: &Entry<'_>) -> bool
    requires entry { IsEntry table.now e.now }
    requires group { IsGroup table.now e.now.group group.now }
    ensures { is_narrow table.now.cluster (size_at (as_known table.now.jobs) e.now.app.0 e.now.unit.0) ≡ true → result ≡ is_guaranteed_in (board_of table.now) table.now.entries (spot e.now.app.0 e.now.unit.0 0) }
{
    table.is_sound();
    guaranteed(group.bounds, &group.used, e.size)
}

/// What one more grant of a unit needs, wherever it is, and `None` exactly where it fits nowhere, since it needs
/// a resource that the cluster does not have.
pub(crate) fn need_of(table: &GrantTable, group: &GroupUse<'_>, e: &Entry<'_>) -> Option<Need>
    requires entry { IsEntry table.now e.now }
    requires group { IsGroup table.now e.now.group group.now }
    ensures { MatchOption result (is_narrow table.now.cluster (size_at (as_known table.now.jobs) e.now.app.0 e.now.unit.0) ≡ false) (IsWanted table.now e.now.app.0 e.now.unit.0) }
{
    let resources = table.cluster().resources() as usize;
    if !is_narrow(resources, &e.size.q) {
        return None;
    }
    Some(Need {
        resources,
        group: e.group,
        priority: e.priority,
        guaranteed: is_guaranteed(table, group, e),
        has: [0; 8],
        fits: [0; 8],
        limit: group.bounds.limit.q,
        allowed: sum_of(&group.used.q, &e.size.q),
    })
}

// What it needs on a machine.
fn on_machine_grants(need: &Need, e: &Entry<'_>, shelf: &MachineGrants<'_, '_>) -> Need
    ensures need { (t : TableRecord) (m : ℕ) → IsEntry t e.now → IsWanted t e.now.app.0 e.now.unit.0 need.now → AreMachineGrants t m shelf.now → t.cluster.resources ≤ 8 → IsNeed t (spot e.now.app.0 e.now.unit.0 m) result }
    ensures group { result.group ≡ need.now.group }
    ensures resources { result.resources ≡ need.now.resources }
{
    Need {
        has: shelf.has,
        fits: sum_of(&used_of(&shelf.has, &shelf.free), &e.size.q),
        ..*need
    }
}

/// The victims on a machine for one more grant of a unit.
pub(crate) fn victims_for<'a>(
    alloc: Global,
    need: &Need,
    e: &Entry<'_>,
    shelf: &MachineGrants<'_, 'a>,
    groups: &[GroupUse<'_>],
    scratch: &mut Scratch<'a>,
) -> Result<Option<Vec<Victim>>, OutOfMemory>
    requires resources { need.now.resources ≤ 8 }
    requires own { need.now.group < 32 }
    requires few { length shelf.now.entries.now ≤ 1000000 }
    requires small { All (λ e. e.group < 32) shelf.now.entries.now }
    requires long { length groups.now ≡ 32 }
    ensures found { IfOk result (λ found. (t : TableRecord) (m : ℕ) → IsSound t → AreGroups t groups.now → IsEntry t e.now → IsWanted t e.now.app.0 e.now.unit.0 need.now → AreMachineGrants t m shelf.now →
        MatchOption found (victims_in (board_of t) t.entries (spot e.now.app.0 e.now.unit.0 m) ≡ None) (λ vs. victims_in (board_of t) t.entries (spot e.now.app.0 e.now.unit.0 m) ≡ Some (losers_of m vs.items))) }
    ensures takable { IfOk result (λ found. (t : TableRecord) (m : ℕ) → IsSound t → AreGroups t groups.now → IsEntry t e.now → IsWanted t e.now.app.0 e.now.unit.0 need.now → AreMachineGrants t m shelf.now → IfSome found (λ vs. AreTakable t m vs.items)) }
{
    let need = on_machine_grants(need, e, shelf);
    victims_on(alloc, shelf.entries, &need, groups, scratch)
}
