//! Whether any unit that waits may take any grant at all. It is asked before anything is kept of machines.

ghost use Rattle.std.specs.Prelude.{◌≡◌, false, List, map};
ghost use Rattle.std.specs.List.{AllByRecursion};
ghost use Rattle.preempt.specs.declared.entry.Entry.{Entry};
ghost use Rattle.preempt.specs.Given.{AreGroups, IsEntry, pair_of};
ghost use Rattle.preempt.specs.Shelves.{AreHolders, HasNoVictims, HoldsSome, IsLoose, IsLow};
ghost use Rattle.preempt.specs.Walks.{entries_by_priority};

use crate::entry::{Entry, GroupUse};
use crate::machine_grants::{Loose, is_other_loose, loose_of, lowest_of};
use crate::need::need_of;
use grant_table::GrantTable;

// Whether a unit may take any of the grants that have these bounds. What it needs is asked last.
fn may_take_of(
    table: &GrantTable,
    groups: &[GroupUse<'_>],
    e: &Entry<'_>,
    lowest: &[u8; 32],
    loose: Loose,
) -> bool
    requires entry { IsEntry table.now e.now }
    requires groups { AreGroups table.now groups.now }
    ensures { result ≡ false → (holders : List Entry) → AreHolders table.now holders → AllByRecursion (IsLow lowest.now) holders → AllByRecursion (IsLoose groups.now loose) holders → HasNoVictims table.now (pair_of e.now) }
{
    table.is_sound();
    if lowest[e.group] < e.priority {
        return true;
    }
    if !is_other_loose(loose, e.group) {
        return false;
    }
    match need_of(table, &groups[e.group], e) {
        Some(need) => need.guaranteed,
        None => false,
    }
}

/// Whether any unit that waits may take any grant of those that have some.
pub(crate) fn may_any_take(
    table: &GrantTable,
    groups: &[GroupUse<'_>],
    holders: &[Entry<'_>],
    waiting: &[Entry<'_>],
) -> bool
    requires groups { AreGroups table.now groups.now }
    requires each { AllByRecursion (IsEntry table.now) holders.now }
    requires some { AllByRecursion (HoldsSome table.now) holders.now }
    requires holders { AreHolders table.now (entries_by_priority holders.now 10) }
    requires entries { AllByRecursion (IsEntry table.now) waiting.now }
    ensures { result ≡ false → AllByRecursion (HasNoVictims table.now) (map pair_of waiting.now) }
{
    table.is_sound();
    let lowest = lowest_of(holders);
    let loose = loose_of(holders, groups);
    for e in waiting {
        if may_take_of(table, groups, e, &lowest, loose) {
            return true;
        }
    }
    false
}
