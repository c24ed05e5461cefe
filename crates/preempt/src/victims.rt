//! The victims on one machine for one more grant of a unit, by counts.

ghost use Rattle.std.specs.Prelude.{◌≡◌, ℕ, ◌+◌, ◌*◌, ◌^◌, ◌<◌, ◌≤◌, IfOk, OnOk, IfSome, filter, map, Some, None, MatchOption, length};
ghost use Rattle.std.specs.List.{All, AllByRecursion, list_any};
ghost use Rattle.fuxi_terms.specs.Keys.{Spot};
ghost use Rattle.spec_roles.specs.Preemption.{victims_in};
ghost use Rattle.grant_table.specs.GrantTables.{TableRecord, IsSound};
ghost use Rattle.preempt.specs.Given.{AreGiven, IsTaken, IsKept, IsEntry, IsNeed, board_of, victim_of};
ghost use Rattle.preempt.specs.Plans.{AreTakable, losers_of};
ghost use Rattle.preempt.specs.GrantNumbers.{has_grants};
ghost use Rattle.preempt.specs.GroupSums.{AreSumsOf};

use crate::entry::{Entry, GroupUse, Need, count_if, lowered, raised, recounted};
use crate::number::{are_enough, may_number, needed_number};
use crate::parts::Parts;
use crate::plan::Victim;
use fuxi_terms::OutOfMemory;
use std::alloc::Global;

/// What is written over for one machine after another.
#[derive(Drop)]
pub(crate) struct Scratch<'a> {
    /// What is taken.
    pub(crate) set: Vec<Entry<'a>>,
    pub(crate) parts: Parts,
}

/// What a set takes of each resource, and what of it is of the group that is served.
#[derive(Clone, Copy)]
struct Taken {
    all: [u128; 8],
    own: [u128; 8],
}

// Of each entry as many grants as the walk takes, written into a list that is cleared before, and what they take.
fn take_all<'a>(
    scratch: &mut Scratch<'a>,
    entries: &[Entry<'a>],
    need: &Need,
    groups: &[GroupUse<'_>],
) -> Result<Taken, OutOfMemory>
    requires resources { need.now.resources ≤ 8 }
    requires own { need.now.group < 32 }
    requires few { length entries.now ≤ 1000000 }
    requires groups { All (λ e. e.group < 32) entries.now }
    requires long { length groups.now ≡ 32 }
    ensures long { OnOk result (length scratch.new.set.items ≡ length entries.now) }
    ensures is { OnOk result ((t : TableRecord) (s : Spot) → AreGiven t s entries.now need.now groups.now → IsTaken t s entries.now scratch.new.set.items) }
    ensures sums { IfOk result (λ taken. AreSumsOf need.now.group taken scratch.new.set.items) }
{
    let Scratch { set, parts } = scratch;
    set.clear();
    parts.restart();
    let mut all = [0; 8];
    for e in entries {
        let own = parts.of(need.group);
        let part = parts.of(e.group);
        let may = may_number(need, &groups[e.group], &part, e);
        let count = needed_number(need, &all, &own, e, may);
        set.push(recounted(e, count))?;
        if count == 0 {
            continue;
        }
        all = raised(&all, &e.size.q, count);
        parts.put(e.group, raised(&part, &e.size.q, count))?;
    }
    Ok(Taken {
        all,
        own: parts.of(need.group),
    })
}

// Of each entry that was taken as many grants as are needed.
fn keep_needed<'a>(
    alloc: Global,
    set: &[Entry<'a>],
    taken: &Taken,
    need: &Need,
) -> Result<Vec<Entry<'a>>, OutOfMemory>
    requires resources { need.now.resources ≤ 8 }
    requires few { length set.now ≤ 1000000 }
    requires sums { AreSumsOf need.now.group taken.now set.now }
    ensures { IfOk result (λ kept. (t : TableRecord) (s : Spot) → IsNeed t s need.now → AllByRecursion (IsEntry t) set.now → IsKept t s set.now kept.items) }
{
    let mut kept = Vec::with_capacity(alloc, set.len())?;
    let mut all = taken.all;
    let mut own = taken.own;
    for e in set {
        let rest = lowered(&all, &e.size.q, e.count);
        let own_rest = lowered(&own, &e.size.q, count_if(e.group == need.group, e.count));
        let count = needed_number(need, &rest, &own_rest, e, e.count);
        kept.push(recounted(e, count))?;
        all = raised(&rest, &e.size.q, count);
        own = raised(&own_rest, &e.size.q, count_if(e.group == need.group, count));
    }
    Ok(kept)
}

// The victims that entries stand for: those that have grants.
fn victims_of(alloc: Global, entries: &[Entry<'_>]) -> Result<Vec<Victim>, OutOfMemory>
    ensures { IfOk result (λ victims. victims.items ≡ map victim_of (filter has_grants entries.now)) }
{
    let mut victims = Vec::with_capacity(alloc, entries.len())?;
    for e in entries {
        if e.count > 0 {
            victims.push(Victim {
                app: e.app,
                unit: e.unit,
                count: e.count,
            })?;
        }
    }
    Ok(victims)
}

// Whether any entry has grants.
fn has_any(entries: &[Entry<'_>]) -> bool
    ensures { result ≡ list_any has_grants entries.now }
{
    entries.iter().any(|e| e.count > 0)
}

/// The victims on a machine for one more grant of a unit, and `None` exactly where the walk of single grants
/// finds none. The list is a scratch one: it is written over, so that a machine without victims costs no memory
/// once it has room.
pub(crate) fn victims_on<'a>(
    alloc: Global,
    entries: &[Entry<'a>],
    need: &Need,
    groups: &[GroupUse<'_>],
    scratch: &mut Scratch<'a>,
) -> Result<Option<Vec<Victim>>, OutOfMemory>
    requires resources { need.now.resources ≤ 8 }
    requires own { need.now.group < 32 }
    requires few { length entries.now ≤ 1000000 }
    requires groups { All (λ e. e.group < 32) entries.now }
    requires long { length groups.now ≡ 32 }
    ensures found { IfOk result (λ found. (t : TableRecord) (s : Spot) → AreGiven t s entries.now need.now groups.now → IsSound t →
        MatchOption found (victims_in (board_of t) t.entries s ≡ None) (λ vs. victims_in (board_of t) t.entries s ≡ Some (losers_of s.machine vs.items))) }
    ensures takable { IfOk result (λ found. (t : TableRecord) (s : Spot) → AreGiven t s entries.now need.now groups.now → IsSound t → IfSome found (λ vs. AreTakable t s.machine vs.items)) }
{
    let taken = take_all(scratch, entries, need, groups)?;
    if !are_enough(need, &taken.all, &taken.own) {
        return Ok(None);
    }
    let set = &scratch.set;
    if !has_any(set) {
        return Ok(None);
    }
    let kept = keep_needed(alloc, set, &taken, need)?;
    Ok(Some(victims_of(alloc, &kept)?))
}
