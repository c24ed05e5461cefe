//! Names are set in the ledger that is sent.

ghost use Rattle.std.specs.Prelude.{◌≡◌, ◌≤◌, ◌<◌, ◌^◌, [], ℕ, List, length, not, nat_eq, IfOk, OnOk, OnErr};
ghost use Rattle.fuxi_terms.specs.Counts.{change_between};
ghost use Rattle.fuxi_terms.specs.Keys.{key_cmp};
ghost use Rattle.work_plan.specs.PlanKeys.{greatest_named};
ghost use Rattle.fuxi_terms.specs.NumbersSet.{moves, AreNumbers};
ghost use Rattle.work_plan.specs.Ends.{Sets, names_set};

use crate::Plan;
use crate::ends::Ends;
use fuxi_terms::OutOfMemory;
use ledger_law::{Change, Key};
use std::alloc::Global;

/// From now on these workers are named (1) or not (0), by keys that rise; the others stay as they are. Where nothing differs
/// nothing is appended, and else one change. The last index is below 2^62.
///
/// Want of memory leaves all as it was.
pub fn set_names(ends: &mut Ends, alloc: Global, numbers: &[(Key, u64)]) -> Result<(), OutOfMemory>
    requires last { ends.old.outgoing.last < 2 ^ 62 }
    requires numbers { AreNumbers key_cmp greatest_named numbers.now }
    ensures sets { OnOk result (Sets (names_set ends.old.outgoing.present numbers.now) ends.old ends.new) }
    ensures err { OnErr result (ends.new ≡ ends.old) }
{
    let change = change_of(alloc, ends.sent(), numbers)?;
    let _names = ends.sent().entries();
    let _changes = change.entries();
    let _head = ends.sent().head();
    if changes_nothing(&change) {
        return Ok(());
    }
    match ends.post(alloc, change) {
        Ok(_) => Ok(()),
        Err(_) => Err(OutOfMemory),
    }
}

fn changes_nothing(change: &Change) -> bool
    ensures { result ≡ nat_eq (length change.now.entries) 0 }
{
    change.entries().is_empty()
}

// The changes of those numbers that differ.
fn change_of(alloc: Global, names: &Plan, numbers: &[(Key, u64)]) -> Result<Change, OutOfMemory>
    requires numbers { AreNumbers key_cmp greatest_named numbers.now }
    ensures { IfOk result (λ change. change ≡ record { head = names.now.head; entries = moves key_cmp names.now.entries numbers.now }) }
{
    let _entries = names.entries();
    let mut change = Change::new(alloc, names.head());
    for (key, after) in numbers {
        let before = names.get(key);
        if before == *after {
            continue;
        }
        change.put(*key, change_between(before, *after))?;
    }
    Ok(change)
}

// The change from one number to another.
fn change_between(before: u64, after: u64) -> i64
    requires before { before ≤ 1 }
    requires after { after ≤ 1 }
    ensures { result ≡ change_between before after }
{
    if after < before {
        -((before - after) as i64)
    } else {
        (after - before) as i64
    }
}
