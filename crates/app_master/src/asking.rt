//! How the demand of an application changes.

ghost use Rattle.std.specs.Prelude.{◌≡◌, ◌+◌, ◌<◌, ◌≤◌, ◌^◌, ℕ, false, nat_eq, max, unsigned_abs, Some, IfOk, OnOk, OnErr};
ghost use Rattle.fuxi_terms.specs.Counts.{moved, is_no_change};
ghost use Rattle.fuxi_terms.specs.TallyKeys.{greatest_demand};
ghost use Rattle.spec_net.specs.Sides.{Side as WrittenSide, shown, appended};
ghost use Rattle.spec_roles.specs.Apps.{changed_demand, joined_demand};
ghost use Rattle.app_master.specs.AppCores.{IsUp};
ghost use Rattle.app_master.specs.Asking.{IsMove};

use fuxi_terms::OutOfMemory;
use ledger_law::{Change, Key};
use party_ledgers::{Demand, Grants};
use peer_channel::Side;
use std::alloc::Global;

/// The demand has this number at the key from now on. Where it has it already nothing is posted.
pub(crate) fn set_number(
    up: &mut Side<Demand, Grants>,
    alloc: Global,
    key: Key,
    number: u64,
) -> Result<(), OutOfMemory>
    requires last { up.old.outgoing.last < 2 ^ 62 }
    requires within { number ≤ greatest_demand key }
    ensures sets { OnOk result ((boot : ℕ) (e : WrittenSide) → IsUp up.old boot e → IsUp up.new boot (appended false (changed_demand (shown e) key number) e)) }
    ensures head { up.new.outgoing.present.head ≡ up.old.outgoing.present.head }
    ensures last { up.new.outgoing.last ≤ up.old.outgoing.last + 1 }
    ensures own { up.new.outgoing.own ≡ up.old.outgoing.own }
    ensures rest { up.new ≡ record up.old { outgoing = up.new.outgoing } }
    ensures err { OnErr result (up.new ≡ up.old) }
{
    let entries = up.sent().entries();
    let kept = up.sent().get(&key);
    if kept == number {
        up.is_shown();
        return Ok(());
    }
    let change = one_change(alloc, up.sent().head(), key, kept, number)?;
    match up.post(alloc, change) {
        Ok(()) => Ok(()),
        Err(fault) => Err(fault),
    }
}

// The change of one key from one number to another.
fn one_change(
    alloc: Global,
    head: u64,
    key: Key,
    before: u64,
    after: u64,
) -> Result<Change, OutOfMemory>
    requires before { before ≤ greatest_demand key }
    requires after { after ≤ greatest_demand key }
    requires differ { nat_eq before after ≡ false }
    ensures { IfOk result (IsMove head key before after) }
{
    let mut change = Change::new(alloc, head);
    change.put(key, change_between(before, after))?;
    Ok(change)
}

// The change from one number to another.
fn change_between(before: u64, after: u64) -> i64
    requires before { before < 2 ^ 62 }
    requires after { after < 2 ^ 62 }
    ensures moves { moved before result ≡ Some after }
    ensures real { nat_eq before after ≡ false → is_no_change result ≡ false }
    ensures small { unsigned_abs result ≤ max before after }
{
    if after >= before {
        (after - before) as i64
    } else {
        -((before - after) as i64)
    }
}

/// The demand joins an epoch: that is its head, and its numbers given back are gone.
pub(crate) fn join(
    up: &mut Side<Demand, Grants>,
    alloc: Global,
    epoch: u64,
) -> Result<(), OutOfMemory>
    requires last { up.old.outgoing.last < 2 ^ 62 }
    requires later { up.old.outgoing.present.head < epoch }
    ensures joins { OnOk result ((boot : ℕ) (e : WrittenSide) → IsUp up.old boot e → IsUp up.new boot (appended false (joined_demand epoch (shown e)) e)) }
    ensures head { OnOk result (up.new.outgoing.present.head ≡ epoch) }
    ensures last { OnOk result (up.new.outgoing.last ≡ up.old.outgoing.last + 1) }
    ensures own { up.new.outgoing.own ≡ up.old.outgoing.own }
    ensures rest { up.new ≡ record up.old { outgoing = up.new.outgoing } }
{
    match up.post(alloc, Change::new(alloc, epoch)) {
        Ok(()) => Ok(()),
        Err(fault) => Err(fault),
    }
}
