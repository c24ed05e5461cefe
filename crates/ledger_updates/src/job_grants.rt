ghost use Rattle.std.specs.Prelude.{◌≡◌, ◌≤◌, ◌<◌, ◌^◌, ℕ, List, length, not, nat_eq, ◌||◌, IfOk, OnOk, OnErr};
ghost use Rattle.fuxi_terms.specs.Counts.{change_between, count};
ghost use Rattle.fuxi_terms.specs.Keys.{key_cmp};
ghost use Rattle.fuxi_terms.specs.Limits.{greatest_back};
ghost use Rattle.fuxi_terms.specs.Tallies.{empty_tally, patched_tally, staying};
ghost use Rattle.fuxi_terms.specs.TallyKeys.{greatest_grant, credited_what};
ghost use Rattle.fuxi_terms.specs.declared.answers.LedgerFault.TheVariants.{Below, TooGreat};
ghost use Rattle.ledger_law.specs.Shapes.{IsTally};
ghost use Rattle.peer_channel.specs.Bodies.{tally_of};
ghost use Rattle.fuxi_terms.specs.NumbersSet.{moves, AreNumbers};
ghost use Rattle.ledger_updates.specs.Shown.{grants_set, Shows};

use fuxi_terms::tally_keys::CREDITED;
use ledger_law::{Change, Key, OutOfMemory};
use party_ledgers::{Demand, Grants};
use peer_channel::Side;
use std::alloc::Global;

/// From now on the grants have this boot as head and these numbers at these keys, which rise; a new boot drops what was credited first.
/// Where nothing differs and it is not even_if_equal, nothing is posted. The last index is below 2^62.
///
/// Want of memory leaves all as it was.
pub fn show_grants(
    side: &mut Side<Grants, Demand>,
    alloc: Global,
    boot: u64,
    numbers: &[(Key, u64)],
    even_if_equal: bool,
) -> Result<(), OutOfMemory>
    requires last { side.old.outgoing.last < 2 ^ 62 }
    requires numbers { AreNumbers key_cmp greatest_grant numbers.now }
    ensures shows { OnOk result (Shows empty_tally (patched_tally Below TooGreat greatest_grant credited_what) (IsTally greatest_grant) tally_of tally_of even_if_equal (grants_set side.old.outgoing.present boot numbers.now) side.old side.new) }
    ensures err { OnErr result (side.new ≡ side.old) }
{
    let change = grants_change(alloc, side.sent(), boot, numbers)?;
    let _entries = side.sent().entries();
    let _changes = change.entries();
    if !is_due(even_if_equal, &change, side.sent().head()) {
        return Ok(());
    }
    side.post(alloc, change)?;
    Ok(())
}

// Whether a change of grants with this head has to be posted.
fn is_due(even_if_equal: bool, change: &Change, head: u64) -> bool
    ensures { result ≡ (even_if_equal || not (nat_eq (length change.now.entries) 0) || not (nat_eq change.now.head head)) }
{
    even_if_equal || !change.entries().is_empty() || change.head() != head
}

// The changes of those numbers that differ, once a new boot dropped what was credited.
fn grants_change(
    alloc: Global,
    grants: &Grants,
    boot: u64,
    numbers: &[(Key, u64)],
) -> Result<Change, OutOfMemory>
    requires numbers { AreNumbers key_cmp greatest_grant numbers.now }
    ensures { IfOk result (λ change. change ≡ record { head = boot; entries = moves key_cmp (staying credited_what grants.now boot) numbers.now }) }
{
    let _entries = grants.entries();
    let mut change = Change::new(alloc, boot);
    for (key, after) in numbers {
        let before = kept(grants, boot, key);
        if before == *after {
            continue;
        }
        change.put(*key, change_between(before, *after))?;
    }
    Ok(change)
}

// The number that stays at a key under a boot.
fn kept(grants: &Grants, boot: u64, key: &Key) -> u64
    ensures { result ≡ count key_cmp (staying credited_what grants.now boot) key.now }
{
    if boot == grants.head() {
        return grants.get(key);
    }
    if key.what == CREDITED {
        return 0;
    }
    grants.get(key)
}

// The change from one number to another.
fn change_between(before: u64, after: u64) -> i64
    requires before { before ≤ greatest_back }
    requires after { after ≤ greatest_back }
    ensures { result ≡ change_between before after }
{
    if after < before {
        -((before - after) as i64)
    } else {
        (after - before) as i64
    }
}
