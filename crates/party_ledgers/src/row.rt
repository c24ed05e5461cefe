//! What is granted on one machine, entry by entry.

ghost use Rattle.std.specs.Prelude.{◌≡◌, ◌+◌, ◌<◌, ◌≤◌, ◌^◌, ◌++◌, ◌∷◌, [], T, IsTrue, IsOk, List, ℕ, length, vec_len, vec_capacity, OnOk, OnErr, IfOk, IfErr, Ok, Err, Some, All, cond, nat_eq};
ghost use Rattle.std.specs.declared.cmp.Ordering.TheVariants.{Less};
ghost use Rattle.std.specs.FinMap.Entries.{is_sorted};
ghost use Rattle.fuxi_terms.specs.Keys.{RowKey as RowKeyRecord, row_cmp};
ghost use Rattle.fuxi_terms.specs.Cluster.{are_quantities};
ghost use Rattle.fuxi_terms.specs.Vectors.{is_zero};
ghost use Rattle.fuxi_terms.specs.Counts.{AreCounts, AreChanges, count, moved_within, set_count, is_no_change};
ghost use Rattle.ledger_law.specs.Applying.{IsRefusal};
ghost use Rattle.party_ledgers.specs.PairCodes.{pair_code};
ghost use Rattle.fuxi_terms.specs.Rows.{IsRow, AreRowChanges, is_row_key, greatest_row, patched_row, change_row_once, row_below, row_too_great, fault_key};

use fuxi_terms::limits::{GREATEST_COUNT, GREATEST_QUANTITY, MOST_ENTRIES, MOST_JOBS, MOST_UNITS};
use ledger_law::entries::{EntryKey, count_at, count_of, moved, place_of, set_entry};
use ledger_law::{Key, LedgerFault, OutOfMemory};
use res_vector::Res;
use schedule_unit::{AppNo, UnitNo};
use std::alloc::Global;
use std::cmp::Ordering;
use std::marker::Model;

// What the entry of a row is about: a job, a unit of it, and the size of one grant.
#[derive(Clone, Copy, Debug, PartialEq, Eq, PartialOrd, Ord)]
pub(crate) struct RowKey {
    pub(crate) job: u32,
    pub(crate) unit: u8,
    pub(crate) size: [u64; 8],
}

impl Model for RowKey {
    ghost Value = { RowKeyRecord };

    ghost view = { λ k. record { job = k.job; unit = k.unit; size = k.size } };

    ghost inverse = { λ k. record { job = k.job; unit = k.unit; size = k.size } };
}

impl EntryKey for RowKey {
    ghost use Rattle.fuxi_terms.proofs.KeyOrders.{same_row_key};

    ghost exact = { same_row_key };

    // By one number for both first, since a search has fewer branches then.
    fn order(&self, other: &RowKey) -> Ordering {
        let pairs = pair_code(self).cmp(&pair_code(other));
        if pairs.is_eq() {
            return self.size.cmp(&other.size);
        }
        pairs
    }
}

// A number that rises with the job and the unit of a key.
fn pair_code(key: &RowKey) -> u64
    ensures code { result ≡ pair_code key.now }
    ensures unit { key.now.unit < 256 }
{
    key.job as u64 * 256 + key.unit as u64
}

// The name of a key in a fault.
pub(crate) fn fault_key(key: &RowKey) -> Key
    ensures { result ≡ fault_key key.now }
{
    Key {
        what: 0,
        unit: key.unit,
        number: key.job,
    }
}

fn are_quantities(size: &[u64; 8]) -> bool
    ensures { result ≡ are_quantities size.now }
{
    size.iter().all(|quantity| *quantity <= GREATEST_QUANTITY)
}

fn is_zero(size: &[u64; 8]) -> bool
    ensures { result ≡ is_zero size.now }
{
    size.iter().all(|quantity| *quantity == 0)
}

// The greatest number of a key, and 0 where it is none.
pub(crate) fn greatest(key: &RowKey) -> u64
    ensures { result ≡ greatest_row key.now }
{
    if key.job >= MOST_JOBS
        || key.unit as usize >= MOST_UNITS
        || !are_quantities(&key.size)
        || is_zero(&key.size)
    {
        0
    } else {
        GREATEST_COUNT
    }
}

// What a change makes of the number at its key, which is one that a row may have.
pub(crate) fn moved_within(key: &RowKey, kept: u64, change: i64) -> Result<u64, LedgerFault>
    requires kept { kept < 2 ^ 62 }
    requires key { IsTrue (is_row_key key.now) }
    ensures { result ≡ moved_within row_below row_too_great greatest_row key.now kept change }
{
    let Some(n) = moved(kept, change) else {
        return Err(LedgerFault::Below {
            key: fault_key(key),
            kept,
            change,
        });
    };
    if n > GREATEST_COUNT {
        return Err(LedgerFault::TooGreat {
            key: fault_key(key),
        });
    }
    Ok(n)
}

// How many entries there are after the number of a key was changed.
pub(crate) fn entries_after(len: usize, kept: u64, n: u64) -> usize
    requires room { len < 2 ^ 32 }
    requires some { 0 < kept → 0 < len }
    ensures { result + cond (nat_eq kept 0) 0 1 ≡ len + cond (nat_eq n 0) 0 1 }
{
    match (kept, n) {
        (0, 0) => len,
        (0, _) => len + 1,
        (_, 0) => len - 1,
        (_, _) => len,
    }
}

// Whether each of the changes can be made. Their keys differ, so each is tested on the entries as they are.
fn test_changes(entries: &[(RowKey, u64)], changes: &[(RowKey, i64)]) -> Result<(), LedgerFault>
    requires row { IsRow entries.now }
    requires changes { AreRowChanges changes.now }
    ensures ok { OnOk result (IsOk (patched_row entries.now changes.now)) }
    ensures err { IfErr result (λ fault. patched_row entries.now changes.now ≡ Err fault) }
{
    let mut len = entries.len();
    for (key, change) in changes {
        let kept = count_of(entries, key);
        let n = moved_within(key, kept, *change)?;
        len = entries_after(len, kept, n);
        if len > MOST_ENTRIES {
            return Err(LedgerFault::TooGreat {
                key: fault_key(key),
            });
        }
    }
    Ok(())
}

// Makes one change that can be made, where there is room for an entry.
fn make_change(entries: &mut Vec<(RowKey, u64)>, key: RowKey, change: i64)
    requires row { IsRow entries.old.items }
    requires room { vec_len entries.old < vec_capacity entries.old }
    requires can { IsOk (change_row_once entries.old.items key change) }
    ensures made { change_row_once entries.old.items key change ≡ Ok entries.new.items }
    ensures row { IsRow entries.new.items }
    ensures len { vec_len entries.new ≤ vec_len entries.old + 1 }
    ensures capacity { vec_capacity entries.old ≤ vec_capacity entries.new }
{
    let place = place_of(entries, &key);
    let kept = count_at(entries, &key, place);
    match moved(kept, change) {
        Some(n) => set_entry(entries, place, key, n),
        None => unreachable!(),
    }
}

// Makes the changes in order, where each can be made and there is room for an entry more for each.
fn make_changes(entries: &mut Vec<(RowKey, u64)>, changes: &[(RowKey, i64)])
    requires row { IsRow entries.old.items }
    requires room { vec_len entries.old + length changes.now ≤ vec_capacity entries.old }
    requires can { IsOk (patched_row entries.old.items changes.now) }
    ensures made { patched_row entries.old.items changes.now ≡ Ok entries.new.items }
    ensures row { IsRow entries.new.items }
{
    for (key, change) in changes {
        make_change(entries, *key, *change);
    }
}

// All of the changes, or none.
pub(crate) fn change_all(
    entries: &mut Vec<(RowKey, u64)>,
    changes: &[(RowKey, i64)],
) -> Result<(), LedgerFault>
    requires row { IsRow entries.old.items }
    requires changes { AreRowChanges changes.now }
    ensures ok { OnOk result (patched_row entries.old.items changes.now ≡ Ok entries.new.items) }
    ensures err { OnErr result (entries.new.items ≡ entries.old.items) }
    ensures fault { IfErr result (IsRefusal (patched_row entries.old.items changes.now)) }
    ensures row { IsRow entries.new.items }
{
    test_changes(entries, changes)?;
    match entries.reserve(changes.len()) {
        Ok(()) => {}
        Err(_) => return Err(LedgerFault::OutOfMemory),
    }
    make_changes(entries, changes);
    Ok(())
}
