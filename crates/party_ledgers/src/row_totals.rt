//! What the row that a change makes takes in all, without that row.

ghost use Rattle.std.specs.Prelude.{◌≡◌, ◌-◌, ◌<◌, ◌≤◌, ◌^◌, IsTrue};
ghost use Rattle.std.specs.List.{All};
ghost use Rattle.fuxi_terms.specs.Rows.{IsRow, AreRowChanges, patched_row, row_total};
ghost use Rattle.fuxi_terms.specs.Vectors.{fits, plus, minus, times};
ghost use Rattle.fuxi_terms.specs.Limits.{greatest_count};
ghost use Rattle.party_ledgers.specs.Weighing.{TotalsAfter, total_moved};

use crate::row::{RowKey, entries_after, fault_key, moved_within};
use fuxi_terms::limits::MOST_ENTRIES;
use ledger_law::LedgerFault;
use ledger_law::entries::count_of;
use res_vector::{Res, Sum, add, times};

// The total without a part of it, place by place.
fn less(total: &Sum, part: &Sum) -> Sum
    requires { IsTrue (fits part.now.q total.now.q) }
    ensures { result.q ≡ minus total.now.q part.now.q }
{
    let mut q = [0; 8];
    for i in 0..8 {
        q[i] = total.q[i] - part.q[i];
    }
    Sum { q }
}

// A total after the number of grants of a size was changed.
fn total_moved(total: &Sum, size: &[u64; 8], before: u64, after: u64) -> Sum
    requires before { before ≤ greatest_count }
    requires after { after ≤ greatest_count }
    requires fewer { after < before → IsTrue (fits (times (before - after) size.now) total.now.q) }
    requires more { before ≤ after → All (λ n. n < 2 ^ 128) (plus total.now.q (times (after - before) size.now)) }
    ensures { result.q ≡ total_moved total.now.q size.now before after }
{
    let size = Res { q: *size };
    if after < before {
        less(total, &times(&size, (before - after) as u32))
    } else {
        add(total, &times(&size, (after - before) as u32))
    }
}

// The total of the row that changes make, from that of the row as it is, or why they make none. Their keys differ, so
// each is tested and made on the entries as they are.
pub(crate) fn total_after(
    entries: &[(RowKey, u64)],
    total: &Sum,
    changes: &[(RowKey, i64)],
) -> Result<Sum, LedgerFault>
    requires row { IsRow entries.now }
    requires changes { AreRowChanges changes.now }
    requires total { total.now.q ≡ row_total entries.now }
    ensures { TotalsAfter (patched_row entries.now changes.now) result }
{
    let mut total = *total;
    let mut len = entries.len();
    for (key, change) in changes {
        let kept = count_of(entries, key);
        let n = moved_within(key, kept, *change)?;
        len = entries_after(len, kept, n);
        if len > MOST_ENTRIES {
            return Err(LedgerFault::TooGreat {
                key: fault_key(key),
            });
        }
        total = total_moved(&total, &key.size, kept, n);
    }
    Ok(total)
}
