ghost use Rattle.std.specs.Prelude.{◌≡◌, ◌≤◌, ◌<◌, ◌^◌, [], ℕ, T, IsTrue, List, map, length, not, nat_eq, ◌||◌, IfOk, OnOk, OnErr};
ghost use Rattle.std.specs.List.{AllByRecursion};
ghost use Rattle.std.specs.FinMap.Entries.{is_sorted};
ghost use Rattle.fuxi_terms.specs.Counts.{joined, change_between};
ghost use Rattle.fuxi_terms.specs.Keys.{row_cmp};
ghost use Rattle.fuxi_terms.specs.Limits.{greatest_count, most_entries};
ghost use Rattle.fuxi_terms.specs.Rows.{IsRow, patched_row, is_row_key, greatest_row};
ghost use Rattle.party_ledgers.specs.Joins.{no_join};
ghost use Rattle.spec_net.specs.Ledgers.{row_ledger};
ghost use Rattle.peer_channel.specs.Bodies.{report_of};
ghost use Rattle.fuxi_terms.specs.NumbersSet.{numbers_set, moves, AreNumbers};
ghost use Rattle.ledger_updates.specs.Shown.{numbered, Shows};

use ledger_law::OutOfMemory;
use party_ledgers::{JoinLedger, RowChange, RowLedger};
use peer_channel::Side;
use res_vector::Res;
use schedule_unit::{AppNo, UnitNo};
use std::alloc::Global;

/// How many grants of a unit there are to be on a machine, 0 to 100,000.
#[derive(Clone, Copy, Debug)]
pub(crate) struct RowNumber {
    pub(crate) app: AppNo,
    pub(crate) unit: UnitNo,
    /// What one grant takes.
    pub(crate) size: Res,
    pub(crate) count: u32,
}

/// From now on the row has these numbers at these keys, which rise; each stands with the number of its machine. Where nothing differs and it is not even_if_equal, nothing is posted.
/// The keys of the row and of the numbers are together at most 2,048, and the last index is below 2^62.
///
/// Want of memory leaves all as it was.
pub(crate) fn show_row(
    side: &mut Side<RowLedger, JoinLedger>,
    alloc: Global,
    numbers: &[(usize, RowNumber)],
    even_if_equal: bool,
) -> Result<(), OutOfMemory>
    requires last { side.old.outgoing.last < 2 ^ 62 }
    requires numbers { AreNumbers row_cmp greatest_row (map numbered numbers.now) }
    requires keys { AllByRecursion (λ n. IsTrue (is_row_key n.0)) (map numbered numbers.now) }
    requires together { length (joined row_cmp side.old.outgoing.present (map numbered numbers.now)) ≤ most_entries }
    requires few { length numbers.now ≤ most_entries }
    ensures shows { OnOk result (Shows [] patched_row IsRow row_ledger report_of even_if_equal (numbers_set row_cmp side.old.outgoing.present (map numbered numbers.now)) side.old side.new) }
    ensures err { OnErr result (side.new ≡ side.old) }
{
    let _entries = side.sent().len();
    let change = row_change(alloc, side.sent(), numbers)?;
    let _len = change.len();
    if !is_due(even_if_equal, &change) {
        return Ok(());
    }
    side.post(alloc, change)?;
    Ok(())
}

// Whether a change has to be posted.
fn is_due(even_if_equal: bool, change: &RowChange) -> bool
    ensures { result ≡ (even_if_equal || not (nat_eq (length change.now) 0)) }
{
    even_if_equal || !change.is_empty()
}

// The changes of those numbers that differ.
fn row_change(
    alloc: Global,
    row: &RowLedger,
    numbers: &[(usize, RowNumber)],
) -> Result<RowChange, OutOfMemory>
    requires numbers { AreNumbers row_cmp greatest_row (map numbered numbers.now) }
    requires keys { AllByRecursion (λ n. IsTrue (is_row_key n.0)) (map numbered numbers.now) }
    ensures { IfOk result (λ change. change ≡ moves row_cmp row.now (map numbered numbers.now)) }
{
    let _len = row.len();
    // There is room for each of the numbers, so that the change does not grow.
    let mut change = RowChange::with_room(alloc, numbers.len())?;
    for entry in numbers {
        let number = &entry.1;
        let before = row.count(number.app, number.unit, &number.size);
        if before == number.count {
            continue;
        }
        let by = change_between(before, number.count);
        change.put(number.app, number.unit, &number.size, by)?;
    }
    Ok(change)
}

// The change from one number to another.
fn change_between(before: u32, after: u32) -> i32
    requires before { before ≤ greatest_count }
    requires after { after ≤ greatest_count }
    ensures { result ≡ change_between before after }
{
    if after < before {
        -((before - after) as i32)
    } else {
        (after - before) as i32
    }
}
