//! Rows, by machine.

ghost use Rattle.std.specs.Prelude.{◌≡◌, ◌<◌, ◌≤◌, ◌^◌, true, ℕ, [], length, map, None, IfOk, OnOk};
ghost use Rattle.std.specs.List.{AllByRecursion};
ghost use Rattle.std.specs.List.Sorted.{IsNonDecreasingBy};
ghost use Rattle.fuxi_terms.specs.Keys.{row_cmp};
ghost use Rattle.fuxi_terms.specs.NumbersSet.{numbers_set};
ghost use Rattle.fuxi_terms.specs.Rows.{IsRow, patched_row};
ghost use Rattle.spec_net.specs.Ledgers.{row_ledger};
ghost use Rattle.peer_channel.specs.Bodies.{report_of};
ghost use Rattle.ledger_updates.specs.Shown.{number_of, Shows};
ghost use Rattle.ledger_updates.specs.AllShown.{Down, spot_of, is_machine, AreInOrder, RowsAreBefore, ShowsRows};
ghost use Rattle.ledger_updates.specs.OfNumbers.{of_number, turns, AreReached};
ghost use Rattle.ledger_updates.specs.TouchedNumbers.{has_place, number_at, with_key, touched_in, touched_on, named_machine, MayBeSet, AreSettable, IsRowShown};

use crate::law;
use crate::machine_row::{RowNumber, show_row};
use crate::numbered::{are_rising, run_of, turn};
use crate::spots::has_place;
use fuxi_terms::OutOfMemory;
use grant_table::{GrantTable, Pick};
use party_ledgers::{JoinLedger, RowLedger};
use peer_channel::Side;
use schedule_unit::MachineNo;
use std::alloc::{AllocError, Global};

/// Shows each agent, by the number of its machine, what the table grants there: one change of its row, where the row is another one or
/// is even_if_equal. The spots are those at which grants changed since, in order; each last index is below 2^62. It costs the spots and a
/// search for each machine that they name.
///
/// Want of memory leaves some of the agents shown.
pub fn show_all_rows(
    sides: &mut Vec<Side<RowLedger, JoinLedger>>,
    alloc: Global,
    table: &GrantTable,
    spots: &[Pick],
    even_if_equal: Option<MachineNo>,
) -> Result<(), OutOfMemory>
    requires wide { length sides.old.items ≡ length table.now.cluster.machines }
    requires order { AreInOrder (map spot_of spots.now) }
    requires before { RowsAreBefore table.now (map spot_of spots.now) sides.old.items }
    requires last { AllByRecursion (λ (d : Down). d.outgoing.last < 2 ^ 62) sides.old.items }
    ensures { OnOk result (ShowsRows table.now even_if_equal sides.old.items sides.new.items) }
{
    table.is_sound();
    law::rows_follow_tables();
    if is_quiet(spots, even_if_equal) {
        return Ok(());
    }
    let numbers = by_machine(alloc, table, spots)?;
    show_named(sides, alloc, &numbers, even_if_equal)
}

// Whether no grant changed, and no row is even_if_equal: then no row can have changed, and none has to be posted.
fn is_quiet(spots: &[Pick], even_if_equal: Option<MachineNo>) -> bool
    ensures narrow { result ≡ true → (spots.now ≡ []) × (even_if_equal ≡ None) }
{
    spots.is_empty() && even_if_equal.is_none()
}

// Shows the agents of the machines with numbers, and of one that is even_if_equal, their rows: no other row can have changed.
fn show_named(
    sides: &mut Vec<Side<RowLedger, JoinLedger>>,
    alloc: Global,
    numbers: &[(usize, RowNumber)],
    even_if_equal: Option<MachineNo>,
) -> Result<(), OutOfMemory>
    requires last { AllByRecursion (λ (d : Down). d.outgoing.last < 2 ^ 62) sides.old.items }
    requires rising { IsNonDecreasingBy (λ e. e.0) numbers.now }
    requires set { AreSettable numbers.now sides.old.items }
    ensures { OnOk result (AreReached (IsRowShown even_if_equal numbers.now) (turns numbers.now (named_machine even_if_equal)) sides.old.items sides.new.items) }
{
    match even_if_equal {
        Some(machine) => show_machines(sides, alloc, numbers, &[machine.0 as usize], even_if_equal),
        None => show_machines(sides, alloc, numbers, &[], even_if_equal),
    }
}

// Shows the agents of the machines with numbers, and of these others, their rows. No list is made of them.
fn show_machines(
    sides: &mut Vec<Side<RowLedger, JoinLedger>>,
    alloc: Global,
    numbers: &[(usize, RowNumber)],
    others: &[usize],
    even_if_equal: Option<MachineNo>,
) -> Result<(), OutOfMemory>
    requires last { AllByRecursion (λ (d : Down). d.outgoing.last < 2 ^ 62) sides.old.items }
    requires rising { IsNonDecreasingBy (λ e. e.0) numbers.now }
    requires set { AreSettable numbers.now sides.old.items }
    requires few { length others.now ≤ 1 }
    ensures { OnOk result (AreReached (IsRowShown even_if_equal numbers.now) (turns numbers.now others.now) sides.old.items sides.new.items) }
{
    for index in 0..numbers.len() + others.len() {
        let Some(at) = turn(numbers, others, index) else {
            continue;
        };
        if at >= sides.len() {
            continue;
        }
        show_one(&mut sides[at], alloc, at, numbers, even_if_equal)?;
    }
    Ok(())
}

// Shows an agent its row with the numbers of its machine.
fn show_one(
    side: &mut Side<RowLedger, JoinLedger>,
    alloc: Global,
    at: usize,
    numbers: &[(usize, RowNumber)],
    even_if_equal: Option<MachineNo>,
) -> Result<(), OutOfMemory>
    requires last { side.old.outgoing.last < 2 ^ 62 }
    requires rising { IsNonDecreasingBy (λ e. e.0) numbers.now }
    requires set { MayBeSet side.old.outgoing.present (map number_of (of_number at numbers.now)) }
    ensures { OnOk result (Shows [] patched_row IsRow row_ledger report_of (is_machine even_if_equal at) (numbers_set row_cmp side.old.outgoing.present (map number_of (of_number at numbers.now))) side.old side.new) }
{
    show_row(
        side,
        alloc,
        run_of(numbers, at),
        is_machine(even_if_equal, at),
    )
}

// Whether it is the machine with this number.
fn is_machine(machine: Option<MachineNo>, at: usize) -> bool
    ensures { result ≡ is_machine machine at }
{
    match machine {
        Some(machine) => machine.0 as usize == at,
        None => false,
    }
}

// What the table has at the spots, in the order of machines.
fn by_machine(
    alloc: Global,
    table: &GrantTable,
    spots: &[Pick],
) -> Result<Vec<(usize, RowNumber)>, AllocError>
    ensures rising { IfOk result (λ numbers. IsNonDecreasingBy (λ e. e.0) numbers.items) }
    ensures each { IfOk result (λ numbers. (m : ℕ) → m < length table.now.cluster.machines → map number_of (of_number m numbers.items) ≡ touched_on table.now m (map spot_of spots.now)) }
{
    let mut numbers = touched(alloc, table, spots)?;
    if are_rising(&numbers) {
        return Ok(numbers);
    }
    numbers.sort_by_key(|number| number.0)?;
    Ok(numbers)
}

// What the table has at the spots, each with its machine. Spots of no admitted unit or of no machine are passed over: the table has nothing
// there.
fn touched(
    alloc: Global,
    table: &GrantTable,
    spots: &[Pick],
) -> Result<Vec<(usize, RowNumber)>, AllocError>
    ensures { IfOk result (λ numbers. map with_key numbers.items ≡ touched_in table.now (map spot_of spots.now)) }
{
    let mut numbers = Vec::with_capacity(alloc, spots.len())?;
    for spot in spots {
        if has_place(table, spot) {
            numbers.push((spot.machine.0 as usize, number_at(table, spot)))?;
        }
    }
    Ok(numbers)
}

// What the table has at a spot.
fn number_at(table: &GrantTable, spot: &Pick) -> RowNumber
    requires { has_place table.now (spot_of spot.now) ≡ true }
    ensures { number_of result ≡ number_at table.now (spot_of spot.now) }
{
    RowNumber {
        app: spot.app,
        unit: spot.unit,
        size: *table.size(spot.app, spot.unit),
        count: table.held_on(spot.app, spot.unit, spot.machine),
    }
}
