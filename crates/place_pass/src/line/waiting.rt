//! The next line: who leaves it, and who begins to wait. Only the jobs are asked of which something was told since. No call takes
//! memory.

ghost use Rattle.std.specs.Prelude.{◌≡◌, ℕ, ◌+◌, ◌<◌, ◌≤◌, ◌&&◌, true, false, [], ◌∷◌, ◌++◌, length, Some, slice_get, not, nat_eq, cond, ◌-◌, ◌^◌, nat_lt, filter, map};
ghost use Rattle.std.proofs.Common.{get_or};
ghost use Rattle.fuxi_terms.specs.Limits.{most_jobs, most_units};
ghost use Rattle.fuxi_terms.specs.Keys.{Pair};
ghost use Rattle.spec_roles.specs.Masters.{out_of};
ghost use Rattle.spec_roles.specs.Placing.{has_pair, waiting_in};
ghost use Rattle.place_pass.specs.Cells.{asks_in, job_at, unit_places};
ghost use Rattle.place_pass.specs.Placers.{AreLevel, IsStill};
ghost use Rattle.place_pass.specs.Best.{AreAdmitted};
ghost use Rattle.place_pass.specs.Candidates.{turn_in};
ghost use Rattle.fuxi_terms.specs.Cluster.{JobRecord};
ghost use Rattle.fuxi_terms.specs.Jobs.{unit_count};
ghost use Rattle.fuxi_terms.specs.Tables.{Table};
ghost use Rattle.grant_table.specs.GrantTables.{as_known, AreJobs};
ghost use Rattle.place_pass.specs.WaitingLines.{AllMayWait, AreSameUnits, waiting_of};
ghost use Rattle.place_pass.specs.Bounds.{IsRising, turn_at};
ghost use Rattle.place_pass.specs.PlacerTrees.{HoldsLine, AllStand};

use super::Line;
use super::calm::Calm;
use super::standing::entry_for;
use crate::demand::{Wishes, slot};
use grant_table::GrantTable;
use locality_tree::Tree;
use schedule_unit::{AppNo, UnitNo};

// A new pair goes last. It is one of the admitted units.
fn add_unit(next: &mut Line, wishes: &Wishes, app: AppNo, unit: UnitNo)
    requires new { has_pair (app.0, unit.0) next.old.pairs ≡ false }
    requires unit { unit.0 < length (get_or wishes.now.cells app.0 []) }
    requires admitted { AreAdmitted wishes.now.cells next.old.pairs }
    requires units { AllMayWait wishes.now.cells next.old.units }
    ensures pairs { next.new.pairs ≡ next.old.pairs ++ (app.0, unit.0) ∷ [] }
    ensures admitted { AreAdmitted wishes.now.cells next.new.pairs }
    ensures units { AreSameUnits next.old.units next.new.units }
{
    next.push(app.0, unit.0);
}

// The turn that stands for a unit.
fn turn_at(turn_of: &Vec<u64>, app: AppNo, unit: UnitNo) -> u64
    requires app { app.0 < most_jobs }
    requires unit { unit.0 < most_units }
    requires places { length turn_of.now.items ≡ unit_places }
    ensures { result ≡ turn_at turn_of.now.items app.0 unit.0 }
{
    turn_of[slot(app, unit)]
}

// Where a pair of the line stands, found by halves: the turns rise along it.
fn place_of(line: &Line, turn_of: &Vec<u64>, app: AppNo, unit: UnitNo) -> usize
    requires there { has_pair (app.0, unit.0) line.now.pairs ≡ true }
    requires places { length turn_of.now.items ≡ unit_places }
    requires rises { IsRising (λ (p : Pair). turn_at turn_of.now.items p.0 p.1) line.now.pairs }
    ensures { slice_get line.now.pairs result ≡ Some (app.0, unit.0) }
{
    line.inside();
    let turn = turn_at(turn_of, app, unit);
    let mut low = 0;
    let mut high = line.len();
    while low < high {
        let middle = low + (high - low) / 2;
        let (other, number) = line.at(middle);
        let here = turn_at(turn_of, other, number);
        if here == turn {
            return middle;
        }
        if here < turn {
            low = middle + 1;
            continue;
        }
        high = middle;
    }
    unreachable!()
}

/// With nothing out a unit leaves the line and waits no more.
pub(crate) fn leave_unit(
    line: &mut Line,
    tree: &mut Tree,
    wishes: &Wishes,
    turn_of: &Vec<u64>,
    table: &GrantTable,
    app: AppNo,
    unit: UnitNo,
)
    requires here { unit.0 < length (get_or wishes.now.cells app.0 []) }
    requires there { unit.0 < unit_count (as_known table.now.jobs) app.0 }
    requires places { length turn_of.now.items ≡ unit_places }
    requires rises { IsRising (λ (p : Pair). turn_at turn_of.now.items p.0 p.1) line.old.pairs }
    requires holds { HoldsLine wishes.now.cluster wishes.now.cells line.old.pairs turn_of.now.items tree.old }
    ensures pairs { line.new.pairs ≡ cond (nat_lt 0 (out_of (asks_in wishes.now.cells) table.now.entries app.0 unit.0)) line.old.pairs (filter (λ p. not (nat_eq p.0 app.0 && nat_eq p.1 unit.0)) line.old.pairs) }
    ensures units { AreSameUnits line.old.units line.new.units }
    ensures holds { HoldsLine wishes.now.cluster wishes.now.cells line.new.pairs turn_of.now.items tree.new }
    ensures stands { (es : Table) → AllStand wishes.now.cluster wishes.now.cells es line.old.pairs tree.old → AllStand wishes.now.cluster wishes.now.cells es line.new.pairs tree.new }
{
    wishes.are_sound();
    if !line.has(app.0, unit.0) {
        return;
    }
    if wishes.outstanding(table, app, unit) > 0 {
        return;
    }
    let place = place_of(line, turn_of, app, unit);
    let entry = entry_for(wishes, turn_of, app, unit);
    tree.refresh(&entry, false);
    line.remove(place);
}

/// What changes in the line.
#[derive(Clone, Copy)]
struct Turnover {
    /// A unit begins to wait.
    begins: bool,
    /// A unit of the line has nothing out any more.
    ends: bool,
}

// Whether units of one job begin to wait, and whether some have nothing out any more.
fn turnover_of(line: &Line, wishes: &Wishes, table: &GrantTable, app: AppNo) -> Turnover
    requires level { AreLevel wishes.now.cluster (job_at wishes.now.cells) table.now }
    ensures begins { result.begins ≡ false → (u : ℕ) → u < length (get_or wishes.now.cells app.0 []) → nat_lt 0 (out_of (asks_in wishes.now.cells) table.now.entries app.0 u) ≡ true → has_pair (app.0, u) line.now.pairs ≡ true }
    ensures ends { result.ends ≡ false → (u : ℕ) → u < length (get_or wishes.now.cells app.0 []) → has_pair (app.0, u) line.now.pairs ≡ true → nat_lt 0 (out_of (asks_in wishes.now.cells) table.now.entries app.0 u) ≡ true }
{
    let mut begins = false;
    let mut ends = false;
    for number in 0..wishes.units(app) as u8 {
        let waits = line.has(app.0, number);
        let some = wishes.outstanding(table, app, UnitNo(number)) > 0;
        begins |= some & !waits;
        ends |= waits & !some;
    }
    Turnover { begins, ends }
}

// What changes in the line. The jobs alone are asked of which something was told.
fn turnover_of_all(line: &Line, wishes: &Wishes, calm: &Calm, table: &GrantTable) -> Turnover
    requires level { AreLevel wishes.now.cluster (job_at wishes.now.cells) table.now }
    requires admitted { AreAdmitted wishes.now.cells line.now.pairs }
    requires still { IsStill wishes.now.cells line.now.pairs calm.now table.now }
    ensures begins { result.begins ≡ false → (a u : ℕ) → get_or calm.now a false ≡ false → u < length (get_or wishes.now.cells a []) → nat_lt 0 (out_of (asks_in wishes.now.cells) table.now.entries a u) ≡ true → has_pair (a, u) line.now.pairs ≡ true }
    ensures ends { result.ends ≡ false → (p : Pair) → has_pair p line.now.pairs ≡ true → nat_lt 0 (out_of (asks_in wishes.now.cells) table.now.entries p.0 p.1) ≡ true }
{
    wishes.are_sound();
    let low = calm.low();
    let high = calm.high();
    let mut begins = false;
    let mut ends = false;
    for number in low..high {
        let app = AppNo(number);
        if calm.is_calm(app) {
            continue;
        }
        let one = turnover_of(line, wishes, table, app);
        begins |= one.begins;
        ends |= one.ends;
    }
    Turnover { begins, ends }
}

// The pairs with nothing out leave the line and wait no more, in one walk that keeps the others in their order.
fn keep_waiting(
    line: &mut Line,
    tree: &mut Tree,
    wishes: &Wishes,
    turn_of: &Vec<u64>,
    table: &GrantTable,
)
    requires level { AreLevel wishes.now.cluster (job_at wishes.now.cells) table.now }
    requires admitted { AreAdmitted wishes.now.cells line.old.pairs }
    requires places { length turn_of.now.items ≡ unit_places }
    requires rises { IsRising (λ (p : Pair). turn_at turn_of.now.items p.0 p.1) line.old.pairs }
    requires holds { HoldsLine wishes.now.cluster wishes.now.cells line.old.pairs turn_of.now.items tree.old }
    ensures pairs { line.new.pairs ≡ filter (λ p. nat_lt 0 (out_of (asks_in wishes.now.cells) table.now.entries p.0 p.1)) line.old.pairs }
    ensures units { AreSameUnits line.old.units line.new.units }
    ensures holds { HoldsLine wishes.now.cluster wishes.now.cells line.new.pairs turn_of.now.items tree.new }
    ensures stands { AllStand wishes.now.cluster wishes.now.cells table.now.entries line.old.pairs tree.old → AllStand wishes.now.cluster wishes.now.cells table.now.entries line.new.pairs tree.new }
{
    wishes.are_sound();
    line.distinct();
    let mut kept = 0;
    for place in 0..line.len() {
        let (app, unit) = line.at(place);
        if wishes.outstanding(table, app, unit) == 0 {
            let entry = entry_for(wishes, turn_of, app, unit);
            tree.refresh(&entry, false);
            continue;
        }
        line.swap(place, kept);
        kept += 1;
    }
    line.truncate(kept);
}

/// The units of the line with nothing out leave it and wait no more. False where no other begins to wait.
pub(crate) fn leave(
    line: &mut Line,
    tree: &mut Tree,
    wishes: &Wishes,
    turn_of: &Vec<u64>,
    calm: &Calm,
    table: &GrantTable,
) -> bool
    requires level { AreLevel wishes.now.cluster (job_at wishes.now.cells) table.now }
    requires admitted { AreAdmitted wishes.now.cells line.old.pairs }
    requires places { length turn_of.now.items ≡ unit_places }
    requires rises { IsRising (λ (p : Pair). turn_at turn_of.now.items p.0 p.1) line.old.pairs }
    requires holds { HoldsLine wishes.now.cluster wishes.now.cells line.old.pairs turn_of.now.items tree.old }
    requires still { IsStill wishes.now.cells line.old.pairs calm.now table.now }
    ensures pairs { line.new.pairs ≡ filter (λ p. nat_lt 0 (out_of (asks_in wishes.now.cells) table.now.entries p.0 p.1)) line.old.pairs }
    ensures admitted { AreAdmitted wishes.now.cells line.new.pairs }
    ensures units { AreSameUnits line.old.units line.new.units }
    ensures holds { HoldsLine wishes.now.cluster wishes.now.cells line.new.pairs turn_of.now.items tree.new }
    ensures stands { AllStand wishes.now.cluster wishes.now.cells table.now.entries line.old.pairs tree.old → AllStand wishes.now.cluster wishes.now.cells table.now.entries line.new.pairs tree.new }
    ensures none { result ≡ false → (a u : ℕ) → get_or calm.now a false ≡ false → u < length (get_or wishes.now.cells a []) → nat_lt 0 (out_of (asks_in wishes.now.cells) table.now.entries a u) ≡ true → has_pair (a, u) line.new.pairs ≡ true }
{
    let turnover = turnover_of_all(line, wishes, calm, table);
    if turnover.ends {
        keep_waiting(line, tree, wishes, turn_of, table);
    }
    turnover.begins
}

// The units of one job that begin to wait go last, in their order.
fn join_units(line: &mut Line, wishes: &Wishes, table: &GrantTable, app: AppNo)
    requires level { AreLevel wishes.now.cluster (job_at wishes.now.cells) table.now }
    requires admitted { AreAdmitted wishes.now.cells line.old.pairs }
    requires units { AllMayWait wishes.now.cells line.old.units }
    ensures pairs { line.new.pairs ≡ line.old.pairs ++ filter (λ p. not (has_pair p line.old.pairs)) (waiting_of (asks_in wishes.now.cells) table.now.entries app.0 (length (get_or wishes.now.cells app.0 []))) }
    ensures admitted { AreAdmitted wishes.now.cells line.new.pairs }
    ensures units { AreSameUnits line.old.units line.new.units }
{
    let units = wishes.units(app) as u8;
    for number in 0..units {
        let unit = UnitNo(number);
        if wishes.outstanding(table, app, unit) == 0 {
            continue;
        }
        if line.has(app.0, number) {
            continue;
        }
        add_unit(line, wishes, app, unit);
    }
}

/// The units that begin to wait go last, in the order of job and unit. Nobody is looked at where none begins.
pub(crate) fn join(line: &mut Line, wishes: &Wishes, calm: &Calm, table: &GrantTable, begins: bool)
    requires level { AreLevel wishes.now.cluster (job_at wishes.now.cells) table.now }
    requires jobs { AreJobs table.now.jobs }
    requires still { IsStill wishes.now.cells line.old.pairs calm.now table.now }
    requires admitted { AreAdmitted wishes.now.cells line.old.pairs }
    requires units { AllMayWait wishes.now.cells line.old.units }
    requires none { begins ≡ false → (a u : ℕ) → get_or calm.now a false ≡ false → u < length (get_or wishes.now.cells a []) → nat_lt 0 (out_of (asks_in wishes.now.cells) table.now.entries a u) ≡ true → has_pair (a, u) line.old.pairs ≡ true }
    ensures pairs { line.new.pairs ≡ line.old.pairs ++ filter (λ p. not (has_pair p line.old.pairs)) (waiting_in (map (λ (j : JobRecord). j.number) table.now.jobs) (unit_count (as_known table.now.jobs)) (asks_in wishes.now.cells) table.now.entries) }
    ensures admitted { AreAdmitted wishes.now.cells line.new.pairs }
    ensures units { AreSameUnits line.old.units line.new.units }
{
    wishes.are_sound();
    if !begins {
        return;
    }
    let low = calm.low();
    let high = calm.high();
    for number in low..high {
        let app = AppNo(number);
        if calm.is_calm(app) {
            continue;
        }
        join_units(line, wishes, table, app);
    }
}

/// The pairs from a place on have the turns from a number on. The turns of others stay.
pub(crate) fn number_from(
    turn_of: &mut Vec<u64>,
    line: &Line,
    wishes: &Wishes,
    from: usize,
    turns: u64,
)
    requires admitted { AreAdmitted wishes.now.cells line.now.pairs }
    requires places { length turn_of.old.items ≡ unit_places }
    requires small { turns < 2 ^ 63 }
    ensures places { length turn_of.new.items ≡ unit_places }
    ensures numbered { (k : ℕ) (p : Pair) → from ≤ k → slice_get line.now.pairs k ≡ Some p → turn_at turn_of.new.items p.0 p.1 ≡ turns + (k - from) }
    ensures others { (a u : ℕ) → u < 8 → ((k : ℕ) → from ≤ k → slice_get line.now.pairs k ≡ Some (a, u) → ⊥) → turn_at turn_of.new.items a u ≡ turn_at turn_of.old.items a u }
{
    line.distinct();
    wishes.are_sound();
    for place in from..line.len() {
        let (app, unit) = line.at(place);
        turn_of[slot(app, unit)] = turns + (place - from) as u64;
    }
}

/// The turn of an admitted unit.
pub(crate) fn turn_of_unit(wishes: &Wishes, turn_of: &[u64], app: AppNo, unit: UnitNo) -> u64
    requires unit { unit.0 < length (get_or wishes.now.cells app.0 []) }
    requires places { length turn_of.now ≡ unit_places }
    ensures { result ≡ turn_in turn_of.now (app.0, unit.0) }
{
    wishes.are_sound();
    turn_of[slot(app, unit)]
}
