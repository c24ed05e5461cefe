//! What each change that is told does to the marks.

ghost use Rattle.std.specs.Prelude.{◌≡◌, ℕ, ◌<◌, ◌≤◌, ◌&&◌, ◌⊎◌, cond, nat_lt, nat_eq, true, false, [], length};
ghost use Rattle.std.proofs.Common.{get_or};
ghost use Rattle.fuxi_terms.specs.Cluster.{rack_of};
ghost use Rattle.fuxi_terms.specs.Jobs.{unit_count};
ghost use Rattle.fuxi_terms.specs.Tables.{spot, held};
ghost use Rattle.grant_table.specs.GrantTables.{as_known};
ghost use Rattle.place_pass.specs.Cells.{cell_at, job_at, taken};
ghost use Rattle.place_pass.specs.Placers.{AreAllowed, AreLevel, board_over};
ghost use Rattle.place_pass.specs.Best.{AreAdmitted};
ghost use Rattle.place_pass.specs.Bounds.{mark_at, key_of, reset_mark, cleared_mark, limited_mark, lowered_mark, after_taking, is_nearer_in};
ghost use Rattle.place_pass.specs.Candidates.{IsAsked, IsForgotten};

use super::Marks;
use super::keys::number_of_none;
use super::mark::Mark;
use crate::demand::Wishes;
use crate::line::Line;
use cluster_desc::Cluster;
use grant_table::GrantTable;
use party_ledgers::Demand;
use schedule_unit::{AppNo, GroupNo, MachineNo, RackNo, UnitNo};

// On each machine what is placeable may come earlier.
pub(crate) fn lower_all(marks: &mut Marks)
    ensures marks { (m : ℕ) → m < length marks.old → mark_at marks.new m ≡ lowered_mark (mark_at marks.old m) }
    ensures long { length marks.new ≡ length marks.old }
{
    marks.raise();
    let mut at = 0;
    while at < marks.len() {
        let number = marks.next(at, number_of_none(), 0);
        if number >= marks.len() {
            return;
        }
        marks.lower(number);
        at = number + 1;
    }
}

/// Told of a demand before the wishes are: what is placeable may come earlier, and on a machine that a unit avoids no
/// longer anything may be placeable. It asks the same as before of all units but those that may differ.
pub(crate) fn tell_demand(
    marks: &mut Marks,
    wishes: &Wishes,
    app: AppNo,
    demand: &Demand,
    differing: &[bool; 8],
)
    requires long { length marks.old ≡ length wishes.now.cluster.machines }
    requires same { (u : ℕ) → u < length (get_or wishes.now.cells app.0 []) → get_or differing.now u true ≡ false → taken wishes.now.cluster demand.now.entries u (cell_at wishes.now.cells app.0 u) ≡ cell_at wishes.now.cells app.0 u }
    ensures marks { (m : ℕ) → m < length marks.old → IsAsked demand.now.entries (get_or wishes.now.cells app.0 []) m (mark_at marks.old m) (mark_at marks.new m) }
    ensures long { length marks.new ≡ length marks.old }
{
    if !wishes.lifts_any(app, demand, differing) {
        lower_all(marks);
        return;
    }
    for number in 0..wishes.cluster().machines() {
        let lifted = wishes.lifts(app, demand, differing, MachineNo(number));
        let mut mark = *marks.at(number);
        mark.ask(lifted);
        marks.put(number, mark);
    }
}

// Whether a mark notes a group.
fn notes_any_group(marks: &Marks) -> bool
    ensures { result ≡ false → (m g : ℕ) → m < length marks.now → get_or (mark_at marks.now m).groups g false ≡ false }
{
    for number in 0..marks.len() {
        if marks.at(number).notes_any() {
            return true;
        }
    }
    false
}

// Whether the limit of its group allows each pair of the line one grant more.
fn are_allowed(wishes: &Wishes, line: &Line, table: &GrantTable) -> bool
    requires level { AreLevel wishes.now.cluster (job_at wishes.now.cells) table.now }
    requires admitted { AreAdmitted wishes.now.cells line.now.pairs }
    ensures yes { result ≡ true → AreAllowed table.now line.now.pairs }
    ensures no { AreAllowed table.now line.now.pairs → result ≡ true }
{
    for place in 0..line.len() {
        let (app, unit) = line.at(place);
        if !wishes.allowed(table, app, unit) {
            return false;
        }
    }
    true
}

// No mark notes a group any more.
fn clear_all(marks: &mut Marks)
    ensures marks { (m : ℕ) → m < length marks.old → mark_at marks.new m ≡ cleared_mark (mark_at marks.old m) }
    ensures long { length marks.new ≡ length marks.old }
{
    for number in 0..marks.len() {
        let mut mark = *marks.at(number);
        mark.clear();
        marks.put(number, mark);
    }
    marks.note_none();
}

/// A job is admitted, a unit of which may have room where no other has: pairs with this turn or a later one may be placeable.
pub(crate) fn limit_all(marks: &mut Marks, turns: u64)
    ensures marks { (m : ℕ) → m < length marks.old → mark_at marks.new m ≡ limited_mark turns (mark_at marks.old m) }
    ensures long { length marks.new ≡ length marks.old }
{
    for number in 0..marks.len() {
        marks.limit(number, turns);
    }
}

/// Where no group of the line is at its limit any more, the marks note none.
pub(crate) fn forget_groups(marks: &mut Marks, wishes: &Wishes, line: &Line, table: &GrantTable)
    requires level { AreLevel wishes.now.cluster (job_at wishes.now.cells) table.now }
    requires admitted { AreAdmitted wishes.now.cells line.now.pairs }
    ensures marks { (m : ℕ) → m < length marks.old → (mark_at marks.new m ≡ mark_at marks.old m) ⊎ IsForgotten table.now line.now.pairs (mark_at marks.old m) (mark_at marks.new m) }
    ensures clear { AreAllowed table.now line.now.pairs → (m g : ℕ) → m < length marks.old → get_or (mark_at marks.new m).groups g false ≡ false }
    ensures long { length marks.new ≡ length marks.old }
{
    if !marks.may_note() {
        return;
    }
    if !notes_any_group(marks) {
        marks.note_none();
        return;
    }
    if !are_allowed(wishes, line, table) {
        return;
    }
    clear_all(marks);
}

/// No pair waits, so nothing is placeable on any machine. The turns of all pairs that waited are below `turns`.
pub(crate) fn settle_all(marks: &mut Marks, turns: u64)
    ensures settled { (m : ℕ) → m < length marks.old → key_of (mark_at marks.new m) turns ≡ None }
    ensures until { (m : ℕ) → (mark_at marks.new m ≡ mark_at marks.old m) ⊎ ((mark_at marks.new m).until ≤ turns) }
    ensures long { length marks.new ≡ length marks.old }
{
    let _machines = marks.len();
    marks.bound_from(0, number_of_none(), None, turns);
}

/// Anything may be placeable on this machine.
pub(crate) fn reset_one(marks: &mut Marks, machine: MachineNo)
    requires { machine.0 < length marks.old }
    ensures marks { (m : ℕ) → mark_at marks.new m ≡ cond (nat_eq machine.0 m) (reset_mark 0) (mark_at marks.old m) }
    ensures long { length marks.new ≡ length marks.old }
{
    marks.put(machine.0, Mark::new());
}

// Whether what was nearer in a rack is so on a machine, since it stands there.
fn is_nearer_on(cluster: &Cluster, machine: MachineNo, rack: RackNo, nearer: bool) -> bool
    requires { machine.0 < length cluster.now.machines }
    ensures { result ≡ (nearer && nat_eq (rack_of cluster.now machine.0) rack.0) }
{
    nearer && cluster.machine(machine).rack.0 == rack.0
}

// Each mark is told that a unit of this group gave a machine back.
fn take_on_each(
    marks: &mut Marks,
    cluster: &Cluster,
    group: GroupNo,
    machine: MachineNo,
    nearer: bool,
)
    requires marks { length marks.old ≡ length cluster.now.machines }
    requires machine { machine.0 < length cluster.now.machines }
    ensures marks { (m : ℕ) → m < length marks.old → mark_at marks.new m ≡ after_taking cluster.now group.0 machine.0 nearer m (mark_at marks.old m) }
    ensures long { length marks.new ≡ length marks.old }
{
    let rack = cluster.machine(machine).rack;
    for number in 0..cluster.machines() {
        let near = is_nearer_on(cluster, MachineNo(number), rack, nearer);
        marks.take(number, number == machine.0, group, near);
    }
}

/// A unit of this group gave a machine back: there is more room there, the group may have more, and where the
/// unit wants more in the rack than it has it may come earlier on each of its machines. Else no mark but that of this machine is asked
/// where none notes a group.
pub(crate) fn told_taking(
    marks: &mut Marks,
    cluster: &Cluster,
    group: GroupNo,
    machine: MachineNo,
    nearer: bool,
)
    requires marks { length marks.old ≡ length cluster.now.machines }
    requires machine { machine.0 < length cluster.now.machines }
    ensures marks { (m : ℕ) → m < length marks.old → mark_at marks.new m ≡ after_taking cluster.now group.0 machine.0 nearer m (mark_at marks.old m) }
    ensures long { length marks.new ≡ length marks.old }
{
    if nearer | marks.may_note() {
        take_on_each(marks, cluster, group, machine, nearer);
        return;
    }
    marks.take(machine.0, true, group, false);
}

/// The number of grants of a unit on a machine is another one. Before it held so many in all.
pub(crate) fn tell(
    marks: &mut Marks,
    wishes: &Wishes,
    table: &GrantTable,
    app: AppNo,
    unit: UnitNo,
    machine: MachineNo,
    before: u32,
)
    requires cluster { wishes.now.cluster ≡ table.now.cluster }
    requires here { unit.0 < length (get_or wishes.now.cells app.0 []) }
    requires there { unit.0 < unit_count (as_known table.now.jobs) app.0 }
    requires machine { machine.0 < length table.now.cluster.machines }
    requires marks { length marks.old ≡ length table.now.cluster.machines }
    ensures marks { (m : ℕ) → m < length marks.old → mark_at marks.new m
        ≡ cond (nat_lt (held table.now.entries app.0 unit.0) before)
        (after_taking table.now.cluster (cell_at wishes.now.cells app.0 unit.0).group machine.0 (is_nearer_in (board_over wishes.now.cells wishes.now.opened table.now) table.now.entries (spot app.0 unit.0 machine.0)) m (mark_at marks.old m)) (mark_at marks.old m) }
    ensures long { length marks.new ≡ length marks.old }
{
    if table.held(app, unit) >= before {
        return;
    }
    let group = wishes.wish(app, unit).group;
    let nearer = wishes.is_near_rack(table, app, unit, machine);
    told_taking(marks, table.cluster(), group, machine, nearer);
}
