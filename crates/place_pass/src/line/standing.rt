//! The tree of the waiting pairs: who waits in it, and in which queues. No call takes memory.

ghost use Rattle.std.specs.Prelude.{◌≡◌, ℕ, ◌<◌, ◌≤◌, ◌||◌, nat_lt, nat_eq, [], Some, true, false, length, take};
ghost use Rattle.std.proofs.Common.{get_or};
ghost use Rattle.fuxi_terms.specs.Cluster.{rack_of};
ghost use Rattle.fuxi_terms.specs.Jobs.{unit_count};
ghost use Rattle.fuxi_terms.specs.Tables.{spot};
ghost use Rattle.fuxi_terms.specs.Keys.{Pair};
ghost use Rattle.spec_roles.specs.Placing.{has_pair};
ghost use Rattle.grant_table.specs.GrantTables.{TableRecord, as_known};
ghost use Rattle.locality_tree.specs.Trees.{unit_at, unit_number, rack_place, cluster_place, with_stand};
ghost use Rattle.place_pass.specs.Best.{AreAdmitted};
ghost use Rattle.place_pass.specs.Bounds.{IsRising, turn_at};
ghost use Rattle.place_pass.specs.Cells.{cell_of, job_at, unit_places};
ghost use Rattle.place_pass.specs.Placers.{AreLevel, IsSetFrom};
ghost use Rattle.place_pass.specs.PlacerTrees.{HoldsLine, AllStand, StandsAs, WaitsIn, Restood, RestoodAt, entry_for, is_unmet_on, is_unmet_in};

use super::Line;
use super::waiting::turn_of_unit;
use crate::demand::{Wish, Wishes, first_some};
use fuxi_terms::limits::MOST_RACKS;
use grant_table::GrantTable;
use locality_tree::Tree;
use schedule_unit::{AppNo, MachineNo, RackNo, UnitNo};
use wait_queue::Entry;

impl Wishes {
    ghost use Rattle.std.specs.Prelude.{◌≡◌, ◌<◌, [], length};
    ghost use Rattle.std.proofs.Common.{get_or};
    ghost use Rattle.fuxi_terms.specs.Jobs.{unit_count};
    ghost use Rattle.grant_table.specs.GrantTables.{as_known};
    ghost use Rattle.place_pass.specs.PlacerTrees.{is_unmet_on, is_unmet_in};

    /// Whether the unit asks for more on the machine than it has there.
    pub(crate) fn is_unmet_on(
        &self,
        table: &GrantTable,
        app: AppNo,
        unit: UnitNo,
        machine: MachineNo,
    ) -> bool
        requires cluster { self.now.cluster ≡ table.now.cluster }
        requires here { unit.0 < length (get_or self.now.cells app.0 []) }
        requires there { unit.0 < unit_count (as_known table.now.jobs) app.0 }
        requires machine { machine.0 < length self.now.cluster.machines }
        ensures { result ≡ is_unmet_on self.now.cells table.now.entries app.0 unit.0 machine.0 }
    {
        let wish = self.wish(app, unit);
        table.held_on(app, unit, machine) < wish.near[machine.0 as usize]
    }

    /// Whether the unit asks for more in the rack than it has there.
    pub(crate) fn is_unmet_in(
        &self,
        table: &GrantTable,
        app: AppNo,
        unit: UnitNo,
        rack: RackNo,
    ) -> bool
        requires cluster { self.now.cluster ≡ table.now.cluster }
        requires here { unit.0 < length (get_or self.now.cells app.0 []) }
        requires there { unit.0 < unit_count (as_known table.now.jobs) app.0 }
        requires rack { rack.0 < 64 }
        ensures { result ≡ is_unmet_in self.now.cluster self.now.cells table.now.entries app.0 unit.0 rack.0 }
    {
        let wish = self.wish(app, unit);
        table.held_in_rack(app, unit, rack) < wish.racks[rack.0 as usize]
    }
}

// The entry with which a unit waits.
pub(crate) fn entry_for(wishes: &Wishes, turn_of: &Vec<u64>, app: AppNo, unit: UnitNo) -> Entry
    requires unit { unit.0 < length (get_or wishes.now.cells app.0 []) }
    requires places { length turn_of.now.items ≡ unit_places }
    ensures { result ≡ entry_for wishes.now.cells turn_of.now.items app.0 unit.0 }
{
    let priority = wishes.wish(app, unit).priority;
    let turn = turn_of_unit(wishes, turn_of, app, unit);
    Entry {
        app,
        unit,
        priority,
        turn,
    }
}

// Whether a unit asks for a machine or stands in its queue.
fn asks_or_stands_on(tree: &Tree, entry: &Entry, wish: &Wish, machine: MachineNo) -> bool
    requires waits { (unit_at tree.now entry.now.app.0 entry.now.unit.0).entry ≡ Some entry.now }
    requires machine { machine.0 < length tree.now.racks }
    requires near { machine.0 < length (cell_of wish.now).near }
    ensures { result ≡ (nat_lt 0 (get_or (cell_of wish.now).near machine.0 0) || get_or (unit_at tree.now entry.now.app.0 entry.now.unit.0).stands machine.0 false) }
{
    if wish.near[machine.0 as usize] > 0 {
        return true;
    }
    tree.stands_on(entry, machine)
}

// Whether a unit asks for a rack or stands in its queue.
fn asks_or_stands_within(tree: &Tree, entry: &Entry, wish: &Wish, rack: RackNo) -> bool
    requires waits { (unit_at tree.now entry.now.app.0 entry.now.unit.0).entry ≡ Some entry.now }
    requires rack { rack.0 < 64 }
    ensures { result ≡ (nat_lt 0 (get_or (cell_of wish.now).racks rack.0 0) || get_or (unit_at tree.now entry.now.app.0 entry.now.unit.0).stands (rack_place tree.now.racks rack.0) false) }
{
    if wish.racks[rack.0 as usize] > 0 {
        return true;
    }
    tree.stands_within(entry, rack)
}

// A unit that waits stands in a machine's queue exactly where something of it is unmet there. Mostly it stands as it has to.
fn turn_on(tree: &mut Tree, entry: &Entry, machine: MachineNo, unmet: bool)
    requires waits { (unit_at tree.old entry.now.app.0 entry.now.unit.0).entry ≡ Some entry.now }
    requires machine { machine.0 < length tree.old.racks }
    ensures { tree.new ≡ with_stand tree.old entry.now machine.0 unmet }
{
    if tree.stands_on(entry, machine) == unmet {
        return;
    }
    tree.mark_machine(entry, machine, unmet);
}

// The same of a rack.
fn turn_within(tree: &mut Tree, entry: &Entry, rack: RackNo, unmet: bool)
    requires waits { (unit_at tree.old entry.now.app.0 entry.now.unit.0).entry ≡ Some entry.now }
    requires rack { rack.0 < 64 }
    ensures { tree.new ≡ with_stand tree.old entry.now (rack_place tree.old.racks rack.0) unmet }
{
    if tree.stands_within(entry, rack) == unmet {
        return;
    }
    tree.mark_rack(entry, rack, unmet);
}

// A unit that waits and does not stand in a machine's queue enters it where something of it is unmet there.
fn enter_on(tree: &mut Tree, entry: &Entry, machine: MachineNo, unmet: bool)
    requires waits { (unit_at tree.old entry.now.app.0 entry.now.unit.0).entry ≡ Some entry.now }
    requires machine { machine.0 < length tree.old.racks }
    requires outside { get_or (unit_at tree.old entry.now.app.0 entry.now.unit.0).stands machine.0 false ≡ false }
    ensures { tree.new ≡ with_stand tree.old entry.now machine.0 unmet }
{
    if !unmet {
        return;
    }
    tree.mark_machine(entry, machine, true);
}

// The same of a rack.
fn enter_within(tree: &mut Tree, entry: &Entry, rack: RackNo, unmet: bool)
    requires waits { (unit_at tree.old entry.now.app.0 entry.now.unit.0).entry ≡ Some entry.now }
    requires rack { rack.0 < 64 }
    requires outside { get_or (unit_at tree.old entry.now.app.0 entry.now.unit.0).stands (rack_place tree.old.racks rack.0) false ≡ false }
    ensures { tree.new ≡ with_stand tree.old entry.now (rack_place tree.old.racks rack.0) unmet }
{
    if !unmet {
        return;
    }
    tree.mark_rack(entry, rack, true);
}

// A unit that waits stands in the queues of the machines on which it asks for more than it has: only those for which it asks, and those in
// whose queues it stands, need a look.
fn mark_machines(tree: &mut Tree, entry: &Entry, wishes: &Wishes, table: &GrantTable)
    requires cluster { wishes.now.cluster ≡ table.now.cluster }
    requires here { entry.now.unit.0 < length (get_or wishes.now.cells entry.now.app.0 []) }
    requires there { entry.now.unit.0 < unit_count (as_known table.now.jobs) entry.now.app.0 }
    requires waits { WaitsIn wishes.now.cluster entry.now tree.old }
    ensures restood { Restood (unit_number entry.now.app.0 entry.now.unit.0) tree.old tree.new }
    ensures near { (m : ℕ) → m < length wishes.now.cluster.machines → get_or (unit_at tree.new entry.now.app.0 entry.now.unit.0).stands m false ≡ is_unmet_on wishes.now.cells table.now.entries entry.now.app.0 entry.now.unit.0 m }
    ensures rest { (place : ℕ) → length wishes.now.cluster.machines ≤ place → get_or (unit_at tree.new entry.now.app.0 entry.now.unit.0).stands place false ≡ get_or (unit_at tree.old entry.now.app.0 entry.now.unit.0).stands place false }
{
    let wish = wishes.wish(entry.app, entry.unit);
    for number in 0..wishes.cluster().machines() {
        let machine = MachineNo(number);
        if !asks_or_stands_on(tree, entry, wish, machine) {
            continue;
        }
        let unmet = wishes.is_unmet_on(table, entry.app, entry.unit, machine);
        tree.mark_machine(entry, machine, unmet);
    }
}

// A unit that waits stands in the queues of the racks in which it asks for more than it has: only those for which it asks, and those in
// whose queues it stands, need a look.
fn mark_racks(tree: &mut Tree, entry: &Entry, wishes: &Wishes, table: &GrantTable)
    requires cluster { wishes.now.cluster ≡ table.now.cluster }
    requires here { entry.now.unit.0 < length (get_or wishes.now.cells entry.now.app.0 []) }
    requires there { entry.now.unit.0 < unit_count (as_known table.now.jobs) entry.now.app.0 }
    requires waits { WaitsIn wishes.now.cluster entry.now tree.old }
    ensures restood { Restood (unit_number entry.now.app.0 entry.now.unit.0) tree.old tree.new }
    ensures racks { (r : ℕ) → r < 64 → get_or (unit_at tree.new entry.now.app.0 entry.now.unit.0).stands (rack_place tree.new.racks r) false ≡ is_unmet_in wishes.now.cluster wishes.now.cells table.now.entries entry.now.app.0 entry.now.unit.0 r }
    ensures rest { (place : ℕ) → place < length wishes.now.cluster.machines → get_or (unit_at tree.new entry.now.app.0 entry.now.unit.0).stands place false ≡ get_or (unit_at tree.old entry.now.app.0 entry.now.unit.0).stands place false }
{
    let wish = wishes.wish(entry.app, entry.unit);
    for number in 0..MOST_RACKS {
        let rack = RackNo(number);
        if !asks_or_stands_within(tree, entry, wish, rack) {
            continue;
        }
        let unmet = wishes.is_unmet_in(table, entry.app, entry.unit, rack);
        tree.mark_rack(entry, rack, unmet);
    }
}

// A unit that waits stands in the queues where it asks for more than it has.
fn mark_unit(tree: &mut Tree, entry: &Entry, wishes: &Wishes, table: &GrantTable)
    requires cluster { wishes.now.cluster ≡ table.now.cluster }
    requires here { entry.now.unit.0 < length (get_or wishes.now.cells entry.now.app.0 []) }
    requires there { entry.now.unit.0 < unit_count (as_known table.now.jobs) entry.now.app.0 }
    requires waits { WaitsIn wishes.now.cluster entry.now tree.old }
    ensures restood { Restood (unit_number entry.now.app.0 entry.now.unit.0) tree.old tree.new }
    ensures stands { StandsAs wishes.now.cluster wishes.now.cells table.now.entries entry.now.app.0 entry.now.unit.0 tree.new }
{
    mark_machines(tree, entry, wishes, table);
    mark_racks(tree, entry, wishes, table);
}

// A unit that begins to wait enters the queues of the machines on which it asks for more than it has. It stands in none of them yet, so
// only those for which it asks need a look.
fn enter_machines(tree: &mut Tree, entry: &Entry, wishes: &Wishes, table: &GrantTable)
    requires cluster { wishes.now.cluster ≡ table.now.cluster }
    requires here { entry.now.unit.0 < length (get_or wishes.now.cells entry.now.app.0 []) }
    requires there { entry.now.unit.0 < unit_count (as_known table.now.jobs) entry.now.app.0 }
    requires waits { WaitsIn wishes.now.cluster entry.now tree.old }
    requires nowhere { (m : ℕ) → m < length wishes.now.cluster.machines → get_or (unit_at tree.old entry.now.app.0 entry.now.unit.0).stands m false ≡ false }
    ensures restood { Restood (unit_number entry.now.app.0 entry.now.unit.0) tree.old tree.new }
    ensures near { (m : ℕ) → m < length wishes.now.cluster.machines → get_or (unit_at tree.new entry.now.app.0 entry.now.unit.0).stands m false ≡ is_unmet_on wishes.now.cells table.now.entries entry.now.app.0 entry.now.unit.0 m }
    ensures rest { (place : ℕ) → length wishes.now.cluster.machines ≤ place → get_or (unit_at tree.new entry.now.app.0 entry.now.unit.0).stands place false ≡ get_or (unit_at tree.old entry.now.app.0 entry.now.unit.0).stands place false }
{
    let near = &wishes.wish(entry.app, entry.unit).near;
    let held = table.counts(entry.app, entry.unit);
    let machines = wishes.cluster().machines();
    let mut number = first_some(near, 0, machines);
    while number < machines {
        let unmet = held[number as usize] < near[number as usize];
        enter_on(tree, entry, MachineNo(number), unmet);
        number = first_some(near, number + 1, machines);
    }
}

// The same of racks.
fn enter_racks(tree: &mut Tree, entry: &Entry, wishes: &Wishes, table: &GrantTable)
    requires cluster { wishes.now.cluster ≡ table.now.cluster }
    requires here { entry.now.unit.0 < length (get_or wishes.now.cells entry.now.app.0 []) }
    requires there { entry.now.unit.0 < unit_count (as_known table.now.jobs) entry.now.app.0 }
    requires waits { WaitsIn wishes.now.cluster entry.now tree.old }
    requires nowhere { (r : ℕ) → r < 64 → get_or (unit_at tree.old entry.now.app.0 entry.now.unit.0).stands (rack_place tree.old.racks r) false ≡ false }
    ensures restood { Restood (unit_number entry.now.app.0 entry.now.unit.0) tree.old tree.new }
    ensures racks { (r : ℕ) → r < 64 → get_or (unit_at tree.new entry.now.app.0 entry.now.unit.0).stands (rack_place tree.new.racks r) false ≡ is_unmet_in wishes.now.cluster wishes.now.cells table.now.entries entry.now.app.0 entry.now.unit.0 r }
    ensures rest { (place : ℕ) → place < length wishes.now.cluster.machines → get_or (unit_at tree.new entry.now.app.0 entry.now.unit.0).stands place false ≡ get_or (unit_at tree.old entry.now.app.0 entry.now.unit.0).stands place false }
{
    let wish = wishes.wish(entry.app, entry.unit);
    let mut number = first_some(&wish.racks, 0, MOST_RACKS);
    while number < MOST_RACKS {
        let rack = RackNo(number);
        let unmet = wishes.is_unmet_in(table, entry.app, entry.unit, rack);
        enter_within(tree, entry, rack, unmet);
        number = first_some(&wish.racks, number + 1, MOST_RACKS);
    }
}

// A unit that begins to wait enters the queues where it asks for more than it has. It stands in none of them yet.
fn enter_unit(tree: &mut Tree, entry: &Entry, wishes: &Wishes, table: &GrantTable)
    requires cluster { wishes.now.cluster ≡ table.now.cluster }
    requires here { entry.now.unit.0 < length (get_or wishes.now.cells entry.now.app.0 []) }
    requires there { entry.now.unit.0 < unit_count (as_known table.now.jobs) entry.now.app.0 }
    requires waits { WaitsIn wishes.now.cluster entry.now tree.old }
    requires nowhere { (place : ℕ) → place < cluster_place tree.old.racks → get_or (unit_at tree.old entry.now.app.0 entry.now.unit.0).stands place false ≡ false }
    ensures restood { Restood (unit_number entry.now.app.0 entry.now.unit.0) tree.old tree.new }
    ensures stands { StandsAs wishes.now.cluster wishes.now.cells table.now.entries entry.now.app.0 entry.now.unit.0 tree.new }
{
    enter_machines(tree, entry, wishes, table);
    enter_racks(tree, entry, wishes, table);
}

// A unit that waits stands in the queues of one machine and of its rack where it asks for more there than it has.
fn mark_spot(
    tree: &mut Tree,
    entry: &Entry,
    wishes: &Wishes,
    table: &GrantTable,
    machine: MachineNo,
)
    requires cluster { wishes.now.cluster ≡ table.now.cluster }
    requires here { entry.now.unit.0 < length (get_or wishes.now.cells entry.now.app.0 []) }
    requires there { entry.now.unit.0 < unit_count (as_known table.now.jobs) entry.now.app.0 }
    requires machine { machine.0 < length wishes.now.cluster.machines }
    requires waits { WaitsIn wishes.now.cluster entry.now tree.old }
    ensures restood { Restood (unit_number entry.now.app.0 entry.now.unit.0) tree.old tree.new }
    ensures spot { RestoodAt wishes.now.cluster wishes.now.cells table.now.entries entry.now.app.0 entry.now.unit.0 machine.0 (rack_of wishes.now.cluster machine.0) tree.old tree.new }
{
    let unmet = wishes.is_unmet_on(table, entry.app, entry.unit, machine);
    turn_on(tree, entry, machine, unmet);
    let rack = table.cluster().machine(machine).rack;
    let in_rack = wishes.is_unmet_in(table, entry.app, entry.unit, rack);
    turn_within(tree, entry, rack, in_rack);
}

/// Told that a unit has another number on a machine: where it waits it stands in the queues of the machine and of its rack where it asks
/// for more there.
pub(crate) fn tell_spot(
    tree: &mut Tree,
    line: &Line,
    wishes: &Wishes,
    turn_of: &Vec<u64>,
    table: &GrantTable,
    app: AppNo,
    unit: UnitNo,
    machine: MachineNo,
)
    requires cluster { wishes.now.cluster ≡ table.now.cluster }
    requires here { unit.0 < length (get_or wishes.now.cells app.0 []) }
    requires there { unit.0 < unit_count (as_known table.now.jobs) app.0 }
    requires machine { machine.0 < length table.now.cluster.machines }
    requires places { length turn_of.now.items ≡ unit_places }
    requires holds { HoldsLine wishes.now.cluster wishes.now.cells line.now.pairs turn_of.now.items tree.old }
    ensures holds { HoldsLine wishes.now.cluster wishes.now.cells line.now.pairs turn_of.now.items tree.new }
    ensures stands { (before : TableRecord) → IsSetFrom before table.now (spot app.0 unit.0 machine.0) → AllStand wishes.now.cluster wishes.now.cells before.entries line.now.pairs tree.old
        → AllStand wishes.now.cluster wishes.now.cells table.now.entries line.now.pairs tree.new }
{
    table.is_sound();
    wishes.are_sound();
    if !line.has(app.0, unit.0) {
        return;
    }
    let entry = entry_for(wishes, turn_of, app, unit);
    mark_spot(tree, &entry, wishes, table, machine);
}

/// Told that a job asks otherwise: its units of the line stand where they ask for more than they have.
pub(crate) fn tell_asked(
    tree: &mut Tree,
    line: &Line,
    wishes: &Wishes,
    turn_of: &Vec<u64>,
    table: &GrantTable,
    app: AppNo,
    differing: &[bool; 8],
)
    requires cluster { wishes.now.cluster ≡ table.now.cluster }
    requires admitted { AreAdmitted wishes.now.cells line.now.pairs }
    requires places { length turn_of.now.items ≡ unit_places }
    requires holds { HoldsLine wishes.now.cluster wishes.now.cells line.now.pairs turn_of.now.items tree.old }
    ensures holds { HoldsLine wishes.now.cluster wishes.now.cells line.now.pairs turn_of.now.items tree.new }
    ensures stands { length (get_or wishes.now.cells app.0 []) ≡ unit_count (as_known table.now.jobs) app.0
        → ((a u : ℕ) → has_pair (a, u) line.now.pairs ≡ true → nat_eq a app.0 ≡ false → StandsAs wishes.now.cluster wishes.now.cells table.now.entries a u tree.old)
        → ((u : ℕ) → has_pair (app.0, u) line.now.pairs ≡ true → get_or differing.now u true ≡ false → StandsAs wishes.now.cluster wishes.now.cells table.now.entries app.0 u tree.old)
        → AllStand wishes.now.cluster wishes.now.cells table.now.entries line.now.pairs tree.new }
{
    wishes.are_sound();
    for number in 0..wishes.units(app) as u8 {
        if number as usize >= table.units(app) {
            return;
        }
        if !differing[number as usize] {
            continue;
        }
        if !line.has(app.0, number) {
            continue;
        }
        let entry = entry_for(wishes, turn_of, app, UnitNo(number));
        mark_unit(tree, &entry, wishes, table);
    }
}

/// The units of the line from a place on begin to wait.
pub(crate) fn enter_line(
    tree: &mut Tree,
    line: &Line,
    wishes: &Wishes,
    turn_of: &Vec<u64>,
    table: &GrantTable,
    from: usize,
)
    requires level { AreLevel wishes.now.cluster (job_at wishes.now.cells) table.now }
    requires admitted { AreAdmitted wishes.now.cells line.now.pairs }
    requires places { length turn_of.now.items ≡ unit_places }
    requires rises { IsRising (λ (p : Pair). turn_at turn_of.now.items p.0 p.1) line.now.pairs }
    requires inside { from ≤ length line.now.pairs }
    requires holds { HoldsLine wishes.now.cluster wishes.now.cells (take from line.now.pairs) turn_of.now.items tree.old }
    requires stands { AllStand wishes.now.cluster wishes.now.cells table.now.entries (take from line.now.pairs) tree.old }
    ensures holds { HoldsLine wishes.now.cluster wishes.now.cells line.now.pairs turn_of.now.items tree.new }
    ensures stands { AllStand wishes.now.cluster wishes.now.cells table.now.entries line.now.pairs tree.new }
{
    wishes.are_sound();
    for place in from..line.len() {
        let (app, unit) = line.at(place);
        let entry = entry_for(wishes, turn_of, app, unit);
        tree.refresh(&entry, true);
        enter_unit(tree, &entry, wishes, table);
    }
}
