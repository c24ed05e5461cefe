//! What the changes of a demand do, key by key. No other key is looked up.

ghost use Rattle.std.specs.Prelude.{◌≡◌, ℕ, ◌<◌, ◌≤◌, ◌&&◌, true, false, cond, nat_eq, nat_lt, [], length, set};
ghost use Rattle.std.proofs.Common.{get_or};
ghost use Rattle.fuxi_terms.specs.Cluster.{has_rack};
ghost use Rattle.fuxi_terms.specs.Counts.{count};
ghost use Rattle.fuxi_terms.specs.declared.Key.{Key};
ghost use Rattle.fuxi_terms.specs.Jobs.{unit_count};
ghost use Rattle.fuxi_terms.specs.Keys.{key_cmp};
ghost use Rattle.fuxi_terms.specs.TallyKeys.{want_key};
ghost use Rattle.grant_table.specs.GrantTables.{as_known};
ghost use Rattle.spec_roles.specs.Placing.{has_pair};
ghost use Rattle.locality_tree.specs.Trees.{unit_at, rack_place, with_stand};
ghost use Rattle.place_pass.specs.Best.{AreAdmitted};
ghost use Rattle.place_pass.specs.Bounds.{mark_at};
ghost use Rattle.place_pass.specs.Cells.{cell_of, cells_in, no_cell, unit_places, asks_at, is_gone, ones_in, taken_all, any_more};
ghost use Rattle.place_pass.specs.Placers.{is_named};
ghost use Rattle.place_pass.specs.Candidates.{IsAsked};
ghost use Rattle.place_pass.specs.PlacerTrees.{HoldsLine, AllStand, StandsAs, WaitsIn, is_unmet_on, is_unmet_in};
ghost use Rattle.place_pass.specs.DemandScopes.{AsksSameBut, IsWritten, IsWrittenIn, StandsAt, StoodAt, asked_by, is_more_at};

use super::reading::{number_at, rack_number};
use super::wishes::{RACKS, Wish, Wishes};
use crate::line::{Line, entry_for};
use crate::marks::{Marks, lower_all};
use cluster_desc::Cluster;
use fuxi_terms::Key;
use fuxi_terms::limits::MOST_RACKS;
use fuxi_terms::tally_keys::{AVOID, NEAR, RACK, WANT};
use grant_table::GrantTable;
use locality_tree::{PlaceSet, Tree};
use party_ledgers::Demand;
use schedule_unit::{AppNo, MachineNo, RackNo, UnitNo};
use wait_queue::Entry;

// Writes how many grants a unit wants in all. True where that rises.
fn write_want(wish: &mut Wish, demand: &Demand, key: &Key) -> bool
    ensures cell { cell_of wish.new ≡ cond (nat_eq key.now.number 0) (record (cell_of wish.old) { want = count key_cmp demand.now.entries (want_key key.now.unit) }) (cell_of wish.old) }
    ensures more { result ≡ (nat_eq key.now.number 0 && nat_lt (cell_of wish.old).want (count key_cmp demand.now.entries (want_key key.now.unit))) }
{
    if key.number != 0 {
        return false;
    }
    let want = number_at(demand, WANT, key.unit, 0);
    let rises = wish.want < want;
    wish.want = want;
    rises
}

// Writes a number by machine, where there is a place for it.
fn write_near(near: &mut [u32], demand: &Demand, key: &Key)
    requires { key.now.what < 5 }
    ensures { near.new ≡ set near.old key.now.number (count key_cmp demand.now.entries key.now) }
{
    let number = key.number as usize;
    if number < near.len() {
        near[number] = number_at(demand, key.what, key.unit, key.number);
    }
}

// Writes whether a machine is avoided, where it is there. True where it was and is no longer.
fn write_avoided(avoided: &mut PlaceSet, machines: u32, demand: &Demand, key: &Key) -> bool
    requires kind { key.now.what ≡ 4 }
    requires few { machines ≤ 384 }
    ensures numbers { ones_in machines avoided.new ≡ set (ones_in machines avoided.old) key.now.number (count key_cmp demand.now.entries key.now) }
    ensures gone { result ≡ is_gone (get_or (ones_in machines avoided.old) key.now.number 0) (count key_cmp demand.now.entries key.now) }
{
    if key.number >= machines {
        return false;
    }
    let counts = demand.entries();
    let place = key.number as usize;
    let before = avoided.contains(place);
    let now = number_at(demand, AVOID, key.unit, key.number) > 0;
    avoided.set(place, now);
    before & !now
}

// Writes a number by rack, where there is a place for it: nothing where no machine stands there.
fn write_rack(racks: &mut [u32; RACKS], cluster: &Cluster, demand: &Demand, key: &Key)
    requires { key.now.what < 5 }
    ensures { racks.new ≡ set racks.old key.now.number (cond (has_rack cluster.now key.now.number) (count key_cmp demand.now.entries key.now) 0) }
{
    if key.number as usize >= RACKS {
        return;
    }
    let wanted = number_at(demand, key.what, key.unit, key.number);
    racks[key.number as usize] = rack_number(cluster, key.number, wanted);
}

// Writes what a demand asks of a unit at one key. True where it wants more, or no longer avoids a machine.
fn write_key(wish: &mut Wish, cluster: &Cluster, demand: &Demand, key: &Key) -> bool
    requires { length (cell_of wish.old).near ≡ length cluster.now.machines }
    ensures cell { IsWritten cluster.now demand.now.entries key.now (cell_of wish.old) (cell_of wish.new) }
    ensures more { result ≡ is_more_at key.now (asks_at (cell_of wish.old) key.now) (asked_by cluster.now demand.now.entries key.now) }
{
    if key.what == WANT {
        return write_want(wish, demand, key);
    }
    if key.what == NEAR {
        write_near(&mut wish.near, demand, key);
        return false;
    }
    if key.what == RACK {
        write_rack(&mut wish.racks, cluster, demand, key);
        return false;
    }
    if key.what == AVOID {
        return write_avoided(&mut wish.avoided, cluster.machines(), demand, key);
    }
    false
}

// The same of a key of a job.
fn write_key_in(units: &mut Vec<Wish>, cluster: &Cluster, demand: &Demand, key: &Key) -> bool
    requires { (u : ℕ) → u < length units.old.items → length (get_or (cells_in units.old) u no_cell).near ≡ length cluster.now.machines }
    ensures cells { IsWrittenIn cluster.now demand.now.entries key.now (cells_in units.old) (cells_in units.new) }
    ensures more { key.now.unit < length units.old.items → result ≡ is_more_at key.now (asks_at (get_or (cells_in units.old) key.now.unit no_cell) key.now) (asked_by cluster.now demand.now.entries key.now) }
    ensures none { length units.old.items ≤ key.now.unit → result ≡ false }
{
    let number = key.unit as usize;
    if number >= units.len() {
        return false;
    }
    let wish = &mut units[number];
    write_key(wish, cluster, demand, key)
}

/// The units of a job take over a demand, which asks otherwise of them only at keys that changes name. True where one wants more, or
/// no longer avoids a machine.
pub(crate) fn write_changes(
    units: &mut Vec<Wish>,
    cluster: &Cluster,
    demand: &Demand,
    changes: &[(Key, i64)],
) -> bool
    requires near { (u : ℕ) → u < length units.old.items → length (get_or (cells_in units.old) u no_cell).near ≡ length cluster.now.machines }
    requires racks { (u : ℕ) → u < length units.old.items → length (get_or (cells_in units.old) u no_cell).racks ≡ 64 }
    requires avoided { (u : ℕ) → u < length units.old.items → length (get_or (cells_in units.old) u no_cell).avoided ≡ length cluster.now.machines }
    requires same { AsksSameBut changes.now cluster.now demand.now.entries (cells_in units.old) }
    ensures cells { cells_in units.new ≡ taken_all cluster.now demand.now.entries 0 (cells_in units.old) }
    ensures more { result ≡ any_more cluster.now demand.now.entries (cells_in units.old) (length units.old.items) }
{
    let mut more = false;
    for place in 0..changes.len() {
        let one = write_key_in(units, cluster, demand, &changes[place].0);
        more |= one;
    }
    more
}

impl Wishes {
    ghost use Rattle.std.specs.Prelude.{◌≡◌, ℕ, ◌<◌, true, false, [], length};
    ghost use Rattle.std.proofs.Common.{get_or};
    ghost use Rattle.fuxi_terms.specs.Counts.{count};
    ghost use Rattle.fuxi_terms.specs.Keys.{key_cmp};
    ghost use Rattle.fuxi_terms.specs.TallyKeys.{avoid_key};
    ghost use Rattle.place_pass.specs.Cells.{Lifts, cell_at};

    // Whether at this key a demand lifts a unit's avoidance of a machine.
    fn lifts_at(&self, app: AppNo, demand: &Demand, key: &Key) -> bool
        ensures machine { result ≡ true → key.now.number < length self.now.cluster.machines }
        ensures some { result ≡ true → Lifts demand.now.entries (get_or self.now.cells app.0 []) key.now.number }
        ensures none { result ≡ false → (u m : ℕ) → key.now ≡ avoid_key u m → u < length (get_or self.now.cells app.0 []) → 0 < get_or (cell_at self.now.cells app.0 u).avoided m 0 → 0 < count key_cmp demand.now.entries (avoid_key u m) }
    {
        if key.what != AVOID {
            return false;
        }
        if key.unit as usize >= self.units(app) {
            return false;
        }
        if key.number >= self.cluster().machines() {
            return false;
        }
        if !self.avoids(app, UnitNo(key.unit), MachineNo(key.number)) {
            return false;
        }
        number_at(demand, AVOID, key.unit, key.number) == 0
    }
}

/// Told of a demand before the wishes are, which asks otherwise only at keys that changes name: what is placeable may come earlier, and
/// on a machine that a unit avoids no longer anything may be placeable.
pub(crate) fn mark_changes(
    marks: &mut Marks,
    wishes: &Wishes,
    app: AppNo,
    demand: &Demand,
    changes: &[(Key, i64)],
)
    requires long { length marks.old ≡ length wishes.now.cluster.machines }
    requires same { AsksSameBut changes.now wishes.now.cluster demand.now.entries (get_or wishes.now.cells app.0 []) }
    ensures marks { (m : ℕ) → m < length marks.old → IsAsked demand.now.entries (get_or wishes.now.cells app.0 []) m (mark_at marks.old m) (mark_at marks.new m) }
    ensures long { length marks.new ≡ length marks.old }
{
    lower_all(marks);
    for place in 0..changes.len() {
        let key = changes[place].0;
        if !wishes.lifts_at(app, demand, &key) {
            continue;
        }
        let mut mark = *marks.at(key.number);
        mark.ask(true);
        marks.put(key.number, mark);
    }
}

// A unit that waits stands in the queue of a machine where it asks for more there than it has. One that is not there is passed.
fn stand_on(tree: &mut Tree, entry: &Entry, wishes: &Wishes, table: &GrantTable, number: u32)
    requires cluster { wishes.now.cluster ≡ table.now.cluster }
    requires here { entry.now.unit.0 < length (get_or wishes.now.cells entry.now.app.0 []) }
    requires there { entry.now.unit.0 < unit_count (as_known table.now.jobs) entry.now.app.0 }
    requires waits { WaitsIn wishes.now.cluster entry.now tree.old }
    ensures stood { number < length wishes.now.cluster.machines → tree.new ≡ with_stand tree.old entry.now number (is_unmet_on wishes.now.cells table.now.entries entry.now.app.0 entry.now.unit.0 number) }
    ensures none { length wishes.now.cluster.machines ≤ number → tree.new ≡ tree.old }
{
    if number >= wishes.cluster().machines() {
        return;
    }
    let machine = MachineNo(number);
    let unmet = wishes.is_unmet_on(table, entry.app, entry.unit, machine);
    tree.mark_machine(entry, machine, unmet);
}

// The same of a rack.
fn stand_within(tree: &mut Tree, entry: &Entry, wishes: &Wishes, table: &GrantTable, number: u32)
    requires cluster { wishes.now.cluster ≡ table.now.cluster }
    requires here { entry.now.unit.0 < length (get_or wishes.now.cells entry.now.app.0 []) }
    requires there { entry.now.unit.0 < unit_count (as_known table.now.jobs) entry.now.app.0 }
    requires waits { WaitsIn wishes.now.cluster entry.now tree.old }
    ensures stood { number < 64 → tree.new ≡ with_stand tree.old entry.now (rack_place tree.old.racks number) (is_unmet_in wishes.now.cluster wishes.now.cells table.now.entries entry.now.app.0 entry.now.unit.0 number) }
    ensures none { 64 ≤ number → tree.new ≡ tree.old }
{
    if number >= MOST_RACKS {
        return;
    }
    let rack = RackNo(number);
    let unmet = wishes.is_unmet_in(table, entry.app, entry.unit, rack);
    tree.mark_rack(entry, rack, unmet);
}

// A unit that waits stands at the place of a key of it as it has to.
fn stand_key(tree: &mut Tree, entry: &Entry, wishes: &Wishes, table: &GrantTable, key: &Key)
    requires cluster { wishes.now.cluster ≡ table.now.cluster }
    requires here { entry.now.unit.0 < length (get_or wishes.now.cells entry.now.app.0 []) }
    requires there { entry.now.unit.0 < unit_count (as_known table.now.jobs) entry.now.app.0 }
    requires waits { WaitsIn wishes.now.cluster entry.now tree.old }
    requires unit { key.now.unit ≡ entry.now.unit.0 }
    ensures { StoodAt wishes.now.cluster wishes.now.cells table.now.entries entry.now.app.0 key.now tree.old tree.new }
{
    if key.what == NEAR {
        stand_on(tree, entry, wishes, table, key.number);
        return;
    }
    if key.what == RACK {
        stand_within(tree, entry, wishes, table, key.number);
    }
}

// The same of a key of a job, where the key's unit waits.
fn stand_key_in(
    tree: &mut Tree,
    line: &Line,
    wishes: &Wishes,
    turn_of: &Vec<u64>,
    table: &GrantTable,
    app: AppNo,
    key: &Key,
)
    requires cluster { wishes.now.cluster ≡ table.now.cluster }
    requires admitted { AreAdmitted wishes.now.cells line.now.pairs }
    requires places { length turn_of.now.items ≡ unit_places }
    requires holds { HoldsLine wishes.now.cluster wishes.now.cells line.now.pairs turn_of.now.items tree.old }
    ensures holds { HoldsLine wishes.now.cluster wishes.now.cells line.now.pairs turn_of.now.items tree.new }
    ensures stood { length (get_or wishes.now.cells app.0 []) ≡ unit_count (as_known table.now.jobs) app.0 → has_pair (app.0, key.now.unit) line.now.pairs ≡ true
        → StoodAt wishes.now.cluster wishes.now.cells table.now.entries app.0 key.now tree.old tree.new }
    ensures others { (a u : ℕ) → u < 8 → (nat_eq a app.0 && nat_eq u key.now.unit) ≡ false → unit_at tree.new a u ≡ unit_at tree.old a u }
{
    if key.unit as usize >= table.units(app) {
        return;
    }
    if !line.has(app.0, key.unit) {
        return;
    }
    let entry = entry_for(wishes, turn_of, app, UnitNo(key.unit));
    stand_key(tree, &entry, wishes, table, key);
}

/// Told that a job asks otherwise at keys that changes name: its units of the line stand there where they ask for more than they have.
pub(crate) fn stand_changes(
    tree: &mut Tree,
    line: &Line,
    wishes: &Wishes,
    turn_of: &Vec<u64>,
    table: &GrantTable,
    app: AppNo,
    changes: &[(Key, i64)],
)
    requires cluster { wishes.now.cluster ≡ table.now.cluster }
    requires admitted { AreAdmitted wishes.now.cells line.now.pairs }
    requires places { length turn_of.now.items ≡ unit_places }
    requires holds { HoldsLine wishes.now.cluster wishes.now.cells line.now.pairs turn_of.now.items tree.old }
    ensures holds { HoldsLine wishes.now.cluster wishes.now.cells line.now.pairs turn_of.now.items tree.new }
    ensures stands { length (get_or wishes.now.cells app.0 []) ≡ unit_count (as_known table.now.jobs) app.0
        → ((a u : ℕ) → has_pair (a, u) line.now.pairs ≡ true → nat_eq a app.0 ≡ false → StandsAs wishes.now.cluster wishes.now.cells table.now.entries a u tree.old)
        → ((u : ℕ) → has_pair (app.0, u) line.now.pairs ≡ true → (k : Key) → k.unit ≡ u → is_named k changes.now ≡ false → StandsAt wishes.now.cluster wishes.now.cells table.now.entries app.0 k tree.old)
        → AllStand wishes.now.cluster wishes.now.cells table.now.entries line.now.pairs tree.new }
{
    for place in 0..changes.len() {
        stand_key_in(tree, line, wishes, turn_of, table, app, &changes[place].0);
    }
}
