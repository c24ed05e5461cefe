//! What a demand asks of one unit, read from its entries in their order.

ghost use Rattle.std.specs.Prelude.{◌≡◌, ℕ, ◌<◌, ◌≤◌, ◌&&◌, T, true, false, not, nat_eq, cond, length};
ghost use Rattle.std.specs.FinMap.Entries.{is_sorted};
ghost use Rattle.std.proofs.Common.{get_or};
ghost use Rattle.std.specs.List.{list_any};
ghost use Rattle.fuxi_terms.specs.Keys.{key_cmp};
ghost use Rattle.fuxi_terms.specs.Counts.{count};
ghost use Rattle.fuxi_terms.specs.Cluster.{has_rack};
ghost use Rattle.fuxi_terms.specs.TallyKeys.{key};
ghost use Rattle.std.specs.Ordering.{is_lt};
ghost use Rattle.fuxi_terms.specs.Lists.{below};
ghost use Rattle.place_pass.specs.DemandWalks.{IsPast, IsNextAsked};
ghost use Rattle.place_pass.specs.Cells.{cell_of, numbers_at, ones_in, racks_at, taken, asks_more};
ghost use Rattle.locality_tree.specs.PlaceSets.{in_set};

use super::sparse::is_clear;
use super::wishes::{RACKS, Wish};
use cluster_desc::Cluster;
use fuxi_terms::Key;
use fuxi_terms::limits::MOST_RACKS;
use fuxi_terms::tally_keys::{AVOID, NEAR, RACK, WANT};
use locality_tree::PlaceSet;
use party_ledgers::Demand;
use schedule_unit::RackNo;

// A unit takes its part of the demand. True where it wants more, or no longer avoids a machine.
pub(crate) fn take_one(wish: &mut Wish, unit: u8, cluster: &Cluster, demand: &Demand) -> bool
    requires { length (cell_of wish.old).near ≡ length cluster.now.machines }
    ensures cell { cell_of wish.new ≡ taken cluster.now demand.now.entries unit (cell_of wish.old) }
    ensures more { result ≡ asks_more cluster.now demand.now.entries unit (cell_of wish.old) }
{
    let machines = cluster.machines();
    let want = number_at(demand, WANT, unit, 0);
    let rises = wish.want < want;
    wish.want = want;
    read_near(&mut wish.near, machines, demand, unit);
    read_racks(&mut wish.racks, cluster, demand, unit);
    let avoided = avoided_by(demand, unit, machines);
    let lifted = is_lifted(&wish.avoided, &avoided, machines);
    wish.avoided = avoided;
    rises || lifted
}

// What a demand has at a key that is not given back.
pub(crate) fn number_at(demand: &Demand, what: u8, unit: u8, number: u32) -> u32
    requires { what < 5 }
    ensures { result ≡ count key_cmp demand.now.entries (key what unit number) }
{
    let counts = demand.entries();
    demand.get(&Key { what, unit, number }) as u32
}

// The place behind the entries that stand before the key, found by halves.
fn place_by_halves(entries: &[(Key, u64)], sought: &Key) -> usize
    requires { T (is_sorted key_cmp entries.now) }
    ensures past { IsPast entries.now result sought.now }
    ensures there { result < length entries.now → is_lt (key_cmp (get_or entries.now result (key 0 0 0, 0)).0 sought.now) ≡ false }
{
    let mut low = 0;
    let mut high = entries.len();
    while low < high {
        let middle = low + (high - low) / 2;
        if entries[middle].0.order(sought).is_ge() {
            high = middle;
            continue;
        }
        low = middle + 1;
    }
    low
}

// The place behind the entries that stand before the key, of which some were passed.
fn place_behind(entries: &[(Key, u64)], from: usize, sought: &Key) -> usize
    requires past { IsPast entries.now from sought.now }
    ensures past { IsPast entries.now result sought.now }
    ensures there { result < length entries.now → is_lt (key_cmp (get_or entries.now result (key 0 0 0, 0)).0 sought.now) ≡ false }
{
    for place in from..entries.len() {
        if entries[place].0.order(sought).is_ge() {
            return place;
        }
    }
    entries.len().max(from)
}

// The same: a walk that begins goes by halves, and one that has passed some goes on from there.
fn place_of(entries: &[(Key, u64)], from: usize, sought: &Key) -> usize
    requires past { IsPast entries.now from sought.now }
    requires sorted { T (is_sorted key_cmp entries.now) }
    ensures past { IsPast entries.now result sought.now }
    ensures there { result < length entries.now → is_lt (key_cmp (get_or entries.now result (key 0 0 0, 0)).0 sought.now) ≡ false }
{
    if from == 0 {
        return place_by_halves(entries, sought);
    }
    place_behind(entries, from, sought)
}

// Whether a key is of this kind and unit.
fn is_of(key: &Key, what: u8, unit: u8) -> bool
    ensures { result ≡ (nat_eq key.now.what what && nat_eq key.now.unit unit) }
{
    key.what == what && key.unit == unit
}

// From a key's number on the first at which a demand has something of the key's kind and unit, and how much it has there. Where there
// is none before the end it is the last one. The walk has passed some of the entries before.
pub(crate) fn next_asked(demand: &Demand, passed: &mut usize, sought: &Key, end: u32) -> (u32, u32)
    requires kind { sought.now.what < 5 }
    requires inside { sought.now.number < end }
    requires past { IsPast demand.now.entries passed.old sought.now }
    ensures { IsNextAsked demand.now.entries sought.now end result.0 result.1 passed.new }
{
    let entries = demand.entries();
    let place = place_of(entries, *passed, sought);
    *passed = place;
    if place >= entries.len() {
        return (end - 1, 0);
    }
    let (found, number) = entries[place];
    if !is_of(&found, sought.what, sought.unit) {
        return (end - 1, 0);
    }
    if found.number >= end {
        return (end - 1, 0);
    }
    (found.number, number as u32)
}

// Writes 0 from one place on to another.
fn clear_numbers(numbers: &mut [u32], from: u32, to: u32)
    requires order { from ≤ to }
    requires inside { to ≤ length numbers.old }
    ensures long { length numbers.new ≡ length numbers.old }
    ensures zero { (k : ℕ) → from ≤ k → k < to → get_or numbers.new k 0 ≡ 0 }
    ensures before { (k : ℕ) → k < from → get_or numbers.new k 0 ≡ get_or numbers.old k 0 }
    ensures behind { (k : ℕ) → to ≤ k → get_or numbers.new k 0 ≡ get_or numbers.old k 0 }
{
    if is_clear(numbers, from, to) {
        return;
    }
    for place in from..to {
        numbers[place as usize] = 0;
    }
}

// What a demand wants on each machine, from one that it names to the next.
fn read_near(near: &mut [u32], machines: u32, demand: &Demand, unit: u8)
    requires { length near.old ≡ machines }
    ensures { near.new ≡ numbers_at demand.now.entries 2 unit machines }
{
    let mut passed = 0;
    let mut next = 0;
    while next < machines {
        let sought = Key {
            what: NEAR,
            unit,
            number: next,
        };
        let (machine, number) = next_asked(demand, &mut passed, &sought, machines);
        clear_numbers(near, next, machine);
        near[machine as usize] = number;
        next = machine + 1;
    }
}

/// The machines that a unit avoids by a demand, which is walked from one that it names to the next.
pub(crate) fn avoided_by(demand: &Demand, unit: u8, machines: u32) -> PlaceSet
    requires { machines ≤ 384 }
    ensures { ones_in machines result ≡ numbers_at demand.now.entries 4 unit machines }
{
    let counts = demand.entries();
    let mut avoided = PlaceSet::new();
    let mut passed = 0;
    let mut next = 0;
    while next < machines {
        let sought = Key {
            what: AVOID,
            unit,
            number: next,
        };
        let (machine, number) = next_asked(demand, &mut passed, &sought, machines);
        avoided.set(machine as usize, number > 0);
        next = machine + 1;
    }
    avoided
}

// Whether a machine that was avoided is no longer.
fn is_lifted(before: &PlaceSet, now: &PlaceSet, machines: u32) -> bool
    requires { machines ≤ 384 }
    ensures { result ≡ list_any (λ m. in_set before.now m && not (in_set now.now m)) (below machines) }
{
    let mut at = before.next(0);
    while at < machines as usize {
        if !now.contains(at) {
            return true;
        }
        at = before.next(at + 1);
    }
    false
}

// What is wanted in a rack: nothing where no machine stands there.
pub(crate) fn rack_number(cluster: &Cluster, rack: u32, wanted: u32) -> u32
    ensures { result ≡ cond (has_rack cluster.now rack) wanted 0 }
{
    if wanted == 0 {
        return 0;
    }
    if cluster.has_rack(RackNo(rack)) {
        wanted
    } else {
        0
    }
}

// What a demand has at each rack in which a machine stands, from one that it names to the next.
fn read_racks(racks: &mut [u32; RACKS], cluster: &Cluster, demand: &Demand, unit: u8)
    ensures { racks.new ≡ racks_at cluster.now demand.now.entries unit }
{
    let mut passed = 0;
    let mut next = 0;
    while next < MOST_RACKS {
        let sought = Key {
            what: RACK,
            unit,
            number: next,
        };
        let (rack, wanted) = next_asked(demand, &mut passed, &sought, MOST_RACKS);
        let number = rack_number(cluster, rack, wanted);
        clear_numbers(racks, next, rack);
        racks[rack as usize] = number;
        next = rack + 1;
    }
}
