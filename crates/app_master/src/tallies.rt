//! What an application holds of what its grants name, and may give back.

ghost use Rattle.std.specs.Prelude.{◌≡◌, ◌≤◌, ◌&&◌, T, true, false, nat_eq};
ghost use Rattle.std.specs.Ordering.{is_lt};
ghost use Rattle.std.specs.FinMap.Entries.{is_sorted};
ghost use Rattle.std.specs.List.Sorted.{IsPartitionPoint};
ghost use Rattle.fuxi_terms.specs.TallyKeys.{reported_key, count_key, credited_key, back_key};
ghost use Rattle.fuxi_terms.specs.Keys.{key_cmp};
ghost use Rattle.fuxi_terms.specs.Counts.{count};
ghost use Rattle.fuxi_terms.specs.Limits.{greatest_count, greatest_back};
ghost use Rattle.app_master.specs.Usable.{is_named, usable_in, IsNext};

use fuxi_terms::tally_keys::{BACK, COUNT, CREDITED, REPORTED};
use ledger_law::Key;
use party_ledgers::{Demand, Grants};
use schedule_unit::{MachineNo, UnitNo};

// Whether grants name the machine as reported.
pub(crate) fn is_named(grants: &Grants, machine: MachineNo) -> bool
    ensures { result ≡ is_named grants.now machine.0 }
{
    grants.get(&Key {
        what: REPORTED,
        unit: 0,
        number: machine.0,
    }) == 1
}

// The number of a unit on a machine under a kind of key.
fn number_of(grants: &Grants, what: u8, unit: UnitNo, machine: MachineNo) -> u64
    ensures { result ≡ count key_cmp grants.now.entries (record { what = what; unit = unit.0; number = machine.0 }) }
{
    grants.get(&Key {
        what,
        unit: unit.0,
        number: machine.0,
    })
}

// How many were given back in the present epoch.
pub(crate) fn given(demand: &Demand, unit: UnitNo, machine: MachineNo) -> u64
    ensures number { result ≡ count key_cmp demand.now.entries (back_key unit.0 machine.0) }
    ensures within { result ≤ greatest_back }
{
    let counts = demand.entries();
    demand.get(&Key {
        what: BACK,
        unit: unit.0,
        number: machine.0,
    })
}

// How many grants stand in the count, at most 100,000.
fn counted(grants: &Grants, unit: UnitNo, machine: MachineNo) -> u32
    ensures number { result ≡ count key_cmp grants.now.entries (count_key unit.0 machine.0) }
    ensures within { result ≤ greatest_count }
{
    let counts = grants.entries();
    number_of(grants, COUNT, unit, machine) as u32
}

// From a number on the first machine on which grants count something of a unit, and the end where there is none before it.
pub(crate) fn next_counted(grants: &Grants, unit: UnitNo, from: u32, end: u32) -> u32
    requires { from ≤ end }
    ensures { IsNext (λ m. count key_cmp grants.now.entries (count_key unit.0 m)) from end result }
{
    let entries = grants.entries();
    let sought = Key {
        what: COUNT,
        unit: unit.0,
        number: from,
    };
    let place = place_of(entries, &sought);
    if place >= entries.len() {
        return end;
    }
    let (key, _) = entries[place];
    if !is_count(&key, unit) {
        return end;
    }
    key.number.min(end)
}

// The place of the first entry whose key is not below this one.
fn place_of(entries: &[(Key, u64)], sought: &Key) -> usize
    requires { T (is_sorted key_cmp entries.now) }
    ensures { IsPartitionPoint (λ e. is_lt (key_cmp e.0 sought.now) ≡ true) (λ e. is_lt (key_cmp e.0 sought.now) ≡ false) entries.now result }
{
    entries.partition_point(|entry| entry.0.order(sought).is_lt())
}

// Whether a key of grants is that of a count of the unit.
fn is_count(key: &Key, unit: UnitNo) -> bool
    ensures { result ≡ (nat_eq key.now.what 2 && nat_eq key.now.unit unit.0) }
{
    key.what == COUNT && key.unit == unit.0
}

// What an application of this boot holds of a unit on a machine that its grants name: their count without what was
// given back and is not yet credited. What was credited to another boot is nothing to this one.
pub(crate) fn usable(
    grants: &Grants,
    demand: &Demand,
    boot: u64,
    unit: UnitNo,
    machine: MachineNo,
) -> u32
    ensures number { result ≡ usable_in grants.now demand.now boot unit.0 machine.0 }
    ensures within { result ≤ greatest_count }
{
    let count = counted(grants, unit, machine);
    if count == 0 {
        return 0;
    }
    let given = given(demand, unit, machine);
    if given == 0 {
        return count;
    }
    let credited = if grants.head() == boot {
        number_of(grants, CREDITED, unit, machine)
    } else {
        0
    };
    let open = given.saturating_sub(credited);
    count - open.min(count as u64) as u32
}
