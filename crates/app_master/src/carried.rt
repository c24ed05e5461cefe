//! What an application carries from epoch to epoch.

ghost use Rattle.std.specs.Prelude.{◌≡◌, ℕ, ◌<◌, ◌≤◌, ◌&&◌, cond, length, replicate, nat_eq, nat_lt, OnOk, OnErr};
ghost use Rattle.fuxi_terms.specs.Counts.{AreCounts, count};
ghost use Rattle.fuxi_terms.specs.Keys.{key_cmp};
ghost use Rattle.fuxi_terms.specs.TallyKeys.{reported_key, count_key, greatest_grant};
ghost use Rattle.app_master.specs.Usable.{is_named, usable_in, carried_at, IsNext};

use crate::tallies::{is_named, usable};
use fuxi_terms::OutOfMemory;
use fuxi_terms::limits::MOST_UNITS;
use fuxi_terms::tally_keys::{COUNT, REPORTED};
use ledger_law::Key;
use party_ledgers::{Demand, Grants};
use schedule_unit::{MachineNo, UnitNo};
use std::alloc::Global;
use std::marker::Model;

/// How many grants are carried, by machine and unit.
#[derive(Drop)]
pub(crate) struct Carried {
    machines: u32,
    /// None before an epoch is joined in which something was granted, since most applications know one master alone.
    counts: Vec<[u32; MOST_UNITS]>,
}

impl Model for Carried {
    ghost use Rattle.std.specs.Prelude.{◌≡◌, ◌⊎◌, ℕ, List, [], length};
    ghost use Rattle.app_master.specs.Usable.{filled_up};

    ghost Value = { List (List ℕ) };

    ghost view = { λ c. filled_up c.machines c.counts.items };

    ghost invariant = { λ c. (c.counts.items ≡ []) ⊎ (length c.counts.items ≡ c.machines) };
}

impl Carried {
    /// Nothing, on each of so many machines.
    pub(crate) fn nothing(alloc: Global, machines: u32) -> Carried
        ensures { result ≡ replicate machines (replicate 8 0) }
    {
        Carried {
            machines,
            counts: Vec::new(alloc),
        }
    }

    /// How many grants of a unit are carried on a machine.
    pub(crate) fn count(&self, unit: UnitNo, machine: MachineNo) -> u32
        requires unit { unit.0 < 8 }
        requires machine { machine.0 < length self.now }
        ensures { result ≡ carried_at self.now unit.0 machine.0 }
    {
        if self.counts.is_empty() {
            return 0;
        }
        self.counts[machine.0 as usize][unit.0 as usize]
    }

    /// From a number on the first machine on which something of a unit is carried, and the end where there is none before it.
    pub(crate) fn next(&self, unit: UnitNo, from: u32, end: u32) -> u32
        requires unit { unit.0 < 8 }
        requires from { from ≤ end }
        requires end { end ≤ length self.now }
        ensures { IsNext (carried_at self.now unit.0) from end result }
    {
        for number in from..end {
            if self.count(unit, MachineNo(number)) > 0 {
                return number;
            }
        }
        end
    }

    /// An epoch is joined: on each machine that the grants name what was held there is carried from now on. Want of memory
    /// leaves all as it was.
    pub(crate) fn join(
        &mut self,
        alloc: Global,
        grants: &Grants,
        demand: &Demand,
        boot: u64,
        units: u8,
    ) -> Result<(), OutOfMemory>
        requires { units ≤ 8 }
        ensures long { OnOk result (length self.new ≡ length self.old) }
        ensures counts { OnOk result ((u m : ℕ) → u < units → m < length self.old → carried_at self.new u m ≡ cond (is_named grants.now m) (usable_in grants.now demand.now boot u m) (carried_at self.old u m)) }
        ensures err { OnErr result (self.new ≡ self.old) }
    {
        if self.counts.is_empty() {
            if grants.entries().is_empty() {
                return Ok(());
            }
            self.counts = Vec::from_elem(alloc, [0; MOST_UNITS], self.machines as usize)?;
        }
        carry(&mut self.counts, grants, demand, boot, units);
        Ok(())
    }
}

// The counts of each machine that the grants name are now those of what is held there, which is nothing where they count nothing.
fn carry(
    counts: &mut Vec<[u32; MOST_UNITS]>,
    grants: &Grants,
    demand: &Demand,
    boot: u64,
    units: u8,
)
    requires units { units ≤ 8 }
    ensures long { length counts.new.items ≡ length counts.old.items }
    ensures counts { (u m : ℕ) → u < units → m < length counts.old.items → carried_at counts.new.items u m ≡ cond (is_named grants.now m) (usable_in grants.now demand.now boot u m) (carried_at counts.old.items u m) }
{
    clear_named(counts, grants.entries());
    write_counted(counts, grants, demand, boot, units);
}

// Nothing is carried on the machines that these entries name.
fn clear_named(counts: &mut Vec<[u32; MOST_UNITS]>, entries: &[(Key, u64)])
    requires { AreCounts key_cmp greatest_grant entries.now }
    ensures long { length counts.new.items ≡ length counts.old.items }
    ensures counts { (u m : ℕ) → carried_at counts.new.items u m ≡ cond (nat_eq (count key_cmp entries.now (reported_key m)) 1) 0 (carried_at counts.old.items u m) }
{
    for (key, _) in entries {
        if key.what != REPORTED {
            continue;
        }
        clear(counts, MachineNo(key.number));
    }
}

// Nothing is carried on the machine, if there is one.
fn clear(counts: &mut Vec<[u32; MOST_UNITS]>, machine: MachineNo)
    ensures long { length counts.new.items ≡ length counts.old.items }
    ensures counts { (u m : ℕ) → carried_at counts.new.items u m ≡ cond (nat_eq m machine.0) 0 (carried_at counts.old.items u m) }
{
    let number = machine.0 as usize;
    if number < counts.len() {
        counts[number] = [0; MOST_UNITS];
    }
}

// What is held of each unit on each machine that the grants name is carried, where they have a count of it.
fn write_counted(
    counts: &mut Vec<[u32; MOST_UNITS]>,
    grants: &Grants,
    demand: &Demand,
    boot: u64,
    units: u8,
)
    requires units { units ≤ 8 }
    ensures long { length counts.new.items ≡ length counts.old.items }
    ensures counts { (u m : ℕ) → u < units → m < length counts.old.items → carried_at counts.new.items u m ≡ cond (is_named grants.now m && nat_lt 0 (count key_cmp grants.now.entries (count_key u m))) (usable_in grants.now demand.now boot u m) (carried_at counts.old.items u m) }
{
    let entries = grants.entries();
    for (key, _) in entries {
        if !is_counted(grants, key, units) {
            continue;
        }
        let unit = UnitNo(key.unit);
        let machine = MachineNo(key.number);
        let number = usable(grants, demand, boot, unit, machine);
        put(counts, unit, machine, number);
    }
}

// Whether an entry of the key is a count of one of the first units, on a machine that the grants name.
fn is_counted(grants: &Grants, key: &Key, units: u8) -> bool
    ensures { result ≡ (nat_eq key.now.what 2 && (nat_lt key.now.unit units && is_named grants.now key.now.number)) }
{
    key.what == COUNT && (key.unit < units && is_named(grants, MachineNo(key.number)))
}

// So many grants of a unit are carried on the machine, if there is one.
fn put(counts: &mut Vec<[u32; MOST_UNITS]>, unit: UnitNo, machine: MachineNo, count: u32)
    requires { unit.0 < 8 }
    ensures long { length counts.new.items ≡ length counts.old.items }
    ensures counts { (u m : ℕ) → m < length counts.old.items → carried_at counts.new.items u m ≡ cond (nat_eq u unit.0 && nat_eq m machine.0) count (carried_at counts.old.items u m) }
{
    let number = machine.0 as usize;
    if number < counts.len() {
        counts[number][unit.0 as usize] = count;
    }
}
