//! What the units of admitted jobs hold, by job number and unit.

ghost use Rattle.std.specs.Prelude.{◌≡◌, ℕ, ◌+◌, ◌<◌, ◌≤◌, ◌^◌, List, [], length, map, IfOk, OnOk};
ghost use Rattle.std.proofs.Common.{get_or};
ghost use Rattle.fuxi_terms.specs.Cluster.{UnitRecord};
ghost use Rattle.grant_table.specs.GrantTables.{Cell, cell_of, cells_in, cells_of, cell_at, with_cell, no_cell, raised, lowered, fresh_cells};

use fuxi_terms::OutOfMemory;
use fuxi_terms::limits::MOST_RACKS;
use res_vector::Res;
use schedule_unit::{AppNo, GroupNo, Job, UnitNo};
use std::alloc::Global;

// The places of the racks in what a unit holds.
const RACKS: usize = MOST_RACKS as usize;

/// What one unit holds.
#[derive(Drop)]
pub(crate) struct Holding {
    pub(crate) size: Res,
    pub(crate) group: GroupNo,
    /// The greatest number of its grants on one machine.
    pub(crate) most: u32,
    pub(crate) held: u32,
    // By rack and then by machine, as one list, so that a unit asks for memory once.
    numbers: Vec<u32>,
}

impl Holding {
    ghost use Rattle.std.specs.Prelude.{◌≡◌, ◌+◌, ◌<◌, ◌≤◌, ◌^◌, length};
    ghost use Rattle.std.proofs.Common.{get_or};
    ghost use Rattle.grant_table.specs.GrantTables.{cell_of, raised, lowered};

    /// By machine.
    pub(crate) fn counts(&self) -> &[u32]
        requires { 64 ≤ length self.now.numbers.items }
        ensures { result.now ≡ (cell_of self.now).counts }
    {
        let (_, counts) = self.numbers.as_slice().split_at(RACKS);
        counts
    }

    /// How many on a machine.
    pub(crate) fn count(&self, machine: usize) -> u32
        requires { machine < length (cell_of self.now).counts }
        ensures { result ≡ get_or (cell_of self.now).counts machine 0 }
    {
        self.numbers[RACKS + machine]
    }

    /// How many in a rack.
    pub(crate) fn in_rack(&self, rack: usize) -> u32
        requires { rack < length (cell_of self.now).racks }
        ensures { result ≡ get_or (cell_of self.now).racks rack 0 }
    {
        self.numbers[rack]
    }

    // So many grants more on a machine of a rack.
    fn raise(&mut self, machine: usize, rack: usize, count: u32)
        requires machine { machine < length (cell_of self.old).counts }
        requires rack { rack < length (cell_of self.old).racks }
        requires count { get_or (cell_of self.old).counts machine 0 + count < 2 ^ 32 }
        requires held { self.old.held + count < 2 ^ 32 }
        requires in_rack { get_or (cell_of self.old).racks rack 0 + count < 2 ^ 32 }
        ensures { cell_of self.new ≡ raised (cell_of self.old) machine rack count }
    {
        self.held += count;
        self.numbers[RACKS + machine] += count;
        self.numbers[rack] += count;
    }

    // So many fewer.
    fn lower(&mut self, machine: usize, rack: usize, count: u32)
        requires machine { machine < length (cell_of self.old).counts }
        requires rack { rack < length (cell_of self.old).racks }
        requires count { count ≤ get_or (cell_of self.old).counts machine 0 }
        requires held { count ≤ self.old.held }
        requires in_rack { count ≤ get_or (cell_of self.old).racks rack 0 }
        ensures { cell_of self.new ≡ lowered (cell_of self.old) machine rack count }
    {
        self.held -= count;
        self.numbers[RACKS + machine] -= count;
        self.numbers[rack] -= count;
    }
}

/// The holding of a unit.
pub(crate) fn holding_at(slots: &[Vec<Holding>], app: usize, unit: usize) -> &Holding
    requires { unit < length (get_or (cells_of slots.now) app []) }
    ensures { cell_of result.now ≡ cell_at (cells_of slots.now) app unit }
{
    let units = &slots[app];
    &units[unit]
}

/// How many units there are of a job, 0 where there is no such job.
pub(crate) fn units_at(slots: &[Vec<Holding>], app: usize) -> usize
    ensures { result ≡ length (get_or (cells_of slots.now) app []) }
{
    if app < slots.len() {
        slots[app].len()
    } else {
        0
    }
}

/// So many grants of a unit more.
pub(crate) fn raise_at(
    slots: &mut Vec<Vec<Holding>>,
    app: usize,
    unit: usize,
    machine: usize,
    rack: usize,
    count: u32,
)
    requires unit { unit < length (get_or (cells_of slots.old.items) app []) }
    requires machine { machine < length (cell_at (cells_of slots.old.items) app unit).counts }
    requires rack { rack < length (cell_at (cells_of slots.old.items) app unit).racks }
    requires count { get_or (cell_at (cells_of slots.old.items) app unit).counts machine 0 + count < 2 ^ 32 }
    requires held { (cell_at (cells_of slots.old.items) app unit).held + count < 2 ^ 32 }
    requires in_rack { get_or (cell_at (cells_of slots.old.items) app unit).racks rack 0 + count < 2 ^ 32 }
    ensures { cells_of slots.new.items ≡ with_cell (cells_of slots.old.items) app unit (raised (cell_at (cells_of slots.old.items) app unit) machine rack count) }
{
    let units = &mut slots[app];
    let holding = &mut units[unit];
    holding.raise(machine, rack, count);
}

/// So many grants of a unit fewer.
pub(crate) fn lower_at(
    slots: &mut Vec<Vec<Holding>>,
    app: usize,
    unit: usize,
    machine: usize,
    rack: usize,
    count: u32,
)
    requires unit { unit < length (get_or (cells_of slots.old.items) app []) }
    requires machine { machine < length (cell_at (cells_of slots.old.items) app unit).counts }
    requires rack { rack < length (cell_at (cells_of slots.old.items) app unit).racks }
    requires count { count ≤ get_or (cell_at (cells_of slots.old.items) app unit).counts machine 0 }
    requires held { count ≤ (cell_at (cells_of slots.old.items) app unit).held }
    requires in_rack { count ≤ get_or (cell_at (cells_of slots.old.items) app unit).racks rack 0 }
    ensures { cells_of slots.new.items ≡ with_cell (cells_of slots.old.items) app unit (lowered (cell_at (cells_of slots.old.items) app unit) machine rack count) }
{
    let units = &mut slots[app];
    let holding = &mut units[unit];
    holding.lower(machine, rack, count);
}

/// The units of a new job, each with nothing on each of so many machines.
pub(crate) fn fresh_units(
    alloc: Global,
    job: &Job,
    machines: usize,
) -> Result<Vec<Holding>, OutOfMemory>
    requires { machines < 2 ^ 32 }
    ensures { IfOk result (λ units. cells_in units ≡ fresh_cells job.now.group machines job.now.units) }
{
    let group = job.group();
    let mut units = Vec::with_capacity(alloc, job.units() as usize)?;
    for number in 0..job.units() {
        let unit = job.unit(UnitNo(number));
        let size = unit.size;
        let most = unit.most;
        let numbers = Vec::from_elem(alloc, 0, RACKS + machines)?;
        units.push(Holding {
            size,
            group,
            most,
            held: 0,
            numbers,
        })?;
    }
    Ok(units)
}

/// Empty places up to a job number. The units of each job are as before.
pub(crate) fn reach(
    alloc: Global,
    slots: &mut Vec<Vec<Holding>>,
    app: AppNo,
) -> Result<(), OutOfMemory>
    ensures same { (a : ℕ) → get_or (cells_of slots.new.items) a [] ≡ get_or (cells_of slots.old.items) a [] }
    ensures there { OnOk result (app.0 < length slots.new.items) }
{
    for place in slots.len()..app.0 as usize + 1 {
        slots.push(Vec::new(alloc))?;
    }
    Ok(())
}
