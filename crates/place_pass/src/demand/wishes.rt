//! What the admitted units are and what is asked of them, by job number and unit, and the machines that are open.

ghost use Rattle.std.specs.Prelude.{◌≡◌, ℕ, ◌+◌, ◌*◌, ◌<◌, ◌≤◌, ◌&&◌, true, false, [], length, min, set, IfOk, vec_capacity};
ghost use Rattle.std.proofs.Common.{get_or};
ghost use Rattle.fuxi_terms.specs.Limits.{most_jobs};
ghost use Rattle.place_pass.specs.Cells.{asks_in, cell_of, cells_in, cells_of, all_cells, cell_at, no_cell, fresh_cells, taken, taken_all, any_more};
ghost use Rattle.fuxi_terms.specs.Vectors.{fits};

use super::changes::write_changes;
use super::reading::{number_at, take_one};
use cluster_desc::Cluster;
use fuxi_terms::limits::{MOST_JOBS, MOST_RACKS, MOST_UNITS};
use fuxi_terms::tally_keys::AVOID;
use fuxi_terms::{Key, OutOfMemory};
use locality_tree::PlaceSet;
use party_ledgers::Demand;
use res_vector::{Res, fits};
use schedule_unit::{AppNo, GroupNo, Job, MachineNo, UnitNo};
use std::alloc::Global;
use std::marker::Model;

/// A place for each unit that may be admitted.
pub(crate) const UNIT_PLACES: usize = MOST_JOBS as usize * MOST_UNITS;

/// A place for each rack.
pub(crate) const RACKS: usize = MOST_RACKS as usize;

/// Where the number of a unit stands among 8 places for each job.
pub(crate) fn slot(app: AppNo, unit: UnitNo) -> usize
    requires app { app.0 < most_jobs }
    requires unit { unit.0 < 8 }
    ensures { result ≡ app.0 * 8 + unit.0 }
{
    app.0 as usize * 8 + unit.0 as usize
}

/// A unit, and what is asked of it.
#[derive(Drop)]
pub(crate) struct Wish {
    pub(crate) priority: u8,
    pub(crate) size: Res,
    /// The greatest number of its grants on one machine.
    pub(crate) most: u32,
    pub(crate) group: GroupNo,
    pub(crate) want: u32,
    /// How many grants are wanted, by machine.
    pub(crate) near: Vec<u32>,
    /// How many grants are wanted, by rack.
    pub(crate) racks: [u32; RACKS],
    /// The machines that are avoided.
    pub(crate) avoided: PlaceSet,
}

// Most of it is what is wanted by rack; what is wanted by machine stands beside it.
const _: () = prove!(size_of::<Wish>() == 416);

/// The admitted units with what is asked of them, and the open machines.
#[derive(Drop)]
pub(crate) struct Wishes {
    pub(crate) cluster: Cluster,
    /// By job number, with no unit where no such job is admitted. There is room for all numbers, and a place for each up to the
    /// greatest that was admitted.
    slots: Vec<Vec<Wish>>,
    /// By machine.
    opened: Vec<bool>,
    /// Of each resource, what no admitted unit needs less of.
    least: Res,
}

impl Model for Wishes {
    ghost use Rattle.std.specs.Prelude.{◌≤◌, vec_capacity};
    ghost use Rattle.fuxi_terms.specs.Limits.{most_jobs};
    ghost use Rattle.place_pass.specs.Cells.{WishesRecord, wishes_record, AreWishes, AreAbove, all_cells};

    ghost Value = { WishesRecord };

    ghost view = { λ w. wishes_record w.cluster w.slots.items w.opened.items };

    ghost invariant = { λ w. AreWishes w.cluster (all_cells w.slots.items) w.opened.items × AreAbove w.least.q (all_cells w.slots.items) × (most_jobs ≤ vec_capacity w.slots) };
}

impl Wishes {
    ghost use Rattle.std.specs.Prelude.{◌≡◌, ℕ, ◌<◌, ◌≤◌, ◌&&◌, nat_lt, true, false, [], length, set, replicate, IfOk};
    ghost use Rattle.std.proofs.Common.{get_or};
    ghost use Rattle.fuxi_terms.specs.Limits.{most_jobs};
    ghost use Rattle.fuxi_terms.specs.TallyKeys.{avoid_key};
    ghost use Rattle.fuxi_terms.specs.Vectors.{fits};
    ghost use Rattle.place_pass.specs.Cells.{WishesRecord, AreWishes, Lifts, AvoidsStill, asks_in, cell_of, cell_at, cells_in, fresh_cells, taken, taken_all, any_more};
    ghost use Rattle.place_pass.specs.Placers.{is_open_to};
    ghost use Rattle.place_pass.specs.DemandScopes.{AsksSameBut};

    /// No unit, and no open machine.
    pub(crate) fn start(alloc: Global, cluster: &Cluster) -> Result<Wishes, OutOfMemory>
        ensures { IfOk result (λ wishes. wishes ≡ record { cluster = cluster.now; cells = replicate most_jobs []; opened = replicate (length cluster.now.machines) false }) }
    {
        let machines = cluster.machines() as usize;
        Ok(Wishes {
            cluster: cluster.copy(alloc)?,
            slots: Vec::with_capacity(alloc, MOST_JOBS as usize)?,
            opened: Vec::from_elem(alloc, false, machines)?,
            least: Res { q: [u64::MAX; 8] },
        })
    }

    /// Says that what is asked is of admitted units, machines and racks of the cluster.
    pub(crate) fn are_sound(&self)
        ensures { AreWishes self.now.cluster self.now.cells self.now.opened }
    {
        let _ = &self.cluster;
    }

    /// The cluster.
    pub(crate) fn cluster(&self) -> &Cluster
        ensures cluster { result.now ≡ self.now.cluster }
        ensures sound { AreWishes self.now.cluster self.now.cells self.now.opened }
    {
        &self.cluster
    }

    /// A job more, of whose units nothing is asked.
    pub(crate) fn add_job(&mut self, alloc: Global, job: &Job, units: Vec<Wish>)
        requires { cells_in units ≡ fresh_cells job.now.group (length self.old.cluster.machines) job.now.units }
        ensures { self.new ≡ record self.old { cells = set self.old.cells job.now.number (fresh_cells job.now.group (length self.old.cluster.machines) job.now.units) } }
    {
        let app = job.app();
        self.least = least_of(&self.least, &units);
        reach(alloc, &mut self.slots, app);
        self.slots[app.0 as usize] = units;
    }

    /// The demand of a job is now this one, which asks the same as before of all units but those that may differ. True where one
    /// of its units wants more, or no longer avoids a machine.
    pub(crate) fn asked(&mut self, app: AppNo, demand: &Demand, differing: &[bool; 8]) -> bool
        requires here { 0 < length (get_or self.old.cells app.0 []) }
        requires same { (u : ℕ) → u < length (get_or self.old.cells app.0 []) → get_or differing.now u true ≡ false → taken self.old.cluster demand.now.entries u (cell_at self.old.cells app.0 u) ≡ cell_at self.old.cells app.0 u }
        ensures cells { self.new ≡ record self.old { cells = set self.old.cells app.0 (taken_all self.old.cluster demand.now.entries 0 (get_or self.old.cells app.0 [])) } }
        ensures more { result ≡ any_more self.old.cluster demand.now.entries (get_or self.old.cells app.0 []) (length (get_or self.old.cells app.0 [])) }
    {
        let counts = demand.entries();
        let units = &mut self.slots[app.0 as usize];
        take_over(units, &self.cluster, demand, differing)
    }

    /// The same, of a demand that asks otherwise than before only at keys that these changes name.
    pub(crate) fn asked_at(&mut self, app: AppNo, demand: &Demand, changes: &[(Key, i64)]) -> bool
        requires here { 0 < length (get_or self.old.cells app.0 []) }
        requires same { AsksSameBut changes.now self.old.cluster demand.now.entries (get_or self.old.cells app.0 []) }
        ensures cells { self.new ≡ record self.old { cells = set self.old.cells app.0 (taken_all self.old.cluster demand.now.entries 0 (get_or self.old.cells app.0 [])) } }
        ensures more { result ≡ any_more self.old.cluster demand.now.entries (get_or self.old.cells app.0 []) (length (get_or self.old.cells app.0 [])) }
    {
        let counts = demand.entries();
        let units = &mut self.slots[app.0 as usize];
        write_changes(units, &self.cluster, demand, changes)
    }

    /// The machine is open, or not.
    pub(crate) fn open(&mut self, machine: MachineNo, usable: bool)
        requires { machine.0 < length self.old.cluster.machines }
        ensures { self.new ≡ record self.old { opened = set self.old.opened machine.0 usable } }
    {
        self.opened[machine.0 as usize] = usable;
    }

    /// Whether the machine is open. False where the cluster does not have it.
    pub(crate) fn is_open(&self, machine: MachineNo) -> bool
        ensures { result ≡ get_or self.now.opened machine.0 false }
    {
        let number = machine.0 as usize;
        number < self.opened.len() && self.opened[number]
    }

    /// Whether so little is free that no admitted unit fits.
    pub(crate) fn none_fits(&self, free: &Res) -> bool
        ensures { result ≡ true → (a u : ℕ) → u < length (get_or self.now.cells a []) → fits (cell_at self.now.cells a u).unit.size free.now.q ≡ false }
    {
        !fits(&self.least, free)
    }

    /// How many units of the job are admitted, at most 8.
    pub(crate) fn units(&self, app: AppNo) -> usize
        ensures number { result ≡ length (get_or self.now.cells app.0 []) }
        ensures few { result ≤ 8 }
    {
        let number = app.0 as usize;
        if number < self.slots.len() {
            self.slots[number].len()
        } else {
            0
        }
    }

    /// Whether an admitted unit avoids the machine.
    pub(crate) fn avoids(&self, app: AppNo, unit: UnitNo, machine: MachineNo) -> bool
        requires { unit.0 < length (get_or self.now.cells app.0 []) }
        ensures { result ≡ nat_lt 0 (asks_in self.now.cells app.0 (avoid_key unit.0 machine.0)) }
    {
        if machine.0 >= self.cluster().machines() {
            return false;
        }
        self.wish(app, unit).avoided.contains(machine.0 as usize)
    }

    /// Whether there is such a unit and machine, the machine is open, and the unit does not avoid it.
    pub(crate) fn may_use(&self, app: AppNo, unit: UnitNo, machine: MachineNo) -> bool
        ensures { result ≡ (nat_lt unit.0 (length (get_or self.now.cells app.0 [])) && is_open_to self.now.cells self.now.opened app.0 unit.0 machine.0) }
    {
        if unit.0 as usize >= self.units(app) {
            return false;
        }
        if !self.is_open(machine) {
            return false;
        }
        !self.avoids(app, unit, machine)
    }

    // Whether a unit of the job that may differ avoids a machine.
    fn avoids_any(&self, app: AppNo, differing: &[bool; 8]) -> bool
        ensures { result ≡ false → (u m : ℕ) → u < length (get_or self.now.cells app.0 []) → get_or differing.now u true ≡ true → get_or (cell_at self.now.cells app.0 u).avoided m 0 ≡ 0 }
    {
        let machines = self.cluster().machines() as usize;
        for number in 0..self.units(app) as u8 {
            if !may_differ(differing, number) {
                continue;
            }
            if self.wish(app, UnitNo(number)).avoided.next(0) < machines {
                return true;
            }
        }
        false
    }

    /// Whether by this demand a unit of the job no longer avoids this machine, which it avoided. It asks the same as before of
    /// all units but those that may differ.
    pub(crate) fn lifts(
        &self,
        app: AppNo,
        demand: &Demand,
        differing: &[bool; 8],
        machine: MachineNo,
    ) -> bool
        requires machine { machine.0 < length self.now.cluster.machines }
        requires same { (u : ℕ) → u < length (get_or self.now.cells app.0 []) → get_or differing.now u true ≡ false → taken self.now.cluster demand.now.entries u (cell_at self.now.cells app.0 u) ≡ cell_at self.now.cells app.0 u }
        ensures some { result ≡ true → Lifts demand.now.entries (get_or self.now.cells app.0 []) machine.0 }
        ensures none { result ≡ false → AvoidsStill demand.now.entries (get_or self.now.cells app.0 []) machine.0 }
    {
        for number in 0..self.units(app) as u8 {
            if !may_differ(differing, number) {
                continue;
            }
            if !self.avoids(app, UnitNo(number), machine) {
                continue;
            }
            if number_at(demand, AVOID, number, machine.0) == 0 {
                return true;
            }
        }
        false
    }

    /// Whether by this demand a unit of the job no longer avoids a machine that it avoided. It asks the same as before of all
    /// units but those that may differ.
    pub(crate) fn lifts_any(&self, app: AppNo, demand: &Demand, differing: &[bool; 8]) -> bool
        requires { (u : ℕ) → u < length (get_or self.now.cells app.0 []) → get_or differing.now u true ≡ false → taken self.now.cluster demand.now.entries u (cell_at self.now.cells app.0 u) ≡ cell_at self.now.cells app.0 u }
        ensures { result ≡ false → (m : ℕ) → m < length self.now.cluster.machines → AvoidsStill demand.now.entries (get_or self.now.cells app.0 []) m }
    {
        if !self.avoids_any(app, differing) {
            return false;
        }
        for number in 0..self.cluster().machines() {
            if self.lifts(app, demand, differing, MachineNo(number)) {
                return true;
            }
        }
        false
    }

    /// An admitted unit.
    pub(crate) fn wish(&self, app: AppNo, unit: UnitNo) -> &Wish
        requires { unit.0 < length (get_or self.now.cells app.0 []) }
        ensures cell { cell_of result.now ≡ cell_at self.now.cells app.0 unit.0 }
        ensures sound { AreWishes self.now.cluster self.now.cells self.now.opened }
    {
        wish_at(&self.slots, app.0 as usize, unit.0 as usize)
    }
}

// Whether a unit may be asked otherwise.
fn may_differ(differing: &[bool; 8], unit: u8) -> bool
    ensures { result ≡ get_or differing.now unit true }
{
    let number = unit as usize;
    if number >= 8 {
        return true;
    }
    differing[number]
}

// The lesser of each resource.
fn lesser(a: &Res, b: &Res) -> Res
    ensures { (i : ℕ) → get_or result.q i 0 ≡ min (get_or a.now.q i 0) (get_or b.now.q i 0) }
{
    let mut q = a.q;
    for i in 0..8 {
        q[i] = a.q[i].min(b.q[i]);
    }
    Res { q }
}

// What no unit needs less of: neither those of which this was known, nor these.
fn least_of(least: &Res, units: &Vec<Wish>) -> Res
    ensures known { fits result.q least.now.q ≡ true }
    ensures above { (u : ℕ) → u < length (cells_in units.now) → fits result.q (get_or (cells_in units.now) u no_cell).unit.size ≡ true }
{
    let mut lower = *least;
    for number in 0..units.len() {
        lower = lesser(&lower, &units[number].size);
    }
    lower
}

// A unit by job number and unit.
fn wish_at(slots: &[Vec<Wish>], app: usize, unit: usize) -> &Wish
    requires { unit < length (get_or (cells_of slots.now) app []) }
    ensures { cell_of result.now ≡ cell_at (cells_of slots.now) app unit }
{
    let units = &slots[app];
    &units[unit]
}

/// The units of a new job, of which nothing is asked.
pub(crate) fn fresh_units(alloc: Global, job: &Job, machines: u32) -> Result<Vec<Wish>, OutOfMemory>
    ensures { IfOk result (λ units. cells_in units ≡ fresh_cells job.now.group machines job.now.units) }
{
    let group = job.group();
    let mut units = Vec::with_capacity(alloc, job.units() as usize)?;
    for number in 0..job.units() {
        let unit = job.unit(UnitNo(number));
        let priority = unit.priority;
        let size = unit.size;
        let most = unit.most;
        let near = Vec::from_elem(alloc, 0, machines as usize)?;
        units.push(Wish {
            priority,
            size,
            most,
            group,
            want: 0,
            near,
            racks: [0; RACKS],
            avoided: PlaceSet::new(),
        })?;
    }
    Ok(units)
}

// Places with no unit, up to a job number. There is room for all numbers, so it takes no memory.
fn reach(alloc: Global, slots: &mut Vec<Vec<Wish>>, app: AppNo)
    requires number { app.0 < most_jobs }
    requires room { most_jobs ≤ vec_capacity slots.old }
    ensures same { all_cells slots.new.items ≡ all_cells slots.old.items }
    ensures there { app.0 < length slots.new.items }
    ensures room { most_jobs ≤ vec_capacity slots.new }
{
    for place in slots.len()..app.0 as usize + 1 {
        match slots.push(Vec::new(alloc)) {
            Ok(()) => {}
            Err(_) => unreachable!(),
        }
    }
}

// Each unit of a job that may differ takes its part of the demand. True where one wants more, or no longer avoids a machine.
fn take_over(
    units: &mut Vec<Wish>,
    cluster: &Cluster,
    demand: &Demand,
    differing: &[bool; 8],
) -> bool
    requires few { length units.old.items ≤ 8 }
    requires near { (u : ℕ) → u < length units.old.items → length (get_or (cells_in units.old) u no_cell).near ≡ length cluster.now.machines }
    requires same { (u : ℕ) → u < length units.old.items → get_or differing.now u true ≡ false → taken cluster.now demand.now.entries u (get_or (cells_in units.old) u no_cell) ≡ get_or (cells_in units.old) u no_cell }
    ensures cells { cells_in units.new ≡ taken_all cluster.now demand.now.entries 0 (cells_in units.old) }
    ensures more { result ≡ any_more cluster.now demand.now.entries (cells_in units.old) (length units.old.items) }
{
    let mut more = false;
    for number in 0..units.len() {
        if !differing[number] {
            continue;
        }
        let wish = &mut units[number];
        let one = take_one(wish, number as u8, cluster, demand);
        more |= one;
    }
    more
}
