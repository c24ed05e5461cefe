//! Placing by a search over all pairs of the line and all machines.

ghost use Rattle.std.specs.Prelude.{◌<◌, ◌≤◌, length};
ghost use Rattle.fuxi_terms.specs.Jobs.{unit_count};
ghost use Rattle.grant_table.specs.GrantTables.{as_known};

use fuxi_terms::limits::MOST_RACKS;
use fuxi_terms::tally_keys::{AVOID, NEAR, RACK, WANT};
use golden_lines::Stop;
use grant_table::{GrantTable, Pick, Steps};
use ledger_law::Key;
use party_ledgers::Demand;
use res_vector::fits;
use schedule_unit::{AppNo, Job, MachineNo, UnitNo};
use std::alloc::Global;
use std::sync::ledger::Ledger;

/// What placing reads beside a table. A job's number is its place among the jobs.
pub struct Plain {
    pub jobs: Vec<Job>,
    /// By job.
    pub demands: Vec<Demand>,
    /// By machine.
    pub open: Vec<bool>,
    /// The pairs that wait, in their order.
    pub line: Vec<(AppNo, UnitNo)>,
}

impl Drop for Plain {
    fn drop(self) {
        let Plain {
            jobs,
            demands,
            open,
            line,
        } = self;
    }
}

// The four numbers of a rank: the priority below the greatest, the level, the place in the line, and the machine.
type Rank = (u8, u64, usize, u32);

// Whether this rank is below that of the least pair so far.
fn is_less(rank: &Rank, least: &Option<(Rank, Pick)>) -> bool {
    match least {
        Some((before, _)) => rank < before,
        None => true,
    }
}

// What is asked of a unit at a key of this kind.
fn asked(demands: &[Demand], app: AppNo, what: u8, unit: UnitNo, number: u32) -> u64 {
    match demands.get(app.0 as usize) {
        Some(demand) => demand.get(&Key {
            what,
            unit: unit.0,
            number,
        }),
        None => 0,
    }
}

// How many grants of a unit are wanted and not held.
fn out(table: &GrantTable, demands: &[Demand], app: AppNo, unit: UnitNo) -> u64 {
    if (unit.0 as usize) < table.units(app) {
        let held = u64::from(table.held(app, unit));
        asked(demands, app, WANT, unit, 0).saturating_sub(held)
    } else {
        0
    }
}

// The level of a unit on a machine.
fn level(table: &GrantTable, demands: &[Demand], pick: Pick) -> u64
    requires unit { pick.unit.0 < unit_count (as_known table.now.jobs) pick.app.0 }
    requires machine { pick.machine.0 < length table.now.cluster.machines }
{
    let Pick { app, unit, machine } = pick;
    let rack = table.cluster().machine(machine).rack;
    let near = asked(demands, app, NEAR, unit, machine.0);
    if near > u64::from(table.held_on(app, unit, machine)) {
        return 0;
    }
    if rack.0 >= MOST_RACKS {
        return 2;
    }
    let wanted = asked(demands, app, RACK, unit, rack.0);
    if wanted > u64::from(table.held_in_rack(app, unit, rack)) {
        1
    } else {
        2
    }
}

// Whether the limit of its group allows one more grant of a unit.
fn is_allowed(table: &GrantTable, job: &Job, unit: UnitNo) -> bool {
    let group = job.group();
    if group.0 >= table.cluster().groups() || unit.0 >= job.units() {
        return false;
    }
    let limit = table.cluster().group(group).limit;
    let size = job.unit(unit).size;
    let used = table.used_by(group);
    for resource in 0..8 {
        if used.q[resource].saturating_add(size.q[resource]) > limit.q[resource] {
            return false;
        }
    }
    true
}

// The priority of a unit, at most 9.
fn priority(job: &Job, unit: UnitNo) -> u8
    ensures { result ≤ 9 }
{
    if unit.0 < job.units() {
        job.unit(unit).priority.min(9)
    } else {
        0
    }
}

// Whether a machine is open and the unit does not avoid it.
fn may_use(plain: &Plain, pick: Pick) -> bool {
    plain.open.get(pick.machine.0 as usize) == Some(&true)
        && asked(&plain.demands, pick.app, AVOID, pick.unit, pick.machine.0) == 0
}

// Whether a machine takes one more grant of a unit, as far as its room and the unit's bound on each machine go.
fn takes<L: Ledger>(table: &GrantTable, job: &Job, pick: Pick, steps: &mut Steps<L>) -> bool
    requires unit { pick.unit.0 < unit_count (as_known table.now.jobs) pick.app.0 }
    requires machine { pick.machine.0 < length table.now.cluster.machines }
{
    if pick.unit.0 >= job.units() {
        return false;
    }
    let unit = job.unit(pick.unit);
    table.held_on(pick.app, pick.unit, pick.machine) < unit.most
        && fits(&unit.size, &table.free(pick.machine, steps))
}

// Looks at all machines for the unit at a place of the line, and keeps the placeable pair of least rank.
fn look<L: Ledger>(
    table: &GrantTable,
    plain: &Plain,
    place: usize,
    (app, unit): (AppNo, UnitNo),
    steps: &mut Steps<L>,
    least: &mut Option<(Rank, Pick)>,
) -> Option<()> {
    let job = plain.jobs.get(app.0 as usize)?;
    let waits = out(table, &plain.demands, app, unit) > 0;
    if !waits || !is_allowed(table, job, unit) || unit.0 as usize >= table.units(app) {
        return None;
    }
    for number in 0..table.cluster().machines() {
        let machine = MachineNo(number);
        let pick = Pick { app, unit, machine };
        let rank = (
            9 - priority(job, unit),
            level(table, &plain.demands, pick),
            place,
            number,
        );
        if may_use(plain, pick) && takes(table, job, pick, steps) && is_less(&rank, least) {
            *least = Some((rank, pick));
        }
    }
    Some(())
}

/// The placeable pair of least rank.
pub fn first<L: Ledger>(table: &GrantTable, plain: &Plain, steps: &mut Steps<L>) -> Option<Pick> {
    let mut least = None;
    for place in 0..plain.line.len() {
        look(table, plain, place, plain.line[place], steps, &mut least);
    }
    match least {
        Some((_, pick)) => Some(pick),
        None => None,
    }
}

// The pairs of the line that still wait.
fn keep(line: &mut Vec<(AppNo, UnitNo)>, table: &GrantTable, plain: &Plain) -> Result<(), Stop> {
    for (app, unit) in &plain.line {
        if out(table, &plain.demands, *app, *unit) > 0 {
            line.push((*app, *unit))?;
        }
    }
    Ok(())
}

// The other pairs that wait, in the order of job and unit.
fn join(line: &mut Vec<(AppNo, UnitNo)>, table: &GrantTable, plain: &Plain) -> Result<(), Stop> {
    for index in 0..64_u32 {
        let pair = (AppNo(index / 8), UnitNo((index % 8) as u8));
        if out(table, &plain.demands, pair.0, pair.1) > 0 && !line.contains(&pair) {
            line.push(pair)?;
        }
    }
    Ok(())
}

/// Brings the line up to date.
pub fn line_up(alloc: Global, table: &GrantTable, plain: &mut Plain) -> Result<(), Stop> {
    let mut line = Vec::new(alloc);
    keep(&mut line, table, plain)?;
    join(&mut line, table, plain)?;
    plain.line = line;
    Ok(())
}

/// After a grant or a taking the unit leaves the line where it has nothing out.
pub fn told(alloc: Global, table: &GrantTable, plain: &mut Plain, pick: Pick) -> Result<(), Stop> {
    if out(table, &plain.demands, pick.app, pick.unit) > 0 {
        return Ok(());
    }
    let mut line = Vec::new(alloc);
    for pair in &plain.line {
        if pair.0 != pick.app || pair.1 != pick.unit {
            line.push(*pair)?;
        }
    }
    plain.line = line;
    Ok(())
}
