//! Changes between grants, as they are drawn.

use crate::trees::bench::Bench;
use crate::trees::draw::Draw;
use crate::trees::plain::{Plain, told};
use fuxi_terms::limits::GREATEST_COUNT;
use fuxi_terms::tally_keys::{AVOID, NEAR, RACK, WANT};
use golden_lines::Stop;
use grant_table::Pick;
use ledger_law::{Change, Key, Ledger};
use party_ledgers::Demand;
use schedule_unit::{AppNo, Job, MachineNo, UnitNo};
use std::alloc::Global;

/// The demands of so many jobs, which ask for nothing.
pub fn no_demands(alloc: Global, jobs: usize) -> Result<Vec<Demand>, Stop> {
    let mut demands = Vec::new(alloc);
    for _ in 0..jobs {
        demands.push(Demand::empty(alloc))?;
    }
    Ok(demands)
}

/// These jobs, of which nothing is asked, and no open machine.
pub fn plain_of(alloc: Global, jobs: Vec<Job>) -> Result<Plain, Stop> {
    let demands = no_demands(alloc, jobs.len())?;
    Ok(Plain {
        jobs,
        demands,
        open: Vec::from_elem(alloc, false, 9)?,
        line: Vec::new(alloc),
    })
}

// Sets one number of a demand.
fn set_number(alloc: Global, demand: &mut Demand, key: Key, number: u32) -> Result<(), Stop> {
    let before = demand.get(&key).min(GREATEST_COUNT) as i64;
    let by = i64::from(number) - before;
    if by == 0 {
        return Ok(());
    }
    let mut change = Change::new(alloc, demand.head());
    change.put(key, by)?;
    match demand.apply(alloc, &change) {
        Ok(()) => Ok(()),
        Err(_) => Err(Stop::OutOfMemory),
    }
}

// A number that a demand may have, with its key.
fn draw_number(draw: &mut Draw) -> (Key, u32) {
    let unit = draw.below(4) as u8;
    let (what, number, asked) = match draw.below(8) {
        0..=2 => (WANT, 0, draw.below(24)),
        3 => (NEAR, draw.below(9), draw.below(4)),
        4 | 5 => (RACK, draw.below(3), draw.below(6)),
        6 => (NEAR, draw.below(9), 0),
        _ => (AVOID, draw.below(9), draw.below(2)),
    };
    (Key { what, unit, number }, asked)
}

/// A job asks for another number at a key, where there is such a job.
pub fn ask_at(
    alloc: Global,
    bench: &mut Bench,
    demands: &mut [Demand],
    app: u32,
    (key, number): (Key, u32),
) -> Result<(), Stop> {
    if let Some(demand) = demands.get_mut(app as usize) {
        set_number(alloc, demand, key, number)?;
        bench.ask(AppNo(app), demand);
    }
    Ok(())
}

/// A job asks for another number at a key, both as they are drawn.
pub fn ask(
    alloc: Global,
    draw: &mut Draw,
    bench: &mut Bench,
    plain: &mut Plain,
) -> Result<(), Stop> {
    let app = draw.below(6);
    let drawn = draw_number(draw);
    ask_at(alloc, bench, &mut plain.demands, app, drawn)
}

/// A machine is opened, three times of four, or closed.
pub fn open(draw: &mut Draw, bench: &mut Bench, plain: &mut Plain, machine: u32) {
    let usable = draw.below(4) > 0;
    if let Some(open) = plain.open.get_mut(machine as usize) {
        *open = usable;
        bench.open(MachineNo(machine), usable);
    }
}

// Takes one or two grants of the first of some drawn places that has any.
fn take(alloc: Global, draw: &mut Draw, bench: &mut Bench, plain: &mut Plain) -> Result<(), Stop> {
    for _ in 0..12_u32 {
        let pick = Pick {
            app: AppNo(draw.below(6)),
            unit: UnitNo(draw.below(4) as u8),
            machine: MachineNo(draw.below(9)),
        };
        if bench.take(pick, 1 + draw.below(2)) > 0 {
            return told(alloc, bench.table(), plain, pick);
        }
    }
    Ok(())
}

/// One to three changes.
pub fn change(
    alloc: Global,
    draw: &mut Draw,
    bench: &mut Bench,
    plain: &mut Plain,
) -> Result<(), Stop> {
    for _ in 0..1 + draw.below(3) {
        match draw.below(8) {
            0..=3 => take(alloc, draw, bench, plain)?,
            4 => {
                let machine = draw.below(9);
                open(draw, bench, plain, machine);
            }
            _ => ask(alloc, draw, bench, plain)?,
        }
    }
    Ok(())
}
