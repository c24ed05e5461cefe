//! Tables that are drawn, over which what the placer finds is compared with a plain search.

ghost use Rattle.std.specs.Prelude.{◌≡◌, ◌<◌};

use crate::trees::bench::Bench;
use crate::trees::changes::{ask, change, open, plain_of};
use crate::trees::draw::Draw;
use crate::trees::drawn::{draw_cluster, draw_jobs};
use crate::trees::plain::{Plain, first, line_up, told};
use golden_lines::Piece::{Number, Text};
use golden_lines::{Stop, say_line};
use grant_table::{Pick, Steps};
use std::alloc::Global;
use std::sync::ledger::{Blank, Ledger};

/// What was compared so far.
#[derive(Drop)]
struct Tally {
    seed: u64,
    /// How many were compared over the table of this seed.
    step: u64,
    grants: u64,
    compared: u64,
    different: u64,
}

/// Prints what was found.
pub fn tell(rt: &HostRuntime, who: &str, found: Option<Pick>) -> Result<(), Stop> {
    match found {
        Some(pick) => {
            let (job, unit, machine) = (pick.app.0, pick.unit.0, pick.machine.0);
            say_line(
                rt,
                &[
                    Text(who),
                    Text(": job "),
                    Number(job as u64),
                    Text(", unit "),
                    Number(unit as u64),
                    Text(", machine "),
                    Number(machine as u64),
                ],
            )?;
        }
        None => say_line(rt, &[Text(who), Text(": none")])?,
    }
    Ok(())
}

// One grant, if any: what the placer finds is what the plain search finds. False where none is found, or not the same.
fn compare<L: Ledger>(
    rt: &HostRuntime,
    alloc: Global,
    bench: &mut Bench,
    plain: &mut Plain,
    steps: &mut Steps<L>,
    tally: &mut Tally,
) -> Result<bool, Stop> {
    line_up(alloc, bench.table(), plain)?;
    let searched = first(bench.table(), plain, steps);
    let given = bench.place(steps);
    tally.compared = tally.compared.saturating_add(1);
    tally.step = tally.step.saturating_add(1);
    if given != searched {
        tally.different = tally.different.saturating_add(1);
        let (seed, step) = (tally.seed, tally.step);
        say_line(
            rt,
            &[
                Text("seed "),
                Number(seed as u64),
                Text(", step "),
                Number(step as u64),
            ],
        )?;
        tell(rt, "next", given)?;
        tell(rt, "search", searched)?;
        return Ok(false);
    }
    let Some(pick) = given else {
        return Ok(false);
    };
    tally.grants = tally.grants.saturating_add(1);
    told(alloc, bench.table(), plain, pick)?;
    Ok(true)
}

// So many grants, or fewer where no more is found.
fn settle<L: Ledger>(
    rt: &HostRuntime,
    alloc: Global,
    most: u32,
    bench: &mut Bench,
    plain: &mut Plain,
    steps: &mut Steps<L>,
    tally: &mut Tally,
) -> Result<(), Stop> {
    for _ in 0..most {
        if !compare(rt, alloc, bench, plain, steps, tally)? {
            break;
        }
    }
    Ok(())
}

// Opens machines, and lets the jobs ask.
fn prepare(
    alloc: Global,
    draw: &mut Draw,
    bench: &mut Bench,
    plain: &mut Plain,
) -> Result<(), Stop> {
    for number in 0..48_u32 {
        open(draw, bench, plain, number);
        ask(alloc, draw, bench, plain)?;
    }
    Ok(())
}

// Changes and grants in turn, and at the end grants until none is found.
fn run_rounds<L: Ledger>(
    rt: &HostRuntime,
    alloc: Global,
    draw: &mut Draw,
    bench: &mut Bench,
    plain: &mut Plain,
    steps: &mut Steps<L>,
    tally: &mut Tally,
) -> Result<(), Stop> {
    prepare(alloc, draw, bench, plain)?;
    let before = tally.different;
    for round in 0..40_u32 {
        let most = if round == 39 { 1000 } else { 1 + draw.below(3) };
        settle(rt, alloc, most, bench, plain, steps, tally)?;
        if tally.different != before {
            break;
        }
        if round < 39 {
            change(alloc, draw, bench, plain)?;
        }
    }
    Ok(())
}

// The table of a seed.
fn run_table<L: Ledger>(
    rt: &HostRuntime,
    alloc: Global,
    seed: u64,
    steps: &mut Steps<L>,
    tally: &mut Tally,
) -> Result<(), Stop> {
    let mut draw = Draw { state: seed };
    let resources = 1 + draw.below(2);
    let Some(cluster) = draw_cluster(alloc, &mut draw, resources)? else {
        return Err(Stop::OutOfMemory);
    };
    let jobs = draw_jobs(alloc, &mut draw, resources as u8)?;
    let mut bench = Bench::start(alloc, &cluster, &jobs)?;
    let mut plain = plain_of(alloc, jobs)?;
    tally.seed = seed;
    tally.step = 0;
    run_rounds(rt, alloc, &mut draw, &mut bench, &mut plain, steps, tally)
}

// The tables of so many seeds, and what was compared.
fn run_seeds<L: Ledger>(
    rt: &HostRuntime,
    alloc: Global,
    seeds: (u64, u64),
    steps: &mut Steps<L>,
    tally: &mut Tally,
) -> Result<(), Stop> {
    for number in 0..seeds.1 {
        run_table(rt, alloc, seeds.0.wrapping_add(number), steps, tally)?;
    }
    Ok(())
}

/// Compares over the tables of so many seeds from one on, and prints how much was compared and whether all was the same.
pub fn compare_tables<L: Ledger>(
    rt: &HostRuntime,
    alloc: Global,
    seeds: (u64, u64),
    blank: Blank,
) -> Result<(), Stop>
    requires name { blank.name ≡ L.name }
    requires parts { blank.parts ≡ L.parts }
    requires some { 0 < blank.parts }
{
    let mut steps: Steps<L> = Steps::start(blank);
    let mut tally = Tally {
        seed: 0,
        step: 0,
        grants: 0,
        compared: 0,
        different: 0,
    };
    run_seeds(rt, alloc, seeds, &mut steps, &mut tally)?;
    let (grants, compared, different) = (tally.grants, tally.compared, tally.different);
    let count = seeds.1;
    if different == 0 {
        say_line(
            rt,
            &[
                Number(count as u64),
                Text(" tables, "),
                Number(grants as u64),
                Text(" grants, "),
                Number(compared as u64),
                Text(" compared, all the same"),
            ],
        )?;
    } else {
        say_line(
            rt,
            &[
                Number(count as u64),
                Text(" tables, "),
                Number(grants as u64),
                Text(" grants, "),
                Number(compared as u64),
                Text(" compared, "),
                Number(different as u64),
                Text(" different"),
            ],
        )?;
    }
    Ok(())
}
