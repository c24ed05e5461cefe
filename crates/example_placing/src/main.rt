//! Placing with no world around it: how a program of your own stands on the table of grants and its placer. The first line describes the
//! cluster, each line behind it submits a job: its priority, what one grant of it takes of each resource, and how many grants it
//! wants. The program prints the grants as they are made.
#![tactic(auto)]

ghost use Rattle.std.specs.Prelude.{◌≡◌, ◌<◌, IfSome, None, OnOk, Some};
ghost use Rattle.std.specs.Option.{option_map};
ghost use Rattle.spec_roles.specs.Placing.{first_in};
ghost use Rattle.place_pass.specs.Best.{spot_of};
ghost use Rattle.place_pass.specs.Placers.{IsLevelWith, IsUpToDate, board_with};

use cluster_desc::{Cluster, read_cluster};
use fuxi_terms::limits::{GREATEST_COUNT, MOST_JOBS};
use fuxi_terms::tally_keys::WANT;
use golden_lines::Piece::{Number, Text};
use golden_lines::{Stop, numbers_of, say_line};
use grant_table::{GrantTable, Pick, Steps};
use ledger_law::{Change, Key, Ledger as Entries};
use party_ledgers::Demand;
use place_pass::{Placer, law};
use schedule_unit::{AppNo, Ask, Asks, GroupNo, Job, MachineNo, Quantities};
use std::alloc::Global;
use std::io::{BufRead, BufReader};
use std::marker::{Brand, Model};
use std::process::ExitCode;
use std::sync::ledger::{Blank, Ledger};

// So many units begin to wait in one placer.
const MOST_TURNS: u64 = 1 << 62;

/// A table of grants, and a placer that hears of each change of it.
struct Scheduler {
    table: GrantTable,
    placer: Placer,
}

impl Drop for Scheduler {
    fn drop(self) {
        let Scheduler { table, placer } = self;
    }
}

impl Model for Scheduler {
    ghost use Rattle.grant_table.specs.GrantTables.{TableRecord};
    ghost use Rattle.place_pass.specs.Placers.{IsLevelWith};

    ghost Value = { TableRecord };

    ghost view = { λ s. s.table };

    ghost invariant = { λ s. IsLevelWith s.placer s.table };
}

// Finds the next grant, makes it and tells the placer. It is the first of all that may be made.
fn grant_next<L: Ledger>(
    table: &mut GrantTable,
    placer: &mut Placer,
    steps: &mut Steps<L>,
) -> Option<Pick>
    requires level { IsLevelWith placer.old table.old }
    requires up { IsUpToDate placer.old.seen table.old }
    ensures level { IsLevelWith placer.new table.new }
    ensures first { option_map spot_of result ≡ first_in (board_with placer.old.seen table.old) table.old.entries placer.old.seen.line }
{
    law::levels();
    let pick = placer.next(table, steps)?;
    table.is_sound();
    table.grant(pick.app, pick.unit, pick.machine);
    placer.changed(table, pick.app, pick.unit, pick.machine);
    Some(pick)
}

// The table and the placer know a job that neither knew.
fn admit(alloc: Global, table: &mut GrantTable, placer: &mut Placer, job: &Job) -> Result<(), Stop>
    requires { IsLevelWith placer.old table.old }
    ensures { OnOk result (IsLevelWith placer.new table.new) }
{
    law::levels();
    if table.units(job.app()) > 0 {
        return Ok(());
    }
    table.admit(alloc, job)?;
    placer.admit(alloc, job)?;
    Ok(())
}

impl Scheduler {
    /// Nothing is granted, and no job is known.
    fn start(alloc: Global, cluster: &Cluster) -> Result<Scheduler, Stop> {
        let table = GrantTable::start(alloc, cluster)?;
        let placer = Placer::start(alloc, cluster)?;
        Ok(Scheduler { table, placer })
    }

    /// Every machine may be granted from now on.
    fn open_all(&mut self) {
        law::levels();
        for number in 0..self.table.cluster().machines() {
            self.open(MachineNo(number));
        }
    }

    // The machine may be granted from now on.
    fn open(&mut self, machine: MachineNo) {
        law::levels();
        if machine.0 < self.table.cluster().machines() {
            self.placer.open(machine, true);
        }
    }

    /// A job is known from now on. Where memory is refused nobody schedules any more.
    fn submit(self, alloc: Global, job: &Job) -> Result<Scheduler, Stop> {
        let Scheduler { table, placer } = self;
        let (mut table, mut placer) = (table, placer);
        admit(alloc, &mut table, &mut placer, job)?;
        Ok(Scheduler { table, placer })
    }

    /// What a job asks for is now this.
    fn ask(&mut self, app: AppNo, demand: &Demand) {
        law::levels();
        if self.table.units(app) > 0 {
            self.placer.asked(&self.table, app, demand);
        }
    }

    /// Brings the line of those that wait up to date, and makes the first grant that can be made, where there is one.
    fn place<L: Ledger>(&mut self, steps: &mut Steps<L>) -> Option<Pick> {
        law::levels();
        let Scheduler { table, placer } = self;
        if placer.turns() >= MOST_TURNS {
            return None;
        }
        placer.line_up(table);
        grant_next(table, placer, steps)
    }
}

// The demand of a job whose unit wants this many grants, wherever they are.
fn demand_of(alloc: Global, want: u64) -> Result<Demand, Stop> {
    let mut demand = Demand::empty(alloc);
    let want = want.min(GREATEST_COUNT);
    if want == 0 {
        return Ok(demand);
    }
    let mut change = Change::new(alloc, demand.head());
    let key = Key {
        what: WANT,
        unit: 0,
        number: 0,
    };
    change.put(key, want as i64)?;
    match demand.apply(alloc, &change) {
        Ok(()) => Ok(demand),
        Err(_) => Err(Stop::OutOfMemory),
    }
}

// The job of a line, and how many grants it wants; `None` where the words are those of no job.
fn job_of(
    alloc: Global,
    number: u32,
    resources: u8,
    line: &str,
) -> Result<Option<(Job, u64)>, Stop> {
    let numbers = numbers_of(alloc, line)?;
    let last = resources as usize + 1;
    if numbers.len() != last + 1 || number >= MOST_JOBS || !(1..=8).contains(&resources) {
        return Ok(None);
    }
    let mut quantities = Quantities::new(alloc);
    for quantity in &numbers[1..last] {
        quantities.push(*quantity)?;
    }
    let mut asks = Asks::new(alloc);
    asks.push(Ask {
        priority: numbers[0],
        quantities,
        most: GREATEST_COUNT,
    })?;
    match Job::make(alloc, AppNo(number), GroupNo(0), resources, asks.as_slice()) {
        Ok(job) => Ok(Some((job, numbers[last]))),
        Err(_) => Ok(None),
    }
}

// Makes every grant that can be made, and prints each.
fn place_all<L: Ledger>(
    rt: &HostRuntime,
    scheduler: &mut Scheduler,
    steps: &mut Steps<L>,
) -> Result<(), Stop> {
    for _ in 0..u64::MAX {
        let Some(pick) = scheduler.place(steps) else {
            break;
        };
        let (job, machine) = (pick.app.0, pick.machine.0);
        say_line(
            rt,
            &[
                Text("job "),
                Number(job as u64),
                Text(" gets a grant on machine "),
                Number(machine as u64),
            ],
        )?;
    }
    Ok(())
}

// Submits the job of a line, and grants what can be granted then.
fn take_line<L: Ledger>(
    rt: &HostRuntime,
    alloc: Global,
    scheduler: Scheduler,
    number: u32,
    resources: u8,
    line: &str,
    steps: &mut Steps<L>,
) -> Result<Scheduler, Stop> {
    let Some((job, want)) = job_of(alloc, number, resources, line)? else {
        say_line(rt, &[Text("no job")])?;
        return Ok(scheduler);
    };
    let mut scheduler = scheduler.submit(alloc, &job)?;
    scheduler.ask(job.app(), &demand_of(alloc, want)?);
    place_all(rt, &mut scheduler, steps)?;
    Ok(scheduler)
}

fn run_over<L: Ledger>(rt: &HostRuntime, blank: Blank) -> Result<(), Stop>
    requires name { blank.name ≡ L.name }
    requires parts { blank.parts ≡ L.parts }
    requires some { 0 < blank.parts }
{
    let alloc = rt.alloc();
    let mut steps: Steps<L> = Steps::start(blank);
    let mut lines = BufReader::new(alloc, rt.reader())?.lines(alloc);
    let Some(first) = lines.next() else {
        return Ok(());
    };
    let Ok(cluster) = read_cluster(alloc, first?.as_bytes()) else {
        say_line(rt, &[Text("no cluster")])?;
        return Ok(());
    };
    let mut scheduler = Scheduler::start(alloc, &cluster)?;
    scheduler.open_all();
    let mut number = 0;
    for line in lines {
        scheduler = take_line(
            rt,
            alloc,
            scheduler,
            number,
            cluster.resources(),
            &line?,
            &mut steps,
        )?;
        number = number.saturating_add(1);
    }
    Ok(())
}

fn run(rt: &HostRuntime) -> Result<(), Stop> {
    run_over::<Brand>(rt, Blank::new(1))?;
    Ok(())
}

fn main(rt: HostRuntime) -> ExitCode {
    match run(&rt) {
        Ok(()) => ExitCode::SUCCESS,
        Err(Stop::OutOfMemory) => ExitCode::from(7),
        Err(Stop::Io(_)) => ExitCode::from(4),
    }
}
