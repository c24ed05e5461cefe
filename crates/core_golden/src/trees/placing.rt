//! A table with its placer, line by line.

ghost use Rattle.std.specs.Prelude.{◌≡◌, ◌<◌};

use crate::trees::bench::Bench;
use crate::trees::case::job_of;
use crate::trees::changes::{ask_at, no_demands};
use crate::trees::tables::tell;
use cluster_desc::read_cluster;
use fuxi_terms::limits::{GREATEST_COUNT, MOST_JOBS};
use fuxi_terms::tally_keys::{AVOID, NEAR, RACK, WANT};
use golden_lines::{Stop, head_of, number_of};
use grant_table::{Pick, Steps};
use ledger_law::Key;
use party_ledgers::Demand;
use schedule_unit::{AppNo, Job, MachineNo, UnitNo};
use std::alloc::Global;
use std::sync::ledger::{Blank, Ledger};

/// A table with its placer, and what each job asks for. Each job has one unit, and all machines are open.
pub struct Placing {
    bench: Bench,
    /// By job.
    demands: Vec<Demand>,
}

impl Drop for Placing {
    fn drop(self) {
        let Placing { bench, demands } = self;
    }
}

// The jobs of these words: of each the priority and the quantity of its unit, with `/` between them.
fn jobs_of(alloc: Global, words: &str) -> Result<Vec<Job>, Stop> {
    let mut jobs = Vec::new(alloc);
    for unit in words.split(" / ") {
        let (priority, quantity) = head_of(unit);
        let number = jobs.len();
        if number >= MOST_JOBS as usize {
            break;
        }
        if let Some(job) = job_of(alloc, number, number_of(priority), number_of(quantity))? {
            jobs.push(job)?;
        }
    }
    Ok(jobs)
}

// Opens so many machines.
fn open_all(bench: &mut Bench, machines: u32) {
    for number in 0..machines {
        bench.open(MachineNo(number), true);
    }
}

// The kind of a key of a demand.
fn kind_of(word: &str) -> u8 {
    match word {
        "near" => NEAR,
        "rack" => RACK,
        "avoid" => AVOID,
        _ => WANT,
    }
}

impl Placing {
    /// A table of the jobs and the cluster of a line, ` in ` between them, where it describes a cluster.
    pub fn start(alloc: Global, line: &str) -> Result<Option<Placing>, Stop> {
        let (words, cluster) = line.split_once(" in ").unwrap_or(("", line));
        let Ok(cluster) = read_cluster(alloc, cluster.as_bytes()) else {
            return Ok(None);
        };
        let jobs = jobs_of(alloc, words)?;
        let mut bench = Bench::start(alloc, &cluster, &jobs)?;
        open_all(&mut bench, cluster.machines());
        let demands = no_demands(alloc, jobs.len())?;
        Ok(Some(Placing { bench, demands }))
    }

    /// A job asks for so many, by words: the kind of what it asks for, the number of the machine or rack, and how many.
    pub fn ask(&mut self, alloc: Global, app: u32, rest: &str) -> Result<(), Stop> {
        let (kind, rest) = head_of(rest);
        let (number, count) = head_of(rest);
        let key = Key {
            what: kind_of(kind),
            unit: 0,
            number: number_of(number).min(255) as u32,
        };
        let count = number_of(count).min(GREATEST_COUNT) as u32;
        ask_at(alloc, &mut self.bench, &mut self.demands, app, (key, count))
    }

    /// Makes the grant that the placer finds, and prints it.
    pub fn place<L: Ledger>(&mut self, rt: &HostRuntime, blank: Blank) -> Result<(), Stop>
        requires name { blank.name ≡ L.name }
        requires parts { blank.parts ≡ L.parts }
        requires some { 0 < blank.parts }
    {
        let mut steps: Steps<L> = Steps::start(blank);
        let found = self.bench.place(&mut steps);
        tell(rt, "next", found)
    }

    /// Takes a grant of a job on a machine, where it has one.
    pub fn take(&mut self, app: u32, machine: u32) {
        let pick = Pick {
            app: AppNo(app),
            unit: UnitNo(0),
            machine: MachineNo(machine),
        };
        let _count = self.bench.take(pick, 1);
    }

    /// Prints the path of a machine.
    pub fn walk(&mut self, rt: &HostRuntime, machine: u32) -> Result<(), Stop> {
        self.bench.walk(rt, MachineNo(machine))
    }
}
