//! A tree of one cluster, with jobs of one unit each.

ghost use Rattle.std.specs.Prelude.{◌≡◌, ◌<◌, ◌≤◌, length};
ghost use Rattle.core_golden.specs.Cases.{entry_of};

use cluster_desc::read_cluster;
use fuxi_terms::limits::{GREATEST_COUNT, MOST_JOBS};
use golden_lines::Piece::{Number, Text};
use golden_lines::{Stop, say_line};
use locality_tree::Tree;
use schedule_unit::{AppNo, Ask, Asks, GroupNo, Job, MachineNo, Quantities, RackNo, UnitNo};
use std::alloc::Global;
use std::marker::Model;
use wait_queue::Entry;

/// A tree in which each job has one unit, that of job I with turn I.
#[derive(Drop)]
pub struct Case {
    tree: Tree,
    /// How many machines there are.
    machines: u32,
    /// By job.
    priorities: Vec<u8>,
}

impl Model for Case {
    ghost use Rattle.locality_tree.specs.Trees.{TreeRecord};
    ghost use Rattle.core_golden.specs.Cases.{IsCase};

    ghost Value = { TreeRecord };

    ghost view = { λ c. c.tree };

    ghost invariant = { λ c. IsCase c.tree c.machines c.priorities.items };
}

/// The entry of a job's unit.
fn entry_of(priorities: &[u8], index: usize) -> Entry
    requires inside { index < length priorities.now }
    requires few { length priorities.now ≤ 256 }
    ensures { result ≡ entry_of priorities.now index }
{
    Entry {
        app: AppNo(index as u32),
        unit: UnitNo(0),
        priority: priorities[index],
        turn: index as u64,
    }
}

/// A job of one unit of one resource, where these are a priority and a quantity.
pub fn job_of(
    alloc: Global,
    number: usize,
    priority: u64,
    quantity: u64,
) -> Result<Option<Job>, Stop>
    requires { number < 256 }
{
    let mut quantities = Quantities::new(alloc);
    quantities.push(quantity)?;
    let mut asks = Asks::new(alloc);
    asks.push(Ask {
        priority,
        quantities,
        most: GREATEST_COUNT,
    })?;
    match Job::make(alloc, AppNo(number as u32), GroupNo(0), 1, asks.as_slice()) {
        Ok(job) => Ok(Some(job)),
        Err(_) => Ok(None),
    }
}

/// Prints the path of a machine: each unit with its level.
pub fn print_path(rt: &HostRuntime, tree: &Tree, machine: MachineNo) -> Result<(), Stop>
    requires { machine.0 < length tree.now.racks }
{
    let mut path = tree.path(machine);
    for _ in 0..u64::MAX {
        match path.next() {
            None => break,
            Some((entry, level)) => {
                let job = entry.app.0;
                say_line(
                    rt,
                    &[
                        Text("job "),
                        Number(job as u64),
                        Text(" at level "),
                        Number(level as u64),
                    ],
                )?;
            }
        }
    }
    Ok(())
}

impl Case {
    /// The tree of the cluster that the line describes, where it describes one.
    pub fn start(alloc: Global, line: &[u8]) -> Result<Option<Case>, Stop> {
        match read_cluster(alloc, line) {
            Ok(cluster) => Ok(Some(Case {
                machines: cluster.machines(),
                tree: Tree::start(alloc, &cluster)?,
                priorities: Vec::new(alloc),
            })),
            Err(_) => Ok(None),
        }
    }

    /// Admits the next job, with a unit of this priority.
    pub fn admit(&mut self, alloc: Global, priority: u64) -> Result<(), Stop> {
        let number = self.priorities.len();
        if number >= MOST_JOBS as usize || priority >= 256 {
            return Ok(());
        }
        let Some(job) = job_of(alloc, number, priority, 1)? else {
            return Ok(());
        };
        if job.app().0 as usize != number || job.units() != 1 {
            return Ok(());
        }
        self.priorities.reserve(1)?;
        self.tree.admit(alloc, &job)?;
        self.priorities.push_reserved(priority as u8);
        Ok(())
    }

    /// The unit of the job waits, or does not.
    pub fn wait(&mut self, index: usize, waits: bool) {
        if index < self.priorities.len() {
            let entry = entry_of(&self.priorities, index);
            self.tree.refresh(&entry, waits);
        }
    }

    /// The unit of the job waits, and stands on the machine or does not.
    pub fn near(&mut self, index: usize, machine: u32, unmet: bool) {
        if index < self.priorities.len() && machine < self.machines {
            let entry = entry_of(&self.priorities, index);
            self.tree.refresh(&entry, true);
            self.tree.mark_machine(&entry, MachineNo(machine), unmet);
        }
    }

    /// The unit of the job waits, and stands in the rack or does not.
    pub fn rack(&mut self, index: usize, rack: u32, unmet: bool) {
        if index < self.priorities.len() && rack < 64 {
            let entry = entry_of(&self.priorities, index);
            self.tree.refresh(&entry, true);
            self.tree.mark_rack(&entry, RackNo(rack), unmet);
        }
    }

    /// Prints the path of the machine.
    pub fn show(&self, rt: &HostRuntime, machine: u32) -> Result<(), Stop> {
        if machine >= self.machines {
            return Ok(());
        }
        print_path(rt, &self.tree, MachineNo(machine))
    }
}
