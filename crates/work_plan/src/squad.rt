//! The workers of one unit.

ghost use Rattle.std.specs.Prelude.{◌≡◌, ◌≢◌, ◌-◌, ◌+◌, ◌<◌, ◌≤◌, ◌++◌, ℕ, Bool, false, [], length, map, filter, take, get_or, vec_capacity, IfOk, min};
ghost use Rattle.fuxi_terms.specs.Numbers.{has_number};
ghost use Rattle.fuxi_terms.specs.declared.Key.{Key};
ghost use Rattle.work_plan.specs.PlanKeys.{most_workers};
ghost use Rattle.work_plan.specs.RunAfter.{missing};
ghost use Rattle.std.specs.List.{AllByRecursion};
ghost use Rattle.work_plan.specs.Crews.{IsSquad, Settled, Starts, workers_of, AreNumbers, Distinct, Marks, numbers_of};

use crate::plan::MOST_WORKERS;
use fuxi_terms::OutOfMemory;
use ledger_law::Key;
use slot_pool::{Pool, Slot};
use std::alloc::Global;
use std::marker::Model;

/// A worker that runs, by its number, and the slot that it keeps while it does.
#[derive(Clone, Copy, Debug, PartialEq, Eq)]
pub struct Member {
    /// Its number, below 256.
    pub worker: u32,
    /// The slot that it keeps while it runs.
    pub slot: Slot,
}

/// The workers of one unit that run, in the order of their start. There is room for all that there can be.
pub(crate) struct Squad {
    /// In each slot the number of the worker that has it.
    pool: Pool<u32>,
    members: Vec<Member>,
}

impl Drop for Squad {
    fn drop(self) {
        let Squad { pool, members } = self;
    }
}

impl Model for Squad {
    ghost use Rattle.std.specs.Prelude.{List, ◌≤◌, vec_capacity};
    ghost use Rattle.work_plan.specs.declared.squad.Member.{Member};
    ghost use Rattle.work_plan.specs.Crews.{IsSquad};
    ghost use Rattle.work_plan.specs.PlanKeys.{most_workers};

    ghost Value = { List Member };

    ghost view = { λ s. s.members.items };

    ghost invariant = { λ s. IsSquad s.pool s.members.items × (most_workers ≤ vec_capacity s.members) };
}

impl Squad {
    /// Nobody runs.
    pub(crate) fn empty(alloc: Global) -> Result<Squad, OutOfMemory>
        ensures { IfOk result (λ squad. squad ≡ []) }
    {
        let pool = Pool::with_room(alloc, MOST_WORKERS)?;
        let mut members = Vec::new(alloc);
        members.reserve(MOST_WORKERS)?;
        Ok(Squad { pool, members })
    }

    /// The workers that run.
    pub(crate) fn members(&self) -> &[Member]
        ensures members { result.now ≡ self.now }
        ensures few { length result.now ≤ most_workers }
        ensures distinct { Distinct (workers_of self.now) }
        ensures within { AllByRecursion (λ n. n < most_workers) (workers_of self.now) }
    {
        &self.members
    }

    /// Of the workers that run those stay that these entries name, the first ones, as many as the number says; then named
    /// ones start, the first of them first. It takes no memory.
    pub(crate) fn settle(&mut self, wanted: &[(Key, u64)], most: usize)
        requires { AreNumbers wanted.now }
        ensures { Settled self.old self.new (numbers_of wanted.now) most }
    {
        let marks = marks_of(wanted);
        stop_unwanted(&mut self.pool, &mut self.members, &marks, most);
        start_missing(&mut self.pool, &mut self.members, wanted, most);
    }
}

// Which numbers the entries have.
fn marks_of(entries: &[(Key, u64)]) -> [bool; 256]
    requires { AreNumbers entries.now }
    ensures { Marks result (numbers_of entries.now) }
{
    let mut marks = [false; 256];
    for (key, _) in entries {
        marks[key.number as usize] = true;
    }
    marks
}

/// Which numbers the members have.
pub(crate) fn taken_of(members: &[Member]) -> [bool; 256]
    requires { AllByRecursion (λ n. n < most_workers) (workers_of members.now) }
    ensures { Marks result (workers_of members.now) }
{
    let mut marks = [false; 256];
    for member in members {
        marks[member.worker as usize] = true;
    }
    marks
}

// Those that are not wanted stop, and of the others those behind the first ones.
fn stop_unwanted(pool: &mut Pool<u32>, members: &mut Vec<Member>, wanted: &[bool; 256], most: usize)
    requires { IsSquad pool.old members.old.items }
    ensures squad { IsSquad pool.new members.new.items }
    ensures stay { members.new.items ≡ take most (filter (λ m. get_or wanted.now m.worker false) members.old.items) }
    ensures capacity { vec_capacity members.new ≡ vec_capacity members.old }
{
    let mut kept = 0;
    for index in 0..members.len() {
        let member = members[index];
        if kept < most && wanted[member.worker as usize] {
            members[kept] = member;
            kept += 1;
            continue;
        }
        pool.take(member.slot);
    }
    members.truncate(kept);
}

// Those start that are wanted and do not run, as long as there are fewer than the number says.
fn start_missing(
    pool: &mut Pool<u32>,
    members: &mut Vec<Member>,
    wanted: &[(Key, u64)],
    most: usize,
)
    requires squad { IsSquad pool.old members.old.items }
    requires rise { AreNumbers wanted.now }
    requires capacity { most_workers ≤ vec_capacity members.old }
    ensures squad { IsSquad pool.new members.new.items }
    ensures starts { Starts members.old.items members.new.items (take (most - length members.old.items) (missing (workers_of members.old.items) (numbers_of wanted.now))) }
    ensures capacity { vec_capacity members.new ≡ vec_capacity members.old }
{
    let taken = taken_of(members);
    for (key, _) in wanted {
        if members.len() >= most {
            continue;
        }
        if taken[key.number as usize] {
            continue;
        }
        let slot = pool.put(key.number);
        members.push_reserved(Member {
            worker: key.number,
            slot,
        });
    }
}
