//! Jobs and bans, looked up by number.

ghost use Rattle.std.specs.Prelude.{ℕ, ◌≡◌, ◌≤◌, ◌<◌, [], length, map, true, false, Some, None, IfOk, IfSome, IsNone, OnOk, OnErr, slice_get, vec_capacity, T};
ghost use Rattle.std.specs.List.{AllByRecursion};
ghost use Rattle.std.specs.Ordering.{nat_cmp};
ghost use Rattle.std.specs.FinMap.Entries.{is_sorted};
ghost use Rattle.std.specs.Option.{option_map};
ghost use Rattle.fuxi_terms.specs.Cluster.{is_valid_job};
ghost use Rattle.fuxi_terms.specs.Jobs.{job_of, is_known, has_ended};
ghost use Rattle.fuxi_terms.specs.Limits.{most_jobs, most_machines};
ghost use Rattle.fuxi_terms.specs.Numbers.{has_number, with_number, without_number};
ghost use Rattle.spec_roles.specs.HardState.{with_job, with_ended};
ghost use Rattle.hard_state.specs.HardFiles.{known_job};

use crate::bans::NumberSet;
use crate::jobs::{Entry, add, copies, end, find};
use fuxi_terms::OutOfMemory;
use fuxi_terms::limits::MOST_JOBS;
use schedule_unit::{AppNo, Job, MachineNo};
use std::alloc::Global;
use std::marker::Model;

/// Jobs with the mark whether they have ended, and the machines that are banned: what the hard state has of them, and what a
/// master knows. Seen as the list of the jobs in the order of their submission, and the rising list of the machines. A job and
/// a ban are found by number, with no walk. There is room for a job of each number.
pub struct Known {
    jobs: Vec<Entry>,
    /// On the heap, so that who hands this on does not hand on a place for each job.
    places: Vec<u16>,
    bans: NumberSet,
}

// Written out, so that who lets one go checks this call and not all of its parts.
impl Drop for Known {
    fn drop(self) {
        let Known { jobs, places, bans } = self;
    }
}

impl Model for Known {
    ghost use Rattle.std.specs.Prelude.{◌≤◌, map, vec_capacity};
    ghost use Rattle.hard_state.specs.HardFiles.{known_job};
    ghost use Rattle.hard_state.specs.Index.{IsIndex};
    ghost use Rattle.hard_state.specs.Knowledge.{Knowledge};

    ghost Value = { Knowledge };

    ghost view = { λ k. record { jobs = map known_job k.jobs.items; bans = k.bans } };

    ghost invariant = { λ k. IsIndex k.places.items (map known_job k.jobs.items) × (256 ≤ vec_capacity k.jobs) };
}

impl Known {
    /// Nothing. It takes the memory for all jobs that there can be. Where that is refused it is not made.
    pub fn nothing(alloc: Global) -> Result<Known, OutOfMemory>
        ensures { IfOk result (λ known. known ≡ record { jobs = []; bans = [] }) }
    {
        let jobs = Vec::with_capacity(alloc, MOST_JOBS as usize)?;
        let places = Vec::from_elem(alloc, 0, MOST_JOBS as usize)?;
        Ok(Known {
            jobs,
            places,
            bans: NumberSet::none(),
        })
    }

    /// The same once more. Where memory is refused there is no copy.
    pub fn copy(&self, alloc: Global) -> Result<Known, OutOfMemory>
        ensures { IfOk result (λ copy. copy ≡ self.now) }
    {
        let jobs = copies(alloc, &self.jobs)?;
        let places = Vec::from_slice(alloc, &self.places)?;
        Ok(Known {
            jobs,
            places,
            bans: self.bans.copy(),
        })
    }

    /// One job more, which is not known. After `OutOfMemory` all is as before.
    pub fn admit(&mut self, alloc: Global, job: &Job) -> Result<(), OutOfMemory>
        requires unknown { is_known self.old.jobs job.now.number ≡ false }
        ensures ok { OnOk result (self.new ≡ record self.old { jobs = with_job job.now self.old.jobs }) }
        ensures err { OnErr result (self.new ≡ self.old) }
    {
        job.app();
        let copy = job.copy(alloc)?;
        self.add(copy);
        Ok(())
    }

    // The same with a job that is handed over. It takes no memory.
    pub(crate) fn add(&mut self, job: Job)
        requires valid { is_valid_job 8 job ≡ true }
        requires unknown { is_known self.old.jobs job.number ≡ false }
        ensures { self.new ≡ record self.old { jobs = with_job job self.old.jobs } }
    {
        add(&mut self.jobs, &mut self.places, job);
    }

    /// The job, which is known, has ended. It takes no memory.
    pub fn finish(&mut self, app: AppNo)
        requires known { is_known self.old.jobs app.0 ≡ true }
        ensures { self.new ≡ record self.old { jobs = with_ended app.0 self.old.jobs } }
    {
        end(&mut self.jobs, &self.places, app.0);
    }

    /// The machine, at most 255, is banned. It takes no memory.
    pub fn ban(&mut self, machine: MachineNo)
        requires machine { machine.0 < most_machines }
        ensures { self.new ≡ record self.old { bans = with_number machine.0 self.old.bans } }
    {
        self.bans.insert(machine.0);
    }

    /// The machine, at most 255, is not banned. It takes no memory.
    pub fn unban(&mut self, machine: MachineNo)
        requires machine { machine.0 < most_machines }
        ensures { self.new ≡ record self.old { bans = without_number machine.0 self.old.bans } }
    {
        self.bans.remove(machine.0);
    }

    /// The job of this number, or `None` where none is known.
    pub fn job(&self, app: AppNo) -> Option<&Job>
        ensures some { IfSome result (λ job. option_map (λ known. known.job) (job_of self.now.jobs app.0) ≡ Some job.now) }
        ensures none { IsNone result → is_known self.now.jobs app.0 ≡ false }
        ensures below { IfSome result (λ job. app.0 < most_jobs) }
    {
        match find(&self.jobs, &self.places, app.0) {
            Some(entry) => Some(&entry.job),
            None => None,
        }
    }

    /// Whether a job of this number is known and has ended.
    pub fn ended(&self, app: AppNo) -> bool
        ensures { result ≡ has_ended self.now.jobs app.0 }
    {
        match find(&self.jobs, &self.places, app.0) {
            Some(entry) => entry.ended,
            None => false,
        }
    }

    /// Whether the machine is banned.
    pub fn banned(&self, machine: MachineNo) -> bool
        ensures banned { result ≡ has_number machine.0 self.now.bans }
        ensures below { result ≡ true → machine.0 < most_machines }
    {
        self.bans.has(machine.0)
    }

    /// How many jobs are known, at most 256. Each has a number up to 255.
    pub fn jobs(&self) -> usize
        ensures number { result ≡ length self.now.jobs }
        ensures few { result ≤ most_jobs }
        ensures numbers { (a : ℕ) → is_known self.now.jobs a ≡ true → a < most_jobs }
    {
        self.jobs.len()
    }

    /// The machines that are banned rise, and each is at most 255.
    pub fn bans_rise(&self)
        ensures rise { T (is_sorted {X = ℕ} nat_cmp (map (λ (n : ℕ). (n, 0)) self.now.bans)) }
        ensures low { AllByRecursion (λ n. n < most_machines) self.now.bans }
    {
        self.bans.rising();
    }

    /// A job in the order of submission. No other has its number.
    pub fn at(&self, index: usize) -> &Job
        requires { index < length self.now.jobs }
        ensures at { option_map (λ known. known.job) (slice_get self.now.jobs index) ≡ Some result.now }
        ensures found { job_of self.now.jobs result.now.number ≡ slice_get self.now.jobs index }
    {
        &self.jobs[index].job
    }
}
