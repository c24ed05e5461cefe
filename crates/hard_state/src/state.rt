// The hard state itself, and what a record makes of it.
ghost use Rattle.std.specs.Prelude.{◌≡◌, ◌≢◌, ◌+◌, ◌<◌, ◌≤◌, ℕ, length, true, false, Some, None, Ok, Err, IfOk, IfErr, IfSome, IsNone, OnOk, OnErr};
ghost use Rattle.std.specs.Option.{option_map};
ghost use Rattle.fuxi_terms.specs.Jobs.{KnownJob, job_of, is_known, has_ended};
ghost use Rattle.fuxi_terms.specs.Numbers.{has_number};
ghost use Rattle.fuxi_terms.specs.Cluster.{is_valid_job};
ghost use Rattle.fuxi_terms.specs.Limits.{most_records, most_jobs, most_machines};
ghost use Rattle.spec_roles.specs.HardState.{Raise, Submission, Finishing, Banning, Unbanning, empty_hard, hard_step, hard_after, raised, submitted, finished, banned, unbanned};
ghost use Rattle.hard_state.specs.RecordBodies.{IsWithinLimits};
ghost use Rattle.hard_state.specs.HardFiles.{event_of, epoch_of, made, taken, IsAskedBy, IsAllowed, IsFound, Refuses};

use crate::fault::HardFault;
use crate::known::Known;
use crate::{Record, law, read_record};
use fuxi_terms::OutOfMemory;
use fuxi_terms::limits::MOST_RECORDS;
use schedule_unit::{AppNo, Job, MachineNo};
use std::alloc::Global;
use std::marker::Model;

// The fence, what is known of jobs and machines, and the number of records.
#[derive(Drop)]
pub struct State {
    fence: u64,
    known: Known,
    records: u32,
}

impl Model for State {
    ghost use Rattle.std.specs.Prelude.{◌≤◌};
    ghost use Rattle.fuxi_terms.specs.Limits.{most_records};
    ghost use Rattle.spec_roles.specs.HardState.{HardState};

    ghost Value = { HardState };

    ghost view = { λ s. record { jobs = s.known.jobs; bans = s.known.bans; fence = s.fence; records = s.records } };

    ghost invariant = { λ s. s.records ≤ most_records };
}

// What is found at a gate: it is closed; a damaged record; a whole one of this size in bytes; or why this is not known.
#[derive(Clone, Copy, Drop)]
pub enum Look {
    Closed,
    Damaged,
    Whole(usize),
    OutOfMemory,
}

impl State {
    // Nothing was written yet. It takes the memory for all jobs that there can be.
    pub fn nothing(alloc: Global) -> Result<State, OutOfMemory>
        ensures { IfOk result (λ state. state ≡ empty_hard) }
    {
        Ok(State {
            fence: 0,
            known: Known::nothing(alloc)?,
            records: 0,
        })
    }

    pub fn fence(&self) -> u64
        ensures { result ≡ self.now.fence }
    {
        self.fence
    }

    pub fn records(&self) -> u32
        ensures value { result ≡ self.now.records }
        ensures few { result ≤ most_records }
    {
        self.records
    }

    pub fn known(&self) -> &Known
        ensures { result.now ≡ record { jobs = self.now.jobs; bans = self.now.bans } }
    {
        &self.known
    }

    fn is_full(&self) -> bool
        ensures full { result ≡ true → most_records ≤ self.now.records }
        ensures room { result ≡ false → self.now.records < most_records }
    {
        self.records as u64 >= MOST_RECORDS
    }

    // Whether a master of this epoch may write each record, or the first refusal.
    fn may_raise(&self, epoch: u64) -> Result<(), HardFault>
        ensures ok { OnOk result (hard_step self.now epoch Raise ≡ Ok (raised self.now epoch)) }
        ensures room { OnOk result (self.now.records < most_records) }
        ensures refused { IfErr result (Refuses (hard_step self.now epoch Raise)) }
        ensures none { OnErr result (made (hard_step self.now epoch Raise) ≡ None) }
        ensures own { result ≢ Err HardFault.DiskFault }
    {
        if epoch <= self.fence {
            return Err(HardFault::Stale { fence: self.fence });
        }
        if self.is_full() {
            return Err(HardFault::Full);
        }
        Ok(())
    }

    /// Whether the job may be submitted by a master of this epoch; else the first refusal.
    pub fn may_submit(&self, epoch: u64, job: &Job) -> Result<(), HardFault>
        ensures ok { OnOk result (hard_step self.now epoch (Submission job.now) ≡ Ok (submitted self.now job.now)) }
        ensures room { OnOk result (self.now.records < most_records) }
        ensures unknown { OnOk result (is_known self.now.jobs job.now.number ≡ false) }
        ensures refused { IfErr result (Refuses (hard_step self.now epoch (Submission job.now))) }
        ensures none { OnErr result (made (hard_step self.now epoch (Submission job.now)) ≡ None) }
        ensures own { result ≢ Err HardFault.DiskFault }
    {
        if epoch < self.fence {
            return Err(HardFault::Fenced { fence: self.fence });
        }
        if self.known.job(job.app()).is_some() {
            return Err(HardFault::Known);
        }
        if self.is_full() {
            return Err(HardFault::Full);
        }
        Ok(())
    }

    fn may_finish(&self, epoch: u64, app: AppNo) -> Result<(), HardFault>
        ensures ok { OnOk result (hard_step self.now epoch (Finishing app.0) ≡ Ok (finished self.now app.0)) }
        ensures room { OnOk result (self.now.records < most_records) }
        ensures known { OnOk result (is_known self.now.jobs app.0 ≡ true) }
        ensures below { OnOk result (app.0 < most_jobs) }
        ensures refused { IfErr result (Refuses (hard_step self.now epoch (Finishing app.0))) }
        ensures none { OnErr result (made (hard_step self.now epoch (Finishing app.0)) ≡ None) }
        ensures own { result ≢ Err HardFault.DiskFault }
    {
        if epoch < self.fence {
            return Err(HardFault::Fenced { fence: self.fence });
        }
        if self.known.job(app).is_none() {
            return Err(HardFault::NoJob);
        }
        if self.known.ended(app) {
            return Err(HardFault::Ended);
        }
        if self.is_full() {
            return Err(HardFault::Full);
        }
        Ok(())
    }

    fn may_ban(&self, epoch: u64, machine: MachineNo) -> Result<(), HardFault>
        ensures ok { OnOk result (hard_step self.now epoch (Banning machine.0) ≡ Ok (banned self.now machine.0)) }
        ensures room { OnOk result (self.now.records < most_records) }
        ensures refused { IfErr result (Refuses (hard_step self.now epoch (Banning machine.0))) }
        ensures none { OnErr result (made (hard_step self.now epoch (Banning machine.0)) ≡ None) }
        ensures own { result ≢ Err HardFault.DiskFault }
    {
        if epoch < self.fence {
            return Err(HardFault::Fenced { fence: self.fence });
        }
        if self.known.banned(machine) {
            return Err(HardFault::AlreadyBanned);
        }
        if self.is_full() {
            return Err(HardFault::Full);
        }
        Ok(())
    }

    fn may_unban(&self, epoch: u64, machine: MachineNo) -> Result<(), HardFault>
        ensures ok { OnOk result (hard_step self.now epoch (Unbanning machine.0) ≡ Ok (unbanned self.now machine.0)) }
        ensures room { OnOk result (self.now.records < most_records) }
        ensures below { OnOk result (machine.0 < most_machines) }
        ensures refused { IfErr result (Refuses (hard_step self.now epoch (Unbanning machine.0))) }
        ensures none { OnErr result (made (hard_step self.now epoch (Unbanning machine.0)) ≡ None) }
        ensures own { result ≢ Err HardFault.DiskFault }
    {
        if epoch < self.fence {
            return Err(HardFault::Fenced { fence: self.fence });
        }
        if !self.known.banned(machine) {
            return Err(HardFault::NotBanned);
        }
        if self.is_full() {
            return Err(HardFault::Full);
        }
        Ok(())
    }

    // Whether a master of this epoch may write the record, or the first refusal.
    pub fn may(&self, epoch: u64, change: &Record) -> Result<(), HardFault>
        requires asked { IsAskedBy epoch change.now }
        ensures ok { OnOk result (hard_step self.now epoch (event_of change.now) ≡ Ok (hard_after self.now epoch (event_of change.now))) }
        ensures room { OnOk result (self.now.records < most_records) }
        ensures allowed { OnOk result (IsAllowed self.now change.now) }
        ensures refused { IfErr result (Refuses (hard_step self.now epoch (event_of change.now))) }
        ensures none { OnErr result (made (hard_step self.now epoch (event_of change.now)) ≡ None) }
        ensures own { result ≢ Err HardFault.DiskFault }
    {
        match change {
            Record::Fence(_) => self.may_raise(epoch),
            Record::Submission(job) => self.may_submit(epoch, job),
            Record::Finish(app) => self.may_finish(epoch, *app),
            Record::Ban(machine) => self.may_ban(epoch, *machine),
            Record::Unban(machine) => self.may_unban(epoch, *machine),
        }
    }

    // What each record makes of the state. It takes no memory.
    fn raise(&mut self, epoch: u64)
        requires { self.old.records < most_records }
        ensures { self.new ≡ raised self.old epoch }
    {
        self.fence = epoch;
        self.records += 1;
    }

    fn submit(&mut self, job: Job)
        requires room { self.old.records < most_records }
        requires valid { is_valid_job 8 job ≡ true }
        requires unknown { is_known self.old.jobs job.number ≡ false }
        ensures { self.new ≡ submitted self.old job }
    {
        self.known.add(job);
        self.records += 1;
    }

    fn finish(&mut self, app: AppNo)
        requires room { self.old.records < most_records }
        requires known { is_known self.old.jobs app.0 ≡ true }
        ensures { self.new ≡ finished self.old app.0 }
    {
        self.known.finish(app);
        self.records += 1;
    }

    fn ban(&mut self, machine: MachineNo)
        requires room { self.old.records < most_records }
        requires below { machine.0 < most_machines }
        ensures { self.new ≡ banned self.old machine.0 }
    {
        self.known.ban(machine);
        self.records += 1;
    }

    fn unban(&mut self, machine: MachineNo)
        requires room { self.old.records < most_records }
        requires below { machine.0 < most_machines }
        ensures { self.new ≡ unbanned self.old machine.0 }
    {
        self.known.unban(machine);
        self.records += 1;
    }

    // The state with a record that a master of this epoch may write. It takes no memory.
    pub fn make(&mut self, epoch: u64, change: Record)
        requires room { self.old.records < most_records }
        requires asked { IsAskedBy epoch change }
        requires allowed { IsAllowed self.old change }
        ensures { self.new ≡ hard_after self.old epoch (event_of change) }
    {
        match change {
            Record::Fence(_) => self.raise(epoch),
            Record::Submission(job) => self.submit(job),
            Record::Finish(app) => self.finish(app),
            Record::Ban(machine) => self.ban(machine),
            Record::Unban(machine) => self.unban(machine),
        }
    }

    // By whom a record of the file was written, as far as this matters.
    fn epoch_of(&self, change: &Record) -> u64
        requires within { IsWithinLimits change.now }
        ensures epoch { result ≡ epoch_of self.now change.now }
        ensures asked { IsAskedBy result change.now }
    {
        match change {
            Record::Fence(epoch) => *epoch,
            Record::Submission(_) => self.fence,
            Record::Finish(_) => self.fence,
            Record::Ban(_) => self.fence,
            Record::Unban(_) => self.fence,
        }
    }

    // Whether this is the body of a record that may stand here; then the state becomes what it makes of it.
    #[tactic(auto, unfolding(crate::specs::HardFiles::taken))]
    fn take(&mut self, alloc: Global, body: &[u8]) -> Result<bool, OutOfMemory>
        ensures taken { result ≡ Ok true → taken self.old body.now ≡ Some self.new }
        ensures refused { result ≡ Ok false → taken self.old body.now ≡ None }
        ensures more { result ≡ Ok true → self.new.records ≡ self.old.records + 1 }
        ensures few { result ≡ Ok true → self.new.records ≤ most_records }
        ensures short { result ≡ Ok true → length body.now ≤ 563 }
    {
        let found = match read_record(alloc, body) {
            Ok(found) => found,
            Err(OutOfMemory) => return Err(OutOfMemory),
        };
        let Some(change) = found else {
            return Ok(false);
        };
        law::written_is_read();
        let epoch = self.epoch_of(&change);
        match self.may(epoch, &change) {
            Ok(()) => {}
            Err(_) => return Ok(false),
        }
        self.make(epoch, change);
        Ok(true)
    }

    // Reads the record whose gate comes first in these bytes, and makes the state that it leads to.
    pub fn look(&mut self, alloc: Global, bytes: &[u8]) -> Look
        ensures found { IsFound result self.old self.new bytes.now }
        ensures within { (size : ℕ) → result ≡ Look.Whole size → size < length bytes.now }
        ensures short { (size : ℕ) → result ≡ Look.Whole size → size ≤ 568 }
        ensures more { (size : ℕ) → result ≡ Look.Whole size → self.new.records ≡ self.old.records + 1 }
        ensures few { (size : ℕ) → result ≡ Look.Whole size → self.new.records ≤ most_records }
    {
        if bytes.is_empty() || bytes[0] != 1 {
            return Look::Closed;
        }
        if bytes.len() <= 5 {
            return Look::Damaged;
        }
        let size = u32::from_be_bytes([bytes[1], bytes[2], bytes[3], bytes[4]]) as usize;
        if bytes.len() - 5 <= size {
            return Look::Damaged;
        }
        match self.take(alloc, &bytes[5..5 + size]) {
            Ok(true) => Look::Whole(5 + size),
            Ok(false) => Look::Damaged,
            Err(OutOfMemory) => Look::OutOfMemory,
        }
    }
}
