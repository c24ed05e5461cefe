ghost use Rattle.std.specs.Prelude.{◌≡◌, ◌≢◌, ℕ, ◌+◌, ◌*◌, ◌^◌, ◌<◌, ◌≤◌, length, true, false, Some, None, Ok, Err, IfOk, IfErr, IfSome, IsNone, OnOk};
ghost use Rattle.std.specs.Option.{option_map};
ghost use Rattle.fuxi_io.specs.Causes.{Rose};
ghost use Rattle.fuxi_io.specs.Disks.{WhereTold};
ghost use Rattle.fuxi_terms.specs.Jobs.{job_of, is_known, has_ended};
ghost use Rattle.fuxi_terms.specs.Numbers.{has_number};
ghost use Rattle.fuxi_terms.specs.Limits.{most_machines, most_records};
ghost use Rattle.spec_roles.specs.HardState.{Raise, Submission, Finishing, Banning, Unbanning, empty_hard, hard_step};
ghost use Rattle.hard_state.specs.RecordBodies.{body_of, record_in, IsWithinLimits};
ghost use Rattle.hard_state.specs.Checkpoints.{behind_gate};
ghost use Rattle.hard_state.specs.HardFiles.{event_of, IsAskedBy, Refuses, WritesStep, Opens, OpensAs, IsDamagedAt, IsOpeningFault, Begins, SyncsAll, KeepsDamaged};
ghost use Rattle.hard_state.specs.Moments.{Moments, writing_calls};

use crate::fault::HardFault;
use crate::gate::append;
use crate::known::Known;
use crate::opening::{begin, read, settle};
use crate::state::State;
use crate::{Record, law, write_record};
use fuxi_io::{Disk, Failed};
use fuxi_terms::OutOfMemory;
use schedule_unit::{AppNo, Job, MachineNo};
use std::alloc::Global;
use std::marker::Model;

/// The hard state: what was written before it was answered, so that every later master finds it. These are the jobs in the order
/// of their submission with the mark whether they have ended, the machines that are banned, and the fence, which is the greatest
/// epoch that ever started.
///
/// It is kept in a checkpoint on a disk, a file of records that grows at its end: the gate byte 1, the length of the body (4 bytes,
/// the greatest first) and the body for each record, and a closed gate behind the last one. All calls are to be given the same
/// disk, which nobody else writes.
///
/// Each writing call makes exactly four calls of the disk where it answers Ok: write, sync, write, sync. At each moment a crash
/// leaves a file that stands for the state before the call or after it, and once the call answered Ok, for the state after it.
/// After `DiskFault` the state is as before, and the checkpoint has to be opened again; after any other error the file is as
/// before too.
pub struct Hard {
    alloc: Global,
    state: State,
    gate: u64,
    broken: bool,
}

// Written out, so that who lets one go checks this call and not all of its parts.
impl Drop for Hard {
    fn drop(self) {
        let Hard {
            alloc,
            state,
            gate,
            broken,
        } = self;
    }
}

impl Model for Hard {
    ghost use Rattle.std.specs.Prelude.{◌*◌, ◌≤◌};
    ghost use Rattle.fuxi_terms.specs.Limits.{most_records};
    ghost use Rattle.hard_state.specs.HardFiles.{Kept};

    ghost Value = { Kept };

    ghost view = { λ h. record { value = h.state; gate = h.gate; broken = h.broken } };

    ghost invariant = { λ h. (h.gate ≤ 568 * h.state.records) × (h.state.records ≤ most_records) };
}

// What is written behind a gate: the length of the body, the body, and a closed gate.
fn encode(alloc: Global, change: &Record) -> Result<Vec<u8>, OutOfMemory>
    requires within { IsWithinLimits change.now }
    ensures bytes { IfOk result (λ bytes. bytes.items ≡ behind_gate (body_of change.now)) }
    ensures short { IfOk result (λ bytes. length bytes.items ≤ 568) }
    ensures body { length (body_of change.now) ≤ 563 }
    ensures back { record_in (body_of change.now) ≡ Some change.now }
{
    law::written_is_read();
    let mut body = Vec::new(alloc);
    write_record(change, &mut body)?;
    let mut bytes = Vec::new(alloc);
    bytes.extend_from_slice(&(body.len() as u32).to_be_bytes())?;
    bytes.extend_from_slice(&body)?;
    bytes.push(0)?;
    Ok(bytes)
}

impl Hard {
    /// What the checkpoint stands for. It begins with a sync, so nothing is pending when it reads; where the file has no damaged
    /// record, at each moment from then on a crash leaves a file that stands for the same state. A file of at most one byte
    /// stands for a state in which nothing was written yet, and gets its closed gate.
    ///
    /// `NotCheckpoint` tells the offset of the first damaged record: the length of its body runs past the end of the file or no
    /// byte follows the body, the body is that of no record, or the record is one that no master could have written there.
    /// Such a file is synced at most, whatever is answered. It takes memory for a piece of the file and for what it stands for.
    /// `DiskFault` comes where the disk failed, and only there, and `OutOfMemory` where memory was refused.
    pub fn open<D: Disk>(alloc: Global, disk: &mut D) -> Result<Hard, HardFault>
        ensures opened { IfOk result (λ hard. WhereTold (OpensAs hard) (D.told disk.old) (D.told disk.new)) }
        ensures damaged { (offset : ℕ) → result ≡ Err (HardFault.NotCheckpoint offset) → WhereTold (IsDamagedAt offset) (D.told disk.old) (D.told disk.new) }
        ensures faults { IfErr result IsOpeningFault }
        ensures sound { IfOk result (λ hard. hard.broken ≡ false) }
        ensures long { IfOk result (λ hard. hard.gate < D.size disk.new) }
        ensures later { D.faults disk.old ≤ D.faults disk.new }
        ensures cause { result ≡ Err HardFault.DiskFault → Rose (D.faults disk.old) (D.faults disk.new) }
        ensures served { result ≢ Err HardFault.DiskFault → D.faults disk.new ≡ D.faults disk.old }
        ensures told { WhereTold Opens (D.told disk.old) (D.told disk.new) }
        ensures keeps { KeepsDamaged (D.told disk.old) (D.told disk.new) }
        ensures untouched { (offset : ℕ) → result ≡ Err (HardFault.NotCheckpoint offset) → WhereTold SyncsAll (D.told disk.old) (D.told disk.new) }
    {
        let len = match settle(disk) {
            Ok(len) => len,
            Err(Failed) => return Err(HardFault::DiskFault),
        };
        if len <= 1 {
            return Hard::begin(alloc, disk);
        }
        match read(alloc, disk, len) {
            Ok((state, gate)) => Ok(Hard {
                alloc,
                state,
                gate,
                broken: false,
            }),
            Err(fault) => Err(fault),
        }
    }

    // A checkpoint of a file of at most one byte, which gets its closed gate.
    fn begin<D: Disk>(alloc: Global, disk: &mut D) -> Result<Hard, HardFault>
        ensures told { WhereTold (Begins result) (D.told disk.old) (D.told disk.new) }
        ensures empty { IfOk result (λ hard. hard ≡ record { value = empty_hard; gate = 0; broken = false }) }
        ensures faults { IfErr result IsOpeningFault }
        ensures own { (offset : ℕ) → result ≢ Err (HardFault.NotCheckpoint offset) }
        ensures long { OnOk result (0 < D.size disk.new) }
        ensures later { D.faults disk.old ≤ D.faults disk.new }
        ensures cause { result ≡ Err HardFault.DiskFault → Rose (D.faults disk.old) (D.faults disk.new) }
        ensures served { result ≢ Err HardFault.DiskFault → D.faults disk.new ≡ D.faults disk.old }
    {
        let state = match State::nothing(alloc) {
            Ok(state) => state,
            Err(OutOfMemory) => return Err(HardFault::OutOfMemory),
        };
        match begin(disk) {
            Ok(()) => Ok(Hard {
                alloc,
                state,
                gate: 0,
                broken: false,
            }),
            Err(Failed) => Err(HardFault::DiskFault),
        }
    }

    // Writes a record that a master of this epoch asks for, and makes the state that it leads to.
    fn write<D: Disk>(&mut self, disk: &mut D, epoch: u64, change: Record) -> Result<(), HardFault>
        requires asked { IsAskedBy epoch change }
        requires sound { self.old.broken ≡ false }
        requires long { self.old.gate < D.size disk.old }
        ensures ok { OnOk result ((hard_step self.old.value epoch (event_of change) ≡ Ok self.new.value) × (self.new.broken ≡ false)) }
        ensures refused { IfErr result (Refuses (hard_step self.old.value epoch (event_of change))) }
        ensures unchanged { IfErr result (λ fault. fault ≢ HardFault.DiskFault → (self.new ≡ self.old) × (disk.new ≡ disk.old)) }
        ensures broken { result ≡ Err HardFault.DiskFault → self.new ≡ record self.old { broken = true } }
        ensures told { WhereTold (WritesStep (hard_step self.old.value epoch (event_of change)) self.old self.new result) (D.told disk.old) (D.told disk.new) }
        ensures moments { WhereTold (Moments (writing_calls self.old.gate epoch (event_of change)) result) (D.told disk.old) (D.told disk.new) }
        ensures long { OnOk result (self.new.gate < D.size disk.new) }
        ensures later { D.faults disk.old ≤ D.faults disk.new }
        ensures cause { result ≡ Err HardFault.DiskFault → Rose (D.faults disk.old) (D.faults disk.new) }
        ensures served { result ≢ Err HardFault.DiskFault → D.faults disk.new ≡ D.faults disk.old }
    {
        match self.state.may(epoch, &change) {
            Ok(()) => {}
            Err(fault) => return Err(fault),
        }
        let bytes = match encode(self.alloc, &change) {
            Ok(bytes) => bytes,
            Err(OutOfMemory) => return Err(HardFault::OutOfMemory),
        };
        match append(disk, self.gate, &bytes) {
            Ok(()) => {
                self.state.make(epoch, change);
                self.gate += bytes.len() as u64;
                Ok(())
            }
            Err(Failed) => {
                self.broken = true;
                Err(HardFault::DiskFault)
            }
        }
    }

    /// Raises the fence to the epoch. `Stale` comes where the fence is at least the epoch, and then `Full`.
    pub fn raise<D: Disk>(&mut self, disk: &mut D, epoch: u64) -> Result<(), HardFault>
        requires sound { self.old.broken ≡ false }
        requires long { self.old.gate < D.size disk.old }
        ensures ok { OnOk result ((hard_step self.old.value epoch Raise ≡ Ok self.new.value) × (self.new.broken ≡ false)) }
        ensures refused { IfErr result (Refuses (hard_step self.old.value epoch Raise)) }
        ensures unchanged { IfErr result (λ fault. fault ≢ HardFault.DiskFault → (self.new ≡ self.old) × (disk.new ≡ disk.old)) }
        ensures broken { result ≡ Err HardFault.DiskFault → self.new ≡ record self.old { broken = true } }
        ensures told { WhereTold (WritesStep (hard_step self.old.value epoch Raise) self.old self.new result) (D.told disk.old) (D.told disk.new) }
        ensures moments { WhereTold (Moments (writing_calls self.old.gate epoch Raise) result) (D.told disk.old) (D.told disk.new) }
        ensures long { OnOk result (self.new.gate < D.size disk.new) }
        ensures later { D.faults disk.old ≤ D.faults disk.new }
        ensures cause { result ≡ Err HardFault.DiskFault → Rose (D.faults disk.old) (D.faults disk.new) }
        ensures served { result ≢ Err HardFault.DiskFault → D.faults disk.new ≡ D.faults disk.old }
    {
        self.write(disk, epoch, Record::Fence(epoch))
    }

    /// Adds the job, for a master of this epoch. `Fenced` comes where the fence is above the epoch, then `Known` where a job of
    /// its number was submitted, and then `Full`.
    pub fn submit<D: Disk>(&mut self, disk: &mut D, epoch: u64, job: &Job) -> Result<(), HardFault>
        requires sound { self.old.broken ≡ false }
        requires long { self.old.gate < D.size disk.old }
        ensures ok { OnOk result ((hard_step self.old.value epoch (Submission job.now) ≡ Ok self.new.value) × (self.new.broken ≡ false)) }
        ensures refused { IfErr result (Refuses (hard_step self.old.value epoch (Submission job.now))) }
        ensures unchanged { IfErr result (λ fault. fault ≢ HardFault.DiskFault → (self.new ≡ self.old) × (disk.new ≡ disk.old)) }
        ensures broken { result ≡ Err HardFault.DiskFault → self.new ≡ record self.old { broken = true } }
        ensures told { WhereTold (WritesStep (hard_step self.old.value epoch (Submission job.now)) self.old self.new result) (D.told disk.old) (D.told disk.new) }
        ensures moments { WhereTold (Moments (writing_calls self.old.gate epoch (Submission job.now)) result) (D.told disk.old) (D.told disk.new) }
        ensures long { OnOk result (self.new.gate < D.size disk.new) }
        ensures later { D.faults disk.old ≤ D.faults disk.new }
        ensures cause { result ≡ Err HardFault.DiskFault → Rose (D.faults disk.old) (D.faults disk.new) }
        ensures served { result ≢ Err HardFault.DiskFault → D.faults disk.new ≡ D.faults disk.old }
    {
        job.app();
        match self.state.may_submit(epoch, job) {
            Ok(()) => {}
            Err(fault) => return Err(fault),
        }
        let copy = match job.copy(self.alloc) {
            Ok(copy) => copy,
            Err(OutOfMemory) => return Err(HardFault::OutOfMemory),
        };
        self.write(disk, epoch, Record::Submission(copy))
    }

    /// Ends the job, for a master of this epoch. `Fenced` comes where the fence is above the epoch, then `NoJob` where no job of
    /// this number was submitted, then `Ended`, and then `Full`.
    pub fn finish<D: Disk>(&mut self, disk: &mut D, epoch: u64, app: AppNo) -> Result<(), HardFault>
        requires sound { self.old.broken ≡ false }
        requires long { self.old.gate < D.size disk.old }
        ensures ok { OnOk result ((hard_step self.old.value epoch (Finishing app.0) ≡ Ok self.new.value) × (self.new.broken ≡ false)) }
        ensures refused { IfErr result (Refuses (hard_step self.old.value epoch (Finishing app.0))) }
        ensures unchanged { IfErr result (λ fault. fault ≢ HardFault.DiskFault → (self.new ≡ self.old) × (disk.new ≡ disk.old)) }
        ensures broken { result ≡ Err HardFault.DiskFault → self.new ≡ record self.old { broken = true } }
        ensures told { WhereTold (WritesStep (hard_step self.old.value epoch (Finishing app.0)) self.old self.new result) (D.told disk.old) (D.told disk.new) }
        ensures moments { WhereTold (Moments (writing_calls self.old.gate epoch (Finishing app.0)) result) (D.told disk.old) (D.told disk.new) }
        ensures long { OnOk result (self.new.gate < D.size disk.new) }
        ensures later { D.faults disk.old ≤ D.faults disk.new }
        ensures cause { result ≡ Err HardFault.DiskFault → Rose (D.faults disk.old) (D.faults disk.new) }
        ensures served { result ≢ Err HardFault.DiskFault → D.faults disk.new ≡ D.faults disk.old }
    {
        self.write(disk, epoch, Record::Finish(app))
    }

    /// Bans the machine, for a master of this epoch. `Fenced` comes where the fence is above the epoch, then `AlreadyBanned`, and
    /// then `Full`.
    pub fn ban<D: Disk>(
        &mut self,
        disk: &mut D,
        epoch: u64,
        machine: MachineNo,
    ) -> Result<(), HardFault>
        requires machine { machine.0 < most_machines }
        requires sound { self.old.broken ≡ false }
        requires long { self.old.gate < D.size disk.old }
        ensures ok { OnOk result ((hard_step self.old.value epoch (Banning machine.0) ≡ Ok self.new.value) × (self.new.broken ≡ false)) }
        ensures refused { IfErr result (Refuses (hard_step self.old.value epoch (Banning machine.0))) }
        ensures unchanged { IfErr result (λ fault. fault ≢ HardFault.DiskFault → (self.new ≡ self.old) × (disk.new ≡ disk.old)) }
        ensures broken { result ≡ Err HardFault.DiskFault → self.new ≡ record self.old { broken = true } }
        ensures told { WhereTold (WritesStep (hard_step self.old.value epoch (Banning machine.0)) self.old self.new result) (D.told disk.old) (D.told disk.new) }
        ensures moments { WhereTold (Moments (writing_calls self.old.gate epoch (Banning machine.0)) result) (D.told disk.old) (D.told disk.new) }
        ensures long { OnOk result (self.new.gate < D.size disk.new) }
        ensures later { D.faults disk.old ≤ D.faults disk.new }
        ensures cause { result ≡ Err HardFault.DiskFault → Rose (D.faults disk.old) (D.faults disk.new) }
        ensures served { result ≢ Err HardFault.DiskFault → D.faults disk.new ≡ D.faults disk.old }
    {
        self.write(disk, epoch, Record::Ban(machine))
    }

    /// Lifts the ban of the machine, for a master of this epoch. `Fenced` comes where the fence is above the epoch, then
    /// `NotBanned`, and then `Full`.
    pub fn unban<D: Disk>(
        &mut self,
        disk: &mut D,
        epoch: u64,
        machine: MachineNo,
    ) -> Result<(), HardFault>
        requires sound { self.old.broken ≡ false }
        requires long { self.old.gate < D.size disk.old }
        ensures ok { OnOk result ((hard_step self.old.value epoch (Unbanning machine.0) ≡ Ok self.new.value) × (self.new.broken ≡ false)) }
        ensures refused { IfErr result (Refuses (hard_step self.old.value epoch (Unbanning machine.0))) }
        ensures unchanged { IfErr result (λ fault. fault ≢ HardFault.DiskFault → (self.new ≡ self.old) × (disk.new ≡ disk.old)) }
        ensures broken { result ≡ Err HardFault.DiskFault → self.new ≡ record self.old { broken = true } }
        ensures told { WhereTold (WritesStep (hard_step self.old.value epoch (Unbanning machine.0)) self.old self.new result) (D.told disk.old) (D.told disk.new) }
        ensures moments { WhereTold (Moments (writing_calls self.old.gate epoch (Unbanning machine.0)) result) (D.told disk.old) (D.told disk.new) }
        ensures long { OnOk result (self.new.gate < D.size disk.new) }
        ensures later { D.faults disk.old ≤ D.faults disk.new }
        ensures cause { result ≡ Err HardFault.DiskFault → Rose (D.faults disk.old) (D.faults disk.new) }
        ensures served { result ≢ Err HardFault.DiskFault → D.faults disk.new ≡ D.faults disk.old }
    {
        self.write(disk, epoch, Record::Unban(machine))
    }

    /// The greatest epoch that ever started; 0 before the first.
    pub fn fence(&self) -> u64
        ensures { result ≡ self.now.value.fence }
    {
        self.state.fence()
    }

    /// The job of this number, or `None` where none was submitted.
    pub fn job(&self, app: AppNo) -> Option<&Job>
        ensures some { IfSome result (λ job. option_map (λ known. known.job) (job_of self.now.value.jobs app.0) ≡ Some job.now) }
        ensures none { IsNone result → is_known self.now.value.jobs app.0 ≡ false }
    {
        self.state.known().job(app)
    }

    /// Whether a job of this number was submitted and has ended.
    pub fn ended(&self, app: AppNo) -> bool
        ensures { result ≡ has_ended self.now.value.jobs app.0 }
    {
        self.state.known().ended(app)
    }

    /// Whether the machine is banned.
    pub fn banned(&self, machine: MachineNo) -> bool
        ensures { result ≡ has_number machine.0 self.now.value.bans }
    {
        self.state.known().banned(machine)
    }

    /// The jobs and the bans.
    pub fn known(&self) -> &Known
        ensures { result.now ≡ record { jobs = self.now.value.jobs; bans = self.now.value.bans } }
    {
        self.state.known()
    }

    /// How many records the checkpoint has, at most 65,536.
    pub fn records(&self) -> u32
        ensures value { result ≡ self.now.value.records }
        ensures few { result ≤ most_records }
    {
        self.state.records()
    }

    /// Whether a writing call answered `DiskFault`. Then the checkpoint has to be opened again.
    pub fn broken(&self) -> bool
        ensures { result ≡ self.now.broken }
    {
        self.broken
    }
}

impl Known {
    /// What the hard state has of jobs and bans. Where memory is refused there is no copy of it.
    pub fn of(alloc: Global, hard: &Hard) -> Result<Known, OutOfMemory>
        ensures { IfOk result (λ known. known ≡ record { jobs = hard.now.value.jobs; bans = hard.now.value.bans }) }
    {
        hard.known().copy(alloc)
    }
}
