//! The writing calls.

ghost use Rattle.std.specs.Prelude.{◌≡◌, ◌≢◌, ◌<◌, length, false, OnOk, IfErr};

use fuxi_io::MemDisk;
use golden_lines::asks_of;
use hard_state::{Hard, HardFault};
use schedule_unit::{AppNo, GroupNo, Job, JobFault, MachineNo};
use std::alloc::Global;

/// A writing call with its arguments, the epoch first.
#[derive(Clone, Copy)]
pub enum Call<'a> {
    Raise(u64),
    Submit(u64, &'a Job),
    Finish(u64, AppNo),
    Ban(u64, u8),
    Unban(u64, MachineNo),
}

/// The call that a word names, other than that of a job.
pub fn call_of<'a>(word: &str, epoch: u64, number: u64) -> Option<Call<'a>> {
    let small = number.min(u32::MAX as u64) as u32;
    match word {
        "raise" => Some(Call::Raise(epoch)),
        "finish" => Some(Call::Finish(epoch, AppNo(small))),
        "ban" => Some(Call::Ban(epoch, small.min(255) as u8)),
        "unban" => Some(Call::Unban(epoch, MachineNo(small))),
        _ => None,
    }
}

/// A job of these units, which `/` parts, each with its priority and eight quantities, and behind the word `most` its greatest
/// number per machine.
pub fn job_of(alloc: Global, app: u64, group: u64, units: &str) -> Result<Job, JobFault> {
    let app = AppNo(app.min(255) as u32);
    let group = GroupNo(group.min(31) as u32);
    match asks_of(alloc, units) {
        Ok(asks) => Job::make(alloc, app, group, 8, asks.as_slice()),
        Err(_) => Err(JobFault::OutOfMemory),
    }
}

/// Makes the call.
pub fn make(hard: &mut Hard, disk: &mut MemDisk, call: &Call) -> Result<(), HardFault>
    requires sound { hard.old.broken ≡ false }
    requires long { hard.old.gate < length disk.old.told.now.bytes }
    ensures sound { OnOk result (hard.new.broken ≡ false) }
    ensures long { OnOk result (hard.new.gate < length disk.new.told.now.bytes) }
    ensures unchanged { IfErr result (λ fault. fault ≢ HardFault.DiskFault → (hard.new ≡ hard.old) × (disk.new ≡ disk.old)) }
{
    match call {
        Call::Raise(epoch) => hard.raise(disk, *epoch),
        Call::Submit(epoch, job) => hard.submit(disk, *epoch, *job),
        Call::Finish(epoch, app) => hard.finish(disk, *epoch, *app),
        Call::Ban(epoch, machine) => hard.ban(disk, *epoch, MachineNo(*machine as u32)),
        Call::Unban(epoch, machine) => hard.unban(disk, *epoch, *machine),
    }
}
