//! What is written to the hard state before a master is told.

ghost use Rattle.std.specs.Prelude.{◌≡◌, ◌≢◌, ◌<◌, ◌≤◌, false, Ok, Err, OnOk, IfErr, IfSome};
ghost use Rattle.fuxi_io.specs.Causes.{Rose};
ghost use Rattle.fuxi_io.specs.Disks.{WhereTold};
ghost use Rattle.spec_roles.specs.HardState.{hard_step};
ghost use Rattle.hard_state.specs.HardFiles.{Refuses, WritesStep};
ghost use Rattle.party_commands.specs.CommandedParties.{IsCommand, IsWritable, event_of, writing_as, written_for};

use fuxi_io::Disk;
use fuxi_master::MasterEvent;
use hard_state::{Hard, HardFault};
use schedule_unit::{AppNo, Job, MachineNo};

/// One change of the hard state, to be written by the master of an epoch.
#[derive(Clone, Copy)]
pub enum Writing<'j> {
    /// The fence is raised to the epoch.
    Raise,
    /// The job is submitted.
    Submit(&'j Job),
    /// The job of this number ends.
    Finish(AppNo),
    /// The machine is banned.
    Ban(MachineNo),
    /// The ban of the machine is lifted.
    Unban(MachineNo),
}

/// What is written before a master is told this; `None` where nothing is.
pub fn writing_of<'j>(event: &'j MasterEvent) -> Option<Writing<'j>>
    requires { IsCommand event.now }
    ensures writing { writing_as result ≡ written_for event.now }
    ensures writable { IfSome result IsWritable }
{
    match event {
        MasterEvent::Admit(job) => Some(Writing::Submit(job)),
        MasterEvent::Finish(app) => Some(Writing::Finish(*app)),
        MasterEvent::Ban(machine) => Some(Writing::Ban(*machine)),
        MasterEvent::Unban(machine) => Some(Writing::Unban(*machine)),
        _ => None,
    }
}

/// Makes the call of the hard state that writes it. The first refusal comes, in the order of [`HardFault`]; after it, and after want of memory,
/// nothing has changed.
pub fn write<D: Disk>(
    hard: &mut Hard,
    disk: &mut D,
    epoch: u64,
    writing: &Writing,
) -> Result<(), HardFault>
    requires writable { IsWritable writing.now }
    requires sound { hard.old.broken ≡ false }
    requires long { hard.old.gate < D.size disk.old }
    ensures ok { OnOk result ((hard_step hard.old.value epoch (event_of writing.now) ≡ Ok hard.new.value) × (hard.new.broken ≡ false)) }
    ensures refused { IfErr result (Refuses (hard_step hard.old.value epoch (event_of writing.now))) }
    ensures unchanged { IfErr result (λ fault. fault ≢ HardFault.DiskFault → (hard.new ≡ hard.old) × (disk.new ≡ disk.old)) }
    ensures long { OnOk result (hard.new.gate < D.size disk.new) }
    ensures later { D.faults disk.old ≤ D.faults disk.new }
    ensures cause { result ≡ Err HardFault.DiskFault → Rose (D.faults disk.old) (D.faults disk.new) }
    ensures served { result ≢ Err HardFault.DiskFault → D.faults disk.new ≡ D.faults disk.old }
    ensures told { WhereTold (WritesStep (hard_step hard.old.value epoch (event_of writing.now)) hard.old hard.new result) (D.told disk.old) (D.told disk.new) }
{
    match writing {
        Writing::Raise => hard.raise(disk, epoch),
        Writing::Submit(job) => hard.submit(disk, epoch, *job),
        Writing::Finish(app) => hard.finish(disk, epoch, *app),
        Writing::Ban(machine) => hard.ban(disk, epoch, *machine),
        Writing::Unban(machine) => hard.unban(disk, epoch, *machine),
    }
}
