//! The checkpoint.

ghost use Rattle.std.specs.Prelude.{◌≡◌, ◌≢◌, ◌≤◌, Result, Ok, Err, IfOk, IfErr, OnOk, IsOk};
ghost use Rattle.fuxi_io.specs.Disks.{Leaves};
ghost use Rattle.spec_roles.specs.HardState.{empty_hard, hard_step};
ghost use Rattle.spec_roles.specs.Refusals.{Refusal};
ghost use Rattle.hard_state.specs.HardFiles.{IsBeforeOrAfter, Refuses, records_of};
ghost use Rattle.schedule_replay.specs.Held.{IsOpen};
ghost use Rattle.party_commands.specs.CommandedParties.{IsNamed, IsWritable, event_of, master_command};
ghost use Rattle.running_parties.specs.Slots.{MayStep, slot_at};
ghost use Rattle.running_parties.specs.RunningMasters.{AreMastersOver, ObeyInWorld, master_steps};
ghost use Rattle.schedule_replay.specs.MasterCommands.{TakesStep};
ghost use Rattle.schedule_replay.specs.Writings.{IsLeft, MayLeave, counts_after};

use crate::disk::GrowingDisk;
use fuxi_master::Master;
use fuxi_terms::OutOfMemory;
use hard_state::{Hard, HardFault};
use party_commands::{CommandError, MasterCommand, Writing, write};
use running_parties::Slots;
use schedule_text::Refusal;
use std::alloc::Global;
use std::marker::Model;

/// A hard state with the disk in memory that it is written to.
///
/// A writing answers the first refusal of the hard state, in the order of [`HardFault`], and then nothing has changed; or that memory
/// was refused.
pub(crate) struct Checkpoint {
    hard: Hard,
    disk: GrowingDisk,
}

// Written out, so that who lets one go checks this call and not all of its parts.
impl Drop for Checkpoint {
    fn drop(self) {
        let Checkpoint { hard, disk } = self;
    }
}

impl Model for Checkpoint {
    ghost use Rattle.schedule_replay.specs.Held.{Held};

    ghost Value = { Held };

    ghost view = { λ c. record { hard = c.hard; told = c.disk.told } };
}

impl Checkpoint {
    /// An empty hard state, on an empty disk. Where memory is refused there is no checkpoint.
    pub(crate) fn open(alloc: Global) -> Result<Checkpoint, OutOfMemory>
        ensures open { IfOk result IsOpen }
        ensures value { IfOk result (λ c. c.hard.value ≡ empty_hard) }
    {
        Checkpoint::opened(alloc, GrowingDisk::empty(alloc))
    }

    // Opens what is on a disk.
    fn opened(alloc: Global, mut disk: GrowingDisk) -> Result<Checkpoint, OutOfMemory>
        ensures open { IfOk result IsOpen }
        ensures value { IfOk result (λ c. records_of disk.told.now.bytes ≡ Ok c.hard.value) }
    {
        match Hard::open(alloc, &mut disk) {
            Ok(hard) => Ok(Checkpoint { hard, disk }),
            Err(_) => Err(OutOfMemory),
        }
    }

    // Opens what a crash of the disk leaves: all that was written, or what was synced last.
    fn opened_image(alloc: Global, disk: &GrowingDisk, all: bool) -> Result<Checkpoint, OutOfMemory>
        ensures open { IfOk result IsOpen }
        ensures value { IfOk result (λ c. MayLeave disk.now.told.now c.hard.value) }
    {
        match disk.image(alloc, all) {
            Ok(image) => Checkpoint::opened(alloc, image),
            Err(OutOfMemory) => Err(OutOfMemory),
        }
    }

    /// The hard state.
    pub(crate) fn hard(&self) -> &Hard
        ensures { result.now ≡ self.now.hard }
    {
        &self.hard
    }

    /// Writes one change of the hard state, for a master of this epoch.
    ///
    /// The first refusal of the hard state comes, in the order of [`HardFault`]; `OutOfMemory` may come in place of any answer. After
    /// each of these nothing has changed. `DiskFault` comes where memory was refused for the disk's room, and then the checkpoint is
    /// not to be used.
    pub(crate) fn write(&mut self, epoch: u64, writing: &Writing) -> Result<(), HardFault>
        requires writable { IsWritable writing.now }
        requires open { IsOpen self.old }
        ensures ok { OnOk result (IsOpen self.new × (hard_step self.old.hard.value epoch (event_of writing.now) ≡ Ok self.new.hard.value)) }
        ensures refused { IfErr result (Refuses (hard_step self.old.hard.value epoch (event_of writing.now))) }
        ensures unchanged { IfErr result (λ fault. fault ≢ HardFault.DiskFault → self.new ≡ self.old) }
    {
        write(&mut self.hard, &mut self.disk, epoch, writing)
    }

    /// The master of an epoch is commanded, and writes what that changes of the hard state, if one runs. Where it cannot be carried out the
    /// checkpoint and the masters are not to be used.
    pub(crate) fn obey(
        &mut self,
        masters: &mut Slots<Master>,
        alloc: Global,
        epoch: u64,
        command: &MasterCommand,
    ) -> Result<Option<Option<Refusal>>, CommandError>
        requires named { IsNamed command.now }
        requires over { AreMastersOver self.old.hard.value masters.old }
        requires steps { MayStep master_steps (slot_at masters.old epoch) }
        requires open { IsOpen self.old }
        ensures world { IfOk result (ObeyInWorld epoch (master_command command.now) self.old.hard.value self.new.hard.value masters.old masters.new) }
        ensures open { OnOk result (IsOpen self.new) }
        ensures steps { TakesStep masters.old masters.new }
    {
        running_parties::obey(
            masters,
            alloc,
            epoch,
            command,
            &mut self.hard,
            &mut self.disk,
        )
    }

    /// Begins to write one change, stops after so many of the four calls of the disk that this makes, and opens what a crash then
    /// leaves: all that was written, or what was synced last. It answers whether the change is written.
    ///
    /// A refusal is that of [`Checkpoint::write`], and then nothing has changed. After `OutOfMemory`, which may come
    /// in place of any answer, the checkpoint is not to be used.
    pub(crate) fn halt(
        &mut self,
        alloc: Global,
        epoch: u64,
        writing: &Writing,
        calls: u8,
        all: bool,
    ) -> Result<bool, HardFault>
        requires writable { IsWritable writing.now }
        requires open { IsOpen self.old }
        requires some { 1 ≤ calls }
        requires few { calls ≤ 4 }
        ensures open { OnOk result (IsOpen self.new) }
        ensures counts { IfOk result (λ counts. counts ≡ counts_after calls all) }
        ensures left { IfOk result (λ counts. IsLeft (hard_step self.old.hard.value epoch (event_of writing.now)) self.old.hard.value counts self.new.hard.value) }
        ensures refused { IfErr result (Refuses (hard_step self.old.hard.value epoch (event_of writing.now))) }
        ensures unchanged { IfErr result (λ fault. fault ≢ HardFault.OutOfMemory → self.new ≡ self.old) }
    {
        let records = self.hard.records();
        match self.stop(epoch, writing, calls) {
            Ok(()) => {}
            Err(fault) => return Err(fault),
        }
        let left = match Checkpoint::opened_image(alloc, &self.disk, all) {
            Ok(left) => left,
            Err(OutOfMemory) => return Err(HardFault::OutOfMemory),
        };
        let counts = counts_after(calls, all);
        let grown = left.hard.records() > records;
        // A disk that serves just so many calls leaves what is said.
        if grown != counts {
            return Err(HardFault::OutOfMemory);
        }
        *self = left;
        Ok(counts)
    }

    // Writes one change on the disk, which from now on serves so many writes and syncs.
    fn stop(&mut self, epoch: u64, writing: &Writing, calls: u8) -> Result<(), HardFault>
        requires writable { IsWritable writing.now }
        requires open { IsOpen self.old }
        ensures step { OnOk result (IsOk (hard_step self.old.hard.value epoch (event_of writing.now))) }
        ensures left { OnOk result (Leaves (IsBeforeOrAfter self.old.hard.value (hard_step self.old.hard.value epoch (event_of writing.now))) self.new.told.now) }
        ensures refused { IfErr result (Refuses (hard_step self.old.hard.value epoch (event_of writing.now))) }
        ensures unchanged { IfErr result (λ fault. fault ≢ HardFault.OutOfMemory → self.new ≡ self.old) }
    {
        self.disk.stop_after(calls as u64);
        match write(&mut self.hard, &mut self.disk, epoch, writing) {
            Ok(()) => Ok(()),
            Err(HardFault::DiskFault) => Ok(()),
            Err(fault) => {
                // No run makes so many calls.
                self.disk.stop_after(u64::MAX);
                Err(fault)
            }
        }
    }
}

// Whether the record of a writing counts after so many of its calls.
fn counts_after(calls: u8, all: bool) -> bool
    ensures { result ≡ counts_after calls all }
{
    calls == 4 || (calls == 3 && all)
}
