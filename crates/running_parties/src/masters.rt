//! Masters in slots, each by its epoch.

ghost use Rattle.std.specs.Prelude.{◌≡◌, ◌≢◌, ◌+◌, ◌<◌, ◌≤◌, ℕ, List, false, Err, IfOk, OnOk, OnErr};
ghost use Rattle.std.specs.List.{AllByRecursion};
ghost use Rattle.fuxi_io.specs.Causes.{Rose};
ghost use Rattle.fuxi_io.specs.Disks.{WhereTold};
ghost use Rattle.peer_channel.specs.Parcels.{IsSent};
ghost use Rattle.fuxi_master.specs.Steps.{IsSentFormed};
ghost use Rattle.party_commands.specs.CommandedParties.{IsNamed, master_command};
ghost use Rattle.running_parties.specs.Slots.{AreWithin, MayStep, slot_at};
ghost use Rattle.running_parties.specs.RunningMasters.{AreMastersOver, MasterStartInWorld, ObeyInWorld, RestsAgain, StopInWorld, master_steps};

use crate::party::Party;
use crate::slots::Slots;
use cluster_desc::Cluster;
use fuxi_io::Disk;
use fuxi_master::{Master, MasterEvent};
use hard_state::Hard;
use ledger_law::OutOfMemory;
use party_commands::{CommandError, MasterCommand};
use party_ledgers::{Header, Kind, Packet, Packets};
use peer_channel::Reply;
use schedule_text::Refusal;
use spec_refinement::parties;
use std::alloc::Global;

impl Party for Master {
    ghost use Rattle.running_parties.specs.RunningMasters.{MasterStands, master_steps};

    ghost stands = { MasterStands };

    ghost steps = { master_steps };

    fn hear(self, alloc: Global, packet: Packet) -> Result<(Master, Reply), OutOfMemory> {
        Master::hear(self, alloc, packet)
    }

    fn leaves(&self, header: &Header) -> Option<Reply> {
        Master::leaves(self, header)
    }

    fn turn(self, alloc: Global) -> Result<(Master, Packets), OutOfMemory> {
        Master::turn(self, alloc)
    }

    fn resync(self, alloc: Global) -> Result<Master, OutOfMemory> {
        match self.step(alloc, MasterEvent::Resync) {
            Ok((master, _)) => Ok(master),
            Err(fault) => Err(fault),
        }
    }
}

/// Starts the master of an epoch, which is at least 1, with the hard state that its start has written. Want of memory leaves all as it
/// was.
pub fn start_master(
    masters: &mut Slots<Master>,
    alloc: Global,
    cluster: &Cluster,
    epoch: u64,
    hard: &Hard,
) -> Result<(), OutOfMemory>
    requires { 0 < epoch }
    ensures world { OnOk result (MasterStartInWorld cluster.now hard.now.value epoch masters.old masters.new) }
    ensures within { OnOk result ((n : ℕ) → AreWithin master_steps n masters.old → AreWithin master_steps n masters.new) }
    ensures err { OnErr result (masters.new ≡ masters.old) }
{
    parties::parties_join();
    let master = Master::start(alloc, cluster, epoch, hard)?;
    masters.start(epoch, master, 0)
}

/// The master of an epoch stops; false where none runs.
pub fn stop_master(masters: &mut Slots<Master>, epoch: u64) -> bool
    ensures world { StopInWorld epoch masters.old masters.new result }
    ensures within { (n : ℕ) → AreWithin master_steps n masters.old → AreWithin master_steps n masters.new }
{
    masters.remove(epoch)
}

/// The master of an epoch is commanded: why it refuses, or `None` where it is done, with the hard state that it writes; `None` where none
/// runs. A refused command has changed nothing. Where it cannot be carried out the master is gone.
pub fn obey<D: Disk>(
    masters: &mut Slots<Master>,
    alloc: Global,
    epoch: u64,
    command: &MasterCommand,
    hard: &mut Hard,
    disk: &mut D,
) -> Result<Option<Option<Refusal>>, CommandError>
    requires named { IsNamed command.now }
    requires over { AreMastersOver hard.old.value masters.old }
    requires steps { MayStep master_steps (slot_at masters.old epoch) }
    requires sound { hard.old.broken ≡ false }
    requires long { hard.old.gate < D.size disk.old }
    ensures world { IfOk result (ObeyInWorld epoch (master_command command.now) hard.old.value hard.new.value masters.old masters.new) }
    ensures within { (n : ℕ) → AreWithin master_steps n masters.old → AreWithin master_steps (n + 1) masters.new }
    ensures sound { OnOk result (hard.new.broken ≡ false) }
    ensures long { OnOk result (hard.new.gate < D.size disk.new) }
    ensures later { D.faults disk.old ≤ D.faults disk.new }
    ensures cause { result ≡ Err CommandError.Disk → Rose (D.faults disk.old) (D.faults disk.new) }
    ensures served { result ≢ Err CommandError.Disk → D.faults disk.new ≡ D.faults disk.old }
    ensures told { WhereTold (RestsAgain hard.old hard.new result) (D.told disk.old) (D.told disk.new) }
{
    parties::parties_join();
    let Some(master) = masters.take(epoch) else {
        return Ok(None);
    };
    match party_commands::obey(master, alloc, command, hard, disk) {
        Ok((master, answer)) => {
            masters.put(epoch, master);
            Ok(Some(answer))
        }
        Err(halt) => Err(halt),
    }
}
