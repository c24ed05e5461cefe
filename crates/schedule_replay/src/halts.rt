//! A stop of a master within the writing of a line.
//!
//! Each call answers the line that is printed: why the line within is refused, and then nothing has changed; or that its master has stopped.
//! After `OutOfMemory` what was lent is not to be used.

ghost use Rattle.std.specs.Prelude.{◌≡◌, true, IfOk};
ghost use Rattle.fuxi_terms.specs.Cluster.{ClusterRecord};
ghost use Rattle.party_commands.specs.CommandedParties.{IsNamed, IsWritable, event_of, has_writing, master_command};
ghost use Rattle.schedule_replay.specs.Held.{IsOpen};
ghost use Rattle.schedule_text.specs.Halting.{halting};
ghost use Rattle.schedule_text.specs.Writing.{IsLineEvent};
ghost use Rattle.spec_world.specs.Events.{StartMaster};
ghost use Rattle.schedule_replay.specs.LineEvents.{event_as};
ghost use Rattle.schedule_replay.specs.MasterCommands.{AreGoverned, TakesStep, governing};
ghost use Rattle.schedule_replay.specs.HaltsInWorld.{Halts, HaltsCommand, HaltsWithin, IsWithin};

use crate::checkpoint::Checkpoint;
use crate::commands::{runs, start_tests};
use cluster_desc::Cluster;
use fuxi_master::Master;
use fuxi_terms::OutOfMemory;
use party_commands::{
    MasterCommand, PartyCommand, Writing, command_of, tested, writing_of, written_refusal,
};
use running_parties::{Slots, stop_master};
use schedule_text::{Event, Output, Refusal};
use std::alloc::Global;

/// Where a writing stops: behind so many of its four calls of the disk, and whether what was written since the last sync stands there.
#[derive(Clone, Copy)]
pub(crate) struct Stop {
    pub(crate) calls: u8,
    pub(crate) all: bool,
}

/// The master that a line names stops within the writing of that line.
pub(crate) fn halt(
    alloc: Global,
    cluster: &Cluster,
    checkpoint: &mut Checkpoint,
    masters: &mut Slots<Master>,
    line: &Event,
    stop: Stop,
) -> Result<Output<'static>, OutOfMemory>
    requires line { IsLineEvent (halting stop.calls stop.all line.now) }
    requires governed { AreGoverned (governing checkpoint.old masters.old) }
    ensures world { IfOk result (Halts cluster.now (event_as line.now) stop (governing checkpoint.old masters.old) (governing checkpoint.new masters.new)) }
    ensures steps { IfOk result (λ printed. TakesStep masters.old masters.new) }
{
    if let Event::Master(epoch) = line {
        return halt_start(alloc, checkpoint, masters, *epoch, stop);
    }
    match command_of(line) {
        Some(PartyCommand::Master(epoch, command)) => {
            halt_command(alloc, cluster, checkpoint, masters, epoch, &command, stop)
        }
        _ => unreachable!(),
    }
}

// A start of the master of an epoch: it is refused by its tests, or the writing of its fence begins and stops.
fn halt_start(
    alloc: Global,
    checkpoint: &mut Checkpoint,
    masters: &mut Slots<Master>,
    epoch: u64,
    stop: Stop,
) -> Result<Output<'static>, OutOfMemory>
    requires within { IsWithin stop }
    requires governed { AreGoverned (governing checkpoint.old masters.old) }
    ensures world { IfOk result (λ printed. (c : ClusterRecord) → Halts c (StartMaster epoch) stop (governing checkpoint.old masters.old) (governing checkpoint.new masters.new) printed) }
    ensures steps { IfOk result (λ printed. TakesStep masters.old masters.new) }
{
    match start_tests(checkpoint, masters, epoch) {
        Ok(()) => halt_within(alloc, checkpoint, masters, epoch, &Writing::Raise, stop),
        Err(refusal) => Ok(Output::Refused(refusal)),
    }
}

// A command of the master of an epoch: it is refused by its tests, or its writing begins and stops.
fn halt_command(
    alloc: Global,
    cluster: &Cluster,
    checkpoint: &mut Checkpoint,
    masters: &mut Slots<Master>,
    epoch: u64,
    command: &MasterCommand,
    stop: Stop,
) -> Result<Output<'static>, OutOfMemory>
    requires named { IsNamed command.now }
    requires writes { has_writing (master_command command.now) ≡ true }
    requires within { IsWithin stop }
    requires governed { AreGoverned (governing checkpoint.old masters.old) }
    ensures world { IfOk result (HaltsCommand cluster.now epoch (master_command command.now) stop (governing checkpoint.old masters.old) (governing checkpoint.new masters.new)) }
    ensures steps { IfOk result (λ printed. TakesStep masters.old masters.new) }
{
    if !runs(masters, epoch) {
        return Ok(Output::Refused(Refusal::NotRunning));
    }
    let event = match tested(alloc, cluster, command) {
        Ok(Ok(event)) => event,
        Ok(Err(refusal)) => return Ok(Output::Refused(refusal)),
        Err(OutOfMemory) => return Err(OutOfMemory),
    };
    match writing_of(&event) {
        Some(writing) => halt_within(alloc, checkpoint, masters, epoch, &writing, stop),
        None => unreachable!(),
    }
}

// A writing whose tests before it have passed begins and stops, and what it left on the disk is opened. The master does not run then.
fn halt_within(
    alloc: Global,
    checkpoint: &mut Checkpoint,
    masters: &mut Slots<Master>,
    epoch: u64,
    writing: &Writing,
    stop: Stop,
) -> Result<Output<'static>, OutOfMemory>
    requires writable { IsWritable writing.now }
    requires within { IsWithin stop }
    requires open { IsOpen checkpoint.old }
    ensures world { IfOk result (HaltsWithin epoch (event_of writing.now) stop (governing checkpoint.old masters.old) (governing checkpoint.new masters.new)) }
    ensures steps { IfOk result (λ printed. TakesStep masters.old masters.new) }
{
    match checkpoint.halt(alloc, epoch, writing, stop.calls, stop.all) {
        Ok(written) => {
            let _ran = stop_master(masters, epoch);
            Ok(Output::Halted(epoch, written))
        }
        Err(fault) => match written_refusal(fault) {
            Ok(refusal) => Ok(Output::Refused(refusal)),
            Err(_) => Err(OutOfMemory),
        },
    }
}
