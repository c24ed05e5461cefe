//! The events of masters.

ghost use Rattle.std.specs.Prelude.{◌<◌, ◌≤◌, map};
ghost use Rattle.bad_nodes.specs.Ranks.{number_of};
ghost use Rattle.spec_world.specs.Events.{Halt, act, ban_each, commanded, judge, start_master, stop_master};
ghost use Rattle.schedule_text.specs.Halting.{halting};
ghost use Rattle.schedule_text.specs.Writing.{IsLineEvent};
ghost use Rattle.schedule_replay.specs.LineEvents.{event_as};
ghost use Rattle.party_commands.specs.CommandedParties.{IsNamed, master_command};
ghost use Rattle.schedule_replay.specs.MasterCommands.{MayBan};
ghost use Rattle.schedule_replay.specs.Moves.{Acts, ActsOnce, CanMove, CanMoveLong, ban_one};

use crate::commands::{self, Judgement};
use crate::halts::{self, Stop};
use crate::running::Running;
use crate::stop::WorldStop;
use crate::text::{write_judged, write_line, write_refusal};
use party_commands::MasterCommand;
use schedule_text::{Event, Refusal};
use schedule_unit::MachineNo;
use std::alloc::Global;

// A master starts in an epoch.
pub(crate) fn start_master(
    running: &mut Running,
    alloc: Global,
    epoch: u64,
    out: &mut Vec<u8>,
) -> Result<(), WorldStop>
    requires can { CanMove running.old }
    ensures { Acts (λ w. start_master w epoch) running.old running.new out.old.items out.new.items result }
{
    crate::law::masters_act();
    let Running {
        cluster,
        checkpoint,
        masters,
        ..
    } = running;
    match commands::start_master(alloc, cluster, checkpoint, masters, epoch) {
        Ok(refusal) => write_refusal(refusal, out),
        Err(_) => Err(WorldStop::OutOfMemory),
    }
}

// The master of an epoch stops.
pub(crate) fn stop_master(
    running: &mut Running,
    epoch: u64,
    out: &mut Vec<u8>,
) -> Result<(), WorldStop>
    requires can { CanMove running.old }
    ensures { Acts (λ w. stop_master w epoch) running.old running.new out.old.items out.new.items result }
{
    crate::law::masters_act();
    let refusal = commands::stop_master(&mut running.masters, epoch);
    write_refusal(refusal, out)
}

// The master of an epoch is commanded.
pub(crate) fn give_command(
    running: &mut Running,
    alloc: Global,
    epoch: u64,
    command: &MasterCommand,
    out: &mut Vec<u8>,
) -> Result<(), WorldStop>
    requires named { IsNamed command.now }
    requires can { CanMove running.old }
    ensures { Acts (λ w. commanded w epoch (master_command command.now)) running.old running.new out.old.items out.new.items result }
{
    crate::law::masters_act();
    crate::law::cores_may_step();
    let Running {
        checkpoint,
        masters,
        ..
    } = running;
    match checkpoint.obey(masters, alloc, epoch, command) {
        Ok(answer) => write_refusal(answer.unwrap_or(Some(Refusal::NotRunning)), out),
        Err(_) => Err(WorldStop::OutOfMemory),
    }
}

// A machine that is judged is banned by the master of an epoch, and printed with the votes for it.
fn ban_one(
    running: &mut Running,
    alloc: Global,
    epoch: u64,
    machine: MachineNo,
    votes: u32,
    out: &mut Vec<u8>,
) -> Result<(), WorldStop>
    requires can { CanMove running.old }
    ensures { ActsOnce (ban_one epoch machine.0 votes) running.old running.new out.old.items out.new.items result }
{
    crate::law::masters_act();
    crate::law::cores_may_step();
    let Running {
        checkpoint,
        masters,
        ..
    } = running;
    match checkpoint.obey(masters, alloc, epoch, &MasterCommand::Ban(machine)) {
        Ok(_) => write_judged(machine, votes, out),
        Err(_) => Err(WorldStop::OutOfMemory),
    }
}

// The machines of a judgement are banned by the master of an epoch, one after another.
fn ban_each(
    running: &mut Running,
    alloc: Global,
    epoch: u64,
    judgement: &Judgement,
    out: &mut Vec<u8>,
) -> Result<(), WorldStop>
    requires first { 0 < epoch }
    requires may { MayBan judgement.now }
    requires can { CanMoveLong running.old }
    requires counted { 0 < running.old.events }
    ensures { Acts (ban_each epoch judgement.now.votes (map number_of judgement.now.machines.items)) running.old running.new out.old.items out.new.items result }
{
    spec_world::law::every_event_keeps_good();
    spec_world::law::worlds_in_order();
    for place in 0..judgement.machines.len() {
        let machine = judgement.machines[place];
        let votes = judgement.votes.votes(machine);
        match ban_one(running, alloc, epoch, machine, votes, out) {
            Ok(()) => {}
            Err(stop) => return Err(stop),
        }
    }
    Ok(())
}

// The master of an epoch bans the machines that enough of its jobs mark.
pub(crate) fn judge(
    running: &mut Running,
    alloc: Global,
    epoch: u64,
    least: u32,
    percent: u32,
    out: &mut Vec<u8>,
) -> Result<(), WorldStop>
    requires first { 0 < epoch }
    requires percent { percent ≤ 100 }
    requires can { CanMoveLong running.old }
    requires counted { 0 < running.old.events }
    ensures { Acts (λ w. judge w epoch least percent) running.old running.new out.old.items out.new.items result }
{
    match commands::judged(
        alloc,
        &running.checkpoint,
        &running.masters,
        epoch,
        least,
        percent,
    ) {
        Ok(Ok(judgement)) => ban_each(running, alloc, epoch, &judgement, out),
        Ok(Err(refusal)) => write_refusal(Some(refusal), out),
        Err(_) => Err(WorldStop::OutOfMemory),
    }
}

// The master that a line names stops within the writing of that line.
pub(crate) fn halt(
    running: &mut Running,
    alloc: Global,
    line: &Event,
    stop: Stop,
    out: &mut Vec<u8>,
) -> Result<(), WorldStop>
    requires line { IsLineEvent (halting stop.calls stop.all line.now) }
    requires can { CanMove running.old }
    ensures { Acts (λ w. act w (Halt stop.calls stop.all (event_as line.now))) running.old running.new out.old.items out.new.items result }
{
    crate::law::masters_act();
    let Running {
        masters,
        checkpoint,
        cluster,
        ..
    } = running;
    match halts::halt(alloc, cluster, checkpoint, masters, line, stop) {
        Ok(printed) => write_line(&printed, out),
        Err(_) => Err(WorldStop::OutOfMemory),
    }
}
