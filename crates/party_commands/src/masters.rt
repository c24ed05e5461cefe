//! What a master is commanded.

ghost use Rattle.std.specs.Prelude.{◌≡◌, ◌≢◌, ◌+◌, ◌<◌, ◌≤◌, true, false, is_some, Err, IfOk, IfErr, IsOk, OnOk, OnErr};
ghost use Rattle.fuxi_io.specs.Causes.{Rose};
ghost use Rattle.fuxi_io.specs.Disks.{WhereTold};
ghost use Rattle.fuxi_terms.specs.Cluster.{has_group, has_machine};
ghost use Rattle.fuxi_terms.specs.Limits.{most_jobs, most_machines, most_steps};
ghost use Rattle.spec_roles.specs.MasterSteps.{Submits};
ghost use Rattle.spec_roles.specs.MasterRoles.{MasterRole, master_commanded};
ghost use Rattle.fuxi_master.specs.Cores.{StandsFor};
ghost use Rattle.fuxi_master.specs.Steps.{IsFitting};
ghost use Rattle.schedule_text.specs.Asked.{job_named};
ghost use Rattle.party_commands.specs.CommandedParties.{IsCommand, IsNamed, KnowsWritten, LeavesOrder, MayWant, ObeyedAs, TestsAs, TestsWant, hard_after, has_writing, master_command, written_for};
ghost use Rattle.party_commands.specs.CarriedCommands.{CarriesOut, IsTold, carried_out, refusal_in};

use crate::command::MasterCommand;
use crate::refusals::written_refusal;
use crate::writing::{write, writing_of};
use cluster_desc::Cluster;
use fuxi_io::Disk;
use fuxi_master::{Master, MasterEvent, Outcome};
use fuxi_terms::OutOfMemory;
use hard_state::Hard;
use party_text::master_refusal;
use schedule_text::{Refusal, job_refusal, law};
use schedule_unit::{AppNo, Asks, GroupNo, Job, MachineNo};
use std::alloc::Global;

/// Why an order could not be carried out. The party is gone.
#[derive(Clone, Copy, Debug, Drop, PartialEq, Eq)]
pub enum CommandError {
    /// The disk failed.
    Disk,
    /// Memory was refused.
    Memory,
}

// The tests of a submission: its group, and what is asked for the job.
fn tested_job(
    alloc: Global,
    cluster: &Cluster,
    app: AppNo,
    group: GroupNo,
    asks: &Asks,
) -> Result<Result<MasterEvent, Refusal>, OutOfMemory>
    requires { app.0 < most_jobs }
    ensures tests { IfOk result (TestsAs cluster.now (Submits (job_named app.0 group.0 asks.now))) }
    ensures command { IfOk result (λ answer. IfOk answer IsCommand) }
    ensures writes { IfOk result (λ answer. IfOk answer (λ event. is_some (written_for event) ≡ true)) }
    ensures memory { OnErr result (has_group cluster.now group.0 ≡ true) }
{
    law::jobs_are_tested_alike();
    if group.0 >= cluster.groups() {
        return Ok(Err(Refusal::NoGroup));
    }
    match Job::make(alloc, app, group, cluster.resources(), asks.as_slice()) {
        Ok(job) => Ok(Ok(MasterEvent::Admit(job))),
        Err(fault) => match job_refusal(fault) {
            Some(refusal) => Ok(Err(refusal)),
            None => Err(OutOfMemory),
        },
    }
}

// The test of a ban, and of its end: the machine is one of the cluster.
fn tested_machine(cluster: &Cluster, machine: MachineNo) -> Result<(), Refusal>
    ensures there { OnOk result (has_machine cluster.now machine.0 ≡ true) }
    ensures low { OnOk result (machine.0 < most_machines) }
    ensures none { IfErr result (λ refusal. (has_machine cluster.now machine.0 ≡ false) × (refusal ≡ Refusal.NoMachine)) }
{
    if machine.0 >= cluster.machines() {
        return Err(Refusal::NoMachine);
    }
    Ok(())
}

/// The tests of a command before its writing: what a master is told by it, or why it is refused. A submission alone may want memory, once its group
/// is there; it may come before the fault of a unit is told.
pub fn tested(
    alloc: Global,
    cluster: &Cluster,
    command: &MasterCommand,
) -> Result<Result<MasterEvent, Refusal>, OutOfMemory>
    requires { IsNamed command.now }
    ensures tests { IfOk result (TestsAs cluster.now (master_command command.now)) }
    ensures command { IfOk result (λ answer. IfOk answer IsCommand) }
    ensures writes { IfOk result (λ answer. IfOk answer (λ event. is_some (written_for event) ≡ has_writing (master_command command.now))) }
    ensures memory { OnErr result (TestsWant cluster.now (master_command command.now)) }
{
    match command {
        MasterCommand::Submit(app, group, asks) => tested_job(alloc, cluster, *app, *group, *asks),
        MasterCommand::Finish(app) => Ok(Ok(MasterEvent::Finish(*app))),
        MasterCommand::Ban(machine) => match tested_machine(cluster, *machine) {
            Ok(()) => Ok(Ok(MasterEvent::Ban(*machine))),
            Err(refusal) => Ok(Err(refusal)),
        },
        MasterCommand::Unban(machine) => match tested_machine(cluster, *machine) {
            Ok(()) => Ok(Ok(MasterEvent::Unban(*machine))),
            Err(refusal) => Ok(Err(refusal)),
        },
        MasterCommand::Begin => Ok(Ok(MasterEvent::Begin)),
        MasterCommand::Preempt => Ok(Ok(MasterEvent::Preempt)),
    }
}

// Why the outcome of a command is a refusal.
fn refusal_in(outcome: Outcome) -> Option<Refusal>
    ensures { result ≡ refusal_in outcome }
{
    match outcome {
        Outcome::Refused(refusal) => Some(master_refusal(refusal)),
        _ => None,
    }
}

// The master is told what was tested and written.
fn tell(
    master: Master,
    alloc: Global,
    event: MasterEvent,
) -> Result<(Master, Option<Refusal>), CommandError>
    requires fitting { IsFitting master.core event }
    requires steps { master.steps < most_steps }
    ensures told { IfOk result (IsTold event master.core) }
    ensures steps { IfOk result (λ after. after.0.steps ≤ master.steps + 1) }
    ensures memory { result ≢ Err CommandError.Disk }
{
    match master.step(alloc, event) {
        Ok((master, outcome)) => Ok((master, refusal_in(outcome))),
        Err(OutOfMemory) => Err(CommandError::Memory),
    }
}

// A command behind its tests: the hard state is written, and only then the master is told.
fn carry_out<D: Disk>(
    master: Master,
    alloc: Global,
    event: MasterEvent,
    hard: &mut Hard,
    disk: &mut D,
) -> Result<(Master, Option<Refusal>), CommandError>
    requires command { IsCommand event }
    requires knows { KnowsWritten hard.old.value master.core }
    requires steps { master.steps < most_steps }
    requires sound { hard.old.broken ≡ false }
    requires long { hard.old.gate < D.size disk.old }
    ensures obeys { IfOk result (CarriesOut event hard.old.value hard.new.value master.core) }
    ensures sound { OnOk result (hard.new.broken ≡ false) }
    ensures long { OnOk result (hard.new.gate < D.size disk.new) }
    ensures steps { IfOk result (λ after. after.0.steps ≤ master.steps + 1) }
    ensures later { D.faults disk.old ≤ D.faults disk.new }
    ensures cause { result ≡ Err CommandError.Disk → Rose (D.faults disk.old) (D.faults disk.new) }
    ensures served { result ≢ Err CommandError.Disk → D.faults disk.new ≡ D.faults disk.old }
    ensures memory { result ≡ Err CommandError.Memory → is_some (written_for event) ≡ true → (r : MasterRole) → StandsFor master.core r → IsOk (carried_out r hard.old.value event) }
    ensures told { (r : MasterRole) → StandsFor master.core r → WhereTold (LeavesOrder hard.old hard.new (hard_after hard.old.value (carried_out r hard.old.value event)) result) (D.told disk.old) (D.told disk.new) }
{
    let Some(writing) = writing_of(&event) else {
        return tell(master, alloc, event);
    };
    match write(hard, disk, master.epoch(), &writing) {
        Ok(()) => {}
        Err(fault) => {
            drop(event);
            match written_refusal(fault) {
                Ok(refusal) => return Ok((master, Some(refusal))),
                Err(halt) => {
                    drop(master);
                    return Err(halt);
                }
            }
        }
    }
    tell(master, alloc, event)
}

/// The master carries out a command, or refuses it: its tests, the writing of the hard state, and only then the master itself. One that is refused
/// leaves the hard state, and a core that stands for what it stood for. A call of the disk that failed is told by `CommandError::Disk` and nothing else; want of
/// memory is told of no end of a job, ban or unban that is refused, and of no submission to a group that is not there.
pub fn obey<D: Disk>(
    master: Master,
    alloc: Global,
    command: &MasterCommand,
    hard: &mut Hard,
    disk: &mut D,
) -> Result<(Master, Option<Refusal>), CommandError>
    requires named { IsNamed command.now }
    requires knows { KnowsWritten hard.old.value master.core }
    requires steps { master.steps < most_steps }
    requires sound { hard.old.broken ≡ false }
    requires long { hard.old.gate < D.size disk.old }
    ensures obeys { IfOk result (λ after. (r : MasterRole) → StandsFor master.core r → ObeyedAs r hard.old.value hard.new.value after.0.core after.1 (master_commanded r hard.old.value (master_command command.now))) }
    ensures sound { OnOk result (hard.new.broken ≡ false) }
    ensures long { OnOk result (hard.new.gate < D.size disk.new) }
    ensures steps { IfOk result (λ after. after.0.steps ≤ master.steps + 1) }
    ensures later { D.faults disk.old ≤ D.faults disk.new }
    ensures cause { result ≡ Err CommandError.Disk → Rose (D.faults disk.old) (D.faults disk.new) }
    ensures served { result ≢ Err CommandError.Disk → D.faults disk.new ≡ D.faults disk.old }
    ensures memory { result ≡ Err CommandError.Memory → (r : MasterRole) → StandsFor master.core r → MayWant r hard.old.value (master_command command.now) }
    ensures told { (r : MasterRole) → StandsFor master.core r → WhereTold (LeavesOrder hard.old hard.new (hard_after hard.old.value (master_commanded r hard.old.value (master_command command.now))) result) (D.told disk.old) (D.told disk.new) }
{
    match tested(alloc, master.table().cluster(), command) {
        Ok(Ok(event)) => carry_out(master, alloc, event, hard, disk),
        Ok(Err(refusal)) => Ok((master, Some(refusal))),
        Err(OutOfMemory) => {
            drop(master);
            Err(CommandError::Memory)
        }
    }
}
