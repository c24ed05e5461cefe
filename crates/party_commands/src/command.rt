//! The orders.

ghost use Rattle.std.specs.Prelude.{◌≡◌, IfSome};
ghost use Rattle.schedule_text.specs.Writing.{IsLineEvent};
ghost use Rattle.party_commands.specs.PartyCommands.{command_of};
ghost use Rattle.party_commands.specs.CommandedParties.{HasNamed, named_of};

use schedule_text::Event;
use schedule_unit::{AppNo, Asks, GroupNo, MachineNo, RackNo, Role, UnitNo};

/// What an application is told to ask its master for, of one of its units.
#[derive(Clone, Copy)]
pub enum AppCommand {
    /// It wants so many grants in all.
    Want(UnitNo, u64),
    /// It wants so many grants on a machine.
    Near(UnitNo, MachineNo, u64),
    /// It wants so many grants in a rack.
    Rack(UnitNo, RackNo, u64),
    /// It refuses a machine for new grants, or no longer.
    Avoid(UnitNo, MachineNo, bool),
    /// It gives back so many grants on a machine.
    Back(UnitNo, MachineNo, u64),
}

/// What a master is commanded.
#[derive(Clone, Copy)]
pub enum MasterCommand<'a> {
    /// The job of this number and group, with these units, is submitted.
    Submit(AppNo, GroupNo, &'a Asks),
    /// The job of this number ends.
    Finish(AppNo),
    /// The machine is banned.
    Ban(MachineNo),
    /// The ban of the machine is lifted.
    Unban(MachineNo),
    /// The master serves from now on.
    Begin,
    /// Room is made for a unit that waits.
    Preempt,
}

/// An order for a party that runs.
#[derive(Clone, Copy)]
pub enum PartyCommand<'a> {
    /// The party of this kind and number sends what its peers lack.
    Turn(Role, u64),
    /// The party of this kind and number forgets what its peers have acknowledged.
    Resync(Role, u64),
    /// The application of a job is asked.
    App(AppNo, AppCommand),
    /// The master of an epoch is commanded.
    Master(u64, MasterCommand<'a>),
}

/// The order that an event is; `None` where it is none: a start, a stop, a judgement, a delivery, or what is printed.
pub fn command_of<'a>(event: &'a Event) -> Option<PartyCommand<'a>>
    requires line { IsLineEvent event.now }
    ensures order { named_of result ≡ command_of event.now }
    ensures named { IfSome result HasNamed }
{
    match event {
        Event::Submit(epoch, app, group, asks) => {
            Some(PartyCommand::Master(*epoch, MasterCommand::Submit(*app, *group, asks)))
        }
        Event::Finish(epoch, app) => Some(PartyCommand::Master(
            *epoch,
            MasterCommand::Finish(*app),
        )),
        Event::Ban(epoch, machine) => Some(PartyCommand::Master(
            *epoch,
            MasterCommand::Ban(*machine),
        )),
        Event::Unban(epoch, machine) => Some(PartyCommand::Master(
            *epoch,
            MasterCommand::Unban(*machine),
        )),
        Event::Begin(epoch) => Some(PartyCommand::Master(*epoch, MasterCommand::Begin)),
        Event::Preempt(epoch) => Some(PartyCommand::Master(*epoch, MasterCommand::Preempt)),
        Event::Want(job, unit, count) => Some(PartyCommand::App(
            *job,
            AppCommand::Want(*unit, *count),
        )),
        Event::Near(job, unit, machine, count) => {
            Some(PartyCommand::App(*job, AppCommand::Near(*unit, *machine, *count)))
        }
        Event::Rack(job, unit, rack, count) => {
            Some(PartyCommand::App(*job, AppCommand::Rack(*unit, *rack, *count)))
        }
        Event::Avoid(job, unit, machine, on) => {
            Some(PartyCommand::App(*job, AppCommand::Avoid(*unit, *machine, *on)))
        }
        Event::Back(job, unit, machine, count) => {
            Some(PartyCommand::App(*job, AppCommand::Back(*unit, *machine, *count)))
        }
        Event::TurnMaster(epoch) => Some(PartyCommand::Turn(Role::Master, *epoch)),
        Event::TurnAgent(machine) => Some(PartyCommand::Turn(Role::Agent, machine.0 as u64)),
        Event::TurnApp(job) => Some(PartyCommand::Turn(Role::App, job.0 as u64)),
        Event::ResyncMaster(epoch) => Some(PartyCommand::Resync(Role::Master, *epoch)),
        Event::ResyncAgent(machine) => Some(PartyCommand::Resync(Role::Agent, machine.0 as u64)),
        Event::ResyncApp(job) => Some(PartyCommand::Resync(Role::App, job.0 as u64)),
        _ => None,
    }
}
