//! Orders, each to whom it is for.

ghost use Rattle.party_commands.specs.PartyCommands.{step_of};
ghost use Rattle.party_commands.specs.CommandedParties.{HasNamed, command_as};
ghost use Rattle.schedule_replay.specs.Moves.{Acts, CanMove};

use crate::apps::ask_app;
use crate::masters::give_command;
use crate::running::Running;
use crate::stop::WorldStop;
use crate::turns::{Told, tell};
use party_commands::PartyCommand;
use std::alloc::Global;

// An order is carried out, or refused.
pub(crate) fn carry_out(
    running: &mut Running,
    alloc: Global,
    order: &PartyCommand,
    out: &mut Vec<u8>,
) -> Result<(), WorldStop>
    requires named { HasNamed order.now }
    requires can { CanMove running.old }
    ensures { Acts (λ w. step_of w (command_as order.now)) running.old running.new out.old.items out.new.items result }
{
    match order {
        PartyCommand::Turn(role, number) => tell(running, alloc, *role, *number, Told::Turn, out),
        PartyCommand::Resync(role, number) => tell(
            running,
            alloc,
            *role,
            *number,
            Told::Resync,
            out,
        ),
        PartyCommand::App(app, asked) => ask_app(running, alloc, *app, *asked, out),
        PartyCommand::Master(epoch, command) => give_command(running, alloc, *epoch, command, out),
    }
}
