//! What an application is asked.

ghost use Rattle.std.specs.Prelude.{◌≡◌, ◌+◌, ◌<◌, ◌≤◌, IfOk, IsOk, OnOk, OnErr};
ghost use Rattle.fuxi_terms.specs.Limits.{most_steps};
ghost use Rattle.spec_roles.specs.Apps.{AppRole, commands_alone};
ghost use Rattle.app_master.specs.AppCores.{StandsFor};
ghost use Rattle.app_master.specs.AppCommands.{Commands};
ghost use Rattle.party_commands.specs.CommandedParties.{AskedAs, app_command};

use crate::command::AppCommand;
use crate::refusals::app_refusal;
use app_master::{AppFault, AppMaster};
use fuxi_terms::OutOfMemory;
use schedule_text::Refusal;
use std::alloc::Global;

// Makes the call that the command is. After a fault the application is as it was.
fn command(app: &mut AppMaster, alloc: Global, command: AppCommand) -> Result<(), AppFault>
    requires { app.old.steps < most_steps }
    ensures answers { Commands (app_command command) app.old result app.new }
    ensures steps { OnOk result (app.new.steps ≡ app.old.steps + 1) }
    ensures err { OnErr result (app.new ≡ app.old) }
{
    match command {
        AppCommand::Want(unit, count) => app.want(alloc, unit, count),
        AppCommand::Near(unit, machine, count) => app.near(alloc, unit, machine, count),
        AppCommand::Rack(unit, rack, count) => app.rack(alloc, unit, rack, count),
        AppCommand::Avoid(unit, machine, on) => app.avoid(alloc, unit, machine, on),
        AppCommand::Back(unit, machine, count) => app.give_back(alloc, unit, machine, count),
    }
}

/// The application is asked: why it refuses, and then nothing has changed, or `None` where it is done. Want of memory comes only where nothing is
/// refused, and leaves it as it was.
pub fn ask(
    app: &mut AppMaster,
    alloc: Global,
    asked: AppCommand,
) -> Result<Option<Refusal>, OutOfMemory>
    requires { app.old.steps < most_steps }
    ensures asks { IfOk result (λ answer. (r : AppRole) → StandsFor app.old r → AskedAs app.old app.new answer (commands_alone r (app_command asked))) }
    ensures steps { OnOk result (app.new.steps ≤ app.old.steps + 1) }
    ensures memory { OnErr result ((r : AppRole) → StandsFor app.old r → IsOk (commands_alone r (app_command asked))) }
    ensures err { OnErr result (app.new ≡ app.old) }
{
    let fault = match command(app, alloc, asked) {
        Ok(()) => return Ok(None),
        Err(fault) => fault,
    };
    match app_refusal(fault) {
        Some(refusal) => Ok(Some(refusal)),
        None => Err(OutOfMemory),
    }
}
