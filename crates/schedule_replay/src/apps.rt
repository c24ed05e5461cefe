//! The events of applications.

ghost use Rattle.std.specs.Prelude.{◌<◌};
ghost use Rattle.fuxi_terms.specs.Limits.{most_jobs};
ghost use Rattle.party_commands.specs.CommandedParties.{app_command};
ghost use Rattle.spec_world.specs.Events.{start_app, asks};
ghost use Rattle.schedule_replay.specs.Moves.{Acts, CanMove};

use crate::law;
use crate::running::Running;
use crate::stop::WorldStop;
use crate::text::write_refusal;
use party_commands::AppCommand;
use schedule_text::Refusal;
use schedule_unit::AppNo;
use std::alloc::Global;

// The application of a job starts in a boot.
pub(crate) fn start_app(
    running: &mut Running,
    alloc: Global,
    app: AppNo,
    boot: u64,
    out: &mut Vec<u8>,
) -> Result<(), WorldStop>
    requires job { app.0 < most_jobs }
    requires boot { 0 < boot }
    requires can { CanMove running.old }
    ensures { Acts (λ w. start_app w app.0 boot) running.old running.new out.old.items out.new.items result }
{
    law::apps_act();
    let Some(job) = running.checkpoint.hard().job(app) else {
        return write_refusal(Some(Refusal::NoJob), out);
    };
    if running.checkpoint.hard().ended(app) {
        return write_refusal(Some(Refusal::Ended), out);
    }
    let known = running.apps.boot(app.0 as u64);
    if boot <= known {
        return write_refusal(Some(Refusal::NotRising(known)), out);
    }
    let units = job.units();
    match running_parties::start_app(&mut running.apps, alloc, app, units, &running.cluster, boot) {
        Ok(()) => Ok(()),
        Err(_) => Err(WorldStop::OutOfMemory),
    }
}

// The application of a job is asked.
pub(crate) fn ask_app(
    running: &mut Running,
    alloc: Global,
    app: AppNo,
    asked: AppCommand,
    out: &mut Vec<u8>,
) -> Result<(), WorldStop>
    requires { CanMove running.old }
    ensures { Acts (λ w. asks w app.0 (app_command asked)) running.old running.new out.old.items out.new.items result }
{
    law::apps_act();
    law::cores_may_step();
    match running_parties::ask(&mut running.apps, alloc, app, asked) {
        Ok(answer) => write_refusal(answer.unwrap_or(Some(Refusal::NotRunning)), out),
        Err(_) => Err(WorldStop::OutOfMemory),
    }
}
