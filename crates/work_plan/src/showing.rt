//! The state is printed.

ghost use Rattle.std.specs.Prelude.{◌≡◌, ◌++◌, false, map, nat_eq, None, IsSome, OnOk, get_or};
ghost use Rattle.std.specs.List.{flat_map};
ghost use Rattle.work_plan.specs.WorkEvents.{agent_app_lines, agent_lines, app_lines, show};
ghost use Rattle.work_plan.specs.WorkLines.{Seen, Works, lines_text};
ghost use Rattle.work_plan.specs.AgentWithApps.{World, all_apps, all_units};
ghost use Rattle.work_plan.specs.Crews.{runs_at};
ghost use Rattle.work_plan.specs.WorkWorlds.{AgentAt, AppsAt, IsAgent, IsAppOf, IsHeldAgent, IsHeld, IsKept, Stands};

use crate::parts::Agent;
use crate::places::has;
use crate::working::Working;
use crate::{Ends, Output, Workers, write_line};
use fuxi_terms::OutOfMemory;
use fuxi_terms::limits::{MOST_JOBS, MOST_UNITS};
use ledger_law::Key;
use schedule_unit::{AppNo, UnitNo};

// The workers of a unit that run, in the order of their start.
fn write_unit(
    workers: &Workers,
    app: AppNo,
    unit: UnitNo,
    out: &mut Vec<u8>,
) -> Result<(), OutOfMemory>
    requires { IsSome (get_or workers.now app.0 None) }
    ensures { OnOk result (out.new.items ≡ out.old.items ++ lines_text (map (λ n. Works app.0 unit.0 n) (runs_at workers.now app.0 unit.0))) }
{
    for index in 0..workers.running(app, unit) {
        let worker = workers.at(app, unit, index);
        write_line(&Output::Work(app, unit, worker), out)?;
    }
    Ok(())
}

// The workers of each unit that run.
fn write_units(workers: &Workers, app: AppNo, out: &mut Vec<u8>) -> Result<(), OutOfMemory>
    requires { IsSome (get_or workers.now app.0 None) }
    ensures { OnOk result (out.new.items ≡ out.old.items ++ lines_text (flat_map (λ u. map (λ n. Works app.0 u n) (runs_at workers.now app.0 u)) all_units)) }
{
    for unit in 0..MOST_UNITS as u8 {
        write_unit(workers, app, UnitNo(unit), out)?;
    }
    Ok(())
}

// What the agent has of an application that ever started.
fn write_peer(agent: &Agent, app: AppNo, out: &mut Vec<u8>) -> Result<(), OutOfMemory>
    requires { IsHeld agent.now }
    ensures { OnOk result ((w : World) → IsAgent agent.now w → nat_eq (w.apps app.0) 0 ≡ false → out.new.items ≡ out.old.items ++ lines_text (agent_app_lines w app.0)) }
{
    if !has(&agent.peers, app.0) {
        return write_line(&Output::Plan(app, 0, 0), out);
    }
    let Some(peer) = &agent.peers[app.0 as usize] else {
        unreachable!()
    };
    let place = peer.ends.place();
    write_line(&Output::Plan(app, place.inc, place.seq), out)?;
    write_units(&agent.workers, app, out)
}

// The agent, and what it has of each application that ever started.
fn write_agent(agent: &Agent, apps: &[Option<Ends>], out: &mut Vec<u8>) -> Result<(), OutOfMemory>
    requires { IsHeld agent.now }
    ensures { OnOk result ((w : World) → IsAgent agent.now w → AppsAt apps.now w → out.new.items ≡ out.old.items ++ lines_text (agent_lines w)) }
{
    write_line(&Output::Agent(agent.boot), out)?;
    for number in 0..MOST_JOBS {
        if !has(apps, number) {
            continue;
        }
        write_peer(agent, AppNo(number), out)?;
    }
    Ok(())
}

// The workers of which an application has heard that they run.
fn write_seen(app: AppNo, entries: &[(Key, u64)], out: &mut Vec<u8>) -> Result<(), OutOfMemory>
    ensures { OnOk result (out.new.items ≡ out.old.items ++ lines_text (map (λ e. Seen app.0 e.0.unit e.0.number) entries.now)) }
{
    for (key, _) in entries {
        write_line(&Output::Seen(app, UnitNo(key.unit), key.number), out)?;
    }
    Ok(())
}

// An application that runs.
fn write_app(app: AppNo, ends: &Ends, out: &mut Vec<u8>) -> Result<(), OutOfMemory>
    ensures { OnOk result ((w : World) → IsAppOf ends.now w app.0 → out.new.items ≡ out.old.items ++ lines_text (app_lines w app.0)) }
{
    let place = ends.place();
    write_line(&Output::App(app, ends.own(), place.inc, place.seq), out)?;
    write_seen(app, ends.got().entries(), out)
}

// All applications that run.
fn write_apps(apps: &[Option<Ends>], out: &mut Vec<u8>) -> Result<(), OutOfMemory>
    ensures { OnOk result ((w : World) → AppsAt apps.now w → out.new.items ≡ out.old.items ++ lines_text (flat_map (app_lines w) all_apps)) }
{
    for number in 0..MOST_JOBS {
        if !has(apps, number) {
            continue;
        }
        let Some(ends) = &apps[number as usize] else {
            unreachable!()
        };
        write_app(AppNo(number), ends, out)?;
    }
    Ok(())
}

// The agent, where one runs.
fn write_running(
    agent: &Option<Agent>,
    apps: &[Option<Ends>],
    out: &mut Vec<u8>,
) -> Result<(), OutOfMemory>
    requires { IsHeldAgent agent.now }
    ensures { OnOk result ((w : World) → AgentAt agent.now w → AppsAt apps.now w → out.new.items ≡ out.old.items ++ lines_text (agent_lines w)) }
{
    match agent {
        Some(agent) => write_agent(agent, apps, out),
        None => Ok(()),
    }
}

// The whole state.
pub fn write_state(working: &Working, out: &mut Vec<u8>) -> Result<(), OutOfMemory>
    requires { IsKept working.now }
    ensures { OnOk result ((w : World) → Stands working.now w → out.new.items ≡ out.old.items ++ lines_text (show w)) }
{
    write_line(&Output::State(working.events), out)?;
    write_running(&working.agent, &working.apps, out)?;
    write_apps(&working.apps, out)?;
    write_line(&Output::Packets(working.packets.len() as u64), out)
}
