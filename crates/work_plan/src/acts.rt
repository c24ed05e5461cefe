//! What each event does.

ghost use Rattle.std.specs.Prelude.{◌≡◌, ◌<◌, ◌≤◌, IfErr, None, OnOk, get_or, length};
ghost use Rattle.fuxi_terms.specs.Limits.{most_units};
ghost use Rattle.work_plan.specs.PlanKeys.{most_workers};
ghost use Rattle.work_plan.specs.WorkEvents.{act};
ghost use Rattle.work_plan.specs.GivenEvents.{IsGiven};
ghost use Rattle.work_plan.specs.WorkRuns.{most_work_packets};
ghost use Rattle.work_plan.specs.AgentWithApps.{World};
ghost use Rattle.work_plan.specs.declared.event.WorkEvent.TheVariants as event;
ghost use Rattle.work_plan.specs.WorkSteps.{Acts, StopsAs, stopped};
ghost use Rattle.work_plan.specs.WorkWorlds.{AgentAt, IsKept};

use crate::agent::{count_workers, new_agent};
use crate::apps::{boot_of, start_app, want};
use crate::deliveries::{deliver, deliver_range};
use crate::parts::Agent;
use crate::places::has;
use crate::showing::write_state;
use crate::stop::WorkStop;
use crate::text::write_refused;
use crate::turns::{turn_agent, turn_app};
use crate::working::Working;
use crate::{Why, WorkEvent};
use fuxi_terms::OutOfMemory;
use schedule_unit::{AppNo, UnitNo};
use std::alloc::Global;

// The last boot of the agent, 0 where none ever started.
fn agent_boot(agent: &Option<Agent>) -> u64
    ensures { (w : World) → AgentAt agent.now w → result ≡ w.agent }
{
    match agent {
        Some(agent) => agent.boot,
        None => 0,
    }
}

// The agent starts in a boot above its last one.
fn start_agent(
    working: &mut Working,
    alloc: Global,
    boot: u64,
    out: &mut Vec<u8>,
) -> Result<(), OutOfMemory>
    ensures acts { OnOk result (Acts (λ w. act w (event.Agent boot)) working.old working.new out.old.items out.new.items) }
    ensures packets { OnOk result (working.new.packets ≡ working.old.packets) }
{
    let known = agent_boot(&working.agent);
    if boot <= known {
        return write_refused(Why::NotRising(known), out);
    }
    working.agent = Some(new_agent(alloc, boot)?);
    Ok(())
}

// An application starts in a boot above its last one.
fn start(
    working: &mut Working,
    alloc: Global,
    app: AppNo,
    boot: u64,
    out: &mut Vec<u8>,
) -> Result<(), OutOfMemory>
    ensures acts { OnOk result (Acts (λ w. act w (event.App app boot)) working.old working.new out.old.items out.new.items) }
    ensures packets { OnOk result (working.new.packets ≡ working.old.packets) }
{
    let known = boot_of(&working.apps, app);
    if boot <= known {
        return write_refused(Why::NotRising(known), out);
    }
    start_app(&mut working.apps, alloc, app, boot)
}

// The agent may run so many workers of a unit.
fn count(
    working: &mut Working,
    alloc: Global,
    app: AppNo,
    unit: UnitNo,
    count: u32,
    out: &mut Vec<u8>,
) -> Result<(), OutOfMemory>
    requires held { IsKept working.old }
    requires unit { unit.0 < most_units }
    ensures acts { OnOk result (Acts (λ w. act w (event.Row app unit count)) working.old working.new out.old.items out.new.items) }
    ensures packets { OnOk result (working.new.packets ≡ working.old.packets) }
{
    let Some(agent) = &mut working.agent else {
        return write_refused(Why::NotRunning, out);
    };
    count_workers(agent, alloc, app, unit, count)
}

// An application wants a worker of a unit, or it does not.
fn plan(
    working: &mut Working,
    alloc: Global,
    app: AppNo,
    unit: UnitNo,
    worker: u32,
    wanted: bool,
    out: &mut Vec<u8>,
) -> Result<(), OutOfMemory>
    requires unit { unit.0 < most_units }
    requires worker { worker < most_workers }
    ensures acts { OnOk result (Acts (λ w. act w (event.Plan app unit worker wanted)) working.old working.new out.old.items out.new.items) }
    ensures packets { OnOk result (working.new.packets ≡ working.old.packets) }
{
    if !has(&working.apps, app.0) {
        return write_refused(Why::NotRunning, out);
    }
    match &mut working.apps[app.0 as usize] {
        Some(ends) => want(ends, alloc, unit, worker, wanted),
        None => unreachable!(),
    }
}

// The state is printed.
fn show(working: &Working, out: &mut Vec<u8>) -> Result<(), OutOfMemory>
    requires { IsKept working.now }
    ensures { OnOk result (Acts (λ w. act w event.Show) working.now working.now out.old.items out.new.items) }
{
    write_state(working, out)
}

// What an event makes that stops for want of memory alone.
fn stopped(made: Result<(), OutOfMemory>) -> Result<(), WorkStop>
    ensures { result ≡ stopped made }
{
    match made {
        Ok(()) => Ok(()),
        Err(_) => Err(WorkStop::OutOfMemory),
    }
}

// One event, which is one that a line can give.
pub fn act(
    working: &mut Working,
    alloc: Global,
    event: &WorkEvent,
    out: &mut Vec<u8>,
) -> Result<(), WorkStop>
    requires held { IsKept working.old }
    requires given { IsGiven event.now }
    requires few { length working.old.packets.items ≤ most_work_packets }
    ensures acts { OnOk result (Acts (λ w. act w event.now) working.old working.new out.old.items out.new.items) }
    ensures stops { IfErr result (StopsAs (λ w. act w event.now) working.old) }
    ensures few { OnOk result (length working.new.packets.items ≤ most_work_packets) }
{
    match event {
        WorkEvent::Agent(boot) => stopped(start_agent(working, alloc, *boot, out)),
        WorkEvent::App(app, boot) => stopped(start(working, alloc, *app, *boot, out)),
        WorkEvent::Row(app, unit, most) => {
            stopped(count(working, alloc, *app, *unit, *most, out))
        }
        WorkEvent::Plan(app, unit, worker, wanted) => {
            stopped(plan(working, alloc, *app, *unit, *worker, *wanted, out))
        }
        WorkEvent::TurnAgent => turn_agent(working, alloc, out),
        WorkEvent::TurnApp(app) => turn_app(working, alloc, *app, out),
        WorkEvent::Deliver(number) => stopped(deliver(working, alloc, *number, out)),
        WorkEvent::DeliverRange(first, last) => {
            stopped(deliver_range(working, alloc, *first, *last, out))
        }
        WorkEvent::Show => stopped(show(working, out)),
    }
}
