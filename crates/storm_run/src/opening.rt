//! The first events.

ghost use Rattle.std.specs.Prelude.{◌≡◌, ◌+◌, ◌<◌, ◌≤◌, ◌^◌, IfOk, OnOk};
ghost use Rattle.schedule_replay.specs.LineEvents.{event_as};
ghost use Rattle.schedule_replay.specs.Worlds.{IsReached};
ghost use Rattle.schedule_text.specs.Writing.{IsLineEvent};
ghost use Rattle.spec_world.specs.Events.{Submit};
ghost use Rattle.storm_run.specs.Storms.{job, opened, submitted, taken};
ghost use Rattle.storm_run.specs.StormRuns.{Runs, outcome};

use crate::orders::PeerOrder;
use crate::run::Run;
use fuxi_terms::OutOfMemory;
use fuxi_terms::limits::GREATEST_COUNT;
use schedule_replay::WorldStop;
use schedule_text::Event;
use schedule_unit::{AppNo, Ask, Asks, GroupNo, Quantities};
use std::alloc::Global;

// A job of one unit is submitted.
fn submission(
    alloc: Global,
    app: AppNo,
    group: GroupNo,
    priority: u64,
    size: [u64; 2],
) -> Result<Event, OutOfMemory>
    requires app { app.0 < 256 }
    requires group { group.0 < 32 }
    ensures event { IfOk result (λ event. event_as event ≡ Submit 1 (job app.0 group.0 priority size)) }
    ensures line { IfOk result IsLineEvent }
{
    let mut quantities = Quantities::new(alloc);
    quantities.push(size[0])?;
    quantities.push(size[1])?;
    let mut asks = Asks::new(alloc);
    asks.push(Ask {
        priority,
        quantities,
        most: GREATEST_COUNT,
    })?;
    Ok(Event::Submit(1, app, group, asks))
}

fn submit(
    run: &mut Run,
    alloc: Global,
    app: AppNo,
    group: GroupNo,
    priority: u64,
    size: [u64; 2],
) -> Result<(), WorldStop>
    requires app { app.0 < 256 }
    requires group { group.0 < 32 }
    requires reached { IsReached run.old }
    requires few { run.old.events < 2 ^ 29 }
    ensures runs { Runs (λ w. taken w (Submit 1 (job app.0 group.0 priority size))) run.old (outcome run.new result) }
    ensures reached { OnOk result (IsReached run.new) }
    ensures events { OnOk result (run.new.events ≡ run.old.events + 1) }
{
    match submission(alloc, app, group, priority, size) {
        Ok(event) => run.take(alloc, &event),
        Err(OutOfMemory) => Err(WorldStop::OutOfMemory),
    }
}

fn submit_all(run: &mut Run, alloc: Global) -> Result<(), WorldStop>
    requires reached { IsReached run.old }
    requires few { run.old.events + 3 ≤ 2 ^ 29 }
    ensures runs { Runs submitted run.old (outcome run.new result) }
    ensures reached { OnOk result (IsReached run.new) }
    ensures events { OnOk result (run.new.events ≡ run.old.events + 3) }
{
    match submit(run, alloc, AppNo(0), GroupNo(0), 5, [100, 400]) {
        Ok(()) => {}
        Err(stop) => return Err(stop),
    }
    match submit(run, alloc, AppNo(1), GroupNo(0), 3, [200, 300]) {
        Ok(()) => {}
        Err(stop) => return Err(stop),
    }
    submit(run, alloc, AppNo(2), GroupNo(1), 4, [50, 700])
}

// The first events: a master, all agents, three jobs, and their applications.
pub(crate) fn open(run: &mut Run, alloc: Global) -> Result<(), WorldStop>
    requires reached { IsReached run.old }
    requires few { run.old.events ≡ 0 }
    ensures runs { Runs opened run.old (outcome run.new result) }
    ensures reached { OnOk result (IsReached run.new) }
    ensures events { OnOk result (run.new.events ≤ 20) }
{
    match run.take(alloc, &Event::Master(1)) {
        Ok(()) => {}
        Err(stop) => return Err(stop),
    }
    match run.tell_each(alloc, PeerOrder::StartAgent, 8) {
        Ok(()) => {}
        Err(stop) => return Err(stop),
    }
    match submit_all(run, alloc) {
        Ok(()) => {}
        Err(stop) => return Err(stop),
    }
    run.tell_each(alloc, PeerOrder::StartApp, 3)
}
