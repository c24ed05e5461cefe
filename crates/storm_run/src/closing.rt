//! The closing rounds.

ghost use Rattle.std.specs.Prelude.{◌+◌, ◌<◌, ◌≤◌, ◌^◌, OnOk};
ghost use Rattle.schedule_replay.specs.Worlds.{IsReached};
ghost use Rattle.storm_run.specs.Storms.{closed, delivered, master_turned, peers_turned, round, rounds, with_delivery};
ghost use Rattle.storm_run.specs.StormRuns.{Runs, outcome};

use crate::orders::{Order, PeerOrder, order_event};
use crate::run::Run;
use schedule_replay::WorldStop;
use schedule_text::Event;
use std::alloc::Global;

// How many rounds close a storm.
const ROUNDS: u8 = 8;

// All packets that were sent since there were so many, where there are any.
fn deliver_since(run: &mut Run, alloc: Global, before: u64) -> Result<(), WorldStop>
    requires reached { IsReached run.old }
    requires few { run.old.events < 2 ^ 29 }
    ensures runs { Runs (delivered before) run.old (outcome run.new result) }
    ensures reached { OnOk result (IsReached run.new) }
    ensures events { OnOk result (run.new.events ≤ run.old.events + 1) }
{
    let packets = run.running().packets();
    if before >= packets {
        return Ok(());
    }
    run.take(alloc, &Event::DeliverRange(before + 1, packets))
}

fn turn_master(run: &mut Run, alloc: Global) -> Result<(), WorldStop>
    requires reached { IsReached run.old }
    requires few { run.old.events < 2 ^ 29 }
    ensures runs { Runs master_turned run.old (outcome run.new result) }
    ensures reached { OnOk result (IsReached run.new) }
    ensures events { OnOk result (run.new.events ≤ run.old.events + 1) }
{
    let event = order_event(Order::Turn, run.running().fence());
    run.take_if(alloc, &event)
}

fn turn_peers(run: &mut Run, alloc: Global) -> Result<(), WorldStop>
    requires reached { IsReached run.old }
    requires few { run.old.events + 16 ≤ 2 ^ 29 }
    ensures runs { Runs peers_turned run.old (outcome run.new result) }
    ensures reached { OnOk result (IsReached run.new) }
    ensures events { OnOk result (run.new.events ≤ run.old.events + 16) }
{
    match run.tell_each(alloc, PeerOrder::TurnAgent, 8) {
        Ok(()) => run.tell_each(alloc, PeerOrder::TurnApp, 3),
        Err(stop) => Err(stop),
    }
}

// The newest master tells all that it has to tell.
fn tell_peers(run: &mut Run, alloc: Global) -> Result<(), WorldStop>
    requires reached { IsReached run.old }
    requires few { run.old.events + 2 ≤ 2 ^ 29 }
    ensures runs { Runs (with_delivery master_turned) run.old (outcome run.new result) }
    ensures reached { OnOk result (IsReached run.new) }
    ensures events { OnOk result (run.new.events ≤ run.old.events + 2) }
{
    let before = run.running().packets();
    match turn_master(run, alloc) {
        Ok(()) => deliver_since(run, alloc, before),
        Err(stop) => Err(stop),
    }
}

// Its peers tell all that they have to tell.
fn tell_master(run: &mut Run, alloc: Global) -> Result<(), WorldStop>
    requires reached { IsReached run.old }
    requires few { run.old.events + 17 ≤ 2 ^ 29 }
    ensures runs { Runs (with_delivery peers_turned) run.old (outcome run.new result) }
    ensures reached { OnOk result (IsReached run.new) }
    ensures events { OnOk result (run.new.events ≤ run.old.events + 17) }
{
    let before = run.running().packets();
    match turn_peers(run, alloc) {
        Ok(()) => deliver_since(run, alloc, before),
        Err(stop) => Err(stop),
    }
}

fn close_round(run: &mut Run, alloc: Global) -> Result<(), WorldStop>
    requires reached { IsReached run.old }
    requires few { run.old.events + 19 ≤ 2 ^ 29 }
    ensures runs { Runs round run.old (outcome run.new result) }
    ensures reached { OnOk result (IsReached run.new) }
    ensures events { OnOk result (run.new.events ≤ run.old.events + 19) }
{
    match tell_peers(run, alloc) {
        Ok(()) => tell_master(run, alloc),
        Err(stop) => Err(stop),
    }
}

fn close_rounds(run: &mut Run, alloc: Global, count: u8) -> Result<(), WorldStop>
    requires reached { IsReached run.old }
    requires few { run.old.events ≤ 20020 }
    ensures runs { Runs (rounds count) run.old (outcome run.new result) }
    ensures reached { OnOk result (IsReached run.new) }
    ensures events { OnOk result (run.new.events ≤ 30000) }
{
    for turn in 0..count {
        match close_round(run, alloc) {
            Ok(()) => {}
            Err(stop) => return Err(stop),
        }
    }
    Ok(())
}

// The rounds, and the newest master once more.
pub(crate) fn close(run: &mut Run, alloc: Global) -> Result<(), WorldStop>
    requires reached { IsReached run.old }
    requires few { run.old.events ≤ 20020 }
    ensures runs { Runs closed run.old (outcome run.new result) }
    ensures reached { OnOk result (IsReached run.new) }
{
    match close_rounds(run, alloc, ROUNDS) {
        Ok(()) => tell_peers(run, alloc),
        Err(stop) => Err(stop),
    }
}
