//! What runs in a storm.

ghost use Rattle.std.specs.Prelude.{◌≡◌, ◌+◌, ◌<◌, ◌≤◌, ◌^◌, IfOk, OnOk};
ghost use Rattle.schedule_replay.specs.LineEvents.{event_as};
ghost use Rattle.schedule_replay.specs.Worlds.{IsReached, IsWorld, StandsFor};
ghost use Rattle.schedule_text.specs.Writing.{IsLineEvent};
ghost use Rattle.spec_world.specs.World.{empty_world};
ghost use Rattle.storm_run.specs.Storms.{taken, all_taken, each};
ghost use Rattle.storm_run.specs.StormRuns.{listed, events_in, told, IsLine, AreLines, Runs, outcome};

use crate::choices::Choice;
use crate::orders::{PeerOrder, peer_event};
use cluster_desc::Cluster;
use fuxi_terms::OutOfMemory;
use schedule_replay::{Running, WorldStop};
use schedule_text::Event;
use std::alloc::Global;
use std::marker::Model;

// What runs in a storm, with one room for what each event prints. Seen as what runs. After a stop nothing is said of it.
#[derive(Drop)]
pub(crate) struct Run {
    running: Running,
    text: Vec<u8>,
}

impl Model for Run {
    ghost use Rattle.schedule_replay.specs.Worlds.{WorldRecord};

    ghost Value = { WorldRecord };

    ghost view = { λ r. r.running };
}

impl Run {
    // What runs on a cluster in which nothing has happened.
    pub(crate) fn start(alloc: Global, cluster: Cluster) -> Result<Run, OutOfMemory>
        ensures world { IsWorld (empty_world cluster) }
        ensures stands { IfOk result (λ run. StandsFor run (empty_world cluster)) }
        ensures reached { IfOk result IsReached }
        ensures events { IfOk result (λ run. run.events ≡ 0) }
    {
        match Running::start(alloc, cluster) {
            Ok(running) => Ok(Run {
                running,
                text: Vec::new(alloc),
            }),
            Err(refusal) => Err(refusal),
        }
    }

    pub(crate) fn running(&self) -> &Running
        ensures { result.now ≡ self.now }
    {
        &self.running
    }

    // One event. What it prints is dropped.
    pub(crate) fn take(&mut self, alloc: Global, event: &Event) -> Result<(), WorldStop>
        requires line { IsLineEvent event.now }
        requires reached { IsReached self.old }
        requires few { self.old.events < 2 ^ 29 }
        ensures runs { Runs (λ w. taken w (event_as event.now)) self.old (outcome self.new result) }
        ensures reached { OnOk result (IsReached self.new) }
        ensures events { OnOk result (self.new.events ≡ self.old.events + 1) }
    {
        self.running.step(alloc, event, &mut self.text)
    }

    // An event, where there is one.
    pub(crate) fn take_if(&mut self, alloc: Global, event: &Option<Event>) -> Result<(), WorldStop>
        requires line { IsLine event.now }
        requires reached { IsReached self.old }
        requires few { self.old.events < 2 ^ 29 }
        ensures runs { Runs (all_taken (listed event.now)) self.old (outcome self.new result) }
        ensures reached { OnOk result (IsReached self.new) }
        ensures events { OnOk result (self.new.events ≤ self.old.events + 1) }
    {
        match event {
            None => Ok(()),
            Some(event) => self.take(alloc, event),
        }
    }

    // The events of a step.
    pub(crate) fn take_choice(&mut self, alloc: Global, choice: &Choice) -> Result<(), WorldStop>
        requires lines { AreLines choice.now }
        requires reached { IsReached self.old }
        requires few { self.old.events + 2 ≤ 2 ^ 29 }
        ensures runs { Runs (all_taken (events_in choice.now)) self.old (outcome self.new result) }
        ensures reached { OnOk result (IsReached self.new) }
        ensures events { OnOk result (self.new.events ≤ self.old.events + 2) }
    {
        match self.take_if(alloc, &choice.before) {
            Ok(()) => self.take_if(alloc, &choice.event),
            Err(stop) => Err(stop),
        }
    }

    // What each of so many peers is told.
    pub(crate) fn tell_each(
        &mut self,
        alloc: Global,
        order: PeerOrder,
        count: u32,
    ) -> Result<(), WorldStop>
        requires count { count ≤ 8 }
        requires reached { IsReached self.old }
        requires few { self.old.events + 8 ≤ 2 ^ 29 }
        ensures runs { Runs (each count (λ n w. taken w (told order n))) self.old (outcome self.new result) }
        ensures reached { OnOk result (IsReached self.new) }
        ensures events { OnOk result (self.new.events ≤ self.old.events + 8) }
    {
        for number in 0..count {
            match self.take(alloc, &peer_event(order, number)) {
                Ok(()) => {}
                Err(stop) => return Err(stop),
            }
        }
        Ok(())
    }
}
