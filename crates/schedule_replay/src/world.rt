//! The world that events step.

ghost use Rattle.std.specs.Prelude.{◌≡◌, ℕ, ◌+◌, ◌<◌, ◌^◌, ◌++◌, length, is_some, IfOk, IfErr, OnOk, OnErr};
ghost use Rattle.std.specs.Option.{option_copied};
ghost use Rattle.std.specs.Ordering.{nat_cmp};
ghost use Rattle.std.specs.FinMap.Entries.{find};
ghost use Rattle.running_parties.specs.Slots.{slot_at};
ghost use Rattle.spec_world.specs.World.{World as WrittenWorld, empty_world};
ghost use Rattle.spec_world.specs.Quiet.{is_quiet};
ghost use Rattle.spec_world.specs.Show.{show};
ghost use Rattle.schedule_text.specs.Writing.{IsLineEvent};
ghost use Rattle.schedule_replay.specs.LineEvents.{event_as};
ghost use Rattle.schedule_replay.specs.ReplayTexts.{lines_text};
ghost use Rattle.schedule_replay.specs.Worlds.{IsReached, IsWorld, StandsFor};
ghost use Rattle.schedule_replay.specs.WorldSteps.{Takes, StopsAt};

use crate::lines::Lines;
use crate::running::Running;
use crate::stop::WorldStop;
use agent_core::Agent;
use app_master::AppMaster;
use cluster_desc::Cluster;
use fuxi_master::Master;
use fuxi_terms::OutOfMemory;
use schedule_text::Event;
use schedule_unit::{AppNo, MachineNo};
use std::alloc::Global;
use std::marker::Model;

/// All that runs at once: the masters, agents and applications of a cluster, the hard state of its masters, and the frames of all packets
/// that were ever sent.
///
/// Whatever happened to it, it stands for a world of the definitions to which events lead (`IsReached`): so what holds of every such world
/// holds of the cores that run.
pub struct World {
    /// On the heap, so that who hands a world on hands on a pointer.
    running: Box<Running>,
}

// Written out, so that who lets one go checks this call and not all of its parts.
impl Drop for World {
    fn drop(self) {
        let World { running } = self;
    }
}

impl Model for World {
    ghost use Rattle.schedule_replay.specs.Worlds.{WorldRecord, IsReached};

    ghost Value = { WorldRecord };

    ghost view = { λ w. w.running.value };

    ghost invariant = { λ w. IsReached w.running.value };
}

impl World {
    /// The world of a cluster in which nothing has happened. Where memory is refused there is no world, and the
    /// cluster is gone.
    pub fn start(alloc: Global, cluster: Cluster) -> Result<World, OutOfMemory>
        ensures world { IsWorld (empty_world cluster) }
        ensures stands { IfOk result (λ world. StandsFor world (empty_world cluster)) }
        ensures events { IfOk result (λ world. world.events ≡ 0) }
    {
        let running = Running::start(alloc, cluster)?;
        Ok(World {
            running: Box::new(alloc, running)?,
        })
    }

    /// One event: the world behind it, and what it prints. The event is one that a line can give, and fewer than 2^29
    /// were taken. After a stop the world is gone.
    ///
    /// `TooManyPackets` comes where with the packets of the event more than 1,000,000 would have been sent, and then
    /// `PoolBytes` where the frames of all would have more than 2^30 bytes together. `OutOfMemory` may come in place
    /// of any answer.
    pub fn step(self, alloc: Global, event: &Event) -> Result<(World, Lines), WorldStop>
        requires line { IsLineEvent event.now }
        requires events { self.events < 2 ^ 29 }
        ensures takes { IfOk result (λ after. Takes (event_as event.now) self after.0 after.1) }
        ensures events { IfOk result (λ after. after.0.events ≡ self.events + 1) }
        ensures stops { IfErr result (StopsAt (event_as event.now) self) }
    {
        let World { running } = self;
        let mut running = running;
        let mut text = Vec::new(alloc);
        match running.step(alloc, event, &mut text) {
            Ok(()) => Ok((World { running }, Lines::of(text))),
            Err(stop) => Err(stop),
        }
    }

    /// Appends the lines of the state. A refusal leaves `out` as it was.
    pub fn write_state(&self, out: &mut Vec<u8>) -> Result<(), OutOfMemory>
        ensures ok { OnOk result ((w : WrittenWorld) → IsWorld w → StandsFor self.now w → out.new.items ≡ out.old.items ++ lines_text (show w)) }
        ensures err { OnErr result (out.new.items ≡ out.old.items) }
    {
        self.running.write_state(out)
    }

    /// What runs stands for a world of the definitions to which events lead, whatever happened: that is the invariant of the type, for who
    /// speaks of the cores.
    pub fn is_reached(&self)
        ensures { IsReached self.now }
    {
        let _running: &Running = &self.running;
    }

    /// Whether a master of the epoch runs, every agent runs, has joined it and is reported to it, every running application of its jobs has
    /// joined it, and each channel between that master and each of these is caught up at index 1 or more. It takes no memory.
    pub fn quiet(&self, epoch: u64) -> bool
        ensures { (w : WrittenWorld) → IsWorld w → StandsFor self.now w → result ≡ is_quiet w epoch }
    {
        self.running.quiet(epoch)
    }

    /// The master of an epoch as it runs; `None` exactly where none of that epoch runs. It takes no memory.
    pub fn master(&self, epoch: u64) -> Option<&Master>
        ensures core { option_copied result ≡ slot_at self.now.masters epoch }
        ensures runs { (w : WrittenWorld) → StandsFor self.now w → is_some result ≡ is_some (find nat_cmp epoch w.masters) }
    {
        self.running.master(epoch)
    }

    /// The agent of a machine as it runs; `None` exactly where none runs there. It takes no memory.
    pub fn agent(&self, machine: MachineNo) -> Option<&Agent>
        ensures core { option_copied result ≡ slot_at self.now.agents machine.0 }
        ensures runs { (w : WrittenWorld) → StandsFor self.now w → is_some result ≡ is_some (find nat_cmp machine.0 w.agents) }
    {
        self.running.agent(machine)
    }

    /// The application of a job as it runs; `None` exactly where none runs. It takes no memory.
    pub fn app(&self, app: AppNo) -> Option<&AppMaster>
        ensures core { option_copied result ≡ slot_at self.now.apps app.0 }
        ensures runs { (w : WrittenWorld) → StandsFor self.now w → is_some result ≡ is_some (find nat_cmp app.0 w.apps) }
    {
        self.running.app(app)
    }

    /// How many events it took, refused ones too. It takes no memory.
    pub fn steps(&self) -> u64
        ensures { result ≡ self.now.events }
    {
        self.running.steps()
    }

    /// How many packets were sent, at most 1,000,000. It takes no memory.
    pub fn packets(&self) -> u64
        ensures { (w : WrittenWorld) → StandsFor self.now w → result ≡ length w.net.packets }
    {
        self.running.packets()
    }

    /// The fence of the hard state. It takes no memory.
    pub fn fence(&self) -> u64
        ensures { (w : WrittenWorld) → StandsFor self.now w → result ≡ w.hard.fence }
    {
        self.running.fence()
    }
}
