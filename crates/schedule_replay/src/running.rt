//! All that runs, lent event by event.

ghost use Rattle.std.specs.Prelude.{◌≡◌, ◌+◌, ◌<◌, ◌^◌, ◌++◌, length, is_some, IfOk, IfErr, OnOk, OnErr};
ghost use Rattle.std.specs.Option.{option_copied};
ghost use Rattle.std.specs.Ordering.{nat_cmp};
ghost use Rattle.std.specs.FinMap.Entries.{find};
ghost use Rattle.running_parties.specs.Slots.{slot_at};
ghost use Rattle.spec_world.specs.World.{World as WrittenWorld, empty_world};
ghost use Rattle.spec_world.specs.Quiet.{is_quiet};
ghost use Rattle.spec_world.specs.Show.{show};
ghost use Rattle.schedule_text.specs.Writing.{IsLineEvent};
ghost use Rattle.schedule_replay.specs.LineEvents.{event_as};
ghost use Rattle.schedule_replay.specs.ReplayTexts.{lines_text};
ghost use Rattle.schedule_replay.specs.Worlds.{IsReached, IsWorld, StandsFor};
ghost use Rattle.schedule_replay.specs.WorldSteps.{Takes, StopsAt};

use crate::acts::act;
use crate::checkpoint::Checkpoint;
use crate::stop::WorldStop;
use crate::{PacketPool, is_quiet, law, write_state};
use agent_core::Agent;
use app_master::AppMaster;
use cluster_desc::Cluster;
use fuxi_master::Master;
use fuxi_terms::OutOfMemory;
use running_parties::Slots;
use schedule_text::Event;
use schedule_unit::{AppNo, MachineNo};
use std::alloc::Global;
use std::marker::Model;

/// All that runs at once, with the hard state of the masters and the frames of all packets that were ever sent. Who steps it by events lends
/// it: what a `World` keeps as its invariant (`IsReached`) is a condition and a clause here, and after a stop nothing is said of it.
pub struct Running {
    pub(crate) cluster: Cluster,
    pub(crate) checkpoint: Checkpoint,
    pub(crate) masters: Slots<Master>,
    pub(crate) agents: Slots<Agent>,
    pub(crate) apps: Slots<AppMaster>,
    pub(crate) pool: PacketPool,
    pub(crate) events: u64,
}

// Written out, so that who lets one go checks this call and not all of its parts.
impl Drop for Running {
    fn drop(self) {
        let Running {
            cluster,
            checkpoint,
            masters,
            agents,
            apps,
            pool,
            events,
        } = self;
    }
}

impl Model for Running {
    ghost use Rattle.schedule_replay.specs.Worlds.{WorldRecord};

    ghost Value = { WorldRecord };

    ghost view = { λ r. record { cluster = r.cluster; checkpoint = r.checkpoint; masters = r.masters; agents = r.agents; apps = r.apps; pool = r.pool; events = r.events } };
}

impl Running {
    /// What runs on a cluster in which nothing has happened. Where memory is refused nothing runs, and the cluster is
    /// gone.
    pub fn start(alloc: Global, cluster: Cluster) -> Result<Running, OutOfMemory>
        ensures world { IsWorld (empty_world cluster) }
        ensures stands { IfOk result (λ running. StandsFor running (empty_world cluster)) }
        ensures reached { IfOk result IsReached }
        ensures events { IfOk result (λ running. running.events ≡ 0) }
    {
        spec_world::law::good_at_start();
        spec_world::law::worlds_in_order();
        // A cluster is valid.
        let _machines = cluster.machines();
        let checkpoint = Checkpoint::open(alloc)?;
        Ok(Running {
            cluster,
            checkpoint,
            masters: Slots::none(alloc),
            agents: Slots::none(alloc),
            apps: Slots::none(alloc),
            pool: PacketPool::new(alloc),
            events: 0,
        })
    }

    /// One event. `out` then has what it prints, and nothing that it had before. The event is one that a line can give, and fewer than 2^29
    /// were taken. After a stop what runs is not to be used, and nothing is said of `out`.
    ///
    /// `TooManyPackets` comes where with the packets of the event more than 1,000,000 would have been sent, and then
    /// `PoolBytes` where the frames of all would have more than 2^30 bytes together. `OutOfMemory` may come in place
    /// of any answer.
    pub fn step(&mut self, alloc: Global, event: &Event, out: &mut Vec<u8>) -> Result<(), WorldStop>
        requires line { IsLineEvent event.now }
        requires reached { IsReached self.old }
        requires events { self.old.events < 2 ^ 29 }
        ensures takes { OnOk result (Takes (event_as event.now) self.old self.new out.new.items) }
        ensures reached { OnOk result (IsReached self.new) }
        ensures events { OnOk result (self.new.events ≡ self.old.events + 1) }
        ensures stops { IfErr result (StopsAt (event_as event.now) self.old) }
    {
        spec_world::law::every_event_keeps_good();
        spec_world::law::worlds_in_order();
        crate::law::events_are_inputs();
        law::cores_may_step();
        law::written_frame_lengths();
        self.events += 1;
        out.clear();
        match act(self, alloc, event, out) {
            Ok(()) => {}
            Err(stop) => return Err(stop),
        }
        let _packets = self.pool.len();
        let _bytes = self.pool.bytes();
        Ok(())
    }

    /// Appends the lines of the state. A refusal leaves `out` as it was.
    pub fn write_state(&self, out: &mut Vec<u8>) -> Result<(), OutOfMemory>
        requires { IsReached self.now }
        ensures ok { OnOk result ((w : WrittenWorld) → IsWorld w → StandsFor self.now w → out.new.items ≡ out.old.items ++ lines_text (show w)) }
        ensures err { OnErr result (out.new.items ≡ out.old.items) }
    {
        let length = out.len();
        match write_state(
            &self.cluster,
            self.checkpoint.hard(),
            &self.masters,
            &self.agents,
            &self.apps,
            self.events,
            self.pool.len(),
            out,
        ) {
            Ok(()) => Ok(()),
            Err(refusal) => {
                out.truncate(length);
                Err(refusal)
            }
        }
    }

    /// Whether a master of the epoch runs, every agent runs, has joined it and is reported to it, every running application of its jobs has
    /// joined it, and each channel between that master and each of these is caught up at index 1 or more. It takes no memory.
    pub fn quiet(&self, epoch: u64) -> bool
        requires { IsReached self.now }
        ensures { (w : WrittenWorld) → IsWorld w → StandsFor self.now w → result ≡ is_quiet w epoch }
    {
        is_quiet(
            &self.cluster,
            self.checkpoint.hard(),
            &self.masters,
            &self.agents,
            &self.apps,
            epoch,
        )
    }

    /// The master of an epoch as it runs; `None` exactly where none of that epoch runs. It takes no memory.
    pub fn master(&self, epoch: u64) -> Option<&Master>
        ensures core { option_copied result ≡ slot_at self.now.masters epoch }
        ensures runs { (w : WrittenWorld) → StandsFor self.now w → is_some result ≡ is_some (find nat_cmp epoch w.masters) }
    {
        running_parties::law::parties_run();
        self.masters.get(epoch)
    }

    /// The agent of a machine as it runs; `None` exactly where none runs there. It takes no memory.
    pub fn agent(&self, machine: MachineNo) -> Option<&Agent>
        ensures core { option_copied result ≡ slot_at self.now.agents machine.0 }
        ensures runs { (w : WrittenWorld) → StandsFor self.now w → is_some result ≡ is_some (find nat_cmp machine.0 w.agents) }
    {
        running_parties::law::parties_run();
        self.agents.get(machine.0 as u64)
    }

    /// The application of a job as it runs; `None` exactly where none runs. It takes no memory.
    pub fn app(&self, app: AppNo) -> Option<&AppMaster>
        ensures core { option_copied result ≡ slot_at self.now.apps app.0 }
        ensures runs { (w : WrittenWorld) → StandsFor self.now w → is_some result ≡ is_some (find nat_cmp app.0 w.apps) }
    {
        running_parties::law::parties_run();
        self.apps.get(app.0 as u64)
    }

    /// How many events it took, refused ones too. It takes no memory.
    pub fn steps(&self) -> u64
        ensures { result ≡ self.now.events }
    {
        self.events
    }

    /// How many packets were sent, at most 1,000,000. It takes no memory.
    pub fn packets(&self) -> u64
        ensures { (w : WrittenWorld) → StandsFor self.now w → result ≡ length w.net.packets }
    {
        self.pool.len()
    }

    /// The fence of the hard state. It takes no memory.
    pub fn fence(&self) -> u64
        ensures { (w : WrittenWorld) → StandsFor self.now w → result ≡ w.hard.fence }
    {
        self.checkpoint.hard().fence()
    }
}
