//! The party of a node that is an application.

ghost use Rattle.std.specs.Prelude.{◌≡◌, ◌<◌, ◌≤◌, ◌&&◌, IfOk};
ghost use Rattle.fuxi_terms.specs.Limits.{most_jobs, most_units};
ghost use Rattle.spec_net.specs.Net.{same_id};
ghost use Rattle.spec_net.specs.Channels.{app_id, is_master};
ghost use Rattle.spec_roles.specs.Apps.{new_app};
ghost use Rattle.node_core.specs.Roles.{OfApp, id_in};
ghost use Rattle.node_parties.specs.AppParties.{StandsAs};

use app_master::AppMaster;
use cluster_desc::Cluster;
use fuxi_io::Disk;
use fuxi_terms::OutOfMemory;
use node_core::{Answer, Core, Node, Turn, write_turn};
use party_commands::{CommandError, PartyCommand, ask, command_of};
use party_ledgers::Packet;
use party_text::write_app;
use schedule_text::{Event, Refusal};
use schedule_unit::{AppNo, Party, Role};
use std::alloc::Global;
use std::marker::Model;

/// The application of one job, in one boot, as the party of a node. Each call that changes it is a step; fewer than 2^50 may be taken.
#[derive(Drop)]
pub struct AppNode {
    app: AppMaster,
    job: AppNo,
}

impl Model for AppNode {
    ghost use Rattle.app_master.specs.AppCores.{AppCore};
    ghost use Rattle.node_parties.specs.AppParties.{IsOfJob};

    ghost Value = { AppCore };

    ghost view = { λ n. n.app };

    ghost invariant = { λ n. IsOfJob n.job.0 n.app };
}

impl AppNode {
    /// The application of a job, in a boot from 1 on: it knows no master, asks for nothing and holds nothing. The job's number is at
    /// most 255, and it has at most 8 units. Where memory is refused there is no application.
    pub fn start(
        alloc: Global,
        app: AppNo,
        units: u8,
        cluster: &Cluster,
        boot: u64,
    ) -> Result<AppNode, OutOfMemory>
        requires job { app.0 < most_jobs }
        requires units { units ≤ most_units }
        requires boot { 0 < boot }
        ensures stands { IfOk result (λ n. StandsAs n (OfApp (new_app app.0 units cluster.now boot))) }
        ensures steps { IfOk result (λ n. n.steps ≡ 0) }
    {
        match AppMaster::start(alloc, app, units, cluster, boot) {
            Ok(core) => Ok(AppNode {
                app: core,
                job: app,
            }),
            Err(OutOfMemory) => Err(OutOfMemory),
        }
    }
}

// Whether a packet is for the application of this job, and of a master.
fn is_for(packet: &Packet, job: AppNo) -> bool
    ensures { result ≡ (same_id (id_in packet.now.to) (app_id job.0) && is_master (id_in packet.now.from)) }
{
    (matches!(packet.to.role, Role::App) && packet.to.number == job.0)
        && (matches!(packet.from.role, Role::Master) && packet.from.number == 0)
}

impl Core for AppNode {
    ghost use Rattle.node_parties.specs.AppParties.{StandsAs};
    ghost use Rattle.std.specs.Prelude.{⊤};

    ghost stands = { StandsAs };

    ghost steps = { λ n. n.steps };

    ghost rests = { λ n size told. ⊤ };

    fn allows(&self, _peer: Option<Party>, packet: &Packet) -> bool {
        is_for(packet, self.job)
    }

    fn hear(self, alloc: Global, packet: Packet) -> Result<AppNode, OutOfMemory> {
        let AppNode { app, job } = self;
        match app.on_packet(alloc, &packet) {
            Ok((app, _)) => Ok(AppNode { app, job }),
            Err(OutOfMemory) => Err(OutOfMemory),
        }
    }

    fn turn(self, alloc: Global, _peer: Option<Party>) -> Result<(AppNode, Turn), OutOfMemory> {
        let packets = match self.app.turn(alloc) {
            Ok(packets) => packets,
            Err(OutOfMemory) => return Err(OutOfMemory),
        };
        let from = Party {
            role: Role::App,
            number: self.job.0,
            inc: self.app.boot(),
        };
        let to = Party {
            role: Role::Master,
            number: 0,
            inc: self.app.place().inc,
        };
        match write_turn(alloc, &packets, from, to) {
            Ok(turn) => Ok((self, turn)),
            Err(OutOfMemory) => Err(OutOfMemory),
        }
    }
}

impl Node for AppNode {
    ghost use Rattle.std.specs.Prelude.{⊤};

    ghost fits = { λ r moments. ⊤ };

    ghost halts = { λ before after moments. ⊤ };

    ghost fitting = { λ core r size moments stands rests. tt };

    fn accepts(&self) -> bool {
        false
    }

    fn command<D: Disk>(
        mut self,
        alloc: Global,
        event: &Event,
        _disk: &mut D,
    ) -> Result<(AppNode, Answer), CommandError> {
        match command_of(event) {
            Some(PartyCommand::Resync(Role::App, job)) => {
                if job != self.job.0 as u64 {
                    return Ok((self, Answer::Refused(Refusal::NotRunning)));
                }
                self.app.resync();
                Ok((self, Answer::Done))
            }
            Some(PartyCommand::App(job, command)) => {
                if job.0 != self.job.0 {
                    return Ok((self, Answer::Refused(Refusal::NotRunning)));
                }
                match ask(&mut self.app, alloc, command) {
                    Ok(None) => Ok((self, Answer::Done)),
                    Ok(Some(refusal)) => Ok((self, Answer::Refused(refusal))),
                    Err(OutOfMemory) => Err(CommandError::Memory),
                }
            }
            _ => Ok((self, Answer::NotHere)),
        }
    }

    fn write_state(&self, out: &mut Vec<u8>) -> Result<(), OutOfMemory> {
        write_app(&self.app, self.job, out)
    }
}
