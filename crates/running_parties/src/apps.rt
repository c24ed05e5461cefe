//! Applications in slots.

ghost use Rattle.std.specs.Prelude.{◌≡◌, ◌+◌, ◌<◌, ◌≤◌, ℕ, IfOk, OnOk, OnErr};
ghost use Rattle.fuxi_terms.specs.Limits.{most_jobs, most_units};
ghost use Rattle.party_commands.specs.CommandedParties.{app_command};
ghost use Rattle.running_parties.specs.Slots.{AreWithin, IsStill, MayStep, slot_at};
ghost use Rattle.running_parties.specs.Peers.{AppStartInWorld, AskInWorld, app_steps};

use crate::party::Party;
use crate::slots::Slots;
use app_master::AppMaster;
use cluster_desc::Cluster;
use ledger_law::OutOfMemory;
use party_commands::AppCommand;
use party_ledgers::{Header, Kind, Packet, Packets};
use peer_channel::Reply;
use schedule_text::Refusal;
use schedule_unit::AppNo;
use spec_refinement::parties;
use std::alloc::Global;

impl Party for AppMaster {
    ghost use Rattle.running_parties.specs.Peers.{AppStands, app_steps};

    ghost stands = { AppStands };

    ghost steps = { app_steps };

    fn hear(self, alloc: Global, packet: Packet) -> Result<(AppMaster, Reply), OutOfMemory> {
        AppMaster::hear(self, alloc, &packet)
    }

    fn leaves(&self, header: &Header) -> Option<Reply> {
        AppMaster::leaves(self, header)
    }

    fn turn(self, alloc: Global) -> Result<(AppMaster, Packets), OutOfMemory> {
        let packets = AppMaster::turn(&self, alloc)?;
        Ok((self, packets))
    }

    fn resync(self, alloc: Global) -> Result<AppMaster, OutOfMemory> {
        let mut app = self;
        AppMaster::resync(&mut app);
        Ok(app)
    }
}

/// Starts the application of a job, which has so many units, in a boot, which is at least 1. One that runs of it is gone. Want of
/// memory leaves all as it was.
pub fn start_app(
    apps: &mut Slots<AppMaster>,
    alloc: Global,
    app: AppNo,
    units: u8,
    cluster: &Cluster,
    boot: u64,
) -> Result<(), OutOfMemory>
    requires job { app.0 < most_jobs }
    requires units { units ≤ most_units }
    requires boot { 0 < boot }
    ensures world { OnOk result (AppStartInWorld app.0 units cluster.now boot apps.old apps.new) }
    ensures within { OnOk result ((n : ℕ) → AreWithin app_steps n apps.old → AreWithin app_steps n apps.new) }
    ensures err { OnErr result (apps.new ≡ apps.old) }
{
    parties::parties_join();
    let core = AppMaster::start(alloc, app, units, cluster, boot)?;
    apps.start(app.0 as u64, core, boot)
}

/// The application of a job is asked: why it refuses, or `None` where it is done; `None` where none runs. Want of memory leaves it as it
/// was.
pub fn ask(
    apps: &mut Slots<AppMaster>,
    alloc: Global,
    app: AppNo,
    asked: AppCommand,
) -> Result<Option<Option<Refusal>>, OutOfMemory>
    requires { MayStep app_steps (slot_at apps.old app.0) }
    ensures world { IfOk result (AskInWorld app.0 (app_command asked) apps.old apps.new) }
    ensures within { (n : ℕ) → AreWithin app_steps n apps.old → AreWithin app_steps (n + 1) apps.new }
    ensures err { OnErr result (IsStill app.0 apps.old apps.new) }
{
    parties::parties_join();
    let Some(mut core) = apps.take(app.0 as u64) else {
        return Ok(None);
    };
    let answer = party_commands::ask(&mut core, alloc, asked);
    apps.put(app.0 as u64, core);
    match answer {
        Ok(refusal) => Ok(Some(refusal)),
        Err(OutOfMemory) => Err(OutOfMemory),
    }
}
