//! The lines of the state.

ghost use Rattle.std.specs.Prelude.{◌≡◌, length, OnOk, OnErr};
ghost use Rattle.spec_world.specs.World.{World};
ghost use Rattle.spec_world.specs.Good.{Good};
ghost use Rattle.spec_world.specs.Show.{show};
ghost use Rattle.spec_world.specs.Orders.{IsInOrder};
ghost use Rattle.schedule_text.specs.Writing.{Begins};
ghost use Rattle.party_text.specs.Texts.{Shows};
ghost use Rattle.running_parties.specs.Peers.{AreAgentsOf, AreAppsOf};
ghost use Rattle.running_parties.specs.RunningMasters.{AreMastersOf};
ghost use Rattle.schedule_replay.specs.Parts.{AreOfJobs, AreOnMachines, show_parties};
ghost use Rattle.schedule_replay.specs.ShownStates.{IsKnown, IsRunningOf};

use crate::agent_states::write_agents;
use crate::app_states::write_apps;
use crate::master_states::write_masters;
use agent_core::Agent;
use app_master::AppMaster;
use cluster_desc::Cluster;
use fuxi_master::Master;
use fuxi_terms::OutOfMemory;
use hard_state::Hard;
use party_text::{write_hard, write_line};
use running_parties::{Slots, law};
use schedule_text::Output;

// The parties that run on so many machines.
#[tactic(auto, using(spec_refinement::proofs::ShowsLemmas::begins_then))]
fn write_parties(
    machines: u32,
    masters: &Slots<Master>,
    agents: &Slots<Agent>,
    apps: &Slots<AppMaster>,
    out: &mut Vec<u8>,
) -> Result<(), OutOfMemory>
    requires agents { AreOnMachines agents.now }
    requires apps { AreOfJobs apps.now }
    ensures ok { OnOk result ((w : World) → Good w → IsInOrder w → machines ≡ length w.cluster.machines → AreMastersOf w masters.now → AreAgentsOf w agents.now → AreAppsOf w apps.now
        → Shows (show_parties w) out.old.items out.new.items) }
    ensures begins { Begins out.old.items out.new.items }
{
    match write_masters(masters, out) {
        Ok(()) => {}
        Err(refusal) => return Err(refusal),
    }
    match write_agents(agents, machines, out) {
        Ok(()) => {}
        Err(refusal) => return Err(refusal),
    }
    match write_apps(apps, out) {
        Ok(()) => Ok(()),
        Err(refusal) => Err(refusal),
    }
}

/// Appends the lines of the state: how many events there were, the hard state, the masters, the agents and the applications that run,
/// and how many packets were sent. After a refusal nothing is said of what stands in `out`.
#[tactic(auto, using(spec_refinement::proofs::ShowsLemmas::begins_then))]
pub fn write_state(
    cluster: &Cluster,
    hard: &Hard,
    masters: &Slots<Master>,
    agents: &Slots<Agent>,
    apps: &Slots<AppMaster>,
    events: u64,
    packets: u64,
    out: &mut Vec<u8>,
) -> Result<(), OutOfMemory>
    requires known { IsKnown (record { cluster = cluster.now; hard = hard.now.value; masters = masters.now; agents = agents.now; apps = apps.now }) }
    ensures ok { OnOk result ((w : World) → IsRunningOf w (record { cluster = cluster.now; hard = hard.now.value; masters = masters.now; agents = agents.now; apps = apps.now })
        → events ≡ w.events → packets ≡ length w.net.packets → Shows (show w) out.old.items out.new.items) }
    ensures err { OnErr result (Begins out.old.items out.new.items) }
{
    law::parties_run();
    match write_line(&Output::State(events), out) {
        Ok(()) => {}
        Err(refusal) => return Err(refusal),
    }
    match write_hard(hard, out) {
        Ok(()) => {}
        Err(refusal) => return Err(refusal),
    }
    match write_parties(cluster.machines(), masters, agents, apps, out) {
        Ok(()) => {}
        Err(refusal) => return Err(refusal),
    }
    match write_line(&Output::Packets(packets), out) {
        Ok(()) => Ok(()),
        Err(refusal) => Err(refusal),
    }
}
