//! The test.

ghost use Rattle.std.specs.Prelude.{◌≡◌, ◌<◌, ℕ, T, true, length};
ghost use Rattle.std.specs.List.{list_all};
ghost use Rattle.std.specs.Ordering.{nat_cmp};
ghost use Rattle.std.specs.FinMap.Entries.{find, is_sorted};
ghost use Rattle.fuxi_terms.specs.Lists.{below};
ghost use Rattle.spec_roles.specs.Masters.{Master as WrittenMaster};
ghost use Rattle.spec_roles.specs.Refusals.{with_found};
ghost use Rattle.spec_world.specs.World.{World, App};
ghost use Rattle.spec_world.specs.Good.{Good};
ghost use Rattle.spec_world.specs.Quiet.{is_quiet, is_agent_quiet, is_app_quiet};
ghost use Rattle.spec_refinement.specs.SeenWorlds.{master_seen};
ghost use Rattle.fuxi_master.specs.Cores.{StandsFor};
ghost use Rattle.running_parties.specs.Peers.{AreAgentsOf, AreAppsOf};
ghost use Rattle.schedule_replay.specs.ShownStates.{IsKnown, IsRunningOf};

use crate::ends::{agent_end, app_end, are_at_rest, master_end};
use agent_core::Agent;
use app_master::AppMaster;
use cluster_desc::Cluster;
use fuxi_master::Master;
use fuxi_terms::limits::MOST_JOBS;
use hard_state::Hard;
use running_parties::{Slots, law};
use schedule_unit::{AppNo, MachineNo, Party, Role};

/// Whether a master of the epoch runs, every agent runs, has joined it and is reported to it, every running application of its jobs has
/// joined it, and each channel between that master and each of these is caught up at index 1 or more. It takes no memory.
pub fn is_quiet(
    cluster: &Cluster,
    hard: &Hard,
    masters: &Slots<Master>,
    agents: &Slots<Agent>,
    apps: &Slots<AppMaster>,
    epoch: u64,
) -> bool
    requires known { IsKnown (record { cluster = cluster.now; hard = hard.now.value; masters = masters.now; agents = agents.now; apps = apps.now }) }
    ensures { (w : World) → IsRunningOf w (record { cluster = cluster.now; hard = hard.now.value; masters = masters.now; agents = agents.now; apps = apps.now }) → result ≡ is_quiet w epoch }
{
    law::parties_run();
    let Some(master) = masters.get(epoch) else {
        return false;
    };
    if !are_agents_quiet(master, agents, cluster.machines()) {
        return false;
    }
    are_apps_quiet(master, apps)
}

// Whether each agent of a cluster of so many machines runs, is reported, and is at rest with the master.
fn are_agents_quiet(master: &Master, agents: &Slots<Agent>, machines: u32) -> bool
    requires { machines ≡ length master.now.core.allotment.table.cluster.machines }
    ensures { (w : World) (m : WrittenMaster) → StandsFor master.now.core (master_seen w m) → AreAgentsOf w agents.now
        → result ≡ list_all (is_agent_quiet w m) (below machines) }
{
    for machine in 0..machines {
        if !is_agent_quiet(master, agents, MachineNo(machine)) {
            return false;
        }
    }
    true
}

fn is_agent_quiet(master: &Master, agents: &Slots<Agent>, machine: MachineNo) -> bool
    requires { machine.0 < length master.now.core.allotment.table.cluster.machines }
    ensures { (w : World) (m : WrittenMaster) → StandsFor master.now.core (master_seen w m) → AreAgentsOf w agents.now
        → result ≡ is_agent_quiet w m machine.0 }
{
    law::parties_run();
    let Some(agent) = agents.get(machine.0 as u64) else {
        return false;
    };
    if !master.reported().has(machine) {
        return false;
    }
    let peer = Party {
        role: Role::Agent,
        number: machine.0,
        inc: agent.boot(),
    };
    are_at_rest(master_end(master, peer), agent_end(agent))
}

// Whether each application that runs of a job of the master's is at rest with it.
fn are_apps_quiet(master: &Master, apps: &Slots<AppMaster>) -> bool
    ensures { (w : World) (m : WrittenMaster) → Good w → StandsFor master.now.core (master_seen w m) → AreAppsOf w apps.now → T (is_sorted nat_cmp w.apps)
        → result ≡ list_all (λ (g : ℕ × App). is_app_quiet w m g.0 g.1) w.apps }
{
    for number in 0..MOST_JOBS {
        if !is_app_quiet(master, apps, AppNo(number)) {
            return false;
        }
    }
    true
}

// A job whose application does not run is quiet, and so is one that the master does not know.
fn is_app_quiet(master: &Master, apps: &Slots<AppMaster>, app: AppNo) -> bool
    ensures { (w : World) (m : WrittenMaster) → StandsFor master.now.core (master_seen w m) → AreAppsOf w apps.now
        → result ≡ with_found (find nat_cmp app.0 w.apps) true (is_app_quiet w m app.0) }
{
    law::parties_run();
    let Some(core) = apps.get(app.0 as u64) else {
        return true;
    };
    if !master.knows(app) {
        return true;
    }
    let peer = Party {
        role: Role::App,
        number: app.0,
        inc: core.boot(),
    };
    are_at_rest(master_end(master, peer), app_end(core))
}
