//! The agent, towards all applications.

ghost use Rattle.std.specs.Prelude.{◌≡◌, ◌<◌, None, IsSome, IfOk, OnOk, get_or};
ghost use Rattle.fuxi_terms.specs.Limits.{most_units};
ghost use Rattle.work_plan.specs.WorkEvents.{agent_starts, row_set};
ghost use Rattle.work_plan.specs.WorkSettling.{settled_all};
ghost use Rattle.work_plan.specs.AgentWithApps.{World};
ghost use Rattle.work_plan.specs.WorkMoves.{HearsAgent, IsNew};
ghost use Rattle.work_plan.specs.WorkWorlds.{IsAgent, IsFresh, IsHeld};

use crate::parts::{Agent, Peer};
use crate::peer::{count_peer, hear_peer};
use crate::places::put;
use crate::{Ends, Heard, Parcel, Plan, Workers};
use fuxi_terms::OutOfMemory;
use ledger_law::Ledger;
use schedule_unit::{AppNo, UnitNo};
use std::alloc::Global;

// The agent of a new boot, which has nothing of any application.
pub fn new_agent(alloc: Global, boot: u64) -> Result<Agent, OutOfMemory>
    ensures { IfOk result (λ agent. (w : World) → w.agent < boot → IsFresh w → IsAgent agent (settled_all (agent_starts boot w))) }
{
    let workers = Workers::start(alloc)?;
    Ok(Agent {
        boot,
        peers: Vec::new(alloc),
        workers,
    })
}

// An application of which the agent had nothing.
fn new_peer(alloc: Global, boot: u64) -> Result<Peer, OutOfMemory>
    ensures { IfOk result (IsNew boot) }
{
    let ends = Ends::start(alloc, boot)?;
    Ok(Peer {
        ends,
        plan: Plan::empty(alloc),
        counts: [0; 8],
    })
}

// Makes room for what the agent has of an application, where it has nothing of it yet.
pub fn ensure_peer(agent: &mut Agent, alloc: Global, app: AppNo) -> Result<(), OutOfMemory>
    requires { IsHeld agent.old }
    ensures same { OnOk result ((w : World) → IsAgent agent.old w → IsAgent agent.new w) }
    ensures there { OnOk result (IsSome (get_or agent.new.peers.items app.0 None)) }
    ensures admitted { OnOk result (IsSome (get_or agent.new.workers app.0 None)) }
{
    if agent.workers.is_admitted(app) {
        return Ok(());
    }
    let peer = new_peer(alloc, agent.boot)?;
    agent.workers.admit(alloc, app)?;
    put(&mut agent.peers, app.0, peer)
}

// So many workers of a unit of an application may run now.
pub fn count_workers(
    agent: &mut Agent,
    alloc: Global,
    app: AppNo,
    unit: UnitNo,
    count: u32,
) -> Result<(), OutOfMemory>
    requires held { IsHeld agent.old }
    requires unit { unit.0 < most_units }
    ensures { OnOk result ((w : World) → IsAgent agent.old w → IsAgent agent.new (settled_all (row_set app.0 unit.0 count w))) }
{
    ensure_peer(agent, alloc, app)?;
    match &mut agent.peers[app.0 as usize] {
        Some(peer) => count_peer(alloc, app, unit, count, peer, &mut agent.workers),
        None => unreachable!(),
    }
}

// A packet of an application is heard.
pub fn hear_app(agent: &mut Agent, alloc: Global, parcel: &Parcel) -> Result<Heard, OutOfMemory>
    requires { IsHeld agent.old }
    ensures { IfOk result (λ heard. HearsAgent parcel.now heard agent.old agent.new) }
{
    let app = AppNo(parcel.from.number);
    ensure_peer(agent, alloc, app)?;
    match &mut agent.peers[app.0 as usize] {
        Some(peer) => hear_peer(alloc, app, parcel, peer, &mut agent.workers),
        None => unreachable!(),
    }
}
