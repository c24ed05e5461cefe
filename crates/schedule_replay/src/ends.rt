//! What the two parties of a channel have of it.

ghost use Rattle.std.specs.Prelude.{◌≡◌, ℕ, true};
ghost use Rattle.spec_net.specs.Net.{Net, Party as WrittenParty};
ghost use Rattle.spec_net.specs.Channels.{master_id};
ghost use Rattle.spec_net.specs.Ledgers.{Ledger};
ghost use Rattle.spec_net.specs.Sides.{Side};
ghost use Rattle.spec_roles.specs.Masters.{Master as WrittenMaster};
ghost use Rattle.spec_roles.specs.MasterRoles.{MasterRole};
ghost use Rattle.spec_roles.specs.MasterSteps.{master_party};
ghost use Rattle.spec_world.specs.Quiet.{is_at_rest};
ghost use Rattle.spec_refinement.specs.SeenWorlds.{side_of};
ghost use Rattle.peer_channel.specs.Parcels.{id_of};
ghost use Rattle.fuxi_master.specs.Cores.{StandsFor};
ghost use Rattle.fuxi_master.specs.Steps.{is_peer};
ghost use Rattle.agent_core.specs.AgentCores.{IsUp as IsAgentUp};
ghost use Rattle.app_master.specs.AppCores.{IsUp as IsAppUp};
ghost use Rattle.schedule_replay.specs.ChannelEnds.{IsEnd, has_heard_all};

use agent_core::Agent;
use app_master::AppMaster;
use delta_channel::Place;
use fuxi_master::Master;
use schedule_unit::Party;

// A party's end of a channel: its own incarnation, the place in its peer's history to which it has come, and the last index of its
// own history.
#[derive(Clone, Copy)]
pub struct End {
    pub own: u64,
    pub place: Place,
    pub last: u64,
}

// The master's end towards a peer: an agent of the cluster, or the application of a job that it knows.
pub fn master_end(master: &Master, peer: Party) -> End
    requires { is_peer master.now.core peer.role peer.number ≡ true }
    ensures { (r : MasterRole) → StandsFor master.now.core r → IsEnd result r.state.epoch (r.sides (id_of peer.role peer.number)) }
{
    End {
        own: master.epoch(),
        place: master.place(peer),
        last: master.last(peer),
    }
}

pub fn agent_end(agent: &Agent) -> End
    ensures { (inc : ℕ) (e : Side) → IsAgentUp agent.now.up inc e → IsEnd result inc e }
{
    End {
        own: agent.boot(),
        place: agent.place(),
        last: agent.last(),
    }
}

pub fn app_end(app: &AppMaster) -> End
    ensures { (inc : ℕ) (e : Side) → IsAppUp app.now.up inc e → IsEnd result inc e }
{
    End {
        own: app.boot(),
        place: app.place(),
        last: app.last(),
    }
}

// Whether the receiver has come to the last index of what the sender of this incarnation sent, which has an entry.
fn has_all(sender: End, receiver: End) -> bool
    ensures { result ≡ has_heard_all sender receiver }
{
    receiver.place.inc == sender.own && receiver.place.seq == sender.last && 0 < sender.last
}

// Whether a peer of a master has joined it, and both have heard all that the other sent.
pub fn are_at_rest(master: End, peer: End) -> bool
    ensures { (net : Net Ledger) (m : WrittenMaster) (p : WrittenParty) → IsEnd master m.epoch (side_of net (master_party m) p.id)
        → IsEnd peer p.inc (side_of net p master_id) → result ≡ is_at_rest net m p }
{
    has_all(master, peer) && has_all(peer, master)
}
