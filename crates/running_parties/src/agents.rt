//! Agents in slots.

ghost use Rattle.std.specs.Prelude.{◌≡◌, ◌<◌, ◌≤◌, ℕ, OnOk, OnErr};
ghost use Rattle.fuxi_terms.specs.Limits.{most_machines};
ghost use Rattle.running_parties.specs.Slots.{AreWithin};
ghost use Rattle.running_parties.specs.Peers.{AgentStartInWorld, agent_steps};

use crate::party::Party;
use crate::slots::Slots;
use agent_core::Agent;
use ledger_law::OutOfMemory;
use party_ledgers::{Header, Kind, Packet, Packets};
use peer_channel::Reply;
use res_vector::Res;
use schedule_unit::MachineNo;
use spec_refinement::parties;
use std::alloc::Global;

impl Party for Agent {
    ghost use Rattle.running_parties.specs.Peers.{AgentStands, agent_steps};

    ghost stands = { AgentStands };

    ghost steps = { agent_steps };

    fn hear(self, alloc: Global, packet: Packet) -> Result<(Agent, Reply), OutOfMemory> {
        Agent::hear(self, alloc, &packet)
    }

    fn leaves(&self, header: &Header) -> Option<Reply> {
        Agent::leaves(self, header)
    }

    fn turn(self, alloc: Global) -> Result<(Agent, Packets), OutOfMemory> {
        let packets = Agent::turn(&self, alloc)?;
        Ok((self, packets))
    }

    fn resync(self, alloc: Global) -> Result<Agent, OutOfMemory> {
        let mut agent = self;
        Agent::resync(&mut agent);
        Ok(agent)
    }
}

/// Starts the agent of a machine, which has so much, in a boot, which is at least 1. One that runs there is gone. Want of memory
/// leaves all as it was.
pub fn start_agent(
    agents: &mut Slots<Agent>,
    alloc: Global,
    machine: MachineNo,
    has: Res,
    boot: u64,
) -> Result<(), OutOfMemory>
    requires machine { machine.0 < most_machines }
    requires boot { 0 < boot }
    ensures world { OnOk result (AgentStartInWorld machine.0 has.q boot agents.old agents.new) }
    ensures within { OnOk result ((n : ℕ) → AreWithin agent_steps n agents.old → AreWithin agent_steps n agents.new) }
    ensures err { OnErr result (agents.new ≡ agents.old) }
{
    parties::parties_join();
    let agent = Agent::start(alloc, machine, has, boot)?;
    agents.start(machine.0 as u64, agent, boot)
}
