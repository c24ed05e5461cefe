//! The party of a node that is an agent.

ghost use Rattle.std.specs.Prelude.{◌≡◌, ◌<◌, ◌&&◌, IfOk};
ghost use Rattle.fuxi_terms.specs.Limits.{most_machines};
ghost use Rattle.spec_net.specs.Net.{same_id};
ghost use Rattle.spec_net.specs.Channels.{agent_id, is_master};
ghost use Rattle.spec_roles.specs.Agents.{new_agent};
ghost use Rattle.node_core.specs.Roles.{OfAgent, id_in};
ghost use Rattle.node_parties.specs.AgentParties.{StandsAs};

use agent_core::Agent;
use fuxi_io::Disk;
use fuxi_terms::OutOfMemory;
use node_core::{Answer, Core, Node, Turn, write_turn};
use party_commands::{CommandError, PartyCommand, command_of};
use party_ledgers::Packet;
use party_text::write_agent;
use res_vector::Res;
use schedule_text::{Event, Refusal};
use schedule_unit::{MachineNo, Party, Role};
use std::alloc::Global;
use std::marker::Model;

/// The agent of one machine, in one boot, as the party of a node. Each call that changes it is a step; fewer than 2^50 may be taken.
#[derive(Drop)]
pub struct AgentNode {
    agent: Agent,
    machine: MachineNo,
}

impl Model for AgentNode {
    ghost use Rattle.std.specs.Prelude.{◌≡◌};
    ghost use Rattle.agent_core.specs.AgentCores.{AgentCore};

    ghost Value = { AgentCore };

    ghost view = { λ n. n.agent };

    ghost invariant = { λ n. n.machine.0 ≡ n.agent.machine };
}

impl AgentNode {
    /// The agent of a machine that has so much, in a boot. It knows no master and carries nothing. The machine is at most 255 and
    /// the boot at least 1. Where memory is refused there is no agent.
    pub fn start(
        alloc: Global,
        machine: MachineNo,
        has: Res,
        boot: u64,
    ) -> Result<AgentNode, OutOfMemory>
        requires machine { machine.0 < most_machines }
        requires boot { 0 < boot }
        ensures stands { IfOk result (λ n. StandsAs n (OfAgent (new_agent machine.0 has.q boot))) }
        ensures steps { IfOk result (λ n. n.steps ≡ 0) }
    {
        match Agent::start(alloc, machine, has, boot) {
            Ok(agent) => Ok(AgentNode { agent, machine }),
            Err(OutOfMemory) => Err(OutOfMemory),
        }
    }
}

// Whether a packet is for the agent of this machine, and of a master.
fn is_for(packet: &Packet, machine: MachineNo) -> bool
    ensures { result ≡ (same_id (id_in packet.now.to) (agent_id machine.0) && is_master (id_in packet.now.from)) }
{
    (matches!(packet.to.role, Role::Agent) && packet.to.number == machine.0)
        && (matches!(packet.from.role, Role::Master) && packet.from.number == 0)
}

impl Core for AgentNode {
    ghost use Rattle.node_parties.specs.AgentParties.{StandsAs};
    ghost use Rattle.std.specs.Prelude.{⊤};

    ghost stands = { StandsAs };

    ghost steps = { λ n. n.steps };

    ghost rests = { λ n size told. ⊤ };

    fn allows(&self, _peer: Option<Party>, packet: &Packet) -> bool {
        is_for(packet, self.machine)
    }

    fn hear(self, alloc: Global, packet: Packet) -> Result<AgentNode, OutOfMemory> {
        let AgentNode { agent, machine } = self;
        match agent.on_packet(alloc, &packet) {
            Ok((agent, _)) => Ok(AgentNode { agent, machine }),
            Err(OutOfMemory) => Err(OutOfMemory),
        }
    }

    fn turn(self, alloc: Global, _peer: Option<Party>) -> Result<(AgentNode, Turn), OutOfMemory> {
        let packets = match self.agent.turn(alloc) {
            Ok(packets) => packets,
            Err(OutOfMemory) => return Err(OutOfMemory),
        };
        let from = Party {
            role: Role::Agent,
            number: self.machine.0,
            inc: self.agent.boot(),
        };
        let to = Party {
            role: Role::Master,
            number: 0,
            inc: self.agent.place().inc,
        };
        match write_turn(alloc, &packets, from, to) {
            Ok(turn) => Ok((self, turn)),
            Err(OutOfMemory) => Err(OutOfMemory),
        }
    }
}

impl Node for AgentNode {
    ghost use Rattle.std.specs.Prelude.{⊤};

    ghost fits = { λ r moments. ⊤ };

    ghost halts = { λ before after moments. ⊤ };

    ghost fitting = { λ core r size moments stands rests. tt };

    fn accepts(&self) -> bool {
        false
    }

    fn command<D: Disk>(
        mut self,
        _alloc: Global,
        event: &Event,
        _disk: &mut D,
    ) -> Result<(AgentNode, Answer), CommandError> {
        let Some(PartyCommand::Resync(Role::Agent, machine)) = command_of(event) else {
            return Ok((self, Answer::NotHere));
        };
        if machine != self.machine.0 as u64 {
            return Ok((self, Answer::Refused(Refusal::NotRunning)));
        }
        self.agent.resync();
        Ok((self, Answer::Done))
    }

    fn write_state(&self, out: &mut Vec<u8>) -> Result<(), OutOfMemory> {
        write_agent(&self.agent, self.machine, out)
    }
}
