ghost use Rattle.std.specs.Prelude.{◌≡◌, ◌+◌, ◌<◌, ◌≤◌, ◌&&◌, true, nat_eq, IfOk, IfSome, OnOk, [], map, List, if◌then◌else◌, nat_lt};
ghost use Rattle.std.specs.List.{AllByRecursion};
ghost use Rattle.fuxi_terms.specs.Limits.{most_machines, most_steps};
ghost use Rattle.fuxi_terms.specs.Rows.{row_total};
ghost use Rattle.fuxi_terms.specs.Vectors.{fits};
ghost use Rattle.party_ledgers.specs.Packets.{IsFormed};
ghost use Rattle.party_ledgers.specs.PacketHeaders.{header_of};
ghost use Rattle.party_ledgers.specs.declared.packets.Packet.{Packet};
ghost use Rattle.spec_net.specs.Net.{same_id};
ghost use Rattle.spec_net.specs.Channels.{agent_id, is_master};
ghost use Rattle.spec_roles.specs.Agents.{AgentRole, new_agent, table_by};
ghost use Rattle.peer_channel.specs.Parcels.{party_of, role_number, IsSent};
ghost use Rattle.agent_core.specs.AgentCores.{StandsFor, table_in};
ghost use Rattle.agent_core.specs.AgentSeen.{IsWhole, core_of};
ghost use Rattle.agent_core.specs.Answering.{AnswersAlike, SendsAlike, ResyncsAlike, Steps};

use crate::limit::RowLimit;
use delta_channel::Place;
use ledger_law::{Ledger, OutOfMemory};
use party_ledgers::{Header, Heard, JoinLedger, Kind, Packet, Packets, RowLedger};
use peer_channel::{Limit, Reply, Side, law};
use res_vector::{Res, Sum};
use schedule_unit::{MachineNo, Party, Role};
use std::alloc::Global;
use std::marker::Model;

/// The agent of one machine, in one boot. Its table fits the machine, whatever packets come.
///
/// What its calls do is said of every agent of the definitions that it stands for (`StandsFor`). Each call that changes it is
/// a step; fewer than 2^50 may be taken.
#[derive(Drop)]
pub struct Agent {
    /// On the heap, so that who hands an agent on hands on a pointer.
    core: Box<Core>,
}

// What an agent keeps.
#[derive(Drop)]
pub(crate) struct Core {
    machine: MachineNo,
    limit: RowLimit,
    // What the received row takes.
    total: Sum,
    up: Side<JoinLedger, RowLedger>,
    steps: u64,
}

impl Model for Agent {
    ghost use Rattle.agent_core.specs.AgentCores.{AgentCore};
    ghost use Rattle.agent_core.specs.AgentSeen.{IsWhole, core_of};

    ghost Value = { AgentCore };

    ghost view = { λ a. core_of a.core.value };

    ghost invariant = { λ a. IsWhole a.core.value };
}

impl Agent {
    /// The agent of a machine that has so much, in a boot. It knows no master and carries nothing. The machine is at most 255 and
    /// the boot at least 1. Where memory is refused there is no agent.
    pub fn start(
        alloc: Global,
        machine: MachineNo,
        has: Res,
        boot: u64,
    ) -> Result<Agent, OutOfMemory>
        requires machine { machine.0 < most_machines }
        requires boot { 0 < boot }
        ensures stands { IfOk result (λ a. StandsFor a (new_agent machine.0 has.q boot)) }
        ensures steps { IfOk result (λ a. a.steps ≡ 0) }
    {
        let limit = RowLimit { has };
        let core = Core {
            machine,
            limit,
            total: limit.nothing(),
            up: Side::start(alloc, boot)?,
            steps: 0,
        };
        Ok(Agent {
            core: Box::new(alloc, core)?,
        })
    }

    /// Hears a packet that is formed and no End. An agent that hears a new master joins its epoch: it carries the table that it had,
    /// and reports it. Answers the agent after it, whether the sender is a new master, and the word of the rule that ended it.
    ///
    /// Where memory is refused the agent is gone.
    pub fn on_packet(self, alloc: Global, packet: &Packet) -> Result<(Agent, Heard), OutOfMemory>
        requires formed { IsFormed packet.now }
        requires no_end { packet.now.kind ≡ Kind.End → ⊥ }
        requires steps { self.steps < most_steps }
        ensures hears { IfOk result (λ after. AnswersAlike packet.now self after.0 after.1) }
        ensures steps { IfOk result (λ after. Steps self after.0) }
    {
        match self.hear(alloc, packet) {
            Ok((agent, reply)) => Ok((agent, reply.heard())),
            Err(fault) => Err(fault),
        }
    }

    /// Hears a packet as [`Agent::on_packet`] does, with a word in few bytes.
    pub fn hear(self, alloc: Global, packet: &Packet) -> Result<(Agent, Reply), OutOfMemory>
        requires formed { IsFormed packet.now }
        requires no_end { packet.now.kind ≡ Kind.End → ⊥ }
        requires steps { self.steps < most_steps }
        ensures hears { IfOk result (λ after. AnswersAlike packet.now self after.0 after.1) }
        ensures steps { IfOk result (λ after. Steps self after.0) }
    {
        let Agent { core } = self;
        let mut core = core;
        match core.hear(alloc, packet) {
            Ok(reply) => Ok((Agent { core }, reply)),
            Err(fault) => Err(fault),
        }
    }

    /// As what a packet with this header is heard, where that can be told without its body and hearing it changes nothing. It takes no
    /// memory.
    pub fn leaves(&self, header: &Header) -> Option<Reply>
        ensures { IfSome result (λ reply. (x : Packet) → IsFormed x → header_of x ≡ header.now → AnswersAlike x self.now self.now reply) }
    {
        let core = &self.core;
        if !is_for(&header.from, &header.to, core.machine) {
            return None;
        }
        core.up.leaves(header)
    }

    /// What the next turn sends: nothing where no master is known. It changes nothing. Where memory is refused there
    /// are no packets.
    pub fn turn(&self, alloc: Global) -> Result<Packets, OutOfMemory>
        ensures sends { IfOk result (SendsAlike self.now) }
        ensures formed { IfOk result (AllByRecursion IsSent) }
    {
        let mut packets = Packets::new(alloc);
        let core = &self.core;
        if core.up.peer() == 0 {
            return Ok(packets);
        }
        core.up.turn(alloc, core.machine.0, 0, &mut packets)?;
        Ok(packets)
    }

    /// Forgets what the master has acknowledged, so that the next turn sends the whole report. It is a step.
    pub fn resync(&mut self)
        requires { self.old.steps < most_steps }
        ensures resyncs { ResyncsAlike self.old self.new }
        ensures steps { Steps self.old self.new }
    {
        let core = &mut self.core;
        core.steps += 1;
        core.up.resync();
    }

    /// The table that the agent enforces: what came of the master's row, and before that what was carried. It fits the machine.
    pub fn table(&self) -> &RowLedger
        ensures value { result.now ≡ table_in self.now.up }
        ensures table { (r : AgentRole) → StandsFor self.now r → result.now ≡ table_by r.up }
        ensures fits { fits (row_total result.now) self.now.has ≡ true }
    {
        self.core.table()
    }

    /// The place in the master's history.
    pub fn place(&self) -> Place
        ensures { result ≡ self.now.up.incoming.place }
    {
        self.core.up.place()
    }

    /// The incarnation of this agent.
    pub fn boot(&self) -> u64
        ensures { result ≡ self.now.up.outgoing.own }
    {
        self.core.up.own()
    }

    /// The last index of its own channel.
    pub fn last(&self) -> u64
        ensures { result ≡ self.now.up.outgoing.last }
    {
        self.core.up.last()
    }

    /// The number of its steps.
    pub fn steps(&self) -> u64
        ensures { result ≡ self.now.steps }
    {
        self.core.steps
    }
}

impl Core {
    // Hears a packet. Where memory is refused nothing is said of what is left.
    fn hear(&mut self, alloc: Global, packet: &Packet) -> Result<Reply, OutOfMemory>
        requires formed { IsFormed packet.now }
        requires no_end { packet.now.kind ≡ Kind.End → ⊥ }
        requires steps { self.old.steps < most_steps }
        requires whole { IsWhole self.old }
        ensures hears { IfOk result (AnswersAlike packet.now (core_of self.old) (core_of self.new)) }
        ensures steps { OnOk result (Steps (core_of self.old) (core_of self.new)) }
        ensures whole { OnOk result (IsWhole self.new) }
    {
        self.steps += 1;
        if !is_for(&packet.from, &packet.to, self.machine) {
            law::strangers_change_nothing();
            return Ok(Reply::stranger());
        }
        if packet.from.inc <= self.up.peer() {
            return self.up.hear(alloc, packet, &self.limit, &mut self.total);
        }
        let table = self.table().copy(alloc)?;
        let heard = self.up.hear(alloc, packet, &self.limit, &mut self.total)?;
        self.up
            .post(alloc, JoinLedger::make(packet.from.inc, table))?;
        Ok(heard)
    }

    // The table that is enforced.
    fn table(&self) -> &RowLedger
        ensures value { result.now ≡ table_in self.now.up }
        ensures table { (r : AgentRole) → StandsFor (core_of self.now) r → result.now ≡ table_by r.up }
    {
        if self.up.place().seq == 0 {
            self.up.sent().table()
        } else {
            self.up.got()
        }
    }
}

// Whether a party is an agent.
fn is_agent(role: Role) -> bool
    ensures { result ≡ nat_eq (role_number role) 2 }
{
    matches!(role, Role::Agent)
}

// Whether a party is a master.
fn is_master(role: Role) -> bool
    ensures { result ≡ nat_eq (role_number role) 1 }
{
    matches!(role, Role::Master)
}

// Whether what one party sends to another is for the agent of this machine, and of a master.
fn is_for(from: &Party, to: &Party, machine: MachineNo) -> bool
    ensures { result ≡ (same_id (party_of to.now).id (agent_id machine.0) && is_master (party_of from.now).id) }
{
    (is_agent(to.role) && to.number == machine.0) && (is_master(from.role) && from.number == 0)
}
