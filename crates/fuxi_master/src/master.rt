//! The master of one epoch.

ghost use Rattle.std.specs.Prelude.{◌≡◌, ◌+◌, ◌<◌, ◌≤◌, ℕ, T, true, if◌then◌else◌, length, map, Some, IfOk, IfSome};
ghost use Rattle.std.specs.List.{AllByRecursion};
ghost use Rattle.std.specs.Ordering.{nat_cmp};
ghost use Rattle.std.specs.FinMap.Entries.{is_sorted};
ghost use Rattle.fuxi_terms.specs.Cluster.{has_at};
ghost use Rattle.fuxi_terms.specs.Jobs.{is_known, unit_count};
ghost use Rattle.fuxi_terms.specs.Limits.{most_steps};
ghost use Rattle.fuxi_terms.specs.Tables.{total_at};
ghost use Rattle.fuxi_terms.specs.TallyKeys.{want_key};
ghost use Rattle.peer_channel.specs.Parcels.{id_of, IsSent};
ghost use Rattle.party_ledgers.specs.Packets.{IsFormed};
ghost use Rattle.party_ledgers.specs.PacketHeaders.{header_of};
ghost use Rattle.party_ledgers.specs.declared.packets.Packet.{Packet};
ghost use Rattle.grant_table.specs.GrantTables.{as_known};
ghost use Rattle.place_pass.specs.Placers.{asks_seen};
ghost use Rattle.spec_roles.specs.MasterRoles.{MasterRole, master_started};
ghost use Rattle.spec_roles.specs.Masters.{asked, avoids, out, out_of};
ghost use Rattle.spec_roles.specs.Votes.{votes_in};
ghost use Rattle.fuxi_master.specs.Cores.{StandsFor};
ghost use Rattle.fuxi_master.specs.Readers.{place_in, last_in, place_of};
ghost use Rattle.fuxi_master.specs.Steps.{IsFitting, IsSentFormed, StepsAlike, is_peer};

use crate::event::{MasterEvent, Outcome};
use crate::state::Core;
use crate::step::{heard, stepped};
use bad_nodes::Votes;
use cluster_desc::Cluster;
use delta_channel::Place;
use failover::{Machines, Phase};
use fuxi_terms::OutOfMemory;
use grant_table::GrantTable;
use hard_state::{Hard, Known};
use party_ledgers::{Header, Kind, Packet, Packets};
use peer_channel::Reply;
use place_pass::Line;
use schedule_unit::{AppNo, MachineNo, Party, UnitNo};
use std::alloc::Global;
use std::marker::Model;

/// The FuxiMaster of one epoch. Whatever packets come, its table fits each machine.
///
/// What its calls do is said of every master of the definitions that it stands for (`StandsFor`). Each call that changes it is a
/// step; fewer than 2^50 may be taken.
pub struct Master {
    /// On the heap, so that who hands a master on hands on a pointer.
    core: Box<Core>,
    steps: u64,
}

// Written out, so that who lets one go checks this call and not all of its parts.
impl Drop for Master {
    fn drop(self) {
        let Master { core, steps } = self;
    }
}

impl Model for Master {
    ghost use Rattle.fuxi_master.specs.Cores.{MasterRecord, IsMaster};
    ghost use Rattle.fuxi_master.specs.Seen.{core_of};

    ghost Value = { MasterRecord };

    ghost view = { λ m. record { core = core_of m.core.value; steps = m.steps } };

    ghost invariant = { λ m. IsMaster (record { core = core_of m.core.value; steps = m.steps }) };
}

impl Master {
    /// The master of a cluster and an epoch, which is at least 1, with the jobs and bans of the hard state, ended jobs too. It is
    /// rebuilding: it knows of no grant and no peer. Where memory is refused there is no master.
    pub fn start(
        alloc: Global,
        cluster: &Cluster,
        epoch: u64,
        hard: &Hard,
    ) -> Result<Master, OutOfMemory>
        requires { 0 < epoch }
        ensures stands { IfOk result (λ m. StandsFor m.core (master_started cluster.now hard.now.value epoch)) }
        ensures steps { IfOk result (λ m. m.steps ≡ 0) }
    {
        let known = Known::of(alloc, hard)?;
        let started = Core::start(alloc, cluster, epoch, known)?;
        let core = Box::new(alloc, started)?;
        Ok(Master { core, steps: 0 })
    }

    /// One step: what the master makes of an event, with the end of the step. Every condition of an event stands at its variant.
    ///
    /// Where memory is refused the master is gone.
    pub fn step(self, alloc: Global, event: MasterEvent) -> Result<(Master, Outcome), OutOfMemory>
        requires fitting { IsFitting self.core event }
        requires steps { self.steps < most_steps }
        ensures steps { IfOk result (λ after. after.0.steps ≡ self.steps + 1) }
        ensures answers { IfOk result (λ after. StepsAlike event self.core after.0.core after.1) }
        ensures formed { IfOk result (λ after. IsSentFormed after.1) }
    {
        let Master { core, steps } = self;
        let (core, outcome) = stepped(core, alloc, event, steps + 1)?;
        Ok((
            Master {
                core,
                steps: steps + 1,
            },
            outcome,
        ))
    }

    /// Hears a packet as [`Master::step`] does, with a word in few bytes.
    pub fn hear(self, alloc: Global, packet: Packet) -> Result<(Master, Reply), OutOfMemory>
        requires formed { IsFormed packet }
        requires no_end { packet.kind ≡ Kind.End → ⊥ }
        requires steps { self.steps < most_steps }
        ensures steps { IfOk result (λ after. after.0.steps ≡ self.steps + 1) }
        ensures answers { IfOk result (λ after. StepsAlike (MasterEvent.Packet packet) self.core after.0.core (Outcome.Heard after.1)) }
    {
        let Master { core, steps } = self;
        let (core, reply) = heard(core, alloc, packet, steps + 1)?;
        Ok((
            Master {
                core,
                steps: steps + 1,
            },
            reply,
        ))
    }

    /// As what a packet with this header is heard, where that can be told without its body and hearing it changes nothing: by a step
    /// with which the master stays as it is. It takes no memory.
    pub fn leaves(&self, header: &Header) -> Option<Reply>
        ensures { IfSome result (λ reply. (x : Packet) → IsFormed x → header_of x ≡ header.now → StepsAlike (MasterEvent.Packet x) self.now.core self.now.core (Outcome.Heard reply)) }
    {
        self.core.leaves(header)
    }

    /// What its next turn sends, as [`Master::step`] says it.
    pub fn turn(self, alloc: Global) -> Result<(Master, Packets), OutOfMemory>
        requires steps { self.steps < most_steps }
        ensures steps { IfOk result (λ after. after.0.steps ≡ self.steps + 1) }
        ensures answers { IfOk result (λ after. StepsAlike MasterEvent.Turn self.core after.0.core (Outcome.Sent after.1)) }
        ensures formed { IfOk result (λ after. AllByRecursion IsSent after.1) }
    {
        let packets = self.core.turn(alloc)?;
        let Master { core, steps } = self;
        Ok((
            Master {
                core,
                steps: steps + 1,
            },
            packets,
        ))
    }

    /// Its epoch.
    pub fn epoch(&self) -> u64
        ensures epoch { result ≡ self.now.core.epoch }
        ensures stands { (r : MasterRole) → StandsFor self.now.core r → result ≡ r.state.epoch }
    {
        self.core.epoch
    }

    /// Whether it serves.
    pub fn phase(&self) -> Phase
        ensures phase { result ≡ (if self.now.core.serving then Phase.Serving else Phase.Rebuilding) }
        ensures stands { (r : MasterRole) → StandsFor self.now.core r → result ≡ (if r.state.serving then Phase.Serving else Phase.Rebuilding) }
    {
        if self.core.serving {
            Phase::Serving
        } else {
            Phase::Rebuilding
        }
    }

    /// The machines that are reported.
    pub fn reported(&self) -> &Machines
        ensures reported { result.now ≡ self.now.core.reported }
        ensures stands { (r : MasterRole) → StandsFor self.now.core r → result.now.numbers ≡ r.state.reported }
        ensures rising { T (is_sorted {X = ℕ} nat_cmp (map (λ (m : ℕ). (m, 0)) result.now.numbers)) }
        ensures below { AllByRecursion (λ m. m < length self.now.core.allotment.table.cluster.machines) result.now.numbers }
    {
        &self.core.reported
    }

    /// Its table of grants. Each machine has room for its grants, in each resource.
    pub fn table(&self) -> &GrantTable
        ensures table { result.now ≡ self.now.core.allotment.table }
        ensures fits { (m i : ℕ) → m < length result.now.cluster.machines → total_at (as_known result.now.jobs) m i result.now.entries ≤ has_at result.now.cluster m i }
        ensures stands { (r : MasterRole) → StandsFor self.now.core r → result.now.entries ≡ r.state.table }
        ensures units { (a : ℕ) → unit_count (as_known result.now.jobs) a ≡ unit_count self.now.core.known.jobs a }
    {
        let table = self.core.allotment.table();
        table.is_sound();
        table
    }

    /// The waiting pairs of a job and a unit, in their order.
    pub fn waiting(&self) -> &Line
        ensures line { result.now.pairs ≡ self.now.core.allotment.placer.seen.line }
        ensures stands { (r : MasterRole) → StandsFor self.now.core r → result.now.pairs ≡ r.state.line }
    {
        self.core.allotment.placer().waiting()
    }

    /// How many grants of a unit of a job that is known are out: wanted and not held.
    pub fn out(&self, app: AppNo, unit: UnitNo) -> u32
        requires { unit.0 < unit_count self.now.core.known.jobs app.0 }
        ensures out { result ≡ out_of (asks_seen self.now.core.allotment.placer.seen) self.now.core.allotment.table.entries app.0 unit.0 }
        ensures stands { (r : MasterRole) → StandsFor self.now.core r → result ≡ out r.state app.0 unit.0 }
    {
        self.core.outstanding(app, unit)
    }

    /// How many grants of a unit of a job that is known the job wants in all, by the master's demand of it. No memory is taken.
    pub fn wanted(&self, app: AppNo, unit: UnitNo) -> u32
        requires { unit.0 < unit_count self.now.core.known.jobs app.0 }
        ensures stands { (r : MasterRole) → StandsFor self.now.core r → result ≡ asked r.state app.0 (want_key unit.0) }
    {
        self.core.wanted(app, unit)
    }

    /// Whether a unit of a job that is known avoids the machine, by the master's demand of the job. No memory is taken.
    pub fn avoided(&self, app: AppNo, unit: UnitNo, machine: MachineNo) -> bool
        requires { unit.0 < unit_count self.now.core.known.jobs app.0 }
        ensures stands { (r : MasterRole) → StandsFor self.now.core r → result ≡ avoids r.state app.0 unit.0 machine.0 }
    {
        self.core.avoided(app, unit, machine)
    }

    /// How many of its jobs mark each machine of the cluster as bad, and which machines it has banned. What is asked of a job
    /// is read once for each job. Where memory is refused it tells nothing of them.
    pub fn votes(&self, alloc: Global) -> Result<Votes, OutOfMemory>
        ensures stands { IfOk result (λ votes. (r : MasterRole) → StandsFor self.now.core r → votes ≡ votes_in r.cluster r.state) }
    {
        self.core.votes(alloc)
    }

    /// Whether the job is one of this master's, ended or not.
    pub fn knows(&self, app: AppNo) -> bool
        ensures known { result ≡ is_known self.now.core.known.jobs app.0 }
        ensures stands { (r : MasterRole) → StandsFor self.now.core r → result ≡ is_known r.state.jobs app.0 }
    {
        self.core.known.job(app).is_some()
    }

    /// The place in the history of a peer: an agent of the cluster, or the application of a job that is known.
    pub fn place(&self, party: Party) -> Place
        requires { is_peer self.now.core party.role party.number ≡ true }
        ensures place { place_in self.now.core party.role party.number ≡ Some result }
        ensures stands { (r : MasterRole) → StandsFor self.now.core r → result ≡ place_of (r.sides (id_of party.role party.number)) }
    {
        self.core.place(party)
    }

    /// The last index of what such a peer is sent.
    pub fn last(&self, party: Party) -> u64
        requires { is_peer self.now.core party.role party.number ≡ true }
        ensures last { last_in self.now.core party.role party.number ≡ Some result }
        ensures stands { (r : MasterRole) → StandsFor self.now.core r → result ≡ length (r.sides (id_of party.role party.number)).sent }
    {
        self.core.last(party)
    }

    /// The number of its steps.
    pub fn steps(&self) -> u64
        ensures { result ≡ self.now.steps }
    {
        self.steps
    }
}
