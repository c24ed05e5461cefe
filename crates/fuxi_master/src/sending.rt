//! What a master sends.

ghost use Rattle.std.specs.Prelude.{◌≡◌, ◌<◌, ◌++◌, ℕ, true, length, map, IfOk, OnOk};
ghost use Rattle.std.specs.List.{AllByRecursion, flat_map};
ghost use Rattle.std.specs.Option.{option_map};
ghost use Rattle.fuxi_terms.specs.Jobs.{job_numbers};
ghost use Rattle.fuxi_terms.specs.Lists.{below};
ghost use Rattle.peer_channel.specs.Parcels.{IsSent};
ghost use Rattle.spec_roles.specs.MasterRoles.{MasterRole, master_turn, master_resynced};
ghost use Rattle.spec_roles.specs.MasterSteps.{master_party};
ghost use Rattle.spec_net.specs.Channels.{agent_id, app_id};
ghost use Rattle.spec_net.specs.Sides.{turn_parcels};
ghost use Rattle.peer_channel.specs.Parcels.{id_of, parcel_is};
ghost use Rattle.fuxi_master.specs.Cores.{IsCore, IsWithin, StandsFor};
ghost use Rattle.fuxi_master.specs.Resyncs.{agent_forgotten, app_forgotten};
ghost use Rattle.fuxi_master.specs.Seen.{core_of};
ghost use Rattle.fuxi_master.specs.Steps.{is_peer};

use crate::state::Core;
use fuxi_terms::OutOfMemory;
use grant_table::law;
use party_ledgers::{Demand, Grants, JoinLedger, Packets, RowLedger};
use peer_channel::Side;
use schedule_unit::{Party, Role};
use std::alloc::Global;

impl Core {
    // What one turn sends: to the agents in number order, and then to the applications of all jobs in number order.
    pub(crate) fn turn(&self, alloc: Global) -> Result<Packets, OutOfMemory>
        requires { IsCore (core_of self.now) }
        ensures sends { IfOk result (λ packets. (r : MasterRole) → StandsFor (core_of self.now) r → map parcel_is packets ≡ master_turn r) }
        ensures formed { IfOk result (AllByRecursion IsSent) }
    {
        let mut packets = Packets::new(alloc);
        self.agents_turn(alloc, &mut packets)?;
        self.apps_turn(alloc, &mut packets)?;
        Ok(packets)
    }

    // Appends what one turn sends to the agents.
    fn agents_turn(&self, alloc: Global, packets: &mut Packets) -> Result<(), OutOfMemory>
        requires { IsCore (core_of self.now) }
        ensures sends { OnOk result ((r : MasterRole) → StandsFor (core_of self.now) r → map parcel_is packets.new
            ≡ map parcel_is packets.old ++ flat_map (λ q. turn_parcels (master_party r.state) q (r.sides q)) (map agent_id (below (length r.cluster.machines)))) }
        ensures formed { AllByRecursion IsSent packets.old → OnOk result (AllByRecursion IsSent packets.new) }
    {
        self.allotment.table().is_sound();
        for number in 0..self.agents.len() {
            self.agents[number].turn(alloc, 0, number as u32, packets)?;
        }
        Ok(())
    }

    // Appends what one turn sends to the applications of all jobs.
    fn apps_turn(&self, alloc: Global, packets: &mut Packets) -> Result<(), OutOfMemory>
        requires { IsCore (core_of self.now) }
        ensures sends { OnOk result ((r : MasterRole) → StandsFor (core_of self.now) r → map parcel_is packets.new
            ≡ map parcel_is packets.old ++ flat_map (λ q. turn_parcels (master_party r.state) q (r.sides q)) (map app_id (job_numbers r.state.jobs))) }
        ensures formed { AllByRecursion IsSent packets.old → OnOk result (AllByRecursion IsSent packets.new) }
    {
        law::admitted_jobs();
        let _jobs = self.known.jobs();
        let table = self.allotment.table();
        table.is_sound();
        for index in 0..table.jobs() {
            let app = table.job(index).app();
            self.app(app.0).turn(alloc, 0, app.0, packets)?;
        }
        Ok(())
    }

    // What one turn sends to a peer.
    pub(crate) fn turn_to(&self, alloc: Global, peer: Party) -> Result<Packets, OutOfMemory>
        requires core { IsCore (core_of self.now) }
        requires peer { is_peer (core_of self.now) peer.role peer.number ≡ true }
        ensures sends { IfOk result (λ packets. (r : MasterRole) → StandsFor (core_of self.now) r → map parcel_is packets ≡ turn_parcels (master_party r.state) (id_of peer.role peer.number) (r.sides (id_of peer.role peer.number))) }
        ensures formed { IfOk result (AllByRecursion IsSent) }
    {
        let mut packets = Packets::new(alloc);
        let number = peer.number;
        match peer.role {
            Role::Master => unreachable!(),
            Role::Agent => {
                self.agent(number).turn(alloc, 0, number, &mut packets)?;
                Ok(packets)
            }
            Role::App => {
                self.app(number).turn(alloc, 0, number, &mut packets)?;
                Ok(packets)
            }
        }
    }

    // Forgets what the peers have acknowledged.
    pub(crate) fn resync(&mut self)
        requires { IsCore (core_of self.old) }
        ensures core { IsCore (core_of self.new) }
        ensures within { (n : ℕ) → IsWithin n (core_of self.old) → IsWithin n (core_of self.new) }
        ensures stands { (r : MasterRole) → StandsFor (core_of self.old) r → StandsFor (core_of self.new) (master_resynced r) }
    {
        resync_agents(&mut self.agents);
        resync_apps(&mut self.apps);
    }
}

// Forgets what the agents have acknowledged.
fn resync_agents(agents: &mut Vec<Side<RowLedger, JoinLedger>>)
    ensures { agents.new.items ≡ map agent_forgotten agents.old.items }
{
    for number in 0..agents.len() {
        agents[number].resync();
    }
}

// Forgets what the applications have acknowledged.
fn resync_apps(apps: &mut Vec<Option<Side<Grants, Demand>>>)
    ensures { apps.new.items ≡ map (option_map app_forgotten) apps.old.items }
{
    for number in 0..apps.len() {
        resync_slot(&mut apps[number]);
    }
}

// Forgets what the application of a slot has acknowledged, where there is one.
fn resync_slot(slot: &mut Option<Side<Grants, Demand>>)
    ensures { slot.new ≡ option_map app_forgotten slot.old }
{
    if let Some(side) = slot {
        side.resync();
    }
}
