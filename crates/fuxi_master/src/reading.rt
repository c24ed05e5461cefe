//! What is read of a master.

ghost use Rattle.std.specs.Prelude.{◌≡◌, ◌<◌, nat_lt, true, length, Some, slice_get};
ghost use Rattle.fuxi_terms.specs.Jobs.{unit_count};
ghost use Rattle.fuxi_terms.specs.Limits.{most_jobs, most_machines};
ghost use Rattle.fuxi_terms.specs.TallyKeys.{avoid_key, want_key};
ghost use Rattle.schedule_unit.specs.declared.party.Role.TheVariants.{Agent as AsAgent, App as AsApp};
ghost use Rattle.peer_channel.specs.Parcels.{id_of};
ghost use Rattle.place_pass.specs.Placers.{asks_seen};
ghost use Rattle.spec_roles.specs.MasterRoles.{MasterRole};
ghost use Rattle.spec_roles.specs.Masters.{asked, avoids, out, out_of};
ghost use Rattle.fuxi_master.specs.Cores.{IsCore, StandsFor};
ghost use Rattle.fuxi_master.specs.Readers.{place_in, last_in, place_of};
ghost use Rattle.fuxi_master.specs.Seen.{core_of};
ghost use Rattle.fuxi_master.specs.Steps.{is_peer};

use crate::state::Core;
use delta_channel::Place;
use party_ledgers::{Demand, Grants, JoinLedger, RowLedger};
use peer_channel::Side;
use schedule_unit::{AppNo, MachineNo, Party, Role, UnitNo};

impl Core {
    // How many grants of a unit of a known job are out: wanted and not held.
    pub(crate) fn outstanding(&self, app: AppNo, unit: UnitNo) -> u32
        requires core { IsCore (core_of self.now) }
        requires unit { unit.0 < unit_count self.now.known.jobs app.0 }
        ensures outstanding { result ≡ out_of (asks_seen self.now.allotment.placer.seen) self.now.allotment.table.entries app.0 unit.0 }
        ensures stands { (r : MasterRole) → StandsFor (core_of self.now) r → result ≡ out r.state app.0 unit.0 }
    {
        self.allotment.outstanding(app, unit)
    }

    // How many grants a unit of a known job wants in all.
    pub(crate) fn wanted(&self, app: AppNo, unit: UnitNo) -> u32
        requires core { IsCore (core_of self.now) }
        requires unit { unit.0 < unit_count self.now.known.jobs app.0 }
        ensures wanted { result ≡ asks_seen self.now.allotment.placer.seen app.0 (want_key unit.0) }
        ensures stands { (r : MasterRole) → StandsFor (core_of self.now) r → result ≡ asked r.state app.0 (want_key unit.0) }
    {
        self.allotment.placer().wanted(app, unit)
    }

    // Whether a unit of a known job avoids the machine.
    pub(crate) fn avoided(&self, app: AppNo, unit: UnitNo, machine: MachineNo) -> bool
        requires core { IsCore (core_of self.now) }
        requires unit { unit.0 < unit_count self.now.known.jobs app.0 }
        ensures avoided { result ≡ nat_lt 0 (asks_seen self.now.allotment.placer.seen app.0 (avoid_key unit.0 machine.0)) }
        ensures stands { (r : MasterRole) → StandsFor (core_of self.now) r → result ≡ avoids r.state app.0 unit.0 machine.0 }
    {
        self.allotment.placer().avoids(app, unit, machine)
    }

    // The end of the channel with the agent of a machine.
    pub(crate) fn agent(&self, number: u32) -> &Side<RowLedger, JoinLedger>
        requires core { IsCore (core_of self.now) }
        requires peer { is_peer (core_of self.now) AsAgent number ≡ true }
        ensures there { slice_get (core_of self.now).agents number ≡ Some result.now }
        ensures small { number < most_machines }
    {
        self.allotment.table().is_sound();
        &self.agents[number as usize]
    }

    // The end of the channel with the application of a known job.
    pub(crate) fn app(&self, number: u32) -> &Side<Grants, Demand>
        requires core { IsCore (core_of self.now) }
        requires peer { is_peer (core_of self.now) AsApp number ≡ true }
        ensures there { slice_get (core_of self.now).apps number ≡ Some (Some result.now) }
        ensures small { number < most_jobs }
    {
        let _jobs = self.known.jobs();
        match &self.apps[number as usize] {
            Some(side) => side,
            None => unreachable!(),
        }
    }

    // The place in the history of a peer.
    pub(crate) fn place(&self, peer: Party) -> Place
        requires core { IsCore (core_of self.now) }
        requires peer { is_peer (core_of self.now) peer.role peer.number ≡ true }
        ensures place { place_in (core_of self.now) peer.role peer.number ≡ Some result }
        ensures stands { (r : MasterRole) → StandsFor (core_of self.now) r → result ≡ place_of (r.sides (id_of peer.role peer.number)) }
    {
        match peer.role {
            Role::Master => unreachable!(),
            Role::Agent => self.agent(peer.number).place(),
            Role::App => self.app(peer.number).place(),
        }
    }

    // The last index of what a peer is sent.
    pub(crate) fn last(&self, peer: Party) -> u64
        requires core { IsCore (core_of self.now) }
        requires peer { is_peer (core_of self.now) peer.role peer.number ≡ true }
        ensures last { last_in (core_of self.now) peer.role peer.number ≡ Some result }
        ensures stands { (r : MasterRole) → StandsFor (core_of self.now) r → result ≡ length (r.sides (id_of peer.role peer.number)).sent }
    {
        match peer.role {
            Role::Master => unreachable!(),
            Role::Agent => self.agent(peer.number).last(),
            Role::App => self.app(peer.number).last(),
        }
    }
}
