//! The application master of one job, in one boot.

ghost use Rattle.std.specs.Prelude.{IfErr, ◌+◌, nat_eq, ◌≡◌, ◌<◌, ◌≤◌, ◌&&◌, ◌++◌, ◌∷◌, [], ℕ, Bool, true, false, not, nat_lt, cond, length, List, IfOk, IfSome, OnOk, OnErr, IsTrue, is_some, Ok};
ghost use Rattle.std.specs.List.{AllByRecursion};
ghost use Rattle.std.proofs.Common.{get_or};
ghost use Rattle.fuxi_terms.specs.Cluster.{has_rack};
ghost use Rattle.fuxi_terms.specs.Limits.{most_jobs, most_units, most_machines, most_steps, greatest_count};
ghost use Rattle.fuxi_terms.specs.Keys.{key_cmp};
ghost use Rattle.fuxi_terms.specs.Counts.{count};
ghost use Rattle.fuxi_terms.specs.TallyKeys.{key, count_key, greatest_demand};
ghost use Rattle.party_ledgers.specs.Packets.{IsFormed};
ghost use Rattle.party_ledgers.specs.PacketHeaders.{header_of};
ghost use Rattle.party_ledgers.specs.declared.packets.Packet.{Packet};
ghost use Rattle.party_ledgers.specs.declared.packets.Kind.TheVariants.{End};
ghost use Rattle.spec_roles.specs.Apps.{AppRole, new_app, demands_alone, held_by, usable_by, given_by, app_resynced, names, Wants, WantsNear, WantsInRack, Avoids, GivesBack};
ghost use Rattle.peer_channel.specs.Parcels.{role_number, IsSent};
ghost use Rattle.app_master.specs.Usable.{is_named, usable_in, carried_at, held_in, IsNext, NextHeld};
ghost use Rattle.app_master.specs.AppCores.{IsAppCore, StandsFor};
ghost use Rattle.app_master.specs.AppSeen.{core_of};
ghost use Rattle.app_master.specs.AppCommands.{Commands};
ghost use Rattle.app_master.specs.AppPackets.{is_between, HearsAlike, SendsAlike};

use crate::asking::{join, set_number};
use crate::carried::Carried;
use crate::fault::AppFault;
use crate::tallies::{given, is_named, next_counted, usable};
use cluster_desc::Cluster;
use delta_channel::Place;
use fuxi_terms::OutOfMemory;
use fuxi_terms::limits::{GREATEST_BACK, GREATEST_COUNT, MOST_RACKS};
use fuxi_terms::tally_keys::{AVOID, BACK, NEAR, RACK, WANT};
use ledger_law::Key;
use party_ledgers::{Demand, Grants, Header, Heard, Packet, Packets};
use peer_channel::{NoLimit, Reply, Side, law};
use schedule_unit::{AppNo, MachineNo, Party, RackNo, Role, UnitNo};
use std::alloc::Global;
use std::marker::Model;

/// An application. It asks for grants, holds what its master grants, and gives back.
///
/// What its calls do is said of every application by itself that it stands for (`StandsFor`).
#[derive(Drop)]
pub struct AppMaster {
    /// On the heap, so that who hands an application on hands on a pointer.
    core: Box<Core>,
}

// What an application keeps.
#[derive(Drop)]
pub(crate) struct Core {
    app: AppNo,
    units: u8,
    machines: u32,
    racks: [bool; MOST_RACKS as usize],
    carried: Carried,
    up: Side<Demand, Grants>,
    steps: u64,
}

impl Model for AppMaster {
    ghost use Rattle.app_master.specs.AppCores.{AppCore, IsAppCore};
    ghost use Rattle.app_master.specs.AppSeen.{core_of};

    ghost Value = { AppCore };

    ghost view = { λ a. core_of a.core.value };

    ghost invariant = { λ a. IsAppCore (core_of a.core.value) };
}

impl AppMaster {
    /// The application of a job, in a boot from 1 on: it knows no master, asks for nothing and holds nothing. The job's number
    /// is at most 255, and it has 1 to 8 units. Where memory is refused there is no application.
    pub fn start(
        alloc: Global,
        app: AppNo,
        units: u8,
        cluster: &Cluster,
        boot: u64,
    ) -> Result<AppMaster, OutOfMemory>
        requires job { app.0 < most_jobs }
        requires units { units ≤ most_units }
        requires boot { 0 < boot }
        ensures stands { IfOk result (λ a. StandsFor a (new_app app.0 units cluster.now boot)) }
        ensures steps { IfOk result (λ a. a.steps ≡ 0) }
    {
        let machines = cluster.machines();
        let core = Core {
            app,
            units,
            machines,
            racks: racks_of(cluster),
            carried: Carried::nothing(alloc, machines),
            up: Side::start(alloc, boot)?,
            steps: 0,
        };
        Ok(AppMaster {
            core: Box::new(alloc, core)?,
        })
    }

    /// Wants so many grants of a unit in all.
    ///
    /// `NoUnit` comes where the job has no such unit, and then `WantRange` where the number is above 100,000.
    /// `OutOfMemory` comes only where none of them does. After each fault the application is as it was.
    pub fn want(&mut self, alloc: Global, unit: UnitNo, count: u64) -> Result<(), AppFault>
        requires { self.old.steps < most_steps }
        ensures answers { Commands (Wants unit.0 count) self.old result self.new }
        ensures steps { OnOk result (self.new.steps ≡ self.old.steps + 1) }
        ensures err { OnErr result (self.new ≡ self.old) }
    {
        self.test_unit(unit)?;
        test_count(count)?;
        self.ask(alloc, WANT, unit, 0, count)
    }

    /// Wants so many grants of a unit on a machine.
    ///
    /// `NoUnit` comes where the job has no such unit, then `NoMachine` where the cluster has no such machine, and
    /// then `WantRange` where the number is above 100,000. `OutOfMemory` comes only where none of them does. After each
    /// fault the application is as it was.
    pub fn near(
        &mut self,
        alloc: Global,
        unit: UnitNo,
        machine: MachineNo,
        count: u64,
    ) -> Result<(), AppFault>
        requires { self.old.steps < most_steps }
        ensures answers { Commands (WantsNear unit.0 machine.0 count) self.old result self.new }
        ensures steps { OnOk result (self.new.steps ≡ self.old.steps + 1) }
        ensures err { OnErr result (self.new ≡ self.old) }
    {
        self.test_unit(unit)?;
        self.test_machine(machine)?;
        test_count(count)?;
        self.ask(alloc, NEAR, unit, machine.0, count)
    }

    /// Wants so many grants of a unit in a rack.
    ///
    /// `NoUnit` comes where the job has no such unit, then `NoRack` where no machine stands in the rack, and then
    /// `WantRange` where the number is above 100,000. `OutOfMemory` comes only where none of them does. After each fault
    /// the application is as it was.
    pub fn rack(
        &mut self,
        alloc: Global,
        unit: UnitNo,
        rack: RackNo,
        count: u64,
    ) -> Result<(), AppFault>
        requires { self.old.steps < most_steps }
        ensures answers { Commands (WantsInRack unit.0 rack.0 count) self.old result self.new }
        ensures steps { OnOk result (self.new.steps ≡ self.old.steps + 1) }
        ensures err { OnErr result (self.new ≡ self.old) }
    {
        self.test_unit(unit)?;
        if !self.has_rack(rack) {
            return Err(AppFault::NoRack);
        }
        test_count(count)?;
        self.ask(alloc, RACK, unit, rack.0, count)
    }

    /// Refuses a machine for new grants of a unit, or no longer.
    ///
    /// `NoUnit` comes where the job has no such unit, and then `NoMachine` where the cluster has no such machine.
    /// `OutOfMemory` comes only where none of them does. After each fault the application is as it was.
    pub fn avoid(
        &mut self,
        alloc: Global,
        unit: UnitNo,
        machine: MachineNo,
        yes: bool,
    ) -> Result<(), AppFault>
        requires { self.old.steps < most_steps }
        ensures answers { Commands (Avoids unit.0 machine.0 (cond yes 1 0)) self.old result self.new }
        ensures steps { OnOk result (self.new.steps ≡ self.old.steps + 1) }
        ensures err { OnErr result (self.new ≡ self.old) }
    {
        self.test_unit(unit)?;
        self.test_machine(machine)?;
        let mark = if yes { 1 } else { 0 };
        self.ask(alloc, AVOID, unit, machine.0, mark)
    }

    /// Gives back so many grants of a unit on a machine. Only what is held on a machine that the master names as
    /// reported may be given back.
    ///
    /// `NoUnit` comes where the job has no such unit, then `NoMachine` where the cluster has no such machine, then
    /// `NotUsable` where the number is above what may be given back there, which it tells, and then `BackRange` where
    /// with it more than 1,000,000,000,000 would be given back in this epoch. `OutOfMemory` comes only where
    /// none of them does. After each fault the application is as it was.
    pub fn give_back(
        &mut self,
        alloc: Global,
        unit: UnitNo,
        machine: MachineNo,
        count: u64,
    ) -> Result<(), AppFault>
        requires { self.old.steps < most_steps }
        ensures answers { Commands (GivesBack unit.0 machine.0 count) self.old result self.new }
        ensures steps { OnOk result (self.new.steps ≡ self.old.steps + 1) }
        ensures err { OnErr result (self.new ≡ self.old) }
    {
        self.test_unit(unit)?;
        self.test_machine(machine)?;
        let usable = self.usable(unit, machine);
        if count > u64::from(usable) {
            return Err(AppFault::NotUsable { usable });
        }
        let given = given(self.core.up.sent(), unit, machine);
        if given + count > GREATEST_BACK {
            return Err(AppFault::BackRange);
        }
        self.ask(alloc, BACK, unit, machine.0, given + count)
    }

    /// Hears a packet. An application that hears a new master joins its epoch: it carries what it held on each machine that
    /// its grants name, and answers with its demand, whose numbers given back are gone.
    ///
    /// Where memory is refused the application is gone.
    pub fn on_packet(
        self,
        alloc: Global,
        packet: &Packet,
    ) -> Result<(AppMaster, Heard), OutOfMemory>
        requires formed { IsFormed packet.now }
        requires no_end { packet.now.kind ≡ End → ⊥ }
        requires steps { self.steps < most_steps }
        ensures hears { IfOk result (HearsAlike self packet.now) }
        ensures steps { IfOk result (λ after. after.0.steps ≡ self.steps + 1) }
    {
        match self.hear(alloc, packet) {
            Ok((app, reply)) => Ok((app, reply.heard())),
            Err(fault) => Err(fault),
        }
    }

    /// Hears a packet as [`AppMaster::on_packet`] does, with a word in few bytes.
    pub fn hear(self, alloc: Global, packet: &Packet) -> Result<(AppMaster, Reply), OutOfMemory>
        requires formed { IsFormed packet.now }
        requires no_end { packet.now.kind ≡ End → ⊥ }
        requires steps { self.steps < most_steps }
        ensures hears { IfOk result (HearsAlike self packet.now) }
        ensures steps { IfOk result (λ after. after.0.steps ≡ self.steps + 1) }
    {
        let AppMaster { core } = self;
        let mut core = core;
        match core.hear(alloc, packet) {
            Ok(reply) => Ok((AppMaster { core }, reply)),
            Err(fault) => Err(fault),
        }
    }

    /// As what a packet with this header is heard, where that can be told without its body and hearing it changes nothing. It takes no
    /// memory.
    pub fn leaves(&self, header: &Header) -> Option<Reply>
        ensures { IfSome result (λ reply. (x : Packet) → IsFormed x → header_of x ≡ header.now → HearsAlike self.now x (self.now, reply)) }
    {
        let core = &self.core;
        if !is_for(&header.from, &header.to, core.app) {
            return None;
        }
        core.up.leaves(header)
    }

    /// What the next turn sends. It changes nothing. Where memory is refused there are no packets.
    pub fn turn(&self, alloc: Global) -> Result<Packets, OutOfMemory>
        ensures formed { IfOk result (AllByRecursion IsSent) }
        ensures sends { IfOk result (SendsAlike self.now) }
    {
        let mut packets = Packets::new(alloc);
        if self.core.up.peer() == 0 {
            return Ok(packets);
        }
        self.core.up.turn(alloc, self.core.app.0, 0, &mut packets)?;
        Ok(packets)
    }

    /// Forgets what the master has acknowledged.
    pub fn resync(&mut self)
        requires { self.old.steps < most_steps }
        ensures resyncs { (r : AppRole) → StandsFor self.old r → StandsFor self.new (app_resynced r) }
        ensures steps { self.new.steps ≡ self.old.steps + 1 }
    {
        self.core.up.resync();
        self.core.steps += 1;
    }

    /// How many grants of a unit are held on a machine: of a machine that the master names as reported its count without
    /// what was given back and is not yet credited, of any other what is carried.
    pub fn held(&self, unit: UnitNo, machine: MachineNo) -> u32
        requires unit { unit.0 < self.now.units }
        requires machine { machine.0 < self.now.machines }
        ensures core { result ≡ held_in self.now.up.incoming.received self.now.up.outgoing.present self.now.up.outgoing.own self.now.carried unit.0 machine.0 }
        ensures alone { (r : AppRole) → StandsFor self.now r → result ≡ held_by r unit.0 machine.0 }
    {
        if self.carried(machine) {
            self.core.carried.count(unit, machine)
        } else {
            usable(
                self.core.up.got(),
                self.core.up.sent(),
                self.core.up.own(),
                unit,
                machine,
            )
        }
    }

    /// From a number on the first machine on which something of a unit is held, with how many grants of it. Nothing where there is
    /// no such machine.
    pub fn next_held(&self, unit: UnitNo, from: u32) -> Option<(MachineNo, u32)>
        requires unit { unit.0 < self.now.units }
        requires from { from ≤ self.now.machines }
        ensures core { NextHeld (held_in self.now.up.incoming.received self.now.up.outgoing.present self.now.up.outgoing.own self.now.carried unit.0) from self.now.machines result }
        ensures alone { (r : AppRole) → StandsFor self.now r → NextHeld (held_by r unit.0) from self.now.machines result }
    {
        let mut number = from;
        while number < self.core.machines {
            let spot = self.next_spot(unit, number);
            if spot >= self.core.machines {
                return None;
            }
            let machine = MachineNo(spot);
            let count = self.held(unit, machine);
            if count > 0 {
                return Some((machine, count));
            }
            number = spot + 1;
        }
        None
    }

    /// Whether what is held on a machine is carried: the master does not name it as reported.
    pub fn carried(&self, machine: MachineNo) -> bool
        ensures core { result ≡ not (is_named self.now.up.incoming.received machine.0) }
        ensures alone { (r : AppRole) → StandsFor self.now r → result ≡ not (names r.up.got machine.0) }
    {
        !is_named(self.core.up.got(), machine)
    }

    /// The place in the master's history to which it has come.
    pub fn place(&self) -> Place
        ensures { result ≡ self.now.up.incoming.place }
    {
        self.core.up.place()
    }

    /// The last index of its own history.
    pub fn last(&self) -> u64
        ensures { result ≡ self.now.up.outgoing.last }
    {
        self.core.up.last()
    }

    /// Its boot.
    pub fn boot(&self) -> u64
        ensures { result ≡ self.now.up.outgoing.own }
    {
        self.core.up.own()
    }

    /// How many units its job has, 1 to 8.
    pub fn units(&self) -> u8
        ensures { result ≡ self.now.units }
    {
        self.core.units
    }

    /// How many machines the cluster has.
    pub fn machines(&self) -> u32
        ensures { result ≡ self.now.machines }
    {
        self.core.machines
    }

    /// How many steps it took: packets heard, commands done and resyncs.
    pub fn steps(&self) -> u64
        ensures { result ≡ self.now.steps }
    {
        self.core.steps
    }

    // From a number on the first machine on which a unit is carried or counted, and the number of machines where there is none.
    fn next_spot(&self, unit: UnitNo, from: u32) -> u32
        requires unit { unit.0 < self.now.units }
        requires from { from ≤ self.now.machines }
        ensures { IsNext (λ m. count key_cmp self.now.up.incoming.received.entries (count_key unit.0 m) + carried_at self.now.carried unit.0 m) from self.now.machines result }
    {
        let counted = next_counted(self.core.up.got(), unit, from, self.core.machines);
        self.core.carried.next(unit, from, counted)
    }

    // What may be given back of a unit on a machine.
    fn usable(&self, unit: UnitNo, machine: MachineNo) -> u32
        ensures core { result ≡ cond (is_named self.now.up.incoming.received machine.0) (usable_in self.now.up.incoming.received self.now.up.outgoing.present self.now.up.outgoing.own unit.0 machine.0) 0 }
        ensures number { (r : AppRole) → StandsFor self.now r → result ≡ usable_by r unit.0 machine.0 }
        ensures within { result ≤ greatest_count }
    {
        if self.carried(machine) {
            0
        } else {
            usable(
                self.core.up.got(),
                self.core.up.sent(),
                self.core.up.own(),
                unit,
                machine,
            )
        }
    }

    // Whether a machine stands in the rack.
    fn has_rack(&self, rack: RackNo) -> bool
        ensures is { result ≡ get_or self.now.racks rack.0 false }
        ensures there { IsTrue result → rack.0 < 64 }
    {
        rack.0 < MOST_RACKS && self.core.racks[rack.0 as usize]
    }

    fn test_unit(&self, unit: UnitNo) -> Result<(), AppFault>
        ensures ok { OnOk result (nat_lt unit.0 self.now.units ≡ true) }
        ensures small { OnOk result (unit.0 < most_units) }
        ensures err { IfErr result (λ fault. (fault ≡ AppFault.NoUnit) × (nat_lt unit.0 self.now.units ≡ false)) }
    {
        if unit.0 < self.core.units {
            Ok(())
        } else {
            Err(AppFault::NoUnit)
        }
    }

    fn test_machine(&self, machine: MachineNo) -> Result<(), AppFault>
        ensures ok { OnOk result (nat_lt machine.0 self.now.machines ≡ true) }
        ensures small { OnOk result (machine.0 < most_machines) }
        ensures err { IfErr result (λ fault. (fault ≡ AppFault.NoMachine) × (nat_lt machine.0 self.now.machines ≡ false)) }
    {
        if machine.0 < self.core.machines {
            Ok(())
        } else {
            Err(AppFault::NoMachine)
        }
    }

    // The demand has this number at this key from now on.
    fn ask(
        &mut self,
        alloc: Global,
        what: u8,
        unit: UnitNo,
        place: u32,
        number: u64,
    ) -> Result<(), AppFault>
        requires steps { self.old.steps < most_steps }
        requires within { number ≤ greatest_demand (key what unit.0 place) }
        ensures ok { OnOk result ((r : AppRole) → StandsFor self.old r → StandsFor self.new (demands_alone r (key what unit.0 place) number)) }
        ensures steps { OnOk result (self.new.steps ≡ self.old.steps + 1) }
        ensures err { IfErr result (λ fault. (fault ≡ AppFault.OutOfMemory) × (self.new ≡ self.old)) }
    {
        let key = Key {
            what,
            unit: unit.0,
            number: place,
        };
        if set_number(&mut self.core.up, alloc, key, number).is_err() {
            return Err(AppFault::OutOfMemory);
        }
        self.core.steps += 1;
        Ok(())
    }
}

impl Core {
    // Hears a packet. Where memory is refused nothing is said of what is left.
    fn hear(&mut self, alloc: Global, packet: &Packet) -> Result<Reply, OutOfMemory>
        requires formed { IsFormed packet.now }
        requires no_end { packet.now.kind ≡ End → ⊥ }
        requires steps { self.old.steps < most_steps }
        requires core { IsAppCore (core_of self.old) }
        ensures hears { IfOk result (λ heard. HearsAlike (core_of self.old) packet.now (core_of self.new, heard)) }
        ensures steps { OnOk result (self.new.steps ≡ self.old.steps + 1) }
        ensures core { OnOk result (IsAppCore (core_of self.new)) }
    {
        law::strangers_change_nothing();
        self.steps += 1;
        if !is_for(&packet.from, &packet.to, self.app) {
            return Ok(Reply::stranger());
        }
        if packet.from.inc <= self.up.peer() {
            return self.up.hear(alloc, packet, &NoLimit, &mut ());
        }
        self.carried.join(
            alloc,
            self.up.got(),
            self.up.sent(),
            self.up.own(),
            self.units,
        )?;
        let heard = self.up.hear(alloc, packet, &NoLimit, &mut ())?;
        join(&mut self.up, alloc, packet.from.inc)?;
        Ok(heard)
    }
}

// A number that is wanted is at most 100,000.
fn test_count(count: u64) -> Result<(), AppFault>
    ensures ok { OnOk result (nat_lt greatest_count count ≡ false) }
    ensures err { IfErr result (λ fault. (fault ≡ AppFault.WantRange) × (nat_lt greatest_count count ≡ true)) }
{
    if count > GREATEST_COUNT {
        Err(AppFault::WantRange)
    } else {
        Ok(())
    }
}

// Whether what one party sends to another is for the application of this job, of a master.
fn is_for(from: &Party, to: &Party, app: AppNo) -> bool
    ensures { result ≡ is_between from.now to.now app.0 }
{
    (is_app(to.role) && to.number == app.0) && (is_master(from.role) && from.number == 0)
}

fn is_app(role: Role) -> bool
    ensures { result ≡ nat_eq (role_number role) 3 }
{
    matches!(role, Role::App)
}

fn is_master(role: Role) -> bool
    ensures { result ≡ nat_eq (role_number role) 1 }
{
    matches!(role, Role::Master)
}

// In which racks a machine of the cluster stands.
fn racks_of(cluster: &Cluster) -> [bool; MOST_RACKS as usize]
    ensures long { length result ≡ 64 }
    ensures racks { (n : ℕ) → get_or result n false ≡ has_rack cluster.now n }
{
    let mut racks = [false; MOST_RACKS as usize];
    for number in 0..cluster.machines() {
        let rack = cluster.machine(MachineNo(number)).rack;
        racks[rack.0 as usize] = true;
    }
    racks
}
