//! The party of a node that is a master.

ghost use Rattle.std.specs.Prelude.{◌≡◌, ◌≢◌, ◌⊎◌, ◌+◌, ◌<◌, ◌≤◌, ◌&&◌, ◌++◌, ℕ, true, length, Ok, Err, IfOk, IfErr, OnErr, IsTrue, Some, None};
ghost use Rattle.std.specs.List.{flat_map};
ghost use Rattle.fuxi_io.specs.Causes.{Rose};
ghost use Rattle.fuxi_io.specs.Disks.{WhereTold};
ghost use Rattle.fuxi_terms.specs.Limits.{most_steps};
ghost use Rattle.spec_net.specs.Net.{same_id};
ghost use Rattle.spec_net.specs.Channels.{master_id};
ghost use Rattle.spec_roles.specs.HardState.{HardState};
ghost use Rattle.spec_roles.specs.MasterSteps.{talks};
ghost use Rattle.spec_roles.specs.MasterRoles.{MasterRole, master_commanded, master_resynced, master_started};
ghost use Rattle.fuxi_master.specs.Cores.{StandsFor};
ghost use Rattle.party_ledgers.specs.Packets.{IsFormed, are_parties};
ghost use Rattle.wire_frames.specs.Frames.{frame};
ghost use Rattle.fuxi_master.specs.Steps.{IsSentFormed};
ghost use Rattle.schedule_text.specs.Writing.{IsLineEvent};
ghost use Rattle.node_core.specs.Roles.{IsTurn, OfMaster, Role as RoleSeen, end_packet, heard, id_in, may_be, may_send, turn, Keeps};
ghost use Rattle.node_core.specs.PartyEvents.{IsCommanded, becomes, commanded, master_after};
ghost use Rattle.node_core.specs.NodeHalts.{FitsEither};
ghost use Rattle.node_core.specs.NodeTexts.{as_answer};
ghost use Rattle.node_parties.specs.MasterParties.{DiskHas, IsMasterOf, IsTied, Rests, RestsAt, StandsAs};
ghost use Rattle.hard_state.specs.HardFiles.{KeepsDamaged, SyncsAll};
ghost use Rattle.node_parties.specs.OpenedMasters.{FailsStart, IsRaised, IsStartFault, Starts, StartsFrom};
ghost use Rattle.party_commands.specs.CommandedParties.{IsNamed, master_command};
ghost use Rattle.node_parties.specs.NodeCommands.{Does, LeavesEither, LeavesLine, LeavesMade, answer_of, hard_in, packets_in, Sends};

use cluster_desc::Cluster;
use fuxi_io::Disk;
use fuxi_master::{Master, MasterEvent, Outcome};
use fuxi_terms::OutOfMemory;
use hard_state::{Hard, HardFault};
use node_core::{Answer, Core, Node, Turn, write_turn};
use party_commands::{CommandError, MasterCommand, PartyCommand, command_of, obey};
use party_ledgers::{Kind, Packet};
use party_text::{write_hard, write_master};
use schedule_text::{Event, Refusal};
use schedule_unit::{AppNo, Party, Role};
use std::alloc::Global;
use std::marker::Model;

/// The master of one epoch with its hard state, as the party of a node. Each call that changes it is a step; fewer than 2^50 may be taken.
pub struct MasterNode {
    master: Master,
    hard: Hard,
}

// Written out, so that who lets one go checks this call and not all of its parts.
impl Drop for MasterNode {
    fn drop(self) {
        let MasterNode { master, hard } = self;
    }
}

impl Model for MasterNode {
    ghost use Rattle.node_parties.specs.MasterParties.{NodeRecord, IsTied};

    ghost Value = { NodeRecord };

    ghost view = { λ n. record { hard = n.hard; master = n.master } };

    ghost invariant = { λ n. IsTied (record { hard = n.hard; master = n.master }) };
}

impl MasterNode {
    /// Opens the checkpoint, raises its fence to the epoch, which is at least 1, and starts the master of that epoch.
    ///
    /// `NotCheckpoint` tells the offset of the first damaged record, `Stale` a fence that is not below the epoch; `Full` comes
    /// where no record more may be written. After an error the checkpoint has to be opened again.
    pub fn open<D: Disk>(
        alloc: Global,
        cluster: &Cluster,
        epoch: u64,
        disk: &mut D,
    ) -> Result<MasterNode, HardFault>
        requires { 0 < epoch }
        ensures stands { IfOk result (λ n. StandsAs n (OfMaster n.hard.value (master_started cluster.now n.hard.value epoch))) }
        ensures raised { IfOk result (λ n. IsRaised epoch n.hard.value) }
        ensures steps { IfOk result (λ n. n.master.steps ≡ 0) }
        ensures rests { IfOk result (λ n. RestsAt n (D.size disk.new) None) }
        ensures opened { IfOk result (λ n. WhereTold (StartsFrom epoch n.hard) (D.told disk.old) (D.told disk.new)) }
        ensures faults { IfErr result IsStartFault }
        ensures fails { IfErr result (λ fault. WhereTold (FailsStart epoch fault) (D.told disk.old) (D.told disk.new)) }
        ensures later { D.faults disk.old ≤ D.faults disk.new }
        ensures cause { result ≡ Err HardFault.DiskFault → Rose (D.faults disk.old) (D.faults disk.new) }
        ensures served { result ≢ Err HardFault.DiskFault → D.faults disk.new ≡ D.faults disk.old }
        ensures told { WhereTold (Starts epoch) (D.told disk.old) (D.told disk.new) }
        ensures keeps { KeepsDamaged (D.told disk.old) (D.told disk.new) }
        ensures untouched { (offset : ℕ) → result ≡ Err (HardFault.NotCheckpoint offset) → WhereTold SyncsAll (D.told disk.old) (D.told disk.new) }
    {
        let mut hard = match Hard::open(alloc, disk) {
            Ok(hard) => hard,
            Err(fault) => return Err(fault),
        };
        match hard.raise(disk, epoch) {
            Ok(()) => {}
            Err(fault) => {
                drop(hard);
                return Err(fault);
            }
        }
        match Master::start(alloc, cluster, epoch, &hard) {
            Ok(master) => Ok(MasterNode { master, hard }),
            Err(OutOfMemory) => {
                drop(hard);
                Err(HardFault::OutOfMemory)
            }
        }
    }

    /// The master, without its hard state.
    pub fn into_master(self) -> Master
        ensures stands { (h : HardState) (r : MasterRole) → IsMasterOf h r self → StandsFor result.core r }
        ensures steps { result.steps ≡ self.master.steps }
    {
        let MasterNode { master, hard } = self;
        drop(hard);
        master
    }

    // Its epoch. There is a master that it is.
    fn epoch(&self) -> u64
        ensures epoch { (h : HardState) (r : MasterRole) → IsMasterOf h r self.now → result ≡ r.state.epoch }
        ensures tied { IsTied self.now }
    {
        self.master.epoch()
    }

    // Its peers' acknowledgements are forgotten.
    fn resync(self, alloc: Global) -> Result<(MasterNode, Answer), CommandError>
        requires steps { self.master.steps < most_steps }
        ensures does { IfOk result (Does (λ h r. becomes (OfMaster h (master_resynced r))) self) }
        ensures kept { IfOk result (λ after. after.0.hard ≡ self.hard) }
        ensures steps { IfOk result (λ after. after.0.master.steps ≤ self.master.steps + 1) }
        ensures memory { result ≢ Err CommandError.Disk }
    {
        let MasterNode { master, hard } = self;
        match master.step(alloc, MasterEvent::Resync) {
            Ok((master, outcome)) => {
                drop(outcome);
                Ok((MasterNode { master, hard }, Answer::Done))
            }
            Err(OutOfMemory) => {
                drop(hard);
                Err(CommandError::Memory)
            }
        }
    }

    // It is commanded, over its own hard state.
    fn obey<D: Disk>(
        self,
        alloc: Global,
        command: &MasterCommand,
        disk: &mut D,
    ) -> Result<(MasterNode, Answer), CommandError>
        requires named { IsNamed command.now }
        requires steps { self.master.steps < most_steps }
        requires rests { Rests self (D.size disk.old) }
        ensures does { IfOk result (Does (λ h r. master_after h r (master_commanded r h (master_command command.now))) self) }
        ensures rests { IfOk result (λ after. Rests after.0 (D.size disk.new)) }
        ensures steps { IfOk result (λ after. after.0.master.steps ≤ self.master.steps + 1) }
        ensures later { D.faults disk.old ≤ D.faults disk.new }
        ensures cause { result ≡ Err CommandError.Disk → Rose (D.faults disk.old) (D.faults disk.new) }
        ensures served { result ≢ Err CommandError.Disk → D.faults disk.new ≡ D.faults disk.old }
        ensures told { LeavesMade (λ h r. master_after h r (master_commanded r h (master_command command.now))) self result (D.told disk.old) (D.told disk.new) }
    {
        let MasterNode { master, hard } = self;
        let mut hard = hard;
        match obey(master, alloc, command, &mut hard, disk) {
            Ok((master, refusal)) => Ok((MasterNode { master, hard }, answer_of(refusal))),
            Err(halt) => {
                drop(hard);
                Err(halt)
            }
        }
    }
}

// What a command is answered with.
fn answer_of(refusal: Option<Refusal>) -> Answer
    ensures { result ≡ answer_of refusal }
{
    match refusal {
        Some(refusal) => Answer::Refused(refusal),
        None => Answer::Done,
    }
}

// Whether a packet is for the master.
fn is_for_master(packet: &Packet) -> bool
    ensures { result ≡ same_id (id_in packet.now.to) master_id }
{
    matches!(packet.to.role, Role::Master) && packet.to.number == 0
}

// Whether a master talks to a party.
fn talks(master: &Master, party: Party) -> bool
    ensures { (r : MasterRole) → StandsFor master.now.core r → result ≡ talks r.cluster r.state (id_in party) }
{
    match party.role {
        Role::Master => false,
        Role::Agent => party.number < master.table().cluster().machines(),
        Role::App => master.knows(AppNo(party.number)),
    }
}

// Whether the other party of a connection is this one, or none is known yet.
fn may_be(peer: Option<Party>, from: Party) -> bool
    ensures { result ≡ may_be peer (id_in from) }
{
    match peer {
        None => true,
        Some(peer) => peer.role == from.role && peer.number == from.number,
    }
}

// The frames of what a turn sends, and of an End packet.
fn write_sent(alloc: Global, outcome: Outcome, from: Party, to: Party) -> Result<Turn, OutOfMemory>
    requires sends { Sends outcome }
    requires sent { IsSentFormed outcome }
    requires parties { IsTrue (are_parties from to) }
    ensures bytes { IfOk result (λ turn. turn.bytes.items ≡ flat_map frame (packets_in outcome) ++ frame (end_packet from to)) }
    ensures packets { IfOk result (λ turn. turn.packets ≡ length (packets_in outcome)) }
{
    let Outcome::Sent(packets) = outcome else {
        unreachable!()
    };
    write_turn(alloc, &packets, from, to)
}

impl Core for MasterNode {
    ghost use Rattle.node_parties.specs.MasterParties.{RestsAt, StandsAs};

    ghost stands = { StandsAs };

    ghost steps = { λ n. n.master.steps };

    ghost rests = { RestsAt };

    fn allows(&self, peer: Option<Party>, packet: &Packet) -> bool {
        is_for_master(packet) && (talks(&self.master, packet.from) && may_be(peer, packet.from))
    }

    fn hear(self, alloc: Global, packet: Packet) -> Result<MasterNode, OutOfMemory>
        requires formed { IsFormed packet }
        requires no_end { packet.kind ≡ Kind.End → ⊥ }
        requires steps { self.master.steps < most_steps }
        ensures hears { IfOk result (λ after. (r : RoleSeen) → StandsAs self r → StandsAs after (heard r packet)) }
        ensures steps { IfOk result (λ after. after.master.steps ≤ self.master.steps + 1) }
        ensures kept { IfOk result (λ after. after.hard ≡ self.hard) }
        ensures rests { IfOk result (λ after. Keeps (RestsAt self) (RestsAt after)) }
    {
        let MasterNode { master, hard } = self;
        match master.step(alloc, MasterEvent::Packet(packet)) {
            Ok((master, outcome)) => {
                drop(outcome);
                Ok(MasterNode { master, hard })
            }
            Err(OutOfMemory) => {
                drop(hard);
                Err(OutOfMemory)
            }
        }
    }

    fn turn(self, alloc: Global, peer: Option<Party>) -> Result<(MasterNode, Turn), OutOfMemory>
        requires peer { (r : RoleSeen) → StandsAs self r → may_send r peer ≡ true }
        requires steps { self.master.steps < most_steps }
        ensures stands { IfOk result (λ after. (r : RoleSeen) → StandsAs self r → StandsAs after.0 r) }
        ensures bytes { IfOk result (λ after. (r : RoleSeen) → StandsAs self r → IsTurn r peer after.1.bytes.items) }
        ensures packets { IfOk result (λ after. (r : RoleSeen) → StandsAs self r → after.1.packets ≡ length (turn r peer)) }
        ensures steps { IfOk result (λ after. after.0.master.steps ≤ self.master.steps + 1) }
        ensures kept { IfOk result (λ after. after.0.hard ≡ self.hard) }
        ensures rests { IfOk result (λ after. Keeps (RestsAt self) (RestsAt after.0)) }
    {
        let from = Party {
            role: Role::Master,
            number: 0,
            inc: self.master.epoch(),
        };
        let Some(peer) = peer else { unreachable!() };
        let to = Party {
            role: peer.role,
            number: peer.number,
            inc: self.master.place(peer).inc,
        };
        let MasterNode { master, hard } = self;
        let (master, outcome) = match master.step(alloc, MasterEvent::TurnTo(peer)) {
            Ok(after) => after,
            Err(OutOfMemory) => {
                drop(hard);
                return Err(OutOfMemory);
            }
        };
        match write_sent(alloc, outcome, from, to) {
            Ok(turn) => Ok((MasterNode { master, hard }, turn)),
            Err(OutOfMemory) => {
                drop(master);
                drop(hard);
                Err(OutOfMemory)
            }
        }
    }
}

impl Node for MasterNode {
    ghost use Rattle.node_parties.specs.MasterParties.{DiskHas, disk_has};
    ghost use Rattle.node_parties.specs.NodeCommands.{LeavesEither};

    ghost fits = { DiskHas };

    ghost halts = { LeavesEither };

    ghost fitting = { disk_has };

    fn accepts(&self) -> bool {
        true
    }

    fn command<D: Disk>(
        self,
        alloc: Global,
        event: &Event,
        disk: &mut D,
    ) -> Result<(MasterNode, Answer), CommandError>
        requires line { IsLineEvent event.now }
        requires steps { self.master.steps < most_steps }
        requires rests { RestsAt self (D.size disk.old) None }
        ensures does { IfOk result (λ after. (r : RoleSeen) → StandsAs self r → IsCommanded (StandsAs after.0) (as_answer after.1) (commanded r event.now)) }
        ensures steps { IfOk result (λ after. after.0.master.steps ≤ self.master.steps + 1) }
        ensures rests { IfOk result (λ after. RestsAt after.0 (D.size disk.new) None) }
        ensures told { WhereTold (λ old new. RestsAt self (D.size disk.old) (Some old) → IfOk result (λ after. RestsAt after.0 (D.size disk.new) (Some new))) (D.told disk.old) (D.told disk.new) }
        ensures halts { OnErr result ((r : RoleSeen) → StandsAs self r → WhereTold (λ old new. RestsAt self (D.size disk.old) (Some old) → FitsEither DiskHas LeavesEither r (commanded r event.now).role new) (D.told disk.old) (D.told disk.new)) }
        ensures later { D.faults disk.old ≤ D.faults disk.new }
        ensures cause { result ≡ Err CommandError.Disk → Rose (D.faults disk.old) (D.faults disk.new) }
        ensures served { result ≢ Err CommandError.Disk → D.faults disk.new ≡ D.faults disk.old }
        ensures leaves { (r : RoleSeen) → StandsAs self r → WhereTold (LeavesLine self.hard (hard_in (commanded r event.now).role) result) (D.told disk.old) (D.told disk.new) }
    {
        match command_of(event) {
            Some(PartyCommand::Resync(Role::Master, epoch)) => {
                if epoch != self.epoch() {
                    return Ok((self, Answer::Refused(Refusal::NotRunning)));
                }
                self.resync(alloc)
            }
            Some(PartyCommand::Master(epoch, command)) => {
                if epoch != self.epoch() {
                    return Ok((self, Answer::Refused(Refusal::NotRunning)));
                }
                self.obey(alloc, &command, disk)
            }
            _ => Ok((self, Answer::NotHere)),
        }
    }

    fn write_state(&self, out: &mut Vec<u8>) -> Result<(), OutOfMemory> {
        match write_hard(&self.hard, out) {
            Ok(()) => {}
            Err(refusal) => return Err(refusal),
        }
        match write_master(&self.master, out) {
            Ok(()) => Ok(()),
            Err(refusal) => Err(refusal),
        }
    }
}
