//! What one call makes of a master.

ghost use Rattle.std.specs.Prelude.{◌≡◌, ◌+◌, ◌<◌, ◌≤◌, Bool, true, List, map, IfOk};
ghost use Rattle.std.specs.List.{AllByRecursion};
ghost use Rattle.fuxi_terms.specs.Limits.{most_steps};
ghost use Rattle.fuxi_terms.specs.declared.answers.What.{What as AnyWhat};
ghost use Rattle.party_ledgers.specs.Packets.{IsFormed};
ghost use Rattle.peer_channel.specs.Parcels.{id_of, parcel_is, IsSent};
ghost use Rattle.spec_net.specs.Sides.{Parcel, turn_parcels};
ghost use Rattle.spec_roles.specs.MasterRoles.{MasterRole, Sent as SentAs, HeardAs};
ghost use Rattle.spec_roles.specs.MasterSteps.{master_party, talks};
ghost use Rattle.fuxi_master.specs.Cores.{StandsFor};
ghost use Rattle.fuxi_master.specs.Steps.{IsSentFormed, answer_of, is_peer};
ghost use Rattle.master_desk.specs.CallBytes.{MayHear};
ghost use Rattle.master_desk.specs.Desks.{sending_of, sent_as, turn_sent};
ghost use Rattle.master_desk.specs.Books.{HearsAlike, HearsPacket};

use crate::call::Decoded;
use crate::entry::{Head, Heads, Words};
use fuxi_master::{Master, MasterEvent, Outcome};
use fuxi_terms::OutOfMemory;
use party_ledgers::{Heard, Kind, Packet, Packets, What};
use schedule_unit::{AppNo, Party, Role};
use std::alloc::Global;
use wire_frames::frame_length;

// Whether a master talks to a party.
fn talks_to(master: &Master, party: Party) -> bool
    ensures peer { result ≡ is_peer master.now.core party.role party.number }
    ensures stands { (r : MasterRole) → StandsFor master.now.core r → result ≡ talks r.cluster r.state (id_of party.role party.number) }
{
    match party.role {
        Role::Master => false,
        Role::Agent => party.number < master.table().cluster().machines(),
        Role::App => master.knows(AppNo(party.number)),
    }
}

// A packet of a turn, without its content.
fn head_of(packet: &Packet) -> Head
    requires { IsSent packet.now }
    ensures { sending_of result ≡ sent_as (parcel_is packet.now) }
{
    Head {
        from: packet.from,
        to: packet.to,
        kind: packet.kind,
        place: packet.place,
        bytes: frame_length(packet) as u64,
    }
}

fn heads_of(alloc: Global, packets: &Packets) -> Result<Heads, OutOfMemory>
    requires { AllByRecursion IsSent packets.now }
    ensures { IfOk result (λ heads. map sending_of heads ≡ map sent_as (map parcel_is packets.now)) }
{
    let packets = packets.as_slice();
    let mut heads = Heads::new(alloc);
    for packet in packets {
        match heads.push(head_of(packet)) {
            Ok(()) => {}
            Err(OutOfMemory) => return Err(OutOfMemory),
        }
    }
    Ok(heads)
}

// What a turn sends, without the content. A master answers a turn with what it sends.
fn sent_in(alloc: Global, outcome: &Outcome) -> Result<Heads, OutOfMemory>
    requires { IsSentFormed outcome.now }
    ensures { IfOk result (λ heads. (parcels : List Parcel) → answer_of outcome.now ≡ SentAs parcels → map sending_of heads ≡ map sent_as parcels) }
{
    match outcome {
        Outcome::Sent(packets) => heads_of(alloc, packets),
        _ => Ok(Heads::new(alloc)),
    }
}

// As what a packet was heard. A master answers a packet with that.
fn heard_in(outcome: &Outcome) -> Heard
    ensures { (fresh : Bool) (what : AnyWhat) → answer_of outcome.now ≡ HeardAs fresh what → result ≡ record { fresh = fresh; what = what } }
{
    match outcome {
        Outcome::Heard(heard) => *heard,
        _ => Heard {
            fresh: false,
            what: What::Stranger,
        },
    }
}

// A turn to one party. Where memory is refused the master is gone.
fn turn_to(alloc: Global, master: Master, peer: Party) -> Result<(Master, Heads), OutOfMemory>
    requires peer { is_peer master.core peer.role peer.number ≡ true }
    requires steps { master.steps < most_steps }
    ensures stands { IfOk result (λ after. (r : MasterRole) → StandsFor master.core r → StandsFor after.0.core r) }
    ensures sends { IfOk result (λ after. (r : MasterRole) → StandsFor master.core r
        → map sending_of after.1 ≡ map sent_as (turn_parcels (master_party r.state) (id_of peer.role peer.number) (r.sides (id_of peer.role peer.number)))) }
    ensures steps { IfOk result (λ after. after.0.steps ≡ master.steps + 1) }
{
    let (master, outcome) = match master.step(alloc, MasterEvent::TurnTo(peer)) {
        Ok(after) => after,
        Err(OutOfMemory) => return Err(OutOfMemory),
    };
    match sent_in(alloc, &outcome) {
        Ok(heads) => Ok((master, heads)),
        Err(OutOfMemory) => {
            drop(master);
            Err(OutOfMemory)
        }
    }
}

// A packet is heard, and then comes the turn to its sender.
fn hear_packet(
    alloc: Global,
    master: Master,
    packet: Packet,
) -> Result<(Master, Heard, Heads), OutOfMemory>
    requires formed { IsFormed packet }
    requires no_end { packet.kind ≡ Kind.End → ⊥ }
    requires steps { master.steps + 2 ≤ most_steps }
    ensures hears { IfOk result (λ after. HearsPacket master packet after.0 after.1 after.2) }
    ensures steps { IfOk result (λ after. after.0.steps ≤ master.steps + 2) }
{
    let from = packet.from;
    let (master, outcome) = match master.step(alloc, MasterEvent::Packet(packet)) {
        Ok(after) => after,
        Err(OutOfMemory) => return Err(OutOfMemory),
    };
    let heard = heard_in(&outcome);
    if !talks_to(&master, from) {
        return Ok((master, heard, Heads::new(alloc)));
    }
    match turn_to(alloc, master, from) {
        Ok((master, heads)) => Ok((master, heard, heads)),
        Err(OutOfMemory) => Err(OutOfMemory),
    }
}

// What a call makes of a master, how it went, and the turn to its sender. Where memory is refused the master is gone.
pub fn hear_call(
    alloc: Global,
    master: Master,
    call: Decoded,
) -> Result<(Master, Words, Heads), OutOfMemory>
    requires call { MayHear call }
    requires steps { master.steps + 2 ≤ most_steps }
    ensures hears { IfOk result (λ after. HearsAlike master call after.0 after.1 after.2) }
    ensures steps { IfOk result (λ after. after.0.steps ≤ master.steps + 2) }
{
    match call {
        Decoded::Bad(why) => Ok((master, Words::Bad(why), Heads::new(alloc))),
        Decoded::Whole(packet) => match hear_packet(alloc, master, packet) {
            Ok((master, heard, heads)) => Ok((master, Words::Took(heard), heads)),
            Err(OutOfMemory) => Err(OutOfMemory),
        },
    }
}
