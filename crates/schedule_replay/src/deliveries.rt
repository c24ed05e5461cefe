//! Deliveries: what parties hear.

ghost use Rattle.std.specs.Prelude.{◌≡◌, ◌<◌, ◌≤◌, length, IfOk, IfSome, Some};
ghost use Rattle.party_ledgers.specs.Packets.{IsFormed};
ghost use Rattle.party_ledgers.specs.PacketHeaders.{header_of};
ghost use Rattle.party_ledgers.specs.declared.packets.Packet.{Packet};
ghost use Rattle.spec_world.specs.Events.{deliver, deliver_one, deliver_range, dump};
ghost use Rattle.schedule_replay.specs.Moves.{Acts, ActsOnce, CanMove, CanMoveLong, HearsIn, IsHeardAs, IsHeardBy};

use crate::law;
use crate::running::Running;
use crate::stop::WorldStop;
use crate::text::{write_heard, write_kept, write_refusal};
use fuxi_terms::OutOfMemory;
use party_ledgers::{Header, Kind, Packet};
use peer_channel::Reply;
use schedule_text::Refusal;
use schedule_unit::Role;
use std::alloc::Global;
use wire_frames::{read_behind, read_front};

// A packet is heard by the party that it is for, if that runs: the master of the epoch that it names, the agent of its machine or the
// application of its job.
fn hear(running: &mut Running, alloc: Global, packet: Packet) -> Result<Option<Reply>, OutOfMemory>
    requires formed { IsFormed packet }
    requires no_end { packet.kind ≡ Kind.End → ⊥ }
    requires can { CanMove running.old }
    ensures { IfOk result (IsHeardBy packet running.old running.new) }
{
    law::cores_may_step();
    spec_refinement::law::every_change_is_taken();
    let to = packet.to;
    match to.role {
        Role::Master => {
            law::masters_act();
            running.masters.hear(alloc, to.inc, packet)
        }
        Role::Agent => {
            law::agents_act();
            running.agents.hear(alloc, to.number as u64, packet)
        }
        Role::App => {
            law::apps_act();
            running.apps.hear(alloc, to.number as u64, packet)
        }
    }
}

// As what the party that a packet with this header is for hears it, where that runs, can tell it without the body and stays as it is.
fn leaves(running: &Running, header: &Header) -> Option<Reply>
    ensures { IfSome result (λ reply. (x : Packet) → IsFormed x → header_of x ≡ header.now → HearsIn x running.now running.now (Some reply)) }
{
    spec_refinement::law::every_change_is_taken();
    law::masters_act();
    law::agents_act();
    law::apps_act();
    if matches!(header.kind, Kind::Ack | Kind::End) {
        return None;
    }
    let to = header.to;
    match to.role {
        Role::Master => running.masters.leaves(to.inc, header),
        Role::Agent => running.agents.leaves(to.number as u64, header),
        Role::App => running.apps.leaves(to.number as u64, header),
    }
}

// As what the packet of this number, if so many were sent, is heard. It is read from its stored frame, its body only where its header
// does not tell enough.
fn hear_stored(
    running: &mut Running,
    alloc: Global,
    number: u64,
) -> Result<Option<Reply>, OutOfMemory>
    requires first { 0 < number }
    requires there { number ≤ length running.old.pool.frames }
    requires can { CanMove running.old }
    ensures { IfOk result (λ heard. IsHeardAs number heard running.old running.new) }
{
    crate::law::stored_is_read();
    let Some(bytes) = running.pool.frame(number) else {
        unreachable!()
    };
    let Ok(front) = read_front(bytes) else {
        return Err(OutOfMemory);
    };
    if let Some(reply) = leaves(running, &front.header) {
        return Ok(Some(reply));
    }
    match read_behind(alloc, &front, bytes) {
        Ok((packet, _)) => hear(running, alloc, packet),
        Err(_) => Err(OutOfMemory),
    }
}

// The packet of this number is delivered; none where fewer were sent.
fn deliver_one(
    running: &mut Running,
    alloc: Global,
    number: u64,
    out: &mut Vec<u8>,
) -> Result<(), WorldStop>
    requires first { 0 < number }
    requires can { CanMove running.old }
    ensures { ActsOnce (deliver_one number) running.old running.new out.old.items out.new.items result }
{
    if number > running.pool.len() {
        return Ok(());
    }
    let Ok(heard) = hear_stored(running, alloc, number) else {
        return Err(WorldStop::OutOfMemory);
    };
    write_heard(number, heard, out)
}

// The packet of this number is delivered, if so many were sent.
pub(crate) fn deliver(
    running: &mut Running,
    alloc: Global,
    number: u64,
    out: &mut Vec<u8>,
) -> Result<(), WorldStop>
    requires can { CanMove running.old }
    requires first { 0 < number }
    ensures { Acts (λ w. deliver w number) running.old running.new out.old.items out.new.items result }
{
    let sent = running.pool.len();
    if number > sent {
        return write_refusal(Some(Refusal::NoPacket(sent)), out);
    }
    deliver_one(running, alloc, number, out)
}

// The packets of these numbers are delivered, one after another, if so many were sent.
pub(crate) fn deliver_range(
    running: &mut Running,
    alloc: Global,
    first: u64,
    last: u64,
    out: &mut Vec<u8>,
) -> Result<(), WorldStop>
    requires first { 0 < first }
    requires order { first ≤ last }
    requires can { CanMoveLong running.old }
    requires counted { 0 < running.old.events }
    ensures { Acts (λ w. deliver_range w first last) running.old running.new out.old.items out.new.items result }
{
    spec_world::law::every_event_keeps_good();
    spec_world::law::worlds_in_order();
    let sent = running.pool.len();
    if first > sent {
        return write_refusal(Some(Refusal::NoPacket(sent)), out);
    }
    if last > sent {
        return write_refusal(Some(Refusal::NoPacket(sent)), out);
    }
    for number in first..last + 1 {
        match deliver_one(running, alloc, number, out) {
            Ok(()) => {}
            Err(stop) => return Err(stop),
        }
    }
    Ok(())
}

// The packet of this number is printed as its frame, if so many were sent.
pub(crate) fn dump(
    running: &Running,
    alloc: Global,
    number: u64,
    out: &mut Vec<u8>,
) -> Result<(), WorldStop>
    requires { 0 < number }
    ensures { Acts (λ w. dump w number) running.now running.now out.old.items out.new.items result }
{
    let sent = running.pool.len();
    let Some(bytes) = running.pool.frame(number) else {
        return write_refusal(Some(Refusal::NoPacket(sent)), out);
    };
    write_kept(alloc, number, bytes, out)
}
