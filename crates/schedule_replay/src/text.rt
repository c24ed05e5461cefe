//! What events print.

ghost use Rattle.std.specs.Prelude.{◌≡◌, ℕ, ◌+◌, ◌^◌, ◌<◌, ◌++◌, ◌∷◌, [], List, Some, length, map, IfErr, OnOk};
ghost use Rattle.std.specs.List.{AllByRecursion};
ghost use Rattle.peer_channel.specs.Parcels.{kind_of, parcel_is, IsSent};
ghost use Rattle.spec_net.specs.Net.{Net, Packet as WrittenPacket};
ghost use Rattle.spec_net.specs.Ledgers.{Ledger};
ghost use Rattle.spec_net.specs.Channels.{body_of};
ghost use Rattle.spec_refinement.specs.SeenWorlds.{parcel_of};
ghost use Rattle.spec_world.specs.Outputs.{Frame, Judged, sent_lines};
ghost use Rattle.schedule_text.specs.Printing.{as_kind, as_line};
ghost use Rattle.schedule_replay.specs.Moves.{refusal_lines, heard_lines, WantsMemory};
ghost use Rattle.schedule_replay.specs.ReplayTexts.{lines_text};
ghost use Rattle.wire_frames.specs.Frames.{frame};
ghost use Rattle.party_ledgers.specs.declared.packets.Packet.{Packet as PacketSeen};

use crate::law;
use crate::stop::WorldStop;
use party_ledgers::{Kind, Packet};
use peer_channel::Reply;
use schedule_text::{
    Kind as PrintedKind, Output, Refusal, write_frame, write_heard as write_heard_line,
    write_output, write_sent as write_sent_line,
};
use schedule_unit::MachineNo;
use std::alloc::Global;
use wire_frames::frame_length;

// A line that is none of a frame.
pub(crate) fn write_line(line: &Output, out: &mut Vec<u8>) -> Result<(), WorldStop>
    ensures ok { OnOk result (out.new.items ≡ out.old.items ++ lines_text (as_line line.now ∷ [])) }
    ensures err { IfErr result WantsMemory }
{
    match write_output(line, out) {
        Ok(()) => Ok(()),
        Err(_) => Err(WorldStop::OutOfMemory),
    }
}

// The line of a refusal, where there is one.
pub(crate) fn write_refusal(refusal: Option<Refusal>, out: &mut Vec<u8>) -> Result<(), WorldStop>
    ensures ok { OnOk result (out.new.items ≡ out.old.items ++ lines_text (refusal_lines refusal)) }
    ensures err { IfErr result WantsMemory }
{
    match refusal {
        None => Ok(()),
        Some(refusal) => write_line(&Output::Refused(refusal), out),
    }
}

// What a packet of a turn is. None is the end of a connection.
fn printed_kind(kind: Kind) -> PrintedKind
    ensures { as_kind result ≡ kind_of kind }
{
    match kind {
        Kind::Ack | Kind::End => PrintedKind::Ack,
        Kind::Delta => PrintedKind::Delta,
        Kind::Full => PrintedKind::Full,
    }
}

// The line of one packet of a turn, which has this number.
fn write_sent(packet: &Packet, number: u64, out: &mut Vec<u8>) -> Result<(), WorldStop>
    requires { IsSent packet.now }
    ensures ok { OnOk result ((net : Net Ledger) (x : WrittenPacket) → parcel_is packet.now ≡ parcel_of net x → out.new.items ≡ out.old.items ++ lines_text (sent_lines net number (x ∷ []))) }
    ensures err { IfErr result WantsMemory }
{
    law::written_frame_lengths();
    match write_sent_line(
        number,
        &packet.from,
        &packet.to,
        printed_kind(packet.kind),
        packet.place.inc,
        packet.place.seq,
        frame_length(packet) as u64,
        out,
    ) {
        Ok(()) => Ok(()),
        Err(_) => Err(WorldStop::OutOfMemory),
    }
}

// The lines of the packets of a turn, of which the first has this number.
pub(crate) fn write_all_sent(
    packets: &[Packet],
    first: u64,
    out: &mut Vec<u8>,
) -> Result<(), WorldStop>
    requires sent { AllByRecursion IsSent packets.now }
    requires few { first + length packets.now < 2 ^ 63 }
    ensures err { IfErr result WantsMemory }
    ensures ok { OnOk result ((net : Net Ledger) (xs : List WrittenPacket) → map parcel_is packets.now ≡ map (parcel_of net) xs → out.new.items ≡ out.old.items ++ lines_text (sent_lines net first xs)) }
{
    for place in 0..packets.len() {
        match write_sent(&packets[place], first + place as u64, out) {
            Ok(()) => {}
            Err(stop) => return Err(stop),
        }
    }
    Ok(())
}

// As what the packet of this number was heard, if by anybody.
pub(crate) fn write_heard(
    number: u64,
    heard: Option<Reply>,
    out: &mut Vec<u8>,
) -> Result<(), WorldStop>
    ensures ok { OnOk result (out.new.items ≡ out.old.items ++ lines_text (heard_lines number heard)) }
    ensures err { IfErr result WantsMemory }
{
    match heard {
        None => write_line(&Output::Lost(number), out),
        Some(heard) => match write_heard_line(number, heard.fresh(), heard.what(), out) {
            Ok(()) => Ok(()),
            Err(_) => Err(WorldStop::OutOfMemory),
        },
    }
}

// A machine that a judgement bans, with the votes for it.
pub(crate) fn write_judged(
    machine: MachineNo,
    votes: u32,
    out: &mut Vec<u8>,
) -> Result<(), WorldStop>
    ensures ok { OnOk result (out.new.items ≡ out.old.items ++ lines_text (Judged machine.0 votes ∷ [])) }
    ensures err { IfErr result WantsMemory }
{
    write_line(&Output::Judged(machine, votes), out)
}

// The frame of the packet of this number.
pub(crate) fn write_kept(
    alloc: Global,
    number: u64,
    bytes: &[u8],
    out: &mut Vec<u8>,
) -> Result<(), WorldStop>
    ensures err { IfErr result WantsMemory }
    ensures ok { OnOk result ((packet : PacketSeen) (net : Net Ledger) (x : WrittenPacket) → IsSent packet → bytes.now ≡ frame packet → parcel_is packet ≡ parcel_of net x
        → out.new.items ≡ out.old.items ++ lines_text (Frame number x (body_of net x.kind x) ∷ [])) }
{
    match write_frame(alloc, number, bytes, out) {
        Ok(()) => Ok(()),
        Err(_) => Err(WorldStop::OutOfMemory),
    }
}
