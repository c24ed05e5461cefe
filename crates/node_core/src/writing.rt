ghost use Rattle.std.specs.Prelude.{◌≡◌, ◌++◌, length, IfOk, IsTrue};
ghost use Rattle.std.specs.List.{AllByRecursion, flat_map};
ghost use Rattle.party_ledgers.specs.Packets.{are_parties};
ghost use Rattle.wire_frames.specs.Frames.{frame};
ghost use Rattle.peer_channel.specs.Parcels.{IsSent};
ghost use Rattle.node_core.specs.Roles.{end_packet};

use crate::core_party::Turn;
use delta_channel::Place;
use ledger_law::OutOfMemory;
use party_ledgers::{Body, Kind, Packet, Packets};
use schedule_unit::Party;
use std::alloc::Global;
use wire_frames::write_packet;

/// The frames of the packets of a turn, and behind them that of the End packet from one party to the other. Where
/// memory is refused there is no turn.
pub fn write_turn(
    alloc: Global,
    packets: &Packets,
    from: Party,
    to: Party,
) -> Result<Turn, OutOfMemory>
    requires sent { AllByRecursion IsSent packets.now }
    requires parties { IsTrue (are_parties from to) }
    ensures bytes { IfOk result (λ turn. turn.bytes.items ≡ flat_map frame packets.now ++ frame (end_packet from to)) }
    ensures packets { IfOk result (λ turn. turn.packets ≡ length packets.now) }
{
    let packets = packets.as_slice();
    let mut bytes = Vec::new(alloc);
    for packet in packets {
        match write_packet(packet, &mut bytes) {
            Ok(()) => {}
            Err(OutOfMemory) => return Err(OutOfMemory),
        }
    }
    let end = Packet {
        from,
        to,
        kind: Kind::End,
        place: Place { inc: 0, seq: 0 },
        body: Body::Nothing,
    };
    match write_packet(&end, &mut bytes) {
        Ok(()) => Ok(Turn {
            bytes,
            packets: packets.len() as u64,
        }),
        Err(OutOfMemory) => Err(OutOfMemory),
    }
}
