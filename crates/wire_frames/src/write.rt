//! Writing frames.

ghost use Rattle.std.specs.Prelude.{◌≡◌, ◌+◌, ◌*◌, ◌≤◌, ◌++◌, length, OnOk, OnErr};
ghost use Rattle.std.specs.List.{flat_map};
ghost use Rattle.std.specs.Int.{to_be_bytes, w32};
ghost use Rattle.fuxi_terms.specs.Limits.{most_body_bytes};
ghost use Rattle.fuxi_terms.specs.TallyKeys.{greatest_grant, greatest_demand};
ghost use Rattle.ledger_law.specs.Shapes.{IsTally};
ghost use Rattle.party_ledgers.specs.Joins.{IsJoin};
ghost use Rattle.party_ledgers.specs.Packets.{IsFormed};
ghost use Rattle.wire_frames.specs.Frames.{kind_byte, role_byte, body_bytes, header_bytes, frame, HasForm, HaveRoom, IsFrame, body_length};

use crate::{FRONT_BYTES, LENGTH_BYTES, VERSION};
use ledger_law::forms::append;
use ledger_law::{Ledger, OutOfMemory};
use party_ledgers::{Body, Demand, Grants, JoinLedger, Kind, Packet, RowLedger};
use schedule_unit::Role;

fn kind_byte(kind: Kind) -> u8
    ensures { result ≡ kind_byte kind }
{
    match kind {
        Kind::Ack => 1,
        Kind::Delta => 2,
        Kind::Full => 3,
        Kind::End => 4,
    }
}

fn role_byte(role: Role) -> u8
    ensures { result ≡ role_byte role }
{
    match role {
        Role::Master => 1,
        Role::Agent => 2,
        Role::App => 3,
    }
}

// What stands in front of a body: the length of what follows it, and the header. In one piece, since each piece is tested for room, and in
// rows, since one that is a number is stored whole.
fn front_of(packet: &Packet, length: u32) -> [[u8; 8]; FRONT_BYTES / 8]
    ensures { flat_map (λ row. row) result ≡ to_be_bytes w32 length ++ header_bytes packet.now }
{
    let [l0, l1, l2, l3] = length.to_be_bytes();
    let kind = kind_byte(packet.kind);
    let (from, to) = (&packet.from, &packet.to);
    let [f0, f1, f2, f3] = from.number.to_be_bytes();
    let [i0, i1, i2, i3, i4, i5, i6, i7] = from.inc.to_be_bytes();
    let [t0, t1, t2, t3] = to.number.to_be_bytes();
    [
        [l0, l1, l2, l3, VERSION, kind, role_byte(from.role), f0],
        [f1, f2, f3, i0, i1, i2, i3, i4],
        [i5, i6, i7, role_byte(to.role), t0, t1, t2, t3],
        to.inc.to_be_bytes(),
        packet.place.inc.to_be_bytes(),
        packet.place.seq.to_be_bytes(),
    ]
}

// How many bytes the body has.
fn body_len(packet: &Packet) -> usize
    requires { IsFormed packet.now }
    ensures len { result ≡ body_length packet.now.body }
    ensures form { HasForm packet.now.body }
{
    match &packet.body {
        Body::Nothing => 0,
        Body::Row(row) => 4 + 73 * row.len(),
        Body::RowDelta(change) => 4 + 73 * change.len(),
        Body::Join(join) => report_len(join),
        Body::Grants(tally) => grants_len(tally),
        Body::GrantsDelta(change) => 12 + 12 * change.entries().len(),
        Body::Demand(tally) => demand_len(tally),
        Body::DemandDelta(change) => 12 + 12 * change.entries().len(),
    }
}

fn report_len(join: &JoinLedger) -> usize
    ensures len { result ≡ 12 + 73 * length join.now.table }
    ensures form { IsJoin join.now }
{
    let _epoch = join.epoch();
    12 + 73 * join.table().len()
}

fn grants_len(tally: &Grants) -> usize
    ensures len { result ≡ 12 + 12 * length tally.now.entries }
    ensures form { IsTally greatest_grant tally.now }
{
    let _head = tally.head();
    12 + 12 * tally.entries().len()
}

fn demand_len(tally: &Demand) -> usize
    ensures len { result ≡ 12 + 12 * length tally.now.entries }
    ensures form { IsTally greatest_demand tally.now }
{
    let _head = tally.head();
    12 + 12 * tally.entries().len()
}

// The bytes are as they were after a refusal.
fn write_body(body: &Body, out: &mut Vec<u8>) -> Result<(), OutOfMemory>
    requires { HasForm body.now }
    ensures ok { OnOk result (out.new.items ≡ out.old.items ++ body_bytes body.now) }
    ensures err { OnErr result (out.new.items ≡ out.old.items) }
{
    match body {
        Body::Nothing => Ok(()),
        Body::Row(row) => row.write_full(out),
        Body::RowDelta(change) => RowLedger::write_delta(change, out),
        Body::Join(join) => join.write_full(out),
        Body::Grants(tally) => tally.write_full(out),
        Body::GrantsDelta(change) => Grants::write_delta(change, out),
        Body::Demand(tally) => tally.write_full(out),
        Body::DemandDelta(change) => Demand::write_delta(change, out),
    }
}

// What is known of the numbers is known once they are read.
fn read_numbers(packet: &Packet)
    ensures { HaveRoom packet.now.from packet.now.to packet.now.place }
{
    let _from = packet.from.inc;
    let _to = packet.to.inc;
    let _inc = packet.place.inc;
    let _seq = packet.place.seq;
}

/// How many bytes the frame of a packet has: 48 and those of its body. It takes no memory.
pub fn frame_length(packet: &Packet) -> usize
    requires { IsFormed packet.now }
    ensures frame { IsFrame packet.now (frame packet.now) }
    ensures length { result ≡ length (frame packet.now) }
    ensures body { result ≡ 48 + body_length packet.now.body }
    ensures within { result ≤ 48 + most_body_bytes }
{
    read_numbers(packet);
    FRONT_BYTES + body_len(packet)
}

/// Appends the frame of a packet. The bytes are as they were after a refusal. It takes room once, for the whole
/// frame.
pub fn write_packet(packet: &Packet, out: &mut Vec<u8>) -> Result<(), OutOfMemory>
    requires { IsFormed packet.now }
    ensures ok { OnOk result (out.new.items ≡ out.old.items ++ frame packet.now) }
    ensures err { OnErr result (out.new.items ≡ out.old.items) }
    ensures frame { IsFrame packet.now (frame packet.now) }
    ensures length { length (frame packet.now) ≡ 48 + body_length packet.now.body }
{
    let length = frame_length(packet);
    let start = out.len();
    out.reserve(length)?;
    let front = front_of(packet, (length - LENGTH_BYTES) as u32);
    append(front.as_flattened(), out);
    match write_body(&packet.body, out) {
        Ok(()) => Ok(()),
        Err(fault) => {
            out.truncate(start);
            Err(fault)
        }
    }
}
