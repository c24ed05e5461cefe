//! Reading frames.

ghost use Rattle.std.specs.Prelude.{◌≡◌, ◌+◌, ◌<◌, ◌≤◌, ◌^◌, length, IfOk, IfErr, IfSome, Some, take};
ghost use Rattle.std.specs.Int.{w32, w64};
ghost use Rattle.ledger_law.specs.ReadForms.{Reads as ReadsForm};
ghost use Rattle.party_ledgers.specs.Packets.{IsBodyOf};
ghost use Rattle.wire_frames.specs.Frames.{body_bytes, HasForm};
ghost use Rattle.wire_frames.specs.ReadFrames.{number_at, kind_of, role_of, party_at, header_fault, Reads};
ghost use Rattle.wire_frames.specs.Fronts.{IsFront};

use crate::fault::FrameFault;
use crate::{FRONT_BYTES, HEADER_BYTES, LENGTH_BYTES, VERSION};
use delta_channel::Place;
use fuxi_terms::limits::MOST_BODY_BYTES;
use ledger_law::{BodyFault, Ledger};
use party_ledgers::{
    Body, Demand, Grants, Header, JoinLedger, Kind, Packet, RowLedger, are_parties, is_place_of,
};
use schedule_unit::{Party, Role};
use std::alloc::Global;

/// What stands in front of a body: a header that has no fault, and where its frame ends.
#[derive(Clone, Copy)]
pub struct Front {
    pub header: Header,
    pub end: usize,
}

fn u32_at(bytes: &[u8], at: usize) -> u32
    requires { at + 4 ≤ length bytes.now }
    ensures { result ≡ number_at w32 at bytes.now }
{
    match bytes[at..].split_first_chunk::<4>() {
        Some((front, _)) => u32::from_be_bytes(*front),
        None => unreachable!(),
    }
}

fn u64_at(bytes: &[u8], at: usize) -> u64
    requires { at + 8 ≤ length bytes.now }
    ensures { result ≡ number_at w64 at bytes.now }
{
    match bytes[at..].split_first_chunk::<8>() {
        Some((front, _)) => u64::from_be_bytes(*front),
        None => unreachable!(),
    }
}

fn kind_of(byte: u8) -> Option<Kind>
    ensures { result ≡ kind_of byte }
{
    match byte {
        1 => Some(Kind::Ack),
        2 => Some(Kind::Delta),
        3 => Some(Kind::Full),
        4 => Some(Kind::End),
        _ => None,
    }
}

fn role_of(byte: u8) -> Option<Role>
    ensures { result ≡ role_of byte }
{
    match byte {
        1 => Some(Role::Master),
        2 => Some(Role::Agent),
        3 => Some(Role::App),
        _ => None,
    }
}

fn party_at(bytes: &[u8], at: usize) -> Option<Party>
    requires { at + 13 ≤ length bytes.now }
    ensures party { result ≡ party_at at bytes.now }
    ensures room { IfSome result (λ party. party.inc < 2 ^ 64) }
{
    let role = role_of(bytes[at])?;
    Some(Party {
        role,
        number: u32_at(bytes, at + 1),
        inc: u64_at(bytes, at + 5),
    })
}

/// The header with which the bytes begin, or its first fault: of a frame that is whole, without its body. It takes no memory.
#[tactic(auto, unfolding(crate::specs::ReadFrames::header_fault))]
pub fn read_front(bytes: &[u8]) -> Result<Front, FrameFault>
    ensures ok { IfOk result (λ front. IsFront bytes.now front) }
    ensures err { IfErr result (λ fault. header_fault bytes.now ≡ Some fault) }
{
    if bytes.len() < LENGTH_BYTES {
        return Err(FrameFault::Short);
    }
    let length = u32_at(bytes, 0);
    if (length as usize) < HEADER_BYTES || length as usize > HEADER_BYTES + MOST_BODY_BYTES {
        return Err(FrameFault::Length(length));
    }
    let end = LENGTH_BYTES + length as usize;
    if bytes.len() < end {
        return Err(FrameFault::Short);
    }
    if bytes[4] != VERSION {
        return Err(FrameFault::Version(bytes[4]));
    }
    let Some(kind) = kind_of(bytes[5]) else {
        return Err(FrameFault::Kind(bytes[5]));
    };
    let (Some(from), Some(to)) = (party_at(bytes, 6), party_at(bytes, 19)) else {
        return Err(FrameFault::Role);
    };
    if !are_parties(&from, &to) {
        return Err(FrameFault::Role);
    }
    let place = Place {
        inc: u64_at(bytes, 32),
        seq: u64_at(bytes, 40),
    };
    if !is_place_of(kind, from.inc, &place) {
        return Err(FrameFault::Place);
    }
    let header = Header {
        from,
        to,
        kind,
        place,
    };
    Ok(Front { header, end })
}

// The whole ledger that goes from one role to the other.
fn read_full(alloc: Global, from: Role, to: Role, bytes: &[u8]) -> Result<Body, BodyFault>
    ensures { ReadsForm (λ b. IsBodyOf b Kind.Full from to × HasForm b) body_bytes bytes.now result }
{
    match (from, to) {
        (Role::Master, Role::Agent) => Ok(Body::Row(RowLedger::read_full(alloc, bytes)?)),
        (Role::Agent, Role::Master) => Ok(Body::Join(JoinLedger::read_full(alloc, bytes)?)),
        (Role::Master, Role::App) => Ok(Body::Grants(Grants::read_full(alloc, bytes)?)),
        (Role::App, Role::Master) => Ok(Body::Demand(Demand::read_full(alloc, bytes)?)),
        _ => Err(BodyFault::NotBody),
    }
}

// The change that goes from one role to the other.
fn read_delta(alloc: Global, from: Role, to: Role, bytes: &[u8]) -> Result<Body, BodyFault>
    ensures { ReadsForm (λ b. IsBodyOf b Kind.Delta from to × HasForm b) body_bytes bytes.now result }
{
    match (from, to) {
        (Role::Master, Role::Agent) => Ok(Body::RowDelta(RowLedger::read_delta(alloc, bytes)?)),
        (Role::Agent, Role::Master) => Ok(Body::Join(JoinLedger::read_delta(alloc, bytes)?)),
        (Role::Master, Role::App) => Ok(Body::GrantsDelta(Grants::read_delta(alloc, bytes)?)),
        (Role::App, Role::Master) => Ok(Body::DemandDelta(Demand::read_delta(alloc, bytes)?)),
        _ => Err(BodyFault::NotBody),
    }
}

fn read_body(
    alloc: Global,
    kind: Kind,
    from: Role,
    to: Role,
    bytes: &[u8],
) -> Result<Body, BodyFault>
    ensures { ReadsForm (λ b. IsBodyOf b kind from to × HasForm b) body_bytes bytes.now result }
{
    match kind {
        Kind::Ack | Kind::End if bytes.is_empty() => Ok(Body::Nothing),
        Kind::Ack | Kind::End => Err(BodyFault::NotBody),
        Kind::Full => read_full(alloc, from, to, bytes),
        Kind::Delta => read_delta(alloc, from, to, bytes),
    }
}

/// The packet with whose frame the bytes begin, and how many bytes that has, where this stands in front of its body. The packet takes
/// memory for its entries once.
pub fn read_behind(
    alloc: Global,
    front: &Front,
    bytes: &[u8],
) -> Result<(Packet, usize), FrameFault>
    requires { IsFront bytes.now front.now }
    ensures { Reads bytes.now result }
{
    let Header {
        from,
        to,
        kind,
        place,
    } = front.header;
    let body = &bytes[FRONT_BYTES..front.end];
    match read_body(alloc, kind, from.role, to.role, body) {
        Ok(body) => {
            let packet = Packet {
                from,
                to,
                kind,
                place,
                body,
            };
            Ok((packet, front.end))
        }
        Err(BodyFault::NotBody) => Err(FrameFault::Body),
        Err(BodyFault::OutOfMemory) => Err(FrameFault::OutOfMemory),
    }
}

/// The packet with whose frame the bytes begin, and how many bytes that has. What stands behind it is not looked
/// at.
///
/// A fault is the first one in the order of [`FrameFault`]. A length takes no memory before its bytes are there;
/// then the packet takes memory for its entries once.
pub fn read_packet(alloc: Global, bytes: &[u8]) -> Result<(Packet, usize), FrameFault>
    ensures { Reads bytes.now result }
{
    match read_front(bytes) {
        Ok(front) => read_behind(alloc, &front, bytes),
        Err(fault) => Err(fault),
    }
}
