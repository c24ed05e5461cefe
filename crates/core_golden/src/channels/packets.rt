//! Which packets are formed.

use delta_channel::Place;
use golden_lines::Piece::{Text, Truth};
use golden_lines::{Stop, bytes_of, say_line};
use ledger_law::{BodyFault, Ledger};
use party_ledgers::{Body, Demand, Grants, JoinLedger, Kind, Packet, RowLedger};
use schedule_unit::{Party, Role};
use std::alloc::Global;

fn role_of(word: &str) -> Option<Role> {
    match word {
        "master" => Some(Role::Master),
        "agent" => Some(Role::Agent),
        "app" => Some(Role::App),
        _ => None,
    }
}

fn kind_of(word: &str) -> Option<Kind> {
    match word {
        "ack" => Some(Kind::Ack),
        "delta" => Some(Kind::Delta),
        "full" => Some(Kind::Full),
        "end" => Some(Kind::End),
        _ => None,
    }
}

// What words say of a packet before its body.
#[derive(Clone, Copy)]
struct Heading {
    from: Party,
    to: Party,
    kind: Kind,
    place: Place,
}

// A party as three words.
fn party_of(words: &[&str; 3]) -> Option<Party> {
    Some(Party {
        role: role_of(words[0])?,
        number: words[1].parse().ok()?,
        inc: words[2].parse().ok()?,
    })
}

// The sender, the receiver, the kind and the place, and the words behind them.
fn heading_of<'a>(words: &'a [&'a str]) -> Option<(Heading, &'a [&'a str])> {
    let [
        from,
        from_number,
        from_inc,
        to,
        number,
        inc,
        kind,
        place,
        seq,
        rest @ ..,
    ] = words
    else {
        return None;
    };
    let heading = Heading {
        from: party_of(&[*from, *from_number, *from_inc])?,
        to: party_of(&[*to, *number, *inc])?,
        kind: kind_of(kind)?,
        place: Place {
            inc: place.parse().ok()?,
            seq: seq.parse().ok()?,
        },
    };
    Some((heading, rest))
}

// The body that a word names, of these bytes.
fn read_body(alloc: Global, name: &str, bytes: &[u8]) -> Result<Body, BodyFault> {
    match name {
        "none" => Ok(Body::Nothing),
        "row" => RowLedger::read_full(alloc, bytes).map(|row| Body::Row(row)),
        "row-delta" => RowLedger::read_delta(alloc, bytes).map(|change| Body::RowDelta(change)),
        "report" => JoinLedger::read_full(alloc, bytes).map(|join| Body::Join(join)),
        "grants" => Grants::read_full(alloc, bytes).map(|tally| Body::Grants(tally)),
        "grants-delta" => Grants::read_delta(alloc, bytes).map(|change| Body::GrantsDelta(change)),
        "demand" => Demand::read_full(alloc, bytes).map(|tally| Body::Demand(tally)),
        "demand-delta" => Demand::read_delta(alloc, bytes).map(|change| Body::DemandDelta(change)),
        // Keys of a demand, which may be none of grants.
        "grants-delta-of-demand" => {
            Demand::read_delta(alloc, bytes).map(|change| Body::GrantsDelta(change))
        }
        _ => Err(BodyFault::NotBody),
    }
}

fn is_formed(heading: &Heading, body: Body) -> bool {
    let packet = Packet {
        from: heading.from,
        to: heading.to,
        kind: heading.kind,
        place: heading.place,
        body,
    };
    packet.formed()
}

// Prints whether the packet of a heading and a body is formed.
fn tell_formed(
    rt: &HostRuntime,
    alloc: Global,
    heading: &Heading,
    name: &str,
    body: &[u8],
) -> Result<(), Stop> {
    match read_body(alloc, name, body) {
        Ok(body) => say_line(rt, &[Text("formed "), Truth(is_formed(heading, body))]),
        Err(BodyFault::NotBody) => say_line(rt, &[Text("no body")]),
        Err(BodyFault::OutOfMemory) => Err(Stop::OutOfMemory),
    }
}

/// Prints whether a packet is formed: its sender, its receiver, its kind, its place and its body.
pub fn answer(rt: &HostRuntime, alloc: Global, words: &[&str]) -> Result<(), Stop> {
    let Some((heading, [name, body @ ..])) = heading_of(words) else {
        return say_line(rt, &[Text("?")]);
    };
    match bytes_of(alloc, body)? {
        Some(body) => tell_formed(rt, alloc, &heading, name, &body),
        None => say_line(rt, &[Text("?")]),
    }
}
