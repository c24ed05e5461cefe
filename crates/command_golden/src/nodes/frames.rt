//! Frames as words.

use delta_channel::Place;
use golden_lines::Stop;
use ledger_law::{BodyFault, Ledger};
use party_ledgers::{Body, Demand, Grants, JoinLedger, Kind, Packet, RowLedger};
use schedule_unit::{Party, Role};
use std::alloc::Global;
use wire_frames::write_packet;

// The frame that a short word stands for, or the word.
fn whole_word(word: &str) -> &str {
    match word {
        "a" => "ack:master/1:agent/0/0:0.0",
        "e" => "end:master/1:agent/0/0:0.0",
        "f4" => "full:master/1:agent/0/1:1.1:0.0.4",
        "f5" => "full:master/1:agent/0/1:1.1:0.0.5",
        "b" => "ack:master/1:app/0/0:0.0",
        "h" => "end:master/1:app/0/0:0.0",
        "g" => "full:master/1:app/0/1:1.2:1:1.0.0.1:2.0.0.4",
        "s" => "ack:agent/1/1:master/0:0.0",
        "m" => "end:agent/0/1:master/0:0.0",
        "n" => "end:app/0/1:master/0:0.0",
        word => word,
    }
}

fn kind_of(word: &str) -> Option<Kind> {
    match word {
        "ack" => Some(Kind::Ack),
        "delta" => Some(Kind::Delta),
        "full" => Some(Kind::Full),
        "end" => Some(Kind::End),
        _ => None,
    }
}

// A party as it is printed.
fn party_of(alloc: Global, word: &str) -> Result<Option<Party>, Stop> {
    let parts: Vec<&str> = word.split('/').collect(alloc)?;
    let (role, number, inc) = match parts.as_slice() {
        ["master", inc] => (Role::Master, "0", *inc),
        ["agent", number, inc] => (Role::Agent, *number, *inc),
        ["app", number, inc] => (Role::App, *number, *inc),
        _ => return Ok(None),
    };
    match (number.parse::<u32>(), inc.parse::<u64>()) {
        (Ok(number), Ok(inc)) => Ok(Some(Party { role, number, inc })),
        _ => Ok(None),
    }
}

fn place_of(word: &str) -> Option<Place> {
    let (inc, seq) = word.split_once('.')?;
    Some(Place {
        inc: inc.parse::<u64>().ok()?,
        seq: seq.parse::<u64>().ok()?,
    })
}

// Appends an entry of a row, of the size 100 and 250: `JOB.UNIT.COUNT`.
fn push_grant(bytes: &mut Vec<u8>, job: &str, unit: &str, count: &str) -> Result<bool, Stop> {
    let (Ok(job), Ok(unit), Ok(count)) = (
        job.parse::<u32>(),
        unit.parse::<u8>(),
        count.parse::<i32>(),
    ) else {
        return Ok(false);
    };
    bytes.extend_from_slice(&job.to_be_bytes())?;
    bytes.push(unit)?;
    for quantity in [100u64, 250, 0, 0, 0, 0, 0, 0] {
        bytes.extend_from_slice(&quantity.to_be_bytes())?;
    }
    bytes.extend_from_slice(&count.to_be_bytes())?;
    Ok(true)
}

// Appends an entry of a tally: `WHAT.UNIT.NUMBER.VALUE`.
fn push_number(bytes: &mut Vec<u8>, parts: &[&str; 4]) -> Result<bool, Stop> {
    let (Ok(what), Ok(unit), Ok(number), Ok(value)) = (
        parts[0].parse::<u8>(),
        parts[1].parse::<u8>(),
        parts[2].parse::<u16>(),
        parts[3].parse::<i64>(),
    ) else {
        return Ok(false);
    };
    bytes.extend_from_slice(&[what, unit])?;
    bytes.extend_from_slice(&number.to_be_bytes())?;
    bytes.extend_from_slice(&value.to_be_bytes())?;
    Ok(true)
}

// Appends an entry.
fn push_entry(alloc: Global, bytes: &mut Vec<u8>, word: &str) -> Result<bool, Stop> {
    let parts: Vec<&str> = word.split('.').collect(alloc)?;
    match parts.as_slice() {
        [job, unit, count] => push_grant(bytes, job, unit, count),
        [what, unit, number, value] => push_number(bytes, &[*what, *unit, *number, *value]),
        _ => Ok(false),
    }
}

// The bytes of entries behind their number, and of the head before it, where there is one.
fn entries_of(alloc: Global, head: Option<&str>, words: &[&str]) -> Result<Option<Vec<u8>>, Stop> {
    let mut bytes = Vec::new(alloc);
    if let Some(head) = head {
        let Ok(head) = head.parse::<u64>() else {
            return Ok(None);
        };
        bytes.extend_from_slice(&head.to_be_bytes())?;
    }
    let Ok(count) = u32::try_from(words.len()) else {
        return Ok(None);
    };
    bytes.extend_from_slice(&count.to_be_bytes())?;
    for word in words {
        if !push_entry(alloc, &mut bytes, word)? {
            return Ok(None);
        }
    }
    Ok(Some(bytes))
}

// The body of these bytes, of a ledger or a change from a party of one role to one of another.
fn read_body(
    alloc: Global,
    kind: Kind,
    from: Role,
    to: Role,
    bytes: &[u8],
) -> Result<Body, BodyFault> {
    match (kind, from, to) {
        (Kind::Full, _, Role::Agent) => RowLedger::read_full(alloc, bytes).map(|it| Body::Row(it)),
        (Kind::Delta, _, Role::Agent) => RowLedger::read_delta(alloc, bytes).map(
            |it| Body::RowDelta(it),
        ),
        (Kind::Full, _, Role::App) => Grants::read_full(alloc, bytes).map(|it| Body::Grants(it)),
        (Kind::Delta, _, Role::App) => Grants::read_delta(alloc, bytes).map(|it| Body::GrantsDelta(
            it,
        )),
        (Kind::Full, Role::Agent, _) => JoinLedger::read_full(alloc, bytes).map(|it| Body::Join(
            it,
        )),
        (Kind::Full, Role::App, _) => Demand::read_full(alloc, bytes).map(|it| Body::Demand(it)),
        (Kind::Delta, Role::App, _) => Demand::read_delta(alloc, bytes).map(|it| Body::DemandDelta(
            it,
        )),
        _ => Ok(Body::Nothing),
    }
}

// The body of these words; a row has no head.
fn body_of(
    alloc: Global,
    kind: Kind,
    from: Role,
    to: Role,
    words: &[&str],
) -> Result<Option<Body>, Stop> {
    let bytes = match (words, to) {
        (words, Role::Agent) => entries_of(alloc, None, words)?,
        ([head, entries @ ..], _) => entries_of(alloc, Some(*head), entries)?,
        _ => entries_of(alloc, None, words)?,
    };
    let Some(bytes) = bytes else {
        return Ok(None);
    };
    match read_body(alloc, kind, from, to, &bytes) {
        Ok(body) => Ok(Some(body)),
        Err(BodyFault::NotBody) => Ok(None),
        Err(BodyFault::OutOfMemory) => Err(Stop::OutOfMemory),
    }
}

// The packet of these words: its kind, its sender, its receiver, its place and the words of its body.
fn packet_of(alloc: Global, words: &[&str]) -> Result<Option<Packet>, Stop> {
    let [kind, from, to, place, body @ ..] = words else {
        return Ok(None);
    };
    let (Some(kind), Some(from), Some(to), Some(place)) = (
        kind_of(kind),
        party_of(alloc, from)?,
        party_of(alloc, to)?,
        place_of(place),
    ) else {
        return Ok(None);
    };
    let Some(body) = body_of(alloc, kind, from.role, to.role, body)? else {
        return Ok(None);
    };
    Ok(Some(Packet {
        from,
        to,
        kind,
        place,
        body,
    }))
}

// The bytes of a frame, or those behind `x:`; None where the word stands for none.
fn frame_of(alloc: Global, word: &str) -> Result<Option<Vec<u8>>, Stop> {
    let parts: Vec<&str> = whole_word(word).split(':').collect(alloc)?;
    if let ["x", digits] = parts.as_slice() {
        return Ok(hex::decode(alloc, digits).ok());
    }
    let Some(packet) = packet_of(alloc, &parts)? else {
        return Ok(None);
    };
    if !packet.formed() {
        return Ok(None);
    }
    let mut bytes = Vec::new(alloc);
    write_packet(&packet, &mut bytes)?;
    Ok(Some(bytes))
}

// Puts other bytes in place of those from a place on: `PLACE=BYTES`.
fn edit(alloc: Global, bytes: &mut Vec<u8>, word: &str) -> bool {
    let Some((at, digits)) = word.split_once('=') else {
        return false;
    };
    let (Ok(at), Ok(digits)) = (at.parse::<usize>(), hex::decode(alloc, digits)) else {
        return false;
    };
    for (byte, digit) in bytes.iter_mut().skip(at).zip(digits.iter()) {
        *byte = *digit;
    }
    true
}

/// Appends the bytes that a word stands for: a frame, or bytes behind `x:`, with edits behind `!`, so often as stands
/// behind `*`. False where it stands for none.
pub fn push_word(alloc: Global, bytes: &mut Vec<u8>, word: &str) -> Result<bool, Stop> {
    let (word, times) = word.split_once('*').unwrap_or((word, "1"));
    let Ok(times) = times.parse::<u32>() else {
        return Ok(false);
    };
    let mut parts = word.split('!');
    let Some(mut frame) = frame_of(alloc, parts.next().unwrap_or(""))? else {
        return Ok(false);
    };
    for part in parts {
        if !edit(alloc, &mut frame, part) {
            return Ok(false);
        }
    }
    for _ in 0..times {
        bytes.extend_from_slice(&frame)?;
    }
    Ok(true)
}
