//! Calls of frames.

use crate::channels::telling::{Told, tell_change, tell_entries};
use golden_lines::Piece::{Number, Text};
use golden_lines::{Stop, say, say_line};
use party_ledgers::{Body, JoinLedger, Kind, Packet, RowLedger};
use schedule_unit::{Party, Role};
use std::alloc::Global;
use wire_frames::{FrameFault, frame_length, read_packet, write_packet};

fn kind_word(kind: Kind) -> &'static str {
    match kind {
        Kind::Ack => "ack",
        Kind::Delta => "delta",
        Kind::Full => "full",
        Kind::End => "end",
    }
}

fn tell_party(rt: &HostRuntime, party: &Party) -> Result<(), Stop> {
    match party.role {
        Role::Master => say(rt, &[Text("master/"), Number(party.inc), Text(" ")])?,
        Role::Agent => say(
            rt,
            &[
                Text("agent/"),
                Number(party.number as u64),
                Text("/"),
                Number(party.inc),
                Text(" "),
            ],
        )?,
        Role::App => say(
            rt,
            &[
                Text("app/"),
                Number(party.number as u64),
                Text("/"),
                Number(party.inc),
                Text(" "),
            ],
        )?,
    }
    Ok(())
}

fn tell_row(rt: &HostRuntime, row: &RowLedger) -> Result<(), Stop> {
    tell_entries(rt, row)?;
    say_line(
        rt,
        &[Text("  "), Number(row.len() as u64), Text(" entries")],
    )?;
    Ok(())
}

fn tell_join(rt: &HostRuntime, join: &JoinLedger) -> Result<(), Stop> {
    say_line(rt, &[Text("  epoch "), Number(join.epoch())])?;
    tell_row(rt, join.table())
}

fn tell_body(rt: &HostRuntime, body: &Body) -> Result<(), Stop> {
    match body {
        Body::Nothing => Ok(()),
        Body::Row(row) => tell_row(rt, row),
        Body::RowDelta(change) => say_line(
            rt,
            &[
                Text("  "),
                Number(change.len() as u64),
                Text(" changes of a row"),
            ],
        ),
        Body::Join(join) => tell_join(rt, join),
        Body::Grants(tally) => tally.tell(rt),
        Body::Demand(tally) => tally.tell(rt),
        Body::GrantsDelta(change) | Body::DemandDelta(change) => tell_change(rt, change),
    }
}

// The length of a packet's frame, and 0 where it has none.
fn length_of(packet: &Packet) -> usize {
    if packet.formed() {
        frame_length(packet)
    } else {
        0
    }
}

/// Prints a packet: its sender, its receiver, its kind, its place and how many bytes its frame has, and then what
/// it brings.
pub fn tell(rt: &HostRuntime, packet: &Packet) -> Result<(), Stop> {
    tell_party(rt, &packet.from)?;
    tell_party(rt, &packet.to)?;
    say_line(
        rt,
        &[
            Text(kind_word(packet.kind)),
            Text(" "),
            Number(packet.place.inc),
            Text("."),
            Number(packet.place.seq),
            Text(" "),
            Number(length_of(packet) as u64),
        ],
    )?;
    tell_body(rt, &packet.body)
}

/// Prints a fault: its name, and the number that was found.
pub fn tell_fault(rt: &HostRuntime, fault: FrameFault) -> Result<(), Stop> {
    match fault.found() {
        Some(found) => say_line(rt, &[Text(fault.name()), Text(" "), Number(found as u64)])?,
        None => say_line(rt, &[Text(fault.name())])?,
    }
    Ok(())
}

// Whether the packet is formed, and its frame is these bytes.
fn is_written_so(alloc: Global, packet: &Packet, bytes: &[u8]) -> Result<bool, Stop> {
    let mut out = Vec::new(alloc);
    if !packet.formed() {
        return Ok(false);
    }
    write_packet(packet, &mut out)?;
    Ok(out.as_slice() == bytes)
}

// Prints a packet that was read of so many of the bytes, and how its own frame is.
fn tell_read(
    rt: &HostRuntime,
    alloc: Global,
    packet: &Packet,
    size: usize,
    bytes: &[u8],
) -> Result<(), Stop> {
    tell(rt, packet)?;
    let Some(frame) = bytes.get(..size) else {
        return say_line(rt, &[Text("too long")]);
    };
    if is_written_so(alloc, packet, frame)? {
        say_line(
            rt,
            &[
                Text("  written so, "),
                Number((bytes.len() - frame.len()) as u64),
                Text(" bytes behind"),
            ],
        )?;
    } else {
        say_line(rt, &[Text("  written otherwise")])?;
    }
    Ok(())
}

/// Prints the packet whose frame the bytes begin with, and how its own frame is, or the fault.
pub fn read(rt: &HostRuntime, alloc: Global, bytes: &[u8]) -> Result<(), Stop> {
    match read_packet(alloc, bytes) {
        Ok((packet, size)) => tell_read(rt, alloc, &packet, size, bytes),
        Err(fault) => tell_fault(rt, fault),
    }
}

// Whether no frame ends within the bytes, as far as they tell.
fn is_short(alloc: Global, bytes: &[u8]) -> bool {
    matches!(&read_packet(alloc, bytes), Err(FrameFault::Short))
}

/// Prints how many of the proper beginnings of the bytes are short.
pub fn cut(rt: &HostRuntime, alloc: Global, bytes: &[u8]) -> Result<(), Stop> {
    let short = (0..bytes.len())
        .filter(|end| is_short(alloc, &bytes[..*end]))
        .count();
    say_line(
        rt,
        &[
            Number(short as u64),
            Text(" of "),
            Number(bytes.len() as u64),
            Text(" beginnings are short"),
        ],
    )?;
    Ok(())
}
