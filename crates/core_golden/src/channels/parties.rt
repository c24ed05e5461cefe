//! Calls of two parties, each with a channel to the other.

ghost use Rattle.std.specs.Prelude.{◌≡◌, IfSome};
ghost use Rattle.delta_channel.specs.Hearing.{verdict_of};

use crate::channels::telling::Told;
use delta_channel::{Place, Stamp, Verdict};
use full_sync::{Duplex, Note};
use golden_lines::Piece::{Number, Text, Truth};
use golden_lines::{Stop, bytes_of, say_line};
use ledger_law::{BodyFault, Ledger, LedgerFault};
use party_ledgers::Demand;
use std::alloc::Global;

/// A party that sends a demand and receives one.
type Party = Duplex<Demand, Demand>;

/// Two parties.
#[derive(Drop)]
pub struct Parties {
    near: Party,
    far: Party,
}

// A post that a party may make.
const MOST_LAST: u64 = 1 << 61;

// A change of one more wanted in the epoch 1, and one of one less.
const MORE: [u8; 24] = [
    0, 0, 0, 0, 0, 0, 0, 1, 0, 0, 0, 1, 1, 0, 0, 0, 0, 0, 0, 0, 0, 0, 0, 1,
];

const LESS: [u8; 24] = [
    0, 0, 0, 0, 0, 0, 0, 1, 0, 0, 0, 1, 1, 0, 0, 0, 255, 255, 255, 255, 255, 255, 255, 255,
];

// Prints the fault of a ledger.
fn tell_fault(rt: &HostRuntime, fault: LedgerFault) -> Result<(), Stop> {
    Ok(println!(rt; "{fault:?}")?)
}

fn tell_party(rt: &HostRuntime, party: &Party) -> Result<(), Stop> {
    let place = party.place();
    say_line(
        rt,
        &[
            Text("  own "),
            Number(party.own()),
            Text(" peer "),
            Number(party.peer()),
            Text(" last "),
            Number(party.last()),
            Text(" acked "),
            Number(party.acked()),
            Text(" place "),
            Number(place.inc),
            Text("."),
            Number(place.seq),
        ],
    )?;
    Ok(())
}

// Prints what a turn sends but for its changes.
fn tell_note(rt: &HostRuntime, note: &Note<Demand>) -> Result<(), Stop> {
    match note {
        Note::Delta(_, _) => Ok(()),
        Note::Ack(place) => say_line(
            rt,
            &[
                Text("  ack "),
                Number(place.inc),
                Text("."),
                Number(place.seq),
            ],
        ),
        Note::Full(index, ledger) => {
            say_line(rt, &[Text("  full "), Number(*index)])?;
            ledger.tell(rt)
        }
    }
}

// The index of a change.
fn delta_of(note: &Note<Demand>) -> Option<u64> {
    match note {
        Note::Delta(index, _) => Some(*index),
        _ => None,
    }
}

// Prints what a turn sends, its changes, which follow one another, in one line.
fn tell_notes(rt: &HostRuntime, notes: &[Note<Demand>]) -> Result<(), Stop> {
    let mut changes = notes.iter().filter_map(|note| delta_of(note));
    if let Some(first) = changes.next() {
        say_line(
            rt,
            &[
                Text("  deltas "),
                Number(first),
                Text(" to "),
                Number(changes.last().unwrap_or(first)),
            ],
        )?;
    }
    for note in notes {
        tell_note(rt, note)?;
    }
    Ok(())
}

fn tell_turn(rt: &HostRuntime, alloc: Global, party: &Party) -> Result<(), Stop> {
    let notes = party.turn(alloc)?;
    tell_notes(rt, notes.as_slice())
}

// Posts the change of a body.
fn post(rt: &HostRuntime, alloc: Global, party: &mut Party, body: &[u8]) -> Result<(), Stop> {
    match Demand::read_delta(alloc, body) {
        Ok(change) if party.last() < MOST_LAST => match party.post(alloc, change) {
            Ok(index) => say_line(rt, &[Text("posted "), Number(index)])?,
            Err(fault) => tell_fault(rt, fault)?,
        },
        Ok(_) => say_line(rt, &[Text("?")])?,
        Err(BodyFault::NotBody) => say_line(rt, &[Text("no body")])?,
        Err(BodyFault::OutOfMemory) => return Err(Stop::OutOfMemory),
    }
    Ok(())
}

// Posts a change; false where it is none, or refused.
fn is_posted(alloc: Global, party: &mut Party, body: &[u8]) -> bool {
    match Demand::read_delta(alloc, body) {
        Ok(change) => party.last() < MOST_LAST && party.post(alloc, change).is_ok(),
        Err(_) => false,
    }
}

// Posts a change and its reverse by turns, so often.
fn post_often(rt: &HostRuntime, alloc: Global, party: &mut Party, times: u64) -> Result<(), Stop> {
    for turn in 0..times {
        let body = if turn % 2 == 0 { &MORE } else { &LESS };
        if !is_posted(alloc, party, body) {
            say_line(rt, &[Text("refused at "), Number(turn)])?;
        }
    }
    Ok(())
}

// Takes what is to be taken.
fn take(
    alloc: Global,
    party: &mut Party,
    stamp: &Stamp,
    note: &Note<Demand>,
) -> Result<(), LedgerFault>
    requires { verdict_of party.old.incoming.own party.old.incoming.place stamp.now ≡ Verdict.Take }
{
    match note {
        Note::Full(_, ledger) => {
            party.take_full(stamp, ledger.copy(alloc)?);
            Ok(())
        }
        Note::Delta(_, change) => party.take_delta(alloc, stamp, change),
        Note::Ack(_) => Ok(()),
    }
}

// Hands a party a packet. A sender that was not heard of is heard of first.
fn hear(
    alloc: Global,
    party: &mut Party,
    stamp: &Stamp,
    note: &Note<Demand>,
) -> Result<Verdict, LedgerFault>
    requires { stamp.now.place.inc ≡ stamp.now.from }
{
    party.hear(alloc, stamp.from);
    if stamp.from > party.peer() {
        return Ok(Verdict::Stale);
    }
    let verdict = party.verdict(stamp);
    if verdict == Verdict::Take {
        take(alloc, party, stamp, note)?;
    }
    Ok(verdict)
}

fn stamp_of(from: u64, to: u64, full: bool, seq: u64) -> Stamp
    ensures { result.place.inc ≡ result.from }
{
    let place = Place { inc: from, seq };
    Stamp {
        from,
        to,
        full,
        place,
    }
}

// Hands a party the acknowledgement of a place.
fn acknowledge(alloc: Global, party: &mut Party, from: u64, place: Place) {
    party.hear(alloc, from);
    if party.peer() == from {
        party.on_ack(from, place);
    }
}

// Hands a party what another sends; what it is heard as, nothing for an acknowledgement.
fn hear_note(
    alloc: Global,
    from: u64,
    party: &mut Party,
    note: &Note<Demand>,
) -> Result<Option<Verdict>, LedgerFault> {
    let (full, seq) = match note {
        Note::Full(seq, _) => (true, *seq),
        Note::Delta(seq, _) => (false, *seq),
        Note::Ack(place) => {
            acknowledge(alloc, party, from, *place);
            return Ok(None);
        }
    };
    let stamp = stamp_of(from, party.own(), full, seq);
    Ok(Some(hear(alloc, party, &stamp, note)?))
}

fn tell_received(rt: &HostRuntime, party: &Party) -> Result<(), Stop> {
    tell_party(rt, party)?;
    party.got().tell(rt)
}

// Hands a party what another sends, and prints how many of these were taken, and what it has then.
fn hear_all(
    rt: &HostRuntime,
    alloc: Global,
    from: u64,
    party: &mut Party,
    notes: &[Note<Demand>],
) -> Result<(), Stop> {
    let mut taken = 0u64;
    for note in notes {
        match hear_note(alloc, from, party, note) {
            Ok(Some(Verdict::Take)) => taken = taken.saturating_add(1),
            Ok(_) => {}
            Err(fault) => tell_fault(rt, fault)?,
        }
    }
    say_line(
        rt,
        &[
            Number(taken),
            Text(" of "),
            Number(notes.len() as u64),
            Text(" taken"),
        ],
    )?;
    tell_received(rt, party)
}

// Hands a party what the other sends in a turn.
fn deliver(rt: &HostRuntime, alloc: Global, from: &Party, to: &mut Party) -> Result<(), Stop> {
    let notes = from.turn(alloc)?;
    hear_all(rt, alloc, from.own(), to, notes.as_slice())
}

// The stamp of a packet as its sender, its receiver and its number, and the words behind them.
fn read_stamp<'a>(full: bool, words: &'a [&'a str]) -> Option<(Stamp, &'a [&'a str])>
    ensures { IfSome result (λ read. read.0.place.inc ≡ read.0.from) }
{
    let [from, to, seq, rest @ ..] = words else {
        return None;
    };
    let from = from.parse::<u64>().ok()?;
    let to = to.parse::<u64>().ok()?;
    let seq = seq.parse::<u64>().ok()?;
    Some((stamp_of(from, to, full, seq), rest))
}

// What a packet brings: a whole ledger, or a change.
fn note_of(alloc: Global, stamp: &Stamp, body: &[u8]) -> Result<Note<Demand>, BodyFault> {
    let seq = stamp.place.seq;
    if stamp.full {
        Demand::read_full(alloc, body).map(|ledger| Note::Full(seq, ledger))
    } else {
        Demand::read_delta(alloc, body).map(|change| Note::Delta(seq, change))
    }
}

// Hands a party a packet, and prints what it takes it for.
fn packet(
    rt: &HostRuntime,
    alloc: Global,
    party: &mut Party,
    stamp: &Stamp,
    body: &[u8],
) -> Result<(), Stop>
    requires { stamp.now.place.inc ≡ stamp.now.from }
{
    match note_of(alloc, stamp, body) {
        Ok(note) => match hear(alloc, party, stamp, &note) {
            Ok(verdict) => println!(rt; "{verdict:?}")?,
            Err(fault) => tell_fault(rt, fault)?,
        },
        Err(BodyFault::NotBody) => say_line(rt, &[Text("no body")])?,
        Err(BodyFault::OutOfMemory) => return Err(Stop::OutOfMemory),
    }
    Ok(())
}

fn start(alloc: Global, party: &mut Party, own: u64) -> Result<(), Stop> {
    *party = Party::start(alloc, own)?;
    Ok(())
}

fn tell_hear(rt: &HostRuntime, alloc: Global, party: &mut Party, from: u64) -> Result<(), Stop> {
    let fresh = party.hear(alloc, from);
    say_line(rt, &[Text("new "), Truth(fresh)])?;
    Ok(())
}

// Hands a party the acknowledgement of its peer.
fn acknowledge_peer(party: &mut Party, inc: u64, seq: u64) {
    let peer = party.peer();
    party.on_ack(peer, Place { inc, seq });
}

// What a call with numbers answers, before the party is printed.
fn call(
    rt: &HostRuntime,
    alloc: Global,
    party: &mut Party,
    name: &str,
    numbers: &[u64],
) -> Result<(), Stop> {
    match (name, numbers) {
        ("start", [own]) => start(alloc, party, *own)?,
        ("posts", [times]) => post_often(rt, alloc, party, *times)?,
        ("hear", [from]) => tell_hear(rt, alloc, party, *from)?,
        ("ack", [inc, seq]) => acknowledge_peer(party, *inc, *seq),
        ("resync", []) => party.resync(),
        ("turn", []) => tell_turn(rt, alloc, party)?,
        ("state", []) => {}
        _ => say_line(rt, &[Text("?")])?,
    }
    tell_party(rt, party)
}

// The numbers of words; None where a word is none.
fn numbers_of(alloc: Global, words: &[&str]) -> Result<Option<Vec<u64>>, Stop> {
    let mut numbers = Vec::new(alloc);
    for word in words {
        match word.parse::<u64>() {
            Ok(number) => numbers.push(number)?,
            Err(_) => return Ok(None),
        }
    }
    Ok(Some(numbers))
}

fn answer_call(
    rt: &HostRuntime,
    alloc: Global,
    party: &mut Party,
    name: &str,
    words: &[&str],
) -> Result<(), Stop> {
    match numbers_of(alloc, words)? {
        Some(numbers) => call(rt, alloc, party, name, &numbers),
        None => say_line(rt, &[Text("?")]),
    }
}

fn answer_post(
    rt: &HostRuntime,
    alloc: Global,
    party: &mut Party,
    words: &[&str],
) -> Result<(), Stop> {
    let Some(body) = bytes_of(alloc, words)? else {
        return say_line(rt, &[Text("?")]);
    };
    post(rt, alloc, party, &body)?;
    party.sent().tell(rt)
}

// A packet as its sender, its receiver, its number and its body.
fn answer_packet(
    rt: &HostRuntime,
    alloc: Global,
    party: &mut Party,
    full: bool,
    words: &[&str],
) -> Result<(), Stop> {
    let Some((stamp, rest)) = read_stamp(full, words) else {
        return say_line(rt, &[Text("?")]);
    };
    let Some(body) = bytes_of(alloc, rest)? else {
        return say_line(rt, &[Text("?")]);
    };
    packet(rt, alloc, party, &stamp, &body)?;
    tell_received(rt, party)
}

// What a party answers.
fn answer(rt: &HostRuntime, alloc: Global, party: &mut Party, words: &[&str]) -> Result<(), Stop> {
    match words {
        ["post", rest @ ..] => answer_post(rt, alloc, party, rest),
        ["full", rest @ ..] => answer_packet(rt, alloc, party, true, rest),
        ["delta", rest @ ..] => answer_packet(rt, alloc, party, false, rest),
        [name, rest @ ..] => answer_call(rt, alloc, party, name, rest),
        _ => say_line(rt, &[Text("?")]),
    }
}

impl Parties {
    /// Two parties of the incarnations 1 and 2.
    pub fn new(alloc: Global) -> Result<Parties, Stop> {
        let (near, far) = (Party::start(alloc, 1)?, Party::start(alloc, 2)?);
        Ok(Parties { near, far })
    }

    /// Prints what the named party answers, or what it hears of a turn of the other.
    pub fn answer(&mut self, rt: &HostRuntime, alloc: Global, words: &[&str]) -> Result<(), Stop> {
        match words {
            ["near", "to", "far"] => deliver(rt, alloc, &self.near, &mut self.far),
            ["far", "to", "near"] => deliver(rt, alloc, &self.far, &mut self.near),
            ["near", rest @ ..] => answer(rt, alloc, &mut self.near, rest),
            ["far", rest @ ..] => answer(rt, alloc, &mut self.far, rest),
            _ => say_line(rt, &[Text("?")]),
        }
    }
}
