//! The lines that are printed.

ghost use Rattle.std.specs.Prelude.{◌≡◌, ◌+◌, ◌≤◌, ◌++◌, ◌∷◌, [], true, false, cond, codes, length, map, OnOk, OnErr, decimal};
ghost use Rattle.hex.specs.Hex.{encode_lower};
ghost use Rattle.schedule_text.specs.PrintedLines.{party_word, place_word, kind_word, what_word, frame_words, ended};
ghost use Rattle.schedule_text.specs.Printing.{as_party, as_kind, is_of_packet, is_entry, output_words, output_text};
ghost use Rattle.schedule_text.specs.Writing.{blanked, spaced, Begins};
ghost use Rattle.schedule_text.specs.declared.output.Output.TheVariants.{Sent};

use crate::refusal::{Refusal, push_refusal};
use crate::tail::Tail;
use crate::write::{push_blanked, push_numbers};
use fuxi_terms::{OutOfMemory, What};
use schedule_unit::{AppNo, GroupNo, MachineNo, Party, Role, UnitNo, write_number};
use std::alloc::Global;

/// What a packet of a turn is.
#[derive(Clone, Copy, Debug, PartialEq, Eq)]
pub enum Kind {
    /// How far what came the other way has come.
    Ack,
    /// The change that leads to an index.
    Delta,
    /// The whole ledger of an index.
    Full,
}

/// A line that is printed. Packets count from 1, and a place is an incarnation and an index.
#[derive(Clone, Copy, Drop)]
pub enum Output<'a> {
    /// A packet of a turn, and the length of its frame in bytes.
    Sent {
        /// Its number, from 1 on.
        number: u64,
        /// Who sends it.
        from: Party,
        /// Whom it is for.
        to: Party,
        /// What it is.
        kind: Kind,
        /// The incarnation of its place.
        inc: u64,
        /// The index of its place.
        seq: u64,
        /// The length of its frame in bytes.
        bytes: u64,
    },
    /// A packet that was heard, whether its sender is a new incarnation, and as what.
    Heard(u64, bool, &'a What),
    /// A packet that was delivered where nobody runs.
    Lost(u64),
    /// A master that stopped within a writing, and whether that is written.
    Halted(u64, bool),
    /// Why an event was refused.
    Refused(Refusal),
    /// A machine that a judgement banned, and how many votes it had.
    Judged(MachineNo, u32),
    /// The number of events.
    State(u64),
    /// The greatest epoch that ever started.
    Fence(u64),
    /// A job, its group, and whether it has ended.
    Job(AppNo, GroupNo, bool),
    /// A machine that is banned.
    Banned(MachineNo),
    /// A master by its epoch, and whether it serves.
    Master(u64, bool),
    /// A machine that is reported to the master of this epoch.
    Reported(u64, MachineNo),
    /// Grants in the table of the master of this epoch.
    Grant(u64, AppNo, UnitNo, MachineNo, u32),
    /// A unit that waits at the master of this epoch, and for how many.
    Wait(u64, AppNo, UnitNo, u32),
    /// An agent with its boot and its place.
    Agent(MachineNo, u64, u64, u64),
    /// Grants in an agent's table.
    Row(MachineNo, AppNo, UnitNo, u32),
    /// An application with its boot and its place.
    App(AppNo, u64, u64, u64),
    /// Grants that an application holds on a machine that is named as reported.
    Hold(AppNo, UnitNo, MachineNo, u32),
    /// Grants that an application carries on another machine.
    Carry(AppNo, UnitNo, MachineNo, u32),
    /// How many packets were sent.
    Packets(u64),
}

/// Appends the line and a newline. Leaves `out` as it was where memory was refused.
pub fn write_output(line: &Output, out: &mut Vec<u8>) -> Result<(), OutOfMemory>
    ensures ok { OnOk result (out.new.items ≡ out.old.items ++ output_text line.now) }
    ensures err { OnErr result (out.new.items ≡ out.old.items) }
{
    match line {
        Output::Sent {
            number,
            from,
            to,
            kind,
            inc,
            seq,
            bytes,
        } => write_sent(*number, from, to, *kind, *inc, *seq, *bytes, out),
        Output::Heard(number, fresh, what) => write_heard(*number, *fresh, what, out),
        _ => write_other(line, out),
    }
}

/// Appends the line of a packet of a turn, which [`Output::Sent`] names part by part, and a newline. Leaves `out` as it was where memory
/// was refused.
pub fn write_sent(
    number: u64,
    from: &Party,
    to: &Party,
    kind: Kind,
    inc: u64,
    seq: u64,
    bytes: u64,
    out: &mut Vec<u8>,
) -> Result<(), OutOfMemory>
    ensures ok { OnOk result (out.new.items ≡ out.old.items ++ output_text (Sent number from.now to.now kind inc seq bytes)) }
    ensures err { OnErr result (out.new.items ≡ out.old.items) }
{
    let mut text = Tail::new();
    put_sent_line(&mut text, number, from, to, kind, inc, seq, bytes);
    Ok(out.extend_from_slice(text.as_slice())?)
}

/// Appends the line of a packet that was heard ([`Output::Heard`]), and a newline. Leaves `out` as it was where memory was refused.
pub fn write_heard(
    number: u64,
    fresh: bool,
    what: &What,
    out: &mut Vec<u8>,
) -> Result<(), OutOfMemory>
    ensures ok { OnOk result (out.new.items ≡ out.old.items ++ ended (codes "heard" ∷ decimal number ∷ cond fresh (codes "new" ∷ what_word what.now ∷ []) (what_word what.now ∷ []))) }
    ensures err { OnErr result (out.new.items ≡ out.old.items) }
{
    let mut text = Tail::new();
    put_heard_line(&mut text, number, fresh, what);
    Ok(out.extend_from_slice(text.as_slice())?)
}

// The same of a line that is neither of a packet that is sent nor of one that is heard.
fn write_other(line: &Output, out: &mut Vec<u8>) -> Result<(), OutOfMemory>
    requires { is_of_packet line.now ≡ false }
    ensures ok { OnOk result (out.new.items ≡ out.old.items ++ output_text line.now) }
    ensures err { OnErr result (out.new.items ≡ out.old.items) }
{
    let length = out.len();
    match push_ended(line, out) {
        Ok(()) => Ok(()),
        Err(refusal) => {
            out.truncate(length);
            Err(refusal)
        }
    }
}

// The line of a packet that is sent.
fn put_sent_line(
    line: &mut Tail,
    number: u64,
    from: &Party,
    to: &Party,
    kind: Kind,
    inc: u64,
    seq: u64,
    bytes: u64,
)
    requires { line.old ≡ [] }
    ensures { line.new ≡ ended (codes "sent" ∷ decimal number ∷ party_word (as_party from.now) ∷ party_word (as_party to.now) ∷ kind_word (as_kind kind) ∷ place_word inc seq ∷ decimal bytes ∷ []) }
{
    line.put(b'\n');
    line.put_number(bytes);
    line.put(b' ');
    put_sent(line, from, to, kind, inc, seq);
    line.put_number(number);
    line.put_word(b"sent ");
}

// The line of a packet that is heard.
fn put_heard_line(line: &mut Tail, number: u64, fresh: bool, what: &What)
    requires { line.old ≡ [] }
    ensures { line.new ≡ ended (codes "heard" ∷ decimal number ∷ cond fresh (codes "new" ∷ what_word what.now ∷ []) (what_word what.now ∷ [])) }
{
    line.put(b'\n');
    put_heard(line, fresh, what);
    line.put_number(number);
    line.put_word(b"heard ");
}

/// Appends the line of a packet's frame, in hexadecimal digits, and a newline. Leaves `out` as it was where
/// memory was refused.
pub fn write_frame(
    alloc: Global,
    number: u64,
    bytes: &[u8],
    out: &mut Vec<u8>,
) -> Result<(), OutOfMemory>
    ensures ok { OnOk result (out.new.items ≡ out.old.items ++ ended (frame_words number bytes.now)) }
    ensures err { OnErr result (out.new.items ≡ out.old.items) }
{
    let digits = hex::encode(alloc, bytes)?;
    let length = out.len();
    match push_frame(number, digits.as_bytes(), out) {
        Ok(()) => Ok(()),
        Err(refusal) => {
            out.truncate(length);
            Err(refusal)
        }
    }
}

fn push_frame(number: u64, digits: &[u8], out: &mut Vec<u8>) -> Result<(), OutOfMemory>
    ensures ok { OnOk result (out.new.items ≡ out.old.items ++ ended (codes "frame" ∷ decimal number ∷ digits.now ∷ [])) }
    ensures err { OnErr result (Begins out.old.items out.new.items) }
{
    push_word(out, b"frame", &[number], digits)?;
    Ok(out.push(b'\n')?)
}

fn push_ended(line: &Output, out: &mut Vec<u8>) -> Result<(), OutOfMemory>
    requires { is_of_packet line.now ≡ false }
    ensures ok { OnOk result (out.new.items ≡ out.old.items ++ output_text line.now) }
    ensures err { OnErr result (Begins out.old.items out.new.items) }
{
    push_output(line, out)?;
    Ok(out.push(b'\n')?)
}

fn push_output(line: &Output, out: &mut Vec<u8>) -> Result<(), OutOfMemory>
    requires { is_of_packet line.now ≡ false }
    ensures ok { OnOk result (out.new.items ≡ out.old.items ++ spaced (output_words line.now)) }
    ensures err { OnErr result (Begins out.old.items out.new.items) }
{
    match line {
        Output::Lost(number) => push_word(out, b"heard", &[*number], b"lost"),
        Output::Halted(epoch, written) => push_word(
            out,
            b"halted",
            &[*epoch],
            if *written {
                b"after".as_slice()
            } else {
                b"before".as_slice()
            },
        ),
        Output::Refused(refusal) => {
            push_numbered(out, b"refused", &[])?;
            push_refusal(out, refusal)
        }
        Output::Judged(machine, votes) => {
            push_numbered(out, b"banned", &[machine.0 as u64, *votes as u64])
        }
        Output::State(events) => push_numbered(out, b"state", &[*events]),
        Output::Fence(epoch) => push_numbered(out, b"fence", &[*epoch]),
        Output::Job(app, group, ended) => push_word(
            out,
            b"job",
            &[app.0 as u64, group.0 as u64],
            if *ended {
                b"ended".as_slice()
            } else {
                b"live".as_slice()
            },
        ),
        Output::Banned(machine) => push_numbered(out, b"ban", &[machine.0 as u64]),
        Output::Master(epoch, serving) => push_word(
            out,
            b"master",
            &[*epoch],
            if *serving {
                b"serving".as_slice()
            } else {
                b"rebuilding".as_slice()
            },
        ),
        Output::Packets(number) => push_numbered(out, b"packets", &[*number]),
        _ => push_entry(line, out),
    }
}

// What a master, an agent and an application have.
fn push_entry(line: &Output, out: &mut Vec<u8>) -> Result<(), OutOfMemory>
    requires { is_entry line.now ≡ true }
    ensures ok { OnOk result (out.new.items ≡ out.old.items ++ spaced (output_words line.now)) }
    ensures err { OnErr result (Begins out.old.items out.new.items) }
{
    match line {
        Output::Reported(epoch, machine) => {
            push_numbered(out, b"reported", &[*epoch, machine.0 as u64])
        }
        Output::Grant(epoch, app, unit, machine, count) => push_numbered(
            out,
            b"grant",
            &[
                *epoch,
                app.0 as u64,
                unit.0 as u64,
                machine.0 as u64,
                *count as u64,
            ],
        ),
        Output::Wait(epoch, app, unit, count) => push_numbered(
            out,
            b"wait",
            &[*epoch, app.0 as u64, unit.0 as u64, *count as u64],
        ),
        Output::Agent(machine, boot, inc, seq) => {
            push_numbered(out, b"agent", &[machine.0 as u64, *boot])?;
            push_place(out, *inc, *seq)
        }
        Output::Row(machine, app, unit, count) => push_numbered(
            out,
            b"row",
            &[machine.0 as u64, app.0 as u64, unit.0 as u64, *count as u64],
        ),
        Output::App(app, boot, inc, seq) => {
            push_numbered(out, b"app", &[app.0 as u64, *boot])?;
            push_place(out, *inc, *seq)
        }
        Output::Hold(app, unit, machine, count) => push_numbered(
            out,
            b"hold",
            &[app.0 as u64, unit.0 as u64, machine.0 as u64, *count as u64],
        ),
        Output::Carry(app, unit, machine, count) => push_numbered(
            out,
            b"carry",
            &[app.0 as u64, unit.0 as u64, machine.0 as u64, *count as u64],
        ),
        _ => unreachable!(),
    }
}

/// Appends a first word and numbers.
pub fn push_numbered(out: &mut Vec<u8>, word: &[u8], numbers: &[u64]) -> Result<(), OutOfMemory>
    ensures ok { OnOk result (out.new.items ≡ out.old.items ++ spaced (word.now ∷ map decimal numbers.now)) }
    ensures err { OnErr result (Begins out.old.items out.new.items) }
{
    out.extend_from_slice(word)?;
    match push_numbers(out, numbers) {
        Ok(()) => Ok(()),
        Err(refusal) => Err(refusal),
    }
}

// A first word, numbers, and a last word.
fn push_word(
    out: &mut Vec<u8>,
    word: &[u8],
    numbers: &[u64],
    last: &[u8],
) -> Result<(), OutOfMemory>
    ensures ok { OnOk result (out.new.items ≡ out.old.items ++ spaced (word.now ∷ (map decimal numbers.now ++ last.now ∷ []))) }
    ensures err { OnErr result (Begins out.old.items out.new.items) }
{
    push_numbered(out, word, numbers)?;
    match push_blanked(out, last) {
        Ok(()) => Ok(()),
        Err(refusal) => Err(refusal),
    }
}

/// Appends what a packet of a turn is, behind its number.
pub fn push_sent(
    out: &mut Vec<u8>,
    from: &Party,
    to: &Party,
    kind: Kind,
    inc: u64,
    seq: u64,
) -> Result<(), OutOfMemory>
    ensures ok { OnOk result (out.new.items ≡ out.old.items ++ blanked (party_word (as_party from.now) ∷ party_word (as_party to.now) ∷ kind_word (as_kind kind) ∷ place_word inc seq ∷ [])) }
    ensures err { OnErr result (Begins out.old.items out.new.items) }
{
    let mut words = Tail::new();
    put_sent(&mut words, from, to, kind, inc, seq);
    Ok(out.extend_from_slice(words.as_slice())?)
}

/// Appends how a packet was heard, behind its number.
pub fn push_heard(out: &mut Vec<u8>, fresh: bool, what: &What) -> Result<(), OutOfMemory>
    ensures ok { OnOk result (out.new.items ≡ out.old.items ++ blanked (cond fresh (codes "new" ∷ what_word what.now ∷ []) (what_word what.now ∷ []))) }
    ensures err { OnErr result (Begins out.old.items out.new.items) }
{
    let mut words = Tail::new();
    put_heard(&mut words, fresh, what);
    Ok(out.extend_from_slice(words.as_slice())?)
}

// What a packet of a turn is, in front of a line's end.
fn put_sent(line: &mut Tail, from: &Party, to: &Party, kind: Kind, inc: u64, seq: u64)
    requires room { length line.old ≤ 40 }
    ensures is { line.new ≡ blanked (party_word (as_party from.now) ∷ party_word (as_party to.now) ∷ kind_word (as_kind kind) ∷ place_word inc seq ∷ []) ++ line.old }
    ensures short { length line.new ≤ length line.old + 160 }
{
    put_place(line, inc, seq);
    put_kind(line, kind);
    put_party(line, to);
    put_party(line, from);
}

// How a packet was heard, in front of a line's end.
fn put_heard(line: &mut Tail, fresh: bool, what: &What)
    requires room { length line.old ≤ 40 }
    ensures is { line.new ≡ blanked (cond fresh (codes "new" ∷ what_word what.now ∷ []) (what_word what.now ∷ [])) ++ line.old }
    ensures short { length line.new ≤ length line.old + 20 }
{
    put_what(line, what);
    if fresh {
        line.put_word(b" new");
    }
}

// A word whose length is known is put without a call, so each has a line.
fn put_kind(line: &mut Tail, kind: Kind)
    requires room { length line.old ≤ 100 }
    ensures is { line.new ≡ blanked (kind_word (as_kind kind) ∷ []) ++ line.old }
    ensures short { length line.new ≤ length line.old + 6 }
{
    match kind {
        Kind::Ack => line.put_word(b" ack"),
        Kind::Delta => line.put_word(b" delta"),
        Kind::Full => line.put_word(b" full"),
    }
}

fn put_what(line: &mut Tail, what: &What)
    requires room { length line.old ≤ 40 }
    ensures is { line.new ≡ blanked (what_word what.now ∷ []) ++ line.old }
    ensures short { length line.new ≤ length line.old + 9 }
{
    match what {
        What::Stranger => line.put_word(b" stranger"),
        What::Stale => line.put_word(b" stale"),
        What::Ack => line.put_word(b" ack"),
        What::NotMine => line.put_word(b" not-mine"),
        What::Old => line.put_word(b" old"),
        What::Gap => line.put_word(b" gap"),
        What::Taken => line.put_word(b" taken"),
        What::Ledger(_) => line.put_word(b" ledger"),
        What::Exceeds { .. } => line.put_word(b" exceeds"),
    }
}

fn put_party(line: &mut Tail, party: &Party)
    requires room { length line.old ≤ 140 }
    ensures is { line.new ≡ blanked (party_word (as_party party.now) ∷ []) ++ line.old }
    ensures short { length line.new ≤ length line.old + 50 }
{
    line.put_number(party.inc);
    match party.role {
        Role::Master => line.put_word(b" master/"),
        Role::Agent => put_named(line, b" agent/", party.number),
        Role::App => put_named(line, b" app/", party.number),
    }
}

// The name and the number of a party, up to its incarnation.
fn put_named(line: &mut Tail, name: &[u8], number: u32)
    requires room { length line.old + length name.now ≤ 200 }
    ensures is { line.new ≡ name.now ++ (decimal number ++ (codes "/" ++ line.old)) }
    ensures short { length line.new ≤ length line.old + length name.now + 21 }
{
    line.put(b'/');
    line.put_number(number as u64);
    line.put_word(name);
}

fn put_place(line: &mut Tail, inc: u64, seq: u64)
    requires room { length line.old ≤ 200 }
    ensures is { line.new ≡ blanked (place_word inc seq ∷ []) ++ line.old }
    ensures short { length line.new ≤ length line.old + 42 }
{
    line.put_number(seq);
    line.put(b'.');
    line.put_number(inc);
    line.put(b' ');
}

/// Appends a place, with a blank before it.
pub fn push_place(out: &mut Vec<u8>, inc: u64, seq: u64) -> Result<(), OutOfMemory>
    ensures ok { OnOk result (out.new.items ≡ out.old.items ++ blanked (place_word inc seq ∷ [])) }
    ensures err { OnErr result (Begins out.old.items out.new.items) }
{
    push_numbers(out, &[inc])?;
    out.push(b'.')?;
    write_number(seq, out)
}
