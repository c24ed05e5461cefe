ghost use Rattle.std.specs.Prelude.{◌≡◌, ◌≢◌, ◌+◌, ◌-◌, ◌<◌, ◌≤◌, [], ◌++◌, true, length, IfOk, OnOk, OnErr, Some, None, Ok, Err};
ghost use Rattle.fuxi_io.specs.Causes.{Rose};
ghost use Rattle.fuxi_terms.specs.Limits.{most_steps};
ghost use Rattle.fuxi_io.specs.Doors.{WhereTold};
ghost use Rattle.wire_frames.specs.ReadFrames.{HasFault};
ghost use Rattle.node_core.specs.Roles.{Role, may_send, Keeps};
ghost use Rattle.node_core.specs.HeardPackets.{is_end};
ghost use Rattle.node_core.specs.FrameReaders.{Steps, Listens, Broken, new_reader, is_ended, step_at};

use crate::core_party::Core;
use fuxi_io::{Door, Failed};
use ledger_law::OutOfMemory;
use party_ledgers::Kind;
use schedule_unit::Party;
use std::alloc::Global;
use std::marker::Model;
use wire_frames::{FrameFault, Stream};

// How many bytes are asked for in one read.
const PIECE_BYTES: usize = 4096;

// Why no more is heard of a connection.
#[derive(Clone, Copy)]
pub enum Stop {
    // An End packet came.
    Ended,
    // What came is no frame.
    Wrong(FrameFault),
    // A packet came that the connection does not allow.
    Stranger,
    // The greatest number of packets came without End.
    Long,
    // The connection ended.
    Short,
    // The door failed.
    Fault,
}

// What was heard of a connection: how many packets without End, who sent the last one, and why no more.
#[derive(Clone, Copy)]
pub struct Listened {
    pub count: u64,
    pub peer: Option<Party>,
    pub stop: Stop,
}

impl Listened {
    // An End packet came.
    pub fn has_ended(&self) -> bool
        ensures { result ≡ is_ended self.now.stop }
    {
        matches!(self.stop, Stop::Ended)
    }
}

// What came of one pull.
#[derive(Clone, Copy)]
pub enum Step {
    Heard,
    Nothing,
    Stopped(Stop),
}

// What waits of a connection, and how much was heard of it.
#[derive(Drop)]
pub struct FrameReader {
    stream: Stream,
    count: u64,
    peer: Option<Party>,
}

impl Model for FrameReader {
    ghost use Rattle.node_core.specs.FrameReaders.{FrameReader as FrameReaderRecord};

    ghost Value = { FrameReaderRecord };

    ghost view = { λ e. record { bytes = e.stream.left; count = e.count; peer = e.peer; stuck = e.stream.stuck } };
}

impl FrameReader {
    // Nothing was heard, and nothing waits.
    fn new(alloc: Global) -> FrameReader
        ensures { result ≡ new_reader }
    {
        FrameReader {
            stream: Stream::new(alloc),
            count: 0,
            peer: None,
        }
    }

    fn count(&self) -> u64
        ensures { result ≡ self.now.count }
    {
        self.count
    }

    // More bytes wait.
    fn feed(&mut self, piece: &[u8]) -> Result<(), OutOfMemory>
        ensures { OnOk result (self.new ≡ record self.old { bytes = self.old.bytes ++ piece.now }) }
    {
        self.stream.feed(piece)
    }

    // What was heard, where it stops here.
    fn listened(&self, stop: Stop) -> Listened
        ensures { result ≡ record { count = self.now.count; peer = self.now.peer; stop = stop } }
    {
        Listened {
            count: self.count,
            peer: self.peer,
            stop,
        }
    }
}

fn is_end(kind: Kind) -> bool
    ensures { result ≡ is_end kind }
{
    matches!(kind, Kind::End)
}

// What comes of a pull that gave no packet; None where memory lacked.
fn step_at(fault: FrameFault) -> Option<Step>
    ensures { result ≡ step_at fault }
{
    match fault {
        FrameFault::Short => Some(Step::Nothing),
        FrameFault::OutOfMemory => None,
        wrong => Some(Step::Stopped(Stop::Wrong(wrong))),
    }
}

// Pulls one packet and hears it.
fn hear_one<C: Core>(
    alloc: Global,
    reader: &mut FrameReader,
    core: C,
    most: u64,
) -> Result<(C, Step), OutOfMemory>
    requires few { reader.old.count < most }
    requires runs { reader.old.stuck ≡ None }
    requires room { C.steps core < most_steps }
    ensures steps { IfOk result (λ a. (r : Role) → C.stands core r → Steps most (C.stands a.0) r a.1 reader.old reader.new) }
    ensures count { IfOk result (λ a. (reader.new.count ≤ most) × (C.steps a.0 + reader.old.count ≤ C.steps core + reader.new.count)) }
    ensures heard { IfOk result (λ a. a.1 ≡ Step.Heard → (reader.new.count ≡ reader.old.count + 1) × (reader.new.stuck ≡ None) × (length reader.new.bytes < length reader.old.bytes)) }
    ensures short { IfOk result (λ a. a.1 ≢ Step.Stopped Stop.Short) }
    ensures fault { IfOk result (λ a. a.1 ≢ Step.Stopped Stop.Fault) }
    ensures ended { IfOk result (λ a. a.1 ≡ Step.Stopped Stop.Ended → (r : Role) → C.stands a.0 r → may_send r reader.new.peer ≡ true) }
    ensures nothing { IfOk result (λ a. a.1 ≡ Step.Nothing → (reader.new ≡ reader.old) × HasFault reader.old.bytes FrameFault.Short) }
    ensures rests { IfOk result (λ a. Keeps (C.rests core) (C.rests a.0)) }
{
    match reader.stream.pull() {
        Ok(packet) => {
            if !core.allows(reader.peer, &packet) {
                return Ok((core, Step::Stopped(Stop::Stranger)));
            }
            reader.peer = Some(packet.from);
            if is_end(packet.kind) {
                return Ok((core, Step::Stopped(Stop::Ended)));
            }
            match core.hear(alloc, packet) {
                Ok(after) => {
                    reader.count += 1;
                    Ok((after, Step::Heard))
                }
                Err(OutOfMemory) => Err(OutOfMemory),
            }
        }
        Err(fault) => {
            let Some(step) = step_at(fault) else {
                return Err(OutOfMemory);
            };
            Ok((core, step))
        }
    }
}

// Hears the packets of the last connection to an End packet; every whole frame is heard before the next read.
pub fn listen<C: Core, N: Door>(
    alloc: Global,
    core: C,
    door: &mut N,
    most: u64,
) -> Result<(C, Listened), OutOfMemory>
    requires most { most < 1000000 }
    requires room { C.steps core + most ≤ most_steps }
    ensures listens { IfOk result (λ a. (r : Role) → C.stands core r → WhereTold (Listens most (C.stands a.0) r a.1) (N.told door.old) (N.told door.new)) }
    ensures count { IfOk result (λ a. (a.1.count ≤ most) × (C.steps a.0 ≤ C.steps core + most)) }
    ensures ended { IfOk result (λ a. a.1.stop ≡ Stop.Ended → (r : Role) → C.stands a.0 r → may_send r a.1.peer ≡ true) }
    ensures rests { IfOk result (λ a. Keeps (C.rests core) (C.rests a.0)) }
    ensures broken { OnErr result (WhereTold Broken (N.told door.old) (N.told door.new)) }
    ensures later { N.faults door.old ≤ N.faults door.new }
    ensures cause { IfOk result (λ a. a.1.stop ≡ Stop.Fault → Rose (N.faults door.old) (N.faults door.new)) }
{
    let mut reader = FrameReader::new(alloc);
    let mut buf = [0u8; PIECE_BYTES];
    let mut now = core;
    while reader.count() < most {
        let (after, step) = match hear_one(alloc, &mut reader, now, most) {
            Ok(both) => both,
            Err(OutOfMemory) => return Err(OutOfMemory),
        };
        now = after;
        match step {
            Step::Heard => {}
            Step::Stopped(stop) => return Ok((now, reader.listened(stop))),
            Step::Nothing => match door.read(&mut buf) {
                Ok(0) => return Ok((now, reader.listened(Stop::Short))),
                Ok(n) => match reader.feed(&buf[..n]) {
                    Ok(()) => {}
                    Err(OutOfMemory) => return Err(OutOfMemory),
                },
                Err(Failed) => return Ok((now, reader.listened(Stop::Fault))),
            },
        }
    }
    Ok((now, reader.listened(Stop::Long)))
}
