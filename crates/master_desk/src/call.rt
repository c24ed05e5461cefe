//! What the bytes of a call say.

ghost use Rattle.std.specs.Prelude.{◌≡◌, ◌≢◌, IfOk};
ghost use Rattle.master_desk.specs.CallBytes.{Says, is_end};

use fuxi_terms::OutOfMemory;
use ledger_law::Ledger;
use party_ledgers::{Body, Demand, Grants, Kind, Packet, RowLedger};
use std::alloc::Global;
use wire_frames::{FrameFault, read_packet};

/// Why a call is bad. A bad call makes no step.
#[derive(Clone, Copy, Debug, Drop, PartialEq, Eq)]
pub enum BadCall {
    /// Its bytes begin with no frame; the fault is none of memory.
    Frame(FrameFault),
    /// Bytes stand behind its frame.
    Trailing,
    /// Its frame is the end of a connection.
    End,
}

/// What the bytes of a call say.
#[derive(Drop)]
pub enum Decoded {
    /// They are the frame of this packet.
    Whole(Packet),
    /// They are no call.
    Bad(BadCall),
}

// The same body once more.
fn copy_body(alloc: Global, body: &Body) -> Result<Body, OutOfMemory>
    ensures { IfOk result (λ copy. copy ≡ body.now) }
{
    match body {
        Body::Nothing => Ok(Body::Nothing),
        Body::Row(row) => Ok(Body::Row(row.copy(alloc)?)),
        Body::RowDelta(change) => Ok(Body::RowDelta(RowLedger::copy_delta(alloc, change)?)),
        Body::Join(join) => Ok(Body::Join(join.copy(alloc)?)),
        Body::Grants(tally) => Ok(Body::Grants(tally.copy(alloc)?)),
        Body::GrantsDelta(change) => Ok(Body::GrantsDelta(Grants::copy_delta(alloc, change)?)),
        Body::Demand(tally) => Ok(Body::Demand(tally.copy(alloc)?)),
        Body::DemandDelta(change) => Ok(Body::DemandDelta(Demand::copy_delta(alloc, change)?)),
    }
}

impl Decoded {
    /// The same call once more.
    pub fn copy(&self, alloc: Global) -> Result<Decoded, OutOfMemory>
        ensures { IfOk result (λ copy. copy ≡ self.now) }
    {
        match self {
            Decoded::Bad(why) => Ok(Decoded::Bad(*why)),
            Decoded::Whole(packet) => match copy_body(alloc, &packet.body) {
                Ok(body) => Ok(Decoded::Whole(Packet {
                    from: packet.from,
                    to: packet.to,
                    kind: packet.kind,
                    place: packet.place,
                    body,
                })),
                Err(OutOfMemory) => Err(OutOfMemory),
            },
        }
    }
}

fn is_end(kind: Kind) -> bool
    ensures { result ≡ is_end kind }
{
    matches!(kind, Kind::End)
}

// A call whose bytes begin with no frame.
fn no_frame(fault: FrameFault) -> Result<Decoded, OutOfMemory>
    ensures { IfOk result (λ call. (call ≡ Decoded.Bad (BadCall.Frame fault)) × (fault ≢ FrameFault.OutOfMemory)) }
{
    match fault {
        FrameFault::OutOfMemory => Err(OutOfMemory),
        _ => Ok(Decoded::Bad(BadCall::Frame(fault))),
    }
}

/// What the bytes of a call say: the packet of which they are the frame, or why they are no call. The first that holds decides: they begin
/// with no frame, bytes stand behind it, it is the end of a connection.
pub fn decode(alloc: Global, bytes: &[u8]) -> Result<Decoded, OutOfMemory>
    ensures { IfOk result (Says bytes.now) }
{
    let (packet, length) = match read_packet(alloc, bytes) {
        Ok(read) => read,
        Err(fault) => return no_frame(fault),
    };
    if length < bytes.len() {
        return Ok(Decoded::Bad(BadCall::Trailing));
    }
    if is_end(packet.kind) {
        return Ok(Decoded::Bad(BadCall::End));
    }
    Ok(Decoded::Whole(packet))
}
