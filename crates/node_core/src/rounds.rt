ghost use Rattle.std.specs.Prelude.{◌≡◌, ◌+◌, ◌^◌, ◌<◌, ◌≤◌, true, false, length, IfOk, OnErr, None};
ghost use Rattle.fuxi_io.specs.Causes.{Rose};
ghost use Rattle.fuxi_terms.specs.Limits.{most_frames, most_steps};
ghost use Rattle.fuxi_io.specs.Doors.{Closes, WhereTold};
ghost use Rattle.node_core.specs.Roles.{Role, may_send, Keeps};
ghost use Rattle.node_core.specs.FrameReaders.{how_of, is_failed};
ghost use Rattle.node_core.specs.Rounds.{Rounds, Breaks, line_by};

use crate::core_party::Core;
use crate::frame_reader::{Listened, Stop, listen};
use fuxi_io::{Door, Failed};
use fuxi_terms::limits::MOST_FRAMES;
use ledger_law::OutOfMemory;
use std::alloc::Global;
use wire_frames::FrameFault;

/// How a round ended.
#[derive(Clone, Copy, Debug, Drop, PartialEq, Eq)]
pub enum RoundLine {
    /// So many packets were heard and so many sent, without End.
    Done(u64, u64),
    /// The door failed.
    Fault,
    /// What came at this place, counted from 1, is no frame, or the connection ended there (`Short`).
    Bad(u64, FrameFault),
    /// The packet at this place, counted from 1, is not allowed in the connection.
    Stranger(u64),
    /// The greatest number of packets came without End.
    Long,
}

// The line where so many packets were sent and this was heard.
fn line_of(listened: Listened, sent: u64) -> RoundLine
    requires { listened.count < 2 ^ 63 }
    ensures { result ≡ line_by (is_failed listened.stop) sent listened.count (how_of listened.stop) }
{
    match listened.stop {
        Stop::Ended => RoundLine::Done(listened.count, sent),
        Stop::Wrong(fault) => RoundLine::Bad(listened.count + 1, fault),
        Stop::Stranger => RoundLine::Stranger(listened.count + 1),
        Stop::Long => RoundLine::Long,
        Stop::Short => RoundLine::Bad(listened.count + 1, FrameFault::Short),
        Stop::Fault => RoundLine::Fault,
    }
}

// Closes the connection; that it fails changes nothing.
fn shut<N: Door>(door: &mut N)
    ensures told { WhereTold Closes (N.told door.old) (N.told door.new) }
    ensures later { N.faults door.old ≤ N.faults door.new }
{
    match door.close() {
        Ok(()) => {}
        Err(Failed) => {}
    }
}

// A round of one that dials, with at most so many packets without End.
fn round_of<C: Core, N: Door>(
    alloc: Global,
    core: C,
    addr: &[u8],
    door: &mut N,
    most: u64,
) -> Result<(C, RoundLine), OutOfMemory>
    requires some { 1 ≤ length addr.now }
    requires short { length addr.now ≤ 255 }
    requires first { 1 ≤ most }
    requires most { most < 1000000 }
    requires dials { (r : Role) → C.stands core r → may_send r None ≡ true }
    requires steps { C.steps core + most < most_steps }
    ensures rounds { IfOk result (λ a. (r : Role) → C.stands core r → WhereTold (Rounds false most addr.now (C.stands a.0) r a.1) (N.told door.old) (N.told door.new)) }
    ensures breaks { OnErr result ((r : Role) → C.stands core r → WhereTold (Breaks false addr.now r) (N.told door.old) (N.told door.new)) }
    ensures later { N.faults door.old ≤ N.faults door.new }
    ensures cause { IfOk result (λ a. a.1 ≡ RoundLine.Fault → Rose (N.faults door.old) (N.faults door.new)) }
    ensures steps { IfOk result (λ a. C.steps a.0 ≤ C.steps core + most + 1) }
    ensures rests { IfOk result (λ a. Keeps (C.rests core) (C.rests a.0)) }
{
    let (core, turn) = match core.turn(alloc, None) {
        Ok(both) => both,
        Err(OutOfMemory) => return Err(OutOfMemory),
    };
    match door.dial(addr) {
        Ok(()) => {}
        Err(Failed) => return Ok((core, RoundLine::Fault)),
    }
    match door.write(&turn.bytes) {
        Ok(()) => {}
        Err(Failed) => {
            shut(door);
            return Ok((core, RoundLine::Fault));
        }
    }
    let (core, listened) = match listen(alloc, core, door, most) {
        Ok(both) => both,
        Err(OutOfMemory) => return Err(OutOfMemory),
    };
    shut(door);
    Ok((core, line_of(listened, turn.packets)))
}

// A round of one that accepts, with at most so many packets without End.
fn serve_of<C: Core, N: Door>(
    alloc: Global,
    core: C,
    addr: &[u8],
    door: &mut N,
    most: u64,
) -> Result<(C, RoundLine), OutOfMemory>
    requires some { 1 ≤ length addr.now }
    requires short { length addr.now ≤ 255 }
    requires first { 1 ≤ most }
    requires most { most < 1000000 }
    requires steps { C.steps core + most < most_steps }
    ensures rounds { IfOk result (λ a. (r : Role) → C.stands core r → WhereTold (Rounds true most addr.now (C.stands a.0) r a.1) (N.told door.old) (N.told door.new)) }
    ensures breaks { OnErr result ((r : Role) → C.stands core r → WhereTold (Breaks true addr.now r) (N.told door.old) (N.told door.new)) }
    ensures later { N.faults door.old ≤ N.faults door.new }
    ensures cause { IfOk result (λ a. a.1 ≡ RoundLine.Fault → Rose (N.faults door.old) (N.faults door.new)) }
    ensures steps { IfOk result (λ a. C.steps a.0 ≤ C.steps core + most + 1) }
    ensures rests { IfOk result (λ a. Keeps (C.rests core) (C.rests a.0)) }
{
    match door.accept(addr) {
        Ok(()) => {}
        Err(Failed) => return Ok((core, RoundLine::Fault)),
    }
    let (core, listened) = match listen(alloc, core, door, most) {
        Ok(both) => both,
        Err(OutOfMemory) => return Err(OutOfMemory),
    };
    if !listened.has_ended() {
        shut(door);
        return Ok((core, line_of(listened, 0)));
    }
    let (core, turn) = match core.turn(alloc, listened.peer) {
        Ok(both) => both,
        Err(OutOfMemory) => return Err(OutOfMemory),
    };
    match door.write(&turn.bytes) {
        Ok(()) => {}
        Err(Failed) => {
            shut(door);
            return Ok((core, RoundLine::Fault));
        }
    }
    shut(door);
    Ok((core, RoundLine::Done(listened.count, turn.packets)))
}

/// Dials, writes its turn and an End packet, and hears packets to an End packet, at most 4,096 without it.
/// A master does not dial. The address has 1 to 255 bytes. Where memory is refused the party is gone, and the
/// connection may be open.
pub fn round<C: Core, N: Door>(
    alloc: Global,
    core: C,
    addr: &[u8],
    door: &mut N,
) -> Result<(C, RoundLine), OutOfMemory>
    requires some { 1 ≤ length addr.now }
    requires short { length addr.now ≤ 255 }
    requires dials { (r : Role) → C.stands core r → may_send r None ≡ true }
    requires steps { C.steps core + most_frames < most_steps }
    ensures rounds { IfOk result (λ a. (r : Role) → C.stands core r → WhereTold (Rounds false most_frames addr.now (C.stands a.0) r a.1) (N.told door.old) (N.told door.new)) }
    ensures breaks { OnErr result ((r : Role) → C.stands core r → WhereTold (Breaks false addr.now r) (N.told door.old) (N.told door.new)) }
    ensures later { N.faults door.old ≤ N.faults door.new }
    ensures cause { IfOk result (λ a. a.1 ≡ RoundLine.Fault → Rose (N.faults door.old) (N.faults door.new)) }
    ensures steps { IfOk result (λ a. C.steps a.0 ≤ C.steps core + most_frames + 1) }
    ensures rests { IfOk result (λ a. Keeps (C.rests core) (C.rests a.0)) }
{
    round_of(alloc, core, addr, door, MOST_FRAMES as u64)
}

/// Accepts a connection, hears packets to an End packet, at most 4,096 without it, and then writes its turn to
/// their sender and an End packet. After any other end there is no answer. The address has 1 to 255 bytes. Where
/// memory is refused the party is gone, and the connection may be open.
pub fn serve<C: Core, N: Door>(
    alloc: Global,
    core: C,
    addr: &[u8],
    door: &mut N,
) -> Result<(C, RoundLine), OutOfMemory>
    requires some { 1 ≤ length addr.now }
    requires short { length addr.now ≤ 255 }
    requires steps { C.steps core + most_frames < most_steps }
    ensures rounds { IfOk result (λ a. (r : Role) → C.stands core r → WhereTold (Rounds true most_frames addr.now (C.stands a.0) r a.1) (N.told door.old) (N.told door.new)) }
    ensures breaks { OnErr result ((r : Role) → C.stands core r → WhereTold (Breaks true addr.now r) (N.told door.old) (N.told door.new)) }
    ensures later { N.faults door.old ≤ N.faults door.new }
    ensures cause { IfOk result (λ a. a.1 ≡ RoundLine.Fault → Rose (N.faults door.old) (N.faults door.new)) }
    ensures steps { IfOk result (λ a. C.steps a.0 ≤ C.steps core + most_frames + 1) }
    ensures rests { IfOk result (λ a. Keeps (C.rests core) (C.rests a.0)) }
{
    serve_of(alloc, core, addr, door, MOST_FRAMES as u64)
}
