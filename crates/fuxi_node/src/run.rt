//! All lines of a node.

ghost use Rattle.std.specs.Prelude.{◌≡◌, ◌≢◌, ◌+◌, ◌^◌, ◌<◌, ◌≤◌, ℕ, length, true, false, Some, None, Ok, Err, IfSome, IfOk, IfErr, OnOk, OnErr};
ghost use Rattle.fuxi_io.specs.Causes.{Rose};
ghost use Rattle.fuxi_io.specs.Reading.{rest_of};
ghost use Rattle.fuxi_terms.specs.Limits.{most_frames, most_steps, most_lines};
ghost use Rattle.input_lines.specs.Contents.{is_skipped};
ghost use Rattle.input_lines.specs.Wholes.{IsReady};
ghost use Rattle.fuxi_io.specs.Doors.{WhereTold};
ghost use Rattle.node_core.specs.Roles.{Role};
ghost use Rattle.node_core.specs.NodeLines.{node_line};
ghost use Rattle.node_core.specs.NodeTexts.{state_text};
ghost use Rattle.fuxi_node.specs.NodeRuns.{Node as WrittenNode};
ghost use Rattle.fuxi_node.specs.NodeEnds.{Ended, EndsByLines, FitsNow, FitsOneNow, IsRunStatus, start_of};
ghost use Rattle.fuxi_node.specs.NodeProgress.{WritesEnd, TakesCounted, KeepsTold, IsLastStatus, IsLineStop, IsNone, IsSaid};

use crate::taking::{DiskFailed, Stop, take_line, write_state};
use fuxi_io::{Disk, Door, Got, InputFault, LimitOf, LineReader, LineStop, Sink, Source, Status};
use input_lines::{content, is_skipped, law, stop_status};
use node_core::Node;
use std::alloc::Global;

// Takes a line, of a node that took so many events; answers how many it took then.
fn take_any<C: Node, O: Sink, N: Door, D: Disk>(
    alloc: Global,
    core: C,
    addr: &[u8],
    line: &[u8],
    number: u64,
    events: u64,
    out: &mut O,
    door: &mut N,
    disk: &mut D,
) -> Result<(C, u64), Stop>
    requires some { 1 ≤ length addr.now }
    requires short { length addr.now ≤ 255 }
    requires events { events < 2000000 }
    requires steps { C.steps core + most_frames < most_steps }
    requires rests { C.rests core (D.size disk.old) None }
    ensures skips { is_skipped line.now ≡ true → (result ≡ Ok (core, events)) × (out.new ≡ out.old) × (door.new ≡ door.old) }
    ensures takes { is_skipped line.now ≡ false → (n : WrittenNode) → C.stands core n.role → n.events ≡ events → WhereTold (TakesCounted C.stands (FitsNow C.rests C.fits core (D.size disk.old) (D.told disk.old) (D.told disk.new)) (FitsOneNow C.rests C.fits C.halts core (D.size disk.old) (D.told disk.old) (D.told disk.new)) most_frames addr.now n (node_line line.now) number result (O.took out.old) (O.took out.new) (N.faults door.old) (N.faults door.new)) (N.told door.old) (N.told door.new) }
    ensures counts { is_skipped line.now ≡ false → IfOk result (λ a. a.1 ≡ events + 1) }
    ensures unskipped { IfErr result (λ status. is_skipped line.now ≡ false) }
    ensures few { IfOk result (λ a. a.1 ≤ events + 1) }
    ensures steps { IfOk result (λ a. C.steps a.0 ≤ C.steps core + most_frames + 1) }
    ensures later { O.faults out.old ≤ O.faults out.new }
    ensures fault { result ≡ Err (Stop.Ends Status.WriteFault) → Rose (O.faults out.old) (O.faults out.new) }
    ensures writes_served { result ≢ Err (Stop.Ends Status.WriteFault) → O.faults out.new ≡ O.faults out.old }
    ensures ends { IfErr result IsLineStop }
    ensures good { is_skipped line.now ≡ false → IfOk result (λ a. IsSaid (node_line line.now)) }
    ensures bad { (at : ℕ) (fault : InputFault) → result ≡ Err (Stop.Ends (Status.BadInput at fault)) → (at ≡ number) × IsNone (node_line line.now) fault }
    ensures rests { IfOk result (λ a. C.rests a.0 (D.size disk.new) None) }
    ensures told { IfOk result (λ a. KeepsTold C.rests core (D.size disk.old) a.0 (D.size disk.new) (D.told disk.old) (D.told disk.new)) }
    ensures disk { D.faults disk.old ≤ D.faults disk.new }
    ensures failed { result ≡ Err Stop.Disk → Rose (D.faults disk.old) (D.faults disk.new) }
    ensures disk_served { result ≢ Err Stop.Disk → D.faults disk.new ≡ D.faults disk.old }
{
    if is_skipped(line) {
        return Ok((core, events));
    }
    match take_line(alloc, core, addr, line, number, events, out, door, disk) {
        Ok(core) => Ok((core, events + 1)),
        Err(stop) => Err(stop),
    }
}

// Ends a node behind its last line, with its state.
fn end_node<C: Node, O: Sink>(alloc: Global, core: &C, events: u64, out: &mut O) -> Status
    ensures writes { (r : Role) → C.stands core.now r → WritesEnd (state_text events r) result (O.took out.old) (O.took out.new) }
    ensures fault { result ≡ Status.WriteFault → Rose (O.faults out.old) (O.faults out.new) }
    ensures writes_served { result ≢ Status.WriteFault → O.faults out.new ≡ O.faults out.old }
    ensures own { IsRunStatus result }
    ensures last { IsLastStatus result }
    ensures read { result ≢ Status.ReadFault }
    ensures limit { (what : LimitOf) (kept : ℕ) → result ≢ Status.Limit what kept }
    ensures later { O.faults out.old ≤ O.faults out.new }
{
    match write_state(alloc, core, events, out) {
        Ok(()) => Status::Done,
        Err(status) => status,
    }
}

/// Runs a node over the lines that the reader has not given yet. What a line prints is written before the next line is read, and
/// behind the last line the state. The reader has not stopped by a fault of the source; the address has 1 to 255 bytes; the party
/// has taken fewer than 2^40 steps; and the disk is as its commands need it. `DiskFailed`: the disk failed, and the node is gone.
pub fn run_node<C: Node, S: Source, O: Sink, N: Door, D: Disk>(
    alloc: Global,
    core: C,
    addr: &[u8],
    lines: &mut LineReader,
    source: &mut S,
    out: &mut O,
    door: &mut N,
    disk: &mut D,
) -> Result<Status, DiskFailed>
    requires stop { lines.old.stop ≢ Some LineStop.ReadFault }
    requires some { 1 ≤ length addr.now }
    requires short { length addr.now ≤ 255 }
    requires steps { C.steps core < 2 ^ 40 }
    requires rests { C.rests core (D.size disk.old) None }
    // What was written and what the door has been through, by the status. It is said of each party that the core stands for, of bytes that are known, and of a door that tells; of the disk, where it tells its moments.
    ensures ended { IsReady lines.old (S.left source.old) → (r : Role) → C.stands core r → IfSome (rest_of lines.old (S.left source.old)) (λ bytes. WhereTold (Ended (FitsNow C.rests C.fits core (D.size disk.old) (D.told disk.old) (D.told disk.new)) (FitsOneNow C.rests C.fits C.halts core (D.size disk.old) (D.told disk.old) (D.told disk.new)) (start_of most_frames addr.now lines.old.number r) bytes result (S.left source.new) (O.took out.old) (O.took out.new) (N.faults door.old) (N.faults door.new)) (N.told door.old) (N.told door.new)) }
    // Where the lines end, by the status. It is said over any door.
    ensures places { IsReady lines.old (S.left source.old) → IfSome (rest_of lines.old (S.left source.old)) (λ bytes. EndsByLines lines.old.number bytes result (S.left source.new)) }
    ensures unread { lines.old.ended ≡ false → result ≢ Ok Status.ReadFault }
    ensures read { result ≡ Ok Status.ReadFault → Rose (S.faults source.old) (S.faults source.new) }
    ensures write { result ≡ Ok Status.WriteFault → Rose (O.faults out.old) (O.faults out.new) }
    ensures limit { lines.old.stop ≡ None → (what : LimitOf) (kept : ℕ) → result ≡ Ok (Status.Limit what kept) → (what ≡ LimitOf.Lines) × (kept ≡ most_lines) }
    ensures own { IfOk result IsRunStatus }
    ensures failed { OnErr result (Rose (D.faults disk.old) (D.faults disk.new)) }
    ensures reads_served { result ≢ Ok Status.ReadFault → S.faults source.new ≡ S.faults source.old }
    ensures writes_served { result ≢ Ok Status.WriteFault → O.faults out.new ≡ O.faults out.old }
    ensures disk_served { OnOk result (D.faults disk.new ≡ D.faults disk.old) }
    ensures later { D.faults disk.old ≤ D.faults disk.new }
{
    law::lines_are_taken();
    let mut core = core;
    let mut events = 0;
    for turn in 0..1_000_001u64 {
        if !lines.ended() {
            return Ok(end_node(alloc, &core, events, out));
        }
        match lines.next(source) {
            Ok(Got::Line) => {}
            Ok(Got::End) => return Ok(end_node(alloc, &core, events, out)),
            Err(stop) => return Ok(stop_status(stop, lines.number())),
        }
        let number = lines.number();
        let line = content(lines.line(), lines.ended());
        let (after, taken) = match take_any(
            alloc, core, addr, line, number, events, out, door, disk,
        ) {
            Ok(both) => both,
            Err(Stop::Ends(status)) => return Ok(status),
            Err(Stop::Disk) => return Err(DiskFailed),
        };
        core = after;
        events = taken;
    }
    unreachable!()
}
