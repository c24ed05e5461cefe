ghost use Rattle.std.specs.Prelude.{◌≡◌, ◌<◌, ◌⊎◌, ℕ, List, [], Option, Some, None, IfSome, Ok, Err, OnOk, false};
ghost use Rattle.fuxi_io.specs.Causes.{Rose};
ghost use Rattle.fuxi_io.specs.Disks.{Told, WhereTold};
ghost use Rattle.spec_roles.specs.HardState.{HardState};
ghost use Rattle.hard_state.specs.HardFiles.{KeepsDamaged, records_of};
ghost use Rattle.input_lines.specs.LineProgress.{WritesEnd};
ghost use Rattle.input_lines.specs.LineRuns.{AtEnd};
ghost use Rattle.input_lines.specs.RunEnds.{CanEnd, CanStop, no_causes};
ghost use Rattle.epoch_lease.specs.Files.{lease_of};
ghost use Rattle.epoch_lease.specs.LeaseEnds.{Ended, LeaseEnded, lease_causes};
ghost use Rattle.epoch_lease.specs.LeaseProgress.{LeavesLine, Rests, TakesLine};
ghost use Rattle.epoch_lease.specs.LeaseRuns.{lease_ends, run_from, run_of};

use crate::print::{write_answer, write_number};
use crate::{Lease, LeaseFault, read_lease};
use fuxi_io::{Disk, Got, LineReader, Sink, Source, Status};
use input_lines::{content, event_status, is_skipped, stop_status};
use std::alloc::Global;

impl From<LeaseFault> for Status {
    ghost use Rattle.std.specs.Prelude.{◌≡◌};
    ghost use Rattle.epoch_lease.specs.LeaseProgress.{fault_status};

    ghost from_gives = { λ fault status. status ≡ fault_status fault };

    fn from(fault: LeaseFault) -> Status {
        match fault {
            LeaseFault::NotCheckpoint { offset } => Status::DamagedCheckpoint { offset },
            LeaseFault::DiskFault => Status::DiskFault,
            LeaseFault::OutOfMemory => Status::OutOfMemory,
        }
    }
}

// Takes a line: makes its event and writes the answer, where it is not skipped.
fn take_line<O: Sink, D: Disk>(
    alloc: Global,
    lease: &mut Lease,
    line: &[u8],
    number: u64,
    out: &mut O,
    disk: &mut D,
) -> Result<(), Status>
    requires sound { lease.old.hard.broken ≡ false }
    requires long { lease.old.hard.gate < D.size disk.old }
    ensures takes { TakesLine line.now number (lease_of lease.old) (lease_of lease.new) result (O.took out.old) (O.took out.new) }
    ensures leaves { WhereTold (LeavesLine line.now result lease.old lease.new) (D.told disk.old) (D.told disk.new) }
    ensures sound { OnOk result (lease.new.hard.broken ≡ false) }
    ensures long { OnOk result (lease.new.hard.gate < D.size disk.new) }
    ensures status { CanStop (lease_causes (λ offset. ⊥)) (record { source = (0, 0); output = (O.faults out.old, O.faults out.new); disk = (D.faults disk.old, D.faults disk.new) }) result }
{
    crate::law::leases_at_rest_endure();
    if is_skipped(line) {
        return Ok(());
    }
    let event = match read_lease(alloc, line) {
        Ok(event) => event,
        Err(fault) => return Err(event_status(fault, number)),
    };
    let answer = match lease.step(disk, &event) {
        Ok(answer) => answer,
        Err(fault) => return Err(Status::from(fault)),
    };
    match write_answer(out, &answer) {
        Ok(()) => Ok(()),
        Err(_) => Err(Status::WriteFault),
    }
}

// Writes the last epoch behind a whole input.
fn write_last<O: Sink>(lease: &Lease, out: &mut O) -> Status
    ensures writes { WritesEnd lease_ends (lease_of lease.now) result (O.took out.old) (O.took out.new) }
    ensures status { CanEnd no_causes (record { source = (0, 0); output = (O.faults out.old, O.faults out.new); disk = (0, 0) }) result }
{
    match write_number(out, b"last ", lease.last()) {
        Ok(()) => Status::Done,
        Err(_) => Status::WriteFault,
    }
}

// Runs an open lease over all lines of a source, of which the reader has read nothing. What a line answers is written before the next one
// is read. Behind a line that ended the input nothing is read.
fn run_lines<S: Source, O: Sink, D: Disk>(
    alloc: Global,
    lease: &mut Lease,
    lines: &mut LineReader,
    source: &mut S,
    out: &mut O,
    disk: &mut D,
) -> Status
    requires fresh { lines.old ≡ record { pending = []; line = []; ended = false; number = 0; stop = None } }
    requires sound { lease.old.hard.broken ≡ false }
    requires long { lease.old.hard.gate < D.size disk.old }
    ensures ended { (before : Option Told) → Rests before lease.old (D.told disk.old) → IfSome (S.left source.old) (λ bytes. Ended (run_from 0 (lease_of lease.old)) bytes result (S.left source.new) (O.took out.old) (O.took out.new) before (D.told disk.new)) }
    ensures status { CanEnd (lease_causes (λ offset. ⊥)) (record { source = (S.faults source.old, S.faults source.new); output = (O.faults out.old, O.faults out.new); disk = (D.faults disk.old, D.faults disk.new) }) result }
{
    input_lines::law::lines_are_taken();
    for turn in 0..1_000_001u64 {
        match lines.next(source) {
            Ok(Got::Line) => {}
            Ok(Got::End) => return write_last(lease, out),
            Err(stop) => return stop_status(stop, lines.number()),
        }
        let number = lines.number();
        let line = content(lines.line(), lines.ended());
        match take_line(alloc, lease, line, number, out, disk) {
            Ok(()) => {}
            Err(status) => return status,
        }
        if !lines.ended() {
            return write_last(lease, out);
        }
    }
    unreachable!()
}

/// Opens the lease of the checkpoint on the disk, runs it over the lines of the source, and writes what each answers before the next one is
/// read, and behind the last line the last epoch. What is said of the output holds of a source and a sink that tell their bytes, and what
/// is said of the file of a disk that does. A file with a damaged record is synced at most, whatever the status.
///
/// `DamagedCheckpoint`: the record at this offset of the file is damaged, and nothing was read or written. `DiskFault`, `ReadFault` and
/// `WriteFault`: the disk, the source or the sink failed in this call. `Limit`: a line begins after 1,000,000. `BadInput`: the first line
/// that is no event of a lease. Behind a line that ended the input nothing is read.
pub fn run_lease<S: Source, O: Sink, D: Disk>(
    alloc: Global,
    source: &mut S,
    out: &mut O,
    disk: &mut D,
) -> Status
    // What was written, by the status, and what a crash leaves of the file then.
    ensures ended { IfSome (S.left source.old) (λ bytes. LeaseEnded bytes result (S.left source.new) (O.took out.old) (O.took out.new) (D.told disk.old) (D.told disk.new)) }
    // A file with a damaged record is as it was, whatever the status.
    ensures keeps { KeepsDamaged (D.told disk.old) (D.told disk.new) }
    // By which cause it ends so: each failed call is told by its own status, only a line after 1,000,000 is a limit, and of a damaged file that is the
    // offset, and nothing was read or written.
    ensures status { CanEnd (lease_causes (λ offset. IfSome (D.told disk.old) (λ t. records_of t.now.bytes ≡ Err offset) × (source.new ≡ source.old) × (out.new ≡ out.old)))
        (record { source = (S.faults source.old, S.faults source.new); output = (O.faults out.old, O.faults out.new); disk = (D.faults disk.old, D.faults disk.new) }) result }
    // An input without a bad line, within the limit, over a file without a damaged record, with no fault of source, sink and disk, is done, but for want of memory.
    ensures complete { (bytes : List ℕ) (t : Told) (value : HardState) → S.left source.old ≡ Some bytes → D.told disk.old ≡ Some t → records_of t.now.bytes ≡ Ok value → (run_of value bytes).ending ≡ AtEnd
        → (Rose (S.faults source.old) (S.faults source.new) → ⊥) → (Rose (O.faults out.old) (O.faults out.new) → ⊥) → (Rose (D.faults disk.old) (D.faults disk.new) → ⊥)
        → (result ≡ Status.Done) ⊎ (result ≡ Status.OutOfMemory) }
{
    let mut lines = match LineReader::new(alloc) {
        Ok(lines) => lines,
        Err(_) => return Status::OutOfMemory,
    };
    let mut lease = match Lease::open(alloc, disk) {
        Ok(lease) => lease,
        Err(fault) => return Status::from(fault),
    };
    run_lines(alloc, &mut lease, &mut lines, source, out, disk)
}
