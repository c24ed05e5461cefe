ghost use Rattle.std.specs.Prelude.{false, OnOk, OnErr, length, [], ◌≡◌, ◌⊎◌, ◌+◌, ◌<◌, ◌≤◌, ◌^◌, ◌≢◌, Some, None, IfSome, Err, ℕ};
ghost use Rattle.fuxi_io.specs.Causes.{HasCause, Rose, TakesPart};
ghost use Rattle.fuxi_io.specs.Pieces.{NoNewline};
ghost use Rattle.fuxi_io.specs.Reading.{rest_of, read_ahead};
ghost use Rattle.spec_world.specs.World.{empty_world};
ghost use Rattle.schedule_replay.specs.Worlds.{IsReached};
ghost use Rattle.schedule_replay.specs.ScheduleRuns.{run_from, read_from, Ended};
ghost use Rattle.schedule_replay.specs.ScheduleProgress.{TakesLineBehind, WritesStateBehind, world_status};
ghost use Rattle.input_lines.specs.LineProgress.{StaysWaiting};
ghost use Rattle.input_lines.specs.Wholes.{IsReady};
ghost use Rattle.fuxi_terms.specs.Limits.{most_lines};

use crate::{Running, WorldStop};
use cluster_desc::Cluster;
use fuxi_io::{
    Got, LimitOf, LineReader, LineStop, Sink, Source, Status, WriteBuffer, WriteFault, write_all_of,
};
use fuxi_terms::OutOfMemory;
use input_lines::{content, event_status, is_skipped, read_cluster_line, stop_status};
use schedule_text::read_event;
use std::alloc::Global;

// Takes a line: makes its event, and has what that prints wait, where it is not skipped. Where it is not taken what waits is written. The
// text has what the event of the last line prints.
fn take_line<O: Sink>(
    alloc: Global,
    running: &mut Running,
    line: &[u8],
    number: u64,
    text: &mut Vec<u8>,
    waiting: &mut WriteBuffer,
    out: &mut O,
) -> Result<(), Status>
    requires reached { IsReached running.old }
    requires events { running.old.events < 2 ^ 29 }
    ensures takes { TakesLineBehind running.old running.new line.now number result waiting.old waiting.new (O.took out.old) (O.took out.new) }
    ensures reached { OnOk result (IsReached running.new) }
    ensures events { OnOk result (running.new.events ≤ running.old.events + 1) }
    ensures fault { result ≡ Err Status.WriteFault → Rose (O.faults out.old) (O.faults out.new) }
    ensures served { result ≢ Err Status.WriteFault → O.faults out.new ≡ O.faults out.old }
    ensures lines { (kept : ℕ) → result ≢ Err (Status.Limit LimitOf.Lines kept) }
    ensures usage { result ≢ Err Status.Usage }
    ensures read { result ≢ Err Status.ReadFault }
    ensures disk { result ≢ Err Status.DiskFault }
    ensures stale { (fence : ℕ) → result ≢ Err (Status.StaleEpoch fence) }
    ensures damaged { (offset : ℕ) → result ≢ Err (Status.DamagedCheckpoint offset) }
    ensures records { (kept : ℕ) → result ≢ Err (Status.Limit LimitOf.Records kept) }
{
    if is_skipped(line) {
        return Ok(());
    }
    crate::law::events_stand_anywhere();
    let event = match read_event(alloc, line) {
        Ok(event) => event,
        Err(fault) => match waiting.flush(out) {
            Ok(()) => return Err(event_status(fault, number)),
            Err(_) => return Err(Status::WriteFault),
        },
    };
    match running.step(alloc, &event, text) {
        Ok(()) => {}
        Err(stop) => match waiting.flush(out) {
            Ok(()) => return Err(world_status(stop)),
            Err(_) => return Err(Status::WriteFault),
        },
    }
    match waiting.put(out, text) {
        Ok(()) => Ok(()),
        Err(_) => Err(Status::WriteFault),
    }
}

// Writes what waits, unless a line is at hand, so that nothing waits while the source is read.
fn write_before_reading<O: Sink>(
    lines: &LineReader,
    waiting: &mut WriteBuffer,
    out: &mut O,
) -> Result<(), WriteFault>
    ensures same { OnOk result (StaysWaiting (O.took out.old) waiting.old (O.took out.new) waiting.new) }
    ensures none { OnOk result ((waiting.new ≡ []) ⊎ ((waiting.new ≡ waiting.old) × (O.took out.new ≡ O.took out.old) × (NoNewline lines.now.pending → ⊥))) }
    ensures err { OnErr result (TakesPart (O.took out.old) (O.took out.new) waiting.old) }
    ensures cause { HasCause (O.faults out.old) (O.faults out.new) result }
    ensures served { OnOk result (O.faults out.new ≡ O.faults out.old) }
{
    if lines.is_at_hand() {
        return Ok(());
    }
    waiting.flush(out)
}

// Writes what waits, and the state behind a whole input.
fn write_state<O: Sink>(
    alloc: Global,
    running: &Running,
    waiting: &mut WriteBuffer,
    out: &mut O,
) -> Status
    requires { IsReached running.now }
    ensures writes { WritesStateBehind running.now result waiting.old (O.took out.old) (O.took out.new) }
    ensures fault { result ≡ Status.WriteFault → Rose (O.faults out.old) (O.faults out.new) }
    ensures served { result ≢ Status.WriteFault → O.faults out.new ≡ O.faults out.old }
    ensures read { result ≢ Status.ReadFault }
    ensures usage { result ≢ Status.Usage }
    ensures limit { (what : LimitOf) (kept : ℕ) → result ≢ Status.Limit what kept }
    ensures disk { result ≢ Status.DiskFault }
    ensures stale { (fence : ℕ) → result ≢ Status.StaleEpoch fence }
    ensures damaged { (offset : ℕ) → result ≢ Status.DamagedCheckpoint offset }
{
    match waiting.flush(out) {
        Ok(()) => {}
        Err(_) => return Status::WriteFault,
    }
    let mut text = Vec::new(alloc);
    match running.write_state(&mut text) {
        Ok(()) => {}
        Err(OutOfMemory) => return Status::OutOfMemory,
    }
    match write_all_of(out, &text) {
        Ok(()) => Status::Done,
        Err(_) => Status::WriteFault,
    }
}

// The status that a stop of the world means.
fn world_status(stop: WorldStop) -> Status
    ensures { result ≡ world_status stop }
{
    match stop {
        WorldStop::TooManyPackets { kept } => Status::Limit {
            what: LimitOf::Packets,
            kept,
        },
        WorldStop::PoolBytes { kept } => Status::Limit {
            what: LimitOf::Bytes,
            kept,
        },
        WorldStop::OutOfMemory => Status::OutOfMemory,
    }
}

// Runs the lines behind the one that describes the cluster. Behind a line that ended the input nothing is read.
fn run_lines<S: Source, O: Sink>(
    alloc: Global,
    cluster: Cluster,
    lines: &mut LineReader,
    source: &mut S,
    out: &mut O,
) -> Status
    requires stop { lines.old.stop ≢ Some LineStop.ReadFault }
    requires ahead { length lines.old.pending ≤ read_ahead }
    ensures ended { IsReady lines.old (S.left source.old) → IfSome (rest_of lines.old (S.left source.old)) (λ bytes. Ended (run_from lines.old.number (empty_world cluster)) bytes result (S.left source.new) (O.took out.old) (O.took out.new)) }
    ensures unread { lines.old.ended ≡ false → result ≢ Status.ReadFault }
    ensures read { result ≡ Status.ReadFault → Rose (S.faults source.old) (S.faults source.new) }
    ensures write { result ≡ Status.WriteFault → Rose (O.faults out.old) (O.faults out.new) }
    ensures reads_served { result ≢ Status.ReadFault → S.faults source.new ≡ S.faults source.old }
    ensures writes_served { result ≢ Status.WriteFault → O.faults out.new ≡ O.faults out.old }
    ensures limit { lines.old.stop ≡ None → (kept : ℕ) → result ≡ Status.Limit LimitOf.Lines kept → kept ≡ most_lines }
    ensures usage { result ≢ Status.Usage }
    ensures disk { result ≢ Status.DiskFault }
    ensures stale { (fence : ℕ) → result ≢ Status.StaleEpoch fence }
    ensures damaged { (offset : ℕ) → result ≢ Status.DamagedCheckpoint offset }
    ensures records { lines.old.stop ≡ None → (kept : ℕ) → result ≢ Status.Limit LimitOf.Records kept }
{
    input_lines::law::lines_are_taken();
    let Ok(mut running) = Running::start(alloc, cluster) else {
        return Status::OutOfMemory;
    };
    let Ok(mut waiting) = WriteBuffer::new(alloc) else {
        return Status::OutOfMemory;
    };
    // What an event prints: one room for all of them.
    let mut text = Vec::new(alloc);
    for turn in 0..1_000_001u64 {
        if !lines.ended() {
            return write_state(alloc, &running, &mut waiting, out);
        }
        match write_before_reading(lines, &mut waiting, out) {
            Ok(()) => {}
            Err(_) => return Status::WriteFault,
        }
        match lines.next(source) {
            Ok(Got::Line) => {}
            Ok(Got::End) => return write_state(alloc, &running, &mut waiting, out),
            Err(stop) => match waiting.flush(out) {
                Ok(()) => return stop_status(stop, lines.number()),
                Err(_) => return Status::WriteFault,
            },
        }
        let number = lines.number();
        let line = content(lines.line(), lines.ended());
        match take_line(
            alloc,
            &mut running,
            line,
            number,
            &mut text,
            &mut waiting,
            out,
        ) {
            Ok(()) => {}
            Err(status) => return status,
        }
    }
    unreachable!()
}

/// Runs the lines that the reader has not given yet: the first that is not skipped describes the cluster,
/// and the others are events of the world of that cluster. What events print is written before the
/// source is read again, and behind the last line the state. The reader has not stopped by a fault of the source.
pub fn run_schedule<S: Source, O: Sink>(
    alloc: Global,
    lines: &mut LineReader,
    source: &mut S,
    out: &mut O,
) -> Status
    requires { lines.old.stop ≢ Some LineStop.ReadFault }
    // What was written, by the status. It is said of a reader that has not stopped over bytes that are known.
    ensures ended { lines.old.stop ≡ None → IfSome (rest_of lines.old (S.left source.old)) (λ bytes. Ended (read_from lines.old.number) bytes result (S.left source.new) (O.took out.old) (O.took out.new)) }
    ensures read { result ≡ Status.ReadFault → Rose (S.faults source.old) (S.faults source.new) }
    ensures write { result ≡ Status.WriteFault → Rose (O.faults out.old) (O.faults out.new) }
    ensures reads_served { result ≢ Status.ReadFault → S.faults source.new ≡ S.faults source.old }
    ensures writes_served { result ≢ Status.WriteFault → O.faults out.new ≡ O.faults out.old }
    ensures limit { lines.old.stop ≡ None → (kept : ℕ) → result ≡ Status.Limit LimitOf.Lines kept → kept ≡ most_lines }
    ensures usage { result ≢ Status.Usage }
    ensures disk { result ≢ Status.DiskFault }
    ensures stale { (fence : ℕ) → result ≢ Status.StaleEpoch fence }
    ensures damaged { (offset : ℕ) → result ≢ Status.DamagedCheckpoint offset }
    ensures records { lines.old.stop ≡ None → (kept : ℕ) → result ≢ Status.Limit LimitOf.Records kept }
{
    match read_cluster_line(alloc, lines, source) {
        Ok(cluster) => run_lines(alloc, cluster, lines, source, out),
        Err(status) => status,
    }
}
