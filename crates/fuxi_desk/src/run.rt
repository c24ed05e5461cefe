//! A desk over the lines of an input.

ghost use Rattle.std.specs.Prelude.{◌≡◌, ◌≢◌, ◌+◌, ◌<◌, ◌≤◌, ◌^◌, ℕ, false, length, Some, None, Err, IfSome, IfOk};
ghost use Rattle.fuxi_io.specs.Causes.{Rose};
ghost use Rattle.fuxi_io.specs.Reading.{rest_of, read_ahead};
ghost use Rattle.fuxi_terms.specs.Limits.{most_lines};
ghost use Rattle.input_lines.specs.Wholes.{IsReady};
ghost use Rattle.master_desk.specs.CallOrders.{most_calls};
ghost use Rattle.fuxi_desk.specs.Preparing.{Prepared as PreparedSeen, Stands, prepared_for};
ghost use Rattle.fuxi_desk.specs.DeskRuns.{Ended, read_from, run_from};
ghost use Rattle.fuxi_desk.specs.DeskProgress.{TakesLine, WritesState};

use crate::prepare::Prepared;
use crate::read::read_line;
use crate::text::write_desk;
use cluster_desc::Cluster;
use fuxi_io::{Got, LimitOf, LineReader, LineStop, Sink, Source, Status, write_all_of};
use fuxi_terms::OutOfMemory;
use input_lines::{content, event_status, is_skipped, law, read_cluster_line, stop_status};
use master_desk::{Gate, MOST_CALLS, run_all};
use std::alloc::Global;
use std::sync::Wait;
use std::thread::Threads;

// Takes a line and writes what it prints, where it is not skipped. Where it ends the run, what was prepared is gone.
fn take_line<O: Sink>(
    alloc: Global,
    prepared: Prepared,
    line: &[u8],
    number: u64,
    out: &mut O,
) -> Result<Prepared, Status>
    requires steps { prepared.node.master.steps < 2 ^ 29 }
    ensures takes { (w : PreparedSeen) → Stands prepared w → TakesLine line.now number w result (O.took out.old) (O.took out.new) }
    ensures steps { IfOk result (λ after. after.node.master.steps ≤ prepared.node.master.steps + 1) }
    ensures later { O.faults out.old ≤ O.faults out.new }
    ensures fault { result ≡ Err Status.WriteFault → Rose (O.faults out.old) (O.faults out.new) }
    ensures lines { (kept : ℕ) → result ≢ Err (Status.Limit LimitOf.Lines kept) }
    ensures calls { (kept : ℕ) → result ≡ Err (Status.Limit LimitOf.Calls kept) → kept ≡ most_calls }
    ensures usage { result ≢ Err Status.Usage }
    ensures read { result ≢ Err Status.ReadFault }
    ensures disk { result ≢ Err Status.DiskFault }
    ensures stale { (fence : ℕ) → result ≢ Err (Status.StaleEpoch fence) }
    ensures damaged { (offset : ℕ) → result ≢ Err (Status.DamagedCheckpoint offset) }
{
    if is_skipped(line) {
        return Ok(prepared);
    }
    let said = match read_line(alloc, line) {
        Ok(said) => said,
        Err(fault) => {
            drop(prepared);
            return Err(event_status(fault, number));
        }
    };
    if prepared.is_past(&said) {
        drop(prepared);
        return Err(Status::Limit {
            what: LimitOf::Calls,
            kept: u64::from(MOST_CALLS),
        });
    }
    let mut text = Vec::new(alloc);
    let after = match prepared.step(alloc, said, &mut text) {
        Ok(after) => after,
        Err(OutOfMemory) => return Err(Status::OutOfMemory),
    };
    match write_all_of(out, &text) {
        Ok(()) => Ok(after),
        Err(_) => {
            drop(after);
            Err(Status::WriteFault)
        }
    }
}

// Runs the sessions behind a whole input, and writes the journal and the master then.
fn run_sessions<R: Threads + Wait + Sync, O: Sink, G: Gate + Sync>(
    rt: &R,
    alloc: Global,
    prepared: Prepared,
    out: &mut O,
    gate: &G,
) -> Status
    requires steps { prepared.node.master.steps < 2 ^ 49 }
    ensures writes { (w : PreparedSeen) → Stands prepared w → WritesState w result (O.took out.old) (O.took out.new) }
    ensures fault { result ≡ Status.WriteFault → Rose (O.faults out.old) (O.faults out.new) }
    ensures read { result ≢ Status.ReadFault }
    ensures usage { result ≢ Status.Usage }
    ensures limit { (what : LimitOf) (kept : ℕ) → result ≢ Status.Limit what kept }
    ensures disk { result ≢ Status.DiskFault }
    ensures stale { (fence : ℕ) → result ≢ Status.StaleEpoch fence }
    ensures damaged { (offset : ℕ) → result ≢ Status.DamagedCheckpoint offset }
{
    let (master, sessions) = prepared.into_parts();
    let book = match run_all(rt, alloc, master, &sessions, gate) {
        Ok(book) => book,
        Err(OutOfMemory) => return Status::OutOfMemory,
    };
    let mut text = Vec::new(alloc);
    match write_desk(alloc, &book, &mut text) {
        Ok(()) => {}
        Err(OutOfMemory) => return Status::OutOfMemory,
    }
    match write_all_of(out, &text) {
        Ok(()) => Status::Done,
        Err(_) => Status::WriteFault,
    }
}

// Runs the lines behind the one that describes the cluster. Behind a line that ended the input nothing is read.
fn run_lines<R: Threads + Wait + Sync, S: Source, O: Sink, G: Gate + Sync>(
    rt: &R,
    alloc: Global,
    cluster: &Cluster,
    lines: &mut LineReader,
    source: &mut S,
    out: &mut O,
    gate: &G,
) -> Status
    requires stop { lines.old.stop ≢ Some LineStop.ReadFault }
    requires ahead { length lines.old.pending ≤ read_ahead }
    ensures ended { IsReady lines.old (S.left source.old) → IfSome (rest_of lines.old (S.left source.old)) (λ bytes. Ended (run_from lines.old.number (prepared_for cluster.now)) bytes result (S.left source.new) (O.took out.old) (O.took out.new)) }
    ensures unread { lines.old.ended ≡ false → result ≢ Status.ReadFault }
    ensures read { result ≡ Status.ReadFault → Rose (S.faults source.old) (S.faults source.new) }
    ensures write { result ≡ Status.WriteFault → Rose (O.faults out.old) (O.faults out.new) }
    ensures usage { result ≢ Status.Usage }
    ensures disk { result ≢ Status.DiskFault }
    ensures stale { (fence : ℕ) → result ≢ Status.StaleEpoch fence }
    ensures damaged { (offset : ℕ) → result ≢ Status.DamagedCheckpoint offset }
{
    law::lines_are_taken();
    let Ok(start) = Prepared::start(alloc, cluster) else {
        return Status::OutOfMemory;
    };
    let mut prepared = start;
    for turn in 0..1_000_001u64 {
        if !lines.ended() {
            return run_sessions(rt, alloc, prepared, out, gate);
        }
        match lines.next(source) {
            Ok(Got::Line) => {}
            Ok(Got::End) => return run_sessions(rt, alloc, prepared, out, gate),
            Err(stop) => {
                drop(prepared);
                return stop_status(stop, lines.number());
            }
        }
        let number = lines.number();
        let line = content(lines.line(), lines.ended());
        match take_line(alloc, prepared, line, number, out) {
            Ok(after) => prepared = after,
            Err(status) => return status,
        }
    }
    unreachable!()
}

// Reads the line of the cluster and those behind it.
fn run_input<R: Threads + Wait + Sync, S: Source, O: Sink, G: Gate + Sync>(
    rt: &R,
    alloc: Global,
    lines: &mut LineReader,
    source: &mut S,
    out: &mut O,
    gate: &G,
) -> Status
    requires { lines.old.stop ≢ Some LineStop.ReadFault }
    ensures ended { lines.old.stop ≡ None → IfSome (rest_of lines.old (S.left source.old)) (λ bytes. Ended (read_from lines.old.number) bytes result (S.left source.new) (O.took out.old) (O.took out.new)) }
    ensures read { result ≡ Status.ReadFault → Rose (S.faults source.old) (S.faults source.new) }
    ensures write { result ≡ Status.WriteFault → Rose (O.faults out.old) (O.faults out.new) }
    ensures usage { result ≢ Status.Usage }
    ensures disk { result ≢ Status.DiskFault }
    ensures stale { (fence : ℕ) → result ≢ Status.StaleEpoch fence }
    ensures damaged { (offset : ℕ) → result ≢ Status.DamagedCheckpoint offset }
{
    match read_cluster_line(alloc, lines, source) {
        Ok(cluster) => run_lines(rt, alloc, &cluster, lines, source, out, gate),
        Err(status) => status,
    }
}

/// Reads an input, runs the sessions at its end, and writes the journal and the master then.
pub fn run_desk<R: Threads + Wait + Sync, S: Source, O: Sink, G: Gate + Sync>(
    rt: &R,
    alloc: Global,
    source: &mut S,
    out: &mut O,
    gate: &G,
) -> Status
    // What was written, by the status. It is said of a source and a sink that tell their bytes.
    ensures ended { IfSome (S.left source.old) (λ bytes. Ended (read_from 0) bytes result (S.left source.new) (O.took out.old) (O.took out.new)) }
    ensures read { result ≡ Status.ReadFault → Rose (S.faults source.old) (S.faults source.new) }
    ensures write { result ≡ Status.WriteFault → Rose (O.faults out.old) (O.faults out.new) }
    ensures usage { result ≢ Status.Usage }
    ensures disk { result ≢ Status.DiskFault }
    ensures stale { (fence : ℕ) → result ≢ Status.StaleEpoch fence }
    ensures damaged { (offset : ℕ) → result ≢ Status.DamagedCheckpoint offset }
{
    match LineReader::new(alloc) {
        Ok(mut lines) => run_input(rt, alloc, &mut lines, source, out, gate),
        Err(_) => Status::OutOfMemory,
    }
}
