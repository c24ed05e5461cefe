ghost use Rattle.std.specs.Prelude.{false, OnOk, ◌≡◌, ◌+◌, ◌<◌, ◌≤◌, ◌^◌, ◌⊎◌, [], Some, None, IfSome, ℕ, List};
ghost use Rattle.fuxi_io.specs.Causes.{Rose};
ghost use Rattle.work_plan.specs.AgentWithApps.{World, empty_world};
ghost use Rattle.work_plan.specs.WorkWorlds.{IsReached, Stands};
ghost use Rattle.input_lines.specs.LineRuns.{AtEnd};
ghost use Rattle.input_lines.specs.RunEnds.{CanEnd, CanStop};
ghost use Rattle.work_plan.specs.WorkLineRuns.{Ended, run_from, run_of, work_causes};
ghost use Rattle.work_plan.specs.WorkProgress.{TakesLine, WritesState, line_causes, state_causes};

use crate::{WorkStop, Working, read_work};
use fuxi_io::{Got, LimitOf, LineReader, Sink, Source, Status, write_all_of};
use fuxi_terms::OutOfMemory;
use input_lines::{content, event_status, is_skipped, law, stop_status};
use std::alloc::Global;

impl From<WorkStop> for Status {
    ghost use Rattle.std.specs.Prelude.{◌≡◌};
    ghost use Rattle.work_plan.specs.WorkProgress.{world_status};

    ghost from_gives = { λ stop status. status ≡ world_status stop };

    fn from(stop: WorkStop) -> Status {
        match stop {
            WorkStop::TooManyPackets { kept } => Status::Limit {
                what: LimitOf::Packets,
                kept,
            },
            WorkStop::OutOfMemory => Status::OutOfMemory,
        }
    }
}

// Takes a line: makes its event and writes what that prints, where it is not skipped.
fn take_line<O: Sink>(
    alloc: Global,
    working: &mut Working,
    line: &[u8],
    number: u64,
    out: &mut O,
) -> Result<(), Status>
    requires reached { IsReached working.old }
    requires events { working.old.events < 2 ^ 29 }
    ensures takes { (w : World) → Stands working.old w → TakesLine working.new line.now number w result (O.took out.old) (O.took out.new) }
    ensures reached { OnOk result (IsReached working.new) }
    ensures events { OnOk result (working.new.events ≤ working.old.events + 1) }
    ensures status { CanStop line_causes (record { source = (0, 0); output = (O.faults out.old, O.faults out.new); disk = (0, 0) }) result }
{
    if is_skipped(line) {
        return Ok(());
    }
    let event = match read_work(alloc, line) {
        Ok(event) => event,
        Err(fault) => return Err(event_status(fault, number)),
    };
    let mut text = Vec::new(alloc);
    match working.step(alloc, &event, &mut text) {
        Ok(()) => {}
        Err(stop) => return Err(Status::from(stop)),
    }
    match write_all_of(out, &text) {
        Ok(()) => Ok(()),
        Err(_) => Err(Status::WriteFault),
    }
}

// Writes the state behind a whole input.
fn write_state<O: Sink>(alloc: Global, working: &Working, out: &mut O) -> Status
    requires { IsReached working.now }
    ensures writes { (w : World) → Stands working.now w → WritesState w result (O.took out.old) (O.took out.new) }
    ensures status { CanEnd state_causes (record { source = (0, 0); output = (O.faults out.old, O.faults out.new); disk = (0, 0) }) result }
{
    let mut text = Vec::new(alloc);
    match working.write_state(&mut text) {
        Ok(()) => {}
        Err(OutOfMemory) => return Status::OutOfMemory,
    }
    match write_all_of(out, &text) {
        Ok(()) => Status::Done,
        Err(_) => Status::WriteFault,
    }
}

// Runs all lines of a source, of which the reader has read nothing. What a line prints is written before the next one is read. Behind a
// line that ended the input nothing is read.
fn run_lines<S: Source, O: Sink>(
    alloc: Global,
    working: &mut Working,
    lines: &mut LineReader,
    source: &mut S,
    out: &mut O,
) -> Status
    requires fresh { lines.old ≡ record { pending = []; line = []; ended = false; number = 0; stop = None } }
    requires reached { IsReached working.old }
    requires stands { Stands working.old empty_world }
    requires events { working.old.events ≡ 0 }
    ensures ended { IfSome (S.left source.old) (λ bytes. Ended (run_from 0 empty_world) bytes result (S.left source.new) (O.took out.old) (O.took out.new)) }
    ensures status { CanEnd work_causes (record { source = (S.faults source.old, S.faults source.new); output = (O.faults out.old, O.faults out.new); disk = (0, 0) }) result }
{
    law::lines_are_taken();
    for turn in 0..1_000_001u64 {
        match lines.next(source) {
            Ok(Got::Line) => {}
            Ok(Got::End) => return write_state(alloc, working, out),
            Err(stop) => return stop_status(stop, lines.number()),
        }
        let number = lines.number();
        let line = content(lines.line(), lines.ended());
        match take_line(alloc, working, line, number, out) {
            Ok(()) => {}
            Err(status) => return status,
        }
        if !lines.ended() {
            return write_state(alloc, working, out);
        }
    }
    unreachable!()
}

/// Runs named workers over the lines of the source, writes what each prints before the next one is read, and behind the last line the
/// state. What is said of the output holds of a source and a sink that tell their bytes.
///
/// `ReadFault` and `WriteFault`: the source or the sink failed in this call. `Limit`: a line begins after 1,000,000, or the packets of an
/// event would pass 10,000. `BadInput`: the first line that is no event. Behind a line that ended the input nothing is read.
pub fn run_work<S: Source, O: Sink>(alloc: Global, source: &mut S, out: &mut O) -> Status
    // What was written, by the status.
    ensures ended { IfSome (S.left source.old) (λ bytes. Ended (run_from 0 empty_world) bytes result (S.left source.new) (O.took out.old) (O.took out.new)) }
    // By which cause it ends so: each failed call is told by its own status, and a limit is that on packets or on lines.
    ensures status { CanEnd work_causes (record { source = (S.faults source.old, S.faults source.new); output = (O.faults out.old, O.faults out.new); disk = (0, 0) }) result }
    // An input without a bad line, within the limits, with no fault of source and sink, is done, but for want of memory.
    ensures complete { (bytes : List ℕ) → S.left source.old ≡ Some bytes → (run_of bytes).ending ≡ AtEnd
        → (Rose (S.faults source.old) (S.faults source.new) → ⊥) → (Rose (O.faults out.old) (O.faults out.new) → ⊥)
        → (result ≡ Status.Done) ⊎ (result ≡ Status.OutOfMemory) }
{
    let mut lines = match LineReader::new(alloc) {
        Ok(lines) => lines,
        Err(_) => return Status::OutOfMemory,
    };
    let mut working = Working::start(alloc);
    run_lines(alloc, &mut working, &mut lines, source, out)
}
