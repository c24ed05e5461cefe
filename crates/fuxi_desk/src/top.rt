//! The top call.

ghost use Rattle.std.specs.Prelude.{◌≡◌, ◌≢◌, ◌<◌, ◌⊎◌, ◌↔◌, ℕ, List, length, Some, IfSome};
ghost use Rattle.fuxi_io.specs.Causes.{Rose};
ghost use Rattle.fuxi_io.specs.Reports.{TakesReport};
ghost use Rattle.fuxi_desk.specs.DeskReports.{report_line};
ghost use Rattle.fuxi_desk.specs.DeskRuns.{Ended, read_from, run_of};
ghost use Rattle.input_lines.specs.LineRuns.{AtEnd};

use crate::run::run_desk;
use fuxi_io::{Sink, Source, Status, report};
use master_desk::Gate;
use std::alloc::Global;
use std::sync::Wait;
use std::thread::Threads;

// What is told where there are words.
const USAGE: &[u8] = b"usage: fuxi_desk\n";

/// Runs the sessions of an input at once on one master, and writes one history of one thread that they may have had.
///
/// There are no words. The input is the line of a cluster and then lines of two kinds: `submit`, of which a refusal is printed at once, and
/// `call C HEX`, which adds a call to a session. At its end the sessions run, each by a worker of its own. It waits for its workers; that it
/// returns is not proved, and what is promised holds where it returns. What is said of the output holds of an input and an output that tell
/// their bytes.
#[tactic(auto, using(crate::proofs::DeskRunsLemmas::completes))]
pub fn desk<R: Threads + Wait + Sync, S: Source, O: Sink, E: Sink, G: Gate + Sync>(
    rt: &R,
    alloc: Global,
    words: &[String],
    input: &mut S,
    out: &mut O,
    err: &mut E,
    gate: &G,
) -> Status
    // There are words, and nothing was read or written.
    ensures usage { result ≡ Status.Usage ↔ (0 < length words.now) }
    ensures unused { result ≡ Status.Usage → (out.new ≡ out.old) × (input.new ≡ input.old) }
    // What was written, by the status: with `Done` the refusals, and behind them the text of a run of one thread over an order that has each call once.
    ensures ended { length words.now ≡ 0 → IfSome (S.left input.old) (λ bytes. Ended (read_from 0) bytes result (S.left input.new) (O.took out.old) (O.took out.new)) }
    ensures read { result ≡ Status.ReadFault → Rose (S.faults input.old) (S.faults input.new) }
    ensures write { result ≡ Status.WriteFault → Rose (O.faults out.old) (O.faults out.new) }
    ensures disk { result ≢ Status.DiskFault }
    ensures stale { (fence : ℕ) → result ≢ Status.StaleEpoch fence }
    ensures damaged { (offset : ℕ) → result ≢ Status.DamagedCheckpoint offset }
    // An input with no bad line, within the limits, with no fault of its source and of the sink, is done, but for want of memory.
    ensures complete { length words.now ≡ 0 → (bytes : List ℕ) → S.left input.old ≡ Some bytes → (run_of bytes).ending ≡ AtEnd → (Rose (S.faults input.old) (S.faults input.new) → ⊥) → (Rose (O.faults out.old) (O.faults out.new) → ⊥)
        → (result ≡ Status.Done) ⊎ (result ≡ Status.OutOfMemory) }
    ensures report { TakesReport (report_line result) (E.took err.old) (E.took err.new) (E.faults err.old) (E.faults err.new) }
{
    let status = if words.is_empty() {
        run_desk(rt, alloc, input, out, gate)
    } else {
        Status::Usage
    };
    let _told = report(err, USAGE, &status);
    status
}

/// Tells the status of words that could not be had.
pub fn untold<E: Sink>(err: &mut E, status: Status) -> Status
    ensures same { result ≡ status }
    ensures report { TakesReport (report_line status) (E.took err.old) (E.took err.new) (E.faults err.old) (E.faults err.new) }
{
    let _told = report(err, USAGE, &status);
    status
}
