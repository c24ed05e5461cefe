//! The whole storm.

ghost use Rattle.std.specs.Prelude.{◌≡◌, ◌≢◌, ◌≤◌, IfOk, IfErr};
ghost use Rattle.fuxi_io.specs.Causes.{Rose};
ghost use Rattle.schedule_replay.specs.Worlds.{IsReached};
ghost use Rattle.storm_run.specs.StormRuns.{Ends, StormEnded, StoppedAt, stop_status};
ghost use Rattle.storm_run.specs.Storms.{most_storm_steps, storm};
ghost use Rattle.storm_run.specs.Summaries.{storm_of};

use crate::closing::close;
use crate::cluster::make_cluster;
use crate::generator::Generator;
use crate::opening::open;
use crate::run::Run;
use crate::steps::step_all;
use crate::summary::summarize;
use fuxi_io::{LimitOf, Sink, Status, write_all_of};
use schedule_replay::WorldStop;
use std::alloc::Global;

/// The greatest number of steps of a storm.
pub const MOST_STEPS: u64 = 10_000;

// What runs at the end of the storm.
fn play(alloc: Global, seed: u64, steps: u64) -> Result<Run, WorldStop>
    requires { steps ≤ most_storm_steps }
    ensures ends { Ends (storm seed steps) result }
    ensures reached { IfOk result IsReached }
{
    let Ok(cluster) = make_cluster(alloc) else {
        return Err(WorldStop::OutOfMemory);
    };
    let Ok(mut run) = Run::start(alloc, cluster) else {
        return Err(WorldStop::OutOfMemory);
    };
    match open(&mut run, alloc) {
        Ok(()) => {}
        Err(stop) => return Err(stop),
    }
    let mut generator = Generator::from_seed(seed);
    match step_all(&mut run, alloc, &mut generator, steps) {
        Ok(()) => {}
        Err(stop) => return Err(stop),
    }
    match close(&mut run, alloc) {
        Ok(()) => Ok(run),
        Err(stop) => Err(stop),
    }
}

// Its text.
fn tell(alloc: Global, seed: u64, steps: u64) -> Result<Vec<u8>, WorldStop>
    requires { steps ≤ most_storm_steps }
    ensures ok { IfOk result (λ text. storm_of seed steps ≡ Ok text.items) }
    ensures err { IfErr result (StoppedAt (storm_of seed steps)) }
{
    let run = match play(alloc, seed, steps) {
        Ok(run) => run,
        Err(stop) => return Err(stop),
    };
    match summarize(alloc, &run, seed, steps) {
        Ok(text) => Ok(text),
        Err(_) => Err(WorldStop::OutOfMemory),
    }
}

// The status that a stop means.
fn stop_status(stop: WorldStop) -> Status
    ensures { result ≡ stop_status stop }
{
    match stop {
        WorldStop::TooManyPackets { kept } => Status::Limit {
            what: LimitOf::Packets,
            kept,
        },
        WorldStop::PoolBytes { kept } => Status::Limit {
            what: LimitOf::Bytes,
            kept,
        },
        WorldStop::OutOfMemory => Status::OutOfMemory,
    }
}

/// Runs the storm of a seed with so many steps, and writes its summary. Nothing is written before its end: where one of its events would
/// pass a limit on packets, or memory is refused, nothing is.
pub fn run_storm<O: Sink>(alloc: Global, seed: u64, steps: u64, out: &mut O) -> Status
    requires { steps ≤ most_storm_steps }
    // What was written, by the status.
    ensures ended { StormEnded (storm_of seed steps) result (O.took out.old) (O.took out.new) }
    ensures write { result ≡ Status.WriteFault → Rose (O.faults out.old) (O.faults out.new) }
    ensures writes_served { result ≢ Status.WriteFault → O.faults out.new ≡ O.faults out.old }
{
    let text = match tell(alloc, seed, steps) {
        Ok(text) => text,
        Err(stop) => return stop_status(stop),
    };
    match write_all_of(out, &text) {
        Ok(()) => Status::Done,
        Err(_) => Status::WriteFault,
    }
}
