//! The summary.

ghost use Rattle.std.specs.Prelude.{◌≡◌, ◌++◌, [], ◌∷◌, IfOk, OnOk, codes, length};
ghost use Rattle.schedule_replay.specs.Worlds.{IsReached, IsWorld, StandsFor};
ghost use Rattle.spec_world.specs.World.{World as WrittenWorld};
ghost use Rattle.storm_run.specs.Summaries.{answer, count_lines, line, summary};

use crate::counts::{Count, count_of, word};
use crate::run::Run;
use fuxi_terms::OutOfMemory;
use schedule_replay::Running;
use schedule_unit::write_number;
use std::alloc::Global;

// A word and numbers, with a blank before each, and a newline.
fn write_line(word: &[u8], numbers: &[u64], out: &mut Vec<u8>) -> Result<(), OutOfMemory>
    ensures { OnOk result (out.new.items ≡ out.old.items ++ line word.now numbers.now) }
{
    out.extend_from_slice(word)?;
    for number in numbers {
        out.push(b' ')?;
        write_number(*number, out)?;
    }
    out.push(b'\n')?;
    Ok(())
}

// The lines of the numbers below one.
fn write_counts(
    running: &Running,
    what: Count,
    numbers: u32,
    out: &mut Vec<u8>,
) -> Result<(), OutOfMemory>
    requires { IsReached running.now }
    ensures { OnOk result ((w : WrittenWorld) → IsWorld w → StandsFor running.now w → out.new.items ≡ out.old.items ++ count_lines what numbers w) }
{
    for number in 0..numbers {
        let counted = count_of(running, what, number);
        write_line(word(what), &[number as u64, counted], out)?;
    }
    Ok(())
}

fn write_answer(quiet: bool, out: &mut Vec<u8>) -> Result<(), OutOfMemory>
    ensures { OnOk result (out.new.items ≡ out.old.items ++ answer quiet) }
{
    let line: &[u8] = if quiet { b"quiet yes\n" } else { b"quiet no\n" };
    out.extend_from_slice(line)?;
    Ok(())
}

// The lines of the whole world.
fn write_head(run: &Run, seed: u64, steps: u64, out: &mut Vec<u8>) -> Result<(), OutOfMemory>
    ensures { OnOk result ((w : WrittenWorld) → IsWorld w → StandsFor run.now w → out.new.items ≡ out.old.items
        ++ (line (codes "storm") (seed ∷ steps ∷ []) ++ (line (codes "events") (w.events ∷ []) ++ (line (codes "packets") (length w.net.packets ∷ []) ++ line (codes "fence") (w.hard.fence ∷ []))))) }
{
    write_line(b"storm", &[seed, steps], out)?;
    write_line(b"events", &[run.running().steps()], out)?;
    write_line(b"packets", &[run.running().packets()], out)?;
    write_line(b"fence", &[run.running().fence()], out)
}

// The summary of the world at the end of a storm.
pub(crate) fn summarize(
    alloc: Global,
    run: &Run,
    seed: u64,
    steps: u64,
) -> Result<Vec<u8>, OutOfMemory>
    requires { IsReached run.now }
    ensures { IfOk result (λ text. (w : WrittenWorld) → IsWorld w → StandsFor run.now w → text.items ≡ summary seed steps w) }
{
    let mut out = Vec::new(alloc);
    let running = run.running();
    write_head(run, seed, steps, &mut out)?;
    write_counts(running, Count::Granted, 3, &mut out)?;
    write_counts(running, Count::Held, 3, &mut out)?;
    write_counts(running, Count::Rows, 8, &mut out)?;
    write_answer(running.quiet(running.fence()), &mut out)?;
    Ok(out)
}
