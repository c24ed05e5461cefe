//! The steps.

ghost use Rattle.std.specs.Prelude.{◌+◌, ◌≤◌, ◌^◌, OnOk};
ghost use Rattle.schedule_replay.specs.Worlds.{IsReached};
ghost use Rattle.storm_run.specs.Storms.{all_stepped, most_storm_steps, stepped, storm_at};
ghost use Rattle.storm_run.specs.StormRuns.{Steps, outcome};

use crate::choices::choose;
use crate::generator::Generator;
use crate::run::Run;
use schedule_replay::WorldStop;
use std::alloc::Global;

fn step(run: &mut Run, alloc: Global, generator: &mut Generator) -> Result<(), WorldStop>
    requires reached { IsReached run.old }
    requires few { run.old.events + 2 ≤ 2 ^ 29 }
    ensures steps { Steps (λ w. stepped (storm_at w generator.old)) run.old (outcome run.new result) generator.new }
    ensures reached { OnOk result (IsReached run.new) }
    ensures events { OnOk result (run.new.events ≤ run.old.events + 2) }
{
    let choice = choose(run.running(), generator);
    run.take_choice(alloc, &choice)
}

// So many steps.
pub(crate) fn step_all(
    run: &mut Run,
    alloc: Global,
    generator: &mut Generator,
    steps: u64,
) -> Result<(), WorldStop>
    requires steps { steps ≤ most_storm_steps }
    requires reached { IsReached run.old }
    requires few { run.old.events ≤ 20 }
    ensures steps { Steps (λ w. all_stepped steps (storm_at w generator.old)) run.old (outcome run.new result) generator.new }
    ensures reached { OnOk result (IsReached run.new) }
    ensures events { OnOk result (run.new.events ≤ 20020) }
{
    for turn in 0..steps {
        match step(run, alloc, generator) {
            Ok(()) => {}
            Err(stop) => return Err(stop),
        }
    }
    Ok(())
}
