//! What holds of every plan. The function does nothing; its contract is the law.

ghost use Rattle.std.specs.Prelude.{ℕ, List, ◌≡◌, ◌≤◌, true, false, nat_eq, min, length, take, IfOk};
ghost use Rattle.fuxi_terms.specs.Counts.{AreCounts};
ghost use Rattle.fuxi_terms.specs.Keys.{key_cmp};
ghost use Rattle.fuxi_terms.specs.declared.Key.{Key};
ghost use Rattle.work_plan.specs.PlanKeys.{greatest_named, of_unit};
ghost use Rattle.work_plan.specs.Crews.{AreNumbers, Distinct};
ghost use Rattle.std.specs.List.{AllByRecursion};
ghost use Rattle.fuxi_terms.specs.Numbers.{has_number};
ghost use Rattle.work_plan.specs.RunAfter.{run_after};
ghost use Rattle.schedule_unit.specs.declared.party.AppNo.{AppNo};
ghost use Rattle.work_plan.specs.declared.event.WorkEvent.TheVariants.{App};
ghost use Rattle.work_plan.specs.AgentWithApps.{World};
ghost use Rattle.work_plan.specs.WorkEvents.{work_step};
ghost use Rattle.work_plan.specs.WorkStates.{AllRun, IsReached};
ghost use Rattle.work_plan.specs.WorkRuns.{all_lines, the_newest_stops_events, the_newest_stops_lines, workers_outlive_events, workers_outlive_lines};
ghost use Rattle.work_plan.specs.ReadWorkEvents.{work_of};
ghost use Rattle.work_plan.specs.GivenEvents.{IsGiven};
ghost use Rattle.work_plan.specs.WorkRunStates.{AllPlanned};

/// Of each unit a ledger of names names workers that there can be, each once.
pub fn plans_name_once()
    ensures { (entries : List (Key × ℕ)) (unit : ℕ) → AreCounts key_cmp greatest_named entries → AreNumbers (of_unit unit entries) }
{}

/// Of distinct workers and a plan that names each once: those that run afterwards are distinct, the plan wants each, and there are as many
/// as the count and the plan allow (`distinct`, `wanted`, `many`). Where all that run are wanted and the count falls, the newest stop first
/// (`newest`). Those that run as planned run on (`stays`).
pub fn workers_run_as_planned()
    ensures distinct { (running plan : List ℕ) (n : ℕ) → Distinct running → Distinct plan → Distinct (run_after running plan n) }
    ensures wanted { (running plan : List ℕ) (n : ℕ) → Distinct running → Distinct plan → AllByRecursion (λ w. has_number w plan ≡ true) (run_after running plan n) }
    ensures many { (running plan : List ℕ) (n : ℕ) → Distinct running → Distinct plan → length (run_after running plan n) ≡ min n (length plan) }
    ensures newest { (running plan : List ℕ) (n : ℕ) → AllByRecursion (λ w. has_number w plan ≡ true) running → n ≤ length running → run_after running plan n ≡ take n running }
    ensures stays { (running plan : List ℕ) (n : ℕ) → Distinct running → Distinct plan → AllByRecursion (λ w. has_number w plan ≡ true) running → length running ≡ min n (length plan) → run_after running plan n ≡ running }
{}

/// In every world to which events lead and in which an agent runs, the workers of each unit are distinct, the plan in force wants each of
/// them, and there are as many as the count and the plan allow; an application that is caught up has heard of just those that run
/// (`run`). They run on while their application starts again (`outlive`).
pub fn every_world_runs_as_planned()
    ensures run { (w : World) → IsReached w → nat_eq w.agent 0 ≡ false → AllRun w }
    ensures outlive { (w : World) → IsReached w → nat_eq w.agent 0 ≡ false → (a : AppNo) (b c u : ℕ) → (work_step w (App a b)).world.work c u ≡ w.work c u }
{
    crate::law::plans_name_once();
}

/// When a count falls the newest worker stops first, and of those that are wanted the smallest number starts first.
pub fn the_newest_stops()
    ensures { all_lines the_newest_stops_events ≡ the_newest_stops_lines }
{}

/// The workers of an application run on while it starts again, since the plan that it sent stays in force.
pub fn workers_outlive_their_application()
    ensures { all_lines workers_outlive_events ≡ workers_outlive_lines }
{}

/// What is read of a line is an event that a line can give, as a law of the definition. It does nothing.
pub fn lines_give_events()
    ensures { (line : List ℕ) → IfOk (work_of line) IsGiven }
{}

/// In every state of a run over the lines of an input in which an agent runs: the workers of each unit are distinct, the plan in force
/// wants each of them, and there are as many as the count and the plan allow; an application that is caught up has heard of just those
/// that run.
pub fn runs_go_as_planned()
    ensures { (bytes : List ℕ) → AllPlanned bytes }
{
    crate::law::lines_give_events();
    crate::law::every_world_runs_as_planned();
}
