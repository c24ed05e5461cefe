//! The workers of all applications.

ghost use Rattle.std.specs.Prelude.{◌≡◌, ◌≢◌, ◌+◌, ◌<◌, ◌≤◌, ℕ, [], None, Some, is_some, IsSome, IfOk, OnOk, OnErr, length, get_or};
ghost use Rattle.work_plan.specs.PlanKeys.{named};
ghost use Rattle.work_plan.specs.RunAfter.{run_after};
ghost use Rattle.work_plan.specs.Crews.{Settled, Distinct, Marks, members_at, runs_at, nobody};

use crate::crew::Crew;
use crate::plan::{Plan, of_unit};
use crate::squad::{Member, taken_of};
use fuxi_terms::OutOfMemory;
use schedule_unit::{AppNo, UnitNo};
use std::alloc::Global;
use std::marker::Model;

/// The workers that run of each unit of each application that was admitted, in the order of their start.
pub struct Workers {
    /// By the number of the application.
    crews: Vec<Option<Crew>>,
}

impl Drop for Workers {
    fn drop(self) {
        let Workers { crews } = self;
    }
}

impl Model for Workers {
    ghost use Rattle.std.specs.Prelude.{List, Option};
    ghost use Rattle.work_plan.specs.declared.squad.Member.{Member};

    ghost Value = { List (Option (List (List Member))) };

    ghost view = { λ w. w.crews.items };
}

impl Workers {
    /// Nobody is admitted. Where memory is refused there is no such list.
    pub fn start(alloc: Global) -> Result<Workers, OutOfMemory>
        ensures { IfOk result (λ workers. workers ≡ []) }
    {
        Ok(Workers {
            crews: Vec::new(alloc),
        })
    }

    /// Reserves the slots of an application of which nobody runs yet, 256 for each unit. Want of memory leaves all as it was.
    pub fn admit(&mut self, alloc: Global, app: AppNo) -> Result<(), OutOfMemory>
        requires { get_or self.old app.0 None ≡ None }
        ensures admitted { OnOk result (get_or self.new app.0 None ≡ Some nobody) }
        ensures others { OnOk result ((a : ℕ) → a ≢ app.0 → get_or self.new a None ≡ get_or self.old a None) }
        ensures err { OnErr result (self.new ≡ self.old) }
    {
        let crew = Crew::empty(alloc)?;
        let index = app.0 as usize;
        if index >= self.crews.len() {
            self.crews.reserve(index + 1 - self.crews.len())?;
        }
        while self.crews.len() <= index {
            self.crews.push_reserved(None);
        }
        self.crews[index] = Some(crew);
        Ok(())
    }

    /// Whether an application was admitted.
    pub fn is_admitted(&self, app: AppNo) -> bool
        ensures { result ≡ is_some (get_or self.now app.0 None) }
    {
        matches!(self.crews.get(app.0 as usize), Some(Some(_)))
    }

    // The workers of an application that was admitted.
    fn crew(&self, app: AppNo) -> &Crew
        requires { IsSome (get_or self.now app.0 None) }
        ensures { get_or self.now app.0 None ≡ Some result.now }
    {
        match &self.crews[app.0 as usize] {
            Some(crew) => crew,
            None => unreachable!(),
        }
    }

    /// Of the workers that run those stay that the plan wants, the first ones, as many as the count says, each in its slot;
    /// then wanted ones start, the smallest number first, until there are as many. It takes no memory.
    pub fn settle(&mut self, app: AppNo, unit: UnitNo, plan: &Plan, count: u32)
        requires { IsSome (get_or self.old app.0 None) }
        ensures runs { runs_at self.new app.0 unit.0 ≡ run_after (runs_at self.old app.0 unit.0) (named unit.0 plan.now.entries) count }
        ensures slots { Settled (members_at self.old app.0 unit.0) (members_at self.new app.0 unit.0) (named unit.0 plan.now.entries) count }
        ensures units { (u : ℕ) → u ≢ unit.0 → members_at self.new app.0 u ≡ members_at self.old app.0 u }
        ensures others { (a : ℕ) → a ≢ app.0 → get_or self.new a None ≡ get_or self.old a None }
        ensures admitted { IsSome (get_or self.new app.0 None) }
    {
        let wanted = of_unit(plan, unit);
        let crew = &mut self.crews[app.0 as usize];
        match crew {
            Some(crew) => crew.settle(unit, wanted, count as usize),
            None => unreachable!(),
        }
    }

    /// How many workers of a unit run.
    pub fn running(&self, app: AppNo, unit: UnitNo) -> u32
        requires { IsSome (get_or self.now app.0 None) }
        ensures count { result ≡ length (runs_at self.now app.0 unit.0) }
        ensures distinct { Distinct (runs_at self.now app.0 unit.0) }
    {
        self.crew(app).members(unit).len() as u32
    }

    /// Which numbers the workers of a unit have that run.
    pub fn marks(&self, app: AppNo, unit: UnitNo) -> [bool; 256]
        requires { IsSome (get_or self.now app.0 None) }
        ensures { Marks result (runs_at self.now app.0 unit.0) }
    {
        taken_of(self.crew(app).members(unit))
    }

    /// The worker of a unit that started as this one of those that run, from 0.
    pub fn at(&self, app: AppNo, unit: UnitNo, index: u32) -> u32
        requires admitted { IsSome (get_or self.now app.0 None) }
        requires index { index < length (runs_at self.now app.0 unit.0) }
        ensures { (d : ℕ) → result ≡ get_or (runs_at self.now app.0 unit.0) index d }
    {
        let member = self.crew(app).members(unit)[index as usize];
        member.worker
    }
}
