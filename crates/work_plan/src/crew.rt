//! The workers of one application.

ghost use Rattle.std.specs.Prelude.{◌≡◌, [], length, IfOk, ℕ, ◌<◌, ◌≤◌, ◌≢◌, get_or};
ghost use Rattle.std.specs.List.{AllByRecursion};
ghost use Rattle.work_plan.specs.Crews.{Settled, AreNumbers, Distinct, numbers_of, workers_of, nobody};
ghost use Rattle.fuxi_terms.specs.Limits.{most_units};
ghost use Rattle.work_plan.specs.PlanKeys.{most_workers};

use crate::squad::{Member, Squad};
use fuxi_terms::OutOfMemory;
use fuxi_terms::limits::MOST_UNITS;
use ledger_law::Key;
use schedule_unit::UnitNo;
use std::alloc::Global;
use std::marker::Model;

/// The workers of an application that run, unit by unit.
pub(crate) struct Crew {
    squads: Vec<Squad>,
}

impl Drop for Crew {
    fn drop(self) {
        let Crew { squads } = self;
    }
}

impl Model for Crew {
    ghost use Rattle.std.specs.Prelude.{◌≡◌, List, length};
    ghost use Rattle.fuxi_terms.specs.Limits.{most_units};
    ghost use Rattle.work_plan.specs.declared.squad.Member.{Member};

    ghost Value = { List (List Member) };

    ghost view = { λ c. c.squads.items };

    ghost invariant = { λ c. length c.squads.items ≡ most_units };
}

impl Crew {
    /// Nobody runs, in 2,048 slots.
    pub(crate) fn empty(alloc: Global) -> Result<Crew, OutOfMemory>
        ensures { IfOk result (λ crew. crew ≡ nobody) }
    {
        let mut squads = Vec::new(alloc);
        for unit in 0..MOST_UNITS {
            let squad = Squad::empty(alloc)?;
            squads.push(squad)?;
        }
        Ok(Crew { squads })
    }

    /// The workers of a unit that run. A job has no unit of a number above 7, and nobody runs of it.
    pub(crate) fn members(&self, unit: UnitNo) -> &[Member]
        ensures members { result.now ≡ get_or self.now unit.0 [] }
        ensures few { length result.now ≤ most_workers }
        ensures distinct { Distinct (workers_of result.now) }
        ensures within { AllByRecursion (λ n. n < most_workers) (workers_of result.now) }
    {
        let index = unit.0 as usize;
        if index >= self.squads.len() {
            return &[];
        }
        self.squads[index].members()
    }

    /// The workers of a unit become those that these entries name, as far as the number goes. It takes no memory.
    pub(crate) fn settle(&mut self, unit: UnitNo, wanted: &[(Key, u64)], most: usize)
        requires numbers { AreNumbers wanted.now }
        requires unit { most_units ≤ unit.0 → wanted.now ≡ [] }
        ensures unit { Settled (get_or self.old unit.0 []) (get_or self.new unit.0 []) (numbers_of wanted.now) most }
        ensures others { (u : ℕ) → u ≢ unit.0 → get_or self.new u [] ≡ get_or self.old u [] }
    {
        let index = unit.0 as usize;
        if index >= self.squads.len() {
            return;
        }
        let squad = &mut self.squads[index];
        squad.settle(wanted, most);
    }
}
