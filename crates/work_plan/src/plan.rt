//! The ledger of names.

ghost use Rattle.std.specs.Prelude.{◌≡◌, ◌≤◌, []};
ghost use Rattle.fuxi_terms.specs.Limits.{most_units};
ghost use Rattle.work_plan.specs.Crews.{AreNumbers};
ghost use Rattle.work_plan.specs.PlanKeys.{greatest_named, of_unit};

use fuxi_terms::limits::MOST_UNITS;
use ledger_law::{Key, Shape, Tally};
use schedule_unit::UnitNo;

/// The numbers of workers are below this.
pub const MOST_WORKERS: usize = 256;

/// The keys of [`Plan`] and [`Running`]: of kind 1, a worker of a unit, which is named or not.
#[derive(Clone, Copy, Debug, Drop)]
pub struct PlanShape;

impl Shape for PlanShape {
    ghost use Rattle.work_plan.specs.PlanKeys.{greatest_named, no_what};
    ghost use Rattle.work_plan.specs.PlanShapes.{named_bounded, named_writable};

    ghost DROPPED = { no_what };

    ghost greatest_of = { greatest_named };

    ghost bounded = { named_bounded };

    ghost writable = { named_writable };

    const DROPPED: u8 = 0;

    fn greatest(key: &Key) -> u64 {
        if key.what == 1
            && (key.unit as usize) < MOST_UNITS
            && (key.number as usize) < MOST_WORKERS
        {
            1
        } else {
            0
        }
    }
}

/// Which workers an application wants. The head is 0.
pub type Plan = Tally<PlanShape>;

/// Which workers an agent runs for an application. The head is 0.
pub type Running = Tally<PlanShape>;

// The entries of a unit, the smallest number first.
pub(crate) fn of_unit(plan: &Plan, unit: UnitNo) -> &[(Key, u64)]
    ensures entries { result.now ≡ of_unit unit.0 plan.now.entries }
    ensures numbers { AreNumbers result.now }
    ensures none { most_units ≤ unit.0 → result.now ≡ [] }
{
    let entries = plan.entries();
    let first = entries.partition_point(|entry| entry.0.unit < unit.0);
    let (_, behind) = entries.split_at(first);
    let count = behind.partition_point(|entry| entry.0.unit <= unit.0);
    let (own, _) = behind.split_at(count);
    own
}
