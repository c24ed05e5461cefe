//! What a search for victims answers.

use grant_table::Pick;
use schedule_unit::{AppNo, UnitNo};
use std::marker::Model;

/// Grants of one unit that are taken on the machine of a plan.
#[derive(Clone, Copy, Debug, PartialEq, Eq)]
pub struct Victim {
    /// The job.
    pub app: AppNo,
    /// The unit of that job.
    pub unit: UnitNo,
    /// How many of its grants are taken.
    pub count: u32,
}

/// Victims by unit, in the order in which they are walked: lower priority, then greater job, then greater
/// unit. They are seen as the list of them.
#[derive(Debug, Drop)]
pub struct Victims {
    items: Vec<Victim>,
}

impl Model for Victims {
    ghost use Rattle.std.specs.Prelude.{List};
    ghost use Rattle.preempt.specs.declared.plan.Victim.{Victim};

    ghost Value = { List Victim };

    ghost view = { λ v. v.items.items };
}

impl Victims {
    ghost use Rattle.std.specs.Prelude.{◌≡◌, ◌<◌, length, slice_get, Some};

    /// How many units lose grants.
    pub fn len(&self) -> usize
        ensures { result ≡ length self.now }
    {
        self.items.len()
    }

    /// The victim at a place, counted from 0.
    pub fn at(&self, index: usize) -> Victim
        requires { index < length self.now }
        ensures { slice_get self.now index ≡ Some result }
    {
        self.items[index]
    }

    pub(crate) fn of(items: Vec<Victim>) -> Victims
        ensures { result ≡ items.items }
    {
        Victims { items }
    }
}

/// Whom to serve, and what to take for it.
#[derive(Debug, Drop)]
pub struct Plan {
    /// The grant that is made once the victims are taken.
    pub pick: Pick,
    /// What is taken, all on the machine of the pick.
    pub victims: Victims,
}
