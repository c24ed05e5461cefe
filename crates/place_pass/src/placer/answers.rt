//! What a placer answers of the units, the line and the table.

use super::Placer;
use crate::line::Line;
use grant_table::{Asking, GrantTable, Pick, Steps, law};
use locality_tree::Tree;
use schedule_unit::{AppNo, MachineNo, UnitNo};
use std::sync::ledger::Ledger;

impl Placer {
    ghost use Rattle.std.specs.Prelude.{◌≡◌, ℕ, ◌+◌, ◌<◌, ◌≤◌, true, false, not, nat_lt, length};
    ghost use Rattle.fuxi_terms.specs.TallyKeys.{want_key, avoid_key};
    ghost use Rattle.fuxi_terms.specs.Counts.{count};
    ghost use Rattle.fuxi_terms.specs.Tables.{held_on};
    ghost use Rattle.spec_roles.specs.Masters.{level_of, out_of};
    ghost use Rattle.spec_roles.specs.Placing.{placeable_in};
    ghost use Rattle.place_pass.specs.PlacerTrees.{TreeOf};
    ghost use Rattle.place_pass.specs.Best.{spot_of};
    ghost use Rattle.place_pass.specs.Placers.{AreLevel, job_seen, asks_seen, units_seen, IsLevelWith, IsUpToDate, IsGrantable, board_with};

    /// How many grants of an admitted unit are out: wanted and not held.
    pub fn outstanding(&self, table: &GrantTable, app: AppNo, unit: UnitNo) -> u32
        requires level { IsLevelWith self.now table.now }
        requires unit { unit.0 < units_seen self.now.seen app.0 }
        ensures outstanding { result ≡ out_of (asks_seen self.now.seen) table.now.entries app.0 unit.0 }
        ensures few { (m : ℕ) → 0 < result → held_on table.now.entries app.0 unit.0 m < 100000 }
    {
        law::set_numbers();
        table.is_sound();
        let _wish = self.wishes.wish(app, unit);
        self.wishes.outstanding(table, app, unit)
    }

    /// How many grants of an admitted unit are wanted in all. No memory is taken.
    pub fn wanted(&self, app: AppNo, unit: UnitNo) -> u32
        requires { unit.0 < units_seen self.now.seen app.0 }
        ensures { result ≡ asks_seen self.now.seen app.0 (want_key unit.0) }
    {
        self.wishes.wish(app, unit).want
    }

    /// Whether an admitted unit avoids the machine. One that the cluster does not have is not avoided. No memory is
    /// taken.
    pub fn avoids(&self, app: AppNo, unit: UnitNo, machine: MachineNo) -> bool
        requires { unit.0 < units_seen self.now.seen app.0 }
        ensures { result ≡ nat_lt 0 (asks_seen self.now.seen app.0 (avoid_key unit.0 machine.0)) }
    {
        self.wishes.avoids(app, unit, machine)
    }

    /// The number that the next unit gets that begins to wait.
    pub fn turns(&self) -> u64
        ensures { result ≡ self.now.seen.turns }
    {
        self.turns
    }

    /// The waiting pairs in order.
    pub fn waiting(&self) -> &Line
        ensures { result.now.pairs ≡ self.now.seen.line }
    {
        &self.line
    }

    /// The tree of the waiting pairs. In it exactly the pairs of the line wait, each with its priority and its turn, and
    /// stand in the queue of each machine and rack where they ask for more than they have.
    pub fn tree(&self, table: &GrantTable) -> &Tree
        requires level { IsLevelWith self.now table.now }
        requires up { IsUpToDate self.now.seen table.now }
        ensures { TreeOf self.now.seen.cluster self.now.seen.cells self.now.seen.line self.now.kept.turn_of table.now.entries result.now }
    {
        &self.tree
    }

    /// The level of an admitted unit on a machine: 0 where it wants more there than it has, else 1 where it does in the rack, and else 2.
    pub fn level(&self, table: &GrantTable, pick: Pick) -> u8
        requires level { AreLevel self.now.seen.cluster (job_seen self.now.seen) table.now }
        requires unit { pick.unit.0 < units_seen self.now.seen pick.app.0 }
        requires machine { pick.machine.0 < length table.now.cluster.machines }
        ensures { result ≡ level_of table.now.cluster (asks_seen self.now.seen) table.now.entries pick.app.0 pick.unit.0 pick.machine.0 }
    {
        self.wishes.are_sound();
        self.wishes.level(table, pick.app, pick.unit, pick.machine)
    }

    /// Whether the unit may be granted on the machine once more, by a table of which the placer need not be told yet. The table may make
    /// that grant. At most one step is counted.
    pub fn may_place<L: Ledger>(&self, table: &GrantTable, steps: &mut Steps<L>, pick: Pick) -> bool
        requires level { AreLevel self.now.seen.cluster (job_seen self.now.seen) table.now }
        requires unit { pick.unit.0 < units_seen self.now.seen pick.app.0 }
        requires machine { pick.machine.0 < length table.now.cluster.machines }
        ensures placeable { result ≡ placeable_in (board_with self.now.seen table.now) table.now.entries pick.app.0 pick.unit.0 pick.machine.0 }
        ensures grantable { result ≡ true → IsGrantable table.now (spot_of pick) }
        ensures count { steps.new ≤ steps.old + 1 }
    {
        table.is_sound();
        self.wishes.are_sound();
        let Pick { app, unit, machine } = pick;
        if self.wishes.outstanding(table, app, unit) == 0 {
            return false;
        }
        let free = table.free(machine, steps);
        if !self.wishes.takes(table, &free, app, unit, machine) {
            return false;
        }
        self.wishes.allowed(table, app, unit)
    }
}

impl Asking for Placer {
    ghost use Rattle.place_pass.specs.Placers.{usable_in};

    ghost line = { λ p. p.seen.line };

    ghost usable = { λ p. usable_in p.seen };

    fn waiting_len(&self) -> usize {
        self.line.len()
    }

    fn waiting_at(&self, index: usize) -> (AppNo, UnitNo) {
        self.line.at(index)
    }

    fn may_use(&self, app: AppNo, unit: UnitNo, machine: MachineNo) -> bool {
        self.wishes.may_use(app, unit, machine)
    }
}
