//! Where a demand asks otherwise than before, and who is told of it there.

ghost use Rattle.std.specs.Prelude.{◌≡◌, ℕ, ◌<◌, true, false, nat_eq, [], length};
ghost use Rattle.std.proofs.Common.{get_or};
ghost use Rattle.fuxi_terms.specs.Jobs.{unit_count};
ghost use Rattle.grant_table.specs.GrantTables.{as_known};
ghost use Rattle.spec_roles.specs.Placing.{has_pair};
ghost use Rattle.place_pass.specs.Best.{AreAdmitted};
ghost use Rattle.place_pass.specs.Bounds.{mark_at};
ghost use Rattle.place_pass.specs.Cells.{unit_places};
ghost use Rattle.place_pass.specs.Candidates.{IsAsked};
ghost use Rattle.place_pass.specs.PlacerTrees.{HoldsLine, AllStand, StandsAs};
ghost use Rattle.place_pass.specs.DemandScopes.{AsksWithin, StandsWithin};

use super::changes::{mark_changes, stand_changes};
use super::wishes::Wishes;
use crate::line::{Line, tell_asked};
use crate::marks::{Marks, tell_demand};
use fuxi_terms::Key;
use grant_table::GrantTable;
use locality_tree::Tree;
use party_ledgers::Demand;
use schedule_unit::AppNo;

/// Where a demand asks otherwise than before.
#[derive(Clone, Copy)]
pub(crate) enum Scope<'a> {
    /// Of the units that are marked.
    Units([bool; 8]),
    /// At the keys that changes name.
    Keys(&'a [(Key, i64)]),
}

impl Wishes {
    ghost use Rattle.std.specs.Prelude.{◌≡◌, ℕ, ◌<◌, [], length, set};
    ghost use Rattle.std.proofs.Common.{get_or};
    ghost use Rattle.place_pass.specs.Cells.{taken_all, any_more};
    ghost use Rattle.place_pass.specs.DemandScopes.{AsksWithin};

    /// The demand of a job is now this one. True where one of its units wants more, or no longer avoids a machine.
    pub(crate) fn hear(&mut self, app: AppNo, demand: &Demand, scope: &Scope) -> bool
        requires here { 0 < length (get_or self.old.cells app.0 []) }
        requires within { AsksWithin scope.now self.old.cluster demand.now.entries (get_or self.old.cells app.0 []) }
        ensures cells { self.new ≡ record self.old { cells = set self.old.cells app.0 (taken_all self.old.cluster demand.now.entries 0 (get_or self.old.cells app.0 [])) } }
        ensures more { result ≡ any_more self.old.cluster demand.now.entries (get_or self.old.cells app.0 []) (length (get_or self.old.cells app.0 [])) }
    {
        match scope {
            Scope::Units(differing) => self.asked(app, demand, differing),
            Scope::Keys(changes) => self.asked_at(app, demand, changes),
        }
    }
}

/// Told of a demand before the wishes are: what is placeable may come earlier, and on a machine that a unit avoids no longer anything
/// may be placeable.
pub(crate) fn tell_marks(
    marks: &mut Marks,
    wishes: &Wishes,
    app: AppNo,
    demand: &Demand,
    scope: &Scope,
)
    requires long { length marks.old ≡ length wishes.now.cluster.machines }
    requires within { AsksWithin scope.now wishes.now.cluster demand.now.entries (get_or wishes.now.cells app.0 []) }
    ensures marks { (m : ℕ) → m < length marks.old → IsAsked demand.now.entries (get_or wishes.now.cells app.0 []) m (mark_at marks.old m) (mark_at marks.new m) }
    ensures long { length marks.new ≡ length marks.old }
{
    match scope {
        Scope::Units(differing) => tell_demand(marks, wishes, app, demand, differing),
        Scope::Keys(changes) => mark_changes(marks, wishes, app, demand, changes),
    }
}

/// Told that a job asks otherwise: its units of the line stand where they ask for more than they have.
pub(crate) fn tell_tree(
    tree: &mut Tree,
    line: &Line,
    wishes: &Wishes,
    turn_of: &Vec<u64>,
    table: &GrantTable,
    app: AppNo,
    scope: &Scope,
)
    requires cluster { wishes.now.cluster ≡ table.now.cluster }
    requires admitted { AreAdmitted wishes.now.cells line.now.pairs }
    requires places { length turn_of.now.items ≡ unit_places }
    requires holds { HoldsLine wishes.now.cluster wishes.now.cells line.now.pairs turn_of.now.items tree.old }
    ensures holds { HoldsLine wishes.now.cluster wishes.now.cells line.now.pairs turn_of.now.items tree.new }
    ensures stands { length (get_or wishes.now.cells app.0 []) ≡ unit_count (as_known table.now.jobs) app.0
        → ((a u : ℕ) → has_pair (a, u) line.now.pairs ≡ true → nat_eq a app.0 ≡ false → StandsAs wishes.now.cluster wishes.now.cells table.now.entries a u tree.old)
        → ((u : ℕ) → has_pair (app.0, u) line.now.pairs ≡ true → StandsWithin scope.now wishes.now.cluster wishes.now.cells table.now.entries app.0 u tree.old)
        → AllStand wishes.now.cluster wishes.now.cells table.now.entries line.now.pairs tree.new }
{
    match scope {
        Scope::Units(differing) => tell_asked(tree, line, wishes, turn_of, table, app, differing),
        Scope::Keys(changes) => stand_changes(tree, line, wishes, turn_of, table, app, changes),
    }
}
