//! Grants are made until no pair is placeable: the run that settles.

ghost use Rattle.std.specs.Prelude.{◌≡◌, ◌<◌, true, Some, length, map, OnOk};
ghost use Rattle.fuxi_terms.specs.Cluster.{ClusterRecord};
ghost use Rattle.spec_roles.specs.Masters.{Master, level_of};
ghost use Rattle.spec_roles.specs.Placing.{first_in, placeable_in, settled};
ghost use Rattle.grant_table.specs.GrantTables.{IsSound};
ghost use Rattle.place_pass.specs.Best.{spot_of};
ghost use Rattle.place_pass.specs.Placers.{AreLevel, IsLevelWith, IsUpToDate, IsGrantable, IsSetFrom, asks_seen, board_with, job_seen, told_of, units_seen};
ghost use Rattle.allotment.specs.PlacingReads.{IsPlacing};
ghost use Rattle.allotment.specs.SettlingRuns.{IsSettling, AreTouched, all_out};

use fuxi_terms::OutOfMemory;
use grant_table::{GrantTable, Pick, Steps};
use place_pass::Placer;
use std::sync::ledger::Ledger;

/// Makes grants, always of the placeable pair of first rank, until no pair is placeable. The line is up to date. The grants made are
/// added to `picks`. The placer is idle then. Where it was idle before there is none, and no step is counted.
///
/// Want of memory leaves some of the grants made.
pub fn settle<L: Ledger>(
    table: &mut GrantTable,
    placer: &mut Placer,
    steps: &mut Steps<L>,
    picks: &mut Vec<Pick>,
) -> Result<(), OutOfMemory>
    requires level { IsLevelWith placer.old table.old }
    requires sound { IsSound table.old }
    requires up { IsUpToDate placer.old.seen table.old }
    ensures level { IsLevelWith placer.new table.new }
    ensures sound { IsSound table.new }
    ensures up { IsUpToDate placer.new.seen table.new }
    ensures settles { OnOk result ((c : ClusterRecord) (M : Master) → IsPlacing table.old placer.old.seen c M → M.serving ≡ true → IsPlacing table.new placer.new.seen c (settled c M)) }
    ensures turns { placer.new.seen.turns ≡ placer.old.seen.turns }
    ensures table { table.new ≡ record table.old { entries = table.new.entries } }
    ensures touched { OnOk result (AreTouched table.old.entries table.new.entries (map spot_of picks.old.items) (map spot_of picks.new.items)) }
    ensures settled { OnOk result (placer.new.idle ≡ true) }
    ensures idle { placer.old.idle ≡ true → steps.new ≡ steps.old }
    ensures none { placer.old.idle ≡ true → picks.new.items ≡ picks.old.items }
    ensures same_table { placer.old.idle ≡ true → table.new ≡ table.old }
    ensures same_placer { placer.old.idle ≡ true → told_of placer.new ≡ told_of placer.old }
{
    spec_roles::law::settling();
    while let Some(pick) = placer.next(table, steps) {
        grant(table, placer, steps, pick);
        picks.push(pick)?;
    }
    Ok(())
}

// Whether the pair, which was the first at this level, may be placed again at the same one.
fn repeats<L: Ledger>(
    table: &GrantTable,
    placer: &Placer,
    steps: &mut Steps<L>,
    pick: Pick,
    level: u8,
) -> bool
    requires level { AreLevel placer.now.seen.cluster (job_seen placer.now.seen) table.now }
    requires unit { pick.unit.0 < units_seen placer.now.seen pick.app.0 }
    requires machine { pick.machine.0 < length table.now.cluster.machines }
    ensures placeable { result ≡ true → placeable_in (board_with placer.now.seen table.now) table.now.entries pick.app.0 pick.unit.0 pick.machine.0 ≡ true }
    ensures same { result ≡ true → level_of table.now.cluster (asks_seen placer.now.seen) table.now.entries pick.app.0 pick.unit.0 pick.machine.0 ≡ level }
    ensures grantable { result ≡ true → IsGrantable table.now (spot_of pick) }
    ensures sound { IsSound table.now }
{
    table.is_sound();
    if placer.level(table, pick) != level {
        return false;
    }
    placer.may_place(table, steps, pick)
}

// Makes grants of the placeable pair of first rank: one, and then more as long as it stays the first. The placer is told of all at once.
fn grant<L: Ledger>(table: &mut GrantTable, placer: &mut Placer, steps: &mut Steps<L>, pick: Pick)
    requires level { IsLevelWith placer.old table.old }
    requires sound { IsSound table.old }
    requires up { IsUpToDate placer.old.seen table.old }
    requires first { first_in (board_with placer.old.seen table.old) table.old.entries placer.old.seen.line ≡ Some (spot_of pick) }
    requires grantable { IsGrantable table.old (spot_of pick) }
    ensures level { IsLevelWith placer.new table.new }
    ensures sound { IsSound table.new }
    ensures up { IsUpToDate placer.new.seen table.new }
    ensures settles { (c : ClusterRecord) (M : Master) → IsSettling table.old placer.old.seen c M → IsSettling table.new placer.new.seen c M }
    ensures turns { placer.new.seen.turns ≡ placer.old.seen.turns }
    ensures fewer { all_out table.new placer.new.seen < all_out table.old placer.old.seen }
    ensures set { IsSetFrom table.old table.new (spot_of pick) }
{
    grant_table::law::set_numbers();
    place_pass::law::levels();
    place_pass::law::first_stays();
    let level = placer.level(table, pick);
    table.grant(pick.app, pick.unit, pick.machine);
    while repeats(table, placer, steps, pick, level) {
        table.grant(pick.app, pick.unit, pick.machine);
    }
    placer.changed(table, pick.app, pick.unit, pick.machine);
    table.is_sound();
}
