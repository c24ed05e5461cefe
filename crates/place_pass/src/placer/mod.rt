//! The placer: what it keeps, and what changes it.

mod answers;

use crate::demand::{Scope, UNIT_PLACES, Wishes, fresh_units, slot, tell_marks, tell_tree};
use crate::line::{Calm, Line, enter_line, join, leave, leave_unit, number_from, tell_spot};
use crate::marks::{Marks, forget_groups, limit_all, reset_one, tell};
use crate::search::first;
use cluster_desc::Cluster;
use fuxi_terms::{Key, OutOfMemory};
use grant_table::{GrantTable, Pick, Steps, law};
use locality_tree::Tree;
use party_ledgers::Demand;
use schedule_unit::{AppNo, Job, MachineNo, UnitNo};
use std::alloc::Global;
use std::marker::Model;
use std::sync::ledger::Ledger;

/// What placing knows beside a table of grants: the admitted units, what is asked of each, which machines are
/// open, and the line of those that wait. It is seen as what it was told (`seen`), and as idle where it has found
/// that nothing is placeable and was told of nothing since by which something may be. After `admit` no call takes
/// memory.
pub struct Placer {
    wishes: Wishes,
    line: Line,
    turns: u64,
    /// Nothing is placeable until more is told.
    idle: bool,
    /// By machine.
    marks: Marks,
    /// The turn of each pair of the line, 8 places for each job.
    turn_of: Vec<u64>,
    /// What each unit held when the last change of it was told, 8 places for each job.
    held: Vec<u32>,
    /// The pairs of the line, by the machines and racks where they ask for more than they have.
    tree: Tree,
    /// While the placer is idle: whether groups were forgotten where that can be, and the line lost no pair since.
    forgotten: bool,
    /// Of which jobs nothing was told since the line was brought up to date.
    calm: Calm,
}

// Written out, so that who lets one go checks this call and not all of its parts.
impl Drop for Placer {
    fn drop(self) {
        let Placer {
            wishes,
            line,
            turns,
            idle,
            marks,
            turn_of,
            held,
            tree,
            forgotten,
            calm,
        } = self;
    }
}

impl Model for Placer {
    ghost use Rattle.place_pass.specs.Placers.{PlacerRecord, placer_record, IsPlacer};

    ghost Value = { PlacerRecord };

    ghost view = { λ p. placer_record p.wishes p.line p.turns p.idle p.marks p.turn_of.items p.held.items p.tree p.forgotten p.calm };

    ghost use Rattle.std.specs.Prelude.{length};

    ghost invariant = { λ p. IsPlacer p.wishes p.line (length p.marks) p.turn_of.items (length p.held.items) p.tree };
}

impl Placer {
    ghost use Rattle.std.specs.Prelude.{◌≡◌, ℕ, ◌+◌, ◌<◌, ◌≤◌, ◌^◌, ◌&&◌, ◌||◌, true, false, not, nat_eq, cond, [], length, filter, replicate, Some, None, IfOk, IfSome, OnOk, OnErr};
    ghost use Rattle.std.specs.Option.{is_none, option_map};
    ghost use Rattle.std.proofs.Common.{get_or};
    ghost use Rattle.fuxi_terms.specs.declared.Key.{Key};
    ghost use Rattle.fuxi_terms.specs.Keys.{spot_cmp};
    ghost use Rattle.fuxi_terms.specs.Counts.{count};
    ghost use Rattle.fuxi_terms.specs.Jobs.{is_known, unit_count};
    ghost use Rattle.fuxi_terms.specs.Tables.{spot};
    ghost use Rattle.spec_roles.specs.Placing.{first_in, lined, has_pair};
    ghost use Rattle.grant_table.specs.GrantTables.{TableRecord, as_known, with_admitted};
    ghost use Rattle.place_pass.specs.Best.{spot_of};
    ghost use Rattle.place_pass.specs.SearchCounts.{IsLifted, IsTight, StaysTight, is_unsettled, unsettled_machines};
    ghost use Rattle.place_pass.specs.DemandScopes.{AsksWithin};
    ghost use Rattle.place_pass.specs.Placers.{AreAllowed, job_seen, asks_seen, asks_after, is_open, units_seen, IsLevelWith, IsUpToDate, IsSetFrom, IsGrantable, board_with, waiting_with, line_told, AsksNoMore, AsksOtherwiseAt};

    /// A placer of a cluster, with no job, and with no machine open. It is level with the empty table. Where memory
    /// is refused there is no placer.
    pub fn start(alloc: Global, cluster: &Cluster) -> Result<Placer, OutOfMemory>
        ensures seen { IfOk result (λ placer. placer.seen ≡ record { cluster = cluster.now; cells = replicate 256 []; opened = replicate (length cluster.now.machines) false; line = []; turns = 0 }) }
        ensures level { IfOk result (λ placer. IsLevelWith placer (record { cluster = cluster.now; jobs = []; entries = [] })) }
    {
        let wishes = Wishes::start(alloc, cluster)?;
        let marks = Marks::new(alloc, cluster.machines() as usize)?;
        let turn_of = Vec::from_elem(alloc, 0, UNIT_PLACES)?;
        let held = Vec::from_elem(alloc, 0, UNIT_PLACES)?;
        let tree = Tree::start(alloc, cluster)?;
        let calm = Calm::new(alloc)?;
        let line = Line::new(alloc)?;
        Ok(Placer {
            wishes,
            line,
            turns: 0,
            idle: false,
            marks,
            turn_of,
            held,
            tree,
            forgotten: false,
            calm,
        })
    }

    /// Admits a job, of which nothing is asked yet, and takes what memory its units can need. What the placer was
    /// told is as before after the refusal.
    pub fn admit(&mut self, alloc: Global, job: &Job) -> Result<(), OutOfMemory>
        requires new { job_seen self.old.seen job.now.number ≡ None }
        ensures jobs { OnOk result ((a : ℕ) → job_seen self.new.seen a ≡ cond (nat_eq job.now.number a) (Some job.now) (job_seen self.old.seen a)) }
        ensures asks { OnOk result ((a : ℕ) (k : Key) → asks_seen self.new.seen a k ≡ asks_seen self.old.seen a k) }
        ensures rest { OnOk result (self.new.seen ≡ record self.old.seen { cells = self.new.seen.cells }) }
        ensures level { OnOk result ((t : TableRecord) → IsLevelWith self.old t → IsLevelWith self.new (record t { jobs = with_admitted job.now t.jobs })) }
        ensures err { OnErr result (self.new.seen ≡ self.old.seen) }
        ensures idle { self.new.idle ≡ self.old.idle }
        ensures err_level { OnErr result ((t : TableRecord) → IsLevelWith self.old t → IsLevelWith self.new t) }
    {
        law::admitted_jobs();
        self.wishes.are_sound();
        let app = job.app();
        self.line.admit_units(app.0, job.units())?;
        let machines = self.wishes.cluster().machines();
        let fresh = fresh_units(alloc, job, machines)?;
        self.tree.admit(alloc, job)?;
        limit_all(&mut self.marks, self.turns);
        self.wishes.add_job(alloc, job, fresh);
        self.calm.stir(app);
        Ok(())
    }

    /// The demand of an admitted job is now this one. Its entries for a unit, machine or rack that is not there
    /// count as absent. An idle placer stays so where no want rises and each avoided machine is avoided still.
    /// Of a tight placer at most the machines that a unit no longer avoids become unsettled.
    pub fn asked(&mut self, table: &GrantTable, app: AppNo, demand: &Demand)
        requires cluster { self.old.seen.cluster ≡ table.now.cluster }
        requires here { 0 < units_seen self.old.seen app.0 }
        requires there { is_known (as_known table.now.jobs) app.0 ≡ true }
        ensures asks { (a : ℕ) (k : Key) → asks_seen self.new.seen a k ≡ asks_after self.old.seen app.0 demand.now.entries a k }
        ensures jobs { (a : ℕ) → job_seen self.new.seen a ≡ job_seen self.old.seen a }
        ensures rest { self.new.seen ≡ record self.old.seen { cells = self.new.seen.cells } }
        ensures level { IsLevelWith self.old table.now → IsLevelWith self.new table.now }
        ensures idle { AsksNoMore (asks_seen self.old.seen) (asks_seen self.new.seen) app.0 → self.new.idle ≡ self.old.idle }
        ensures tight { IsTight self.old → StaysTight self.old self.new (IsLifted (asks_seen self.old.seen) (asks_seen self.new.seen) app.0) }
    {
        let differing = self.wishes.differing(app, demand);
        self.hear(table, app, demand, &Scope::Units(differing));
    }

    /// As `asked`, where the demand asks otherwise than before only at keys that the changes name. No other key is
    /// looked up. The amounts of the changes are not read.
    pub fn asked_changes(
        &mut self,
        table: &GrantTable,
        app: AppNo,
        demand: &Demand,
        changes: &[(Key, i64)],
    )
        requires cluster { self.old.seen.cluster ≡ table.now.cluster }
        requires here { 0 < units_seen self.old.seen app.0 }
        requires there { is_known (as_known table.now.jobs) app.0 ≡ true }
        requires told { AsksOtherwiseAt changes.now self.old.seen app.0 demand.now.entries }
        ensures asks { (a : ℕ) (k : Key) → asks_seen self.new.seen a k ≡ asks_after self.old.seen app.0 demand.now.entries a k }
        ensures jobs { (a : ℕ) → job_seen self.new.seen a ≡ job_seen self.old.seen a }
        ensures rest { self.new.seen ≡ record self.old.seen { cells = self.new.seen.cells } }
        ensures level { IsLevelWith self.old table.now → IsLevelWith self.new table.now }
        ensures idle { AsksNoMore (asks_seen self.old.seen) (asks_seen self.new.seen) app.0 → self.new.idle ≡ self.old.idle }
        ensures tight { IsTight self.old → StaysTight self.old self.new (IsLifted (asks_seen self.old.seen) (asks_seen self.new.seen) app.0) }
    {
        let counts = demand.entries();
        self.hear(table, app, demand, &Scope::Keys(changes));
    }

    // The demand of an admitted job is now this one, which asks otherwise than before only within the scope.
    fn hear(&mut self, table: &GrantTable, app: AppNo, demand: &Demand, scope: &Scope)
        requires cluster { self.old.seen.cluster ≡ table.now.cluster }
        requires here { 0 < units_seen self.old.seen app.0 }
        requires there { is_known (as_known table.now.jobs) app.0 ≡ true }
        requires within { AsksWithin scope.now self.old.seen.cluster demand.now.entries (get_or self.old.seen.cells app.0 []) }
        ensures asks { (a : ℕ) (k : Key) → asks_seen self.new.seen a k ≡ asks_after self.old.seen app.0 demand.now.entries a k }
        ensures jobs { (a : ℕ) → job_seen self.new.seen a ≡ job_seen self.old.seen a }
        ensures rest { self.new.seen ≡ record self.old.seen { cells = self.new.seen.cells } }
        ensures level { IsLevelWith self.old table.now → IsLevelWith self.new table.now }
        ensures idle { AsksNoMore (asks_seen self.old.seen) (asks_seen self.new.seen) app.0 → self.new.idle ≡ self.old.idle }
        ensures tight { IsTight self.old → StaysTight self.old self.new (IsLifted (asks_seen self.old.seen) (asks_seen self.new.seen) app.0) }
    {
        let counts = demand.entries();
        self.wishes.are_sound();
        tell_marks(&mut self.marks, &self.wishes, app, demand, scope);
        let more = self.wishes.hear(app, demand, scope);
        self.calm.stir(app);
        self.idle &= !more;
        tell_tree(
            &mut self.tree,
            &self.line,
            &self.wishes,
            &self.turn_of,
            table,
            app,
            scope,
        );
    }

    /// Told after each grant or taking: the number of grants of the unit on the machine is now another one.
    /// A unit with nothing out any more leaves the line. The placer is idle no more. Of a tight placer at most this
    /// machine becomes unsettled.
    pub fn changed(&mut self, table: &GrantTable, app: AppNo, unit: UnitNo, machine: MachineNo)
        requires cluster { self.old.seen.cluster ≡ table.now.cluster }
        requires here { unit.0 < units_seen self.old.seen app.0 }
        requires there { unit.0 < unit_count (as_known table.now.jobs) app.0 }
        requires machine { machine.0 < length table.now.cluster.machines }
        ensures seen { self.new.seen ≡ record self.old.seen { line = line_told self.old.seen table.now app.0 unit.0 } }
        ensures level { (before : TableRecord) → IsLevelWith self.old before → IsSetFrom before table.now (spot app.0 unit.0 machine.0) → IsLevelWith self.new table.now }
        ensures up { (before : TableRecord) → IsUpToDate self.old.seen before → (is : IsSetFrom before table.now (spot app.0 unit.0 machine.0)) → count spot_cmp before.entries (spot app.0 unit.0 machine.0) ≤ is.number → IsUpToDate self.new.seen table.now }
        ensures idle { self.new.idle ≡ false }
        ensures tight { IsTight self.old → StaysTight self.old self.new (λ m. m ≡ machine.0) }
    {
        self.idle = false;
        self.wishes.are_sound();
        let place = slot(app, unit);
        self.calm.stir(app);
        tell(
            &mut self.marks,
            &self.wishes,
            table,
            app,
            unit,
            machine,
            self.held[place],
        );
        self.held[place] = table.held(app, unit);
        leave_unit(
            &mut self.line,
            &mut self.tree,
            &self.wishes,
            &self.turn_of,
            table,
            app,
            unit,
        );
        tell_spot(
            &mut self.tree,
            &self.line,
            &self.wishes,
            &self.turn_of,
            table,
            app,
            unit,
            machine,
        );
    }

    /// The machine is reported and not banned, or it is not. An idle placer stays so unless a closed machine is
    /// opened.
    pub fn open(&mut self, machine: MachineNo, usable: bool)
        requires { machine.0 < length self.old.seen.cluster.machines }
        ensures opened { (m : ℕ) → is_open self.new.seen m ≡ cond (nat_eq machine.0 m) usable (is_open self.old.seen m) }
        ensures rest { self.new.seen ≡ record self.old.seen { opened = self.new.seen.opened } }
        ensures level { (t : TableRecord) → IsLevelWith self.old t → IsLevelWith self.new t }
        ensures idle { self.new.idle ≡ (self.old.idle && (not usable || is_open self.old.seen machine.0)) }
    {
        self.wishes.are_sound();
        let opened = self.wishes.is_open(machine);
        self.wishes.open(machine, usable);
        let stays = !usable | opened;
        self.idle &= stays;
        if stays {
            return;
        }
        reset_one(&mut self.marks, machine);
    }

    /// Brings the line up to date: the pairs with nothing out leave it, and the others that have something out
    /// go behind it in the order of job and unit. Those are at most 2,048: 8 units of each of 256 jobs. Where there
    /// are none, no machine of a tight placer becomes unsettled.
    pub fn line_up(&mut self, table: &GrantTable)
        requires level { IsLevelWith self.old table.now }
        requires turns { self.old.seen.turns < 2 ^ 63 }
        ensures seen { self.new.seen ≡ record self.old.seen { line = lined self.old.seen.line (waiting_with self.old.seen table.now); turns = self.old.seen.turns + length (filter (λ p. not (has_pair p self.old.seen.line)) (waiting_with self.old.seen table.now)) } }
        ensures turns { self.new.seen.turns ≤ self.old.seen.turns + 2048 }
        ensures level { IsLevelWith self.new table.now }
        ensures up { IsUpToDate self.new.seen table.now }
        ensures idle { self.new.idle ≡ self.old.idle }
        ensures tight { self.new.seen.turns ≡ self.old.seen.turns → IsTight self.old → StaysTight self.old self.new (λ _. ⊥) }
    {
        law::admitted_jobs();
        table.is_sound();
        self.wishes.are_sound();
        let before = self.line.len();
        let begins = leave(
            &mut self.line,
            &mut self.tree,
            &self.wishes,
            &self.turn_of,
            &self.calm,
            table,
        );
        let stayed = self.line.len();
        join(&mut self.line, &self.wishes, &self.calm, table, begins);
        number_from(
            &mut self.turn_of,
            &self.line,
            &self.wishes,
            stayed,
            self.turns,
        );
        enter_line(
            &mut self.tree,
            &self.line,
            &self.wishes,
            &self.turn_of,
            table,
            stayed,
        );
        self.calm.calm_all();
        self.turns += (self.line.len() - stayed) as u64;
        self.forgotten &= stayed == before;
    }

    /// The placeable pair of first rank, taken as serving, and `None` exactly where none is placeable. The line
    /// is up to date. The table may make that grant. At most one step is counted for each machine that was unsettled.
    /// Where none is placeable the placer is idle and no machine is unsettled, and where the limit of its group then
    /// allows each pair of the line one grant more, the placer is tight. While it is idle it looks at no pair and
    /// counts no step.
    pub fn next<L: Ledger>(&mut self, table: &GrantTable, steps: &mut Steps<L>) -> Option<Pick>
        requires level { IsLevelWith self.old table.now }
        requires up { IsUpToDate self.old.seen table.now }
        ensures first { option_map spot_of result ≡ first_in (board_with self.old.seen table.now) table.now.entries self.old.seen.line }
        ensures grantable { IfSome result (λ pick. IsGrantable table.now (spot_of pick)) }
        ensures seen { self.new.seen ≡ self.old.seen }
        ensures level { IsLevelWith self.new table.now }
        ensures idle { self.old.idle ≡ true → steps.new ≡ steps.old }
        ensures none { self.old.idle ≡ true → result ≡ None }
        ensures found { self.new.idle ≡ is_none result }
        ensures count { steps.new ≤ steps.old + unsettled_machines self.old }
        ensures rest { result ≡ None → AreAllowed table.now self.old.seen.line → IsTight self.new }
        ensures settled { result ≡ None → (m : ℕ) → is_unsettled self.new m ≡ false }
    {
        table.is_sound();
        self.wishes.are_sound();
        let rests = self.idle & self.forgotten;
        if rests {
            return None;
        }
        if self.idle {
            forget_groups(&mut self.marks, &self.wishes, &self.line, table);
            self.forgotten = true;
            return None;
        }
        let Some(pick) = first(
            &self.wishes,
            &self.line,
            &self.tree,
            &self.turn_of,
            self.turns,
            table,
            &mut self.marks,
            steps,
        ) else {
            forget_groups(&mut self.marks, &self.wishes, &self.line, table);
            self.idle = true;
            self.forgotten = true;
            return None;
        };
        Some(pick)
    }
}
