//! The table with its placer.

use crate::credits::{add_new, credited_key, number_from, of_last_kind};
use crate::settle_run::settle;
use cluster_desc::Cluster;
use fuxi_terms::limits::MOST_JOBS;
use fuxi_terms::tally_keys::{BACK, CREDITED};
use fuxi_terms::{Key, OutOfMemory};
use grant_table::{GrantTable, Pick, Steps};
use party_ledgers::{Demand, Grants, RowLedger};
use place_pass::Placer;
use preempt::{Learned, Plan, Victims, find_from};
use schedule_unit::{AppNo, Job, MachineNo, UnitNo};
use std::alloc::Global;
use std::marker::Model;
use std::sync::ledger::Ledger;

/// A table of grants and a placer that is level with it, and the spots at which grants changed since they were
/// last cleared.
///
/// Where memory is refused to a call that is lent an allotment, the placer is level with the table still, and
/// nothing else is said of it.
pub struct Allotment {
    table: GrantTable,
    placer: Placer,
    touched: Vec<Pick>,
    /// What a search for victims found out, as long as nothing changes.
    learned: Learned,
}

// Written out, so that who lets one go checks this call and not all of its parts.
impl Drop for Allotment {
    fn drop(self) {
        let Allotment {
            table,
            placer,
            touched,
            learned,
        } = self;
    }
}

impl Model for Allotment {
    ghost use Rattle.allotment.specs.Allotted.{AllotmentRecord, allotment_record, IsAllotment};

    ghost Value = { AllotmentRecord };

    ghost view = { λ x. allotment_record x.table x.placer x.touched.items };

    ghost invariant = { λ x. IsAllotment x.table x.placer x.learned };
}

impl Allotment {
    ghost use Rattle.std.specs.Prelude.{◌∷◌, ◌≡◌, ℕ, ◌+◌, ◌*◌, ◌<◌, ◌≤◌, ◌^◌, ◌&&◌, ◌||◌, not, nat_eq, nat_lt, cond, true, false, T, List, [], length, map, IfOk, IfSome, OnOk};
    ghost use Rattle.fuxi_terms.specs.Cluster.{ClusterRecord, has_at, has_machine};
    ghost use Rattle.fuxi_terms.specs.Jobs.{is_known, size_at, unit_count};
    ghost use Rattle.fuxi_terms.specs.Numbers.{has_number};
    ghost use Rattle.fuxi_terms.specs.Tables.{spot, held_on, total_at};
    ghost use Rattle.grant_table.specs.GrantTables.{as_known, with_admitted, without_count};
    ghost use Rattle.spec_roles.specs.HardState.{with_job};
    ghost use Rattle.spec_roles.specs.Masters.{Master, out_of};
    ghost use Rattle.spec_roles.specs.Placing.{line_up, settled};
    ghost use Rattle.place_pass.specs.Placers.{IsUpToDate, AsksNoMore, AsksOtherwiseAt, asks_seen, is_open, units_seen};
    ghost use Rattle.std.specs.Option.{option_map};
    ghost use Rattle.place_pass.specs.Best.{spot_of};
    ghost use Rattle.preempt.specs.Plans.{AreTakable, CanBeMade, plan_as};
    ghost use Rattle.spec_roles.specs.Preemption.{plan_of, preempted};
    ghost use Rattle.std.specs.Ordering.{nat_cmp};
    ghost use Rattle.std.specs.FinMap.Entries.{is_sorted, put, where_key};
    ghost use Rattle.fuxi_terms.specs.Keys.{key_cmp, spot_cmp};
    ghost use Rattle.fuxi_terms.specs.Counts.{AreCounts, count};
    ghost use Rattle.fuxi_terms.specs.TallyKeys.{credited_key, greatest_demand, is_back};
    ghost use Rattle.fuxi_terms.specs.declared.Key.{Key};
    ghost use Rattle.spec_net.specs.Ledgers.{tally_ledger};
    ghost use Rattle.spec_roles.specs.MasterSteps.{counted};
    ghost use Rattle.std.specs.List.{AllByRecursion};
    ghost use Rattle.fuxi_terms.specs.Vectors.{at_place};
    ghost use Rattle.fuxi_terms.specs.Rows.{row_total};
    ghost use Rattle.allotment.specs.SettlingRuns.{AreTouched};
    ghost use Rattle.allotment.specs.Allotted.{Adds, AddsRow, Allots, AllWait, Clears, CreditsBack, OnlyTakes, TakesVictims, Touches, newly_credited, rows_put};

    /// The allotment of a cluster, with no job, no grant and no open machine. It stands for a master that knows
    /// of no job and of no machine. Where memory is refused there is no allotment.
    pub fn start(alloc: Global, cluster: &Cluster) -> Result<Allotment, OutOfMemory>
        ensures stands { IfOk result (λ x. (M : Master) → M.jobs ≡ [] → M.table ≡ [] → M.demands ≡ [] → M.line ≡ [] → M.reported ≡ [] → Allots x cluster.now M) }
        ensures waits { IfOk result AllWait }
        ensures touched { IfOk result (λ x. x.touched ≡ []) }
        ensures turns { IfOk result (λ x. x.placer.seen.turns ≡ 0) }
    {
        let table = GrantTable::start(alloc, cluster)?;
        let placer = Placer::start(alloc, cluster)?;
        table.is_sound();
        Ok(Allotment {
            table,
            placer,
            touched: Vec::new(alloc),
            learned: Learned::nothing(),
        })
    }

    /// Admits a job that is not there yet, with nothing granted or asked. Where memory is refused the allotment is
    /// gone, since the table may have the job then and the placer not.
    pub fn admit(self, alloc: Global, job: &Job) -> Result<Allotment, OutOfMemory>
        requires { is_known (as_known self.table.jobs) job.now.number ≡ false }
        ensures stands { IfOk result (λ x. (c : ClusterRecord) (M : Master) → Allots self c M → Allots x c (record M { jobs = with_job job.now M.jobs })) }
        ensures waits { IfOk result (λ x. AllWait self → AllWait x) }
        ensures table { IfOk result (λ x. x.table ≡ record self.table { jobs = with_admitted job.now self.table.jobs }) }
        ensures touched { IfOk result (λ x. x.touched ≡ self.touched) }
        ensures turns { IfOk result (λ x. x.placer.seen.turns ≡ self.placer.seen.turns) }
        ensures idle { IfOk result (λ x. x.placer.idle ≡ self.placer.idle) }
    {
        place_pass::law::levels();
        grant_table::law::admitted_jobs();
        let Allotment {
            table,
            placer,
            touched,
            learned,
        } = self;
        let (mut table, mut placer) = (table, placer);
        table.admit(alloc, job)?;
        placer.admit(alloc, job)?;
        table.is_sound();
        Ok(Allotment {
            table,
            placer,
            touched,
            learned: Learned::nothing(),
        })
    }

    /// The machine takes grants from now on, or it takes none: it is reported and not banned, or it is not.
    pub fn open(&mut self, machine: MachineNo, usable: bool)
        requires { machine.0 < length self.old.table.cluster.machines }
        ensures stands { (c : ClusterRecord) (M : Master) (reported bans : List ℕ) → Allots self.old c M
            → ((m : ℕ) → (has_number m reported && not (has_number m bans)) ≡ cond (nat_eq machine.0 m) usable (has_number m M.reported && not (has_number m M.bans)))
            → Allots self.new c (record M { reported = reported; bans = bans }) }
        ensures waits { AllWait self.old → AllWait self.new }
        ensures table { self.new.table ≡ self.old.table }
        ensures touched { self.new.touched ≡ self.old.touched }
        ensures turns { self.new.placer.seen.turns ≡ self.old.placer.seen.turns }
        ensures idle { self.new.placer.idle ≡ (self.old.placer.idle && (not usable || is_open self.old.placer.seen machine.0)) }
    {
        place_pass::law::levels();
        self.learned = Learned::nothing();
        self.placer.open(machine, usable);
    }

    /// The demand of a job that is there is now this one, of which the entries count that name one of the job's units
    /// and a machine or rack of the cluster. Changes that are told name the keys at which it asks otherwise than before.
    pub fn asked(&mut self, app: AppNo, demand: &Demand, changes: Option<&[(Key, i64)]>)
        requires job { 0 < unit_count (as_known self.old.table.jobs) app.0 }
        requires told { IfSome changes (λ c. AsksOtherwiseAt c.now self.old.placer.seen app.0 demand.now.entries) }
        ensures stands { (c : ClusterRecord) (M : Master) (head : ℕ) → Allots self.old c M
            → Allots self.new c (record M { demands = put nat_cmp app.0 (counted c M.jobs app.0 (tally_ledger head demand.now.entries)) M.demands }) }
        ensures table { self.new.table ≡ self.old.table }
        ensures touched { self.new.touched ≡ self.old.touched }
        ensures turns { self.new.placer.seen.turns ≡ self.old.placer.seen.turns }
        ensures idle { AsksNoMore (asks_seen self.old.placer.seen) (asks_seen self.new.placer.seen) app.0 → self.new.placer.idle ≡ self.old.placer.idle }
    {
        place_pass::law::levels();
        self.learned = Learned::nothing();
        match changes {
            Some(changes) => self.placer.asked_changes(&self.table, app, demand, changes),
            None => self.placer.asked(&self.table, app, demand),
        }
    }

    /// So many grants fewer. Where the pairs of the line have something out the line stays as it is, and where the
    /// number is 0 everything does.
    pub fn take(
        &mut self,
        app: AppNo,
        unit: UnitNo,
        machine: MachineNo,
        count: u32,
    ) -> Result<(), OutOfMemory>
        requires waits { AllWait self.old }
        requires unit { unit.0 < unit_count (as_known self.old.table.jobs) app.0 }
        requires machine { machine.0 < length self.old.table.cluster.machines }
        requires held { count ≤ held_on self.old.table.entries app.0 unit.0 machine.0 }
        ensures stands { OnOk result ((c : ClusterRecord) (M : Master) → Allots self.old c M → Allots self.new c (record M { table = without_count M.table (spot app.0 unit.0 machine.0) count })) }
        ensures waits { OnOk result (AllWait self.new) }
        ensures touches { OnOk result (Touches self.old self.new) }
        ensures table { OnOk result (self.new.table ≡ record self.old.table { entries = without_count self.old.table.entries (spot app.0 unit.0 machine.0) count }) }
        ensures takes { OnOk result (OnlyTakes self.old self.new) }
    {
        self.table.is_sound();
        if count == 0 {
            return Ok(());
        }
        place_pass::law::levels();
        grant_table::law::set_numbers();
        self.touched.push(Pick { app, unit, machine })?;
        self.learned = Learned::nothing();
        self.table.take(app, unit, machine, count);
        self.placer.changed(&self.table, app, unit, machine);
        self.table.is_sound();
        Ok(())
    }

    // All grants of a unit on a machine are gone.
    fn clear(&mut self, app: AppNo, unit: UnitNo, machine: MachineNo) -> Result<(), OutOfMemory>
        requires waits { AllWait self.old }
        requires unit { unit.0 < unit_count (as_known self.old.table.jobs) app.0 }
        requires machine { machine.0 < length self.old.table.cluster.machines }
        ensures { OnOk result (Clears (λ s. nat_eq s.job app.0 && (nat_eq s.unit unit.0 && nat_eq s.machine machine.0)) self.old self.new) }
    {
        let held = self.table.held_on(app, unit, machine);
        if held == 0 {
            return Ok(());
        }
        self.take(app, unit, machine, held)?;
        Ok(())
    }

    // How many numbers the jobs of the table can have: one more than the last has, which has the greatest.
    fn numbers(&self) -> u32
        ensures { (a : ℕ) → 0 < unit_count (as_known self.now.table.jobs) a → a < result }
    {
        self.table.is_sound();
        match self.table.jobs().checked_sub(1) {
            Some(last) => self.table.job(last).app().0 + 1,
            None => 0,
        }
    }

    // All grants of a job on a machine are gone.
    fn clear_units(&mut self, app: AppNo, machine: MachineNo) -> Result<(), OutOfMemory>
        requires waits { AllWait self.old }
        requires machine { machine.0 < length self.old.table.cluster.machines }
        ensures { OnOk result (Clears (λ s. nat_eq s.job app.0 && (nat_lt s.unit (unit_count (as_known self.old.table.jobs) app.0) && nat_eq s.machine machine.0)) self.old self.new) }
    {
        let units = self.table.units(app);
        for number in 0..units.min(255) as u8 {
            self.clear(app, UnitNo(number), machine)?;
        }
        Ok(())
    }

    // Whether the job has the unit that a key names, and the cluster the machine.
    fn is_there(&self, app: AppNo, key: &Key) -> bool
        ensures { result ≡ (nat_lt key.now.unit (unit_count (as_known self.now.table.jobs) app.0) && has_machine self.now.table.cluster key.now.number) }
    {
        let machines = self.table.cluster().machines();
        (key.unit as usize) < self.table.units(app) && key.number < machines
    }

    // Of what one entry of a demand gives back and is above what is credited, the table loses what it has. Whether there is such,
    // of a unit and a machine that are there, is told.
    fn credit_one(
        &mut self,
        app: AppNo,
        key: Key,
        back: u64,
        credited: u64,
    ) -> Result<bool, OutOfMemory>
        requires waits { AllWait self.old }
        requires back { is_back key ≡ true }
        ensures credits { OnOk result ((given : List (Key × ℕ)) → credited ≡ count key_cmp given (credited_key key.unit key.number) → CreditsBack app.0 ((key, back) ∷ []) given self.old self.new) }
        ensures takes { OnOk result (OnlyTakes self.old self.new) }
        ensures new { IfOk result (λ new. new ≡ (nat_lt key.unit (unit_count (as_known self.old.table.jobs) app.0) && (has_machine self.old.table.cluster key.number && nat_lt credited back))) }
    {
        if !self.is_there(app, &key) {
            return Ok(false);
        }
        self.table.is_sound();
        if back <= credited {
            return Ok(false);
        }
        let unit = UnitNo(key.unit);
        let machine = MachineNo(key.number);
        let held = self.table.held_on(app, unit, machine);
        let open = back - credited;
        self.take(app, unit, machine, open.min(u64::from(held)) as u32)?;
        Ok(true)
    }

    // Of what these entries give back and is not among the credited ones, the table loses what it has. What is credited now is told.
    fn credit_run(
        &mut self,
        alloc: Global,
        app: AppNo,
        backs: &[(Key, u64)],
        credited: &[(Key, u64)],
    ) -> Result<Vec<(Key, u64)>, OutOfMemory>
        requires waits { AllWait self.old }
        requires backs { AllByRecursion (λ e. is_back e.0 ≡ true) backs.now }
        requires rise { T (is_sorted key_cmp backs.now) }
        requires sorted { T (is_sorted key_cmp credited.now) }
        ensures credits { OnOk result (CreditsBack app.0 backs.now credited.now self.old self.new) }
        ensures takes { OnOk result (OnlyTakes self.old self.new) }
        ensures numbers { IfOk result (λ numbers. numbers.items ≡ newly_credited self.old.table.cluster (unit_count (as_known self.old.table.jobs) app.0) credited.now backs.now) }
    {
        let mut numbers = Vec::new(alloc);
        let mut place = 0;
        for index in 0..backs.len() {
            let (key, back) = backs[index];
            let sought = credited_key(&key);
            let (before, next) = number_from(credited, place, &sought);
            place = next;
            let new = self.credit_one(app, key, back, before)?;
            add_new(&mut numbers, new, sought, back)?;
        }
        Ok(numbers)
    }

    /// Of what a demand of a job gives back and is not yet credited, the table loses what it has. The grants that the job
    /// was shown say what is credited. Entries count that name one of the job's units and a machine of the cluster. What is
    /// credited now is handed back, by keys that rise.
    pub fn credit(
        &mut self,
        alloc: Global,
        app: AppNo,
        demand: &Demand,
        given: &Grants,
    ) -> Result<Vec<(Key, u64)>, OutOfMemory>
        requires { AllWait self.old }
        ensures credits { OnOk result (CreditsBack app.0 demand.now.entries given.now.entries self.old self.new) }
        ensures takes { OnOk result (OnlyTakes self.old self.new) }
        ensures numbers { IfOk result (λ numbers. numbers.items ≡ newly_credited self.old.table.cluster (unit_count (as_known self.old.table.jobs) app.0) given.now.entries demand.now.entries) }
        ensures counts { IfOk result (λ numbers. AreCounts key_cmp greatest_demand demand.now.entries) }
    {
        let counts = demand.entries();
        let backs = of_last_kind(counts, BACK);
        let shown = given.entries();
        let credited = of_last_kind(shown, CREDITED);
        let numbers = self.credit_run(alloc, app, backs, credited)?;
        Ok(numbers)
    }

    /// All grants on a machine are gone. Where the pairs of the line have something out the line stays as it is.
    pub fn clear_machine(&mut self, machine: MachineNo) -> Result<(), OutOfMemory>
        requires waits { AllWait self.old }
        requires machine { machine.0 < length self.old.table.cluster.machines }
        ensures stands { OnOk result ((c : ClusterRecord) (M : Master) → Allots self.old c M → Allots self.new c (record M { table = where_key spot_cmp (λ s. not (nat_eq s.machine machine.0)) M.table })) }
        ensures waits { OnOk result (AllWait self.new) }
        ensures touches { OnOk result (Touches self.old self.new) }
        ensures table { OnOk result (self.new.table ≡ record self.old.table { entries = where_key spot_cmp (λ s. not (nat_eq s.machine machine.0)) self.old.table.entries }) }
        ensures takes { OnOk result (OnlyTakes self.old self.new) }
    {
        self.table.is_sound();
        for number in 0..self.numbers() {
            self.clear_units(AppNo(number), machine)?;
        }
        self.table.is_sound();
        Ok(())
    }

    /// All grants of a job are gone. Where the pairs of the line have something out the line stays as it is.
    pub fn clear_job(&mut self, app: AppNo) -> Result<(), OutOfMemory>
        requires { AllWait self.old }
        ensures stands { OnOk result ((c : ClusterRecord) (M : Master) → Allots self.old c M → Allots self.new c (record M { table = where_key spot_cmp (λ s. not (nat_eq s.job app.0)) M.table })) }
        ensures waits { OnOk result (AllWait self.new) }
        ensures touches { OnOk result (Touches self.old self.new) }
        ensures table { OnOk result (self.new.table ≡ record self.old.table { entries = where_key spot_cmp (λ s. not (nat_eq s.job app.0)) self.old.table.entries }) }
        ensures takes { OnOk result (OnlyTakes self.old self.new) }
    {
        let machines = self.table.cluster().machines();
        for number in 0..machines {
            self.clear_units(app, MachineNo(number))?;
        }
        self.table.is_sound();
        Ok(())
    }

    /// Brings the line up to date: the pairs with nothing out leave it, and the others that have something out go
    /// behind it in the order of job and unit.
    pub fn line_up(&mut self)
        requires { self.old.placer.seen.turns < 2 ^ 63 }
        ensures stands { (c : ClusterRecord) (M : Master) → Allots self.old c M → Allots self.new c (line_up M) }
        ensures waits { AllWait self.new }
        ensures up { IsUpToDate self.new.placer.seen self.new.table }
        ensures table { self.new.table ≡ self.old.table }
        ensures touched { self.new.touched ≡ self.old.touched }
        ensures turns { self.new.placer.seen.turns ≤ self.old.placer.seen.turns + 2048 }
        ensures idle { self.new.placer.idle ≡ self.old.placer.idle }
    {
        place_pass::law::levels();
        self.learned = Learned::nothing();
        self.placer.line_up(&self.table);
    }

    /// Makes grants, always of the placeable pair of first rank, until no pair is placeable. The line is up to date.
    /// The placer is idle then. Where it was idle before nothing changes, and no step is counted.
    pub fn settle<L: Ledger>(&mut self, steps: &mut Steps<L>) -> Result<(), OutOfMemory>
        requires { IsUpToDate self.old.placer.seen self.old.table }
        ensures stands { OnOk result ((c : ClusterRecord) (M : Master) → Allots self.old c M → M.serving ≡ true → Allots self.new c (settled c M)) }
        ensures waits { OnOk result (AllWait self.new) }
        ensures up { OnOk result (IsUpToDate self.new.placer.seen self.new.table) }
        ensures table { OnOk result (self.new.table ≡ record self.old.table { entries = self.new.table.entries }) }
        ensures touches { OnOk result (Touches self.old self.new) }
        ensures settled { OnOk result (self.new.placer.idle ≡ true) }
        ensures idle { self.old.placer.idle ≡ true → steps.new ≡ steps.old }
        ensures same { OnOk result (self.old.placer.idle ≡ true → self.new ≡ self.old) }
    {
        self.learned = Learned::nothing();
        settle(&mut self.table, &mut self.placer, steps, &mut self.touched)?;
        Ok(())
    }

    /// The plan of the first pair that has victims, and `None` exactly where no pair has any. The line is up to date.
    /// Where memory is refused it answers neither. It changes nothing but what is known of who has victims.
    pub fn plan<L: Ledger>(
        &mut self,
        alloc: Global,
        steps: &mut Steps<L>,
    ) -> Result<Option<Plan>, OutOfMemory>
        requires { IsUpToDate self.old.placer.seen self.old.table }
        ensures same { self.new ≡ self.old }
        ensures plan { IfOk result (λ found. (c : ClusterRecord) (M : Master) → Allots self.old c M → option_map plan_as found ≡ plan_of c M) }
        ensures made { IfOk result (λ found. IfSome found (CanBeMade self.old.table)) }
        ensures few { IfOk result (λ found. IfSome found (λ plan. held_on self.old.table.entries plan.pick.app.0 plan.pick.unit.0 plan.pick.machine.0 < 100000)) }
    {
        place_pass::law::levels();
        preempt::law::lines();
        preempt::law::planning();
        let learned = &mut self.learned;
        let found = find_from(alloc, &self.table, &self.placer, learned, steps)?;
        let Some(plan) = found else {
            return Ok(None);
        };
        let pick = plan.pick;
        let _outstanding = self.placer.outstanding(&self.table, pick.app, pick.unit);
        Ok(Some(plan))
    }

    // The victims on a machine are taken, unit by unit.
    fn take_victims(&mut self, machine: MachineNo, victims: &Victims) -> Result<(), OutOfMemory>
        requires waits { AllWait self.old }
        requires machine { machine.0 < length self.old.table.cluster.machines }
        requires takable { AreTakable self.old.table machine.0 victims.now }
        ensures { OnOk result (TakesVictims machine.0 victims.now self.old self.new) }
    {
        preempt::law::taking();
        for index in 0..victims.len() {
            let victim = victims.at(index);
            self.take(victim.app, victim.unit, machine, victim.count)?;
        }
        Ok(())
    }

    // So many grants more. A unit with nothing out any more leaves the line.
    fn add(&mut self, pick: Pick, count: u32) -> Result<(), OutOfMemory>
        requires waits { AllWait self.old }
        requires unit { pick.unit.0 < unit_count (as_known self.old.table.jobs) pick.app.0 }
        requires machine { pick.machine.0 < length self.old.table.cluster.machines }
        requires few { held_on self.old.table.entries pick.app.0 pick.unit.0 pick.machine.0 + count ≤ 100000 }
        requires room { (i : ℕ) → total_at (as_known self.old.table.jobs) pick.machine.0 i self.old.table.entries + count * size_at (as_known self.old.table.jobs) pick.app.0 pick.unit.0 i ≤ has_at self.old.table.cluster pick.machine.0 i }
        ensures { OnOk result (Adds (spot_of pick) count self.old self.new) }
    {
        place_pass::law::levels();
        grant_table::law::set_numbers();
        self.touched.push(pick)?;
        self.learned = Learned::nothing();
        self.table.add(pick.app, pick.unit, pick.machine, count);
        self.placer
            .changed(&self.table, pick.app, pick.unit, pick.machine);
        self.table.is_sound();
        Ok(())
    }

    // The entries of a row are put into the table, one after the other. A unit with nothing out any more leaves the line.
    fn add_row(&mut self, machine: MachineNo, kept: &RowLedger) -> Result<(), OutOfMemory>
        requires waits { AllWait self.old }
        requires machine { machine.0 < length self.old.table.cluster.machines }
        requires none { (a u : ℕ) → held_on self.old.table.entries a u machine.0 ≡ 0 }
        requires units { AllByRecursion (λ e. (e.0.unit < unit_count (as_known self.old.table.jobs) e.0.job) × ((i : ℕ) → size_at (as_known self.old.table.jobs) e.0.job e.0.unit i ≡ at_place e.0.size i)) kept.now }
        requires fits { (i : ℕ) → at_place (row_total kept.now) i ≤ has_at self.old.table.cluster machine.0 i }
        ensures { OnOk result (AddsRow machine.0 kept.now self.old self.new) }
    {
        grant_table::law::set_numbers();
        self.table.is_sound();
        for index in 0..kept.len() {
            let entry = kept.at(index);
            let pick = Pick {
                app: entry.app,
                unit: entry.unit,
                machine,
            };
            self.add(pick, entry.count)?;
        }
        Ok(())
    }

    /// Grants that a machine reports, on a machine that has none yet, enter the table; then the line is brought up to date. The
    /// entries name units that are there, with their sizes, and fit what the machine has.
    pub fn adopt(&mut self, machine: MachineNo, kept: &RowLedger) -> Result<(), OutOfMemory>
        requires waits { AllWait self.old }
        requires machine { machine.0 < length self.old.table.cluster.machines }
        requires none { (a u : ℕ) → held_on self.old.table.entries a u machine.0 ≡ 0 }
        requires units { AllByRecursion (λ e. (e.0.unit < unit_count (as_known self.old.table.jobs) e.0.job) × ((i : ℕ) → size_at (as_known self.old.table.jobs) e.0.job e.0.unit i ≡ at_place e.0.size i)) kept.now }
        requires fits { (i : ℕ) → at_place (row_total kept.now) i ≤ has_at self.old.table.cluster machine.0 i }
        requires turns { self.old.placer.seen.turns < 2 ^ 63 }
        ensures stands { OnOk result ((c : ClusterRecord) (M : Master) → Allots self.old c M → Allots self.new c (line_up (record M { table = rows_put machine.0 kept.now M.table }))) }
        ensures waits { OnOk result (AllWait self.new) }
        ensures up { OnOk result (IsUpToDate self.new.placer.seen self.new.table) }
        ensures spots { OnOk result (AreTouched self.old.table.entries self.new.table.entries self.old.touched self.new.touched) }
        ensures table { OnOk result (self.new.table ≡ record self.old.table { entries = rows_put machine.0 kept.now self.old.table.entries }) }
        ensures turns { OnOk result (self.new.placer.seen.turns ≤ self.old.placer.seen.turns + 2048) }
    {
        crate::law::lines_alike();
        self.add_row(machine, kept)?;
        self.line_up();
        Ok(())
    }

    /// Carries a plan out: its victims are taken, and its grant is made; then the line is brought up to date. The plan can be
    /// carried out, and the unit that it serves has fewer than 100,000 grants on the machine.
    pub fn carry_out(&mut self, plan: &Plan) -> Result<(), OutOfMemory>
        requires waits { AllWait self.old }
        requires made { CanBeMade self.old.table plan.now }
        requires few { held_on self.old.table.entries plan.now.pick.app.0 plan.now.pick.unit.0 plan.now.pick.machine.0 < 100000 }
        requires turns { self.old.placer.seen.turns < 2 ^ 63 }
        ensures stands { OnOk result ((c : ClusterRecord) (M : Master) → Allots self.old c M → Allots self.new c (line_up (preempted M (plan_as plan.now)))) }
        ensures waits { OnOk result (AllWait self.new) }
        ensures up { OnOk result (IsUpToDate self.new.placer.seen self.new.table) }
        ensures spots { OnOk result (AreTouched self.old.table.entries self.new.table.entries self.old.touched self.new.touched) }
        ensures table { OnOk result (self.new.table ≡ record self.old.table { entries = self.new.table.entries }) }
        ensures turns { OnOk result (self.new.placer.seen.turns ≤ self.old.placer.seen.turns + 2048) }
    {
        crate::law::lines_alike();
        preempt::law::taking();
        self.table.is_sound();
        let pick = plan.pick;
        self.take_victims(pick.machine, &plan.victims)?;
        self.add(pick, 1)?;
        self.line_up();
        Ok(())
    }

    /// How many grants of an admitted unit are out: wanted and not held.
    pub fn outstanding(&self, app: AppNo, unit: UnitNo) -> u32
        requires { unit.0 < unit_count (as_known self.now.table.jobs) app.0 }
        ensures { result ≡ out_of (asks_seen self.now.placer.seen) self.now.table.entries app.0 unit.0 }
    {
        place_pass::law::levels();
        self.placer.outstanding(&self.table, app, unit)
    }

    /// The spots that changed since they were last cleared, in the order of the changes.
    pub fn touched(&self) -> &[Pick]
        ensures { map spot_of result.now ≡ self.now.touched }
    {
        &self.touched
    }

    /// No spot counts as changed any more.
    pub fn clear_touched(&mut self)
        ensures touched { self.new.touched ≡ [] }
        ensures table { self.new.table ≡ self.old.table }
        ensures placer { self.new.placer ≡ self.old.placer }
    {
        self.touched.clear();
    }

    /// The table.
    pub fn table(&self) -> &GrantTable
        ensures { result.now ≡ self.now.table }
    {
        &self.table
    }

    /// The placer. It has the table's cluster, and as many units of each job as the table.
    pub fn placer(&self) -> &Placer
        ensures seen { result.now.seen ≡ self.now.placer.seen }
        ensures idle { result.now.idle ≡ self.now.placer.idle }
        ensures cluster { result.now.seen.cluster ≡ self.now.table.cluster }
        ensures units { (a : ℕ) → units_seen result.now.seen a ≡ unit_count (as_known self.now.table.jobs) a }
    {
        place_pass::law::levels();
        &self.placer
    }
}
