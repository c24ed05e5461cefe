//! Grants, by job.

ghost use Rattle.std.specs.Prelude.{◌≡◌, ◌<◌, ◌≤◌, ◌^◌, ◌++◌, [], ◌∷◌, true, nat_eq, ℕ, T, List, Some, None, length, map, slice_get, IfOk, OnOk};
ghost use Rattle.std.specs.Ordering.{nat_cmp};
ghost use Rattle.std.specs.List.Sorted.{IsNonDecreasingBy};
ghost use Rattle.std.specs.FinMap.Entries.{is_sorted};
ghost use Rattle.schedule_unit.specs.declared.party.MachineNo.{MachineNo as MachineSeen};
ghost use Rattle.std.specs.List.{AllByRecursion};
ghost use Rattle.fuxi_terms.specs.Counts.{count};
ghost use Rattle.fuxi_terms.specs.Keys.{key_cmp, spot_cmp};
ghost use Rattle.fuxi_terms.specs.TallyKeys.{reported_key, count_key, greatest_grant, credited_what};
ghost use Rattle.fuxi_terms.specs.NumbersSet.{AreNumbers};
ghost use Rattle.grant_table.specs.GrantTables.{TableRecord};
ghost use Rattle.ledger_updates.specs.AllShown.{App, spot_of, is_job, AreInOrder, GrantsAreBefore, ShowsGrants, ShowsAllGrants, HaveRoom, HaveJobs};
ghost use Rattle.ledger_updates.specs.OfNumbers.{of_number, turns, AreReached};
ghost use Rattle.ledger_updates.specs.TouchedNumbers.{has_place};
ghost use Rattle.ledger_updates.specs.OneJob.{counts_at, under_job, AreNumbersOf, AreStepChanges, machines_of, reported_now, reported_numbers, credited_to, numbers_of, named_job, numbers_in, JobIsBefore, SlotIsShown, IsSlotShown};

use crate::job_grants::show_grants;
use crate::law;
use crate::numbered::{run_of, turn};
use crate::spots::has_place;
use fuxi_terms::limits::MOST_MACHINES;
use fuxi_terms::tally_keys::{COUNT, REPORTED};
use fuxi_terms::{Key, OutOfMemory};
use grant_table::{GrantTable, Pick};
use party_ledgers::{Demand, Grants};
use peer_channel::Side;
use schedule_unit::{AppNo, MachineNo};
use std::alloc::{AllocError, Global};

/// What a step brings to applications beside the grants that changed.
pub struct StepChanges {
    /// The machine that is reported from now on.
    pub reported: Option<MachineNo>,
    /// The job that was admitted: nothing was shown to it yet, and its grants are appended in any case.
    pub admitted: Option<AppNo>,
    /// The machines that are reported, by numbers that rise, where a job was admitted.
    pub machines: Vec<MachineNo>,
    /// The job of whose application something came, and to which something may be credited.
    pub job: Option<AppNo>,
    /// What is credited to it, by keys that rise.
    pub credited: Vec<(Key, u64)>,
}

// Written out, so that who lets one go checks this call and not all of its parts.
impl Drop for StepChanges {
    fn drop(self) {
        let StepChanges {
            reported,
            admitted,
            machines,
            job,
            credited,
        } = self;
    }
}

/// Shows each application, by the number of its job, its grants: one change of them, where they are others or the job was admitted. The head is the
/// boot that is known of it; a new boot loses what was credited. The spots are those at which grants changed since, in order; each last
/// index is below 2^62. It costs the spots and a search for each job that they or the news name; where a machine is reported, a search for
/// each job of the table.
///
/// Want of memory leaves some of the applications shown.
pub fn show_all_grants(
    apps: &mut Vec<Option<Side<Grants, Demand>>>,
    alloc: Global,
    table: &GrantTable,
    spots: &[Pick],
    news: &StepChanges,
) -> Result<(), OutOfMemory>
    requires order { AreInOrder (map spot_of spots.now) }
    requires room { HaveRoom apps.old.items }
    requires admitted { HaveJobs table.now apps.old.items }
    requires machines { T (is_sorted {X = ℕ} nat_cmp (map (λ (m : MachineSeen). (m.0, 0)) news.now.machines.items)) }
    requires below { AllByRecursion (λ (m : MachineSeen). m.0 < 256) news.now.machines.items }
    requires credited { AreNumbers key_cmp greatest_grant news.now.credited.items }
    requires kinds { AllByRecursion (λ e. nat_eq e.0.what credited_what ≡ true) news.now.credited.items }
    ensures { OnOk result ((now : List ℕ) → GrantsAreBefore table.now (map spot_of spots.now) news.now now apps.old.items → ShowsAllGrants table.now news.now now apps.old.items apps.new.items) }
{
    table.is_sound();
    if is_quiet(spots, news) {
        return show_named(apps, alloc, news);
    }
    let counts = counts_at(alloc, table, spots)?;
    if news.reported.is_some() {
        return show_known(apps, alloc, table, &counts, news);
    }
    show_changed(apps, alloc, &counts, news)
}

// Shows the applications of all jobs of the table, from the first on, their grants: none but these has an application.
fn show_known(
    apps: &mut Vec<Option<Side<Grants, Demand>>>,
    alloc: Global,
    table: &GrantTable,
    counts: &[(usize, (Key, u64))],
    news: &StepChanges,
) -> Result<(), OutOfMemory>
    requires room { HaveRoom apps.old.items }
    requires order { IsNonDecreasingBy (λ e. e.0) counts.now }
    requires counts { (a : ℕ) → AreNumbersOf 2 (of_number a counts.now) }
    requires news { AreStepChanges news.now }
    ensures { OnOk result (AreReached (IsSlotShown counts.now news.now) (numbers_in table.now.jobs) apps.old.items apps.new.items) }
{
    table.is_sound();
    let jobs = table.jobs();
    let mut numbers = Vec::new(alloc);
    for index in 0..jobs {
        let app = table.job(index).app().0 as usize;
        if app >= apps.len() {
            continue;
        }
        show_slot(&mut apps[app], alloc, app, counts, news, &mut numbers)?;
    }
    Ok(())
}

// Shows the applications of the jobs with counts and of those of the news their grants: where no machine is reported, no other grants can
// have changed.
fn show_changed(
    apps: &mut Vec<Option<Side<Grants, Demand>>>,
    alloc: Global,
    counts: &[(usize, (Key, u64))],
    news: &StepChanges,
) -> Result<(), OutOfMemory>
    requires room { HaveRoom apps.old.items }
    requires order { IsNonDecreasingBy (λ e. e.0) counts.now }
    requires counts { (a : ℕ) → AreNumbersOf 2 (of_number a counts.now) }
    requires news { AreStepChanges news.now }
    ensures { OnOk result (AreReached (IsSlotShown counts.now news.now) (turns counts.now (named_job news.now.admitted ++ named_job news.now.job)) apps.old.items apps.new.items) }
{
    let Some(admitted) = news.admitted else {
        return match news.job {
            Some(job) => show_jobs(apps, alloc, counts, &[job.0 as usize], news),
            None => show_jobs(apps, alloc, counts, &[], news),
        };
    };
    match news.job {
        Some(job) => {
            let others = [admitted.0 as usize, job.0 as usize];
            show_jobs(apps, alloc, counts, &others, news)
        }
        None => show_jobs(apps, alloc, counts, &[admitted.0 as usize], news),
    }
}

// Shows the applications of the jobs with counts, and of these others, their grants. The numbers of one after another lie in one place.
fn show_jobs(
    apps: &mut Vec<Option<Side<Grants, Demand>>>,
    alloc: Global,
    counts: &[(usize, (Key, u64))],
    others: &[usize],
    news: &StepChanges,
) -> Result<(), OutOfMemory>
    requires room { HaveRoom apps.old.items }
    requires order { IsNonDecreasingBy (λ e. e.0) counts.now }
    requires counts { (a : ℕ) → AreNumbersOf 2 (of_number a counts.now) }
    requires news { AreStepChanges news.now }
    requires few { length others.now ≤ 2 }
    ensures { OnOk result (AreReached (IsSlotShown counts.now news.now) (turns counts.now others.now) apps.old.items apps.new.items) }
{
    let mut numbers = Vec::new(alloc);
    for index in 0..counts.len() + others.len() {
        let Some(app) = turn(counts, others, index) else {
            continue;
        };
        if app >= apps.len() {
            continue;
        }
        show_slot(&mut apps[app], alloc, app, counts, news, &mut numbers)?;
    }
    Ok(())
}

// Whether no grant changed, and all that the news bring is of one job: then nothing but its boot and what is credited to it can have changed.
fn is_quiet(spots: &[Pick], news: &StepChanges) -> bool
    ensures narrow { result ≡ true → (spots.now ≡ []) × ((news.now.reported ≡ None) × (news.now.admitted ≡ None)) }
{
    spots.is_empty() && news.reported.is_none() && news.admitted.is_none()
}

// Shows the application of the job of the news its grants, with the counts that it has.
fn show_named(
    apps: &mut Vec<Option<Side<Grants, Demand>>>,
    alloc: Global,
    news: &StepChanges,
) -> Result<(), OutOfMemory>
    requires room { HaveRoom apps.old.items }
    requires news { AreStepChanges news.now }
    ensures { OnOk result (AreReached (IsSlotShown [] news.now) (named_job news.now.job) apps.old.items apps.new.items) }
{
    match news.job {
        Some(job) => show_alone(apps, alloc, job.0 as usize, news),
        None => Ok(()),
    }
}

// Shows the application of one job its grants, with the counts that it has.
fn show_alone(
    apps: &mut Vec<Option<Side<Grants, Demand>>>,
    alloc: Global,
    app: usize,
    news: &StepChanges,
) -> Result<(), OutOfMemory>
    requires room { HaveRoom apps.old.items }
    requires news { AreStepChanges news.now }
    ensures { OnOk result (AreReached (IsSlotShown [] news.now) (app ∷ []) apps.old.items apps.new.items) }
{
    if app >= apps.len() {
        return Ok(());
    }
    let mut numbers = Vec::new(alloc);
    show_slot(&mut apps[app], alloc, app, &[], news, &mut numbers)
}

// Shows the application of a slot its grants, where there is one. The numbers lie in a place that is lent to one after another.
fn show_slot(
    slot: &mut Option<Side<Grants, Demand>>,
    alloc: Global,
    app: usize,
    counts: &[(usize, (Key, u64))],
    news: &StepChanges,
    numbers: &mut Vec<(Key, u64)>,
) -> Result<(), OutOfMemory>
    requires last { (d : App) → slot.old ≡ Some d → d.outgoing.last < 2 ^ 62 }
    requires rising { IsNonDecreasingBy (λ e. e.0) counts.now }
    requires counts { AreNumbersOf 2 (of_number app counts.now) }
    requires news { AreStepChanges news.now }
    ensures none { slot.old ≡ None → slot.new ≡ None }
    ensures some { OnOk result ((d : App) → slot.old ≡ Some d → SlotIsShown news.now app (of_number app counts.now) d slot.new) }
{
    match slot {
        Some(side) => show_one(side, alloc, app, counts, news, numbers),
        None => Ok(()),
    }
}

// Shows an application its grants, under the boot that is known of it.
fn show_one(
    side: &mut Side<Grants, Demand>,
    alloc: Global,
    app: usize,
    counts: &[(usize, (Key, u64))],
    news: &StepChanges,
    numbers: &mut Vec<(Key, u64)>,
) -> Result<(), OutOfMemory>
    requires last { side.old.outgoing.last < 2 ^ 62 }
    requires rising { IsNonDecreasingBy (λ e. e.0) counts.now }
    requires counts { AreNumbersOf 2 (of_number app counts.now) }
    requires news { AreStepChanges news.now }
    ensures { OnOk result ((t : TableRecord) (now : List ℕ) → JobIsBefore t news.now now app (of_number app counts.now) side.old → ShowsGrants t news.now now app side.old side.new) }
{
    let boot = side.peer();
    let _entries = side.sent().entries();
    law::grants_follow_tables();
    law::grants_have_numbers();
    law::numbers_are_set();
    set_numbers(numbers, news, app, counts)?;
    show_grants(side, alloc, boot, numbers, is_job(news.admitted, app))
}

// All numbers that are set in the grants of a job, in place of what was there.
fn set_numbers(
    numbers: &mut Vec<(Key, u64)>,
    news: &StepChanges,
    app: usize,
    counts: &[(usize, (Key, u64))],
) -> Result<(), OutOfMemory>
    requires { IsNonDecreasingBy (λ e. e.0) counts.now }
    ensures { OnOk result (numbers.new.items ≡ numbers_of news.now app (of_number app counts.now)) }
{
    numbers.clear();
    put_machines(numbers, news, app)?;
    put_counts(numbers, app, counts)?;
    put_credited(numbers, news, app)
}

// The machines that are set in the grants of a job.
fn put_machines(
    numbers: &mut Vec<(Key, u64)>,
    news: &StepChanges,
    app: usize,
) -> Result<(), OutOfMemory>
    ensures { OnOk result (numbers.new.items ≡ numbers.old.items ++ reported_numbers (machines_of news.now app)) }
{
    if is_job(news.admitted, app) {
        put_all(numbers, &news.machines)
    } else {
        put_reported(numbers, news.reported)
    }
}

// Each of these machines as reported.
fn put_all(numbers: &mut Vec<(Key, u64)>, machines: &[MachineNo]) -> Result<(), OutOfMemory>
    ensures { OnOk result (numbers.new.items ≡ numbers.old.items ++ reported_numbers (map (λ (m : MachineSeen). m.0) machines.now)) }
{
    for machine in machines {
        numbers.push(reported(*machine))?;
    }
    Ok(())
}

// The machine that is reported now, where it may be one.
fn put_reported(
    numbers: &mut Vec<(Key, u64)>,
    machine: Option<MachineNo>,
) -> Result<(), OutOfMemory>
    ensures { OnOk result (numbers.new.items ≡ numbers.old.items ++ reported_numbers (reported_now machine)) }
{
    match machine {
        Some(machine) if (machine.0 as usize) < MOST_MACHINES => {
            numbers.push(reported(machine))?;
            Ok(())
        }
        _ => Ok(()),
    }
}

// What the table has of a job at the spots.
fn put_counts(
    numbers: &mut Vec<(Key, u64)>,
    app: usize,
    counts: &[(usize, (Key, u64))],
) -> Result<(), OutOfMemory>
    requires { IsNonDecreasingBy (λ e. e.0) counts.now }
    ensures { OnOk result (numbers.new.items ≡ numbers.old.items ++ of_number app counts.now) }
{
    for count in run_of(counts, app) {
        numbers.push(count.1)?;
    }
    Ok(())
}

// What says that a machine is reported.
fn reported(machine: MachineNo) -> (Key, u64)
    ensures { result ≡ (reported_key machine.0, 1) }
{
    let key = Key {
        what: REPORTED,
        unit: 0,
        number: machine.0,
    };
    (key, 1)
}

// What is credited to a job.
fn put_credited(
    numbers: &mut Vec<(Key, u64)>,
    news: &StepChanges,
    app: usize,
) -> Result<(), OutOfMemory>
    ensures { OnOk result (numbers.new.items ≡ numbers.old.items ++ credited_to news.now app) }
{
    if !is_job(news.job, app) {
        return Ok(());
    }
    numbers.extend_from_slice(&news.credited)?;
    Ok(())
}

// Whether it is the job with this number.
fn is_job(job: Option<AppNo>, app: usize) -> bool
    ensures { result ≡ is_job job app }
{
    match job {
        Some(job) => job.0 as usize == app,
        None => false,
    }
}

// What the table has at the spots, each with its job. Spots of no admitted unit or of no machine are passed over.
fn counts_at(
    alloc: Global,
    table: &GrantTable,
    spots: &[Pick],
) -> Result<Vec<(usize, (Key, u64))>, AllocError>
    ensures { IfOk result (λ counts. counts.items ≡ map under_job (counts_at table.now (map spot_of spots.now))) }
{
    let mut counts = Vec::with_capacity(alloc, spots.len())?;
    for spot in spots {
        if has_place(table, spot) {
            counts.push((spot.app.0 as usize, count_at(table, spot)))?;
        }
    }
    Ok(counts)
}

// What the table has at a spot.
fn count_at(table: &GrantTable, spot: &Pick) -> (Key, u64)
    requires { has_place table.now (spot_of spot.now) ≡ true }
    ensures { result ≡ (count_key spot.now.unit.0 spot.now.machine.0, count spot_cmp table.now.entries (spot_of spot.now)) }
{
    let key = Key {
        what: COUNT,
        unit: spot.unit.0,
        number: spot.machine.0,
    };
    let count = table.held_on(spot.app, spot.unit, spot.machine);
    (key, count as u64)
}
