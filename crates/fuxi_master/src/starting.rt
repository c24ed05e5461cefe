//! How a master starts.

ghost use Rattle.std.specs.Prelude.{ℕ, ◌≡◌, ◌<◌, [], true, length, IfOk};
ghost use Rattle.std.specs.List.{AllByRecursion};
ghost use Rattle.fuxi_terms.specs.Jobs.{is_known};
ghost use Rattle.spec_roles.specs.MasterRoles.{master_started};
ghost use Rattle.spec_roles.specs.HardState.{HardState};
ghost use Rattle.allotment.specs.Allotted.{AllWait};
ghost use Rattle.fuxi_master.specs.Cores.{IsCore, IsWithin, StandsFor};
ghost use Rattle.fuxi_master.specs.Seen.{core_of};
ghost use Rattle.fuxi_master.specs.MasterStarts.{IsDownStarted, IsAppStarted, AreAppsStarted, AreAdmitted};

use crate::state::Core;
use allotment::Allotment;
use cluster_desc::Cluster;
use failover::Machines;
use fuxi_terms::OutOfMemory;
use fuxi_terms::limits::MOST_JOBS;
use hard_state::Known;
use ledger_updates::show_grants;
use party_ledgers::{Demand, Grants, JoinLedger, RowLedger};
use peer_channel::Side;
use schedule_unit::AppNo;
use spec_roles::law;
use std::alloc::Global;

// The ends of the channels with the agents of so many machines.
fn agents_started(
    alloc: Global,
    epoch: u64,
    machines: u32,
) -> Result<Vec<Side<RowLedger, JoinLedger>>, OutOfMemory>
    ensures wide { IfOk result (λ sides. length sides.items ≡ machines) }
    ensures each { IfOk result (λ sides. AllByRecursion (IsDownStarted epoch) sides.items) }
{
    let mut sides = Vec::with_capacity(alloc, machines as usize)?;
    for _ in 0..machines {
        sides.push(Side::start(alloc, epoch)?)?;
    }
    Ok(sides)
}

// The end of the channel with an application, to which its grants are shown: there are none.
fn app_started(alloc: Global, epoch: u64) -> Result<Side<Grants, Demand>, OutOfMemory>
    ensures { IfOk result (IsAppStarted epoch) }
{
    let mut side = Side::start(alloc, epoch)?;
    show_grants(&mut side, alloc, 0, &[], true)?;
    Ok(side)
}

// One more than the greatest number of a known job: what is known stands below it.
fn numbers_known(known: &Known) -> u32
    ensures { (a : ℕ) → is_known known.now.jobs a ≡ true → a < result }
{
    let mut numbers = 0;
    for index in 0..known.jobs() {
        numbers = numbers.max(known.at(index).app().0 + 1);
    }
    numbers
}

// The ends of the channels with the applications of known jobs, by job number, for the numbers below a bound. There is room for a slot of
// each number that there can be.
fn apps_started(
    alloc: Global,
    epoch: u64,
    known: &Known,
    numbers: u32,
) -> Result<Vec<Option<Side<Grants, Demand>>>, OutOfMemory>
    ensures { IfOk result (λ slots. AreAppsStarted epoch known.now.jobs numbers slots.items) }
{
    let mut slots = Vec::with_capacity(alloc, MOST_JOBS as usize)?;
    for number in 0..numbers {
        if known.job(AppNo(number)).is_none() {
            slots.push(None)?;
            continue;
        }
        slots.push(Some(app_started(alloc, epoch)?))?;
    }
    Ok(slots)
}

// The known jobs of the numbers below a bound are admitted, in number order.
fn jobs_admitted(
    alloc: Global,
    allotment: Allotment,
    known: &Known,
    numbers: u32,
) -> Result<Allotment, OutOfMemory>
    requires waits { AllWait allotment }
    requires empty { allotment.table.jobs ≡ [] }
    ensures { IfOk result (AreAdmitted known.now.jobs numbers allotment) }
{
    let mut left = allotment;
    for number in 0..numbers {
        let Some(job) = known.job(AppNo(number)) else {
            continue;
        };
        left = left.admit(alloc, job)?;
    }
    Ok(left)
}

impl Core {
    // A master that starts with what is known: it knows no peer, no machine is reported, and the grants of each job are shown.
    pub(crate) fn start(
        alloc: Global,
        cluster: &Cluster,
        epoch: u64,
        known: Known,
    ) -> Result<Core, OutOfMemory>
        requires { 0 < epoch }
        ensures core { IfOk result (λ core. IsCore (core_of core)) }
        ensures within { IfOk result (λ core. IsWithin 1 (core_of core)) }
        ensures stands { IfOk result (λ core. (h : HardState) → h.jobs ≡ known.jobs → h.bans ≡ known.bans → StandsFor (core_of core) (master_started cluster.now h epoch)) }
    {
        law::step_ends();
        let numbers = numbers_known(&known);
        let allotment = Allotment::start(alloc, cluster)?;
        let allotment = jobs_admitted(alloc, allotment, &known, numbers)?;
        let agents = agents_started(alloc, epoch, cluster.machines())?;
        let apps = apps_started(alloc, epoch, &known, numbers)?;
        Ok(Core {
            epoch,
            known,
            serving: false,
            reported: Machines::none(cluster),
            allotment,
            agents,
            apps,
        })
    }
}
