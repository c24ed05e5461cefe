//! What a master is told.

ghost use Rattle.std.specs.Prelude.{◌≡◌, ◌+◌, ◌<◌, ◌≤◌, ◌^◌, ℕ, true, false, length, map, filter, Some, None, IfOk, OnOk};
ghost use Rattle.fuxi_terms.specs.Jobs.{is_known};
ghost use Rattle.fuxi_terms.specs.Limits.{most_machines};
ghost use Rattle.spec_roles.specs.MasterSteps.{ended_in, banned_in};
ghost use Rattle.spec_roles.specs.MasterRoles.{MasterRole};
ghost use Rattle.fuxi_master.specs.Cores.{IsCore, StandsFor};
ghost use Rattle.fuxi_master.specs.Commands.{changed_by, admitting, with_slots, unbanned_in, beginning, IsClosed, IsOpened, IsPreempted, Preempts};
ghost use Rattle.fuxi_terms.specs.Lists.{below};
ghost use Rattle.fuxi_terms.specs.Numbers.{has_number};
ghost use Rattle.schedule_unit.specs.declared.party.MachineNo.{MachineNo as MachineSeen};
ghost use Rattle.allotment.specs.Allotted.{AllWait};
ghost use Rattle.place_pass.specs.Placers.{IsUpToDate};
ghost use Rattle.fuxi_master.specs.Heard.{Changes, AreStepChanges};
ghost use Rattle.fuxi_master.specs.Seen.{core_of};

use crate::state::{Core, news};
use allotment::{Allotment, law};
use failover::Machines;
use fuxi_terms::OutOfMemory;
use grant_table::Steps;
use ledger_law::Ledger as _;
use ledger_updates::StepChanges;
use party_ledgers::{Demand, Grants};
use peer_channel::Side;
use schedule_unit::{AppNo, Job, MachineNo};
use std::alloc::Global;
use std::marker::Brand;
use std::sync::ledger::{Blank, Ledger};

impl Core {
    // A job is known from now on.
    pub(crate) fn admit(self, alloc: Global, job: &Job) -> Result<(Core, StepChanges), OutOfMemory>
        requires core { IsCore (core_of self) }
        requires unknown { is_known self.known.jobs job.now.number ≡ false }
        ensures none { IfOk result (λ after. after.1.reported ≡ None) }
        ensures admitted { IfOk result (λ after. after.1.admitted ≡ Some (record { 0 = job.now.number })) }
        ensures changes { IfOk result (λ after. Changes after.1 (changed_by (admitting job.now)) (core_of self) (core_of after.0)) }
    {
        let Core {
            epoch,
            known,
            serving,
            reported,
            allotment,
            agents,
            apps,
        } = self;
        let (mut known, mut apps) = (known, apps);
        let app = job.app();
        let machines = allotment.table().cluster().machines();
        known.admit(alloc, job)?;
        let allotment = allotment.admit(alloc, job)?;
        make_slots(&mut apps, app)?;
        apps[app.0 as usize] = Some(Side::start(alloc, epoch)?);
        let news = StepChanges {
            reported: None,
            admitted: Some(app),
            machines: machines_in(alloc, &reported, machines)?,
            job: None,
            credited: Vec::new(alloc),
        };
        Ok((
            Core {
                epoch,
                known,
                serving,
                reported,
                allotment,
                agents,
                apps,
            },
            news,
        ))
    }

    // A job has ended: its grants are gone, and its demand counts as empty.
    pub(crate) fn end_job(&mut self, alloc: Global, app: AppNo) -> Result<StepChanges, OutOfMemory>
        requires core { IsCore (core_of self.old) }
        requires known { is_known self.old.known.jobs app.0 ≡ true }
        ensures news { IfOk result (AreStepChanges None None) }
        ensures changes { IfOk result (λ news. Changes news (changed_by (λ M. ended_in M app.0)) (core_of self.old) (core_of self.new)) }
    {
        law::ends_alike();
        self.allotment.table().is_sound();
        let _units = self.allotment.table().units(app);
        self.allotment.clear_job(app)?;
        self.allotment.asked(app, &Demand::empty(alloc), None);
        self.known.finish(app);
        Ok(news(alloc, None, None))
    }

    // A machine is banned: its grants are gone, and it takes no new ones.
    pub(crate) fn ban(
        &mut self,
        alloc: Global,
        machine: MachineNo,
    ) -> Result<StepChanges, OutOfMemory>
        requires core { IsCore (core_of self.old) }
        requires machine { machine.0 < most_machines }
        ensures news { IfOk result (AreStepChanges None None) }
        ensures changes { IfOk result (λ news. Changes news (changed_by (λ M. banned_in M machine.0)) (core_of self.old) (core_of self.new)) }
    {
        self.allotment.table().is_sound();
        close_machine(&mut self.allotment, machine)?;
        self.known.ban(machine);
        Ok(news(alloc, None, None))
    }

    // A machine is banned no more.
    pub(crate) fn unban(&mut self, alloc: Global, machine: MachineNo) -> StepChanges
        requires core { IsCore (core_of self.old) }
        requires machine { machine.0 < most_machines }
        ensures news { AreStepChanges None None result }
        ensures changes { Changes result (changed_by (λ M. unbanned_in M machine.0)) (core_of self.old) (core_of self.new) }
    {
        self.allotment.table().is_sound();
        open_machine(&mut self.allotment, machine, &self.reported);
        self.known.unban(machine);
        news(alloc, None, None)
    }

    // Makes room for a unit that waits. Whether there were victims; where there are none nothing has changed.
    pub(crate) fn preempt(&mut self, alloc: Global) -> Result<bool, OutOfMemory>
        requires core { IsCore (core_of self.old) }
        requires turns { self.old.allotment.placer.seen.turns < 2 ^ 63 }
        ensures { IfOk result (λ found. Preempts found (core_of self.old) (core_of self.new)) }
    {
        self.allotment.table().is_sound();
        let found = preempted::<Brand>(alloc, &mut self.allotment, Blank::new(1))?;
        Ok(found)
    }

    // It serves, though machines are not reported.
    pub(crate) fn begin(&mut self, alloc: Global) -> StepChanges
        requires core { IsCore (core_of self.old) }
        ensures news { AreStepChanges None None result }
        ensures changes { Changes result (changed_by beginning) (core_of self.old) (core_of self.new) }
    {
        self.allotment.table().is_sound();
        self.serving = true;
        news(alloc, None, None)
    }
}

// Makes a slot of each number up to the job's, where there are fewer. Those that are new are empty.
fn make_slots(apps: &mut Vec<Option<Side<Grants, Demand>>>, app: AppNo) -> Result<(), OutOfMemory>
    ensures { OnOk result (apps.new.items ≡ with_slots (app.0 + 1) apps.old.items) }
{
    let missing = (app.0 as usize + 1).saturating_sub(apps.len());
    for _ in 0..missing {
        apps.push(None)?;
    }
    Ok(())
}

// The machines that are reported.
fn machines_in(
    alloc: Global,
    reported: &Machines,
    machines: u32,
) -> Result<Vec<MachineNo>, OutOfMemory>
    requires { machines ≡ reported.now.size }
    ensures { IfOk result (λ found. map (λ (m : MachineSeen). m.0) found.items ≡ filter (λ m. has_number m reported.now.numbers) (below machines)) }
{
    let mut found = Vec::new(alloc);
    for number in 0..machines {
        let machine = MachineNo(number);
        if reported.has(machine) {
            found.push(machine)?;
        }
    }
    Ok(found)
}

// A machine has no grant and takes none.
fn close_machine(allotment: &mut Allotment, machine: MachineNo) -> Result<(), OutOfMemory>
    requires { AllWait allotment.old }
    ensures { OnOk result (IsClosed machine.0 allotment.old allotment.new) }
{
    let machines = allotment.table().cluster().machines();
    if machine.0 >= machines {
        return Ok(());
    }
    allotment.clear_machine(machine)?;
    allotment.open(machine, false);
    Ok(())
}

// A machine takes grants where it is reported.
fn open_machine(allotment: &mut Allotment, machine: MachineNo, reported: &Machines)
    ensures { IsOpened machine.0 reported.now.numbers allotment.old allotment.new }
{
    let machines = allotment.table().cluster().machines();
    if machine.0 >= machines {
        return;
    }
    allotment.open(machine, reported.has(machine));
}

// Makes room for a unit that waits, where there are victims. The line is brought up to date.
fn preempted<L: Ledger>(
    alloc: Global,
    allotment: &mut Allotment,
    blank: Blank,
) -> Result<bool, OutOfMemory>
    requires name { blank.name ≡ L.name }
    requires parts { blank.parts ≡ L.parts }
    requires some { 0 < blank.parts }
    requires waits { AllWait allotment.old }
    requires up { IsUpToDate allotment.old.placer.seen allotment.old.table }
    requires turns { allotment.old.placer.seen.turns < 2 ^ 63 }
    ensures { IfOk result (λ found. IsPreempted found allotment.old allotment.new) }
{
    let mut steps: Steps<L> = Steps::start(blank);
    let Some(plan) = allotment.plan(alloc, &mut steps)? else {
        return Ok(false);
    };
    allotment.carry_out(&plan)?;
    Ok(true)
}
