//! A job: its number, its group, and the units that it asks grants of.

ghost use Rattle.std.specs.Prelude.{◌≡◌, ◌≤◌, IfOk, IfErr, None, Some, length, map};
ghost use Rattle.schedule_unit.specs.JobFaults.{IsFault, first_unit_fault, unit_asked, unit_fault};
ghost use Rattle.schedule_unit.specs.Units.{unit_record};

use crate::asks::Ask;
use crate::party::{AppNo, GroupNo, UnitNo};
use fuxi_terms::OutOfMemory;
use fuxi_terms::limits::{GREATEST_COUNT, MOST_UNITS};
use res_vector::{Res, are_quantities, from_quantities, is_zero};
use std::alloc::Global;
use std::marker::Model;
use thiserror::Error;

/// One unit of a job: many grants of one size.
#[derive(Clone, Copy, Debug, PartialEq, Eq)]
pub struct Unit {
    /// 0 to 9, greater ones first.
    pub priority: u8,
    /// What one grant takes: at most 1,000,000,000,000 of each resource, and something of one.
    pub size: Res,
    /// The greatest number of its grants that a master makes on one machine: 1 to 100,000.
    pub most: u32,
}

/// Why what was asked is no job. The tests go in this order, those of a unit together, and the first that
/// fails is the answer.
#[derive(Clone, Copy, Debug, Drop, Error, PartialEq, Eq)]
pub enum JobFault {
    /// No unit is asked for.
    #[error("a job has a unit")]
    NoUnits,
    /// More than 8 units are asked for.
    #[error("a job has at most 8 units")]
    TooManyUnits,
    /// Not as many quantities as the cluster has resources.
    #[error("unit {number} has another number of quantities than the cluster has resources", number = .0.0)]
    Dimensions(UnitNo),
    /// A priority above 9.
    #[error("the priority of unit {number} is above 9", number = .0.0)]
    PriorityRange(UnitNo),
    /// A quantity above 1,000,000,000,000.
    #[error("a quantity of unit {number} is above 1000000000000", number = .0.0)]
    QuantityRange(UnitNo),
    /// Each quantity is 0.
    #[error("unit {number} has a size of zero", number = .0.0)]
    ZeroSize(UnitNo),
    /// Memory was refused.
    #[error("out of memory")]
    OutOfMemory,
    /// The greatest number of grants on one machine is 0 or above 100,000. It is the last test of a unit.
    #[error("the greatest number per machine of unit {number} is 0 or above 100000", number = .0.0)]
    MostRange(UnitNo),
}

/// A job, seen as its number, its group and the list of its units. It has 1 to 8 units within the limits,
/// and no size of zero.
#[derive(Debug, Drop)]
pub struct Job {
    app: AppNo,
    group: GroupNo,
    units: Vec<Unit>,
}

impl Model for Job {
    ghost use Rattle.std.specs.Prelude.{IsTrue};
    ghost use Rattle.fuxi_terms.specs.Cluster.{JobRecord, is_valid_job};

    ghost Value = { JobRecord };

    ghost use Rattle.schedule_unit.specs.Units.{job_record};

    ghost view = { λ j. job_record j.app j.group j.units.items };

    ghost invariant = { λ j. IsTrue (is_valid_job 8 (job_record j.app j.group j.units.items)) };
}

impl Job {
    ghost use Rattle.schedule_unit.specs.JobFaults.{IsMade};
    ghost use Rattle.std.specs.Prelude.{◌≡◌, ◌≤◌, ◌<◌, IsTrue, IfOk, Some, length, slice_get};
    ghost use Rattle.fuxi_terms.specs.Cluster.{is_valid_job, is_valid_unit};
    ghost use Rattle.schedule_unit.specs.Units.{unit_record};

    /// The job that is asked for, in a cluster of so many resources, or the first fault of what is asked.
    /// `OutOfMemory` may come in place of any answer.
    pub fn make(
        alloc: Global,
        app: AppNo,
        group: GroupNo,
        resources: u8,
        units: &[Ask],
    ) -> Result<Job, JobFault>
        requires app { app.0 < 256 }
        requires group { group.0 < 32 }
        requires at_least { 1 ≤ resources }
        requires at_most { resources ≤ 8 }
        ensures made { IsMade app.0 group.0 resources units.now result }
        ensures valid { IfOk result (λ job. IsTrue (is_valid_job 8 job)) }
    {
        if units.is_empty() {
            return Err(JobFault::NoUnits);
        }
        if units.len() > MOST_UNITS {
            return Err(JobFault::TooManyUnits);
        }
        let units = make_units(alloc, resources, units)?;
        Ok(Job { app, group, units })
    }

    /// Its number, below 256.
    pub fn app(&self) -> AppNo
        ensures number { result.0 ≡ self.now.number }
        ensures valid { IsTrue (is_valid_job 8 self.now) }
    {
        self.app
    }

    /// The number of its group, below 32.
    pub fn group(&self) -> GroupNo
        ensures number { result.0 ≡ self.now.group }
        ensures valid { IsTrue (is_valid_job 8 self.now) }
    {
        self.group
    }

    /// How many units it has, 1 to 8.
    pub fn units(&self) -> u8
        ensures number { result ≡ length self.now.units }
        ensures valid { IsTrue (is_valid_job 8 self.now) }
    {
        self.units.len() as u8
    }

    /// The unit of this number, which the job must have.
    pub fn unit(&self, unit: UnitNo) -> &Unit
        requires { unit.0 < length self.now.units }
        ensures found { slice_get self.now.units unit.0 ≡ Some (unit_record result.now) }
        ensures valid { IsTrue (is_valid_unit 8 (unit_record result.now)) }
    {
        &self.units[unit.0 as usize]
    }

    /// The same job once more. Where memory is refused there is no copy.
    pub fn copy(&self, alloc: Global) -> Result<Job, OutOfMemory>
        ensures { IfOk result (λ copy. copy ≡ self.now) }
    {
        Ok(Job {
            app: self.app,
            group: self.group,
            units: Vec::from_slice(alloc, &self.units)?,
        })
    }
}

fn make_units(alloc: Global, resources: u8, asks: &[Ask]) -> Result<Vec<Unit>, JobFault>
    requires resources { resources ≤ 8 }
    requires few { length asks.now ≤ 8 }
    ensures no_fault { IfOk result (λ units. first_unit_fault resources 0 asks.now ≡ None) }
    ensures units { IfOk result (λ units. map unit_record units.items ≡ map unit_asked asks.now) }
    ensures fault { IfErr result (IsFault (first_unit_fault resources 0 asks.now)) }
{
    let mut units = Vec::new(alloc);
    for ask in asks {
        let unit = make_unit(UnitNo(units.len() as u8), resources, ask)?;
        if units.push(unit).is_err() {
            return Err(JobFault::OutOfMemory);
        }
    }
    Ok(units)
}

fn make_unit(number: UnitNo, resources: u8, ask: &Ask) -> Result<Unit, JobFault>
    requires { resources ≤ 8 }
    ensures no_fault { IfOk result (λ unit. unit_fault resources number.0 ask.now ≡ None) }
    ensures unit { IfOk result (λ unit. unit_record unit ≡ unit_asked ask.now) }
    ensures fault { IfErr result (λ fault. unit_fault resources number.0 ask.now ≡ Some fault) }
{
    let quantities = ask.quantities.as_slice();
    if quantities.len() != resources as usize {
        return Err(JobFault::Dimensions(number));
    }
    if ask.priority > 9 {
        return Err(JobFault::PriorityRange(number));
    }
    if !are_quantities(quantities) {
        return Err(JobFault::QuantityRange(number));
    }
    if is_zero(quantities) {
        return Err(JobFault::ZeroSize(number));
    }
    if !(1..=GREATEST_COUNT).contains(&ask.most) {
        return Err(JobFault::MostRange(number));
    }
    Ok(Unit {
        priority: ask.priority as u8,
        size: from_quantities(quantities),
        most: ask.most as u32,
    })
}
