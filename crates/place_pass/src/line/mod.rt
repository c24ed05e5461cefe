//! The line of waiting pairs, in order.

ghost use Rattle.std.specs.Prelude.{OnOk};
ghost use Rattle.place_pass.specs.WaitingLines.{AreIn, IsGrown};

mod calm;
mod standing;
mod waiting;

use crate::demand::{UNIT_PLACES, slot};
pub(crate) use calm::Calm;
use fuxi_terms::OutOfMemory;
use fuxi_terms::limits::{MOST_JOBS, MOST_UNITS};
use indexmap::IndexSet;
use schedule_unit::{AppNo, UnitNo};
pub(crate) use standing::{enter_line, entry_for, tell_asked, tell_spot};
use std::alloc::Global;
use std::marker::Model;
pub(crate) use waiting::{join, leave, leave_unit, number_from, turn_of_unit};

/// The waiting pairs of a job and a unit, each once, in the order in which they began to wait.
#[derive(Drop)]
pub struct Line {
    /// Each admitted unit, once. The first `len` are the line, and the order of the others says nothing.
    units: IndexSet<(u32, u8)>,
    len: usize,
    /// Whether a unit waits, 8 places for each job.
    waits: Vec<bool>,
}

impl Model for Line {
    ghost use Rattle.place_pass.specs.WaitingLines.{LineRecord, line_record, IsLine};

    ghost Value = { LineRecord };

    ghost view = { λ l. line_record l.units.keys l.len };

    ghost invariant = { λ l. IsLine l.units.keys l.len l.waits.items };
}

impl Line {
    ghost use Rattle.std.specs.Prelude.{◌≡◌, ℕ, ◌+◌, ◌-◌, ◌<◌, ◌≤◌, ◌^◌, ◌++◌, ◌∷◌, ◌&&◌, [], true, false, not, nat_eq, length, filter, slice_get, swap, take, Some, IfOk, OnOk};
    ghost use Rattle.std.specs.List.{IsDistinct};
    ghost use Rattle.fuxi_terms.specs.Keys.{Pair};
    ghost use Rattle.fuxi_terms.specs.Limits.{most_jobs, most_units};
    ghost use Rattle.spec_roles.specs.Placing.{has_pair};
    ghost use Rattle.place_pass.specs.WaitingLines.{AreIn, AreSameUnits, LineRecord, same_pair};

    /// How many pairs wait.
    pub fn len(&self) -> usize
        ensures number { result ≡ length self.now.pairs }
        ensures small { result < 2 ^ 63 }
    {
        let _units = self.units.len();
        self.len
    }

    /// The pair at a place, counted from 0.
    pub fn at(&self, index: usize) -> (AppNo, UnitNo)
        requires { index < length self.now.pairs }
        ensures { slice_get self.now.pairs index ≡ Some (result.0.0, result.1.0) }
    {
        let (app, unit) = self.units.as_slice()[index];
        (AppNo(app), UnitNo(unit))
    }

    /// An empty line, in which no unit is admitted.
    pub(crate) fn new(alloc: Global) -> Result<Line, OutOfMemory>
        ensures { IfOk result (λ line. line.pairs ≡ []) }
    {
        let waits = Vec::from_elem(alloc, false, UNIT_PLACES)?;
        Ok(Line {
            units: IndexSet::new(alloc),
            len: 0,
            waits,
        })
    }

    /// Admits the first units of a job, so that each may wait later and takes no memory then. The pairs stay, and so does each
    /// unit that was admitted, whatever comes back.
    pub(crate) fn admit_units(&mut self, app: u32, count: u8) -> Result<(), OutOfMemory>
        requires app { app < most_jobs }
        requires count { count ≤ most_units }
        ensures pairs { self.new.pairs ≡ self.old.pairs }
        ensures kept { (p : Pair) → has_pair p self.old.units ≡ true → has_pair p self.new.units ≡ true }
        ensures ok { OnOk result (AreIn app count self.new.units) }
    {
        add_units(&mut self.units, app, count)
    }

    /// No pair is twice in the line.
    pub(crate) fn distinct(&self)
        ensures { IsDistinct same_pair self.now.pairs }
    {
        let _units = self.units.len();
    }

    /// The pairs are of jobs and units that there may be.
    pub(crate) fn inside(&self)
        ensures { (a u : ℕ) → has_pair (a, u) self.now.pairs ≡ true → (a < most_jobs) × (u < most_units) }
    {
        let _len = self.len;
    }

    /// Whether the pair waits.
    pub(crate) fn has(&self, app: u32, unit: u8) -> bool
        ensures { result ≡ has_pair (app, unit) self.now.pairs }
    {
        let waits = &self.waits;
        if app >= MOST_JOBS {
            return false;
        }
        if unit as usize >= MOST_UNITS {
            return false;
        }
        waits[slot(AppNo(app), UnitNo(unit))]
    }

    /// A new pair, of an admitted unit, goes last.
    pub(crate) fn push(&mut self, app: u32, unit: u8)
        requires new { has_pair (app, unit) self.old.pairs ≡ false }
        requires admitted { has_pair (app, unit) self.old.units ≡ true }
        ensures pairs { self.new.pairs ≡ self.old.pairs ++ (app, unit) ∷ [] }
        ensures units { AreSameUnits self.old.units self.new.units }
    {
        let _units = self.units.len();
        match self.units.get_index_of(&(app, unit)) {
            Some(place) => {
                self.units.swap_indices(place, self.len);
                self.len += 1;
                self.waits[slot(AppNo(app), UnitNo(unit))] = true;
            }
            None => unreachable!(),
        }
    }

    /// The pair at a place leaves. The others stay in their order.
    pub(crate) fn remove(&mut self, place: usize)
        requires { place < length self.old.pairs }
        ensures pairs { (p : Pair) → slice_get self.old.pairs place ≡ Some p → self.new.pairs ≡ filter (λ q. not (nat_eq q.0 p.0 && nat_eq q.1 p.1)) self.old.pairs }
        ensures units { AreSameUnits self.old.units self.new.units }
    {
        let (app, unit) = self.at(place);
        let _units = self.units.len();
        self.waits[slot(app, unit)] = false;
        let last = self.len - 1;
        self.units.move_index(place, last);
        self.len = last;
    }

    /// The pairs at two places change places.
    pub(crate) fn swap(&mut self, place: usize, other: usize)
        requires place { place < length self.old.pairs }
        requires other { other < length self.old.pairs }
        ensures pairs { self.new.pairs ≡ swap self.old.pairs place other }
        ensures units { AreSameUnits self.old.units self.new.units }
    {
        let _units = self.units.len();
        if place == other {
            return;
        }
        self.units.swap_indices(place, other);
    }

    /// The pairs from a place on leave.
    pub(crate) fn truncate(&mut self, len: usize)
        ensures pairs { self.new.pairs ≡ take len self.old.pairs }
        ensures units { AreSameUnits self.old.units self.new.units }
    {
        while self.len() > len {
            self.pop();
        }
    }

    // The last pair leaves.
    fn pop(&mut self)
        requires { 0 < length self.old.pairs }
        ensures pairs { self.new.pairs ≡ take (length self.old.pairs - 1) self.old.pairs }
        ensures units { AreSameUnits self.old.units self.new.units }
    {
        let _units = self.units.len();
        let last = self.len - 1;
        let (app, unit) = self.at(last);
        self.waits[slot(app, unit)] = false;
        self.len = last;
    }
}

// The first units of a job go behind those that are there, each once.
fn add_units(units: &mut IndexSet<(u32, u8)>, app: u32, count: u8) -> Result<(), OutOfMemory>
    ensures grown { IsGrown app count units.old.keys units.new.keys }
    ensures ok { OnOk result (AreIn app count units.new.keys) }
{
    units.reserve(count as usize)?;
    for number in 0..count {
        units.insert((app, number))?;
    }
    Ok(())
}
