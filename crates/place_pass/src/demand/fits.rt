//! What a table has and allows for one unit: what it has out, what fits, what its group may have, and its level on a machine.

ghost use Rattle.std.specs.Prelude.{◌≡◌, ℕ, ◌*◌, ◌<◌, ◌&&◌, true, false, [], length};
ghost use Rattle.std.proofs.Common.{get_or};
ghost use Rattle.fuxi_terms.specs.Vectors.{at_place};
ghost use Rattle.fuxi_terms.specs.Cluster.{limit_at};
ghost use Rattle.spec_roles.specs.Masters.{out_of};
ghost use Rattle.spec_roles.specs.Placing.{accepts_in, has_room_in, is_allowed_in};
ghost use Rattle.place_pass.specs.Cells.{asks_in, job_at};
ghost use Rattle.place_pass.specs.Placers.{AreLevel, board_over};
ghost use Rattle.place_pass.specs.Candidates.{IsFree};

use super::wishes::Wishes;
use cluster_desc::{Cluster, Group};
use grant_table::GrantTable;
use quota_group::allows;
use res_vector::{Res, fits, zero};
use schedule_unit::{AppNo, GroupNo, MachineNo, UnitNo};

impl Wishes {
    ghost use Rattle.std.specs.Prelude.{◌≡◌, ℕ, ◌<◌, ◌&&◌, true, false, [], length};
    ghost use Rattle.std.proofs.Common.{get_or};
    ghost use Rattle.spec_roles.specs.Masters.{out_of, level_of};
    ghost use Rattle.spec_roles.specs.Placing.{is_allowed_in, accepts_in, has_room_in};
    ghost use Rattle.fuxi_terms.specs.Jobs.{unit_count, group_of, size_at};
    ghost use Rattle.grant_table.specs.GrantTables.{as_known};
    ghost use Rattle.place_pass.specs.Cells.{asks_in, job_at};
    ghost use Rattle.place_pass.specs.Placers.{AreLevel, board_over};
    ghost use Rattle.place_pass.specs.Bounds.{is_nearer_in};
    ghost use Rattle.place_pass.specs.Candidates.{IsFree};
    ghost use Rattle.fuxi_terms.specs.Tables.{spot};

    /// What a unit still wants.
    pub(crate) fn outstanding(&self, table: &GrantTable, app: AppNo, unit: UnitNo) -> u32
        requires here { unit.0 < length (get_or self.now.cells app.0 []) }
        requires there { unit.0 < unit_count (as_known table.now.jobs) app.0 }
        ensures { result ≡ out_of (asks_in self.now.cells) table.now.entries app.0 unit.0 }
    {
        let wish = self.wish(app, unit);
        wish.want.saturating_sub(table.held(app, unit))
    }

    /// The group of the unit, which is that of its job.
    pub(crate) fn group(&self, table: &GrantTable, app: AppNo, unit: UnitNo) -> GroupNo
        requires level { AreLevel self.now.cluster (job_at self.now.cells) table.now }
        requires unit { unit.0 < length (get_or self.now.cells app.0 []) }
        ensures group { result.0 ≡ group_of (as_known table.now.jobs) app.0 }
        ensures small { result.0 < 32 }
    {
        table.is_sound();
        self.wish(app, unit).group
    }

    /// Whether the limit of the unit's group allows one grant more of it.
    pub(crate) fn allowed(&self, table: &GrantTable, app: AppNo, unit: UnitNo) -> bool
        requires level { AreLevel self.now.cluster (job_at self.now.cells) table.now }
        requires unit { unit.0 < length (get_or self.now.cells app.0 []) }
        ensures { result ≡ is_allowed_in table.now.cluster (group_of (as_known table.now.jobs)) (size_at (as_known table.now.jobs)) table.now.entries app.0 unit.0 }
    {
        let wish = self.wish(app, unit);
        let group = group_or_none(table.cluster(), wish.group);
        allows(&group, &table.used_by(wish.group), &wish.size)
    }

    // Whether a machine of which this is all that is free has room for the unit.
    fn has_room(&self, table: &GrantTable, free: &Res, app: AppNo, unit: UnitNo) -> bool
        requires level { AreLevel self.now.cluster (job_at self.now.cells) table.now }
        requires unit { unit.0 < length (get_or self.now.cells app.0 []) }
        ensures { (m : ℕ) → IsFree table.now m free.now.q → result ≡ has_room_in table.now.cluster (board_over self.now.cells self.now.opened table.now).sizes table.now.entries app.0 unit.0 m }
    {
        table.is_sound();
        let wish = self.wish(app, unit);
        fits(&wish.size, free)
    }

    // Whether the machine takes the unit, the unit holds fewer there than its greatest number, and the machine has
    // room for it.
    pub(crate) fn takes(
        &self,
        table: &GrantTable,
        free: &Res,
        app: AppNo,
        unit: UnitNo,
        machine: MachineNo,
    ) -> bool
        requires level { AreLevel self.now.cluster (job_at self.now.cells) table.now }
        requires unit { unit.0 < length (get_or self.now.cells app.0 []) }
        requires machine { machine.0 < length table.now.cluster.machines }
        requires free { IsFree table.now machine.0 free.now.q }
        ensures { result ≡ (accepts_in (board_over self.now.cells self.now.opened table.now) table.now.entries app.0 unit.0 machine.0 && has_room_in table.now.cluster (board_over self.now.cells self.now.opened table.now).sizes table.now.entries app.0 unit.0 machine.0) }
    {
        // (first what most often says no)
        if !self.has_room(table, free, app, unit) {
            return false;
        }
        if self.avoids(app, unit, machine) {
            return false;
        }
        if table.held_on(app, unit, machine) >= self.wish(app, unit).most {
            return false;
        }
        self.is_open(machine)
    }

    // Whether so little is free that a machine of which this is all has room for no unit.
    pub(crate) fn is_full(&self, table: &GrantTable, free: &Res) -> bool
        requires level { AreLevel self.now.cluster (job_at self.now.cells) table.now }
        ensures { result ≡ true → (m a u : ℕ) → IsFree table.now m free.now.q → u < length (get_or self.now.cells a []) → has_room_in table.now.cluster (board_over self.now.cells self.now.opened table.now).sizes table.now.entries a u m ≡ false }
    {
        table.is_sound();
        self.are_sound();
        self.none_fits(free)
    }

    // The level of the unit on the machine.
    pub(crate) fn level(
        &self,
        table: &GrantTable,
        app: AppNo,
        unit: UnitNo,
        machine: MachineNo,
    ) -> u8
        requires level { AreLevel self.now.cluster (job_at self.now.cells) table.now }
        requires unit { unit.0 < length (get_or self.now.cells app.0 []) }
        requires machine { machine.0 < length table.now.cluster.machines }
        ensures { result ≡ level_of table.now.cluster (asks_in self.now.cells) table.now.entries app.0 unit.0 machine.0 }
    {
        if self.is_unmet_on(table, app, unit, machine) {
            0
        } else if self.is_near_rack(table, app, unit, machine) {
            1
        } else {
            2
        }
    }

    /// Whether the unit wants more in the rack of the machine than it has there.
    pub(crate) fn is_near_rack(
        &self,
        table: &GrantTable,
        app: AppNo,
        unit: UnitNo,
        machine: MachineNo,
    ) -> bool
        requires cluster { self.now.cluster ≡ table.now.cluster }
        requires here { unit.0 < length (get_or self.now.cells app.0 []) }
        requires there { unit.0 < unit_count (as_known table.now.jobs) app.0 }
        requires machine { machine.0 < length table.now.cluster.machines }
        ensures { result ≡ is_nearer_in (board_over self.now.cells self.now.opened table.now) table.now.entries (spot app.0 unit.0 machine.0) }
    {
        let rack = table.cluster().machine(machine).rack;
        self.is_unmet_in(table, app, unit, rack)
    }
}

// The group of this number. One that the cluster does not have has nothing and may have nothing.
fn group_or_none(cluster: &Cluster, number: GroupNo) -> Group
    ensures { (i : ℕ) → at_place result.limit.q i ≡ limit_at cluster.now number.0 i }
{
    if number.0 < cluster.groups() {
        *cluster.group(number)
    } else {
        Group {
            quota: zero(),
            limit: zero(),
        }
    }
}
