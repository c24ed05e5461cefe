//! The tree.

ghost use Rattle.std.specs.Prelude.{◌≡◌, ℕ, ◌<◌, ◌≤◌, Some, length, map, false, IfOk, OnOk, OnErr, IsTrue};
ghost use Rattle.std.proofs.Common.{get_or};
ghost use Rattle.fuxi_terms.specs.Cluster.{is_valid_cluster};
ghost use Rattle.locality_tree.specs.Trees.{unit_at, is_admitted, with_stand, with_job, started, refreshed, rack_place, racks_of, MayWait, HasPath};
ghost use Rattle.locality_tree.specs.Paths.{Leads};

use crate::layout::Layout;
use crate::path::Path;
use cluster_desc::Cluster;
use fuxi_terms::OutOfMemory;
use fuxi_terms::limits::{MOST_RACKS, MOST_UNITS};
use schedule_unit::{Job, MachineNo, RackNo};
use std::alloc::Global;
use std::marker::Model;
use wait_queue::{Entry, law};

/// The units that wait, and the queues that they stand in. Contracts see each machine's rack, and of each
/// unit the entry with which it waits and in which of the queues it stands.
pub struct Tree {
    /// By machine.
    racks: Vec<u32>,
    layout: Layout,
}

// Written out, so that who lets one go checks this call and not all of its parts.
impl Drop for Tree {
    fn drop(self) {
        let Tree { racks, layout } = self;
    }
}

impl Model for Tree {
    ghost use Rattle.locality_tree.specs.Trees.{TreeRecord};
    ghost use Rattle.locality_tree.specs.Layouts.{tree_record, IsTree};

    ghost Value = { TreeRecord };

    ghost view = { λ t. tree_record t.racks.items t.layout };

    ghost invariant = { λ t. IsTree t.racks.items t.layout };
}

/// The rack of each machine.
fn racks_of(alloc: Global, cluster: &Cluster) -> Result<Vec<u32>, OutOfMemory>
    ensures racks { IfOk result (λ racks. racks.items ≡ racks_of cluster.now) }
    ensures valid { IsTrue (is_valid_cluster cluster.now) }
{
    let mut racks = Vec::new(alloc);
    for number in 0..cluster.machines() {
        racks.push(cluster.machine(MachineNo(number)).rack.0)?;
    }
    Ok(racks)
}

impl Tree {
    /// The tree of a cluster, with no job. Where memory is refused there is no tree.
    pub fn start(alloc: Global, cluster: &Cluster) -> Result<Tree, OutOfMemory>
        ensures { IfOk result (λ tree. tree ≡ started cluster.now) }
    {
        let racks = racks_of(alloc, cluster)?;
        let places = racks.len() + MOST_RACKS as usize + 1;
        Ok(Tree {
            racks,
            layout: Layout::start(alloc, places)?,
        })
    }

    /// Admits a job that was not admitted, and reserves all the nodes that its units can need: for each unit
    /// one for each machine, one for each of 64 racks and one for the cluster. The tree is as before after
    /// the refusal.
    pub fn admit(&mut self, alloc: Global, job: &Job) -> Result<(), OutOfMemory>
        requires { (u : ℕ) → u < 8 → is_admitted self.old job.now.number u ≡ false }
        ensures ok { OnOk result (self.new ≡ with_job self.old job.now) }
        ensures err { OnErr result (self.new ≡ self.old) }
    {
        law::standing_lists();
        let first = MOST_UNITS * job.app().0 as usize;
        self.layout.admit(alloc, first, job.units() as usize)
    }

    /// The unit waits, with this entry, and stands in the cluster's queue; or it stands in no queue. It takes
    /// no memory.
    pub fn refresh(&mut self, entry: &Entry, waits: bool)
        requires admitted { IsTrue (is_admitted self.old entry.now.app.0 entry.now.unit.0) }
        requires entry { MayWait self.old entry.now }
        ensures { self.new ≡ refreshed self.old entry.now waits }
    {
        if waits {
            let place = self.racks.len() + MOST_RACKS as usize;
            self.layout.turn_to(place, entry, true);
            return;
        }
        self.layout.leave_all(entry);
    }

    /// A unit that waits stands in the machine's queue exactly where something of it is unmet there. It takes
    /// no memory.
    pub fn mark_machine(&mut self, entry: &Entry, machine: MachineNo, unmet: bool)
        requires waits { (unit_at self.old entry.now.app.0 entry.now.unit.0).entry ≡ Some entry.now }
        requires machine { machine.0 < length self.old.racks }
        ensures { self.new ≡ with_stand self.old entry.now machine.0 unmet }
    {
        law::standing_lists();
        self.layout.turn_to(machine.0 as usize, entry, unmet);
    }

    /// A unit that waits stands in the rack's queue exactly where something of it is unmet there. It takes no
    /// memory.
    pub fn mark_rack(&mut self, entry: &Entry, rack: RackNo, unmet: bool)
        requires waits { (unit_at self.old entry.now.app.0 entry.now.unit.0).entry ≡ Some entry.now }
        requires rack { rack.0 < 64 }
        ensures { self.new ≡ with_stand self.old entry.now (rack_place self.old.racks rack.0) unmet }
    {
        law::standing_lists();
        let place = self.racks.len() + rack.0 as usize;
        self.layout.turn_to(place, entry, unmet);
    }

    /// Whether a unit that waits stands in the machine's queue. It takes no memory.
    pub fn stands_on(&self, entry: &Entry, machine: MachineNo) -> bool
        requires waits { (unit_at self.now entry.now.app.0 entry.now.unit.0).entry ≡ Some entry.now }
        requires machine { machine.0 < length self.now.racks }
        ensures { result ≡ get_or (unit_at self.now entry.now.app.0 entry.now.unit.0).stands machine.0 false }
    {
        law::standing_lists();
        self.layout.stands_at(machine.0 as usize, entry)
    }

    /// Whether a unit that waits stands in the rack's queue. It takes no memory.
    pub fn stands_within(&self, entry: &Entry, rack: RackNo) -> bool
        requires waits { (unit_at self.now entry.now.app.0 entry.now.unit.0).entry ≡ Some entry.now }
        requires rack { rack.0 < 64 }
        ensures { result ≡ get_or (unit_at self.now entry.now.app.0 entry.now.unit.0).stands (rack_place self.now.racks rack.0) false }
    {
        law::standing_lists();
        let place = self.racks.len() + rack.0 as usize;
        self.layout.stands_at(place, entry)
    }

    /// The units that wait, by their ranks on the machine. It takes no memory.
    pub fn path(&self, machine: MachineNo) -> Path<'_>
        requires { machine.0 < length self.now.racks }
        ensures { HasPath self.now machine.0 (Leads result) }
    {
        law::standing_lists();
        let place = machine.0 as usize;
        let rack = self.racks.len() + self.racks[place] as usize;
        Path::at(&self.layout, place, rack)
    }
}
