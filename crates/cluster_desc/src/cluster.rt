//! A cluster, within its limits.

use fuxi_terms::OutOfMemory;
use res_vector::Res;
use schedule_unit::{GroupNo, MachineNo, RackNo};
use std::alloc::Global;
use std::marker::Model;

/// A machine.
#[derive(Clone, Copy, Debug, PartialEq, Eq)]
pub struct Machine {
    /// The rack that it stands in, 0 to 63.
    pub rack: RackNo,
    /// What it has of each resource, at most 1,000,000,000,000.
    pub has: Res,
}

/// A group of jobs that share a part of the cluster.
#[derive(Clone, Copy, Debug, PartialEq, Eq)]
pub struct Group {
    /// What it is promised of each resource, at most its limit.
    pub quota: Res,
    /// What it may use of each resource, at most 1,000,000,000,000.
    pub limit: Res,
}

/// A cluster, seen as the record of it: 1 to 8 resources, 1 to 256 machines and 1 to 32 groups, each vector
/// with as many quantities as there are resources, and no quota above its limit.
#[derive(Debug, Drop)]
pub struct Cluster {
    resources: u8,
    machines: Vec<Machine>,
    groups: Vec<Group>,
}

impl Model for Cluster {
    ghost use Rattle.fuxi_terms.specs.Cluster.{ClusterRecord};

    ghost Value = { ClusterRecord };

    ghost use Rattle.cluster_desc.specs.Records.{IsCluster, cluster_record};

    ghost view = { λ c. cluster_record c.resources c.machines.items c.groups.items };

    ghost invariant = { λ c. IsCluster c.resources c.machines.items c.groups.items };
}

impl Cluster {
    ghost use Rattle.std.specs.Prelude.{◌≡◌, ◌<◌, IsTrue, IfOk, Some, length, slice_get, option_map};
    ghost use Rattle.fuxi_terms.specs.Cluster.{has_rack, is_valid_cluster};
    ghost use Rattle.cluster_desc.specs.Records.{group_of, machine_of, IsCluster, cluster_record};

    /// Puts a cluster together whose parts were tested.
    pub(crate) fn from_parts(resources: u8, machines: Vec<Machine>, groups: Vec<Group>) -> Cluster
        requires { IsCluster resources machines.items groups.items }
        ensures { result ≡ cluster_record resources machines.items groups.items }
    {
        Cluster {
            resources,
            machines,
            groups,
        }
    }

    /// The same cluster once more. Where memory is refused there is no copy.
    pub fn copy(&self, alloc: Global) -> Result<Cluster, OutOfMemory>
        ensures { IfOk result (λ copy. copy ≡ self.now) }
    {
        Ok(Cluster {
            resources: self.resources,
            machines: Vec::from_slice(alloc, &self.machines)?,
            groups: Vec::from_slice(alloc, &self.groups)?,
        })
    }

    /// How many resources there are, 1 to 8.
    pub fn resources(&self) -> u8
        ensures number { result ≡ self.now.resources }
        ensures valid { IsTrue (is_valid_cluster self.now) }
    {
        self.resources
    }

    /// How many machines there are, 1 to 256.
    pub fn machines(&self) -> u32
        ensures number { result ≡ length self.now.machines }
        ensures valid { IsTrue (is_valid_cluster self.now) }
    {
        self.machines.len() as u32
    }

    /// The machine of this number, which the cluster must have.
    pub fn machine(&self, machine: MachineNo) -> &Machine
        requires { machine.0 < length self.now.machines }
        ensures { option_map machine_of (slice_get self.now.machines machine.0) ≡ Some result.now }
    {
        &self.machines[machine.0 as usize]
    }

    /// How many groups there are, 1 to 32.
    pub fn groups(&self) -> u32
        ensures number { result ≡ length self.now.groups }
        ensures valid { IsTrue (is_valid_cluster self.now) }
    {
        self.groups.len() as u32
    }

    /// The group of this number, which the cluster must have.
    pub fn group(&self, group: GroupNo) -> &Group
        requires { group.0 < length self.now.groups }
        ensures { option_map group_of (slice_get self.now.groups group.0) ≡ Some result.now }
    {
        &self.groups[group.0 as usize]
    }

    /// Whether a machine stands in the rack.
    pub fn has_rack(&self, rack: RackNo) -> bool
        ensures { result ≡ has_rack self.now rack.0 }
    {
        self.machines.iter().any(|machine| machine.rack == rack)
    }
}
