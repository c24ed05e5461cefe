//! The machines that have reported.

ghost use Rattle.std.specs.Prelude.{◌≡◌, ◌<◌, [], length};
ghost use Rattle.fuxi_terms.specs.Numbers.{has_number, with_number};
ghost use Rattle.failover.specs.Reported.{are_all_in};

use cluster_desc::Cluster;
use hard_state::NumberSet;
use schedule_unit::MachineNo;
use std::marker::Model;

/// What a master does: it rebuilds its table from the reports of the machines, and serves once all have reported.
#[derive(Clone, Copy, Debug, Drop, PartialEq, Eq)]
pub enum Phase {
    Rebuilding,
    Serving,
}

/// A set of machines of a cluster, seen as the number of the machines of the cluster and the rising list of those in the set.
/// No call takes memory.
#[derive(Drop)]
pub struct Machines {
    set: NumberSet,
    size: u32,
}

impl Model for Machines {
    ghost use Rattle.std.specs.Prelude.{◌≤◌};
    ghost use Rattle.failover.specs.Reported.{Reported};

    ghost Value = { Reported };

    ghost view = { λ m. record { size = m.size; numbers = m.set } };

    ghost invariant = { λ m. m.size ≤ 256 };
}

impl Machines {
    /// No machine of this cluster.
    pub fn none(cluster: &Cluster) -> Machines
        ensures { result ≡ record { size = length cluster.now.machines; numbers = [] } }
    {
        Machines {
            set: NumberSet::none(),
            size: cluster.machines(),
        }
    }

    /// With this machine, which is one of the cluster's.
    pub fn add(&mut self, machine: MachineNo)
        requires { machine.0 < self.old.size }
        ensures { self.new ≡ record self.old { numbers = with_number machine.0 self.old.numbers } }
    {
        self.set.insert(machine.0);
    }

    /// Whether the machine is in the set.
    pub fn has(&self, machine: MachineNo) -> bool
        ensures { result ≡ has_number machine.0 self.now.numbers }
    {
        self.set.has(machine.0)
    }
}

/// Whether each machine of the cluster is in the set.
pub fn all_reported(reported: &Machines) -> bool
    ensures { result ≡ are_all_in reported.now }
{
    for machine in 0..reported.size {
        if !reported.set.has(machine) {
            return false;
        }
    }
    true
}
