//! The votes on machines.

ghost use Rattle.std.specs.Prelude.{◌≡◌, ◌+◌, ◌-◌, ◌<◌, ◌≤◌, false, true, filter, length, map, replicate, set, All, IfOk};
ghost use Rattle.fuxi_terms.specs.Lists.{below};
ghost use Rattle.spec_roles.specs.Votes.{cap, is_marked, judged, most_votes, number_shut, votes_of};
ghost use Rattle.bad_nodes.specs.Ranks.{number_of};

use cluster_desc::Cluster;
use fuxi_terms::OutOfMemory;
use schedule_unit::MachineNo;
use spec_roles::law;
use std::alloc::Global;
use std::cmp::Reverse;
use std::marker::Model;

/// How many jobs mark each machine of a cluster as bad, at most 256, and which machines count as banned. It
/// is seen as a record of both, by the numbers of the machines.
#[derive(Debug, Drop)]
pub struct Votes {
    votes: Vec<u32>,
    shut: Vec<bool>,
}

impl Model for Votes {
    ghost use Rattle.spec_roles.specs.Votes.{VotesRecord};

    ghost Value = { VotesRecord };

    ghost use Rattle.bad_nodes.specs.Ranks.{AreVotes};

    ghost view = { λ v. record { votes = v.votes.items; shut = v.shut.items } };

    ghost invariant = { λ v. AreVotes v.votes.items v.shut.items };
}

impl Votes {
    /// No votes on the machines of the cluster, and none of these shut. Where memory is refused the record is not
    /// made.
    pub fn start(alloc: Global, cluster: &Cluster) -> Result<Votes, OutOfMemory>
        ensures { IfOk result (λ votes. votes ≡ record { votes = replicate (length cluster.now.machines) 0; shut = replicate (length cluster.now.machines) false }) }
    {
        let machines = cluster.machines() as usize;
        Ok(Votes {
            votes: Vec::from_elem(alloc, 0, machines)?,
            shut: Vec::from_elem(alloc, false, machines)?,
        })
    }

    /// One vote more on the machine, which must be there and have fewer than 256.
    pub fn mark(&mut self, machine: MachineNo)
        requires there { machine.0 < length self.old.votes }
        requires fewer { votes_of self.old machine.0 < most_votes }
        ensures { self.new ≡ record self.old { votes = set self.old.votes machine.0 (votes_of self.old machine.0 + 1) } }
    {
        self.votes[machine.0 as usize] += 1;
    }

    /// The machine, which must be there, counts as banned.
    pub fn shut(&mut self, machine: MachineNo)
        requires { machine.0 < length self.old.votes }
        ensures { self.new ≡ record self.old { shut = set self.old.shut machine.0 true } }
    {
        self.shut[machine.0 as usize] = true;
    }

    /// How many votes are on the machine, which must be there: 0 to 256.
    pub fn votes(&self, machine: MachineNo) -> u32
        requires { machine.0 < length self.now.votes }
        ensures votes { result ≡ votes_of self.now machine.0 }
        ensures within { result ≤ most_votes }
    {
        self.votes[machine.0 as usize]
    }

    /// The machines to ban, by more votes and then by the smaller number: those that are not shut and have at
    /// least the least votes, cut so that with those that are shut they are at most so many percent of the
    /// machines, rounded down. The percent are at most 100. Where memory is refused there is no list of them.
    pub fn judge(
        &self,
        alloc: Global,
        least: u32,
        percent: u32,
    ) -> Result<Vec<MachineNo>, OutOfMemory>
        requires { percent ≤ 100 }
        ensures { IfOk result (λ machines. map number_of machines.items ≡ judged self.now least percent) }
    {
        law::judges();
        let mut machines = self.marked(alloc, least)?;
        machines.sort_unstable_by_key(|machine| (Reverse(self.count(*machine)), machine.0));
        machines.truncate(self.left(percent));
        Ok(machines)
    }

    // The machines that are not shut and have at least the least votes, in the order of their numbers.
    fn marked(&self, alloc: Global, least: u32) -> Result<Vec<MachineNo>, OutOfMemory>
        ensures { IfOk result (λ machines. map number_of machines.items ≡ filter (is_marked self.now least) (below (length self.now.votes))) }
    {
        let mut machines = Vec::new(alloc);
        for number in 0..self.votes.len() as u32 {
            let machine = MachineNo(number);
            if self.is_marked(machine, least) {
                machines.push(machine)?;
            }
        }
        Ok(machines)
    }

    // Whether the machine, which must be there, may be judged.
    fn is_marked(&self, machine: MachineNo, least: u32) -> bool
        requires { machine.0 < length self.now.votes }
        ensures { result ≡ is_marked self.now least machine.0 }
    {
        let index = machine.0 as usize;
        !self.shut[index] && self.votes[index] >= least
    }

    // The votes on a machine, or 0 where it is not there.
    fn count(&self, machine: MachineNo) -> u32
        ensures { result ≡ votes_of self.now machine.0 }
    {
        self.votes.get(machine.0 as usize).copied().unwrap_or(0)
    }

    // How many machines may still be banned.
    fn left(&self, percent: u32) -> usize
        requires { percent ≤ 100 }
        ensures left { result ≡ cap self.now percent - number_shut self.now }
        ensures within { All (λ n. n ≤ most_votes) self.now.votes }
    {
        let cap = self.votes.len() * percent as usize / 100;
        let shut = self.shut.iter().filter(|shut| **shut).count();
        cap.saturating_sub(shut)
    }
}
