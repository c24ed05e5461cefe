//! Which units of a job a demand asks otherwise of than the last one did.

ghost use Rattle.std.specs.Prelude.{◌≡◌, ◌<◌, true, length};
ghost use Rattle.place_pass.specs.Cells.{cell_of, numbers_at, racks_at, taken};

use super::reading::{avoided_by, next_asked, number_at, rack_number};
use super::sparse::is_clear;
use super::wishes::{RACKS, Wish, Wishes};
use cluster_desc::Cluster;
use fuxi_terms::Key;
use fuxi_terms::limits::MOST_RACKS;
use fuxi_terms::tally_keys::{NEAR, RACK, WANT};
use party_ledgers::Demand;
use schedule_unit::{AppNo, UnitNo};

impl Wishes {
    ghost use Rattle.std.specs.Prelude.{◌≡◌, ℕ, ◌<◌, [], true, false, length};
    ghost use Rattle.std.proofs.Common.{get_or};
    ghost use Rattle.place_pass.specs.Cells.{cell_at, taken};

    /// By unit: false where this demand of the job asks the same of it as before.
    pub(crate) fn differing(&self, app: AppNo, demand: &Demand) -> [bool; 8]
        ensures { (u : ℕ) → u < length (get_or self.now.cells app.0 []) → get_or result u true ≡ false → taken self.now.cluster demand.now.entries u (cell_at self.now.cells app.0 u) ≡ cell_at self.now.cells app.0 u }
    {
        let mut differing = [true; 8];
        for number in 0..self.units(app) {
            let wish = self.wish(app, UnitNo(number as u8));
            let same = asks_the_same(wish, number as u8, &self.cluster, demand);
            differing[number] = !same;
        }
        differing
    }
}

// Whether a demand asks of a unit what is asked of it already.
fn asks_the_same(wish: &Wish, unit: u8, cluster: &Cluster, demand: &Demand) -> bool
    requires { length (cell_of wish.now).near ≡ length cluster.now.machines }
    ensures { result ≡ true → taken cluster.now demand.now.entries unit (cell_of wish.now) ≡ cell_of wish.now }
{
    let machines = cluster.machines();
    if number_at(demand, WANT, unit, 0) != wish.want {
        return false;
    }
    if !has_near(&wish.near, machines, demand, unit) {
        return false;
    }
    if !has_racks(&wish.racks, cluster, demand, unit) {
        return false;
    }
    wish.avoided == avoided_by(demand, unit, machines)
}

// Whether these are what a demand wants on each machine. The walk goes from one that it names to the next.
fn has_near(near: &[u32], machines: u32, demand: &Demand, unit: u8) -> bool
    requires { length near.now ≡ machines }
    ensures { result ≡ true → numbers_at demand.now.entries 2 unit machines ≡ near.now }
{
    let mut passed = 0;
    let mut next = 0;
    while next < machines {
        let number = next;
        let what = NEAR;
        let sought = Key { what, unit, number };
        let (machine, number) = next_asked(demand, &mut passed, &sought, machines);
        if !is_clear(near, next, machine) {
            return false;
        }
        if near[machine as usize] != number {
            return false;
        }
        next = machine + 1;
    }
    true
}

// Whether these are what a demand has at each rack in which a machine stands. The walk goes from one that it names to the next.
fn has_racks(racks: &[u32; RACKS], cluster: &Cluster, demand: &Demand, unit: u8) -> bool
    ensures { result ≡ true → racks_at cluster.now demand.now.entries unit ≡ racks.now }
{
    let mut passed = 0;
    let mut next = 0;
    while next < MOST_RACKS {
        let number = next;
        let what = RACK;
        let sought = Key { what, unit, number };
        let (rack, wanted) = next_asked(demand, &mut passed, &sought, MOST_RACKS);
        let number = rack_number(cluster, rack, wanted);
        if !is_clear(racks, next, rack) {
            return false;
        }
        if racks[rack as usize] != number {
            return false;
        }
        next = rack + 1;
    }
    true
}
