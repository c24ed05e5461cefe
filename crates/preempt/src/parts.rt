//! By group what a set of grants takes, in a place that is lent to one set after another.

use crate::entry::Sums;
use fuxi_terms::OutOfMemory;
use std::alloc::Global;
use std::marker::Model;

/// By group what a set takes.
#[derive(Drop)]
pub(crate) struct Parts {
    /// Of a group that has not begun nothing is taken, whatever another set left there: so a new set costs no
    /// clearing of the places.
    begun: [bool; 32],
    /// By group the place of its newest sums.
    places: [usize; 32],
    /// All sums that were put: none is written over, so that none is filled before it is needed.
    sums: Vec<Sums>,
}

impl Model for Parts {
    ghost use Rattle.std.specs.Prelude.{◌≡◌};
    ghost use Rattle.preempt.specs.GroupSums.{GroupParts, ArePlaces};

    ghost Value = { GroupParts };

    ghost view = { λ p. record { begun = p.begun; places = p.places; sums = p.sums.items } };

    ghost invariant = { λ p. ArePlaces p.begun p.places p.sums.items };
}

impl Parts {
    ghost use Rattle.std.specs.Prelude.{◌≡◌, ℕ, ◌<◌, [], IfOk, OnOk, cond, nat_eq, slice_index};
    ghost use Rattle.preempt.specs.GroupSums.{ArePartsOf, taken_at};

    /// Of a set without grants.
    pub(crate) fn new(alloc: Global) -> Result<Parts, OutOfMemory>
        ensures { IfOk result (λ parts. ArePartsOf parts []) }
    {
        Ok(Parts {
            begun: [false; 32],
            places: [0; 32],
            sums: Vec::with_capacity(alloc, 8)?,
        })
    }

    /// Of a set without grants, once more.
    pub(crate) fn restart(&mut self)
        ensures { ArePartsOf self.new [] }
    {
        self.begun = [false; 32];
        self.sums.clear();
    }

    /// What the set takes of a group.
    pub(crate) fn of(&self, group: usize) -> [u128; 8]
        requires { group < 32 }
        ensures { (i : ℕ) → i < 8 → slice_index result i ≡ taken_at self.now group i }
    {
        if self.begun[group] {
            self.sums[self.places[group]].q
        } else {
            [0; 8]
        }
    }

    /// It takes so much of a group.
    pub(crate) fn put(&mut self, group: usize, q: [u128; 8]) -> Result<(), OutOfMemory>
        requires { group < 32 }
        ensures { OnOk result ((g i : ℕ) → g < 32 → taken_at self.new g i ≡ cond (nat_eq group g) (slice_index q i) (taken_at self.old g i)) }
    {
        let place = self.sums.len();
        self.sums.push(Sums { q })?;
        self.places[group] = place;
        self.begun[group] = true;
        Ok(())
    }
}
