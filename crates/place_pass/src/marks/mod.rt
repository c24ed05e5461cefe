//! What is kept of each machine, so that one on which nothing can be placed earlier than before is not looked at again.

ghost use Rattle.std.specs.Prelude.{◌≡◌, ℕ, ◌<◌, ◌≤◌, ◌⊎◌, cond, nat_eq, true, false, List, IfOk, length, map, replicate};
ghost use Rattle.std.proofs.Common.{get_or};
ghost use Rattle.place_pass.specs.Bounds.{MarkRecord, rank_of, mark_of, mark_at, key_of, reset_mark, limited_mark, lowered_mark};

mod keys;
mod mark;
mod told;

use fuxi_terms::OutOfMemory;
use grant_table::Steps;
pub(crate) use keys::{number_of, number_of_none};
use keys::{Keys, number_of_mark};
pub(crate) use mark::{Mark, Rank, turn_fits};
use schedule_unit::{GroupNo, MachineNo};
use std::alloc::Global;
use std::marker::Model;
use std::sync::ledger::Ledger;
pub(crate) use told::{
    forget_groups, limit_all, lower_all, reset_one, settle_all, tell, tell_demand,
};

/// A mark for each machine, and its bound as one number, so that the least of many is found without a look at marks.
#[derive(Drop)]
pub(crate) struct Marks {
    marks: Vec<Mark>,
    /// None is greater than that of the machine's bound of all pairs with a turn below `until`.
    /// The greatest of all is that of a machine that is settled whatever begins to wait.
    keys: Keys,
    until: u64,
    /// Whether a mark may note a group.
    noted: bool,
}

impl Model for Marks {
    ghost use Rattle.std.specs.Prelude.{List, map};
    ghost use Rattle.place_pass.specs.Bounds.{MarkRecord, mark_of};
    ghost use Rattle.place_pass.specs.NotedMarks.{AreNoted, AreClearUnless};

    ghost Value = { List MarkRecord };

    ghost view = { λ s. map mark_of s.marks.items };

    ghost invariant = { λ s. AreNoted (map mark_of s.marks.items) s.keys s.until × AreClearUnless (map mark_of s.marks.items) s.noted };
}

impl Marks {
    ghost use Rattle.std.specs.Prelude.{◌≡◌, ℕ, ◌+◌, ◌<◌, ◌≤◌, ◌⊎◌, true, false, is_some, nat_eq, cond, length, replicate, List, None, IfOk, IfSome};
    ghost use Rattle.std.proofs.Common.{get_or};
    ghost use Rattle.place_pass.specs.Bounds.{rank_of, mark_of, mark_at, key_of, reset_mark, bounded_mark, limited_mark, lowered_mark, taken_mark, is_bound};
    ghost use Rattle.std.specs.Option.{option_map};
    ghost use Rattle.place_pass.specs.PackedRanks.{IsAbove};
    ghost use Rattle.place_pass.specs.Candidates.{found_rank, IsRaised};
    ghost use Rattle.place_pass.specs.Scenes.{CanSearch, IsMarked, IsSettledBy, IsFoundIn, IsLeastOn};

    /// Of machines that were not looked at.
    pub(crate) fn new(alloc: Global, machines: usize) -> Result<Marks, OutOfMemory>
        requires { machines ≤ 256 }
        ensures { IfOk result (λ marks. marks ≡ replicate machines (reset_mark 0)) }
    {
        Ok(Marks {
            marks: Vec::from_elem(alloc, Mark::new(), machines)?,
            keys: Keys::new(alloc, machines)?,
            until: 0,
            noted: false,
        })
    }

    /// How many machines there are.
    pub(crate) fn len(&self) -> u32
        ensures number { result ≡ length self.now }
        ensures few { result ≤ 256 }
    {
        self.marks.len() as u32
    }

    /// The mark of a machine.
    pub(crate) fn at(&self, machine: u32) -> &Mark
        requires { machine < length self.now }
        ensures { mark_of result.now ≡ mark_at self.now machine }
    {
        &self.marks[machine as usize]
    }

    /// A number that is not above that of the machine's bound of all pairs: their turns are below `turns`.
    pub(crate) fn key(&self, machine: u32, turns: u64) -> u128
        requires { machine < length self.now }
        ensures { is_some (key_of (mark_at self.now machine) turns) ≡ true → IsAbove (mark_at self.now machine) turns machine result }
    {
        if self.until < turns {
            return 0;
        }
        self.keys.at(machine as usize)
    }

    /// The first machine from one on whose bound may have a number below a limit. The turns of all pairs are below `turns`.
    pub(crate) fn next(&self, from: u32, limit: u128, turns: u64) -> u32
        requires { from ≤ length self.now }
        ensures least { from ≤ result }
        ensures inside { result ≤ length self.now }
        ensures few { length self.now ≤ 256 }
        ensures passed { (m : ℕ) → from ≤ m → m < result → is_some (key_of (mark_at self.now m) turns) ≡ true → IsAbove (mark_at self.now m) turns m limit }
    {
        // (where pairs were appended the first of all has the least number)
        if limit == 0 {
            return self.marks.len() as u32;
        }
        if self.until < turns {
            return from;
        }
        self.keys.next(from as usize, limit) as u32
    }

    /// The mark of a machine is this one.
    pub(crate) fn put(&mut self, machine: u32, mark: Mark)
        requires { machine < length self.old }
        ensures long { length self.new ≡ length self.old }
        ensures marks { (m : ℕ) → mark_at self.new m ≡ cond (nat_eq machine m) (mark_of mark) (mark_at self.old m) }
    {
        let key = number_of_mark(&mark, self.until, machine);
        self.noted |= mark.notes_any();
        self.marks[machine as usize] = mark;
        self.keys.put(machine as usize, key);
    }

    /// No pair of the line may be placed on a machine before this bound. Their turns are below `turns`.
    pub(crate) fn set_bound(&mut self, machine: u32, bound: Option<Rank>, turns: u64)
        requires { machine < length self.old }
        ensures long { length self.new ≡ length self.old }
        ensures here { mark_at self.new machine ≡ bounded_mark (option_map rank_of bound) turns (mark_at self.old machine) }
        ensures others { (m : ℕ) → nat_eq machine m ≡ false → mark_at self.new m ≡ mark_at self.old m }
    {
        let mark = &mut self.marks[machine as usize];
        mark.set_bound(bound, turns);
        let key = number_of_mark(mark, self.until, machine);
        self.keys.put(machine as usize, key);
    }

    // The same, where the machine's own bound may have a number below a limit.
    fn bound_one(&mut self, machine: u32, limit: u128, bound: Option<Rank>, turns: u64)
        requires { machine < length self.old }
        ensures long { length self.new ≡ length self.old }
        ensures here { IsRaised limit (option_map rank_of bound) turns machine (mark_at self.old machine) (mark_at self.new machine) }
        ensures others { (m : ℕ) → nat_eq machine m ≡ false → mark_at self.new m ≡ mark_at self.old m }
    {
        let key = self.key(machine, turns);
        if key >= limit {
            return;
        }
        self.set_bound(machine, bound, turns);
    }

    /// The same of each machine from one on.
    pub(crate) fn bound_from(&mut self, from: u32, limit: u128, bound: Option<Rank>, turns: u64)
        requires { from ≤ length self.old }
        ensures long { length self.new ≡ length self.old }
        ensures raised { (m : ℕ) → from ≤ m → m < length self.old → IsRaised limit (option_map rank_of bound) turns m (mark_at self.old m) (mark_at self.new m) }
        ensures others { (m : ℕ) → (mark_at self.new m ≡ mark_at self.old m) ⊎ (mark_at self.new m ≡ bounded_mark (option_map rank_of bound) turns (mark_at self.old m)) }
    {
        for machine in from..self.len() {
            self.bound_one(machine, limit, bound, turns);
        }
    }

    /// Pairs with a turn below this one may wait that were not looked at. What was settled since is passed in blocks from now on.
    pub(crate) fn renew(&mut self, turns: u64)
        ensures { self.new ≡ self.old }
    {
        if self.until >= turns {
            self.keys.raise();
            return;
        }
        self.keys.renew();
        self.until = turns;
    }

    // What was settled is passed in blocks from now on.
    fn raise(&mut self)
        ensures { self.new ≡ self.old }
    {
        self.keys.raise();
    }

    // Whether a mark may note a group.
    fn may_note(&self) -> bool
        ensures { result ≡ false → (m g : ℕ) → m < length self.now → get_or (mark_at self.now m).groups g false ≡ false }
    {
        self.noted
    }

    // No mark notes a group.
    fn note_none(&mut self)
        requires { (m g : ℕ) → m < length self.old → get_or (mark_at self.old m).groups g false ≡ false }
        ensures { self.new ≡ self.old }
    {
        self.noted = false;
    }

    // What is placeable on a machine may come earlier.
    pub(crate) fn lower(&mut self, machine: u32)
        requires { machine < length self.old }
        ensures long { length self.new ≡ length self.old }
        ensures marks { (m : ℕ) → mark_at self.new m ≡ cond (nat_eq machine m) (lowered_mark (mark_at self.old machine)) (mark_at self.old m) }
    {
        let mark = &mut self.marks[machine as usize];
        mark.lower();
        let key = number_of_mark(mark, self.until, machine);
        self.keys.put(machine as usize, key);
    }

    // Pairs with this turn or a later one may be placeable on a machine.
    pub(crate) fn limit(&mut self, machine: u32, turns: u64)
        requires { machine < length self.old }
        ensures long { length self.new ≡ length self.old }
        ensures marks { (m : ℕ) → mark_at self.new m ≡ cond (nat_eq machine m) (limited_mark turns (mark_at self.old machine)) (mark_at self.old m) }
    {
        if self.at(machine).is_within(turns) {
            return;
        }
        let mark = &mut self.marks[machine as usize];
        mark.limit(turns);
        let key = number_of_mark(mark, self.until, machine);
        self.keys.put(machine as usize, key);
    }

    // Grants of a unit of this group were taken, on this machine or on another, where the unit may be nearer.
    pub(crate) fn take(&mut self, machine: u32, here: bool, group: GroupNo, nearer: bool)
        requires { machine < length self.old }
        ensures long { length self.new ≡ length self.old }
        ensures marks { (m : ℕ) → mark_at self.new m ≡ cond (nat_eq machine m) (taken_mark here group.0 nearer (mark_at self.old machine)) (mark_at self.old m) }
    {
        if self.at(machine).stays(here, group, nearer) {
            return;
        }
        let mark = &mut self.marks[machine as usize];
        mark.take(here, group, nearer);
        let key = number_of_mark(mark, self.until, machine);
        self.keys.put(machine as usize, key);
    }
}
