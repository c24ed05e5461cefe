//! The mark of one machine: the bound before which nothing that was looked at may be placed there.

ghost use Rattle.std.specs.Prelude.{◌≡◌, ◌^◌, ◌<◌, ◌&&◌, cond, nat_lt, true, false, Some, map};
ghost use Rattle.std.proofs.Common.{get_or};
ghost use Rattle.place_pass.specs.Bounds.{rank_of, mark_of, key_of, zero_rank, reset_mark, cleared_mark, limited_mark, lowered_mark};

use schedule_unit::GroupNo;

/// A rank on one machine: 9 less priority, level and turn, compared in this order.
#[derive(Clone, Copy, Debug)]
pub(crate) struct Rank {
    pub(crate) late: u8,
    pub(crate) level: u8,
    pub(crate) turn: u64,
}

// The rank that no other comes before.
fn earliest() -> Rank
    ensures { rank_of result ≡ zero_rank }
{
    Rank {
        late: 0,
        level: 0,
        turn: 0,
    }
}

/// The greatest number is no less than any turn. It does nothing; its contract is the law.
pub(crate) fn turn_fits(turn: u64)
    ensures { turn < 2 ^ 64 }
{}

/// A bound for one machine: no placeable pair of the line that was looked at has an earlier rank.
#[derive(Clone, Copy, Debug)]
pub(crate) struct Mark {
    /// `None` where no pair that was looked at is placeable.
    pub(crate) bound: Option<Rank>,
    /// The pairs with a smaller turn were looked at. The greatest number where no admitted unit has room.
    pub(crate) until: u64,
    /// By group, whether a pair of it may fit that its limit did not allow.
    pub(crate) groups: [bool; 32],
}

impl Mark {
    ghost use Rattle.std.specs.Prelude.{◌≡◌, ◌<◌, nat_lt, true, false, cond, map, is_some};
    ghost use Rattle.std.proofs.Common.{get_or};
    ghost use Rattle.std.specs.Option.{option_map};
    ghost use Rattle.std.specs.List.{list_any};
    ghost use Rattle.place_pass.specs.Bounds.{rank_of, mark_of, key_of, reset_mark, bounded_mark, full_mark, limited_mark, cleared_mark, lowered_mark, taken_mark};

    /// Of a machine that was not looked at.
    pub(crate) fn new() -> Mark
        ensures { mark_of result ≡ reset_mark 0 }
    {
        Mark {
            bound: Some(earliest()),
            until: 0,
            groups: [false; 32],
        }
    }

    /// The bound of all pairs, also of those that were not looked at: their turns are below `turns`.
    pub(crate) fn key(&self, turns: u64) -> Option<Rank>
        ensures { option_map rank_of result ≡ key_of (mark_of self.now) turns }
    {
        if self.until < turns {
            Some(earliest())
        } else {
            self.bound
        }
    }

    // Anything may be placeable.
    fn reset(&mut self)
        ensures { mark_of self.new ≡ reset_mark self.old.until }
    {
        self.bound = Some(earliest());
        self.groups = [false; 32];
    }

    /// No admitted unit has room, so nothing is placeable, whatever begins to wait.
    pub(crate) fn fill(&mut self)
        ensures { mark_of self.new ≡ full_mark }
    {
        self.bound = None;
        self.until = u64::MAX;
        self.groups = [false; 32];
    }

    // Whether it says nothing of pairs with this turn or a later one.
    pub(crate) fn is_within(&self, turns: u64) -> bool
        ensures { result ≡ true → limited_mark turns (mark_of self.now) ≡ mark_of self.now }
    {
        self.until <= turns
    }

    // Pairs with this turn or a later one may be placeable.
    pub(crate) fn limit(&mut self, turns: u64)
        ensures { mark_of self.new ≡ limited_mark turns (mark_of self.old) }
    {
        if turns < self.until {
            self.until = turns;
        }
    }

    // No group is noted any more.
    pub(crate) fn clear(&mut self)
        ensures { mark_of self.new ≡ cleared_mark (mark_of self.old) }
    {
        self.groups = [false; 32];
    }

    // No pair of the line may be placed before this bound.
    pub(crate) fn set_bound(&mut self, bound: Option<Rank>, until: u64)
        ensures { mark_of self.new ≡ bounded_mark (option_map rank_of bound) until (mark_of self.old) }
    {
        self.bound = bound;
        self.until = until;
    }

    // Whether a group is noted. No branch in the loop: the places are taken several at once.
    pub(crate) fn notes_any(&self) -> bool
        ensures { result ≡ list_any (λ noted. noted) self.now.groups }
    {
        let mut noted = false;
        for group in 0..32 {
            noted |= self.groups[group];
        }
        noted
    }

    // What is placeable may come earlier.
    pub(crate) fn lower(&mut self)
        ensures { mark_of self.new ≡ lowered_mark (mark_of self.old) }
    {
        if self.bound.is_some() {
            self.bound = Some(earliest());
        }
    }

    // Whether a pair of this group may fit that the group's limit did not allow.
    fn notes(&self, group: GroupNo) -> bool
        ensures { result ≡ get_or self.now.groups group.0 false }
    {
        let number = group.0 as usize;
        number < 32 && self.groups[number]
    }

    // A unit asks otherwise: it may be nearer, and where an avoidance of the machine was lifted, it may be placed there.
    pub(crate) fn ask(&mut self, lifted: bool)
        ensures { mark_of self.new ≡ cond lifted (reset_mark self.old.until) (lowered_mark (mark_of self.old)) }
    {
        if lifted {
            self.reset();
        } else {
            self.lower();
        }
    }

    // Whether a taking of a unit of this group, here or where the unit may be nearer, leaves the mark as it is.
    pub(crate) fn stays(&self, here: bool, group: GroupNo, nearer: bool) -> bool
        ensures { result ≡ true → taken_mark here group.0 nearer (mark_of self.now) ≡ mark_of self.now }
    {
        if here | nearer {
            return false;
        }
        !self.notes(group)
    }

    // Grants of a unit of this group were taken, on this machine or on another, where the unit may be nearer.
    pub(crate) fn take(&mut self, here: bool, group: GroupNo, nearer: bool)
        ensures { mark_of self.new ≡ taken_mark here group.0 nearer (mark_of self.old) }
    {
        if here {
            self.reset();
        } else if self.notes(group) {
            self.reset();
        } else if nearer {
            self.lower();
        }
    }
}
