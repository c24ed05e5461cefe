//! One look at one machine: the best of the pairs that may be placed there.

ghost use Rattle.std.specs.Prelude.{◌≡◌, ℕ, ◌+◌, ◌*◌, ◌<◌, ◌≤◌, ◌&&◌, ◌≢◌, Option, List, true, false, [], length, None, Some, slice_get, IfSome};
ghost use Rattle.std.proofs.Common.{get_or};
ghost use Rattle.std.specs.Option.{option_map};
ghost use Rattle.fuxi_terms.specs.Keys.{Pair};
ghost use Rattle.spec_roles.specs.Masters.{out_of};
ghost use Rattle.spec_roles.specs.Placing.{accepts_in, has_room_in, is_allowed_in, has_pair};
ghost use Rattle.place_pass.specs.Cells.{asks_in, job_at};
ghost use Rattle.place_pass.specs.Placers.{AreLevel};
ghost use Rattle.place_pass.specs.Bounds.{rank_of, mark_of, rank_at, IsBounded, AreBoundedLater};
ghost use Rattle.place_pass.specs.Candidates.{sight_rank, turn_in, IsFree, IsSight, AreBounded};
ghost use Rattle.place_pass.specs.Scenes.{board_in, CanSearch, IsBestOn};

use super::order::{may_be_nearer, place_from};
use super::{Candidate, SearchInput};
use crate::line::turn_of_unit;
use crate::marks::{Mark, Rank, turn_fits};
use grant_table::Steps;
use res_vector::{Res, fits};
use schedule_unit::{AppNo, MachineNo, UnitNo};
use std::sync::ledger::Ledger;

// Whether the limit of its group allows one grant more of the unit. Where it does not the group is noted.
fn allowed_or_noted(
    input: &SearchInput<'_>,
    app: AppNo,
    unit: UnitNo,
    groups: &mut [bool; 32],
) -> bool
    requires level { AreLevel input.now.wishes.now.cluster (job_at input.now.wishes.now.cells) input.now.table.now }
    requires unit { unit.0 < length (get_or input.now.wishes.now.cells app.0 []) }
    ensures allowed { result ≡ true → is_allowed_in input.now.table.now.cluster (board_in input.now).groups (board_in input.now).sizes input.now.table.now.entries app.0 unit.0 ≡ true }
    ensures bounded { result ≡ false → (bound : Option (List ℕ)) (t m : ℕ) → IsBounded (board_in input.now) input.now.table.now.entries bound groups.new t (app.0, unit.0) m }
    ensures kept { (g : ℕ) → get_or groups.old g false ≡ true → get_or groups.new g false ≡ true }
    ensures same { result ≡ true → groups.new ≡ groups.old }
{
    if input.wishes.allowed(input.table, app, unit) {
        return true;
    }
    let group = input.wishes.group(input.table, app, unit);
    groups[group.0 as usize] = true;
    false
}

// Whether the machine takes the unit and has room for it, and the limit of its group allows it. Where it would fit and is not allowed
// its group is noted.
fn may_place(
    input: &SearchInput<'_>,
    machine: MachineNo,
    free: &Res,
    app: AppNo,
    unit: UnitNo,
    groups: &mut [bool; 32],
) -> bool
    requires level { AreLevel input.now.wishes.now.cluster (job_at input.now.wishes.now.cells) input.now.table.now }
    requires unit { unit.0 < length (get_or input.now.wishes.now.cells app.0 []) }
    requires machine { machine.0 < length input.now.table.now.cluster.machines }
    requires free { IsFree input.now.table.now machine.0 free.now.q }
    ensures fits { result ≡ true → (accepts_in (board_in input.now) input.now.table.now.entries app.0 unit.0 machine.0 && has_room_in input.now.table.now.cluster (board_in input.now).sizes input.now.table.now.entries app.0 unit.0 machine.0) ≡ true }
    ensures allowed { result ≡ true → is_allowed_in input.now.table.now.cluster (board_in input.now).groups (board_in input.now).sizes input.now.table.now.entries app.0 unit.0 ≡ true }
    ensures bounded { result ≡ false → (bound : Option (List ℕ)) (t : ℕ) → IsBounded (board_in input.now) input.now.table.now.entries bound groups.new t (app.0, unit.0) machine.0 }
    ensures kept { (g : ℕ) → get_or groups.old g false ≡ true → get_or groups.new g false ≡ true }
    ensures same { result ≡ true → groups.new ≡ groups.old }
    ensures passed { (accepts_in (board_in input.now) input.now.table.now.entries app.0 unit.0 machine.0 && has_room_in input.now.table.now.cluster (board_in input.now).sizes input.now.table.now.entries app.0 unit.0 machine.0) ≡ false → groups.new ≡ groups.old }
{
    if !input.wishes.takes(input.table, free, app, unit, machine) {
        return false;
    }
    allowed_or_noted(input, app, unit, groups)
}

// The rank of an admitted unit on the machine.
fn rank_of_unit(input: &SearchInput<'_>, app: AppNo, unit: UnitNo, machine: MachineNo) -> Rank
    requires ready { CanSearch input.now }
    requires unit { unit.0 < length (get_or input.now.wishes.now.cells app.0 []) }
    requires machine { machine.0 < length input.now.table.now.cluster.machines }
    ensures { rank_of result ≡ rank_at (board_in input.now) input.now.table.now.entries (turn_in input.now.turn_of.now (app.0, unit.0)) (app.0, unit.0) machine.0 }
{
    let wishes = input.wishes;
    let late = 9_u8.saturating_sub(wishes.wish(app, unit).priority);
    let level = wishes.level(input.table, app, unit, machine);
    let turn = turn_of_unit(wishes, input.turn_of, app, unit);
    Rank { late, level, turn }
}

// The better of what was found before and of one unit, where it may be placed. Where it would fit and is not allowed its group
// is noted.
fn weigh(
    input: &SearchInput<'_>,
    machine: MachineNo,
    free: &Res,
    app: AppNo,
    unit: UnitNo,
    groups: &mut [bool; 32],
    best: &mut Option<Candidate>,
)
    requires ready { CanSearch input.now }
    requires unit { unit.0 < length (get_or input.now.wishes.now.cells app.0 []) }
    requires machine { machine.0 < length input.now.table.now.cluster.machines }
    requires free { IsFree input.now.table.now machine.0 free.now.q }
    ensures here { IsBounded (board_in input.now) input.now.table.now.entries (sight_rank best.new) groups.new (turn_in input.now.turn_of.now (app.0, unit.0)) (app.0, unit.0) machine.0 }
    ensures kept { (q : Pair) (t : ℕ) → IsBounded (board_in input.now) input.now.table.now.entries (sight_rank best.old) groups.old t q machine.0 → IsBounded (board_in input.now) input.now.table.now.entries (sight_rank best.new) groups.new t q machine.0 }
    ensures sight { (line : List Pair) (place : ℕ) → slice_get line place ≡ Some (app.0, unit.0) → out_of (asks_in input.now.wishes.now.cells) input.now.table.now.entries app.0 unit.0 ≢ 0 → IfSome best.old (λ x. IsSight (board_in input.now) input.now.table.now.entries (turn_in input.now.turn_of.now) line machine.0 x) → IfSome best.new (λ x. IsSight (board_in input.now) input.now.table.now.entries (turn_in input.now.turn_of.now) line machine.0 x) }
{
    if !input.wishes.takes(input.table, free, app, unit, machine) {
        return;
    }
    let rank = rank_of_unit(input, app, unit, machine);
    if !may_be_nearer(best, &rank) {
        return;
    }
    if !allowed_or_noted(input, app, unit, groups) {
        return;
    }
    *best = Some(Candidate { rank, app, unit });
}

// The best placeable pair on one machine among those of the line from a place on.
fn best_from(
    input: &SearchInput<'_>,
    machine: MachineNo,
    free: &Res,
    from: usize,
    groups: &mut [bool; 32],
) -> Option<Candidate>
    requires ready { CanSearch input.now }
    requires machine { machine.0 < length input.now.table.now.cluster.machines }
    requires free { IsFree input.now.table.now machine.0 free.now.q }
    requires before { (k : ℕ) (p : Pair) → k < from → slice_get input.now.line.now.pairs k ≡ Some p → IsBounded (board_in input.now) input.now.table.now.entries None groups.old (turn_in input.now.turn_of.now p) p machine.0 }
    ensures { IsBestOn input.now machine.0 groups.new result }
{
    let mut best = None;
    for place in from..input.line.len() {
        let (app, unit) = input.line.at(place);
        weigh(input, machine, free, app, unit, groups, &mut best);
    }
    best
}

// The best placeable pair on one machine: the first of its path that may be placed there, since the path has the pairs of the line
// in the order of ranks. Of those before it that would fit and are not allowed the groups are noted.
fn best_on(
    input: &SearchInput<'_>,
    machine: MachineNo,
    free: &Res,
    groups: &mut [bool; 32],
) -> Option<Candidate>
    requires ready { CanSearch input.now }
    requires machine { machine.0 < length input.now.table.now.cluster.machines }
    requires free { IsFree input.now.table.now machine.0 free.now.q }
    ensures bounded { (q : Pair) → has_pair q input.now.line.now.pairs ≡ true → IsBounded (board_in input.now) input.now.table.now.entries (sight_rank result) groups.new (turn_in input.now.turn_of.now q) q machine.0 }
    ensures sight { IfSome result (λ x. IsSight (board_in input.now) input.now.table.now.entries (turn_in input.now.turn_of.now) input.now.line.now.pairs machine.0 x) }
{
    input.table.is_sound();
    let mut path = input.tree.path(machine);
    let mut left = input.line.len();
    while left > 0 {
        left -= 1;
        let Some((entry, level)) = path.next() else {
            return None;
        };
        let app = entry.app;
        let unit = entry.unit;
        if !may_place(input, machine, free, app, unit, groups) {
            continue;
        }
        let late = 9_u8.saturating_sub(entry.priority);
        let turn = turn_of_unit(input.wishes, input.turn_of, app, unit);
        let rank = Rank { late, level, turn };
        return Some(Candidate { rank, app, unit });
    }
    None
}

// The best placeable pair on one machine: of all pairs of the line, and where none that was looked at is placeable, of the others.
fn see(
    input: &SearchInput<'_>,
    machine: MachineNo,
    free: &Res,
    mark: &mut Mark,
) -> Option<Candidate>
    requires ready { CanSearch input.now }
    requires machine { machine.0 < length input.now.table.now.cluster.machines }
    requires free { IsFree input.now.table.now machine.0 free.now.q }
    requires old { AreBounded (board_in input.now) input.now.table.now.entries (turn_in input.now.turn_of.now) input.now.line.now.pairs (mark_of mark.old) machine.0 }
    ensures { IsBestOn input.now machine.0 mark.new.groups result }
{
    if mark.bound.is_none() {
        let from = place_from(input, mark.until);
        return best_from(input, machine, free, from, &mut mark.groups);
    }
    mark.groups = [false; 32];
    best_on(input, machine, free, &mut mark.groups)
}

// The rank of what is seen.
fn rank_in(best: &Option<Candidate>) -> Option<Rank>
    ensures { option_map rank_of result ≡ sight_rank best.now }
{
    match best {
        Some(sight) => Some(sight.rank),
        None => None,
    }
}

// Looks at one machine, which is a step. Its mark is exact then. A machine that has room for no unit is told without a look at any pair,
// and needs none when others begin to wait.
pub(crate) fn look<L: Ledger>(
    input: &SearchInput<'_>,
    machine: MachineNo,
    mark: &mut Mark,
    steps: &mut Steps<L>,
) -> Option<Candidate>
    requires ready { CanSearch input.now }
    requires machine { machine.0 < length input.now.table.now.cluster.machines }
    requires old { AreBounded (board_in input.now) input.now.table.now.entries (turn_in input.now.turn_of.now) input.now.line.now.pairs (mark_of mark.old) machine.0 }
    ensures best { IsBestOn input.now machine.0 mark.new.groups result }
    ensures bound { option_map rank_of mark.new.bound ≡ sight_rank result }
    ensures until { input.now.turns ≤ mark.new.until }
    ensures later { AreBoundedLater (board_in input.now) input.now.table.now.entries input.now.wishes.now.cells input.now.turns (mark_of mark.new) machine.0 }
    ensures step { steps.new ≡ steps.old + 1 }
{
    let free = input.table.free(machine, steps);
    if input.wishes.is_full(input.table, &free) {
        mark.fill();
        turn_fits(input.turns);
        return None;
    }
    let best = see(input, machine, &free, mark);
    mark.bound = rank_in(&best);
    mark.until = input.turns;
    best
}
