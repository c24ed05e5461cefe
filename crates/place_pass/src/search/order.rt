//! The order of what a search finds, and the places of the line by the turns of its pairs.

ghost use Rattle.std.specs.Prelude.{◌≡◌, ℕ, ◌+◌, ◌<◌, Option, List, true, false, [], ◌∷◌, ◌++◌, None, Some, slice_get, IfSome};
ghost use Rattle.fuxi_terms.specs.Keys.{Pair};
ghost use Rattle.place_pass.specs.Bounds.{rank_of, is_bound, comes_before};
ghost use Rattle.place_pass.specs.Candidates.{sight_rank, rank_with, turn_in};
ghost use Rattle.place_pass.specs.Scenes.{CanSearch};

use super::{BestFound, Candidate, SearchInput};
use crate::line::turn_of_unit;
use crate::marks::Rank;
use schedule_unit::MachineNo;

// Whether a number comes before another, or is the same and what stands behind it does.
fn comes_first(a: u64, b: u64, rest: bool) -> bool
    ensures { (r s : List ℕ) → rest ≡ comes_before r s → result ≡ comes_before (a ∷ r) (b ∷ s) }
{
    (a < b) | ((a == b) & rest)
}

// Whether a pair on one machine comes before a pair on another.
pub(crate) fn is_earlier(rank: &Rank, machine: MachineNo, found: &BestFound) -> bool
    ensures { result ≡ comes_before (rank_of rank.now ++ machine.0 ∷ []) (rank_with found.now) }
{
    let other = &found.rank;
    let by_machine = comes_first(machine.0 as u64, found.pick.machine.0 as u64, false);
    let by_turn = comes_first(rank.turn, other.turn, by_machine);
    let by_level = comes_first(rank.level as u64, other.level as u64, by_turn);
    comes_first(rank.late as u64, other.late as u64, by_level)
}

/// Whether a rank on one machine comes before another there.
pub(crate) fn is_earlier_here(rank: &Rank, other: &Rank) -> bool
    ensures { result ≡ comes_before (rank_of rank.now) (rank_of other.now) }
{
    let by_turn = comes_first(rank.turn, other.turn, false);
    let by_level = comes_first(rank.level as u64, other.level as u64, by_turn);
    comes_first(rank.late as u64, other.late as u64, by_level)
}

// Whether a rank comes before that of the best so far.
pub(crate) fn may_be_nearer(best: &Option<Candidate>, rank: &Rank) -> bool
    ensures sooner { result ≡ true → (r : List ℕ) → is_bound (sight_rank best.now) r ≡ true → is_bound (Some (rank_of rank.now)) r ≡ true }
    ensures later { result ≡ false → is_bound (sight_rank best.now) (rank_of rank.now) ≡ true }
{
    match best {
        Some(sight) => is_earlier_here(rank, &sight.rank),
        None => true,
    }
}

// The place from which on as many pairs stand as turns were given since this one, where the first of them has it: then none of them
// has left the line.
fn place_by_turns(input: &SearchInput<'_>, turn: u64) -> Option<usize>
    requires ready { CanSearch input.now }
    ensures { IfSome result (λ place. (k : ℕ) (p : Pair) → k < place → slice_get input.now.line.now.pairs k ≡ Some p → turn_in input.now.turn_of.now p < turn) }
{
    let len = input.line.len();
    let since = input.turns.saturating_sub(turn);
    if since == 0 || since > len as u64 {
        return None;
    }
    let place = len - since as usize;
    let (app, unit) = input.line.at(place);
    if turn_of_unit(input.wishes, input.turn_of, app, unit) != turn {
        return None;
    }
    Some(place)
}

// The place from which on the turns are at least this one.
pub(crate) fn place_from(input: &SearchInput<'_>, turn: u64) -> usize
    requires ready { CanSearch input.now }
    ensures { (k : ℕ) (p : Pair) → k < result → slice_get input.now.line.now.pairs k ≡ Some p → turn_in input.now.turn_of.now p < turn }
{
    if let Some(place) = place_by_turns(input, turn) {
        return place;
    }
    let mut place = input.line.len();
    while place > 0 {
        let (app, unit) = input.line.at(place - 1);
        if turn_of_unit(input.wishes, input.turn_of, app, unit) < turn {
            return place;
        }
        place -= 1;
    }
    0
}
