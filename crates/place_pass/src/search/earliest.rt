//! What bounds all pairs of a short line on every machine at once, so that a machine on which none of them can be first needs no look.

ghost use Rattle.std.specs.Prelude.{◌≡◌, ℕ, ◌<◌, ◌≤◌, List, true, [], length, Some, IfSome};
ghost use Rattle.std.proofs.Common.{get_or};
ghost use Rattle.fuxi_terms.specs.Cluster.{ClusterRecord};
ghost use Rattle.fuxi_terms.specs.Tables.{Table};
ghost use Rattle.spec_roles.specs.Masters.{level_of};
ghost use Rattle.place_pass.specs.Cells.{asks_in};
ghost use Rattle.place_pass.specs.Bounds.{rank_of, rank_at, is_bound};
ghost use Rattle.place_pass.specs.Candidates.{turn_in};
ghost use Rattle.place_pass.specs.Scenes.{board_in, CanSearch, IsEarliest};

use super::SearchInput;
use super::order::is_earlier_here;
use crate::demand::{Wishes, is_clear, is_clear_to};
use crate::line::turn_of_unit;
use crate::marks::Rank;
use fuxi_terms::limits::MOST_RACKS;
use schedule_unit::{AppNo, UnitNo};

/// How many pairs a line has at most that is bounded. To settle a machine again costs a look at each of them.
const SHORT_LINE: usize = 8;

// A level that the unit comes no nearer than on any machine.
fn least_level(wishes: &Wishes, app: AppNo, unit: UnitNo) -> u8
    requires { unit.0 < length (get_or wishes.now.cells app.0 []) }
    ensures { (c : ClusterRecord) (es : Table) (m : ℕ) → result ≤ level_of c (asks_in wishes.now.cells) es app.0 unit.0 m }
{
    let wish = wishes.wish(app, unit);
    if !is_clear_to(&wish.near, wishes.cluster().machines()) {
        return 0;
    }
    if !is_clear(&wish.racks, 0, MOST_RACKS) {
        return 1;
    }
    2
}

// A rank that the unit comes before on no machine.
fn rank_anywhere(input: &SearchInput<'_>, app: AppNo, unit: UnitNo) -> Rank
    requires ready { CanSearch input.now }
    requires unit { unit.0 < length (get_or input.now.wishes.now.cells app.0 []) }
    ensures { (m : ℕ) → is_bound (Some (rank_of result)) (rank_at (board_in input.now) input.now.table.now.entries (turn_in input.now.turn_of.now (app.0, unit.0)) (app.0, unit.0) m) ≡ true }
{
    let wishes = input.wishes;
    let late = 9_u8.saturating_sub(wishes.wish(app, unit).priority);
    let level = least_level(wishes, app, unit);
    let turn = turn_of_unit(wishes, input.turn_of, app, unit);
    Rank { late, level, turn }
}

// The earlier of two ranks.
fn earlier_of(rank: Rank, other: Rank) -> Rank
    ensures first { (r : List ℕ) → is_bound (Some (rank_of rank)) r ≡ true → is_bound (Some (rank_of result)) r ≡ true }
    ensures second { (r : List ℕ) → is_bound (Some (rank_of other)) r ≡ true → is_bound (Some (rank_of result)) r ≡ true }
{
    if is_earlier_here(&other, &rank) {
        other
    } else {
        rank
    }
}

// A rank that no pair of the line comes before on any machine.
fn rank_of_line(input: &SearchInput<'_>) -> Rank
    requires ready { CanSearch input.now }
    ensures { IsEarliest input.now result }
{
    let mut rank = Rank {
        late: u8::MAX,
        level: u8::MAX,
        turn: u64::MAX,
    };
    for place in 0..input.line.len() {
        let (app, unit) = input.line.at(place);
        rank = earlier_of(rank, rank_anywhere(input, app, unit));
    }
    rank
}

/// A rank that no pair of the line comes before on any machine, where the line is short.
pub(crate) fn earliest(input: &SearchInput<'_>) -> Option<Rank>
    requires ready { CanSearch input.now }
    ensures { IfSome result (λ rank. IsEarliest input.now rank) }
{
    if input.line.len() > SHORT_LINE {
        return None;
    }
    Some(rank_of_line(input))
}
