//! The walk over the machines by their bounds: each that may have the placeable pair of first rank is looked at.

ghost use Rattle.std.specs.Prelude.{◌≡◌, ℕ, ◌+◌, ◌*◌, ◌<◌, ◌≤◌, is_some, ◌&&◌, ◌⊎◌, ◌≢◌, Option, List, true, false, length, None, Some, not, nat_eq, cond, IfSome, IsSomeAnd};
ghost use Rattle.std.proofs.Common.{get_or};
ghost use Rattle.std.specs.Option.{is_none, option_map};
ghost use Rattle.fuxi_terms.specs.Keys.{Pair};
ghost use Rattle.spec_roles.specs.Masters.{out_of};
ghost use Rattle.spec_roles.specs.Placing.{first_in, has_pair};
ghost use Rattle.place_pass.specs.Cells.{asks_in, job_at, unit_places};
ghost use Rattle.place_pass.specs.Placers.{AreLevel, board_over};
ghost use Rattle.place_pass.specs.Best.{spot_of, AreAdmitted};
ghost use Rattle.place_pass.specs.Bounds.{MarkRecord, rank_of, mark_of, mark_at, key_of, Rises, AreBoundedLater, is_bound};
ghost use Rattle.place_pass.specs.SearchCounts.{is_unsettled_by, count_below};
ghost use Rattle.place_pass.specs.PlacerTrees.{TreeOf};
ghost use Rattle.place_pass.specs.PackedRanks.{packed, IsSmall, IsAbove};
ghost use Rattle.place_pass.specs.Candidates.{IsBehind, AreBehind, ArePassed, limit_in, number_in, rank_with, found_rank, turn_in, AreBounded, is_first};
ghost use Rattle.place_pass.specs.Scenes.{CanSearch, IsMarked, IsSettledBy, AreMarked, IsFoundIn, IsLeastOn, IsEarliest};

use super::earliest::earliest;
use super::look::look;
use super::order::is_earlier;
use super::{BestFound, Least, SearchInput};
use crate::demand::Wishes;
use crate::line::Line;
use crate::marks::{Mark, Marks, Rank, number_of, number_of_none, settle_all};
use grant_table::{GrantTable, Pick, Steps};
use locality_tree::Tree;
use schedule_unit::MachineNo;
use std::sync::ledger::Ledger;

// Whether a pair on this machine may come before the best so far.
fn may_be_first(best: &Option<BestFound>, key: &Rank, machine: MachineNo) -> bool
    ensures { result ≡ is_first best.now (rank_of key.now) machine.0 }
{
    match best {
        Some(found) => is_earlier(key, machine, found),
        None => true,
    }
}

// The better one.
fn better(best: &mut Option<BestFound>, found: BestFound)
    ensures kept { (r : List ℕ) → is_bound (found_rank best.old) r ≡ true → is_bound (found_rank best.new) r ≡ true }
    ensures itself { (r : List ℕ) → is_bound (Some (rank_with found)) r ≡ true → is_bound (found_rank best.new) r ≡ true }
    ensures some { is_none best.new ≡ false }
    ensures one { IfSome best.new (λ x. (x ≡ found) ⊎ (Some x ≡ best.old)) }
{
    if may_be_first(best, &found.rank, found.pick.machine) {
        *best = Some(found);
    }
}

// Whether a machine is passed without a look: it is closed, nothing is placeable there, or by its bound no pair there comes before the
// best so far.
fn is_passed(
    input: &SearchInput<'_>,
    machine: MachineNo,
    mark: &Mark,
    best: &Option<BestFound>,
) -> bool
    requires ready { CanSearch input.now }
    requires old { IsMarked input.now machine.0 (mark_of mark.now) }
    ensures least { result ≡ true → IsLeastOn input.now best.now machine.0 }
    ensures settled { result ≡ true → best.now ≡ None → IsSettledBy input.now machine.0 (mark_of mark.now) }
    ensures unsettled { result ≡ false → is_unsettled_by input.now.wishes.now.opened (mark_of mark.now) input.now.turns machine.0 ≡ true }
{
    if !input.wishes.is_open(machine) {
        return true;
    }
    let Some(key) = mark.key(input.turns) else {
        return true;
    };
    !may_be_first(best, &key, machine)
}

/// The best of what was found before and of what is placeable on one machine, which is looked at.
fn consider<L: Ledger>(
    input: &SearchInput<'_>,
    machine: MachineNo,
    mark: &mut Mark,
    steps: &mut Steps<L>,
    best: &mut Option<BestFound>,
)
    requires ready { CanSearch input.now }
    requires machine { machine.0 < length input.now.table.now.cluster.machines }
    requires old { IsMarked input.now machine.0 (mark_of mark.old) }
    ensures mark { IsMarked input.now machine.0 (mark_of mark.new) }
    ensures least { IsLeastOn input.now best.new machine.0 }
    ensures kept { (r : List ℕ) → is_bound (found_rank best.old) r ≡ true → is_bound (found_rank best.new) r ≡ true }
    ensures found { IfSome best.old (λ x. IsFoundIn input.now x) → IfSome best.new (λ x. IsFoundIn input.now x) }
    ensures step { steps.new ≡ steps.old + 1 }
    ensures settled { best.new ≡ None → IsSettledBy input.now machine.0 (mark_of mark.new) }
    ensures empty { best.new ≡ None → best.old ≡ None }
{
    match look(input, machine, mark, steps) {
        Some(sight) => {
            let pick = Pick {
                app: sight.app,
                unit: sight.unit,
                machine,
            };
            better(
                best,
                BestFound {
                    rank: sight.rank,
                    pick,
                },
            );
        }
        None => {}
    }
}

// The same of a machine by its number, which is looked at only where it may be first.
fn consider_at<L: Ledger>(
    input: &SearchInput<'_>,
    machine: MachineNo,
    marks: &mut Marks,
    steps: &mut Steps<L>,
    best: &mut Option<BestFound>,
)
    requires ready { CanSearch input.now }
    requires machine { machine.0 < length input.now.table.now.cluster.machines }
    requires marked { length marks.old ≡ length input.now.table.now.cluster.machines }
    requires old { AreMarked input.now marks.old }
    ensures marked { length marks.new ≡ length marks.old }
    ensures marks { AreMarked input.now marks.new }
    ensures least { IsLeastOn input.now best.new machine.0 }
    ensures kept { (r : List ℕ) → is_bound (found_rank best.old) r ≡ true → is_bound (found_rank best.new) r ≡ true }
    ensures found { IfSome best.old (λ x. IsFoundIn input.now x) → IfSome best.new (λ x. IsFoundIn input.now x) }
    ensures others { (m : ℕ) → nat_eq machine.0 m ≡ false → mark_at marks.new m ≡ mark_at marks.old m }
    ensures count { steps.new ≤ steps.old + cond (is_unsettled_by input.now.wishes.now.opened (mark_at marks.old machine.0) input.now.turns machine.0) 1 0 }
    ensures settled { best.new ≡ None → IsSettledBy input.now machine.0 (mark_at marks.new machine.0) }
    ensures empty { best.new ≡ None → best.old ≡ None }
{
    if is_passed(input, machine, marks.at(machine.0), best) {
        return;
    }
    let mut mark = *marks.at(machine.0);
    consider(input, machine, &mut mark, steps, best);
    marks.put(machine.0, mark);
}

// The number of the best so far.
fn number_of_best(best: &Option<BestFound>) -> u128
    ensures { result ≡ limit_in best.now }
{
    match best {
        Some(found) => number_of(found.rank, found.pick.machine.0),
        None => number_of_none(),
    }
}

// The first other machine from one on where a pair may come before the best so far. Those before it are passed without a look at
// their marks.
fn next_other(
    marks: &Marks,
    start: MachineNo,
    from: u32,
    turns: u64,
    best: &Option<BestFound>,
) -> u32
    requires { from ≤ length marks.now }
    ensures least { from ≤ result }
    ensures inside { result ≤ length marks.now }
    ensures few { length marks.now ≤ 256 }
    ensures other { result < length marks.now → nat_eq result start.0 ≡ false }
    ensures passed { ArePassed marks.now turns start.0 from result best.now }
{
    let limit = number_of_best(best);
    let at = marks.next(from, limit, turns);
    if at == start.0 && at < marks.len() {
        return marks.next(at + 1, limit, turns);
    }
    at
}

// Whether a rank that bounds all pairs does not come before the best so far on this machine, and so on none behind it.
fn is_later(earliest: &Option<Rank>, machine: u32, best: &Option<BestFound>) -> bool
    ensures small { IfSome earliest.now (λ x. IsSmall x) }
    ensures later { result ≡ true → IsSomeAnd earliest.now (λ x. limit_in best.now ≤ packed x machine) }
{
    match earliest {
        Some(rank) => number_of(*rank, machine) >= number_of_best(best),
        None => false,
    }
}

// By such a rank the machines from this one on need no look, and their marks say so.
fn pass_from(
    input: &SearchInput<'_>,
    earliest: Option<Rank>,
    from: u32,
    marks: &mut Marks,
    best: &Option<BestFound>,
)
    requires earliest { IfSome earliest (λ rank. IsEarliest input.now rank) }
    requires small { IfSome earliest (λ x. IsSmall x) }
    requires later { IsSomeAnd earliest (λ x. limit_in best.now ≤ packed x from) }
    requires inside { from ≤ length marks.old }
    requires old { AreMarked input.now marks.old }
    ensures marked { length marks.new ≡ length marks.old }
    ensures marks { AreMarked input.now marks.new }
    ensures passed { (m : ℕ) → from ≤ m → m < length marks.old → is_some (key_of (mark_at marks.new m) input.now.turns) ≡ true → IsAbove (mark_at marks.new m) input.now.turns m (limit_in best.now) }
{
    marks.bound_from(from, number_of_best(best), earliest, input.turns);
}

// The number of the least bound so far.
fn number_of_least(least: &Option<Least>) -> u128
    ensures { result ≡ number_in least.now }
{
    match least {
        Some(one) => one.key,
        None => number_of_none(),
    }
}

// The least bound so far, or that of one machine more.
fn lesser_of(least: Option<Least>, key: u128, machine: MachineNo) -> Option<Least>
    requires { IfSome least (λ x. x.machine.0 ≤ machine.0) }
    ensures kept { (k : MarkRecord) (t m : ℕ) → IsBehind k t m least → IsBehind k t m result }
    ensures itself { (k : MarkRecord) (t : ℕ) → IsAbove k t machine.0 key → IsBehind k t machine.0 result }
    ensures there { IfSome result (λ x. x.machine.0 ≤ machine.0) }
{
    match least {
        Some(one) => {
            if key < one.key {
                Some(Least { key, machine })
            } else {
                Some(one)
            }
        }
        None => Some(Least { key, machine }),
    }
}

// The same, where one machine more is asked for its bound: one that is closed has none.
fn lesser_at(
    wishes: &Wishes,
    marks: &Marks,
    turns: u64,
    machine: MachineNo,
    least: Option<Least>,
) -> Option<Least>
    requires machine { machine.0 < length marks.now }
    requires before { IfSome least (λ x. x.machine.0 ≤ machine.0) }
    ensures kept { (k : MarkRecord) (t m : ℕ) → IsBehind k t m least → IsBehind k t m result }
    ensures itself { is_unsettled_by wishes.now.opened (mark_at marks.now machine.0) turns machine.0 ≡ true → IsBehind (mark_at marks.now machine.0) turns machine.0 result }
    ensures there { IfSome result (λ x. x.machine.0 ≤ machine.0) }
{
    if !wishes.is_open(machine) {
        return least;
    }
    lesser_of(least, marks.key(machine.0, turns), machine)
}

// The machine of least bound among those that are unsettled: from one to the next of lesser bound.
fn least_machine(wishes: &Wishes, marks: &Marks, turns: u64) -> Option<Least>
    ensures there { IfSome result (λ x. x.machine.0 < length marks.now) }
    ensures behind { AreBehind wishes.now.opened marks.now turns (length marks.now) result }
{
    let mut least = None;
    let mut at = marks.next(0, number_of_none(), turns);
    while at < marks.len() {
        least = lesser_at(wishes, marks, turns, MachineNo(at), least);
        at = marks.next(at + 1, number_of_least(&least), turns);
    }
    least
}

// The best of what was found on the machine that was considered first and of what is placeable on the others, in the order
// of machines.
fn best_of_others<L: Ledger>(
    input: &SearchInput<'_>,
    start: MachineNo,
    marks: &mut Marks,
    steps: &mut Steps<L>,
    best: &mut Option<BestFound>,
)
    requires ready { CanSearch input.now }
    requires marked { length marks.old ≡ length input.now.table.now.cluster.machines }
    requires old { AreMarked input.now marks.old }
    requires seen { IsLeastOn input.now best.old start.0 }
    requires settled { best.old ≡ None → IsSettledBy input.now start.0 (mark_at marks.old start.0) }
    ensures marked { length marks.new ≡ length marks.old }
    ensures marks { AreMarked input.now marks.new }
    ensures least { (m : ℕ) → m < length input.now.table.now.cluster.machines → IsLeastOn input.now best.new m }
    ensures found { IfSome best.old (λ x. IsFoundIn input.now x) → IfSome best.new (λ x. IsFoundIn input.now x) }
    ensures count { steps.new ≤ steps.old + count_below (λ m. not (nat_eq m start.0) && is_unsettled_by input.now.wishes.now.opened (mark_at marks.old m) input.now.turns m) (length input.now.table.now.cluster.machines) }
    ensures settled { best.new ≡ None → (m : ℕ) → m < length input.now.table.now.cluster.machines → IsSettledBy input.now m (mark_at marks.new m) }
{
    let mut at = next_other(marks, start, 0, input.turns, best);
    if at >= marks.len() {
        return;
    }
    let earliest = earliest(input);
    while at < marks.len() {
        if is_later(&earliest, at, best) {
            pass_from(input, earliest, at, marks, best);
            return;
        }
        consider_at(input, MachineNo(at), marks, steps, best);
        at = next_other(marks, start, at + 1, input.turns, best);
    }
}

// Whether what was found has a rank that is no later than the least bound, so that no other machine comes before it.
fn is_decided(best: &Option<BestFound>, least: &Least) -> bool
    ensures { result ≡ true → IsSomeAnd best.now (λ x. packed x.rank x.pick.machine.0 ≤ least.now.key) }
{
    match best {
        Some(found) => number_of(found.rank, found.pick.machine.0) <= least.key,
        None => false,
    }
}

// The best placeable pair on all machines, where this one has the least bound: it is considered first, and where it has a pair with
// that bound the others are not.
fn best_from_least<L: Ledger>(
    input: &SearchInput<'_>,
    least: Least,
    marks: &mut Marks,
    steps: &mut Steps<L>,
) -> Option<BestFound>
    requires ready { CanSearch input.now }
    requires marked { length marks.old ≡ length input.now.table.now.cluster.machines }
    requires old { AreMarked input.now marks.old }
    requires there { least.machine.0 < length input.now.table.now.cluster.machines }
    requires behind { AreBehind input.now.wishes.now.opened marks.old input.now.turns (length input.now.table.now.cluster.machines) (Some least) }
    ensures marked { length marks.new ≡ length marks.old }
    ensures marks { AreMarked input.now marks.new }
    ensures least { (m : ℕ) → m < length input.now.table.now.cluster.machines → IsLeastOn input.now result m }
    ensures found { IfSome result (λ x. IsFoundIn input.now x) }
    ensures count { steps.new ≤ steps.old + count_below (λ m. is_unsettled_by input.now.wishes.now.opened (mark_at marks.old m) input.now.turns m) (length input.now.table.now.cluster.machines) }
    ensures settled { result ≡ None → (m : ℕ) → m < length input.now.table.now.cluster.machines → IsSettledBy input.now m (mark_at marks.new m) }
{
    let _machines = marks.len();
    let mut best = None;
    consider_at(input, least.machine, marks, steps, &mut best);
    if is_decided(&best, &least) {
        return best;
    }
    best_of_others(input, least.machine, marks, steps, &mut best);
    best
}

/// The placeable pair of first rank, and `None` exactly where none is placeable. Each machine by whose mark a pair may be
/// placeable there is looked at at most once, and where there is none, all of them, but none where no pair waits.
pub(crate) fn first<L: Ledger>(
    wishes: &Wishes,
    line: &Line,
    tree: &Tree,
    turn_of: &[u64],
    turns: u64,
    table: &GrantTable,
    marks: &mut Marks,
    steps: &mut Steps<L>,
) -> Option<Pick>
    requires level { AreLevel wishes.now.cluster (job_at wishes.now.cells) table.now }
    requires admitted { AreAdmitted wishes.now.cells line.now.pairs }
    requires places { length turn_of.now ≡ unit_places }
    requires waits { (a u : ℕ) → has_pair (a, u) line.now.pairs ≡ true → out_of (asks_in wishes.now.cells) table.now.entries a u ≢ 0 }
    requires rises { Rises (turn_in turn_of.now) line.now.pairs }
    requires tree { TreeOf wishes.now.cluster wishes.now.cells line.now.pairs turn_of.now table.now.entries tree.now }
    requires below { (q : Pair) → has_pair q line.now.pairs ≡ true → turn_in turn_of.now q < turns }
    requires marked { length marks.old ≡ length table.now.cluster.machines }
    requires old { (m : ℕ) → get_or wishes.now.opened m false ≡ true → AreBounded (board_over wishes.now.cells wishes.now.opened table.now) table.now.entries (turn_in turn_of.now) line.now.pairs (mark_at marks.old m) m }
    requires later { (m : ℕ) → get_or wishes.now.opened m false ≡ true → AreBoundedLater (board_over wishes.now.cells wishes.now.opened table.now) table.now.entries wishes.now.cells turns (mark_at marks.old m) m }
    ensures marked { length marks.new ≡ length marks.old }
    ensures bounded { (m : ℕ) → get_or wishes.now.opened m false ≡ true → AreBounded (board_over wishes.now.cells wishes.now.opened table.now) table.now.entries (turn_in turn_of.now) line.now.pairs (mark_at marks.new m) m }
    ensures later { (m : ℕ) → get_or wishes.now.opened m false ≡ true → AreBoundedLater (board_over wishes.now.cells wishes.now.opened table.now) table.now.entries wishes.now.cells turns (mark_at marks.new m) m }
    ensures first { option_map spot_of result ≡ first_in (board_over wishes.now.cells wishes.now.opened table.now) table.now.entries line.now.pairs }
    ensures count { steps.new ≤ steps.old + count_below (λ m. is_unsettled_by wishes.now.opened (mark_at marks.old m) turns m) (length table.now.cluster.machines) }
    ensures settled { result ≡ None → (m : ℕ) → m < length table.now.cluster.machines → get_or wishes.now.opened m false ≡ true → key_of (mark_at marks.new m) turns ≡ None }
{
    marks.renew(turns);
    if line.len() == 0 {
        settle_all(marks, turns);
        return None;
    }
    let Some(least) = least_machine(wishes, marks, turns) else {
        return None;
    };
    let input = SearchInput {
        wishes,
        line,
        tree,
        turn_of,
        turns,
        table,
    };
    match best_from_least(&input, least, marks, steps) {
        Some(found) => Some(found.pick),
        None => None,
    }
}
