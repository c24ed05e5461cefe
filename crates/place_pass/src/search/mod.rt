//! The search for the placeable pair of first rank. A machine is looked at only where its bound comes before the best
//! pair so far; what is free there is then asked once. Where it has a bound its path is walked to the first pair that may be placed
//! there, and else the pairs that were appended since are looked at. A unit that has its greatest number on a machine is passed there
//! like one that does not fit.

ghost use Rattle.std.specs.Prelude.{◌<◌};

mod earliest;
mod look;
mod machines;
mod order;

use crate::demand::Wishes;
use crate::line::Line;
use crate::marks::Rank;
use grant_table::{GrantTable, Pick};
use locality_tree::Tree;
pub(crate) use machines::first;
use schedule_unit::{AppNo, MachineNo, UnitNo};

/// A placeable pair of a unit and a machine, with its rank there.
#[derive(Clone, Copy, Debug)]
pub(crate) struct BestFound {
    pub(crate) rank: Rank,
    pub(crate) pick: Pick,
}

/// The best pair of one machine, with its rank there.
#[derive(Clone, Copy, Debug)]
pub(crate) struct Candidate {
    pub(crate) rank: Rank,
    pub(crate) app: AppNo,
    pub(crate) unit: UnitNo,
}

/// A machine with a number that is not above that of its bound.
#[derive(Clone, Copy, Debug)]
pub(crate) struct Least {
    pub(crate) key: u128,
    pub(crate) machine: MachineNo,
}

/// What a search reads: what is asked, the line with its tree and the turns of its pairs, the next turn, and the table.
#[derive(Clone, Copy)]
pub(crate) struct SearchInput<'a> {
    pub(crate) wishes: &'a Wishes,
    pub(crate) line: &'a Line,
    pub(crate) tree: &'a Tree,
    pub(crate) turn_of: &'a [u64],
    pub(crate) turns: u64,
    pub(crate) table: &'a GrantTable,
}
