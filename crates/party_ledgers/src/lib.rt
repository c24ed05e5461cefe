//! The ledgers that parties keep of one another: what is granted on a machine, to an application, what an
//! application demands, and what an agent joins an epoch with.
#![tactic(auto)]

ghost use Rattle.fuxi_terms.specs.declared.answers.LedgerFault.TheVariants.{Below, TooGreat};
ghost use Rattle.fuxi_terms.specs.Keys.{row_cmp};
ghost use Rattle.fuxi_terms.specs.Counts.{difference, AreChanges};
ghost use Rattle.fuxi_terms.specs.Rows.{IsRow, patched_row};
ghost use Rattle.fuxi_terms.specs.Tallies.{patched_tally, tally_difference};
ghost use Rattle.fuxi_terms.specs.TallyKeys.{greatest_grant, greatest_demand, credited_what, back_what};
ghost use Rattle.ledger_law.specs.Shapes.{IsTally};
ghost use Rattle.ledger_law.specs.Differing.{ByDifference, AlwaysReaches, IsTallyChange};
ghost use Rattle.party_ledgers.specs.Joins.{IsJoin};
ghost use Rattle.party_ledgers.specs.PartyDifferences.{AreFewTogether, IsReplacement, replaced, replacement};

mod header;
mod join;
mod packets;
mod row;
mod row_forms;
mod row_ledger;
mod row_totals;
mod shapes;

pub use header::Header;
pub use join::JoinLedger;
pub use packets::{Body, Heard, Kind, Packet, Packets, What, are_parties, is_place_of};
pub use row_ledger::{RowChange, RowEntry, RowLedger};
pub use shapes::{Demand, DemandShape, GrantShape, Grants};

/// The law of differences at each of the four ledgers. Changing a value by its difference to another gives the
/// other; of rows where the keys of both are not too many together. Only the difference does, and that of a
/// report is the new report. It does nothing; its contract is this law.
pub fn patched_by_difference()
    ensures rows { ByDifference IsRow (AreChanges row_cmp) AreFewTogether patched_row (difference row_cmp) }
    ensures reports { ByDifference IsJoin IsReplacement AlwaysReaches replaced replacement }
    ensures grants { ByDifference (IsTally greatest_grant) IsTallyChange AlwaysReaches (patched_tally Below TooGreat greatest_grant credited_what) (tally_difference credited_what) }
    ensures demands { ByDifference (IsTally greatest_demand) IsTallyChange AlwaysReaches (patched_tally Below TooGreat greatest_demand back_what) (tally_difference back_what) }
{
    ledger_law::law::patched_by_difference::<RowLedger>();
    ledger_law::law::patched_by_difference::<JoinLedger>();
    ledger_law::law::patched_by_difference::<Grants>();
    ledger_law::law::patched_by_difference::<Demand>();
}
