//! The laws of the definitions. Each function does nothing; its contract is a law.

ghost use Rattle.ledger_law.specs.Differing.{ByDifference};

use crate::ledger::Ledger;

/// The law of differences, of every ledger: changing a value by its difference to another gives the other,
/// where the difference can be made on its way; and only the difference does. It does nothing; its contract
/// is this law.
pub fn patched_by_difference<L: Ledger>()
    ensures { ByDifference L.has_form L.is_change L.reaches L.patched L.difference }
{}
