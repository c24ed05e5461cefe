//! The spots at which grants changed.

ghost use Rattle.std.specs.Prelude.{◌≡◌, map, IfOk};
ghost use Rattle.fuxi_terms.specs.Keys.{Spot};
ghost use Rattle.ledger_updates.specs.AllShown.{spot_of, has_spot, AreInOrder};
ghost use Rattle.ledger_updates.specs.TouchedNumbers.{has_place};

use fuxi_terms::OutOfMemory;
use grant_table::{GrantTable, Pick};
use std::alloc::Global;

/// The spots, each once, in the order of job, unit and machine. Where memory is refused there is no list of them.
pub fn in_order(alloc: Global, spots: &[Pick]) -> Result<Vec<Pick>, OutOfMemory>
    ensures order { IfOk result (λ ordered. AreInOrder (map spot_of ordered.items)) }
    ensures same { IfOk result (λ ordered. (s : Spot) → has_spot s (map spot_of ordered.items) ≡ has_spot s (map spot_of spots.now)) }
{
    let mut ordered = Vec::from_slice(alloc, spots)?;
    ordered.sort_unstable_by_key(|pick| (pick.app, pick.unit, pick.machine));
    ordered.dedup();
    Ok(ordered)
}

// Whether a spot is of an admitted unit and of a machine of the cluster.
pub(crate) fn has_place(table: &GrantTable, spot: &Pick) -> bool
    ensures { result ≡ has_place table.now (spot_of spot.now) }
{
    (spot.unit.0 as usize) < table.units(spot.app) && spot.machine.0 < table.cluster().machines()
}
