//! The two tallies: what a master grants an application, and what an application demands.

ghost use Rattle.std.specs.Prelude.{◌≡◌};
ghost use Rattle.fuxi_terms.specs.TallyKeys.{is_place, greatest_grant, greatest_demand};

use fuxi_terms::limits::{GREATEST_BACK, GREATEST_COUNT, MOST_MACHINES, MOST_RACKS, MOST_UNITS};
use fuxi_terms::tally_keys::{BACK, CREDITED};
use ledger_law::{Key, Shape, Tally};

// Whether a key names a unit and a machine.
fn is_place(key: &Key) -> bool
    ensures { result ≡ is_place key.now }
{
    (key.unit as usize) < MOST_UNITS && (key.number as usize) < MOST_MACHINES
}

/// The keys of [`Grants`].
#[derive(Clone, Copy, Debug, Drop)]
pub struct GrantShape;

impl Shape for GrantShape {
    ghost use Rattle.fuxi_terms.specs.TallyKeys.{greatest_grant, credited_what};
    ghost use Rattle.party_ledgers.specs.PartyShapes.{grant_bounded, grant_writable};

    ghost DROPPED = { credited_what };

    ghost greatest_of = { greatest_grant };

    ghost bounded = { grant_bounded };

    ghost writable = { grant_writable };

    const DROPPED: u8 = CREDITED;

    fn greatest(key: &Key) -> u64 {
        if !is_place(key) {
            return 0;
        }
        match key.what {
            1 if key.unit == 0 => 1,
            2 => GREATEST_COUNT,
            3 => GREATEST_BACK,
            _ => 0,
        }
    }
}

/// The keys of [`Demand`].
#[derive(Clone, Copy, Debug, Drop)]
pub struct DemandShape;

impl Shape for DemandShape {
    ghost use Rattle.fuxi_terms.specs.TallyKeys.{greatest_demand, back_what};
    ghost use Rattle.party_ledgers.specs.PartyShapes.{demand_bounded, demand_writable};

    ghost DROPPED = { back_what };

    ghost greatest_of = { greatest_demand };

    ghost bounded = { demand_bounded };

    ghost writable = { demand_writable };

    const DROPPED: u8 = BACK;

    fn greatest(key: &Key) -> u64 {
        if !is_place(key) {
            return 0;
        }
        match key.what {
            1 if key.number == 0 => GREATEST_COUNT,
            2 => GREATEST_COUNT,
            3 if key.number < MOST_RACKS => GREATEST_COUNT,
            4 => 1,
            5 => GREATEST_BACK,
            _ => 0,
        }
    }
}

/// What a master grants an application. The head is the boot of the application; its entries are by kind
/// 1, that a machine is reported (unit 0, the machine, value 1); 2, the grants of a unit on a machine; 3,
/// what was credited of a unit on a machine, which goes with a new boot.
pub type Grants = Tally<GrantShape>;

/// What an application demands. The head is the epoch; its entries are by kind 1, the grants of a unit that
/// are wanted (number 0); 2, on which machine they are wanted near; 3, in which rack; 4, the machines that a
/// unit avoids (value 1); 5, what was given back of a unit on a machine, which goes with a new epoch.
pub type Demand = Tally<DemandShape>;
